//! From names to de Bruijn numbers.

ghost use Rattle.std.specs.Prelude.{◌≡◌, ◌+◌, ◌^◌, ◌<◌, ◌≤◌, ℕ, List, [], ◌∷◌, ◌++◌, Option, Some, true, IfOk, OnOk, length, map, reverse, MatchOption};
ghost use Rattle.ol_parse.specs.Grammar.{Named};
ghost use Rattle.ol_parse.specs.Flat.{built};
ghost use Rattle.ol_term.specs.Trees.{tree_of, is_below, is_named_below, depth};
ghost use Rattle.ol_parse.specs.Depth.{named_depth};
ghost use Rattle.ol_parse.specs.Laws.{leaves};
ghost use Rattle.ol_parse.specs.Steps.{term_at, whole, HaveStarts};
ghost use Rattle.ol_term.specs.NameLists.{position_of};
ghost use Rattle.ol_parse.specs.Numbered.{names_of, number, numbered};
ghost use Rattle.ol_parse.specs.Resolving.{texts, names_from, add_unless, IsNumbered};

use crate::bytes::is_same;
use crate::flat::Op;
use crate::steps::{Part, part_at, starts_of};
use ol_limits::NoMemory;
use ol_term::{Names, Term, TermFile, boxed};
use std::alloc::Global;

/// The number of the innermost binder of a name, counted from the innermost as 0.
fn binder(binders: &[&[u8]], name: &[u8]) -> Option<u32>
    requires { length binders.now < 2 ^ 32 }
    ensures { result ≡ position_of name.now (texts (reverse binders.now)) }
{
    for i in 0..binders.len() {
        if is_same(name, binders[binders.len() - 1 - i]) {
            return Some(i as u32);
        }
    }
    None
}

/// Numbers the names of the term that ends with this step and stands under these binders.
fn resolve<'a>(
    alloc: Global,
    steps: &[Op<'a>],
    starts: &[usize],
    at: usize,
    binders: &mut Vec<&'a [u8]>,
    names: &mut Names,
) -> Result<Term, NoMemory>
    requires starts { HaveStarts steps.now starts.now }
    requires at { at < length steps.now }
    requires shallow { length binders.old.items + named_depth (term_at steps.now at) < 2 ^ 32 }
    requires few { length names.old + leaves (term_at steps.now at) ≤ 4294967295 }
    ensures kept { OnOk result (binders.new.items ≡ binders.old.items) }
    ensures few { OnOk result (length names.new
        ≤ length names.old + leaves (term_at steps.now at)) }
    ensures names { OnOk result (names.new
        ≡ names_from (texts (reverse binders.old.items)) names.old (term_at steps.now at)) }
    ensures numbered { IfOk result (λ t. IsNumbered names.new
        (texts (reverse binders.old.items)) (term_at steps.now at) (tree_of t)) }
{
    match part_at(steps, starts, at) {
        Part::Occurrence(x) => match binder(&*binders, x) {
            Some(k) => Ok(Term::Var(k)),
            None => Ok(Term::Free(names.add(x)?)),
        },
        Part::Abstraction(x, body) => {
            binders.push(x).map_err(|_| NoMemory)?;
            let inside = resolve(alloc, steps, starts, body, binders, names)?;
            let _ = binders.pop();
            Ok(Term::Lam(boxed(alloc, inside)?))
        }
        Part::Application(f, a) => {
            let function = resolve(alloc, steps, starts, f, binders, names)?;
            let argument = resolve(alloc, steps, starts, a, binders, names)?;
            Ok(Term::App(boxed(alloc, function)?, boxed(alloc, argument)?))
        }
    }
}

/// The term that the operations build, in de Bruijn notation. The free names are numbered in the
/// order of their first occurrence.
pub fn number_term<'a>(alloc: Global, steps: &[Op<'a>]) -> Result<TermFile, NoMemory>
    requires some { (t : Named) × (built steps.now ≡ Some (t ∷ [])) }
    requires shallow { named_depth (whole steps.now) ≤ 1000 }
    requires few { leaves (whole steps.now) ≤ 4294967295 }
    ensures tree { IfOk result (λ file. tree_of file.term ≡ number (whole steps.now)) }
    ensures names { IfOk result (λ file. file.names ≡ names_of (whole steps.now)) }
    ensures shallow { IfOk result (λ file. depth (tree_of file.term) ≤ 1000) }
{
    let starts = starts_of(alloc, steps)?;
    let mut binders = Vec::new(alloc);
    let mut names = Names::new(alloc);
    let last = steps.len() - 1;
    let term = resolve(alloc, steps, &starts, last, &mut binders, &mut names)?;
    Ok(TermFile { term, names })
}
