//! Labelled beta steps.
//!
//! A term is within bounds before a step, and so is what comes of it. So the calls recurse at most
//! 1,000 deep.

ghost use Rattle.std.specs.Prelude.{◌≡◌, ◌+◌, ◌≤◌, ◌∷◌, ◌++◌, [], drop, length, if◌then◌else◌, Some, None, IfOk, OnOk};
ghost use Rattle.std.specs.Option.{option_map};
ghost use Rattle.ol_term.specs.Trees.{depth};
ghost use Rattle.ol_beta.specs.Measures.{HasRoom};
ghost use Rattle.ol_limits.specs.Limits.{most_depth};
ghost use Rattle.ol_families.specs.Held.{held_of, bare, before, contracted, degree, degree_of_abstraction, substituted};

use crate::degrees::Letter;
use crate::labelling::{LabelledTerm, copied, put_before, raised, row_of};
use ol_limits::NoMemory;
use std::alloc::Global;
use std::mem;

/// Puts the argument of a redex in each place of variable `d` of a body, whose abstraction goes.
/// Each place puts its label before that of the argument.
fn substitute(
    alloc: Global,
    body: &mut LabelledTerm,
    d: u32,
    argument: &LabelledTerm,
) -> Result<(), NoMemory>
    requires room { HasRoom most_depth (bare (held_of argument.now)) }
    requires inside { d + depth (bare (held_of body.old)) ≤ most_depth }
    requires shallow { depth (bare (held_of argument.now)) ≤ most_depth }
    ensures { OnOk result
        (held_of body.new ≡ substituted (held_of argument.now) d (held_of body.old)) }
{
    match body {
        LabelledTerm::Var(k, w) => {
            if *k == d {
                let word = mem::replace(w, Vec::new(alloc));
                let part = raised(alloc, argument, d, 0)?;
                *body = put_before(word, part)?;
            } else if *k > d {
                *k -= 1;
            }
            Ok(())
        }
        LabelledTerm::Free(_, _) => Ok(()),
        LabelledTerm::Lam(inner, _) => {
            substitute(alloc, inner, d + 1, argument)?;
            Ok(())
        }
        LabelledTerm::App(left, right, _) => {
            substitute(alloc, left, d, argument)?;
            substitute(alloc, right, d, argument)?;
            Ok(())
        }
    }
}

// A row with one letter more, which goes last.
fn with_letter(row: Vec<Letter>, letter: Letter) -> Result<Vec<Letter>, NoMemory>
    ensures { IfOk result (λ r. r.items ≡ row.items ++ letter ∷ []) }
{
    let mut longer = row;
    longer.push(letter)?;
    Ok(longer)
}

// What becomes of a redex with this body and argument and the label `word` of the application. Its
// degree has this number.
fn joined(
    alloc: Global,
    degree: u32,
    body: LabelledTerm,
    argument: LabelledTerm,
    word: Vec<Letter>,
) -> Result<LabelledTerm, NoMemory>
    requires room { HasRoom most_depth (bare (held_of argument)) }
    requires inside { depth (bare (held_of body)) ≤ most_depth }
    requires shallow { depth (bare (held_of argument)) ≤ most_depth }
    ensures { IfOk result (λ t. held_of t ≡ before (word.items ++ Letter.Over degree ∷ [])
        (substituted (before (Letter.Under degree ∷ []) (held_of argument)) 0 (held_of body))) }
{
    let under = row_of(alloc, Letter::Under(degree))?;
    let part = put_before(under, argument)?;
    let mut inside = body;
    substitute(alloc, &mut inside, 0, &part)?;
    let over = with_letter(word, Letter::Over(degree))?;
    put_before(over, inside)
}

// A redex whose degree has this number, contracted at its root. None comes exactly where a term is
// no redex.
fn contracted_here(
    alloc: Global,
    term: LabelledTerm,
    degree: u32,
) -> Result<Option<LabelledTerm>, NoMemory>
    requires room { HasRoom most_depth (bare (held_of term)) }
    requires shallow { depth (bare (held_of term)) ≤ most_depth }
    ensures { IfOk result (λ t. contracted degree (held_of term) [] ≡ option_map held_of t) }
{
    match term {
        LabelledTerm::App(function, argument, w) => match Box::into_inner(function) {
            LabelledTerm::Lam(body, _) => {
                let inside = Box::into_inner(body);
                let after = joined(alloc, degree, inside, Box::into_inner(argument), w)?;
                Ok(Some(after))
            }
            _ => Ok(None),
        },
        _ => Ok(None),
    }
}

/// Contracts a labelled term in place, at the address whose moves are those from `k` on. The degree
/// of the redex has the number `degree`. False comes exactly where no redex is there; then, and
/// with `NoMemory`, what is left of the term is of no use.
pub fn contract_at(
    alloc: Global,
    term: &mut LabelledTerm,
    moves: &[u8],
    k: usize,
    degree: u32,
) -> Result<bool, NoMemory>
    requires place { k ≤ length moves.now }
    requires room { HasRoom most_depth (bare (held_of term.old)) }
    requires shallow { depth (bare (held_of term.old)) ≤ most_depth }
    ensures { IfOk result (λ found. contracted degree (held_of term.old) (drop k moves.now)
        ≡ (if found then Some (held_of term.new) else None)) }
{
    if k == moves.len() {
        let redex = mem::replace(term, LabelledTerm::Var(0, Vec::new(alloc)));
        let Some(after) = contracted_here(alloc, redex, degree)? else {
            return Ok(false);
        };
        *term = after;
        return Ok(true);
    }
    let found = match term {
        LabelledTerm::Lam(body, _) if moves[k] == 0 => {
            contract_at(alloc, body, moves, k + 1, degree)?
        }
        LabelledTerm::App(function, _, _) if moves[k] == 1 => {
            contract_at(alloc, function, moves, k + 1, degree)?
        }
        LabelledTerm::App(_, argument, _) if moves[k] == 2 => {
            contract_at(alloc, argument, moves, k + 1, degree)?
        }
        _ => false,
    };
    Ok(found)
}

// The label of an abstraction. None comes exactly where a term isn't one.
fn label_of_abstraction(alloc: Global, term: &LabelledTerm) -> Result<Option<Vec<Letter>>, NoMemory>
    ensures { IfOk result (λ row.
        option_map (λ r. r.items) row ≡ degree_of_abstraction (held_of term.now)) }
{
    match term {
        LabelledTerm::Lam(_, w) => {
            let label = copied(alloc, w)?;
            Ok(Some(label))
        }
        _ => Ok(None),
    }
}

/// The degree of the redex at the address whose moves are those from `k` on: the label of its
/// abstraction. None comes exactly where no redex is there.
pub fn degree_at(
    alloc: Global,
    term: &LabelledTerm,
    moves: &[u8],
    k: usize,
) -> Result<Option<Vec<Letter>>, NoMemory>
    requires place { k ≤ length moves.now }
    ensures { IfOk result (λ row.
        option_map (λ r. r.items) row ≡ degree (held_of term.now) (drop k moves.now)) }
{
    if k == moves.len() {
        return match term {
            LabelledTerm::App(function, _, _) => label_of_abstraction(alloc, function),
            _ => Ok(None),
        };
    }
    match term {
        LabelledTerm::Lam(body, _) if moves[k] == 0 => degree_at(alloc, body, moves, k + 1),
        LabelledTerm::App(function, _, _) if moves[k] == 1 => {
            degree_at(alloc, function, moves, k + 1)
        }
        LabelledTerm::App(_, argument, _) if moves[k] == 2 => {
            degree_at(alloc, argument, moves, k + 1)
        }
        _ => Ok(None),
    }
}
