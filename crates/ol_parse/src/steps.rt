//! The subterms that end at the operations of a list.

ghost use Rattle.std.specs.Prelude.{◌≡◌, ◌<◌, [], ◌∷◌, Some, IfOk, length};
ghost use Rattle.ol_parse.specs.Grammar.{Named};
ghost use Rattle.ol_parse.specs.Flat.{built};
ghost use Rattle.ol_parse.specs.Steps.{term_at, shown, AreBelow, BeginsAt, HaveStarts, HaveStartsTo};

use crate::flat::Op;
use std::alloc::{AllocError, Global};

/// The subterm that ends with an operation, by the operations with which its own subterms end.
#[derive(Clone, Copy)]
pub enum Part<'a> {
    /// An occurrence of the name.
    Occurrence(&'a [u8]),
    /// The abstraction of the name over a body.
    Abstraction(&'a [u8], usize),
    /// The application of a function to an argument.
    Application(usize, usize),
}

// The first step of the term that ends with this one.
fn start_of(steps: &[Op], starts: &[usize], at: usize) -> usize
    requires some { (t : Named) × (built steps.now ≡ Some (t ∷ [])) }
    requires at { at < length steps.now }
    requires before { HaveStartsTo steps.now at starts.now }
    ensures { BeginsAt steps.now at result }
{
    match steps[at] {
        Op::Push(_) => at,
        Op::Abstract(_) => starts[at - 1],
        Op::Apply | Op::ApplyBelow => starts[starts[at - 1] - 1],
    }
}

/// For each operation, the first operation of the subterm that ends with it.
pub fn starts_of(alloc: Global, steps: &[Op]) -> Result<Vec<usize>, AllocError>
    requires { (t : Named) × (built steps.now ≡ Some (t ∷ [])) }
    ensures { IfOk result (λ v. HaveStarts steps.now v.items) }
{
    let mut starts = Vec::with_capacity(alloc, steps.len())?;
    for at in 0..steps.len() {
        let start = start_of(steps, &starts, at);
        starts.push(start)?;
    }
    Ok(starts)
}

/// The subterm that ends with the operation `at`, where `starts` are the first operations.
pub fn part_at<'a>(steps: &[Op<'a>], starts: &[usize], at: usize) -> Part<'a>
    requires starts { HaveStarts steps.now starts.now }
    requires at { at < length steps.now }
    ensures shown { term_at steps.now at ≡ shown steps.now result }
    ensures below { AreBelow at result }
{
    match steps[at] {
        Op::Push(x) => Part::Occurrence(x),
        Op::Abstract(x) => Part::Abstraction(x, at - 1),
        Op::Apply => Part::Application(starts[at - 1] - 1, at - 1),
        Op::ApplyBelow => Part::Application(at - 1, starts[at - 1] - 1),
    }
}
