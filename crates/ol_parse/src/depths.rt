//! The depth of the term of a list of operations, before the term is built.

ghost use Rattle.std.specs.Prelude.{◌≡◌, ◌+◌, ◌*◌, ◌<◌, ◌≤◌, ◌^◌, ℕ, List, [], ◌∷◌, Option, Some, IsSome, IfOk, OnOk, length, map, max, reverse, All};
ghost use Rattle.ol_parse.specs.Grammar.{Named};
ghost use Rattle.ol_parse.specs.Flat.{built};
ghost use Rattle.ol_parse.specs.Depth.{named_depth, CanPut, Deepens};

use crate::flat::Op;
use std::alloc::{AllocError, Global};

fn over(a: u64, b: u64) -> u64
    requires { (a < 2 ^ 63) × (b < 2 ^ 63) }
    ensures { result ≡ 1 + max a b }
{
    if a < b { 1 + b } else { 1 + a }
}

/// Takes one step on the stack of depths.
fn deepen(op: Op, done: u64, stack: &mut Vec<u64>) -> Result<(), AllocError>
    requires few { done < 2 ^ 62 }
    requires bounded { All (λ d. d ≤ done) stack.old.items }
    requires can { CanPut op stack.old.items }
    ensures bounded { OnOk result (All (λ d. d ≤ done + 2) stack.new.items) }
    ensures deep { OnOk result (Deepens op.entry stack.old.items stack.new.items) }
{
    match op {
        Op::Push(_) => stack.push(1)?,
        Op::Apply => match (stack.pop(), stack.pop()) {
            (Some(argument), Some(function)) => stack.push(over(function, argument))?,
            _ => unreachable!(),
        },
        Op::Abstract(_) => match stack.pop() {
            Some(body) => stack.push(1 + body)?,
            None => unreachable!(),
        },
        Op::ApplyBelow => match (stack.pop(), stack.pop()) {
            (Some(function), Some(argument)) => stack.push(over(function, argument))?,
            _ => unreachable!(),
        },
    }
    Ok(())
}

/// The depth of the term that the operations build.
pub fn depth_of(alloc: Global, ops: &[Op]) -> Result<u64, AllocError>
    requires some { (t : Named) × (built ops.now ≡ Some (t ∷ [])) }
    requires few { length ops.now < 2 ^ 60 }
    ensures { IfOk result (λ d. (t : Named) → built ops.now ≡ Some (t ∷ []) → d ≡ named_depth t) }
{
    let mut stack = Vec::new(alloc);
    let mut done: u64 = 0;
    for op in ops {
        deepen(*op, done, &mut stack)?;
        done += 2;
    }
    match stack.pop() {
        Some(d) => Ok(d),
        None => unreachable!(),
    }
}
