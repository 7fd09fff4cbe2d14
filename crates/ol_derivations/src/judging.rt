//! The verdict on a term of a derivation, by the one before it.

ghost use Rattle.std.specs.Prelude.{◌≡◌, ◌≢◌, ◌↔◌, ◌≤◌, true, Some, IfOk};
ghost use Rattle.ol_term.specs.Trees.{tree_of, is_below};
ghost use Rattle.ol_beta.specs.Beta.{IsWithin};
ghost use Rattle.ol_beta.specs.Leftmost.{leftmost};
ghost use Rattle.ol_derivations.specs.Steps.{IsNoStep};
ghost use Rattle.ol_derivations.specs.Verdicts.{IsVerdict, is_fine};

use crate::forms::differ;
use crate::searching::steps_between;
use crate::stepping::step_found;
use ol_beta::{Address, redex};
use ol_limits::NoMemory;
use ol_term::{Term, alpha_eq};
use std::alloc::Global;

// The most leftmost steps from a term to its normal form.
const MOST_LEFTMOST: u32 = 1000;

/// What is said of a term, by the one before it. The first that fits is the verdict.
#[derive(Debug, Drop)]
pub enum Verdict {
    /// One beta step leads to it, at the address with these moves: 0 leads into the body of an
    /// abstraction, 1 into a function, 2 into an argument. Where several redexes give the term, it
    /// is the first address in preorder. It is told whether this is the leftmost redex.
    Step { at: Vec<u8>, leftmost: bool },
    /// It is the same term, up to the names of binders.
    Same,
    /// So many beta steps lead to it and no fewer, 2 to 5. This is told if the term before has at
    /// most 1,000 reductions of fewer steps, the empty one not counted, and if each of these leads
    /// to a term of at most 100,000 constructors, at most 1,000 of them one within another.
    Steps(u32),
    /// Leftmost reduction of both ends in different normal forms, by at most 1,000 steps each.
    Apart,
    /// No beta step leads to it, and none of these is told.
    NoStep,
}

impl Verdict {
    /// Whether a derivation may go on so: by one beta step, or with the same term.
    pub fn is_fine(&self) -> bool
        ensures { result ≡ is_fine self.now }
    {
        match self {
            Verdict::Step { .. } => true,
            Verdict::Same => true,
            Verdict::Steps(_) => false,
            Verdict::Apart => false,
            Verdict::NoStep => false,
        }
    }
}

// The moves of an address.
fn moves_of(alloc: Global, at: &Address) -> Result<Vec<u8>, NoMemory>
    ensures { IfOk result (λ moves. moves.items ≡ at.now) }
{
    let mut moves: Vec<u8> = Vec::new(alloc);
    for k in 0..at.len() {
        let Some(to) = at.get(k) else { unreachable!() };
        moves.push(to)?;
    }
    Ok(moves)
}

// Whether an address is that of the leftmost redex of a term.
fn is_leftmost(alloc: Global, t: &Term, at: &[u8]) -> Result<bool, NoMemory>
    requires within { IsWithin (tree_of t.now) }
    ensures { IfOk result (λ r. (r ≡ true) ↔ (leftmost (tree_of t.now) ≡ Some at.now)) }
{
    match redex(alloc, t)? {
        None => Ok(false),
        Some(first) => {
            let moves = moves_of(alloc, &first)?;
            Ok(moves.as_slice() == at)
        }
    }
}

// The verdict on u, which is neither t nor one beta step of it.
fn judge_further(alloc: Global, t: &Term, u: &Term) -> Result<Verdict, NoMemory>
    requires first { IsWithin (tree_of t.now) × (is_below 0 (tree_of t.now) ≡ true) }
    requires second { IsWithin (tree_of u.now) × (is_below 0 (tree_of u.now) ≡ true) }
    requires no_step { IsNoStep (tree_of t.now) (tree_of u.now) }
    requires different { tree_of t.now ≢ tree_of u.now }
    ensures { IfOk result (IsVerdict (tree_of t.now) (tree_of u.now)) }
{
    if let Some(steps) = steps_between(alloc, t, u)? {
        return Ok(Verdict::Steps(steps));
    }
    if differ(alloc, t, u, MOST_LEFTMOST)? {
        Ok(Verdict::Apart)
    } else {
        Ok(Verdict::NoStep)
    }
}

/// The verdict on u, by the term t before it.
///
/// Of each, at most 1,000 constructors stand one within another, it has at most 100,000, and each
/// `Var` is bound.
/// `NoMemory`: no memory was found.
pub fn judge(alloc: Global, t: &Term, u: &Term) -> Result<Verdict, NoMemory>
    requires first { IsWithin (tree_of t.now) × (is_below 0 (tree_of t.now) ≡ true) }
    requires second { IsWithin (tree_of u.now) × (is_below 0 (tree_of u.now) ≡ true) }
    ensures { IfOk result (IsVerdict (tree_of t.now) (tree_of u.now)) }
{
    match step_found(alloc, t, u)? {
        Some(found) => {
            let mut at = found;
            at.reverse();
            let leftmost = is_leftmost(alloc, t, &at)?;
            Ok(Verdict::Step { at, leftmost })
        }
        None => {
            if alpha_eq(t, u) {
                return Ok(Verdict::Same);
            }
            let verdict = judge_further(alloc, t, u)?;
            Ok(verdict)
        }
    }
}
