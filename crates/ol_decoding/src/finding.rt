//! The place at the end of a path, and the path of a place.

ghost use Rattle.std.specs.Prelude.{◌≡◌, ◌<◌, ◌≤◌, ◌+◌, ℕ, length, drop, IfOk, IfSome, IfNone};
ghost use Rattle.ol_equal.specs.Paths.{IsPathTo};
ghost use Rattle.ol_equal.specs.Walking.{args_of};
ghost use Rattle.ol_decoding.specs.AddedLines.{skipped};

use ol_limits::NoMemory;
use ol_readback::{ReadNode, ReadTree};
use std::alloc::Global;

fn args_of(node: ReadNode) -> u32
    ensures { result ≡ args_of node }
{
    match node {
        ReadNode::Head { args, .. } => args,
        _ => 0,
    }
}

// The place behind so many whole trees, the first of which begins at this place.
#[tactic(auto, using(crate::proofs::Placed::skip_on, crate::proofs::Placed::skip_done, crate::proofs::Placed::skip_past, crate::proofs::Placed::get_within))]
fn skip(tree: &ReadTree, from: u32, trees: u32) -> u32
    requires { from ≤ length tree.now }
    ensures place { result ≡ from + skipped (drop from tree.now) trees }
    ensures within { result ≤ length tree.now }
{
    tree.is_whole();
    let mut at = from;
    let mut left = trees as u64;
    'skip: while left > 0 {
        let Some(node) = tree.get(at) else {
            return at;
        };
        left = left - 1 + args_of(node) as u64;
        at += 1;
    }
    at
}

/// The place to which a path leads in a tree, if it has one.
pub fn place_of(tree: &ReadTree, path: &[u32]) -> Option<u32>
    ensures place { IfSome result (λ k. IsPathTo tree.now k path.now) }
    ensures within { IfSome result (λ k. k < length tree.now) }
    ensures none { IfNone result ((k : ℕ) → IsPathTo tree.now k path.now → ⊥) }
{
    tree.is_whole();
    let mut at: u32 = 0;
    for k in 0..path.len() {
        let number = path[k];
        let Some(node) = tree.get(at) else {
            return None;
        };
        if number == 0 || number > args_of(node) {
            return None;
        }
        at = skip(tree, at + 1, number - 1);
    }
    Some(at)
}

/// The path of a place that a tree has. `NoMemory`: no memory was found.
#[tactic(auto, using(crate::proofs::Placed::path_down, crate::proofs::Placed::path_over, crate::proofs::Placed::path_back))]
pub fn path_of(alloc: Global, tree: &ReadTree, place: u32) -> Result<Vec<u32>, NoMemory>
    requires { place < length tree.now }
    ensures { IfOk result (λ path. IsPathTo tree.now place path.items) }
{
    tree.is_whole();
    let mut numbers: Vec<u32> = Vec::new(alloc);
    let mut trees: u32 = 0;
    let mut at = place;
    'back: while at > 0 {
        at -= 1;
        let Some(node) = tree.get(at) else {
            unreachable!()
        };
        let args = args_of(node);
        if trees < args {
            numbers.push(trees + 1)?;
            trees = 0;
        } else {
            trees = trees - args + 1;
        }
    }
    numbers.reverse();
    Ok(numbers)
}
