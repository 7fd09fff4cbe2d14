//! The place that a path leads to.

ghost use Rattle.std.specs.Prelude.{◌≡◌, ℕ, ◌+◌, ◌≤◌, length, drop, max};
ghost use Rattle.ol_equal.specs.Comparing.{place_at};
ghost use Rattle.ol_equal.specs.Paths.{IsPathTo};
ghost use Rattle.ol_equal.specs.Walking.{args_of};
ghost use Rattle.ol_derivations.specs.Heads.{lams_of};
ghost use Rattle.ol_derivations.specs.PlacesOfPaths.{taken, reached};

use ol_equal::Path;
use ol_readback::{ReadNode, ReadTree};

/// Place `k` of a tree; past its end there is nothing to be read.
pub fn node_at(tree: &ReadTree, k: u64) -> ReadNode
    ensures { result ≡ place_at tree.now k }
{
    if k >= tree.len() as u64 {
        return ReadNode::Cut;
    }
    match tree.get(k as u32) {
        Some(node) => node,
        None => ReadNode::Cut,
    }
}

/// How many abstractions and how many arguments a place has.
pub fn lams_and_args(node: ReadNode) -> (u32, u32)
    ensures lams { result.0 ≡ lams_of node }
    ensures args { result.1 ≡ args_of node }
{
    match node {
        ReadNode::Head { lams, args, .. } => (lams, args),
        ReadNode::NoHead => (0, 0),
        ReadNode::Cut => (0, 0),
    }
}

// The place behind so many whole trees, the first of which begins at this place.
fn behind(tree: &ReadTree, from: u64, trees: u32) -> u64
    ensures place { result ≡ from + taken (drop from tree.now) trees }
    ensures near { result ≤ max from (length tree.now) }
{
    tree.is_whole();
    let mut left = trees as u64;
    for place in from..tree.len() as u64 {
        if left == 0 {
            return place;
        }
        let (_, args) = lams_and_args(node_at(tree, place));
        left = left - 1 + args as u64;
    }
    from.max(tree.len() as u64)
}

/// The place that a path leads to.
pub fn place_of(tree: &ReadTree, path: &Path) -> u64
    ensures { (k : ℕ) → IsPathTo tree.now k path.now → result ≡ k }
{
    tree.is_whole();
    let mut place: u64 = 0;
    for i in 0..path.len() {
        let Some(argument) = path.get(i) else {
            unreachable!()
        };
        place = behind(tree, place + 1, argument.saturating_sub(1));
    }
    place
}
