//! How many binders stand round a place.

ghost use Rattle.std.specs.Prelude.{◌≡◌, ◌+◌, true, IfOk, slice_index};
ghost use Rattle.ol_readback.specs.Whole.{Part, preorder};
ghost use Rattle.ol_readback.specs.Texts.{rounds};

use crate::placing::{lams_and_args, node_at};
use ol_limits::NoMemory;
use ol_readback::ReadTree;

/// The sum.
pub fn sum(a: usize, b: u32) -> Result<usize, NoMemory>
    ensures { IfOk result (λ r. r ≡ a + b) }
{
    let Some(sum) = a.checked_add(b as usize) else {
        return Err(NoMemory);
    };
    Ok(sum)
}

/// How many binders stand round place k: those of each place that holds it in one of its arguments.
/// 0, where there is no such place.
pub fn round_of(tree: &ReadTree, k: u64) -> Result<usize, NoMemory>
    ensures { IfOk result (λ round. (part : Part true) → preorder part ≡ tree.now
        → round ≡ slice_index (rounds 0 part) k) }
{
    tree.is_whole();
    if k >= tree.len() as u64 {
        return Ok(0);
    }
    let mut trees: u64 = 0;
    let mut round: usize = 0;
    let mut place = k;
    'back: while place > 0 {
        place -= 1;
        let (lams, args) = lams_and_args(node_at(tree, place));
        if trees < args as u64 {
            trees = 0;
            let more = sum(round, lams)?;
            round = more;
        } else {
            trees = trees - args as u64 + 1;
        }
    }
    Ok(round)
}
