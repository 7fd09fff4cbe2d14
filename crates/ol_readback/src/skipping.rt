//! How frames without abstractions are skipped, so that a chain of them isn't climbed again for
//! each head.
//!
//! A list of skips has an entry for each frame, in the order of the frames, or for the first frames
//! only: the number of an enclosing frame, such that no frame between the two has abstractions, or
//! `None` if no enclosing frame has abstractions.

ghost use Rattle.std.specs.Prelude.{◌≡◌, ◌<◌, ℕ, length, Some};
ghost use Rattle.ol_readback.specs.Skipping.{AreSkipsOf, SkipsFrom, SkipsPast};

use crate::frames::Frame;

/// The frame to try after frame `i`: the entry of the skips for frame `i`, or its parent if there
/// is no entry.
pub fn next_round(frames: &Vec<Frame>, skips: &Vec<Option<u32>>, i: u32) -> Option<u32>
    requires at { i < length frames.now.items }
    requires skips { AreSkipsOf frames.now.items skips.now.items }
    ensures { SkipsPast frames.now.items i result }
{
    let k = i as usize;
    if k < skips.len() {
        return skips[k];
    }
    frames[k].parent
}

/// The entry for a frame with this parent: the nearest enclosing frame with abstractions.
pub fn skip_from(frames: &Vec<Frame>, skips: &Vec<Option<u32>>, parent: Option<u32>) -> Option<u32>
    requires parent { (p : ℕ) → parent ≡ Some p → p < length frames.now.items }
    requires skips { AreSkipsOf frames.now.items skips.now.items }
    ensures { SkipsFrom frames.now.items parent result }
{
    let Some(p) = parent else {
        return None;
    };
    if frames[p as usize].lams > 0 {
        return Some(p);
    }
    next_round(frames, skips, p)
}
