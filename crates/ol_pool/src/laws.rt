//! The theorem that no cell is lost, at every moment of every execution.
ghost use Rattle.ol_pool.specs.Deques.{NoCellIsLost};

use crate::deques::{Fair, Log};
use crossbeam_deque::protocol::Protocol;

/// Theorem: at every moment, in every interleaving of the calls of all hands, each cell that was
/// put into a hand's deque is in that deque or was given to a hand, exactly as often as it was put.
/// While a pool is being made, before its first cell, a deque may contain the bound of all cells
/// instead.
pub fn no_cell_is_lost()
    ensures { NoCellIsLost ⟦<Fair as Protocol<u32, Log>>⟧.holds }
{}
