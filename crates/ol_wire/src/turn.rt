//! The result of a turn.
use ol_net::Rule;

/// The result of a turn.
///
/// - `Rewrote`: the pair was rewritten, and its entry is in the trace. The four cells from
///   `first_cell` are the cells of its ticket; bit j of `mask` is set if the turn published a pair
///   in the cell with number `first_cell + j`.
/// - `Gone`: the cell was empty.
/// - `Stuck`: the pair has no rule. It is back in its cell.
/// - `Spent`: the pair is active, and the fuel is used up. The pair is back in its cell.
#[derive(Clone, Copy, Debug, PartialEq, Eq)]
pub enum Turn {
    Rewrote {
        ticket: u32,
        rule: Rule,
        first_cell: u32,
        mask: u8,
    },
    Gone,
    Stuck,
    Spent,
}
