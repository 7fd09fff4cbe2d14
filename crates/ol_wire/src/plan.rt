//! The constants of a table.
use crate::layout::Parts;
use ol_net::Net;
use std::snapshot::Snapshot;

/// The constants of a table, which its invariant mentions in addition to the words.
#[derive(Drop)]
pub struct Plan {
    /// The layout of the words.
    pub parts: Parts,
    /// The number of seats.
    pub seats: u32,
    /// The initial net, which the words represented before the first step. It takes no memory.
    pub start: Snapshot<Net>,
}
