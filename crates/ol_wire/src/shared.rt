//! The table that the threads share.
//!
//! - `seats`: how its seats are handed out, split and joined.
//! - `turns`: a turn: a claim, and what happens to the claimed pair.
//! - `steps`: the single steps of a turn, except the steps of its links.
//! - `links`: the links that an interaction makes.
//! - `moments`: loads that observe the whole table.
//! - `close`: the end of the table.
ghost use Rattle.std.specs.Prelude.{◌≡◌, ◌+◌, ◌<◌, ◌≤◌, [], All, IfOk, vec_len, length, is_some, count_by};
ghost use Rattle.ol_limits.specs.Limits.{most_fuel};
ghost use Rattle.ol_wire.specs.Layout.{table_size as size_of, cells_of};
ghost use Rattle.ol_wire.specs.Sizes.{IsSmall, IsSmallNet};
ghost use Rattle.ol_wire.specs.Starts.{AreParts};
ghost use Rattle.ol_wire.specs.Stand.{TableState, IsNewSeat};
ghost use Rattle.ol_wire.specs.Tokens.{IsTable};
ghost use Rattle.ol_wire.specs.Views.{fresh};

mod close;
mod links;
mod moments;
mod seats;
mod steps;
mod turns;

use crate::law::Law;
use crate::layout::Parts;
use crate::net_words::lay;
use crate::plan::Plan;
use crate::seat::Seat;
use crate::view::View;
use atomic_table::Table;
use ol_limits::{Fuel, NoMemory};
use ol_net::Net;
use std::alloc::Global;
use std::marker::Model;
use std::snapshot::Snapshot;

/// The words of a net that up to 64 threads rewrite.
#[derive(Drop)]
pub struct Shared {
    pub(crate) table: Table<(), View, Plan, Law, Global>,
    pub(crate) parts: Parts,
    pub(crate) seats: u32,
}

impl Model for Shared {
    ghost Value = { TableState };

    ghost view = { λ s. record { table = s.table.shared.table_id; plan = s.table.shared.key } };

    ghost invariant = { λ s. IsTable s.table.shared.key s.table.shared.table_id s.parts s.seats };
}

impl Shared {
    /// A table with the words of a net, for at most `fuel` tickets, and its seats.
    ///
    /// - `net`: a net none of whose numbers belongs to a removed node: at most 1,000,000 nodes, at
    ///   most 1,000,000 free ports, no index above 1,000,000.
    /// - `fuel`: at most 8,000,000 tickets, each of 22 words. `seats`: 1 to 64.
    ///
    /// Each pair of the net whose principal ports are linked has a cell: cell c has the c-th pair,
    /// in the order of the smaller node numbers. The memory for all words of the reduction is
    /// allocated here. `NoMemory`: no memory was found for them.
    pub fn make(
        alloc: Global,
        net: &Net,
        fuel: u32,
        seats: u32,
    ) -> Result<(Shared, Vec<Seat>), NoMemory>
        requires whole { count_by is_some net.now.nodes ≡ length net.now.nodes }
        requires small { IsSmallNet net.now }
        requires fuel { fuel ≤ most_fuel }
        requires seats { (0 < seats) × (seats ≤ 64) }
        ensures parts { IfOk result (λ r. AreParts net.now fuel r.0.plan.parts) }
        ensures start { IfOk result (λ r. r.0.plan.start.value ≡ net.now) }
        ensures seats { IfOk result (λ r. (r.0.plan.seats ≡ seats) × (vec_len r.1 ≡ seats)) }
        ensures dealt { IfOk result (λ r. All (IsNewSeat r.0) r.1.items) }
    {
        let (parts, words) = lay(alloc, net, Fuel { most: fuel })?;
        let plan = Plan {
            parts,
            seats,
            start: Snapshot::of(net),
        };
        let (table, token) = Table::of_words(alloc, words.as_slice(), &plan)?;
        let shared = Shared {
            table,
            parts,
            seats,
        };
        let first = Seat {
            token,
            over: false,
            holds: seats,
        };
        let dealt = shared.deal(alloc, first, seats)?;
        Ok((shared, dealt))
    }

    /// The number of cells: the cells of the initial net, and four for each ticket.
    pub fn cells(&self) -> u32
        ensures { result ≡ cells_of self.now.plan.parts }
    {
        self.parts.all_cells()
    }

    /// The number of seats.
    pub fn seats(&self) -> u32
        ensures { result ≡ self.now.plan.seats }
    {
        self.seats
    }
}
