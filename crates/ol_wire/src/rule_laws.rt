//! What the invariant of the table implies: three theorems unfold it, and two follow from it.
ghost use Rattle.ol_wire.specs.Credit.{Credited, IsImplied};
ghost use Rattle.ol_wire.specs.Remembered.{Remembered};
ghost use Rattle.ol_wire.specs.Rule.{Kept, Table};
ghost use Rattle.ol_wire.specs.Still.{NothingIsOverlooked, NothingIsOwed};
ghost use Rattle.ol_wire.specs.declared.plan.Plan.{Plan};

use crate::law::Law;
use crate::plan::Plan;
use crate::view::View;
use atomic_table::TableRule;

/// Theorem: a table that satisfies the invariant represents a reduction: the trace so far is of a
/// reduction of the initial net, and the words represent the net after it.
///
/// That a table satisfies its invariant at every moment between two steps isn't proved here. It is
/// the contract of the toolchain's `atomic_table`, whose tables change only by steps that keep the
/// invariant. `Shared::events` gives such a moment.
pub fn at_every_moment()
    ensures { (p : Plan) (s : Table) → ⟦<Law as TableRule<(), View, Plan>>⟧.holds p s → Kept p s }
{}

/// Theorem: in a table that satisfies the invariant, the live word is the number of active pairs
/// that are published or claimed, plus the number of active pairs that may still result from the
/// links that seats owe. If a seat is settled, the live word is 0.
pub fn live_at_every_moment()
    ensures { IsImplied ⟦<Law as TableRule<(), View, Plan>>⟧.holds Credited }
{}

/// Theorem: in a table that satisfies the invariant, each view is right about the last claim of its
/// seat that found a pair: the right word of the cell is the word that was read, and a pair without
/// a rule is still in this cell, or another claim has taken it from there.
pub fn last_claims_at_every_moment()
    ensures { IsImplied ⟦<Law as TableRule<(), View, Plan>>⟧.holds Remembered }
{}

/// Theorem: if no seat has a claimed pair or a pending link, and no cell contains an active pair,
/// the net after the trace has no active pair. Between its calls a seat has neither.
pub fn nothing_is_overlooked()
    ensures { NothingIsOverlooked }
{}

/// Theorem: if the net after the trace has no active pair, and no seat that has drawn a ticket owes
/// anything, the live word is 0. If the live word isn't 0, a pair is active, or a seat has still to
/// make the links of a ticket.
pub fn nothing_is_owed()
    ensures { NothingIsOwed }
{}
