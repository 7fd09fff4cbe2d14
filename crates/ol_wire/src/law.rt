//! The invariant of the table.
ghost use Rattle.ol_wire.specs.Credit.{IsRuled};
ghost use Rattle.ol_wire.specs.Openings.{opener};

use crate::plan::Plan;
use crate::view::View;
use atomic_table::TableRule;

/// The invariant of the words and of the views of all seats, at every moment between two steps.
pub struct Law;

impl TableRule<(), View, Plan> for Law {
    ghost holds = { IsRuled };

    ghost first = { opener };
}
