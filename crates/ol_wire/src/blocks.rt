//! What the seat that draws a ticket writes into the fields of the ticket's block.
ghost use Rattle.std.specs.Prelude.{◌≡◌, ◌≤◌};
ghost use Rattle.ol_limits.specs.Limits.{most_fuel};
ghost use Rattle.ol_wire.specs.Copies.{born_wires};
ghost use Rattle.ol_wire.specs.Sizes.{IsSmall};

use crate::layout::Parts;
use crate::reference::wire_ref;

impl Parts {
    /// The wires between the copies that the ticket makes: those of the first copy of f, and those of
    /// the second one. Each has one to the first copy of g, and one to the second.
    pub(crate) fn born_wires(self, ticket: u32) -> ((u64, u64), (u64, u64))
        requires { IsSmall self × (ticket ≤ most_fuel) }
        ensures { result ≡ born_wires self ticket }
    {
        let one = wire_ref(self.born_wire(ticket, 0, 0));
        let two = wire_ref(self.born_wire(ticket, 0, 1));
        let three = wire_ref(self.born_wire(ticket, 1, 0));
        let four = wire_ref(self.born_wire(ticket, 1, 1));
        ((one, two), (three, four))
    }
}
