//! How each kind of step changes the view of the seat that makes it.
ghost use Rattle.ol_wire.specs.Plays.{joined};
ghost use Rattle.ol_wire.specs.StepPlays.{claims, reads_right, draws, owes, repays, writes, fewer, one_seat};
ghost use Rattle.ol_wire.specs.TurnPlays.{reads_field, returns};
ghost use Rattle.ol_wire.specs.LinkSteps.{links, places, publishes, reads_tickets_joined, spent_view};
ghost use Rattle.ol_wire.specs.Looking.{reads_tickets, reads_live};

use crate::view::View;
use atomic_table::{Join, Play, Split};

/// The exchange of 0 into the left word of a cell.
pub struct Claims;

impl Play<(), View> for Claims {
    ghost then = { claims };
}

/// A load of the right word of the cell that was claimed last.
pub struct ReadsRight;

impl Play<(), View> for ReadsRight {
    ghost then = { reads_right };
}

/// A load of a field of one of the two claimed nodes.
pub struct ReadsField;

impl Play<(), View> for ReadsField {
    ghost then = { reads_field };
}

/// The addition of 1 to the ticket word.
pub struct Draws;

impl Play<(), View> for Draws {
    ghost then = { draws };
}

/// An addition to the live word, for the links that an interaction will make.
pub struct Owes;

impl Play<(), View> for Owes {
    ghost then = { owes };
}

/// A subtraction from the live word, at the end of a turn.
pub struct Repays;

impl Play<(), View> for Repays {
    ghost then = { repays };
}

/// A store of a word into the seat's own block.
pub struct Writes;

impl Play<(), View> for Writes {
    ghost then = { writes };
}

/// A store of a claimed pair back into its cell.
pub struct Returns;

impl Play<(), View> for Returns {
    ghost then = { returns };
}

/// An exchange with the word of a wire or of a free port, for a link.
pub struct Links;

impl Play<(), View> for Links {
    ghost then = { links };
}

/// A store of the right word of a cell that is being published.
pub struct Places;

impl Play<(), View> for Places {
    ghost then = { places };
}

/// A store of the left word of a cell, which publishes its pair.
pub struct Publishes;

impl Play<(), View> for Publishes {
    ghost then = { publishes };
}

/// A load of the ticket word, for the number of seats.
pub struct ReadsTicketsJoined;

impl Play<(), View> for ReadsTicketsJoined {
    ghost then = { reads_tickets_joined };
}

/// A load of the ticket word, for the state of the whole table at that moment.
pub struct ReadsTickets;

impl Play<(), View> for ReadsTickets {
    ghost then = { reads_tickets };
}

/// A load of the live word.
pub struct ReadsLive;

impl Play<(), View> for ReadsLive {
    ghost then = { reads_live };
}

/// The work of a seat is moved to another seat.
pub struct Joins;

impl Join<View> for Joins {
    ghost both = { joined };

    ghost spent = { spent_view };
}

/// A seat is split off a seat that has done nothing.
pub struct Cut;

impl Split<View> for Cut {
    ghost left = { fewer };

    ghost right = { one_seat };
}
