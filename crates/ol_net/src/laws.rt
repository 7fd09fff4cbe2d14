//! The theorem on the precondition of a replacement.

ghost use Rattle.ol_net.specs.Joins.{FitIsOnce};

/// The joins of a replacement use each open end once exactly if each auxiliary port of the two
/// removed nodes is in exactly one join, each port of each new node is in exactly one join, and
/// nothing else is in a join.
pub fn each_open_end_once()
    ensures { FitIsOnce }
{}
