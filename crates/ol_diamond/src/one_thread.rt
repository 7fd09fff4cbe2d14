//! What the trace of any reduction implies for the reduction by one thread.

ghost use Rattle.ol_diamond.specs.OneThread.{DoneTells, EndsWhereSomeEnds, LongerTells, OneThreadExists, RunFromSame, SpentTells};

/// An initial net has a reduction by one thread for each fuel, and the trace of any reduction
/// determines how it ends. If a reduction to normal form is within the fuel, the reduction by one
/// thread also ends within it, with as many interactions of each rule, and in the same net under
/// other names. If a reduction is as long as the fuel and an active pair is left, or if it is
/// longer, the reduction by one thread has more interactions than the fuel allows.
pub fn one_thread_agrees()
    ensures exists { OneThreadExists }
    ensures done { DoneTells }
    ensures spent { SpentTells }
    ensures longer { LongerTells }
    ensures ends { EndsWhereSomeEnds }
{}

/// A reduction of a net is a reduction of each equal net, whatever the order of the two nets'
/// lists, and leads to an equal net.
pub fn same_nets_run_alike()
    ensures { RunFromSame }
{}
