//! Theorems on reductions with birth names: no code, only what follows from the definitions.

ghost use Rattle.ol_diamond.specs.Laws.{StartIsBirthNet, StepKeepsBirthNet, RunKeepsBirthNet, BornIsFresh, PairsCommute, DoneMeansDone, PairToFront, EachPairIsAmong, NoRunHasMore, NoRunIsLonger, CompleteRunsHaveOnePairs, CompleteRunsHaveOneCounts, CompleteRunsLeaveOneNet, BirthFollows, CompleteFollows, BirthNamesAreOne};

/// If no node's name is a proper part of another node's name, no node that an interaction creates
/// exists before. An initial net has this property, and each interaction and each reduction
/// preserves it.
pub fn names_stay_apart()
    ensures start { StartIsBirthNet }
    ensures step { StepKeepsBirthNet }
    ensures run { RunKeepsBirthNet }
    ensures fresh { BornIsFresh }
{}

/// Two different active pairs of a net share no node. Each pair is still active after the
/// interaction of the other, and both orders lead to the same net (strong confluence).
pub fn pairs_commute()
    ensures { PairsCommute }
{}

/// A net has no active pair exactly if it has no interaction.
pub fn done_means_done()
    ensures { DoneMeansDone }
{}

/// An active pair of a net occurs in each reduction of the net to normal form. The reduction that
/// begins with this pair and continues with the other pairs in their order is also a reduction to
/// normal form, and leads to the same net.
pub fn pair_to_front()
    ensures { PairToFront }
{}

/// Each pair of a reduction occurs in each reduction of the same net to normal form, at least as
/// often, so that a reduction to normal form is the longest.
pub fn no_run_is_longer()
    ensures among { EachPairIsAmong }
    ensures pairs { NoRunHasMore }
    ensures length { NoRunIsLonger }
{}

/// All reductions of a net to normal form have the same pairs, each equally often, and lead to the
/// same net.
pub fn complete_runs_agree()
    ensures pairs { CompleteRunsHaveOnePairs }
    ensures counts { CompleteRunsHaveOneCounts }
    ensures net { CompleteRunsLeaveOneNet }
{}

/// A reduction of an initial net with a trace is, entry by entry, a reduction with birth names:
/// each entry is the interaction of its two nodes under their birth names, and the created nodes
/// are named by these nodes. Both reductions lead to the same net, and both or neither is to normal
/// form.
pub fn birth_follows()
    ensures follows { BirthFollows }
    ensures complete { CompleteFollows }
{}

/// All translations of a trace into birth names give each node of the final net the same name. The
/// reduction with birth names is unique, except for the order of the two nodes of a pair in which
/// either node may act.
pub fn birth_names_are_one()
    ensures { BirthNamesAreOne }
{}
