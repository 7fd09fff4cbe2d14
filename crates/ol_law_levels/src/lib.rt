//! Levels of ports: no reduction of a term's net leads to a stuck pair, and no path crosses a pair
//! without a rule.
//!
//! A net is *levelled* if its ports have depths and directions: a link joins an out port and an in
//! port of equal depth, an abstraction and an application are at the depth of their index, and
//! fans, croissants and brackets are deeper than their index (Gonthier, Abadi and Lévy, The
//! Geometry of Optimal Lambda Reduction, POPL 1992). A net is *unblocked* if no walk, from any port
//! and with any context, is stopped by a fan, a croissant or a bracket. The nets of terms are
//! levelled and unblocked, and interactions preserve both; a net with both properties has no stuck
//! pair.
//!
//! The file starts with levels (`term_is_levelled` to `levels_have_no_names`), and continues with
//! stuck pairs, walks and heads in levelled nets (`stuck_pairs_are_of_sharing` to
//! `asked_places_are_the_sources`), examples and wrong translations (`stuck_examples` to
//! `wrong_tables_break_levels`), and unblocked nets (`step_keeps_unblocked` to
//! `wrong_index_blocks`). Every function is a theorem, without code.
//!
//! Levels bound indexes from above only: they don't exclude an index that is too small.
#![tactic(auto)]

ghost use Rattle.ol_law_levels.specs.Asked.{
  StandingIsLost,
  BudgetIsNoHead,
  SpentIsLost,
  AskedHeadsAreHeads,
  AskedHeadsAreKept,
  TreeTellsAsked,
  LastTreeTellsAsked,
  DemandTellsAsked,
};
ghost use Rattle.ol_law_levels.specs.BlockedExample.{StuckNetIsBlocked};
ghost use Rattle.ol_law_levels.specs.BlockingIndex.{RightIndexIsUnblocked, LowerIndexIsBlocked};
ghost use Rattle.ol_law_levels.specs.Demand.{LostIsLost, DemandPlacesAreTheSources};
ghost use Rattle.ol_law_levels.specs.EndlessWalk.{RingIsCut};
ghost use Rattle.ol_law_levels.specs.Examples.{LevelsAllowStuckPairs, UnlevelledPairsAreCrossed};
ghost use Rattle.ol_law_levels.specs.Laws.{
  TermIsLevelled,
  StepKeepsLevels,
  RunKeepsLevels,
  GraphRunKeepsLevels,
  SameNetIsLevelled,
  NamesKeepLevels,
  StartIsLevelled,
  StuckPairsAreOfSharing,
  NoWalkCrossesAStuckPair,
  StuckPairsStopWalks,
};
ghost use Rattle.ol_law_levels.specs.Terms.{
  NoPairIsStuck,
  NoPairIsStuckInOrder,
  NoPairOfAGraphIsStuck,
  SameNetIsUnblocked,
  StartIsUnblocked,
  SameNetIsUnstuck,
  NamesKeepUnstuck,
  NoneIsCounted,
};
ghost use Rattle.ol_law_levels.specs.UnblockedLaws.{
  StepKeepsUnblocked,
  RunKeepsUnblocked,
  UnblockedIsUnstuck,
  RunIsUnstuck,
  TermIsUnblocked,
};
ghost use Rattle.ol_law_levels.specs.Walks.{
  LevelledWalkTurnsOnce,
  LevelledWalkIsShort,
  LevelledFewAreEnough,
  LevelledNoHead,
  LevelledPrintedHeads,
  LastPlacesAreTheSources,
};
ghost use Rattle.ol_law_levels.specs.WrongTables.{
  RightIndexesAreLevelled,
  GreaterIndexesAreNot,
  LowerIndexesKeepLevels,
};

/// The net of a term, by either translation, is levelled.
pub fn term_is_levelled()
    ensures { TermIsLevelled }
{}

/// The interaction of any active pair preserves that a net is levelled.
pub fn step_keeps_levels<A>()
    ensures { StepKeepsLevels A }
{}

/// A reduction preserves that a net is levelled, whatever the pairs of its trace and their order:
/// for nets, by the names of their nodes, and for graphs, in the reduction by one thread.
pub fn run_keeps_levels()
    ensures named { RunKeepsLevels }
    ensures numbered { GraphRunKeepsLevels }
{}

/// Whether a net is levelled doesn't depend on the order of its lists, and a net that is levelled
/// under some names of its nodes is levelled. A graph with numbered nodes is levelled under the
/// names of initial nodes.
pub fn levels_have_no_names<A, B>()
    ensures same { SameNetIsLevelled A }
    ensures under { NamesKeepLevels A B }
    ensures start { StartIsLevelled }
{}

/// The two nodes of a stuck pair of a levelled net are of two different kinds among fan, croissant
/// and bracket, and have the same index.
pub fn stuck_pairs_are_of_sharing<A>()
    ensures { StuckPairsAreOfSharing A }
{}

/// No walk traverses a node of a stuck pair from an auxiliary port to its principal port, and then
/// the other node. A walk from a free port that arrives at the link of the two nodes has no
/// crossing there, and no path crosses the link.
pub fn no_walk_crosses_a_stuck_pair<A>()
    ensures crosses { NoWalkCrossesAStuckPair A }
    ensures stops { StuckPairsStopWalks A }
{}

/// In a levelled net without an active pair, with or without stuck pairs, a walk from a free port
/// turns once, and leaves the net within twice as many crossings as there are nodes or never. If
/// the walk of a frame for some number of abstractions leaves the net, a walk for a number that is
/// at most the number of nodes also leaves the net.
pub fn levelled_walk_is_short<A>()
    ensures turns_once { LevelledWalkTurnsOnce A }
    ensures short { LevelledWalkIsShort A }
    ensures enough { LevelledFewAreEnough A }
{}

/// In a levelled net without an active pair, a frame for which no head was found within a budget
/// has no head; a place without a head in a tree that was read from the net has no head in any net
/// with the same paths.
pub fn levelled_heads_kept<A, B>()
    ensures no_head { LevelledNoHead A }
    ensures printed { LevelledPrintedHeads A B }
{}

/// If a reduction of a term's net leaves no active pair, a tree that was read from the final net
/// has the heads of the term's initial net, and its places without a head have no head there,
/// whatever pairs are stuck.
pub fn last_places_are_the_sources()
    ensures { LastPlacesAreTheSources }
{}

/// If the chain of an on-demand reduction for n abstractions, where n is at least the number of
/// nodes, arrives at a crossing that isn't defined, no path leaves the levelled net for n or more
/// abstractions. The chain met no active pair, but active pairs may be left elsewhere.
pub fn lost_is_lost<A>()
    ensures { LostIsLost A }
{}

/// The places that an on-demand reduction finds are the places of the initial net, if it is
/// levelled, including the places without a head.
pub fn demand_places_are_the_sources()
    ensures { DemandPlacesAreTheSources }
{}

/// A place that was cut because its walk made twice as many crossings as there are nodes has no
/// head: in a levelled net without an active pair no path leaves the net for as many or more
/// abstractions, and the walks for fewer abstractions arrived at a crossing that isn't defined. The
/// same is true of a place at which the chain of an on-demand reduction ends in this way.
pub fn cut_places_have_no_head<A>()
    ensures standing { StandingIsLost A }
    ensures within { BudgetIsNoHead A }
    ensures chain { SpentIsLost A }
{}

/// A place whose head was computed describes the net: a head is the head of the net, and the net
/// has no head at a place without a head or cut. This holds for a tree that was read from a
/// levelled net without an active pair, for a tree that was read after a reduction of a term's net,
/// and for the places that an on-demand reduction finds.
pub fn asked_places_are_the_sources<A, B>()
    ensures heads { AskedHeadsAreHeads A }
    ensures kept { AskedHeadsAreKept A B }
    ensures tree { TreeTellsAsked A B }
    ensures last { LastTreeTellsAsked }
    ensures demand { DemandTellsAsked }
{}

/// Levels don't exclude stuck pairs: a croissant and a fan of index 0, linked by their principal
/// ports, are a levelled net. An abstraction and a fan of index 0 aren't levelled, and a path
/// crosses their pair.
pub fn stuck_examples()
    ensures levelled { LevelsAllowStuckPairs }
    ensures unlevelled { UnlevelledPairsAreCrossed }
{}

/// A levelled net without an active pair can have a place that is cut: the walk from its root
/// traverses a croissant and then a fan infinitely often.
pub fn cut_example()
    ensures { RingIsCut }
{}

/// In the net of name 0 applied to name 1, levels exclude greater indexes of the argument's
/// croissant and of its bracket. Smaller indexes of fans, croissants and brackets aren't excluded,
/// in any net: levels bound these indexes from above only.
pub fn wrong_tables_break_levels<A>()
    ensures right { RightIndexesAreLevelled }
    ensures greater { GreaterIndexesAreNot }
    ensures lower { LowerIndexesKeepLevels A }
{}

/// The interaction of any active pair preserves that a net is unblocked.
pub fn step_keeps_unblocked<A>()
    ensures { StepKeepsUnblocked A }
{}

/// A reduction preserves that a net is unblocked, whatever the pairs of its trace and their order.
pub fn run_keeps_unblocked()
    ensures { RunKeepsUnblocked }
{}

/// A net that is levelled and unblocked has no stuck pair.
pub fn unblocked_is_unstuck<A>()
    ensures { UnblockedIsUnstuck A }
{}

/// No reduction of a net that is levelled and unblocked leads to a net with a stuck pair.
pub fn run_is_unstuck()
    ensures { RunIsUnstuck }
{}

/// The net of a term, by either translation, is unblocked.
pub fn term_is_unblocked()
    ensures { TermIsUnblocked }
{}

/// No reduction of the net of a term, by either translation, leads to a net with a stuck pair:
/// whatever the pairs of its trace and their order, whether or not it is to normal form. This
/// includes the reduction by one thread, on-demand reduction, and reductions of a graph of this
/// net.
pub fn no_pair_is_stuck()
    ensures net { NoPairIsStuck }
    ensures order { NoPairIsStuckInOrder }
    ensures graph { NoPairOfAGraphIsStuck }
{}

/// Whether a net is unblocked doesn't depend on the order of its lists, and an unblocked graph with
/// numbered nodes is unblocked under the names of initial nodes.
pub fn unblocked_has_no_names<A>()
    ensures same { SameNetIsUnblocked A }
    ensures start { StartIsUnblocked }
{}

/// Whether a net has a stuck pair doesn't depend on the order of its lists, and a net without a
/// stuck pair under some names of its nodes has no stuck pair. The count of a net without stuck
/// pairs is 0.
pub fn unstuck_has_no_names<A, B>()
    ensures same { SameNetIsUnstuck A }
    ensures under { NamesKeepUnstuck A B }
    ensures counted { NoneIsCounted A }
{}

/// The net of a croissant and a fan of index 0, linked by their principal ports, is levelled, and
/// isn't unblocked.
pub fn blocked_example()
    ensures { StuckNetIsBlocked }
{}

/// In the net of `(\x. x x) (\y. y)` by translation 2 the croissant of y has index 1. With index 0
/// the net is also levelled, but it isn't unblocked.
pub fn wrong_index_blocks()
    ensures right { RightIndexIsUnblocked }
    ensures lower { LowerIndexIsBlocked }
{}
