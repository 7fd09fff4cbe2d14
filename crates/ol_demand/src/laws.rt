//! Theorems on on-demand reduction: no code, only what follows from the definitions.

ghost use Rattle.ol_demand.specs.Laws.{TurnsAreRun, EachPairIsNeeded, HeadsAreOfSource, DemandRunIsOne, FrontIsOne, EndsOrGoesOn};

/// An on-demand reduction of an initial net is a reduction with its trace, and preserves all paths.
/// Each pair of its trace is, by birth names, rewritten in every reduction to normal form.
pub fn each_pair_is_needed()
    ensures run { TurnsAreRun }
    ensures needed { EachPairIsNeeded }
{}

/// Each head that an on-demand reduction finds for a frame is the head of this frame in the initial
/// net, by paths of any length.
pub fn heads_are_of_the_source()
    ensures { HeadsAreOfSource }
{}

/// The on-demand reduction of an initial net is unique: a single trace, a single list of places and
/// a single final net. If it has more interactions than the fuel allows, the trace of the first
/// ones is unique. If its trace is within the fuel, it has no further interaction.
pub fn demand_run_is_one()
    ensures one { DemandRunIsOne }
    ensures front { FrontIsOne }
    ensures ends { EndsOrGoesOn }
{}
