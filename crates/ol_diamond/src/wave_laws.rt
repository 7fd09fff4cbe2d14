//! Theorems on waves. The wave of an active pair is the number of the parallel step (round) in
//! which it is rewritten if each step rewrites all active pairs of the net at once.

ghost use Rattle.ol_diamond.specs.Weights.{HeaviestOnTheWay, HeaviestIsLeft};
ghost use Rattle.ol_diamond.specs.WaveLaws.{WavesAgree, EachPairHasItsWave, RunHasOneWaves, JournalWavesAgree, JournalHasOneWaves, StepHasWave, RunHasWaves, JournalHasWaves};

/// Let edges have weights, and let a contraction of two edges keep the greater weight. After the
/// contraction an edge has weight at most n exactly if it is also the result of contracting only
/// the edges of weight at most n.
pub fn heaviest_stays<V>()
    ensures way { HeaviestOnTheWay V }
    ensures left { HeaviestIsLeft V }
{}

/// In a reduction each link has a weight, and the wave of an active pair is its link's weight plus
/// 1. All reductions of a net to normal form have the same pairs with the same waves, each equally
/// often. A reduction has a unique list of waves. All traces of reductions of a net to normal form
/// give each pair, by birth names, the same wave, and a trace has a unique list of waves.
pub fn waves_agree()
    ensures waves { WavesAgree }
    ensures each { EachPairHasItsWave }
    ensures one { RunHasOneWaves }
    ensures journals { JournalWavesAgree }
    ensures journal { JournalHasOneWaves }
{}

/// Each interaction of a net with weighted links has a wave, and results in a net with weighted
/// links. Because of this, each reduction and each trace has waves.
pub fn runs_have_waves<A>()
    ensures step { StepHasWave A }
    ensures run { RunHasWaves }
    ensures journal { JournalHasWaves }
{}
