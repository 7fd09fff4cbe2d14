//! The law of runs in rounds.

ghost use Rattle.ol_orders.specs.Laws.{WavesAreRounds};

/// In a run of whole rounds, each of which rewrites all pairs that are active when it begins, the
/// wave of each pair is the number of its round, from 1. Nothing is said of a round that was only
/// begun, as where the fuel ends within it.
///
/// Waves are computed from weights of links, in any order of reduction (docs/runtimes/FORMATS.md,
/// "Waves").
pub fn waves_are_rounds()
    ensures waves { WavesAreRounds }
{}
