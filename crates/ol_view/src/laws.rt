//! The theorems on printed nets, and on texts that are fed piece by piece.

ghost use Rattle.ol_view.specs.Laws.{EqualNetsAreShownAlike, LeadsAreOne};
ghost use Rattle.ol_view.specs.Feeding.{FedIsARun, RunIsNotAnswered};

/// Equal nets have the same printed text, whatever the order of their tables. If the next number of
/// two equal nets is also equal, `after` makes the same number of interactions on both and leads to
/// equal nets, whose printed text is the same.
pub fn equal_nets_are_shown_alike()
    ensures shown { EqualNetsAreShownAlike }
    ensures leads { LeadsAreOne }
{}

/// While a checker has returned no answer, the finished lines that it was fed are the trace of a
/// reduction. The unfinished line may already be bad. For a reduction of at most 8,000,000
/// interactions, no prefix of its trace, nor the whole trace, determines an answer, so that `feed`
/// returns none.
pub fn fed_is_a_run()
    ensures run { FedIsARun }
    ensures not_answered { RunIsNotAnswered }
{}
