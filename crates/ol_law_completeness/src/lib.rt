//! Termination and optimality of interactions: on-demand reduction finds every normal form and
//! every head normal form, with the fewest interactions of all sufficient reductions, and reduction
//! by one thread ends exactly on strongly normalising terms. No reduction of a term's net leads to a
//! vicious circle of principal ports.
//!
//! A reduction is *sufficient* (it serves, `CanBeRead`) for a number of places, in preorder, if the
//! paths that read these places from its final net meet no active pair. Strongly normalising terms
//! are characterised by rules (van Raamsdonk, Confluence and Normalisation for Higher-Order
//! Rewriting, 1996; Joachimski and Matthes, Short proofs of normalization, 2003). That the terms
//! with a head normal form are the terms whose head reduction ends is Wadsworth's theorem
//! (`ol_law_confluence`, theorem `heads`). Paths are those of Gonthier, Abadi and Lévy, The
//! Geometry of Optimal Lambda Reduction, POPL 1992.
//!
//! The file starts with a measure for on-demand reduction, the inversions of a path
//! (`step_shortens_row` to `inversions_are_one`): pairs of crossings of which the first leads up to
//! a principal port and the second down from a principal port. It continues with completeness of
//! on-demand reduction (`heads_are_read` to `terms_are_read`), its optimality (`demand_is_least` to
//! `terms_are_read_least`), termination of all reductions of nets with bounded walks
//! (`step_lightens` to `light_has_no_ring`), strongly normalising terms
//! (`strongly_normalising_by_rules` to `ends_exactly_if_strongly_normalising`), and absence of
//! vicious circles (`no_ring`). Every function is a theorem, without code.
//!
//! The theorems count interactions, and neither crossings of paths nor time. They compare
//! reductions of the same net, with the readback of `ol_readback`. The bounds on the number of
//! interactions, which are the number of inversions and a power of 2 in the length of walks, may be
//! far too large.
#![tactic(auto)]

ghost use Rattle.ol_law_completeness.specs.BoundedRuns.{
  StepLightens,
  RunsAreShort,
  BoundedIsLight,
  BoundedRunsAreShort,
  BoundedRunEnds,
  BoundedHasComplete,
  BoundedGraphRunsEnd,
  LightHasNoRing,
};
ghost use Rattle.ol_law_completeness.specs.Complete.{
  InversionsAreOne,
  AllInversionsAreOne,
  HeadsAreRead,
  NormalFormHasHeads,
  DemandIsComplete,
  HeadIsRead,
};
ghost use Rattle.ol_law_completeness.specs.EndsExactly.{
  OnlyStronglyNormalisingEnds,
  OneThreadEndsExactly,
  EveryRunEndsExactly,
};
ghost use Rattle.ol_law_completeness.specs.Laws.{StepShortensRow, ChainIsOnPath, ChainsMeetAlike};
ghost use Rattle.ol_law_completeness.specs.Least.{
  DemandIsLeast,
  DemandedIsLeast,
  EnoughAsItIs,
  EnoughWithoutHeads,
  CompleteIsEnough,
  ReadAsItIs,
};
ghost use Rattle.ol_law_completeness.specs.Rings.{TermHasNoRing};
ghost use Rattle.ol_law_completeness.specs.StrongNormalisation.{
  StronglyNormalisingByRules,
  StronglyNormalisingIsBounded,
  StronglyNormalisingEnds,
};
ghost use Rattle.ol_law_completeness.specs.Terms.{
  LevelledCrossesNoStuck,
  NormalFormIsRead,
  HeadNormalFormIsRead,
  PlacesAreOfTerm,
  ReadsExactlyNormalForms,
  TermIsReadLeast,
  TermIsDemandedLeast,
  TermIsReadByTheLeast,
  TermIsReadWhereOneServes,
  CompleteRunIsEnough,
  TermNetIsFit,
};
ghost use Rattle.ol_law_completeness.specs.TheLeast.{
  EnoughIsKept,
  DemandedIsEnough,
  DemandIsTheLeast,
  LeastIsInCommon,
  TheLeastIsOne,
  EndsWhereOneServes,
  OneMoreIsNotLeast,
  LongerIsNotLeast,
  StoppedIsNotEnough,
  MissingIsNotEnough,
};

/// An interaction doesn't increase the number of inversions of a path from free port to free port,
/// and decreases it for a path that goes through its pair.
pub fn step_shortens_row<A>()
    ensures { StepShortensRow A }
{}

/// In a net whose walks cross no stuck pair, let a path leave the net for some number of
/// abstractions. The chain for at most as many abstractions ends at an active pair on this path, or
/// leaves the net, or, if there are more nodes than abstractions, arrives at a crossing that isn't
/// defined. The chain for exactly as many abstractions meets the same pair as the path.
pub fn chain_is_on_path<A>()
    ensures path { ChainIsOnPath A }
    ensures alike { ChainsMeetAlike A }
{}

/// A net determines the number of inversions of the paths to its first heads, and of the paths to
/// the heads of all places, if each of these places has a head. For a term's net this number is
/// determined by the initial net, before any interaction.
pub fn inversions_are_one<A>()
    ensures first { InversionsAreOne A }
    ensures whole { AllInversionsAreOne A }
{}

/// If each place of the initial net has a head, on-demand reduction ends, in at most as many
/// interactions as the paths to these heads have inversions, and finds these places. This theorem
/// and the following theorems on nets assume that no net to which the initial net reduces has a
/// walk that crosses a stuck pair; nets of terms have this property (`terms_are_read`).
pub fn heads_are_read()
    ensures { HeadsAreRead }
{}

/// If leftmost reduction of a term ends in a normal form, the term's initial net has a head at each
/// place of this normal form.
pub fn normal_form_has_heads()
    ensures { NormalFormHasHeads }
{}

/// If leftmost reduction of a term ends in a normal form, on-demand reduction reads it from any net
/// with the property that `heads_are_read` assumes and the paths of the term's initial net.
pub fn demand_is_complete()
    ensures { DemandIsComplete }
{}

/// Asked for a single head, on-demand reduction reads the head of each term whose head reduction
/// ends.
pub fn head_is_read()
    ensures { HeadIsRead }
{}

/// In a levelled net no walk crosses a stuck pair.
pub fn levelled_crosses_no_stuck<A>()
    ensures { LevelledCrossesNoStuck A }
{}

/// Theorem (completeness): if leftmost reduction of a term ends in a normal form, on-demand
/// reduction of the term's net, by either translation, ends, and reads this normal form if it is
/// asked for enough heads. It makes at most as many interactions as the paths of the initial net to
/// these heads have inversions. Asked for a single head, it reads the head of each term whose head
/// reduction ends; by Wadsworth's theorem (`ol_law_confluence`, theorem `heads`) these are the
/// terms with a head normal form. Each place that on-demand reduction reads, with or without a
/// head, is the place of the initial net. It follows that it reads a tree with a head at each place
/// exactly if leftmost reduction ends in a normal form.
pub fn terms_are_read()
    ensures normal { NormalFormIsRead }
    ensures head { HeadNormalFormIsRead }
    ensures places { PlacesAreOfTerm }
    ensures exactly { ReadsExactlyNormalForms }
{}

/// Theorem (optimality): every sufficient reduction rewrites each pair that on-demand reduction
/// rewrites, by birth names, and makes at least as many interactions. The trace of an on-demand
/// reduction is therefore least for the places that it was asked for, and so is each prefix of the
/// trace. An on-demand reduction that ends is sufficient itself: the paths that read the places
/// from its final net meet no active pair. It follows that a reduction is sufficient exactly if it
/// rewrites all pairs that on-demand reduction rewrites. If some reduction of a net with a root is
/// sufficient, on-demand reduction ends. Clause `demanded` assumes that the net is levelled; the
/// other clauses assume that no net to which it reduces has a walk that crosses a stuck pair, which
/// is true of levelled nets.
pub fn demand_is_least()
    ensures least { DemandIsLeast }
    ensures demanded { DemandedIsLeast }
    ensures enough { DemandedIsEnough }
    ensures the_least { DemandIsTheLeast }
    ensures ends { EndsWhereOneServes }
{}

/// The pairs of the least trace are the pairs that all sufficient reductions have in common. The
/// least trace is therefore unique, up to the order of its pairs.
pub fn the_least_is_one()
    ensures common { LeastIsInCommon }
    ensures one { TheLeastIsOne }
{}

/// Counterexamples to wrong definitions of least. A reduction that rewrites a single pair in
/// addition to on-demand reduction is sufficient, but isn't least, and no other longer reduction is
/// least. A reduction that stops when on-demand reduction would meet a further pair isn't
/// sufficient, nor is any other reduction that is at most as long, nor any reduction that omits a
/// pair of on-demand reduction.
pub fn wrong_demands_are_refused()
    ensures one_more { OneMoreIsNotLeast }
    ensures longer { LongerIsNotLeast }
    ensures stopped { StoppedIsNotEnough }
    ensures missing { MissingIsNotEnough }
{}

/// From which nets the places can be read by paths that meet no active pair. For a net with a root
/// whose walks cross no stuck pair, these are exactly the nets for which on-demand reduction ends
/// without an interaction. If on-demand reduction without an interaction reads a head at each place
/// that it is asked for, the assumption on walks isn't needed. After each reduction to normal form
/// the net has this property for the places that an on-demand reduction of the same initial net
/// reads. Interactions preserve the property.
pub fn some_nets_are_enough()
    ensures means { ReadAsItIs }
    ensures as_it_is { EnoughAsItIs }
    ensures without_heads { EnoughWithoutHeads }
    ensures complete { CompleteIsEnough }
    ensures kept { EnoughIsKept }
{}

/// The same for nets of terms, by either translation, which satisfy all assumptions of the theorems
/// on nets. On-demand reduction makes the fewest interactions of all reductions that are sufficient
/// for the same places. It ends if some reduction is sufficient; and if it ends, it is sufficient
/// itself, and so is each reduction to normal form.
pub fn terms_are_read_least()
    ensures least { TermIsReadLeast }
    ensures demanded { TermIsDemandedLeast }
    ensures fit { TermNetIsFit }
    ensures the_least { TermIsReadByTheLeast }
    ensures ends { TermIsReadWhereOneServes }
    ensures complete { CompleteRunIsEnough }
{}

/// The interaction of any active pair decreases the weight of a net.
pub fn step_lightens<A>()
    ensures { StepLightens A }
{}

/// A reduction, whatever its pairs and their order, makes at most as many interactions as the
/// weight of the net.
pub fn runs_are_short()
    ensures { RunsAreShort }
{}

/// A net whose walks make at most b crossings has a weight.
pub fn bounded_is_light<A>()
    ensures { BoundedIsLight A }
{}

/// If the walks of a net make at most b crossings, every reduction of it makes at most N * (2^(b +
/// 1) - 1) interactions, where N is the number of nodes. With more fuel the reduction by one thread
/// ends, and a reduction to normal form exists. The same is true of each graph that has this net.
pub fn bounded_runs_end()
    ensures short { BoundedRunsAreShort }
    ensures ends { BoundedRunEnds }
    ensures complete { BoundedHasComplete }
    ensures graph { BoundedGraphRunsEnd }
{}

/// A net that has a weight has no vicious circle of principal ports.
pub fn light_has_no_ring<A>()
    ensures { LightHasNoRing A }
{}

/// The strongly normalising terms are the terms that these rules build: a variable or a name with
/// such arguments; an abstraction of such a body; and a term with a weak head step to such a term,
/// if the argument of the contracted redex is also such a term.
pub fn strongly_normalising_by_rules()
    ensures { StronglyNormalisingByRules }
{}

/// If a term is strongly normalising, the walks over its net are bounded, by either translation. It
/// follows that every reduction of the net, of any pairs in any order, ends within a number of
/// interactions that the net determines.
pub fn strongly_normalising_ends()
    ensures bounded { StronglyNormalisingIsBounded }
    ensures ends { StronglyNormalisingEnds }
{}

/// If some reduction of a term's net, by either translation, leads to a net without an active pair,
/// the term is strongly normalising.
pub fn only_strongly_normalising_ends()
    ensures { OnlyStronglyNormalisingEnds }
{}

/// Theorem: reduction of a term's net by one thread ends, with some fuel, exactly if the term is
/// strongly normalising. Equivalently, a number exists that bounds the length of every reduction of
/// the net, of any pairs in any order.
pub fn ends_exactly_if_strongly_normalising()
    ensures one { OneThreadEndsExactly }
    ensures every { EveryRunEndsExactly }
{}

/// Theorem: no reduction of a term's net, of any pairs in any order, by either translation, leads to
/// a vicious circle of principal ports (Lafont, Interaction Nets, POPL 1990). The term is any term,
/// with or without a normal form.
pub fn no_ring()
    ensures { TermHasNoRing }
{}
