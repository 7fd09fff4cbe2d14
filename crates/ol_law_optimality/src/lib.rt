//! Optimality of β-steps: no redex is copied, on-demand reduction contracts exactly Lévy's
//! families, and no reduction by families, nor any reduction of the plain term, makes fewer steps.
//!
//! The theorems in the field's terms: each β-step of a reduction is the residue of a virtual redex
//! of the initial net (Danos and Regnier, Local and asynchronous beta-reduction, 1993; Asperti and
//! Laneve, Paths, computations and labels in the λ-calculus, 1995); the label read along its route
//! is the degree of Lévy's labelled reduction (Lévy, Réductions correctes et optimales dans le
//! lambda-calcul, 1978; Asperti and Guerrini, The Optimal Implementation of Functional Programming
//! Languages, 1998); and reductions by needed families are shortest (Lévy, Optimal reductions in
//! the lambda-calculus, 1980). A *family step* contracts redexes of the same degree at once. The
//! first heads of a term are the first places of its Böhm tree, in preorder (Barendregt, The Lambda
//! Calculus, 1984, chapters 10 and 14). All theorems hold for both translations.
//!
//! The file starts with routes and virtual redexes (`residue_is_one` to
//! `demand_contracts_what_is_seen`), and continues with the comparison with head reduction and
//! leftmost reduction (`labels_erase` to `never_more_than_leftmost`), words of routes and degrees
//! (`words_tell_routes` to `labels_can_be_had`, `betas_spell_families`), Lévy's theorem for normal
//! forms and head normal forms (`families_are_needed` to `never_more_than_any_reduction`), and the
//! same theorems for any number of first heads (`first_heads` to `demand_is_optimal_for_heads`).
//! Every function is a theorem, without code.
//!
//! Only β-steps are counted, and no other interactions and no time. For a reduction that is
//! stopped, or that finds a place without a head, only "at most" is proved. Families are defined by
//! degrees: that equal degrees mean histories joined by copying isn't proved.
#![tactic(auto)]

ghost use Rattle.ol_law_optimality.specs.AllFamilies.{BetasAreFamilies};
ghost use Rattle.ol_law_optimality.specs.Demand.{
  BetasAreOfEachReduction,
  NoneIsShorterThanDemand,
  DemandIsAsShort,
  BetasAreOfEachHeadReduction,
  NoneIsShorterForAHead,
  DemandIsAsShortForAHead,
  NeverMoreThanAnyReduction,
};
ghost use Rattle.ol_law_optimality.specs.Entries.{BetasSpellFamilies};
ghost use Rattle.ol_law_optimality.specs.Families.{
  LabelsHaveTheirSigns,
  SignsTellRoutes,
  NoMoreBetasThanFamilies,
  BetasAreNoMoreThanFamilies,
};
ghost use Rattle.ol_law_optimality.specs.Fewest.{
  FewestAreFamilies,
  FewestAreAllFamilies,
  FewestIsFrugal,
};
ghost use Rattle.ol_law_optimality.specs.FirstHeads.{
  BetasAreOfEachReductionForHeads,
  NoneIsShorterForHeads,
  DemandIsAsShortForHeads,
  HeadsAreFound,
  PrintedHeadsAreAsShort,
  NoReductionToHeadsIsShorter,
  FilledHasHeads,
  NormalHasHeads,
  OneHeadIsHeadNormal,
  FewestForHeads,
  NoneIsShorterThanNeeded,
};
ghost use Rattle.ol_law_optimality.specs.HeadFamilies.{
  SeenByWiderQuestions,
  SeenByFirstQuestion,
  BetasAreHeadFamilies,
};
ghost use Rattle.ol_law_optimality.specs.Labelling.{
  EachTermHasLetters,
  LeftmostIsLabelled,
  LabelledIsLeftmost,
};
ghost use Rattle.ol_law_optimality.specs.Labels.{LabelsErase};
ghost use Rattle.ol_law_optimality.specs.Leftmost.{
  NeverMoreThanLeftmost,
  NeverMoreOnTheWay,
  SeenOnPlacesIsFew,
  NeverMoreWherePrinted,
  NeverMoreThanHead,
};
ghost use Rattle.ol_law_optimality.specs.LeftmostHeads.{BetasAreFamiliesForHeads};
ghost use Rattle.ol_law_optimality.specs.LevysTheorem.{
  EachDegreeIsNeeded,
  NeededAreContracted,
  NoneIsShorter,
  AtOnceIsOneStep,
  WholeFamilyIsOne,
  WholeFamiliesAreFamilies,
  LeftmostFamiliesAreWhole,
  HeadFamiliesAreWhole,
  FamilyStepsDevelop,
  FewestForAHead,
  EachHeadDegreeIsNeeded,
  NoFamilyTwice,
  FewestIsReached,
  NeededFamiliesAreFewest,
  NeedGoesBack,
  CallByNeedIsFewest,
  CallByNeedGoesOn,
};
ghost use Rattle.ol_law_optimality.specs.Met.{NoMoreThanHeadSteps, SeenIsFew};
ghost use Rattle.ol_law_optimality.specs.NeededHeads.{
  NeedForHeadsGoesBack,
  CallByNeedIsFewestForHeads,
  CallByNeedGoesOnForHeads,
};
ghost use Rattle.ol_law_optimality.specs.Readings.{
  HeadStepsKeepWords,
  WordsAreDegrees,
  DegreesAreMet,
  HeadIsLeftmost,
  SiteHasOneWord,
  NoMoreThanFamilies,
  NoMoreThanLeftmostFamilies,
  DegreesAreWords,
  WordsAreLeftmostDegrees,
};
ghost use Rattle.ol_law_optimality.specs.RedexLaws.{
  RedexHasSource,
  RedexHasResidue,
  NoRedexIsLeft,
  EachBetaIsVirtual,
  BetasAreVirtualRedexes,
  BetasOfATerm,
};
ghost use Rattle.ol_law_optimality.specs.RouteLaws.{
  ResidueIsOne,
  SourceIsOne,
  PairHasNoResidue,
  EachIsResidue,
  EachBetaHasARoute,
  BetaHasOneRoute,
  NoRedexIsCopied,
  BetasAreRoutes,
};
ghost use Rattle.ol_law_optimality.specs.Seen.{
  SeenHasResidue,
  SeenHasSource,
  NoneIsSeen,
  SeenAreContracted,
  DemandContractsTheSeen,
  BetasOfDemand,
  BetasOfATermOnDemand,
  DemandContractsTheFewest,
};
ghost use Rattle.ol_law_optimality.specs.Signs.{WordsAreSigned};
ghost use Rattle.ol_law_optimality.specs.WantedDegrees.{DegreesAreWanted, WantedAreDegrees};
ghost use Rattle.ol_law_optimality.specs.Words.{WordsTellRoutes, WordIsOne, BetasHaveTheirWords};

/// An interaction makes at most a single residue of each route, which is the residue of no other
/// route, and no residue of the link of its own pair.
pub fn residue_is_one<A>()
    ensures one { ResidueIsOne A }
    ensures source { SourceIsOne A }
    ensures none { PairHasNoResidue A }
{}

/// Each route of the net after an interaction is the residue of a route of the net before it.
pub fn each_is_residue<A>()
    ensures { EachIsResidue A }
{}

/// Each β-step of a reduction comes from a route of the initial net, and no two β-steps come from
/// the same route. The number of β-steps is therefore the number of different routes of the initial
/// net that become redexes.
pub fn each_beta_has_its_own_path()
    ensures route { EachBetaHasARoute }
    ensures one { BetaHasOneRoute }
    ensures own { NoRedexIsCopied }
    ensures count { BetasAreRoutes }
{}

/// An interaction makes a virtual redex of each virtual redex except the link of its own pair, and
/// each virtual redex of the net after it is the residue of a virtual redex of the net before it.
pub fn virtual_redexes_are_kept<A>()
    ensures source { RedexHasSource A }
    ensures residue { RedexHasResidue A }
{}

/// A levelled net without an active pair has no virtual redex.
pub fn no_redex_is_left<A>()
    ensures { NoRedexIsLeft A }
{}

/// Each β-step of a reduction comes from a virtual redex of the initial net, and the β-steps of a
/// reduction to normal form correspond one-to-one to all virtual redexes of the initial net. This
/// includes the net of a term.
pub fn betas_are_virtual_redexes()
    ensures each { EachBetaIsVirtual }
    ensures all { BetasAreVirtualRedexes }
    ensures term { BetasOfATerm }
{}

/// An interaction preserves the virtual redexes on each walk, except the link of its own pair, and
/// adds no virtual redex to the walk. A walk that meets no active pair has no virtual redex.
pub fn seen_redexes_are_kept<A>()
    ensures residue { SeenHasResidue A }
    ensures source { SeenHasSource A }
    ensures none { NoneIsSeen A }
{}

/// If a walk meets no active pair after a reduction, the reduction contracts each virtual redex
/// that is on this walk in the initial net. On-demand reduction contracts exactly the virtual
/// redexes on the walks of its readback. It therefore makes the fewest β-steps: these virtual
/// redexes are contracted in each reduction after which the walks meet no active pair.
pub fn demand_contracts_what_is_seen()
    ensures contracted { SeenAreContracted }
    ensures demand { DemandContractsTheSeen }
    ensures answered { BetasOfDemand }
    ensures term { BetasOfATermOnDemand }
    ensures fewest { DemandContractsTheFewest }
{}

/// Labelled reduction is β-reduction: a step of a labelled term, without its labels, is a β-step,
/// and each β-step is the step of a labelled term.
pub fn labels_erase()
    ensures { LabelsErase }
{}

/// The applications of redexes that the walks from a term's root meet, each with its levels, are at
/// most as many as the head steps from the term to a head normal form.
pub fn met_are_few()
    ensures { NoMoreThanHeadSteps }
{}

/// The virtual redexes on the walks from the root of a term's net, by either translation, are at
/// most as many as the head steps from the term to a head normal form.
pub fn seen_are_few()
    ensures { SeenIsFew }
{}

/// If leftmost reduction of a term ends in a normal form, on-demand reduction of the term's net, by
/// either translation and for any number of heads, makes at most as many β-steps as leftmost
/// reduction, whether it ends or is stopped; and the walks of its readback have at most as many
/// virtual redexes. If on-demand reduction finds a head at each place, leftmost reduction ends, in
/// the term that is printed. Asked for a single head, on-demand reduction makes at most as many
/// β-steps as head reduction to a head normal form.
pub fn never_more_than_leftmost()
    ensures leftmost { NeverMoreThanLeftmost }
    ensures front { NeverMoreOnTheWay }
    ensures seen { SeenOnPlacesIsFew }
    ensures printed { NeverMoreWherePrinted }
    ensures head { NeverMoreThanHead }
{}

/// Different routes of a net have different words, if the letters of its edges are different.
pub fn words_tell_routes<A>()
    ensures { WordsTellRoutes A }
{}

/// A route has at most one word.
pub fn word_is_one<A>()
    ensures { WordIsOne A }
{}

/// No two β-steps of a reduction come from routes with the same word.
pub fn betas_have_their_words()
    ensures { BetasHaveTheirWords }
{}

/// A walk along a route that has a word reads the signs of this word: a letter at each edge, and
/// the start and the end of each overlined and underlined word.
pub fn words_are_signed<A>()
    ensures { WordsAreSigned A }
{}

/// A labelled head step preserves the words of the redexes, present and future, that walks from the
/// root meet, except the redex that it contracts. A redex's word is what is read on the way from
/// its application to its abstraction, after adjacent inverse signs are cancelled. Each of these
/// words is therefore the degree of a redex that head reduction contracts, if it ends. The redex of
/// each head step is met, with its degree as its word; and a labelled head step is the leftmost
/// labelled step.
pub fn head_steps_keep_words()
    ensures kept { HeadStepsKeepWords }
    ensures degrees { WordsAreDegrees }
    ensures met { DegreesAreMet }
    ensures leftmost { HeadIsLeftmost }
{}

/// An application of a labelled term that has a redex, present or future, has a single word, after
/// adjacent inverse signs are cancelled.
pub fn site_has_one_word()
    ensures { SiteHasOneWord }
{}

/// If labelled head steps lead to a head normal form, the redexes with different words, present and
/// future, that walks from the root of the initial term meet are at most as many as the families
/// that head reduction contracts, that is, as the different degrees of its steps. The same holds
/// for leftmost reduction to a normal form: each word is the degree of a leftmost step, after
/// adjacent inverse signs are cancelled.
pub fn no_more_than_families()
    ensures head { NoMoreThanFamilies }
    ensures words { WordsAreLeftmostDegrees }
    ensures leftmost { NoMoreThanLeftmostFamilies }
{}

/// Each degree that labelled head reduction contracts is the word of a redex, present or future,
/// that walks from the root of the initial term meet, after adjacent inverse signs are cancelled.
/// If head reduction ends, the words of these redexes are therefore exactly the degrees (the
/// converse is `head_steps_keep_words`).
pub fn degrees_are_words()
    ensures { DegreesAreWords }
{}

/// Each degree that leftmost reduction contracts, also in arguments of a head, is the word of a
/// redex of the initial term, present or future, that a path of the readback meets, after adjacent
/// inverse signs are cancelled. If leftmost reduction leads to a normal form, the word of each
/// redex that such a path meets is conversely a degree that leftmost reduction contracts.
pub fn degrees_are_wanted()
    ensures degrees { DegreesAreWanted }
    ensures words { WantedAreDegrees }
{}

/// A label is determined by its signs: its letters, and the start and the end of each overlined and
/// underlined word, also after adjacent inverse signs are cancelled.
pub fn labels_have_their_signs()
    ensures { LabelsHaveTheirSigns }
{}

/// Routes of a term's net with the same word are equal, if the letters of its edges are different,
/// also after adjacent inverse signs are cancelled.
pub fn signs_tell_routes()
    ensures { SignsTellRoutes }
{}

/// On-demand reduction makes at most as many β-steps as there are families. Assume that each
/// subterm of a term has its own letter, and that leftmost reduction of the labelled term ends in a
/// normal form. An on-demand reduction of the term's net, by either translation and for any number
/// of heads, then has as many β-steps as some different degrees that leftmost reduction contracts,
/// whether it ends or is stopped. The same holds for a single head and head reduction.
pub fn no_more_betas_than_families()
    ensures head { NoMoreBetasThanFamilies }
    ensures leftmost { BetasAreNoMoreThanFamilies }
{}

/// The virtual redexes on the walk from the root of a levelled net for some number of abstractions
/// are on the walk for any greater number. If the first walk leaves the net, the second walk has no
/// other virtual redex.
pub fn wider_questions_see_alike<A>()
    ensures wider { SeenByWiderQuestions A }
    ensures first { SeenByFirstQuestion A }
{}

/// On-demand reduction for a single head makes exactly as many β-steps as there are families.
/// Assume that each subterm of a term has its own letter, and that head reduction of the labelled
/// term ends in a head normal form. An on-demand reduction of the term's net, by either
/// translation, that asks for a single head and ends then has as many β-steps as head reduction
/// contracts different degrees.
pub fn betas_are_head_families()
    ensures { BetasAreHeadFamilies }
{}

/// On-demand reduction makes exactly as many β-steps as there are families. Assume that each
/// subterm of a term has its own letter, and that leftmost reduction of the labelled term ends in a
/// normal form. An on-demand reduction of the term's net, by either translation, that finds a head
/// at each place, and therefore prints a term, then has as many β-steps as leftmost reduction
/// contracts different degrees.
pub fn betas_are_families()
    ensures { BetasAreFamilies }
{}

/// The labels that the theorems on families assume exist: each term can be labelled such that each
/// subterm has its own letter. Each leftmost reduction of the unlabelled term is a leftmost
/// reduction of the labelled term, with as many degrees as steps, whatever the labels are; and each
/// leftmost reduction of a labelled term is a leftmost reduction of the unlabelled term.
pub fn labels_can_be_had()
    ensures letters { EachTermHasLetters }
    ensures steps { LeftmostIsLabelled }
    ensures erased { LabelledIsLeftmost }
{}

/// The β-steps of on-demand reduction correspond one-to-one to the families that leftmost reduction
/// contracts. Assume that each subterm of a term has its own letter, and that leftmost reduction of
/// the labelled term ends in a normal form. Each β-step of an on-demand reduction that finds a head
/// at each place then comes from a route of the term's net whose word is a degree; no two β-steps
/// have the same degree, and each degree is the word of a β-step.
pub fn betas_spell_families()
    ensures { BetasSpellFamilies }
{}

/// Each degree that leftmost reduction of a labelled term contracts is needed: every reduction to a
/// normal form contracts it, whatever its redexes and their order. A reduction by families to a
/// normal form therefore has at least as many steps as there are such degrees. Each degree that
/// head reduction contracts is contracted by every reduction to a head normal form.
pub fn families_are_needed()
    ensures degrees { EachDegreeIsNeeded }
    ensures head { EachHeadDegreeIsNeeded }
    ensures contracted { NeededAreContracted }
    ensures shorter { NoneIsShorter }
{}

/// A family step contracts redexes of the same family at once, for example all of them. It is a
/// part of contracting the whole family: contracting the whole family before and after it leads to
/// the same term. It follows that reductions by whole families, such as the families of leftmost
/// redexes or of head redexes, are reductions by families.
pub fn families_at_once()
    ensures step { AtOnceIsOneStep }
    ensures whole { WholeFamilyIsOne }
    ensures develop { FamilyStepsDevelop }
    ensures reduction { WholeFamiliesAreFamilies }
    ensures leftmost { LeftmostFamiliesAreWhole }
    ensures heads { HeadFamiliesAreWhole }
{}

/// Assume that each label of a term is a letter. A reduction by whole families contracts no family
/// twice; if it contracts needed families only, it has the fewest steps of all reductions by
/// families to a normal form. Whole families, each time the family of the leftmost redex, lead to
/// the normal form in as many steps as leftmost reduction contracts different degrees. The same
/// holds for the head redex, head normal forms and head reduction.
pub fn fewest_is_reached()
    ensures once { NoFamilyTwice }
    ensures needed { NeededFamiliesAreFewest }
    ensures reached { FewestIsReached }
    ensures head { FewestForAHead }
{}

/// Assume that each subterm of a term has its own letter, and that leftmost reduction leads to a
/// normal form. If every reduction by families to a normal form has at least n steps, n is the
/// number of some different degrees that leftmost reduction contracts, and is at most the number of
/// its steps. If some reduction by families has exactly n steps, n is the number of all different
/// degrees that leftmost reduction contracts.
pub fn fewest_are_families()
    ensures families { FewestAreFamilies }
    ensures all { FewestAreAllFamilies }
    ensures frugal { FewestIsFrugal }
{}

/// Assume that each subterm of a term has its own letter. On-demand reduction of the term's net, by
/// either translation and for any number of heads, makes at most as many β-steps as any reduction
/// of the labelled term to a normal form contracts different degrees, and at most as many as any
/// reduction by families to a normal form has steps; also if it is stopped. If it finds a head at
/// each place, whole families, each time the family of the leftmost redex, lead to the printed term
/// in exactly as many steps. On-demand reduction therefore makes the fewest.
pub fn demand_is_optimal()
    ensures each { BetasAreOfEachReduction }
    ensures shorter { NoneIsShorterThanDemand }
    ensures reached { DemandIsAsShort }
{}

/// For a single head, on-demand reduction makes at most as many β-steps as any reduction of the
/// labelled term to a head normal form contracts different degrees, and at most as many as any
/// reduction by families to a head normal form has steps. If it ends, and a reduction to a head
/// normal form exists, whole families, each time the family of the head redex, lead to a head
/// normal form in exactly as many steps.
pub fn demand_is_optimal_for_a_head()
    ensures each { BetasAreOfEachHeadReduction }
    ensures shorter { NoneIsShorterForAHead }
    ensures reached { DemandIsAsShortForAHead }
{}

/// Theorem (Lévy): a degree that is needed after whole families were contracted was needed before.
/// It follows that call-by-need, which each time contracts the whole family of a redex that is
/// needed in the term at hand, has the fewest steps of all reductions by families to a normal form.
/// It can continue as long as a redex is left, because the leftmost redex is needed.
pub fn call_by_need()
    ensures back { NeedGoesBack }
    ensures fewest { CallByNeedIsFewest }
    ensures goes_on { CallByNeedGoesOn }
{}

/// On-demand reduction of a term's net makes at most as many β-steps as any reduction of the plain
/// term to a normal form has steps, whatever its redexes and their order.
pub fn never_more_than_any_reduction()
    ensures { NeverMoreThanAnyReduction }
{}

/// If the first places of a tree, in preorder, have heads, a term that fills the tree shows these
/// heads, whatever fills the holes of the tree. A normal form shows any number of heads, and a term
/// shows a single head exactly if it is a head normal form.
pub fn first_heads()
    ensures filled { FilledHasHeads }
    ensures normal { NormalHasHeads }
    ensures one { OneHeadIsHeadNormal }
{}

/// Assume that each label of a term is a letter. If some reduction leads to a term that shows its
/// first heads, whole families, each time the family of the leftmost redex, also lead to such a
/// term; they contract no family twice, and each of them is contracted by every such reduction.
/// They have therefore the fewest steps of all reductions by families to such a term.
pub fn first_heads_are_reached()
    ensures reached { FewestForHeads }
    ensures shorter { NoneIsShorterThanNeeded }
{}

/// Theorem (Lévy), for a number of first heads: a degree that is needed for these heads after whole
/// families were contracted was needed before. It follows that call-by-need, which each time
/// contracts the whole family of a redex that is needed in the term at hand, has the fewest steps
/// of all reductions by families to a term that shows these heads, and it can continue until the
/// term shows them.
pub fn call_by_need_for_heads()
    ensures back { NeedForHeadsGoesBack }
    ensures fewest { CallByNeedIsFewestForHeads }
    ensures goes_on { CallByNeedGoesOnForHeads }
{}

/// Theorem (optimality for the first heads): for any number of first heads, on-demand reduction
/// makes at most as many β-steps as any reduction of the labelled term to a term that shows these
/// heads contracts different degrees; at most as many as any reduction by families to such a term
/// has steps; and at most as many as any reduction of the plain term to such a term has steps. If
/// it ends, and such a reduction exists, whole families, each time the family of the leftmost
/// redex, lead to such a term in exactly as many steps, and each place that on-demand reduction was
/// asked for has a head. If each of these places has a head, such a reduction by families leads to
/// a term that fills the printed tree. The number of β-steps is the number of different degrees
/// that leftmost reduction up to these heads contracts.
pub fn demand_is_optimal_for_heads()
    ensures each { BetasAreOfEachReductionForHeads }
    ensures shorter { NoneIsShorterForHeads }
    ensures reached { DemandIsAsShortForHeads }
    ensures found { HeadsAreFound }
    ensures printed { PrintedHeadsAreAsShort }
    ensures plain { NoReductionToHeadsIsShorter }
    ensures families { BetasAreFamiliesForHeads }
{}
