//! Correctness of readback: the paths through the net of a term find the head normal form of the
//! term, and a tree that is read back along them is the result of β-reduction.
//!
//! The paths through a net are the paths of context semantics (Gonthier, Abadi and Lévy, The
//! Geometry of Optimal Lambda Reduction, POPL 1992). The theorems describe them without nodes and
//! numbers: a *spot* is the root or a variable's wire of a subterm, together with a context. An
//! *edge* joins two adjacent spots, and its *weight* is the number of application nodes between
//! them, 0 or 1. A *trail* is a sequence of edges. Head normal forms and leftmost reduction are as
//! in Barendregt, The Lambda Calculus, 1984, chapters 3, 8 and 13. Terms may be open, and all
//! theorems hold for both translations.
//!
//! The file starts with trails and paths (`net_and_spots`), continues with what substitution, a
//! redex and a head step do to trails (`lifting` to `stepping`), the head that trails find
//! (`heading` to `net_heads`), wrong translations (`wrong_tables_mislead`), head reduction as
//! leftmost reduction (`head_is_leftmost`, `head_normal_forms`), and ends with the frames and trees
//! of readback (`seeing` to `small_terms`). Every function is a theorem, without code.
//!
//! The theorems are about the initial net of a term; `ol_invariance` proves that interactions
//! preserve its paths. About a place that was cut they say only that some term is there.
#![tactic(auto)]

ghost use Rattle.ol_law_meaning.specs.Examples.{SmallTerms};
ghost use Rattle.ol_law_meaning.specs.Heads.{
  HeadPath,
  FewLeadNowhere,
  NormalOrStep,
  HeadFound,
  ExitIsHead,
  HeadIsFound,
  LeastIsHead,
  BinderStays,
  BelowHead,
  HatIsOne,
  RootStandsAtHead,
  ArgsAreThere,
};
ghost use Rattle.ol_law_meaning.specs.Laws.{
  LiftKeeps,
  CutIsHeld,
  HeldIsCut,
  RedexOpens,
  CutCloses,
  HeadKeeps,
  HeadReflects,
  SameIsOne,
  RootIsSame,
  ShortIsStuck,
};
ghost use Rattle.ol_law_meaning.specs.Leftmost.{
  HeadIsLeftmost,
  HeadIsContraction,
  StepsAreReduction,
  EndlessIsAnyNumber,
  OneSubstitution,
};
ghost use Rattle.ol_law_meaning.specs.Meaning.{
  NormalIsHeadNormal,
  EndlessOrNormal,
  WholeTermIsSeen,
  ArgIsSeen,
  HeadIsReached,
  HeadIsReachedSoon,
  NoHeadIsEndless,
  TreeShowsTerm,
  ShownIsReduct,
  ShownIsNormalForm,
  ShownHasNoEnd,
  PlacesSay,
};
ghost use Rattle.ol_law_meaning.specs.Nets.{PathFindsHead, HeadHasPath};
ghost use Rattle.ol_law_meaning.specs.Tables.{BracketIsNeeded, FanIsNotTurned};
ghost use Rattle.ol_law_meaning.specs.TermPaths.{NetAndSpots, PathHasWeight};

/// Theorem: a path of a term's net, by either translation, leads from a free port with a context to
/// a free port with a context exactly if a trail of the term's spots does, from the spot of the
/// first port to the spot of the second port. Each path has a trail whose weight is the number of
/// applications that the path traverses.
pub fn net_and_spots()
    ensures same { NetAndSpots }
    ensures weight { PathHasWeight }
{}

/// A term has the same edges, with the same weights, under additional enclosing abstractions.
pub fn lifting()
    ensures { LiftKeeps }
{}

/// The cut of M with N is M together with a single N, whose root is joined to the wire of a
/// variable of M. An edge of the cut is a trail, of the same weight, of the term M with N
/// substituted for the variable, and an edge of that term is a trail, of the same weight, of the
/// cut.
pub fn cutting()
    ensures there { CutIsHeld }
    ensures back { HeldIsCut }
{}

/// The redex of an abstraction of M and an argument N has the trails of the cut of M with N: an
/// edge of the redex is a trail of at most the same weight of the cut, and an edge of the cut is a
/// trail of the redex.
pub fn opening()
    ensures opens { RedexOpens }
    ensures closes { CutCloses }
{}

/// A head step preserves where the root and the free variables of a term lead. Before and after the
/// step trails lead between the same spots, with equal levels except level 0; the values of level 0
/// correspond by the one-to-one relation `Same`. The weight of a trail doesn't increase. It
/// decreases for a trail from the root if level 0 has a mark `o` for each outer abstraction. If
/// level 0 is empty after fewer marks `o` than there are outer abstractions, no trail leads on from
/// the root, before and after the step.
pub fn stepping()
    ensures keeps { HeadKeeps }
    ensures reflects { HeadReflects }
    ensures one { SameIsOne }
    ensures root { RootIsSame }
    ensures stuck { ShortIsStuck }
{}

/// In a head normal form the only trail from the root leads to the head variable, if level 0 has a
/// mark `o` for each abstraction, and its weight is the number of the head's arguments. If level 0
/// is empty after fewer marks, the root leads to no other spot. Each term is a head normal form or
/// has a head step.
pub fn heading()
    ensures path { HeadPath }
    ensures few { FewLeadNowhere }
    ensures steps { NormalOrStep }
{}

/// If a trail of weight w leads from a term's root, with n marks `o`, to another spot, the term has
/// a head normal form, which at most w head steps reach, and the spot is the spot of its head.
/// Conversely, if the term has a head normal form, such a trail exists. The least n is the number
/// of abstractions, and level 1 encodes the number of arguments. Head steps preserve which
/// abstraction binds a variable.
pub fn finding()
    ensures found { HeadFound }
    ensures exit { ExitIsHead }
    ensures reached { HeadIsFound }
    ensures least { LeastIsHead }
    ensures binder { BinderStays }
{}

/// An argument of a head normal form is like a term of its own: its root and each of its free
/// variables are at different spots of the whole term, and lead on there exactly as they do in the
/// argument alone. The root of the argument is at the spot of the head, and level 1 encodes the
/// argument's number.
pub fn seating()
    ensures below { BelowHead }
    ensures one { HatIsOne }
    ensures root { RootStandsAtHead }
    ensures args { ArgsAreThere }
{}

/// The same for the net of a whole term, by either translation. If a path leads from the root's
/// free port, with n marks `o`, to a free port, the term has a head normal form, which is reached
/// by at most as many head steps as the path traverses applications, and its head leaves the net at
/// that port. Conversely, if head steps lead to a head normal form whose head leaves the net at a
/// free port, such a path exists.
pub fn net_heads()
    ensures found { PathFindsHead }
    ensures reached { HeadHasPath }
{}

/// Wrong translations violate the first of these theorems, for small terms. Without the argument's
/// bracket in the net of `(\x. x) y` by translation 1, a path leads to y with levels that no head
/// has. With the auxiliary ports of the fan exchanged in the net of `y y`, by either translation,
/// the path to the head leaves with the mark of the other occurrence.
pub fn wrong_tables_mislead()
    ensures bracket { BracketIsNeeded }
    ensures fan { FanIsNotTurned }
{}

/// A head step is the leftmost β-step of the term, as `ol_beta` defines it: its redex is the first
/// in preorder, and the term after the step is its contraction. A head step contracts the redex at
/// an address of moves into bodies followed by moves into functions; because of this, a sequence of
/// head steps is head reduction, which is infinite exactly if it has sequences of every length. The
/// two definitions of substitution agree.
pub fn head_is_leftmost()
    ensures step { HeadIsLeftmost }
    ensures head { HeadIsContraction }
    ensures row { StepsAreReduction }
    ensures endless { EndlessIsAnyNumber }
    ensures same { OneSubstitution }
{}

/// The two definitions of head normal form agree: abstractions around a variable or a free name
/// with arguments, and a term whose head leads to a spot of its root or its free variables. Head
/// reduction of a term is infinite exactly if it reaches no head normal form.
pub fn head_normal_forms()
    ensures same { NormalIsHeadNormal }
    ensures endless { EndlessOrNormal }
{}

/// A whole term is seen in its own net at the free ports. If a term is seen at a frame and head
/// steps lead from it to a head normal form, each argument of the head normal form is also seen: at
/// the port by which the head leaves, after the levels of that exit and the number of the argument.
/// The frames of readback therefore represent terms.
pub fn seeing()
    ensures term { WholeTermIsSeen }
    ensures argument { ArgIsSeen }
{}

/// The head of a frame, by paths of any length, is the head of the head normal form of the term
/// that is seen there, with its variable and the number of its arguments. The head normal form is
/// reached by at most as many head steps as the path traverses applications. If a frame has no
/// head, head reduction of the term that is seen there is infinite.
pub fn framing()
    ensures reached { HeadIsReached }
    ensures soon { HeadIsReachedSoon }
    ensures none { NoHeadIsEndless }
{}

/// If the heads of a tree are the heads of a term's initial net, the tree shows the term: head
/// reduction leads from the term to the root's head, and from the arguments to the heads of their
/// places. The term reduces to the term of the tree with some term at each place without a head or
/// cut. If each place has a head, leftmost reduction of the term ends in the term of the tree,
/// which is a β-normal form. If some place has no head, and the places without a head have no head
/// in the net, head reduction of the term at such a place is infinite, and leftmost reduction of
/// the whole term reaches no β-normal form.
pub fn meaning()
    ensures shows { TreeShowsTerm }
    ensures reduct { ShownIsReduct }
    ensures normal { ShownIsNormalForm }
    ensures endless { ShownHasNoEnd }
    ensures places { PlacesSay }
{}

/// The definitions, for small terms: three terms whose leftmost reduction ends in a normal form,
/// including a term with an unused argument whose reduction is infinite; a term with a head normal
/// form only, which the tree `\a. a ?` shows; and a term whose head reduction is infinite.
pub fn small_terms()
    ensures { SmallTerms }
{}
