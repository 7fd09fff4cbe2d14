//! Confluence, standardization and normal forms of β-reduction, and what the printed line of `ol`
//! says about a term.
//!
//! The theorems on β-reduction: the Church–Rosser theorem (Church and Rosser, 1936), by complete
//! developments (Takahashi, 1995); standardization (Kashima, 2000), and its corollary that leftmost
//! reduction finds the normal form (Curry and Feys); and that a term has a head normal form exactly
//! if its head reduction ends (Wadsworth). With `ol_law_meaning` it follows what a printed tree
//! says about all reductions of its source: a line that is in the grammar is the normal form of the
//! source, and the comparison of two trees decides convertibility as far as `compared_trees` says.
//!
//! The file starts with β-reduction (`church_rosser` to `heads`), continues with printed trees and
//! their comparison (`printed_trees` to `small_conversions`), and ends with printed lines
//! (`written_lines`, `wrong_lines_mislead`). Every function is a theorem, without code.
//!
//! η isn't considered: `\x. f x` and `f` are different. The number of steps to a common reduct or
//! to a normal form isn't bounded. A line is judged by the term that is read from it: the names of
//! its binders, its spaces, brackets and comments don't matter.
#![tactic(auto)]

ghost use Rattle.ol_law_confluence.specs.Compared.{
  NumberIsOfOne,
  NamesAreKept,
  ComparisonTellsTerms,
  HeadBesideLostIsNotConvertible,
};
ghost use Rattle.ol_law_confluence.specs.Examples.{SmallConversions};
ghost use Rattle.ol_law_confluence.specs.Laws.{
  DevelopmentIsLast,
  ChurchRosser,
  NormalFormIsOne,
  EveryReductLeadsThere,
  ConvertibleIfMeet,
  ConvertibleShareNormalForm,
  ConvertibleNormalFormsAgree,
  Standardization,
  LeftmostFindsIt,
  HeadNormalFormsAgree,
  HeadNormalFormIfHeadReductionEnds,
  NoHeadNormalFormIfForever,
};
ghost use Rattle.ol_law_confluence.specs.Printed.{
  PrintedTreeSaysAlways,
  WholeTreesDecide,
  VerdictNeverDiffers,
};
ghost use Rattle.ol_law_confluence.specs.PrintedLine.{
  TextIsOneLine,
  HolesAreNoText,
  QuestionIsLost,
};
ghost use Rattle.ol_law_confluence.specs.WrongComparisons.{NumbersMislead, CutMisleads};
ghost use Rattle.ol_law_confluence.specs.WrongLines.{
  NamesAreApart,
  NormalFormIsReduced,
  OtherTermMisleads,
  ReductMisleads,
};

/// Theorem (Church and Rosser): two reducts of a term have a common reduct. A parallel β-step,
/// which contracts some redexes of a term at once, leads on to the complete development, which
/// contracts all of them.
pub fn church_rosser()
    ensures development { DevelopmentIsLast }
    ensures meet { ChurchRosser }
{}

/// A term has at most one normal form, and each reduct of the term reduces to it.
pub fn normal_form_is_one()
    ensures one { NormalFormIsOne }
    ensures reduct { EveryReductLeadsThere }
{}

/// Terms are convertible exactly if they have a common reduct. Convertible terms have the same
/// normal form.
pub fn conversion()
    ensures meet { ConvertibleIfMeet }
    ensures shared { ConvertibleShareNormalForm }
    ensures agree { ConvertibleNormalFormsAgree }
{}

/// Theorem (standardization): if a term β-reduces to another, standard reduction leads there, as
/// Kashima defines it: weak head reduction, followed by standard reduction of the subterms. (The
/// definition has no sequence of redexes, so that the theorem doesn't mention their order.) It
/// follows that leftmost reduction leads to the normal form, if it exists.
pub fn standardization()
    ensures standard { Standardization }
    ensures leftmost { LeftmostFindsIt }
{}

/// Head normal forms of convertible terms have equal numbers of abstractions, the same head, and
/// equal numbers of arguments, which are pairwise convertible. A term is convertible with a head
/// normal form exactly if its head reduction ends (Wadsworth).
pub fn heads()
    ensures agree { HeadNormalFormsAgree }
    ensures ends { HeadNormalFormIfHeadReductionEnds }
    ensures endless { NoHeadNormalFormIfForever }
{}

/// If each place of a printed tree has a head, the term of the tree is the normal form of its
/// source, whichever redexes are contracted. Two sources with such trees are convertible exactly if
/// the terms of the trees are equal, with free names compared by their numbers. If a tree was read
/// such that a place without a head has no head by any path (`lost_too`, as `run` and `demand` do),
/// a source with such a place has no normal form, nor does any term that is convertible with it;
/// with such a place at the root it has no head normal form. The verdict of leftmost reduction of a
/// source on its tree is never that they differ.
pub fn printed_trees()
    ensures always { PrintedTreeSaysAlways }
    ensures decide { WholeTreesDecide }
    ensures verdict { VerdictNeverDiffers }
{}

/// What the comparison of two printed trees says about their sources, whose free names are compared
/// by their bytes. If all places agree, the sources have the same normal form. If the first place
/// that doesn't agree has two heads, the sources aren't convertible. The sources aren't convertible
/// either if that place has a head in a tree and no head in the other, and the trees were read such
/// that a place without a head has no head by any path (`lost_too`).
pub fn compared_trees()
    ensures number { NumberIsOfOne }
    ensures names { NamesAreKept }
    ensures tells { ComparisonTellsTerms }
    ensures lost { HeadBesideLostIsNotConvertible }
{}

/// Two wrong comparisons say something false about small terms. A comparison of free names by their
/// numbers finds `a` and `b` equal, which have no common normal form. A comparison that answers
/// `different` for a first differing place that is cut does so for `a a` and `a a`, read with a
/// single head, and a term is convertible with itself.
pub fn wrong_comparisons_mislead()
    ensures numbers { NumbersMislead }
    ensures cut { CutMisleads }
{}

/// The definitions, for small terms: a term with two reducts and their common reduct, a term
/// without a normal form and without a head normal form, and two terms that aren't convertible.
pub fn small_conversions()
    ensures { SmallConversions }
{}

/// The text of a tree has no line feed. The text of a tree with a `?` or a `...` isn't in the
/// grammar, and the byte `?` occurs only for a place without a head.
pub fn written_lines()
    ensures one { TextIsOneLine }
    ensures holes { HolesAreNoText }
    ensures question { QuestionIsLost }
{}

/// A source is reduced to its normal form in the sense of the contracts of `ol` (`IsReducedTo`). In
/// this sense `a` isn't reduced to `b`, nor `\x. x` to `\x y. x`, nor `(\x. x) ((\x. x) a)` to its
/// reduct `(\x. x) a`, which has a redex; and `a` and `b` aren't convertible. An implementation
/// that printed such a line, or answered `equal` for `a` and `b`, would violate these contracts.
pub fn wrong_lines_mislead()
    ensures reduced { NormalFormIsReduced }
    ensures other { OtherTermMisleads }
    ensures reduct { ReductMisleads }
    ensures names { NamesAreApart }
{}
