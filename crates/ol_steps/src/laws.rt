//! Laws of printed terms, of the names of binders, of lets and of answers: no code, only what
//! follows from the definitions.

ghost use Rattle.ol_steps.specs.TextLaws.{LetteredIsText, MarkIsUnder};
ghost use Rattle.ol_steps.specs.BinderLaws.{ContractedFits, LettersAreRead, NamedIsRead, NoneIsCaught, PrimedIsLeast, SourceFits, SourceIsKept, TextHasNames};
ghost use Rattle.ol_steps.specs.LetLaws.{FoldedFits, LetGoes, LetsDiffer, LetsStay, NothingIsLeft, NothingIsPruned, NoValueNoChange, TextHasLets, UnfoldedIsTerm, ValuesAreClosed};
ghost use Rattle.ol_steps.specs.StepLaws.{BindersAlongFit, EachStepCounts, FoldedLettersReadAgain, FoldedReadsAgain, FoldedRedexIsMarked, LetteredPartIsSubterm, LettersReadAgain, NamedPartIsSubterm, NoLetSameAnswer, PartIsRead, PartsAreThere, ReadsAgain, RedexIsMarked, ReturnIsEndless, ReturnHasNone, ShowingChangesNoEnd, UnfoldsToNext, WordIsShown};
ghost use Rattle.ol_steps.specs.Unfoldings.{LetsAreUnfolded, NoValueIsShown};

/// A term with the names that it is printed with has its printed text.
pub fn lettered_is_text()
    ensures { LetteredIsText }
{}

/// Whatever application stands at an address, its text stands in the term's text behind the same
/// bytes and before the same bytes: those before it have a space each in the line of carets, and
/// its own a caret each.
pub fn marks_are_under()
    ensures { MarkIsUnder }
{}

/// Some primes stand behind a primed name; with as many it is none of the names that are taken,
/// with fewer it is one of them.
pub fn primed_is_least()
    ensures { PrimedIsLeast }
{}

/// The names of a source's binders have the shape of its term.
pub fn source_fits()
    ensures { SourceFits }
{}

/// The names of binders after a contraction have the shape of the term after it.
pub fn contracted_fits()
    ensures { ContractedFits }
{}

/// The tree of a source is named as the source is: none of its binders gets a prime.
pub fn source_is_kept()
    ensures { SourceIsKept }
{}

/// The names of a term that is named stand for the places of the term: no binder takes what isn't
/// its own.
pub fn none_is_caught()
    ensures { NoneIsCaught }
{}

/// Let a term be closed but for free names, and less than 2^64 deep. Let its free names be fewer
/// than 2^32, and no two the same. If it is written with letters for its binders, it is read, with
/// these names, as the term: no binder takes what isn't its own. Law `binder_names_are_new` of
/// `ol_term` says that no letter is a free name.
pub fn letters_are_read()
    ensures { LettersAreRead }
{}

/// Each name of a text's term is a name of the grammar.
pub fn text_has_names()
    ensures { TextHasNames }
{}

/// The printed text of a term with names is read as the term.
pub fn named_is_read()
    ensures { NamedIsRead }
{}

/// If the values of the lets are put in the places of their names again, the term is what it was
/// before.
pub fn unfolded_is_term()
    ensures { UnfoldedIsTerm }
{}

/// Without lets a term stays as it is, and so do the names of its binders.
pub fn no_lets_no_change()
    ensures term { NoValueNoChange }
    ensures binders { NothingIsPruned }
{}

/// The names of binders that are left have the shape of the term.
pub fn folded_fits()
    ensures { FoldedFits }
{}

/// No name of a let is a free name or that of another let that counts, and no word of several lets is
/// a name. The value of each is closed.
pub fn lets_differ()
    ensures names { LetsDiffer }
    ensures values { ValuesAreClosed }
{}

/// No subterm of a folded term is a value that is closed, but for the redex at the address that is
/// given and what this stands in. If no address is given, no subterm is one.
pub fn nothing_is_left()
    ensures { NothingIsLeft }
{}

/// As many lets as a text begins with are at the front of its term. If the redex of one of them is
/// contracted, its binder has the let's name, and the others are left at the front, in their order.
/// If another redex is contracted, all of them are left there. It is so with the redex of any
/// order, and whatever names the binders have, so also if each has its own.
pub fn lets_are_left()
    ensures front { TextHasLets }
    ensures goes { LetGoes }
    ensures stay { LetsStay }
{}

/// Where a term of an order's reduction is that of an earlier step, the order has no end: each term
/// that it leads to from the first has a next redex. So the first term has no normal form, if the
/// order is leftmost; no head normal form, if it is head reduction; and no weak head normal form,
/// if it is weak head reduction.
pub fn returns_are_endless()
    ensures endless { ReturnIsEndless }
    ensures none { ReturnHasNone }
{}

/// If a term isn't folded, the carets stand under the text of the redex that an order contracts
/// next. The subterm at its address is an abstraction that is applied to an argument. In the line
/// below a space stands for each byte before its text, and a caret for each byte of its text.
/// Whatever application stands there in its place, its text stands in the term's line behind the
/// same bytes and before the same bytes.
pub fn redexes_are_marked()
    ensures { RedexIsMarked }
{}

/// If a term is folded, the carets stand under the text of the subterm at the address of the redex
/// that an order contracts next. What is applied there to an argument is an abstraction, or the
/// name of a let whose value is one. Let the term's own free names have numbers below those of the
/// lets, as the terms of a reduction have. If the values are put in the places of their names, the
/// folded term's subterm there is the redex itself.
pub fn folded_redexes_are_marked()
    ensures marked { FoldedRedexIsMarked }
    ensures unfolded { UnfoldsToNext }
{}

/// Let a tree, folded or not, be shown as a term. An address leads to a part of the term exactly if
/// it leads to a subterm of the tree. The part is that subterm, as it is written below the binders
/// round it, with the names of its own binders. If the whole is read again as the tree, the part is
/// read below the binders round it as the subterm. `names_are_read_again`, `folds_are_read_again`
/// and `letters_are_read_again` say that the whole is read so.
pub fn parts_are_subterms()
    ensures there { PartsAreThere }
    ensures fits { BindersAlongFit }
    ensures named { NamedPartIsSubterm }
    ensures lettered { LetteredPartIsSubterm }
    ensures read { PartIsRead }
{}

/// What is printed of each term of a reduction, if the binders keep the names that they have in the
/// file, is read again, with the source's free names, as a term of the same tree: no binder takes
/// what isn't its own. A text that is read alone has its own free names, and a term of a reduction
/// may have fewer than the source.
pub fn names_are_read_again()
    ensures { ReadsAgain }
{}

/// Let steps be made from the source, which has fewer than 4,294,967,296 free names. If each term
/// of a reduction is printed with letters for its binders, it is read again, with these names, as a
/// term of the same tree. Let parts be written by the names of lets, and let these names and the
/// free names together be fewer than 4,294,967,296. Then what is printed is the folded term, with
/// all these names, and is read again if no bar is in it. If the lets' values are put in the places
/// of their names, it is the term of the reduction.
pub fn letters_are_read_again()
    ensures plain { LettersReadAgain }
    ensures folded { FoldedLettersReadAgain }
{}

/// What is printed of a term of a reduction whose parts are written by the names of lets, if the
/// binders keep the names that they have in the file, is read again if no bar is in it, with the
/// free names of the source and those of the lets. If the lets' values are put in the places of
/// their names, it is the term of the reduction. So no binder captures the name of a let.
pub fn folds_are_read_again()
    ensures { FoldedReadsAgain }
{}

/// With the lets of a text, a part that is the value of a let is written by a word: the names of
/// all lets of this value whose binders have the names of the part's binders, or, if there are
/// none, the names of all lets of this value.
pub fn words_are_shown()
    ensures { WordIsShown }
{}

/// Each step of a reduction is counted, also one that only unfolds a let. So the numbers of steps
/// are those of the order.
pub fn each_step_counts()
    ensures { EachStepCounts }
{}

/// Let two answers to a file be of one order, by at most as many steps. They have one end and one
/// last line, whatever names are printed, with or without carets, folded or not.
pub fn showing_changes_no_end()
    ensures { ShowingChangesNoEnd }
{}

/// If no let stands at the front of a file, the answer with folding has the text and the end of the
/// answer without.
pub fn no_let_same_answer()
    ensures { NoLetSameAnswer }
{}

/// The steps of a reduction that only unfold a let contract the redexes of the lets at the front of
/// the text, each at most once. The names of the binders of these redexes, and those of the lets
/// that are left at the front, are together the names of all. It is so in each order, and whatever
/// names the binders have, so also if each has its own. A line that comes next tells how many of
/// the last steps in a row only unfold a let.
pub fn lets_are_unfolded()
    ensures { LetsAreUnfolded }
{}

/// No part of a term that is shown is the value of a let that counts, but for the redex that comes
/// next and what this stands in.
pub fn no_value_is_shown()
    ensures { NoValueIsShown }
{}
