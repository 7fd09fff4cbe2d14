//! Laws of derivations, of heads and of grades: no code, only what follows from the definitions.

ghost use Rattle.ol_derivations.specs.Conversion.{ApartIsNotConvertible};
ghost use Rattle.ol_derivations.specs.DerivationLaws.{NoneIsMissed, OneAnswer, OneVerdict, YesIsRight};
ghost use Rattle.ol_derivations.specs.HeadLaws.{OneTextIsOneHead};
ghost use Rattle.ol_derivations.specs.GradeLaws.{HeadsDiffer, NoHeadTwice, OneGrading};

/// If the answer is `Yes`, the file has a first term, and each further one comes from the one
/// before it by one beta step, or is it.
pub fn yes_is_right()
    ensures { YesIsRight }
{}

/// A term has one verdict by the term before it.
pub fn one_verdict()
    ensures { OneVerdict }
{}

/// A term that is told to be `no beta step` or `not convertible` doesn't come from the one before
/// it by 5 beta steps or fewer, if that has at most 1,000 reductions of fewer than 5 steps, and
/// each leads to a term within bounds.
pub fn none_is_missed()
    ensures { NoneIsMissed }
{}

/// A file has one answer.
pub fn one_answer()
    ensures { OneAnswer }
{}

/// Terms that are told to be `not convertible` aren't, whatever is reduced.
pub fn apart_is_not_convertible()
    ensures { ApartIsNotConvertible }
{}

/// Two heads that stand at one place of two trees, which agree at each place before it, have one
/// text only if they agree: they have as many binders, the same variable, and as many arguments.
pub fn one_text_is_one_head()
    ensures { OneTextIsOneHead }
{}

/// If a student's tree isn't the solution's, the texts of what both have at the place that is told
/// differ. So no line about a student has one text behind `expected` and behind `got`.
pub fn no_head_twice()
    ensures heads { HeadsDiffer }
    ensures lines { NoHeadTwice }
{}

/// The same files, followed as far, have one answer: one text, and one end.
pub fn one_grading()
    ensures { OneGrading }
{}
