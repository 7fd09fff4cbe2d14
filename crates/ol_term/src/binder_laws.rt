//! The theorem on the names of binders: no code, only what follows from the definitions.

ghost use Rattle.ol_term.specs.BinderLaws.{BinderIsLetterWithDigits, BinderIsNotFree, BindersDiffer};

/// The name of a binder is a letter, followed by a number or by nothing. It isn't a free name, and
/// binders with different numbers of enclosing binders have different names.
pub fn binder_names_are_new()
    ensures letter { BinderIsLetterWithDigits }
    ensures free { BinderIsNotFree }
    ensures differ { BindersDiffer }
{}
