//! Laws of the answer: no code, only what follows from the definition.

ghost use Rattle.ol_places.specs.Frees.{OneAnswer};

/// A text has one answer.
pub fn one_answer()
    ensures { OneAnswer }
{}
