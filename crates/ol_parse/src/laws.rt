//! The theorems on the grammar: no code, only what follows from the definitions.

ghost use Rattle.ol_parse.specs.Laws.{FewLeaves, OneDeadPlace, OneTerm};
ghost use Rattle.ol_parse.specs.Parsed.{OneFile};

/// A text has at most one term.
pub fn one_term()
    ensures { OneTerm }
{}

/// A text has at most one tree and one list of names.
pub fn one_file()
    ensures { OneFile }
{}

/// The length of a text's longest prefix that can be extended to a valid text is unique.
pub fn one_dead_place()
    ensures { OneDeadPlace }
{}

/// A term has at most as many variable occurrences as its text has bytes.
pub fn few_leaves()
    ensures { FewLeaves }
{}
