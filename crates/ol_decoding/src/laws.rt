//! Laws of encodings, and of trees that are read part by part: no code, only what follows from the
//! definitions.

ghost use Rattle.ol_decoding.specs.ValueLaws.{NumeralIsOne, ValueIsOne, ToldIsOne};
ghost use Rattle.ol_decoding.specs.TreeLaws.{PartsHaveSourceHeads};

/// A term is the Church numeral of one number at most, and so is it with Scott numerals. It has one
/// value of each encoding at most, and what is told of it is one text.
pub fn values_are_one()
    ensures numeral { NumeralIsOne }
    ensures value { ValueIsOne }
    ensures told { ToldIsOne }
{}

/// Each head is that of its part in the net before any step, by paths of any length.
pub fn parts_have_source_heads()
    ensures { PartsHaveSourceHeads }
{}
