//! The law of counts of families.

ghost use Rattle.ol_families.specs.Counts.{FamilyCountIsOne};

/// A term has one count of families within a bound, whichever letters its subterms have.
pub fn count_is_one()
    ensures one { FamilyCountIsOne }
{}
