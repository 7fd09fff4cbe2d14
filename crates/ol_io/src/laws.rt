//! The theorem on the readings of a source: no code.
ghost use Rattle.std.specs.Prelude.{◌≡◌, ℕ, List, Some};
ghost use Rattle.ol_io.specs.Readings.{Reading, AreOf, handed};

/// For every list of readings there are files with these readings, and each of these files has a
/// list of bytes.
pub fn handed_over()
    ensures own { (rs : List Reading) → AreOf (handed rs) rs }
    ensures told { (rs : List Reading) (n : ℕ) (name : List ℕ)
        → (bytes : List ℕ) × (handed rs n name ≡ Some bytes) }
{}
