//! The search for a cell over parts of any type.
ghost use Rattle.std.specs.Prelude.{◌≡◌, ◌≢◌, ℕ, ◌<◌, IfSome, IfNone, MatchOption};
ghost use Rattle.ol_pool.specs.Looks.{Part, HasCounts, Tells, Gave, GaveNone, Missed, EachMissed, OneGave, FirstGave};

/// The answer of a look at a part.
#[derive(Debug, PartialEq, Clone, Copy)]
pub enum Seen {
    /// This cell, which is no longer in the part.
    Cell(u32),
    /// The part was empty.
    Empty,
    /// A step of another thread interfered: a second look may find a cell.
    Again,
}

/// Parts from which cells are taken, numbered from 0.
///
/// Contracts view each part as a `Part`: the cells that it gave, and two counts of 64 bits that
/// never decrease and count the looks without a cell. `kept` is what no look changes.
pub trait Look {
    type Kept;

    ghost number: { Self → ℕ };

    ghost part: { Self → ℕ → Part };

    ghost kept: { Self → Self.Kept };

    /// The number of parts.
    fn parts(&self) -> u32
        ensures number { result ≡ number self.now }
        ensures counts { (p : ℕ) → HasCounts (part self.now p) };

    /// Looks at a single part, and leaves the other parts unchanged.
    fn look(&mut self, at: u32) -> Seen
        requires { at < number self.old }
        ensures number { number self.new ≡ number self.old }
        ensures kept { kept self.new ≡ kept self.old }
        ensures tells { Tells result (part self.old at) (part self.new at) }
        ensures others { (q : ℕ) → q ≢ at → part self.new q ≡ part self.old q };
}

// A look, and one more where the first says so.
fn look_again<L: Look>(looks: &mut L, at: u32) -> Option<u32>
    requires { at < L.number looks.old }
    ensures number { L.number looks.new ≡ L.number looks.old }
    ensures kept { L.kept looks.new ≡ L.kept looks.old }
    ensures here { MatchOption result (Missed (L.part looks.old at) (L.part looks.new at))
        (λ cell. Gave cell (L.part looks.old at) (L.part looks.new at)) }
    ensures others { (q : ℕ) → q ≢ at → L.part looks.new q ≡ L.part looks.old q }
{
    match looks.look(at) {
        Seen::Cell(cell) => Some(cell),
        Seen::Empty => None,
        Seen::Again => match looks.look(at) {
            Seen::Cell(cell) => Some(cell),
            Seen::Empty => None,
            Seen::Again => None,
        },
    }
}

/// Takes a cell from the first part that gives a cell: first `own`, then the other parts in the
/// order of their numbers, beginning after `own` and continuing from 0. After `Again` the search
/// looks at the same part a second time. Takes no memory.
///
/// A cell comes from a part only if each earlier part in this order gave none: it answered `Empty`,
/// or answered `Again` twice.
///
/// `None`: each part gave none in this sense.
pub fn take_from<L: Look>(looks: &mut L, own: u32) -> Option<u32>
    requires { own < L.number looks.old }
    ensures number { L.number looks.new ≡ L.number looks.old }
    ensures kept { L.kept looks.new ≡ L.kept looks.old }
    ensures one { IfSome result
        (OneGave (L.number looks.old) (L.part looks.old) (L.part looks.new)) }
    ensures first { IfSome result
        (FirstGave own (L.number looks.old) (L.part looks.old) (L.part looks.new)) }
    ensures all { IfNone result
        (EachMissed (L.number looks.old) (L.part looks.old) (L.part looks.new)) }
    ensures stay { IfNone result
        ((p : ℕ) → GaveNone (L.part looks.old p) (L.part looks.new p)) }
{
    for at in own..looks.parts() {
        if let Some(cell) = look_again(looks, at) {
            return Some(cell);
        }
    }
    for at in 0..own {
        if let Some(cell) = look_again(looks, at) {
            return Some(cell);
        }
    }
    None
}
