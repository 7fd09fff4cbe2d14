//! Lines and columns.

ghost use Rattle.std.specs.Prelude.{◌≡◌, ℕ, ◌+◌, ◌<◌, ◌≤◌, ◌^◌, length};
ghost use Rattle.ol_places.specs.Frees.{behind, behind_all};

const FEED: u8 = 10;

/// A place of a text: its line and its column, both from 1. A column is a byte.
#[derive(Clone, Copy)]
pub struct Place {
    pub line: u64,
    pub column: u64,
}

impl Place {
    // The place behind a byte.
    fn behind(self, b: u8) -> Place
        requires small { (self.line < 2 ^ 63) × (self.column < 2 ^ 63) }
        ensures { result ≡ behind self b }
    {
        if b == FEED {
            Place {
                line: self.line + 1,
                column: 1,
            }
        } else {
            Place {
                line: self.line,
                column: self.column + 1,
            }
        }
    }

    /// The place behind some bytes.
    pub fn behind_all(self, bytes: &[u8]) -> Place
        requires line { self.line + length bytes.now < 2 ^ 63 }
        requires column { self.column + length bytes.now < 2 ^ 63 }
        ensures place { result ≡ behind_all self bytes.now }
        ensures line { result.line ≤ self.line + length bytes.now }
        ensures column { result.column ≤ self.column + length bytes.now }
    {
        let mut place = self;
        for k in 0..bytes.len() {
            place = place.behind(bytes[k]);
        }
        place
    }
}
