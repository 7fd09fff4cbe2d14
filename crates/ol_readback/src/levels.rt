//! Lists of level values.

ghost use Rattle.std.specs.Prelude.{◌≡◌, ◌≤◌, ◌↔◌, length, slice_get, IsNone, IfOk};

use ol_context::Val;
use ol_limits::NoMemory;
use std::alloc::Global;
use std::marker::Model;

/// Level values of the same holder. Contracts view the list of their numbers.
#[derive(Drop)]
pub struct Levels {
    pub(crate) levels: Vec<Val>,
}

impl Model for Levels {
    ghost use Rattle.std.specs.Prelude.{List, ℕ};

    ghost Value = { List ℕ };

    ghost view = { λ a. a.levels.items };
}

impl Levels {
    /// These levels. Takes no memory.
    pub fn of(levels: Vec<Val>) -> Levels
        ensures { result ≡ levels.items }
    {
        Levels { levels }
    }

    /// The number of levels.
    pub fn len(&self) -> usize
        ensures { result ≡ length self.now }
    {
        self.levels.len()
    }

    /// A copy of the list. `NoMemory`: no memory was found.
    pub fn copied(&self, alloc: Global) -> Result<Vec<Val>, NoMemory>
        ensures { IfOk result (λ r. r.items ≡ self.now) }
    {
        let copy = Vec::from_slice(alloc, self.levels.as_slice())?;
        Ok(copy)
    }

    /// Level `k`. `None`: `k` isn't less than `len`.
    pub fn get(&self, k: usize) -> Option<Val>
        ensures level { result ≡ slice_get self.now k }
        ensures none { IsNone result ↔ (length self.now ≤ k) }
    {
        if k < self.levels.len() {
            Some(self.levels[k])
        } else {
            None
        }
    }
}
