//! The table of the different degrees.

ghost use Rattle.std.specs.Prelude.{◌≡◌, ◌<◌, ◌^◌, [], length, IfOk};
ghost use Rattle.ol_families.specs.Tables.{degrees_of, label_of, rows_of, AreKnown, IsFound, IsNoted, IsPlace};

use ol_limits::NoMemory;
use std::alloc::Global;
use std::marker::Model;

/// A letter of a label: that of a subterm of the first term, or a degree overlined or underlined,
/// by its number in the table of degrees.
#[derive(Clone, Copy, PartialEq, Eq, Drop)]
pub enum Letter {
    Own(u32),
    Over(u32),
    Under(u32),
}

// The place of a row among others. None comes exactly where it isn't there.
fn place_of(rows: &Vec<Vec<Letter>>, row: &[Letter]) -> Option<u32>
    requires few { length rows.now.items < 2 ^ 32 }
    ensures { IsPlace (rows_of rows.now.items) row.now result }
{
    for k in 0..rows.len() {
        if rows[k].as_slice() == row {
            return Some(k as u32);
        }
    }
    None
}

/// The different degrees so far, each a row of letters, in the order in which they came. A letter
/// of a row names only degrees before it. Contracts see the rows.
#[derive(Drop)]
pub struct Degrees {
    rows: Vec<Vec<Letter>>,
}

impl Model for Degrees {
    ghost use Rattle.std.specs.Prelude.{List};
    ghost use Rattle.ol_families.specs.declared.degrees.Letter.{Letter};
    ghost use Rattle.ol_families.specs.Tables.{degrees_of, rows_of, AreDegrees};

    ghost Value = { List (List Letter) };

    ghost view = { λ d. rows_of d.rows.items };

    ghost invariant = { λ d. let rows = rows_of d.rows.items in AreDegrees rows (degrees_of rows) };
}

impl Degrees {
    /// No degrees.
    pub fn new(alloc: Global) -> Degrees
        ensures { result ≡ [] }
    {
        Degrees {
            rows: Vec::new(alloc),
        }
    }

    /// How many there are.
    pub fn len(&self) -> u32
        ensures { result ≡ length (degrees_of self.now) }
    {
        self.rows.len() as u32
    }

    // The number of the degree that a row stands for. None comes exactly where it isn't there.
    fn find(&self, row: &[Letter]) -> Option<u32>
        requires known { AreKnown (length (degrees_of self.now)) row.now }
        ensures { IsFound (degrees_of self.now) (label_of (degrees_of self.now) row.now) result }
    {
        place_of(&self.rows, row)
    }

    /// The number of the degree that a row stands for, which goes last where it isn't there yet.
    /// `NoMemory`: no memory was found.
    pub fn note(&mut self, row: Vec<Letter>) -> Result<u32, NoMemory>
        requires known { AreKnown (length (degrees_of self.old)) row.items }
        ensures { IfOk result (λ k. IsNoted (degrees_of self.old)
            (label_of (degrees_of self.old) row.items) k (degrees_of self.new)) }
    {
        if let Some(k) = self.find(&row) {
            return Ok(k);
        }
        let number = self.rows.len();
        if number >= u32::MAX as usize {
            return Err(NoMemory);
        }
        self.rows.push(row)?;
        Ok(number as u32)
    }
}
