//! The holder of level values.

ghost use Rattle.std.specs.Prelude.{◌≡◌, ◌≢◌, ◌^◌, ◌<◌, ◌≤◌, ◌↔◌, [], ◌∷◌, length, take, IfOk, OnErr, IsTrue};
ghost use Rattle.ol_context.specs.Contexts.{empty, o, star, pair};
ghost use Rattle.ol_context.specs.Shapes.{value, IsHeld, IsNumberOf, Extends, IsBelow, level_of_shape};

use indexmap::IndexSet;
use ol_limits::NoMemory;
use std::alloc::Global;
use std::marker::Model;

/// The number of a level value in its holder. Contracts view it as that number.
#[derive(Clone, Copy, PartialEq, Eq, Hash)]
pub struct Val {
    at: u32,
}

impl Model for Val {
    ghost use Rattle.std.specs.Prelude.{ℕ};

    ghost Value = { ℕ };

    ghost view = { λ a. a.at };

    ghost inverse = { λ n. record { at = n } };
}

impl Val {
    pub(crate) fn number(self) -> u32
        ensures { result ≡ self }
    {
        self.at
    }
}

/// The parts of a level value: `empty`, `o.v`, `*.v` or `<v,w>`.
#[derive(Clone, Copy, PartialEq, Eq, Hash)]
pub enum Shape {
    Empty,
    O(Val),
    Star(Val),
    Pair(Val, Val),
}

/// Level values, each of which is held once and has a `Val` as its number. Contracts view the list
/// of the values, by number.
///
/// Each `Val` keeps its value until `cut` removes it. There are at most 4,294,967,295 values.
#[derive(Drop)]
pub struct Values {
    // number 0 is the empty value, number k + 1 has shape k
    shapes: IndexSet<Shape>,
}

impl Model for Values {
    ghost use Rattle.std.specs.Prelude.{◌^◌, ◌<◌, List, length};
    ghost use Rattle.ol_context.specs.Contexts.{Level};
    ghost use Rattle.ol_context.specs.Codes.{levels_code};
    ghost use Rattle.ol_context.specs.HeldLevels.{trees};
    ghost use Rattle.ol_context.specs.Rows.{IsRow, AreOnce};

    ghost Value = { List Level };

    ghost coded = { levels_code };

    ghost view = { λ a. trees a.shapes.keys };

    ghost invariant = { λ a.
        IsRow 1 a.shapes.keys × AreOnce a.shapes.keys × (length a.shapes.keys < 4294967295) };
}

impl Values {
    /// A holder with the empty value only. Takes no memory.
    pub fn new(alloc: Global) -> Values
        ensures { result ≡ empty ∷ [] }
    {
        Values {
            shapes: IndexSet::new(alloc),
        }
    }

    /// Theorem: there are fewer than 2^32 values.
    pub fn are_few(&self)
        ensures few { length self.now < 2 ^ 32 }
    {
        let _ = &self.shapes;
    }

    /// The number of values.
    pub fn count(&self) -> u32
        ensures is { result ≡ length self.now }
        ensures some { 0 < result }
    {
        let _ = &self.shapes;
        self.shapes.len() as u32 + 1
    }

    /// Keeps the first `count` values, at least one, and removes all other values.
    pub fn cut(&mut self, count: u32)
        requires { 0 < count }
        ensures { self.new ≡ take count self.old }
    {
        let _ = &self.shapes;
        self.shapes.truncate(count as usize - 1);
    }

    /// The empty value. Takes no memory.
    pub fn empty(&self) -> Val
        ensures { IsNumberOf self.now result empty }
    {
        let _ = &self.shapes;
        Val { at: 0 }
    }

    /// The parts of a value. The value is of this holder. Takes no memory.
    pub fn shape(&self, v: Val) -> Shape
        requires { IsHeld self.now v }
        ensures is { value self.now v ≡ level_of_shape self.now result }
        ensures held { IsBelow (length self.now) result }
        ensures earlier { IsBelow v result }
    {
        let _ = &self.shapes;
        let at = v.at as usize;
        if at == 0 {
            return Shape::Empty;
        }
        let Some(shape) = self.shapes.get_index(at - 1) else {
            unreachable!()
        };
        *shape
    }

    fn put(&mut self, shape: Shape) -> Result<Val, NoMemory>
        requires below { IsBelow (length self.old) shape }
        requires full { shape ≢ Shape.Empty }
        ensures extends { Extends self.old self.new }
        ensures new { IfOk result (λ w. IsNumberOf self.new w (level_of_shape self.old shape)) }
        ensures err { OnErr result (self.new ≡ self.old) }
    {
        let count = self.shapes.len();
        if count >= 4294967294 {
            return Err(NoMemory);
        }
        let (at, _) = self.shapes.insert_full(shape)?;
        Ok(Val {
            at: (at + 1) as u32,
        })
    }

    /// The value `o.v`. The value `v` is of this holder. Values held before are unchanged.
    ///
    /// `NoMemory`: no memory was found, and the holder is unchanged.
    pub fn put_o(&mut self, v: Val) -> Result<Val, NoMemory>
        requires { IsHeld self.old v }
        ensures extends { Extends self.old self.new }
        ensures new { IfOk result (λ w. IsNumberOf self.new w (o (value self.old v))) }
        ensures err { OnErr result (self.new ≡ self.old) }
    {
        self.put(Shape::O(v))
    }

    /// The value `*.v`. The value `v` is of this holder. Values held before are unchanged.
    ///
    /// `NoMemory`: no memory was found, and the holder is unchanged.
    pub fn put_star(&mut self, v: Val) -> Result<Val, NoMemory>
        requires { IsHeld self.old v }
        ensures extends { Extends self.old self.new }
        ensures new { IfOk result (λ w. IsNumberOf self.new w (star (value self.old v))) }
        ensures err { OnErr result (self.new ≡ self.old) }
    {
        self.put(Shape::Star(v))
    }

    /// The value `<a,b>`. Both values are of this holder. Values held before are unchanged.
    ///
    /// `NoMemory`: no memory was found, and the holder is unchanged.
    pub fn put_pair(&mut self, a: Val, b: Val) -> Result<Val, NoMemory>
        requires first { IsHeld self.old a }
        requires second { IsHeld self.old b }
        ensures extends { Extends self.old self.new }
        ensures new { IfOk result (λ w.
            IsNumberOf self.new w (pair (value self.old a) (value self.old b))) }
        ensures err { OnErr result (self.new ≡ self.old) }
    {
        self.put(Shape::Pair(a, b))
    }

    /// Whether two values are equal as trees, which is so exactly if their numbers are equal. Both
    /// values are of this holder. Takes no memory.
    pub fn equal(&self, a: Val, b: Val) -> bool
        requires first { IsHeld self.now a }
        requires second { IsHeld self.now b }
        ensures trees { IsTrue result ↔ (value self.now a ≡ value self.now b) }
        ensures numbers { IsTrue result ↔ (a ≡ b) }
    {
        let _ = &self.shapes;
        a.at == b.at
    }

    /// Whether two values of this holder are equal as trees, as `equal` answers, in a `Result`.
    pub fn same(&self, a: Val, b: Val) -> Result<bool, NoMemory>
        requires first { IsHeld self.now a }
        requires second { IsHeld self.now b }
        ensures { IfOk result (λ r. IsTrue r ↔ (value self.now a ≡ value self.now b)) }
    {
        Ok(self.equal(a, b))
    }
}
