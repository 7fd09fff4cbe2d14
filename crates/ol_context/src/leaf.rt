//! The leaf of an open context, and its changes in crossings.

use crate::arena::Val;

/// A constructor around a leaf: `o._`, `*._`, `<_,v>` or `<v,_>`.
#[derive(Clone, Copy)]
pub enum Around {
    O,
    Star,
    First(Val),
    Second(Val),
}

/// The level that contains the leaf, and the constructors around the leaf, from the innermost.
#[derive(Drop)]
pub struct Leaf {
    pub at: usize,
    pub around: Vec<Around>,
}

/// How a crossing changes a leaf, which represents a number of `o` before the empty value.
#[derive(Clone, Copy)]
pub enum Fate {
    /// The leaf is unchanged, except for its position.
    Stays,
    /// The leaf has lost an `o`.
    Grows,
    /// The leaf was the empty value, and is removed.
    Goes,
}
