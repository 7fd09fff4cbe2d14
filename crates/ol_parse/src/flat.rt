//! A term as a list of operations on a stack of terms.

/// An operation on a stack of terms.
#[derive(Clone, Copy)]
pub enum Op<'a> {
    /// Pushes a name.
    Push(&'a [u8]),
    /// Pops an argument, then a function, and pushes the application.
    Apply,
    /// Pops a body, and pushes the abstraction of the name over it.
    Abstract(&'a [u8]),
    /// Pops a function, then an argument, and pushes the application.
    ApplyBelow,
}

/// An open construct around a position of the text.
#[derive(Clone, Copy)]
pub enum Open<'a> {
    /// A λ or a `let`, and whether a spine precedes it, which is applied to it.
    Applied(bool),
    /// An abstraction of the name.
    Abstracted(&'a [u8]),
    /// A `let` of the name, after its `in`.
    Bound(&'a [u8]),
    /// A bracket, and whether a spine precedes it.
    Bracket(bool),
    /// A `let` of the name, before its `in`.
    Defining(&'a [u8]),
}

/// What the parser expects next.
#[derive(Clone, Copy)]
pub enum Mode {
    /// An atom or a body, and whether a spine precedes it.
    Term(bool),
    /// The first name after a λ.
    FirstName,
    /// A further name, or the dot.
    MoreNames,
    /// The name after `let`.
    LetName,
    /// The `=` after that name; the `let` is already open.
    LetEquals,
}
