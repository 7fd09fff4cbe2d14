//! The two translations of terms into nets.

/// How a term is translated into a net. The two translations differ only in arguments that are
/// variables.
#[derive(Clone, Copy, Debug, PartialEq, Eq)]
pub enum Translation {
    /// Translation 1: every argument is a box, a part of the net one level up, whose free variables
    /// have brackets.
    One,
    /// Translation 2: an argument that is a variable is the wire of that variable, without a box;
    /// every other argument is translated as in translation 1.
    Two,
}
