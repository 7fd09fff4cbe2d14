//! The orders, and the words for what they end in.

/// An order of reduction: which redex is contracted next.
#[derive(Clone, Copy, Debug, PartialEq, Eq)]
pub enum Order {
    /// Normal order: the leftmost outermost redex.
    Leftmost,
    /// The head redex, below abstractions too.
    Head,
    /// The head redex, never below an abstraction: call-by-name.
    WeakHead,
    /// The leftmost innermost redex: function and argument first, below abstractions too.
    Applicative,
    /// The leftmost redex whose argument is a value, never below an abstraction: call-by-value.
    Value,
}

/// What an order ends in.
#[derive(Clone, Copy, Debug, PartialEq, Eq)]
pub enum Reached {
    /// A normal form: there is no redex.
    Normal,
    /// A head normal form: abstractions round a variable or a free name with arguments.
    HeadNormal,
    /// A weak head normal form: an abstraction, or a variable or a free name with arguments.
    WeakHeadNormal,
    /// A value: a variable, a free name or an abstraction.
    Value,
    /// No value: a free name, or a variable that nothing binds, is applied, and call-by-value can't
    /// go on.
    Stuck,
}
