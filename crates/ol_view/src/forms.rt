//! The two formats of a trace's text.

/// The format of a trace's text.
#[derive(Clone, Copy, Debug, PartialEq, Eq)]
pub enum Form {
    /// A line has the two nodes of an entry. The first line of the text is `ol trace 1`.
    One,
    /// A line has the rule, the wave and the two nodes of an entry. The first line of the text is
    /// `ol trace 2`.
    Two,
}
