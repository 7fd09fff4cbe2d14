//! How an answer is written.

/// How an answer is written.
#[derive(Clone, Copy, Debug, PartialEq, Eq)]
pub enum Layout {
    /// As lines, for readers.
    Lines,
    /// As one JSON object on one line, for programs.
    Object,
}
