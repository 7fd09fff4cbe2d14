//! What the commands answer.

/// How a command ended.
#[derive(Clone, Copy, Debug, PartialEq, Eq)]
pub enum End {
    /// The answer is yes, or there was no question of yes and no.
    Yes,
    /// The answer is no.
    No,
    /// The answer is no, and there is nothing to show: the text says why.
    Nothing,
    /// A file was refused: the text says why.
    Refused,
    /// A trace is one of a run that isn't complete: some pair is active after it.
    Run,
    /// A line of a trace isn't the next one of a run.
    NotARun,
    /// A line of a trace isn't in the grammar.
    BadText,
}

/// A text, and how the command ended.
#[derive(Drop)]
pub struct Answer {
    pub text: Vec<u8>,
    pub end: End,
}
