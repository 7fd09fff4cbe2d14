//! Jobs, and why there is none.

ghost use Rattle.std.specs.Prelude.{◌≡◌, ◌↔◌, IfOk};
ghost use Rattle.clap.specs.Words.{kind_of};
ghost use Rattle.clap.specs.declared.error.kind.ErrorKind.TheVariants.{OutOfMemory};
ghost use Rattle.ol_words.specs.declared.jobs.UsageFault.TheVariants.{NoMemory};

use clap::Error;
use clap::error::ErrorKind;
use ol_term::Translation;
use std::alloc::{AllocError, AllocFailed, Global};
use std::marker::Model;

/// An argument of a command line. Contracts view it as its list of bytes.
#[derive(Debug, Drop)]
pub struct Word {
    text: String,
}

impl Model for Word {
    ghost use Rattle.std.specs.Prelude.{List, ℕ, string_bytes};

    ghost Value = { List ℕ };

    ghost view = { λ w. string_bytes w.text };
}

impl Word {
    /// A word of its own with this text.
    pub(crate) fn of(alloc: Global, text: &str) -> Result<Word, AllocError>
        ensures { IfOk result (λ word. word ≡ text.now) }
    {
        let text = String::from_str(alloc, text)?;
        Ok(Word { text })
    }

    /// The text of the argument.
    pub fn as_str(&self) -> &str
        ensures { result.now ≡ self.now }
    {
        self.text.as_str()
    }
}

/// The request of a command line.
#[derive(Debug, Drop)]
pub enum Job {
    /// Reduces the net of a term, and prints the readback of the final net with the counts of the
    /// rules.
    Run {
        /// The translation of the term.
        translation: Translation,
        /// The number of worker threads, 1 to 64.
        workers: u32,
        /// The greatest number of interactions, 0 to 8,000,000.
        fuel: u32,
        /// The greatest number of subterms whose heads are computed, 1 to 100,000.
        heads: u32,
        /// The file with the term, or `-` for standard input.
        name: Word,
    },
    /// Reads the term back from its initial net, and prints it.
    Walk {
        /// The translation of the term.
        translation: Translation,
        /// The greatest number of crossings of a walk, 1 to 10,000,000.
        edges: u64,
        /// The greatest number of subterms whose heads are computed, 1 to 100,000.
        heads: u32,
        /// The file with the term, or `-` for standard input.
        name: Word,
    },
    /// Reduces the net of a term by one thread, and prints the net after a number of interactions.
    View {
        /// The translation of the term.
        translation: Translation,
        /// The number of interactions, 0 to 8,000,000.
        after: u32,
        /// The file with the term, or `-` for standard input.
        name: Word,
    },
    /// Reduces the net of a term, and prints the trace.
    Trace {
        /// The translation of the term.
        translation: Translation,
        /// The number of worker threads, 1 to 64.
        workers: u32,
        /// The greatest number of interactions, 0 to 8,000,000.
        fuel: u32,
        /// The file with the term, or `-` for standard input.
        name: Word,
    },
    /// Checks whether a trace is a reduction of the net of a term.
    Check {
        /// The translation of the term.
        translation: Translation,
        /// The file with the term, or `-` for standard input.
        term: Word,
        /// The file with the trace, or `-` for standard input, if the term is in another file.
        journal: Word,
    },
    /// Generates a large term that reduces to an identity.
    Gen {
        /// The translation of the term.
        translation: Translation,
        /// Whether to do what `Run` does with the term, instead of printing it.
        run: bool,
        /// The number of times that the term is applied to itself, 0 to 10.
        k: u32,
    },
    /// Reduces the net of a term on demand, by one thread, and prints the readback with the counts
    /// of the rules.
    Demand {
        /// The translation of the term.
        translation: Translation,
        /// The greatest number of interactions, 0 to 8,000,000.
        fuel: u32,
        /// The greatest number of subterms whose heads are computed, 1 to 100,000.
        heads: u32,
        /// The file with the term, or `-` for standard input.
        name: Word,
    },
    /// Reduces the net of a term, and checks whether leftmost β-reduction of the term leads to the
    /// readback of the final net.
    Certify {
        /// The translation of the term.
        translation: Translation,
        /// The greatest number of β-steps, 0 to 10,000.
        steps: u32,
        /// The number of worker threads, 1 to 64.
        workers: u32,
        /// The greatest number of interactions, 0 to 8,000,000.
        fuel: u32,
        /// The greatest number of subterms whose heads are computed, 1 to 100,000.
        heads: u32,
        /// The file with the term, or `-` for standard input.
        name: Word,
    },
    /// Reduces a net, and prints the final net; or prints the initial net of a term.
    Net {
        /// The translation of a term.
        translation: Translation,
        /// Whether the file contains a term, whose net is printed, instead of a net.
        from_term: bool,
        /// The number of worker threads, 1 to 64.
        workers: u32,
        /// The greatest number of interactions, 0 to 8,000,000.
        fuel: u32,
        /// The file with the net or the term, or `-` for standard input.
        name: Word,
    },
    /// Reduces the nets of two terms, and compares the readbacks of the two final nets.
    Equal {
        /// The translation of the terms.
        translation: Translation,
        /// The number of worker threads, 1 to 64.
        workers: u32,
        /// The greatest number of interactions for each net, 0 to 8,000,000.
        fuel: u32,
        /// The greatest number of subterms of each term whose heads are computed, 1 to 100,000.
        heads: u32,
        /// The file with the first term, or `-` for standard input.
        first: Word,
        /// The file with the second term, or `-` for standard input, if the first term is in
        /// another file.
        second: Word,
    },
}

/// Why there is no job.
#[derive(Clone, Copy, Debug, PartialEq, Eq)]
pub enum UsageFault {
    /// The arguments request no job.
    Refused,
    /// A memory allocation failed.
    NoMemory,
}

impl From<AllocError> for UsageFault {
    ghost from_gives = { λ _ e. e ≡ NoMemory };

    fn from(_: AllocError) -> Self {
        UsageFault::NoMemory
    }
}

impl<T: Drop> From<AllocFailed<T>> for UsageFault {
    ghost from_gives = { λ _ e. e ≡ NoMemory };

    fn from(_: AllocFailed<T>) -> Self {
        UsageFault::NoMemory
    }
}

// Only want of memory is told as such.
impl From<Error> for UsageFault {
    ghost from_gives = { λ error fault. (fault ≡ NoMemory) ↔ (kind_of error ≡ OutOfMemory) };

    fn from(error: Error) -> Self {
        match error.kind() {
            ErrorKind::OutOfMemory => UsageFault::NoMemory,
            _ => UsageFault::Refused,
        }
    }
}
