//! Why a text isn't a term.

ghost use Rattle.std.specs.Prelude.{◌≡◌};
ghost use Rattle.ol_parse.specs.declared.faults.ParseFault.TheVariants.{NoMemory};

use std::alloc::{AllocError, AllocFailed};

/// Why a text isn't a term.
#[derive(Clone, Copy, Debug, PartialEq, Eq)]
pub enum ParseFault {
    /// The grammar doesn't accept the text. `at` is the length, in bytes, of its longest prefix
    /// that can be extended to a valid text.
    Syntax { at: usize },
    /// The text is valid, and its term is deeper than 1,000. `depth` is its depth.
    Depth { depth: u64 },
    /// A memory allocation failed.
    NoMemory,
}

impl From<AllocError> for ParseFault {
    ghost from_gives = { λ _ e. e ≡ NoMemory };

    fn from(_: AllocError) -> Self {
        ParseFault::NoMemory
    }
}

impl<T: Drop> From<AllocFailed<T>> for ParseFault {
    ghost from_gives = { λ _ e. e ≡ NoMemory };

    fn from(_: AllocFailed<T>) -> Self {
        ParseFault::NoMemory
    }
}

impl From<ol_limits::NoMemory> for ParseFault {
    ghost from_gives = { λ _ e. e ≡ NoMemory };

    fn from(_: ol_limits::NoMemory) -> Self {
        ParseFault::NoMemory
    }
}
