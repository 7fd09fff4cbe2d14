//! Why a term isn't translated.

ghost use Rattle.std.specs.Prelude.{◌≡◌};
ghost use Rattle.ol_translate.specs.declared.faults.TransFault.TheVariants.{NoMemory};

use std::alloc::{AllocError, AllocFailed};

/// Why a term isn't translated.
#[derive(Clone, Copy, Debug, PartialEq, Eq)]
pub enum TransFault {
    /// The net has more than 200,000 nodes.
    TooMany,
    /// A memory allocation failed.
    NoMemory,
}

impl From<AllocError> for TransFault {
    ghost from_gives = { λ _ e. e ≡ NoMemory };

    fn from(_: AllocError) -> Self {
        TransFault::NoMemory
    }
}

impl<T: Drop> From<AllocFailed<T>> for TransFault {
    ghost from_gives = { λ _ e. e ≡ NoMemory };

    fn from(_: AllocFailed<T>) -> Self {
        TransFault::NoMemory
    }
}
