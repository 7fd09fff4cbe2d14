//! The record of a source's or a sink's traffic. Only contracts read it: it takes no memory, and a
//! note in it compiles to nothing.
ghost use Rattle.std.specs.Prelude.{◌≡◌};
ghost use base.Fml.{ftrue};
ghost use Rattle.ol_io.specs.Passed.{Passed, nothing};

use std::marker::Model;

// The readings that a source handed over, and the bytes that a sink took.
#[derive(Debug, Drop)]
pub(crate) struct Log {
    pub ghost passed: { Passed },
}

impl Model for Log {
    ghost also_owns = { λ _. ftrue };
}

// What is noted: a name that was begun, bytes that a read gave, an end, or bytes that a write took.
#[derive(Clone, Copy, Drop)]
pub(crate) enum Note<'a> {
    Begun(&'a str),
    Gave(&'a [u8]),
    Ended,
    Took(&'a [u8]),
}

impl Log {
    ghost use Rattle.ol_io.specs.Noted.{noted};

    pub(crate) fn new() -> Log
        ensures { result.passed ≡ nothing }
    {
        Log {}
    }

    #[inline(always)]
    pub(crate) fn then(&self, _note: &Note<'_>) -> Log
        ensures { result.passed ≡ noted self.now.passed _note.now }
    {
        Log {}
    }
}
