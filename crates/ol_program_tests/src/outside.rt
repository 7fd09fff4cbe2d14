//! How often a source of the test's own is begun by a call.
ghost use Rattle.std.specs.Prelude.{true, Some};
ghost use Rattle.ol_io.specs.Files.{contents_of};

use crate::fakes::{files_of, sink, words_of};
use ol_cli::ol;
use ol_io::{Begun, Got, MemSource, OpenGate, Source};
use std::alloc::Global;
use std::sync::Wait;
use std::test::Fail;
use std::thread::Threads;

/// Files in memory, and how often one was begun.
#[derive(Drop)]
struct Counting {
    source: MemSource,
    begun: u64,
}

impl Source for Counting {
    ghost faults = { λ s. s.source.faults };

    ghost knows = { λ s name. true };

    ghost begins = { λ s. s.source.begins };

    ghost given = { λ s. s.source.given };

    ghost ready = { λ s. s.source.ready };

    ghost ended = { λ s. s.source.ended };

    ghost contents = { λ s name. contents_of s.source.files name };

    ghost left = { λ s. Some s.source.left };

    ghost readings = { λ s. s.source.readings };

    fn begin(&mut self, name: &str) -> Begun {
        self.begun = self.begun.saturating_add(1);
        self.source.begin(name)
    }

    fn read(&mut self, buf: &mut [u8]) -> Got {
        self.source.read(buf)
    }
}

// How many files these words begin where this call of the source fails.
fn times_begun(
    rt: &(impl Threads + Wait + Sync),
    alloc: Global,
    line: &str,
    call: u64,
) -> Result<u64, Fail> {
    let failing = Vec::from_slice(alloc, &[call])?;
    let mut src = Counting {
        source: MemSource::new(files_of(alloc, "x < x")?, 16, failing),
        begun: 0,
    };
    let words = words_of(alloc, line)?;
    let mut out = sink(alloc, 64, 1_000)?;
    ol(rt, alloc, &words, &mut src, &mut out, &OpenGate);
    Ok(src.begun)
}

/// Neither B of `equal` nor the journal of `check` is begun after a read fault of the first file.
/// Calls 0 to 2 of the source read that file, and calls 3 to 5 the second.
#[test]
fn nothing_is_begun_after_a_read_fault(rt: HostRuntime) -> Result<(), Fail> {
    for call in 0..7u64 {
        let of_equal = times_begun(&rt, rt.alloc(), "equal - j", call)?;
        let of_check = times_begun(&rt, rt.alloc(), "check - j", call)?;
        let wanted = if call < 3 { 1 } else { 2 };
        assert!(rt; of_equal == wanted && of_check == wanted, "{call}");
    }
    Ok(())
}
