//! A call of `bench` over the fakes, and what it comes to as one text.
//!
//! Texts are byte strings: those of other strings are proved byte by byte (docs/LESSONS.md).
ghost use Rattle.ol_bench.specs.Commands.{IsWithinBounds};

use ol_bench::{Asked, Given, bench};
use ol_io::{MemFile, MemSink, MemSource};
use std::alloc::{AllocError, Global};
use std::test::Fail;

/// No call of a fake has this number.
pub const NONE: u64 = 1_000_000;

/// A text of a row; nothing where it is no UTF-8.
pub fn shown(text: &[u8]) -> &str {
    match str::from_utf8(text) {
        Ok(shown) => shown,
        Err(_) => "",
    }
}

pub fn file(alloc: Global, name: &str, bytes: &[u8]) -> Result<MemFile, AllocError> {
    Ok(MemFile {
        name: String::from_str(alloc, name)?,
        bytes: Vec::from_slice(alloc, bytes)?,
    })
}

pub fn named(alloc: Global, name: &str) -> Result<Given, AllocError> {
    Ok(Given::Name(String::from_str(alloc, name)?))
}

pub fn written(alloc: Global, text: &str) -> Result<Given, AllocError> {
    Ok(Given::Text(String::from_str(alloc, text)?))
}

// A sink that takes three bytes in each call, of which the one of this number fails.
fn sink(alloc: Global, failing: u64) -> Result<MemSink, Fail> {
    let failing = Vec::from_slice(alloc, &[failing])?;
    let sink = MemSink::new(alloc, 65_536, 3, failing)
        .ok()
        .ok_or("no memory")?;
    Ok(sink)
}

/// What a call of `bench` over these files comes to, where the calls of these numbers fail, of the
/// source's ones and of each sink's ones: the status, a colon, what was written, an exclamation mark,
/// and what was written of errors.
pub fn ran(
    alloc: Global,
    asked: &Asked,
    files: Vec<MemFile>,
    failing: (u64, u64),
) -> Result<String, Fail>
    requires { IsWithinBounds asked.now }
{
    let reads = Vec::from_slice(alloc, &[failing.0])?;
    let mut out = sink(alloc, failing.1)?;
    let mut errors = sink(alloc, failing.1)?;
    let mut src = MemSource::new(files, 65_536, reads);
    let status = bench(alloc, asked, &mut src, &mut out, &mut errors);
    let (out, errors) = (shown(out.bytes()), shown(errors.bytes()));
    let text = format!(in alloc; "{status:?}: {out}!{errors}")?;
    Ok(text)
}
