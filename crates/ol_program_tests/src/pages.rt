//! Pages: calls of `ol` with what they come to.
use crate::fakes::told;
use ol_io::OpenGate;
use std::alloc::{AllocError, Global};
use std::sync::Wait;
use std::test::Fail;
use std::thread::Threads;

// Puts a line, what it came to, and a line feed.
fn put_row(all: &mut Vec<u8>, line: &str, text: &[u8]) -> Result<(), AllocError> {
    all.extend_from_slice(line.as_bytes())?;
    all.push(b'\n')?;
    all.extend_from_slice(text)?;
    all.push(b'\n')?;
    Ok(())
}

/// A page as it would stand today: each of its lines `$ CALL`, and below it what the call comes to.
pub fn replayed(
    rt: &(impl Threads + Wait + Sync),
    alloc: Global,
    page: &[u8],
) -> Result<Vec<u8>, Fail> {
    let page = str::from_utf8(page).ok().ok_or("no text")?;
    let mut all = Vec::new(alloc);
    for line in page.split('\n') {
        if let Some(call) = line.strip_prefix("$ ") {
            let text = told(rt, alloc, call, &OpenGate)?;
            put_row(&mut all, line, &text)?;
        }
    }
    Ok(all)
}
