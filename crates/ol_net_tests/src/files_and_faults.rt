//! Tables over the fakes, and one run of the adapters.

ghost use Rattle.std.specs.Prelude.{◌≤◌};

use ol_io::{
    Gate, MemFile, MemSink, MemSource, OpenGate, ReadAll, StdSink, StdSource, SureSink, SureSource,
    read_all, write_all,
};
use std::alloc::{AllocError, Global};
use std::fs;
use std::rt::Files;
use std::test::Fail;

/// A file of this name and text.
fn file(alloc: Global, name: &str, bytes: &[u8]) -> Result<MemFile, AllocError> {
    Ok(MemFile {
        name: String::from_str(alloc, name)?,
        bytes: Vec::from_slice(alloc, bytes)?,
    })
}

/// Three files, of which two have one name.
fn files(alloc: Global) -> Result<Vec<MemFile>, AllocError> {
    let mut files = Vec::new(alloc);
    files.push(file(alloc, "a", b"hello")?)?;
    files.push(file(alloc, "a", b"later")?)?;
    files.push(file(alloc, "-", b"")?)?;
    Ok(files)
}

/// The bytes that were read, or why there are none.
fn shown(alloc: Global, read: Result<Vec<u8>, ReadAll>) -> Result<String, Fail> {
    match read {
        Ok(bytes) => Ok(String::from_utf8(bytes).ok().ok_or("no text")?),
        Err(fault) => Ok(format!(in alloc; "{fault:?}")?),
    }
}

/// What `read_all` gives of one name, whose source gives three bytes at a time and fails at one
/// call.
fn read(alloc: Global, name: &str, failing: u64, most: usize) -> Result<String, Fail>
    requires { most ≤ 1024 }
{
    let mut src = MemSource::new(files(alloc)?, 3, vec![in alloc; failing]?);
    let read = read_all(alloc, &mut src, name, most);
    shown(alloc, read)
}

#[test]
fn reads_whole_names(rt: HostRuntime) -> Result<(), Fail> {
    let mut text = String::new(rt.alloc());
    for (name, failing, most) in [
        ("a", 99, 5),
        ("a", 4, 1024),
        ("-", 99, 0),
        ("a", 99, 4),
        ("a", 99, 0),
        ("b", 99, 5),
        ("a", 0, 5),
        ("a", 1, 5),
        ("a", 2, 5),
        ("a", 3, 5),
    ] {
        let read = read(rt.alloc(), name, failing, most)?;
        text.push_str(&read)?;
        text.push_str("\n")?;
    }
    assert!(rt;
        text.as_bytes()
            == b"hello\nhello\n\nTooLong\nTooLong\nFault\nFault\nFault\nFault\nFault\n".as_slice(),
        "{text}"
    );
    Ok(())
}

/// What comes of a text that is written three bytes at a time, where one call fails and there is room
/// for so many bytes.
fn written(alloc: Global, room: usize, failing: u64) -> Result<String, Fail>
    requires { room ≤ 1024 }
{
    let mut out = MemSink::new(alloc, room, 3, vec![in alloc; failing]?)?;
    let written = write_all(&mut out, b"four score");
    let kept = str::from_utf8(out.bytes()).ok().ok_or("no text")?;
    Ok(format!(in alloc; "{written:?} {kept}\n")?)
}

/// The room, and the write that fails.
#[test]
fn writes_whole_texts(rt: HostRuntime) -> Result<(), Fail> {
    let mut text = String::new(rt.alloc());
    for (room, failing) in [
        (1024, 99),
        (10, 4),
        (1024, 0),
        (1024, 1),
        (1024, 3),
        (8, 99),
    ] {
        let written = written(rt.alloc(), room, failing)?;
        text.push_str(&written)?;
    }
    assert!(rt;
        text.as_bytes()
            == b"All four score\nAll four score\nFault { taken: 0 } \nFault { taken: 3 } fou\n\
            Fault { taken: 9 } four scor\nFault { taken: 8 } four sco\n"
                .as_slice(),
        "{text}"
    );
    Ok(())
}

/// What the adapter over std reads of a file of that name.
fn read_by_std(rt: &(impl Files + Input), alloc: Global, most: usize) -> Result<String, Fail>
    requires { most ≤ 1024 }
{
    let mut src = StdSource::new(rt);
    let read = read_all(alloc, &mut src, "ol_io_adapters.txt", most);
    shown(alloc, read)
}

#[test]
fn adapters_read_a_file_and_write(rt: HostRuntime) -> Result<(), Fail> {
    let alloc = rt.alloc();
    fs::write(&rt, "ol_io_adapters.txt", b"a file".as_slice())?;
    let whole = read_by_std(&rt, alloc, 6)?;
    let short = read_by_std(&rt, alloc, 5)?;
    fs::remove_file(&rt, "ol_io_adapters.txt")?;
    let gone = read_by_std(&rt, alloc, 6)?;
    let written = write_all(&mut StdSink::new(&rt), b"written\n");
    let told = format!(in alloc; "{whole} {short} {gone} {written:?}")?;
    assert!(rt;
        told.as_bytes() == b"a file TooLong Fault All".as_slice(),
        "{told}"
    );
    Ok(())
}

/// What a sure sink of six bytes keeps of what a sure source has.
fn passed(alloc: Global) -> Result<String, Fail> {
    let mut src = SureSource::new(files(alloc)?);
    let text = read_all(alloc, &mut src, "a", 10)?;
    let none = read_all(alloc, &mut src, "b", 0)?.len();
    let mut out = SureSink::new(alloc, 3)?;
    let written = write_all(&mut out, &text);
    let kept = str::from_utf8(out.bytes()).ok().ok_or("no text")?;
    Ok(format!(in alloc; "{none} {written:?} {kept}")?)
}

// A gate is shared by the threads that pass it.
fn pass_shared(gate: &(impl Gate + Sync)) {
    gate.pass(0, 0);
}

/// A source that never fails has every name, and a sink that never fails keeps what has room. The open
/// gate lets pass.
#[test]
fn a_sure_source_goes_to_a_sure_sink(rt: HostRuntime) -> Result<(), Fail> {
    pass_shared(&OpenGate);
    let text = passed(rt.alloc())?;
    assert!(rt; text.as_bytes() == b"0 All hel".as_slice(), "{text}");
    Ok(())
}
