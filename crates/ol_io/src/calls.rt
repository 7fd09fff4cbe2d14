//! Reading all bytes of a name, and writing a whole text.
ghost use Rattle.std.specs.Prelude.{ℕ, List, Option, ◌≡◌, ◌≤◌, ◌<◌, ◌+◌, ◌↔◌, true, length, IfOk, OnOk, IsErrOf};
ghost use Rattle.ol_io.specs.Outside.{next_count, Appended, Counts, IsAllOf, IsLonger};
ghost use Rattle.ol_io.specs.Readings.{AreOfSince, HandsOver};
ghost use Rattle.ol_io.specs.ReadingOn.{ReadsOn};
ghost use Rattle.ol_io.specs.Calls.{read_all_failed, write_all_failed, written, FaultsWithin};

use crate::outside::{Begun, Got, Put, Sink, Source};
use std::alloc::Global;

/// Why `read_all` returns no bytes.
#[derive(Clone, Copy, Debug, PartialEq, Eq)]
pub enum ReadAll {
    /// The source failed: its count of faults rose, or is already at its greatest value.
    Fault,
    /// The name has more bytes than the limit of the call.
    TooLong,
    /// A memory allocation failed.
    NoMemory,
}

/// The answer of `write_all`.
#[derive(Clone, Copy, Debug, PartialEq, Eq)]
pub enum Written {
    /// The sink took the whole text.
    All,
    /// The sink failed after it took the first `taken` bytes of the text: its count of faults rose,
    /// or is already at its greatest value.
    Fault { taken: usize },
}

/// Reads all bytes of a name. The limit `most` is at most 1,000,000,000 bytes.
///
/// - `Fault`: the source failed, at the `begin` or at a `read`.
/// - `TooLong`: the name has more than `most` bytes. Reading stops at the first byte after these.
/// - `NoMemory`: no memory was found for the bytes.
///
/// Each `read` asks for at most 65,536 bytes, and each `read` except the last returns at least one
/// byte, so that the call makes at most `most` + 2 reads.
pub fn read_all<S: Source>(
    alloc: Global,
    src: &mut S,
    name: &str,
    most: usize,
) -> Result<Vec<u8>, ReadAll>
    requires known { S.knows src.old name.now ≡ true }
    requires most { most ≤ 1000000000 }
    ensures whole { IfOk result (λ bytes. IsAllOf (S.contents src.old name.now) bytes.items) }
    ensures counted { IfOk result (λ bytes. length bytes.items ≡ S.given src.new) }
    ensures ended { OnOk result (S.ended src.new ≡ true) }
    ensures too_long { IsErrOf result ReadAll.TooLong ↔ (most < S.given src.new) }
    ensures longer { most < S.given src.new → IsLonger (S.contents src.old name.now) most }
    ensures stops { S.given src.new ≤ most + 1 }
    ensures cause { Counts (read_all_failed result) (S.faults src.old) (S.faults src.new) }
    ensures begins { S.begins src.new ≡ next_count (S.begins src.old) }
    ensures knows { S.knows src.new ≡ S.knows src.old }
    ensures contents { S.contents src.new ≡ S.contents src.old }
    ensures hands { HandsOver name.now (S.given src.new) (S.ended src.new)
        (S.readings src.old) (S.readings src.new) result }
    ensures told { AreOfSince (λ _. S.contents src.old) (S.readings src.old) (S.readings src.new) }
    ensures whole_of { (files : ℕ → List ℕ → Option (List ℕ))
        → AreOfSince files (S.readings src.old) (S.readings src.new)
        → IfOk result (λ bytes. IsAllOf (files 0 name.now) bytes.items) }
    ensures longer_of { (files : ℕ → List ℕ → Option (List ℕ))
        → AreOfSince files (S.readings src.old) (S.readings src.new)
        → most < S.given src.new → IsLonger (files 0 name.now) most }
{
    match src.begin(name) {
        Begun::Ready => read_on(alloc, src, most),
        Begun::Failed => Err(ReadAll::Fault),
    }
}

// All bytes of the name that was just begun.
fn read_on<S: Source>(alloc: Global, src: &mut S, most: usize) -> Result<Vec<u8>, ReadAll>
    requires ready { S.ready src.old ≡ true }
    requires given { S.given src.old ≡ 0 }
    requires most { most ≤ 1000000000 }
    ensures whole { IfOk result (λ bytes. IsAllOf (S.left src.old) bytes.items) }
    ensures counted { IfOk result (λ bytes. length bytes.items ≡ S.given src.new) }
    ensures ended { OnOk result (S.ended src.new ≡ true) }
    ensures too_long { IsErrOf result ReadAll.TooLong ↔ (most < S.given src.new) }
    ensures longer { most < S.given src.new → IsLonger (S.left src.old) most }
    ensures stops { S.given src.new ≤ most + 1 }
    ensures cause { Counts (read_all_failed result) (S.faults src.old) (S.faults src.new) }
    ensures begins { S.begins src.new ≡ S.begins src.old }
    ensures knows { S.knows src.new ≡ S.knows src.old }
    ensures contents { S.contents src.new ≡ S.contents src.old }
    ensures hands { ReadsOn (S.left src.old) (S.given src.new) (S.ended src.new)
        (S.readings src.old) (S.readings src.new) result }
{
    let mut bytes = Vec::new(alloc);
    let mut buf = [0u8; 65536];
    'reading: loop {
        let asked = (most - bytes.len() + 1).min(buf.len());
        match src.read(&mut buf[..asked]) {
            Got::Failed => return Err(ReadAll::Fault),
            Got::End => return Ok(bytes),
            Got::Bytes(count) => {
                if count > most - bytes.len() {
                    return Err(ReadAll::TooLong);
                }
                if bytes.extend_from_slice(&buf[..count]).is_err() {
                    return Err(ReadAll::NoMemory);
                }
            }
        }
    }
}

/// Writes a whole text, or the prefix of it that the sink takes before it fails. Takes no memory.
///
/// Each write offers all remaining bytes. Each write except a failing write takes at least one
/// byte, so that the number of writes is at most the length of the text, in bytes.
pub fn write_all<W: Sink>(out: &mut W, text: &[u8]) -> Written
    ensures bytes { Appended (W.taken out.old) (written result text.now) (W.taken out.new) }
    ensures within { FaultsWithin result (length text.now) }
    ensures cause { Counts (write_all_failed result) (W.faults out.old) (W.faults out.new) }
{
    let mut at = 0;
    while at < text.len() {
        match out.write(&text[at..]) {
            Put::Failed => return Written::Fault { taken: at },
            Put::Bytes(count) => at += count,
        }
    }
    Written::All
}
