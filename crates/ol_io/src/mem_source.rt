//! A source in memory that fails at chosen calls.
ghost use Rattle.std.specs.Prelude.{◌≡◌, ◌≤◌, ◌<◌, ◌^◌, ◌+◌, ◌++◌, ℕ, List, true, Some, length, take, drop, min};
ghost use Rattle.ol_io.specs.Outside.{Counts, Reads, ReadsWithin, begin_failed, read_failed};
ghost use Rattle.ol_io.specs.Readings.{after_got};
ghost use Rattle.ol_io.specs.Unread.{left_of};
ghost use Rattle.ol_io.specs.Fakes.{fails_at, fresh_source, begin_answer, after_begin, read_answer, after_read, buffer_after};

use crate::files::{MemFile, find_file};
use crate::log::{Log, Note};
use crate::outside::{Begun, Got, Source};
use std::marker::Model;

/// A source in memory. `contents` is known for every name, and every name can be begun.
///
/// Calls of `begin` and `read` share one numbering from 0; all calls from number 2^64 - 1 on have
/// this number. A call whose number is in `failing` returns `Failed`, and so does a `begin` of a
/// name that no file has. If two files have the same name, the first is read. A read returns at
/// most `most` bytes.
///
/// Contracts view it as a `SourceState`.
#[derive(Debug, Drop)]
pub struct MemSource {
    files: Vec<MemFile>,
    most: usize,
    failing: Vec<u64>,
    calls: u64,
    place: usize,
    at: usize,
    faults: u64,
    begins: u64,
    given: u64,
    ready: bool,
    ended: bool,
    log: Log,
}

impl Model for MemSource {
    ghost use Rattle.std.specs.Prelude.{◌<◌, ◌≤◌, ◌^◌};
    ghost use Rattle.ol_io.specs.Unread.{left_of};
    ghost use Rattle.ol_io.specs.Fakes.{SourceState};

    ghost Value = { SourceState };

    ghost view = { λ s. record {
      files = s.files.items;
      most = s.most;
      failing = s.failing.items;
      calls = s.calls;
      left = left_of s.files.items s.place s.at;
      faults = s.faults;
      begins = s.begins;
      given = s.given;
      ready = s.ready;
      ended = s.ended;
      readings = s.log.passed.readings;
    } };

    ghost invariant = { λ s. (0 < s.most) × (s.at < 2 ^ 63) };
}

impl MemSource {
    /// A source of these files, before its first call. Takes no memory.
    pub fn new(files: Vec<MemFile>, most: usize, failing: Vec<u64>) -> MemSource
        requires most { 0 < most }
        ensures state { result ≡ fresh_source files.items most failing.items }
        ensures knows { (name : List ℕ) → ⟦<MemSource as Source>⟧.knows result name ≡ true }
    {
        let place = files.len();
        MemSource {
            files,
            most,
            failing,
            calls: 0,
            place,
            at: 0,
            faults: 0,
            begins: 0,
            given: 0,
            ready: false,
            ended: false,
            log: Log::new(),
        }
    }
}

impl Source for MemSource {
    ghost use Rattle.std.specs.Prelude.{true, Some};
    ghost use Rattle.ol_io.specs.Files.{contents_of};

    ghost faults = { λ s. s.faults };

    ghost knows = { λ s name. true };

    ghost begins = { λ s. s.begins };

    ghost given = { λ s. s.given };

    ghost ready = { λ s. s.ready };

    ghost ended = { λ s. s.ended };

    ghost contents = { λ s name. contents_of s.files name };

    ghost left = { λ s. Some s.left };

    ghost readings = { λ s. s.readings };

    fn begin(&mut self, name: &str) -> Begun
        ensures cause { Counts (begin_failed result) self.old.faults self.new.faults }
        ensures answer { result ≡ begin_answer self.old name.now }
        ensures state { self.new ≡ after_begin result name.now self.old }
    {
        let fails = is_failing(&self.failing, self.calls);
        let found = find_file(&self.files, name);
        self.log = self.log.then(&Note::Begun(name));
        self.calls = self.calls.saturating_add(1);
        self.begins = self.begins.saturating_add(1);
        self.given = 0;
        self.ended = false;
        if let (false, Some(place)) = (fails, found) {
            self.place = place;
            self.at = 0;
            self.ready = true;
            return Begun::Ready;
        }
        self.faults = self.faults.saturating_add(1);
        self.ready = false;
        Begun::Failed
    }

    fn read(&mut self, buf: &mut [u8]) -> Got
        requires room { 0 < length buf.old }
        requires ready { self.old.ready ≡ true }
        requires given { self.old.given ≤ 1000000000 }
        ensures cause { Counts (read_failed result) self.old.faults self.new.faults }
        ensures bytes { Reads result buf.new (Some self.old.left) (Some self.new.left) }
        ensures within { ReadsWithin result (length buf.old) }
        ensures readings { self.new.readings ≡ after_got result buf.new self.old.readings }
        ensures answer { result ≡ read_answer self.old (length buf.old) }
        ensures state { self.new ≡ after_read result self.old }
        ensures buffer { buf.new ≡ buffer_after result self.old.left buf.old }
    {
        let fails = is_failing(&self.failing, self.calls);
        self.calls = self.calls.saturating_add(1);
        self.ended = false;
        self.ready = false;
        if fails {
            self.faults = self.faults.saturating_add(1);
            return Got::Failed;
        }
        let count = copy_front(rest(&self.files, self.place, self.at), self.most, buf);
        if count == 0 {
            self.log = self.log.then(&Note::Ended);
            self.ended = true;
            return Got::End;
        }
        self.log = self.log.then(&Note::Gave(&buf[..count]));
        self.at += count;
        self.given += count as u64;
        self.ready = true;
        Got::Bytes(count)
    }
}

// Whether the call of this number is to fail.
pub(crate) fn is_failing(failing: &Vec<u64>, call: u64) -> bool
    ensures { result ≡ fails_at failing.now.items call }
{
    failing.contains(&call)
}

// What is left of the file at this place from an offset on.
pub(crate) fn rest(files: &[MemFile], place: usize, at: usize) -> &[u8]
    ensures value { result.now ≡ left_of files.now place at }
    ensures fits { 0 < length result.now → at + length result.now < 2 ^ 63 }
{
    match files.get(place) {
        None => &[],
        Some(file) => bytes_from(file.as_bytes(), at),
    }
}

fn bytes_from(bytes: &[u8], at: usize) -> &[u8]
    ensures value { result.now ≡ drop at bytes.now }
    ensures fits { 0 < length result.now → at + length result.now < 2 ^ 63 }
{
    bytes.get(at..).unwrap_or(&[])
}

// Copies what fits of the bytes left, no more than `most`, into the front of the buffer, and says
// how many.
pub(crate) fn copy_front(left: &[u8], most: usize, buf: &mut [u8]) -> usize
    ensures count { result ≡ min (length left.now) (min most (length buf.old)) }
    ensures buffer { buf.new ≡ take result left.now ++ drop result buf.old }
{
    let count = left.len().min(most.min(buf.len()));
    buf[..count].copy_from_slice(&left[..count]);
    count
}
