//! A source and a sink in memory that never fail.
ghost use Rattle.std.specs.Prelude.{◌≡◌, ◌≤◌, ◌<◌, ◌^◌, ◌++◌, ℕ, List, true, Some, IfOk, length, take, drop, min};
ghost use Rattle.ol_io.specs.Outside.{Counts, Reads, ReadsWithin, Writes, WritesWithin, begin_failed, read_failed, write_failed};
ghost use Rattle.ol_io.specs.Readings.{after_got};
ghost use Rattle.ol_io.specs.Fakes.{buffer_after};
ghost use Rattle.ol_io.specs.Sure.{fresh_sure_source, sure_begin_answer, after_sure_begin, sure_read_answer, after_sure_read, fresh_sure_sink, sure_write_answer, after_sure_write, told_by};

use crate::files::{MemFile, find_file};
use crate::log::{Log, Note};
use crate::mem_source::{copy_front, rest};
use crate::outside::{Begun, Got, Put, Sink, Source};
use ol_limits::NoMemory;
use std::alloc::Global;
use std::marker::Model;

/// A source in memory that never fails: its count of faults is the constant 0. `contents` is known
/// for every name, and every name can be begun.
///
/// A name that no file has is empty. If two files have the same name, the first is read. A read
/// returns as many bytes as remain and fit into the buffer.
///
/// Contracts view it as a `SureSourceState`.
#[derive(Debug, Drop)]
pub struct SureSource {
    files: Vec<MemFile>,
    place: usize,
    at: usize,
    begins: u64,
    given: u64,
    ready: bool,
    ended: bool,
    log: Log,
}

impl Model for SureSource {
    ghost use Rattle.std.specs.Prelude.{◌<◌, ◌^◌};
    ghost use Rattle.ol_io.specs.Unread.{left_of};
    ghost use Rattle.ol_io.specs.Sure.{SureSourceState};

    ghost Value = { SureSourceState };

    ghost view = { λ s. record {
      files = s.files.items;
      left = left_of s.files.items s.place s.at;
      begins = s.begins;
      given = s.given;
      ready = s.ready;
      ended = s.ended;
      readings = s.log.passed.readings;
    } };

    ghost invariant = { λ s. s.at < 2 ^ 63 };
}

impl SureSource {
    /// A source of these files, before its first call. Takes no memory.
    pub fn new(files: Vec<MemFile>) -> SureSource
        ensures state { result ≡ fresh_sure_source files.items }
        ensures knows { (name : List ℕ) → ⟦<SureSource as Source>⟧.knows result name ≡ true }
    {
        let place = files.len();
        SureSource {
            files,
            place,
            at: 0,
            begins: 0,
            given: 0,
            ready: false,
            ended: false,
            log: Log::new(),
        }
    }
}

impl Source for SureSource {
    ghost use Rattle.std.specs.Prelude.{true, Some};
    ghost use Rattle.ol_io.specs.Sure.{bytes_of};

    ghost faults = { λ s. 0 };

    ghost knows = { λ s name. true };

    ghost begins = { λ s. s.begins };

    ghost given = { λ s. s.given };

    ghost ready = { λ s. s.ready };

    ghost ended = { λ s. s.ended };

    ghost contents = { λ s name. Some (bytes_of s.files name) };

    ghost left = { λ s. Some s.left };

    ghost readings = { λ s. s.readings };

    fn begin(&mut self, name: &str) -> Begun
        ensures answer { result ≡ sure_begin_answer }
        ensures state { self.new ≡ after_sure_begin name.now self.old }
    {
        self.log = self.log.then(&Note::Begun(name));
        self.place = find_file(&self.files, name).unwrap_or(self.files.len());
        self.at = 0;
        self.begins = self.begins.saturating_add(1);
        self.given = 0;
        self.ready = true;
        self.ended = false;
        Begun::Ready
    }

    fn read(&mut self, buf: &mut [u8]) -> Got
        requires room { 0 < length buf.old }
        requires ready { self.old.ready ≡ true }
        requires given { self.old.given ≤ 1000000000 }
        ensures cause { Counts (read_failed result) 0 0 }
        ensures bytes { Reads result buf.new (Some self.old.left) (Some self.new.left) }
        ensures within { ReadsWithin result (length buf.old) }
        ensures readings { self.new.readings ≡ after_got result buf.new self.old.readings }
        ensures answer { result ≡ sure_read_answer self.old (length buf.old) }
        ensures state { self.new ≡ after_sure_read result self.old }
        ensures buffer { buf.new ≡ buffer_after result self.old.left buf.old }
    {
        let most = buf.len();
        let count = copy_front(rest(&self.files, self.place, self.at), most, buf);
        self.ready = count != 0;
        self.ended = count == 0;
        if count == 0 {
            self.log = self.log.then(&Note::Ended);
            return Got::End;
        }
        self.log = self.log.then(&Note::Gave(&buf[..count]));
        self.at += count;
        self.given += count as u64;
        Got::Bytes(count)
    }
}

/// A sink in memory that never fails: its count of faults is the constant 0.
///
/// It takes each piece whole. It keeps the first `room` bytes in memory that was reserved when it
/// was made, and drops all further bytes. `taken` is the list of all bytes as long as they are at
/// most `room`, and `None` afterwards. A write takes no memory.
///
/// Contracts view it as a `SureSinkState`.
#[derive(Debug, Drop)]
pub struct SureSink {
    bytes: Vec<u8>,
    room: usize,
    whole: bool,
}

impl Model for SureSink {
    ghost use Rattle.std.specs.Prelude.{◌≤◌, vec_len};
    ghost use Rattle.std.specs.Vec.{vec_capacity};
    ghost use Rattle.ol_io.specs.Sure.{SureSinkState};

    ghost Value = { SureSinkState };

    ghost view = { λ s. record { bytes = s.bytes.items; room = s.room; whole = s.whole } };

    ghost invariant = { λ s. (vec_len s.bytes ≤ s.room) × (s.room ≤ vec_capacity s.bytes) };
}

impl SureSink {
    /// An empty sink that keeps up to `room` bytes, whose memory it reserves.
    ///
    /// `NoMemory`: no memory was found for them.
    pub fn new(alloc: Global, room: usize) -> Result<SureSink, NoMemory>
        ensures state { IfOk result (λ sink. sink ≡ fresh_sure_sink room) }
    {
        let bytes = Vec::with_capacity(alloc, room)?;
        Ok(SureSink {
            bytes,
            room,
            whole: true,
        })
    }

    /// The bytes kept, in order: the first `room` bytes taken, or all bytes taken if they are
    /// fewer.
    pub fn bytes(&self) -> &[u8]
        ensures kept { result.now ≡ self.now.bytes }
    {
        &self.bytes
    }
}

impl Sink for SureSink {
    ghost use Rattle.ol_io.specs.Sure.{told_by};

    ghost faults = { λ s. 0 };

    ghost taken = { λ s. told_by s };

    fn write(&mut self, piece: &[u8]) -> Put
        requires some { 0 < length piece.now }
        ensures cause { Counts (write_failed result) 0 0 }
        ensures bytes { Writes result piece.now (told_by self.old) (told_by self.new) }
        ensures within { WritesWithin result (length piece.now) }
        ensures answer { result ≡ sure_write_answer (length piece.now) }
        ensures state { self.new ≡ after_sure_write piece.now self.old }
    {
        let left = self.room - self.bytes.len();
        self.whole = self.whole && piece.len() <= left;
        let kept = piece.len().min(left);
        self.bytes.extend_from_slice(&piece[..kept]).unwrap();
        Put::Bytes(piece.len())
    }
}
