//! A sink in memory that fails at chosen writes.
ghost use Rattle.std.specs.Prelude.{◌≡◌, ◌<◌, IfOk, length};
ghost use Rattle.ol_io.specs.Outside.{Counts, WritesWithin, write_failed};
ghost use Rattle.ol_io.specs.Fakes.{fresh_sink, write_answer, after_write};

use crate::mem_source::is_failing;
use crate::outside::{Put, Sink};
use ol_limits::NoMemory;
use std::alloc::Global;
use std::marker::Model;

/// A sink in memory, whose capacity is reserved when it is made. `taken` is the list of all its
/// bytes.
///
/// Writes are numbered from 0; all writes from number 2^64 - 1 on have this number. A write whose
/// number is in `failing` returns `Failed`, and so does a write when the capacity is used up. A
/// write takes at most `most` bytes, and at most the remaining capacity. A write takes no memory.
///
/// Contracts view it as a `SinkState`.
#[derive(Debug, Drop)]
pub struct MemSink {
    bytes: Vec<u8>,
    room: usize,
    most: usize,
    failing: Vec<u64>,
    calls: u64,
    faults: u64,
}

impl Model for MemSink {
    ghost use Rattle.std.specs.Prelude.{◌<◌, ◌≤◌, length, vec_len};
    ghost use Rattle.std.specs.Vec.{vec_capacity};
    ghost use Rattle.ol_io.specs.Fakes.{SinkState};

    ghost Value = { SinkState };

    ghost view = { λ s. record {
      bytes = s.bytes.items;
      room = s.room;
      most = s.most;
      failing = s.failing.items;
      calls = s.calls;
      faults = s.faults;
    } };

    ghost invariant = { λ s. (0 < s.most) × (vec_len s.bytes ≤ s.room)
        × (s.room ≤ vec_capacity s.bytes) };
}

impl MemSink {
    /// An empty sink with a capacity of `room` bytes, which it reserves.
    ///
    /// `NoMemory`: no memory was found for the capacity.
    pub fn new(
        alloc: Global,
        room: usize,
        most: usize,
        failing: Vec<u64>,
    ) -> Result<MemSink, NoMemory>
        requires most { 0 < most }
        ensures state { IfOk result (λ sink. sink ≡ fresh_sink room most failing.items) }
    {
        let bytes = Vec::with_capacity(alloc, room)?;
        Ok(MemSink {
            bytes,
            room,
            most,
            failing,
            calls: 0,
            faults: 0,
        })
    }

    /// The bytes taken so far, in order.
    pub fn bytes(&self) -> &[u8]
        ensures taken { result.now ≡ self.now.bytes }
    {
        &self.bytes
    }
}

impl Sink for MemSink {
    ghost use Rattle.std.specs.Prelude.{Some};

    ghost faults = { λ s. s.faults };

    ghost taken = { λ s. Some s.bytes };

    fn write(&mut self, piece: &[u8]) -> Put
        requires some { 0 < length piece.now }
        ensures cause { Counts (write_failed result) self.old.faults self.new.faults }
        ensures within { WritesWithin result (length piece.now) }
        ensures answer { result ≡ write_answer self.old (length piece.now) }
        ensures state { self.new ≡ after_write result piece.now self.old }
    {
        let fails = is_failing(&self.failing, self.calls);
        let left = self.room - self.bytes.len();
        self.calls = self.calls.saturating_add(1);
        if fails || left == 0 {
            self.faults = self.faults.saturating_add(1);
            return Put::Failed;
        }
        let count = piece.len().min(self.most.min(left));
        self.bytes.extend_from_slice(&piece[..count]).unwrap();
        Put::Bytes(count)
    }
}
