//! The traits of sources and sinks of bytes.
ghost use Rattle.std.specs.Prelude.{◌≡◌, ◌+◌, ◌≤◌, ◌<◌, ℕ, Bool, true, false, List, ◌∷◌, Option, length};
ghost use Rattle.ol_io.specs.Outside.{Counts, Begins, Reads, ReadsWithin, Writes, WritesWithin, next_count, begin_failed, begin_ready, read_failed, gave_bytes, at_end, byte_count, write_failed};
ghost use Rattle.ol_io.specs.Readings.{Reading, begun, after_got};

/// The answer of `begin`.
#[derive(Clone, Copy, Debug, PartialEq, Eq)]
pub enum Begun {
    /// The bytes of the name can be read, from the first byte.
    Ready,
    /// The name couldn't be begun, and the count of faults rose, if it was below 2^64 - 1.
    Failed,
}

/// The answer of `read`.
#[derive(Clone, Copy, Debug, PartialEq, Eq)]
pub enum Got {
    /// The first bytes of the buffer, in this number, at least 1, are the bytes read.
    Bytes(usize),
    /// No byte of the name is left.
    End,
    /// The read failed, and the count of faults rose, if it was below 2^64 - 1.
    Failed,
}

/// The answer of `write`.
#[derive(Clone, Copy, Debug, PartialEq, Eq)]
pub enum Put {
    /// The first bytes of the piece, in this number, at least 1, were taken.
    Bytes(usize),
    /// No byte was taken, and the count of faults rose, if it was below 2^64 - 1.
    Failed,
}

/// A source of bytes, by name. The name `-` is standard input.
///
/// `contents` and `left` are `Some` for a source in memory, and `None` for files, whose bytes
/// aren't known before they are read. `readings` contains the bytes that every source returned.
pub trait Source {
    /// The number of failed calls. It never decreases, and stays at its greatest value, 2^64 - 1.
    ghost faults: { Self → ℕ };

    /// Whether a name can be begun. No call changes it.
    ghost knows: { Self → List ℕ → Bool };

    /// The number of calls of `begin`. It stays at its greatest value, 2^64 - 1.
    ghost begins: { Self → ℕ };

    /// The number of bytes that `read` returned since the last `begin`.
    ghost given: { Self → ℕ };

    /// Whether a name is begun and neither its end nor a fault was returned since.
    ghost ready: { Self → Bool };

    /// Whether the last answer was `End`.
    ghost ended: { Self → Bool };

    /// The bytes of each name, or `None` if the source doesn't know them. No call changes it.
    ghost contents: { Self → List ℕ → Option (List ℕ) };

    /// The remaining bytes of the name that was begun last, or `None` if the source doesn't know
    /// them.
    ghost left: { Self → Option (List ℕ) };

    /// The bytes returned so far: a reading for each `begin`, the last reading first.
    ghost readings: { Self → List Reading };

    /// Begins to read a name at its first byte.
    ///
    /// After `Ready`, `left` is all bytes of the name. After `Failed`, `left` is unchanged.
    fn begin(&mut self, name: &str) -> Begun
        requires known { knows self.old name.now ≡ true }
        ensures cause { Counts (begin_failed result) (faults self.old) (faults self.new) }
        ensures bytes { Begins result (contents self.old name.now) (left self.old) (left self.new) }
        ensures begins { begins self.new ≡ next_count (begins self.old) }
        ensures given { given self.new ≡ 0 }
        ensures ready { ready self.new ≡ begin_ready result }
        ensures ended { ended self.new ≡ false }
        ensures knows { knows self.new ≡ knows self.old }
        ensures contents { contents self.new ≡ contents self.old }
        ensures readings { readings self.new ≡ begun name.now ∷ readings self.old };

    /// Reads bytes of the name that was begun last: from 1 to the length of the buffer.
    ///
    /// `Bytes(n)` moves the first n remaining bytes to the start of the buffer. `End` is returned
    /// only if no byte remains. After `Failed`, `left` is unchanged.
    fn read(&mut self, buf: &mut [u8]) -> Got
        requires room { 0 < length buf.old }
        requires ready { ready self.old ≡ true }
        requires given { given self.old ≤ 1000000000 }
        ensures cause { Counts (read_failed result) (faults self.old) (faults self.new) }
        ensures bytes { Reads result buf.new (left self.old) (left self.new) }
        ensures within { ReadsWithin result (length buf.old) }
        ensures given { given self.new ≡ given self.old + byte_count result }
        ensures ready { ready self.new ≡ gave_bytes result }
        ensures ended { ended self.new ≡ at_end result }
        ensures begins { begins self.new ≡ begins self.old }
        ensures knows { knows self.new ≡ knows self.old }
        ensures contents { contents self.new ≡ contents self.old }
        ensures readings { readings self.new ≡ after_got result buf.new (readings self.old) };
}

/// A sink of bytes.
pub trait Sink {
    /// The number of failed calls. It never decreases, and stays at its greatest value, 2^64 - 1.
    ghost faults: { Self → ℕ };

    /// The bytes taken so far, in order, or `None` if the sink doesn't know them.
    ghost taken: { Self → Option (List ℕ) };

    /// Writes a nonempty prefix of a piece.
    ///
    /// `Bytes(n)` appends the first n bytes of the piece to the bytes taken. `Failed` takes no
    /// byte.
    fn write(&mut self, piece: &[u8]) -> Put
        requires some { 0 < length piece.now }
        ensures cause { Counts (write_failed result) (faults self.old) (faults self.new) }
        ensures bytes { Writes result piece.now (taken self.old) (taken self.new) }
        ensures within { WritesWithin result (length piece.now) };
}
