//! Where bytes go.

ghost use Rattle.std.specs.Prelude.{◌≡◌, ℕ, ◌^◌, ◌<◌, ◌≤◌, List, length};
ghost use Rattle.std.specs.Io.KnownBytes.{Keeps};
ghost use Rattle.std.specs.declared.option.Option.{Option};
ghost use Rattle.bm_text.specs.Sink.{WritesWithin, WriteAdds, WriteFaults, FlushSets, FlushFaults};

/// What one write answered.
#[derive(Clone, Copy, Debug, PartialEq, Eq)]
pub enum Wrote {
    /// So many bytes were taken, at least one: the first of those given.
    Took(usize),
    /// The sink failed. It took nothing, and its count of faults rose.
    Failed,
}

/// What one flush answered.
#[derive(Clone, Copy, Debug, PartialEq, Eq)]
pub enum Flushed {
    /// All that was written before is flushed.
    Done,
    /// The sink failed, and its count of faults rose.
    Failed,
}

/// A sink of bytes, written in pieces. The rules of its calls are this project's own.
pub trait Sink {
    // The bytes written, where they are known, as over memory.
    ghost written: { Self → Option (List ℕ) };

    // How many bytes were written at the last flush that was done, 0 at first, where that is known.
    ghost flushed: { Self → Option ℕ };

    // How many writes and flushes failed, up to 2^64 - 1. It never falls.
    ghost faults: { Self → ℕ };

    /// Writes some of the bytes, which aren't none: as many as the answer says, from their front.
    fn write(&mut self, bytes: &[u8]) -> Wrote
        requires { 0 < length bytes.now }
        ensures within { WritesWithin result (length bytes.now) }
        ensures bytes { WriteAdds (written self.old) (written self.new) result bytes.now }
        ensures flushed { flushed self.new ≡ flushed self.old }
        ensures cause { WriteFaults (faults self.old) (faults self.new) result }
        ensures never_falls { faults self.old ≤ faults self.new }
        ensures counted { faults self.new < 2 ^ 64 };

    /// Flushes what was written. It appends nothing.
    fn flush(&mut self) -> Flushed
        ensures bytes { Keeps (written self.old) (written self.new) }
        ensures flushed { FlushSets (flushed self.old) (written self.new) (flushed self.new)
            result }
        ensures cause { FlushFaults (faults self.old) (faults self.new) result }
        ensures never_falls { faults self.old ≤ faults self.new }
        ensures counted { faults self.new < 2 ^ 64 };
}
