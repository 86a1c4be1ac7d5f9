//! Where bytes come from.

ghost use Rattle.std.specs.Prelude.{ℕ, ◌^◌, ◌<◌, ◌≤◌, List, length};
ghost use Rattle.std.specs.declared.option.Option.{Option};
ghost use Rattle.bm_text.specs.Source.{ReadsWithin, ReadTakes, ReadFaults};

/// What one read answered.
#[derive(Clone, Copy, Debug, PartialEq, Eq)]
pub enum Read {
    /// So many bytes came, at least one; they stand at the front of the slice.
    Got(usize),
    /// Nothing is left.
    End,
    /// The source failed. Nothing was taken from it, and its count of faults rose.
    Failed,
}

/// A source of bytes, read in pieces. The rules of its calls are this project's own.
pub trait Source {
    // The bytes not yet read, where they are known, as over memory.
    ghost left: { Self → Option (List ℕ) };

    // How many reads failed, up to 2^64 - 1. It never falls.
    ghost faults: { Self → ℕ };

    /// Reads some bytes into a slice, which isn't empty: as many as the answer says, at its front. What stands behind
    /// them in the slice is left open.
    fn read(&mut self, into: &mut [u8]) -> Read
        requires { 0 < length into.old }
        ensures within { ReadsWithin result (length into.old) }
        ensures bytes { ReadTakes (left self.old) (left self.new) result into.new }
        ensures cause { ReadFaults (faults self.old) (faults self.new) result }
        ensures never_falls { faults self.old ≤ faults self.new }
        ensures counted { faults self.new < 2 ^ 64 };
}
