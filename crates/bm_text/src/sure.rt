//! A source and a sink that never fail.

ghost use Rattle.std.specs.Prelude.{◌≡◌, ◌^◌, ◌<◌, ◌≤◌, drop, length, min, None, Some};
ghost use Rattle.bm_text.specs.Source.{ReadsWithin, ReadTakes, ReadFaults};
ghost use Rattle.bm_text.specs.Memory.{read_gives, bytes_got};

use crate::input::{Read, Source};
use crate::memory::copy_front;
use crate::output::{Flushed, Sink, Wrote};
use std::marker::Model;

/// A source over bytes in memory that never fails: its count of faults is always 0.
#[derive(Debug, Drop)]
pub struct SureSource<'a> {
    bytes: &'a [u8],
}

impl<'a> Model for SureSource<'a> {
    ghost use Rattle.std.specs.Prelude.{ℕ, List};

    ghost Value = { List ℕ };

    ghost view = { λ s. s.bytes.now };
}

impl<'a> SureSource<'a> {
    /// A source of these bytes.
    pub fn new(bytes: &'a [u8]) -> SureSource<'a>
        ensures { result ≡ bytes.now }
    {
        SureSource { bytes }
    }
}

impl Source for SureSource<'_> {
    ghost left = { λ s. Some s };

    ghost faults = { λ _. 0 };

    /// Gives all that is left and fits.
    fn read(&mut self, into: &mut [u8]) -> Read
        requires { 0 < length into.old }
        ensures within { ReadsWithin result (length into.old) }
        ensures bytes { ReadTakes (Some self.old) (Some self.new) result into.new }
        ensures cause { ReadFaults 0 0 result }
        ensures never_falls { 0 ≤ 0 }
        ensures counted { 0 < 2 ^ 64 }
        ensures answer { result ≡ read_gives self.old (length into.old) }
        ensures after { self.new ≡ drop (bytes_got result) self.old }
    {
        let count = copy_front(self.bytes, into.len(), into);
        if count == 0 {
            return Read::End;
        }
        let all: &[u8] = self.bytes;
        self.bytes = &all[count..];
        Read::Got(count)
    }
}

/// A sink that throws its bytes away, tells none, and never fails: its count of faults is always 0.
#[derive(Clone, Copy, Debug)]
pub struct SureSink;

impl Sink for SureSink {
    ghost written = { λ _. None };

    ghost flushed = { λ _. None };

    ghost faults = { λ _. 0 };

    /// Takes all bytes.
    fn write(&mut self, bytes: &[u8]) -> Wrote
        requires { 0 < length bytes.now }
        ensures { result ≡ Wrote.Took (length bytes.now) }
    {
        Wrote::Took(bytes.len())
    }

    fn flush(&mut self) -> Flushed
        ensures { result ≡ Flushed.Done }
    {
        Flushed::Done
    }
}
