//! A source and a sink in memory, whose calls may be made to fail.

ghost use Rattle.std.specs.Prelude.{◌≡◌, ◌^◌, ◌<◌, ◌≤◌, length, take, min, None, Some, [], IfOk};
ghost use Rattle.std.specs.Io.KnownBytes.{Keeps};
ghost use Rattle.bm_text.specs.Source.{ReadsWithin, ReadTakes, ReadFaults};
ghost use Rattle.bm_text.specs.Sink.{WritesWithin, WriteAdds, WriteFaults, FlushSets, FlushFaults};
ghost use Rattle.bm_text.specs.Memory.{Tape, Sheet, read_answer, after_read, write_answer, after_write, flush_answer, after_flush};

use crate::input::{Read, Source};
use crate::output::{Flushed, Sink, Wrote};
use crate::plan::Plan;
use bm_word::NoMemory;
use std::alloc::Global;
use std::marker::Model;

/// A source over bytes in memory. It gives at most so many bytes a call, and the calls whose numbers stand in a list
/// fail; calls are numbered from 1.
#[derive(Debug, Drop)]
pub struct MemSource {
    bytes: Vec<u8>,
    at: usize,
    piece: usize,
    plan: Plan,
}

impl Model for MemSource {
    ghost use Rattle.std.specs.Prelude.{◌≤◌, drop, length};
    ghost use Rattle.bm_text.specs.Memory.{Tape};

    ghost Value = { Tape };

    ghost view = { λ s. record
        { left = drop s.at s.bytes.items; piece = s.piece; calls = s.plan } };

    ghost invariant = { λ s. (s.at ≤ length s.bytes.items) × (1 ≤ s.piece) };
}

impl MemSource {
    /// A source of these bytes, of which no call was made.
    pub fn new(bytes: Vec<u8>, piece: usize, fail: Vec<u32>) -> MemSource
        requires { 1 ≤ piece }
        ensures { result ≡ record {
          left = bytes.items;
          piece = piece;
          calls = record { fail = fail.items; made = 0; faults = 0 };
        } }
    {
        MemSource {
            bytes,
            at: 0,
            piece,
            plan: Plan::new(fail),
        }
    }
}

impl Source for MemSource {
    ghost left = { λ s. Some s.left };

    ghost faults = { λ s. s.calls.faults };

    /// Fails exactly where its number stands in the list.
    fn read(&mut self, into: &mut [u8]) -> Read
        requires { 0 < length into.old }
        ensures within { ReadsWithin result (length into.old) }
        ensures bytes { ReadTakes (Some self.old.left) (Some self.new.left) result into.new }
        ensures cause { ReadFaults self.old.calls.faults self.new.calls.faults result }
        ensures never_falls { self.old.calls.faults ≤ self.new.calls.faults }
        ensures counted { self.new.calls.faults < 2 ^ 64 }
        ensures answer { result ≡ read_answer self.old (length into.old) }
        ensures after { self.new ≡ after_read self.old (length into.old) }
    {
        if self.plan.fails(false) {
            return Read::Failed;
        }
        let count = copy_front(&self.bytes[self.at..], self.piece, into);
        if count == 0 {
            return Read::End;
        }
        self.at += count;
        Read::Got(count)
    }
}

// Copies the first bytes into a slice: as many as both have, and no more than `most`.
pub(crate) fn copy_front(from: &[u8], most: usize, into: &mut [u8]) -> usize
    ensures count { result ≡ min (length from.now) (min most (length into.old)) }
    ensures bytes { take result into.new ≡ take result from.now }
{
    let count = from.len().min(most.min(into.len()));
    into[..count].copy_from_slice(&from[..count]);
    count
}

/// A sink in memory. It holds so many bytes in all and takes at most so many a call, and the calls whose numbers stand
/// in a list fail; writes and flushes together are numbered from 1.
#[derive(Debug, Drop)]
pub struct MemSink {
    bytes: Vec<u8>,
    flushed: usize,
    room: usize,
    piece: usize,
    plan: Plan,
}

impl Model for MemSink {
    ghost use Rattle.std.specs.Prelude.{◌≤◌, length, vec_capacity};
    ghost use Rattle.bm_text.specs.Memory.{Sheet};

    ghost Value = { Sheet };

    ghost view = { λ s. record {
      written = s.bytes.items;
      flushed = s.flushed;
      room = s.room;
      piece = s.piece;
      calls = s.plan;
    } };

    ghost invariant = { λ s. (length s.bytes.items ≤ s.room) × (s.room ≤ vec_capacity s.bytes)
        × (1 ≤ s.piece) };
}

impl MemSink {
    /// A sink of which no call was made. Its memory is taken here, and its calls take none.
    pub fn new(
        alloc: Global,
        room: usize,
        piece: usize,
        fail: Vec<u32>,
    ) -> Result<MemSink, NoMemory>
        requires { 1 ≤ piece }
        ensures { IfOk result (λ sink. sink ≡ record {
          written = [];
          flushed = 0;
          room = room;
          piece = piece;
          calls = record { fail = fail.items; made = 0; faults = 0 };
        }) }
    {
        Ok(MemSink {
            bytes: Vec::with_capacity(alloc, room)?,
            flushed: 0,
            room,
            piece,
            plan: Plan::new(fail),
        })
    }

    /// What was written.
    pub fn bytes(&self) -> &[u8]
        ensures { result.now ≡ self.now.written }
    {
        self.bytes.as_slice()
    }

    /// How many bytes were written at the last flush that was done, 0 before it.
    pub fn flushed(&self) -> usize
        ensures { result ≡ self.now.flushed }
    {
        self.flushed
    }

    /// What was written, at the sink's end.
    pub fn into_bytes(self) -> Vec<u8>
        ensures { result.items ≡ self.written }
    {
        self.bytes
    }
}

impl Sink for MemSink {
    ghost written = { λ s. Some s.written };

    ghost flushed = { λ s. Some s.flushed };

    ghost faults = { λ s. s.calls.faults };

    /// Fails exactly where its number stands in the list or no room is left.
    fn write(&mut self, bytes: &[u8]) -> Wrote
        requires { 0 < length bytes.now }
        ensures within { WritesWithin result (length bytes.now) }
        ensures bytes { WriteAdds (Some self.old.written) (Some self.new.written) result bytes.now }
        ensures flushed { Some self.new.flushed ≡ Some self.old.flushed }
        ensures cause { WriteFaults self.old.calls.faults self.new.calls.faults result }
        ensures never_falls { self.old.calls.faults ≤ self.new.calls.faults }
        ensures counted { self.new.calls.faults < 2 ^ 64 }
        ensures answer { result ≡ write_answer self.old (length bytes.now) }
        ensures after { self.new ≡ after_write self.old bytes.now }
    {
        let rest = self.room - self.bytes.len();
        if self.plan.fails(rest == 0) {
            return Wrote::Failed;
        }
        let count = bytes.len().min(self.piece.min(rest));
        self.bytes.extend_from_slice(&bytes[..count]).unwrap();
        Wrote::Took(count)
    }

    /// Fails exactly where its number stands in the list.
    fn flush(&mut self) -> Flushed
        ensures bytes { Keeps (Some self.old.written) (Some self.new.written) }
        ensures flushed { FlushSets (Some self.old.flushed) (Some self.new.written)
            (Some self.new.flushed) result }
        ensures cause { FlushFaults self.old.calls.faults self.new.calls.faults result }
        ensures never_falls { self.old.calls.faults ≤ self.new.calls.faults }
        ensures counted { self.new.calls.faults < 2 ^ 64 }
        ensures answer { result ≡ flush_answer self.old }
        ensures after { self.new ≡ after_flush self.old }
    {
        if self.plan.fails(false) {
            return Flushed::Failed;
        }
        self.flushed = self.bytes.len();
        Flushed::Done
    }
}
