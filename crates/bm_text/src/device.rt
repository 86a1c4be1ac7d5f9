//! Std's readers and writers as a source and a sink. What a real file, stream or terminal does is trusted.

ghost use Rattle.std.specs.Prelude.{◌≡◌, ◌^◌, ◌<◌, ◌≤◌, length, None};
ghost use Rattle.std.specs.Io.KnownBytes.{Keeps};
ghost use Rattle.bm_text.specs.Source.{ReadsWithin, ReadTakes, ReadFaults};
ghost use Rattle.bm_text.specs.Sink.{WritesWithin, WriteAdds, WriteFaults, FlushSets, FlushFaults};
ghost use Rattle.bm_text.specs.Device.{faults_after_read, faults_after_write, faults_after_flush};

use crate::input::{Read, Source};
use crate::output::{Flushed, Sink, Wrote};
use std::io;
use std::marker::Model;

/// A reader of std as a source. It tells what the reader tells, and counts each error as a fault.
#[derive(Debug, Drop)]
pub struct StdSource<R> {
    reader: R,
    faults: u64,
}

impl<R> Model for StdSource<R> {
    ghost use Rattle.bm_text.specs.Device.{Device};

    ghost Value = { Device R };

    ghost view = { λ s. record { inner = s.reader; faults = s.faults } };
}

impl<R> StdSource<R> {
    /// A source that has met no fault yet.
    pub fn new(reader: R) -> StdSource<R>
        ensures { result ≡ record { inner = reader; faults = 0 } }
    {
        StdSource { reader, faults: 0 }
    }
}

impl<R: io::Read> Source for StdSource<R> {
    ghost left = { λ s. R.remaining s.inner };

    ghost faults = { λ s. s.faults };

    fn read(&mut self, into: &mut [u8]) -> Read
        requires { 0 < length into.old }
        ensures within { ReadsWithin result (length into.old) }
        ensures bytes { ReadTakes (R.remaining self.old.inner) (R.remaining self.new.inner) result
            into.new }
        ensures cause { ReadFaults self.old.faults self.new.faults result }
        ensures never_falls { self.old.faults ≤ self.new.faults }
        ensures counted { self.new.faults < 2 ^ 64 }
        ensures exact { self.new.faults ≡ faults_after_read self.old.faults result }
    {
        let faults = self.faults;
        match self.reader.read(into) {
            Ok(0) => Read::End,
            Ok(count) => Read::Got(count),
            Err(_) => {
                self.faults = faults.saturating_add(1);
                Read::Failed
            }
        }
    }
}

/// A writer of std as a sink. It tells what the writer tells, and counts each error as a fault, and each write that
/// takes no byte.
#[derive(Debug, Drop)]
pub struct StdSink<W> {
    writer: W,
    faults: u64,
}

impl<W> Model for StdSink<W> {
    ghost use Rattle.bm_text.specs.Device.{Device};

    ghost Value = { Device W };

    ghost view = { λ s. record { inner = s.writer; faults = s.faults } };
}

impl<W> StdSink<W> {
    /// A sink that has met no fault yet.
    pub fn new(writer: W) -> StdSink<W>
        ensures { result ≡ record { inner = writer; faults = 0 } }
    {
        StdSink { writer, faults: 0 }
    }
}

impl<W: io::Write> Sink for StdSink<W> {
    ghost written = { λ s. W.contents s.inner };

    ghost flushed = { λ _. None };

    ghost faults = { λ s. s.faults };

    fn write(&mut self, bytes: &[u8]) -> Wrote
        requires { 0 < length bytes.now }
        ensures within { WritesWithin result (length bytes.now) }
        ensures bytes { WriteAdds (W.contents self.old.inner) (W.contents self.new.inner) result
            bytes.now }
        ensures cause { WriteFaults self.old.faults self.new.faults result }
        ensures never_falls { self.old.faults ≤ self.new.faults }
        ensures counted { self.new.faults < 2 ^ 64 }
        ensures exact { self.new.faults ≡ faults_after_write self.old.faults result }
    {
        let faults = self.faults;
        match self.writer.write(bytes) {
            Ok(count) if count > 0 => Wrote::Took(count),
            _ => {
                self.faults = faults.saturating_add(1);
                Wrote::Failed
            }
        }
    }

    fn flush(&mut self) -> Flushed
        ensures bytes { Keeps (W.contents self.old.inner) (W.contents self.new.inner) }
        ensures cause { FlushFaults self.old.faults self.new.faults result }
        ensures never_falls { self.old.faults ≤ self.new.faults }
        ensures counted { self.new.faults < 2 ^ 64 }
        ensures exact { self.new.faults ≡ faults_after_flush self.old.faults result }
    {
        let faults = self.faults;
        match self.writer.flush() {
            Ok(()) => Flushed::Done,
            Err(_) => {
                self.faults = faults.saturating_add(1);
                Flushed::Failed
            }
        }
    }
}
