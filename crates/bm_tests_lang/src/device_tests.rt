//! Texts read from sources and written to sinks that fail at each call.

use bm_text::*;
use std::alloc::{AllocError, Global};
use std::io;
use std::test::Fail;

fn text(alloc: Global, bytes: &[u8]) -> Result<Vec<u8>, AllocError> {
    bytes.to_vec(alloc)
}

fn calls(alloc: Global, numbers: &[u32]) -> Result<Vec<u32>, AllocError> {
    numbers.to_vec(alloc)
}

#[test]
fn reads_in_pieces_up_to_the_limit(rt: HostRuntime) -> Result<(), Fail> {
    let alloc = rt.alloc();
    let scenario = b"scenario { processors 1 pages 1 }";
    // The size of a piece, which call fails, the limit, and what comes.
    let all = Ok(scenario.as_slice());
    let rows: [(usize, u32, usize, Result<&[u8], TextFault>); 7] = [
        (1, 0, 33, all),
        (7, 0, 34, all),
        (100, 0, usize::MAX, all),
        (7, 0, 32, Err(TextFault::TooLong)),
        (100, 0, 0, Err(TextFault::TooLong)),
        (10, 2, 33, Err(TextFault::Read)),
        (10, 6, 33, all),
    ];
    for (piece, fail, limit, want) in rows {
        let mut source = MemSource::new(text(alloc, scenario)?, piece, calls(alloc, &[fail])?);
        let got = read_all(alloc, &mut source, limit);
        match (got, want) {
            (Ok(bytes), Ok(wanted)) => assert_eq!(rt; bytes.as_slice(), wanted),
            (Err(fault), Err(wanted)) => assert_eq!(rt; fault, wanted, "at {piece} {fail} {limit}"),
            _ => assert!(rt; false, "at {piece} {fail} {limit}"),
        }
    }
    Ok(())
}

#[test]
fn a_failed_read_leaves_what_was_not_taken(rt: HostRuntime) -> Result<(), Fail> {
    let alloc = rt.alloc();
    let mut source = MemSource::new(
        text(alloc, b"processors 1 pages 1")?,
        10,
        calls(alloc, &[2])?,
    );
    assert_eq!(rt;
        read_all(alloc, &mut source, 100).err(),
        Some(TextFault::Read)
    );
    let rest = read_all(alloc, &mut source, 100)?;
    assert_eq!(rt; rest.as_slice(), b" 1 pages 1".as_slice());
    Ok(())
}

#[test]
fn writes_in_pieces_until_a_call_fails(rt: HostRuntime) -> Result<(), Fail> {
    let alloc = rt.alloc();
    let line = b"processors 1 pages 1";
    // The room, the size of a piece, which call fails, the answer, what stands in the sink, and how much of it is flushed.
    let rows: [(usize, usize, u32, Result<(), usize>, &[u8], usize); 6] = [
        (20, 10, 0, Ok(()), b"processors 1 pages 1", 20),
        (100, 100, 3, Ok(()), b"processors 1 pages 1", 20),
        (100, 10, 2, Err(10), b"processors", 0),
        (100, 10, 3, Err(20), b"processors 1 pages 1", 0),
        (12, 10, 0, Err(12), b"processors 1", 0),
        (0, 10, 0, Err(0), b"", 0),
    ];
    for (room, piece, fail, want, written, flushed) in rows {
        let mut sink = MemSink::new(alloc, room, piece, calls(alloc, &[fail])?)?;
        assert_eq!(rt;
            write_all(&mut sink, line),
            want,
            "at {room} {piece} {fail}"
        );
        assert_eq!(rt; sink.bytes(), written, "at {room} {piece} {fail}");
        assert_eq!(rt; sink.flushed(), flushed, "at {room} {piece} {fail}");
    }
    Ok(())
}

#[test]
fn no_bytes_are_only_flushed(rt: HostRuntime) -> Result<(), Fail> {
    let alloc = rt.alloc();
    let mut sink = MemSink::new(alloc, 0, 1, calls(alloc, &[2])?)?;
    assert_eq!(rt; write_all(&mut sink, b""), Ok(()));
    assert_eq!(rt; write_all(&mut sink, b""), Err(0));
    let bytes = sink.into_bytes();
    assert_eq!(rt; bytes.len(), 0);
    Ok(())
}

#[test]
fn a_sure_source_and_a_sure_sink_never_fail(rt: HostRuntime) -> Result<(), Fail> {
    let bytes = read_all(rt.alloc(), &mut SureSource::new(b"scenario"), 8)?;
    assert_eq!(rt; bytes.as_slice(), b"scenario".as_slice());
    assert_eq!(rt; write_all(&mut SureSink, &bytes), Ok(()));
    Ok(())
}

// A device of std whose calls all fail.
#[derive(Drop)]
struct Broken;

impl io::Read for Broken {
    fn read(&mut self, _into: &mut [u8]) -> io::Result<usize> {
        Err(io::Error::from(io::ErrorKind::Other))
    }
}

impl io::Write for Broken {
    fn write(&mut self, _bytes: &[u8]) -> io::Result<usize> {
        Err(io::Error::from(io::ErrorKind::Other))
    }

    fn flush(&mut self) -> io::Result<()> {
        Err(io::Error::from(io::ErrorKind::Other))
    }
}

#[test]
fn readers_and_writers_of_std(rt: HostRuntime) -> Result<(), Fail> {
    let alloc = rt.alloc();
    let mut source = StdSource::new(b"scenario {".as_slice());
    let bytes = read_all(alloc, &mut source, 10)?;
    assert_eq!(rt; bytes.as_slice(), b"scenario {".as_slice());

    let mut held = [0; 12];
    let mut full = StdSink::new(held.as_mut_slice());
    assert_eq!(rt; write_all(&mut full, &bytes), Ok(()));
    assert_eq!(rt; write_all(&mut full, &bytes), Err(2));

    let mut growing = StdSink::new(Vec::<u8>::new(alloc));
    assert_eq!(rt; write_all(&mut growing, &bytes), Ok(()));

    let failed = read_all(alloc, &mut StdSource::new(Broken), 10);
    assert_eq!(rt; failed.err(), Some(TextFault::Read));
    assert_eq!(rt; write_all(&mut StdSink::new(Broken), &bytes), Err(0));
    assert_eq!(rt; write_all(&mut StdSink::new(Broken), b""), Err(0));
    Ok(())
}
