//! The entries of single lines, over the public call, and what a log makes of them.

use bm_journal::Log;
use bm_journal_reader::read_entry;
use std::process::Abort;
use std::test::Fail;

/// Lines of a log, one after the other, as docs/journals.md shows them.
const LINES: [&[u8]; 14] = [
    b"0 fill 16 0 1 2 3",
    b"0 script main",
    b"0 in plain 1",
    b"1 new item 7 8",
    b"1 pop 16 none",
    b"1 empty",
    b"2 given 65535 4294967295 after 12 14",
    b"3 xchg cell put none was 3 1 by 0 12",
    b"0 push_front queue 3 1 already other at 2",
    b"0 pop_back queue none at 3",
    b"0 send 4096 7 10 100 1000 65535",
    b"0 stamp 16 tracing 2",
    b"0 finish plain 4 first 12 123 1234 later 99 100 0",
    b"0 get 3 1 7 4294967295",
];

/// Lines that no log has.
const OTHERS: [&[u8]; 8] = [
    b"",
    b"0",
    b"4 empty",
    b"0 empty 1",
    b"0 pop 17 3",
    b"0 pop 16 03",
    b"0  pop 16 3",
    b"processor 0",
];

#[test]
fn a_log_has_the_text_of_its_entries(rt: HostRuntime) -> Result<(), Fail> {
    let alloc = rt.alloc();
    let mut entries = Vec::new(alloc);
    let mut text = Vec::new(alloc);
    for line in &LINES {
        let read = read_entry(alloc, line).ok().ok_or("memory")?;
        entries.push(read.ok_or("an entry")?)?;
        text.extend_from_slice(line)?;
        text.push(b'\n')?;
    }
    let log = Log::of(alloc, entries.as_slice()).ok().ok_or("memory")?;
    assert!(rt; log.text() == text.as_slice());
    Ok(())
}

#[test]
fn a_line_of_no_log_is_no_entry(rt: HostRuntime) -> Result<(), Fail> {
    for line in &OTHERS {
        let read = read_entry(rt.alloc(), line).ok().ok_or("memory")?;
        assert!(rt; read.is_none());
    }
    Ok(())
}
