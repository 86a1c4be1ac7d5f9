//! Calls of the program over memory, and what each must answer and write: the status too, which is 0 where a case says no other.

use bm_text::{MemSink, MemSource};
use bm_tool::bpfmem;
use std::alloc::Global;
use std::process::Abort;
use std::test::Fail;

// What a call answered, and what it wrote.
#[derive(Drop)]
pub(crate) struct Called {
    pub(crate) status: u8,
    pub(crate) answered: bool,
    pub(crate) out: Vec<u8>,
    pub(crate) err: Vec<u8>,
}

// A source of a text; these of its calls fail.
fn source(alloc: Global, text: &[u8], fails: &[u32]) -> Result<MemSource, Fail> {
    let bytes = Vec::from_slice(alloc, text)?;
    let fails = Vec::from_slice(alloc, fails)?;
    Ok(MemSource::new(bytes, PIECE, fails))
}

// A sink; these of its calls fail.
fn sink(alloc: Global, fails: &[u32]) -> Result<MemSink, Fail> {
    let fails = Vec::from_slice(alloc, fails)?;
    Ok(MemSink::new(alloc, 65_536, PIECE, fails)?)
}

// How many bytes a device moves at a time.
pub(crate) const PIECE: usize = 10;

// Calls the program over memory; the calls of the source and of the two sinks whose numbers are given fail.
pub(crate) fn call_over(
    alloc: Global,
    words: &[&str],
    text: &[u8],
    source_fails: &[u32],
    out_fails: &[u32],
    err_fails: &[u32],
) -> Result<Called, Fail> {
    let source = source(alloc, text, source_fails)?;
    let out = sink(alloc, out_fails)?;
    let err = sink(alloc, err_fails)?;
    Ok(call_with(alloc, words, source, out, err))
}

pub(crate) fn call_with(
    alloc: Global,
    words: &[&str],
    source: MemSource,
    out: MemSink,
    err: MemSink,
) -> Called {
    let mut source = source;
    let mut out = out;
    let mut err = err;
    let answer = bpfmem(alloc, words, &mut source, &mut out, &mut err);
    Called {
        status: answer.status,
        answered: answer.journal.is_some(),
        out: out.into_bytes(),
        err: err.into_bytes(),
    }
}

pub(crate) fn call(alloc: Global, words: &[&str], text: &[u8]) -> Result<Called, Fail> {
    call_over(alloc, words, text, &[], &[], &[])
}

// A call answered so, and wrote exactly these texts.
pub(crate) fn agrees(
    rt: &impl Abort,
    called: &Called,
    status: u8,
    out: &str,
    err: &str,
    note: &str,
) {
    assert_eq!(rt; called.status, status, "{note}");
    assert_eq!(rt; called.err.as_slice(), err.as_bytes(), "{note}");
    assert_eq!(rt; called.out.as_slice(), out.as_bytes(), "{note}");
}

// Bytes are refused with this status and this line, nothing is printed, and no journal is answered.
pub(crate) fn bytes_are_refused(
    rt: &impl Abort,
    alloc: Global,
    words: &[&str],
    bytes: &[u8],
    status: u8,
    line: &str,
    note: &str,
) -> Result<(), Fail> {
    let called = call(alloc, words, bytes)?;
    agrees(rt, &called, status, "", line, note);
    assert!(rt; !called.answered, "{note}");
    Ok(())
}

// A call is done, and what it wrote ends so.
pub(crate) fn ends_with(rt: &impl Abort, called: &Called, end: &str, note: &str) {
    assert_eq!(rt; called.status, 0, "{note}");
    assert_eq!(rt; called.err.len(), 0, "{note}");
    let from = called.out.len().saturating_sub(end.len());
    let written = called.out.as_slice().get(from..).unwrap_or(&[]);
    assert_eq!(rt; written, end.as_bytes(), "{note}");
}

// `replay` prints and answers the journal of a text.
fn gives_its_journal(
    rt: &impl Abort,
    alloc: Global,
    text: &str,
    journal: &str,
) -> Result<(), Fail> {
    let called = call(alloc, &["replay"], text.as_bytes())?;
    agrees(rt, &called, 0, journal, "", text);
    assert!(rt; called.answered, "{text}");
    Ok(())
}

pub(crate) fn give_their_journals(
    rt: &impl Abort,
    alloc: Global,
    rows: &[(&str, &str)],
) -> Result<(), Fail> {
    for (text, journal) in rows {
        gives_its_journal(rt, alloc, text, journal)?;
    }
    Ok(())
}

// `replay --totals` prints the lines of totals alone, which end the journal.
pub(crate) fn give_their_totals(
    rt: &impl Abort,
    alloc: Global,
    rows: &[(&str, &str)],
) -> Result<(), Fail> {
    for (text, journal) in rows {
        let (_, totals) = journal
            .split_once("total steps")
            .expect(rt, "a journal has totals");
        let called = call(alloc, &["replay", "--totals"], text.as_bytes())?;
        let lines = format!(in alloc; "total steps{totals}")?;
        agrees(rt, &called, 0, lines.as_str(), "", text);
        assert!(rt; called.answered, "{text}");
    }
    Ok(())
}
