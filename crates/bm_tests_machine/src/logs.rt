//! The text of a log.

use bm_journal::{Histories, Journal, Keep, Logs, Names, text_of, totals_of};
use std::process::Abort;

/// The text of the journal of so many processors over so many pages, whose one log is this, without names, classes and histories.
pub(crate) fn text(
    rt: &(impl Abort + AllocGlobal),
    recorder: Keep,
    processors: u8,
    pages: u16,
) -> Vec<u8> {
    let log = recorder.into_log().expect(rt, "the log");
    let mut items = Vec::with_capacity(rt.alloc(), 1).expect(rt, "memory");
    items.push(log).expect(rt, "memory");
    let logs = Logs::new(items);
    let totals = totals_of(&logs);
    let journal = Journal {
        processors,
        pages,
        types: Names::new(Vec::new(rt.alloc())),
        maps: Names::new(Vec::new(rt.alloc())),
        scripts: Names::new(Vec::new(rt.alloc())),
        classes: bm_journal::Opened::new(Vec::new(rt.alloc())),
        logs,
        graphs: Histories::new(Vec::new(rt.alloc())),
        totals,
    };
    text_of(rt.alloc(), &journal).expect(rt, "memory")
}

/// That text begins with these lines.
pub(crate) fn has_log(
    rt: &(impl Abort + AllocGlobal),
    recorder: Keep,
    processors: u8,
    pages: u16,
    want: &str,
) {
    let text = text(rt, recorder, processors, pages);
    assert!(rt; text.as_slice().starts_with(want.as_bytes()));
}
