//! How many slots a text may declare, and what the closing does with them.

use crate::calls::{agrees, call};
use std::alloc::Global;
use std::process::Abort;
use std::test::Fail;

// A text that declares so many slots, into which nothing is put.
fn with_slots(alloc: Global, count: u32) -> Result<String, Fail> {
    let mut text = format!(in alloc;
        "scenario {{ processors 2 pages 0 deferred off type t {{ a }}"
    )?;
    for number in 0..count {
        let slot = format!(in alloc; " slot s{number} t")?;
        text.push_str(slot.as_str())?;
    }
    text.push_str(" }")?;
    Ok(text)
}

// The closing exchanges each slot once, which is no step.
fn totals(alloc: Global, exchanged: u32) -> Result<String, Fail> {
    Ok(format!(in alloc;
        "total steps 0
total given 0
total empty 0
total busy 0
total last 0
total still 0
total acquired 0
total exchanged {exchanged}
total pushed 0
total already 0
total taken 0
total none 0
total raised 0
total worked 0
total fetched 0
total returned 0
total plain 0
total tracing 0
total handlers 0
"
    )?)
}

// So many slots, with the status.
const COUNTS: &[(u32, u8)] = &[(0, 0), (1, 0), (64, 0), (65, 7)];

fn are_emptied(rt: &impl Abort, alloc: Global, rows: &[(u32, u8)]) -> Result<(), Fail> {
    for (count, status) in rows {
        let text = with_slots(alloc, *count)?;
        let called = call(alloc, &["replay", "--totals"], text.as_bytes())?;
        if *status == 0 {
            let out = totals(alloc, *count)?;
            agrees(rt, &called, 0, out.as_str(), "", "slots");
        } else {
            agrees(rt, &called, *status, "", "bpfmem: limit maps\n", "slots");
        }
    }
    Ok(())
}

#[test]
fn a_text_declares_64_slots(rt: HostRuntime) -> Result<(), Fail> {
    are_emptied(&rt, rt.alloc(), COUNTS)
}
