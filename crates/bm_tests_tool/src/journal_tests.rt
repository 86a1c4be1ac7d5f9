//! Whole calls: journals, totals, and devices that fail. What is expected is worked out by hand from the rules.

use crate::calls::{agrees, call, call_over, call_with, give_their_journals, give_their_totals};
use crate::examples::one_object::SCENARIO;
use crate::examples::{EXAMPLES, MORE_EXAMPLES, OTHER_EXAMPLES};
use bm_text::{MemSink, MemSource};
use std::alloc::Global;
use std::process::Abort;
use std::test::Fail;

// One object where there is no page: it is asked for in vain.
const NO_PAGE: &str = "scenario {
processors 1
pages 0
deferred off
type item { a }
script main plain {
new x item 7
if x { drop x }
}
run 0 main
}
";

const NO_PAGE_JOURNAL: &str = "processors 1 pages 0
types item
maps
scripts main
class 16 marks 32 96 48
processor 0
0 fill 16
0 script main
0 in plain 1
0 new item 7
0 enter 16 1
0 pop 16 none
0 leave 16 0
0 raise 16
0 empty
0 out plain 2
0 done main
0 ended
0 close
total steps 4
total given 0
total empty 1
total busy 0
total last 0
total still 0
total acquired 0
total exchanged 0
total pushed 0
total already 0
total taken 0
total none 0
total raised 1
total worked 0
total fetched 0
total returned 0
total plain 0
total tracing 0
total handlers 0
";

// Two classes, and no script: the units of the opening go back.
const NO_SCRIPT: &str =
    "scenario { processors 1 pages 3 deferred off type t { pad 4088 } type u { a b } }";

const NO_SCRIPT_JOURNAL: &str = "processors 1 pages 3
types t u
maps
scripts
class 32 marks 32 96 48
class 4096 marks 2 6 3
processor 0
0 fill 32 0 1 2 3
0 fill 4096 256
0 ended
0 close
0 sweep 32 3 2 1 0
0 stamp 32 tracing 2
0 begin tracing 1
0 finish tracing 2 first 0 0 later 0 0
0 pass 32 tracing 2
0 return 32 3 2 1 0
0 sweep 4096 256
0 stamp 4096 tracing 4
0 begin tracing 3
0 finish tracing 4 first 0 0 later 0 0
0 pass 4096 tracing 4
0 return 4096 256
total steps 8
total given 0
total empty 0
total busy 0
total last 0
total still 0
total acquired 0
total exchanged 0
total pushed 0
total already 0
total taken 0
total none 0
total raised 0
total worked 0
total fetched 5
total returned 5
total plain 0
total tracing 2
total handlers 0
";

const JOURNALS: &[(&str, &str)] = &[(NO_PAGE, NO_PAGE_JOURNAL), (NO_SCRIPT, NO_SCRIPT_JOURNAL)];

#[test]
fn journals_and_their_totals_alone(rt: HostRuntime) -> Result<(), Fail> {
    give_their_journals(&rt, rt.alloc(), JOURNALS)?;
    give_their_totals(&rt, rt.alloc(), JOURNALS)
}

#[test]
fn examples_give_their_journals(rt: HostRuntime) -> Result<(), Fail> {
    give_their_journals(&rt, rt.alloc(), EXAMPLES)?;
    give_their_totals(&rt, rt.alloc(), EXAMPLES)
}

#[test]
fn more_examples_give_their_journals(rt: HostRuntime) -> Result<(), Fail> {
    give_their_journals(&rt, rt.alloc(), MORE_EXAMPLES)?;
    give_their_totals(&rt, rt.alloc(), MORE_EXAMPLES)
}

#[test]
fn other_examples_give_their_journals(rt: HostRuntime) -> Result<(), Fail> {
    give_their_journals(&rt, rt.alloc(), OTHER_EXAMPLES)?;
    give_their_totals(&rt, rt.alloc(), OTHER_EXAMPLES)
}

// Blocks six deep, with names that are bound again. By the rules an `item` has 16 bytes and a `big` 512, so the opening
// fetches 4 units of the one and then 1 of the other, where there are pages.
const NESTED: &str = "deferred off type item { a } type big { pad 504 }
script main plain {
repeat 2 {
new x big
if x {
repeat 3 {
new y big
if y { drop y } else { repeat 2 { new y item 5 if y { drop y } } }
}
drop x
} else {
new x item 1
if x { drop x }
}
}
}
run 0 main }";

const NESTED_ON_NO_PAGE: &str = "total steps 16
total given 0
total empty 4
total busy 0
total last 0
total still 0
total acquired 0
total exchanged 0
total pushed 0
total already 0
total taken 0
total none 0
total raised 4
total worked 0
total fetched 0
total returned 0
total plain 0
total tracing 0
total handlers 0
";

const NESTED_ON_ONE_PAGE: &str = "total steps 30
total given 2
total empty 2
total busy 0
total last 2
total still 0
total acquired 0
total exchanged 0
total pushed 0
total already 0
total taken 0
total none 0
total raised 4
total worked 0
total fetched 4
total returned 4
total plain 0
total tracing 1
total handlers 0
";

const NESTED_ON_TWO_PAGES: &str = "total steps 158
total given 14
total empty 6
total busy 0
total last 14
total still 0
total acquired 0
total exchanged 0
total pushed 0
total already 0
total taken 0
total none 0
total raised 20
total worked 0
total fetched 5
total returned 5
total plain 0
total tracing 2
total handlers 0
";

// No page: each `big` and then each `item` is asked for in vain, in 4 steps each (enter, pop, leave, raise).
//
// One page: it becomes one of items. Each `big` is asked for in vain in 4 steps, the item is given in 5 (one more, the
// count) and given back in 4. The closing of the one class is 4 steps.
//
// Two pages: the `big` is given in 5 steps; three times another is asked for in vain in 4 and two items come and go in 9
// each; and the `big` goes back in 4. That is 75 steps, twice, and 4 for the closing of each class.
const NESTED_ON_PAGES: &[(&str, &str)] = &[
    ("0", NESTED_ON_NO_PAGE),
    ("1", NESTED_ON_ONE_PAGE),
    ("2", NESTED_ON_TWO_PAGES),
];

fn have_totals(rt: &impl Abort, alloc: Global, rows: &[(&str, &str)]) -> Result<(), Fail> {
    for (pages, totals) in rows {
        let text = format!(in alloc; "scenario {{ processors 1 pages {pages} {NESTED}")?;
        let called = call(alloc, &["replay", "--totals"], text.as_bytes())?;
        agrees(rt, &called, 0, totals, "", pages);
    }
    Ok(())
}

#[test]
fn nested_blocks(rt: HostRuntime) -> Result<(), Fail> {
    have_totals(&rt, rt.alloc(), NESTED_ON_PAGES)
}

// A call whose devices fail at these calls: the words, the calls of the source and of the sink that fail, and then the
// status, whether a journal is answered, what the two sinks got, and which failure it is.
type Failing<'a> = (
    &'a [&'a str],
    &'a [u32],
    &'a [u32],
    u8,
    bool,
    &'a str,
    &'a str,
    &'a str,
);

const FAILING: &[Failing<'static>] = &[
    // the source in mid-stream, and at its first call; where the words are no command it isn't read
    (
        &["replay"],
        &[2],
        &[],
        2,
        false,
        "",
        "bpfmem: read failed\n",
        "second read",
    ),
    (
        &["check"],
        &[1],
        &[],
        2,
        false,
        "",
        "bpfmem: read failed\n",
        "first read",
    ),
    (
        &["checks"],
        &[1],
        &[],
        1,
        false,
        "",
        "bpfmem: usage\n",
        "no read",
    ),
    // the sink: a front of the text was written, and a journal is answered by `replay` alone
    (
        &["replay"],
        &[],
        &[2],
        3,
        true,
        "processors",
        "bpfmem: write failed\n",
        "second write",
    ),
    (
        &["check"],
        &[],
        &[1],
        3,
        false,
        "",
        "bpfmem: write failed\n",
        "first write",
    ),
    // the flush behind the last byte of `accepted`
    (
        &["check"],
        &[],
        &[2],
        3,
        false,
        "accepted\n",
        "bpfmem: write failed\n",
        "flush",
    ),
];

fn are_failures(rt: &impl Abort, alloc: Global, rows: &[Failing<'_>]) -> Result<(), Fail> {
    for (words, source, sink, status, answered, out, err, note) in rows {
        let called = call_over(alloc, words, SCENARIO.as_bytes(), source, sink, &[])?;
        agrees(rt, &called, *status, out, err, note);
        assert_eq!(rt; called.answered, *answered, "{note}");
    }
    Ok(())
}

#[test]
fn devices_that_fail(rt: HostRuntime) -> Result<(), Fail> {
    are_failures(&rt, rt.alloc(), FAILING)?;

    // the sink for refusals: the status stays
    let called = call_over(rt.alloc(), &[], SCENARIO.as_bytes(), &[], &[], &[2])?;
    assert_eq!(rt; called.status, 1);
    assert_eq!(rt; called.err.as_slice(), b"bpfmem: us".as_slice());
    Ok(())
}

// So many spaces, and what they are refused with.
fn spaces_are_refused(
    rt: &impl Abort,
    alloc: Global,
    words: &[&str],
    spaces: usize,
    status: u8,
    line: &str,
) -> Result<(), Fail> {
    let source = MemSource::new(vec![in alloc; b' '; spaces]?, 65536, Vec::new(alloc));
    let out = MemSink::new(alloc, 64, 64, Vec::new(alloc))?;
    let err = MemSink::new(alloc, 64, 64, Vec::new(alloc))?;
    let called = call_with(alloc, words, source, out, err);
    agrees(rt, &called, status, "", line, line);
    Ok(())
}

#[test]
fn the_input_has_a_limit(rt: HostRuntime) -> Result<(), Fail> {
    let words: &[&[&str]] = &[&["replay"], &["check"]];
    for words in words {
        let over = "bpfmem: limit input\n";
        spaces_are_refused(&rt, rt.alloc(), words, 1_048_577, 7, over)?;
        let within = "bpfmem: line 1 column 1048577: end\n";
        spaces_are_refused(&rt, rt.alloc(), words, 1_048_576, 5, within)?;
    }
    Ok(())
}
