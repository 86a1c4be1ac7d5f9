//! Runs with lists and trees that go wrong from outside: pages are too few, and a device fails at each of its calls. Totals are worked
//! out by hand from the rules; the whole journal is that of the second simulator in tools/, and was read through.

use crate::calls::{Called, PIECE, agrees, call, call_over, call_with, ends_with};
use bm_text::{MemSink, MemSource};
use std::alloc::Global;
use std::process::Abort;
use std::test::Fail;

const REPLAY: &[&str] = &["replay"];

// Five objects of a whole page are asked for, and each that is given goes into a list. So many pages there are.
fn with_pages(alloc: Global, pages: &str) -> Result<String, Fail> {
    Ok(format!(in alloc;
        "scenario {{
processors 1
pages {pages}
deferred on
type block list {{ pad 4064 }}
list q block
script main plain {{
repeat 5 {{
new x block
if x {{
lock q
push_back q x
unlock
}}
}}
}}
run 0 main
}}
"
    )?)
}

// The pages; how many steps there are, how many objects were given, how many requests found none, and how many tracing periods there
// are; and the history. A request that is given a unit has 5 steps, one that isn't has 4. Each raises the flag, and the work behind
// it has 6 steps, and 4 more for each unit that it brings; one more work stands behind the script. Each free of the closing has 4
// steps, and so has the sweep, where there is a unit. Of three pages the first work brings the other two, of which the later one is
// given first.
const PAGES: &[(&str, &str, &str, &str, &str, &str)] = &[
    (
        "0",
        "56",
        "0",
        "5",
        "0",
        "graph q
at 0 by 0 6 pop_front none
",
    ),
    (
        "1",
        "65",
        "1",
        "4",
        "1",
        "graph q
at 0 by 0 2 push_back 0 1
at 1 by 0 7 pop_front 0 1
at 2 by 0 9 pop_front none
",
    ),
    (
        "2",
        "74",
        "2",
        "3",
        "1",
        "graph q
at 0 by 0 2 push_back 0 1
at 1 by 0 4 push_back 256 1
at 2 by 0 8 pop_front 0 1
at 3 by 0 10 pop_front 256 1
at 4 by 0 12 pop_front none
",
    ),
    (
        "3",
        "83",
        "3",
        "2",
        "1",
        "graph q
at 0 by 0 2 push_back 0 1
at 1 by 0 4 push_back 512 1
at 2 by 0 6 push_back 256 1
at 3 by 0 9 pop_front 0 1
at 4 by 0 11 pop_front 512 1
at 5 by 0 13 pop_front 256 1
at 6 by 0 15 pop_front none
",
    ),
];

fn fill_a_list(
    rt: &impl Abort,
    alloc: Global,
    rows: &[(&str, &str, &str, &str, &str, &str)],
) -> Result<(), Fail> {
    for (pages, steps, given, empty, tracing, history) in rows {
        let text = with_pages(alloc, pages)?;
        let called = call(alloc, REPLAY, text.as_bytes())?;
        let end = format!(in alloc;
            "{history}total steps {steps}
total given {given}
total empty {empty}
total busy 0
total last {given}
total still 0
total acquired 0
total exchanged 0
total pushed {given}
total already 0
total taken {given}
total none 1
total raised 5
total worked 6
total fetched {given}
total returned {given}
total plain 0
total tracing {tracing}
total handlers 0
"
        )?;
        ends_with(rt, &called, end.as_str(), pages);
    }
    Ok(())
}

#[test]
fn objects_of_a_page_fill_a_list(rt: HostRuntime) -> Result<(), Fail> {
    fill_a_list(&rt, rt.alloc(), PAGES)
}

// An object goes into a list, and one into a tree; the closing finds both.
const LIST_AND_TREE: &str = "scenario {
processors 1
pages 1
deferred off
type job list { a }
type node tree { k }
list q job
tree t node
script main plain {
new x job 1
if x { lock q push_back q x unlock }
new y node 2
if y { lock t add t y unlock }
}
run 0 main
}
";

const LIST_AND_TREE_JOURNAL: &str = "processors 1 pages 1
types job node
maps q t
scripts main
class 64 marks 32 96 48
processor 0
0 fill 64 0 1 2 3
0 script main
0 in plain 1
0 new job 1
0 enter 64 1
0 pop 64 3
0 count 64 3
0 leave 64 0
0 raise 64
0 given 3 1
0 lock q
0 push_back q 3 1 at 0
0 unlock q
0 new node 2
0 enter 64 1
0 pop 64 2
0 count 64 2
0 leave 64 0
0 raise 64
0 given 2 1
0 lock t
0 add t 2 1 at 0
0 unlock t
0 out plain 2
0 done main
0 ended
0 close
0 pop_front q 3 1 at 1
0 drop 3 1
0 last
0 free 3 0
0 enter 64 1
0 push 64 3
0 count 64 3
0 leave 64 0
0 pop_front q none at 2
0 first t 2 1 at 1
0 remove t 2 1 at 2
0 drop 2 1
0 last
0 free 2 0
0 enter 64 1
0 push 64 2
0 count 64 4
0 leave 64 0
0 first t none at 3
0 sweep 64 2 3 1 0
0 stamp 64 tracing 2
0 begin tracing 1
0 finish tracing 2 first 2 0 later 2 0
0 pass 64 tracing 2
0 return 64 2 3 1 0
graph q
at 0 by 0 2 push_back 3 1
at 1 by 0 5 pop_front 3 1
at 2 by 0 7 pop_front none
graph t
at 0 by 0 4 add 2 1 2
at 1 by 0 8 first 2 1
at 2 by 0 9 remove 2 1
at 3 by 0 11 first none
total steps 22
total given 2
total empty 0
total busy 0
total last 2
total still 0
total acquired 0
total exchanged 0
total pushed 2
total already 0
total taken 2
total none 2
total raised 2
total worked 0
total fetched 4
total returned 4
total plain 0
total tracing 1
total handlers 0
";

// How many calls `replay` makes of a source that gives ten bytes at a time, and of a sink that takes sixty-four. The last one of the
// source finds the end of the text, and the last one of the sink is the flush.
const READS: u32 = 25;

const WRITES: u32 = 22;

const TAKEN_AT_A_TIME: usize = 64;

// `replay` over such a sink; this call of it fails.
fn replay_into(alloc: Global, text: &[u8], fails: u32) -> Result<Called, Fail> {
    let source = MemSource::new(Vec::from_slice(alloc, text)?, 512, Vec::new(alloc));
    let fails = Vec::from_slice(alloc, &[fails])?;
    let out = MemSink::new(alloc, 65_536, TAKEN_AT_A_TIME, fails)?;
    let err = MemSink::new(alloc, 64, 64, Vec::new(alloc))?;
    Ok(call_with(alloc, REPLAY, source, out, err))
}

// Nothing is written but the refusal.
#[test]
fn the_source_fails_at_each_call(rt: HostRuntime) -> Result<(), Fail> {
    let text = LIST_AND_TREE.as_bytes();
    for number in 0..READS {
        let called = call_over(rt.alloc(), REPLAY, text, &[number + 1], &[], &[])?;
        agrees(&rt, &called, 2, "", "bpfmem: read failed\n", "read");
        assert!(&rt; !called.answered);
    }
    Ok(())
}

// What the sink was given before is a front of the journal, which is answered all the same.
#[test]
fn the_sink_fails_at_each_call(rt: HostRuntime) -> Result<(), Fail> {
    let text = LIST_AND_TREE.as_bytes();
    for number in 0..WRITES {
        let called = replay_into(rt.alloc(), text, number + 1)?;
        let front = LIST_AND_TREE_JOURNAL
            .get(..number as usize * TAKEN_AT_A_TIME)
            .unwrap_or(LIST_AND_TREE_JOURNAL);
        agrees(&rt, &called, 3, front, "bpfmem: write failed\n", "write");
        assert!(&rt; called.answered);
    }
    Ok(())
}

// No call is left that could fail.
#[test]
fn no_call_is_left_behind_these(rt: HostRuntime) -> Result<(), Fail> {
    let text = LIST_AND_TREE.as_bytes();
    let called = call_over(rt.alloc(), REPLAY, text, &[READS + 1], &[], &[])?;
    agrees(&rt, &called, 0, LIST_AND_TREE_JOURNAL, "", "read");
    let called = replay_into(rt.alloc(), text, WRITES + 1)?;
    agrees(&rt, &called, 0, LIST_AND_TREE_JOURNAL, "", "write");
    assert!(&rt; called.answered);
    Ok(())
}

const LOCK_KEPT: &str =
    "scenario { processors 1 pages 1 deferred off type job list { a } list q job script main plain { lock q } run 0 main }";

const REFUSAL: &str = "bpfmem: script main line 1: rule 10\n";

// The stream for refusals fails at each of its calls, of which the last one is the flush: the status stays.
#[test]
fn a_refusal_that_is_not_written(rt: HostRuntime) -> Result<(), Fail> {
    for number in 0..5u32 {
        let text = LOCK_KEPT.as_bytes();
        let called = call_over(rt.alloc(), REPLAY, text, &[], &[], &[number + 1])?;
        let front = REFUSAL.get(..number as usize * PIECE).unwrap_or(REFUSAL);
        agrees(&rt, &called, 6, "", front, "refusal");
    }
    Ok(())
}

// The sink fails at its first call, and so does the stream for refusals.
#[test]
fn both_streams_fail(rt: HostRuntime) -> Result<(), Fail> {
    let text = LIST_AND_TREE.as_bytes();
    let called = call_over(rt.alloc(), REPLAY, text, &[], &[1], &[1])?;
    agrees(&rt, &called, 3, "", "", "both");
    assert!(&rt; called.answered);
    Ok(())
}
