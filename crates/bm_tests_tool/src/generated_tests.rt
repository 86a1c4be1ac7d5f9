//! Calls of the program that print the text of a generated scenario, or run it. Its pieces were drawn by hand, from the rule of the draws.

use crate::calls::{agrees, call_over};
use std::test::Fail;

// One piece for each processor, drawn from 0 on.
const TEXT: &str = "scenario {
processors 4
pages 64
deferred on
type job counted list {
a b
}
type node tree {
k
}
type part counted {
v
}
slot spare part
list q job
tree t node
script p0 plain {
yield
}
script p1 plain {
new x job 37 36
if x {
lock q
push_back q x
unlock
}
}
script p2 plain {
yield
}
script p3 plain {
yield
}
script h handler {
new x part 7
if x {
xchg o spare x
if o {
drop o
}
}
}
run 0 p0
run 1 p1
run 2 p2
run 3 p3
at 0 100 1 h
at 1 200 2 h
turns {
0 1 2 3
}
}
";

// The totals of its run, by a second simulator.
const TOTALS: &str = "total steps 1660
total given 3
total empty 0
total busy 0
total last 3
total still 0
total acquired 0
total exchanged 3
total pushed 1
total already 0
total taken 1
total none 2
total raised 5
total worked 11
total fetched 416
total returned 416
total plain 1
total tracing 8
total handlers 2
";

const USAGE: &str = "bpfmem: usage\n";

const ROWS: &[(&[&str], u8, &str, &str)] = &[
    (&["gen", "1", "0", "--text"], 0, TEXT, ""),
    (&["gen", "1", "--text", "0"], 0, TEXT, ""),
    (&["gen", "--text", "1", "0"], 0, TEXT, ""),
    (&["gen", "1"], 1, "", USAGE),
    (&["gen", "1", "0", "0"], 1, "", USAGE),
    (&["gen", "0", "0", "--text"], 1, "", USAGE),
    (&["gen", "2001", "0", "--text"], 1, "", USAGE),
    (&["gen", "1", "00", "--text"], 1, "", USAGE),
    (&["gen", "1", "0", "--text", "--text"], 1, "", USAGE),
    (&["--text", "gen", "1", "0"], 1, "", USAGE),
];

// What stands in the source is no scenario, and no call of it is made.
#[test]
fn words_of_gen(rt: HostRuntime) -> Result<(), Fail> {
    for (words, status, out, err) in ROWS {
        let called = call_over(rt.alloc(), words, b"$", &[1], &[], &[])?;
        agrees(&rt, &called, *status, out, err, "gen");
        assert!(rt; !called.answered);
    }
    Ok(())
}

// .. and none of a run, whose journal is answered
#[test]
fn totals_of_a_generated_scenario(rt: HostRuntime) -> Result<(), Fail> {
    let called = call_over(rt.alloc(), &["gen", "1", "0"], b"$", &[1], &[], &[])?;
    agrees(&rt, &called, 0, TOTALS, "", "gen");
    assert!(rt; called.answered);
    Ok(())
}

// The sink takes ten bytes at a time, and its third call fails.
#[test]
fn a_generated_text_that_is_not_written(rt: HostRuntime) -> Result<(), Fail> {
    let words = &["gen", "1", "0", "--text"];
    let called = call_over(rt.alloc(), words, b"", &[], &[3], &[])?;
    agrees(
        &rt,
        &called,
        3,
        "scenario {\nprocessor",
        "bpfmem: write failed\n",
        "gen",
    );
    Ok(())
}
