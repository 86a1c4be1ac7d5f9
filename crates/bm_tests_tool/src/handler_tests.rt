//! Runs with handlers. What is expected is worked out by hand from the rules.

use crate::calls::{agrees, call, give_their_journals};
use std::alloc::Global;
use std::process::Abort;
use std::test::Fail;

// An object made and dropped, and scripts of handlers: one makes and drops such an object, the others do nothing. These handlers
// are planned.
fn with_handlers(alloc: Global, planned: &str) -> Result<String, Fail> {
    Ok(format!(in alloc;
        "scenario {{
processors 1
pages 1
deferred off
type item {{ a }}
script main plain {{ new x item 7 if x {{ drop x }} }}
script item handler {{ new y item 9 if y {{ drop y }} }}
script a handler {{ }}
script b handler {{ }}
script c handler {{ }}
script d handler {{ }}
run 0 main
{planned} }}"
    )?)
}

// How many steps, objects that were given, calls that found the cache busy, flags that were raised, and handlers. No object is
// left, and each handler leaves the cache as it was.
type Counts<'a> = (&'a str, &'a str, &'a str, &'a str, &'a str);

fn totals_of(alloc: Global, counts: &Counts<'_>) -> Result<String, Fail> {
    let (steps, given, busy, raised, handlers) = counts;
    Ok(format!(in alloc;
        "total steps {steps}
total given {given}
total empty 0
total busy {busy}
total last {given}
total still 0
total acquired 0
total exchanged 0
total pushed 0
total already 0
total taken 0
total none 0
total raised {raised}
total worked 0
total fetched 4
total returned 4
total plain 0
total tracing 1
total handlers {handlers}
"
    )?)
}

// The journal whose script left these lines.
fn journal_of(alloc: Global, lines: &str, counts: &Counts<'_>) -> Result<String, Fail> {
    let totals = totals_of(alloc, counts)?;
    Ok(format!(in alloc;
        "processors 1 pages 1
types item
maps
scripts main item a b c d
class 16 marks 32 96 48
processor 0
0 fill 16 0 1 2 3
0 script main
0 in plain 1
{lines}
0 out plain 2
0 done main
0 ended
0 close
0 sweep 16 3 2 1 0
0 stamp 16 tracing 2
0 begin tracing 1
0 finish tracing 2 first 2 0 later 2 0
0 pass 16 tracing 2
0 return 16 3 2 1 0
{totals}"
    )?)
}

// What it shows, the handlers that are planned, the lines of the script, and the counts.
type Planned<'a> = (&'a str, &'a str, &'a str, Counts<'a>);

// The handler's allocation raises `active` to 2, so it takes nothing.
const A_BUSY: &str = "0 new item 7
0 enter 16 1
0 pop 16 3
1 handler item
1 new item 9
1 enter 16 2
1 leave 16 1
1 raise 16
1 busy 2
1 back item
0 count 16 3
0 leave 16 0
0 raise 16
0 given 3 1
0 drop 3 1
0 last
0 free 3 0
0 enter 16 1
0 push 16 3
0 count 16 4
0 leave 16 0";

// Each handler enters, and then the next one is due. Each finds `active` one higher, and counts it down as it goes back.
const THREE_LEVELS: &str = "0 new item 7
0 enter 16 1
1 handler item
1 new item 9
1 enter 16 2
2 handler item
2 new item 9
2 enter 16 3
3 handler item
3 new item 9
3 enter 16 4
3 leave 16 3
3 raise 16
3 busy 4
3 back item
2 leave 16 2
2 raise 16
2 busy 3
2 back item
1 leave 16 1
1 raise 16
1 busy 2
1 back item
0 pop 16 3
0 count 16 3
0 leave 16 0
0 raise 16
0 given 3 1
0 drop 3 1
0 last
0 free 3 0
0 enter 16 1
0 push 16 3
0 count 16 4
0 leave 16 0";

const ONE_STEP: &str = "0 new item 7
0 enter 16 1
3 handler d
3 back d
2 handler b
2 back b
1 handler a
1 back a
1 handler c
1 back c
0 pop 16 3
0 count 16 3
0 leave 16 0
0 raise 16
0 given 3 1
0 drop 3 1
0 last
0 free 3 0
0 enter 16 1
0 push 16 3
0 count 16 4
0 leave 16 0";

// The handler at step 1 takes the steps 1 to 9. So at its end step 10 is next, and what was planned for step 5 is due; at level 2 it
// was due inside. Step 12 is the count of ordinary code now.
const READ_ANEW: &str = "0 new item 7
1 handler item
1 new item 9
1 enter 16 1
1 pop 16 3
1 count 16 3
1 leave 16 0
2 handler c
2 back c
1 raise 16
1 given 3 1
1 drop 3 1
1 last
1 free 3 0
1 enter 16 1
1 push 16 3
1 count 16 4
1 leave 16 0
1 back item
1 handler a
1 back a
0 enter 16 1
0 pop 16 3
1 handler b
1 back b
0 count 16 3
0 leave 16 0
0 raise 16
0 given 3 2
0 drop 3 2
0 last
0 free 3 0
0 enter 16 1
0 push 16 3
0 count 16 4
0 leave 16 0";

const FROM_ORDINARY: &str = "0 new item 7
0 enter 16 1
0 pop 16 3
3 handler item
3 new item 9
3 enter 16 2
3 leave 16 1
3 raise 16
3 busy 2
3 back item
0 count 16 3
0 leave 16 0
0 raise 16
0 given 3 1
0 drop 3 1
0 last
0 free 3 0
0 enter 16 1
0 push 16 3
0 count 16 4
0 leave 16 0";

// What is planned for level 1 can't interrupt level 1, so it comes once that has gone back.
const FROM_ONE: &str = "0 new item 7
0 enter 16 1
1 handler item
1 new item 9
1 enter 16 2
3 handler item
3 new item 9
3 enter 16 3
3 leave 16 2
3 raise 16
3 busy 3
3 back item
1 leave 16 1
1 raise 16
1 busy 2
1 back item
1 handler a
1 back a
0 pop 16 3
0 count 16 3
0 leave 16 0
0 raise 16
0 given 3 1
0 drop 3 1
0 last
0 free 3 0
0 enter 16 1
0 push 16 3
0 count 16 4
0 leave 16 0";

const PLANNED: &[Planned<'static>] = &[
    (
        "a busy handler between a pop and its count",
        "at 0 3 1 item",
        A_BUSY,
        ("16", "1", "1", "2", "1"),
    ),
    (
        "levels 1, 2 and 3 at three steps",
        "at 0 2 1 item at 0 3 2 item at 0 4 3 item",
        THREE_LEVELS,
        ("22", "1", "3", "4", "3"),
    ),
    (
        "one step: the highest level, then the order of the text",
        "at 0 2 1 a at 0 2 2 b at 0 2 1 c at 0 2 3 d",
        ONE_STEP,
        ("13", "1", "0", "1", "4"),
    ),
    (
        "the number of the step is read anew",
        "at 0 5 1 a at 0 12 1 b at 0 1 1 item at 0 5 2 c",
        READ_ANEW,
        ("22", "2", "0", "2", "4"),
    ),
    (
        "level 3 behind level 0",
        "at 0 3 3 item",
        FROM_ORDINARY,
        ("16", "1", "1", "2", "1"),
    ),
    (
        "level 3 behind level 1, and another of level 1 waits",
        "at 0 2 1 item at 0 3 1 a at 0 3 3 item",
        FROM_ONE,
        ("19", "1", "2", "3", "3"),
    ),
];

fn run_as_planned(rt: &impl Abort, alloc: Global, rows: &[Planned<'_>]) -> Result<(), Fail> {
    for (note, planned, lines, counts) in rows {
        let text = with_handlers(alloc, planned)?;
        let journal = journal_of(alloc, lines, counts)?;
        let called = call(alloc, &["replay"], text.as_bytes())?;
        agrees(rt, &called, 0, journal.as_str(), "", note);
    }
    Ok(())
}

#[test]
fn handlers_run_before_their_steps(rt: HostRuntime) -> Result<(), Fail> {
    run_as_planned(&rt, rt.alloc(), PLANNED)
}

// An object is made in 5 steps and goes back in 4, the closing is 4 more. A handler before the first step, the flag or the second
// `enter` does the same in 9 steps. Elsewhere up to the ninth step it finds the cache busy, in 3. Step 10 is that of the closing,
// which runs no handlers.
const AT_EACH_STEP: &[(&str, Counts<'static>)] = &[
    ("1", ("22", "2", "0", "2", "1")),
    ("2", ("16", "1", "1", "2", "1")),
    ("3", ("16", "1", "1", "2", "1")),
    ("4", ("16", "1", "1", "2", "1")),
    ("5", ("22", "2", "0", "2", "1")),
    ("6", ("22", "2", "0", "2", "1")),
    ("7", ("16", "1", "1", "2", "1")),
    ("8", ("16", "1", "1", "2", "1")),
    ("9", ("16", "1", "1", "2", "1")),
    ("10", ("13", "1", "0", "1", "0")),
    ("11", ("13", "1", "0", "1", "0")),
    ("12", ("13", "1", "0", "1", "0")),
    ("1000", ("13", "1", "0", "1", "0")),
];

fn have_totals(
    rt: &impl Abort,
    alloc: Global,
    planned: &str,
    counts: &Counts<'_>,
) -> Result<(), Fail> {
    let text = with_handlers(alloc, planned)?;
    let totals = totals_of(alloc, counts)?;
    let called = call(alloc, &["replay", "--totals"], text.as_bytes())?;
    agrees(rt, &called, 0, totals.as_str(), "", planned);
    Ok(())
}

fn have_totals_at_each(
    rt: &impl Abort,
    alloc: Global,
    rows: &[(&str, Counts<'_>)],
) -> Result<(), Fail> {
    for (step, counts) in rows {
        let planned = format!(in alloc; "at 0 {step} 1 item")?;
        have_totals(rt, alloc, planned.as_str(), counts)?;
    }
    Ok(())
}

#[test]
fn a_handler_before_each_step(rt: HostRuntime) -> Result<(), Fail> {
    have_totals_at_each(&rt, rt.alloc(), AT_EACH_STEP)
}

// A hundred times the same line.
fn a_hundred(alloc: Global, line: &str) -> Result<String, Fail> {
    let mut text = String::new(alloc);
    for _ in 0..100 {
        text.push_str(line)?;
    }
    Ok(text)
}

// Each of the hundred takes 3 steps where the cache is in use, and 9 where it isn't.
const A_HUNDRED: &[(&str, Counts<'static>)] = &[
    ("at 0 3 1 item ", ("313", "1", "100", "101", "100")),
    ("at 0 3 3 item ", ("313", "1", "100", "101", "100")),
    ("at 0 1 1 item ", ("913", "101", "0", "101", "100")),
    ("at 0 10 1 item ", ("13", "1", "0", "1", "0")),
];

fn have_totals_of_hundreds(
    rt: &impl Abort,
    alloc: Global,
    rows: &[(&str, Counts<'_>)],
) -> Result<(), Fail> {
    for (line, counts) in rows {
        let planned = a_hundred(alloc, line)?;
        have_totals(rt, alloc, planned.as_str(), counts)?;
    }
    Ok(())
}

#[test]
fn a_hundred_handlers_before_one_step(rt: HostRuntime) -> Result<(), Fail> {
    have_totals_of_hundreds(&rt, rt.alloc(), A_HUNDRED)
}

// Three objects of a page each, and a fourth unit on Free. Once all are given up Free has 7 units, which is above the high mark of 6.
// The drain takes units until 4 are left. A handler inside its first take finds the cache busy, and raises the flag, which the work
// had lowered. One behind that take gets the unit on top of Free and gives it back, so that the second take brings the same unit.
// The work for the raised flag receives the parcel, whose units become a tracing batch. That behind the script polls for it.
const IN_A_DRAIN: &str = "scenario {
processors 1
pages 7
deferred on
type block { pad 4088 }
script main plain {
new a block
new b block
new c block
if a { drop a }
if b { drop b }
if c { drop c }
}
script tick handler { new y block if y { drop y } }
run 0 main
at 0 68 1 tick
at 0 73 1 tick
}
";

const IN_A_DRAIN_JOURNAL: &str = "processors 1 pages 7
types block
maps
scripts main tick
class 4096 marks 2 6 3
processor 0
0 fill 4096 0
0 script main
0 in plain 1
0 new block
0 enter 4096 1
0 pop 4096 0
0 count 4096 0
0 leave 4096 0
0 raise 4096
0 given 0 1
0 work 4096
0 receive 4096
0 read 4096 0
0 fetch 4096 3 256 512 768
0 enter 4096 1
0 push 4096 256
0 count 4096 1
0 leave 4096 0
0 enter 4096 1
0 push 4096 512
0 count 4096 2
0 leave 4096 0
0 enter 4096 1
0 push 4096 768
0 count 4096 3
0 leave 4096 0
0 enter 4096 1
0 taked 4096
0 leave 4096 0
0 new block
0 enter 4096 1
0 pop 4096 768
0 count 4096 2
0 leave 4096 0
0 given 768 1
0 new block
0 enter 4096 1
0 pop 4096 512
0 count 4096 1
0 leave 4096 0
0 raise 4096
0 given 512 1
0 work 4096
0 receive 4096
0 read 4096 1
0 fetch 4096 3 1024 1280 1536
0 enter 4096 1
0 push 4096 1024
0 count 4096 2
0 leave 4096 0
0 enter 4096 1
0 push 4096 1280
0 count 4096 3
0 leave 4096 0
0 enter 4096 1
0 push 4096 1536
0 count 4096 4
0 leave 4096 0
0 enter 4096 1
0 taked 4096
0 leave 4096 0
0 drop 0 1
0 last
0 free 0 0
0 enter 4096 1
0 push 4096 0
0 count 4096 5
0 leave 4096 0
0 drop 768 1
0 last
0 free 768 0
0 enter 4096 1
0 push 4096 768
0 count 4096 6
0 leave 4096 0
0 drop 512 1
0 last
0 free 512 0
0 enter 4096 1
0 push 4096 512
0 count 4096 7
0 leave 4096 0
0 raise 4096
0 work 4096
0 receive 4096
0 read 4096 7
0 enter 4096 1
0 pop 4096 512
1 handler tick
1 new block
1 enter 4096 2
1 leave 4096 1
1 raise 4096
1 busy 2
1 back tick
0 count 4096 6
0 leave 4096 0
1 handler tick
1 new block
1 enter 4096 1
1 pop 4096 768
1 count 4096 5
1 leave 4096 0
1 given 768 2
1 drop 768 2
1 last
1 free 768 0
1 enter 4096 1
1 push 4096 768
1 count 4096 6
1 leave 4096 0
1 back tick
0 enter 4096 1
0 pop 4096 768
0 count 4096 5
0 leave 4096 0
0 enter 4096 1
0 pop 4096 0
0 count 4096 4
0 leave 4096 0
0 takex 4096
0 send 4096 0 512 768 0
0 enter 4096 1
0 taked 4096
0 leave 4096 0
0 work 4096
0 receive 4096 512 768 0
0 receive 4096
0 read 4096 4
0 enter 4096 1
0 taked 4096
0 leave 4096 0
0 begin2 4096 512 768 0
0 stamp 4096 tracing 2
0 out plain 2
0 done main
0 work 4096
0 receive 4096
0 read 4096 4
0 enter 4096 1
0 taked 4096
0 leave 4096 0
0 begin tracing 1
0 finish tracing 2 first 2 0 later 2 0
0 pass 4096 tracing 2
0 return 4096 512 768 0
0 ended
0 close
0 sweep 4096 1536 1280 1024 256
0 stamp 4096 tracing 4
0 begin tracing 3
0 finish tracing 4 first 2 0 later 2 0
0 pass 4096 tracing 4
0 return 4096 1536 1280 1024 256
total steps 112
total given 4
total empty 0
total busy 1
total last 4
total still 0
total acquired 0
total exchanged 0
total pushed 0
total already 0
total taken 0
total none 0
total raised 4
total worked 5
total fetched 7
total returned 7
total plain 0
total tracing 2
total handlers 2
";

// A handler in the work behind a script is in no section, so it has one of its own. Its allocation leaves one unit, so it raises the
// flag, and another work follows.
const BEHIND_A_SCRIPT: &str = "scenario {
processors 1
pages 2
deferred on
type block { pad 4088 }
script main plain {
new x block
if x { drop x }
}
script tick handler { new y block if y { drop y } }
run 0 main
at 0 20 1 tick
}
";

const BEHIND_A_SCRIPT_JOURNAL: &str = "processors 1 pages 2
types block
maps
scripts main tick
class 4096 marks 2 6 3
processor 0
0 fill 4096 0
0 script main
0 in plain 1
0 new block
0 enter 4096 1
0 pop 4096 0
0 count 4096 0
0 leave 4096 0
0 raise 4096
0 given 0 1
0 work 4096
0 receive 4096
0 read 4096 0
0 fetch 4096 3 256
0 enter 4096 1
0 push 4096 256
0 count 4096 1
0 leave 4096 0
0 enter 4096 1
0 taked 4096
0 leave 4096 0
0 drop 0 1
0 last
0 free 0 0
0 enter 4096 1
0 push 4096 0
0 count 4096 2
0 leave 4096 0
0 out plain 2
0 done main
0 work 4096
1 handler tick
1 in plain 3
1 new block
1 enter 4096 1
1 pop 4096 0
1 count 4096 1
1 leave 4096 0
1 raise 4096
1 given 0 2
1 drop 0 2
1 last
1 free 0 0
1 enter 4096 1
1 push 4096 0
1 count 4096 2
1 leave 4096 0
1 out plain 4
1 back tick
0 receive 4096
0 read 4096 2
0 enter 4096 1
0 taked 4096
0 leave 4096 0
0 work 4096
0 receive 4096
0 read 4096 2
0 enter 4096 1
0 taked 4096
0 leave 4096 0
0 ended
0 close
0 sweep 4096 0 256
0 stamp 4096 tracing 2
0 begin tracing 1
0 finish tracing 2 first 4 0 later 4 0
0 pass 4096 tracing 2
0 return 4096 0 256
total steps 42
total given 2
total empty 0
total busy 0
total last 2
total still 0
total acquired 0
total exchanged 0
total pushed 0
total already 0
total taken 0
total none 0
total raised 2
total worked 3
total fetched 2
total returned 2
total plain 0
total tracing 1
total handlers 1
";

#[test]
fn handlers_in_deferred_work(rt: HostRuntime) -> Result<(), Fail> {
    give_their_journals(
        &rt,
        rt.alloc(),
        &[
            (IN_A_DRAIN, IN_A_DRAIN_JOURNAL),
            (BEHIND_A_SCRIPT, BEHIND_A_SCRIPT_JOURNAL),
        ],
    )
}
