//! Runs with deferred work. What is expected is worked out by hand from the rules.

use crate::calls::{agrees, call, give_their_journals};
use std::alloc::Global;
use std::process::Abort;
use std::test::Fail;

// A block that is repeated no times, so no call is made. The work behind the script finds one unit, which is below the low mark of 2.
const NO_BLOCK: &str = "scenario {
processors 1
pages 2
deferred on
type block { pad 4088 }
script main plain {
repeat 0 { new x block if x { drop x } }
}
run 0 main
}
";

const NO_BLOCK_JOURNAL: &str = "processors 1 pages 2
types block
maps
scripts main
class 4096 marks 2 6 3
processor 0
0 fill 4096 0
0 script main
0 in plain 1
0 out plain 2
0 done main
0 work 4096
0 receive 4096
0 read 4096 1
0 fetch 4096 3 256
0 enter 4096 1
0 push 4096 256
0 count 4096 2
0 leave 4096 0
0 enter 4096 1
0 taked 4096
0 leave 4096 0
0 ended
0 close
0 sweep 4096 256 0
0 stamp 4096 tracing 2
0 begin tracing 1
0 finish tracing 2 first 2 0 later 2 0
0 pass 4096 tracing 2
0 return 4096 256 0
total steps 14
total given 0
total empty 0
total busy 0
total last 0
total still 0
total acquired 0
total exchanged 0
total pushed 0
total already 0
total taken 0
total none 0
total raised 0
total worked 1
total fetched 2
total returned 2
total plain 0
total tracing 1
total handlers 0
";

#[test]
fn works_stand_behind_statements_and_scripts(rt: HostRuntime) -> Result<(), Fail> {
    give_their_journals(&rt, rt.alloc(), &[(NO_BLOCK, NO_BLOCK_JOURNAL)])
}

// Four objects of a page each, asked for one after the other, and then given up.
const FOUR_BLOCKS: &str = "deferred on
type big { pad 4088 }
script main plain {
new a big new b big new c big new d big
if a { drop a }
if b { drop b }
if c { drop c }
if d { drop d }
}
run 0 main
}";

const FOUR_ON_NONE: &str = "total steps 46
total given 0
total empty 4
total busy 0
total last 0
total still 0
total acquired 0
total exchanged 0
total pushed 0
total already 0
total taken 0
total none 0
total raised 4
total worked 5
total fetched 0
total returned 0
total plain 0
total tracing 0
total handlers 0
";

const FOUR_ON_ONE: &str = "total steps 55
total given 1
total empty 3
total busy 0
total last 1
total still 0
total acquired 0
total exchanged 0
total pushed 0
total already 0
total taken 0
total none 0
total raised 4
total worked 5
total fetched 1
total returned 1
total plain 0
total tracing 1
total handlers 0
";

const FOUR_ON_TWO: &str = "total steps 63
total given 2
total empty 2
total busy 0
total last 2
total still 0
total acquired 0
total exchanged 0
total pushed 0
total already 0
total taken 0
total none 0
total raised 4
total worked 5
total fetched 2
total returned 2
total plain 0
total tracing 1
total handlers 0
";

const FOUR_ON_THREE: &str = "total steps 72
total given 3
total empty 1
total busy 0
total last 3
total still 0
total acquired 0
total exchanged 0
total pushed 0
total already 0
total taken 0
total none 0
total raised 4
total worked 5
total fetched 3
total returned 3
total plain 0
total tracing 1
total handlers 0
";

// An object is given in 5 steps where one is left (enter, pop, count, leave and raise), and asked for in vain in 4. The work behind the
// call is 6 steps (receive, read, fetch, and enter, take and leave for Delayed), and 4 more for each unit that the stock has left. An
// object goes back in 4. The work behind the script is 6 steps below the mark of 2 units, where it fetches in vain, and else 5. The
// closing sweeps in 4 steps, if there is a unit.
//
// No page: 4 calls of 4 + 6, and 6. One page: 5 + 6, 3 calls of 4 + 6, 4, 6 and 4. Two pages: 5 + 10, 5 + 6, 2 calls of 4 + 6, 2 of
// 4, 5 and 4. Three pages: 5 + 14, 2 calls of 5 + 6, 4 + 6, 3 of 4, 5 and 4.
const FOUR_ON_PAGES: &[(&str, &str)] = &[
    ("0", FOUR_ON_NONE),
    ("1", FOUR_ON_ONE),
    ("2", FOUR_ON_TWO),
    ("3", FOUR_ON_THREE),
];

fn have_totals(rt: &impl Abort, alloc: Global, rows: &[(&str, &str)]) -> Result<(), Fail> {
    for (pages, totals) in rows {
        let text = format!(in alloc; "scenario {{ processors 1 pages {pages} {FOUR_BLOCKS}")?;
        let called = call(alloc, &["replay", "--totals"], text.as_bytes())?;
        agrees(rt, &called, 0, totals, "", pages);
    }
    Ok(())
}

#[test]
fn units_of_whole_pages(rt: HostRuntime) -> Result<(), Fail> {
    have_totals(&rt, rt.alloc(), FOUR_ON_PAGES)
}

// Forty objects of 16 bytes. Two refills of 48 units bring their units, and once all are given up a drain sends 33 units away,
// which the work behind the script receives.
const FORTY_TOTALS: &str = "total steps 870
total given 40
total empty 0
total busy 0
total last 40
total still 0
total acquired 0
total exchanged 0
total pushed 0
total already 0
total taken 0
total none 0
total raised 3
total worked 4
total fetched 100
total returned 100
total plain 0
total tracing 1
total handlers 0
";

// So many objects are asked for, and then given up.
fn some_objects(alloc: Global, count: u32) -> Result<String, Fail> {
    let mut text = format!(in alloc;
        "scenario {{ processors 1 pages 1 deferred on type item {{ a }} script main plain {{"
    )?;
    for i in 0..count {
        text.push_str(format!(in alloc; " new x{i} item 1")?.as_str())?;
    }
    for i in 0..count {
        text.push_str(format!(in alloc; " if x{i} {{ drop x{i} }}")?.as_str())?;
    }
    text.push_str(" } run 0 main }")?;
    Ok(text)
}

#[test]
fn a_refill_and_a_drain(rt: HostRuntime) -> Result<(), Fail> {
    let text = some_objects(rt.alloc(), 40)?;
    let called = call(rt.alloc(), &["replay", "--totals"], text.as_bytes())?;
    agrees(&rt, &called, 0, FORTY_TOTALS, "", "forty objects");
    Ok(())
}

// A type of each of the eleven classes, and one object of each, made and dropped.
const ELEVEN: &str = "scenario {
processors 1
pages 256
deferred on
type a { pad 8 }
type b { pad 24 }
type c { pad 56 }
type d { pad 88 }
type e { pad 120 }
type f { pad 184 }
type g { pad 248 }
type h { pad 504 }
type i { pad 1016 }
type j { pad 2040 }
type k { pad 4088 }
script main plain {
new x a if x { drop x }
new x b if x { drop x }
new x c if x { drop x }
new x d if x { drop x }
new x e if x { drop x }
new x f if x { drop x }
new x g if x { drop x }
new x h if x { drop x }
new x i if x { drop x }
new x j if x { drop x }
new x k if x { drop x }
}
run 0 main
}
";

// The opening fetches 4 units of each of the seven classes up to 256 bytes, and 1 of the other four. Each object is given in 5 steps,
// since that leaves its cache below the low mark. The work behind it is 6 steps and 4 for each unit of a batch, which is 48 of the
// seven classes, and 24, 12, 6 and 3 of the others. The object goes back in 4, the work behind the script is 5 steps a class, and the
// sweep 4.
const ELEVEN_TOTALS: &str = "total steps 1788
total given 11
total empty 0
total busy 0
total last 11
total still 0
total acquired 0
total exchanged 0
total pushed 0
total already 0
total taken 0
total none 0
total raised 11
total worked 22
total fetched 413
total returned 413
total plain 0
total tracing 11
total handlers 0
";

#[test]
fn each_of_the_eleven_classes(rt: HostRuntime) -> Result<(), Fail> {
    let called = call(rt.alloc(), &["replay", "--totals"], ELEVEN.as_bytes())?;
    agrees(&rt, &called, 0, ELEVEN_TOTALS, "", ELEVEN);
    Ok(())
}
