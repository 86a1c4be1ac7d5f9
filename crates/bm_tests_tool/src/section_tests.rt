//! Runs with sections, sleepable scripts, yields and turns. What is expected is worked out by hand from the rules.

use crate::calls::{agrees, call};
use std::alloc::Global;
use std::process::Abort;
use std::test::Fail;

// A scenario without types, whose scripts and run lines these are.
fn scenario_of(alloc: Global, parts: &str) -> Result<String, Fail> {
    Ok(format!(in alloc; "scenario {{ processors 1 pages 0 deferred off {parts} }}")?)
}

// Its journal: the names of its scripts, and what stands between the heading and the end of the run. There are no steps.
fn journal_of(alloc: Global, scripts: &str, lines: &str) -> Result<String, Fail> {
    Ok(format!(in alloc;
        "processors 1 pages 0
types
maps
scripts {scripts}
processor 0
{lines}0 ended
0 close
total steps 0
total given 0
total empty 0
total busy 0
total last 0
total still 0
total acquired 0
total exchanged 0
total pushed 0
total already 0
total taken 0
total none 0
total raised 0
total worked 0
total fetched 0
total returned 0
total plain 0
total tracing 0
total handlers 0
"
    )?)
}

const EMPTY: &str = "0 script m
0 in tracing 1
0 out tracing 2
0 done m
";

// Only the outer one of two sections moves the word.
const OUTERMOST: &str = "0 script m
0 in tracing 1
0 in plain 1
0 out plain 2
0 in plain 3
0 out plain 4
0 out tracing 2
0 done m
";

const REPEATED: &str = "0 script m
0 in tracing 1
0 in plain 1
0 yield
0 out plain 2
0 in plain 3
0 yield
0 out plain 4
0 yield
0 out tracing 2
0 done m
";

// A plain script is in a plain section as a whole, so its own sections move nothing.
const PLAIN: &str = "0 script m
0 in plain 1
0 yield
0 yield
0 out plain 2
0 done m
";

// The words of both domains count on, over the scripts of a processor.
const ONE_AFTER_THE_OTHER: &str = "0 script m
0 in tracing 1
0 in plain 1
0 out plain 2
0 out tracing 2
0 done m
0 script p
0 in plain 3
0 out plain 4
0 done p
0 script m
0 in tracing 3
0 in plain 5
0 out plain 6
0 out tracing 4
0 done m
";

const SHUT: &str = "0 script m
0 in tracing 1
0 out tracing 2
0 done m
0 script m
0 in tracing 3
0 out tracing 4
0 done m
";

// Scripts and run lines, the names of the scripts, and the lines of the run. With one processor its turns make no difference.
const RUNS: &[(&str, &str, &str)] = &[
    ("script m sleepable { } run 0 m", "m", EMPTY),
    (
        "script m sleepable { section { } section { section { } section { } } } run 0 m",
        "m",
        OUTERMOST,
    ),
    (
        "script m sleepable { repeat 2 { section { yield } } yield } run 0 m",
        "m",
        REPEATED,
    ),
    (
        "script m sleepable { repeat 2 { section { yield } } yield } run 0 m turns { }",
        "m",
        REPEATED,
    ),
    (
        "script m sleepable { repeat 2 { section { yield } } yield } run 0 m turns { 0 0 0 0 0 0 0 }",
        "m",
        REPEATED,
    ),
    (
        "script m plain { section { yield section { yield } } } run 0 m turns { 0 }",
        "m",
        PLAIN,
    ),
    (
        "script m sleepable { section { } } script p plain { section { } } run 0 m run 0 p run 0 m",
        "m p",
        ONE_AFTER_THE_OTHER,
    ),
    (
        "script m sleepable { repeat 0 { section { yield } } } run 0 m run 0 m",
        "m",
        SHUT,
    ),
];

fn give_their_lines(
    rt: &impl Abort,
    alloc: Global,
    rows: &[(&str, &str, &str)],
) -> Result<(), Fail> {
    for (parts, scripts, lines) in rows {
        let text = scenario_of(alloc, parts)?;
        let journal = journal_of(alloc, scripts, lines)?;
        let called = call(alloc, &["replay"], text.as_bytes())?;
        agrees(rt, &called, 0, journal.as_str(), "", parts);
        assert!(rt; called.answered, "{parts}");
    }
    Ok(())
}

#[test]
fn sections_move_the_words_of_their_domains(rt: HostRuntime) -> Result<(), Fail> {
    give_their_lines(&rt, rt.alloc(), RUNS)
}
