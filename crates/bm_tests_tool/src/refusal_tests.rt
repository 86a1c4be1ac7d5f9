//! Texts that are refused, with the status and the line of each. They are worked out by hand from the rules.

use crate::calls::{agrees, bytes_are_refused, call};
use crate::examples::one_object::SCENARIO;
use bm_tool::out_of_memory;
use std::alloc::Global;
use std::process::Abort;
use std::test::Fail;

// A few words; the others stand beside the reader of words.
const NO_COMMANDS: &[&[&str]] = &[
    &[],
    &["run"],
    &["Replay"],
    &["replay "],
    &["replay", "replay"],
    &["check", "--totals"],
    &["--totals", "replay"],
    &["--help"],
];

fn are_no_commands(rt: &impl Abort, alloc: Global, rows: &[&[&str]]) -> Result<(), Fail> {
    for words in rows {
        let called = call(alloc, words, SCENARIO.as_bytes())?;
        agrees(rt, &called, 1, "", "bpfmem: usage\n", "words");
    }
    Ok(())
}

#[test]
fn words_that_are_no_command(rt: HostRuntime) -> Result<(), Fail> {
    are_no_commands(&rt, rt.alloc(), NO_COMMANDS)
}

// A scenario of one script, which has this body.
fn with_body(alloc: Global, declared: &str, body: &str) -> Result<String, Fail> {
    Ok(format!(in alloc;
        "scenario {{
processors 1
pages 1
deferred off
{declared}
script main plain {{
{body}
}}
run 0 main
}}
"
    )?)
}

const REPLAY: &[&str] = &["replay"];

const TOTALS: &[&str] = &["replay", "--totals"];

const CHECK: &[&str] = &["check"];

fn is_refused(
    rt: &impl Abort,
    alloc: Global,
    words: &[&str],
    text: &str,
    status: u8,
    line: &str,
    note: &str,
) -> Result<(), Fail> {
    bytes_are_refused(rt, alloc, words, text.as_bytes(), status, line, note)
}

// A body for each rule that a script without graphs can break. It begins on line 7.
const RULES_WITHOUT_GRAPHS: &[(&str, &str)] = &[
    ("drop x", "line 7: rule 1"),
    (
        "new x item 1 if x { drop x } new y item 2\nif y { new y item 3 }",
        "line 8: rule 1",
    ),
    ("new x item 1\ndrop x", "line 8: rule 2"),
    ("new x item 1\nif x { drop x\ndrop x }", "line 9: rule 3"),
    ("new x item 1", "line 8: rule 4"),
    ("new x item 1\nif x {\n}", "line 9: rule 5"),
    (
        "new x item 1\nif x { drop x } else { new x item 2\n}",
        "line 9: rule 5",
    ),
    ("repeat 2 {\nnew x item 1\n}", "line 9: rule 6"),
    (
        "new x item 1\nif x { if x { drop x } else { drop x } }",
        "line 8: rule 12",
    ),
    // exchanges of a slot of items
    ("xchg x s y", "line 7: rule 1"),
    ("new x item 1\nxchg y s x", "line 8: rule 2"),
    (
        "new x item 1\nif x { xchg y s x\nif y { drop y }\ndrop x }",
        "line 10: rule 3",
    ),
    ("xchg x s null", "line 8: rule 4"),
    (
        "new x other 1\nif x {\nxchg y s x if y { drop y } }",
        "line 9: rule 12",
    ),
    (
        "xchg x s null\nif x { acquire y x drop y drop x }",
        "line 8: rule 12",
    ),
];

// A body for each rule that a list and its lock bring. It begins on line 7.
const RULES_OF_A_LIST: &[(&str, &str)] = &[
    (
        "new x job 1\nif x { lock q push_back q x unlock\ndrop x }",
        "line 9: rule 3",
    ),
    ("push_back q x", "line 7: rule 7"),
    ("lock q\nlock q", "line 8: rule 8"),
    ("lock q\nnew x job 1", "line 8: rule 9"),
    ("lock q", "line 8: rule 10"),
    (
        "lock q pop_front x q unlock\nif x { acquire y x drop y drop x }",
        "line 8: rule 12",
    ),
];

fn are_rejected(
    rt: &impl Abort,
    alloc: Global,
    declared: &str,
    rows: &[(&str, &str)],
) -> Result<(), Fail> {
    for (body, line) in rows {
        let text = with_body(alloc, declared, body)?;
        let told = format!(in alloc; "bpfmem: script main {line}\n")?;
        is_refused(rt, alloc, REPLAY, text.as_str(), 6, told.as_str(), body)?;
        is_refused(rt, alloc, TOTALS, text.as_str(), 6, told.as_str(), body)?;
        is_refused(rt, alloc, CHECK, text.as_str(), 6, told.as_str(), body)?;
    }
    Ok(())
}

#[test]
fn scripts_that_break_a_rule(rt: HostRuntime) -> Result<(), Fail> {
    let items = "type item { a } type other { b } slot s item";
    are_rejected(&rt, rt.alloc(), items, RULES_WITHOUT_GRAPHS)?;
    let jobs = "type job list { a } slot s job list q job";
    are_rejected(&rt, rt.alloc(), jobs, RULES_OF_A_LIST)
}

#[test]
fn handlers_take_no_lock(rt: HostRuntime) -> Result<(), Fail> {
    let text = "scenario { processors 1 pages 1 deferred off type job list { a } list q job
script main handler {
lock q
}
at 0 1 1 main }";
    let told = "bpfmem: script main line 3: rule 11\n";
    is_refused(&rt, rt.alloc(), REPLAY, text, 6, told, text)?;
    is_refused(&rt, rt.alloc(), TOTALS, text, 6, told, text)?;
    is_refused(&rt, rt.alloc(), CHECK, text, 6, told, text)
}

const TWO_FAULTS: &str =
    "type t { }\nscript good plain { new x t if x { drop x } }\nscript low plain {\ndrop y }\nscript last plain {\nnew x t }\nrun 0 good run 0 last";

// The first script in the text's order that isn't accepted, whichever run; and texts that are.
const IN_ORDER: &[(&[&str], &str, u8, &str, &str)] = &[
    (
        CHECK,
        TWO_FAULTS,
        5,
        "",
        "bpfmem: line 1 column 55: type_size\n",
    ),
    (
        CHECK,
        "type t { a } script m plain { } script n plain {\ndrop m } run 0 m",
        6,
        "",
        "bpfmem: script n line 2: rule 1\n",
    ),
    (
        REPLAY,
        "type t { a } script m plain { } script n plain {\ndrop m } run 0 m",
        6,
        "",
        "bpfmem: script n line 2: rule 1\n",
    ),
    (
        CHECK,
        "type t { a } script n plain {\nnew x t 1 } script m plain {\ndrop x }",
        6,
        "",
        "bpfmem: script n line 2: rule 4\n",
    ),
    (
        REPLAY,
        "type t { a } script m plain { } script h handler {\nnew x t 1 } run 0 m at 0 7 3 h",
        6,
        "",
        "bpfmem: script h line 2: rule 4\n",
    ),
    (CHECK, "", 0, "accepted\n", ""),
    (
        CHECK,
        "type t { a } script m plain { repeat 0 { new x t 1 if x { drop x } } }",
        0,
        "accepted\n",
        "",
    ),
    (
        CHECK,
        "type t counted tree { k pad 8 } slot s t tree g t script h handler { xchg x s null if x { drop x } } script m plain { lock g first f g remove x g f unlock if x { drop x } } run 0 m at 0 7 3 h turns { 0 }",
        0,
        "accepted\n",
        "",
    ),
    (
        CHECK,
        "script m sleepable { yield section { } } run 0 m",
        0,
        "accepted\n",
        "",
    ),
];

fn are_checked(
    rt: &impl Abort,
    alloc: Global,
    rows: &[(&[&str], &str, u8, &str, &str)],
) -> Result<(), Fail> {
    for (words, parts, status, out, err) in rows {
        let text = format!(in alloc; "scenario {{ processors 1 pages 1 deferred off {parts} }}")?;
        let called = call(alloc, words, text.as_bytes())?;
        agrees(rt, &called, *status, out, err, parts);
        assert!(rt; !called.answered, "{parts}");
    }
    Ok(())
}

#[test]
fn the_scripts_of_a_text_are_checked_in_order(rt: HostRuntime) -> Result<(), Fail> {
    are_checked(&rt, rt.alloc(), IN_ORDER)
}

// Whole texts with the status and the line of both `replay` and `check`: the faults of a text come before its limits, and its
// limits before its scripts.
const CAUSES: &[(&str, u8, &str)] = &[
    // no reading
    ("", 5, "line 1 column 1: end"),
    ("scenario {\nprocessors 1\n", 5, "line 3 column 1: end"),
    ("scenario {\npages 1\n", 5, "line 2 column 1: unexpected"),
    (
        "scenario {\n\tprocessors 007",
        5,
        "line 2 column 13: number",
    ),
    (
        "scenario { processors 1 pages 2 deferred off }x",
        5,
        "line 1 column 47: unexpected",
    ),
    // a fault behind other forms
    (
        "scenario {\nprocessors 2 pages 1 deferred on type t { a }\nslot s t script m plain { lock\npages",
        5,
        "line 4 column 1: unexpected",
    ),
    (
        "scenario {\nprocessors 2 pages 1 deferred on type t { a }\nslot s t\npages",
        5,
        "line 4 column 1: unexpected",
    ),
    // the two words of the language that begin no statement yet
    (
        "scenario { processors 1 pages 1 deferred off type t { a }\nscript m plain { peek lock } }",
        5,
        "line 2 column 18: not_yet",
    ),
    (
        "scenario { processors 1 pages 1 deferred off type t { a }\nscript m plain { repeat 2 { weak",
        5,
        "line 2 column 29: not_yet",
    ),
    (
        "scenario { processors 1 pages 1 deferred off type t { a }\nscript m plain { new peek t 1 } }",
        5,
        "line 2 column 22: unexpected",
    ),
    // a slot of one name with another, of a type that there isn't, and one that there isn't
    (
        "scenario { processors 1 pages 1 deferred off type t { a }\nslot s t slot s t }",
        5,
        "line 2 column 15: duplicate",
    ),
    (
        "scenario { processors 1 pages 1 deferred off type t { a }\nslot s u }",
        5,
        "line 2 column 8: unknown",
    ),
    (
        "scenario { processors 1 pages 1 deferred off type t { a } slot s t\nscript m plain { xchg x q null } }",
        5,
        "line 2 column 25: unknown",
    ),
    (
        "scenario {\nprocessors 1\npages x\ndeferred on",
        5,
        "line 3 column 7: unexpected",
    ),
    (
        "scenario {\nprocessors 1 pages 1 deferred yield",
        5,
        "line 2 column 31: unexpected",
    ),
    // a limit, also where a list's node stands behind it
    (
        "scenario { processors 9\npages 257 deferred off }",
        7,
        "limit processors",
    ),
    (
        "scenario { processors 1\npages 257 deferred on type t list { a } }",
        7,
        "limit pages",
    ),
    // a script that isn't accepted, behind a type with a list's node
    (
        "scenario { processors 1 pages 1 deferred on type t list { a }\nscript m plain { drop x } }",
        6,
        "script m line 2: rule 1",
    ),
    // handlers: a level and a processor that there are not, and scripts of the other kind
    (
        "scenario { processors 1 pages 1 deferred off\nscript m plain { } at 0 1 4 m }",
        5,
        "line 2 column 27: range",
    ),
    (
        "scenario { processors 1 pages 1 deferred off\nscript h handler { } at 1 1 1 h }",
        5,
        "line 2 column 25: range",
    ),
    (
        "scenario { processors 1 pages 1 deferred off\nscript m plain { } at 0 1 1 m }",
        5,
        "line 2 column 29: wrong",
    ),
    (
        "scenario { processors 1 pages 1 deferred off\nscript h handler { } run 0 h }",
        5,
        "line 2 column 28: wrong",
    ),
    // a fault and a limit
    (
        "scenario { processors 1 pages 257 deferred off\nscript m plain { x } }",
        5,
        "line 2 column 18: unexpected",
    ),
    // a limit and a script that isn't accepted
    (
        "scenario { processors 1 pages 257 deferred off\nscript m plain { drop x } }",
        7,
        "limit pages",
    ),
    (
        "scenario { processors 1 pages 1 deferred off\nscript m plain { repeat 19990 { drop x } } run 0 m }",
        7,
        "limit statements",
    ),
    (
        "scenario { processors 1 pages 257 deferred on\nscript m plain { drop x } }",
        7,
        "limit pages",
    ),
    // two limits
    (
        "scenario { processors 1 pages 257 deferred off script m plain { repeat 20000 { } } run 0 m }",
        7,
        "limit pages",
    ),
];

fn are_told(rt: &impl Abort, alloc: Global, rows: &[(&str, u8, &str)]) -> Result<(), Fail> {
    for (text, status, line) in rows {
        let told = format!(in alloc; "bpfmem: {line}\n")?;
        is_refused(rt, alloc, REPLAY, text, *status, told.as_str(), text)?;
        is_refused(rt, alloc, TOTALS, text, *status, told.as_str(), text)?;
        is_refused(rt, alloc, CHECK, text, *status, told.as_str(), text)?;
    }
    Ok(())
}

#[test]
fn the_first_cause_is_told(rt: HostRuntime) -> Result<(), Fail> {
    are_told(&rt, rt.alloc(), CAUSES)
}

// The four units of the opening go back, in the four steps of the closing.
const NO_OBJECT: &str = "total steps 4
total given 0
total empty 0
total busy 0
total last 0
total still 0
total acquired 0
total exchanged 0
total pushed 0
total already 0
total taken 0
total none 0
total raised 0
total worked 0
total fetched 4
total returned 4
total plain 0
total tracing 1
total handlers 0
";

// No type, so no unit.
const NO_UNIT: &str = "total steps 0
total given 0
total empty 0
total busy 0
total last 0
total still 0
total acquired 0
total exchanged 0
total pushed 0
total already 0
total taken 0
total none 0
total raised 0
total worked 0
total fetched 0
total returned 0
total plain 0
total tracing 0
total handlers 0
";

// A `run` line costs 10, a `repeat` 1 and for each time 1, so that 19,989 times are the most.
#[test]
fn a_processor_runs_20_000_statements(rt: HostRuntime) -> Result<(), Fail> {
    let most = with_body(rt.alloc(), "type item { a }", "repeat 19989 { }")?;
    let more = with_body(rt.alloc(), "type item { a }", "repeat 19990 { }")?;
    let err = "bpfmem: limit statements\n";
    let called = call(rt.alloc(), CHECK, most.as_bytes())?;
    agrees(&rt, &called, 0, "accepted\n", "", "19989");
    let called = call(rt.alloc(), TOTALS, most.as_bytes())?;
    agrees(&rt, &called, 0, NO_OBJECT, "", "19989");
    let called = call(rt.alloc(), CHECK, more.as_bytes())?;
    agrees(&rt, &called, 7, "", err, "19990");
    let called = call(rt.alloc(), REPLAY, more.as_bytes())?;
    agrees(&rt, &called, 7, "", err, "19990");
    Ok(())
}

// Fifteen objects, of which each is given up before the next one is asked for: 5 steps and 4 for each, and 4 for the closing.
const FIFTEEN_OBJECTS: &str = "total steps 139
total given 15
total empty 0
total busy 0
total last 15
total still 0
total acquired 0
total exchanged 0
total pushed 0
total already 0
total taken 0
total none 0
total raised 15
total worked 0
total fetched 4
total returned 4
total plain 0
total tracing 1
total handlers 0
";

// A script of so many `if`s, each inside the one before. The first three lines are those of the first one, up to its `drop`.
fn with_ifs(alloc: Global, count: u32) -> Result<String, Fail> {
    let mut body = String::new(alloc);
    for _ in 0..count {
        body.push_str("new x item 1\nif x {\ndrop x\n")?;
    }
    for _ in 0..count {
        body.push_str("}\n")?;
    }
    with_body(alloc, "type item { a }", body.as_str())
}

// Fifteen `if`s are sixteen blocks with the script's own. The block of a sixteenth `if` is refused where it opens. The first `if` stands
// on line 8, and each other one three lines after the one that it is inside of.
#[test]
fn blocks_stand_sixteen_deep(rt: HostRuntime) -> Result<(), Fail> {
    let deepest = with_ifs(rt.alloc(), 15)?;
    let called = call(rt.alloc(), CHECK, deepest.as_bytes())?;
    agrees(&rt, &called, 0, "accepted\n", "", "15");
    let called = call(rt.alloc(), TOTALS, deepest.as_bytes())?;
    agrees(&rt, &called, 0, FIFTEEN_OBJECTS, "", "15");
    let err = "bpfmem: line 53 column 6: depth\n";
    let deeper = with_ifs(rt.alloc(), 16)?;
    is_refused(&rt, rt.alloc(), CHECK, deeper.as_str(), 5, err, "16")?;
    is_refused(&rt, rt.alloc(), REPLAY, deeper.as_str(), 5, err, "16")?;
    let deeper = with_ifs(rt.alloc(), 17)?;
    is_refused(&rt, rt.alloc(), CHECK, deeper.as_str(), 5, err, "17")?;
    is_refused(&rt, rt.alloc(), REPLAY, deeper.as_str(), 5, err, "17")
}

// A text that plans so many handlers, of which none runs.
fn with_planned(alloc: Global, count: u32) -> Result<String, Fail> {
    let mut text = format!(in alloc;
        "scenario {{ processors 1 pages 0 deferred off script h handler {{ }}"
    )?;
    for _ in 0..count {
        text.push_str(" at 0 1 1 h")?;
    }
    text.push_str(" }")?;
    Ok(text)
}

#[test]
fn a_text_plans_1_000_handlers(rt: HostRuntime) -> Result<(), Fail> {
    let most = with_planned(rt.alloc(), 1000)?;
    let more = with_planned(rt.alloc(), 1001)?;
    let err = "bpfmem: limit handlers\n";
    let called = call(rt.alloc(), CHECK, most.as_bytes())?;
    agrees(&rt, &called, 0, "accepted\n", "", "1000");
    let called = call(rt.alloc(), TOTALS, most.as_bytes())?;
    agrees(&rt, &called, 0, NO_UNIT, "", "1000");
    is_refused(&rt, rt.alloc(), CHECK, more.as_str(), 7, err, "1001")?;
    is_refused(&rt, rt.alloc(), REPLAY, more.as_str(), 7, err, "1001")
}

#[test]
fn each_refusal_has_its_status_and_line(rt: HostRuntime) -> Result<(), Fail> {
    let mut err = bm_text::MemSink::new(rt.alloc(), 64, 64, Vec::new(rt.alloc()))?;
    assert_eq!(rt; out_of_memory(&mut err).status, 4);
    assert_eq!(rt; err.bytes(), b"bpfmem: out of memory\n".as_slice());
    Ok(())
}
