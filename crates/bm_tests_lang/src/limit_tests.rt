//! Scenarios at each limit, and one above it.

use bm_lang::*;
use std::alloc::{AllocError, Global};
use std::process::Abort;
use std::test::Fail;

// How many of each thing a scenario has, and the body of its script.
#[derive(Clone, Copy)]
struct Shape<'a> {
    processors: u32,
    pages: u32,
    types: u32,
    fields: u32,
    maps: u32,
    scripts: u32,
    ats: u32,
    turns: u32,
    runs: u32,
    body: &'a str,
}

const PLAIN: Shape<'static> = Shape {
    processors: 8,
    pages: 256,
    types: 32,
    fields: 8,
    maps: 64,
    scripts: 256,
    ats: 1000,
    turns: 1000,
    runs: 0,
    body: "",
};

fn text(alloc: Global, shape: Shape<'_>) -> Result<String, AllocError> {
    let Shape {
        processors,
        pages,
        ..
    } = shape;
    let mut text = format!(in alloc;
        "scenario {{ processors {processors} pages {pages} deferred on\n"
    )?;
    put_types(alloc, &mut text, shape.types, shape.fields)?;
    put_maps(alloc, &mut text, shape.maps)?;
    put_scripts(alloc, &mut text, shape.body, shape.scripts)?;
    put_times(&mut text, "run 0 main\n", shape.runs)?;
    put_ats(alloc, &mut text, shape.ats)?;
    text.push_str("turns {")?;
    put_times(&mut text, " 0", shape.turns)?;
    text.push_str(" } }\n")?;
    Ok(text)
}

fn put_types(alloc: Global, text: &mut String, types: u32, fields: u32) -> Result<(), AllocError> {
    for number in 0..types {
        let line = format!(in alloc; "type t{number} {{")?;
        text.push_str(line.as_str())?;
        put_fields(alloc, text, fields)?;
        text.push_str(" }\n")?;
    }
    Ok(())
}

fn put_fields(alloc: Global, text: &mut String, fields: u32) -> Result<(), AllocError> {
    for field in 0..fields {
        let field = format!(in alloc; " f{field}")?;
        text.push_str(field.as_str())?;
    }
    Ok(())
}

fn put_maps(alloc: Global, text: &mut String, maps: u32) -> Result<(), AllocError> {
    for number in 0..maps {
        let line = format!(in alloc; "slot s{number} t0\n")?;
        text.push_str(line.as_str())?;
    }
    Ok(())
}

// The script with the body, and handler scripts without one.
fn put_scripts(
    alloc: Global,
    text: &mut String,
    body: &str,
    scripts: u32,
) -> Result<(), AllocError> {
    text.push_str("script main plain {")?;
    text.push_str(body)?;
    text.push_str("}\n")?;
    for number in 1..scripts {
        let line = format!(in alloc; "script h{number} handler {{ }}\n")?;
        text.push_str(line.as_str())?;
    }
    Ok(())
}

fn put_ats(alloc: Global, text: &mut String, ats: u32) -> Result<(), AllocError> {
    for number in 0..ats {
        let line = format!(in alloc; "at 1 {number} 1 h1\n")?;
        text.push_str(line.as_str())?;
    }
    Ok(())
}

fn put_times(text: &mut String, part: &str, times: u32) -> Result<(), AllocError> {
    for _ in 0..times {
        text.push_str(part)?;
    }
    Ok(())
}

fn exceeded(alloc: Global, shape: Shape<'_>) -> Result<Option<Limit>, Fail> {
    let text = text(alloc, shape)?;
    if text.len() > 2_000_000 {
        return Err(Fail::from("a long text"));
    }
    match read_scenario(alloc, text.as_bytes()) {
        Ok(scenario) => Ok(limits(&scenario)),
        Err(LangFault::Bad(_)) => Err(Fail::from("a text without a reading")),
        Err(LangFault::NoMemory) => Err(Fail::from("out of memory")),
    }
}

fn expect(
    rt: &impl Abort,
    alloc: Global,
    shape: Shape<'_>,
    limit: Option<Limit>,
) -> Result<(), Fail> {
    let found = exceeded(alloc, shape)?;
    assert!(rt; found == limit, "{found:?}, not {limit:?}");
    Ok(())
}

// A scenario, and the limit that it exceeds first.
type Row<'a> = (Shape<'a>, Option<Limit>);

fn expect_each(rt: &impl Abort, alloc: Global, rows: &[Row<'_>]) -> Result<(), Fail> {
    for (shape, limit) in rows {
        expect(rt, alloc, *shape, *limit)?;
    }
    Ok(())
}

// Everything is at its limit but the statements and the turns, which the next tests have.
const EACH_LIMIT: &[Row<'static>] = &[
    (PLAIN, None),
    (
        Shape {
            processors: 9,
            pages: 257,
            ..PLAIN
        },
        Some(Limit::Processors),
    ),
    (
        Shape {
            pages: 257,
            types: 33,
            ..PLAIN
        },
        Some(Limit::Pages),
    ),
    (
        Shape {
            types: 33,
            fields: 9,
            ..PLAIN
        },
        Some(Limit::Types),
    ),
    (
        Shape {
            fields: 9,
            maps: 65,
            ..PLAIN
        },
        Some(Limit::Fields),
    ),
    (
        Shape {
            maps: 65,
            scripts: 257,
            ..PLAIN
        },
        Some(Limit::Maps),
    ),
    (
        Shape {
            scripts: 257,
            ats: 1001,
            ..PLAIN
        },
        Some(Limit::Scripts),
    ),
    (
        Shape {
            ats: 1001,
            turns: 100_001,
            ..PLAIN
        },
        Some(Limit::Handlers),
    ),
];

#[test]
fn one_above_each_limit(rt: HostRuntime) -> Result<(), Fail> {
    expect_each(&rt, rt.alloc(), EACH_LIMIT)
}

#[test]
fn turns_at_their_limit(rt: HostRuntime) -> Result<(), Fail> {
    let many = Shape {
        ats: 0,
        turns: 100_000,
        ..PLAIN
    };
    expect(&rt, rt.alloc(), many, None)?;
    let more = Shape {
        turns: 100_001,
        runs: 2001,
        ..many
    };
    expect(&rt, rt.alloc(), more, Some(Limit::Turns))
}

// One `run` line, whose script has the body.
const ONE: Shape<'static> = Shape {
    ats: 0,
    runs: 1,
    ..PLAIN
};

// A line costs 10 and the block of its script; a `repeat n` costs 1 and n times 1 and its block.
const STATEMENTS: &[Row<'static>] = &[
    // 2,000 lines of an empty script, and 2,001
    (Shape { runs: 2000, ..ONE }, None),
    (Shape { runs: 2001, ..ONE }, Some(Limit::Statements)),
    // 1,000 `at` lines of another processor have nothing to do with it
    (
        Shape {
            runs: 2000,
            ats: 1000,
            ..ONE
        },
        None,
    ),
    // 10 + 1 + 9994 * 2 + 1 = 20,000, and one more
    (
        Shape {
            body: "repeat 9994 { unlock } yield",
            ..ONE
        },
        None,
    ),
    (
        Shape {
            body: "repeat 9994 { unlock } yield yield",
            ..ONE
        },
        Some(Limit::Statements),
    ),
    // 10 + 1 + 19989 = 20,000, and one more time
    (
        Shape {
            body: "repeat 19989 { }",
            ..ONE
        },
        None,
    ),
    (
        Shape {
            body: "repeat 19990 { }",
            ..ONE
        },
        Some(Limit::Statements),
    ),
    // an empty `repeat` has no end of times
    (
        Shape {
            body: "repeat 4294967295 { repeat 4294967295 { repeat 4294967295 { } } }",
            ..ONE
        },
        Some(Limit::Statements),
    ),
    // what is done no time costs 1
    (
        Shape {
            body: "repeat 0 { repeat 4294967295 { yield } }",
            ..ONE
        },
        None,
    ),
    // the greater branch: 10 + 1 + max(1 + 19988, 1) = 20,000, either way round
    (
        Shape {
            body: "if x { repeat 19988 { } } else { yield }",
            ..ONE
        },
        None,
    ),
    (
        Shape {
            body: "if x { yield } else { repeat 19989 { } }",
            ..ONE
        },
        Some(Limit::Statements),
    ),
    (
        Shape {
            body: "if x { repeat 19989 { } }",
            ..ONE
        },
        Some(Limit::Statements),
    ),
    // a section: 10 + 1 + 1 + 19988 = 20,000
    (
        Shape {
            body: "section { repeat 19988 { } }",
            ..ONE
        },
        None,
    ),
    (
        Shape {
            body: "section { repeat 19989 { } }",
            ..ONE
        },
        Some(Limit::Statements),
    ),
];

#[test]
fn statements_at_their_limit(rt: HostRuntime) -> Result<(), Fail> {
    expect_each(&rt, rt.alloc(), STATEMENTS)
}

// A script that nothing runs costs nothing.
#[test]
fn what_isn_t_run_costs_nothing(rt: HostRuntime) -> Result<(), Fail> {
    let idle = Shape {
        ats: 0,
        body: "repeat 4294967295 { yield }",
        ..PLAIN
    };
    expect(&rt, rt.alloc(), idle, None)
}

fn are_words(rt: &impl Abort, alloc: Global, rows: &[(Limit, &str)]) -> Result<(), Fail> {
    for (limit, word) in rows {
        assert_eq!(rt; limit.text(), word.as_bytes());
        let printed = format!(in alloc; "{limit}")?;
        assert_eq!(rt; printed.as_str(), *word);
    }
    Ok(())
}

#[test]
fn words_for_limits(rt: HostRuntime) -> Result<(), Fail> {
    are_words(
        &rt,
        rt.alloc(),
        &[
            (Limit::Input, "input"),
            (Limit::Processors, "processors"),
            (Limit::Pages, "pages"),
            (Limit::Types, "types"),
            (Limit::Fields, "fields"),
            (Limit::Maps, "maps"),
            (Limit::Scripts, "scripts"),
            (Limit::Handlers, "handlers"),
            (Limit::Turns, "turns"),
            (Limit::Statements, "statements"),
        ],
    )
}
