//! Which planned handlers are due, and which begin, on the processors of one scenario. Each answer is worked out by hand.

use bm_due::Planned;
use bm_journal::Level;
use bm_lang::{Scenario, read_scenario};
use bm_plan::Handlers;
use std::alloc::Global;
use std::process::Abort;
use std::test::Fail;

const TEXT: &[u8] = b"scenario { processors 3 pages 1 deferred off type item { a } \
script main plain { } script h handler { } script g handler { } script f handler { } run 0 main \
at 0 3 1 h at 1 1 1 h at 0 3 2 g at 0 4 3 f at 1 0 3 g at 0 3 2 f at 0 4294967295 1 h }";

// A question, by the number of the step and the level of the code; its answer, by script and level; and how many are left.
type Asked = (u64, u8, Option<(usize, u8)>, usize);

const FIRST: &[Asked] = &[
    (2, 0, None, 5),
    (3, 0, Some((2, 2)), 4),
    (3, 2, None, 4),
    (3, 0, Some((3, 2)), 3),
    (3, 1, None, 3),
    (3, 0, Some((1, 1)), 2),
    (3, 0, None, 2),
    (9, 3, None, 2),
    (9, 1, Some((3, 3)), 1),
    (4294967294, 0, None, 1),
    (18446744073709551615, 0, Some((1, 1)), 0),
    (18446744073709551615, 0, None, 0),
];

const SECOND: &[Asked] = &[
    (1, 3, None, 2),
    (1, 0, Some((2, 3)), 1),
    (1, 0, Some((1, 1)), 0),
    (1, 0, None, 0),
];

const THIRD: &[Asked] = &[(9, 0, None, 0)];

fn level(number: u8) -> Result<Level, Fail> {
    Ok(Level::new(number).ok_or("a level is at most 3")?)
}

// Asks one question after the other which handler is due.
fn ask(rt: &impl Abort, planned: &mut Planned, table: &[Asked]) -> Result<(), Fail> {
    for (step, number, answer, left) in table {
        let due = planned.take_due(*step, level(*number)?);
        assert_eq!(rt; due.map(|due| (due.script.0, due.level.number())), *answer);
        assert_eq!(rt; planned.pending(), *left);
    }
    Ok(())
}

// Lets one handler after the other begin.
fn begin(rt: &impl Abort, handlers: &mut Handlers, table: &[Asked]) -> Result<(), Fail> {
    for (step, number, answer, _left) in table {
        let due = handlers.begin_due(*step, level(*number)?);
        assert_eq!(rt; due.map(|due| (due.script.0, due.level.number())), *answer);
    }
    Ok(())
}

// Both stores of a processor answer this table.
fn both(
    rt: &impl Abort,
    alloc: Global,
    scenario: &Scenario,
    processor: u32,
    table: &[Asked],
) -> Result<(), Fail> {
    ask(rt, &mut Planned::create(alloc, scenario, processor)?, table)?;
    begin(
        rt,
        &mut Handlers::create(alloc, scenario, processor)?,
        table,
    )
}

// After the processor's end none is due.
fn ended(rt: &impl Abort, alloc: Global, scenario: &Scenario) -> Result<(), Fail> {
    let mut planned = Planned::create(alloc, scenario, 0)?;
    ask(rt, &mut planned, &[(3, 0, Some((2, 2)), 4)])?;
    planned.end();
    ask(rt, &mut planned, &[(9, 0, None, 4)])?;
    let mut handlers = Handlers::create(alloc, scenario, 0)?;
    begin(rt, &mut handlers, &[(3, 0, Some((2, 2)), 4)])?;
    handlers.end();
    begin(rt, &mut handlers, &[(9, 0, None, 4)])
}

#[test]
fn the_due_handler_begins(rt: HostRuntime) -> Result<(), Fail> {
    let scenario = read_scenario(rt.alloc(), TEXT)?;
    both(&rt, rt.alloc(), &scenario, 0, FIRST)?;
    both(&rt, rt.alloc(), &scenario, 1, SECOND)?;
    both(&rt, rt.alloc(), &scenario, 2, THIRD)?;
    ended(&rt, rt.alloc(), &scenario)
}
