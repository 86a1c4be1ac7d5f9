//! How many statements scripts run at most. Sums are cut off above the limit.

ghost use Rattle.std.specs.Prelude.{◌≡◌, ◌+◌, ◌*◌, ◌≤◌, ◌<◌, ◌^◌, min, max, sum_by, slice_get, nat_lt};
ghost use Rattle.bm_lang.specs.Limits.{action_cost, block_cost, script_cost, cost_on, statements_of, some_below};
ghost use Rattle.bm_lang.specs.Costs.{option_cost};

use crate::scenario::{Action, AtLine, Block, Parts, RunLine, Script, ScriptId};

// The least number of statements that is above the limit. Whatever is greater counts as this.
const MANY: u64 = 20_001;

/// Whether some processor has more than 20,000 statements.
pub fn has_too_many_statements(scenario: &Parts) -> bool
    ensures { result
        ≡ some_below scenario.now.processors (λ p. nat_lt 20000 (statements_of scenario.now p)) }
{
    for processor in 0..scenario.processors {
        let runs = run_cost(
            scenario.runs.as_slice(),
            scenario.scripts.as_slice(),
            processor,
        );
        let ats = at_cost(
            scenario.ats.as_slice(),
            scenario.scripts.as_slice(),
            processor,
        );
        if runs + ats >= MANY {
            return true;
        }
    }
    false
}

// The statements of a processor's `run` lines.
fn run_cost(runs: &[RunLine], scripts: &[Script], processor: u32) -> u64
    ensures { result
        ≡ min 20001
        (sum_by
        (λ r. cost_on processor r.processor
        (script_cost (slice_get scripts.now r.script.0)))
        runs.now) }
{
    let mut total = 0;
    for run in runs {
        if total >= MANY {
            return MANY;
        }
        if run.processor == processor {
            total = both(total, cost_of(scripts, run.script));
        }
    }
    total
}

// The statements of a processor's `at` lines.
fn at_cost(ats: &[AtLine], scripts: &[Script], processor: u32) -> u64
    ensures { result
        ≡ min 20001
        (sum_by
        (λ a. cost_on processor a.processor
        (script_cost (slice_get scripts.now a.script.0)))
        ats.now) }
{
    let mut total = 0;
    for at in ats {
        if total >= MANY {
            return MANY;
        }
        if at.processor == processor {
            total = both(total, cost_of(scripts, at.script));
        }
    }
    total
}

// The statements of a line that runs this script.
fn cost_of(scripts: &[Script], script: ScriptId) -> u64
    ensures { result ≡ min 20001 (script_cost (slice_get scripts.now script.0)) }
{
    match scripts.get(script.0) {
        Some(script) => both(10, block_cost(&script.body)),
        None => 10,
    }
}

// The statements of a block.
#[cycle(costs)]
fn block_cost(block: &Block) -> u64
    ensures { result ≡ min 20001 (block_cost block.now) }
{
    let mut total = 0;
    for statement in &block.statements {
        total = both(total, action_cost(&statement.action));
    }
    total
}

// The statements of one.
#[cycle(costs)]
fn action_cost(action: &Action) -> u64
    ensures { result ≡ min 20001 (action_cost action.now) }
{
    match action {
        Action::If {
            body,
            otherwise,
            ..
        } => both(1, block_cost(body).max(else_cost(otherwise))),
        Action::Repeat { count, body } => {
            if *count == 0 {
                1
            } else {
                both(1, times(*count, both(1, block_cost(body))))
            }
        }
        Action::Section { body } => both(1, block_cost(body)),
        _ => 1,
    }
}

#[cycle(costs)]
fn else_cost(otherwise: &Option<Block>) -> u64
    ensures { result ≡ min 20001 (option_cost otherwise.now) }
{
    match otherwise {
        Some(block) => block_cost(block),
        None => 0,
    }
}

// The sum of two numbers that are cut off.
fn both(a: u64, b: u64) -> u64
    requires first { a ≤ 20001 }
    requires second { b ≤ 20001 }
    ensures { result ≡ min 20001 (a + b) }
{
    (a + b).min(MANY)
}

// So many times a number that is cut off.
fn times(count: u32, cost: u64) -> u64
    requires { cost ≤ 20001 }
    ensures { result ≡ min 20001 (count * cost) }
{
    (count as u64 * cost).min(MANY)
}
