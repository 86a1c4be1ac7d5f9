//! What a command that reads a scenario does with its input: the text is read, its limits and its scripts are checked, and it is run.

ghost use Rattle.std.specs.Prelude.{◌≡◌, ◌≤◌, ℕ, None, Some, IfOk, IfErr, length};
ghost use Rattle.bm_journal.specs.JournalText.{totals_text};
ghost use Rattle.bm_lang.specs.Scenarios.{Reads};
ghost use Rattle.bm_lang.specs.Limits.{first_limit};
ghost use Rattle.bm_check.specs.Answers.{IsFault};
ghost use Rattle.bm_command.specs.declared.command.Command.TheVariants.{Read};
ghost use Rattle.bm_tool.specs.Causes.{InputCause, IsRejection};
ghost use Rattle.bm_tool.specs.Outcome.{IsPrepared, Serves, out_text};
ghost use Rattle.bm_tool.specs.Refusals.{input_limit};

use crate::refusal::Refusal;
use bm_check::{CheckFault, Checked, check};
use bm_command::Reading;
use bm_journal::{Journal, Totals, put_totals, text_of};
use bm_lang::{LangFault, Parts, Scenario, limits, read_scenario};
use bm_run::replay;
use bm_word::NoMemory;
use std::alloc::Global;

/// What a command answers and writes.
#[derive(Drop)]
pub(crate) struct Done {
    pub(crate) journal: Option<Journal>,
    pub(crate) text: Vec<u8>,
}

// The scenario of a text.
fn read(alloc: Global, bytes: &[u8]) -> Result<Scenario, Refusal>
    requires { length bytes.now ≤ input_limit }
    ensures reads { IfOk result (Reads bytes.now) }
    ensures cause { IfErr result
        (λ r. (before after : ℕ) → InputCause (Some bytes.now) before after r) }
{
    match read_scenario(alloc, bytes) {
        Ok(scenario) => Ok(scenario),
        Err(LangFault::Bad(fault)) => Err(Refusal::Text(fault)),
        Err(LangFault::NoMemory) => Err(Refusal::OutOfMemory),
    }
}

// The refusal of a scenario that isn't checked.
fn rejection(fault: CheckFault, scenario: &Parts) -> Refusal
    requires { IsFault fault scenario.now }
    ensures { IsRejection scenario.now result }
{
    match fault {
        CheckFault::NoMemory => Refusal::OutOfMemory,
        CheckFault::Rejected { script, line, rule } => {
            let Some(declared) = scenario.scripts.as_slice().get(script.0) else {
                unreachable!();
            };
            Refusal::Rejected {
                script: declared.name.duplicate(),
                line,
                rule,
            }
        }
    }
}

// The scenario of a text, which is within the limits, and whose scripts are accepted.
fn prepare(alloc: Global, bytes: &[u8]) -> Result<Checked, Refusal>
    requires { length bytes.now ≤ input_limit }
    ensures prepared { IfOk result (IsPrepared bytes.now) }
    ensures cause { IfErr result
        (λ r. (before after : ℕ) → InputCause (Some bytes.now) before after r) }
{
    let scenario = read(alloc, bytes)?;
    if let Some(limit) = limits(&scenario) {
        return Err(Refusal::Limit(limit));
    }
    match check(alloc, scenario) {
        Ok(checked) => Ok(checked),
        Err((fault, scenario)) => Err(rejection(fault, scenario.parts())),
    }
}

// The lines of totals.
fn totals_lines(alloc: Global, totals: &Totals) -> Result<Vec<u8>, NoMemory>
    ensures { IfOk result (λ text. text.items ≡ totals_text totals.now) }
{
    let mut text = Vec::new(alloc);
    put_totals(&mut text, totals)?;
    Ok(text)
}

// Does a command on a prepared scenario. Want of memory is the only refusal.
fn perform(
    alloc: Global,
    command: Reading,
    bytes: &[u8],
    checked: &Checked,
) -> Result<Done, NoMemory>
    requires { IsPrepared bytes.now checked.now }
    ensures serves { IfOk result (λ done. Serves (Read command) (Some bytes.now) done.journal) }
    ensures text { IfOk result (λ done. done.text.items ≡ out_text (Read command) done.journal) }
{
    match command {
        Reading::Check => Ok(Done {
            journal: None,
            text: Vec::from_slice(alloc, b"accepted\n")?,
        }),
        Reading::Replay { totals } => {
            let journal = replay(alloc, checked)?;
            let text = if totals {
                totals_lines(alloc, &journal.totals)?
            } else {
                text_of(alloc, &journal)?
            };
            Ok(Done {
                journal: Some(journal),
                text,
            })
        }
    }
}

/// What a command that reads answers of bytes.
pub(crate) fn serve(alloc: Global, command: Reading, bytes: &[u8]) -> Result<Done, Refusal>
    requires { length bytes.now ≤ input_limit }
    ensures serves { IfOk result (λ done. Serves (Read command) (Some bytes.now) done.journal) }
    ensures text { IfOk result (λ done. done.text.items ≡ out_text (Read command) done.journal) }
    ensures cause { IfErr result
        (λ r. (before after : ℕ) → InputCause (Some bytes.now) before after r) }
{
    let checked = prepare(alloc, bytes)?;
    match perform(alloc, command, bytes, &checked) {
        Ok(done) => Ok(done),
        Err(NoMemory) => Err(Refusal::OutOfMemory),
    }
}
