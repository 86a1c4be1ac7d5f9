//! What `gen` does: the text of a generated scenario, or its run for the totals.

ghost use Rattle.std.specs.Prelude.{◌≡◌, ◌≤◌, ℕ, IfOk, List, Option};
ghost use Rattle.bm_command.specs.declared.command.Command.TheVariants.{Gen};
ghost use Rattle.bm_tool.specs.Outcome.{IsServable, Serves, ServesGenerated, generated_text, out_text, totals_in};

use crate::prepare::{Done, serve};
use crate::refusal::Refusal;
use bm_command::{PieceCount, Reading};
use bm_generator::{generated_text, generated_texts_are_accepted};
use bm_word::NoMemory;
use std::alloc::Global;

// The text of the scenario of a count of pieces and a start. Want of memory is the only refusal.
fn made_text(alloc: Global, count: PieceCount, start: u64) -> Result<Vec<u8>, NoMemory>
    ensures text { IfOk result (λ text. text.items ≡ generated_text count start) }
    ensures few { count ≤ 2000 }
{
    let text = generated_text(alloc, count.number(), start)?;
    Ok(text)
}

// Runs the scenario of a count of pieces and a start, for its totals. Want of memory is the only refusal.
fn run_generated(alloc: Global, count: PieceCount, start: u64) -> Result<Done, NoMemory>
    ensures serves { IfOk result
        (λ done. ServesGenerated (generated_text count start) done.journal) }
    ensures text { IfOk result (λ done. done.text.items ≡ totals_in done.journal) }
{
    generated_texts_are_servable();
    let text = made_text(alloc, count, start)?;
    let totals = Reading::Replay { totals: true };
    match serve(alloc, totals, text.as_slice()) {
        Ok(done) => Ok(done),
        Err(refusal) => match refusal {
            Refusal::OutOfMemory => Err(NoMemory),
            _ => unreachable!(),
        },
    }
}

/// Makes the text of the scenario of a count of pieces and a start, or runs it for its totals. Want of memory is the only refusal.
pub(crate) fn generate(
    alloc: Global,
    count: PieceCount,
    start: u64,
    text: bool,
) -> Result<Done, NoMemory>
    ensures serves { IfOk result
        (λ done. (left : Option (List ℕ)) → Serves (Gen count start text) left done.journal) }
    ensures text { IfOk result
        (λ done. done.text.items ≡ out_text (Gen count start text) done.journal) }
{
    if !text {
        return run_generated(alloc, count, start);
    }
    let text = made_text(alloc, count, start)?;
    Ok(Done {
        journal: None,
        text,
    })
}

/// What `gen` prints `check` accepts, and `replay` runs: the text of each generated scenario is one that they can serve, so by the clause
/// `complete` of `bpfmem` all is done, or memory ran out.
pub fn generated_texts_are_servable()
    ensures { (count start : ℕ) → count ≤ 2000 → IsServable (generated_text count start) }
{
    generated_texts_are_accepted();
}
