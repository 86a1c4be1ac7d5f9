//! The handlers that are planned for a processor.

ghost use Rattle.std.specs.Prelude.{true, false, ◌≡◌, ◌<◌, ◌≤◌, ◌+◌, ◌-◌, ◌^◌, ℕ, min, IfOk, IfNone, IfSome, OnSome, ◌==◌, ◌∷◌, [], length};
ghost use Rattle.std.specs.List.{All, filter, position};
ghost use Rattle.std.specs.Option.{option_map};
ghost use Rattle.bm_lang.specs.Fine.{FineAt};
ghost use Rattle.bm_lang.specs.Spelling.{declared};
ghost use Rattle.bm_due.specs.Due.{is_foremost, planned_for};
ghost use Rattle.bm_due.specs.Plan.{due_of, least_above, plan_after};
ghost use Rattle.bm_due.specs.Told.{told_of};

use bm_journal::Level;
use bm_lang::{AtLine, Scenario, ScriptId};
use bm_word::NoMemory;
use std::alloc::Global;
use std::marker::Model;

/// A handler that is due: its script and its level.
#[derive(Clone, Copy, Debug, PartialEq, Eq)]
pub struct Due {
    pub script: ScriptId,
    pub level: Level,
}

/// The handlers that are planned for a processor and haven't run, in the order of the text. All its memory is taken as it
/// is made. Where none is due, to ask for one costs a look at one number beside the end. Contracts see the lines, and whether the
/// processor has ended.
#[derive(Drop)]
pub struct Planned {
    left: Vec<AtLine>,
    // the least step of the handlers above each level
    least: [u64; 4],
    ended: bool,
}

impl Model for Planned {
    ghost use Rattle.bm_due.specs.Plan.{IsPlan, Plan};

    ghost Value = { Plan };

    ghost view = { λ p. record { left = p.left.items; ended = p.ended } };

    ghost invariant = { λ p. IsPlan p.left.items p.least };
}

impl Planned {
    /// The handlers that a scenario plans for a processor, none of which has run. Want of memory is the only refusal.
    pub fn create(alloc: Global, scenario: &Scenario, processor: u32) -> Result<Planned, NoMemory>
        ensures plan { IfOk result
            (λ p. p ≡ record { left = planned_for processor scenario.now; ended = false }) }
        // Each is a handler script of the scenario, at a level from 1 to 3.
        ensures fine { IfOk result
            (λ p. All (FineAt scenario.now.processors (declared scenario.now).scripts) p.left) }
    {
        let left = lines_of(alloc, scenario.parts().ats.as_slice(), processor)?;
        let least = least_steps(left.as_slice());
        Ok(Planned {
            left,
            least,
            ended: false,
        })
    }

    /// Takes the handler that is due before a step of code of a level, which has begun from then on. None, and nothing
    /// changes, exactly where none is due. It takes no memory.
    pub fn take_due(&mut self, step: u64, level: Level) -> Option<Due>
        ensures due { result ≡ option_map told_of (due_of step level self.old) }
        ensures left { self.new ≡ plan_after step level self.old }
        ensures none { IfNone result (self.new ≡ self.old) }
        ensures one { OnSome result (length self.new.left + 1 ≡ length self.old.left) }
        ensures above { IfSome result (λ due. level < due.level) }
        // The number of the step may stay at the greatest one of its type.
        ensures greatest { (n : ℕ) → step ≡ min n (2 ^ 64 - 1) →
            (result ≡ option_map told_of (due_of n level self.old))
            × (self.new ≡ plan_after n level self.old) }
    {
        if self.ended || step < self.least[level.number() as usize] {
            return None;
        }
        let place = foremost(self.left.as_slice(), step, level)?;
        let line = self.left.remove(place);
        self.least = least_steps(self.left.as_slice());
        Some(Due {
            script: line.script,
            level: level_of(&line),
        })
    }

    /// How many handlers haven't run.
    pub fn pending(&self) -> usize
        ensures { result ≡ length self.now.left }
    {
        self.left.len()
    }

    /// The processor ends. From then on none is due.
    pub fn end(&mut self)
        ensures { self.new ≡ record self.old { ended = true } }
    {
        self.ended = true;
    }
}

// The lines that are planned for a processor. Want of memory is the only refusal.
fn lines_of(alloc: Global, lines: &[AtLine], processor: u32) -> Result<Vec<AtLine>, NoMemory>
    ensures { IfOk result (λ v. v.items ≡ filter (λ line. line.processor == processor) lines.now) }
{
    let mut left = Vec::new(alloc);
    for line in lines {
        if line.processor == processor {
            left.push(*line)?;
        }
    }
    Ok(left)
}

// The level of a line.
fn level_of(line: &AtLine) -> Level
    requires { line.now.level ≤ 3 }
    ensures { result ≡ line.now.level }
{
    match Level::new(line.level as u8) {
        Some(level) => level,
        None => unreachable!(),
    }
}

// The place of the line that is due, also where the number of the step stays at the greatest one of its type.
fn foremost(lines: &[AtLine], step: u64, level: Level) -> Option<usize>
    ensures { (n : ℕ) → step ≡ min n (2 ^ 64 - 1)
        → result ≡ position (is_foremost n level lines.now) lines.now }
{
    let mut place = None;
    let mut highest = level.number() as u32;
    for (i, line) in lines.iter().enumerate() {
        if line.level > highest && line.step as u64 <= step {
            highest = line.level;
            place = Some(i);
        }
    }
    place
}

// The least step of the lines above a level.
fn least_above(lines: &[AtLine], level: u32) -> u64
    ensures { result ≡ least_above level lines.now }
{
    let mut least = u64::MAX;
    for line in lines {
        if line.level > level {
            least = least.min(line.step as u64);
        }
    }
    least
}

// The least steps of the lines above each level.
fn least_steps(lines: &[AtLine]) -> [u64; 4]
    ensures { result
        ≡ least_above 0 lines.now ∷ least_above 1 lines.now ∷ least_above 2 lines.now
        ∷ least_above 3 lines.now ∷ [] }
{
    [
        least_above(lines, 0),
        least_above(lines, 1),
        least_above(lines, 2),
        least_above(lines, 3),
    ]
}
