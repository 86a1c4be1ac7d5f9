//! The handlers that are planned for a processor.

ghost use Rattle.std.specs.Prelude.{◌≡◌, ◌+◌, ◌∷◌, ◌++◌, ◌<◌, ◌≤◌, [], ℕ, List, All, IfNone, IfOk, IfSome, OnSome, Some, length, slice_get, true, false};
ghost use Rattle.std.specs.Option.{option_map};
ghost use Rattle.bm_cache.specs.Steps.{next_number, steps_in};
ghost use Rattle.bm_journal.specs.declared.entry.Entry.TheVariants as entry;
ghost use Rattle.bm_law.specs.Lists.{Log};
ghost use Rattle.bm_due.specs.Due.{planned_for};
ghost use Rattle.bm_due.specs.Plan.{due_of, plan_after};
ghost use Rattle.bm_due.specs.Told.{told_of};
ghost use Rattle.bm_plan.specs.Position.{AboutTo, AskedAt, Position, StandsAt, level_in, within};
ghost use Rattle.bm_plan.specs.Takes.{Takes};

use bm_due::{Due, Planned};
use bm_journal::Level;
use bm_lang::Scenario;
use bm_word::NoMemory;
use std::alloc::Global;

/// The handlers that are planned for a processor and haven't run, each of whose scripts is one of so many of their scenario. All
/// its memory is taken as it is made.
#[derive(Drop)]
pub struct Handlers {
    pub planned: Planned,
    /// How many scripts the scenario has.
    pub scripts: usize,
    ghost among: { All (λ line. line.script.0 < scripts) planned.left },
}

impl Handlers {
    /// The handlers that a scenario plans for a processor, none of which has run. Want of memory is the only refusal.
    pub fn create(alloc: Global, scenario: &Scenario, processor: u32) -> Result<Handlers, NoMemory>
        ensures planned { IfOk result
            (λ h. h.planned ≡ record { left = planned_for processor scenario.now; ended = false }) }
        ensures scripts { IfOk result (λ h. h.scripts ≡ length scenario.now.scripts) }
    {
        let planned = Planned::create(alloc, scenario, processor)?;
        let scripts = scenario.parts().scripts.as_slice().len();
        Ok(Handlers { planned, scripts })
    }

    /// The handler that is due before a step of code of a level, which begins: its entry is to stand next in the log. None, and
    /// nothing changes, exactly where none is due. It takes no memory.
    pub fn begin_due(&mut self, step: u64, level: Level) -> Option<Due>
        ensures due { result ≡ option_map told_of (due_of step level self.old.planned) }
        ensures planned { self.new.planned ≡ plan_after step level self.old.planned }
        ensures scripts { self.new.scripts ≡ self.old.scripts }
        ensures none { IfNone result (self.new ≡ self.old) }
        ensures one { OnSome result
            (length self.new.planned.left + 1 ≡ length self.old.planned.left) }
        ensures takes { IfSome result
            (λ due. Takes due self.old.planned.left self.new.planned.left) }
        ensures above { IfSome result (λ due. level < due.level) }
        ensures highest { IfSome result (λ due. due.level ≤ 3) }
        ensures script { IfSome result (λ due. due.script.0 < self.old.scripts) }

        // What code knows that is here, where this is the number of its next step: it has asked, or it is interrupted.
        ensures asked { (p : Position) (log : Log) → AboutTo p log → p.plan ≡ self.old.planned
            → level_in p.running ≡ level →
            step ≡ next_number (steps_in log) → IfNone result (AskedAt p log) }
        ensures begun { (p : Position) (log : Log) (name : List ℕ) → AboutTo p log
            → p.plan ≡ self.old.planned → level_in p.running ≡ level →
            step ≡ next_number (steps_in log)
            → IfSome result (λ due. slice_get p.names due.script.0 ≡ Some name →
            StandsAt (within due self.new.planned p) (log ++ (due.level, entry.Handler name) ∷ [])) }
    {
        self.planned.take_due(step, level)
    }

    /// The processor ends. From then on none is due.
    pub fn end(&mut self)
        ensures planned { self.new.planned ≡ record self.old.planned { ended = true } }
        ensures scripts { self.new.scripts ≡ self.old.scripts }
    {
        self.planned.end();
    }
}
