//! The laws of positions.

ghost use Rattle.std.specs.Prelude.{◌≡◌, ◌≢◌, ◌↔◌, ◌+◌, ◌∷◌, ◌++◌, [], ℕ, List, Option, Some, None, slice_get, true, false};
ghost use Rattle.bm_cache.specs.Steps.{is_step, steps_in};
ghost use Rattle.bm_journal.specs.declared.entry.Entry.{Entry};
ghost use Rattle.bm_journal.specs.declared.entry.Entry.TheVariants as entry;
ghost use Rattle.bm_journal.specs.declared.total.Total.TheVariants as total;
ghost use Rattle.bm_journal.specs.Totals.{total_in};
ghost use Rattle.bm_lang.specs.declared.scenario.AtLine.{AtLine};
ghost use Rattle.bm_law.specs.Lists.{Log};
ghost use Rattle.bm_due.specs.declared.planned.Due.{Due};
ghost use Rattle.bm_due.specs.Plan.{due_of, plan_after};
ghost use Rattle.bm_due.specs.Standing.{Stays, Steps, handlers_stand, kind_of};
ghost use Rattle.bm_due.specs.Told.{told_of};
ghost use Rattle.bm_plan.specs.Position.{AboutTo, AskedAt, Position, StandsAt, level_in, outset, within};

/// The steps that have numbers are those that the handlers are planned by.
pub fn numbers_law()
    ensures step { (e : Entry) → (is_step e ≡ true) ↔ (kind_of e ≡ Steps) }
    ensures steps { (log : Log) → steps_in log ≡ total_in total.Steps log }
{}

/// What is known of the processor's log, entry by entry: at its outset; where code asks and none is due, and where one is
/// and begins; a step, an entry that is none, a handler that goes back, and the processor's end. Where no handler runs, the
/// handlers of the log stand where they are due.
pub fn position_law()
    ensures outset { (names : List (List ℕ)) (lines : List AtLine)
        → StandsAt (outset names lines) [] }
    ensures goes_on { (p : Position) (log : Log) → StandsAt p log → AboutTo p log }
    ensures asks { (p : Position) (log : Log) → AboutTo p log →
        due_of (steps_in log + 1) (level_in p.running) p.plan ≡ None → AskedAt p log }
    ensures asked { (p : Position) (log : Log) → AskedAt p log →
        AboutTo p log × (due_of (steps_in log + 1) (level_in p.running) p.plan ≡ None) }
    ensures begins { (p : Position) (log : Log) (line : AtLine) (name : List ℕ) → AboutTo p log →
        due_of (steps_in log + 1) (level_in p.running) p.plan ≡ Some line
        → slice_get p.names line.script.0 ≡ Some name →
        StandsAt
        (within (told_of line) (plan_after (steps_in log + 1) (level_in p.running) p.plan)
        p)
        (log ++ (line.level, entry.Handler name) ∷ []) }
    ensures steps { (p : Position) (log : Log) (e : Entry) → kind_of e ≡ Steps → AskedAt p log →
        StandsAt p (log ++ (level_in p.running, e) ∷ []) }
    ensures stays { (p : Position) (log : Log) (e : Entry) → kind_of e ≡ Stays → StandsAt p log →
        StandsAt p (log ++ (level_in p.running, e) ∷ []) }
    ensures returns { (p : Position) (log : Log) (due : Due) (dues : List Due) (name : List ℕ)
        → p.running ≡ due ∷ dues →
        slice_get p.names due.script.0 ≡ Some name → StandsAt p log →
        AboutTo (record p { running = dues }) (log ++ (due.level, entry.Back name) ∷ []) }
    ensures ends { (p : Position) (log : Log) → p.running ≡ [] → StandsAt p log →
        StandsAt (record p { plan = record p.plan { ended = true } }) (log ++ (0, entry.Ended) ∷ []) }
    ensures whole { (p : Position) (log : Log) → p.running ≡ [] → StandsAt p log
        → handlers_stand p.names p.lines log ≡ true }
{}
