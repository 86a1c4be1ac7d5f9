//! Laws of the front of a log.

ghost use Rattle.std.specs.Prelude.{◌≡◌, ◌<◌, ℕ, false, None, []};
ghost use Rattle.std.specs.List.{list_any};
ghost use Rattle.bm_lang.specs.declared.scenario.Parts.{Parts};
ghost use Rattle.bm_law.specs.Lists.{Leaves, Log, after};
ghost use Rattle.bm_law.specs.Null.{NullLaw};
ghost use Rattle.bm_law.specs.Spans.{own_entries};
ghost use Rattle.bm_law.specs.State.{State, opening};
ghost use Rattle.bm_due.specs.Standing.{HandlersStand};
ghost use Rattle.bm_law_scenario.specs.Grammar.{Front, IsLog};
ghost use Rattle.bm_law_scenario.specs.Handlers.{HandlersDone};
ghost use Rattle.bm_law_scenario.specs.Opened.{uses_class};
ghost use Rattle.bm_law_lives.specs.StampLaw.{ReturnsFit};
ghost use Rattle.bm_law_logs.specs.Owed.{AllReplied};

/// A log with handlers, where each of those stands where it is due and left its phrase. In a front the cache of a class that no
/// type uses stays as it was. At each level above ordinary code each reply stands where an allocation calls for it, with none
/// owed at the end; so a whole log that names what is there meets the null law.
pub fn handled_law()
    ensures rows { (s : Parts) (p : ℕ) (front : Log) → HandlersStand s p front
        → HandlersDone s p front →
        Front s p (opening p) front → (c : ℕ) → list_any (uses_class c) s.types ≡ false →
        (after (opening p) front).rows c ≡ (opening p).rows c }
    ensures replies { (s : Parts) (p : ℕ) (log : Log) → HandlersStand s p log
        → HandlersDone s p log →
        (l : ℕ) → 0 < l → AllReplied (own_entries l log) }
    ensures null { (s : Parts) (p : ℕ) (log : Log) (last : State ℕ) → HandlersStand s p log
        → HandlersDone s p log →
        IsLog s p log → Leaves p log last → NullLaw p log }
{}

/// In such a log, where it is whole and names what is there, each return is the next entry of ordinary code after a pass of its class that
/// saw the stamp of the tracing batch reached, and gives back units that were in Second when that stamp was taken.
pub fn returned_law()
    ensures { (s : Parts) (p : ℕ) (log : Log) (last : State ℕ) → HandlersStand s p log
        → HandlersDone s p log →
        IsLog s p log → Leaves p log last → ReturnsFit (opening p) None (λ c. []) log }
{}
