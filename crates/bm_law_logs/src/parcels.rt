//! The law of parcels over a log with handlers.

ghost use Rattle.std.specs.Prelude.{◌++◌};
ghost use Rattle.bm_lang.specs.declared.scenario.Parts.{Parts};
ghost use Rattle.bm_law.specs.State.{opening};
ghost use Rattle.bm_law.specs.Lists.{Log, after};
ghost use Rattle.bm_law_work.specs.Parts.{Say};
ghost use Rattle.bm_law.specs.Inboxes.{Inboxes};
ghost use Rattle.bm_due.specs.Standing.{HandlersStand};
ghost use Rattle.bm_law_scenario.specs.Fills.{AreFills, fresh_stock};
ghost use Rattle.bm_law_scenario.specs.Grammar.{AreScripts, lines_of};
ghost use Rattle.bm_law_scenario.specs.Handlers.{HandlersDone};
ghost use Rattle.bm_law_scenario.specs.Opened.{opened_classes};
ghost use Rattle.bm_law_scenario.specs.Parcels.{ParcelLaw};
ghost use Rattle.bm_law_logs.specs.LeavesParcels.{LeavesParcels};
ghost use Rattle.bm_law_logs.specs.SweepsTold.{ClosingTold};

/// A log of the one processor that there is, in which each handler stands where it is due and left its phrase, fits the law of
/// parcels, where before the closing each entry finds what it needs of the inboxes, and the closing sweeps the parcels that are left:
/// handlers send nothing and receive nothing.
pub fn parcels_law()
    ensures { (s : Parts) (fills scripts closing : Log) (boxes : Inboxes) →
        HandlersStand s 0 ((fills ++ scripts) ++ closing)
        → HandlersDone s 0 ((fills ++ scripts) ++ closing) →
        Say 0 (AreFills (opened_classes s.types) (fresh_stock s.pages)) (opening 0) fills →
        AreScripts s (lines_of 0 s.runs) (after (opening 0) fills) scripts →
        LeavesParcels (fills ++ scripts) boxes →
        ClosingTold 0 (opened_classes s.types) (fills ++ scripts) boxes
        (after (opening 0) (fills ++ scripts)) closing →
        ParcelLaw 0 ((fills ++ scripts) ++ closing) }
{}
