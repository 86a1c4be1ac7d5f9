//! Worked positions.

ghost use Rattle.std.specs.Prelude.{◌≡◌, ◌∷◌, ◌++◌, [], List, codes};
ghost use Rattle.bm_journal.specs.declared.entry.Entry.TheVariants as entry;
ghost use Rattle.bm_lang.specs.declared.scenario.AtLine.{AtLine};
ghost use Rattle.bm_due.specs.Told.{told_of};
ghost use Rattle.bm_due.specs.declared.planned.Due.{Due};
ghost use Rattle.bm_due.specs.Worked.{at_step, unit_counted, unit_taken};
ghost use Rattle.bm_plan.specs.Position.{AboutTo, AskedAt, StandsAt};
ghost use Rattle.bm_plan.specs.Takes.{Takes};
ghost use Rattle.bm_plan.specs.Worked.{at_position, both_back, g_back, g_begun, handler_g, two_planned};

/// Positions behind logs, computed: two handlers are due; the higher one runs, and has gone back; both have run, and
/// then code has asked.
pub fn worked_positions()
    ensures due { StandsAt (at_position two_planned []) unit_taken }
    ensures runs { StandsAt (at_position (at_step 3 1 1 ∷ []) (handler_g ∷ [])) g_begun }
    ensures its_step { AskedAt (at_position (at_step 3 1 1 ∷ []) (handler_g ∷ [])) g_begun }
    ensures back { AboutTo (at_position (at_step 3 1 1 ∷ []) []) g_back }
    ensures none_due { AskedAt (at_position [] []) both_back }
    ensures goes_on { StandsAt (at_position [] []) (both_back ++ unit_counted) }
{}

/// Positions where code isn't: it hasn't asked where one is due; where a handler has just gone back, it takes its step before
/// anything else; the handler that runs is another one, or has gone back; one that is due was passed over; one that began has
/// run.
pub fn wrong_positions()
    ensures due { ¬ AskedAt (at_position two_planned []) unit_taken }
    ensures still_due { ¬ AskedAt (at_position (at_step 3 1 1 ∷ []) []) g_back }
    ensures resumes { ¬ StandsAt (at_position [] []) both_back }
    ensures outside { ¬ AboutTo (at_position (at_step 3 1 1 ∷ []) []) g_begun }
    ensures inside { ¬ AboutTo (at_position (at_step 3 1 1 ∷ []) (handler_g ∷ [])) g_back }
    ensures passed_over { ¬ AboutTo (at_position two_planned []) (unit_taken ++ unit_counted) }
    ensures has_run { ¬ AboutTo (at_position two_planned []) both_back }
{}

/// Handlers taken off those that haven't run, computed: the second one of the text, and the last that is left. None is taken where
/// none is left, and one that is taken is gone.
pub fn worked_takes()
    ensures second { Takes handler_g two_planned (at_step 3 1 1 ∷ []) }
    ensures last { Takes (told_of (at_step 3 1 1)) (at_step 3 1 1 ∷ []) [] }
    ensures none_left { (due : Due) (now : List AtLine) → ¬ Takes due [] now }
    ensures gone { (due : Due) (left : List AtLine) → ¬ Takes due left left }
{}
