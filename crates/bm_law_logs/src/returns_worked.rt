//! Worked logs of units, and wrong ones beside them.

ghost use Rattle.std.specs.Prelude.{◌∷◌, []};
ghost use Rattle.bm_law_scenario.specs.Parcels.{ParcelLaw};
ghost use Rattle.bm_law_lives.specs.WorkedBlock.{one_block_log};
ghost use Rattle.bm_law_scenario.specs.WrongDeferred.{received, received_twice, sends, swept_from_inbox};
ghost use Rattle.bm_law_lives.specs.Returns.{ParcelsArrive, ReturnsLaw};
ghost use Rattle.bm_law_lives.specs.Together.{EachLog};
ghost use Rattle.bm_law_lives.specs.Worked.{two_processors};
ghost use Rattle.bm_law_logs.specs.UnitsMoved.{FreedAsGiven, LeavesNothing};
ghost use Rattle.bm_law_logs.specs.WorkedUnits.{freed_each_time, freed_twice, kept, never_freed, other_freed};

/// Units over worked logs, computed. Freed as often as given: one that is freed plainly and, given again, with delay, and that
/// of a whole log, in which what was taken is returned; but not one that is never freed, that is freed twice, or in whose place
/// another one is freed. Arrived as often as sent: one that is received, and one that a sweep takes out of the inbox; but not
/// one that is sent alone, or received twice. A unit that is given and never freed isn't returned, though the lists are empty
/// at the end and no parcel is under way.
pub fn worked_units()
    ensures freed { FreedAsGiven (freed_each_time ∷ []) }
    ensures never { ¬ FreedAsGiven (never_freed ∷ []) }
    ensures twice { ¬ FreedAsGiven (freed_twice ∷ []) }
    ensures other { ¬ FreedAsGiven (other_freed ∷ []) }
    ensures block { FreedAsGiven (one_block_log ∷ []) }
    ensures returned { ReturnsLaw (one_block_log ∷ []) }
    ensures received { ParcelsArrive (received ∷ []) 0 received }
    ensures swept { ParcelsArrive (swept_from_inbox ∷ []) 0 swept_from_inbox }
    ensures sent { ¬ ParcelsArrive (sends ∷ []) 0 sends }
    ensures received_twice { ¬ ParcelsArrive (received_twice ∷ []) 0 received_twice }
    ensures kept { LeavesNothing 0 kept }
    ensures kept_parcels { ParcelLaw 0 kept }
    ensures kept_returned { ¬ ReturnsLaw (kept ∷ []) }
    ensures two_leave { EachLog LeavesNothing two_processors }
    ensures two_freed { FreedAsGiven two_processors }
{}
