//! A worked journal of two processors, one of which hands an object to the other through a slot, and wrong neighbours of it.

ghost use Rattle.std.specs.Prelude.{◌≡◌, ◌∷◌, [], Some};
ghost use Rattle.bm_journal.specs.declared.journal.Journal.{Journal};
ghost use Rattle.bm_lang.specs.declared.scenario.Parts.{Parts};
ghost use Rattle.bm_law_lives.specs.Lives.{WholeLives};
ghost use Rattle.bm_law_scenario.specs.WorkedSlots.{dropped_as_own, emptied_of_other, handed_over, handed_over_journal, taken_at_start, taken_of_other};
ghost use Rattle.bm_law_journal.specs.Lawful.{Laid, Lawful};

use bm_law_graphs::uncalled_law;
use bm_law_laid::whole_law;
use bm_law_objects::{reads_law, slots_law};
use bm_law_scenario::worked_slots;

/// Lawful and laid is the journal of two processors in which one puts an object that it made into a slot, and the other one takes it and frees
/// it, so that the unit goes back to the stock from there; and the closing finds the slot empty. Not laid is a journal in which what was put
/// is taken as the slot's first content, or as put by another call; in which the closing names a call that isn't the last; in which the unit is freed
/// as the other processor's own; nor is one of the same logs where the other processor has the first turn.
pub fn worked_handover()
    ensures lawful { Lawful handed_over handed_over_journal }
    ensures laid { Laid handed_over handed_over_journal }
    ensures at_start { (j : Journal) → j.logs ≡ taken_at_start → ¬ Laid handed_over j }
    ensures of_other { (j : Journal) → j.logs ≡ taken_of_other → ¬ Laid handed_over j }
    ensures emptied { (j : Journal) → j.logs ≡ emptied_of_other → ¬ Laid handed_over j }
    ensures as_own { (j : Journal) → j.logs ≡ dropped_as_own → ¬ Laid handed_over j }
    ensures turned { (s : Parts) → s.turns ≡ Some (1 ∷ []) → ¬ Laid s handed_over_journal }
{
    whole_law();
    worked_slots();
    slots_law();
    reads_law();
    uncalled_law();
}
