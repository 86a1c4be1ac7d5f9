//! A worked journal, whole, of two processors, one of which lends a unit to the other, and wrong
//! neighbours of it.

ghost use Rattle.std.specs.Prelude.{◌≡◌, Some};
ghost use Rattle.bm_lang.specs.declared.scenario.Parts.{Parts};
ghost use Rattle.bm_law_journal.specs.Lawful.{Laid, Lawful};
ghost use Rattle.bm_law_journal.specs.WorkedLoan.{AreRefused, ended_by_other, ended_in_section, ended_unchanged, freed_to_itself, given_unsealed, loan, loan_journal, seen_outside, sent_in_period, sent_to_itself};
ghost use Rattle.bm_law_journal.specs.WorkedTurns.{other_turns};

use bm_law_graphs::uncalled_law;
use bm_law_laid::whole_law;
use bm_law_objects::{reads_law, slots_law};

/// Lawful and laid is the journal of two processors in which one makes an object of a unit and
/// hands it to the other one through a slot, which frees the unit with delay; in which a section of
/// the former holds up the grace period that the unit waits for, and the unit then goes home as a
/// parcel, where an object of another type is made of it, with the seal of that wait. Neither
/// lawful, whatever the scenario, nor laid with these turns is a journal of logs one step away from
/// these, in which the period ends with the word that the former had at its begin; in which it ends
/// directly behind its begin, in that section; in which the former ends it, which didn't begin it;
/// in which the unit is given again without its seal, or sent while the period goes on; in which
/// the other one frees it as its own, or sends it to itself. Lawful, but not laid, is the journal
/// in which the period names words of its begin that weren't there; and the right one isn't laid
/// where the scenario names other turns.
pub fn worked_loan()
    ensures lawful { Lawful loan loan_journal }
    ensures laid { Laid loan loan_journal }
    ensures unchanged { AreRefused ended_unchanged }
    ensures in_section { AreRefused ended_in_section }
    ensures by_other { AreRefused ended_by_other }
    ensures unsealed { AreRefused given_unsealed }
    ensures too_early { AreRefused sent_in_period }
    ensures freed { AreRefused freed_to_itself }
    ensures sent { AreRefused sent_to_itself }
    ensures outside_lawful { Lawful loan seen_outside }
    ensures outside { ¬ Laid loan seen_outside }
    ensures turned { (s : Parts) → s.turns ≡ Some other_turns → ¬ Laid s loan_journal }
{
    whole_law();
    slots_law();
    reads_law();
    uncalled_law();
}
