//! A worked journal of two processors that take turns, which is laid, and wrong neighbours of it.

ghost use Rattle.std.specs.Prelude.{◌≡◌, []};
ghost use Rattle.bm_journal.specs.declared.journal.Journal.{Journal};
ghost use Rattle.bm_lang.specs.declared.scenario.Parts.{Parts};
ghost use Rattle.bm_law_journal.specs.Lawful.{Laid};
ghost use Rattle.bm_law_lives.specs.GraceLaw.{WholeGrace};
ghost use Rattle.bm_law_lives.specs.Lives.{WholeLives};
ghost use Rattle.bm_law_lives.specs.Returns.{ReturnsLaw};
ghost use Rattle.bm_law_lives.specs.StampLaw.{StampLaw};
ghost use Rattle.bm_law_journal.specs.WorkedTurns.{HasTurns, ended_by_other, ended_in_section, freed_to_itself, given_unsealed, lent, opened_twice, other_turns, sent_in_period, sent_to_itself, turns};

use bm_law_graphs::uncalled_law;

/// Laid is the journal of two processors in which a unit goes from one processor's allocation to the other's free, waits for a grace
/// period that a section of the first one holds up, goes home as a parcel, is given again with its seal, and is swept at last; and what is
/// said of its logs together holds, of lives, returns, grace periods and stamps. A journal isn't laid in which that period ends within the section, or is ended by the processor that didn't begin it; in which the unit is given
/// without its seal, or sent while the period goes on; in which both processors open with it; in which the other processor frees it as its
/// own, or sends it to itself; nor is one of the same logs in another order of turns.
pub fn worked_turns()
    ensures lent { (s : Parts) (j : Journal) → HasTurns turns lent s j → j.graphs ≡ [] → Laid s j }
    ensures lives { WholeLives lent }
    ensures returns { ReturnsLaw lent }
    ensures grace { WholeGrace lent }
    ensures stamps { StampLaw lent }
    ensures in_section { (s : Parts) (j : Journal) → HasTurns turns ended_in_section s j
        → ¬ Laid s j }
    ensures by_other { (s : Parts) (j : Journal) → HasTurns turns ended_by_other s j → ¬ Laid s j }
    ensures unsealed { (s : Parts) (j : Journal) → HasTurns turns given_unsealed s j → ¬ Laid s j }
    ensures too_early { (s : Parts) (j : Journal) → HasTurns turns sent_in_period s j → ¬ Laid s j }
    ensures opened { (s : Parts) (j : Journal) → HasTurns turns opened_twice s j → ¬ Laid s j }
    ensures freed { (s : Parts) (j : Journal) → HasTurns turns freed_to_itself s j → ¬ Laid s j }
    ensures sent { (s : Parts) (j : Journal) → HasTurns turns sent_to_itself s j → ¬ Laid s j }
    ensures turned { (s : Parts) (j : Journal) → HasTurns other_turns lent s j → ¬ Laid s j }
{
    uncalled_law();
}
