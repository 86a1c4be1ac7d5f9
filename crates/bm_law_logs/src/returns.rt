//! The law of returns of a journal, from what its logs leave and what they say of lives and parcels.

ghost use Rattle.std.specs.Prelude.{◌≡◌, ◌<◌, ◌∷◌, [], ℕ, List, length, true};
ghost use Rattle.bm_journal.specs.declared.journal.Journal.{Journal};
ghost use Rattle.bm_lang.specs.declared.scenario.Parts.{Parts};
ghost use Rattle.bm_law.specs.Lists.{Log};
ghost use Rattle.bm_law_scenario.specs.Lawful.{LawfulLog, LawfulLogs};
ghost use Rattle.bm_law_scenario.specs.Parcels.{ParcelLaw, sends_alone};
ghost use Rattle.bm_law_lives.specs.Together.{Each, EachLog, named, named_in};
ghost use Rattle.bm_law_lives.specs.Returns.{ParcelsArrive, ReturnsLaw, receiver};
ghost use Rattle.bm_law_logs.specs.UnitsMoved.{FreedAsGiven, LeavesNothing};

/// Logs of any number of processors that leave nothing, that together free each unit as often as they give it, and whose parcels
/// go to processors that there are and arrive, return each unit as often as they took it: they meet the law of returns. So does
/// a lawful journal whose units are freed so and whose parcels arrive so. By the law of parcels of one log its parcels arrive,
/// and each goes to the processor of the log; so a lawful log of the one processor that there is meets the law of returns where
/// its units are freed so.
pub fn returns_law()
    ensures together { (logs : List Log) → EachLog LeavesNothing logs → FreedAsGiven logs →
        Each (λ to. to < length logs) (named receiver logs) → EachLog (ParcelsArrive logs) logs
        → ReturnsLaw logs }
    ensures journal { (s : Parts) (j : Journal) → LawfulLogs s j → FreedAsGiven j.logs →
        Each (λ to. to < length j.logs) (named receiver j.logs)
        → EachLog (ParcelsArrive j.logs) j.logs → ReturnsLaw j.logs }
    ensures arrive { (p : ℕ) (log : Log) → ParcelLaw p log → ParcelsArrive (log ∷ []) p log }
    ensures receivers { (p : ℕ) (log : Log) → ParcelLaw p log
        → Each (λ to. to ≡ p) (named_in receiver log) }
    ensures law { (s : Parts) (log : Log) →
        LawfulLog s 0 log → sends_alone s ≡ true → FreedAsGiven (log ∷ []) → ReturnsLaw (log ∷ []) }
{}
