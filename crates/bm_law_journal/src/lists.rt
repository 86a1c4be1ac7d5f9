//! A worked journal in which an object is put into a list, and wrong neighbours of it.

ghost use Rattle.std.specs.Prelude.{◌≡◌, ◌∷◌, ◌++◌, []};
ghost use Rattle.bm_journal.specs.declared.journal.Journal.{Journal};
ghost use Rattle.bm_law_scenario.specs.WorkedLists.{pushes, reads_a};
ghost use Rattle.bm_law_scenario.specs.WorkedVisit.{empties_q, log_with, visit_entries, visited, visited_journal, visited_log};
ghost use Rattle.bm_law_journal.specs.Lawful.{Laid, Lawful};

use bm_law_graphs::graphs_law;
use bm_law_laid::whole_law;
use bm_law_objects::{reads_law, slots_law};
use bm_law_scenario::worked_visit;

/// Lawful and laid is the journal in which a script puts an object into a list under its lock and reads it there, and the closing takes it from
/// there, with the histories of two lists and a tree. Not laid is a journal in which the push stands without its lock, in which the closing
/// names another position in the list's history, or that has no histories.
pub fn worked_visits()
    ensures lawful { Lawful visited visited_journal }
    ensures laid { Laid visited visited_journal }
    ensures unlocked { (j : Journal) → j.logs ≡ log_with (pushes ++ reads_a) (empties_q 1) ∷ []
        → ¬ Laid visited j }
    ensures position { (j : Journal) → j.logs ≡ log_with visit_entries (empties_q 2) ∷ []
        → ¬ Laid visited j }
    ensures histories { (j : Journal) → j.logs ≡ visited_log ∷ [] → j.graphs ≡ []
        → ¬ Laid visited j }
{
    whole_law();
    worked_visit();
    slots_law();
    reads_law();
    graphs_law();
}
