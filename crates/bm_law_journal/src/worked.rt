//! Worked journals that are lawful and laid, and logs that no such journal has.

ghost use Rattle.std.specs.Prelude.{◌≡◌, [], None};
ghost use Rattle.bm_journal.specs.declared.journal.Journal.{Journal};
ghost use Rattle.bm_lang.specs.declared.scenario.Parts.{Parts};
ghost use Rattle.bm_law_scenario.specs.WorkedDeferred.{one_block as block_made_and_dropped, one_block_journal};
ghost use Rattle.bm_law_scenario.specs.WorkedDrops.{counted_journal, counted_object};
ghost use Rattle.bm_law_journal.specs.Lawful.{Laid, Lawful, history_of};
ghost use Rattle.bm_law_lives.specs.Worked.{both_stages};
ghost use Rattle.bm_law_lives.specs.Wrong.{ends_in_section, given_twice, never_ended, never_received, never_returned, no_seal, other_home, other_stamp, returned_too_early, sealed_though_plain, sent_too_early, sent_unseen};
ghost use Rattle.bm_law_graphs.specs.Worked.{list_order, logs_of as logs_of_lists, pushed_onto_r, q, r, t, tree_order, two_lists};
ghost use Rattle.bm_law_graphs.specs.Wrong.{call_between, call_left_out, other_key, popped_early};
ghost use Rattle.bm_law_objects.specs.Worked.{asked_within, logs_of};
ghost use Rattle.bm_law_objects.specs.Wrong.{lost_exchange, other_count, other_field, other_object, still_twice, two_first, unknown_tag};
ghost use Rattle.bm_law_places.specs.WorkedPlaces.{sweeps_from_stock};

use bm_law_graphs::{uncalled_law, wrong_laws as wrong_graph_laws};
use bm_law_laid::{worked_journal, worked_polls, worked_seals};
use bm_law_lives::{worked_grace, worked_lives, worked_returns, worked_stamps};
use bm_law_objects::wrong_laws;
use bm_law_places::worked_journal_places;
use bm_law_scenario::{worked_deferred, worked_drops};

/// Lawful is the journal of a block that is made and dropped, with deferred work, and that of a counted object to which a second
/// reference is acquired before both are given up. Whatever its scenario, a journal isn't whose logs
/// give a life twice, leave a life without its end, free a unit to another home, don't return a unit, send a parcel that nobody
/// receives, end a grace period within a section, give a unit a seal after a plain free, or return a batch too early; nor is one whose
/// logs see a reference too many in an acquire or a drop, take a slot's content twice or at its start twice, name a call that no log has or
/// take what another one put, or read another field or another object's; nor one in whose histories of lists and trees a call is left out,
/// a reply isn't right, or a key is another than the object's, in whose logs somebody else calls a list between two calls under one lock, or
/// in which an object is pushed and never taken.
pub fn worked_lawful()
    ensures one_block { Lawful block_made_and_dropped one_block_journal }
    ensures shared { Lawful counted_object counted_journal }
    ensures given_twice { (s : Parts) (j : Journal) → j.logs ≡ given_twice → ¬ Lawful s j }
    ensures never_ended { (s : Parts) (j : Journal) → j.logs ≡ never_ended → ¬ Lawful s j }
    ensures other_home { (s : Parts) (j : Journal) → j.logs ≡ other_home → ¬ Lawful s j }
    ensures never_returned { (s : Parts) (j : Journal) → j.logs ≡ never_returned → ¬ Lawful s j }
    ensures never_received { (s : Parts) (j : Journal) → j.logs ≡ never_received → ¬ Lawful s j }
    ensures ends_in_section { (s : Parts) (j : Journal) → j.logs ≡ ends_in_section → ¬ Lawful s j }
    ensures sealed_though_plain { (s : Parts) (j : Journal) → j.logs ≡ sealed_though_plain
        → ¬ Lawful s j }
    ensures returned_too_early { (s : Parts) (j : Journal) → j.logs ≡ returned_too_early
        → ¬ Lawful s j }
    ensures other_count { (s : Parts) (j : Journal) → j.logs ≡ logs_of other_count → ¬ Lawful s j }
    ensures still_twice { (s : Parts) (j : Journal) → j.logs ≡ logs_of still_twice → ¬ Lawful s j }
    ensures two_first { (s : Parts) (j : Journal) → j.logs ≡ logs_of two_first → ¬ Lawful s j }
    ensures lost_exchange { (s : Parts) (j : Journal) → j.logs ≡ logs_of lost_exchange
        → ¬ Lawful s j }
    ensures unknown_tag { (s : Parts) (j : Journal) → j.logs ≡ logs_of unknown_tag → ¬ Lawful s j }
    ensures other_object { (s : Parts) (j : Journal) → j.logs ≡ logs_of other_object
        → ¬ Lawful s j }
    ensures other_field { (s : Parts) (j : Journal) → j.logs ≡ logs_of other_field → ¬ Lawful s j }
    ensures handlers_object { (s : Parts) (j : Journal) → j.logs ≡ logs_of (asked_within 2)
        → ¬ Lawful s j }
    ensures call_left_out { (s : Parts) (j : Journal) → j.maps ≡ two_lists
        → history_of j.graphs q ≡ call_left_out →
        j.logs ≡ logs_of_lists list_order → ¬ Lawful s j }
    ensures early_reply { (s : Parts) (j : Journal) → j.maps ≡ two_lists
        → history_of j.graphs r ≡ popped_early →
        j.logs ≡ logs_of_lists list_order → ¬ Lawful s j }
    ensures other_key { (s : Parts) (j : Journal) → history_of j.graphs t ≡ other_key →
        j.logs ≡ logs_of_lists tree_order → ¬ Lawful s j }
    ensures call_between { (s : Parts) (j : Journal) → j.logs ≡ logs_of_lists call_between
        → ¬ Lawful s j }
    ensures never_taken { (s : Parts) (j : Journal) → j.logs ≡ logs_of_lists pushed_onto_r
        → ¬ Lawful s j }
{
    worked_deferred();
    worked_drops();
    worked_lives();
    worked_returns();
    worked_grace();
    worked_stamps();
    wrong_laws();
    wrong_graph_laws();
}

/// Laid is the journal of one processor in which a unit goes through both stages, is given again with its seal, and is swept at last,
/// where the scenario names no turns and there are no histories. A journal isn't laid whose logs give a unit without a seal after a delayed free, with another stamp
/// than its batch's, or with a seal after a plain free, that send a batch before its stamp was reached or without a pass, or that sweep
/// a unit which is in the stock.
pub fn worked_laid()
    ensures both_stages { (s : Parts) (j : Journal) → s.turns ≡ None → j.processors ≡ 1
        → j.pages ≡ 1 →
        j.logs ≡ both_stages → j.graphs ≡ [] → Laid s j }
    ensures no_seal { (s : Parts) (j : Journal) → s.turns ≡ None → j.logs ≡ no_seal → ¬ Laid s j }
    ensures other_stamp { (s : Parts) (j : Journal) → s.turns ≡ None → j.logs ≡ other_stamp
        → ¬ Laid s j }
    ensures too_early { (s : Parts) (j : Journal) → s.turns ≡ None → j.logs ≡ sent_too_early
        → ¬ Laid s j }
    ensures unseen { (s : Parts) (j : Journal) → s.turns ≡ None → j.logs ≡ sent_unseen
        → ¬ Laid s j }
    ensures plain { (s : Parts) (j : Journal) → s.turns ≡ None → j.logs ≡ sealed_though_plain
        → ¬ Laid s j }
    ensures swept { (s : Parts) (j : Journal) → s.turns ≡ None → j.processors ≡ 1 → j.pages ≡ 2 →
        j.logs ≡ sweeps_from_stock → ¬ Laid s j }
{
    worked_journal();
    worked_journal_places();
    worked_polls();
    worked_seals();
    uncalled_law();
}
