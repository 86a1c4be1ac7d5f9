//! A worked journal in which a slot hands an object on, and wrong exchanges.

ghost use Rattle.std.specs.Prelude.{[], None, Some};
ghost use Rattle.bm_law_scenario.specs.Calls.{RunsExchange};
ghost use Rattle.bm_law_scenario.specs.Held.{no_names};
ghost use Rattle.bm_law_scenario.specs.Lawful.{LawfulLogs};
ghost use Rattle.bm_law_scenario.specs.WorkedJournal.{x_name};
ghost use Rattle.bm_law_scenario.specs.WorkedSlots.{desk_id, exchanges, given_away, handed_over, handed_over_journal, holding, kept, o_name, slots, the_object};

/// The logs of two processors are lawful, one of which puts an object that it made into a slot, while the other one takes it out and drops it, so
/// that the unit stands on the other one's free list; and the closing finds the slot empty. No exchange puts an object that its name doesn't
/// hold, puts null where an object is given, leaves the object with the name that gave it, or names a slot that isn't declared.
pub fn worked_slots()
    ensures handed_over { LawfulLogs handed_over handed_over_journal }
    ensures puts { RunsExchange slots o_name desk_id (Some x_name) holding
        (exchanges the_object None None) given_away }
    ensures unheld { ¬ RunsExchange slots o_name desk_id (Some x_name) no_names
        (exchanges the_object None None) given_away }
    ensures null { ¬ RunsExchange slots o_name desk_id (Some x_name) holding
        (exchanges None None None) given_away }
    ensures kept { ¬ RunsExchange slots o_name desk_id (Some x_name) holding
        (exchanges the_object None None) kept }
    ensures undeclared { ¬ RunsExchange [] o_name desk_id (Some x_name) holding
        (exchanges the_object None None) given_away }
{}
