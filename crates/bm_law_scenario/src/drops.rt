//! Worked drops of objects with a count and without one.

ghost use Rattle.std.specs.Prelude.{false, true};
ghost use Rattle.bm_law_scenario.specs.Calls.{RunsDrop, any_batch, batch_in};
ghost use Rattle.bm_law_scenario.specs.Lawful.{LawfulLogs};
ghost use Rattle.bm_law_scenario.specs.WorkedDrops.{DropsAbove, counted_journal, counted_object, counted_types, delays, delays_and_raises, frees_plainly, holding_three, in_batch, no_batch, none_held};
ghost use Rattle.bm_law_scenario.specs.WorkedJournal.{types, x_name};

/// A counted object is freed with delay: where no plain batch of its class is in progress the flag is raised, and where one is it isn't. A
/// plain free isn't its free, nor is one that leaves the flag down, or raises it, where it shouldn't. So it is of a handler too. An object without a count isn't
/// freed with delay, whatever is known of batches. And the journal of a script that makes a counted object, acquires a second reference
/// to it and gives both up is lawful, in which the sweep takes the unit off Delayed.
pub fn worked_drops()
    ensures raised { RunsDrop counted_types x_name (batch_in no_batch) holding_three
        delays_and_raises none_held }
    ensures waiting { RunsDrop counted_types x_name (batch_in in_batch) holding_three delays
        none_held }
    ensures plainly { ¬ RunsDrop counted_types x_name any_batch holding_three frees_plainly
        none_held }
    ensures unraised { ¬ RunsDrop counted_types x_name (batch_in no_batch) holding_three delays
        none_held }
    ensures raised_again { ¬ RunsDrop counted_types x_name (batch_in in_batch) holding_three
        delays_and_raises none_held }
    ensures above_raised { DropsAbove no_batch delays_and_raises }
    ensures above_waiting { DropsAbove in_batch delays }
    ensures above_unraised { ¬ DropsAbove no_batch delays }
    ensures above_raised_again { ¬ DropsAbove in_batch delays_and_raises }
    ensures uncounted { ¬ RunsDrop types x_name any_batch holding_three delays_and_raises
        none_held }
    ensures journal { LawfulLogs counted_object counted_journal }
{}
