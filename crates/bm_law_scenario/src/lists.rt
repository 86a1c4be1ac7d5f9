//! Worked blocks with a list and a tree, and wrong calls.

ghost use Rattle.std.specs.Prelude.{[], ◌++◌, codes, ℕ, List};
ghost use Rattle.bm_graph.specs.declared.ways.End.TheVariants.{Front as from_front};
ghost use Rattle.bm_graph.specs.declared.ways.Way.TheVariants.{Back as to_back};
ghost use Rattle.bm_law_scenario.specs.Calls.{RunsFirst, RunsGet, RunsLock, RunsPop, RunsPush, RunsRefused, RunsRemove, RunsUnlock, any_batch};
ghost use Rattle.bm_law_scenario.specs.Held.{OwnsNothing, no_names};
ghost use Rattle.bm_law_scenario.specs.Lawful.{LawfulLogs};
ghost use Rattle.bm_law_scenario.specs.WorkedDrops.{a_field, y_name};
ghost use Rattle.bm_law_scenario.specs.WorkedJournal.{x_name};
ghost use Rattle.bm_law_scenario.specs.WorkedLists.{Empties, LeavesFrom, added, done, empties_list, empties_tree, f_name, finds, found, found_none, graphs, grow_entries, grows, holding_job, holding_leaf, holding_shared, leaf_done, left, lock_of, locks, popped, popped_none, popped_soft, pops, pushed, pushes, q_id, q_map, queue_entries, queues, r_id, reads_a, refused, refused_and_dropped, removed, removed_none, removes, s_id, shared_spent, t_id, t_map, takes_job, takes_leaf, unlock_of, unlocks, within, work};
ghost use Rattle.bm_law_scenario.specs.WorkedVisit.{visited, visited_journal};

/// A script makes an object, pushes it to a list under the list's lock, reads it by its non-owning name, pops it and drops it; deferred work
/// stands behind each statement that leaves no lock held, and behind no other. Another block adds an object to a tree, finds it there, removes
/// it and drops it. In the end no name owns anything. What is null is removed without a call. A refused push gives up the reference, and the object
/// stays. The closing takes what is in a list or in a tree and drops it, until nothing is found.
pub fn worked_lists()
    ensures queues { LeavesFrom graphs queues no_names queue_entries done }
    ensures queued { (x : List ℕ) → OwnsNothing (done x) }
    ensures grows { LeavesFrom graphs grows holding_leaf grow_entries leaf_done }
    ensures grown { (x : List ℕ) → OwnsNothing (leaf_done x) }
    ensures null { RunsRemove (within t_id) t_id y_name f_name found_none [] removed_none }
    ensures refused { RunsRefused (within r_id) to_back r_id x_name any_batch holding_shared
        refused_and_dropped shared_spent }
    ensures list { Empties q_map empties_list }
    ensures tree { Empties t_map empties_tree }
{}

/// No call on a list or tree stands without its lock, nor under another one, and no second lock is taken; a slot has none. No work stands where a
/// lock is held, and none is missing behind `unlock`. A push leaves no owning reference, and a pop leaves what it took with its name alone;
/// non-owning references end with a pop and with `unlock`, and nothing is read through them then. A call never removes null. A refused push isn't
/// without its drop. And the closing leaves nothing in a list or tree.
pub fn wrong_lists()
    ensures unlocked_push { ¬ RunsPush graphs to_back q_id x_name holding_job pushes pushed }
    ensures unlocked_pop { ¬ RunsPop graphs from_front q_id y_name pushed pops popped }
    ensures unlocked_first { ¬ RunsFirst graphs t_id f_name added finds found }
    ensures unlocked_remove { ¬ RunsRemove graphs t_id y_name f_name found removes removed }
    ensures other_lock { ¬ RunsPush (within r_id) to_back q_id x_name holding_job pushes pushed }
    ensures second_lock { ¬ RunsLock (within q_id) t_id no_names (lock_of (codes "t")) no_names }
    ensures slot_lock { ¬ RunsLock graphs s_id no_names (lock_of (codes "s")) no_names }
    ensures work_under { ¬ LeavesFrom graphs locks no_names (lock_of (codes "q") ++ work) no_names }
    ensures no_work { ¬ LeavesFrom (within q_id) unlocks no_names (unlock_of (codes "q")) no_names }
    ensures kept { ¬ RunsPush (within q_id) to_back q_id x_name holding_job pushes holding_job }
    ensures taken_none { ¬ RunsPop (within q_id) from_front q_id y_name pushed pops popped_none }
    ensures soft_popped { ¬ RunsPop (within q_id) from_front q_id y_name pushed pops popped_soft }
    ensures soft_unlocked { ¬ RunsUnlock (within q_id) pushed (unlock_of (codes "q")) pushed }
    ensures soft_read { ¬ RunsGet graphs.types x_name a_field left reads_a left }
    ensures null_call { ¬ RunsRemove (within t_id) t_id y_name f_name found_none removes
        removed_none }
    ensures undropped { ¬ RunsRefused (within r_id) to_back r_id x_name any_batch holding_shared
        refused shared_spent }
    ensures list_left { ¬ Empties q_map takes_job }
    ensures tree_left { ¬ Empties t_map takes_leaf }
{}

/// Lawful is the journal of a script that makes an object and puts it into a list under its lock, in which the closing takes it from there and
/// drops it, and finds nothing in another list, a tree and a slot. It has a history for each list and tree.
pub fn worked_visit()
    ensures visited { LawfulLogs visited visited_journal }
{}
