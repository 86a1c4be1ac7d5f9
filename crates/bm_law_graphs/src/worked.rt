//! Worked orders and logs, and wrong ones beside them.

ghost use Rattle.std.specs.Prelude.{◌≡◌, ◌++◌};
ghost use Rattle.bm_graph.specs.Worked.{all_taken, three_added};
ghost use Rattle.bm_law_laid.specs.OrderOf.{IsOrderOf};
ghost use Rattle.bm_law_graphs.specs.History.{GraphHistory};
ghost use Rattle.bm_law_graphs.specs.Keys.{KeysLaw};
ghost use Rattle.bm_law_graphs.specs.Locks.{LocksLaw};
ghost use Rattle.bm_law_graphs.specs.Refusals.{RefusalLaw};
ghost use Rattle.bm_law_graphs.specs.Shelves.{IsShelved};
ghost use Rattle.bm_law_graphs.specs.Takes.{TakesLaw};
ghost use Rattle.bm_law_graphs.specs.Worked.{added_again, both_ends, both_histories, called_as_tree, history_of, history_of_both_ends, history_of_q, history_of_r, least_taken, list_order, logs_of, one_tree, pushed_onto_r, q, r, refused_addition, t, tree_order, two_lists};
ghost use Rattle.bm_law_graphs.specs.Wrong.{added_to_list, added_unmade, call_between, call_left_out, call_twice, closed_by_other, closing_elsewhere, closing_locked, equal_key_first, exchanged_calls, in_a_handler, in_q_already, locked_twice, names_place, none_early, nothing_pushed, other_end, other_key, other_life, other_lock, other_tag, own_list_named, popped_early, position_twice, pushed_twice, refused_early, removed_twice, second_found, slot_named, unknown_name, unlocked_by_other, without_lock};

/// Orders whose entries find the lists and trees that they name, and the histories that they make: a tree of keys 5, 5 and 3;
/// an object that one processor pushes onto a list, so that another one's push onto a second list is refused; a list of which
/// both ends are used; beside two of the wrong orders below what is right in their place; and an addition that is refused.
pub fn worked_orders()
    ensures tree { IsShelved one_tree tree_order }
    ensures lists { IsShelved two_lists list_order }
    ensures ends { IsShelved two_lists both_ends }
    ensures least { IsShelved one_tree least_taken }
    ensures as_tree { IsShelved two_lists called_as_tree }
    ensures history { history_of one_tree t tree_order ≡ three_added ++ all_taken }
    ensures q { history_of two_lists q list_order ≡ history_of_q }
    ensures again { IsShelved one_tree added_again }
    ensures refused { history_of one_tree t added_again ≡ three_added ++ refused_addition }
    ensures both { history_of two_lists r both_ends ≡ history_of_both_ends }
    ensures r { history_of two_lists r list_order ≡ history_of_r }
{}

/// Orders that don't: a position that stood already; a look at the second node, and at the later one of two equal keys; a node
/// removed twice; a call without the lock, under another processor's, or in a handler; calls without a lock after the `close` of
/// another processor, by another one, and while another one holds it; a lock taken twice, and given back by another one; an
/// addition of what wasn't made; a pop from the other end, and of none where something is; a list that is a tree too; a second
/// push that is done; refused pushes that name their own list, a slot, or another life, or of what is in no list; and no map's
/// name.
pub fn wrong_orders()
    ensures position { ¬ IsShelved one_tree position_twice }
    ensures second { ¬ IsShelved one_tree second_found }
    ensures equal { ¬ IsShelved one_tree equal_key_first }
    ensures removed { ¬ IsShelved one_tree removed_twice }
    ensures lock { ¬ IsShelved one_tree without_lock }
    ensures holder { ¬ IsShelved one_tree other_lock }
    ensures handler { ¬ IsShelved one_tree in_a_handler }
    ensures closed { ¬ IsShelved two_lists closed_by_other }
    ensures closing { ¬ IsShelved two_lists closing_elsewhere }
    ensures closing_lock { ¬ IsShelved two_lists closing_locked }
    ensures locked { ¬ IsShelved one_tree locked_twice }
    ensures unlocked { ¬ IsShelved one_tree unlocked_by_other }
    ensures unmade { ¬ IsShelved one_tree added_unmade }
    ensures end { ¬ IsShelved two_lists other_end }
    ensures none { ¬ IsShelved two_lists none_early }
    ensures kind { ¬ IsShelved two_lists added_to_list }
    ensures twice { ¬ IsShelved two_lists pushed_twice }
    ensures own { ¬ IsShelved two_lists own_list_named }
    ensures slot { ¬ IsShelved two_lists slot_named }
    ensures life { ¬ IsShelved two_lists other_life }
    ensures early { ¬ IsShelved two_lists refused_early }
    ensures unknown { ¬ IsShelved two_lists unknown_name }
{}

/// The histories and the logs of the first two keep the laws.
pub fn worked_laws()
    ensures logs { IsOrderOf (logs_of list_order) list_order }
    ensures q { GraphHistory two_lists q history_of_q (logs_of list_order) }
    ensures r { GraphHistory two_lists r history_of_r (logs_of list_order) }
    ensures refusals { RefusalLaw two_lists (both_histories history_of_q history_of_r) }
    ensures locks { LocksLaw (logs_of list_order) }
    ensures takes { TakesLaw (logs_of list_order) }
    ensures tree { GraphHistory one_tree t (three_added ++ all_taken) (logs_of tree_order) }
    ensures keys { KeysLaw (three_added ++ all_taken) (logs_of tree_order) }
{}

/// Histories that don't: of which a call is left out, stands twice, has another tag or another place, or has a reply that isn't
/// right; refused pushes that name their own list, a slot, a list onto which nothing was pushed, or another list than the one
/// in which the object is; another key; a call between two under one lock; and an object that is pushed and never taken.
pub fn wrong_laws()
    ensures left_out { ¬ GraphHistory two_lists q call_left_out (logs_of list_order) }
    ensures twice { ¬ GraphHistory two_lists q call_twice (logs_of list_order) }
    ensures tag { ¬ GraphHistory two_lists q other_tag (logs_of list_order) }
    ensures order { ¬ GraphHistory two_lists q exchanged_calls (logs_of list_order) }
    ensures reply { ¬ GraphHistory two_lists r popped_early (logs_of list_order) }
    ensures own { ¬ RefusalLaw two_lists (names_place 1) }
    ensures slot { ¬ RefusalLaw two_lists (names_place 0) }
    ensures nothing { ¬ RefusalLaw two_lists nothing_pushed }
    ensures other { ¬ RefusalLaw two_lists in_q_already }
    ensures key { ¬ KeysLaw other_key (logs_of tree_order) }
    ensures between { ¬ LocksLaw (logs_of call_between) }
    ensures never { ¬ TakesLaw (logs_of pushed_onto_r) }
{}
