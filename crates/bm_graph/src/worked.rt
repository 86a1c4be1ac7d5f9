//! Worked histories, replayed, and wrong ones beside them.

ghost use Rattle.std.specs.Prelude.{◌≡◌, ◌++◌, ◌∷◌, [], Some, None};
ghost use Rattle.bm_graph.specs.Objects.{list_object, tree_object};
ghost use Rattle.bm_graph.specs.Replay.{replay};
ghost use Rattle.bm_graph.specs.Worked.{object, node, three_added, all_taken, equal_key_first, first_takes, removed_twice, none_early, three_pushed, all_popped, other_end, pushed_twice, other_life, pop_finds_none, added_to_list};

/// A tree of keys 5, 5 and 3, computed: what is in it after the additions, and that it is empty at the end. Each of the
/// other histories has a reply that isn't right.
pub fn worked_trees()
    ensures added { replay tree_object three_added ≡
        Some (node 1 3 ∷ node 3 5 ∷ node 2 5 ∷ []) }
    ensures taken { replay tree_object (three_added ++ all_taken) ≡ Some [] }
    ensures equal { replay tree_object equal_key_first ≡ None }
    ensures looked { replay tree_object first_takes ≡ None }
    ensures removed { replay tree_object removed_twice ≡ None }
    ensures none { replay tree_object none_early ≡ None }
    ensures pushed { replay tree_object three_pushed ≡ None }
{}

/// A list of three objects, computed: what is in it after the pushes, and that it is empty at the end. Each of the other
/// histories has a reply that isn't right.
pub fn worked_lists()
    ensures pushed { replay list_object three_pushed ≡
        Some (object 3 ∷ object 1 ∷ object 2 ∷ []) }
    ensures popped { replay list_object (three_pushed ++ all_popped) ≡ Some [] }
    ensures end { replay list_object other_end ≡ None }
    ensures twice { replay list_object pushed_twice ≡ None }
    ensures life { replay list_object other_life ≡ None }
    ensures none { replay list_object pop_finds_none ≡ None }
    ensures added { replay list_object added_to_list ≡ None }
{}
