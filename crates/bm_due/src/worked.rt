//! Worked values of what is due, and worked logs.

ghost use Rattle.std.specs.Prelude.{◌≡◌, ◌∷◌, [], Some, None, true, false, codes};
ghost use Rattle.bm_lang.specs.declared.scenario.Block.{Block};
ghost use Rattle.bm_law.specs.Worked.{made_and_dropped, nested_busy, nested_frees};
ghost use Rattle.bm_due.specs.Due.{due_handler, left_after, planned_for};
ghost use Rattle.bm_due.specs.Standing.{HandlersStand, handlers_stand};
ghost use Rattle.bm_due.specs.Worked.{at_step, four_planned, interrupted, script_names, between, twelve_steps, three_levels, three_in_turn, four_at_once, read_anew, held_back, before_a_call, lowest_first, last_first, own_level, twice, read_once, after_the_end, another_script, never_back, back_as_another, amid};

/// Which handler is due, computed: the highest level first, and of one level the first in the text; one whose step has
/// passed, and one that is planned for step 0; none at a step before, at its own level, above level 3, where none is left,
/// and once the processor has ended.
pub fn worked_due()
    ensures highest { due_handler false 4 0 four_planned ≡ Some (at_step 4 3 3) }
    ensures first { due_handler false 3 0 four_planned ≡ Some (at_step 3 2 2) }
    ensures used_up { left_after false 3 0 four_planned
        ≡ at_step 3 1 1 ∷ at_step 4 3 3 ∷ at_step 3 2 4 ∷ [] }
    ensures second { due_handler false 3 0 (left_after false 3 0 four_planned)
        ≡ Some (at_step 3 2 4) }
    ensures last { due_handler false 3 0 (at_step 3 1 1 ∷ at_step 4 3 3 ∷ [])
        ≡ Some (at_step 3 1 1) }
    ensures above { due_handler false 3 1 four_planned ≡ Some (at_step 3 2 2) }
    ensures passed { due_handler false 9 2 four_planned ≡ Some (at_step 4 3 3) }
    ensures at_once { due_handler false 1 0 (at_step 0 1 1 ∷ []) ≡ Some (at_step 0 1 1) }
    ensures before { due_handler false 2 0 four_planned ≡ None }
    ensures own_level { due_handler false 3 2 four_planned ≡ None }
    ensures top { due_handler false 9 3 four_planned ≡ None }
    ensures kept { left_after false 9 3 four_planned ≡ four_planned }
    ensures none_left { due_handler false 9 0 [] ≡ None }
    ensures ended { due_handler true 9 0 four_planned ≡ None }
    ensures end_kept { left_after true 9 0 four_planned ≡ four_planned }
{}

/// Logs whose handlers stand where they are due, computed: one between the take of a unit and its count; one that takes
/// nine steps; three, each at the second step of the one below; three frees, each within the one
/// below; four before one step; one that is due because the one before it took steps; one that isn't reached.
pub fn worked_standing()
    ensures between { handlers_stand script_names (at_step 3 1 1 ∷ []) between ≡ true }
    ensures busy { handlers_stand script_names (at_step 3 1 1 ∷ []) nested_busy ≡ true }
    ensures twelve { handlers_stand script_names (at_step 3 1 1 ∷ []) twelve_steps ≡ true }
    ensures in_turn { handlers_stand script_names
        (at_step 3 1 1 ∷ at_step 4 2 2 ∷ at_step 5 3 3 ∷ []) three_in_turn
        ≡ true }
    ensures three_frees { handlers_stand (codes "main" ∷ codes "h1" ∷ codes "h2" ∷ [])
        (at_step 13 1 1 ∷ at_step 15 2 2 ∷ []) nested_frees
        ≡ true }
    ensures four { handlers_stand script_names
        (at_step 3 1 1 ∷ at_step 3 2 2 ∷ at_step 3 3 3 ∷ at_step 3 2 4 ∷ []) four_at_once
        ≡ true }
    ensures anew { handlers_stand script_names (at_step 3 1 1 ∷ at_step 5 1 2 ∷ []) read_anew
        ≡ true }
    ensures not_reached { handlers_stand script_names (at_step 10 1 1 ∷ []) made_and_dropped
        ≡ true }
{}

/// The handlers that a scenario plans for each of its two processors, and the same log on both.
pub fn worked_plans()
    ensures first { (body : Block) → planned_for 0 (interrupted body) ≡ at_step 3 1 1 ∷ [] }
    ensures second { (body : Block)
        → planned_for 1 (interrupted body) ≡ record (at_step 1 2 1) { processor = 1 } ∷ [] }
    ensures stands { (body : Block) → HandlersStand (interrupted body) 0 between }
    ensures another { (body : Block) → ¬ HandlersStand (interrupted body) 1 between }
{}

/// Logs whose handlers don't.
pub fn wrong_standing()
    ensures held_back { handlers_stand script_names (at_step 3 1 1 ∷ []) held_back ≡ false }
    ensures not_run { handlers_stand script_names (at_step 3 1 1 ∷ at_step 3 1 2 ∷ []) between
        ≡ false }
    ensures early { handlers_stand script_names (at_step 4 1 1 ∷ []) between ≡ false }
    ensures before_a_call { handlers_stand script_names (at_step 1 1 1 ∷ []) before_a_call ≡ false }
    ensures lowest { handlers_stand script_names (at_step 3 1 1 ∷ at_step 3 2 2 ∷ []) lowest_first
        ≡ false }
    ensures last { handlers_stand script_names (at_step 3 2 2 ∷ at_step 3 2 4 ∷ []) last_first
        ≡ false }
    ensures nested { handlers_stand script_names
        (at_step 3 1 1 ∷ at_step 3 2 2 ∷ at_step 3 3 3 ∷ []) three_levels
        ≡ false }
    ensures own_level { handlers_stand script_names (at_step 3 1 1 ∷ at_step 4 1 2 ∷ []) own_level
        ≡ false }
    ensures twice { handlers_stand script_names (at_step 3 1 1 ∷ []) twice ≡ false }
    ensures once { handlers_stand script_names (at_step 3 1 1 ∷ at_step 5 1 2 ∷ []) read_once
        ≡ false }
    ensures ended { handlers_stand script_names (at_step 6 1 1 ∷ []) after_the_end ≡ false }
    ensures another { handlers_stand script_names (at_step 3 1 1 ∷ []) another_script ≡ false }
    ensures never_back { handlers_stand script_names (at_step 3 1 1 ∷ []) never_back ≡ false }
    ensures as_another { handlers_stand script_names (at_step 3 1 1 ∷ []) back_as_another ≡ false }
    ensures amid { handlers_stand script_names (at_step 3 1 1 ∷ []) amid ≡ false }
{}
