//! Worked turns of two processors, the orders that they make, and a wrong one.

ghost use Rattle.std.specs.Prelude.{◌≡◌, ◌∷◌, [], false, true};
ghost use Rattle.bm_law_order.specs.Whole.{whole};
ghost use Rattle.bm_run.specs.InTurns.{TurnsSoFar};
ghost use Rattle.bm_run.specs.WorkedInTurns.{begins, both, both_logs, ends, enters, highest_first, lowest_first, once_each, one_ends_early, one_ends_first, with_closing};

/// Turns of two processors and the order that they make, computed: where the scenario names processor 1 three times, though it ends
/// with its second turn, so that its third one is passed over; and where it names each once, and then the lowest goes on to its end.
/// With the openings before and the closing after it, that order is the whole order of the logs. Refused: one in which the highest
/// goes on first.
pub fn worked_orders_in_turns()
    ensures early { TurnsSoFar 2 one_ends_early [] both.taken (true ∷ true ∷ []) one_ends_first }
    ensures lowest { TurnsSoFar 2 once_each [] both.taken (true ∷ true ∷ []) lowest_first }
    ensures order { whole one_ends_early both_logs ≡ with_closing one_ends_first }
    ensures highest { ¬ TurnsSoFar 2 once_each []
        ((enters ∷ []) ∷ (begins ∷ ends ∷ []) ∷ []) (false ∷ true ∷ []) highest_first }
{}
