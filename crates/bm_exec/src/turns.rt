//! Worked turns of a script, and wrong ones beside them.

ghost use Rattle.std.specs.Prelude.{◌++◌, [], Some};
ghost use Rattle.bm_exec.specs.WorkedTurns.{a_drop, a_drop_then_yield, sweeps_after, yields_above};
ghost use Rattle.bm_exec.specs.Yields.{IsTurn};
ghost use Rattle.bm_exec.specs.declared.running.Stopped.TheVariants as stopped;

/// What turns leave in a log, computed: a drop between whose lines a handler runs, and then a `yield`, is a turn that yields; without the
/// `yield` it is one that ends, also where a line of a higher level says `yield`. Refused: a turn that ends with that `yield`, or that
/// yields without one; one that runs past its `yield`, one that goes on to the next, and one that sweeps.
pub fn worked_turns()
    ensures yielded { IsTurn stopped.Yielded 0 (Some []) (Some a_drop_then_yield) }
    ensures ended { IsTurn stopped.Ended 0 (Some []) (Some a_drop) }
    ensures above { IsTurn stopped.Ended 0 (Some []) (Some yields_above) }
    ensures ended_with_one { ¬ IsTurn stopped.Ended 0 (Some []) (Some a_drop_then_yield) }
    ensures yielded_without_one { ¬ IsTurn stopped.Yielded 0 (Some []) (Some a_drop) }
    ensures past_it { ¬ IsTurn stopped.Yielded 0 (Some []) (Some (a_drop_then_yield ++ a_drop)) }
    ensures two { ¬ IsTurn stopped.Yielded 0 (Some [])
        (Some (a_drop_then_yield ++ a_drop_then_yield)) }
    ensures swept { ¬ IsTurn stopped.Ended 0 (Some []) (Some sweeps_after) }
    ensures no_yield_of_its_own { ¬ IsTurn stopped.Yielded 0 (Some []) (Some yields_above) }
{}
