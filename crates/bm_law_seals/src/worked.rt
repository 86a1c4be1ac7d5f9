//! Worked orders: a journal that waits in batches, and a unit with two references; and wrong orders beside them.

ghost use Rattle.std.specs.Prelude.{[]};
ghost use Rattle.bm_law_lives.specs.Worked.{both_stages};
ghost use Rattle.bm_law_lives.specs.Lives.{LivesLaw, WholeLives};
ghost use Rattle.bm_law_order.specs.Lives.{LivesFit, first_lives, lives_after};
ghost use Rattle.bm_law_order.specs.Orders.{AllFit};
ghost use Rattle.bm_law_order.specs.Whole.{whole};
ghost use Rattle.bm_law_seals.specs.Batches.{WaitsInBatches};
ghost use Rattle.bm_law_seals.specs.WorkedBatches.{given_after_sweep, interrupted_drop, pushed_though_delayed, sent_unpassed, stamped_by_handler};
ghost use Rattle.bm_law_seals.specs.WorkedReferences.{ended_by_both, freed_by_dropper, freed_while_held, logs_of, two_references};

/// The order of a whole journal, made by hand, in which a unit is freed with delay, goes away as a batch, and is given again with its seal.
/// And orders that aren't so: a handler's entry between a drop and its reply, a delayed free that pushes on Free, a stamp of a handler, a
/// batch that is sent with no pass before it, and a unit that is given after a sweep.
pub fn worked_batches()
    ensures both_stages { WaitsInBatches (whole [] both_stages) }
    ensures interrupted { ¬ WaitsInBatches interrupted_drop }
    ensures pushed { ¬ WaitsInBatches pushed_though_delayed }
    ensures stamped { ¬ WaitsInBatches stamped_by_handler }
    ensures unpassed { ¬ WaitsInBatches sent_unpassed }
    ensures swept { ¬ WaitsInBatches given_after_sweep }
{}

/// A life with two references, the second of which processor 1 drops: the order finds what it needs of lives, and by the law its logs end
/// each life. They don't where the unit is freed behind the reply that one reference is left, since by that no life ends; where both
/// drops are answered `last`; and where the free goes to the processor that dropped last.
pub fn worked_references()
    ensures fits { AllFit lives_after LivesFit two_references first_lives }
    ensures whole { WholeLives (logs_of two_references) }
    ensures held { ¬ WholeLives (logs_of freed_while_held) }
    ensures both { ¬ LivesLaw (logs_of ended_by_both) }
    ensures dropper { ¬ LivesLaw (logs_of freed_by_dropper) }
{}
