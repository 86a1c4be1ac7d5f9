//! Worked orders for polls and for seals, and wrong ones beside them.

ghost use Rattle.std.specs.Prelude.{[]};
ghost use Rattle.bm_law_order.specs.Orders.{IsLaid};
ghost use Rattle.bm_law_order.specs.Polls.{IsPolled};
ghost use Rattle.bm_law_order.specs.Seals.{IsSealed};
ghost use Rattle.bm_law_order.specs.Whole.{whole};
ghost use Rattle.bm_law_lives.specs.Worked.{both_stages, interrupted};
ghost use Rattle.bm_law_lives.specs.Wrong.{no_seal, other_stamp, sealed_though_plain, sent_too_early, sent_unseen};
ghost use Rattle.bm_law_laid.specs.WorkedOrders.{right_order};
ghost use Rattle.bm_journal.specs.declared.entry.Entry.TheVariants as entry;
ghost use Rattle.bm_law_laid.specs.WorkedSeals.{sent_beside};
ghost use Rattle.bm_law_laid.specs.WorkedPolls.{at_once, begins_from_stamp, never_ends, no_stamp, only_looks};

/// Polls that have rested at each pass: of a journal with both stages, of a period that begins and ends at once, and of one
/// that waits for a section. Refused: a poll that only looks at a number that is even and below the stamp; one that begins
/// a period and leaves it in progress though all words pass; one that begins a period from the number that is the stamp;
/// and one whose batch has no stamp.
pub fn worked_polls()
    ensures both_stages { IsPolled 1 1 (whole [] both_stages) }
    ensures at_once { IsPolled 1 1 at_once }
    ensures waits { IsPolled 2 3 right_order }
    ensures only_looks { ¬ IsPolled 1 1 only_looks }
    ensures never_ends { ¬ IsPolled 1 1 never_ends }
    ensures from_stamp { ¬ IsPolled 1 1 begins_from_stamp }
    ensures no_stamp { ¬ IsPolled 1 1 no_stamp }
{}

/// Units that are given with what they waited for: in a journal with both stages, and in one in which a handler stands between
/// the pass and the parcel; and of a parcel with a unit of the batch and another one, the former with the batch's seal and the latter
/// without. Refused: no seal after a delayed free; another stamp than the batch's; a batch that is sent before its stamp was
/// reached, or without a pass; a seal after a plain free; no seal of the batch's unit in such a parcel, and its seal for the other.
pub fn worked_seals()
    ensures both_stages { IsSealed (whole [] both_stages) }
    ensures interrupted { IsSealed (whole [] interrupted) }
    ensures batched { IsSealed (sent_beside (entry.GivenAfter 1 2 2 2)) }
    ensures beside { IsSealed (sent_beside (entry.Given 2 1)) }
    ensures batched_bare { ¬ IsSealed (sent_beside (entry.Given 1 2)) }
    ensures beside_sealed { ¬ IsSealed (sent_beside (entry.GivenAfter 2 1 2 2)) }
    ensures no_seal { ¬ IsSealed (whole [] no_seal) }
    ensures other_stamp { ¬ IsSealed (whole [] other_stamp) }
    ensures too_early { ¬ IsSealed (whole [] sent_too_early) }
    ensures unseen { ¬ IsSealed (whole [] sent_unseen) }
    ensures plain { ¬ IsSealed (whole [] sealed_though_plain) }
{}

/// A whole journal of one processor, made by hand, in which a unit goes through both stages, is given again with its seal and is
/// swept at last: its order is laid.
pub fn worked_journal()
    ensures { IsLaid 1 1 (whole [] both_stages) }
{}
