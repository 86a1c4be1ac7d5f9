//! Worked orders and logs, and wrong ones beside them.

ghost use Rattle.bm_journal.specs.declared.entry.Entry.TheVariants as entry;
ghost use Rattle.bm_law_order.specs.Lives.{LivesFit, first_lives, lives_after};
ghost use Rattle.bm_law_order.specs.Orders.{AllFit};
ghost use Rattle.bm_law_order.specs.Slots.{empty_slot};
ghost use Rattle.bm_law_laid.specs.OrderOf.{IsOrderOf};
ghost use Rattle.bm_law_objects.specs.Objects.{IsOwned};
ghost use Rattle.bm_law_objects.specs.SlotChain.{SlotChain};
ghost use Rattle.bm_law_objects.specs.ReferenceLaw.{ReferenceLaw};
ghost use Rattle.bm_law_objects.specs.ReadsLaw.{ReadsLaw};
ghost use Rattle.bm_law_objects.specs.Worked.{asked_within, five_exchanges, logs_of, one_slot, right_order, two_slots};
ghost use Rattle.bm_law_objects.specs.WorkedActs.{LeadNowhere, Leave, emptied, four_exchanges, other_named, other_slot, other_taken};
ghost use Rattle.bm_law_objects.specs.Wrong.{given_after, given_elsewhere, lost_exchange, other_count, other_field, other_object, put_old_life, put_too_late, read_too_late, still_twice, two_first, unknown_tag};

/// Orders whose entries find the objects, slots and lives that they name: of two processors, on one of which a handler stands,
/// that hand two objects on through one slot; of one that exchanges a slot's content five times; of one with two
/// slots, which handlers of two levels empty; and of one on which a handler asks for an object while the script waits for its own.
pub fn worked_orders()
    ensures handed_on { IsOwned right_order }
    ensures handed_on_lives { AllFit lives_after LivesFit right_order first_lives }
    ensures five { IsOwned five_exchanges }
    ensures five_lives { AllFit lives_after LivesFit five_exchanges first_lives }
    ensures slots { IsOwned two_slots }
    ensures within { IsOwned (asked_within 1) }
    ensures slots_lives { AllFit lives_after LivesFit two_slots first_lives }
{}

/// The logs of the first of them keep the three laws, and those of the last one that of reads.
pub fn worked_laws()
    ensures logs { IsOrderOf (logs_of right_order) right_order }
    ensures chain { SlotChain one_slot (logs_of right_order) }
    ensures counts { ReferenceLaw (logs_of right_order) }
    ensures reads { ReadsLaw (logs_of right_order) }
    ensures within { ReadsLaw (logs_of (asked_within 1)) }
{}

/// As acts, the four exchanges of the first of them lead from empty slots to an empty one that the last exchange left, and leave a
/// slot that they don't name as it was.
pub fn worked_acts()
    ensures named { Leave four_exchanges one_slot emptied }
    ensures other { Leave four_exchanges other_slot empty_slot }
{}

/// Acts that lead nowhere: one that takes what isn't in the slot, and one that names a call which didn't put it.
pub fn wrong_acts()
    ensures object { LeadNowhere other_taken }
    ensures call { LeadNowhere other_named }
{}

/// Orders that don't: two first exchanges; two that take what one put; one that names a tag which no log has; one that takes
/// what another had put; a value of another field, and of the handler's object; a read of a life that has ended; such a life
/// put into a slot, where its unit has none and where it has another one; a unit given at another level than asked for one, and
/// after another reply; and an acquire that sees a reference too many, and a drop too many.
pub fn wrong_orders()
    ensures two_first { ¬ IsOwned two_first }
    ensures lost { ¬ IsOwned lost_exchange }
    ensures unknown { ¬ IsOwned unknown_tag }
    ensures object { ¬ IsOwned other_object }
    ensures field { ¬ IsOwned other_field }
    ensures within { ¬ IsOwned (asked_within 2) }
    ensures too_late { ¬ IsOwned read_too_late }
    ensures put { ¬ IsOwned put_too_late }
    ensures old { ¬ IsOwned put_old_life }
    ensures elsewhere { ¬ IsOwned given_elsewhere }
    ensures empty { ¬ IsOwned (given_after entry.Empty) }
    ensures busy { ¬ IsOwned (given_after (entry.Busy 2)) }
    ensures twice { ¬ IsOwned (given_after (entry.Given 2 1)) }
    ensures count { ¬ AllFit lives_after LivesFit other_count first_lives }
    ensures still { ¬ AllFit lives_after LivesFit still_twice first_lives }
{}

/// The logs of those of which the laws speak break them.
pub fn wrong_laws()
    ensures two_first { ¬ SlotChain one_slot (logs_of two_first) }
    ensures lost { ¬ SlotChain one_slot (logs_of lost_exchange) }
    ensures unknown { ¬ SlotChain one_slot (logs_of unknown_tag) }
    ensures object { ¬ SlotChain one_slot (logs_of other_object) }
    ensures field { ¬ ReadsLaw (logs_of other_field) }
    ensures within { ¬ ReadsLaw (logs_of (asked_within 2)) }
    ensures count { ¬ ReferenceLaw (logs_of other_count) }
    ensures still { ¬ ReferenceLaw (logs_of still_twice) }
{}
