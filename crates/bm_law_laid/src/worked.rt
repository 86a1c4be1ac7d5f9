//! Worked examples of orders, and wrong ones beside them.

ghost use Rattle.std.specs.Prelude.{◌≡◌, ◌∷◌, []};
ghost use Rattle.bm_law_order.specs.Orders.{IsLaid};
ghost use Rattle.bm_law_order.specs.Whole.{whole};
ghost use Rattle.bm_law_laid.specs.WorkedOrders.{closes, early_stamp, given_twice, greater_first, left_behind, other_driver, other_home, other_unit, other_word, returned_twice, right_logs, right_order, taken_page, too_early, too_few, two_sent};

/// Orders of two processors with three pages, computed. Laid are one with a period that waits for a section, which is the
/// order of its two logs by turns, and one in which the older one of two parcels is received. Each of the others is wrong
/// in its last entry alone.
pub fn worked_orders()
    ensures laid { IsLaid 2 3 right_order }
    ensures turns { whole (1 ∷ 0 ∷ 1 ∷ 0 ∷ []) right_logs ≡ right_order }
    ensures older { IsLaid 2 3 (two_sent 0) }
    ensures early { ¬ IsLaid 2 3 too_early }
    ensures driver { ¬ IsLaid 2 3 other_driver }
    ensures stamp { ¬ IsLaid 2 3 early_stamp }
    ensures word { ¬ IsLaid 2 3 other_word }
    ensures unit { ¬ IsLaid 2 3 other_unit }
    ensures page { ¬ IsLaid 2 3 taken_page }
    ensures greater { ¬ IsLaid 2 3 greater_first }
    ensures few { ¬ IsLaid 2 3 too_few }
    ensures returned { ¬ IsLaid 2 3 returned_twice }
    ensures given { ¬ IsLaid 2 3 given_twice }
    ensures home { ¬ IsLaid 2 3 other_home }
    ensures newer { ¬ IsLaid 2 3 (two_sent 256) }
    ensures left { ¬ IsLaid 2 3 left_behind }
{}

/// Orders in which processor 0 of two closes, computed. Laid is the one whose numbers fit each other; the others have one wrong
/// number each: a stamp of a later period, a period that begins or ends with another number, and one that isn't over where the
/// number is seen.
pub fn worked_closings()
    ensures laid { IsLaid 2 3 (closes 2 1 2 2) }
    ensures stamp { ¬ IsLaid 2 3 (closes 4 1 2 2) }
    ensures begun { ¬ IsLaid 2 3 (closes 2 3 2 2) }
    ensures ended { ¬ IsLaid 2 3 (closes 2 1 4 2) }
    ensures seen { ¬ IsLaid 2 3 (closes 2 1 2 1) }
{}
