//! Worked orders in which each unit is in one place, and wrong ones beside them.

ghost use Rattle.std.specs.Prelude.{◌++◌, [], ℕ};
ghost use Rattle.bm_law.specs.Lists.{AllName};
ghost use Rattle.bm_law.specs.State.{opening};
ghost use Rattle.bm_law_lives.specs.Worked.{both_stages};
ghost use Rattle.bm_law_order.specs.Orders.{IsLaid, part_of};
ghost use Rattle.bm_law_order.specs.Whole.{whole};
ghost use Rattle.bm_law_places.specs.Placed.{IsPlaced};
ghost use Rattle.bm_law_places.specs.WorkedPlaces.{GoesThrough, all_of, borrowed, fetched_from_other, filled_twice, given_in_stock, lost_at_fill, pushed_twice, received_unsent, returned_though_kept, sent_home, sent_though_kept, sweeps_from_stock, swept_from_stock, swept_home};
ghost use Rattle.bm_law_places.specs.World.{outset};

use bm_law_laid::worked_journal;

/// Orders of two processors with three pages, computed. A unit goes from a list of processor 1 over its hand, a life, a drop and the
/// hand of processor 0 to a list there, and then home: over an inbox to the lists of processor 1 and the stock, or, where processor 1
/// closes first, by the sweep. In each of the wrong orders a unit is in two places at last, and in `lost` in none. Each entry of `swept`
/// fits what is shared, and names what is in the lists.
pub fn worked_places()
    ensures through { GoesThrough 256 (borrowed ++ sent_home) (outset 2 3) }
    ensures placed { IsPlaced 2 3 (all_of (borrowed ++ sent_home)) }
    ensures through_sweep { GoesThrough 256 (borrowed ++ swept_home) (outset 2 3) }
    ensures placed_sweep { IsPlaced 2 3 (all_of (borrowed ++ swept_home)) }
    ensures filled { ¬ IsPlaced 2 3 filled_twice }
    ensures lost { ¬ IsPlaced 2 3 lost_at_fill }
    ensures pushed { ¬ IsPlaced 2 3 pushed_twice }
    ensures fetched { ¬ IsPlaced 2 3 fetched_from_other }
    ensures received { ¬ IsPlaced 2 3 received_unsent }
    ensures sent { ¬ IsPlaced 2 3 sent_though_kept }
    ensures given { ¬ IsPlaced 2 3 given_in_stock }
    ensures returned { ¬ IsPlaced 2 3 returned_though_kept }
    ensures swept { ¬ IsPlaced 2 3 swept_from_stock }
    ensures swept_laid { IsLaid 2 3 swept_from_stock }
    ensures swept_named { (p : ℕ) → AllName (opening p) (part_of p swept_from_stock) }
{}

/// The order of a whole journal of one processor, made by hand, in which a unit goes through both stages, is given again and is swept
/// at last; and one whose closing sweeps a unit that is in the stock.
pub fn worked_journal_places()
    ensures both_stages { IsPlaced 1 1 (whole [] both_stages) }
    ensures swept { ¬ IsPlaced 1 2 (whole [] sweeps_from_stock) }
{
    worked_journal();
}
