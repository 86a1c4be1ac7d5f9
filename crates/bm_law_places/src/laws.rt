//! The laws of places.

ghost use Rattle.std.specs.Prelude.{◌≡◌, ◌≢◌, ◌<◌, ◌++◌, ℕ, List, [], false};
ghost use Rattle.bm_journal.specs.declared.entry.Entry.{Entry};
ghost use Rattle.bm_law.specs.Lists.{AllName, Leaves, Log, after};
ghost use Rattle.bm_law.specs.Stands.{Once, stands};
ghost use Rattle.bm_law.specs.State.{State, opening};
ghost use Rattle.bm_law_laid.specs.OrderOf.{IsOrderOf};
ghost use Rattle.bm_law_lives.specs.Together.{EachLog};
ghost use Rattle.bm_law_order.specs.Orders.{AllFit, AllShared, IsLaid, Order, by, part_of, shared_over};
ghost use Rattle.bm_law_scenario.specs.Parcels.{ParcelLaw};
ghost use Rattle.bm_page.specs.Stock.{stocked_at};
ghost use Rattle.bm_law_places.specs.World.{AllFound, Finds, SweepsInbox, World, outset, world_after, world_over};
ghost use Rattle.bm_law_places.specs.Place.{Place, times_at};
ghost use Rattle.bm_law_places.specs.Placed.{AllPlaced, InOnePlace, IsEmptied, IsOf, IsOnlyWith, IsPlaced, IsWellPlaced, IsWith, LeavesAlone};

/// Each unit is in exactly one place: at the outset, and after each entry that finds what it needs if it was so before. So it is
/// along an order of which each entry does, wherever one stops.
pub fn places_law()
    ensures outset { (processors pages : ℕ) → IsWellPlaced (outset processors pages) }
    ensures entry { (p l : ℕ) (e : Entry) (w : World) →
        IsWellPlaced w → Finds p l e w → IsWellPlaced (world_after p l e w) }
    ensures along { (o : Order) (w : World) → IsWellPlaced w → AllFound o w
        → IsWellPlaced (world_over o w) }
    ensures all { (processors pages : ℕ) (o : Order) →
        AllFound o (outset processors pages) → IsPlaced processors pages o }
{}

/// An order finds what it needs where each entry finds it of what is shared, each processor's own entries name what is in its lists
/// and hands, and its sweeps take from outside what waits in its inboxes. So a stretch of one processor's log does, and one order after
/// the other. The lists of a processor are those that its own entries leave. The log of the one processor that there is finds what it
/// needs where it is laid, leaves lists, and fits the law of parcels.
pub fn found_law()
    ensures parts { (o : Order) (w : World) → AllShared o w.shared →
        ((p : ℕ) → AllName (w.lists p) (part_of p o)) → AllFit world_after SweepsInbox o w →
        AllFound o w }
    ensures stretch { (p : ℕ) (log : Log) (w : World) → AllShared (by p log) w.shared →
        AllName (w.lists p) log → AllFit world_after SweepsInbox (by p log) w →
        AllFound (by p log) w }
    ensures join { (a b : Order) (w : World) →
        AllFound a w → AllFound b (world_over a w) → AllFound (a ++ b) w }
    ensures shared { (o : Order) (w : World) → (world_over o w).shared ≡ shared_over o w.shared }
    ensures lists { (p : ℕ) (o : Order) (w : World) →
        (world_over o w).lists p ≡ after (w.lists p) (part_of p o) }
    ensures one { (pages : ℕ) (log : Log) (last : State ℕ) →
        IsLaid 1 pages (by 0 log) → Leaves 0 log last → ParcelLaw 0 log →
        AllFound (by 0 log) (outset 1 pages) }
{}

/// In an order of logs each unit is in exactly one place where the order is laid, each log names what is in the lists and hands of its
/// processor, and sweeps take what waits in the inboxes; the law of parcels says so of the log of the one processor that there is.
pub fn logs_law()
    ensures logs { (processors pages : ℕ) (logs : List Log) (o : Order) →
        IsOrderOf logs o → IsLaid processors pages o →
        EachLog (λ p log. AllName (opening p) log) logs →
        AllFit world_after SweepsInbox o (outset processors pages) → IsPlaced processors pages o }
    ensures one { (pages : ℕ) (log : Log) (last : State ℕ) →
        IsLaid 1 pages (by 0 log) → Leaves 0 log last → ParcelLaw 0 log
        → IsPlaced 1 pages (by 0 log) }
{}

/// A unit that is in a list or hand of one processor is there once, and is in none of another, in no inbox, out of the stock, and neither
/// lives nor has just ended; one that is in any other place stands in no list or hand of the processor. Entries of other processors leave a
/// processor's lists and hands as they were, and what is known of the units in them. Where no list, hand or inbox has a unit and nothing
/// lives or is dropped, each unit is in the stock.
pub fn apart_law()
    ensures only { (p u : ℕ) (w : World) → InOnePlace u w → IsWith p u w → IsOnlyWith p u w }
    ensures once { (p : ℕ) (w : World) → AllPlaced w → Once (w.lists p) }
    ensures elsewhere { (p u : ℕ) (a : Place) (w : World) →
        InOnePlace u w → 0 < times_at u a w → (IsOf p a → ⊥) → stands u (w.lists p) ≡ 0 }
    ensures others { (q : ℕ) (o : Order) (w : World) →
        part_of q o ≡ [] → IsWellPlaced w → AllFound o w → LeavesAlone q w (world_over o w) }
    ensures stretch { (p q : ℕ) (log : Log) → q ≢ p → part_of q (by p log) ≡ [] }
    ensures ended { (u : ℕ) (w : World) →
        IsEmptied w → InOnePlace u w → (stocked_at w.shared.pool.units u).out ≡ false }
{}
