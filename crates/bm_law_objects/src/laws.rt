//! The laws, over an order and over its logs.

ghost use Rattle.std.specs.Prelude.{◌≡◌, ◌<◌, ◌≤◌, ◌⊎◌, ℕ, ◌+◌, Option, Some, None, List, length};
ghost use Rattle.bm_journal.specs.declared.ids.ObjId.{ObjId};
ghost use Rattle.bm_journal.specs.declared.ids.Tag.{Tag};
ghost use Rattle.bm_law.specs.Lists.{Log};
ghost use Rattle.bm_law_lives.specs.Together.{Each, times};
ghost use Rattle.bm_law_order.specs.Lives.{Lives, LivesFit, first_lives, lives_after};
ghost use Rattle.bm_law_order.specs.Orders.{AllFit, IsLaid, Order, over, shared_over};
ghost use Rattle.bm_law_order.specs.Shared.{fresh};
ghost use Rattle.bm_law_laid.specs.Once.{named_by};
ghost use Rattle.bm_law_laid.specs.OrderOf.{IsOrderOf};
ghost use Rattle.bm_law_objects.specs.Gathered.{AreLast, OneOf, itself};
ghost use Rattle.bm_law_objects.specs.Objects.{Asked, IsOwned, Owned, OwnedFit, owned_after};
ghost use Rattle.bm_law_objects.specs.SlotChain.{EachButLast, Follow, SlotChain, all_exchanges, exchanges_over, times_made, times_named};
ghost use Rattle.bm_law_objects.specs.ReadsLaw.{ReadsLaw, Wrote, last_object, objects_over, read_of};
ghost use Rattle.bm_law_objects.specs.ReferenceLaw.{IsCounted, ReferenceLaw, acquired_at, count_above, stills_over, under_way};

/// Over an order the exchanges of a slot follow one another, from what the slot held before, and so those of its logs form a
/// chain.
pub fn slots_law()
    ensures part { (slot : List ℕ) (o : Order) (s : Owned) → AllFit owned_after OwnedFit o s →
        Follow (s.objects.slots slot).held (s.objects.slots slot).by
        (exchanges_over slot o s.objects.calls) }
    ensures logs { (slot : List ℕ) (logs : List Log) (o : Order) →
        IsOrderOf logs o → IsOwned o → SlotChain slot logs }
{}

/// Of a slot's exchanges that form a chain, one names the start where there is any, and each but the last is named by one
/// other; no other tag is named, and none more than once, since no two exchanges of the logs have one tag; and what an exchange
/// took, the one that it names had put.
pub fn chain_law()
    ensures start { (slot : List ℕ) (logs : List Log) → SlotChain slot logs →
        0 < length (all_exchanges slot logs) → times_named None (all_exchanges slot logs) ≡ 1 }
    ensures next { (slot : List ℕ) (logs : List Log) (c : SlotChain slot logs) →
        EachButLast (λ x. times_named (Some x.tag) (all_exchanges slot logs) ≡ 1) c.chain }
    ensures named { (slot : List ℕ) (logs : List Log) → SlotChain slot logs → (t : Tag) →
        times_named (Some t) (all_exchanges slot logs)
        ≤ times_made t (all_exchanges slot logs) }
    ensures once { (slot : List ℕ) (logs : List Log) (t : Tag) →
        times_made t (all_exchanges slot logs) ≤ 1 }
    ensures took { (slot : List ℕ) (logs : List Log) → SlotChain slot logs →
        (t : Tag) (object : Option ObjId) →
        OneOf (λ y. (y.by ≡ Some t) × (y.was ≡ object)) (all_exchanges slot logs) →
        OneOf (λ x. (x.tag ≡ t) × (x.put ≡ object)) (all_exchanges slot logs) }
{}

/// Over an order each read finds a value with which an object was made along it, or with which the unit's last life was made
/// before, where `last` has the calls for objects that no reply has answered yet; and so it is in its logs.
pub fn reads_law()
    ensures part { (o : Order) (s : Owned) (last : ℕ → ℕ → Option Asked) →
        AllFit owned_after OwnedFit o s → AreLast itself s.objects.asking last →
        Each (λ r. OneOf (Wrote r) (objects_over o last)
        ⊎ OneOf (Wrote r) (last_object r.unit (s.objects.made r.unit))) (named_by read_of o) }
    ensures logs { (logs : List Log) (o : Order) → IsOrderOf logs o → IsOwned o → ReadsLaw logs }
{}

/// Over an order the count of a life goes up past a number as often as it comes down past it, once more if it is above it at
/// last, and once less if it was above it at first, where `last` has the drops under way. So it is as often in its logs where
/// all lives have ended at last.
pub fn counts_law()
    ensures part { (u life k : ℕ) (o : Order) (lives : Lives) (last : ℕ → ℕ → Option ObjId) →
        AllFit lives_after LivesFit o lives → ((v : ℕ) → IsCounted (lives.holds v)) →
        AreLast under_way lives.dropping last →
        times k (named_by (acquired_at u life) o) + count_above u life k lives
        ≡ times (k + 1) (stills_over u life o last)
        + count_above u life k (over lives_after o lives) }
    ensures logs { (logs : List Log) (o : Order) →
        IsOrderOf logs o → AllFit lives_after LivesFit o first_lives →
        ((u : ℕ) → (over lives_after o first_lives).holds u ≡ None) → ReferenceLaw logs }
    ensures laid { (processors pages : ℕ) (logs : List Log) (o : Order) →
        IsOrderOf logs o → IsLaid processors pages o →
        ((u : ℕ) → (shared_over o (fresh processors pages)).lives.holds u ≡ None) →
        ReferenceLaw logs }
{}
