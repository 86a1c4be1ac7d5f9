//! One side of all objects.

ghost use Rattle.std.specs.Prelude.{◌≡◌, ◌<◌, ◌≤◌, ◌^◌, ℕ, true, false, None, Some, is_some, length, slice_index, IfSome};
ghost use Rattle.bm_class.specs.Sizes.{class_of_size};
ghost use Rattle.bm_obj.specs.Known.{Has, HasPage, IsLast, IsLastUnit, IsMine, IsOwnerOf, IsSeen, Known, MayEnd, MayGo, count_had, first_reference, told_acquired, told_claimed, told_exchanged, told_made, told_released, told_unclaimed, type_at};
ghost use Rattle.bm_obj.specs.Reference.{Reference, id_of};
ghost use Rattle.bm_obj.specs.TypeSize.{type_size};
ghost use Rattle.bm_obj.specs.Waits.{NoOtherWaits};
ghost use Rattle.bm_obj.specs.declared.answer.Claimed.TheVariants.{Won, Taken};

use crate::answer::{Claimed, Displaced, Released};
use bm_journal::{ObjId, Tag};
use bm_page::Unit;

/// One side of all objects: what one processor may do with those that it has references to. No call refuses or takes memory,
/// and each changes what the side knows by one equation.
pub trait Objects {
    /// One reference to an object. It has to be spent.
    type Ref;

    /// What a reference shows.
    ghost reference: { Self.Ref → Reference };

    /// What this side knows.
    ghost known: { Self → Known };

    /// The object of a reference: the unit and its life.
    fn id(&self, r: &Self::Ref) -> ObjId
        ensures { result ≡ id_of (reference r.now) };

    /// A unit of this side begins its next life as an object of a type, with these values, and with one reference, which is the
    /// answer. The unit's life so far is below 262,143, it is of the class of the type's size, its home is this side's processor,
    /// and there is a value for each field of the type. From `bpf_obj_new`.
    fn make(&mut self, unit: Unit, def: u8, values: &[u32]) -> Self::Ref
        requires mine { IsMine unit (known self.old) }
        requires room { unit.life < 262143 }
        requires home { unit.home ≡ (known self.old).processor }
        requires class { class_of_size (type_size (type_at (known self.old).defs def))
            ≡ Some unit.class }
        requires values { length values.now ≡ (type_at (known self.old).defs def).fields }
        ensures answer { reference result ≡ first_reference unit def }
        ensures known { known self.new ≡ told_made (reference result) (known self.old) };

    /// A value of an object, the one that it was made with. From a program's read through a pointer that it owns.
    fn get(&mut self, r: &Self::Ref, field: u8) -> u32
        requires has { Has (reference r.now) (known self.old) }
        requires field { field < (type_at (known self.old).defs (reference r.now).def).fields }
        ensures known { known self.new ≡ known self.old };

    /// One reference more to an object of a type with a count, and the count before. From `bpf_refcount_acquire`.
    fn acquire(&mut self, r: &Self::Ref) -> (Self::Ref, u32)
        requires has { Has (reference r.now) (known self.old) }
        requires counted { (type_at (known self.old).defs (reference r.now).def).counted ≡ true }
        requires room { 0 < (known self.old).acquires }
        ensures answer { reference result.0 ≡ reference r.now }
        ensures some { 0 < result.1 }
        ensures seen { count_had (reference r.now).unit (known self.old) ≤ result.1 }
        ensures known { known self.new ≡ told_acquired (reference r.now) (known self.old) };

    /// Ends a reference. Where the count before was above 1 the answer is that count; else the life ends, and the answer is its
    /// unit. While this side has the claim of the object, it keeps a reference. From `bpf_obj_drop`.
    fn release(&mut self, r: Self::Ref) -> Released
        requires has { Has (reference r) (known self.old) }
        requires keeps { MayGo (reference r) (known self.old) }
        ensures seen { IsSeen (count_had (reference r).unit (known self.old)) result }
        ensures single { (type_at (known self.old).defs (reference r).def).counted ≡ false
            → IsLast result }
        ensures unit { IsLastUnit (known self.old).defs (reference r) result }
        ensures known { known self.new ≡ told_released (reference r) result (known self.old) };

    /// Puts a reference, or nothing, into a slot of the reference's type, and takes what the slot held, with the tag of the call
    /// that left the slot so. The tag is of this side's processor, with a number below 262,144. While this side has the claim of
    /// an object, it keeps a reference. From `bpf_kptr_xchg`.
    fn exchange(&mut self, slot: u8, put: Option<Self::Ref>, tag: Tag) -> Displaced<Self::Ref>
        requires slot { slot < length (known self.old).slots }
        requires has { IfSome put (λ r. Has (reference r) (known self.old)) }
        requires of_type { IfSome put (λ r. (reference r).def
            ≡ slice_index (known self.old).slots slot) }
        requires keeps { IfSome put (λ r. MayGo (reference r) (known self.old)) }
        requires processor { tag.processor ≡ (known self.old).processor }
        requires serial { tag.serial < 2 ^ 18 }
        ensures of_type { IfSome result.old (λ r. (reference r).def
            ≡ slice_index (known self.old).slots slot) }
        ensures known { known self.new ≡ told_exchanged reference put result.old (known self.old) };

    /// Claims an object for a graph of its type, whose page this side has. No won claim of another object for the graph, nor the end
    /// of one, waits for its entry in the graph's history. It is Won where no graph owned the object, and then this one does; else the
    /// answer is the graph that owns it, which is of the object's type too. From the exchange of a node's owner in `__bpf_list_add` and `__bpf_rbtree_add` of
    /// kernel/bpf/helpers.c.
    fn claim(&mut self, r: &Self::Ref, graph: u8) -> Claimed
        requires has { Has (reference r.now) (known self.old) }
        requires graph { graph < length (known self.old).graphs }
        requires of_type { (reference r.now).def ≡ slice_index (known self.old).graphs graph }
        requires page { HasPage graph (known self.old) }
        requires waits { NoOtherWaits (id_of (reference r.now)) ((known self.old).waits graph) }
        ensures mine { (g : ℕ) → (known self.old).claims (reference r.now).unit ≡ Some g
            → result ≡ Taken g }
        ensures single { (type_at (known self.old).defs (reference r.now).def).counted ≡ false
            → (known self.old).claims (reference r.now).unit ≡ None → result ≡ Won }
        ensures owner { IsOwnerOf (known self.old).graphs (reference r.now).def result }
        ensures known { known self.new
            ≡ told_claimed (reference r.now) graph result (known self.old) };

    /// Ends the claim of an object, which this side has, and so the page of its graph, for which no change of another object's owner
    /// waits. From `__bpf_list_del` and `bpf_rbtree_remove` of kernel/bpf/helpers.c.
    fn unclaim(&mut self, r: &Self::Ref)
        requires has { Has (reference r.now) (known self.old) }
        requires claimed { is_some ((known self.old).claims (reference r.now).unit) ≡ true }
        requires ends { MayEnd (reference r.now) (known self.old) }
        ensures known { known self.new ≡ told_unclaimed (reference r.now) (known self.old) };
}
