//! Lives of units.

ghost use Rattle.std.specs.Prelude.{◌≡◌, ◌+◌, ◌^◌, ◌<◌, ◌∷◌, [], ℕ, Option, None, Some, IfOk, IfSome, OnErr, OnOk, false, is_some, length, slice_get, true};
ghost use Rattle.bm_law_order.specs.Act as act;
ghost use Rattle.bm_grace.specs.Rest.{StaysAtRest};
ghost use Rattle.bm_grace.specs.Rights.{AsBefore};
ghost use Rattle.bm_page.specs.declared.units.Seal.{Seal as SealValue};
ghost use Rattle.bm_post.specs.Rights.{Gains, IsSettled, Loses};
ghost use Rattle.bm_grace.specs.Known.{Living};
ghost use Rattle.bm_world.specs.Lives.{HasLife, OthersAsBefore, PutLives, asked_once, count_in, graph_called, life_acquired, life_begun, life_ended, life_given_up, life_of_unit, slot_exchanged, type_in, values_in};
ghost use Rattle.bm_world.specs.Contents.{slot_at};
ghost use Rattle.bm_journal.specs.declared.past.PastCall.TheVariants as past;
ghost use Rattle.bm_graph.specs.Calls.{first_call};
ghost use Rattle.bm_graph.specs.Ways.{is_for_tree, pop_call};
ghost use Rattle.bm_graph.specs.declared.ways.Way.TheVariants.{Ordered};
ghost use Rattle.bm_law_order.specs.Graphs.{effect_of, graph_at, moved, standing_from};
ghost use Rattle.bm_world.specs.Graphs.{end_node, first_node, key_of, pushed_at, pushed_call, stood};

use crate::contents::Displaced;
use crate::pushed::Pushed;
use bm_graph::{End, Way};
use bm_journal::{ObjId, Tag, Values};
use bm_page::Unit;
use bm_post::World;
use bm_word::NoMemory;

/// A world in which units live: it owns each unit that lives, by its number, with how many references there are to it and the values of
/// its fields, and counts how many lives each unit has begun and how many calls for objects were made. It has the slots of a scenario, with what they hold. A unit that lives isn't mine: its number can be named, and nothing can be done with it, until
/// its life ends. It has its lists and trees, whose histories alone take memory. Each call changes what the side knows by one equation. This project's own; in the kernel
/// an object that lives is a pointer, which a program owns.
pub trait Lives: World {
    /// One more call is counted: one that neither begins a life nor asks for a reference.
    fn ask(&mut self)
        requires room { (Self.known self.old).objects.asked + 1 < 2 ^ 31 }
        ensures known { Self.known self.new ≡ asked_once (Self.known self.old) }
        ensures same { AsBefore (Self.rights self.old) (Self.rights self.new) }
        ensures rest { StaysAtRest Self.rest self.old self.new }
        ensures does { Self.does [] self.old self.new };

    /// An object of a type, by its number among those declared, is asked for, with these values of its fields, and a unit of mine begins its next life for it, to which there is one
    /// reference. It is mine no more, and is in no list or tree; of all other units everything is as before.
    fn begin_life(&mut self, unit: Unit, type_number: usize, values: Values) -> ObjId
        requires room { (Self.known self.old).objects.asked + 1 < 2 ^ 31 }
        requires mine { (Self.rights self.old).mine unit.number ≡ true }
        requires settled { IsSettled (Self.rights self.old) unit }
        requires home { unit.home < (Self.known self.old).grace.processors }
        ensures object { result ≡ record { unit = unit.number; life = unit.life + 1 } }
        ensures next { unit.life ≡ (Self.known self.old).objects.begun unit.number }
        ensures none { (Self.known self.old).objects.lives unit.number ≡ None }
        ensures alone { standing_from 0 (Self.known self.old).objects.graphs unit.number ≡ None }
        ensures known { Self.known self.new
            ≡ life_begun type_number values unit (Self.known self.old) }
        ensures gone { Loses (unit.number ∷ []) (Self.rights self.old) (Self.rights self.new) }
        ensures others { OthersAsBefore unit.number (Self.rights self.old) (Self.rights self.new) }
        ensures rest { StaysAtRest Self.rest self.old self.new }
        ensures does { unit.home ≡ (Self.known self.old).grace.processor
            → Self.does (act.Makes unit.number (unit.life + 1) type_number values unit.seal ∷ [])
            self.old self.new };

    /// How many references there are to an object that lives.
    fn references(&self, number: u16) -> u32
        requires lives { is_some ((Self.known self.now).objects.lives number) ≡ true }
        ensures count { result ≡ count_in ((Self.known self.now).objects.lives number) }
        ensures some { 0 < result };

    /// A reference to an object that lives is asked for, and is there: there is one more than the number that is answered. Of all units
    /// everything is as before. From bpf_refcount_acquire_impl of kernel/bpf/helpers.c.
    fn acquire(&mut self, object: ObjId) -> u32
        requires room { (Self.known self.old).objects.asked + 1 < 2 ^ 31 }
        requires lives { (l : Living)
            × HasLife (Self.known self.old).objects.lives object.unit object.life l }
        ensures seen { result ≡ count_in ((Self.known self.old).objects.lives object.unit) }
        ensures some { 0 < result }
        ensures known { Self.known self.new ≡ life_acquired object.unit (Self.known self.old) }
        ensures same { AsBefore (Self.rights self.old) (Self.rights self.new) }
        ensures rest { StaysAtRest Self.rest self.old self.new }
        ensures does { Self.does (act.Acquires object.unit object.life result ∷ []) self.old
            self.new };

    /// A field of an object that lives is read, by its place: its value is the one with which the object was made.
    fn read(&self, object: ObjId, place: u8) -> u32
        requires lives { (l : Living)
            × HasLife (Self.known self.now).objects.lives object.unit object.life l }
        requires there { is_some
            (slice_get (values_in ((Self.known self.now).objects.lives object.unit)) place)
            ≡ true }
        ensures value { slice_get (values_in ((Self.known self.now).objects.lives object.unit))
            place
            ≡ Some result }
        ensures does { Self.does (act.Finds object.unit object.life place result ∷ []) self.now
            self.now };

    /// What a slot holds is exchanged, by its place: for a reference to an object that lives, or for nothing. The call has this tag. It answers
    /// what was there, and the call that had put that. From bpf_kptr_xchg of kernel/bpf/helpers.c.
    fn exchange(&mut self, place: usize, put: Option<ObjId>, tag: Tag) -> Displaced
        requires there { place < length (Self.known self.old).objects.slots }
        requires lives { PutLives (Self.known self.old).objects.lives put }
        ensures held { result.held ≡ (slot_at place (Self.known self.old).objects.slots).slot.held }
        ensures by { result.by ≡ (slot_at place (Self.known self.old).objects.slots).slot.by }
        ensures known { Self.known self.new ≡ slot_exchanged place put tag (Self.known self.old) }
        ensures same { AsBefore (Self.rights self.old) (Self.rights self.new) }
        ensures rest { StaysAtRest Self.rest self.old self.new }
        ensures does { let name = (slot_at place (Self.known self.old).objects.slots).name in
            Self.does (act.Exchanges name put result.held result.by tag ∷ []) self.old self.new };

    /// Puts an object that lives into the list or tree at a place: a tree's has a field, whose first value is its key. It is refused where the
    /// object is in a list or tree already, and then nothing moves. The call has this tag. It answers what became of the object, with the
    /// call's position in the history. From bpf_list_push_front_impl, bpf_list_push_back_impl and bpf_rbtree_add_impl of kernel/bpf/helpers.c.
    ///
    /// `Err` changes nothing. It comes where memory is out, or where the history has 2^32 - 1 entries; so it is of each call below.
    fn push(&mut self, place: usize, way: Way, object: ObjId, tag: Tag) -> Result<Pushed, NoMemory>
        requires there { place < length (Self.known self.old).objects.graphs }
        requires kind { (graph_at place (Self.known self.old).objects.graphs).is_tree
            ≡ is_for_tree way }
        requires lives { (l : Living)
            × HasLife (Self.known self.old).objects.lives object.unit object.life l }
        requires keyed { way ≡ Ordered
            → 0 < length (values_in ((Self.known self.old).objects.lives object.unit)) }
        ensures at { IfOk result
            (λ pushed. pushed_at pushed
            ≡ length (graph_at place (Self.known self.old).objects.graphs).history) }
        ensures stood { IfOk result
            (λ pushed. standing_from 0 (Self.known self.old).objects.graphs object.unit
            ≡ stood object.life pushed) }
        ensures moves { IfOk result
            (λ pushed.
            let key = key_of (values_in ((Self.known self.old).objects.lives object.unit)) in
            standing_from 0 (Self.known self.new).objects.graphs
            ≡ moved place (effect_of (pushed_call way object key pushed))
            (standing_from 0 (Self.known self.old).objects.graphs)) }
        ensures known { IfOk result
            (λ pushed.
            let key = key_of (values_in ((Self.known self.old).objects.lives object.unit)) in
            Self.known self.new
            ≡ graph_called place (pushed_call way object key pushed) tag (Self.known self.old)) }
        ensures same { AsBefore (Self.rights self.old) (Self.rights self.new) }
        ensures rest { StaysAtRest Self.rest self.old self.new }
        ensures does { IfOk result
            (λ pushed.
            let key = key_of (values_in ((Self.known self.old).objects.lives object.unit)) in
            let name = (graph_at place (Self.known self.old).objects.graphs).name in
            Self.does
            (act.Calls name (pushed_at pushed) (pushed_call way object key pushed) tag ∷ [])
            self.old self.new) }
        ensures err { OnErr result (self.new ≡ self.old) };

    /// Takes the object at an end of the list at a place: answers the call's position in the history and the object, none exactly where the
    /// list is empty. The call has this tag. From bpf_list_pop_front and bpf_list_pop_back of kernel/bpf/helpers.c.
    fn pop(&mut self, place: usize, end: End, tag: Tag) -> Result<(u32, Option<ObjId>), NoMemory>
        requires there { place < length (Self.known self.old).objects.graphs }
        requires kind { (graph_at place (Self.known self.old).objects.graphs).is_tree ≡ false }
        ensures at { IfOk result
            (λ answer. answer.0
            ≡ length (graph_at place (Self.known self.old).objects.graphs).history) }
        ensures item { IfOk result
            (λ answer. answer.1
            ≡ end_node end (graph_at place (Self.known self.old).objects.graphs).nodes) }
        ensures stood { IfOk result (λ answer. IfSome answer.1 (λ id.
            standing_from 0 (Self.known self.old).objects.graphs id.unit
            ≡ Some (record { life = id.life; place = place }))) }
        ensures lives { IfOk result
            (λ answer. IfSome answer.1
            (λ id. (l : Living)
            × HasLife (Self.known self.old).objects.lives id.unit id.life l)) }
        ensures moves { IfOk result
            (λ answer. standing_from 0 (Self.known self.new).objects.graphs
            ≡ moved place (effect_of (pop_call end answer.1))
            (standing_from 0 (Self.known self.old).objects.graphs)) }
        ensures known { IfOk result
            (λ answer. Self.known self.new
            ≡ graph_called place (pop_call end answer.1) tag (Self.known self.old)) }
        ensures same { AsBefore (Self.rights self.old) (Self.rights self.new) }
        ensures rest { StaysAtRest Self.rest self.old self.new }
        ensures does { IfOk result
            (λ answer. let name = (graph_at place (Self.known self.old).objects.graphs).name in
            Self.does (act.Calls name answer.0 (pop_call end answer.1) tag ∷ []) self.old self.new) }
        ensures err { OnErr result (self.new ≡ self.old) };

    /// Names the first object of the tree at a place, the one of the least key: answers the call's position in the history and the object,
    /// none exactly where the tree is empty. The object stays. The call has this tag. From bpf_rbtree_first of kernel/bpf/helpers.c.
    fn first(&mut self, place: usize, tag: Tag) -> Result<(u32, Option<ObjId>), NoMemory>
        requires there { place < length (Self.known self.old).objects.graphs }
        requires kind { (graph_at place (Self.known self.old).objects.graphs).is_tree ≡ true }
        ensures at { IfOk result
            (λ answer. answer.0
            ≡ length (graph_at place (Self.known self.old).objects.graphs).history) }
        ensures item { IfOk result
            (λ answer. answer.1
            ≡ first_node (graph_at place (Self.known self.old).objects.graphs).nodes) }
        ensures stood { IfOk result (λ answer. IfSome answer.1 (λ id.
            standing_from 0 (Self.known self.old).objects.graphs id.unit
            ≡ Some (record { life = id.life; place = place }))) }
        ensures lives { IfOk result
            (λ answer. IfSome answer.1
            (λ id. (l : Living)
            × HasLife (Self.known self.old).objects.lives id.unit id.life l)) }
        ensures moves { IfOk result
            (λ answer. standing_from 0 (Self.known self.new).objects.graphs
            ≡ moved place (effect_of (first_call answer.1))
            (standing_from 0 (Self.known self.old).objects.graphs)) }
        ensures known { IfOk result
            (λ answer. Self.known self.new
            ≡ graph_called place (first_call answer.1) tag (Self.known self.old)) }
        ensures same { AsBefore (Self.rights self.old) (Self.rights self.new) }
        ensures rest { StaysAtRest Self.rest self.old self.new }
        ensures does { IfOk result
            (λ answer. let name = (graph_at place (Self.known self.old).objects.graphs).name in
            Self.does (act.Calls name answer.0 (first_call answer.1) tag ∷ []) self.old self.new) }
        ensures err { OnErr result (self.new ≡ self.old) };

    /// Takes an object out of the tree at a place, in which it is: answers the call's position in the history. The call has this tag. From
    /// bpf_rbtree_remove of kernel/bpf/helpers.c.
    fn remove(&mut self, place: usize, object: ObjId, tag: Tag) -> Result<u32, NoMemory>
        requires there { place < length (Self.known self.old).objects.graphs }
        requires kind { (graph_at place (Self.known self.old).objects.graphs).is_tree ≡ true }
        requires stands { standing_from 0 (Self.known self.old).objects.graphs object.unit
            ≡ Some (record { life = object.life; place = place }) }
        ensures at { IfOk result
            (λ position. position
            ≡ length (graph_at place (Self.known self.old).objects.graphs).history) }
        ensures lives { (l : Living)
            × HasLife (Self.known self.old).objects.lives object.unit object.life l }
        ensures moves { OnOk result
            (standing_from 0 (Self.known self.new).objects.graphs
            ≡ moved place (effect_of (past.Remove object))
            (standing_from 0 (Self.known self.old).objects.graphs)) }
        ensures known { OnOk result
            (Self.known self.new
            ≡ graph_called place (past.Remove object) tag (Self.known self.old)) }
        ensures same { AsBefore (Self.rights self.old) (Self.rights self.new) }
        ensures rest { StaysAtRest Self.rest self.old self.new }
        ensures does { IfOk result
            (λ position. let name = (graph_at place (Self.known self.old).objects.graphs).name in
            Self.does (act.Calls name position (past.Remove object) tag ∷ []) self.old self.new) }
        ensures err { OnErr result (self.new ≡ self.old) };

    /// A reference to an object that has others is given up: there is one less than the number that is answered. Of all units everything is
    /// as before. From __bpf_obj_drop_impl of kernel/bpf/helpers.c, where the count isn't 0 then.
    fn release_other(&mut self, object: ObjId) -> u32
        requires lives { (l : Living)
            × HasLife (Self.known self.old).objects.lives object.unit object.life l }
        requires others { 1 < count_in ((Self.known self.old).objects.lives object.unit) }
        ensures seen { result ≡ count_in ((Self.known self.old).objects.lives object.unit) }
        ensures known { Self.known self.new ≡ life_given_up object.unit (Self.known self.old) }
        ensures same { AsBefore (Self.rights self.old) (Self.rights self.new) }
        ensures rest { StaysAtRest Self.rest self.old self.new }
        ensures does { Self.does (act.GivesUp object.unit object.life result ∷ []) self.old
            self.new };

    /// The last reference to an object that is in no list or tree is given up, and the life of a unit ends, by a drop whose free is a plain one, or one with delay: the unit is mine again, has no seal, and has room
    /// for one life more. After a plain free it may be used again, and isn't due; after one with delay it is due, and may not be used
    /// again. Of all other units everything is as before.
    fn end_life(&mut self, number: u16, delayed: bool) -> Unit
        requires lives { is_some ((Self.known self.old).objects.lives number) ≡ true }
        requires only { count_in ((Self.known self.old).objects.lives number) ≡ 1 }
        requires alone { standing_from 0 (Self.known self.old).objects.graphs number ≡ None }
        ensures lived { let was = (Self.known self.old).objects.lives number in
            was ≡ Some (life_of_unit (type_in was) 1 (values_in was) result) }
        ensures number { result.number ≡ number }
        ensures last { result.life ≡ (Self.known self.old).objects.begun number }
        ensures known { Self.known self.new ≡ life_ended number (Self.known self.old) }
        ensures mine { Gains (number ∷ []) (Self.rights self.old) (Self.rights self.new) }
        ensures others { OthersAsBefore number (Self.rights self.old) (Self.rights self.new) }
        ensures unsealed { result.seal ≡ None }
        ensures room { result.life + 1 < 2 ^ 32 }
        ensures settled { delayed ≡ false → IsSettled (Self.rights self.new) result }
        ensures undue { delayed ≡ false → (life : ℕ) (seal : Option SealValue)
            → (Self.rights self.new).due number life seal ≡ false }
        ensures due { delayed ≡ true → (Self.rights self.new).due number result.life None ≡ true }
        ensures unsettled { delayed ≡ true → (life : ℕ) (seal : Option SealValue)
            → (Self.rights self.new).settled number life seal ≡ false }
        ensures home { result.home < (Self.known self.old).grace.processors }
        ensures rest { StaysAtRest Self.rest self.old self.new }
        ensures does { Self.does (act.Ends number result.life result.home delayed ∷ []) self.old
            self.new };
}
