//! Running a script.

ghost use Rattle.std.specs.Prelude.{◌≡◌, ◌⊎◌, ◌+◌, ◌*◌, ◌<◌, ◌≤◌, ◌^◌, ℕ, [], OnOk, IsOk, IfSome, true, false, Some, None, List, position, reverse, length, slice_get};
ghost use Rattle.bm_lang.specs.declared.scenario.Action.TheVariants as action;
ghost use Rattle.bm_lang.specs.declared.scenario.MapDeclaration.{MapDeclaration as MapDeclarationValue};
ghost use Rattle.bm_lang.specs.declared.scenario.TypeDeclaration.{TypeDeclaration as TypeDeclarationValue};
ghost use Rattle.bm_lang.specs.Limits.{block_cost};
ghost use Rattle.bm_check.specs.Scripts.{Accepted};
ghost use Rattle.bm_check.specs.declared.name_state.HeldLock.TheVariants as held_lock_is;
ghost use Rattle.bm_check.specs.Statements.{Setting, is_handler};
ghost use Rattle.bm_check.specs.Values.{NonOwning, Null, Owning, Refers, SafeAction, is_owning};
ghost use Rattle.bm_graph.specs.Ways.{is_for_tree};
ghost use Rattle.bm_graph.specs.declared.ways.Way.TheVariants as way_is;
ghost use Rattle.bm_lang.specs.declared.scenario.TypeId.{TypeId as TypeIdValue};
ghost use Rattle.bm_lang.specs.declared.scenario.MapId.{MapId as MapIdValue};
ghost use Rattle.bm_lang.specs.declared.scenario.ScriptKind.TheVariants as kind;
ghost use Rattle.bm_law_scenario.specs.Calls.{IsCounted, IsField, Puts};
ghost use Rattle.bm_law_scenario.specs.Declared.{Declared, IsGraph, IsSlot};
ghost use Rattle.bm_exec.specs.Fields.{HasField};
ghost use Rattle.std.specs.Str.{bytes_eq};
ghost use Rattle.bm_exec.specs.Seen.{held_of, names_of, has_name};
ghost use Rattle.bm_exec.specs.Stores.{locked_in, store_of, value_of};
ghost use Rattle.arrayvec.specs.ArrayVec.{array_vec_len};
ghost use Rattle.bm_law_scenario.specs.Held.{Names, Soft, with_name};
ghost use Rattle.bm_exec.specs.Around.{Around, is_inside};
ghost use Rattle.bm_exec.specs.Stack.{SafeStack, Sectioned, lock_of};
ghost use Rattle.bm_exec.specs.Cost.{stack_cost};
ghost use Rattle.bm_exec.specs.Bindings.{binds_among};
ghost use Rattle.bm_exec.specs.Depth.{block_fits};
ghost use Rattle.bm_exec.specs.Meets.{may_run};
ghost use Rattle.bm_exec.specs.Runnable.{Classes, can_run_action, can_run_block, has_key, is_graph};
ghost use Rattle.bm_exec.specs.Given.{Gives, names_without, pop_action, push_action};
ghost use Rattle.bm_exec.specs.Going.{CanGoOn};
ghost use Rattle.bm_exec.specs.Guarded.{Guards, IsLock, IsShelved, Sees};
ghost use Rattle.bm_exec.specs.Lists.{Behind, Quiet};
ghost use Rattle.bm_exec.specs.Living.{Holds, Lives};
ghost use Rattle.bm_exec.specs.Named.{declared_of};
ghost use Rattle.bm_exec.specs.declared.frame.Open.{Open};
ghost use Rattle.bm_exec.specs.Running.{Performed, Ran, RanScript, Went};
ghost use Rattle.bm_exec.specs.Steps.{weight};
ghost use Rattle.bm_exec.specs.Yields.{HasWent, IfWent, IsTurn, Unyielding, YieldsBy, is_yield};
ghost use Rattle.bm_exec.specs.declared.running.Stopped.TheVariants as stopped;

use crate::activation::Activation;
use crate::frame::{Frame, Next, held_lock, next_statement, open_block, repeat_block, set_lock};
use crate::holding::{Holding, found_as, holding_of, pushed_as};
use crate::machine::Machine;
use crate::names::NameTable;
use bm_check::{HeldLock, accepted_scripts_are_safe};
use bm_class::Class;
use bm_graph::{End, Way};
use bm_journal::{ObjId, Values};
use bm_lang::{
    Action, Block, Items, MapDeclaration, MapId, Parts, Script, Statement, TypeDeclaration, TypeId,
};
use bm_word::{Name, NoMemory};
use std::alloc::Global;

/// What a scenario's statements may name: its types, with the class of each, and its maps.
#[derive(Clone, Copy)]
pub struct Types<'s> {
    pub declared: &'s [TypeDeclaration],
    pub classes: &'s [Class],
    pub maps: &'s [MapDeclaration],
}

/// Why a script stopped.
#[derive(Clone, Copy, Debug, PartialEq, Eq)]
pub enum Stopped {
    /// Its block has ended.
    Ended,
    /// Its last statement so far is a `yield`.
    Yielded,
    /// Memory ran out.
    NoMemory,
}

// `new x T v..`: asks for an object, which the name then holds, or null. Deferred work runs behind it.
fn perform_new<'s, M: Machine>(
    names: &mut NameTable,
    machine: &mut M,
    types: &Types<'s>,
    name: &'s Name,
    type_id: TypeId,
    values: &'s Items<u32>,
) -> Result<(), NoMemory>
    requires sound { M.sound machine.old }
    requires declared { M.declared machine.old ≡ declared_of types.now }
    requires classes { Classes types.now.declared.now types.now.classes.now }
    requires room { M.asked machine.old + 3 < 2 ^ 22 }
    requires holds { (base : Lives)
        × Holds types.now.declared.now base (M.lives machine.old) (names_of names.old) }
    requires can { can_run_action (declared_of types.now) (action.New name.now type_id values.now)
        ≡ true }
    requires free { is_owning (value_of (names_of names.old name.now)) ≡ false }
    requires there { has_name names.old name.now ≡ true }
    ensures performed { OnOk result
        ((os : List Open) → lock_of os ≡ held_lock_is.Nothing
        → Performed (declared_of types.now) (M.level machine.old) (M.around machine.old)
        (M.around machine.old) (M.behind machine.old) (M.lists machine.old)
        (M.lists machine.new) (M.guarded machine.old) (M.guarded machine.old)
        (action.New name.now type_id values.now) (names_of names.old) (names_of names.new)
        os os (M.lives machine.old) (M.lives machine.new) (M.asked machine.old)
        (M.asked machine.new) (M.log machine.old) (M.log machine.new)) }
    ensures sound { OnOk result (M.sound machine.new) }
    ensures level { OnOk result (M.level machine.new ≡ M.level machine.old) }
    ensures processor { OnOk result (M.processor machine.new ≡ M.processor machine.old) }
    ensures behind { OnOk result (M.behind machine.new ≡ M.behind machine.old) }
    ensures through { M.through machine.new ≡ M.through machine.old }
    ensures guarded { OnOk result (M.guarded machine.new ≡ M.guarded machine.old) }
    ensures asked { OnOk result (M.asked machine.new ≤ M.asked machine.old + 3) }
    ensures around { OnOk result (M.around machine.new ≡ M.around machine.old) }
    ensures keeps { OnOk result (M.keeps machine.old machine.new) }
    ensures yields { OnOk result
        (Unyielding (M.level machine.old) (M.log machine.old) (M.log machine.new)) }
    ensures known { names.new.names.keys ≡ names.old.names.keys }
    ensures bare { M.behind machine.old ≡ None → IsOk result }
{
    let Some(declared) = types.declared.get(type_id.0) else {
        unreachable!();
    };
    let Some(class) = types.classes.get(type_id.0) else {
        unreachable!();
    };
    let Some(values) = Values::new(values.as_slice()) else {
        unreachable!();
    };
    let reply = machine.create(*class, type_id, declared.name.duplicate(), values);
    let Ok(()) = names.put(name.as_bytes(), holding_of(type_id, reply)) else {
        unreachable!();
    };
    machine.settle()
}

// `acquire y x`: asks for one more reference to the object that x holds, which y then holds too.
fn perform_acquire<'s, M: Machine>(
    names: &mut NameTable,
    machine: &mut M,
    types: &Types<'s>,
    name: &'s Name,
    of: &'s Name,
)
    requires sound { M.sound machine.old }
    requires declared { M.declared machine.old ≡ declared_of types.now }
    requires room { M.asked machine.old + 2 < 2 ^ 22 }
    requires holds { (base : Lives)
        × Holds types.now.declared.now base (M.lives machine.old) (names_of names.old) }
    requires owned { is_owning (value_of (names_of names.old of.now)) ≡ true }
    requires counted { (t : TypeIdValue) → value_of (names_of names.old of.now) ≡ Owning t
        → IsCounted types.now.declared.now t.0 }
    requires free { is_owning (value_of (names_of names.old name.now)) ≡ false }
    requires there { has_name names.old name.now ≡ true }
    ensures performed { (os : List Open)
        → Quiet (lock_of os) (M.behind machine.old) (M.lists machine.old)
        → Performed (declared_of types.now) (M.level machine.old) (M.around machine.old)
        (M.around machine.new) (M.behind machine.old) (M.lists machine.old)
        (M.lists machine.new) (M.guarded machine.old) (M.guarded machine.old)
        (action.Acquire name.now of.now) (names_of names.old) (names_of names.new) os os
        (M.lives machine.old) (M.lives machine.new) (M.asked machine.old) (M.asked machine.new)
        (M.log machine.old) (M.log machine.new) }
    ensures sound { M.sound machine.new }
    ensures level { M.level machine.new ≡ M.level machine.old }
    ensures processor { M.processor machine.new ≡ M.processor machine.old }
    ensures behind { M.behind machine.new ≡ M.behind machine.old }
    ensures through { M.through machine.new ≡ M.through machine.old }
    ensures guarded { M.guarded machine.new ≡ M.guarded machine.old }
    ensures asked { M.asked machine.new ≤ M.asked machine.old + 2 }
    ensures around { M.around machine.new ≡ M.around machine.old }
    ensures keeps { M.keeps machine.old machine.new }
    ensures yields { Unyielding (M.level machine.old) (M.log machine.old) (M.log machine.new) }
    ensures known { names.new.names.keys ≡ names.old.names.keys }
{
    let Holding::Object(type_id, object) = names.holding(of.as_bytes()) else {
        unreachable!();
    };
    machine.acquire(object);
    let Ok(()) = names.put(name.as_bytes(), Holding::Object(type_id, object)) else {
        unreachable!();
    };
}

// The place of a field among those of a type, if it is one of them.
fn place_of(fields: &[Name], field: &Name) -> Option<usize>
    ensures place { result ≡ position (bytes_eq field.now) fields.now }
    ensures inside { IfSome result (λ place. place < length fields.now) }
{
    fields
        .iter()
        .position(|name| field.as_bytes() == name.as_bytes())
}

// The place of a field that the objects of a type have.
fn field_of<'s>(types: &Types<'s>, type_id: TypeId, field: &'s Name) -> u8
    requires field { HasField types.now.declared.now type_id.0 field.now }
    requires few { (d : TypeDeclarationValue)
        → slice_get types.now.declared.now type_id.0 ≡ Some d → length d.fields ≤ 8 }
    ensures { IsField types.now.declared.now type_id.0 field.now result }
{
    let Some(declared) = types.declared.get(type_id.0) else {
        unreachable!();
    };
    let Some(place) = place_of(declared.fields.as_slice(), field) else {
        unreachable!();
    };
    place as u8
}

// `get x field`: reads a field of the object that the name holds, be it by a non-owning reference.
fn perform_get<'s, M: Machine>(
    names: &NameTable,
    machine: &mut M,
    types: &Types<'s>,
    name: &'s Name,
    field: &'s Name,
)
    requires sound { M.sound machine.old }
    requires declared { M.declared machine.old ≡ declared_of types.now }
    requires room { M.asked machine.old + 1 < 2 ^ 22 }
    requires holds { (base : Lives)
        × Holds types.now.declared.now base (M.lives machine.old) (names_of names.now) }
    requires field { (t : TypeIdValue) × Refers (value_of (names_of names.now name.now)) t
        × HasField types.now.declared.now t.0 field.now }
    requires seen { (t : TypeIdValue) (graph : MapIdValue) (u n : ℕ)
        → names_of names.now name.now ≡ Soft t graph u n
        → (M.level machine.old ≡ 0) × ((M.guarded machine.old).lock ≡ Some graph.0)
        × IsShelved types.now.declared.now t.0 graph.0 (M.guarded machine.old) u n }
    ensures performed { (os : List Open)
        → Quiet (lock_of os) (M.behind machine.old) (M.lists machine.old)
        → Performed (declared_of types.now) (M.level machine.old)
        (M.around machine.old) (M.around machine.new) (M.behind machine.old)
        (M.lists machine.old) (M.lists machine.new) (M.guarded machine.old) (M.guarded machine.old)
        (action.Get name.now field.now) (names_of names.now) (names_of names.now) os os
        (M.lives machine.old) (M.lives machine.new) (M.asked machine.old) (M.asked machine.new)
        (M.log machine.old) (M.log machine.new) }
    ensures sound { M.sound machine.new }
    ensures level { M.level machine.new ≡ M.level machine.old }
    ensures processor { M.processor machine.new ≡ M.processor machine.old }
    ensures behind { M.behind machine.new ≡ M.behind machine.old }
    ensures through { M.through machine.new ≡ M.through machine.old }
    ensures guarded { M.guarded machine.new ≡ M.guarded machine.old }
    ensures asked { M.asked machine.new ≤ M.asked machine.old + 1 }
    ensures around { M.around machine.new ≡ M.around machine.old }
    ensures keeps { M.keeps machine.old machine.new }
    ensures yields { Unyielding (M.level machine.old) (M.log machine.old) (M.log machine.new) }
{
    match names.holding(name.as_bytes()) {
        Holding::Object(type_id, object) => machine.read(object, field_of(types, type_id, field)),
        Holding::Soft(type_id, _, object) => {
            machine.look(object, field_of(types, type_id, field))
        }
        _ => unreachable!(),
    }
}

// `drop x`: gives up the reference that the name holds. Deferred work runs behind it.
fn perform_drop<'s, M: Machine>(
    names: &mut NameTable,
    machine: &mut M,
    types: &Types<'s>,
    name: &'s Name,
) -> Result<(), NoMemory>
    requires sound { M.sound machine.old }
    requires declared { M.declared machine.old ≡ declared_of types.now }
    requires classes { Classes types.now.declared.now types.now.classes.now }
    requires room { M.asked machine.old + 2 < 2 ^ 22 }
    requires holds { (base : Lives)
        × Holds types.now.declared.now base (M.lives machine.old) (names_of names.old) }
    requires owned { is_owning (value_of (names_of names.old name.now)) ≡ true }
    ensures performed { OnOk result
        ((os : List Open) → lock_of os ≡ held_lock_is.Nothing
        → Performed (declared_of types.now) (M.level machine.old) (M.around machine.old)
        (M.around machine.old) (M.behind machine.old) (M.lists machine.old)
        (M.lists machine.new) (M.guarded machine.old) (M.guarded machine.old)
        (action.Drop name.now) (names_of names.old) (names_of names.new) os os
        (M.lives machine.old) (M.lives machine.new) (M.asked machine.old)
        (M.asked machine.new) (M.log machine.old) (M.log machine.new)) }
    ensures sound { OnOk result (M.sound machine.new) }
    ensures level { OnOk result (M.level machine.new ≡ M.level machine.old) }
    ensures processor { OnOk result (M.processor machine.new ≡ M.processor machine.old) }
    ensures behind { OnOk result (M.behind machine.new ≡ M.behind machine.old) }
    ensures through { M.through machine.new ≡ M.through machine.old }
    ensures guarded { OnOk result (M.guarded machine.new ≡ M.guarded machine.old) }
    ensures asked { OnOk result (M.asked machine.new ≤ M.asked machine.old + 2) }
    ensures around { OnOk result (M.around machine.new ≡ M.around machine.old) }
    ensures keeps { OnOk result (M.keeps machine.old machine.new) }
    ensures yields { OnOk result
        (Unyielding (M.level machine.old) (M.log machine.old) (M.log machine.new)) }
    ensures known { names.new.names.keys ≡ names.old.names.keys }
    ensures bare { M.behind machine.old ≡ None → IsOk result }
{
    let Holding::Object(type_id, object) = names.holding(name.as_bytes()) else {
        unreachable!();
    };
    let Some(declared) = types.declared.get(type_id.0) else {
        unreachable!();
    };
    machine.dispose(object, declared.counted);
    let Ok(()) = names.put(name.as_bytes(), Holding::Nothing) else {
        unreachable!();
    };
    machine.settle()
}

// Takes what the name that is given holds out of a table: the name holds nothing then. None where no name is given.
fn take_given(names: &mut NameTable, given: &Option<Name>) -> Option<ObjId>
    requires gives { (t : TypeIdValue) × Gives t given.now (names_of names.old) }
    ensures puts { (t : TypeIdValue) → Gives t given.now (names_of names.old)
        → Puts given.now t (names_of names.old) result (names_of names.new) }
    ensures known { names.new.names.keys ≡ names.old.names.keys }
{
    let Some(given) = given else {
        return None;
    };
    let Holding::Object(_, object) = names.holding(given.as_bytes()) else {
        unreachable!();
    };
    let Ok(()) = names.put(given.as_bytes(), Holding::Nothing) else {
        unreachable!();
    };
    Some(object)
}

// `xchg y s x` and `xchg y s null`: puts what x holds, or null, into the slot s. Then y holds what was there, and x nothing, unless it is
// y.
fn perform_exchange<'s, M: Machine>(
    names: &mut NameTable,
    machine: &mut M,
    types: &Types<'s>,
    name: &'s Name,
    slot: MapId,
    given: &'s Option<Name>,
)
    requires sound { M.sound machine.old }
    requires declared { M.declared machine.old ≡ declared_of types.now }
    requires room { M.asked machine.old + 1 < 2 ^ 22 }
    requires holds { (base : Lives)
        × Holds types.now.declared.now base (M.lives machine.old) (names_of names.old) }
    requires can { can_run_action (declared_of types.now)
        (action.Exchange name.now slot given.now) ≡ true }
    requires gives { (m : MapDeclarationValue) → IsSlot types.now.maps.now slot.0 m
        → Gives m.type_id given.now (names_of names.old) }
    requires free { is_owning (value_of (names_without given.now (names_of names.old) name.now))
        ≡ false }
    requires there { has_name names.old name.now ≡ true }
    ensures performed { (os : List Open)
        → Quiet (lock_of os) (M.behind machine.old) (M.lists machine.old)
        → Performed (declared_of types.now) (M.level machine.old)
        (M.around machine.old) (M.around machine.new) (M.behind machine.old)
        (M.lists machine.old) (M.lists machine.new) (M.guarded machine.old) (M.guarded machine.old)
        (action.Exchange name.now slot given.now)
        (names_of names.old) (names_of names.new) os os (M.lives machine.old) (M.lives machine.new)
        (M.asked machine.old) (M.asked machine.new) (M.log machine.old) (M.log machine.new) }
    ensures sound { M.sound machine.new }
    ensures level { M.level machine.new ≡ M.level machine.old }
    ensures processor { M.processor machine.new ≡ M.processor machine.old }
    ensures behind { M.behind machine.new ≡ M.behind machine.old }
    ensures through { M.through machine.new ≡ M.through machine.old }
    ensures guarded { M.guarded machine.new ≡ M.guarded machine.old }
    ensures asked { M.asked machine.new ≤ M.asked machine.old + 1 }
    ensures around { M.around machine.new ≡ M.around machine.old }
    ensures keeps { M.keeps machine.old machine.new }
    ensures yields { Unyielding (M.level machine.old) (M.log machine.old) (M.log machine.new) }
    ensures known { names.new.names.keys ≡ names.old.names.keys }
{
    let Some(declared) = types.maps.get(slot.0) else {
        unreachable!();
    };
    let put = take_given(names, given);
    let was = machine.exchange(slot, declared.name.duplicate(), put);
    let Ok(()) = names.put(name.as_bytes(), holding_of(declared.type_id, was)) else {
        unreachable!();
    };
}

// `lock g`: takes the lock of a list or tree, and statements are under it from then on.
fn perform_lock<'s, M: Machine>(
    frame: &mut Frame<'s>,
    machine: &mut M,
    types: &Types<'s>,
    graph: MapId,
)
    requires sound { M.sound machine.old }
    requires declared { M.declared machine.old ≡ declared_of types.now }
    requires room { M.asked machine.old + 1 < 2 ^ 22 }
    requires ground { M.level machine.old ≡ 0 }
    requires free { (M.guarded machine.old).lock ≡ None }
    requires lock { lock_of (reverse frame.old.blocks.items) ≡ held_lock_is.Nothing }
    requires open { 0 < length (reverse frame.old.blocks.items) }
    requires can { can_run_action (declared_of types.now) (action.Lock graph) ≡ true }
    ensures performed { (names : Names) → Performed (declared_of types.now) (M.level machine.old)
        (M.around machine.old) (M.around machine.new) (M.behind machine.old)
        (M.lists machine.old) (M.lists machine.new) (M.guarded machine.old) (M.guarded machine.new)
        (action.Lock graph) names names
        (reverse frame.old.blocks.items) (reverse frame.new.blocks.items)
        (M.lives machine.old) (M.lives machine.new) (M.asked machine.old) (M.asked machine.new)
        (M.log machine.old) (M.log machine.new) }
    ensures sound { M.sound machine.new }
    ensures level { M.level machine.new ≡ M.level machine.old }
    ensures processor { M.processor machine.new ≡ M.processor machine.old }
    ensures behind { M.behind machine.new ≡ M.behind machine.old }
    ensures through { M.through machine.new ≡ M.through machine.old }
    ensures asked { M.asked machine.new ≤ M.asked machine.old + 1 }
    ensures keeps { M.keeps machine.old machine.new }
    ensures yields { Unyielding (M.level machine.old) (M.log machine.old) (M.log machine.new) }
{
    let Some(declared) = types.maps.get(graph.0) else {
        unreachable!();
    };
    machine.lock(graph, declared.name.duplicate());
    set_lock(&mut frame.blocks, HeldLock::Here(graph));
}

// `unlock`: gives back the lock that is held. No name holds a non-owning reference from then on, and the deferred work runs that waited.
fn perform_unlock<'s, M: Machine>(
    frame: &mut Frame<'s>,
    names: &mut NameTable,
    machine: &mut M,
    types: &Types<'s>,
) -> Result<(), NoMemory>
    requires sound { M.sound machine.old }
    requires declared { M.declared machine.old ≡ declared_of types.now }
    requires room { M.asked machine.old + 2 < 2 ^ 22 }
    requires ground { M.level machine.old ≡ 0 }
    requires held { (g : MapIdValue)
        × (lock_of (reverse frame.old.blocks.items) ≡ held_lock_is.Here g)
        × ((M.guarded machine.old).lock ≡ Some g.0) × IsLock types.now.maps.now (Some g) }
    requires open { 0 < length (reverse frame.old.blocks.items) }
    ensures performed { OnOk result (Performed (declared_of types.now) (M.level machine.old)
        (M.around machine.old) (M.around machine.new) (M.behind machine.old)
        (M.lists machine.old) (M.lists machine.new) (M.guarded machine.old) (M.guarded machine.new)
        action.Unlock (names_of names.old) (names_of names.new)
        (reverse frame.old.blocks.items) (reverse frame.new.blocks.items)
        (M.lives machine.old) (M.lives machine.new) (M.asked machine.old) (M.asked machine.new)
        (M.log machine.old) (M.log machine.new)) }
    ensures sound { OnOk result (M.sound machine.new) }
    ensures level { OnOk result (M.level machine.new ≡ M.level machine.old) }
    ensures processor { OnOk result (M.processor machine.new ≡ M.processor machine.old) }
    ensures behind { OnOk result (M.behind machine.new ≡ M.behind machine.old) }
    ensures through { M.through machine.new ≡ M.through machine.old }
    ensures asked { OnOk result (M.asked machine.new ≤ M.asked machine.old + 2) }
    ensures keeps { OnOk result (M.keeps machine.old machine.new) }
    ensures yields { OnOk result
        (Unyielding (M.level machine.old) (M.log machine.old) (M.log machine.new)) }
    ensures known { names.new.names.keys ≡ names.old.names.keys }
{
    let HeldLock::Here(graph) = held_lock(&frame.blocks) else {
        unreachable!();
    };
    let Some(declared) = types.maps.get(graph.0) else {
        unreachable!();
    };
    machine.unlock(graph, declared.name.duplicate());
    names.end_soft();
    set_lock(&mut frame.blocks, HeldLock::Nothing);
    machine.settle()
}

// Lets a name that is in a table hold this.
fn set_name(names: &mut NameTable, name: &Name, holding: Holding)
    requires there { has_name names.old name.now ≡ true }
    ensures held { names_of names.new ≡ with_name name.now (held_of holding) (names_of names.old) }
    ensures known { names.new.names.keys ≡ names.old.names.keys }
{
    let Ok(()) = names.put(name.as_bytes(), holding) else {
        unreachable!();
    };
}

// `push_front q x`, `push_back q x` and `add t x`: puts what x holds into a list or tree. Where the object is in one already its reference is given
// up, and else x holds a non-owning one, or nothing where objects of its type are counted.
fn perform_push<'s, M: Machine>(
    names: &mut NameTable,
    machine: &mut M,
    types: &Types<'s>,
    name: &'s Name,
    graph: MapId,
    way: Way,
) -> Result<(), NoMemory>
    requires sound { M.sound machine.old }
    requires declared { M.declared machine.old ≡ declared_of types.now }
    requires room { M.asked machine.old + 2 < 2 ^ 22 }
    requires ground { M.level machine.old ≡ 0 }
    requires held { (M.guarded machine.old).lock ≡ Some graph.0 }
    requires holds { (base : Lives)
        × Holds types.now.declared.now base (M.lives machine.old) (names_of names.old) }
    requires can { is_graph (is_for_tree way) (slice_get types.now.maps.now graph.0) ≡ true }
    requires keyed { way ≡ way_is.Ordered
        → has_key types.now.declared.now (slice_get types.now.maps.now graph.0) ≡ true }
    requires gives { (m : MapDeclarationValue)
        → IsGraph types.now.maps.now (is_for_tree way) graph.0 m
        → value_of (names_of names.old name.now) ≡ Owning m.type_id }
    ensures performed { OnOk result ((os : List Open) → locked_in (lock_of os) ≡ Some graph
        → Performed (declared_of types.now) (M.level machine.old)
        (M.around machine.old) (M.around machine.new) (M.behind machine.old)
        (M.lists machine.old) (M.lists machine.new) (M.guarded machine.old) (M.guarded machine.new)
        (push_action way graph name.now) (names_of names.old) (names_of names.new) os os
        (M.lives machine.old) (M.lives machine.new) (M.asked machine.old) (M.asked machine.new)
        (M.log machine.old) (M.log machine.new)) }
    ensures sound { OnOk result (M.sound machine.new) }
    ensures level { OnOk result (M.level machine.new ≡ M.level machine.old) }
    ensures processor { OnOk result (M.processor machine.new ≡ M.processor machine.old) }
    ensures behind { OnOk result (M.behind machine.new ≡ M.behind machine.old) }
    ensures through { M.through machine.new ≡ M.through machine.old }
    ensures asked { OnOk result (M.asked machine.new ≤ M.asked machine.old + 2) }
    ensures around { OnOk result (M.around machine.new ≡ M.around machine.old) }
    ensures keeps { OnOk result (M.keeps machine.old machine.new) }
    ensures yields { OnOk result
        (Unyielding (M.level machine.old) (M.log machine.old) (M.log machine.new)) }
    ensures known { names.new.names.keys ≡ names.old.names.keys }
{
    let Holding::Object(type_id, object) = names.holding(name.as_bytes()) else {
        unreachable!();
    };
    let Some(declared) = types.maps.get(graph.0) else {
        unreachable!();
    };
    let Some(of_type) = types.declared.get(type_id.0) else {
        unreachable!();
    };
    if machine.push(graph, declared.name.duplicate(), way, object)? {
        set_name(
            names,
            name,
            pushed_as(of_type.counted, type_id, graph, object),
        );
    } else {
        machine.dispose(object, of_type.counted);
        set_name(names, name, Holding::Nothing);
    }
    Ok(())
}

// `pop_front x q` and `pop_back x q`: takes an object from an end of a list, which x then holds, or null. No name holds a non-owning reference then.
fn perform_pop<'s, M: Machine>(
    names: &mut NameTable,
    machine: &mut M,
    types: &Types<'s>,
    name: &'s Name,
    list: MapId,
    end: End,
) -> Result<(), NoMemory>
    requires sound { M.sound machine.old }
    requires declared { M.declared machine.old ≡ declared_of types.now }
    requires room { M.asked machine.old + 1 < 2 ^ 22 }
    requires ground { M.level machine.old ≡ 0 }
    requires held { (M.guarded machine.old).lock ≡ Some list.0 }
    requires can { is_graph false (slice_get types.now.maps.now list.0) ≡ true }
    requires free { is_owning (value_of (names_of names.old name.now)) ≡ false }
    requires there { has_name names.old name.now ≡ true }
    ensures performed { OnOk result ((os : List Open) → locked_in (lock_of os) ≡ Some list
        → Performed (declared_of types.now) (M.level machine.old)
        (M.around machine.old) (M.around machine.new) (M.behind machine.old)
        (M.lists machine.old) (M.lists machine.new) (M.guarded machine.old) (M.guarded machine.new)
        (pop_action end list name.now) (names_of names.old) (names_of names.new) os os
        (M.lives machine.old) (M.lives machine.new) (M.asked machine.old) (M.asked machine.new)
        (M.log machine.old) (M.log machine.new)) }
    ensures sound { OnOk result (M.sound machine.new) }
    ensures level { OnOk result (M.level machine.new ≡ M.level machine.old) }
    ensures processor { OnOk result (M.processor machine.new ≡ M.processor machine.old) }
    ensures behind { OnOk result (M.behind machine.new ≡ M.behind machine.old) }
    ensures through { M.through machine.new ≡ M.through machine.old }
    ensures asked { OnOk result (M.asked machine.new ≤ M.asked machine.old + 1) }
    ensures around { OnOk result (M.around machine.new ≡ M.around machine.old) }
    ensures keeps { OnOk result (M.keeps machine.old machine.new) }
    ensures yields { OnOk result
        (Unyielding (M.level machine.old) (M.log machine.old) (M.log machine.new)) }
    ensures known { names.new.names.keys ≡ names.old.names.keys }
{
    let Some(declared) = types.maps.get(list.0) else {
        unreachable!();
    };
    let was = machine.pop(list, declared.name.duplicate(), end)?;
    names.end_soft();
    set_name(names, name, holding_of(declared.type_id, was));
    Ok(())
}

// `first x t`: looks for the first object of a tree, to which x then holds a non-owning reference, or null.
fn perform_first<'s, M: Machine>(
    names: &mut NameTable,
    machine: &mut M,
    types: &Types<'s>,
    name: &'s Name,
    tree: MapId,
) -> Result<(), NoMemory>
    requires sound { M.sound machine.old }
    requires declared { M.declared machine.old ≡ declared_of types.now }
    requires room { M.asked machine.old + 1 < 2 ^ 22 }
    requires ground { M.level machine.old ≡ 0 }
    requires held { (M.guarded machine.old).lock ≡ Some tree.0 }
    requires can { is_graph true (slice_get types.now.maps.now tree.0) ≡ true }
    requires free { is_owning (value_of (names_of names.old name.now)) ≡ false }
    requires there { has_name names.old name.now ≡ true }
    ensures performed { OnOk result ((os : List Open) → locked_in (lock_of os) ≡ Some tree
        → Performed (declared_of types.now) (M.level machine.old)
        (M.around machine.old) (M.around machine.new) (M.behind machine.old)
        (M.lists machine.old) (M.lists machine.new) (M.guarded machine.old) (M.guarded machine.new)
        (action.First name.now tree) (names_of names.old) (names_of names.new) os os
        (M.lives machine.old) (M.lives machine.new) (M.asked machine.old) (M.asked machine.new)
        (M.log machine.old) (M.log machine.new)) }
    ensures sound { OnOk result (M.sound machine.new) }
    ensures level { OnOk result (M.level machine.new ≡ M.level machine.old) }
    ensures processor { OnOk result (M.processor machine.new ≡ M.processor machine.old) }
    ensures behind { OnOk result (M.behind machine.new ≡ M.behind machine.old) }
    ensures through { M.through machine.new ≡ M.through machine.old }
    ensures asked { OnOk result (M.asked machine.new ≤ M.asked machine.old + 1) }
    ensures around { OnOk result (M.around machine.new ≡ M.around machine.old) }
    ensures keeps { OnOk result (M.keeps machine.old machine.new) }
    ensures yields { OnOk result
        (Unyielding (M.level machine.old) (M.log machine.old) (M.log machine.new)) }
    ensures known { names.new.names.keys ≡ names.old.names.keys }
{
    let Some(declared) = types.maps.get(tree.0) else {
        unreachable!();
    };
    let item = machine.first(tree, declared.name.duplicate())?;
    set_name(names, name, found_as(declared.type_id, tree, item));
    Ok(())
}

// `remove y t x`: takes the object out of a tree to which x holds a non-owning reference, and y then holds it; null where x holds null. No name
// holds a non-owning reference then.
fn perform_remove<'s, M: Machine>(
    names: &mut NameTable,
    machine: &mut M,
    types: &Types<'s>,
    name: &'s Name,
    tree: MapId,
    node: &'s Name,
) -> Result<(), NoMemory>
    requires sound { M.sound machine.old }
    requires declared { M.declared machine.old ≡ declared_of types.now }
    requires room { M.asked machine.old + 1 < 2 ^ 22 }
    requires ground { M.level machine.old ≡ 0 }
    requires held { (M.guarded machine.old).lock ≡ Some tree.0 }
    requires can { is_graph true (slice_get types.now.maps.now tree.0) ≡ true }
    requires node { (value_of (names_of names.old node.now) ≡ Null)
        ⊎ ((t : TypeIdValue) × (value_of (names_of names.old node.now) ≡ NonOwning t tree)) }
    requires typed { (t : TypeIdValue) (u n : ℕ) (m : MapDeclarationValue)
        → names_of names.old node.now ≡ Soft t tree u n
        → IsGraph types.now.maps.now true tree.0 m → (t ≡ m.type_id)
        × IsShelved types.now.declared.now t.0 tree.0 (M.guarded machine.old) u n }
    requires free { is_owning (value_of (names_of names.old name.now)) ≡ false }
    requires there { has_name names.old name.now ≡ true }
    ensures performed { OnOk result ((os : List Open) → locked_in (lock_of os) ≡ Some tree
        → Performed (declared_of types.now) (M.level machine.old)
        (M.around machine.old) (M.around machine.new) (M.behind machine.old)
        (M.lists machine.old) (M.lists machine.new) (M.guarded machine.old) (M.guarded machine.new)
        (action.Remove name.now tree node.now) (names_of names.old) (names_of names.new) os os
        (M.lives machine.old) (M.lives machine.new) (M.asked machine.old) (M.asked machine.new)
        (M.log machine.old) (M.log machine.new)) }
    ensures sound { OnOk result (M.sound machine.new) }
    ensures level { OnOk result (M.level machine.new ≡ M.level machine.old) }
    ensures processor { OnOk result (M.processor machine.new ≡ M.processor machine.old) }
    ensures behind { OnOk result (M.behind machine.new ≡ M.behind machine.old) }
    ensures through { M.through machine.new ≡ M.through machine.old }
    ensures asked { OnOk result (M.asked machine.new ≤ M.asked machine.old + 1) }
    ensures around { OnOk result (M.around machine.new ≡ M.around machine.old) }
    ensures keeps { OnOk result (M.keeps machine.old machine.new) }
    ensures yields { OnOk result
        (Unyielding (M.level machine.old) (M.log machine.old) (M.log machine.new)) }
    ensures known { names.new.names.keys ≡ names.old.names.keys }
{
    let Some(declared) = types.maps.get(tree.0) else {
        unreachable!();
    };
    match names.holding(node.as_bytes()) {
        Holding::Soft(_, _, object) => {
            machine.remove(tree, declared.name.duplicate(), object)?;
            names.end_soft();
            set_name(names, name, Holding::Object(declared.type_id, object));
            Ok(())
        }
        Holding::Null => {
            names.end_soft();
            set_name(names, name, Holding::Null);
            Ok(())
        }
        _ => unreachable!(),
    }
}

// `section`: its block is opened, in a plain section that begins where the code is in none.
fn perform_section<'s, M: Machine>(frame: &mut Frame<'s>, machine: &mut M, body: &'s Block)
    requires sound { M.sound machine.old }
    requires room { M.asked machine.old + 2 < 2 ^ 22 }
    requires fits { array_vec_len frame.old.blocks < 16 }
    requires down { Quiet (lock_of (reverse frame.old.blocks.items))
        (M.behind machine.old) (M.lists machine.old) }
    requires open { 0 < length (reverse frame.old.blocks.items) }
    ensures performed { (d : Declared) (names : Names)
        → Performed d (M.level machine.old) (M.around machine.old) (M.around machine.new)
        (M.behind machine.old) (M.lists machine.old) (M.lists machine.new)
        (M.guarded machine.old) (M.guarded machine.old) (action.Section body.now) names names
        (reverse frame.old.blocks.items) (reverse frame.new.blocks.items) (M.lives machine.old)
        (M.lives machine.new) (M.asked machine.old) (M.asked machine.new) (M.log machine.old)
        (M.log machine.new) }
    ensures sound { M.sound machine.new }
    ensures level { M.level machine.new ≡ M.level machine.old }
    ensures processor { M.processor machine.new ≡ M.processor machine.old }
    ensures behind { M.behind machine.new ≡ M.behind machine.old }
    ensures through { M.through machine.new ≡ M.through machine.old }
    ensures guarded { M.guarded machine.new ≡ M.guarded machine.old }
    ensures asked { M.asked machine.new ≤ M.asked machine.old + 2 }
    ensures keeps { M.keeps machine.old machine.new }
    ensures yields { Unyielding (M.level machine.old) (M.log machine.old) (M.log machine.new) }
{
    if machine.is_inside() {
        open_block(&mut frame.blocks, body, false);
    } else {
        machine.enter();
        open_block(&mut frame.blocks, body, true);
    }
}

// Whether a statement is a `yield`.
fn is_yield(action: &Action) -> bool
    ensures { result ≡ is_yield action.now }
{
    matches!(action, Action::Yield)
}

// Performs a statement that was taken off the open blocks, where no work is left to run, unless under a lock. Deferred work runs behind a call, and is
// out of memory where this is, or where a list or tree is; so no statement of a handler is where no work runs.
fn perform<'s, M: Machine>(
    frame: &mut Frame<'s>,
    names: &mut NameTable,
    machine: &mut M,
    types: &Types<'s>,
    statement: &'s Statement,
) -> Result<(), NoMemory>
    requires sound { M.sound machine.old }
    requires declared { M.declared machine.old ≡ declared_of types.now }
    requires classes { Classes types.now.declared.now types.now.classes.now }
    requires room { M.asked machine.old + 3 < 2 ^ 22 }
    requires holds { (base : Lives)
        × Holds types.now.declared.now base (M.lives machine.old) (names_of names.old) }
    requires may { may_run (declared_of types.now) (has_name names.old)
        (length (reverse frame.old.blocks.items)) statement.now.action
        ≡ true }
    requires down { Quiet (lock_of (reverse frame.old.blocks.items))
        (M.behind machine.old) (M.lists machine.old) }
    requires open { 0 < length (reverse frame.old.blocks.items) }
    requires sees { Sees (declared_of types.now) (M.guarded machine.old)
        (lock_of (reverse frame.old.blocks.items)) (names_of names.old) }
    requires needed { (e : Setting) × (e.types ≡ types.now.declared.now)
        × (e.maps ≡ types.now.maps.now)
        × Guards types.now.maps.now (is_handler e.kind) (M.level machine.old)
        (M.guarded machine.old) (lock_of (reverse frame.old.blocks.items))
        × SafeAction e (store_of (names_of names.old) (lock_of (reverse frame.old.blocks.items)))
        statement.now.action (λ r. SafeStack e r (reverse frame.old.blocks.items)) }
    ensures performed { OnOk result
        (Performed (declared_of types.now) (M.level machine.old) (M.around machine.old)
        (M.around machine.new) (M.behind machine.old) (M.lists machine.old)
        (M.lists machine.new) (M.guarded machine.old) (M.guarded machine.new)
        statement.now.action (names_of names.old) (names_of names.new)
        (reverse frame.old.blocks.items) (reverse frame.new.blocks.items) (M.lives machine.old)
        (M.lives machine.new) (M.asked machine.old) (M.asked machine.new) (M.log machine.old)
        (M.log machine.new)) }
    ensures sound { OnOk result (M.sound machine.new) }
    ensures level { OnOk result (M.level machine.new ≡ M.level machine.old) }
    ensures processor { OnOk result (M.processor machine.new ≡ M.processor machine.old) }
    ensures behind { OnOk result (M.behind machine.new ≡ M.behind machine.old) }
    ensures through { M.through machine.new ≡ M.through machine.old }
    ensures above { OnOk result (0 < M.level machine.old
        → M.guarded machine.new ≡ M.guarded machine.old) }
    ensures asked { OnOk result (M.asked machine.new ≤ M.asked machine.old + 3) }
    ensures keeps { OnOk result (M.keeps machine.old machine.new) }
    ensures yields { OnOk result
        (YieldsBy (is_yield statement.now.action) (M.level machine.old) (M.log machine.old)
        (M.log machine.new)) }
    ensures known { names.new.names.keys ≡ names.old.names.keys }
    ensures bare { M.behind machine.old ≡ None → 0 < M.level machine.old → IsOk result }
{
    match &statement.action {
        Action::New {
            name,
            type_id,
            values,
        } => perform_new(names, machine, types, name, *type_id, values),
        Action::Drop { name } => perform_drop(names, machine, types, name),
        Action::Acquire { name, of } => {
            perform_acquire(names, machine, types, name, of);
            Ok(())
        }
        Action::Get { name, field } => {
            perform_get(names, machine, types, name, field);
            Ok(())
        }
        Action::Exchange { name, slot, given } => {
            perform_exchange(names, machine, types, name, *slot, given);
            Ok(())
        }
        Action::If {
            name,
            body,
            otherwise,
        } => match names.holding(name.as_bytes()) {
            Holding::Object(_, _) => {
                open_block(&mut frame.blocks, body, false);
                Ok(())
            }
            Holding::Soft(_, _, _) => {
                open_block(&mut frame.blocks, body, false);
                Ok(())
            }
            Holding::Null => match otherwise {
                Some(block) => {
                    open_block(&mut frame.blocks, block, false);
                    Ok(())
                }
                None => Ok(()),
            },
            Holding::Nothing => unreachable!(),
        },
        Action::Repeat { count, body } => {
            repeat_block(&mut frame.blocks, *count, body);
            Ok(())
        }
        Action::Section { body } => {
            perform_section(frame, machine, body);
            Ok(())
        }
        Action::Yield => {
            machine.pause();
            Ok(())
        }
        Action::Lock { graph } => {
            perform_lock(frame, machine, types, *graph);
            Ok(())
        }
        Action::Unlock => perform_unlock(frame, names, machine, types),
        Action::PushFront { list, name } => {
            perform_push(names, machine, types, name, *list, Way::Front)
        }
        Action::PushBack { list, name } => {
            perform_push(names, machine, types, name, *list, Way::Back)
        }
        Action::Add { tree, name } => {
            perform_push(names, machine, types, name, *tree, Way::Ordered)
        }
        Action::PopFront { name, list } => {
            perform_pop(names, machine, types, name, *list, End::Front)
        }
        Action::PopBack { name, list } => {
            perform_pop(names, machine, types, name, *list, End::Back)
        }
        Action::First { name, tree } => perform_first(names, machine, types, name, *tree),
        Action::Remove { name, tree, node } => {
            perform_remove(names, machine, types, name, *tree, node)
        }
    }
}

/// Runs a script from where its frame stands up to and with its next `yield`, or without one to its end: one statement after the
/// other, each with the deferred work behind it. No work is left to run before it, nor after it. A script that the checker accepts is
/// never stuck, whatever the machine replies. Where it yields, the frame stands behind the `yield`, and what was needed of it, its names
/// and the machine still holds. At its end its names own nothing: names hold references then to those objects to which they held them
/// before the script began, and as many. The names that it binds are in the table already. No lock is held before it, nor after it. So out of memory in
/// the deferred work, or in a list or tree, is the only other way to stop, and in a handler's script behind which no work runs there is none; the machine
/// is of no further use then.
pub fn resume<'s, M: Machine>(
    frame: &mut Frame<'s>,
    names: &mut NameTable,
    machine: &mut M,
    types: &Types<'s>,
) -> Stopped
    requires sound { M.sound machine.old }
    requires declared { M.declared machine.old ≡ declared_of types.now }
    requires classes { Classes types.now.declared.now types.now.classes.now }
    requires room { M.asked machine.old + 3 * stack_cost (reverse frame.old.blocks.items) < 2 ^ 22 }
    requires can { CanGoOn (declared_of types.now) (M.level machine.old) (M.around machine.old)
        (M.behind machine.old) (M.lists machine.old) (M.lives machine.old) names.old
        (reverse frame.old.blocks.items) }
    requires unlocked { M.level machine.old ≡ 0 → (M.guarded machine.old).lock ≡ None }
    ensures turn { IsTurn result (M.level machine.old) (M.log machine.old) (M.log machine.new) }
    ensures ended { result ≡ stopped.Ended
        → Ran (declared_of types.now) (M.level machine.old) (M.around machine.old)
        (M.behind machine.old) (M.lists machine.old) (names_of names.old) (names_of names.new)
        (reverse frame.old.blocks.items) (M.log machine.old) (M.log machine.new) }
    ensures yielded { result ≡ stopped.Yielded
        → Went (declared_of types.now) (M.level machine.old) (M.around machine.old)
        (M.around machine.new) (M.behind machine.old) (M.lists machine.old)
        (M.lists machine.new) (M.guarded machine.old) (M.guarded machine.new)
        (names_of names.old) (names_of names.new) (reverse frame.old.blocks.items)
        (reverse frame.new.blocks.items) (M.lives machine.old) (M.lives machine.new)
        (M.asked machine.old) (M.asked machine.new) (M.log machine.old) (M.log machine.new) }
    ensures can { result ≡ stopped.Yielded
        → CanGoOn (declared_of types.now) (M.level machine.new) (M.around machine.new)
        (M.behind machine.new) (M.lists machine.new) (M.lives machine.new) names.new
        (reverse frame.new.blocks.items) }
    ensures less { result ≡ stopped.Yielded
        → weight (reverse frame.new.blocks.items) < weight (reverse frame.old.blocks.items) }
    ensures lives { result ≡ stopped.Ended → (base : Lives)
        → Holds types.now.declared.now base (M.lives machine.old) (names_of names.old)
        → M.lives machine.new ≡ base }
    ensures asked { result ≡ stopped.Ended
        → M.asked machine.new
        ≤ M.asked machine.old + 3 * stack_cost (reverse frame.old.blocks.items) }
    ensures down { IfWent result (Behind (M.behind machine.old) (M.lists machine.new) []) }
    ensures sound { IfWent result (M.sound machine.new) }
    ensures level { IfWent result (M.level machine.new ≡ M.level machine.old) }
    ensures processor { IfWent result (M.processor machine.new ≡ M.processor machine.old) }
    ensures behind { IfWent result (M.behind machine.new ≡ M.behind machine.old) }
    ensures through { M.through machine.new ≡ M.through machine.old }
    ensures unlocked { IfWent result (M.level machine.old ≡ 0
        → (M.guarded machine.new).lock ≡ None) }
    ensures above { IfWent result (0 < M.level machine.old
        → M.guarded machine.new ≡ M.guarded machine.old) }
    ensures around { result ≡ stopped.Ended → (base : Around)
        → Sectioned base (M.around machine.old) (reverse frame.old.blocks.items)
        → M.around machine.new ≡ base }
    ensures keeps { IfWent result (M.keeps machine.old machine.new) }
    ensures known { names.new.names.keys ≡ names.old.names.keys }
    ensures bare { M.behind machine.old ≡ None → 0 < M.level machine.old → HasWent result }
{
    loop {
        match next_statement(&mut frame.blocks) {
            Next::Statement(statement) => {
                if perform(frame, names, machine, types, statement).is_err() {
                    return Stopped::NoMemory;
                }
                if is_yield(&statement.action) {
                    return Stopped::Yielded;
                }
            }
            Next::Leave => machine.leave(),
            Next::End => return Stopped::Ended,
        }
    }
}

// Runs a script from where its frame stands to its end, on from each `yield`.
fn run_on<'s, M: Machine>(
    frame: &mut Frame<'s>,
    names: &mut NameTable,
    machine: &mut M,
    types: &Types<'s>,
) -> Result<(), NoMemory>
    requires sound { M.sound machine.old }
    requires declared { M.declared machine.old ≡ declared_of types.now }
    requires classes { Classes types.now.declared.now types.now.classes.now }
    requires room { M.asked machine.old + 3 * stack_cost (reverse frame.old.blocks.items) < 2 ^ 22 }
    requires can { CanGoOn (declared_of types.now) (M.level machine.old) (M.around machine.old)
        (M.behind machine.old) (M.lists machine.old) (M.lives machine.old) names.old
        (reverse frame.old.blocks.items) }
    requires unlocked { M.level machine.old ≡ 0 → (M.guarded machine.old).lock ≡ None }
    ensures ended { OnOk result
        (Ran (declared_of types.now) (M.level machine.old) (M.around machine.old)
        (M.behind machine.old) (M.lists machine.old) (names_of names.old) (names_of names.new)
        (reverse frame.old.blocks.items) (M.log machine.old) (M.log machine.new)) }
    ensures lives { OnOk result
        ((base : Lives)
        → Holds types.now.declared.now base (M.lives machine.old) (names_of names.old)
        → M.lives machine.new ≡ base) }
    ensures asked { OnOk result
        (M.asked machine.new
        ≤ M.asked machine.old + 3 * stack_cost (reverse frame.old.blocks.items)) }
    ensures down { OnOk result (Behind (M.behind machine.old) (M.lists machine.new) []) }
    ensures sound { OnOk result (M.sound machine.new) }
    ensures level { OnOk result (M.level machine.new ≡ M.level machine.old) }
    ensures processor { OnOk result (M.processor machine.new ≡ M.processor machine.old) }
    ensures behind { OnOk result (M.behind machine.new ≡ M.behind machine.old) }
    ensures through { M.through machine.new ≡ M.through machine.old }
    ensures above { OnOk result (0 < M.level machine.old
        → M.guarded machine.new ≡ M.guarded machine.old) }
    ensures around { OnOk result
        ((base : Around) → Sectioned base (M.around machine.old) (reverse frame.old.blocks.items)
        → M.around machine.new ≡ base) }
    ensures keeps { OnOk result (M.keeps machine.old machine.new) }
    ensures known { names.new.names.keys ≡ names.old.names.keys }
    ensures bare { M.behind machine.old ≡ None → 0 < M.level machine.old → IsOk result }
{
    'turns: loop {
        match resume(frame, names, machine, types) {
            Stopped::Ended => return Ok(()),
            Stopped::Yielded => {}
            Stopped::NoMemory => return Err(NoMemory),
        }
    }
}

/// Runs a handler's script that the checker accepted, whole, on a machine behind whose statements no deferred work runs. The
/// names that it binds are in the table already, so it takes no memory but the recorder's and refuses nothing. Whatever the
/// machine replies it is never stuck; what it leaves in the log is a run of its block from names that hold nothing, and at its
/// end its names own nothing, and names hold those references that they held before it.
pub fn run_handler<'s, M: Machine>(
    machine: &mut M,
    names: &mut NameTable,
    types: &Types<'s>,
    scenario: &Parts,
    script: &'s Script,
)
    requires sound { M.sound machine.old }
    requires declared { M.declared machine.old ≡ declared_of types.now }
    requires bare { M.behind machine.old ≡ None }
    requires above { 0 < M.level machine.old }
    requires handles { script.now.kind ≡ kind.Handler }
    requires classes { Classes types.now.declared.now types.now.classes.now }
    requires room { M.asked machine.old + 3 * block_cost script.now.body < 2 ^ 22 }
    requires can { can_run_block (declared_of types.now) script.now.body ≡ true }
    requires fits { block_fits 16 script.now.body ≡ true }
    requires accepted { Accepted scenario.now script.now }
    requires types { scenario.now.types ≡ types.now.declared.now }
    requires maps { scenario.now.maps ≡ types.now.maps.now }
    requires bound { binds_among (has_name names.old) script.now.body ≡ true }
    ensures ran { RanScript (declared_of types.now) (M.level machine.old)
        (is_inside (M.around machine.old)) None (M.lists machine.old) script.now (M.log machine.old)
        (M.log machine.new) }
    ensures lives { M.lives machine.new ≡ M.lives machine.old }
    ensures asked { M.asked machine.new ≤ M.asked machine.old + 3 * block_cost script.now.body }
    ensures names { names.new.names.keys ≡ names.old.names.keys }
    ensures sound { M.sound machine.new }
    ensures level { M.level machine.new ≡ M.level machine.old }
    ensures processor { M.processor machine.new ≡ M.processor machine.old }
    ensures behind { M.behind machine.new ≡ M.behind machine.old }
    ensures through { M.through machine.new ≡ M.through machine.old }
    ensures guarded { M.guarded machine.new ≡ M.guarded machine.old }
    ensures around { M.around machine.new ≡ M.around machine.old }
    ensures keeps { M.keeps machine.old machine.new }
{
    accepted_scripts_are_safe();
    names.clear();
    let mut frame = Frame::start(script);
    match run_on(&mut frame, names, machine, types) {
        Ok(()) => {}
        Err(NoMemory) => unreachable!(),
    }
}
