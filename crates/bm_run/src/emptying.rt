//! The emptying of the maps in the closing: what slots, lists and trees still hold is given up.

ghost use Rattle.std.specs.Prelude.{◌≡◌, ◌<◌, ◌+◌, ◌*◌, ◌^◌, ℕ, None, OnOk, Some, false, length, slice_get, true};
ghost use Rattle.bm_lang.specs.declared.scenario.TypeDeclaration.{TypeDeclaration as TypeValue};
ghost use Rattle.bm_law_order.specs.Graphs.{graph_at, standing_from};
ghost use Rattle.bm_law_scenario.specs.Closing.{EmptiesMap, EmptiesMaps, EmptiesSlot, GivesBack};
ghost use Rattle.bm_law_scenario.specs.Declared.{IsGraph, IsSlot};
ghost use Rattle.bm_law_work.specs.Grown.{GrewBy};
ghost use Rattle.bm_world.specs.Graphs.{items_in};
ghost use Rattle.bm_world.specs.ToldLiving.{knows_living};
ghost use Rattle.bm_exec.specs.Living.{HasType, Lives, TakenOut, let_go};
ghost use Rattle.bm_exec_levels.specs.AtProcessor.{Between, SameItems, SameLives, graphs_of, lists_of, lives_of, log_of};
ghost use Rattle.bm_exec_levels.specs.AtTie.{TiedAt};
ghost use Rattle.bm_exec_levels.specs.Ready.{asked_of};
ghost use Rattle.bm_exec_levels.specs.Sound.{Sound};
ghost use Rattle.bm_run.specs.Emptied.{EmptiedAt, HasRoomFor, IsClosing};

use bm_exec_levels::{
    Ordinary, Processor, Program, Since, exchange, first_item, give_up, pop, remove,
};
use bm_graph::End;
use bm_journal::ObjId;
use bm_lang::{MapDeclaration, MapId, MapKind, TypeDeclaration, TypeId};
use bm_word::NoMemory;
use bm_world::LivingSide;

// Whether objects of a declared type carry a count of references.
fn is_counted(types: &[TypeDeclaration], type_id: TypeId) -> bool
    requires declared { (t : TypeValue) × (slice_get types.now type_id.0 ≡ Some t) }
    ensures { HasType types.now type_id.0 result }
{
    types[type_id.0].counted
}

// Gives up, as ordinary code, a reference that was taken out of a map whose objects are of this type.
fn give_back<'s, B: Since<LivingSide>>(
    own: &mut Processor<LivingSide>,
    program: &'s Program<'s>,
    type_id: TypeId,
    object: ObjId,
)
    requires sound { Sound knows_living program.now own.old }
    requires tied { TiedAt knows_living B.since B.start own.old }
    requires taken { (lives : Lives) × TakenOut program.now.scenario.now.types type_id.0
        lives (lives_of knows_living own.old) object }
    requires room { asked_of knows_living program.now.scenario.now own.old + 1 < 2 ^ 22 }
    ensures grew { GrewBy (GivesBack program.now.scenario.now.types type_id (Some object))
        (lists_of own.old) (log_of own.old) (log_of own.new) }
    ensures lives { lives_of knows_living own.new
        ≡ let_go object.unit (lives_of knows_living own.old) }
    ensures items { SameItems knows_living own.old own.new }
    ensures between { Between knows_living 1 0 0 program.now own.old own.new }
    ensures sound { Sound knows_living program.now own.new }
    ensures tied { TiedAt knows_living B.since B.start own.new }
{
    let counted = is_counted(program.scenario.types.as_slice(), type_id);
    give_up::<LivingSide, B, Ordinary>(own, program, object, counted);
}

// Exchanges a slot, by its place, with null, and gives up what it held, as ordinary code.
fn empty_slot<'s, B: Since<LivingSide>>(
    own: &mut Processor<LivingSide>,
    program: &'s Program<'s>,
    place: MapId,
    slot: &MapDeclaration,
)
    requires sound { Sound knows_living program.now own.old }
    requires tied { TiedAt knows_living B.since B.start own.old }
    requires slot { IsSlot program.now.scenario.now.maps place.0 slot.now }
    requires room { asked_of knows_living program.now.scenario.now own.old + 2 < 2 ^ 22 }
    ensures grew { GrewBy (EmptiesSlot program.now.scenario.now.types slot.now)
        (lists_of own.old) (log_of own.old) (log_of own.new) }
    ensures lives { SameLives knows_living own.old own.new }
    ensures between { Between knows_living 2 0 0 program.now own.old own.new }
    ensures sound { Sound knows_living program.now own.new }
    ensures tied { TiedAt knows_living B.since B.start own.new }
{
    let name = slot.name.duplicate();
    let Some(object) = exchange::<LivingSide, B, Ordinary>(own, program, place, name, None) else {
        return;
    };
    give_back::<B>(own, program, slot.type_id, object);
}

// Pops a list, by its place, from the front until it is empty, and gives up each object that it had, as ordinary code. Want of memory is
// the only refusal. From `bpf_list_head_free` of kernel/bpf/helpers.c.
fn empty_list<'s, B: Since<LivingSide>>(
    own: &mut Processor<LivingSide>,
    program: &'s Program<'s>,
    place: MapId,
    list: &MapDeclaration,
) -> Result<(), NoMemory>
    requires sound { Sound knows_living program.now own.old }
    requires tied { TiedAt knows_living B.since B.start own.old }
    requires closing { IsClosing own.old }
    requires list { IsGraph program.now.scenario.now.maps false place.0 list.now }
    requires room { let nodes = (graph_at place.0 (graphs_of knows_living own.old)).nodes in
        asked_of knows_living program.now.scenario.now own.old + 2 + 3 * length nodes < 2 ^ 22 }
    ensures grew { OnOk result (
        GrewBy (EmptiesMap program.now.scenario.now.types list.now.kind list.now)
        (lists_of own.old) (log_of own.old) (log_of own.new)) }
    ensures lives { OnOk result (lives_of knows_living own.new ≡ lives_of knows_living own.old) }
    ensures emptied { OnOk result (
        EmptiedAt place.0 (graphs_of knows_living own.old) (graphs_of knows_living own.new)) }
    ensures between { OnOk result (
        let nodes = (graph_at place.0 (graphs_of knows_living own.old)).nodes in
        Between knows_living (2 + 3 * length nodes) 0 0 program.now own.old own.new) }
    ensures sound { OnOk result (Sound knows_living program.now own.new) }
    ensures tied { OnOk result (TiedAt knows_living B.since B.start own.new) }
{
    while let Some(object) = pop::<LivingSide, B, Ordinary>(
        own,
        program,
        place,
        list.name.duplicate(),
        End::Front,
    )? {
        give_back::<B>(own, program, list.type_id, object);
    }
    Ok(())
}

// Removes the first object of a tree, by its place, until the tree is empty, and gives up each, as ordinary code. Want of memory is the
// only refusal. From `bpf_rb_root_free` of kernel/bpf/helpers.c.
fn empty_tree<'s, B: Since<LivingSide>>(
    own: &mut Processor<LivingSide>,
    program: &'s Program<'s>,
    place: MapId,
    tree: &MapDeclaration,
) -> Result<(), NoMemory>
    requires sound { Sound knows_living program.now own.old }
    requires tied { TiedAt knows_living B.since B.start own.old }
    requires closing { IsClosing own.old }
    requires tree { IsGraph program.now.scenario.now.maps true place.0 tree.now }
    requires room { let nodes = (graph_at place.0 (graphs_of knows_living own.old)).nodes in
        asked_of knows_living program.now.scenario.now own.old + 2 + 3 * length nodes < 2 ^ 22 }
    ensures grew { OnOk result (
        GrewBy (EmptiesMap program.now.scenario.now.types tree.now.kind tree.now)
        (lists_of own.old) (log_of own.old) (log_of own.new)) }
    ensures lives { OnOk result (lives_of knows_living own.new ≡ lives_of knows_living own.old) }
    ensures emptied { OnOk result (
        EmptiedAt place.0 (graphs_of knows_living own.old) (graphs_of knows_living own.new)) }
    ensures between { OnOk result (
        let nodes = (graph_at place.0 (graphs_of knows_living own.old)).nodes in
        Between knows_living (2 + 3 * length nodes) 0 0 program.now own.old own.new) }
    ensures sound { OnOk result (Sound knows_living program.now own.new) }
    ensures tied { OnOk result (TiedAt knows_living B.since B.start own.new) }
{
    while let Some(object) = first_item::<LivingSide, B, Ordinary>(
        own,
        program,
        place,
        tree.name.duplicate(),
    )? {
        let name = tree.name.duplicate();
        remove::<LivingSide, B, Ordinary>(own, program, place, name, object)?;
        give_back::<B>(own, program, tree.type_id, object);
    }
    Ok(())
}

// Empties a map, by its place, as ordinary code. Want of memory is the only refusal.
fn empty_map<'s, B: Since<LivingSide>>(
    own: &mut Processor<LivingSide>,
    program: &'s Program<'s>,
    place: MapId,
    map: &MapDeclaration,
) -> Result<(), NoMemory>
    requires sound { Sound knows_living program.now own.old }
    requires tied { TiedAt knows_living B.since B.start own.old }
    requires closing { IsClosing own.old }
    requires found { slice_get program.now.scenario.now.maps place.0 ≡ Some map.now }
    requires room { let nodes = (graph_at place.0 (graphs_of knows_living own.old)).nodes in
        asked_of knows_living program.now.scenario.now own.old + 2 + 3 * length nodes < 2 ^ 22 }
    ensures grew { OnOk result (
        GrewBy (EmptiesMap program.now.scenario.now.types map.now.kind map.now)
        (lists_of own.old) (log_of own.old) (log_of own.new)) }
    ensures lives { OnOk result (lives_of knows_living own.new ≡ lives_of knows_living own.old) }
    ensures emptied { OnOk result (
        EmptiedAt place.0 (graphs_of knows_living own.old) (graphs_of knows_living own.new)) }
    ensures between { OnOk result (
        let nodes = (graph_at place.0 (graphs_of knows_living own.old)).nodes in
        Between knows_living (2 + 3 * length nodes) 0 0 program.now own.old own.new) }
    ensures sound { OnOk result (Sound knows_living program.now own.new) }
    ensures tied { OnOk result (TiedAt knows_living B.since B.start own.new) }
{
    match map.kind {
        MapKind::Slot => {
            empty_slot::<B>(own, program, place, map);
            Ok(())
        }
        MapKind::List => empty_list::<B>(own, program, place, map),
        MapKind::Tree => empty_tree::<B>(own, program, place, map),
    }
}

/// Empties each map, in the order of their declarations, as ordinary code of processor 0 in the closing: exchanges a slot with null, pops a
/// list from the front until it is empty, and removes the first object of a tree until that is; and gives up what it took. Names hold then
/// what they held before, and nothing is in lists and trees. Want of memory is the only refusal. From `bpf_obj_free_fields` of
/// kernel/bpf/syscall.c.
pub(crate) fn empty_maps<'s, B: Since<LivingSide>>(
    own: &mut Processor<LivingSide>,
    program: &'s Program<'s>,
) -> Result<(), NoMemory>
    requires sound { Sound knows_living program.now own.old }
    requires tied { TiedAt knows_living B.since B.start own.old }
    requires closing { IsClosing own.old }
    requires room { HasRoomFor program.now own.old }
    ensures grew { OnOk result (let s = program.now.scenario.now in
        GrewBy (EmptiesMaps s.types s.maps) (lists_of own.old) (log_of own.old) (log_of own.new)) }
    ensures lives { OnOk result (lives_of knows_living own.new ≡ lives_of knows_living own.old) }
    ensures bare { OnOk result
        ((u : ℕ) → standing_from 0 (graphs_of knows_living own.new) u ≡ None) }
    ensures between { OnOk result (let maps = program.now.scenario.now.maps in
        Between knows_living (2 * length maps + 3 * items_in (graphs_of knows_living own.old)) 0 0
        program.now own.old own.new) }
    ensures processor { OnOk result (own.new.caches.processor ≡ own.old.caches.processor) }
    ensures sound { OnOk result (Sound knows_living program.now own.new) }
    ensures tied { OnOk result (TiedAt knows_living B.since B.start own.new) }
{
    for (index, map) in program.scenario.maps.as_slice().iter().enumerate() {
        empty_map::<B>(own, program, MapId(index), map)?;
    }
    Ok(())
}
