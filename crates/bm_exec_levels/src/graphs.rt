//! Calls of the code of a level on lists and trees, and their locks.

ghost use Rattle.std.specs.Prelude.{◌≡◌, ◌≤◌, ◌∷◌, [], ◌+◌, ◌<◌, ◌^◌, ℕ, Bool, IfOk, IfSome, None, OnOk, Option, Some, false, is_some, length, slice_get, true};
ghost use Rattle.bm_graph.specs.Calls.{first_call};
ghost use Rattle.bm_graph.specs.Entries.{call_entry};
ghost use Rattle.bm_graph.specs.Ways.{is_for_tree, pop_call, push_call, refused_push};
ghost use Rattle.bm_graph.specs.declared.ways.Way.TheVariants as way_is;
ghost use Rattle.bm_journal.specs.declared.entry.Entry.TheVariants as entry;
ghost use Rattle.bm_journal.specs.declared.past.PastCall.TheVariants as past;
ghost use Rattle.bm_law.specs.Spans.{Records};
ghost use Rattle.bm_lang.specs.declared.scenario.MapDeclaration.{MapDeclaration};
ghost use Rattle.bm_law_order.specs.Calls.{lock_in};
ghost use Rattle.bm_law_order.specs.Graphs.{graph_at};
ghost use Rattle.bm_law_scenario.specs.Declared.{IsGraph};
ghost use Rattle.bm_plan.specs.Position.{StandsAt};
ghost use Rattle.bm_world.specs.Graphs.{end_node, first_node};
ghost use Rattle.bm_exec.specs.Guarded.{Found, HasLooked, IsShelved, Popped, PutIn, Refused, Removed, shelved_values};
ghost use Rattle.bm_exec.specs.Living.{IsToPut, values_in};
ghost use Rattle.bm_exec_levels.specs.AtPolls.{MayCall, home};
ghost use Rattle.bm_exec_levels.specs.AtProcessor.{Between, FineAt, IsAt, SameLives, graphs_of, guarded_of, lists_of, lives_of, log_of};
ghost use Rattle.bm_exec_levels.specs.AtTie.{TiedAt};
ghost use Rattle.bm_exec_levels.specs.Called.{CalledAt};
ghost use Rattle.bm_exec_levels.specs.Ready.{asked_of};
ghost use Rattle.bm_exec_levels.specs.declared.processor.Processor.{Processor as ProcessorValue};

use crate::calls::call;
use crate::processor::Processor;
use crate::program::Program;
use crate::ranks::Rank;
use bm_graph::{End, Way};
use bm_journal::{Entry, ObjId, Tag};
use bm_lang::{MapDeclaration, MapId};
use bm_word::{Name, NoMemory};
use bm_world::{Lives, Pushed, Since};

// How a log names that an object was put in.
fn put_in(name: Name, way: Way, object: ObjId, position: u32) -> Entry
    ensures { result ≡ call_entry name position [] (push_call way object 0) }
{
    match way {
        Way::Front => Entry::PushFront(name, object.unit, object.life, position),
        Way::Back => Entry::PushBack(name, object.unit, object.life, position),
        Way::Ordered => Entry::Add(name, object.unit, object.life, position),
    }
}

// How a log names that an object was refused, since the list or tree of the name `owner` has it.
fn refused(name: Name, way: Way, object: ObjId, owner: Name, position: u32) -> Entry
    ensures { (place : ℕ)
        → result ≡ call_entry name position owner (refused_push way object 0 place) }
{
    let ObjId { unit, life } = object;
    match way {
        Way::Front => Entry::PushFrontAlready(name, unit, life, owner, position),
        Way::Back => Entry::PushBackAlready(name, unit, life, owner, position),
        Way::Ordered => Entry::AddAlready(name, unit, life, owner, position),
    }
}

// How a log names what was taken from an end of a list.
fn popped(name: Name, end: End, item: Option<ObjId>, position: u32) -> Entry
    ensures { result ≡ call_entry name position [] (pop_call end item) }
{
    match end {
        End::Front => Entry::PopFront(name, item, position),
        End::Back => Entry::PopBack(name, item, position),
    }
}

/// Takes the lock of a list or tree, which has this name, as ordinary code that holds none. It takes no memory but the recorder's.
pub(crate) fn take_lock<'s, W: Lives, B: Since<W>, L: Rank>(
    own: &mut Processor<W>,
    program: &'s Program<'s>,
    graph: MapId,
    name: Name,
)
    requires at { IsAt W.Knows StandsAt L.number program.now own.old }
    requires tied { TiedAt W.Knows B.since B.start own.old }
    requires fine { FineAt W.Knows L.number own.old }
    requires ground { L.number ≡ 0 }
    requires free { own.old.locked ≡ None }
    requires graph { (b : Bool) × (m : MapDeclaration)
        × IsGraph program.now.scenario.now.maps b graph.0 m × (m.name ≡ name) }
    ensures locked { Records L.number (entry.Lock name ∷ []) (log_of own.old) (log_of own.new) }
    ensures lock { own.new.locked ≡ Some graph }
    ensures lists { lists_of own.new ≡ lists_of own.old }
    ensures lives { SameLives W.Knows own.old own.new }
    ensures at { IsAt W.Knows StandsAt L.number program.now own.new }
    ensures tied { TiedAt W.Knows B.since B.start own.new }
    ensures between { Between W.Knows 0 0 L.number program.now
        (record own.old { locked = own.new.locked }) own.new }
{
    own.locked = Some(graph);
    own.caches.note(L::level(), Entry::Lock(name));
}

/// Gives back the lock of a list or tree, which has this name, and which ordinary code holds. It takes no memory but the recorder's.
pub(crate) fn give_lock_back<'s, W: Lives, B: Since<W>, L: Rank>(
    own: &mut Processor<W>,
    program: &'s Program<'s>,
    graph: MapId,
    name: Name,
)
    requires at { IsAt W.Knows StandsAt L.number program.now own.old }
    requires tied { TiedAt W.Knows B.since B.start own.old }
    requires fine { FineAt W.Knows L.number own.old }
    requires ground { L.number ≡ 0 }
    requires held { own.old.locked ≡ Some graph }
    requires graph { (b : Bool) × (m : MapDeclaration)
        × IsGraph program.now.scenario.now.maps b graph.0 m × (m.name ≡ name) }
    ensures unlocked { Records L.number (entry.Unlock name ∷ []) (log_of own.old) (log_of own.new) }
    ensures lock { own.new.locked ≡ None }
    ensures lists { lists_of own.new ≡ lists_of own.old }
    ensures lives { SameLives W.Knows own.old own.new }
    ensures at { IsAt W.Knows StandsAt L.number program.now own.new }
    ensures tied { TiedAt W.Knows B.since B.start own.new }
    ensures between { Between W.Knows 0 0 L.number program.now
        (record own.old { locked = own.new.locked }) own.new }
{
    own.locked = None;
    own.caches.note(L::level(), Entry::Unlock(name));
}

// The tag of the next call.
fn next_tag<W>(own: &Processor<W>) -> Tag
    requires room { own.now.calls + 1 < 2 ^ 32 }
    ensures { result ≡ record { processor = own.now.caches.processor; serial = own.now.calls + 1 } }
{
    Tag {
        processor: own.caches.processor(),
        serial: own.calls + 1,
    }
}

/// Puts a reference that a name holds into a list or tree, by its place, which has this name, at ordinary code: answers whether it did. It doesn't where
/// the object is in a list or tree already. Want of memory is the only refusal.
pub(crate) fn put<'s, W: Lives, B: Since<W>, L: Rank>(
    own: &mut Processor<W>,
    program: &'s Program<'s>,
    graph: MapId,
    name: Name,
    way: Way,
    object: ObjId,
) -> Result<bool, NoMemory>
    requires at { IsAt W.Knows StandsAt L.number program.now own.old }
    requires tied { TiedAt W.Knows B.since B.start own.old }
    requires fine { FineAt W.Knows L.number own.old }
    requires room { asked_of W.Knows program.now.scenario.now own.old + 1 < 2 ^ 22 }
    requires ground { L.number ≡ 0 }
    requires may { IfSome (log_of own.old) (MayCall (home W.Knows own.old.side) name) }
    requires graph { (m : MapDeclaration)
        × IsGraph program.now.scenario.now.maps (is_for_tree way) graph.0 m
        × (m.name ≡ name) × IsToPut m.type_id.0 (lives_of W.Knows own.old) (Some object) }
    requires keyed { way ≡ way_is.Ordered
        → 0 < length (values_in (lives_of W.Knows own.old object.unit)) }
    ensures put_in { result ≡ Ok true → PutIn L.number graph.0 name way object
        (log_of own.old) (log_of own.new) (lives_of W.Knows own.old) (lives_of W.Knows own.new)
        (guarded_of W.Knows own.old) (guarded_of W.Knows own.new) }
    ensures refused { result ≡ Ok false
        → Refused L.number program.now.scenario.now.types program.now.scenario.now.maps name way
        object
        (log_of own.old) (log_of own.new) (lives_of W.Knows own.old) (lives_of W.Knows own.new)
        (guarded_of W.Knows own.old) (guarded_of W.Knows own.new) }
    ensures lists { OnOk result (lists_of own.new ≡ lists_of own.old) }
    ensures at { OnOk result (IsAt W.Knows StandsAt L.number program.now own.new) }
    ensures tied { OnOk result (TiedAt W.Knows B.since B.start own.new) }
    ensures between { OnOk result (Between W.Knows 1 0 L.number program.now own.old own.new) }
{
    let tag = next_tag(own);
    match own.side.push(graph.0, way, object, tag)? {
        Pushed::Done(position) => {
            call::<W, B, L>(own, program, put_in(name, way, object, position));
            Ok(true)
        }
        Pushed::Already { owner, position } => {
            let owner = program.scenario.maps.as_slice()[owner as usize]
                .name
                .duplicate();
            call::<W, B, L>(own, program, refused(name, way, object, owner, position));
            Ok(false)
        }
    }
}

/// Takes the object at an end of a list, by its place, which has this name, at ordinary code: answers what it took, None where the list is empty. Want of
/// memory is the only refusal.
pub fn pop<'s, W: Lives, B: Since<W>, L: Rank>(
    own: &mut Processor<W>,
    program: &'s Program<'s>,
    graph: MapId,
    name: Name,
    end: End,
) -> Result<Option<ObjId>, NoMemory>
    requires at { IsAt W.Knows StandsAt L.number program.now own.old }
    requires tied { TiedAt W.Knows B.since B.start own.old }
    requires fine { FineAt W.Knows L.number own.old }
    requires room { asked_of W.Knows program.now.scenario.now own.old + 1 < 2 ^ 22 }
    requires ground { L.number ≡ 0 }
    requires may { IfSome (log_of own.old) (MayCall (home W.Knows own.old.side) name) }
    requires graph { (m : MapDeclaration)
        × IsGraph program.now.scenario.now.maps false graph.0 m × (m.name ≡ name) }
    ensures popped { IfOk result (λ was. (m : MapDeclaration)
        → IsGraph program.now.scenario.now.maps false graph.0 m
        → Popped L.number program.now.scenario.now.types m.type_id.0 name end
        (log_of own.old) (log_of own.new) (lives_of W.Knows own.old) (lives_of W.Knows own.new)
        (guarded_of W.Knows own.old) (guarded_of W.Knows own.new) was) }
    ensures item { IfOk result (λ was.
        was ≡ end_node end (graph_at graph.0 (graphs_of W.Knows own.old)).nodes) }
    ensures called { IfOk result (λ was. CalledAt graph.0 (pop_call end was)
        (graphs_of W.Knows own.old) (graphs_of W.Knows own.new)) }
    ensures lists { OnOk result (lists_of own.new ≡ lists_of own.old) }
    ensures at { OnOk result (IsAt W.Knows StandsAt L.number program.now own.new) }
    ensures tied { OnOk result (TiedAt W.Knows B.since B.start own.new) }
    ensures between { OnOk result (Between W.Knows 1 0 L.number program.now own.old own.new) }
{
    let tag = next_tag(own);
    let (position, item) = own.side.pop(graph.0, end, tag)?;
    call::<W, B, L>(own, program, popped(name, end, item, position));
    Ok(item)
}

/// Looks for the first object of a tree, by its place, which has this name, at ordinary code: None where the tree is empty. Want of memory is the only
/// refusal.
pub fn first_item<'s, W: Lives, B: Since<W>, L: Rank>(
    own: &mut Processor<W>,
    program: &'s Program<'s>,
    graph: MapId,
    name: Name,
) -> Result<Option<ObjId>, NoMemory>
    requires at { IsAt W.Knows StandsAt L.number program.now own.old }
    requires tied { TiedAt W.Knows B.since B.start own.old }
    requires fine { FineAt W.Knows L.number own.old }
    requires room { asked_of W.Knows program.now.scenario.now own.old + 1 < 2 ^ 22 }
    requires ground { L.number ≡ 0 }
    requires may { IfSome (log_of own.old) (MayCall (home W.Knows own.old.side) name) }
    requires graph { (m : MapDeclaration)
        × IsGraph program.now.scenario.now.maps true graph.0 m × (m.name ≡ name) }
    ensures found { IfOk result (λ item. (m : MapDeclaration)
        → IsGraph program.now.scenario.now.maps true graph.0 m
        → Found L.number program.now.scenario.now.types m.type_id.0 graph.0 name
        (log_of own.old) (log_of own.new) (guarded_of W.Knows own.old) item) }
    ensures item { IfOk result (λ item.
        item ≡ first_node (graph_at graph.0 (graphs_of W.Knows own.old)).nodes) }
    ensures called { IfOk result (λ item. CalledAt graph.0 (first_call item)
        (graphs_of W.Knows own.old) (graphs_of W.Knows own.new)) }
    ensures guarded { OnOk result (guarded_of W.Knows own.new ≡ guarded_of W.Knows own.old) }
    ensures lists { OnOk result (lists_of own.new ≡ lists_of own.old) }
    ensures lives { OnOk result (lives_of W.Knows own.new ≡ lives_of W.Knows own.old) }
    ensures at { OnOk result (IsAt W.Knows StandsAt L.number program.now own.new) }
    ensures tied { OnOk result (TiedAt W.Knows B.since B.start own.new) }
    ensures between { OnOk result (Between W.Knows 1 0 L.number program.now own.old own.new) }
{
    let tag = next_tag(own);
    let (position, item) = own.side.first(graph.0, tag)?;
    call::<W, B, L>(own, program, Entry::First(name, item, position));
    Ok(item)
}

/// Takes an object that is in a tree out of it, by the tree's place, which has this name, at ordinary code. Want of memory is the only refusal.
pub fn remove<'s, W: Lives, B: Since<W>, L: Rank>(
    own: &mut Processor<W>,
    program: &'s Program<'s>,
    graph: MapId,
    name: Name,
    object: ObjId,
) -> Result<(), NoMemory>
    requires at { IsAt W.Knows StandsAt L.number program.now own.old }
    requires tied { TiedAt W.Knows B.since B.start own.old }
    requires fine { FineAt W.Knows L.number own.old }
    requires room { asked_of W.Knows program.now.scenario.now own.old + 1 < 2 ^ 22 }
    requires ground { L.number ≡ 0 }
    requires may { IfSome (log_of own.old) (MayCall (home W.Knows own.old.side) name) }
    requires graph { (m : MapDeclaration)
        × IsGraph program.now.scenario.now.maps true graph.0 m × (m.name ≡ name)
        × IsShelved program.now.scenario.now.types m.type_id.0 graph.0
        (guarded_of W.Knows own.old) object.unit object.life }
    ensures removed { OnOk result ((m : MapDeclaration)
        → IsGraph program.now.scenario.now.maps true graph.0 m
        → Removed L.number program.now.scenario.now.types m.type_id.0 name object
        (log_of own.old) (log_of own.new) (lives_of W.Knows own.old) (lives_of W.Knows own.new)
        (guarded_of W.Knows own.old) (guarded_of W.Knows own.new)) }
    ensures called { OnOk result (CalledAt graph.0 (past.Remove object)
        (graphs_of W.Knows own.old) (graphs_of W.Knows own.new)) }
    ensures lists { OnOk result (lists_of own.new ≡ lists_of own.old) }
    ensures at { OnOk result (IsAt W.Knows StandsAt L.number program.now own.new) }
    ensures tied { OnOk result (TiedAt W.Knows B.since B.start own.new) }
    ensures between { OnOk result (Between W.Knows 1 0 L.number program.now own.old own.new) }
{
    let tag = next_tag(own);
    let position = own.side.remove(graph.0, object, tag)?;
    call::<W, B, L>(
        own,
        program,
        Entry::Remove(name, object.unit, object.life, position),
    );
    Ok(())
}

/// Reads a field of an object that is in a list or tree, by the field's place, at a level. It takes no memory but the recorder's.
pub(crate) fn look<'s, W: Lives, B: Since<W>, L: Rank>(
    own: &mut Processor<W>,
    program: &'s Program<'s>,
    object: ObjId,
    place: u8,
)
    requires at { IsAt W.Knows StandsAt L.number program.now own.old }
    requires tied { TiedAt W.Knows B.since B.start own.old }
    requires fine { FineAt W.Knows L.number own.old }
    requires room { asked_of W.Knows program.now.scenario.now own.old + 1 < 2 ^ 22 }
    requires shelved { (t graph : ℕ) × IsShelved program.now.scenario.now.types t graph
        (guarded_of W.Knows own.old) object.unit object.life }
    requires there { is_some (slice_get
        (shelved_values ((guarded_of W.Knows own.old).within object.unit)) place) ≡ true }
    ensures looked { HasLooked L.number object place (log_of own.old) (log_of own.new)
        (guarded_of W.Knows own.old) }
    ensures lists { lists_of own.new ≡ lists_of own.old }
    ensures lives { SameLives W.Knows own.old own.new }
    ensures at { IsAt W.Knows StandsAt L.number program.now own.new }
    ensures tied { TiedAt W.Knows B.since B.start own.new }
    ensures between { Between W.Knows 1 0 L.number program.now own.old own.new }
{
    let value = own.side.read(object, place);
    call::<W, B, L>(
        own,
        program,
        Entry::Get(object.unit, object.life, place, value),
    );
}
