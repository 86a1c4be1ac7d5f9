//! Objects that the code of a level asks for and gives up, references to them, and what slots hold.

ghost use Rattle.std.specs.Prelude.{◌≡◌, ◌∷◌, [], ◌+◌, ◌-◌, ◌<◌, ◌^◌, ℕ, List, is_some, length, slice_get, true};
ghost use Rattle.bm_law.specs.Stands.{stands};
ghost use Rattle.bm_cache.specs.Answers.{Allocated, Freed, Gone, IsOfClass, SoundBy};
ghost use Rattle.bm_cache.specs.Shown.{shown};
ghost use Rattle.bm_cache.specs.Tests.{SuitsFree};
ghost use Rattle.bm_journal.specs.Recording.{Appends};
ghost use Rattle.bm_lang.specs.declared.scenario.MapDeclaration.{MapDeclaration};
ghost use Rattle.bm_law_order.specs.Act.{Act};
ghost use Rattle.bm_law_scenario.specs.Calls.{IsCounted};
ghost use Rattle.bm_law_scenario.specs.Declared.{IsSlot};
ghost use Rattle.bm_world.specs.Lives.{asked_once};
ghost use Rattle.bm_exec.specs.Living.{Acquired, Created, Disposed, Exchanged, GivenUp, HasRead, HasType, IsMade, IsToPut, LetGo, LivesAs, count_in, type_in, values_in};
ghost use Rattle.bm_exec_levels.specs.Calling.{is_object_call};
ghost use Rattle.bm_exec_levels.specs.AtProcessor.{Between, FineAt, IsAt, SameItems, SameLives, lists_of, lives_of, log_of, tests_of};
ghost use Rattle.bm_exec_levels.specs.AtTie.{FreesAt, GaveAt, OwesAt, TiedAt};
ghost use Rattle.bm_exec_levels.specs.Freeing.{FreeRest, free_entry};
ghost use Rattle.bm_exec_levels.specs.Ready.{asked_of, known_of, left_of};
ghost use Rattle.bm_exec_levels.specs.declared.processor.Processor.{Processor as ProcessorValue};
ghost use Rattle.bm_plan.specs.Position.{StandsAt};

use crate::host::At;
use crate::processor::Processor;
use crate::program::Program;
use crate::ranks::Rank;
use bm_cache::{Given, alloc, free, free_delayed};
use bm_class::Class;
use bm_journal::{Entry, ObjId, Tag, Values};
use bm_lang::{MapId, TypeId};
use bm_page::Unit;
use bm_word::Name;
use bm_world::{Lives, Since};
use std::marker::PhantomData;

// Allocates a unit at a level.
fn allocate<'s, W: Lives, B: Since<W>, L: Rank>(
    own: &mut Processor<W>,
    program: &'s Program<'s>,
    class: Class,
) -> Given
    requires at { IsAt W.Knows StandsAt L.number program.now own.old }
    requires tied { TiedAt W.Knows B.since B.start own.old }
    requires fine { FineAt W.Knows L.number own.old }
    ensures answer { Allocated own.old.caches.processor L.number class (log_of own.old)
        (log_of own.new) (shown own.old.caches) (shown own.new.caches) result }
    ensures gone { Gone (tests_of W.Knows own.new) (shown own.new.caches) result }
    ensures class { IsOfClass class result }
    ensures sound { SoundBy
        (λ (m : ProcessorValue W). IsAt W.Knows StandsAt L.number program.now m
        × TiedAt W.Knows B.since B.start m)
        (λ u life m. IsAt W.Knows StandsAt L.number program.now m
        × GaveAt W.Knows B.since B.start L.number u life m)
        own.new result }
    ensures between { Between W.Knows 0 0 L.number program.now own.old own.new }
    ensures lives { SameLives W.Knows own.old own.new }
{
    let mut at = At::<W, B, L> {
        own,
        program,
        of: PhantomData,
        since: PhantomData,
    };
    let given = alloc(&mut at, class);
    let At {
        own: _,
        program: _,
        of: _,
        since: _,
    } = at;
    given
}

// Frees a unit at a level, plainly or with delay.
fn release<'s, W: Lives, B: Since<W>, L: Rank>(
    own: &mut Processor<W>,
    program: &'s Program<'s>,
    unit: Unit,
    delayed: bool,
)
    requires at { IsAt W.Knows StandsAt L.number program.now own.old }
    requires tied { FreesAt W.Knows B.since B.start L.number unit.number unit.home own.old }
    requires fine { FineAt W.Knows L.number own.old }
    requires fresh { stands unit.number (lists_of own.old) ≡ 0 }
    requires lives { unit.life + 1 < 2 ^ 32 }
    requires home { unit.home < (known_of W.Knows own.old).grace.processors }
    requires suits { SuitsFree (tests_of W.Knows own.old) unit
        (free_entry delayed unit.number unit.home) }
    ensures freed { Freed L.number unit (free_entry delayed unit.number unit.home)
        (FreeRest delayed (length (left_of own.old) - length (left_of own.new)) unit.class
        unit.number (is_some ((lists_of own.old).rows unit.class).deferred.plain))
        (log_of own.old) (log_of own.new) (shown own.old.caches) (shown own.new.caches) }
    ensures at { IsAt W.Knows StandsAt L.number program.now own.new }
    ensures tied { TiedAt W.Knows B.since B.start own.new }
    ensures between { Between W.Knows 0 0 L.number program.now own.old own.new }
    ensures lives { SameLives W.Knows own.old own.new }
{
    let mut at = At::<W, B, L> {
        own,
        program,
        of: PhantomData,
        since: PhantomData,
    };
    if delayed {
        free_delayed(&mut at, unit);
    } else {
        free(&mut at, unit);
    }
    let At {
        own: _,
        program: _,
        of: _,
        since: _,
    } = at;
}

/// A call of the code of a level is counted, and its entry recorded. It takes no memory but the recorder's.
pub(crate) fn call<'s, W: Lives, B: Since<W>, L: Rank>(
    own: &mut Processor<W>,
    program: &'s Program<'s>,
    entry: Entry,
)
    requires at { IsAt W.Knows StandsAt L.number program.now own.old }
    requires fine { FineAt W.Knows L.number own.old }
    requires room { asked_of W.Knows program.now.scenario.now own.old + 1 < 2 ^ 22 }
    requires call { is_object_call entry ≡ true }
    ensures said { Appends (log_of own.old) L.number entry (log_of own.new) }
    ensures known { known_of W.Knows own.new ≡ asked_once (known_of W.Knows own.old) }
    ensures shown { shown own.new.caches ≡ shown own.old.caches }
    ensures locked { own.new.locked ≡ own.old.locked }
    ensures at { IsAt W.Knows StandsAt L.number program.now own.new }
    ensures owes { (done : List Act) → OwesAt W.Knows B.since B.start L.number done [] own.old →
        OwesAt W.Knows B.since B.start L.number done (entry ∷ []) own.new }
    ensures between { Between W.Knows 1 0 L.number program.now own.old own.new }
{
    own.side.ask();
    own.calls += 1;
    own.caches.note(L::level(), entry);
}

/// Asks for an object of a class and of a type, which has this name, with these values of its fields, at a level. None exactly where
/// the allocation answers null. It takes no memory but the recorder's.
pub(crate) fn make<'s, W: Lives, B: Since<W>, L: Rank>(
    own: &mut Processor<W>,
    program: &'s Program<'s>,
    class: Class,
    type_id: TypeId,
    name: Name,
    values: Values,
) -> Option<ObjId>
    requires at { IsAt W.Knows StandsAt L.number program.now own.old }
    requires tied { TiedAt W.Knows B.since B.start own.old }
    requires fine { FineAt W.Knows L.number own.old }
    requires room { asked_of W.Knows program.now.scenario.now own.old + 2 < 2 ^ 22 }
    requires made { IsMade program.now.scenario.now.types class type_id.0 values }
    ensures created { Created L.number class type_id.0 name values (log_of own.old) (log_of own.new)
        (lives_of W.Knows own.old) (lives_of W.Knows own.new) result }
    ensures items { SameItems W.Knows own.old own.new }
    ensures at { IsAt W.Knows StandsAt L.number program.now own.new }
    ensures tied { TiedAt W.Knows B.since B.start own.new }
    ensures between { Between W.Knows 2 0 L.number program.now own.old own.new }
{
    let fields = values.duplicate();
    call::<W, B, L>(own, program, Entry::New(name, values));
    match allocate::<W, B, L>(own, program, class) {
        Given::Unit(unit) => Some(own.side.begin_life(unit, type_id.0, fields)),
        Given::Empty => None,
        Given::Busy(_) => None,
    }
}

/// Asks for one more reference to an object that lives, at a level. It takes no memory but the recorder's.
pub(crate) fn acquire<'s, W: Lives, B: Since<W>, L: Rank>(
    own: &mut Processor<W>,
    program: &'s Program<'s>,
    object: ObjId,
)
    requires at { IsAt W.Knows StandsAt L.number program.now own.old }
    requires tied { TiedAt W.Knows B.since B.start own.old }
    requires fine { FineAt W.Knows L.number own.old }
    requires room { asked_of W.Knows program.now.scenario.now own.old + 2 < 2 ^ 22 }
    requires living { (c : ℕ) × LivesAs (lives_of W.Knows own.old) c object.unit object.life }
    requires counted { IsCounted program.now.scenario.now.types
        (type_in (lives_of W.Knows own.old object.unit)) }
    ensures acquired { Acquired L.number object (log_of own.old) (log_of own.new)
        (lives_of W.Knows own.old) (lives_of W.Knows own.new) }
    ensures lists { lists_of own.new ≡ lists_of own.old }
    ensures items { SameItems W.Knows own.old own.new }
    ensures at { IsAt W.Knows StandsAt L.number program.now own.new }
    ensures tied { TiedAt W.Knows B.since B.start own.new }
    ensures between { Between W.Knows 2 0 L.number program.now own.old own.new }
{
    let seen = own.side.acquire(object);
    call::<W, B, L>(own, program, Entry::Acquire(object.unit, object.life, seen));
}

/// Reads a field of an object that lives, by its place, at a level. It takes no memory but the recorder's.
pub(crate) fn read_field<'s, W: Lives, B: Since<W>, L: Rank>(
    own: &mut Processor<W>,
    program: &'s Program<'s>,
    object: ObjId,
    place: u8,
)
    requires at { IsAt W.Knows StandsAt L.number program.now own.old }
    requires tied { TiedAt W.Knows B.since B.start own.old }
    requires fine { FineAt W.Knows L.number own.old }
    requires room { asked_of W.Knows program.now.scenario.now own.old + 1 < 2 ^ 22 }
    requires living { (c : ℕ) × LivesAs (lives_of W.Knows own.old) c object.unit object.life }
    requires there { is_some (slice_get (values_in (lives_of W.Knows own.old object.unit)) place)
        ≡ true }
    ensures read { HasRead L.number object place (log_of own.old) (log_of own.new)
        (lives_of W.Knows own.old) }
    ensures lists { lists_of own.new ≡ lists_of own.old }
    ensures lives { SameLives W.Knows own.old own.new }
    ensures at { IsAt W.Knows StandsAt L.number program.now own.new }
    ensures tied { TiedAt W.Knows B.since B.start own.new }
    ensures between { Between W.Knows 1 0 L.number program.now own.old own.new }
{
    let value = own.side.read(object, place);
    call::<W, B, L>(
        own,
        program,
        Entry::Get(object.unit, object.life, place, value),
    );
}

/// Exchanges what a slot holds, by its place, which has this name, at a level: answers what was there. It takes no memory but the recorder's.
pub fn exchange<'s, W: Lives, B: Since<W>, L: Rank>(
    own: &mut Processor<W>,
    program: &'s Program<'s>,
    slot: MapId,
    name: Name,
    put: Option<ObjId>,
) -> Option<ObjId>
    requires at { IsAt W.Knows StandsAt L.number program.now own.old }
    requires tied { TiedAt W.Knows B.since B.start own.old }
    requires fine { FineAt W.Knows L.number own.old }
    requires room { asked_of W.Knows program.now.scenario.now own.old + 1 < 2 ^ 22 }
    requires slot { (m : MapDeclaration) × IsSlot program.now.scenario.now.maps slot.0 m
        × (m.name ≡ name) × IsToPut m.type_id.0 (lives_of W.Knows own.old) put }
    ensures exchanged { (m : MapDeclaration) → IsSlot program.now.scenario.now.maps slot.0 m →
        Exchanged L.number program.now.scenario.now.types m.type_id.0 name put
        (log_of own.old) (log_of own.new) (lives_of W.Knows own.old) (lives_of W.Knows own.new)
        result }
    ensures lists { lists_of own.new ≡ lists_of own.old }
    ensures items { SameItems W.Knows own.old own.new }
    ensures at { IsAt W.Knows StandsAt L.number program.now own.new }
    ensures tied { TiedAt W.Knows B.since B.start own.new }
    ensures between { Between W.Knows 1 0 L.number program.now own.old own.new }
{
    let tag = Tag {
        processor: own.caches.processor(),
        serial: own.calls + 1,
    };
    let found = own.side.exchange(slot.0, put, tag);
    call::<W, B, L>(own, program, Entry::Xchg(name, put, found.held, found.by));
    found.held
}

// Gives up a reference to an object that has others, at a level.
fn give_up_other<'s, W: Lives, B: Since<W>, L: Rank>(
    own: &mut Processor<W>,
    program: &'s Program<'s>,
    object: ObjId,
)
    requires at { IsAt W.Knows StandsAt L.number program.now own.old }
    requires tied { TiedAt W.Knows B.since B.start own.old }
    requires fine { FineAt W.Knows L.number own.old }
    requires room { asked_of W.Knows program.now.scenario.now own.old + 1 < 2 ^ 22 }
    requires living { (c : ℕ) × LivesAs (lives_of W.Knows own.old) c object.unit object.life }
    requires others { 1 < count_in ((known_of W.Knows own.old).objects.lives object.unit) }
    ensures given_up { GivenUp L.number object (log_of own.old) (log_of own.new)
        (lives_of W.Knows own.old) (lives_of W.Knows own.new) }
    ensures items { SameItems W.Knows own.old own.new }
    ensures at { IsAt W.Knows StandsAt L.number program.now own.new }
    ensures tied { TiedAt W.Knows B.since B.start own.new }
    ensures between { Between W.Knows 1 0 L.number program.now own.old own.new }
{
    call::<W, B, L>(own, program, Entry::Drop(object.unit, object.life));
    let seen = own.side.release_other(object);
    own.caches.note(L::level(), Entry::Still(seen));
}

// Gives up the last reference to an object that lives, at a level: its unit is freed with delay where objects of its type are counted,
// else plainly.
fn end_object<'s, W: Lives, B: Since<W>, L: Rank>(
    own: &mut Processor<W>,
    program: &'s Program<'s>,
    object: ObjId,
    counted: bool,
)
    requires at { IsAt W.Knows StandsAt L.number program.now own.old }
    requires tied { TiedAt W.Knows B.since B.start own.old }
    requires fine { FineAt W.Knows L.number own.old }
    requires room { asked_of W.Knows program.now.scenario.now own.old + 1 < 2 ^ 22 }
    requires living { (c : ℕ) × LivesAs (lives_of W.Knows own.old) c object.unit object.life }
    requires only { count_in ((known_of W.Knows own.old).objects.lives object.unit) ≡ 1 }
    ensures disposed { (c : ℕ) → LivesAs (lives_of W.Knows own.old) c object.unit object.life →
        Disposed L.number counted c object (lists_of own.old) (log_of own.old) (log_of own.new)
        (lives_of W.Knows own.old) (lives_of W.Knows own.new) }
    ensures items { SameItems W.Knows own.old own.new }
    ensures at { IsAt W.Knows StandsAt L.number program.now own.new }
    ensures tied { TiedAt W.Knows B.since B.start own.new }
    ensures between { Between W.Knows 1 0 L.number program.now own.old own.new }
{
    call::<W, B, L>(own, program, Entry::Drop(object.unit, object.life));
    own.caches.note(L::level(), Entry::Last);
    let unit = own.side.end_life(object.unit, counted);
    release::<W, B, L>(own, program, unit, counted);
}

/// Gives up a reference to an object that lives, at a level. If others are left, be it in slots, the object stays; with the last one it ends. It
/// takes no memory but the recorder's.
pub fn give_up<'s, W: Lives, B: Since<W>, L: Rank>(
    own: &mut Processor<W>,
    program: &'s Program<'s>,
    object: ObjId,
    counted: bool,
)
    requires at { IsAt W.Knows StandsAt L.number program.now own.old }
    requires tied { TiedAt W.Knows B.since B.start own.old }
    requires fine { FineAt W.Knows L.number own.old }
    requires room { asked_of W.Knows program.now.scenario.now own.old + 1 < 2 ^ 22 }
    requires living { (c : ℕ) × LivesAs (lives_of W.Knows own.old) c object.unit object.life }
    requires typed { HasType program.now.scenario.now.types
        (type_in (lives_of W.Knows own.old object.unit)) counted }
    ensures disposed { (c : ℕ) → LivesAs (lives_of W.Knows own.old) c object.unit object.life →
        LetGo L.number counted c object (lists_of own.old) (log_of own.old) (log_of own.new)
        (lives_of W.Knows own.old) (lives_of W.Knows own.new) }
    ensures items { SameItems W.Knows own.old own.new }
    ensures at { IsAt W.Knows StandsAt L.number program.now own.new }
    ensures tied { TiedAt W.Knows B.since B.start own.new }
    ensures between { Between W.Knows 1 0 L.number program.now own.old own.new }
{
    if own.side.references(object.unit) > 1 {
        give_up_other::<W, B, L>(own, program, object);
    } else {
        end_object::<W, B, L>(own, program, object, counted);
    }
}
