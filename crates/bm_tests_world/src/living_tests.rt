//! Two lives of one unit, from the pool back to the pool.

ghost use Rattle.std.specs.Prelude.{◌≡◌, ◌∷◌, [], true};
ghost use Rattle.bm_grace.specs.PlainState.{idle};
ghost use Rattle.bm_post.specs.Rights.{IsSettled};
ghost use Rattle.bm_world.specs.Graphs.{AreBare};
ghost use Rattle.bm_world.specs.LivingState.{rights_living};

use crate::pools::one_page;
use crate::waiting_tests::{pass_period, seal_if_passed};
use bm_class::Class;
use bm_grace::{Grace, PlainGrace};
use bm_journal::{Domain, ObjId, Values};
use bm_page::{Seal, Unit};
use bm_post::{PlainPost, Post};
use bm_world::{Contents, Graphs, Lives, LivingSide, OneSide};
use std::process::Abort;

/// The side of the one processor with these slots, and with these lists and trees, where nothing lives and no object was asked for.
pub(crate) fn living_side(
    rt: &(impl Abort + AllocGlobal),
    slots: Contents,
    graphs: Graphs,
) -> LivingSide
    requires { AreBare graphs }
    ensures asked { result.asked ≡ 0 }
    ensures contents { result.contents ≡ slots }
    ensures graphs { result.graphs ≡ graphs }
    ensures grace { result.side.grace
        ≡ record { processors = 1; processor = 0; plain = idle; tracing = idle } }
{
    match PlainPost::create(rt.alloc(), one_page(rt), 1) {
        Ok(post) => match LivingSide::create(
            rt.alloc(),
            OneSide::new(post, PlainGrace::new(1)),
            slots,
            graphs,
        ) {
            Ok(world) => world,
            Err(_side) => panic!(rt; "there is memory for what lives"),
        },
        Err(_pool) => panic!(rt; "there is memory for the inboxes"),
    }
}

/// No lists and no trees.
pub(crate) fn no_graphs(rt: &impl AllocGlobal) -> Graphs
    ensures { result ≡ [] }
{
    Graphs::create(Vec::new(rt.alloc()))
}

/// No slots.
pub(crate) fn no_slots(rt: &impl AllocGlobal) -> Contents {
    Contents::create(Vec::new(rt.alloc()))
}

/// A unit of a class, which may be used again, and whose home is processor 0.
pub(crate) fn fetch_one(
    rt: &(impl Abort + AllocGlobal),
    world: &mut LivingSide,
    class: Class,
) -> Unit
    ensures class { result.class ≡ class }
    ensures mine { (rights_living world.new).mine result.number ≡ true }
    ensures settled { IsSettled (rights_living world.new) result }
    ensures home { result.home ≡ 0 }
    ensures slots { world.new.slots ≡ world.old.slots }
    ensures asked { world.new.asked ≡ world.old.asked }
    ensures contents { world.new.contents ≡ world.old.contents }
    ensures graphs { world.new.graphs ≡ world.old.graphs }
    ensures grace { world.new.side.grace ≡ world.old.side.grace }
{
    let mut units = Vec::new(rt.alloc());
    let count = world
        .fetch(class, 1, &mut units)
        .expect(rt, "there is memory for the unit");
    assert!(rt; count == 1);
    let mut unit = units.pop().expect(rt, "a unit");
    assert!(rt; units.is_empty());
    units.destroy_empty();
    unit.set_home(0);
    unit
}

/// The values of an object's fields.
pub(crate) fn fields(rt: &impl Abort, values: &[u32]) -> Values
    ensures { result ≡ values.now }
{
    Values::new(values).expect(rt, "at most eight")
}

/// One unit.
fn parcel_of(rt: &(impl Abort + AllocGlobal), unit: Unit) -> Vec<Unit>
    ensures { result.items ≡ unit ∷ [] }
{
    let mut units = Vec::with_capacity(rt.alloc(), 1).expect(rt, "memory");
    if let Err(_refused) = units.push(unit) {
        panic!(rt; "memory");
    }
    units
}

#[test]
fn a_unit_lives_twice(rt: HostRuntime) {
    let class = Class::new(1).expect(&rt, "an index is a class");
    let mut world = living_side(&rt, no_slots(&rt), no_graphs(&rt));
    let unit = fetch_one(&rt, &mut world, class);
    assert_eq!(rt; unit.number(), 0);
    assert_eq!(rt; unit.life(), 0);
    let object = world.begin_life(unit, 0, fields(&rt, &[]));
    assert!(rt; object == ObjId { unit: 0, life: 1 });
    let ended = world.end_life(object.unit, false);
    assert_eq!(rt; ended.life(), 1);
    world.put_back(parcel_of(&rt, ended));
    world.ask();
    let again = fetch_one(&rt, &mut world, class);
    assert_eq!(rt; again.number(), 0);
    assert_eq!(rt; again.life(), 1);
    let second = world.begin_life(again, 0, fields(&rt, &[]));
    assert!(rt; second == ObjId { unit: 0, life: 2 });
    let last = world.end_life(second.unit, false);
    world.put_back(parcel_of(&rt, last));
    let (side, slots, asked, _graphs) = world.into_parts();
    assert_eq!(rt; asked, 3);
    slots.give_up();
    let (post, _grace) = side.into_parts();
    post.give_up();
}

/// The one unit of the oldest parcel of a class, which may be used again, and whose home is processor 0 now.
fn receive_unit(rt: &(impl Abort + AllocGlobal), world: &mut LivingSide, class: Class) -> Unit
    ensures mine { (rights_living world.new).mine result.number ≡ true }
    ensures settled { IsSettled (rights_living world.new) result }
    ensures home { result.home ≡ 0 }
    ensures asked { world.new.asked ≡ world.old.asked }
    ensures graphs { world.new.graphs ≡ world.old.graphs }
    ensures processors { world.new.side.grace.processors ≡ world.old.side.grace.processors }
{
    let mut units = world.receive(class).expect(rt, "a parcel waits");
    let mut unit = units.pop().expect(rt, "a unit");
    assert!(rt; units.is_empty());
    units.destroy_empty();
    unit.set_home(0);
    unit
}

#[test]
fn a_unit_waits_between_two_lives(rt: HostRuntime) {
    let class = Class::new(1).expect(&rt, "an index is a class");
    let mut world = living_side(&rt, no_slots(&rt), no_graphs(&rt));
    let unit = fetch_one(&rt, &mut world, class);
    let object = world.begin_life(unit, 0, fields(&rt, &[]));
    let mut ended = world.end_life(object.unit, true);
    assert!(rt; ended.seal() == None);
    let stamp = world.stamp(Domain::Plain);
    assert_eq!(rt; stamp, 2);
    pass_period(&rt, &mut world, 0);
    let class = ended.class();
    assert!(rt; seal_if_passed(&mut world, &mut ended, stamp));
    match world.send(0, class, parcel_of(&rt, ended)) {
        Ok(()) => {}
        Err(_units) => panic!(&rt; "there is memory for the parcel"),
    }
    let again = receive_unit(&rt, &mut world, class);
    assert_eq!(rt; again.life(), 1);
    assert!(rt; again.seal() == Some(Seal { stamp: 2, seen: 2 }));
    let second = world.begin_life(again, 0, fields(&rt, &[]));
    assert!(rt; second == ObjId { unit: 0, life: 2 });
    let last = world.end_life(second.unit, false);
    assert!(rt; last.seal() == None);
    world.put_back(parcel_of(&rt, last));
    let (side, slots, asked, _graphs) = world.into_parts();
    assert_eq!(rt; asked, 2);
    slots.give_up();
    let (post, _grace) = side.into_parts();
    post.give_up();
}

#[test]
fn a_unit_has_two_references(rt: HostRuntime) {
    let class = Class::new(1).expect(&rt, "an index is a class");
    let mut world = living_side(&rt, no_slots(&rt), no_graphs(&rt));
    let unit = fetch_one(&rt, &mut world, class);
    let object = world.begin_life(unit, 0, fields(&rt, &[]));
    assert_eq!(rt; world.references(object.unit), 1);
    assert_eq!(rt; world.acquire(object), 1);
    assert_eq!(rt; world.references(object.unit), 2);
    assert_eq!(rt; world.release_other(object), 2);
    assert_eq!(rt; world.references(object.unit), 1);
    let last = world.end_life(object.unit, true);
    last.give_up();
    let (side, slots, asked, _graphs) = world.into_parts();
    assert_eq!(rt; asked, 2);
    slots.give_up();
    let (post, _grace) = side.into_parts();
    post.give_up();
}

#[test]
fn a_unit_has_fields(rt: HostRuntime) {
    let class = Class::new(1).expect(&rt, "an index is a class");
    let mut world = living_side(&rt, no_slots(&rt), no_graphs(&rt));
    let unit = fetch_one(&rt, &mut world, class);
    let object = world.begin_life(unit, 3, fields(&rt, &[7, 9]));
    assert_eq!(rt; world.read(object, 0), 7);
    assert_eq!(rt; world.read(object, 1), 9);
    let last = world.end_life(object.unit, false);
    last.give_up();
    let (side, slots, _asked, _graphs) = world.into_parts();
    slots.give_up();
    let (post, _grace) = side.into_parts();
    post.give_up();
}
