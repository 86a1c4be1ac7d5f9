//! A unit that waits for a plain period, and goes over its own inbox back to the pool.

ghost use Rattle.std.specs.Prelude.{◌≡◌, ◌%◌, ◌<◌, ◌∷◌, [], None, true, length};
ghost use Rattle.std.specs.List.{All};
ghost use Rattle.bm_journal.specs.declared.ids.Domain.TheVariants.{Plain};
ghost use Rattle.bm_grace.specs.Known.{side};
ghost use Rattle.bm_grace.specs.PlainState.{idle};
ghost use Rattle.bm_grace.specs.Rights.{Ages};
ghost use Rattle.bm_post.specs.Rights.{Holds, IsSettled, MayLeave};
ghost use Rattle.bm_world.specs.WaitingState.{rights_now};

use crate::pools::one_page;
use bm_class::Class;
use bm_grace::{Began, Done, Grace, Look, PlainGrace};
use bm_journal::Domain;
use bm_page::{Seal, Unit};
use bm_post::{PlainPost, Post};
use bm_world::{OneSide, WaitingSide, World};
use std::process::Abort;

/// The side of the first of two processors, where nobody has done anything.
fn waiting_side(rt: &(impl Abort + AllocGlobal)) -> WaitingSide
    ensures { result.side.grace
        ≡ record { processors = 2; processor = 0; plain = idle; tracing = idle } }
{
    match PlainPost::create(rt.alloc(), one_page(rt), 2) {
        Ok(post) => match WaitingSide::create(rt.alloc(), OneSide::new(post, PlainGrace::new(2))) {
            Ok(world) => world,
            Err(_side) => panic!(rt; "there is memory for what waits"),
        },
        Err(_pool) => panic!(rt; "there is memory for the inboxes"),
    }
}

/// A unit of a class, which may be used again.
fn fetch_one<W: World>(rt: &(impl Abort + AllocGlobal), world: &mut W, class: Class) -> Unit
    ensures class { result.class ≡ class }
    ensures mine { (W.Knows.rights world.new).mine result.number ≡ true }
    ensures settled { IsSettled (W.Knows.rights world.new) result }
    ensures known { (W.Knows.known world.new).grace ≡ (W.Knows.known world.old).grace }
{
    let mut units = Vec::new(rt.alloc());
    let count = world
        .fetch(class, 1, &mut units)
        .expect(rt, "there is memory for the unit");
    assert!(rt; count == 1);
    let unit = units.pop().expect(rt, "a unit");
    assert!(rt; units.is_empty());
    units.destroy_empty();
    unit
}

/// A plain period that nobody holds up.
pub(crate) fn pass_period<W: World>(rt: &impl Abort, world: &mut W, even: u32)
    requires even { even % 2 ≡ 0 }
    requires idle { (side Plain (W.Knows.known world.old)).number ≡ 0 }
    requires room { 0 < (side Plain (W.Knows.known world.old)).begins }
    ensures ages { Ages (W.Knows.rights world.old) (W.Knows.rights world.new) }
    ensures processors { (W.Knows.known world.new).grace.processors
        ≡ (W.Knows.known world.old).grace.processors }
    ensures objects { (W.Knows.known world.new).objects ≡ (W.Knows.known world.old).objects }
{
    assert!(rt; world.begin(Domain::Plain, even) == Began::Won);
    assert!(rt; world.look(Domain::Plain) == Look::All);
    let _period = world.finish(Domain::Plain);
}

/// Seals a unit of mine that waits, if its stamp is passed; whether it is.
pub(crate) fn seal_if_passed<W: World>(world: &mut W, unit: &mut Unit, stamp: u32) -> bool
    requires mine { (W.Knows.rights world.old).mine unit.old.number ≡ true }
    requires due { (W.Knows.rights world.old).due unit.old.number unit.old.life None ≡ true }
    requires since { (W.Knows.rights world.old).since Plain stamp unit.old.number ≡ true }
    ensures leaves { result ≡ true → MayLeave (W.Knows.rights world.new) unit.new }
    ensures mine { (W.Knows.rights world.new).mine unit.new.number ≡ true }
    ensures class { unit.new.class ≡ unit.old.class }
    ensures processors { (W.Knows.known world.new).grace.processors
        ≡ (W.Knows.known world.old).grace.processors }
    ensures objects { (W.Knows.known world.new).objects ≡ (W.Knows.known world.old).objects }
{
    match world.done(Domain::Plain, stamp) {
        Done::Passed(seen) => {
            unit.set_seal(Seal { stamp, seen });
            true
        }
        Done::NotYet(_number) => false,
    }
}

/// The oldest parcel of a class.
fn receive_one<W: World>(rt: &impl Abort, world: &mut W, class: Class) -> Vec<Unit>
    ensures holds { Holds (W.Knows.rights world.new) result.items }
    ensures fit { All (MayLeave (W.Knows.rights world.new)) result.items }
{
    world.receive(class).expect(rt, "a parcel waits")
}

/// One unit.
fn parcel_of(rt: &(impl Abort + AllocGlobal), unit: Unit) -> Vec<Unit>
    ensures { result.items ≡ unit ∷ [] }
{
    let mut units = Vec::with_capacity(rt.alloc(), 1).expect(rt, "memory");
    if let Err(_refused) = units.push(unit) {
        panic!(rt; "memory");
    }
    units
}

#[test]
fn a_unit_waits_for_a_period(rt: HostRuntime) {
    let class = Class::new(1).expect(&rt, "an index is a class");
    let mut world = waiting_side(&rt);
    let mut unit = fetch_one(&rt, &mut world, class);
    world.wait_for(unit.number());
    let stamp = world.stamp(Domain::Plain);
    assert_eq!(rt; stamp, 2);
    pass_period(&rt, &mut world, 0);
    assert!(rt; seal_if_passed(&mut world, &mut unit, stamp));
    assert!(rt; unit.seal() == Some(Seal { stamp: 2, seen: 2 }));
    match world.send(0, class, parcel_of(&rt, unit)) {
        Ok(()) => {}
        Err(_units) => panic!(&rt; "there is memory for the parcel"),
    }
    let units = receive_one(&rt, &mut world, class);
    assert_eq!(rt; units.len(), 1);
    world.put_back(units);
    let (post, _grace) = world.into_side().into_parts();
    post.give_up();
}
