//! One object's counts, exchanges of one slot, and claims.

ghost use Rattle.std.specs.Prelude.{◌≡◌, ◌<◌, ◌^◌, None, Some, IfSome, length, slice_index};
ghost use Rattle.bm_obj.specs.Known.{Has, MayGo, told_exchanged};
ghost use Rattle.bm_obj.specs.WorldState.{exchanged, known_of};

use crate::fixture::{last_unit, next_unit, one_page, one_world};
use bm_journal::{ObjId, Tag};
use bm_obj::{Claimed, Displaced, Objects, OneWorld, Ref, Released};
use std::process::Abort;

/// One exchange of the slot, by a call of processor 0. It has to find the number of the call before, or none. The answer is what
/// the slot held.
fn exchange_once(
    rt: &(impl Abort + AllocGlobal),
    world: &mut OneWorld,
    put: Option<Ref>,
    serial: u32,
    by: Option<u32>,
) -> Option<Ref>
    requires slot { 0 < length world.old.slots }
    requires has { IfSome put (λ r. Has r (known_of world.old)) }
    requires of_type { IfSome put (λ r. r.def ≡ slice_index world.old.slots 0) }
    requires keeps { IfSome put (λ r. MayGo r (known_of world.old)) }
    requires processor { world.old.processor ≡ 0 }
    requires serial { serial < 2 ^ 18 }
    ensures state { world.new
        ≡ exchanged 0 put (record { processor = 0; serial = serial }) world.old }
    ensures known { known_of world.new ≡ told_exchanged (λ r. r) put result (known_of world.old) }
{
    let tag = Tag {
        processor: 0,
        serial,
    };
    let Displaced { old, by: before } = world.exchange(0, put, tag);
    assert_eq!(rt; before.map(|tag| tag.serial), by, "at {serial}");
    old
}

/// The slot held nothing.
fn none(rt: &(impl Abort + AllocGlobal), old: Option<Ref>)
    ensures { old ≡ None }
{
    match old {
        None => {}
        Some(_r) => panic!(rt; "the slot held nothing"),
    }
}

/// The slot held a reference to the object of this unit.
fn some(rt: &(impl Abort + AllocGlobal), old: Option<Ref>, unit: u16) -> Ref
    ensures is { old ≡ Some result }
    ensures unit { result.unit ≡ unit }
{
    match old {
        Some(r) => {
            assert!(rt; r.unit() == unit);
            r
        }
        None => panic!(rt; "the slot held an object"),
    }
}

#[test]
fn counts_go_up_and_down_to_the_last(rt: HostRuntime) {
    let mut pool = one_page(&rt);
    let mut world = one_world(&rt);
    let unit = next_unit(&rt, &mut pool, 0);
    let x = world.make(unit, 0, &[7]);
    assert!(rt; world.id(&x) == ObjId { unit: 0, life: 1 });
    assert_eq!(rt; world.get(&x, 0), 7);
    let (y, seen) = world.acquire(&x);
    assert_eq!(rt; seen, 1);
    match world.release(x) {
        Released::Still(count) => assert_eq!(rt; count, 2),
        Released::Last(_unit) => panic!(rt; "it was not the last"),
    }
    let ended = last_unit(&rt, world.release(y));
    assert_eq!(rt; ended.number(), 0);
    assert_eq!(rt; ended.life(), 1);
    ended.give_up();
    world.give_up();
    pool.give_up();
}

#[test]
fn a_claim_lasts_until_it_is_given_up(rt: HostRuntime) {
    let mut pool = one_page(&rt);
    let mut world = one_world(&rt);
    let unit = next_unit(&rt, &mut pool, 0);
    let x = world.make(unit, 0, &[7]);
    assert_eq!(rt; world.claim(&x, 0), Claimed::Won);
    assert_eq!(rt; world.claim(&x, 0), Claimed::Taken(0));
    world.unclaim(&x);
    assert_eq!(rt; world.claim(&x, 0), Claimed::Won);
    world.unclaim(&x);
    let ended = last_unit(&rt, world.release(x));
    assert_eq!(rt; ended.life(), 1);
    ended.give_up();
    world.give_up();
    pool.give_up();
}

#[test]
fn a_slot_answers_what_was_put_last(rt: HostRuntime) {
    let mut pool = one_page(&rt);
    let mut world = one_world(&rt);
    let first = next_unit(&rt, &mut pool, 0);
    let second = next_unit(&rt, &mut pool, 1);
    let x = world.make(first, 0, &[7]);
    let y = world.make(second, 0, &[8]);
    none(&rt, exchange_once(&rt, &mut world, None, 1, None));
    none(&rt, exchange_once(&rt, &mut world, Some(x), 2, Some(1)));
    let x = some(&rt, exchange_once(&rt, &mut world, Some(y), 3, Some(2)), 0);
    let y = some(&rt, exchange_once(&rt, &mut world, None, 4, Some(3)), 1);
    none(&rt, exchange_once(&rt, &mut world, None, 5, Some(4)));
    let first = last_unit(&rt, world.release(x));
    let second = last_unit(&rt, world.release(y));
    assert_eq!(rt; (first.number(), second.number()), (0, 1));
    first.give_up();
    second.give_up();
    world.give_up();
    pool.give_up();
}
