//! What two slots hold, exchange by exchange.

ghost use Rattle.std.specs.Prelude.{◌≡◌, length};
ghost use Rattle.bm_grace.specs.Known.{Living, Lives as LivesByNumber};
ghost use Rattle.bm_world.specs.Lives.{HasLife, PutLives};
ghost use Rattle.bm_world.specs.LivingState.{lives_of};

use crate::living_tests::{fetch_one, fields, living_side, no_graphs};
use bm_class::Class;
use bm_journal::{ObjId, Tag};
use bm_word::Name;
use bm_world::{Contents, Displaced, Lives, LivingSide, MapSlot};
use std::process::Abort;

/// A slot of this name, as it is at the outset.
fn slot(rt: &impl Abort, name: &[u8]) -> MapSlot
    ensures name { result.name ≡ name.now }
{
    MapSlot {
        name: Name::new(name).expect(rt, "a word is a name"),
        held: None,
        by: None,
    }
}

/// Two slots.
fn two_slots(rt: &(impl Abort + AllocGlobal)) -> Contents
    ensures { length result ≡ 2 }
{
    let mut slots = Vec::with_capacity(rt.alloc(), 2).expect(rt, "memory");
    if let Err(_refused) = slots.push(slot(rt, b"s")) {
        panic!(rt; "memory");
    }
    if let Err(_refused) = slots.push(slot(rt, b"t")) {
        panic!(rt; "memory");
    }
    Contents::create(slots)
}

/// What a slot holds: one of two objects, or none.
#[derive(Clone, Copy)]
enum Holding {
    Nothing,
    First,
    Second,
}

/// An exchange by a call of processor 0: its serial, the place of the slot, what it puts there, what it finds, and the serial of the
/// call that put that.
struct Case {
    serial: u32,
    place: usize,
    put: Holding,
    found: Holding,
    by: Option<u32>,
}

/// The object that a slot holds.
fn held(holding: Holding, first: ObjId, second: ObjId) -> Option<ObjId>
    ensures { (lives : LivesByNumber)
        → ((l : Living) × HasLife lives first.unit first.life l)
        → ((l : Living) × HasLife lives second.unit second.life l)
        → PutLives lives result }
{
    match holding {
        Holding::Nothing => None,
        Holding::First => Some(first),
        Holding::Second => Some(second),
    }
}

/// One exchange, which finds what it should.
fn exchange_once(rt: &impl Abort, world: &mut LivingSide, first: ObjId, second: ObjId, case: &Case)
    requires slots { length world.old.contents ≡ 2 }
    requires first { (l : Living) × HasLife (lives_of world.old.slots) first.unit first.life l }
    requires second { (l : Living) × HasLife (lives_of world.old.slots) second.unit second.life l }
    ensures contents { length world.new.contents ≡ 2 }
    ensures slots { world.new.slots ≡ world.old.slots }
{
    let tag = Tag {
        processor: 0,
        serial: case.serial,
    };
    assert!(rt; case.place < 2, "at {}", case.serial);
    let Displaced { held: found, by } = world.exchange(
        case.place,
        held(case.put, first, second),
        tag,
    );
    assert!(rt;
        found == held(case.found, first, second),
        "at {}",
        case.serial
    );
    assert!(rt;
        by == case.by.map(|serial| Tag {
            processor: 0,
            serial
        }),
        "at {}",
        case.serial
    );
}

/// By hand: an exchange finds what the last one of its slot put, with its serial; none at the outset.
const CASES: [Case; 7] = [
    Case {
        serial: 1,
        place: 0,
        put: Holding::First,
        found: Holding::Nothing,
        by: None,
    },
    Case {
        serial: 2,
        place: 0,
        put: Holding::Second,
        found: Holding::First,
        by: Some(1),
    },
    Case {
        serial: 3,
        place: 1,
        put: Holding::Nothing,
        found: Holding::Nothing,
        by: None,
    },
    Case {
        serial: 4,
        place: 0,
        put: Holding::Nothing,
        found: Holding::Second,
        by: Some(2),
    },
    Case {
        serial: 5,
        place: 0,
        put: Holding::Nothing,
        found: Holding::Nothing,
        by: Some(4),
    },
    Case {
        serial: 6,
        place: 1,
        put: Holding::First,
        found: Holding::Nothing,
        by: Some(3),
    },
    Case {
        serial: 7,
        place: 1,
        put: Holding::Nothing,
        found: Holding::First,
        by: Some(6),
    },
];

#[test]
fn two_slots_hold_two_objects(rt: HostRuntime) {
    let class = Class::new(1).expect(&rt, "an index is a class");
    let mut world = living_side(&rt, two_slots(&rt), no_graphs(&rt));
    let unit = fetch_one(&rt, &mut world, class);
    let first = world.begin_life(unit, 0, fields(&rt, &[]));
    let other = fetch_one(&rt, &mut world, class);
    let second = world.begin_life(other, 0, fields(&rt, &[]));
    assert!(rt; first != second);
    for case in &CASES {
        exchange_once(&rt, &mut world, first, second, case);
    }
    world.give_up();
}

#[test]
fn one_of_two_references_goes_through_a_slot(rt: HostRuntime) {
    let class = Class::new(1).expect(&rt, "an index is a class");
    let mut world = living_side(&rt, two_slots(&rt), no_graphs(&rt));
    let unit = fetch_one(&rt, &mut world, class);
    let object = world.begin_life(unit, 0, fields(&rt, &[]));
    assert_eq!(rt; world.acquire(object), 1);
    let tag = Tag {
        processor: 0,
        serial: 3,
    };
    assert!(rt;
        world.exchange(0, Some(object), tag)
            == Displaced {
                held: None,
                by: None
            }
    );
    assert_eq!(rt; world.references(object.unit), 2);
    let next = Tag {
        processor: 0,
        serial: 4,
    };
    assert!(rt;
        world.exchange(0, None, next)
            == Displaced {
                held: Some(object),
                by: Some(tag)
            }
    );
    assert_eq!(rt; world.release_other(object), 2);
    let last = world.end_life(object.unit, true);
    assert_eq!(rt; last.number(), object.unit);
    last.give_up();
    let (side, slots, asked, _graphs) = world.into_parts();
    assert_eq!(rt; asked, 2);
    slots.give_up();
    let (post, _grace) = side.into_parts();
    post.give_up();
}
