//! A refill from a parcel, from a batch in progress and from the stock. The marks of 16 bytes are 32 and 96, a refill is of 48
//! units, and a page has 256 of them.

ghost use Rattle.std.specs.Prelude.{◌≡◌, ◌≤◌};
ghost use Rattle.bm_journal.specs.declared.ids.Domain.{Domain as DomainValue};
ghost use Rattle.bm_grace.specs.Known.{side as side_of};
ghost use Rattle.bm_work.specs.DeskTests.{tests_by};
ghost use Rattle.bm_work.specs.Rests.{Rests};
ghost use Rattle.bm_post.specs.PostState.{rights_in};
ghost use Rattle.bm_world.specs.SideState.{known_of};

use crate::calls::{free_with_delay, given_unit, work_once};
use crate::desks::desk_with;
use crate::handler_desk::{Ground, Kept};
use crate::lent::Lent;
use crate::logs::has_log;
use crate::openings::{give_up, give_up_units, side_over};
use bm_cache::Counts;
use bm_class::Class;
use bm_grace::Grace;
use bm_journal::{Domain, Keep, Recorder};
use bm_world::OneSide;
use std::process::Abort;

/// Three units are freed with delay, and two more; the first work makes a batch of the three, the second one sends them and makes
/// a batch of the two, and the third one receives the three, sends the two, and begins the second stage of the three. A unit
/// more is given, so that Free is below the low mark. The fourth work receives the two, takes them and the three to Free, and
/// fetches the 43 that are left to bring.
const THREE_SOURCES: &str = "\
processors 2 pages 1\n\
types\n\
maps\n\
scripts\n\
processor 0\n\
0 fill 16 0 1 2 3 4 5 6 7 8 9 10 11 12 13 14 15 16 17 18 19 20 21 22 23 24 25 26 27 28 29 30 31 32 33 34 35 36\n\
0 enter 16 1\n\
0 pop 16 36\n\
0 count 16 36\n\
0 leave 16 0\n\
0 given 36 1\n\
0 delay 36 0\n\
0 enter 16 1\n\
0 delayed 16 36\n\
0 leave 16 0\n\
0 raise 16\n\
0 enter 16 1\n\
0 pop 16 35\n\
0 count 16 35\n\
0 leave 16 0\n\
0 given 35 1\n\
0 delay 35 0\n\
0 enter 16 1\n\
0 delayed 16 35\n\
0 leave 16 0\n\
0 raise 16\n\
0 enter 16 1\n\
0 pop 16 34\n\
0 count 16 34\n\
0 leave 16 0\n\
0 given 34 1\n\
0 delay 34 0\n\
0 enter 16 1\n\
0 delayed 16 34\n\
0 leave 16 0\n\
0 raise 16\n\
0 work 16\n\
0 receive 16\n\
0 read 16 34\n\
0 enter 16 1\n\
0 taked 16\n\
0 batch 16 34 35 36\n\
0 leave 16 0\n\
0 stamp 16 plain 2\n\
0 enter 16 1\n\
0 pop 16 33\n\
0 count 16 33\n\
0 leave 16 0\n\
0 given 33 1\n\
0 delay 33 0\n\
0 enter 16 1\n\
0 delayed 16 33\n\
0 leave 16 0\n\
0 enter 16 1\n\
0 pop 16 32\n\
0 count 16 32\n\
0 leave 16 0\n\
0 given 32 1\n\
0 delay 32 0\n\
0 enter 16 1\n\
0 delayed 16 32\n\
0 leave 16 0\n\
0 work 16\n\
0 receive 16\n\
0 read 16 32\n\
0 begin plain 1\n\
0 finish plain 2 first 0 0 later 0 0\n\
0 pass 16 plain 2\n\
0 send 16 0 34 35 36\n\
0 enter 16 1\n\
0 taked 16\n\
0 batch 16 32 33\n\
0 leave 16 0\n\
0 stamp 16 plain 4\n\
0 work 16\n\
0 receive 16 34 35 36\n\
0 receive 16\n\
0 read 16 32\n\
0 begin plain 3\n\
0 finish plain 4 first 0 0 later 0 0\n\
0 pass 16 plain 4\n\
0 send 16 0 32 33\n\
0 enter 16 1\n\
0 taked 16\n\
0 leave 16 0\n\
0 begin2 16 34 35 36\n\
0 stamp 16 tracing 2\n\
0 enter 16 1\n\
0 pop 16 31\n\
0 count 16 31\n\
0 leave 16 0\n\
0 raise 16\n\
0 given 31 1\n\
0 work 16\n\
0 receive 16 32 33\n\
0 receive 16\n\
0 read 16 31\n\
0 ready 16 32\n\
0 enter 16 1\n\
0 push 16 32\n\
0 count 16 32\n\
0 leave 16 0\n\
0 ready 16 33\n\
0 enter 16 1\n\
0 push 16 33\n\
0 count 16 33\n\
0 leave 16 0\n\
0 second 16 34\n\
0 enter 16 1\n\
0 push 16 34\n\
0 count 16 34\n\
0 leave 16 0\n\
0 second 16 35\n\
0 enter 16 1\n\
0 push 16 35\n\
0 count 16 35\n\
0 leave 16 0\n\
0 second 16 36\n\
0 enter 16 1\n\
0 push 16 36\n\
0 count 16 36\n\
0 leave 16 0\n\
0 fetch 16 43 37 38 39 40 41 42 43 44 45 46 47 48 49 50 51 52 53 54 55 56 57 58 59 60 61 62 63 64 65 66 67 68 69 70 71 72 73 74 75 76 77 78 79\n\
0 enter 16 1\n\
0 push 16 37\n\
0 count 16 37\n\
0 leave 16 0\n";

/// The side of the first of two processors, while the other one is in a tracing section, in which it stays.
fn side_beside_a_section(rt: &(impl Abort + AllocGlobal)) -> OneSide
    ensures processors { result.grace.processors ≡ 2 }
    ensures begins { (d : DomainValue) → 4 ≤ (side_of d (known_of result)).begins }
{
    let mut side = side_over(rt, 2, 1);
    side.turn(1);
    assert_eq!(rt; side.enter(Domain::Tracing), 1);
    side.turn(0);
    side
}

/// A unit is given, and is freed with delay.
fn give_and_free<R: Recorder>(
    rt: &(impl Abort + AllocGlobal),
    desk: &mut Ground<R, OneSide>,
    class: Class,
    left: u32,
)
    requires rests { Rests R.log R.counts (λ m. Unit {0})
        (λ m. tests_by (rights_in m.kept.side.post))
        (λ m. record { level = 0; processors = m.kept.side.grace.processors; through = 0 })
        (λ m. m.kept.caches) (λ m. known_of m.kept.side) class left desk.old }
    requires processors { desk.old.kept.side.grace.processors ≡ 2 }
    ensures rests { Rests R.log R.counts (λ m. Unit {0})
        (λ m. tests_by (rights_in m.kept.side.post))
        (λ m. record { level = 0; processors = m.kept.side.grace.processors; through = 0 })
        (λ m. m.kept.caches) (λ m. known_of m.kept.side) class left desk.new }
    ensures processors { desk.new.kept.side.grace.processors ≡ 2 }
{
    let unit = given_unit(rt, desk, class, left);
    if unit.home() != 0 || unit.seal().is_some() {
        panic!(rt; "it is in its first life here");
    }
    free_with_delay(desk, class, unit, left);
}

#[test]
fn a_refill_takes_from_three_sources(rt: HostRuntime) {
    let class = Class::new(0).expect(&rt, "the class of 16 bytes");
    let mut keep = Keep::new(rt.alloc());
    let mut desk = desk_with(
        &rt,
        Lent { keep: &mut keep },
        side_beside_a_section(&rt),
        class,
        37,
        false,
    );
    give_and_free(&rt, &mut desk, class, 4);
    give_and_free(&rt, &mut desk, class, 4);
    give_and_free(&rt, &mut desk, class, 4);
    work_once(&rt, &mut desk, class, 3);
    give_and_free(&rt, &mut desk, class, 3);
    give_and_free(&rt, &mut desk, class, 3);
    work_once(&rt, &mut desk, class, 2);
    work_once(&rt, &mut desk, class, 1);
    given_unit(&rt, &mut desk, class, 1).give_up();
    let caches = &desk.kept.caches;
    let before = Counts {
        active: 0,
        count: 31,
        free: 31,
        extra: 0,
        extra_delayed: 0,
        delayed: 0,
        first: 0,
        ready: 0,
        second: 3,
    };
    assert_eq!(&rt; caches.counts(class), before);
    assert_eq!(&rt; caches.in_progress(class, Domain::Tracing), Some(2));
    work_once(&rt, &mut desk, class, 0);
    let Ground {
        kept: Kept { caches, side },
        held,
        class: _,
        waits: _,
    } = desk;
    let after = Counts {
        count: 79,
        free: 79,
        second: 0,
        ..before
    };
    assert_eq!(&rt; caches.counts(class), after);
    assert_eq!(&rt; caches.in_progress(class, Domain::Tracing), Some(2));
    assert_eq!(&rt; caches.in_progress(class, Domain::Plain), None);
    assert!(&rt; !caches.raised(class));
    caches.give_up();
    give_up_units(held);
    give_up(side);
    has_log(&rt, keep, 2, 1, THREE_SOURCES);
}
