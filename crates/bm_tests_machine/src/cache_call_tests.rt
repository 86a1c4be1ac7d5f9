//! Allocations and frees, alone and within one another, as the log and the counts show them.

ghost use Rattle.std.specs.Prelude.{◌≡◌};
ghost use Rattle.bm_law.specs.declared.mark.Mark.TheVariants.{Quiet};
ghost use Rattle.bm_cache.specs.Placed.{Placed};
ghost use Rattle.bm_cache.specs.Shown.{shown};
ghost use Rattle.bm_cache.specs.Span.{Fine};
ghost use Rattle.bm_tests_machine.specs.Holding.{Holding, tests_beside};

use crate::cache_fixtures::{
    Answer, class, end, four_free, free_one, take_and_free, take_one, two_and_two,
};
use crate::cache_hosts::{Ground, Plan};
use crate::lent::Lent;
use crate::logs::text;
use bm_cache::{Caches, Counts};
use bm_class::Class;
use bm_journal::{Domain, Keep, Level, Recorder, Tally};
use std::process::Abort;
use std::test::Fail;

/// Three frees, each within the one below.
const NESTED_FREES: &str = "\
processors 1 pages 1\n\
types\n\
maps\n\
scripts\n\
processor 0\n\
0 fill 16 0 1\n\
0 enter 16 1\n\
0 pop 16 1\n\
1 free 3 0\n\
1 enter 16 2\n\
1 look 16 0\n\
2 free 2 0\n\
2 enter 16 3\n\
2 look 16 0\n\
2 put 16 2\n\
2 leave 16 2\n\
1 lost 16\n\
1 look 16 1\n\
1 put 16 3\n\
1 leave 16 1\n\
0 count 16 1\n\
0 leave 16 0\n\
0 raise 16\n\
0 given 1 1\n\
0 free 1 0\n\
0 enter 16 1\n\
0 push 16 1\n\
0 count 16 2\n\
0 leave 16 0\n\
total steps 19\n\
total given 1\n\
total empty 0\n\
total busy 0\n\
total last 0\n\
total still 0\n\
total acquired 0\n\
total exchanged 0\n\
total pushed 0\n\
total already 0\n\
total taken 0\n\
total none 0\n\
total raised 1\n\
total worked 0\n\
total fetched 2\n\
total returned 0\n\
total plain 0\n\
total tracing 0\n\
total handlers 0\n\
";

/// The same with delay.
const NESTED_DELAYED_FREES: &str = "\
processors 1 pages 1\n\
types\n\
maps\n\
scripts\n\
processor 0\n\
0 fill 16 0 1\n\
0 enter 16 1\n\
0 pop 16 1\n\
1 delay 3 0\n\
1 enter 16 2\n\
1 lookd 16 0\n\
2 delay 2 0\n\
2 enter 16 3\n\
2 lookd 16 0\n\
2 putd 16 2\n\
2 leave 16 2\n\
2 raise 16\n\
1 lostd 16\n\
1 lookd 16 1\n\
1 putd 16 3\n\
1 leave 16 1\n\
1 raise 16\n\
0 count 16 1\n\
0 leave 16 0\n\
0 raise 16\n\
0 given 1 1\n\
0 delay 1 0\n\
0 enter 16 1\n\
0 delayed 16 1\n\
0 leave 16 0\n\
0 raise 16\n\
total steps 21\n\
total given 1\n\
total empty 0\n\
total busy 0\n\
total last 0\n\
total still 0\n\
total acquired 0\n\
total exchanged 0\n\
total pushed 0\n\
total already 0\n\
total taken 0\n\
total none 0\n\
total raised 4\n\
total worked 0\n\
total fetched 2\n\
total returned 0\n\
total plain 0\n\
total tracing 0\n\
total handlers 0\n\
";

/// The first handler runs right after a unit was taken, the second one right after the first one looked.
const NESTED: Plan = Plan {
    first: 3,
    second: 5,
    first_left: true,
    second_left: true,
    delayed: false,
};

/// Takes all of Extra, and answers how many units that are, with the free count.
fn take_extra<R: Recorder>(caches: &mut Caches<R>, class: Class) -> (u32, usize)
    requires placed { Placed R.log R.counts caches.old }
    requires quiet { ((shown caches.old).sides 0).mark ≡ Quiet }
{
    let count = caches.read(Level::ordinary(), class);
    (count, caches.take_extra(Level::ordinary(), class))
}

/// Moves ExtraDelayed onto Delayed, and makes that a batch.
fn take_batch<R: Recorder>(caches: &mut Caches<R>, class: Class) -> (usize, usize)
    requires { Placed R.log R.counts caches.old }
{
    let level = Level::ordinary();
    let moved = caches.take_extra_delayed(level, class);
    let waiting = caches.counts(class).delayed;
    let batch = caches.in_progress(class, Domain::Plain);
    if waiting > 0 && batch.is_none() {
        (moved, caches.take_batch(level, class))
    } else {
        (moved, 0)
    }
}

#[test]
fn three_nested_frees_leave_their_steps(rt: HostRuntime) {
    for (delayed, want) in [(false, NESTED_FREES), (true, NESTED_DELAYED_FREES)] {
        let plan = Plan { delayed, ..NESTED };
        let mut keep = Keep::new(rt.alloc());
        let mut ground = two_and_two(&rt, Lent { keep: &mut keep }, plan);
        let answer = take_and_free(&mut ground, class(&rt), delayed);
        assert_eq!(rt; answer, Answer::Unit(1));
        assert!(rt; ground.kept.caches.raised(class(&rt)));
        end(ground);
        assert_eq!(rt; text(&rt, keep, 1, 1).as_slice(), want.as_bytes());
    }
}

/// Asks for the four units of Free, and once more.
fn take_all<R: Recorder>(rt: &impl Abort, ground: &mut Ground<R>, class: Class)
    requires sound { Holding 1 ground.old.kept.units.items }
    requires fine { Fine R.log R.counts (tests_beside ground.old.kept.units.items) 1 0
        ground.old.kept.caches }
    ensures sound { Holding 1 ground.new.kept.units.items }
    ensures fine { Fine R.log R.counts (tests_beside ground.new.kept.units.items) 1 0
        ground.new.kept.caches }
{
    assert_eq!(rt; take_one(rt, ground, class), Answer::Unit(3));
    assert_eq!(rt; take_one(rt, ground, class), Answer::Unit(2));
    assert_eq!(rt; take_one(rt, ground, class), Answer::Unit(1));
    assert_eq!(rt; take_one(rt, ground, class), Answer::Unit(0));
    assert_eq!(rt; take_one(rt, ground, class), Answer::Empty);
}

/// Frees the four units that are held last.
fn free_four<R: Recorder>(ground: &mut Ground<R>)
    requires sound { Holding 1 ground.old.kept.units.items }
    requires fine { Fine R.log R.counts (tests_beside ground.old.kept.units.items) 1 0
        ground.old.kept.caches }
{
    free_one(ground);
    free_one(ground);
    free_one(ground);
    free_one(ground);
}

/// The caches tell that all four units are on Free, and that deferred work is asked for.
fn tell_four_free(rt: &impl Abort, caches: &Caches<Tally>, class: Class) {
    let counts = Counts {
        active: 0,
        count: 4,
        free: 4,
        extra: 0,
        extra_delayed: 0,
        delayed: 0,
        first: 0,
        ready: 0,
        second: 0,
    };
    assert_eq!(rt; caches.counts(class), counts);
    assert_eq!(rt; caches.next_step(), 41);
    assert!(rt; caches.raised(class));
    assert_eq!(rt; caches.lowest_raised(), Some(class));
    assert_eq!(rt; caches.target(class), 0);
    assert_eq!(rt; caches.in_progress(class, Domain::Plain), None);
    assert_eq!(rt; caches.hand(Level::ordinary()), 0);
    assert_eq!(rt; caches.recorder().counts().lengths(class).free, 4);
}

#[test]
fn five_allocations_and_four_frees_count_the_same_without_a_log(rt: HostRuntime) {
    let mut ground = four_free(&rt, Tally::new());
    let class = class(&rt);
    take_all(&rt, &mut ground, class);
    assert_eq!(rt; ground.kept.caches.next_step(), 25);
    assert_eq!(rt; ground.kept.caches.counts(class).free, 0);
    free_four(&mut ground);
    tell_four_free(&rt, &ground.kept.caches, class);
    end(ground);
}

#[test]
fn deferred_work_takes_what_was_freed_meanwhile(rt: HostRuntime) {
    let class = class(&rt);
    let mut ground = two_and_two(&rt, Tally::new(), NESTED);
    take_and_free(&mut ground, class, false);
    assert_eq!(rt; take_extra(&mut ground.kept.caches, class), (2, 2));
    assert_eq!(rt; ground.kept.caches.hand(Level::ordinary()), 2);
    end(ground);

    let mut ground = two_and_two(
        &rt,
        Tally::new(),
        Plan {
            delayed: true,
            ..NESTED
        },
    );
    take_and_free(&mut ground, class, true);
    assert_eq!(rt; take_batch(&mut ground.kept.caches, class), (2, 3));
    assert_eq!(rt; ground.kept.caches.counts(class).first, 3);
    assert_eq!(rt;
        ground.kept.caches.in_progress(class, Domain::Plain),
        Some(0)
    );
    end(ground);
}
