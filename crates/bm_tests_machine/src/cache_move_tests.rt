//! Units that come from outside and leave, as the log shows it.

ghost use Rattle.std.specs.Prelude.{◌≡◌, ◌+◌, ◌≤◌, ℕ, [], false, IfSome, map, flat_map};
ghost use Rattle.std.specs.List.{All};
ghost use Rattle.bm_journal.specs.Counts.{no_counts};
ghost use Rattle.bm_law.specs.Kept.{Ready};
ghost use Rattle.bm_law.specs.declared.mark.Mark.TheVariants.{Quiet};
ghost use Rattle.bm_law.specs.Stands.{stands, times};
ghost use Rattle.bm_law.specs.State.{seen};
ghost use Rattle.bm_cache.specs.Each.{Sits};
ghost use Rattle.bm_cache.specs.Placed.{Placed};
ghost use Rattle.bm_cache.specs.Shown.{shown};
ghost use Rattle.bm_cache.specs.Tokens.{number_of};

use crate::cache_fixtures::{
    Answer, OneByOne, class, end, first_four, four_free, list_numbers, opened, pair, take_and_free,
};
use crate::lent::Lent;
use crate::logs::text;
use crate::openings::give_up_units;
use bm_cache::Caches;
use bm_class::Class;
use bm_journal::{Domain, Keep, Level, Period, Recorder, Words};
use bm_page::Unit;
use std::process::Abort;
use std::test::Fail;

/// A parcel of units 3 and 2 comes, and unit 3 goes on; at the end all is swept.
const PARCEL: &str = "\
processors 1 pages 1\n\
types\n\
maps\n\
scripts\n\
processor 0\n\
0 fill 16 0 1\n\
0 receive 16 3 2\n\
0 ready 16 3\n\
0 fetch 16 4\n\
0 work 16\n\
0 send 16 0 3\n\
0 sweep 16 1 0 2\n\
total steps 5\n\
total given 0\n\
total empty 0\n\
total busy 0\n\
total last 0\n\
total still 0\n\
total acquired 0\n\
total exchanged 0\n\
total pushed 0\n\
total already 0\n\
total taken 0\n\
total none 0\n\
total raised 0\n\
total worked 1\n\
total fetched 2\n\
total returned 0\n\
total plain 0\n\
total tracing 0\n\
total handlers 0\n\
";

/// Units 3 and 2 come out of the stock into the hand.
const FETCHED: &str = "\
processors 1 pages 1\n\
types\n\
maps\n\
scripts\n\
processor 0\n\
0 fill 16 0 1\n\
0 fetch 16 2 3 2\n\
total steps 1\n\
total given 0\n\
total empty 0\n\
total busy 0\n\
total last 0\n\
total still 0\n\
total acquired 0\n\
total exchanged 0\n\
total pushed 0\n\
total already 0\n\
total taken 0\n\
total none 0\n\
total raised 0\n\
total worked 0\n\
total fetched 4\n\
total returned 0\n\
total plain 0\n\
total tracing 0\n\
total handlers 0\n\
";

/// Two parcels, of units 3 and 2, are in the inbox at the closing.
const SWEPT: &str = "\
processors 1 pages 1\n\
types\n\
maps\n\
scripts\n\
processor 0\n\
0 fill 16 0 1\n\
0 sweep 16 1 0 3 2\n\
total steps 1\n\
total given 0\n\
total empty 0\n\
total busy 0\n\
total last 0\n\
total still 0\n\
total acquired 0\n\
total exchanged 0\n\
total pushed 0\n\
total already 0\n\
total taken 0\n\
total none 0\n\
total raised 0\n\
total worked 0\n\
total fetched 2\n\
total returned 0\n\
total plain 0\n\
total tracing 0\n\
total handlers 0\n\
";

/// Unit 3 is freed with delay, and waits for a plain period.
const BATCH: &str = "\
processors 1 pages 1\n\
types\n\
maps\n\
scripts\n\
processor 0\n\
0 fill 16 0 1 2 3\n\
0 enter 16 1\n\
0 pop 16 3\n\
0 count 16 3\n\
0 leave 16 0\n\
0 raise 16\n\
0 given 3 1\n\
0 delay 3 0\n\
0 enter 16 1\n\
0 delayed 16 3\n\
0 leave 16 0\n\
0 raise 16\n\
0 batch 16 3\n\
0 stamp 16 plain 2\n\
0 begin plain 1\n\
0 finish plain 2 first 0 later 2\n\
0 pass 16 plain 2\n\
0 send 16 0 3\n\
total steps 13\n\
total given 1\n\
total empty 0\n\
total busy 0\n\
total last 0\n\
total still 0\n\
total acquired 0\n\
total exchanged 0\n\
total pushed 0\n\
total already 0\n\
total taken 0\n\
total none 0\n\
total raised 2\n\
total worked 0\n\
total fetched 4\n\
total returned 0\n\
total plain 1\n\
total tracing 0\n\
total handlers 0\n\
";

/// Caches with units 0 and 1 on Free.
struct Beside<R> {
    caches: Caches<R>,
    /// Units 3 and 2, which stand nowhere there.
    units: Vec<Unit>,
}

fn two_beside<R: Recorder>(rt: &(impl Abort + AllocGlobal), recorder: R) -> Beside<R>
    requires counts { R.counts recorder ≡ no_counts }
    requires log { IfSome (R.log recorder) (λ es. es ≡ []) }
    ensures placed { Placed R.log R.counts result.caches }
    ensures ready { Ready 0 (shown result.caches) }
    ensures sit { All (Sits 0) result.units.items }
    ensures fresh { (n : ℕ)
        → stands n (seen number_of (shown result.caches))
        + times n (map number_of result.units.items)
        ≤ 1 }
{
    let OneByOne { a, b, c, d } = first_four(rt);
    let free = pair(rt, a, b);
    let rest = pair(rt, d, c);
    Beside {
        caches: opened(rt, recorder, free),
        units: rest,
    }
}

/// A parcel comes, and its first unit is taken in hand. The stock has no unit.
fn receive<R: Recorder>(
    rt: &(impl Abort + AllocGlobal),
    caches: &mut Caches<R>,
    class: Class,
    units: Vec<Unit>,
)
    requires placed { Placed R.log R.counts caches.old }
    requires ready { Ready 0 (shown caches.old) }
    requires sit { All (Sits class) units.items }
    requires fresh { (n : ℕ)
        → stands n (seen number_of (shown caches.old)) + times n (map number_of units.items) ≤ 1 }
    ensures placed { Placed R.log R.counts caches.new }
    ensures quiet { ((shown caches.new).sides 0).mark ≡ Quiet }
{
    let level = Level::ordinary();
    caches.take_parcel(level, class, units);
    assert!(rt; caches.take_ready(level, class));
    caches.take_fetched(level, class, 4, Vec::new(rt.alloc()));
}

/// The unit in hand is taken out, put back, and sent.
fn send_hand<R: Recorder>(rt: &(impl Abort + AllocGlobal), caches: &mut Caches<R>, class: Class)
    requires placed { Placed R.log R.counts caches.old }
    requires quiet { ((shown caches.old).sides 0).mark ≡ Quiet }
    ensures { Placed R.log R.counts caches.new }
{
    let level = Level::ordinary();
    let back = caches.hand_out(level, class).expect(rt, "memory");
    caches.hand_in(level, class, back);
    assert!(rt; caches.hand(level) == 1);
    let units = caches.hand_out(level, class).expect(rt, "memory");
    let numbers = list_numbers(rt, &units);
    let to = caches.target(class);
    caches.sent(level, class, to, numbers);
    give_up_units(units);
}

/// All of Delayed waits for a plain period.
fn wait_for_plain<R: Recorder>(rt: &impl Abort, caches: &mut Caches<R>, class: Class)
    requires placed { Placed R.log R.counts caches.old }
    requires ready { Ready 0 (shown caches.old) }
    ensures placed { Placed R.log R.counts caches.new }
    ensures quiet { ((shown caches.new).sides 0).mark ≡ Quiet }
{
    let level = Level::ordinary();
    assert!(rt; caches.counts(class).delayed == 1);
    assert!(rt; caches.in_progress(class, Domain::Plain).is_none());
    caches.take_batch(level, class);
    caches.stamped(level, class, Domain::Plain, 2);
    caches.began(level, Domain::Plain, 1);
    caches.finished(level, period(rt));
    caches.passed(level, class, Domain::Plain, 2);
}

/// First is taken out, put back, and sent.
fn send_first<R: Recorder>(rt: &(impl Abort + AllocGlobal), caches: &mut Caches<R>, class: Class)
    requires placed { Placed R.log R.counts caches.old }
    requires quiet { ((shown caches.old).sides 0).mark ≡ Quiet }
    ensures { Placed R.log R.counts caches.new }
{
    let level = Level::ordinary();
    let back = caches.first_out(level, class).expect(rt, "memory");
    caches.first_in(level, class, back);
    assert!(rt; caches.hand(level) == 0);
    let units = caches.first_out(level, class).expect(rt, "memory");
    let numbers = list_numbers(rt, &units);
    let to = caches.target(class);
    caches.sent(level, class, to, numbers);
    give_up_units(units);
}

/// The plain domain's number is 2, and the one processor has left its section meanwhile.
fn period(rt: &impl Abort) -> Period {
    Period {
        domain: Domain::Plain,
        number: 2,
        first: Words::new(&[0]).expect(rt, "a word"),
        later: Words::new(&[2]).expect(rt, "a word"),
    }
}

#[test]
fn a_parcel_comes_and_goes_on(rt: HostRuntime) {
    let mut keep = Keep::new(rt.alloc());
    let Beside { mut caches, units } = two_beside(&rt, Lent { keep: &mut keep });
    let class = class(&rt);
    receive(&rt, &mut caches, class, units);
    caches.lower(Level::ordinary(), class);
    send_hand(&rt, &mut caches, class);
    assert_eq!(rt; caches.counts(class).ready, 1);
    assert_eq!(rt; caches.hand(Level::ordinary()), 0);
    assert_eq!(rt; caches.counts(class).active, 0);
    caches.sweep_in(Level::ordinary(), class, Vec::new(rt.alloc()));
    caches.give_up();
    assert_eq!(rt; text(&rt, keep, 1, 1).as_slice(), PARCEL.as_bytes());
}

#[test]
fn units_come_out_of_the_stock(rt: HostRuntime) {
    let mut keep = Keep::new(rt.alloc());
    let Beside { mut caches, units } = two_beside(&rt, Lent { keep: &mut keep });
    caches.take_fetched(Level::ordinary(), class(&rt), 2, units);
    assert_eq!(rt; caches.hand(Level::ordinary()), 2);
    caches.give_up();
    assert_eq!(rt; text(&rt, keep, 1, 1).as_slice(), FETCHED.as_bytes());
}

#[test]
fn the_inbox_is_swept_too(rt: HostRuntime) {
    let mut keep = Keep::new(rt.alloc());
    let Beside { mut caches, units } = two_beside(&rt, Lent { keep: &mut keep });
    let mut parcels = Vec::with_capacity(rt.alloc(), 1).expect(&rt, "memory");
    if let Err(_refused) = parcels.push(units) {
        panic!(rt; "memory");
    }
    caches.sweep_in(Level::ordinary(), class(&rt), parcels);
    caches.give_up();
    assert_eq!(rt; text(&rt, keep, 1, 1).as_slice(), SWEPT.as_bytes());
}

#[test]
fn a_batch_waits_and_goes_on(rt: HostRuntime) {
    let mut keep = Keep::new(rt.alloc());
    let mut ground = four_free(&rt, Lent { keep: &mut keep });
    let class = class(&rt);
    assert_eq!(rt; take_and_free(&mut ground, class, true), Answer::Unit(3));
    wait_for_plain(&rt, &mut ground.kept.caches, class);
    send_first(&rt, &mut ground.kept.caches, class);
    assert_eq!(rt; ground.kept.caches.counts(class).first, 0);
    assert_eq!(rt; ground.kept.caches.in_progress(class, Domain::Plain), None);
    end(ground);
    assert_eq!(rt; text(&rt, keep, 1, 1).as_slice(), BATCH.as_bytes());
}
