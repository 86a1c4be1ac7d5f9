//! A refill and a drain, of caches that no handler runs on. The units have 16 bytes and are those of one page.

ghost use Rattle.std.specs.Prelude.{◌≡◌, ◌+◌, ◌++◌, ◌<◌, ◌≤◌, ◌∷◌, [], ℕ, IfSome, map, refl, true};
ghost use Rattle.std.specs.List.{All};
ghost use Rattle.bm_journal.specs.Counts.{no_counts};
ghost use Rattle.bm_law.specs.Kept.{Ready};
ghost use Rattle.bm_law.specs.Stands.{stands, times};
ghost use Rattle.bm_law.specs.State.{seen, idle_side};
ghost use Rattle.bm_cache.specs.Each.{Sits};
ghost use Rattle.bm_cache.specs.Opening.{Opened};
ghost use Rattle.bm_cache.specs.Placed.{Placed};
ghost use Rattle.bm_cache.specs.Shown.{shown};
ghost use Rattle.bm_cache.specs.Span.{Fine};
ghost use Rattle.bm_cache.specs.Tests.{Aimed};
ghost use Rattle.bm_cache.specs.Tokens.{Token, number_of};

use bm_cache::{Caches, Given, Host, alloc, free_delayed};
use bm_class::Class;
use bm_journal::{Domain, Level, Recorder, Tally};
use bm_page::{Pool, Unit};
use bm_work_lists::{
    begin_second, begin_work, drain_to_hand, gather_delayed, read_count, refill_from_lists,
};
use std::process::Abort;
use std::test::Fail;

/// The caches at level 0, and no handler. Each unit passes each test.
struct Alone<R> {
    caches: Caches<R>,
}

impl<R: Recorder> Host<R> for Alone<R> {
    ghost held = { λ m. m.caches };

    ghost with_held = { λ m c. record m { caches = c } };

    ghost face = { λ m. record { level = 0; processors = 1; through = 0 } };

    ghost pending = { λ m. 0 };

    ghost tests = { λ m k number life seal. true };

    ghost sound = { λ m. Unit {0} };

    ghost asked = { λ m. Unit {0} };

    ghost gave = { λ _ _ m. Unit {0} };

    ghost frees = { λ _ _ m. Unit {0} };

    ghost keeps = { λ a b. Unit {0} };

    ghost held_back = { λ h c. refl };

    ghost face_back = { λ h c. refl };

    ghost pending_back = { λ h c. refl };

    ghost tests_back = { λ h c. refl };

    ghost sound_back = { λ h c p e s. s };

    ghost asked_back = { λ h c p e s. s };

    ghost sound_stepped = { λ h c e i p a k. k };

    ghost sound_said = { λ h c e i p a s. s };

    ghost sound_given = { λ h c u n x p a s. s };

    ghost sound_freed = { λ h c e u n i p a s. s };

    ghost keeps_back = { λ h c. tt };

    ghost keeps_same = { λ h. tt };

    ghost keeps_join = { λ a b c k m. tt };

    fn caches(&mut self) -> &mut Caches<R> {
        &mut self.caches
    }

    fn level(&self) -> Level {
        Level::ordinary()
    }

    fn point(&mut self) {}
}

/// Units on Free, on Second and on Ready, a refill and a drain, and what that leaves.
#[derive(Clone, Copy)]
struct Case {
    free: u16,
    second: u16,
    ready: u16,
    want: u32,
    left: u32,
    middle: u32,
    /// The units that are in hand then, in order.
    hand: &'static [u16],
    free_then: u32,
}

/// Units 2, 1 and 0 of Ready and then 4 and 3 of Second come to Free, and off it again; and 33 of 97 units are taken.
const CASES: [Case; 2] = [
    Case {
        free: 0,
        second: 2,
        ready: 3,
        want: 48,
        left: 43,
        middle: 0,
        hand: &[3, 4, 0, 1, 2],
        free_then: 0,
    },
    Case {
        free: 97,
        second: 0,
        ready: 0,
        want: 0,
        left: 0,
        middle: 64,
        hand: &[
            0, 1, 2, 3, 4, 5, 6, 7, 8, 9, 10, 11, 12, 13, 14, 15, 16, 17, 18, 19, 20, 21, 22, 23,
            24, 25, 26, 27, 28, 29, 30, 31, 32,
        ],
        free_then: 64,
    },
];

fn class(rt: &impl Abort) -> Class
    ensures { result ≡ 0 }
{
    Class::new(0).expect(rt, "the class of 16 bytes")
}

/// The first units of a page.
fn stock(rt: &(impl Abort + AllocGlobal), many: u16) -> Vec<Unit> {
    let mut pool = Pool::create(rt.alloc(), 1).expect(rt, "a page");
    let mut units = Vec::with_capacity(rt.alloc(), many as usize).expect(rt, "memory");
    pool.fetch(class(rt), many as usize, &mut units)
        .expect(rt, "memory");
    pool.give_up();
    units
}

/// The last unit, which has this number and never lived.
fn last(rt: &impl Abort, units: &mut Vec<Unit>, number: u16) -> Unit
    ensures number { result.number ≡ number }
    ensures class { result.class ≡ 0 }
    ensures life { result.life ≡ 0 }
{
    let unit = units.pop().expect(rt, "a unit");
    assert!(rt; unit.number() == number);
    assert!(rt; unit.class().index() == 0);
    assert!(rt; unit.life() == 0);
    unit
}

/// The last units, with the numbers from `floor` to below `below`, the greatest one first.
fn between(
    rt: &(impl Abort + AllocGlobal),
    units: &mut Vec<Unit>,
    floor: u16,
    below: u16,
) -> Vec<Unit>
    ensures sit { All (Sits 0) result.items }
    ensures once { (n : ℕ) → times n (map number_of result.items) ≤ 1 }
    ensures within { All (λ (u : Token). (floor ≤ u.number) × (u.number < below)) result.items }
{
    let mut taken = Vec::with_capacity(rt.alloc(), 256).expect(rt, "memory");
    let mut number = below;
    'units: while number > floor {
        number -= 1;
        let unit = last(rt, units, number);
        put_in(rt, &mut taken, unit);
    }
    taken
}

/// One unit more.
fn put_in(rt: &impl Abort, units: &mut Vec<Unit>, unit: Unit)
    ensures { units.new.items ≡ units.old.items ++ unit ∷ [] }
{
    if let Err(_refused) = units.push(unit) {
        panic!(rt; "memory");
    }
}

/// Caches of processor 0 with these units on Free.
fn opened<R: Recorder>(rt: &(impl Abort + AllocGlobal), recorder: R, free: Vec<Unit>) -> Caches<R>
    requires counts { R.counts recorder ≡ no_counts }
    requires log { IfSome (R.log recorder) (λ es. es ≡ []) }
    requires sit { All (Sits 0) free.items }
    requires once { (n : ℕ) → times n (map number_of free.items) ≤ 1 }
    ensures opened { Opened R.log R.counts 0 ((0, free.items) ∷ []) result }
    ensures aimed { Aimed 1 result }
{
    let mut fills = Vec::with_capacity(rt.alloc(), 1).expect(rt, "memory");
    if let Err(_refused) = fills.push((class(rt), free)) {
        panic!(rt; "memory");
    }
    match Caches::create(rt.alloc(), 0, fills, recorder) {
        Ok(caches) => caches,
        Err(_back) => panic!(rt; "memory"),
    }
}

/// A parcel comes.
fn receive<R: Recorder>(caches: &mut Caches<R>, class: Class, units: Vec<Unit>)
    requires placed { Placed R.log R.counts caches.old }
    requires ready { Ready 0 (shown caches.old) }
    requires aimed { Aimed 1 caches.old }
    requires sit { All (Sits class) units.items }
    requires fresh { (n : ℕ)
        → stands n (seen number_of (shown caches.old)) + times n (map number_of units.items) ≤ 1 }
    ensures placed { Placed R.log R.counts caches.new }
    ensures ready { Ready 0 (shown caches.new) }
    ensures aimed { Aimed 1 caches.new }
    ensures stands { (n : ℕ)
        → stands n (seen number_of (shown caches.new))
        ≡ stands n (seen number_of (shown caches.old)) + times n (map number_of units.items) }
{
    let _class = class.index();
    caches.take_parcel(Level::ordinary(), class, units);
}

/// All of Ready becomes the tracing batch, if there is any.
fn set_second<R: Recorder>(rt: &impl Abort, caches: &mut Caches<R>, class: Class)
    requires placed { Placed R.log R.counts caches.old }
    requires ready { Ready 0 (shown caches.old) }
    requires aimed { Aimed 1 caches.old }
    ensures placed { Placed R.log R.counts caches.new }
    ensures ready { Ready 0 (shown caches.new) }
    ensures aimed { Aimed 1 caches.new }
    ensures stands { (n : ℕ)
        → stands n (seen number_of (shown caches.new))
        ≡ stands n (seen number_of (shown caches.old)) }
{
    let _class = class.index();
    if caches.counts(class).ready == 0 {
        return;
    }
    assert!(rt; caches.in_progress(class, Domain::Tracing).is_none());
    caches.take_all_ready(Level::ordinary(), class);
}

/// Caches that hold what a case says.
fn set_up<R: Recorder>(rt: &(impl Abort + AllocGlobal), recorder: R, case: Case) -> Alone<R>
    requires counts { R.counts recorder ≡ no_counts }
    requires log { IfSome (R.log recorder) (λ es. es ≡ []) }
    requires parts { case.free + (case.second + case.ready) ≤ 256 }
    ensures fine { Fine R.log R.counts (λ _ _ _ _. true) 1 1 result.caches }
    ensures idle { (k : ℕ) → ((shown result.caches).rows k).active ≡ 0 }
    ensures side { (shown result.caches).sides 0 ≡ idle_side }
{
    let class = class(rt);
    let lent = case.ready + case.second;
    let mut units = stock(rt, lent + case.free);
    let free = between(rt, &mut units, lent, lent + case.free);
    let second = between(rt, &mut units, case.ready, lent);
    let ready = between(rt, &mut units, 0, case.ready);
    assert!(rt; units.is_empty());
    units.destroy_empty();
    let mut caches = opened(rt, recorder, free);
    receive(&mut caches, class, second);
    set_second(rt, &mut caches, class);
    receive(&mut caches, class, ready);
    Alone { caches }
}

/// The numbers of what is in hand, in order, at the end.
fn end<R: Recorder + Drop>(rt: &(impl Abort + AllocGlobal), host: Alone<R>) -> Vec<u16>
    requires { Placed R.log R.counts host.caches }
{
    let Alone { mut caches } = host;
    let mut numbers = Vec::new(rt.alloc());
    let mut units = caches
        .hand_out(Level::ordinary(), class(rt))
        .expect(rt, "memory");
    caches.give_up();
    while let Some(unit) = units.pop() {
        numbers.push(unit.number()).expect(rt, "memory");
        unit.give_up();
    }
    units.destroy_empty();
    numbers.reverse();
    numbers
}

#[test]
fn units_come_and_go_in_order(rt: HostRuntime) {
    let class = class(&rt);
    for case in CASES {
        assert!(rt; case.free <= 256 && case.second <= 256 && case.ready <= 256);
        assert!(rt; case.free + case.second + case.ready <= 256);
        let mut host = set_up(&rt, Tally::new(), case);
        begin_work(&mut host, class);
        assert_eq!(rt; read_count(&mut host, class), case.free as u32);
        assert_eq!(rt; refill_from_lists(&mut host, class, case.want), case.left);
        assert_eq!(rt; host.caches.counts(class).ready, 0);
        assert_eq!(rt; host.caches.counts(class).second, 0);
        drain_to_hand(&mut host, class, case.middle);
        assert_eq!(rt; host.caches.counts(class).free, case.free_then);
        assert_eq!(rt; end(&rt, host).as_slice(), case.hand);
    }
}

/// Two units on Free, and two on Ready.
const BATCHES: Case = Case {
    free: 2,
    second: 0,
    ready: 2,
    want: 0,
    left: 0,
    middle: 0,
    hand: &[],
    free_then: 1,
};

#[test]
fn batches_begin_one_at_a_time(rt: HostRuntime) {
    let class = class(&rt);
    let mut host = set_up(&rt, Tally::new(), BATCHES);
    match alloc(&mut host, class) {
        Given::Unit(unit) => free_delayed(&mut host, unit),
        Given::Empty => panic!(&rt; "Free holds units"),
        Given::Busy(_) => panic!(&rt; "no other call is in the cache"),
    }
    assert_eq!(rt; host.caches.counts(class).delayed, 1);
    assert!(rt; gather_delayed(&mut host, class));
    assert_eq!(rt; host.caches.counts(class).delayed, 0);
    assert_eq!(rt; host.caches.counts(class).first, 1);
    assert!(rt; !gather_delayed(&mut host, class));
    assert!(rt; begin_second(&mut host, class));
    assert_eq!(rt; host.caches.counts(class).ready, 0);
    assert_eq!(rt; host.caches.counts(class).second, 2);
    assert!(rt; !begin_second(&mut host, class));
    let Alone { caches } = host;
    assert_eq!(rt; caches.counts(class).free, BATCHES.free_then);
    caches.give_up();
}
