//! What the tests of the caches share: units of one page, and caches that are opened with them. The units have 16 bytes, and are
//! units 0 to 3 of the page.

ghost use Rattle.std.specs.Prelude.{◌≡◌, ◌≤◌, ◌++◌, ℕ, [], ◌∷◌, IfSome, map};
ghost use Rattle.std.specs.List.{All};
ghost use Rattle.bm_journal.specs.Counts.{no_counts};
ghost use Rattle.bm_law.specs.Stands.{times};
ghost use Rattle.bm_cache.specs.Each.{Sits};
ghost use Rattle.bm_cache.specs.Opening.{Opened};
ghost use Rattle.bm_cache.specs.Span.{Fine};
ghost use Rattle.bm_cache.specs.Tokens.{number_of};
ghost use Rattle.bm_tests_machine.specs.Holding.{Holding, tests_beside};

use crate::cache_hosts::{Ground, Kept, Plan, handler};
use crate::openings::{self, give_up_units};
use bm_cache::{Caches, Given, alloc};
use bm_class::Class;
use bm_journal::Recorder;
use bm_page::{Pool, Unit};
use std::process::Abort;

/// No handler runs.
pub(crate) const QUIET: Plan = Plan {
    first: 0,
    second: 0,
    first_left: false,
    second_left: false,
    delayed: false,
};

pub(crate) fn class(rt: &impl Abort) -> Class
    ensures { result ≡ 0 }
{
    Class::new(0).expect(rt, "the class of 16 bytes")
}

/// The last unit, which never lived.
pub(crate) fn last(rt: &impl Abort, units: &mut Vec<Unit>, number: u16) -> Unit
    ensures number { result.number ≡ number }
    ensures class { result.class ≡ 0 }
    ensures home { result.home ≡ 0 }
    ensures life { result.life ≡ 0 }
{
    let unit = units.pop().expect(rt, "a unit");
    assert!(rt; unit.number() == number);
    assert!(rt; unit.class().index() == 0);
    assert!(rt; unit.home() == 0);
    assert!(rt; unit.life() == 0);
    unit
}

/// The first four units of a page.
pub(crate) fn four(rt: &(impl Abort + AllocGlobal)) -> Vec<Unit> {
    let mut pool = Pool::create(rt.alloc(), 1).expect(rt, "a page");
    let mut units = Vec::with_capacity(rt.alloc(), 4).expect(rt, "memory");
    pool.fetch(class(rt), 4, &mut units).expect(rt, "memory");
    pool.give_up();
    units
}

/// Units 0 to 3, which never lived.
pub(crate) struct OneByOne {
    pub(crate) a: Unit,
    pub(crate) b: Unit,
    pub(crate) c: Unit,
    pub(crate) d: Unit,
}

/// The first four units of a page, one by one.
pub(crate) fn first_four(rt: &(impl Abort + AllocGlobal)) -> OneByOne
    ensures numbers { (result.a.number ≡ 0) × (result.b.number ≡ 1) × (result.c.number ≡ 2)
        × (result.d.number ≡ 3) }
    ensures classes { (result.a.class ≡ 0) × (result.b.class ≡ 0) × (result.c.class ≡ 0)
        × (result.d.class ≡ 0) }
    ensures homes { (result.a.home ≡ 0) × (result.b.home ≡ 0) × (result.c.home ≡ 0)
        × (result.d.home ≡ 0) }
    ensures lives { (result.a.life ≡ 0) × (result.b.life ≡ 0) × (result.c.life ≡ 0)
        × (result.d.life ≡ 0) }
{
    let mut units = four(rt);
    let d = last(rt, &mut units, 3);
    let c = last(rt, &mut units, 2);
    let b = last(rt, &mut units, 1);
    let a = last(rt, &mut units, 0);
    assert!(rt; units.is_empty());
    units.destroy_empty();
    OneByOne { a, b, c, d }
}

/// Two units.
pub(crate) fn pair(rt: &(impl Abort + AllocGlobal), a: Unit, b: Unit) -> Vec<Unit>
    ensures { result.items ≡ a ∷ b ∷ [] }
{
    let mut units = Vec::with_capacity(rt.alloc(), 4).expect(rt, "memory");
    put_in(rt, &mut units, a);
    put_in(rt, &mut units, b);
    units
}

/// One unit more.
pub(crate) fn put_in(rt: &impl Abort, units: &mut Vec<Unit>, unit: Unit)
    ensures { units.new.items ≡ units.old.items ++ unit ∷ [] }
{
    if let Err(_refused) = units.push(unit) {
        panic!(rt; "memory");
    }
}

/// The numbers of units.
pub(crate) fn list_numbers(rt: &(impl Abort + AllocGlobal), units: &Vec<Unit>) -> Vec<u16>
    ensures { result.items ≡ map number_of units.now.items }
{
    let mut numbers = Vec::with_capacity(rt.alloc(), units.len()).expect(rt, "memory");
    for unit in units {
        numbers.push(unit.number()).expect(rt, "memory");
    }
    numbers
}

/// Caches of processor 0 with these units on Free.
pub(crate) fn opened<R: Recorder>(
    rt: &(impl Abort + AllocGlobal),
    recorder: R,
    free: Vec<Unit>,
) -> Caches<R>
    requires counts { R.counts recorder ≡ no_counts }
    requires log { IfSome (R.log recorder) (λ es. es ≡ []) }
    requires sit { All (Sits 0) free.items }
    requires once { (n : ℕ) → times n (map number_of free.items) ≤ 1 }
    ensures { Opened R.log R.counts 0 ((0, free.items) ∷ []) result }
{
    openings::opened(rt, recorder, class(rt), free)
}

/// Caches with units 0 and 1 on Free, and units 2 and 3 held.
pub(crate) fn two_and_two<R: Recorder>(
    rt: &(impl Abort + AllocGlobal),
    recorder: R,
    plan: Plan,
) -> Ground<R>
    requires counts { R.counts recorder ≡ no_counts }
    requires log { IfSome (R.log recorder) (λ es. es ≡ []) }
    ensures sound { Holding 1 result.kept.units.items }
    ensures fine { Fine R.log R.counts (tests_beside result.kept.units.items) 1 0
        result.kept.caches }
{
    let OneByOne { a, b, c, d } = first_four(rt);
    let free = pair(rt, a, b);
    let held = pair(rt, c, d);
    let caches = opened(rt, recorder, free);
    Ground {
        kept: Kept {
            caches,
            units: held,
            plan,
        },
    }
}

/// Caches with units 0 to 3 on Free, and none held.
pub(crate) fn four_free<R: Recorder>(rt: &(impl Abort + AllocGlobal), recorder: R) -> Ground<R>
    requires counts { R.counts recorder ≡ no_counts }
    requires log { IfSome (R.log recorder) (λ es. es ≡ []) }
    ensures sound { Holding 1 result.kept.units.items }
    ensures fine { Fine R.log R.counts (tests_beside result.kept.units.items) 1 0
        result.kept.caches }
{
    let OneByOne { a, b, c, d } = first_four(rt);
    let mut free = pair(rt, a, b);
    put_in(rt, &mut free, c);
    put_in(rt, &mut free, d);
    let caches = opened(rt, recorder, free);
    Ground {
        kept: Kept {
            caches,
            units: Vec::with_capacity(rt.alloc(), 4).expect(rt, "memory"),
            plan: QUIET,
        },
    }
}

/// What an allocation answered, with the unit's number in the place of the unit.
#[derive(Clone, Copy, Debug, PartialEq, Eq)]
pub(crate) enum Answer {
    Unit(u16),
    Empty,
    Busy(u32),
}

/// Asks for a unit, and frees it.
pub(crate) fn take_and_free<R: Recorder>(
    ground: &mut Ground<R>,
    class: Class,
    delayed: bool,
) -> Answer
    requires sound { Holding 1 ground.old.kept.units.items }
    requires fine { Fine R.log R.counts (tests_beside ground.old.kept.units.items) 1 0
        ground.old.kept.caches }
    ensures { Fine R.log R.counts (tests_beside ground.new.kept.units.items) 1 0
        ground.new.kept.caches }
{
    match alloc(ground, class) {
        Given::Unit(unit) => {
            let number = unit.number();
            handler(ground, unit, delayed);
            Answer::Unit(number)
        }
        Given::Empty => Answer::Empty,
        Given::Busy(active) => Answer::Busy(active),
    }
}

/// Asks for a unit, and holds it.
pub(crate) fn take_one<R: Recorder>(rt: &impl Abort, ground: &mut Ground<R>, class: Class) -> Answer
    requires sound { Holding 1 ground.old.kept.units.items }
    requires fine { Fine R.log R.counts (tests_beside ground.old.kept.units.items) 1 0
        ground.old.kept.caches }
    ensures sound { Holding 1 ground.new.kept.units.items }
    ensures fine { Fine R.log R.counts (tests_beside ground.new.kept.units.items) 1 0
        ground.new.kept.caches }
{
    match alloc(ground, class) {
        Given::Unit(unit) => {
            let number = unit.number();
            put_in(rt, &mut ground.kept.units, unit);
            Answer::Unit(number)
        }
        Given::Empty => Answer::Empty,
        Given::Busy(active) => Answer::Busy(active),
    }
}

/// Frees the unit that is held last.
pub(crate) fn free_one<R: Recorder>(ground: &mut Ground<R>)
    requires sound { Holding 1 ground.old.kept.units.items }
    requires fine { Fine R.log R.counts (tests_beside ground.old.kept.units.items) 1 0
        ground.old.kept.caches }
    ensures sound { Holding 1 ground.new.kept.units.items }
    ensures fine { Fine R.log R.counts (tests_beside ground.new.kept.units.items) 1 0
        ground.new.kept.caches }
{
    if let Some(unit) = ground.kept.units.pop() {
        handler(ground, unit, false);
    }
}

/// Ends a host, with the units that it holds and its caches.
pub(crate) fn end<R: Recorder + Drop>(ground: Ground<R>) {
    let Ground { kept } = ground;
    let Kept {
        caches,
        units,
        plan: _,
    } = kept;
    give_up_units(units);
    caches.give_up();
}
