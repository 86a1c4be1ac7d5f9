//! The closing of a processor that has the machine to itself, over a stock of four pages. In the class of 4096 bytes a page is one
//! unit.

ghost use Rattle.std.specs.Prelude.{◌≡◌, ◌+◌, ◌%◌, ◌<◌, ◌≤◌, ◌^◌, ℕ, [], length, map, IfSome};
ghost use Rattle.std.specs.List.{All};
ghost use Rattle.bm_journal.specs.Counts.{no_counts};
ghost use Rattle.bm_journal.specs.declared.ids.Domain.{Domain as DomainValue};
ghost use Rattle.bm_journal.specs.declared.ids.Domain.TheVariants.{Plain, Tracing};
ghost use Rattle.bm_cache.specs.Answers.{Gone};
ghost use Rattle.bm_cache.specs.Each.{Sits};
ghost use Rattle.bm_cache.specs.Shown.{shown};
ghost use Rattle.bm_cache.specs.Span.{Fine};
ghost use Rattle.bm_cache.specs.Tests.{Reusable, Waits};
ghost use Rattle.bm_cache.specs.Tokens.{number_of};
ghost use Rattle.bm_cache.specs.declared.allocate.Given.TheVariants as given;
ghost use Rattle.bm_work.specs.DeskTests.{tests_by};
ghost use Rattle.bm_grace.specs.Known.{side};
ghost use Rattle.bm_law.specs.Stands.{stands, times};
ghost use Rattle.bm_law.specs.State.{seen};
ghost use Rattle.bm_grace.specs.Rest.{StaysAtRest};
ghost use Rattle.bm_post.specs.Calls.{Posts, Takes};
ghost use Rattle.bm_world.specs.SideState.{SideAtRest, known_of};
ghost use Rattle.bm_closing.specs.AtEnd.{AtEnd, ended_at};

use crate::lent::Lent;
use crate::logs::has_log;
use crate::openings::{give_up, opened, pool_of};
use crate::still_desk::StillDesk;
use bm_cache::{Given, alloc, free_delayed};
use bm_class::Class;
use bm_closing::{Ended, close, end_period, sweep};
use bm_grace::{Began, Grace, PlainGrace};
use bm_journal::{Domain, Keep, Recorder};
use bm_page::Unit;
use bm_post::{PlainPost, Post};
use bm_work::Desk;
use bm_world::{OneSide, World};
use std::process::Abort;

/// A period of the plain domain was in progress, and one of the tracing domain wasn't.
const ENDED: &str = "\
processors 1 pages 4\n\
types\n\
maps\n\
scripts\n\
processor 0\n\
0 fill 4096\n\
0 finish plain 2 first 0 later 0\n\
total steps 0\n";

/// Two units are on Free, one was freed with delay, and the oldest of all waits in the inbox as a parcel. A second sweep finds
/// none.
const SWEPT: &str = "\
processors 1 pages 4\n\
types\n\
maps\n\
scripts\n\
processor 0\n\
0 fill 4096 256 512 768\n\
0 enter 4096 1\n\
0 pop 4096 768\n\
0 count 4096 2\n\
0 leave 4096 0\n\
0 given 768 1\n\
0 delay 768 0\n\
0 enter 4096 1\n\
0 delayed 4096 768\n\
0 leave 4096 0\n\
0 raise 4096\n\
0 sweep 4096 512 256 768 0\n\
0 stamp 4096 tracing 2\n\
0 begin tracing 1\n\
0 finish tracing 2 first 0 0 later 0 0\n\
0 pass 4096 tracing 2\n\
0 return 4096 512 256 768 0\n\
total steps 12\n";

/// A plain period was in progress, and no tracing one. Of the class of 2048 bytes there is nothing; of that of 4096 bytes three units
/// are on Free, and the oldest of all waits in the inbox as a parcel.
const CLOSED: &str = "\
processors 1 pages 4\n\
types\n\
maps\n\
scripts\n\
processor 0\n\
0 fill 4096 256 512 768\n\
0 finish plain 2 first 0 later 0\n\
0 sweep 4096 768 512 256 0\n\
0 stamp 4096 tracing 2\n\
0 begin tracing 1\n\
0 finish tracing 2 first 0 0 later 0 0\n\
0 pass 4096 tracing 2\n\
0 return 4096 768 512 256 0\n\
total steps 4\n";

/// The side of the only processor, on which nobody has done anything.
fn one_side(rt: &(impl Abort + AllocGlobal)) -> OneSide
    ensures rest { (d : DomainValue) → SideAtRest result d 0 }
    ensures processors { (known_of result).grace.processors ≡ 1 }
    ensures begins { (d : DomainValue) → 1 < (side d (known_of result)).begins }
{
    match PlainPost::create(rt.alloc(), pool_of(rt, 4), 1) {
        Ok(post) => OneSide::new(post, PlainGrace::new(1)),
        Err(_pool) => panic!(rt; "there is memory for the inboxes"),
    }
}

/// So many units of a class, from the stock.
fn fetched<S: World>(
    rt: &(impl Abort + AllocGlobal),
    side: &mut S,
    class: Class,
    want: usize,
) -> Vec<Unit>
    ensures count { length result.items ≡ want }
    ensures takes { Takes class result.items (S.Knows.rights side.old) (S.Knows.rights side.new) }
    ensures posts { Posts S.Knows.tells (S.Knows.known side.old) (S.Knows.known side.new) }
    ensures rest { StaysAtRest S.Knows.rest side.old side.new }
{
    let mut units = Vec::new(rt.alloc());
    let count = side.fetch(class, want, &mut units).expect(rt, "memory");
    assert!(rt; count == want);
    units
}

/// Caches of processor 0 with these units on Free, and this side.
fn desk_over<R: Recorder, S: World>(
    rt: &(impl Abort + AllocGlobal),
    recorder: R,
    class: Class,
    free: Vec<Unit>,
    lent: S,
) -> StillDesk<R, S>
    requires counts { R.counts recorder ≡ no_counts }
    requires log { IfSome (R.log recorder) (λ es. es ≡ []) }
    requires processors { (S.Knows.known lent).grace.processors ≡ 1 }
    requires sit { All (Sits class) free.items }
    requires once { (n : ℕ) → times n (map number_of free.items) ≤ 1 }
    requires reusable { All (Reusable (tests_by (S.Knows.rights lent))) free.items }
    ensures fine { Fine R.log R.counts (tests_by (S.Knows.rights result.side))
        (S.Knows.known result.side).grace.processors 0 result.caches }
    ensures side { result.side ≡ lent }
{
    let caches = opened(rt, recorder, class, free);
    StillDesk { caches, side: lent }
}

/// The unit that an allocation gives.
fn given_unit<R: Recorder, H: Ended<R>>(
    rt: &(impl Abort + AllocGlobal),
    host: &mut H,
    class: Class,
) -> Unit
    requires at_end { AtEnd R.log R.counts H.Host.sound H.Host.tests H.Host.face H.Host.held
        host.old }
    ensures at_end { AtEnd R.log R.counts (H.Host.gave result.number (result.life + 1)) H.Host.tests
        H.Host.face H.Host.held host.new }
    ensures gone { Gone (H.Host.tests host.new) (shown (H.Host.held host.new)) (given.Unit result) }
    ensures keeps { H.Host.keeps host.old host.new }
{
    match alloc(host, class) {
        Given::Unit(unit) => unit,
        Given::Empty | Given::Busy(_) => panic!(rt; "Free has a unit"),
    }
}

/// It is freed with delay.
fn free_with_delay<R: Recorder, H: Ended<R>>(host: &mut H, unit: Unit)
    requires at_end { AtEnd R.log R.counts (H.Host.frees unit.number unit.home) H.Host.tests
        H.Host.face H.Host.held host.old }
    requires fresh { stands unit.number (seen number_of (shown (H.Host.held host.old))) ≡ 0 }
    requires lives { unit.life + 1 < 2 ^ 32 }
    requires home { unit.home < (H.Host.face host.old).processors }
    requires suits { Waits (H.Host.tests host.old) unit }
    ensures at_end { AtEnd R.log R.counts H.Host.sound H.Host.tests H.Host.face H.Host.held
        host.new }
    ensures keeps { H.Host.keeps host.old host.new }
{
    free_delayed(host, unit);
}

/// The period that is in progress ends, and where none is, nothing happens.
fn ends_periods<S: World>(rt: &(impl Abort + AllocGlobal), lent: S) -> S
    requires processors { (S.Knows.known lent).grace.processors ≡ 1 }
    requires rest { (d : DomainValue) → S.Knows.rest lent d 0 }
    requires begins { 0 < (side Plain (S.Knows.known lent)).begins }
{
    let class = Class::new(10).expect(rt, "the class of 4096 bytes");
    let mut lent = lent;
    match lent.begin(Domain::Plain, 0) {
        Began::Won => {}
        Began::Moved(_) => panic!(rt; "nobody else calls"),
    }
    let mut keep = Keep::new(rt.alloc());
    let none = Vec::new(rt.alloc());
    let mut desk = desk_over(rt, Lent { keep: &mut keep }, class, none, lent);
    end_period(&mut desk, Domain::Plain);
    end_period(&mut desk, Domain::Tracing);
    let StillDesk { caches, side } = desk;
    caches.give_up();
    has_log(rt, keep, 1, 4, ENDED);
    side
}

#[test]
fn a_period_in_progress_ends(rt: HostRuntime) {
    give_up(ends_periods(&rt, one_side(&rt)));
}

/// A parcel of the oldest unit waits in the own inbox.
fn side_with_parcel(rt: &(impl Abort + AllocGlobal), class: Class) -> OneSide
    ensures rest { (d : DomainValue) → SideAtRest result d 0 }
    ensures processors { (known_of result).grace.processors ≡ 1 }
    ensures begins { (d : DomainValue) → 1 < (side d (known_of result)).begins }
{
    let mut side = one_side(rt);
    let parcel = fetched(rt, &mut side, class, 1);
    if let Err(_refused) = side.send(0, class, parcel) {
        panic!(rt; "memory");
    }
    side
}

#[test]
fn all_units_of_a_class_are_swept(rt: HostRuntime) {
    let class = Class::new(10).expect(&rt, "the class of 4096 bytes");
    let mut lent = side_with_parcel(&rt, class);
    let free = fetched(&rt, &mut lent, class, 3);
    let mut keep = Keep::new(rt.alloc());
    let mut desk = desk_over(&rt, Lent { keep: &mut keep }, class, free, lent);
    let unit = given_unit(&rt, &mut desk, class);
    if unit.home() != 0 || unit.seal().is_some() {
        panic!(&rt; "it is in its first life here");
    }
    free_with_delay(&mut desk, unit);
    sweep(rt.alloc(), &mut desk, class).expect(&rt, "memory");
    sweep(rt.alloc(), &mut desk, class).expect(&rt, "memory");
    let StillDesk { caches, side } = desk;
    caches.give_up();
    has_log(&rt, keep, 1, 4, SWEPT);
    give_up(side);
}

/// A period of the plain domain begins.
fn begin_plain<S: World>(rt: &impl Abort, lent: &mut S)
    requires rest { (d : DomainValue) → S.Knows.rest lent.old d 0 }
    requires begins { 0 < (side Plain (S.Knows.known lent.old)).begins }
    ensures rest { (d : DomainValue)
        → (n : ℕ)
        × (S.Knows.rest lent.new d n
        × (ended_at (side d (S.Knows.known lent.new)).number n % 2 ≡ 0)) }
    ensures begins { (side Tracing (S.Knows.known lent.new)).begins
        ≡ (side Tracing (S.Knows.known lent.old)).begins }
    ensures processors { (S.Knows.known lent.new).grace.processors
        ≡ (S.Knows.known lent.old).grace.processors }
{
    match lent.begin(Domain::Plain, 0) {
        Began::Won => {}
        Began::Moved(_) => panic!(rt; "nobody else calls"),
    }
}

#[test]
fn a_processor_is_closed(rt: HostRuntime) {
    let empty = Class::new(9).expect(&rt, "the class of 2048 bytes");
    let class = Class::new(10).expect(&rt, "the class of 4096 bytes");
    let mut lent = side_with_parcel(&rt, class);
    begin_plain(&rt, &mut lent);
    let free = fetched(&rt, &mut lent, class, 3);
    let mut keep = Keep::new(rt.alloc());
    let mut desk = desk_over(&rt, Lent { keep: &mut keep }, class, free, lent);
    close(rt.alloc(), &mut desk, &[empty, class]).expect(&rt, "memory");
    let StillDesk { caches, side } = desk;
    caches.give_up();
    has_log(&rt, keep, 1, 4, CLOSED);
    give_up(side);
}
