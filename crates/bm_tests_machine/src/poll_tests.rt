//! Polls on a desk without units, over both worlds. The numbers are worked out by hand: a stamp at the even number q is q + 2,
//! a period begins by making the number odd and ends by making it even, and it passes a word that was even when it was first
//! looked at, or is greater later.

ghost use Rattle.std.specs.Prelude.{◌≡◌, ◌+◌, ◌<◌, ◌≤◌, ◌%◌};
ghost use Rattle.bm_journal.specs.declared.ids.Domain.TheVariants.{Plain};
ghost use Rattle.bm_grace.specs.Known.{side};
ghost use Rattle.bm_work.specs.DeskTests.{since_test};
ghost use Rattle.bm_work.specs.Works.{Called, Stands};
ghost use Rattle.bm_cache.specs.Tests.{Either, Passes};
ghost use Rattle.bm_cache.specs.Tokens.{Token};

use crate::desks::desk_over;
use crate::lent::Lent;
use crate::logs::has_log;
use crate::openings::{give_up, side_over, waiting_side};
use crate::still_desk::StillDesk;
use bm_class::Class;
use bm_grace::{Done, Grace};
use bm_journal::{Domain, Keep, Recorder};
use bm_work::{Desk, poll};
use bm_world::World;
use std::process::Abort;

/// A period that begins and ends at once. Its beginning and its end are no steps.
const AT_ONCE: &str = "\
processors 2 pages 1\n\
types\n\
maps\n\
scripts\n\
processor 0\n\
0 begin plain 1\n\
0 finish plain 2 first 0 0 later 0 0\n\
0 pass 16 plain 2\n\
total steps 1\n";

/// A period that begins inside a section, and ends after it.
const HELD_UP: &str = "\
processors 2 pages 1\n\
types\n\
maps\n\
scripts\n\
processor 0\n\
0 begin plain 1\n\
0 pass 16 plain 1\n\
0 finish plain 2 first 1 0 later 2 0\n\
0 pass 16 plain 2\n\
total steps 2\n";

fn class(rt: &impl Abort) -> Class {
    Class::new(0).expect(rt, "the class of 16 bytes")
}

/// Reads the number of a domain, and answers the stamp of it, which is no step of the log by itself. So it is for desks
/// that aren't tied to their logs.
fn read_stamp<R: Recorder, H: Desk<R>>(host: &mut H, domain: Domain) -> u32
    requires stands { Stands R.log R.counts H.Host.sound H.Host.tests H.Host.face H.Host.held
        host.old }
    requires apart { (h : H) (w : H.W) → H.Host.sound h → H.Host.sound (H.with_shared h w) }
    ensures positive { 0 < result }
    ensures since { (u : Token) → Either (H.Host.tests host.old) u
        → Passes (H.Host.tests host.new) (since_test domain result) u }
    ensures called { Called H.Host.face H.Host.pending H.stays H.Host.held
        (λ h. H.W.Knows.known (H.shared h)) (λ h. H.W.Knows.rights (H.shared h)) 0 0 host.old
        host.new }
    ensures stands { Stands R.log R.counts H.Host.sound H.Host.tests H.Host.face H.Host.held
        host.new }
{
    host.world().stamp(domain)
}

/// A stamp of the plain domain, and what a poll for it answers, on a desk that doesn't mind for which batch it is.
fn stamp_and_poll<R: Recorder, H: Desk<R>>(host: &mut H, class: Class) -> (u32, Done)
    requires stands { Stands R.log R.counts H.Host.sound H.Host.tests H.Host.face H.Host.held
        host.old }
    requires apart { (h : H) (w : H.W) → H.Host.sound h → H.Host.sound (H.with_shared h w) }
    requires free { H.minds → ⊥ }
    requires room { 0 < (side Plain (H.W.Knows.known (H.shared host.old))).begins }
    ensures stays { H.stays host.old host.new }
    ensures begins { (side Plain (H.W.Knows.known (H.shared host.old))).begins
        ≤ (side Plain (H.W.Knows.known (H.shared host.new))).begins + 1 }
    ensures stands { Stands R.log R.counts H.Host.sound H.Host.tests H.Host.face H.Host.held
        host.new }
{
    let stamp = read_stamp(host, Domain::Plain);
    let seen = poll(host, class, Domain::Plain, stamp);
    (stamp, seen)
}

/// Where no section is open, a poll begins a period and ends it.
fn passes_at_once<S: World>(rt: &(impl Abort + AllocGlobal), lent: S) -> S
    requires processors { (S.Knows.known lent).grace.processors ≡ 2 }
    requires room { 0 < (side Plain (S.Knows.known lent)).begins }
{
    let mut keep = Keep::new(rt.alloc());
    let mut desk = desk_over(rt, Lent { keep: &mut keep }, lent);
    assert!(rt; stamp_and_poll(&mut desk, class(rt)) == (2, Done::Passed(2)));
    let StillDesk { caches, side } = desk;
    caches.give_up();
    has_log(rt, keep, 2, 1, AT_ONCE);
    side
}

/// Where a section of the own processor is open, the period that a poll begins isn't over, and a later poll ends it once the
/// section has ended.
fn a_section_holds_it_up<S: World>(rt: &(impl Abort + AllocGlobal), lent: S) -> S
    requires processors { (S.Knows.known lent).grace.processors ≡ 2 }
    requires room { 1 < (side Plain (S.Knows.known lent)).begins }
    requires outside { (side Plain (S.Knows.known lent)).word ≡ 0 }
{
    let mut lent = lent;
    assert!(rt; lent.enter(Domain::Plain) == 1);
    let mut keep = Keep::new(rt.alloc());
    let mut desk = desk_over(rt, Lent { keep: &mut keep }, lent);
    assert!(rt; stamp_and_poll(&mut desk, class(rt)) == (2, Done::NotYet(1)));
    assert!(rt; desk.side.leave(Domain::Plain) == 2);
    assert!(rt; poll(&mut desk, class(rt), Domain::Plain, 2) == Done::Passed(2));
    let StillDesk { caches, side } = desk;
    caches.give_up();
    has_log(rt, keep, 2, 1, HELD_UP);
    side
}

#[test]
fn a_poll_begins_a_period_and_ends_it(rt: HostRuntime) {
    give_up(passes_at_once(&rt, side_over(&rt, 2, 1)));
    give_up(passes_at_once(&rt, waiting_side(&rt)).into_side());
}

#[test]
fn a_poll_inside_a_section_waits(rt: HostRuntime) {
    give_up(a_section_holds_it_up(&rt, side_over(&rt, 2, 1)));
    give_up(a_section_holds_it_up(&rt, waiting_side(&rt)).into_side());
}
