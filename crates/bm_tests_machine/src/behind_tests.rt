//! Works on a desk of one processor whose caches begin without units, over a stock of four pages. In the class of 2048 bytes a
//! page is two units, the marks are 4 and 12, and a refill is of 6 units; in the class of 4096 bytes they are one unit, 2 and 6,
//! and 3 units. No handler runs, and the logs are worked out by hand.

ghost use Rattle.std.specs.Prelude.{◌≤◌, ◌+◌, ◌*◌, length};
ghost use Rattle.bm_journal.specs.declared.ids.Domain.{Domain};
ghost use Rattle.bm_grace.specs.Known.{side};
ghost use Rattle.bm_exec_levels.specs.Settled.{Settled};

use crate::desks::desk_over;
use crate::lent::Lent;
use crate::logs::has_log;
use crate::openings::{give_up, side_over};
use crate::still_desk::{Gives, StillDesk};
use bm_cache::{Given, alloc};
use bm_class::Class;
use bm_exec_levels::{until_down, work_behind};
use bm_journal::{Keep, Recorder};
use bm_word::NoMemory;
use bm_work::Desk;
use std::process::Abort;

/// Two flags are up, and the works lower them, the lesser class first. Then a unit is given, which raises a flag again; the stock
/// has none left, and the work lowers the flag all the same. Where no flag is up nothing is done.
const UNTIL_DOWN: &str = "\
processors 1 pages 4\n\
types\n\
maps\n\
scripts\n\
processor 0\n\
0 enter 4096 1\n\
0 pop 4096 none\n\
0 leave 4096 0\n\
0 raise 4096\n\
0 empty\n\
0 enter 2048 1\n\
0 pop 2048 none\n\
0 leave 2048 0\n\
0 raise 2048\n\
0 empty\n\
0 work 2048\n\
0 receive 2048\n\
0 read 2048 0\n\
0 fetch 2048 6 0 1 256 257 512 513\n\
0 enter 2048 1\n\
0 push 2048 0\n\
0 count 2048 1\n\
0 leave 2048 0\n\
0 enter 2048 1\n\
0 push 2048 1\n\
0 count 2048 2\n\
0 leave 2048 0\n\
0 enter 2048 1\n\
0 push 2048 256\n\
0 count 2048 3\n\
0 leave 2048 0\n\
0 enter 2048 1\n\
0 push 2048 257\n\
0 count 2048 4\n\
0 leave 2048 0\n\
0 enter 2048 1\n\
0 push 2048 512\n\
0 count 2048 5\n\
0 leave 2048 0\n\
0 enter 2048 1\n\
0 push 2048 513\n\
0 count 2048 6\n\
0 leave 2048 0\n\
0 enter 2048 1\n\
0 taked 2048\n\
0 leave 2048 0\n\
0 work 4096\n\
0 receive 4096\n\
0 read 4096 0\n\
0 fetch 4096 3 768\n\
0 enter 4096 1\n\
0 push 4096 768\n\
0 count 4096 1\n\
0 leave 4096 0\n\
0 enter 4096 1\n\
0 taked 4096\n\
0 leave 4096 0\n\
0 enter 4096 1\n\
0 pop 4096 768\n\
0 count 4096 0\n\
0 leave 4096 0\n\
0 raise 4096\n\
0 given 768 1\n\
0 work 4096\n\
0 receive 4096\n\
0 read 4096 0\n\
0 fetch 4096 3\n\
0 enter 4096 1\n\
0 taked 4096\n\
0 leave 4096 0\n\
total steps 59\n";

/// Each class has its work, whether its flag is up or not, once before a unit is given and once behind that.
const BEHIND_A_SCRIPT: &str = "\
processors 1 pages 4\n\
types\n\
maps\n\
scripts\n\
processor 0\n\
0 work 2048\n\
0 receive 2048\n\
0 read 2048 0\n\
0 fetch 2048 6 0 1 256 257 512 513\n\
0 enter 2048 1\n\
0 push 2048 0\n\
0 count 2048 1\n\
0 leave 2048 0\n\
0 enter 2048 1\n\
0 push 2048 1\n\
0 count 2048 2\n\
0 leave 2048 0\n\
0 enter 2048 1\n\
0 push 2048 256\n\
0 count 2048 3\n\
0 leave 2048 0\n\
0 enter 2048 1\n\
0 push 2048 257\n\
0 count 2048 4\n\
0 leave 2048 0\n\
0 enter 2048 1\n\
0 push 2048 512\n\
0 count 2048 5\n\
0 leave 2048 0\n\
0 enter 2048 1\n\
0 push 2048 513\n\
0 count 2048 6\n\
0 leave 2048 0\n\
0 enter 2048 1\n\
0 taked 2048\n\
0 leave 2048 0\n\
0 work 4096\n\
0 receive 4096\n\
0 read 4096 0\n\
0 fetch 4096 3 768\n\
0 enter 4096 1\n\
0 push 4096 768\n\
0 count 4096 1\n\
0 leave 4096 0\n\
0 enter 4096 1\n\
0 taked 4096\n\
0 leave 4096 0\n\
0 enter 4096 1\n\
0 pop 4096 768\n\
0 count 4096 0\n\
0 leave 4096 0\n\
0 raise 4096\n\
0 given 768 1\n\
0 work 2048\n\
0 receive 2048\n\
0 read 2048 6\n\
0 enter 2048 1\n\
0 taked 2048\n\
0 leave 2048 0\n\
0 work 4096\n\
0 receive 4096\n\
0 read 4096 0\n\
0 fetch 4096 3\n\
0 enter 4096 1\n\
0 taked 4096\n\
0 leave 4096 0\n\
total steps 56\n";

fn class(rt: &impl Abort, index: u8) -> Class {
    Class::new(index).expect(rt, "there is such a class")
}

/// Ends a unit that was given; whether one was.
fn ends(given: Given) -> bool {
    match given {
        Given::Unit(unit) => {
            unit.give_up();
            true
        }
        Given::Empty | Given::Busy(_) => false,
    }
}

/// Asks for a unit, and ends it; whether one was given.
fn asks<R: Recorder, H: Desk<R> + Gives<R>>(host: &mut H, class: Class, left: u32) -> bool
    requires at_rest { Settled R.log R.counts H.Host.sound H.Host.tests H.Host.face H.Host.held
        host.old }
    requires begins { (d : Domain) → left ≤ (side d (H.W.Knows.known (H.shared host.old))).begins }
    ensures at_rest { Settled R.log R.counts H.Host.sound H.Host.tests H.Host.face H.Host.held
        host.new }
    ensures begins { (d : Domain) → left ≤ (side d (H.W.Knows.known (H.shared host.new))).begins }
    ensures pending { H.Host.pending host.new ≤ H.Host.pending host.old }
{
    let _left = left;
    ends(alloc(host, class))
}

/// Works behind a statement, for which there is memory.
fn settles<R: Recorder, H: Desk<R>>(
    rt: &(impl Abort + AllocGlobal),
    host: &mut H,
    classes: &[Class],
    left: u32,
)
    requires at_rest { Settled R.log R.counts H.Host.sound H.Host.tests H.Host.face H.Host.held
        host.old }
    requires begins { (d : Domain)
        → left + (length classes.now + 1) * (H.Host.pending host.old + 1)
        ≤ (side d (H.W.Knows.known (H.shared host.old))).begins }
    ensures at_rest { Settled R.log R.counts H.Host.sound H.Host.tests H.Host.face H.Host.held
        host.new }
    ensures begins { (d : Domain) → left ≤ (side d (H.W.Knows.known (H.shared host.new))).begins }
    ensures pending { H.Host.pending host.new ≤ H.Host.pending host.old }
{
    let _left = left;
    match until_down(rt.alloc(), host, classes) {
        Ok(()) => {}
        Err(NoMemory) => panic!(rt; "there is memory"),
    }
}

/// Works behind a script, for which there is memory.
fn ends_script<R: Recorder, H: Desk<R>>(
    rt: &(impl Abort + AllocGlobal),
    host: &mut H,
    classes: &[Class],
    left: u32,
)
    requires at_rest { Settled R.log R.counts H.Host.sound H.Host.tests H.Host.face H.Host.held
        host.old }
    requires begins { (d : Domain)
        → left + (length classes.now + (length classes.now + 1) * (H.Host.pending host.old + 1))
        ≤ (side d (H.W.Knows.known (H.shared host.old))).begins }
    ensures at_rest { Settled R.log R.counts H.Host.sound H.Host.tests H.Host.face H.Host.held
        host.new }
    ensures begins { (d : Domain) → left ≤ (side d (H.W.Knows.known (H.shared host.new))).begins }
    ensures pending { H.Host.pending host.new ≤ H.Host.pending host.old }
{
    let _left = left;
    match work_behind(rt.alloc(), host, classes) {
        Ok(()) => {}
        Err(NoMemory) => panic!(rt; "there is memory"),
    }
}

#[test]
fn works_until_no_flag_is_up(rt: HostRuntime) {
    let lesser = class(&rt, 9);
    let greater = class(&rt, 10);
    let classes = [lesser, greater];
    let mut keep = Keep::new(rt.alloc());
    let mut desk = desk_over(&rt, Lent { keep: &mut keep }, side_over(&rt, 1, 4));
    settles(&rt, &mut desk, &classes, 9);
    assert!(&rt; !asks(&mut desk, greater, 9));
    assert!(&rt; !asks(&mut desk, lesser, 9));
    assert!(&rt; desk.caches.raised(lesser) && desk.caches.raised(greater));
    settles(&rt, &mut desk, &classes, 6);
    assert!(&rt; !desk.caches.raised(lesser) && !desk.caches.raised(greater));
    assert!(&rt; asks(&mut desk, greater, 6));
    settles(&rt, &mut desk, &classes, 3);
    settles(&rt, &mut desk, &classes, 0);
    assert!(&rt; !desk.caches.raised(greater));
    let StillDesk { caches, side } = desk;
    caches.give_up();
    has_log(&rt, keep, 1, 4, UNTIL_DOWN);
    give_up(side);
}

#[test]
fn each_class_is_worked_behind_a_script(rt: HostRuntime) {
    let lesser = class(&rt, 9);
    let greater = class(&rt, 10);
    let classes = [lesser, greater];
    let mut keep = Keep::new(rt.alloc());
    let mut desk = desk_over(&rt, Lent { keep: &mut keep }, side_over(&rt, 1, 4));
    ends_script(&rt, &mut desk, &classes, 5);
    assert!(&rt; asks(&mut desk, greater, 5));
    ends_script(&rt, &mut desk, &classes, 0);
    assert!(&rt; !desk.caches.raised(lesser) && !desk.caches.raised(greater));
    let StillDesk { caches, side } = desk;
    caches.give_up();
    has_log(&rt, keep, 1, 4, BEHIND_A_SCRIPT);
    give_up(side);
}
