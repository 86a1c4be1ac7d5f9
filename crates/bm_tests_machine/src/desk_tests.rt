//! Works on a desk whose caches begin without units, over a stock of one page. In the class of 4096 bytes a page is one unit, the
//! marks are 2 and 6, and a refill is of 3 units.

ghost use Rattle.std.specs.Prelude.{◌≡◌, ◌<◌};
ghost use Rattle.bm_grace.specs.Known.{side};
ghost use Rattle.bm_journal.specs.declared.ids.Domain.TheVariants.{Plain, Tracing};

use crate::calls::{free_with_delay, given_unit, is_done, work_once};
use crate::desks::desk_over;
use crate::lent::Lent;
use crate::logs::has_log;
use crate::openings::{give_up, side_over, waiting_side};
use crate::still_desk::StillDesk;
use bm_class::Class;
use bm_journal::Keep;
use bm_work::work;
use bm_world::World;
use std::process::Abort;

/// The first work finds no unit on Free, and the stock's only one comes. The second finds one, which is still below the low
/// mark, and the stock has none. Nothing was freed, so the stages only look.
const TWO_WORKS: &str = "\
processors 2 pages 1\n\
types\n\
maps\n\
scripts\n\
processor 0\n\
0 work 4096\n\
0 receive 4096\n\
0 read 4096 0\n\
0 fetch 4096 3 0\n\
0 enter 4096 1\n\
0 push 4096 0\n\
0 count 4096 1\n\
0 leave 4096 0\n\
0 enter 4096 1\n\
0 taked 4096\n\
0 leave 4096 0\n\
0 work 4096\n\
0 receive 4096\n\
0 read 4096 1\n\
0 fetch 4096 3\n\
0 enter 4096 1\n\
0 taked 4096\n\
0 leave 4096 0\n\
total steps 16\n";

/// Both works are done, and their log is this one.
fn works_twice<S: World>(rt: &(impl Abort + AllocGlobal), lent: S) -> S
    requires processors { (S.Knows.known lent).grace.processors ≡ 2 }
    requires plain { 1 < (side Plain (S.Knows.known lent)).begins }
    requires tracing { 1 < (side Tracing (S.Knows.known lent)).begins }
{
    let class = Class::new(10).expect(rt, "the class of 4096 bytes");
    let mut keep = Keep::new(rt.alloc());
    let mut desk = desk_over(rt, Lent { keep: &mut keep }, lent);
    is_done(rt, work(rt.alloc(), &mut desk, class));
    is_done(rt, work(rt.alloc(), &mut desk, class));
    let StillDesk { caches, side } = desk;
    caches.give_up();
    has_log(rt, keep, 2, 1, TWO_WORKS);
    side
}

/// A unit comes from the stock, is given, is freed with delay, waits for a plain period, comes back as a parcel, waits for a
/// tracing one, and goes back to its page. Two units are left on Free, which is the low mark, so nothing is refilled after the
/// first work.
const WAY_BACK: &str = "\
processors 2 pages 3\n\
types\n\
maps\n\
scripts\n\
processor 0\n\
0 work 4096\n\
0 receive 4096\n\
0 read 4096 0\n\
0 fetch 4096 3 0 256 512\n\
0 enter 4096 1\n\
0 push 4096 0\n\
0 count 4096 1\n\
0 leave 4096 0\n\
0 enter 4096 1\n\
0 push 4096 256\n\
0 count 4096 2\n\
0 leave 4096 0\n\
0 enter 4096 1\n\
0 push 4096 512\n\
0 count 4096 3\n\
0 leave 4096 0\n\
0 enter 4096 1\n\
0 taked 4096\n\
0 leave 4096 0\n\
0 enter 4096 1\n\
0 pop 4096 512\n\
0 count 4096 2\n\
0 leave 4096 0\n\
0 given 512 1\n\
0 delay 512 0\n\
0 enter 4096 1\n\
0 delayed 4096 512\n\
0 leave 4096 0\n\
0 raise 4096\n\
0 work 4096\n\
0 receive 4096\n\
0 read 4096 2\n\
0 enter 4096 1\n\
0 taked 4096\n\
0 batch 4096 512\n\
0 leave 4096 0\n\
0 stamp 4096 plain 2\n\
0 work 4096\n\
0 receive 4096\n\
0 read 4096 2\n\
0 begin plain 1\n\
0 finish plain 2 first 0 0 later 0 0\n\
0 pass 4096 plain 2\n\
0 send 4096 0 512\n\
0 enter 4096 1\n\
0 taked 4096\n\
0 leave 4096 0\n\
0 work 4096\n\
0 receive 4096 512\n\
0 receive 4096\n\
0 read 4096 2\n\
0 enter 4096 1\n\
0 taked 4096\n\
0 leave 4096 0\n\
0 begin2 4096 512\n\
0 stamp 4096 tracing 2\n\
0 work 4096\n\
0 receive 4096\n\
0 read 4096 2\n\
0 enter 4096 1\n\
0 taked 4096\n\
0 leave 4096 0\n\
0 begin tracing 1\n\
0 finish tracing 2 first 0 0 0 0 later 0 0 0 0\n\
0 pass 4096 tracing 2\n\
0 return 4096 512\n\
total steps 55\n";

#[test]
fn a_unit_goes_back_to_its_page(rt: HostRuntime) {
    let class = Class::new(10).expect(&rt, "the class of 4096 bytes");
    let mut keep = Keep::new(rt.alloc());
    let mut desk = desk_over(&rt, Lent { keep: &mut keep }, side_over(&rt, 2, 3));
    work_once(&rt, &mut desk, class, 4);
    let unit = given_unit(&rt, &mut desk, class, 4);
    if unit.home() != 0 || unit.seal().is_some() {
        panic!(&rt; "it is in its first life here");
    }
    free_with_delay(&mut desk, class, unit, 4);
    work_once(&rt, &mut desk, class, 3);
    work_once(&rt, &mut desk, class, 2);
    work_once(&rt, &mut desk, class, 1);
    work_once(&rt, &mut desk, class, 0);
    let StillDesk { caches, side } = desk;
    caches.give_up();
    has_log(&rt, keep, 2, 3, WAY_BACK);
    give_up(side);
}

#[test]
fn a_work_refills_from_the_stock(rt: HostRuntime) {
    give_up(works_twice(&rt, side_over(&rt, 2, 1)));
    give_up(works_twice(&rt, waiting_side(&rt)).into_side());
}
