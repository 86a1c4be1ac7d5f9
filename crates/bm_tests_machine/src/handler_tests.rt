//! A drain whose units a handler takes between two of its steps. In the class of 4096 bytes a page is one unit, and the marks are
//! 2 and 6.

use crate::calls::work_once;
use crate::desks::desk_with;
use crate::handler_desk::{Ground, Kept};
use crate::lent::Lent;
use crate::logs::has_log;
use crate::openings::{give_up, give_up_units, side_over};
use bm_cache::Counts;
use bm_class::Class;
use bm_journal::Keep;

/// The count that is read is above the high mark. Before the third step, which is the drain's first, a handler takes all seven
/// units, the one on top first, and raises the flag at the counts 1 and 0, which are below the low mark. The drain finds no unit,
/// and nothing is sent.
const SEVEN_TAKEN: &str = "\
processors 2 pages 7\n\
types\n\
maps\n\
scripts\n\
processor 0\n\
0 fill 4096 0 256 512 768 1024 1280 1536\n\
0 work 4096\n\
0 receive 4096\n\
0 read 4096 7\n\
1 enter 4096 1\n\
1 pop 4096 1536\n\
1 count 4096 6\n\
1 leave 4096 0\n\
1 given 1536 1\n\
1 enter 4096 1\n\
1 pop 4096 1280\n\
1 count 4096 5\n\
1 leave 4096 0\n\
1 given 1280 1\n\
1 enter 4096 1\n\
1 pop 4096 1024\n\
1 count 4096 4\n\
1 leave 4096 0\n\
1 given 1024 1\n\
1 enter 4096 1\n\
1 pop 4096 768\n\
1 count 4096 3\n\
1 leave 4096 0\n\
1 given 768 1\n\
1 enter 4096 1\n\
1 pop 4096 512\n\
1 count 4096 2\n\
1 leave 4096 0\n\
1 given 512 1\n\
1 enter 4096 1\n\
1 pop 4096 256\n\
1 count 4096 1\n\
1 leave 4096 0\n\
1 raise 4096\n\
1 given 256 1\n\
1 enter 4096 1\n\
1 pop 4096 0\n\
1 count 4096 0\n\
1 leave 4096 0\n\
1 raise 4096\n\
1 given 0 1\n\
0 enter 4096 1\n\
0 pop 4096 none\n\
0 leave 4096 0\n\
0 takex 4096\n\
0 enter 4096 1\n\
0 taked 4096\n\
0 leave 4096 0\n\
total steps 39\n";

#[test]
fn a_handler_takes_all_that_would_be_drained(rt: HostRuntime) {
    let class = Class::new(10).expect(&rt, "the class of 4096 bytes");
    let mut keep = Keep::new(rt.alloc());
    let mut desk = desk_with(
        &rt,
        Lent { keep: &mut keep },
        side_over(&rt, 2, 7),
        class,
        7,
        true,
    );
    work_once(&rt, &mut desk, class, 3);
    let Ground {
        kept: Kept { caches, side },
        held,
        class: _,
        waits,
    } = desk;
    let counts = Counts {
        active: 0,
        count: 0,
        free: 0,
        extra: 0,
        extra_delayed: 0,
        delayed: 0,
        first: 0,
        ready: 0,
        second: 0,
    };
    assert_eq!(&rt; caches.counts(class), counts);
    assert!(&rt; caches.raised(class));
    assert!(&rt; !waits);
    assert_eq!(&rt; held.len(), 7);
    assert_eq!(&rt; caches.next_step(), 40);
    caches.give_up();
    give_up_units(held);
    give_up(side);
    has_log(&rt, keep, 2, 7, SEVEN_TAKEN);
}
