//! A drain, on a desk on which no handler runs.

use crate::calls::work_once;
use crate::desks::desk_with;
use crate::handler_desk::{Ground, Kept};
use crate::lent::Lent;
use crate::openings::{give_up, give_up_units, side_over};
use bm_cache::Counts;
use bm_class::Class;
use bm_journal::Tally;
use bm_post::Post;

/// The marks of 16 bytes are 32 and 96, and the middle is 64: of 97 units 33 leave Free, the one on top first, and go as one
/// parcel to the target, which is this processor, where no free has aimed at another. The steps are a look at the inbox, a read
/// of the count, four for each of the 33 units, the taking of Extra, the parcel, and three of the first stage.
#[test]
fn ninety_seven_units_are_drained_to_sixty_four(rt: HostRuntime) {
    let class = Class::new(0).expect(&rt, "the class of 16 bytes");
    let mut desk = desk_with(&rt, Tally::new(), side_over(&rt, 2, 1), class, 97, false);
    work_once(&rt, &mut desk, class, 3);
    let Ground {
        kept: Kept { caches, side },
        held,
        class: _,
        waits: _,
    } = desk;
    let counts = Counts {
        active: 0,
        count: 64,
        free: 64,
        extra: 0,
        extra_delayed: 0,
        delayed: 0,
        first: 0,
        ready: 0,
        second: 0,
    };
    assert_eq!(&rt; caches.counts(class), counts);
    assert_eq!(&rt; caches.next_step(), 140);
    assert_eq!(&rt; caches.target(class), 0);
    assert!(&rt; !caches.raised(class));
    caches.give_up();
    give_up_units(held);
    let mut side = side;
    let mut parcel = side.receive(class).expect(&rt, "a parcel");
    for number in 64..97u16 {
        let unit = parcel.pop().expect(&rt, "a unit");
        assert_eq!(&rt; unit.number(), number);
        unit.give_up();
    }
    assert!(&rt; parcel.is_empty());
    give_up_units(parcel);
    if let Some(more) = side.receive(class) {
        give_up_units(more);
        panic!(&rt; "it is the only parcel");
    }
    give_up(side);
}
