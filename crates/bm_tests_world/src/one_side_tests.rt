//! A unit's way from the pool over a grace period back to the pool, through the world of two processors.

use crate::pools::one_page;
use bm_class::Class;
use bm_grace::{Began, Done, Grace, Look, PlainGrace};
use bm_journal::Domain;
use bm_post::{PlainPost, Post};
use bm_world::OneSide;
use std::process::Abort;

#[test]
fn a_period_passes_between_two_processors(rt: HostRuntime) {
    let post = match PlainPost::create(rt.alloc(), one_page(&rt), 2) {
        Ok(post) => post,
        Err(_pool) => panic!(&rt; "there is memory for the inboxes"),
    };
    let mut world = OneSide::new(post, PlainGrace::new(2));
    let class = Class::new(1).expect(&rt, "an index is a class");
    let mut units = Vec::new(rt.alloc());
    let count = world
        .fetch(class, 3, &mut units)
        .expect(&rt, "there is memory for the units");
    assert_eq!(rt; count, 3);
    assert_eq!(rt; units.len(), 3);
    world.put_back(units);
    let stamp = world.stamp(Domain::Plain);
    assert_eq!(rt; stamp, 2);
    assert!(rt; world.done(Domain::Plain, stamp) == Done::NotYet(0));
    assert!(rt; world.begin(Domain::Plain, 0) == Began::Won);
    assert!(rt; world.done(Domain::Plain, stamp) == Done::NotYet(1));
    assert!(rt; world.look(Domain::Plain) == Look::All);
    let period = world.finish(Domain::Plain);
    assert_eq!(rt; period.number, 2);
    assert!(rt; world.done(Domain::Plain, stamp) == Done::Passed(2));
    world.turn(1);
    match world.receive(class) {
        None => {}
        Some(_units) => panic!(&rt; "nothing was sent"),
    }
    let (post, _grace) = world.into_parts();
    post.give_up();
}
