//! Units that go from the pool over inboxes back to the pool, through the trait.

ghost use Rattle.std.specs.Prelude.{◌≡◌, ◌<◌, length};
ghost use Rattle.std.specs.List.{All};
ghost use Rattle.bm_post.specs.Calls.{IsOf};
ghost use Rattle.bm_post.specs.Rights.{Holds, MayLeave};

use crate::pools::one_page;
use bm_class::Class;
use bm_page::Unit;
use bm_post::{PlainPost, Post};
use std::process::Abort;

/// Units of a class, as many as are wanted.
fn fetch_all<P: Post>(
    rt: &(impl Abort + AllocGlobal),
    post: &mut P,
    class: Class,
    want: usize,
) -> Vec<Unit>
    requires { 0 < want }
    ensures some { 0 < length result.items }
    ensures class { All (IsOf class) result.items }
    ensures holds { Holds (P.rights post.new) result.items }
    ensures fit { All (MayLeave (P.rights post.new)) result.items }
    ensures processors { (P.Knows.known post.new).grace.processors
        ≡ (P.Knows.known post.old).grace.processors }
{
    let mut units = Vec::new(rt.alloc());
    let count = post
        .fetch(class, want, &mut units)
        .expect(rt, "there is memory for the units");
    assert!(rt; count == want);
    units
}

/// The oldest parcel of a class.
fn receive_one<P: Post>(rt: &impl Abort, post: &mut P, class: Class) -> Vec<Unit>
    ensures holds { Holds (P.rights post.new) result.items }
    ensures fit { All (MayLeave (P.rights post.new)) result.items }
{
    post.receive(class).expect(rt, "a parcel waits")
}

/// Sends a parcel for which there is memory.
fn send_one<P: Post>(rt: &impl Abort, post: &mut P, to: u8, class: Class, units: Vec<Unit>)
    requires to { to < (P.Knows.known post.old).grace.processors }
    requires some { 0 < length units.items }
    requires class { All (IsOf class) units.items }
    requires holds { Holds (P.rights post.old) units.items }
    requires fit { All (MayLeave (P.rights post.old)) units.items }
    ensures processors { (P.Knows.known post.new).grace.processors
        ≡ (P.Knows.known post.old).grace.processors }
{
    match post.send(to, class, units) {
        Ok(()) => {}
        Err(_units) => panic!(rt; "there is memory for the parcel"),
    }
}

/// The numbers of units are those.
fn have_numbers(rt: &impl Abort, units: &Vec<Unit>, numbers: &[u16]) {
    assert_eq!(rt; units.len(), numbers.len());
    for (unit, number) in units.iter().zip(numbers) {
        assert_eq!(rt; unit.number(), *number);
    }
}

#[test]
fn parcels_come_as_they_were_sent(rt: HostRuntime) {
    let class = Class::new(0).expect(&rt, "an index is a class");
    let pool = one_page(&rt);
    let mut post = match PlainPost::create(rt.alloc(), pool, 2) {
        Ok(post) => post,
        Err(_pool) => panic!(&rt; "there is memory for the inboxes"),
    };
    let two = fetch_all(&rt, &mut post, class, 2);
    send_one(&rt, &mut post, 1, class, two);
    let one = fetch_all(&rt, &mut post, class, 1);
    send_one(&rt, &mut post, 1, class, one);
    match post.receive(class) {
        None => {}
        Some(_units) => panic!(&rt; "nothing was sent here"),
    }
    post.turn(1);
    let first = receive_one(&rt, &mut post, class);
    have_numbers(&rt, &first, &[0, 1]);
    post.put_back(first);
    let second = receive_one(&rt, &mut post, class);
    have_numbers(&rt, &second, &[2]);
    post.put_back(second);
    match post.receive(class) {
        None => {}
        Some(_units) => panic!(&rt; "two parcels were sent"),
    }
    let last = fetch_all(&rt, &mut post, class, 1);
    have_numbers(&rt, &last, &[0]);
    post.put_back(last);
    post.give_up();
}

#[test]
fn the_pool_comes_back(rt: HostRuntime) {
    let pool = one_page(&rt);
    match PlainPost::create(rt.alloc(), pool, 8) {
        Ok(post) => {
            let pool = post.finish();
            assert!(rt; pool.units_out() == 0);
            pool.give_up();
        }
        Err(_pool) => panic!(&rt; "there is memory for the inboxes"),
    }
}
