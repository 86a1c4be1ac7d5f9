//! Units fetched from the stock and put back, by worked rows.

ghost use Rattle.std.specs.Prelude.{IsPermutation};
ghost use Rattle.bm_page.specs.Out.{AreOut, IsOut};

use bm_class::{Class, class_of};
use bm_page::{Pool, Seal, Unit};
use std::alloc::Global;
use std::process::Abort;

/// The class of objects of `bytes` bytes.
fn class_for(rt: &impl Abort, bytes: u32) -> Class {
    class_of(bytes).expect(rt, "an object of this size has a class")
}

/// Fetches units to those that are held already, and says how many were given.
fn fetch_more(
    rt: &impl Abort,
    pool: &mut Pool,
    class: Class,
    want: usize,
    held: &mut Vec<Unit>,
) -> usize
    requires { AreOut pool.old held.old.items }
    ensures { AreOut pool.new held.new.items }
{
    pool.fetch(class, want, held)
        .expect(rt, "there is memory for the units")
}

/// Fetches one unit.
fn fetch_one(rt: &impl Abort, alloc: Global, pool: &mut Pool, class: Class) -> Unit
    ensures { IsOut pool.new result }
{
    let mut units = Vec::new(alloc);
    fetch_more(rt, pool, class, 1, &mut units);
    let unit = units.pop().expect(rt, "a unit was given");
    assert!(rt; units.is_empty());
    units.destroy_empty();
    unit
}

/// Puts back all units, the last one first.
fn put_all_back(pool: &mut Pool, mut units: Vec<Unit>)
    requires { AreOut pool.old units.items }
{
    while let Some(unit) = units.pop() {
        pool.put_back(unit);
    }
    units.destroy_empty();
}

#[test]
fn stock_goes_by_the_worked_rows(rt: HostRuntime) {
    // Whether all units go back first; the object's bytes, how many units are wanted and given; the
    // first and the last unit that are out then; the size of the page's class then.
    let rows = [
        (false, 8, 1, 1, 0, 0, 16),
        (false, 24, 1, 0, 0, 0, 16),
        (true, 24, 200, 128, 0, 127, 32),
    ];
    let mut pool = Pool::create(rt.alloc(), 1).expect(&rt, "memory");
    let mut held = Vec::new(rt.alloc());
    for (back, bytes, want, given, first, last, size) in rows {
        if back {
            let units = std::mem::replace(&mut held, Vec::new(rt.alloc()));
            put_all_back(&mut pool, units);
            assert_eq!(rt; pool.page_class(0), None);
        }
        let class = class_for(&rt, bytes);
        let count = fetch_more(&rt, &mut pool, class, want, &mut held);
        assert_eq!(rt; count, given, "units of {bytes} bytes");
        assert_eq!(rt; held.first().map(Unit::number), Some(first));
        assert_eq!(rt; held.last().map(Unit::number), Some(last));
        assert_eq!(rt; pool.page_class(0).map(Class::size), Some(size));
    }
    put_all_back(&mut pool, held);
    assert_eq!(rt; pool.units_out(), 0);
    pool.finish();
}

/// The order in which units go back.
#[derive(Clone, Copy, Debug, PartialEq, Eq)]
enum Order {
    AsFetched,
    Reversed,
    ByPosition,
}

/// Brings units into the order in which the last one goes back first.
fn arrange(rt: &impl Abort, order: Order, units: &mut Vec<Unit>)
    ensures { IsPermutation units.old.items units.new.items }
{
    match order {
        Order::AsFetched => units.reverse(),
        Order::Reversed => {}
        Order::ByPosition => {
            let sorted = units.sort_by_key(|unit| unit.number() % 256);
            assert!(rt; sorted.is_ok());
        }
    }
}

#[test]
fn all_units_go_out_and_back_in_any_order(rt: HostRuntime) {
    let class = class_for(&rt, 8);
    let mut pool = Pool::create(rt.alloc(), 256).expect(&rt, "memory");
    for order in [Order::AsFetched, Order::Reversed, Order::ByPosition] {
        let mut units = Vec::new(rt.alloc());
        let count = fetch_more(&rt, &mut pool, class, 70_000, &mut units);
        assert_eq!(rt; count, 65_536, "{order:?}");
        assert!(rt;
            units
                .iter()
                .map(|unit| unit.number() as usize)
                .eq(0..65_536),
            "{order:?}"
        );
        arrange(&rt, order, &mut units);
        put_all_back(&mut pool, units);
        assert_eq!(rt; pool.units_out(), 0, "{order:?}");
        assert_eq!(rt; pool.page_class(255), None, "{order:?}");
    }
    assert_eq!(rt; pool.units_out(), 0);
    pool.finish();
}

#[test]
fn lives_and_seals_outlast_the_stock(rt: HostRuntime) {
    let seal = Seal { stamp: 2, seen: 4 };
    let mut pool = Pool::create(rt.alloc(), 1).expect(&rt, "memory");
    let mut unit = fetch_one(&rt, rt.alloc(), &mut pool, class_for(&rt, 8));
    assert_eq!(rt;
        (unit.number(), unit.home(), unit.life(), unit.seal()),
        (0, 0, 0, None)
    );
    assert!(rt; unit.life() < 1);
    unit.begin_life();
    unit.set_home(3);
    unit.set_seal(seal);
    assert_eq!(rt; (unit.home(), unit.life(), unit.seal()), (3, 1, Some(seal)));
    pool.put_back(unit);

    let class = class_for(&rt, 4088);
    let mut unit = fetch_one(&rt, rt.alloc(), &mut pool, class);
    assert_eq!(rt; unit.class(), class);
    assert_eq!(rt; pool.page_class(0), Some(class));
    assert_eq!(rt;
        (unit.number(), unit.home(), unit.life(), unit.seal()),
        (0, 0, 1, Some(seal))
    );
    assert!(rt; unit.life() < 2);
    unit.begin_life();
    assert_eq!(rt; (unit.life(), unit.seal()), (2, None));
    assert_eq!(rt; pool.units_out(), 1);
    unit.give_up();
    pool.give_up();
}
