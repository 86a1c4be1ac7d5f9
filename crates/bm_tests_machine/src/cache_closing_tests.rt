//! The closing of one processor's caches, as its log shows it.

ghost use Rattle.std.specs.Prelude.{◌≡◌, [], IfSome};
ghost use Rattle.bm_journal.specs.Counts.{no_counts};
ghost use Rattle.bm_cache.specs.Placed.{Placed};
ghost use Rattle.bm_cache.specs.Shown.{shown, waiting};
ghost use Rattle.bm_cache.specs.Lent.{all_back};

use crate::cache_fixtures::{
    Answer, OneByOne, class, end, first_four, four_free, free_one, list_numbers, opened, pair,
    put_in, take_one,
};
use crate::lent::Lent;
use crate::logs::text;
use crate::openings::give_up_units;
use bm_cache::Caches;
use bm_class::Class;
use bm_journal::{Domain, Entry, Keep, Level, Recorder, Tally};
use std::process::Abort;
use std::test::Fail;

/// A unit is taken and put back, and then the caches are closed.
const CLOSED: &str = "\
processors 1 pages 1\n\
types\n\
maps\n\
scripts\n\
processor 0\n\
0 fill 16 0 1 2 3\n\
0 enter 16 1\n\
0 pop 16 3\n\
0 count 16 3\n\
0 leave 16 0\n\
0 raise 16\n\
0 given 3 1\n\
0 free 3 0\n\
0 enter 16 1\n\
0 push 16 3\n\
0 count 16 4\n\
0 leave 16 0\n\
0 close\n\
0 sweep 16 3 2 1 0\n\
0 stamp 16 tracing 2\n\
0 begin tracing 1\n\
0 pass 16 tracing 2\n\
0 return 16 3 2 1 0\n\
total steps 13\n\
total given 1\n\
total empty 0\n\
total busy 0\n\
total last 0\n\
total still 0\n\
total acquired 0\n\
total exchanged 0\n\
total pushed 0\n\
total already 0\n\
total taken 0\n\
total none 0\n\
total raised 1\n\
total worked 0\n\
total fetched 4\n\
total returned 4\n\
total plain 0\n\
total tracing 0\n\
total handlers 0\n\
";

/// All units of a class go back to the stock.
fn close_down<R: Recorder>(rt: &(impl Abort + AllocGlobal), caches: &mut Caches<R>, class: Class)
    requires placed { Placed R.log R.counts caches.old }
    requires none { waiting class (shown caches.old) ≡ 0 }
    ensures { shown caches.new ≡ all_back class (shown caches.old) }
{
    let level = Level::ordinary();
    caches.note(level, Entry::Close);
    caches.sweep_in(level, class, Vec::new(rt.alloc()));
    caches.stamped(level, class, Domain::Tracing, 2);
    caches.note(level, Entry::Begin(Domain::Tracing, 1));
    caches.passed(level, class, Domain::Tracing, 2);
    let units = caches.second_out(level, class).expect(rt, "memory");
    let numbers = list_numbers(rt, &units);
    caches.returned(level, class, numbers);
    give_up_units(units);
}

/// Opens caches with units 0 to 3, and closes them.
fn open_and_close<R: Recorder>(rt: &(impl Abort + AllocGlobal), recorder: R) -> R
    requires counts { R.counts recorder ≡ no_counts }
    requires log { IfSome (R.log recorder) (λ es. es ≡ []) }
{
    let OneByOne { a, b, c, d } = first_four(rt);
    let mut free = pair(rt, a, b);
    put_in(rt, &mut free, c);
    put_in(rt, &mut free, d);
    let mut caches = opened(rt, recorder, free);
    close_down(rt, &mut caches, class(rt));
    caches.finish()
}

#[test]
fn the_closing_returns_all_units(rt: HostRuntime) {
    let class = class(&rt);
    let mut keep = Keep::new(rt.alloc());
    let mut ground = four_free(&rt, Lent { keep: &mut keep });
    assert_eq!(rt; take_one(&rt, &mut ground, class), Answer::Unit(3));
    free_one(&mut ground);
    close_down(&rt, &mut ground.kept.caches, class);
    assert_eq!(rt; ground.kept.caches.counts(class).second, 0);
    assert_eq!(rt;
        ground.kept.caches.in_progress(class, Domain::Tracing),
        None
    );
    end(ground);
    assert_eq!(rt; text(&rt, keep, 1, 1).as_slice(), CLOSED.as_bytes());
}

#[test]
fn caches_that_are_closed_end_in_order(rt: HostRuntime) {
    let counts = open_and_close(&rt, Tally::new()).counts();
    assert_eq!(rt; counts.lengths(class(&rt)).second, 0);
}
