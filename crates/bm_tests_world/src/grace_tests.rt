//! Tables worked by hand, from the rules of docs/grace-periods.md.

ghost use Rattle.std.specs.Prelude.{◌≡◌, ◌%◌, ◌^◌, ◌<◌};
ghost use Rattle.bm_grace.specs.Known.{side};

use bm_grace::*;
use bm_journal::Domain::{Plain, Tracing};
use bm_journal::Period;
use std::process::Abort;

/// A period with its number and words.
fn is_period(rt: &impl Abort, period: &Period, number: u32, first: &[u32], later: &[u32]) {
    assert_eq!(rt; period.number, number);
    assert_eq!(rt; period.first.as_slice(), first);
    assert_eq!(rt; period.later.as_slice(), later);
}

/// A section of any side, from its beginning to its end: the two words.
fn section<G: Grace>(grace: &mut G, domain: bm_journal::Domain) -> (u32, u32)
    requires outside { (side domain (G.Knows.known grace.old)).word % 2 ≡ 0 }
    requires room { (side domain (G.Knows.known grace.old)).word < 2 ^ 28 }
{
    let inside = grace.enter(domain);
    let outside = grace.leave(domain);
    (inside, outside)
}

#[test]
fn words_count_sections(rt: HostRuntime) {
    let mut grace = PlainGrace::new(8);
    assert!(rt; grace.enter(Plain) == 1);
    assert!(rt; grace.enter(Tracing) == 1);
    assert!(rt; grace.leave(Plain) == 2);
    grace.turn(7);
    assert!(rt; section(&mut grace, Plain) == (1, 2));
}

#[test]
fn a_section_holds_a_period_up(rt: HostRuntime) {
    let mut grace = PlainGrace::new(2);
    assert!(rt; grace.stamp(Plain) == 2);
    grace.turn(1);
    assert!(rt; grace.enter(Plain) == 1);
    grace.turn(0);
    assert!(rt; matches!(grace.begin(Plain, 0), Began::Won));
    assert!(rt; grace.look(Plain) == Look::Waits(1, 1));
    assert!(rt; grace.done(Plain, 2) == Done::NotYet(1));
    assert!(rt; grace.stamp(Plain) == 4);
    grace.turn(1);
    assert!(rt; grace.begin(Plain, 0) == Began::Moved(1));
    assert!(rt; !grace.driving(Plain));
    assert!(rt; grace.leave(Plain) == 2);
    grace.turn(0);
    assert!(rt; grace.driving(Plain));
    assert!(rt; matches!(grace.look(Plain), Look::All));
    let period = grace.finish(Plain);
    is_period(&rt, &period, 2, &[0, 1], &[0, 2]);
    assert!(rt; !grace.driving(Plain));
    assert!(rt; grace.done(Plain, 2) == Done::Passed(2));
}

#[test]
fn a_later_section_holds_nothing_up(rt: HostRuntime) {
    let mut grace = PlainGrace::new(2);
    grace.turn(1);
    assert!(rt; grace.enter(Plain) == 1);
    grace.turn(0);
    assert!(rt; matches!(grace.begin(Plain, 0), Began::Won));
    assert!(rt; grace.look(Plain) == Look::Waits(1, 1));
    grace.turn(1);
    assert!(rt; grace.leave(Plain) == 2);
    assert!(rt; grace.enter(Plain) == 3);
    grace.turn(0);
    assert!(rt; matches!(grace.look(Plain), Look::All));
    let period = grace.finish(Plain);
    is_period(&rt, &period, 2, &[0, 1], &[0, 3]);
}

#[test]
fn a_tracing_period_looks_at_plain_words(rt: HostRuntime) {
    let mut grace = PlainGrace::new(2);
    grace.turn(1);
    assert!(rt; grace.enter(Plain) == 1);
    grace.turn(0);
    assert!(rt; matches!(grace.begin(Tracing, 0), Began::Won));
    assert!(rt; grace.look(Tracing) == Look::Waits(1, 1));
    grace.turn(1);
    assert!(rt; grace.leave(Plain) == 2);
    assert!(rt; grace.enter(Tracing) == 1);
    grace.turn(0);
    assert!(rt; matches!(grace.look(Tracing), Look::All));
    let period = grace.finish(Tracing);
    is_period(&rt, &period, 2, &[0, 0, 1, 0], &[0, 0, 2, 1]);
}

#[test]
fn a_plain_period_looks_at_no_tracing_word(rt: HostRuntime) {
    let mut grace = PlainGrace::new(2);
    grace.turn(1);
    assert!(rt; grace.enter(Tracing) == 1);
    assert!(rt; matches!(grace.begin(Plain, 0), Began::Won));
    assert!(rt; matches!(grace.look(Plain), Look::All));
    let period = grace.finish(Plain);
    is_period(&rt, &period, 2, &[0, 0], &[0, 0]);
    assert!(rt; grace.stamp(Plain) == 4);
    assert!(rt; grace.stamp(Tracing) == 2);
    assert!(rt; grace.done(Plain, 3) == Done::NotYet(2));
    assert!(rt; matches!(grace.begin(Plain, 2), Began::Won));
    assert!(rt; grace.stamp(Plain) == 6);
}
