//! Desks whose caches begin with units, and without.

ghost use Rattle.std.specs.Prelude.{◌≡◌, ◌<◌, ◌≤◌, [], IfSome};
ghost use Rattle.bm_journal.specs.Counts.{no_counts};
ghost use Rattle.bm_journal.specs.declared.ids.Domain.{Domain};
ghost use Rattle.bm_cache.specs.Opening.{Opened};
ghost use Rattle.bm_cache.specs.Shown.{shown};
ghost use Rattle.bm_cache.specs.Span.{Fine};
ghost use Rattle.bm_grace.specs.Known.{side as side_of};
ghost use Rattle.bm_law.specs.State.{opening};
ghost use Rattle.bm_work.specs.Dated.{Dated};
ghost use Rattle.bm_work.specs.DeskTests.{tests_by};
ghost use Rattle.bm_work.specs.Rests.{Rests};

use crate::handler_desk::{Ground, Kept};
use crate::openings::{fetched, opened};
use crate::still_desk::StillDesk;
use bm_cache::Caches;
use bm_class::Class;
use bm_journal::Recorder;
use bm_world::World;
use std::process::Abort;

/// A desk at rest with so many units of a class on Free, and a handler, if `waits` says so.
pub(crate) fn desk_with<R: Recorder, S: World>(
    rt: &(impl Abort + AllocGlobal),
    recorder: R,
    lent: S,
    class: Class,
    count: usize,
    waits: bool,
) -> Ground<R, S>
    requires counts { R.counts recorder ≡ no_counts }
    requires log { IfSome (R.log recorder) (λ es. es ≡ []) }
    requires processors { (S.Knows.known lent).grace.processors ≡ 2 }
    requires begins { (d : Domain) → 4 ≤ (side_of d (S.Knows.known lent)).begins }
    ensures rests { Rests R.log R.counts (λ m. Unit {0})
        (λ m. tests_by (S.Knows.rights m.kept.side))
        (λ m. record
        { level = 0; processors = (S.Knows.known m.kept.side).grace.processors; through = 0 })
        (λ m. m.kept.caches) (λ m. S.Knows.known m.kept.side) class 4 result }
    ensures processors { (S.Knows.known result.kept.side).grace.processors ≡ 2 }
{
    let mut side = lent;
    let units = fetched(rt, &mut side, class, count);
    let caches = opened(rt, recorder, class, units);
    Ground {
        kept: Kept { caches, side },
        held: Vec::with_capacity(rt.alloc(), 7).expect(rt, "memory"),
        class,
        waits,
    }
}

/// Caches of processor 0 without units.
fn no_units<R: Recorder>(rt: &(impl Abort + AllocGlobal), recorder: R) -> Caches<R>
    requires counts { R.counts recorder ≡ no_counts }
    requires log { IfSome (R.log recorder) (λ es. es ≡ []) }
    ensures { Opened R.log R.counts 0 [] result }
{
    match Caches::create(rt.alloc(), 0, Vec::new(rt.alloc()), recorder) {
        Ok(caches) => caches,
        Err(_back) => panic!(rt; "memory"),
    }
}

/// A desk without units.
pub(crate) fn desk_over<R: Recorder, S: World>(
    rt: &(impl Abort + AllocGlobal),
    recorder: R,
    lent: S,
) -> StillDesk<R, S>
    requires counts { R.counts recorder ≡ no_counts }
    requires log { IfSome (R.log recorder) (λ es. es ≡ []) }
    requires some { 0 < (S.Knows.known lent).grace.processors }
    requires few { (S.Knows.known lent).grace.processors ≤ 8 }
    ensures fine { Fine R.log R.counts (tests_by (S.Knows.rights result.side))
        (S.Knows.known result.side).grace.processors 1 result.caches }
    ensures dated { Dated (tests_by (S.Knows.rights result.side)) (shown result.caches) }
    ensures side { result.side ≡ lent }
    ensures empty { shown result.caches ≡ opening 0 }
{
    StillDesk {
        caches: no_units(rt, recorder),
        side: lent,
    }
}
