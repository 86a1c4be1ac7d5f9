//! What desks begin with: sides, units and caches.

ghost use Rattle.std.specs.Prelude.{◌≡◌, ◌<◌, ◌≤◌, ◌∷◌, ℕ, [], IfSome, map};
ghost use Rattle.bm_journal.specs.Counts.{no_counts};
ghost use Rattle.bm_grace.specs.PlainState.{idle};
ghost use Rattle.bm_post.specs.Calls.{Takes};
ghost use Rattle.bm_post.specs.Kept.{IsRoomy};
ghost use Rattle.bm_cache.specs.Opening.{Opened};
ghost use Rattle.bm_cache.specs.Each.{Sits};
ghost use Rattle.bm_cache.specs.Tokens.{number_of};
ghost use Rattle.bm_law.specs.Stands.{times};
ghost use Rattle.std.specs.List.{All};

use bm_cache::Caches;
use bm_class::Class;
use bm_grace::PlainGrace;
use bm_journal::Recorder;
use bm_page::{Pool, Unit};
use bm_post::{PlainPost, Post};
use bm_world::{OneSide, WaitingSide, World};
use std::process::Abort;

/// A pool of so many pages.
pub(crate) fn pool_of(rt: &(impl Abort + AllocGlobal), pages: u16) -> Pool
    requires pages { pages ≤ 256 }
    ensures roomy { IsRoomy result }
{
    Pool::create(rt.alloc(), pages).expect(rt, "memory")
}

/// The side of the first of so many processors over so many pages, where nobody has done anything.
pub(crate) fn side_over(rt: &(impl Abort + AllocGlobal), processors: u8, pages: u16) -> OneSide
    requires some { 0 < processors }
    requires few { processors ≤ 8 }
    requires pages { pages ≤ 256 }
    ensures grace { result.grace
        ≡ record { processors = processors; processor = 0; plain = idle; tracing = idle } }
{
    match PlainPost::create(rt.alloc(), pool_of(rt, pages), processors) {
        Ok(post) => OneSide::new(post, PlainGrace::new(processors)),
        Err(_pool) => panic!(rt; "there is memory for the inboxes"),
    }
}

/// The side of the first of two processors over one page, with tests by which units wait.
pub(crate) fn waiting_side(rt: &(impl Abort + AllocGlobal)) -> WaitingSide
    ensures { result.side.grace
        ≡ record { processors = 2; processor = 0; plain = idle; tracing = idle } }
{
    match WaitingSide::create(rt.alloc(), side_over(rt, 2, 1)) {
        Ok(side) => side,
        Err(_side) => panic!(rt; "there is memory for what waits"),
    }
}

/// Ends units.
pub(crate) fn give_up_units(units: Vec<Unit>) {
    let mut units = units;
    while let Some(unit) = units.pop() {
        unit.give_up();
    }
    units.destroy_empty();
}

/// Ends a side.
pub(crate) fn give_up(side: OneSide) {
    let (post, _grace) = side.into_parts();
    post.give_up();
}

/// So many units of a class from the pool.
pub(crate) fn fetched<S: World>(
    rt: &(impl Abort + AllocGlobal),
    side: &mut S,
    class: Class,
    count: usize,
) -> Vec<Unit>
    ensures takes { Takes class result.items (S.Knows.rights side.old) (S.Knows.rights side.new) }
    ensures known { (S.Knows.known side.new).grace ≡ (S.Knows.known side.old).grace }
{
    let mut units = Vec::with_capacity(rt.alloc(), count).expect(rt, "memory");
    match side.fetch(class, count, &mut units) {
        Ok(found) => assert_eq!(rt; found, count),
        Err(_refused) => panic!(rt; "memory"),
    }
    units
}

/// Caches of processor 0 with these units of a class on Free.
pub(crate) fn opened<R: Recorder>(
    rt: &(impl Abort + AllocGlobal),
    recorder: R,
    class: Class,
    units: Vec<Unit>,
) -> Caches<R>
    requires counts { R.counts recorder ≡ no_counts }
    requires log { IfSome (R.log recorder) (λ es. es ≡ []) }
    requires sit { All (Sits class) units.items }
    requires once { (n : ℕ) → times n (map number_of units.items) ≤ 1 }
    ensures opened { Opened R.log R.counts 0 ((class, units.items) ∷ []) result }
{
    let _class = class.index();
    let mut fills = Vec::with_capacity(rt.alloc(), 1).expect(rt, "memory");
    if let Err(_refused) = fills.push((class, units)) {
        panic!(rt; "memory");
    }
    match Caches::create(rt.alloc(), 0, fills, recorder) {
        Ok(caches) => caches,
        Err(_back) => panic!(rt; "memory"),
    }
}
