//! Ready becomes the tracing batch.

ghost use Rattle.std.specs.Prelude.{◌≡◌, ◌≢◌, ◌+◌, ◌++◌, ◌∷◌, [], ◌<◌, ℕ, List, Option, None, Some, length, true, false};
ghost use Rattle.std.specs.List.{All};
ghost use Rattle.bm_journal.specs.declared.units.Units.TheVariants.{Whole};
ghost use Rattle.bm_journal.specs.declared.entry.Entry.TheVariants as entry;
ghost use Rattle.bm_law.specs.State.{seen};
ghost use Rattle.bm_cache.specs.Tokens.{number_of};
ghost use Rattle.bm_cache.specs.Tests.{Same};
ghost use Rattle.bm_cache.specs.Shown.{shown};
ghost use Rattle.bm_cache.specs.Span.{Fine, Goes, RaisesNone, Span, Unbroken};
ghost use Rattle.bm_law_work.specs.Parts.{Say, When};
ghost use Rattle.bm_law_work.specs.WorkPhrases.{IsSecond, may_begin};
ghost use Rattle.bm_work_lists.specs.Grown.{GrewBy};

use bm_cache::Host;
use bm_class::Class;
use bm_journal::{Domain, Recorder};

/// Whether Ready holds a unit and no tracing batch is in progress.
fn wants_second<R: Recorder, H: Host<R>>(host: &mut H, class: Class) -> bool
    requires sound { H.sound host.old }
    requires fine { Fine R.log R.counts (H.tests host.old) (H.face host.old).processors
        ((H.face host.old).level + 1) (H.held host.old) }
    ensures answer { result ≡ may_begin class (seen number_of (shown (H.held host.old))) }
    ensures held { H.held host.new ≡ H.held host.old }
    ensures tests { H.tests host.new ≡ H.tests host.old }
    ensures fine { Fine R.log R.counts (H.tests host.new) (H.face host.new).processors
        ((H.face host.new).level + 1) (H.held host.new) }
    ensures goes { Goes H.face H.pending H.keeps host.old host.new }
    ensures alone { Unbroken H.face H.pending H.held R.log host.old host.new }
    ensures flags { RaisesNone H.pending H.held host.old host.new }
    ensures sound { H.sound host.new }
{
    let caches = host.caches();
    caches.counts(class).ready > 0 && caches.in_progress(class, Domain::Tracing).is_none()
}

/// A point, and all of Ready becomes the tracing batch, which has no stamp so far.
fn make_second<R: Recorder, H: Host<R>>(host: &mut H, class: Class)
    requires sound { H.sound host.old }
    requires fine { Fine R.log R.counts (H.tests host.old) (H.face host.old).processors
        ((H.face host.old).level + 1) (H.held host.old) }
    requires some { 0 < length ((shown (H.held host.old)).rows class).deferred.ready }
    requires none { ((shown (H.held host.old)).rows class).deferred.tracing ≡ None }
    ensures span { (units : List ℕ)
        × Span R.log (H.face host.old).level class 0 0 (entry.BeginSecond class (Whole units) ∷ [])
        (H.tests host.old) (H.tests host.new) (H.held host.old) (H.held host.new) }
    ensures deferred { ((shown (H.held host.new)).rows class).deferred
        ≡ record ((shown (H.held host.old)).rows class).deferred {
          ready = [];
          second =
              ((shown (H.held host.old)).rows class).deferred.ready
              ++ ((shown (H.held host.old)).rows class).deferred.second;
          tracing = Some 0;
        } }
    ensures active { (k : ℕ)
        → ((shown (H.held host.new)).rows k).active ≡ ((shown (H.held host.old)).rows k).active }
    ensures side { (shown (H.held host.new)).sides (H.face host.old).level
        ≡ (shown (H.held host.old)).sides (H.face host.old).level }
    ensures lasts { All (Same (H.tests host.old) (H.tests host.new))
        ((shown (H.held host.old)).sides (H.face host.old).level).hand }
    ensures kept { (k : ℕ) → k ≢ class
        → ((shown (H.held host.new)).rows k).deferred
        ≡ ((shown (H.held host.old)).rows k).deferred }
    ensures fine { Fine R.log R.counts (H.tests host.new) (H.face host.new).processors
        ((H.face host.new).level + 1) (H.held host.new) }
    ensures goes { Goes H.face H.pending H.keeps host.old host.new }
    ensures alone { Unbroken H.face H.pending H.held R.log host.old host.new }
    ensures flags { RaisesNone H.pending H.held host.old host.new }
    ensures sound { H.sound host.new }
{
    let level = host.level();
    host.point();
    host.caches().take_all_ready(level, class);
}

/// All of Ready becomes the tracing batch, which has yet to take its stamp. False, with nothing done and no point, exactly
/// where Ready is empty or a tracing batch is in progress. From `do_call_rcu_ttrace` of kernel/bpf/memalloc.c.
pub fn begin_second<R: Recorder, H: Host<R>>(host: &mut H, class: Class) -> bool
    requires sound { H.sound host.old }
    requires fine { Fine R.log R.counts (H.tests host.old) (H.face host.old).processors
        ((H.face host.old).level + 1) (H.held host.old) }
    ensures answer { result ≡ may_begin class (seen number_of (shown (H.held host.old))) }
    ensures phrase { GrewBy (When (may_begin class) (Say (H.face host.old).level (IsSecond class)))
        (seen number_of (shown (H.held host.old))) (R.log (H.held host.old).recorder)
        (R.log (H.held host.new).recorder) }
    ensures some { result ≡ true
        → (units : List ℕ)
        × (((shown (H.held host.new)).rows class).deferred
        ≡ record ((shown (H.held host.old)).rows class).deferred {
          ready = [];
          second =
              ((shown (H.held host.old)).rows class).deferred.ready
              ++ ((shown (H.held host.old)).rows class).deferred.second;
          tracing = Some 0;
        })
        × Span R.log (H.face host.old).level class 0 0
        (entry.BeginSecond class (Whole units) ∷ []) (H.tests host.old) (H.tests host.new)
        (H.held host.old) (H.held host.new) }
    ensures none { result ≡ false
        → (H.held host.new ≡ H.held host.old) × (H.tests host.new ≡ H.tests host.old) }
    ensures processor { (H.held host.new).processor ≡ (H.held host.old).processor }
    ensures active { (k : ℕ)
        → ((shown (H.held host.new)).rows k).active ≡ ((shown (H.held host.old)).rows k).active }
    ensures side { (shown (H.held host.new)).sides (H.face host.old).level
        ≡ (shown (H.held host.old)).sides (H.face host.old).level }
    ensures lasts { All (Same (H.tests host.old) (H.tests host.new))
        ((shown (H.held host.old)).sides (H.face host.old).level).hand }
    ensures kept { (k : ℕ) → k ≢ class
        → ((shown (H.held host.new)).rows k).deferred
        ≡ ((shown (H.held host.old)).rows k).deferred }
    ensures fine { Fine R.log R.counts (H.tests host.new) (H.face host.new).processors
        ((H.face host.new).level + 1) (H.held host.new) }
    ensures goes { Goes H.face H.pending H.keeps host.old host.new }
    ensures alone { Unbroken H.face H.pending H.held R.log host.old host.new }
    ensures flags { RaisesNone H.pending H.held host.old host.new }
    ensures sound { H.sound host.new }
{
    if !wants_second(host, class) {
        return false;
    }
    make_second(host, class);
    true
}
