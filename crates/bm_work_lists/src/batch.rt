//! What was freed with delay becomes the plain batch.

ghost use Rattle.std.specs.Prelude.{◌≡◌, ◌≢◌, ◌+◌, ◌++◌, ◌∷◌, [], ◌<◌, ℕ, List, Option, None, Some, length, true, false};
ghost use Rattle.std.specs.List.{All};
ghost use Rattle.bm_journal.specs.declared.units.Units.TheVariants.{Whole};
ghost use Rattle.bm_journal.specs.declared.entry.Entry.TheVariants as entry;
ghost use Rattle.bm_law.specs.declared.mark.Mark.TheVariants as mark;
ghost use Rattle.bm_law.specs.State.{seen};
ghost use Rattle.bm_cache.specs.Tokens.{Token, number_of};
ghost use Rattle.bm_cache.specs.Tests.{Lasting, Same};
ghost use Rattle.bm_cache.specs.Shown.{shown, waiting};
ghost use Rattle.bm_cache.specs.Span.{Fine, Goes, RaisesNone, Span, Unbroken};
ghost use Rattle.bm_law_work.specs.Parts.{Say, Then, When};
ghost use Rattle.bm_law_work.specs.WorkPhrases.{IsBatch, IsGathering, IsLeave, may_batch};
ghost use Rattle.bm_work_lists.specs.Fit.{More};
ghost use Rattle.bm_work_lists.specs.Grown.{GrewBy};

use bm_cache::{Host, lower_active, raise_active};
use bm_class::Class;
use bm_journal::{Domain, Recorder};

/// A point, and ExtraDelayed is moved onto Delayed, one unit after the other.
fn move_delayed<R: Recorder, H: Host<R>>(host: &mut H, class: Class)
    requires sound { H.sound host.old }
    requires fine { Fine R.log R.counts (H.tests host.old) (H.face host.old).processors
        ((H.face host.old).level + 1) (H.held host.old) }
    requires one { ((shown (H.held host.old)).rows class).active ≡ 1 }
    requires waits { waiting class (shown (H.held host.old)) ≡ 0 }
    ensures span { (units : List ℕ)
        × Span R.log (H.face host.old).level class 1 1 (entry.TakeDelayed class (Whole units) ∷ [])
        (H.tests host.old) (H.tests host.new) (H.held host.old) (H.held host.new) }
    ensures waits { waiting class (shown (H.held host.new)) ≡ 0 }
    ensures side { (shown (H.held host.new)).sides (H.face host.old).level
        ≡ (shown (H.held host.old)).sides (H.face host.old).level }
    ensures lasts { All (Same (H.tests host.old) (H.tests host.new))
        ((shown (H.held host.old)).sides (H.face host.old).level).hand }
    ensures fine { Fine R.log R.counts (H.tests host.new) (H.face host.new).processors
        ((H.face host.new).level + 1) (H.held host.new) }
    ensures goes { Goes H.face H.pending H.keeps host.old host.new }
    ensures alone { Unbroken H.face H.pending H.held R.log host.old host.new }
    ensures flags { RaisesNone H.pending H.held host.old host.new }
    ensures sound { H.sound host.new }
{
    let level = host.level();
    host.point();
    host.caches().take_extra_delayed(level, class);
}

/// Whether Delayed holds a unit and no plain batch is in progress.
fn wants_batch<R: Recorder, H: Host<R>>(host: &mut H, class: Class) -> bool
    requires sound { H.sound host.old }
    requires fine { Fine R.log R.counts (H.tests host.old) (H.face host.old).processors
        ((H.face host.old).level + 1) (H.held host.old) }
    ensures answer { result ≡ may_batch class (seen number_of (shown (H.held host.old))) }
    ensures held { H.held host.new ≡ H.held host.old }
    ensures tests { H.tests host.new ≡ H.tests host.old }
    ensures fine { Fine R.log R.counts (H.tests host.new) (H.face host.new).processors
        ((H.face host.new).level + 1) (H.held host.new) }
    ensures goes { Goes H.face H.pending H.keeps host.old host.new }
    ensures alone { Unbroken H.face H.pending H.held R.log host.old host.new }
    ensures flags { RaisesNone H.pending H.held host.old host.new }
    ensures sound { H.sound host.new }
{
    let caches = host.caches();
    caches.counts(class).delayed > 0 && caches.in_progress(class, Domain::Plain).is_none()
}

/// A point, and all of Delayed becomes the plain batch, which has no stamp so far.
fn make_batch<R: Recorder, H: Host<R>>(host: &mut H, class: Class)
    requires sound { H.sound host.old }
    requires fine { Fine R.log R.counts (H.tests host.old) (H.face host.old).processors
        ((H.face host.old).level + 1) (H.held host.old) }
    requires one { ((shown (H.held host.old)).rows class).active ≡ 1 }
    requires waits { waiting class (shown (H.held host.old)) ≡ 0 }
    requires some { 0 < length ((shown (H.held host.old)).rows class).delayed }
    requires none { ((shown (H.held host.old)).rows class).deferred.plain ≡ None }
    ensures span { (units : List ℕ)
        × Span R.log (H.face host.old).level class 1 1 (entry.Batch class (Whole units) ∷ [])
        (H.tests host.old) (H.tests host.new) (H.held host.old) (H.held host.new) }
    ensures deferred { ((shown (H.held host.new)).rows class).deferred
        ≡ record ((shown (H.held host.old)).rows class).deferred {
          first =
              ((shown (H.held host.old)).rows class).delayed
              ++ ((shown (H.held host.old)).rows class).deferred.first;
          plain = Some 0;
        } }
    ensures active { ((shown (H.held host.new)).rows class).active ≡ 1 }
    ensures waits { waiting class (shown (H.held host.new)) ≡ 0 }
    ensures side { (shown (H.held host.new)).sides (H.face host.old).level
        ≡ (shown (H.held host.old)).sides (H.face host.old).level }
    ensures lasts { All (Same (H.tests host.old) (H.tests host.new))
        ((shown (H.held host.old)).sides (H.face host.old).level).hand }
    ensures kept { (k : ℕ) → k ≢ class
        → ((shown (H.held host.new)).rows k).deferred
        ≡ ((shown (H.held host.old)).rows k).deferred }
    ensures fine { Fine R.log R.counts (H.tests host.new) (H.face host.new).processors
        ((H.face host.new).level + 1) (H.held host.new) }
    ensures goes { Goes H.face H.pending H.keeps host.old host.new }
    ensures alone { Unbroken H.face H.pending H.held R.log host.old host.new }
    ensures flags { RaisesNone H.pending H.held host.old host.new }
    ensures sound { H.sound host.new }
{
    let level = host.level();
    host.point();
    host.caches().take_batch(level, class);
}

/// A point, and all of Delayed becomes the plain batch. False, with nothing done and no point, exactly where Delayed is
/// empty or a plain batch is in progress.
fn batch_if_any<R: Recorder, H: Host<R>>(host: &mut H, class: Class) -> bool
    requires sound { H.sound host.old }
    requires fine { Fine R.log R.counts (H.tests host.old) (H.face host.old).processors
        ((H.face host.old).level + 1) (H.held host.old) }
    requires one { ((shown (H.held host.old)).rows class).active ≡ 1 }
    requires waits { waiting class (shown (H.held host.old)) ≡ 0 }
    ensures answer { result ≡ may_batch class (seen number_of (shown (H.held host.old))) }
    ensures phrase { GrewBy (When (may_batch class) (Say (H.face host.old).level (IsBatch class)))
        (seen number_of (shown (H.held host.old))) (R.log (H.held host.old).recorder)
        (R.log (H.held host.new).recorder) }
    ensures some { result ≡ true
        → (units : List ℕ)
        × (((shown (H.held host.new)).rows class).deferred
        ≡ record ((shown (H.held host.old)).rows class).deferred {
          first =
              ((shown (H.held host.old)).rows class).delayed
              ++ ((shown (H.held host.old)).rows class).deferred.first;
          plain = Some 0;
        })
        × Span R.log (H.face host.old).level class 1 1 (entry.Batch class (Whole units) ∷ [])
        (H.tests host.old) (H.tests host.new) (H.held host.old) (H.held host.new) }
    ensures none { result ≡ false
        → (H.held host.new ≡ H.held host.old) × (H.tests host.new ≡ H.tests host.old) }
    ensures lasting { Lasting (H.face host.old).level (shown (H.held host.old)) (H.tests host.old)
        (H.tests host.new) }
    ensures below { (k : ℕ) → k < (H.face host.old).level
        → (shown (H.held host.new)).sides k ≡ (shown (H.held host.old)).sides k }
    ensures more { (k : ℕ)
        → More ((shown (H.held host.old)).rows k).deferred
        ((shown (H.held host.new)).rows k).deferred }
    ensures processor { (H.held host.new).processor ≡ (H.held host.old).processor }
    ensures active { ((shown (H.held host.new)).rows class).active ≡ 1 }
    ensures waits { waiting class (shown (H.held host.new)) ≡ 0 }
    ensures side { (shown (H.held host.new)).sides (H.face host.old).level
        ≡ (shown (H.held host.old)).sides (H.face host.old).level }
    ensures lasts { All (Same (H.tests host.old) (H.tests host.new))
        ((shown (H.held host.old)).sides (H.face host.old).level).hand }
    ensures kept { (k : ℕ) → k ≢ class
        → ((shown (H.held host.new)).rows k).deferred
        ≡ ((shown (H.held host.old)).rows k).deferred }
    ensures fine { Fine R.log R.counts (H.tests host.new) (H.face host.new).processors
        ((H.face host.new).level + 1) (H.held host.new) }
    ensures goes { Goes H.face H.pending H.keeps host.old host.new }
    ensures alone { Unbroken H.face H.pending H.held R.log host.old host.new }
    ensures flags { RaisesNone H.pending H.held host.old host.new }
    ensures sound { H.sound host.new }
{
    if !wants_batch(host, class) {
        return false;
    }
    make_batch(host, class);
    true
}

/// What was freed with delay is gathered: ExtraDelayed is moved onto Delayed, and all of Delayed becomes the plain batch,
/// if it holds a unit and no batch is in progress. The answer is whether a batch began; it has yet to take its stamp. The
/// active number is raised meanwhile, so that no handler takes from the lists. From `check_free_by_rcu` of
/// kernel/bpf/memalloc.c.
pub fn gather_delayed<R: Recorder, H: Host<R>>(host: &mut H, class: Class) -> bool
    requires sound { H.sound host.old }
    requires fine { Fine R.log R.counts (H.tests host.old) (H.face host.old).processors
        ((H.face host.old).level + 1) (H.held host.old) }
    requires idle { ((shown (H.held host.old)).rows class).active ≡ 0 }
    requires quiet { ((shown (H.held host.old)).sides (H.face host.old).level).mark ≡ mark.Quiet }
    ensures phrase { GrewBy
        (Then (Say (H.face host.old).level (IsGathering class))
        (Then (When (may_batch class) (Say (H.face host.old).level (IsBatch class)))
        (Say (H.face host.old).level (IsLeave class))))
        (seen number_of (shown (H.held host.old))) (R.log (H.held host.old).recorder)
        (R.log (H.held host.new).recorder) }
    ensures begun { result ≡ true
        → (units : List Token)
        × (((shown (H.held host.new)).rows class).deferred
        ≡ record ((shown (H.held host.old)).rows class).deferred {
          first = units ++ ((shown (H.held host.old)).rows class).deferred.first;
          plain = Some 0;
        })
        × (((shown (H.held host.old)).rows class).deferred.plain ≡ None) × (0 < length units) }
    ensures waits { result ≡ false
        → ((shown (H.held host.new)).rows class).deferred
        ≡ ((shown (H.held host.old)).rows class).deferred }
    ensures side { (shown (H.held host.new)).sides (H.face host.old).level
        ≡ (shown (H.held host.old)).sides (H.face host.old).level }
    ensures lasts { All (Same (H.tests host.old) (H.tests host.new))
        ((shown (H.held host.old)).sides (H.face host.old).level).hand }
    ensures active { (k : ℕ)
        → ((shown (H.held host.new)).rows k).active ≡ ((shown (H.held host.old)).rows k).active }
    ensures processor { (H.held host.new).processor ≡ (H.held host.old).processor }
    ensures lasting { Lasting (H.face host.old).level (shown (H.held host.old)) (H.tests host.old)
        (H.tests host.new) }
    ensures kept { (k : ℕ) → k ≢ class
        → ((shown (H.held host.new)).rows k).deferred
        ≡ ((shown (H.held host.old)).rows k).deferred }
    ensures fine { Fine R.log R.counts (H.tests host.new) (H.face host.new).processors
        ((H.face host.new).level + 1) (H.held host.new) }
    ensures goes { Goes H.face H.pending H.keeps host.old host.new }
    ensures alone { Unbroken H.face H.pending H.held R.log host.old host.new }
    ensures flags { RaisesNone H.pending H.held host.old host.new }
    ensures sound { H.sound host.new }
{
    raise_active(host, class);
    move_delayed(host, class);
    let begun = batch_if_any(host, class);
    lower_active(host, class);
    begun
}
