//! The beginning of a class's work: its flag is lowered, and its free count is read.

ghost use Rattle.std.specs.Prelude.{◌≡◌, ◌+◌, ◌∷◌, [], ℕ, List, Option, false};
ghost use Rattle.std.specs.List.{All};
ghost use Rattle.bm_journal.specs.declared.entry.Entry.TheVariants as entry;
ghost use Rattle.bm_law.specs.State.{seen};
ghost use Rattle.bm_cache.specs.Tokens.{number_of};
ghost use Rattle.bm_cache.specs.Tests.{Same};
ghost use Rattle.bm_cache.specs.Shown.{shown};
ghost use Rattle.bm_cache.specs.Span.{Fine, Goes, RaisesNone, Span, Unbroken};
ghost use Rattle.bm_law_work.specs.Parts.{Say};
ghost use Rattle.bm_law_work.specs.WorkPhrases.{IsOne};
ghost use Rattle.bm_work_lists.specs.Grown.{GrewBy};

use bm_cache::Host;
use bm_class::Class;
use bm_journal::Recorder;

/// The work of a class begins: its flag is lowered. That is no step, and no handler runs before it. From
/// `bpf_mem_refill` of kernel/bpf/memalloc.c, which the kernel calls once for each `irq_work_queue`.
pub fn begin_work<R: Recorder, H: Host<R>>(host: &mut H, class: Class)
    requires sound { H.sound host.old }
    requires fine { Fine R.log R.counts (H.tests host.old) (H.face host.old).processors
        ((H.face host.old).level + 1) (H.held host.old) }
    ensures phrase { GrewBy (Say (H.face host.old).level (IsOne (entry.Work class)))
        (seen number_of (shown (H.held host.old))) (R.log (H.held host.old).recorder)
        (R.log (H.held host.new).recorder) }
    ensures span { Span R.log (H.face host.old).level class 0 0 (entry.Work class ∷ [])
        (H.tests host.old) (H.tests host.new) (H.held host.old) (H.held host.new) }
    ensures lowered { ((shown (H.held host.new)).rows class).raised ≡ false }
    ensures side { (shown (H.held host.new)).sides (H.face host.old).level
        ≡ (shown (H.held host.old)).sides (H.face host.old).level }
    ensures tests { H.tests host.new ≡ H.tests host.old }
    ensures active { (k : ℕ)
        → ((shown (H.held host.new)).rows k).active ≡ ((shown (H.held host.old)).rows k).active }
    ensures kept { (k : ℕ)
        → ((shown (H.held host.new)).rows k).deferred
        ≡ ((shown (H.held host.old)).rows k).deferred }
    ensures fine { Fine R.log R.counts (H.tests host.new) (H.face host.new).processors
        ((H.face host.new).level + 1) (H.held host.new) }
    ensures goes { Goes H.face H.pending H.keeps host.old host.new }
    ensures alone { Unbroken H.face H.pending H.held R.log host.old host.new }
    ensures flags { RaisesNone H.pending H.held host.old host.new }
    ensures sound { H.sound host.new }
{
    let level = host.level();
    host.caches().lower(level, class);
}

/// A point, and the free count is read: the answer is what it is then. From `bpf_mem_refill` of kernel/bpf/memalloc.c,
/// which compares it with the watermarks.
pub fn read_count<R: Recorder, H: Host<R>>(host: &mut H, class: Class) -> u32
    requires sound { H.sound host.old }
    requires fine { Fine R.log R.counts (H.tests host.old) (H.face host.old).processors
        ((H.face host.old).level + 1) (H.held host.old) }
    ensures answer { result ≡ ((shown (H.held host.new)).rows class).count }
    ensures phrase { GrewBy (Say (H.face host.old).level (IsOne (entry.Read class result)))
        (seen number_of (shown (H.held host.old))) (R.log (H.held host.old).recorder)
        (R.log (H.held host.new).recorder) }
    ensures span { Span R.log (H.face host.old).level class 0 0 (entry.Read class result ∷ [])
        (H.tests host.old) (H.tests host.new) (H.held host.old) (H.held host.new) }
    ensures side { (shown (H.held host.new)).sides (H.face host.old).level
        ≡ (shown (H.held host.old)).sides (H.face host.old).level }
    ensures lasts { All (Same (H.tests host.old) (H.tests host.new))
        ((shown (H.held host.old)).sides (H.face host.old).level).hand }
    ensures active { (k : ℕ)
        → ((shown (H.held host.new)).rows k).active ≡ ((shown (H.held host.old)).rows k).active }
    ensures kept { (k : ℕ)
        → ((shown (H.held host.new)).rows k).deferred
        ≡ ((shown (H.held host.old)).rows k).deferred }
    ensures fine { Fine R.log R.counts (H.tests host.new) (H.face host.new).processors
        ((H.face host.new).level + 1) (H.held host.new) }
    ensures goes { Goes H.face H.pending H.keeps host.old host.new }
    ensures alone { Unbroken H.face H.pending H.held R.log host.old host.new }
    ensures flags { RaisesNone H.pending H.held host.old host.new }
    ensures sound { H.sound host.new }
{
    let level = host.level();
    host.point();
    host.caches().read(level, class)
}
