//! Units in hand are added to Free.

ghost use Rattle.std.specs.Prelude.{◌≡◌, ◌+◌, ◌∷◌, [], ℕ, List, Option, drop, true, false};
ghost use Rattle.std.specs.List.{All};
ghost use Rattle.bm_journal.specs.declared.entry.Entry.TheVariants as entry;
ghost use Rattle.bm_law.specs.declared.mark.Mark.TheVariants as mark;
ghost use Rattle.bm_law.specs.Phrases.{added, AddPhrase};
ghost use Rattle.bm_law.specs.State.{seen};
ghost use Rattle.bm_law.specs.Waiting.{is_waiting};
ghost use Rattle.bm_cache.specs.Tokens.{Token, number_of};
ghost use Rattle.bm_cache.specs.Tests.{Same};
ghost use Rattle.bm_cache.specs.Shown.{shown, waiting};
ghost use Rattle.bm_cache.specs.Span.{Fine, Goes, RaisesNone, Span, Unbroken};
ghost use Rattle.bm_law_work.specs.Parts.{Say};
ghost use Rattle.bm_work_lists.specs.Fit.{Fit};
ghost use Rattle.bm_work_lists.specs.Grown.{GrewBy};

use bm_cache::{Host, lower_active, raise_active};
use bm_class::Class;
use bm_journal::Recorder;

/// A point, and the first unit in hand goes on Free.
fn push_first<R: Recorder, H: Host<R>>(host: &mut H, class: Class)
    requires sound { H.sound host.old }
    requires fine { Fine R.log R.counts (H.tests host.old) (H.face host.old).processors
        ((H.face host.old).level + 1) (H.held host.old) }
    requires one { ((shown (H.held host.old)).rows class).active ≡ 1 }
    requires waits { waiting class (shown (H.held host.old)) ≡ 0 }
    requires quiet { is_waiting ((shown (H.held host.old)).sides (H.face host.old).level).mark
        ≡ false }
    requires hand { (u : Token) × (rest : List Token)
        × (((shown (H.held host.old)).sides (H.face host.old).level).hand ≡ u ∷ rest)
        × Fit (H.tests host.old) class u }
    ensures pushed { (u : Token) × (rest : List Token)
        × (((shown (H.held host.old)).sides (H.face host.old).level).hand ≡ u ∷ rest)
        × (((shown (H.held host.new)).sides (H.face host.old).level)
        ≡ record { hand = rest; mark = mark.Gave class })
        × Span R.log (H.face host.old).level class 1 1 (entry.Push class u.number ∷ [])
        (H.tests host.old) (H.tests host.new) (H.held host.old) (H.held host.new) }
    ensures lasts { All (Same (H.tests host.old) (H.tests host.new))
        ((shown (H.held host.old)).sides (H.face host.old).level).hand }
    ensures fine { Fine R.log R.counts (H.tests host.new) (H.face host.new).processors
        ((H.face host.new).level + 1) (H.held host.new) }
    ensures goes { Goes H.face H.pending H.keeps host.old host.new }
    ensures alone { Unbroken H.face H.pending H.held R.log host.old host.new }
    ensures flags { RaisesNone H.pending H.held host.old host.new }
    ensures sound { H.sound host.new }
{
    let level = host.level();
    host.point();
    host.caches().push(level, class);
}

/// A point, and the free count of what was added.
fn count_push<R: Recorder, H: Host<R>>(host: &mut H, class: Class) -> u32
    requires sound { H.sound host.old }
    requires fine { Fine R.log R.counts (H.tests host.old) (H.face host.old).processors
        ((H.face host.old).level + 1) (H.held host.old) }
    requires one { ((shown (H.held host.old)).rows class).active ≡ 1 }
    requires gave { ((shown (H.held host.old)).sides (H.face host.old).level).mark
        ≡ mark.Gave class }
    ensures span { Span R.log (H.face host.old).level class 1 1 (entry.Count class result ∷ [])
        (H.tests host.old) (H.tests host.new) (H.held host.old) (H.held host.new) }
    ensures side { ((shown (H.held host.new)).sides (H.face host.old).level)
        ≡ record ((shown (H.held host.old)).sides (H.face host.old).level) { mark = mark.Quiet } }
    ensures waits { waiting class (shown (H.held host.new)) ≡ 0 }
    ensures lasts { All (Same (H.tests host.old) (H.tests host.new))
        ((shown (H.held host.old)).sides (H.face host.old).level).hand }
    ensures fine { Fine R.log R.counts (H.tests host.new) (H.face host.new).processors
        ((H.face host.new).level + 1) (H.held host.new) }
    ensures goes { Goes H.face H.pending H.keeps host.old host.new }
    ensures alone { Unbroken H.face H.pending H.held R.log host.old host.new }
    ensures flags { RaisesNone H.pending H.held host.old host.new }
    ensures sound { H.sound host.new }
{
    let level = host.level();
    host.point();
    host.caches().count_up(level, class)
}

/// The first unit in hand is added to Free, and the others stay in hand. Its count and the two changes of the active
/// number are steps of their own. From one turn of the loops of `alloc_bulk` of kernel/bpf/memalloc.c, which adds a unit
/// by `add_obj_to_free_list`.
pub fn add_unit<R: Recorder, H: Host<R>>(host: &mut H, class: Class)
    requires sound { H.sound host.old }
    requires fine { Fine R.log R.counts (H.tests host.old) (H.face host.old).processors
        ((H.face host.old).level + 1) (H.held host.old) }
    requires idle { ((shown (H.held host.old)).rows class).active ≡ 0 }
    requires quiet { ((shown (H.held host.old)).sides (H.face host.old).level).mark ≡ mark.Quiet }
    requires hand { (u : Token) × (rest : List Token)
        × (((shown (H.held host.old)).sides (H.face host.old).level).hand ≡ u ∷ rest)
        × Fit (H.tests host.old) class u }
    ensures phrase { (u : Token) × (rest : List Token)
        × (((shown (H.held host.old)).sides (H.face host.old).level).hand ≡ u ∷ rest)
        × GrewBy (Say (H.face host.old).level (AddPhrase class u.number))
        (seen number_of (shown (H.held host.old))) (R.log (H.held host.old).recorder)
        (R.log (H.held host.new).recorder) }
    ensures span { (u : Token) × (rest : List Token) × (k a : ℕ)
        × (((shown (H.held host.old)).sides (H.face host.old).level).hand ≡ u ∷ rest)
        × Span R.log (H.face host.old).level class 0 0 (added class u.number k a) (H.tests host.old)
        (H.tests host.new) (H.held host.old) (H.held host.new) }
    ensures side { ((shown (H.held host.new)).sides (H.face host.old).level)
        ≡ record {
          hand = drop 1 ((shown (H.held host.old)).sides (H.face host.old).level).hand;
          mark = mark.Quiet;
        } }
    ensures lasts { All (Same (H.tests host.old) (H.tests host.new))
        (drop 1 ((shown (H.held host.old)).sides (H.face host.old).level).hand) }
    ensures active { (k : ℕ)
        → ((shown (H.held host.new)).rows k).active ≡ ((shown (H.held host.old)).rows k).active }
    ensures kept { (k : ℕ)
        → ((shown (H.held host.new)).rows k).deferred
        ≡ ((shown (H.held host.old)).rows k).deferred }
    ensures fine { Fine R.log R.counts (H.tests host.new) (H.face host.new).processors
        ((H.face host.new).level + 1) (H.held host.new) }
    ensures goes { Goes H.face H.pending H.keeps host.old host.new }
    ensures alone { Unbroken H.face H.pending H.held R.log host.old host.new }
    ensures flags { RaisesNone H.pending H.held host.old host.new }
    ensures sound { H.sound host.new }
{
    raise_active(host, class);
    push_first(host, class);
    count_push(host, class);
    lower_active(host, class);
}
