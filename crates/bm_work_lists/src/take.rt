//! Units are taken off Free into the hand.

ghost use Rattle.std.specs.Prelude.{◌≡◌, ◌+◌, ◌<◌, ◌∷◌, ◌++◌, [], ℕ, List, Option, None, IfSome, length, true, false};
ghost use Rattle.std.specs.List.{All};
ghost use Rattle.bm_journal.specs.declared.entry.Entry.TheVariants as entry;
ghost use Rattle.bm_law.specs.declared.mark.Mark.TheVariants as mark;
ghost use Rattle.bm_law.specs.State.{seen};
ghost use Rattle.bm_law.specs.Waiting.{is_waiting};
ghost use Rattle.bm_cache.specs.Tokens.{Token, number_of};
ghost use Rattle.bm_cache.specs.Tests.{Same};
ghost use Rattle.bm_cache.specs.Shown.{shown, waiting};
ghost use Rattle.bm_cache.specs.Span.{Fine, Goes, RaisesNone, Span, Unbroken};
ghost use Rattle.bm_law_work.specs.Parts.{Say};
ghost use Rattle.bm_law_work.specs.WorkPhrases.{Moved, take_of, empty_take};
ghost use Rattle.bm_work_lists.specs.Fit.{Fit};
ghost use Rattle.bm_work_lists.specs.Grown.{GrewBy};
ghost use Rattle.bm_work_lists.specs.Takes.{IsTake};

use bm_cache::{Host, count_taken, lower_active, raise_active};
use bm_class::Class;
use bm_journal::Recorder;

/// A point, and the top of Free in hand, behind what is there. False exactly where Free is empty.
fn pop_more<R: Recorder, H: Host<R>>(host: &mut H, class: Class) -> bool
    requires sound { H.sound host.old }
    requires fine { Fine R.log R.counts (H.tests host.old) (H.face host.old).processors
        ((H.face host.old).level + 1) (H.held host.old) }
    requires one { ((shown (H.held host.old)).rows class).active ≡ 1 }
    requires waits { waiting class (shown (H.held host.old)) ≡ 0 }
    requires quiet { is_waiting ((shown (H.held host.old)).sides (H.face host.old).level).mark
        ≡ false }
    ensures some { result ≡ true
        → (u : Token) × (rest : List Token)
        × (((shown (H.held host.old)).rows class).free ≡ u ∷ rest)
        × ((shown (H.held host.new)).sides (H.face host.old).level
        ≡ record {
          hand =
              ((shown (H.held host.old)).sides (H.face host.old).level).hand ++ u
              ∷ [];
          mark = mark.Took class;
        })
        × Fit (H.tests host.new) class u
        × (length ((shown (H.held host.old)).sides (H.face host.old).level).hand < 65536)
        × Span R.log (H.face host.old).level class 1 1 (entry.Pop class u.number ∷ [])
        (H.tests host.old) (H.tests host.new) (H.held host.old) (H.held host.new) }
    ensures none { result ≡ false
        → (((shown (H.held host.old)).rows class).free ≡ [])
        × (((shown (H.held host.new)).sides (H.face host.old).level)
        ≡ ((shown (H.held host.old)).sides (H.face host.old).level))
        × (waiting class (shown (H.held host.new)) ≡ 0)
        × Span R.log (H.face host.old).level class 1 1 (entry.PopNone class ∷ [])
        (H.tests host.old) (H.tests host.new) (H.held host.old) (H.held host.new) }
    ensures lasts { All (Same (H.tests host.old) (H.tests host.new))
        ((shown (H.held host.old)).sides (H.face host.old).level).hand }
    ensures fine { Fine R.log R.counts (H.tests host.new) (H.face host.new).processors
        ((H.face host.new).level + 1) (H.held host.new) }
    ensures goes { Goes H.face H.pending H.keeps host.old host.new }
    ensures alone { Unbroken H.face H.pending H.held R.log host.old host.new }
    ensures flags { RaisesNone H.pending H.held host.old host.new }
    ensures sound { H.sound host.new }
{
    let level = host.level();
    let _class = class.index();
    host.point();
    host.caches().pop(level, class)
}

/// One unit is taken off Free into the hand, behind what is there: the free count that its count named, or none where
/// Free was empty at its pop. From one turn of the loop of `free_bulk` of kernel/bpf/memalloc.c.
pub fn take_one<R: Recorder, H: Host<R>>(host: &mut H, class: Class) -> Option<u32>
    requires sound { H.sound host.old }
    requires fine { Fine R.log R.counts (H.tests host.old) (H.face host.old).processors
        ((H.face host.old).level + 1) (H.held host.old) }
    requires idle { ((shown (H.held host.old)).rows class).active ≡ 0 }
    requires quiet { ((shown (H.held host.old)).sides (H.face host.old).level).mark ≡ mark.Quiet }
    ensures phrase { GrewBy (Say (H.face host.old).level (IsTake class result))
        (seen number_of (shown (H.held host.old))) (R.log (H.held host.old).recorder)
        (R.log (H.held host.new).recorder) }
    ensures some { IfSome result
        (λ k. (u : Token) × (a : ℕ)
        × ((shown (H.held host.new)).sides (H.face host.old).level
        ≡ record {
          hand =
              ((shown (H.held host.old)).sides (H.face host.old).level).hand ++ u
              ∷ [];
          mark = mark.Quiet;
        })
        × Fit (H.tests host.new) class u
        × (length ((shown (H.held host.old)).sides (H.face host.old).level).hand < 65536)
        × Span R.log (H.face host.old).level class 0 0
        (take_of class (record { unit = u.number; count = k; active = a }))
        (H.tests host.old) (H.tests host.new) (H.held host.old) (H.held host.new)) }
    ensures none { result ≡ None
        → (a : ℕ)
        × ((shown (H.held host.new)).sides (H.face host.old).level
        ≡ (shown (H.held host.old)).sides (H.face host.old).level)
        × Span R.log (H.face host.old).level class 0 0 (empty_take class a) (H.tests host.old)
        (H.tests host.new) (H.held host.old) (H.held host.new) }
    ensures lasts { All (Same (H.tests host.old) (H.tests host.new))
        ((shown (H.held host.old)).sides (H.face host.old).level).hand }
    ensures active { (k : ℕ)
        → ((shown (H.held host.new)).rows k).active ≡ ((shown (H.held host.old)).rows k).active }
    ensures kept { (k : ℕ)
        → ((shown (H.held host.new)).rows k).deferred
        ≡ ((shown (H.held host.old)).rows k).deferred }
    ensures fine { Fine R.log R.counts (H.tests host.new) (H.face host.new).processors
        ((H.face host.new).level + 1) (H.held host.new) }
    ensures goes { Goes H.face H.pending H.keeps host.old host.new }
    ensures alone { Unbroken H.face H.pending H.held R.log host.old host.new }
    ensures flags { RaisesNone H.pending H.held host.old host.new }
    ensures sound { H.sound host.new }
{
    raise_active(host, class);
    if pop_more(host, class) {
        let count = count_taken(host, class);
        lower_active(host, class);
        Some(count)
    } else {
        lower_active(host, class);
        None
    }
}
