//! All of Extra comes into the hand.

ghost use Rattle.std.specs.Prelude.{◌≡◌, ◌+◌, ◌++◌, ◌∷◌, [], ℕ, List, Option, length, map};
ghost use Rattle.std.specs.List.{All};
ghost use Rattle.bm_journal.specs.declared.entry.Entry.TheVariants as entry;
ghost use Rattle.bm_journal.specs.declared.units.Units.TheVariants.{Whole};
ghost use Rattle.bm_law.specs.declared.mark.Mark.TheVariants as mark;
ghost use Rattle.bm_law.specs.State.{seen};
ghost use Rattle.bm_cache.specs.Tokens.{Token, number_of};
ghost use Rattle.bm_cache.specs.Tests.{Same};
ghost use Rattle.bm_cache.specs.Shown.{shown};
ghost use Rattle.bm_cache.specs.Span.{Fine, Goes, RaisesNone, Span, Unbroken};
ghost use Rattle.bm_law_work.specs.Parts.{Say};
ghost use Rattle.bm_law_work.specs.WorkPhrases.{IsTakeExtra};
ghost use Rattle.bm_work_lists.specs.Fit.{Fit};
ghost use Rattle.bm_work_lists.specs.Grown.{GrewBy};

use bm_cache::Host;
use bm_class::Class;
use bm_journal::Recorder;

/// A point, and all of Extra comes into the hand, behind what is there, its top first. The answer is how many units that
/// are. From the end of `free_bulk` of kernel/bpf/memalloc.c, which frees all of `free_llist_extra`.
pub fn take_all_extra<R: Recorder, H: Host<R>>(host: &mut H, class: Class) -> usize
    requires sound { H.sound host.old }
    requires fine { Fine R.log R.counts (H.tests host.old) (H.face host.old).processors
        ((H.face host.old).level + 1) (H.held host.old) }
    requires idle { ((shown (H.held host.old)).rows class).active ≡ 0 }
    requires quiet { ((shown (H.held host.old)).sides (H.face host.old).level).mark ≡ mark.Quiet }
    ensures phrase { GrewBy (Say (H.face host.old).level (IsTakeExtra class))
        (seen number_of (shown (H.held host.old))) (R.log (H.held host.old).recorder)
        (R.log (H.held host.new).recorder) }
    ensures side { (units : List Token) × (result ≡ length units)
        × ((shown (H.held host.new)).sides (H.face host.old).level
        ≡ record {
          hand = ((shown (H.held host.old)).sides (H.face host.old).level).hand ++ units;
          mark = mark.Quiet;
        })
        × All (Fit (H.tests host.new) class) units
        × Span R.log (H.face host.old).level class 0 0
        (entry.TakeExtra class (Whole (map number_of units)) ∷ []) (H.tests host.old)
        (H.tests host.new) (H.held host.old) (H.held host.new) }
    ensures empty { ((shown (H.held host.new)).rows class).extra ≡ [] }
    ensures lasts { All (Same (H.tests host.old) (H.tests host.new))
        ((shown (H.held host.old)).sides (H.face host.old).level).hand }
    ensures active { (k : ℕ)
        → ((shown (H.held host.new)).rows k).active ≡ ((shown (H.held host.old)).rows k).active }
    ensures kept { (k : ℕ)
        → ((shown (H.held host.new)).rows k).deferred
        ≡ ((shown (H.held host.old)).rows k).deferred }
    ensures fine { Fine R.log R.counts (H.tests host.new) (H.face host.new).processors
        ((H.face host.new).level + 1) (H.held host.new) }
    ensures goes { Goes H.face H.pending H.keeps host.old host.new }
    ensures alone { Unbroken H.face H.pending H.held R.log host.old host.new }
    ensures flags { RaisesNone H.pending H.held host.old host.new }
    ensures sound { H.sound host.new }
{
    let level = host.level();
    host.point();
    host.caches().take_extra(level, class)
}
