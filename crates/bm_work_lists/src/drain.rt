//! A drain of Free.

ghost use Rattle.std.specs.Prelude.{◌≡◌, ◌+◌, ◌++◌, ◌∷◌, [], ℕ, List, Option, map, true, false};
ghost use Rattle.std.specs.List.{All};
ghost use Rattle.bm_journal.specs.declared.units.Units.TheVariants.{Whole};
ghost use Rattle.bm_journal.specs.declared.entry.Entry.{Entry as AnEntry};
ghost use Rattle.bm_journal.specs.declared.entry.Entry.TheVariants as entry;
ghost use Rattle.bm_law.specs.declared.mark.Mark.TheVariants as mark;
ghost use Rattle.bm_law.specs.State.{seen};
ghost use Rattle.bm_cache.specs.Tokens.{Token, number_of};
ghost use Rattle.bm_cache.specs.Tests.{Same};
ghost use Rattle.bm_cache.specs.Shown.{shown};
ghost use Rattle.bm_cache.specs.Span.{Fine, Goes, RaisesNone, Span, Unbroken};
ghost use Rattle.bm_law_work.specs.Parts.{Say, Then};
ghost use Rattle.bm_law_work.specs.WorkPhrases.{IsTakeExtra, Unloads};
ghost use Rattle.bm_work_lists.specs.Fit.{Fit};
ghost use Rattle.bm_work_lists.specs.Grown.{GrewBy};
ghost use Rattle.bm_work_lists.specs.Takes.{popped};

use crate::extra::take_all_extra;
use crate::take::take_one;
use bm_cache::Host;
use bm_class::Class;
use bm_journal::Recorder;

/// Takes units off Free into the hand, behind what is there, until a count names at most the middle or Free was empty.
/// The hand gains exactly the units of the pops, in their order. From the loop of `free_bulk` of kernel/bpf/memalloc.c.
pub fn unload<R: Recorder, H: Host<R>>(host: &mut H, class: Class, middle: u32)
    requires sound { H.sound host.old }
    requires fine { Fine R.log R.counts (H.tests host.old) (H.face host.old).processors
        ((H.face host.old).level + 1) (H.held host.old) }
    requires idle { ((shown (H.held host.old)).rows class).active ≡ 0 }
    requires quiet { ((shown (H.held host.old)).sides (H.face host.old).level).mark ≡ mark.Quiet }
    ensures phrase { GrewBy (Say (H.face host.old).level (Unloads class middle))
        (seen number_of (shown (H.held host.old))) (R.log (H.held host.old).recorder)
        (R.log (H.held host.new).recorder) }
    ensures side { (units : List Token) × (own : List AnEntry)
        × ((shown (H.held host.new)).sides (H.face host.old).level
        ≡ record {
          hand = ((shown (H.held host.old)).sides (H.face host.old).level).hand ++ units;
          mark = mark.Quiet;
        })
        × All (Fit (H.tests host.new) class) units × (popped own ≡ map number_of units)
        × Unloads class middle own
        × Span R.log (H.face host.old).level class 0 0 own (H.tests host.old) (H.tests host.new)
        (H.held host.old) (H.held host.new) }
    ensures lasts { All (Same (H.tests host.old) (H.tests host.new))
        ((shown (H.held host.old)).sides (H.face host.old).level).hand }
    ensures active { (k : ℕ)
        → ((shown (H.held host.new)).rows k).active ≡ ((shown (H.held host.old)).rows k).active }
    ensures kept { (k : ℕ)
        → ((shown (H.held host.new)).rows k).deferred
        ≡ ((shown (H.held host.old)).rows k).deferred }
    ensures fine { Fine R.log R.counts (H.tests host.new) (H.face host.new).processors
        ((H.face host.new).level + 1) (H.held host.new) }
    ensures goes { Goes H.face H.pending H.keeps host.old host.new }
    ensures alone { Unbroken H.face H.pending H.held R.log host.old host.new }
    ensures flags { RaisesNone H.pending H.held host.old host.new }
    ensures sound { H.sound host.new }
{
    'takes: loop {
        match take_one(host, class) {
            Some(count) => {
                if count <= middle {
                    return;
                }
            }
            None => return,
        }
    }
}

/// All of a drain but its parcel: units are taken off Free down to the middle, and then all of Extra, into the hand, behind
/// what is there. From `free_bulk` of kernel/bpf/memalloc.c.
pub fn drain_to_hand<R: Recorder, H: Host<R>>(host: &mut H, class: Class, middle: u32)
    requires sound { H.sound host.old }
    requires fine { Fine R.log R.counts (H.tests host.old) (H.face host.old).processors
        ((H.face host.old).level + 1) (H.held host.old) }
    requires idle { ((shown (H.held host.old)).rows class).active ≡ 0 }
    requires quiet { ((shown (H.held host.old)).sides (H.face host.old).level).mark ≡ mark.Quiet }
    ensures phrase { GrewBy
        (Then (Say (H.face host.old).level (Unloads class middle))
        (Say (H.face host.old).level (IsTakeExtra class)))
        (seen number_of (shown (H.held host.old))) (R.log (H.held host.old).recorder)
        (R.log (H.held host.new).recorder) }
    ensures side { (units more : List Token) × (own : List AnEntry)
        × ((shown (H.held host.new)).sides (H.face host.old).level
        ≡ record {
          hand =
              ((shown (H.held host.old)).sides (H.face host.old).level).hand
              ++ (units ++ more);
          mark = mark.Quiet;
        })
        × All (Fit (H.tests host.new) class) (units ++ more) × (popped own ≡ map number_of units)
        × Unloads class middle own
        × Span R.log (H.face host.old).level class 0 0
        (own ++ entry.TakeExtra class (Whole (map number_of more)) ∷ []) (H.tests host.old)
        (H.tests host.new) (H.held host.old) (H.held host.new) }
    ensures empty { ((shown (H.held host.new)).rows class).extra ≡ [] }
    ensures lasts { All (Same (H.tests host.old) (H.tests host.new))
        ((shown (H.held host.old)).sides (H.face host.old).level).hand }
    ensures active { (k : ℕ)
        → ((shown (H.held host.new)).rows k).active ≡ ((shown (H.held host.old)).rows k).active }
    ensures kept { (k : ℕ)
        → ((shown (H.held host.new)).rows k).deferred
        ≡ ((shown (H.held host.old)).rows k).deferred }
    ensures fine { Fine R.log R.counts (H.tests host.new) (H.face host.new).processors
        ((H.face host.new).level + 1) (H.held host.new) }
    ensures goes { Goes H.face H.pending H.keeps host.old host.new }
    ensures alone { Unbroken H.face H.pending H.held R.log host.old host.new }
    ensures flags { RaisesNone H.pending H.held host.old host.new }
    ensures sound { H.sound host.new }
{
    unload(host, class, middle);
    take_all_extra(host, class);
}
