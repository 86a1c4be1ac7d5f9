//! A refill from Ready and Second.

ghost use Rattle.std.specs.Prelude.{◌≡◌, ◌≢◌, ◌+◌, ◌-◌, ◌<◌, [], ℕ, List, Option, length, true, false};
ghost use Rattle.std.specs.List.{All};
ghost use Rattle.bm_journal.specs.declared.entry.Entry.{Entry as AnEntry};
ghost use Rattle.bm_law.specs.State.{seen, idle_side};
ghost use Rattle.bm_cache.specs.Tokens.{number_of};
ghost use Rattle.bm_cache.specs.Tests.{Reusable};
ghost use Rattle.bm_cache.specs.Shown.{shown};
ghost use Rattle.bm_cache.specs.Span.{Came, Fine, Goes, RaisesNone, Unbroken};
ghost use Rattle.bm_work_lists.specs.FromLists.{FromLists, less};
ghost use Rattle.bm_work_lists.specs.Grown.{GrewBy};
ghost use Rattle.bm_work_lists.specs.WorkSpan.{WorkSpan};

use crate::bring::{bring_ready, bring_second};
use bm_cache::Host;
use bm_class::Class;
use bm_journal::Recorder;

/// The top of Ready, or where Ready is empty that of Second, is added to Free. False exactly where both are empty.
fn bring<R: Recorder, H: Host<R>>(host: &mut H, class: Class) -> bool
    requires sound { H.sound host.old }
    requires fine { Fine R.log R.counts (H.tests host.old) (H.face host.old).processors
        ((H.face host.old).level + 1) (H.held host.old) }
    requires idle { ((shown (H.held host.old)).rows class).active ≡ 0 }
    requires empty { (shown (H.held host.old)).sides (H.face host.old).level ≡ idle_side }
    requires settled { All (Reusable (H.tests host.old))
        ((shown (H.held host.old)).rows class).deferred.second }
    ensures some { result ≡ true
        → (0
        < length ((shown (H.held host.old)).rows class).deferred.ready
        + length ((shown (H.held host.old)).rows class).deferred.second)
        × (((shown (H.held host.new)).rows class).deferred
        ≡ less 1 ((shown (H.held host.old)).rows class).deferred)
        × GrewBy (FromLists (H.face host.old).level class 1 0)
        (seen number_of (shown (H.held host.old))) (R.log (H.held host.old).recorder)
        (R.log (H.held host.new).recorder) }
    ensures none { result ≡ false
        → (((shown (H.held host.old)).rows class).deferred.ready ≡ [])
        × (((shown (H.held host.old)).rows class).deferred.second ≡ [])
        × Came R.log ((H.face host.old).level + 1) (H.tests host.old) (H.tests host.new)
        (H.held host.old) (H.held host.new) }
    ensures span { (own : List AnEntry)
        × WorkSpan R.log (H.face host.old).level class own (H.tests host.old) (H.tests host.new)
        (H.held host.old) (H.held host.new) }
    ensures side { (shown (H.held host.new)).sides (H.face host.old).level ≡ idle_side }
    ensures fine { Fine R.log R.counts (H.tests host.new) (H.face host.new).processors
        ((H.face host.new).level + 1) (H.held host.new) }
    ensures goes { Goes H.face H.pending H.keeps host.old host.new }
    ensures alone { Unbroken H.face H.pending H.held R.log host.old host.new }
    ensures flags { RaisesNone H.pending H.held host.old host.new }
    ensures sound { H.sound host.new }
{
    if bring_ready(host, class) {
        return true;
    }
    bring_second(host, class)
}

/// Moves so many units to Free, one by one: from the top of Ready while there is any, then from the top of Second. It
/// answers how many are left to bring, which is none unless both are empty. From the first two loops of `alloc_bulk` of
/// kernel/bpf/memalloc.c, as `bpf_mem_refill` calls it.
pub fn refill_from_lists<R: Recorder, H: Host<R>>(host: &mut H, class: Class, want: u32) -> u32
    requires sound { H.sound host.old }
    requires fine { Fine R.log R.counts (H.tests host.old) (H.face host.old).processors
        ((H.face host.old).level + 1) (H.held host.old) }
    requires idle { ((shown (H.held host.old)).rows class).active ≡ 0 }
    requires empty { (shown (H.held host.old)).sides (H.face host.old).level ≡ idle_side }
    requires settled { All (Reusable (H.tests host.old))
        ((shown (H.held host.old)).rows class).deferred.second }
    ensures answer { result
        ≡ want
        - (length ((shown (H.held host.old)).rows class).deferred.ready
        + length ((shown (H.held host.old)).rows class).deferred.second) }
    ensures phrase { GrewBy (FromLists (H.face host.old).level class want result)
        (seen number_of (shown (H.held host.old))) (R.log (H.held host.old).recorder)
        (R.log (H.held host.new).recorder) }
    ensures rest { ((shown (H.held host.new)).rows class).deferred
        ≡ less want ((shown (H.held host.old)).rows class).deferred }
    ensures kept { (k : ℕ) → k ≢ class
        → ((shown (H.held host.new)).rows k).deferred
        ≡ ((shown (H.held host.old)).rows k).deferred }
    ensures span { (own : List AnEntry)
        × WorkSpan R.log (H.face host.old).level class own (H.tests host.old) (H.tests host.new)
        (H.held host.old) (H.held host.new) }
    ensures settled { All (Reusable (H.tests host.new))
        ((shown (H.held host.new)).rows class).deferred.second }
    ensures side { (shown (H.held host.new)).sides (H.face host.old).level ≡ idle_side }
    ensures active { (k : ℕ)
        → ((shown (H.held host.new)).rows k).active ≡ ((shown (H.held host.old)).rows k).active }
    ensures fine { Fine R.log R.counts (H.tests host.new) (H.face host.new).processors
        ((H.face host.new).level + 1) (H.held host.new) }
    ensures goes { Goes H.face H.pending H.keeps host.old host.new }
    ensures alone { Unbroken H.face H.pending H.held R.log host.old host.new }
    ensures flags { RaisesNone H.pending H.held host.old host.new }
    ensures sound { H.sound host.new }
{
    let mut left = want;
    'brings: while left > 0 {
        if !bring(host, class) {
            return left;
        }
        left -= 1;
    }
    left
}
