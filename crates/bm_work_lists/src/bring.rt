//! Units of Ready and Second are added to Free.

ghost use Rattle.std.specs.Prelude.{◌≡◌, ◌≢◌, ◌+◌, ◌<◌, ◌∷◌, [], ℕ, List, Option, length, true, false};
ghost use Rattle.std.specs.List.{All};
ghost use Rattle.bm_journal.specs.declared.entry.Entry.TheVariants as entry;
ghost use Rattle.bm_law.specs.declared.mark.Mark.TheVariants as mark;
ghost use Rattle.bm_law.specs.Phrases.{added};
ghost use Rattle.bm_law.specs.State.{seen, idle_side};
ghost use Rattle.bm_cache.specs.Tokens.{Token, number_of};
ghost use Rattle.bm_cache.specs.Tests.{Reusable};
ghost use Rattle.bm_cache.specs.Shown.{shown};
ghost use Rattle.bm_cache.specs.Span.{Came, Fine, Goes, RaisesNone, Unbroken};
ghost use Rattle.bm_law_work.specs.WorkPhrases.{Brings};
ghost use Rattle.bm_work_lists.specs.Fit.{Fit};
ghost use Rattle.bm_work_lists.specs.Grown.{GrewBy};
ghost use Rattle.bm_work_lists.specs.WorkSpan.{WorkSpan};

use crate::add::add_unit;
use bm_cache::Host;
use bm_class::Class;
use bm_journal::Recorder;

/// Whether Ready holds a unit.
fn holds_ready<R: Recorder, H: Host<R>>(host: &mut H, class: Class) -> bool
    requires sound { H.sound host.old }
    requires fine { Fine R.log R.counts (H.tests host.old) (H.face host.old).processors
        ((H.face host.old).level + 1) (H.held host.old) }
    ensures some { result ≡ true
        → 0 < length ((shown (H.held host.old)).rows class).deferred.ready }
    ensures none { result ≡ false → ((shown (H.held host.old)).rows class).deferred.ready ≡ [] }
    ensures held { H.held host.new ≡ H.held host.old }
    ensures tests { H.tests host.new ≡ H.tests host.old }
    ensures fine { Fine R.log R.counts (H.tests host.new) (H.face host.new).processors
        ((H.face host.new).level + 1) (H.held host.new) }
    ensures goes { Goes H.face H.pending H.keeps host.old host.new }
    ensures alone { Unbroken H.face H.pending H.held R.log host.old host.new }
    ensures flags { RaisesNone H.pending H.held host.old host.new }
    ensures sound { H.sound host.new }
{
    host.caches().counts(class).ready > 0
}

/// A point, and the top of Ready in hand, where it holds a unit: it is there still.
fn top_ready_in<R: Recorder, H: Host<R>>(host: &mut H, class: Class) -> bool
    requires sound { H.sound host.old }
    requires fine { Fine R.log R.counts (H.tests host.old) (H.face host.old).processors
        ((H.face host.old).level + 1) (H.held host.old) }
    requires empty { (shown (H.held host.old)).sides (H.face host.old).level ≡ idle_side }
    requires some { 0 < length ((shown (H.held host.old)).rows class).deferred.ready }
    ensures some { result ≡ true
        → (u : Token) × (rest : List Token)
        × (((shown (H.held host.old)).rows class).deferred.ready ≡ u ∷ rest)
        × (((shown (H.held host.new)).rows class).deferred
        ≡ record ((shown (H.held host.old)).rows class).deferred { ready = rest })
        × ((shown (H.held host.new)).sides (H.face host.old).level
        ≡ record { hand = u ∷ []; mark = mark.Quiet })
        × Fit (H.tests host.new) class u
        × WorkSpan R.log (H.face host.old).level class (entry.Ready class u.number ∷ [])
        (H.tests host.old) (H.tests host.new) (H.held host.old) (H.held host.new) }
    ensures none { result ≡ false
        → (((shown (H.held host.old)).rows class).deferred.ready ≡ [])
        × Came R.log ((H.face host.old).level + 1) (H.tests host.old) (H.tests host.new)
        (H.held host.old) (H.held host.new) }
    ensures fine { Fine R.log R.counts (H.tests host.new) (H.face host.new).processors
        ((H.face host.new).level + 1) (H.held host.new) }
    ensures goes { Goes H.face H.pending H.keeps host.old host.new }
    ensures alone { Unbroken H.face H.pending H.held R.log host.old host.new }
    ensures flags { RaisesNone H.pending H.held host.old host.new }
    ensures sound { H.sound host.new }
{
    let level = host.level();
    host.point();
    host.caches().take_ready(level, class)
}

/// The top of Ready in hand, behind a point. False, and no point, exactly where Ready is empty.
fn ready_in<R: Recorder, H: Host<R>>(host: &mut H, class: Class) -> bool
    requires sound { H.sound host.old }
    requires fine { Fine R.log R.counts (H.tests host.old) (H.face host.old).processors
        ((H.face host.old).level + 1) (H.held host.old) }
    requires empty { (shown (H.held host.old)).sides (H.face host.old).level ≡ idle_side }
    ensures some { result ≡ true
        → (u : Token) × (rest : List Token)
        × (((shown (H.held host.old)).rows class).deferred.ready ≡ u ∷ rest)
        × (((shown (H.held host.new)).rows class).deferred
        ≡ record ((shown (H.held host.old)).rows class).deferred { ready = rest })
        × ((shown (H.held host.new)).sides (H.face host.old).level
        ≡ record { hand = u ∷ []; mark = mark.Quiet })
        × Fit (H.tests host.new) class u
        × WorkSpan R.log (H.face host.old).level class (entry.Ready class u.number ∷ [])
        (H.tests host.old) (H.tests host.new) (H.held host.old) (H.held host.new) }
    ensures none { result ≡ false
        → (((shown (H.held host.old)).rows class).deferred.ready ≡ [])
        × Came R.log ((H.face host.old).level + 1) (H.tests host.old) (H.tests host.new)
        (H.held host.old) (H.held host.new) }
    ensures fine { Fine R.log R.counts (H.tests host.new) (H.face host.new).processors
        ((H.face host.new).level + 1) (H.held host.new) }
    ensures goes { Goes H.face H.pending H.keeps host.old host.new }
    ensures alone { Unbroken H.face H.pending H.held R.log host.old host.new }
    ensures flags { RaisesNone H.pending H.held host.old host.new }
    ensures sound { H.sound host.new }
{
    if !holds_ready(host, class) {
        return false;
    }
    top_ready_in(host, class)
}

/// Whether Second holds a unit.
fn holds_second<R: Recorder, H: Host<R>>(host: &mut H, class: Class) -> bool
    requires sound { H.sound host.old }
    requires fine { Fine R.log R.counts (H.tests host.old) (H.face host.old).processors
        ((H.face host.old).level + 1) (H.held host.old) }
    ensures some { result ≡ true
        → 0 < length ((shown (H.held host.old)).rows class).deferred.second }
    ensures none { result ≡ false → ((shown (H.held host.old)).rows class).deferred.second ≡ [] }
    ensures held { H.held host.new ≡ H.held host.old }
    ensures tests { H.tests host.new ≡ H.tests host.old }
    ensures fine { Fine R.log R.counts (H.tests host.new) (H.face host.new).processors
        ((H.face host.new).level + 1) (H.held host.new) }
    ensures goes { Goes H.face H.pending H.keeps host.old host.new }
    ensures alone { Unbroken H.face H.pending H.held R.log host.old host.new }
    ensures flags { RaisesNone H.pending H.held host.old host.new }
    ensures sound { H.sound host.new }
{
    host.caches().counts(class).second > 0
}

/// A point, and the top of Second in hand, where it holds a unit: it is there still.
fn top_second_in<R: Recorder, H: Host<R>>(host: &mut H, class: Class) -> bool
    requires sound { H.sound host.old }
    requires fine { Fine R.log R.counts (H.tests host.old) (H.face host.old).processors
        ((H.face host.old).level + 1) (H.held host.old) }
    requires empty { (shown (H.held host.old)).sides (H.face host.old).level ≡ idle_side }
    requires settled { All (Reusable (H.tests host.old))
        ((shown (H.held host.old)).rows class).deferred.second }
    requires some { 0 < length ((shown (H.held host.old)).rows class).deferred.second }
    ensures some { result ≡ true
        → (u : Token) × (rest : List Token)
        × (((shown (H.held host.old)).rows class).deferred.second ≡ u ∷ rest)
        × (((shown (H.held host.new)).rows class).deferred
        ≡ record ((shown (H.held host.old)).rows class).deferred { second = rest })
        × ((shown (H.held host.new)).sides (H.face host.old).level
        ≡ record { hand = u ∷ []; mark = mark.Quiet })
        × Fit (H.tests host.new) class u
        × WorkSpan R.log (H.face host.old).level class (entry.Second class u.number ∷ [])
        (H.tests host.old) (H.tests host.new) (H.held host.old) (H.held host.new) }
    ensures none { result ≡ false
        → (((shown (H.held host.old)).rows class).deferred.second ≡ [])
        × Came R.log ((H.face host.old).level + 1) (H.tests host.old) (H.tests host.new)
        (H.held host.old) (H.held host.new) }
    ensures fine { Fine R.log R.counts (H.tests host.new) (H.face host.new).processors
        ((H.face host.new).level + 1) (H.held host.new) }
    ensures goes { Goes H.face H.pending H.keeps host.old host.new }
    ensures alone { Unbroken H.face H.pending H.held R.log host.old host.new }
    ensures flags { RaisesNone H.pending H.held host.old host.new }
    ensures sound { H.sound host.new }
{
    let level = host.level();
    host.point();
    host.caches().take_second(level, class)
}

/// The top of Second in hand, behind a point. False, and no point, exactly where Second is empty.
fn second_in<R: Recorder, H: Host<R>>(host: &mut H, class: Class) -> bool
    requires sound { H.sound host.old }
    requires fine { Fine R.log R.counts (H.tests host.old) (H.face host.old).processors
        ((H.face host.old).level + 1) (H.held host.old) }
    requires empty { (shown (H.held host.old)).sides (H.face host.old).level ≡ idle_side }
    requires settled { All (Reusable (H.tests host.old))
        ((shown (H.held host.old)).rows class).deferred.second }
    ensures some { result ≡ true
        → (u : Token) × (rest : List Token)
        × (((shown (H.held host.old)).rows class).deferred.second ≡ u ∷ rest)
        × (((shown (H.held host.new)).rows class).deferred
        ≡ record ((shown (H.held host.old)).rows class).deferred { second = rest })
        × ((shown (H.held host.new)).sides (H.face host.old).level
        ≡ record { hand = u ∷ []; mark = mark.Quiet })
        × Fit (H.tests host.new) class u
        × WorkSpan R.log (H.face host.old).level class (entry.Second class u.number ∷ [])
        (H.tests host.old) (H.tests host.new) (H.held host.old) (H.held host.new) }
    ensures none { result ≡ false
        → (((shown (H.held host.old)).rows class).deferred.second ≡ [])
        × Came R.log ((H.face host.old).level + 1) (H.tests host.old) (H.tests host.new)
        (H.held host.old) (H.held host.new) }
    ensures fine { Fine R.log R.counts (H.tests host.new) (H.face host.new).processors
        ((H.face host.new).level + 1) (H.held host.new) }
    ensures goes { Goes H.face H.pending H.keeps host.old host.new }
    ensures alone { Unbroken H.face H.pending H.held R.log host.old host.new }
    ensures flags { RaisesNone H.pending H.held host.old host.new }
    ensures sound { H.sound host.new }
{
    if !holds_second(host, class) {
        return false;
    }
    top_second_in(host, class)
}

/// The top of Ready is added to Free. False, with nothing recorded but what handlers did, exactly where Ready is empty.
/// From one turn of the first loop of `alloc_bulk` of kernel/bpf/memalloc.c.
pub fn bring_ready<R: Recorder, H: Host<R>>(host: &mut H, class: Class) -> bool
    requires sound { H.sound host.old }
    requires fine { Fine R.log R.counts (H.tests host.old) (H.face host.old).processors
        ((H.face host.old).level + 1) (H.held host.old) }
    requires idle { ((shown (H.held host.old)).rows class).active ≡ 0 }
    requires empty { (shown (H.held host.old)).sides (H.face host.old).level ≡ idle_side }
    ensures some { result ≡ true
        → (u : Token) × (rest : List Token) × (k a : ℕ)
        × (((shown (H.held host.old)).rows class).deferred.ready ≡ u ∷ rest)
        × (((shown (H.held host.new)).rows class).deferred
        ≡ record ((shown (H.held host.old)).rows class).deferred { ready = rest })
        × WorkSpan R.log (H.face host.old).level class
        (entry.Ready class u.number ∷ added class u.number k a) (H.tests host.old)
        (H.tests host.new) (H.held host.old) (H.held host.new) }
    ensures phrase { result ≡ true
        → (u : Token) × (rest : List Token)
        × (((shown (H.held host.old)).rows class).deferred.ready ≡ u ∷ rest)
        × GrewBy (Brings (H.face host.old).level class (entry.Ready class u.number) u.number)
        (seen number_of (shown (H.held host.old))) (R.log (H.held host.old).recorder)
        (R.log (H.held host.new).recorder) }
    ensures none { result ≡ false
        → (((shown (H.held host.old)).rows class).deferred.ready ≡ [])
        × Came R.log ((H.face host.old).level + 1) (H.tests host.old) (H.tests host.new)
        (H.held host.old) (H.held host.new) }
    ensures side { (shown (H.held host.new)).sides (H.face host.old).level ≡ idle_side }
    ensures active { (k : ℕ)
        → ((shown (H.held host.new)).rows k).active ≡ ((shown (H.held host.old)).rows k).active }
    ensures kept { (k : ℕ) → k ≢ class
        → ((shown (H.held host.new)).rows k).deferred
        ≡ ((shown (H.held host.old)).rows k).deferred }
    ensures fine { Fine R.log R.counts (H.tests host.new) (H.face host.new).processors
        ((H.face host.new).level + 1) (H.held host.new) }
    ensures goes { Goes H.face H.pending H.keeps host.old host.new }
    ensures alone { Unbroken H.face H.pending H.held R.log host.old host.new }
    ensures flags { RaisesNone H.pending H.held host.old host.new }
    ensures sound { H.sound host.new }
{
    if !ready_in(host, class) {
        return false;
    }
    add_unit(host, class);
    true
}

/// The top of Second is added to Free. False, with nothing recorded but what handlers did, exactly where Second is empty.
/// From one turn of the second loop of `alloc_bulk` of kernel/bpf/memalloc.c.
pub fn bring_second<R: Recorder, H: Host<R>>(host: &mut H, class: Class) -> bool
    requires sound { H.sound host.old }
    requires fine { Fine R.log R.counts (H.tests host.old) (H.face host.old).processors
        ((H.face host.old).level + 1) (H.held host.old) }
    requires idle { ((shown (H.held host.old)).rows class).active ≡ 0 }
    requires empty { (shown (H.held host.old)).sides (H.face host.old).level ≡ idle_side }
    requires settled { All (Reusable (H.tests host.old))
        ((shown (H.held host.old)).rows class).deferred.second }
    ensures some { result ≡ true
        → (u : Token) × (rest : List Token) × (k a : ℕ)
        × (((shown (H.held host.old)).rows class).deferred.second ≡ u ∷ rest)
        × (((shown (H.held host.new)).rows class).deferred
        ≡ record ((shown (H.held host.old)).rows class).deferred { second = rest })
        × WorkSpan R.log (H.face host.old).level class
        (entry.Second class u.number ∷ added class u.number k a) (H.tests host.old)
        (H.tests host.new) (H.held host.old) (H.held host.new) }
    ensures phrase { result ≡ true
        → (u : Token) × (rest : List Token)
        × (((shown (H.held host.old)).rows class).deferred.second ≡ u ∷ rest)
        × GrewBy (Brings (H.face host.old).level class (entry.Second class u.number) u.number)
        (seen number_of (shown (H.held host.old))) (R.log (H.held host.old).recorder)
        (R.log (H.held host.new).recorder) }
    ensures none { result ≡ false
        → (((shown (H.held host.old)).rows class).deferred.second ≡ [])
        × Came R.log ((H.face host.old).level + 1) (H.tests host.old) (H.tests host.new)
        (H.held host.old) (H.held host.new) }
    ensures side { (shown (H.held host.new)).sides (H.face host.old).level ≡ idle_side }
    ensures active { (k : ℕ)
        → ((shown (H.held host.new)).rows k).active ≡ ((shown (H.held host.old)).rows k).active }
    ensures kept { (k : ℕ) → k ≢ class
        → ((shown (H.held host.new)).rows k).deferred
        ≡ ((shown (H.held host.old)).rows k).deferred }
    ensures fine { Fine R.log R.counts (H.tests host.new) (H.face host.new).processors
        ((H.face host.new).level + 1) (H.held host.new) }
    ensures goes { Goes H.face H.pending H.keeps host.old host.new }
    ensures alone { Unbroken H.face H.pending H.held R.log host.old host.new }
    ensures flags { RaisesNone H.pending H.held host.old host.new }
    ensures sound { H.sound host.new }
{
    if !second_in(host, class) {
        return false;
    }
    add_unit(host, class);
    true
}
