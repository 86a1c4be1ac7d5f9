//! Deferred work.

ghost use Rattle.std.specs.Prelude.{◌≡◌, ◌≢◌, ◌≤◌, ◌<◌, ℕ, [], true, false, OnOk, OnErr};
ghost use Rattle.bm_journal.specs.declared.ids.Domain.TheVariants.{Plain, Tracing};
ghost use Rattle.bm_grace.specs.Known.{side};
ghost use Rattle.bm_law.specs.Lists.{is_unstamped};
ghost use Rattle.bm_law.specs.State.{idle_side, seen};
ghost use Rattle.bm_cache.specs.Shown.{shown};
ghost use Rattle.bm_cache.specs.Tokens.{Token, number_of};
ghost use Rattle.bm_law_work.specs.WorkPhrases.{Balance, BalanceAt, Drain, Refill, Work, has_hand, middle_of_class};
ghost use Rattle.bm_work.specs.declared.deferred.Worked.TheVariants as worked;
ghost use Rattle.bm_work.specs.Stops.{BalanceStop, DrainStop, RefillStop, StopAt, WorkStop};
ghost use Rattle.bm_work.specs.Works.{Handled, Posted, Stands, Stopped, Works};

use crate::Desk;
use crate::fetches::fetch_rest;
use crate::leaving::send_hand;
use crate::lists::{lower_flag, read_free, refill, unload_to_hand};
use crate::parcels::receive_up_to;
use crate::stages::{first_stage, second_stage};
use bm_cache::Host;
use bm_class::{Class, marks};
use bm_journal::Recorder;
use bm_word::NoMemory;
use std::alloc::Global;

/// How deferred work ended.
#[derive(Clone, Copy, Debug, PartialEq, Eq)]
pub enum Worked {
    /// All was done.
    Done,
    /// It stopped for want of memory.
    NoMemory,
}

/// So many units are moved to Free, from Ready, then from Second, then from the stock. Want of memory is the only refusal. From
/// `alloc_bulk` of kernel/bpf/memalloc.c.
fn bring_all<R: Recorder, H: Desk<R>>(
    alloc: Global,
    host: &mut H,
    class: Class,
    want: u32,
) -> Result<(), NoMemory>
    requires stands { Stands R.log R.counts H.Host.sound H.Host.tests H.Host.face H.Host.held
        host.old }
    requires idle { (shown (H.Host.held host.old)).sides (H.Host.face host.old).level ≡ idle_side }
    requires active { ((shown (H.Host.held host.old)).rows class).active ≡ 0 }
    ensures ok { OnOk result
        (Works R.log H.Host.face H.Host.pending H.stays H.Host.held
        (λ h. H.W.Knows.known (H.shared h)) 0 0 (λ l. Refill l class want) host.old host.new) }
    ensures err { OnErr result
        (Stopped R.log R.counts H.Host.face H.Host.held (λ l. RefillStop l class want) host.old
        host.new) }
    ensures batches { OnOk result
        ((((shown (H.Host.held host.new)).rows class).deferred.plain
        ≡ ((shown (H.Host.held host.old)).rows class).deferred.plain)
        × (((shown (H.Host.held host.new)).rows class).deferred.tracing
        ≡ ((shown (H.Host.held host.old)).rows class).deferred.tracing)) }
    ensures kept { OnOk result
        ((k : ℕ) → k ≢ class
        → ((shown (H.Host.held host.new)).rows k).deferred
        ≡ ((shown (H.Host.held host.old)).rows k).deferred) }
    ensures side { OnOk result
        ((shown (H.Host.held host.new)).sides (H.Host.face host.old).level ≡ idle_side) }
    ensures back { OnOk result
        (Stands R.log R.counts H.Host.sound H.Host.tests H.Host.face H.Host.held host.new) }
{
    let left = refill(host, class, want);
    fetch_rest(alloc, host, class, left)
}

/// Whether a unit is in hand.
fn holds_some<R: Recorder, H: Desk<R>>(host: &mut H, class: Class) -> bool
    requires stands { Stands R.log R.counts H.Host.sound H.Host.tests H.Host.face H.Host.held
        host.old }
    ensures answer { result
        ≡ has_hand (H.Host.face host.old).level (seen number_of (shown (H.Host.held host.old))) }
    ensures same { (H.Host.held host.new) ≡ (H.Host.held host.old) }
    ensures handled { Handled H.Host.face H.Host.pending H.stays H.shared H.Host.tests host.old
        host.new }
    ensures posted { Posted H.Host.face H.Host.pending H.stays H.Host.held
        (λ h. H.W.Knows.known (H.shared h)) H.Host.tests ([]) host.old host.new }
    ensures stands { Stands R.log R.counts H.Host.sound H.Host.tests H.Host.face H.Host.held
        host.new }
{
    let _class = class;
    let level = host.level();
    host.caches().hand(level) > 0
}

/// Free is taken down to the middle of the marks, and then all of Extra, and what was taken is sent to the target as one parcel,
/// if that is any. Want of memory is the only refusal. From `free_bulk` of kernel/bpf/memalloc.c.
fn drain<R: Recorder, H: Desk<R>>(
    alloc: Global,
    host: &mut H,
    class: Class,
    middle: u32,
) -> Result<(), NoMemory>
    requires stands { Stands R.log R.counts H.Host.sound H.Host.tests H.Host.face H.Host.held
        host.old }
    requires idle { (shown (H.Host.held host.old)).sides (H.Host.face host.old).level ≡ idle_side }
    requires active { ((shown (H.Host.held host.old)).rows class).active ≡ 0 }
    requires middle { middle ≡ middle_of_class class }
    ensures ok { OnOk result
        (Works R.log H.Host.face H.Host.pending H.stays H.Host.held
        (λ h. H.W.Knows.known (H.shared h)) 0 0 (λ l. Drain l class) host.old host.new) }
    ensures err { OnErr result
        (Stopped R.log R.counts H.Host.face H.Host.held (λ l. DrainStop l class) host.old
        host.new) }
    ensures deferred { OnOk result
        ((k : ℕ)
        → ((shown (H.Host.held host.new)).rows k).deferred
        ≡ ((shown (H.Host.held host.old)).rows k).deferred) }
    ensures side { OnOk result
        ((shown (H.Host.held host.new)).sides (H.Host.face host.old).level ≡ idle_side) }
    ensures back { OnOk result
        (Stands R.log R.counts H.Host.sound H.Host.tests H.Host.face H.Host.held host.new) }
{
    unload_to_hand(host, class, middle);
    if !holds_some(host, class) {
        return Ok(());
    }
    send_hand(alloc, host, class)
}

/// A refill where the count that was read is below the low mark, a drain where it is above the high one.
fn balance_at<R: Recorder, H: Desk<R>>(
    alloc: Global,
    host: &mut H,
    class: Class,
    count: u32,
) -> Result<(), NoMemory>
    requires stands { Stands R.log R.counts H.Host.sound H.Host.tests H.Host.face H.Host.held
        host.old }
    requires idle { (shown (H.Host.held host.old)).sides (H.Host.face host.old).level ≡ idle_side }
    requires active { ((shown (H.Host.held host.old)).rows class).active ≡ 0 }
    ensures ok { OnOk result
        (Works R.log H.Host.face H.Host.pending H.stays H.Host.held
        (λ h. H.W.Knows.known (H.shared h)) 0 0 (λ l. BalanceAt l class count) host.old
        host.new) }
    ensures err { OnErr result
        (Stopped R.log R.counts H.Host.face H.Host.held (λ l. StopAt l class count) host.old
        host.new) }
    ensures batches { OnOk result
        ((((shown (H.Host.held host.new)).rows class).deferred.plain
        ≡ ((shown (H.Host.held host.old)).rows class).deferred.plain)
        × (((shown (H.Host.held host.new)).rows class).deferred.tracing
        ≡ ((shown (H.Host.held host.old)).rows class).deferred.tracing)) }
    ensures kept { OnOk result
        ((k : ℕ) → k ≢ class
        → ((shown (H.Host.held host.new)).rows k).deferred
        ≡ ((shown (H.Host.held host.old)).rows k).deferred) }
    ensures side { OnOk result
        ((shown (H.Host.held host.new)).sides (H.Host.face host.old).level ≡ idle_side) }
    ensures back { OnOk result
        (Stands R.log R.counts H.Host.sound H.Host.tests H.Host.face H.Host.held host.new) }
{
    let marks = marks(class);
    if count < marks.low {
        bring_all(alloc, host, class, marks.batch)
    } else if marks.high < count {
        drain(alloc, host, class, marks.middle())
    } else {
        Ok(())
    }
}

/// The free count of a class is read, and Free is refilled or drained by it. Want of memory is the only refusal. From
/// `bpf_mem_refill` of kernel/bpf/memalloc.c.
fn balance<R: Recorder, H: Desk<R>>(
    alloc: Global,
    host: &mut H,
    class: Class,
) -> Result<(), NoMemory>
    requires stands { Stands R.log R.counts H.Host.sound H.Host.tests H.Host.face H.Host.held
        host.old }
    requires idle { (shown (H.Host.held host.old)).sides (H.Host.face host.old).level ≡ idle_side }
    requires active { ((shown (H.Host.held host.old)).rows class).active ≡ 0 }
    ensures ok { OnOk result
        (Works R.log H.Host.face H.Host.pending H.stays H.Host.held
        (λ h. H.W.Knows.known (H.shared h)) 0 0 (λ l. Balance l class) host.old host.new) }
    ensures err { OnErr result
        (Stopped R.log R.counts H.Host.face H.Host.held (λ l. BalanceStop l class) host.old
        host.new) }
    ensures batches { OnOk result
        ((((shown (H.Host.held host.new)).rows class).deferred.plain
        ≡ ((shown (H.Host.held host.old)).rows class).deferred.plain)
        × (((shown (H.Host.held host.new)).rows class).deferred.tracing
        ≡ ((shown (H.Host.held host.old)).rows class).deferred.tracing)) }
    ensures kept { OnOk result
        ((k : ℕ) → k ≢ class
        → ((shown (H.Host.held host.new)).rows k).deferred
        ≡ ((shown (H.Host.held host.old)).rows k).deferred) }
    ensures side { OnOk result
        ((shown (H.Host.held host.new)).sides (H.Host.face host.old).level ≡ idle_side) }
    ensures back { OnOk result
        (Stands R.log R.counts H.Host.sound H.Host.tests H.Host.face H.Host.held host.new) }
{
    let count = read_free(host, class);
    balance_at(alloc, host, class, count)
}

/// All parts of the work of a class, in order. Want of memory is the only refusal.
fn work_through<R: Recorder, H: Desk<R>>(
    alloc: Global,
    host: &mut H,
    class: Class,
) -> Result<(), NoMemory>
    requires stands { Stands R.log R.counts H.Host.sound H.Host.tests H.Host.face H.Host.held
        host.old }
    requires idle { (shown (H.Host.held host.old)).sides (H.Host.face host.old).level ≡ idle_side }
    requires active { ((shown (H.Host.held host.old)).rows class).active ≡ 0 }
    requires plain { 0 < (side Plain (H.W.Knows.known (H.shared host.old))).begins }
    requires tracing { 0 < (side Tracing (H.W.Knows.known (H.shared host.old))).begins }
    requires stamped { is_unstamped ((shown (H.Host.held host.old)).rows class).deferred.plain
        ≡ false }
    ensures ok { OnOk result
        (Works R.log H.Host.face H.Host.pending H.stays H.Host.held
        (λ h. H.W.Knows.known (H.shared h)) 1 1 (λ l. Work l class) host.old host.new) }
    ensures err { OnErr result
        (Stopped R.log R.counts H.Host.face H.Host.held (λ l. WorkStop l class) host.old host.new) }
    ensures lowered { OnOk result
        (H.Host.pending host.new ≡ H.Host.pending host.old
        → ((shown (H.Host.held host.new)).rows class).raised ≡ false) }
    ensures stamped { OnOk result
        (is_unstamped ((shown (H.Host.held host.new)).rows class).deferred.plain ≡ false) }
    ensures kept { OnOk result
        ((k : ℕ) → k ≢ class
        → ((shown (H.Host.held host.new)).rows k).deferred
        ≡ ((shown (H.Host.held host.old)).rows k).deferred) }
    ensures side { OnOk result
        ((shown (H.Host.held host.new)).sides (H.Host.face host.old).level ≡ idle_side) }
    ensures back { OnOk result
        (Stands R.log R.counts H.Host.sound H.Host.tests H.Host.face H.Host.held host.new) }
{
    lower_flag(host, class);
    receive_up_to(alloc, host, class, 64);
    balance(alloc, host, class)?;
    first_stage(alloc, host, class)?;
    second_stage(alloc, host, class)
}

/// The deferred work of a class: parcels are received, up to 64 of them; Free is refilled or drained by its count; what was freed
/// with a delay goes through the first stage, whose stamp is one of plain grace periods, and through the second, whose stamp is
/// one of tracing grace periods, and then back to its pages. It answers `NoMemory` where a list couldn't grow: it stopped before
/// a refill's fetch, a parcel or a return, and the caches stand. From `bpf_mem_refill` of kernel/bpf/memalloc.c; on the way of
/// delayed units to their pages, this project's own.
pub fn work<R: Recorder, H: Desk<R>>(alloc: Global, host: &mut H, class: Class) -> Worked
    requires stands { Stands R.log R.counts H.Host.sound H.Host.tests H.Host.face H.Host.held
        host.old }
    requires idle { (shown (H.Host.held host.old)).sides (H.Host.face host.old).level ≡ idle_side }
    requires active { ((shown (H.Host.held host.old)).rows class).active ≡ 0 }
    requires plain { 0 < (side Plain (H.W.Knows.known (H.shared host.old))).begins }
    requires tracing { 0 < (side Tracing (H.W.Knows.known (H.shared host.old))).begins }
    requires stamped { is_unstamped ((shown (H.Host.held host.old)).rows class).deferred.plain
        ≡ false }
    ensures done { result ≡ worked.Done
        → Works R.log H.Host.face H.Host.pending H.stays H.Host.held
        (λ h. H.W.Knows.known (H.shared h)) 1 1 (λ l. Work l class) host.old host.new }
    ensures memory { result ≡ worked.NoMemory
        → Stopped R.log R.counts H.Host.face H.Host.held (λ l. WorkStop l class) host.old host.new }
    ensures lowered { result ≡ worked.Done → H.Host.pending host.new ≡ H.Host.pending host.old
        → ((shown (H.Host.held host.new)).rows class).raised ≡ false }
    ensures stamped { result ≡ worked.Done
        → is_unstamped ((shown (H.Host.held host.new)).rows class).deferred.plain ≡ false }
    ensures kept { result ≡ worked.Done → (k : ℕ) → k ≢ class
        → ((shown (H.Host.held host.new)).rows k).deferred
        ≡ ((shown (H.Host.held host.old)).rows k).deferred }
    ensures side { result ≡ worked.Done
        → (shown (H.Host.held host.new)).sides (H.Host.face host.old).level ≡ idle_side }
    ensures back { result ≡ worked.Done
        → Stands R.log R.counts H.Host.sound H.Host.tests H.Host.face H.Host.held host.new }
{
    match work_through(alloc, host, class) {
        Ok(()) => Worked::Done,
        Err(_memory) => Worked::NoMemory,
    }
}
