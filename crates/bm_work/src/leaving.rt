//! Parcels and returns, each with the point before it.

ghost use Rattle.std.specs.Prelude.{◌≡◌, ◌≢◌, ◌≤◌, ◌<◌, ◌+◌, ℕ, List, [], Some, None, IsTrue, is_some, true, false, length, vec_capacity, vec_len, IfOk, OnOk, OnErr};
ghost use Rattle.std.specs.List.{All};
ghost use Rattle.bm_journal.specs.declared.entry.Entry.TheVariants as entry;
ghost use Rattle.bm_journal.specs.declared.ids.Domain.TheVariants.{Plain, Tracing};
ghost use Rattle.bm_law.specs.declared.mark.Mark.TheVariants as mark;
ghost use Rattle.bm_law.specs.State.{seen, idle_side};
ghost use Rattle.bm_cache.specs.Shown.{shown};
ghost use Rattle.bm_cache.specs.Tests.{Passes};
ghost use Rattle.bm_cache.specs.Tokens.{Token, number_of};
ghost use Rattle.bm_law_work.specs.Parts.{Say};
ghost use Rattle.bm_law_work.specs.WorkPhrases.{IsReturn, IsSend};
ghost use Rattle.bm_work_lists.specs.Fit.{Fit};
ghost use Rattle.bm_work.specs.DeskTests.{ripe_test};
ghost use Rattle.bm_work.specs.Rested.{LastIs};
ghost use Rattle.bm_work.specs.Stops.{Missing};
ghost use Rattle.bm_work.specs.Works.{Handled, Posted, Stands, Stopped, Works};

use crate::Desk;
use crate::polls::pause;
use crate::returns::return_now;
use crate::sends::{send_first_now, send_hand_now};
use bm_cache::Host;
use bm_class::Class;
use bm_journal::Recorder;
use bm_page::Seal;
use bm_word::NoMemory;
use std::alloc::Global;

/// An empty list with room for the numbers of the units in hand. Want of memory is the only refusal.
fn room_for_hand<R: Recorder, H: Desk<R>>(
    alloc: Global,
    host: &mut H,
    class: Class,
) -> Result<Vec<u16>, NoMemory>
    requires stands { Stands R.log R.counts H.Host.asked H.Host.tests H.Host.face H.Host.held
        host.old }
    ensures room { IfOk result
        (λ v. (vec_len v ≡ 0)
        × (length ((shown (H.Host.held host.old)).sides (H.Host.face host.old).level).hand
        ≤ vec_capacity v)) }
    ensures same { (H.Host.held host.new) ≡ (H.Host.held host.old) }
    ensures handled { Handled H.Host.face H.Host.pending H.stays H.shared H.Host.tests host.old
        host.new }
    ensures posted { Posted H.Host.face H.Host.pending H.stays H.Host.held
        (λ h. H.W.Knows.known (H.shared h)) H.Host.tests ([]) host.old host.new }
    ensures stands { Stands R.log R.counts H.Host.asked H.Host.tests H.Host.face H.Host.held
        host.new }
{
    let _class = class;
    let level = host.level();
    let count = host.caches().hand(level);
    Ok(Vec::with_capacity(alloc, count)?)
}

/// An empty list with room for the numbers of the units of First. Want of memory is the only refusal.
fn room_for_first<R: Recorder, H: Desk<R>>(
    alloc: Global,
    host: &mut H,
    class: Class,
) -> Result<Vec<u16>, NoMemory>
    requires stands { Stands R.log R.counts H.Host.asked H.Host.tests H.Host.face H.Host.held
        host.old }
    ensures room { IfOk result
        (λ v. (vec_len v ≡ 0)
        × (length ((shown (H.Host.held host.old)).rows class).deferred.first
        ≤ vec_capacity v)) }
    ensures same { (H.Host.held host.new) ≡ (H.Host.held host.old) }
    ensures handled { Handled H.Host.face H.Host.pending H.stays H.shared H.Host.tests host.old
        host.new }
    ensures posted { Posted H.Host.face H.Host.pending H.stays H.Host.held
        (λ h. H.W.Knows.known (H.shared h)) H.Host.tests ([]) host.old host.new }
    ensures stands { Stands R.log R.counts H.Host.asked H.Host.tests H.Host.face H.Host.held
        host.new }
{
    let count = host.caches().counts(class).first;
    Ok(Vec::with_capacity(alloc, count as usize)?)
}

/// An empty list with room for the numbers of the units of Second. Want of memory is the only refusal.
fn room_for_second<R: Recorder, H: Desk<R>>(
    alloc: Global,
    host: &mut H,
    class: Class,
) -> Result<Vec<u16>, NoMemory>
    requires stands { Stands R.log R.counts H.Host.asked H.Host.tests H.Host.face H.Host.held
        host.old }
    ensures room { IfOk result
        (λ v. (vec_len v ≡ 0)
        × (length ((shown (H.Host.held host.old)).rows class).deferred.second
        ≤ vec_capacity v)) }
    ensures same { (H.Host.held host.new) ≡ (H.Host.held host.old) }
    ensures handled { Handled H.Host.face H.Host.pending H.stays H.shared H.Host.tests host.old
        host.new }
    ensures posted { Posted H.Host.face H.Host.pending H.stays H.Host.held
        (λ h. H.W.Knows.known (H.shared h)) H.Host.tests ([]) host.old host.new }
    ensures stands { Stands R.log R.counts H.Host.asked H.Host.tests H.Host.face H.Host.held
        host.new }
{
    let count = host.caches().counts(class).second;
    Ok(Vec::with_capacity(alloc, count as usize)?)
}

/// A point, and all units in hand are sent to the target as one parcel. Want of memory is the only refusal. From the end of
/// `free_bulk` of kernel/bpf/memalloc.c, which adds them to the target's list itself.
pub fn send_hand<R: Recorder, H: Desk<R>>(
    alloc: Global,
    host: &mut H,
    class: Class,
) -> Result<(), NoMemory>
    requires stands { Stands R.log R.counts H.Host.sound H.Host.tests H.Host.face H.Host.held
        host.old }
    requires quiet { ((shown (H.Host.held host.old)).sides (H.Host.face host.old).level).mark
        ≡ mark.Quiet }
    requires fit { All (Fit (H.Host.tests host.old) class)
        ((shown (H.Host.held host.old)).sides (H.Host.face host.old).level).hand }
    requires some { 0
        < length ((shown (H.Host.held host.old)).sides (H.Host.face host.old).level).hand }
    ensures ok { OnOk result
        (Works R.log H.Host.face H.Host.pending H.stays H.Host.held
        (λ h. H.W.Knows.known (H.shared h)) 0 0 (λ l. Say l (IsSend class)) host.old host.new) }
    ensures err { OnErr result
        (Stopped R.log R.counts H.Host.face H.Host.held (λ l. Missing l) host.old host.new) }
    ensures deferred { OnOk result
        ((k : ℕ)
        → ((shown (H.Host.held host.new)).rows k).deferred
        ≡ ((shown (H.Host.held host.old)).rows k).deferred) }
    ensures side { OnOk result
        ((shown (H.Host.held host.new)).sides (H.Host.face host.old).level ≡ idle_side) }
    ensures back { OnOk result
        (Stands R.log R.counts H.Host.sound H.Host.tests H.Host.face H.Host.held host.new) }
{
    pause(host);
    let numbers = room_for_hand(alloc, host, class)?;
    send_hand_now(host, class, numbers)
}

/// A point, and all units of First, which are ripe, are sealed and sent to the target as one parcel. Want of memory is the only
/// refusal. From `__free_by_rcu` of kernel/bpf/memalloc.c, which adds them to the target's list itself.
pub fn send_first<R: Recorder, H: Desk<R>>(
    alloc: Global,
    host: &mut H,
    class: Class,
    seal: Seal,
) -> Result<(), NoMemory>
    requires stands { Stands R.log R.counts H.Host.sound H.Host.tests H.Host.face H.Host.held
        host.old }
    requires idle { (shown (H.Host.held host.old)).sides (H.Host.face host.old).level ≡ idle_side }
    requires ripe { All (Passes (H.Host.tests host.old) (ripe_test Plain seal.stamp seal.seen))
        ((shown (H.Host.held host.old)).rows class).deferred.first }
    requires stamped { ((shown (H.Host.held host.old)).rows class).deferred.plain
        ≡ Some seal.stamp }
    requires taken { 0 < seal.stamp }
    requires passed { LastIs R.log (H.Host.face host.old).level (entry.Pass class Plain seal.seen)
        (H.Host.held host.old) }
    requires some { 0 < length ((shown (H.Host.held host.old)).rows class).deferred.first }
    ensures ok { OnOk result
        (Works R.log H.Host.face H.Host.pending H.stays H.Host.held
        (λ h. H.W.Knows.known (H.shared h)) 0 0 (λ l. Say l (IsSend class)) host.old host.new) }
    ensures err { OnErr result
        (Stopped R.log R.counts H.Host.face H.Host.held (λ l. Missing l) host.old host.new) }
    ensures deferred { OnOk result
        (((shown (H.Host.held host.new)).rows class).deferred
        ≡ record ((shown (H.Host.held host.old)).rows class).deferred
        { first = []; plain = None }) }
    ensures kept { OnOk result
        ((k : ℕ) → k ≢ class
        → ((shown (H.Host.held host.new)).rows k).deferred
        ≡ ((shown (H.Host.held host.old)).rows k).deferred) }
    ensures side { OnOk result
        ((shown (H.Host.held host.new)).sides (H.Host.face host.old).level ≡ idle_side) }
    ensures back { OnOk result
        (Stands R.log R.counts H.Host.sound H.Host.tests H.Host.face H.Host.held host.new) }
{
    pause(host);
    let numbers = room_for_first(alloc, host, class)?;
    send_first_now(host, class, numbers, seal)
}

/// A point, and all units of Second go back to the stock. Want of memory is the only refusal. From `__free_rcu` of
/// kernel/bpf/memalloc.c.
pub fn return_second<R: Recorder, H: Desk<R>>(
    alloc: Global,
    host: &mut H,
    class: Class,
) -> Result<(), NoMemory>
    requires stands { Stands R.log R.counts H.Host.sound H.Host.tests H.Host.face H.Host.held
        host.old }
    requires idle { (shown (H.Host.held host.old)).sides (H.Host.face host.old).level ≡ idle_side }
    requires progress { IsTrue
        (is_some ((shown (H.Host.held host.old)).rows class).deferred.tracing) }
    ensures ok { OnOk result
        (Works R.log H.Host.face H.Host.pending H.stays H.Host.held
        (λ h. H.W.Knows.known (H.shared h)) 0 0 (λ l. Say l (IsReturn class)) host.old
        host.new) }
    ensures err { OnErr result
        (Stopped R.log R.counts H.Host.face H.Host.held (λ l. Missing l) host.old host.new) }
    ensures deferred { OnOk result
        (((shown (H.Host.held host.new)).rows class).deferred
        ≡ record ((shown (H.Host.held host.old)).rows class).deferred
        { second = []; tracing = None }) }
    ensures kept { OnOk result
        ((k : ℕ) → k ≢ class
        → ((shown (H.Host.held host.new)).rows k).deferred
        ≡ ((shown (H.Host.held host.old)).rows k).deferred) }
    ensures side { OnOk result
        ((shown (H.Host.held host.new)).sides (H.Host.face host.old).level ≡ idle_side) }
    ensures back { OnOk result
        (Stands R.log R.counts H.Host.sound H.Host.tests H.Host.face H.Host.held host.new) }
{
    pause(host);
    let numbers = room_for_second(alloc, host, class)?;
    return_now(host, class, numbers)
}
