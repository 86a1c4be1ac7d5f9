//! Parcels that go to other processors.

ghost use Rattle.std.specs.Prelude.{◌≡◌, ◌≢◌, ◌+◌, ◌≤◌, ◌<◌, ℕ, [], None, Some, length, map, vec_capacity, vec_len, OnOk, OnErr};
ghost use Rattle.std.specs.List.{All};
ghost use Rattle.bm_journal.specs.declared.entry.Entry.TheVariants as entry;
ghost use Rattle.bm_journal.specs.declared.ids.Domain.TheVariants.{Plain};
ghost use Rattle.bm_law.specs.declared.mark.Mark.TheVariants as mark;
ghost use Rattle.bm_law.specs.State.{idle_side};
ghost use Rattle.bm_cache.specs.Shown.{shown};
ghost use Rattle.bm_cache.specs.Tests.{Passes};
ghost use Rattle.bm_law_work.specs.Parts.{Nothing, Say, Stand};
ghost use Rattle.bm_law_work.specs.WorkPhrases.{IsSend};
ghost use Rattle.bm_work_lists.specs.Fit.{Fit};
ghost use Rattle.bm_work.specs.DeskTests.{ripe_test};
ghost use Rattle.bm_work.specs.Periods.{sealed};
ghost use Rattle.bm_work.specs.Rested.{LastIs};
ghost use Rattle.bm_work.specs.Works.{Posted, Stands, Stopped, Works};

use crate::Desk;
use crate::loans::{
    end_send, give_parcel, lend_first, lend_hand, take_back_first, take_back_hand, target_of,
    write_numbers,
};
use crate::polls::pause;
use bm_cache::Host;
use bm_class::Class;
use bm_journal::Recorder;
use bm_page::{Seal, Unit};
use bm_word::NoMemory;
use std::alloc::Global;

/// All units in hand are sent as one parcel, and that is recorded. Want of memory is the only refusal, and changes nothing.
pub fn send_hand_now<R: Recorder, H: Desk<R>>(
    host: &mut H,
    class: Class,
    numbers: Vec<u16>,
) -> Result<(), NoMemory>
    requires stands { Stands R.log R.counts H.Host.asked H.Host.tests H.Host.face H.Host.held
        host.old }
    requires quiet { ((shown (H.Host.held host.old)).sides (H.Host.face host.old).level).mark
        ≡ mark.Quiet }
    requires fit { All (Fit (H.Host.tests host.old) class)
        ((shown (H.Host.held host.old)).sides (H.Host.face host.old).level).hand }
    requires some { 0
        < length ((shown (H.Host.held host.old)).sides (H.Host.face host.old).level).hand }
    requires empty { vec_len numbers ≡ 0 }
    requires room { length ((shown (H.Host.held host.old)).sides (H.Host.face host.old).level).hand
        ≤ vec_capacity numbers }
    ensures ok { OnOk result
        (Works R.log H.Host.face H.Host.pending H.stays H.Host.held
        (λ h. H.W.Knows.known (H.shared h)) 0 0 (λ l. Say l (IsSend class)) host.old host.new) }
    ensures err { OnErr result
        (Stopped R.log R.counts H.Host.face H.Host.held (λ l. Nothing) host.old host.new) }
    ensures deferred { OnOk result
        ((k : ℕ)
        → ((shown (H.Host.held host.new)).rows k).deferred
        ≡ ((shown (H.Host.held host.old)).rows k).deferred) }
    ensures side { OnOk result
        ((shown (H.Host.held host.new)).sides (H.Host.face host.old).level ≡ idle_side) }
    ensures back { OnOk result
        (Stands R.log R.counts H.Host.sound H.Host.tests H.Host.face H.Host.held host.new) }
{
    let mut numbers = numbers;
    let units = lend_hand(host, class)?;
    write_numbers(&mut numbers, &units);
    let to = target_of(host, class);
    match give_parcel(host, to, class, units) {
        Ok(()) => {
            end_send(host, class, to, numbers);
            Ok(())
        }
        Err(units) => {
            take_back_hand(host, class, units);
            Err(NoMemory)
        }
    }
}

/// Seals units.
fn seal_all(units: &mut Vec<Unit>, seal: Seal)
    ensures items { units.new.items ≡ map (sealed seal) units.old.items }
{
    let mut at = 0;
    'seals: while at < units.len() {
        units[at].set_seal(seal);
        at += 1;
    }
}

/// All units of First, which are ripe by a stamp and a number, are sealed with both and sent as one parcel, and that is recorded.
/// The plain batch is no more in progress. Want of memory is the only refusal, and leaves the lists as they were, but for seals.
pub fn send_first_now<R: Recorder, H: Desk<R>>(
    host: &mut H,
    class: Class,
    numbers: Vec<u16>,
    seal: Seal,
) -> Result<(), NoMemory>
    requires stands { Stands R.log R.counts H.Host.asked H.Host.tests H.Host.face H.Host.held
        host.old }
    requires idle { (shown (H.Host.held host.old)).sides (H.Host.face host.old).level ≡ idle_side }
    requires ripe { All (Passes (H.Host.tests host.old) (ripe_test Plain seal.stamp seal.seen))
        ((shown (H.Host.held host.old)).rows class).deferred.first }
    requires stamped { ((shown (H.Host.held host.old)).rows class).deferred.plain
        ≡ Some seal.stamp }
    requires taken { 0 < seal.stamp }
    requires passed { LastIs R.log (H.Host.face host.old).level (entry.Pass class Plain seal.seen)
        (H.Host.held host.old) }
    requires some { 0 < length ((shown (H.Host.held host.old)).rows class).deferred.first }
    requires empty { vec_len numbers ≡ 0 }
    requires room { length ((shown (H.Host.held host.old)).rows class).deferred.first
        ≤ vec_capacity numbers }
    ensures ok { OnOk result
        (Works R.log H.Host.face H.Host.pending H.stays H.Host.held
        (λ h. H.W.Knows.known (H.shared h)) 0 0 (λ l. Say l (IsSend class)) host.old host.new) }
    ensures err { OnErr result
        (Stopped R.log R.counts H.Host.face H.Host.held (λ l. Nothing) host.old host.new) }
    ensures deferred { OnOk result
        (((shown (H.Host.held host.new)).rows class).deferred
        ≡ record ((shown (H.Host.held host.old)).rows class).deferred
        { first = []; plain = None }) }
    ensures kept { OnOk result
        ((k : ℕ) → k ≢ class
        → ((shown (H.Host.held host.new)).rows k).deferred
        ≡ ((shown (H.Host.held host.old)).rows k).deferred) }
    ensures side { OnOk result
        ((shown (H.Host.held host.new)).sides (H.Host.face host.old).level ≡ idle_side) }
    ensures back { OnOk result
        (Stands R.log R.counts H.Host.sound H.Host.tests H.Host.face H.Host.held host.new) }
{
    let mut numbers = numbers;
    let mut units = lend_first(host, class)?;
    write_numbers(&mut numbers, &units);
    seal_all(&mut units, seal);
    let to = target_of(host, class);
    match give_parcel(host, to, class, units) {
        Ok(()) => {
            end_send(host, class, to, numbers);
            Ok(())
        }
        Err(units) => {
            take_back_first(host, class, units);
            Err(NoMemory)
        }
    }
}
