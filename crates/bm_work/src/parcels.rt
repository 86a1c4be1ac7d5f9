//! Parcels that come to this processor's inboxes.

ghost use Rattle.bm_law_order.specs.Act.{Act};
ghost use Rattle.bm_law_order.specs.Act as act;
ghost use Rattle.bm_work.specs.Owed.{Whatever};
ghost use Rattle.std.specs.Prelude.{◌≡◌, ◌≢◌, ◌≤◌, ◌+◌, ◌++◌, ◌<◌, ℕ, List, [], false, map, length, nat_lt, ◌∷◌};
ghost use Rattle.std.specs.List.{All};
ghost use Rattle.bm_journal.specs.declared.entry.Entry.TheVariants as entry;
ghost use Rattle.bm_journal.specs.declared.units.Units.TheVariants.{Whole};
ghost use Rattle.bm_law.specs.Stands.{stands, times};
ghost use Rattle.bm_law.specs.State.{seen};
ghost use Rattle.bm_cache.specs.Each.{Sits};
ghost use Rattle.bm_cache.specs.Listed.{TookUnits};
ghost use Rattle.bm_cache.specs.Shown.{shown};
ghost use Rattle.bm_cache.specs.Tests.{Reusable};
ghost use Rattle.bm_cache.specs.Tokens.{Token, number_of};
ghost use Rattle.bm_law_work.specs.Parts.{Say};
ghost use Rattle.bm_law_work.specs.WorkPhrases.{Receive};
ghost use Rattle.bm_post.specs.Rights.{numbers};
ghost use Rattle.bm_work.specs.Periods.{GetsParcel};
ghost use Rattle.bm_work.specs.Works.{Handled, Posted, Stands, Works};

use crate::Desk;
use crate::polls::pause;
use bm_cache::Host;
use bm_class::Class;
use bm_journal::Recorder;
use bm_page::Unit;
use bm_post::Post;
use std::alloc::Global;

/// Takes the oldest parcel out of the inbox of a class; no units where the inbox is empty.
fn get_parcel<R: Recorder, H: Desk<R>>(alloc: Global, host: &mut H, class: Class) -> Vec<Unit>
    requires stands { Stands R.log R.counts Whatever H.Host.tests H.Host.face H.Host.held host.old }
    ensures posted { Posted H.Host.face H.Host.pending H.stays H.Host.held
        (λ h. H.W.Knows.known (H.shared h)) H.Host.tests [] host.old host.new }
    ensures sit { All (Sits class) result.items }
    ensures fresh { (n : ℕ)
        → stands n (seen number_of (shown (H.Host.held host.new)))
        + times n (map number_of result.items)
        ≤ 1 }
    ensures reusable { All (Reusable (H.Host.tests host.new)) result.items }
    ensures stands { Stands R.log R.counts Whatever H.Host.tests H.Host.face H.Host.held host.new }
    ensures owes { (done : List Act) → H.asked_owes done host.old
        → H.asked_owes (done ++ act.Receives class (map number_of result.items) ∷ []) host.new }
{
    match host.world().receive(class) {
        Some(units) => units,
        None => Vec::new(alloc),
    }
}

/// The units of a parcel come on Ready, or none do, and that is recorded.
fn note_parcel<R: Recorder, H: Desk<R>>(host: &mut H, class: Class, units: Vec<Unit>)
    requires stands { Stands R.log R.counts Whatever H.Host.tests H.Host.face H.Host.held host.old }
    requires sit { All (Sits class) units.items }
    requires fresh { (n : ℕ)
        → stands n (seen number_of (shown (H.Host.held host.old)))
        + times n (map number_of units.items)
        ≤ 1 }
    requires reusable { All (Reusable (H.Host.tests host.old)) units.items }
    ensures step { TookUnits R.log (H.Host.face host.old).level (entry.Receive class)
        (map number_of units.items) units.items (H.Host.held host.old) (H.Host.held host.new) }
    ensures handled { Handled H.Host.face H.Host.pending H.stays H.shared H.Host.tests host.old
        host.new }
    ensures deferred { ((shown (H.Host.held host.new)).rows class).deferred
        ≡ record ((shown (H.Host.held host.old)).rows class).deferred
        { ready = units.items ++ ((shown (H.Host.held host.old)).rows class).deferred.ready } }
    ensures kept { (k : ℕ) → k ≢ class
        → ((shown (H.Host.held host.new)).rows k).deferred
        ≡ ((shown (H.Host.held host.old)).rows k).deferred }
    ensures side { (shown (H.Host.held host.new)).sides (H.Host.face host.old).level
        ≡ (shown (H.Host.held host.old)).sides (H.Host.face host.old).level }
    ensures stands { Stands R.log R.counts Whatever H.Host.tests H.Host.face H.Host.held host.new }
    ensures sound { H.asked_owes (act.Receives class (map number_of units.items) ∷ []) host.old
        → H.Host.sound host.new }
{
    let level = host.level();
    host.caches().take_parcel(level, class, units);
}

/// A point, and the oldest parcel of a class comes on Ready; whether there was one.
fn receive_one<R: Recorder, H: Desk<R>>(alloc: Global, host: &mut H, class: Class) -> bool
    requires stands { Stands R.log R.counts H.Host.sound H.Host.tests H.Host.face H.Host.held
        host.old }
    ensures works { Works R.log H.Host.face H.Host.pending H.stays H.Host.held
        (λ h. H.W.Knows.known (H.shared h)) 0 0 (λ l. Say l (GetsParcel class result)) host.old
        host.new }
    ensures deferred { (units : List Token)
        × (((shown (H.Host.held host.new)).rows class).deferred
        ≡ record ((shown (H.Host.held host.old)).rows class).deferred
        { ready = units ++ ((shown (H.Host.held host.old)).rows class).deferred.ready }) }
    ensures kept { (k : ℕ) → k ≢ class
        → ((shown (H.Host.held host.new)).rows k).deferred
        ≡ ((shown (H.Host.held host.old)).rows k).deferred }
    ensures side { (shown (H.Host.held host.new)).sides (H.Host.face host.old).level
        ≡ (shown (H.Host.held host.old)).sides (H.Host.face host.old).level }
    ensures stands { Stands R.log R.counts H.Host.sound H.Host.tests H.Host.face H.Host.held
        host.new }
{
    pause(host);
    let units = get_parcel(alloc, host, class);
    let some = !units.is_empty();
    note_parcel(host, class, units);
    some
}

/// Receives parcels until there is none, at most so many.
pub fn receive_up_to<R: Recorder, H: Desk<R>>(alloc: Global, host: &mut H, class: Class, left: u32)
    requires stands { Stands R.log R.counts H.Host.sound H.Host.tests H.Host.face H.Host.held
        host.old }
    ensures works { Works R.log H.Host.face H.Host.pending H.stays H.Host.held
        (λ h. H.W.Knows.known (H.shared h)) 0 0 (λ l. Receive l class left) host.old host.new }
    ensures deferred { (units : List Token)
        × (((shown (H.Host.held host.new)).rows class).deferred
        ≡ record ((shown (H.Host.held host.old)).rows class).deferred
        { ready = units ++ ((shown (H.Host.held host.old)).rows class).deferred.ready }) }
    ensures kept { (k : ℕ) → k ≢ class
        → ((shown (H.Host.held host.new)).rows k).deferred
        ≡ ((shown (H.Host.held host.old)).rows k).deferred }
    ensures side { (shown (H.Host.held host.new)).sides (H.Host.face host.old).level
        ≡ (shown (H.Host.held host.old)).sides (H.Host.face host.old).level }
    ensures stands { Stands R.log R.counts H.Host.sound H.Host.tests H.Host.face H.Host.held
        host.new }
{
    if left == 0 {
        return;
    }
    if receive_one(alloc, host, class) {
        receive_up_to(alloc, host, class, left - 1);
    }
}
