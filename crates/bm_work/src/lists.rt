//! What deferred work does to the caches alone, on a desk.

ghost use Rattle.std.specs.Prelude.{◌≡◌, ◌≢◌, ◌+◌, ◌-◌, ◌++◌, ◌∷◌, ◌<◌, ℕ, List, [], Option, None, Some, length, drop, false, true, map};
ghost use Rattle.std.specs.List.{All};
ghost use Rattle.bm_journal.specs.declared.entry.Entry.TheVariants as entry;
ghost use Rattle.bm_law.specs.declared.mark.Mark.TheVariants as mark;
ghost use Rattle.bm_law.specs.State.{seen, idle_side};
ghost use Rattle.bm_cache.specs.Shown.{shown};
ghost use Rattle.bm_cache.specs.Tests.{Same};
ghost use Rattle.bm_cache.specs.Tokens.{Token, number_of};
ghost use Rattle.bm_law_work.specs.Parts.{Say, Then, When};
ghost use Rattle.bm_law_work.specs.WorkPhrases.{IsBatch, IsGathering, IsLeave, IsOne, IsSecond, IsTakeExtra, Unloads, may_batch, may_begin};
ghost use Rattle.bm_work_lists.specs.Fit.{Fit};
ghost use Rattle.bm_work_lists.specs.FromLists.{FromLists, less};
ghost use Rattle.bm_work.specs.Periods.{AddsFirst};
ghost use Rattle.bm_work.specs.Works.{Stands, Works};

use crate::Desk;
use bm_cache::Host;
use bm_class::Class;
use bm_journal::Recorder;
use bm_work_lists::{
    add_unit, begin_second, begin_work, drain_to_hand, gather_delayed, read_count,
    refill_from_lists,
};

/// The work of a class begins: its flag is lowered.
pub fn lower_flag<R: Recorder, H: Desk<R>>(host: &mut H, class: Class)
    requires stands { Stands R.log R.counts H.Host.sound H.Host.tests H.Host.face H.Host.held
        host.old }
    ensures works { Works R.log H.Host.face H.Host.pending H.stays H.Host.held
        (λ h. H.W.Knows.known (H.shared h)) 0 0 (λ l. Say l (IsOne (entry.Work class))) host.old
        host.new }
    ensures lowered { ((shown (H.Host.held host.new)).rows class).raised ≡ false }
    ensures deferred { (k : ℕ)
        → ((shown (H.Host.held host.new)).rows k).deferred
        ≡ ((shown (H.Host.held host.old)).rows k).deferred }
    ensures side { (shown (H.Host.held host.new)).sides (H.Host.face host.old).level
        ≡ (shown (H.Host.held host.old)).sides (H.Host.face host.old).level }
    ensures stands { Stands R.log R.counts H.Host.sound H.Host.tests H.Host.face H.Host.held
        host.new }
{
    begin_work(host, class);
}

/// A point, and the free count is read.
pub fn read_free<R: Recorder, H: Desk<R>>(host: &mut H, class: Class) -> u32
    requires stands { Stands R.log R.counts H.Host.sound H.Host.tests H.Host.face H.Host.held
        host.old }
    ensures works { Works R.log H.Host.face H.Host.pending H.stays H.Host.held
        (λ h. H.W.Knows.known (H.shared h)) 0 0 (λ l. Say l (IsOne (entry.Read class result)))
        host.old host.new }
    ensures deferred { (k : ℕ)
        → ((shown (H.Host.held host.new)).rows k).deferred
        ≡ ((shown (H.Host.held host.old)).rows k).deferred }
    ensures side { (shown (H.Host.held host.new)).sides (H.Host.face host.old).level
        ≡ (shown (H.Host.held host.old)).sides (H.Host.face host.old).level }
    ensures stands { Stands R.log R.counts H.Host.sound H.Host.tests H.Host.face H.Host.held
        host.new }
{
    read_count(host, class)
}

/// The first unit in hand is added to Free, and the others stay in hand.
pub fn add_one<R: Recorder, H: Desk<R>>(host: &mut H, class: Class)
    requires stands { Stands R.log R.counts H.Host.sound H.Host.tests H.Host.face H.Host.held
        host.old }
    requires idle { ((shown (H.Host.held host.old)).rows class).active ≡ 0 }
    requires quiet { ((shown (H.Host.held host.old)).sides (H.Host.face host.old).level).mark
        ≡ mark.Quiet }
    requires hand { (u : Token) × (rest : List Token)
        × (((shown (H.Host.held host.old)).sides (H.Host.face host.old).level).hand ≡ u ∷ rest)
        × Fit (H.Host.tests host.old) class u }
    ensures works { Works R.log H.Host.face H.Host.pending H.stays H.Host.held
        (λ h. H.W.Knows.known (H.shared h)) 0 0
        (λ l. Say l
        (AddsFirst class
        (map number_of
        ((shown (H.Host.held host.old)).sides (H.Host.face host.old).level).hand)))
        host.old host.new }
    ensures deferred { (k : ℕ)
        → ((shown (H.Host.held host.new)).rows k).deferred
        ≡ ((shown (H.Host.held host.old)).rows k).deferred }
    ensures side { (shown (H.Host.held host.new)).sides (H.Host.face host.old).level
        ≡ record {
          hand =
              drop 1 ((shown (H.Host.held host.old)).sides (H.Host.face host.old).level).hand;
          mark = mark.Quiet;
        } }
    ensures lasts { All (Same (H.Host.tests host.old) (H.Host.tests host.new))
        (drop 1 ((shown (H.Host.held host.old)).sides (H.Host.face host.old).level).hand) }
    ensures stands { Stands R.log R.counts H.Host.sound H.Host.tests H.Host.face H.Host.held
        host.new }
{
    add_unit(host, class);
}

/// So many units are moved to Free, from the top of Ready and then of Second; how many are left to bring.
pub fn refill<R: Recorder, H: Desk<R>>(host: &mut H, class: Class, want: u32) -> u32
    requires stands { Stands R.log R.counts H.Host.sound H.Host.tests H.Host.face H.Host.held
        host.old }
    requires idle { ((shown (H.Host.held host.old)).rows class).active ≡ 0 }
    requires empty { (shown (H.Host.held host.old)).sides (H.Host.face host.old).level ≡ idle_side }
    ensures works { Works R.log H.Host.face H.Host.pending H.stays H.Host.held
        (λ h. H.W.Knows.known (H.shared h)) 0 0 (λ l. FromLists l class want result) host.old
        host.new }
    ensures answer { result
        ≡ want
        - (length ((shown (H.Host.held host.old)).rows class).deferred.ready
        + length ((shown (H.Host.held host.old)).rows class).deferred.second) }
    ensures rest { ((shown (H.Host.held host.new)).rows class).deferred
        ≡ less want ((shown (H.Host.held host.old)).rows class).deferred }
    ensures kept { (k : ℕ) → k ≢ class
        → ((shown (H.Host.held host.new)).rows k).deferred
        ≡ ((shown (H.Host.held host.old)).rows k).deferred }
    ensures side { (shown (H.Host.held host.new)).sides (H.Host.face host.old).level ≡ idle_side }
    ensures stands { Stands R.log R.counts H.Host.sound H.Host.tests H.Host.face H.Host.held
        host.new }
{
    refill_from_lists(host, class, want)
}

/// Free is taken down to the middle, and then all of Extra, into the hand.
pub fn unload_to_hand<R: Recorder, H: Desk<R>>(host: &mut H, class: Class, middle: u32)
    requires stands { Stands R.log R.counts H.Host.sound H.Host.tests H.Host.face H.Host.held
        host.old }
    requires idle { ((shown (H.Host.held host.old)).rows class).active ≡ 0 }
    requires empty { (shown (H.Host.held host.old)).sides (H.Host.face host.old).level ≡ idle_side }
    ensures works { Works R.log H.Host.face H.Host.pending H.stays H.Host.held
        (λ h. H.W.Knows.known (H.shared h)) 0 0
        (λ l. Then (Say l (Unloads class middle)) (Say l (IsTakeExtra class))) host.old host.new }
    ensures deferred { (k : ℕ)
        → ((shown (H.Host.held host.new)).rows k).deferred
        ≡ ((shown (H.Host.held host.old)).rows k).deferred }
    ensures side { ((shown (H.Host.held host.new)).sides (H.Host.face host.old).level).mark
        ≡ mark.Quiet }
    ensures fit { All (Fit (H.Host.tests host.new) class)
        ((shown (H.Host.held host.new)).sides (H.Host.face host.old).level).hand }
    ensures stands { Stands R.log R.counts H.Host.sound H.Host.tests H.Host.face H.Host.held
        host.new }
{
    drain_to_hand(host, class, middle);
}

/// What was freed with delay is gathered, and becomes the plain batch, if it holds a unit and none is in progress; whether it
/// did.
pub fn gather<R: Recorder, H: Desk<R>>(host: &mut H, class: Class) -> bool
    requires stands { Stands R.log R.counts H.Host.sound H.Host.tests H.Host.face H.Host.held
        host.old }
    requires idle { ((shown (H.Host.held host.old)).rows class).active ≡ 0 }
    requires quiet { ((shown (H.Host.held host.old)).sides (H.Host.face host.old).level).mark
        ≡ mark.Quiet }
    ensures works { Works R.log H.Host.face H.Host.pending H.stays H.Host.held
        (λ h. H.W.Knows.known (H.shared h)) 0 0
        (λ l. Then (Say l (IsGathering class))
        (Then (When (may_batch class) (Say l (IsBatch class))) (Say l (IsLeave class))))
        host.old host.new }
    ensures begun { result ≡ true
        → (units : List Token)
        × (((shown (H.Host.held host.new)).rows class).deferred
        ≡ record ((shown (H.Host.held host.old)).rows class).deferred {
          first = units ++ ((shown (H.Host.held host.old)).rows class).deferred.first;
          plain = Some 0;
        })
        × (((shown (H.Host.held host.old)).rows class).deferred.plain ≡ None)
        × (0 < length units) }
    ensures waits { result ≡ false
        → ((shown (H.Host.held host.new)).rows class).deferred
        ≡ ((shown (H.Host.held host.old)).rows class).deferred }
    ensures kept { (k : ℕ) → k ≢ class
        → ((shown (H.Host.held host.new)).rows k).deferred
        ≡ ((shown (H.Host.held host.old)).rows k).deferred }
    ensures side { (shown (H.Host.held host.new)).sides (H.Host.face host.old).level
        ≡ (shown (H.Host.held host.old)).sides (H.Host.face host.old).level }
    ensures stands { Stands R.log R.counts H.Host.sound H.Host.tests H.Host.face H.Host.held
        host.new }
{
    gather_delayed(host, class)
}

/// All of Ready becomes the tracing batch, if it holds a unit and none is in progress; whether it did.
pub fn begin_batch<R: Recorder, H: Desk<R>>(host: &mut H, class: Class) -> bool
    requires stands { Stands R.log R.counts H.Host.sound H.Host.tests H.Host.face H.Host.held
        host.old }
    ensures works { Works R.log H.Host.face H.Host.pending H.stays H.Host.held
        (λ h. H.W.Knows.known (H.shared h)) 0 0
        (λ l. When (may_begin class) (Say l (IsSecond class))) host.old host.new }
    ensures answer { result ≡ may_begin class (seen number_of (shown (H.Host.held host.old))) }
    ensures some { result ≡ true
        → (((shown (H.Host.held host.new)).rows class).deferred
        ≡ record ((shown (H.Host.held host.old)).rows class).deferred {
          ready = [];
          second =
              ((shown (H.Host.held host.old)).rows class).deferred.ready
              ++ ((shown (H.Host.held host.old)).rows class).deferred.second;
          tracing = Some 0;
        }) }
    ensures none { result ≡ false
        → ((shown (H.Host.held host.new)).rows class).deferred
        ≡ ((shown (H.Host.held host.old)).rows class).deferred }
    ensures kept { (k : ℕ) → k ≢ class
        → ((shown (H.Host.held host.new)).rows k).deferred
        ≡ ((shown (H.Host.held host.old)).rows k).deferred }
    ensures side { (shown (H.Host.held host.new)).sides (H.Host.face host.old).level
        ≡ (shown (H.Host.held host.old)).sides (H.Host.face host.old).level }
    ensures stands { Stands R.log R.counts H.Host.sound H.Host.tests H.Host.face H.Host.held
        host.new }
{
    begin_second(host, class)
}
