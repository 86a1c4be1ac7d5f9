//! Loans of units that leave the caches, and how they end.

ghost use Rattle.bm_law_order.specs.Act.{Act};
ghost use Rattle.bm_law_order.specs.Act as act;
ghost use Rattle.bm_work.specs.Owed.{Whatever};
ghost use Rattle.std.specs.Prelude.{◌≡◌, ◌+◌, ◌≤◌, ◌<◌, ℕ, [], false, true, map, length, vec_capacity, vec_len, IfOk, IfErr, OnOk, OnErr, ◌∷◌, ◌++◌, List};
ghost use Rattle.std.specs.List.{All};
ghost use Rattle.bm_journal.specs.declared.entry.Entry.TheVariants as entry;
ghost use Rattle.bm_journal.specs.declared.units.Units.TheVariants.{Whole};
ghost use Rattle.bm_law.specs.Effect.{effect};
ghost use Rattle.bm_law.specs.Stands.{Known};
ghost use Rattle.bm_law.specs.State.{State};
ghost use Rattle.bm_law.specs.Waiting.{is_waiting};
ghost use Rattle.bm_post.specs.Calls.{IsOf};
ghost use Rattle.bm_page.specs.declared.units.Seal.{Seal as SealValue};
ghost use Rattle.bm_post.specs.Rights.{Holds, IsSettled, MayLeave, WaitedBy, numbers};
ghost use Rattle.bm_cache.specs.Lent.{FirstIsLent, HandIsLent, Lends, PutBack, Recorded, SendIsLent, with_first, with_hand};
ghost use Rattle.bm_cache.specs.Placed.{Placed};
ghost use Rattle.bm_cache.specs.Shown.{shown};
ghost use Rattle.bm_cache.specs.Tokens.{Token, number_of};
ghost use Rattle.bm_work.specs.Rested.{MayGo};
ghost use Rattle.bm_work.specs.Works.{Handled, Posted};

use crate::Desk;
use bm_cache::Host;
use bm_class::Class;
use bm_journal::Recorder;
use bm_page::Unit;
use bm_post::Post;
use bm_word::NoMemory;

/// The numbers of units, into a list that is empty and has room for them.
pub fn write_numbers(numbers: &mut Vec<u16>, units: &Vec<Unit>)
    requires empty { vec_len numbers.old ≡ 0 }
    requires room { length units.now.items ≤ vec_capacity numbers.old }
    ensures items { numbers.new.items ≡ map number_of units.now.items }
{
    for unit in units {
        if let Err(_refused) = numbers.push(unit.number()) {
            unreachable!();
        }
    }
}

/// Takes out all units in hand, to send them. Want of memory is the only refusal.
pub fn lend_hand<R: Recorder, H: Desk<R>>(host: &mut H, class: Class) -> Result<Vec<Unit>, NoMemory>
    requires placed { Placed R.log R.counts (H.Host.held host.old) }
    requires asked { H.Host.asked host.old }
    ensures units { IfOk result
        (λ us. us.items
        ≡ ((shown (H.Host.held host.old)).sides (H.Host.face host.old).level).hand) }
    ensures lent { OnOk result
        (Lends R.log R.counts
        (with_hand (H.Host.face host.old).level [] (shown (H.Host.held host.old)))
        (H.Host.held host.old) (H.Host.held host.new)) }
    ensures from { OnOk result ((H.Host.held host.new).first_lent ≡ false) }
    ensures refused { OnErr result ((H.Host.held host.new) ≡ (H.Host.held host.old)) }
    ensures known { Known (H.Host.face host.old).level (entry.Send class 0 (Whole [])) }
    ensures handled { Handled H.Host.face H.Host.pending H.stays H.shared H.Host.tests host.old
        host.new }
    ensures asked { H.Host.asked host.new }
{
    let level = host.level();
    host.caches().hand_out(level, class)
}

/// Takes out all units of First, to send them. Want of memory is the only refusal.
pub fn lend_first<R: Recorder, H: Desk<R>>(
    host: &mut H,
    class: Class,
) -> Result<Vec<Unit>, NoMemory>
    requires placed { Placed R.log R.counts (H.Host.held host.old) }
    requires asked { H.Host.asked host.old }
    ensures units { IfOk result
        (λ us. us.items ≡ ((shown (H.Host.held host.old)).rows class).deferred.first) }
    ensures lent { OnOk result
        (Lends R.log R.counts (with_first class [] (shown (H.Host.held host.old)))
        (H.Host.held host.old) (H.Host.held host.new)) }
    ensures from { OnOk result ((H.Host.held host.new).first_lent ≡ true) }
    ensures refused { OnErr result ((H.Host.held host.new) ≡ (H.Host.held host.old)) }
    ensures known { Known (H.Host.face host.old).level (entry.Send class 0 (Whole [])) }
    ensures handled { Handled H.Host.face H.Host.pending H.stays H.shared H.Host.tests host.old
        host.new }
    ensures asked { H.Host.asked host.new }
{
    let level = host.level();
    host.caches().first_out(level, class)
}

/// Sends units to a processor as one parcel. Want of memory is the only refusal, and hands them back.
pub fn give_parcel<R: Recorder, H: Desk<R>>(
    host: &mut H,
    to: u8,
    class: Class,
    units: Vec<Unit>,
) -> Result<(), Vec<Unit>>
    requires to { to < (H.W.Knows.known (H.shared host.old)).grace.processors }
    requires some { 0 < length units.items }
    requires class { All (IsOf class) units.items }
    requires mine { Holds (H.W.Knows.rights (H.shared host.old)) units.items }
    requires fit { All (MayLeave (H.W.Knows.rights (H.shared host.old))) units.items }
    ensures posted { Posted H.Host.face H.Host.pending H.stays H.Host.held
        (λ h. H.W.Knows.known (H.shared h)) H.Host.tests (numbers units.items) host.old host.new }
    ensures refused { IfErr result (λ back. back.items ≡ units.items) }
    ensures drains { OnOk result (All (IsSettled (H.W.Knows.rights (H.shared host.old))) units.items
        → (done : List Act)
        → H.asked_owes done host.old
        → H.asked_owes (done ++ act.Drains class to (numbers units.items) ∷ []) host.new) }
    ensures releases { OnOk result ((seal : SealValue)
        → All (WaitedBy (H.W.Knows.rights (H.shared host.old)) seal) units.items → (done : List Act)
        → H.asked_owes done host.old
        → H.asked_owes
        (done ++ act.Releases class to (numbers units.items) seal.stamp seal.seen ∷ [])
        host.new) }
{
    host.world().send(to, class, units)
}

/// Ends the loan of units that were sent.
pub fn end_send<R: Recorder, H: Desk<R>>(host: &mut H, class: Class, to: u8, numbers: Vec<u16>)
    requires lent { (s : State Token)
        × SendIsLent R.log R.counts (H.Host.face host.old).level class numbers.items s
        (H.Host.held host.old) }
    requires quiet { is_waiting
        ((shown (H.Host.held host.old)).sides (H.Host.face host.old).level).mark
        ≡ false }
    requires target { to ≡ ((shown (H.Host.held host.old)).rows class).target }
    ensures lists { (s : State Token)
        → SendIsLent R.log R.counts (H.Host.face host.old).level class numbers.items s
        (H.Host.held host.old)
        → (shown (H.Host.held host.new))
        ≡ effect (H.Host.face host.old).level (entry.Send class to (Whole numbers.items)) [] s }
    ensures step { Recorded R.log (H.Host.face host.old).level
        (entry.Send class to (Whole numbers.items)) (H.Host.held host.old) (H.Host.held host.new) }
    ensures placed { Placed R.log R.counts (H.Host.held host.new) }
    ensures handled { Handled H.Host.face H.Host.pending H.stays H.shared H.Host.tests host.old
        host.new }
    ensures drained { H.asked_owes (act.Drains class to numbers.items ∷ []) host.old
        → H.Host.sound host.new }
    ensures released { (stamp seen : ℕ)
        → MayGo R.log (H.Host.face host.old).processors (H.Host.face host.old).level class stamp
        seen (H.Host.held host.old)
        → H.asked_owes (act.Releases class to numbers.items stamp seen ∷ []) host.old
        → H.Host.sound host.new }
{
    let level = host.level();
    host.caches().sent(level, class, to, numbers);
}

/// Puts units back in hand.
pub fn take_back_hand<R: Recorder, H: Desk<R>>(host: &mut H, class: Class, units: Vec<Unit>)
    requires lent { (s : State Token)
        × HandIsLent R.log R.counts (H.Host.face host.old).level units.items s
        (H.Host.held host.old) }
    ensures back { PutBack
        (with_hand (H.Host.face host.old).level units.items (shown (H.Host.held host.old)))
        (H.Host.held host.old) (H.Host.held host.new) }
    ensures placed { Placed R.log R.counts (H.Host.held host.new) }
{
    let level = host.level();
    host.caches().hand_in(level, class, units);
}

/// Puts units back in First.
pub fn take_back_first<R: Recorder, H: Desk<R>>(host: &mut H, class: Class, units: Vec<Unit>)
    requires lent { (s : State Token)
        × FirstIsLent R.log R.counts class units.items s (H.Host.held host.old) }
    ensures back { PutBack (with_first class units.items (shown (H.Host.held host.old)))
        (H.Host.held host.old) (H.Host.held host.new) }
    ensures placed { Placed R.log R.counts (H.Host.held host.new) }
{
    let level = host.level();
    host.caches().first_in(level, class, units);
}

/// The processor that the parcels of a class go to.
pub fn target_of<R: Recorder, H: Desk<R>>(host: &mut H, class: Class) -> u8
    requires asked { H.Host.asked host.old }
    ensures target { result ≡ ((shown (H.Host.held host.old)).rows class).target }
    ensures same { (H.Host.held host.new) ≡ (H.Host.held host.old) }
    ensures handled { Handled H.Host.face H.Host.pending H.stays H.shared H.Host.tests host.old
        host.new }
    ensures asked { H.Host.asked host.new }
{
    host.caches().target(class)
}
