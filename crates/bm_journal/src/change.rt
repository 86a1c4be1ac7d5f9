//! What an entry does to the lengths of a cache's lists and to the units in hand.

ghost use Rattle.std.specs.Prelude.{◌≡◌, ℕ};
ghost use Rattle.bm_journal.specs.declared.counts.Counts.{Counts};
ghost use Rattle.bm_journal.specs.Counts.{counts_after};
ghost use Rattle.bm_journal.specs.Change.{changed};

use crate::entry::Entry;
use crate::units::Units;
use bm_class::Class;

/// One of the seven lists of a class's cache. Each is a list of `struct bpf_mem_cache` in kernel/bpf/memalloc.c.
#[derive(Clone, Copy)]
pub enum Stack {
    /// `free_llist`: units that an allocation may have.
    Free,
    /// `free_llist_extra`: units that were freed while another call was in the cache.
    Extra,
    /// `free_llist_extra_rcu`: the same, freed with delay.
    ExtraDelayed,
    /// `free_by_rcu`: units that wait for a batch.
    Delayed,
    /// `waiting_for_gp`: the batch that waits for a plain grace period.
    First,
    /// `free_by_rcu_ttrace`: units that may be used again here, or go back.
    Ready,
    /// `waiting_for_gp_ttrace`: the batch that waits for a tracing grace period.
    Second,
}

/// What happens to the lists of one class.
#[derive(Clone, Copy)]
pub enum Shift<'a> {
    /// A unit is put on a list.
    Pushed(Stack),
    /// A unit is taken off a list.
    Popped(Stack),
    /// These units come onto a list from elsewhere.
    Came(Stack, &'a Units),
    /// All units of a list go elsewhere.
    Emptied(Stack),
    /// All units of the first list, which are these, come onto the second.
    Moved(Stack, Stack, &'a Units),
    /// All units of the class, which are these, come onto Second.
    Swept(&'a Units),
}

/// What happens to the units in hand at one level.
#[derive(Clone, Copy)]
pub enum Hold<'a> {
    /// One more is in hand.
    One,
    /// These are in hand too.
    Many(&'a Units),
    /// One leaves the hand.
    Gone,
}

/// What an entry does.
#[derive(Clone, Copy)]
pub enum Change<'a> {
    /// No unit moves.
    Nothing,
    /// The lists of a class change.
    Lists(Class, Shift<'a>),
    /// The hand of the entry's level changes.
    Hand(Hold<'a>),
    /// Both change.
    Both(Class, Shift<'a>, Hold<'a>),
    /// A parcel goes out: all in hand, or where that is nothing all of First of this class.
    Sent(Class),
}

/// What an entry does to the lengths and the hand.
pub fn change_of(entry: &Entry) -> Change<'_>
    ensures { (level : ℕ) (counts : Counts) →
        changed level result counts ≡ counts_after level entry.now counts }
{
    match entry {
        Entry::Fill(class, units) => Change::Lists(*class, Shift::Came(Stack::Free, units)),
        Entry::Fetch(_, _, units) => Change::Hand(Hold::Many(units)),
        Entry::Pop(class, _) => Change::Both(*class, Shift::Popped(Stack::Free), Hold::One),
        Entry::Ready(class, _) => Change::Both(*class, Shift::Popped(Stack::Ready), Hold::One),
        Entry::Second(class, _) => Change::Both(*class, Shift::Popped(Stack::Second), Hold::One),
        Entry::Push(class, _) => Change::Both(*class, Shift::Pushed(Stack::Free), Hold::Gone),
        Entry::Delayed(class, _) => Change::Both(*class, Shift::Pushed(Stack::Delayed), Hold::Gone),
        Entry::Put(class, _) => Change::Both(*class, Shift::Pushed(Stack::Extra), Hold::Gone),
        Entry::PutDelayed(class, _) => {
            Change::Both(*class, Shift::Pushed(Stack::ExtraDelayed), Hold::Gone)
        }
        Entry::Given(_, _) => Change::Hand(Hold::Gone),
        Entry::GivenAfter(_, _, _, _) => Change::Hand(Hold::Gone),
        Entry::Free(_, _) => Change::Hand(Hold::One),
        Entry::Delay(_, _) => Change::Hand(Hold::One),
        Entry::TakeExtra(class, units) => {
            Change::Both(*class, Shift::Emptied(Stack::Extra), Hold::Many(units))
        }
        Entry::TakeDelayed(class, units) => {
            Change::Lists(
                *class,
                Shift::Moved(Stack::ExtraDelayed, Stack::Delayed, units),
            )
        }
        Entry::Batch(class, units) => {
            Change::Lists(*class, Shift::Moved(Stack::Delayed, Stack::First, units))
        }
        Entry::BeginSecond(class, units) => {
            Change::Lists(*class, Shift::Moved(Stack::Ready, Stack::Second, units))
        }
        Entry::Send(class, _, _) => Change::Sent(*class),
        Entry::Receive(class, units) => Change::Lists(*class, Shift::Came(Stack::Ready, units)),
        Entry::Return(class, _) => Change::Lists(*class, Shift::Emptied(Stack::Second)),
        Entry::Sweep(class, units) => Change::Lists(*class, Shift::Swept(units)),
        _ => Change::Nothing,
    }
}
