//! How many units stand in each list of a processor's caches and in hand, counted entry by entry.

ghost use Rattle.std.specs.Prelude.{◌≡◌, ◌==◌, if◌then◌else◌};
ghost use Rattle.bm_journal.specs.UnitCount.{unit_count};

use crate::change::{Change, Hold, Shift, Stack, change_of};
use crate::entry::Entry;
use crate::level::Level;
use crate::units::Units;
use bm_class::Class;

/// The lengths of the seven lists of a class's cache.
#[derive(Clone, Copy, Debug, PartialEq, Eq)]
pub struct Lengths {
    pub free: u64,
    pub extra: u64,
    pub extra_delayed: u64,
    pub delayed: u64,
    pub first: u64,
    pub ready: u64,
    pub second: u64,
}

impl Lengths {
    ghost use Rattle.bm_journal.specs.Counts.{no_lengths};
    ghost use Rattle.bm_journal.specs.Change.{length_of, with_length, shifted};

    /// Seven lists without units.
    pub const NONE: Lengths = Lengths {
        free: 0,
        extra: 0,
        extra_delayed: 0,
        delayed: 0,
        first: 0,
        ready: 0,
        second: 0,
    };

    fn get(self, stack: Stack) -> u64
        ensures { result ≡ length_of stack self }
    {
        match stack {
            Stack::Free => self.free,
            Stack::Extra => self.extra,
            Stack::ExtraDelayed => self.extra_delayed,
            Stack::Delayed => self.delayed,
            Stack::First => self.first,
            Stack::Ready => self.ready,
            Stack::Second => self.second,
        }
    }

    fn with(self, stack: Stack, length: u64) -> Lengths
        ensures { result ≡ with_length stack length self }
    {
        let mut lengths = self;
        match stack {
            Stack::Free => lengths.free = length,
            Stack::Extra => lengths.extra = length,
            Stack::ExtraDelayed => lengths.extra_delayed = length,
            Stack::Delayed => lengths.delayed = length,
            Stack::First => lengths.first = length,
            Stack::Ready => lengths.ready = length,
            Stack::Second => lengths.second = length,
        }
        lengths
    }

    fn after(self, shift: &Shift<'_>) -> Lengths
        ensures { result ≡ shifted shift.now self }
    {
        match shift {
            Shift::Pushed(stack) => self.with(*stack, self.get(*stack).saturating_add(1)),
            Shift::Popped(stack) => self.with(*stack, self.get(*stack).saturating_sub(1)),
            Shift::Came(stack, units) => {
                self.with(*stack, self.get(*stack).saturating_add(unit_count(units)))
            }
            Shift::Emptied(stack) => self.with(*stack, 0),
            Shift::Moved(from, to, units) => {
                let rest = self.with(*from, 0);
                rest.with(*to, rest.get(*to).saturating_add(unit_count(units)))
            }
            Shift::Swept(units) => Lengths {
                second: unit_count(units),
                ..Lengths::NONE
            },
        }
    }
}

/// How many units stand in each of the seven lists of each class, and how many are in hand at each level, as the
/// entries of a log tell it: each entry that moves units takes them from one count and adds them to another. A count
/// stands still at the greatest number of its type, and stops at 0.
#[derive(Clone, Copy, Debug, PartialEq, Eq)]
pub struct Counts {
    classes: [Lengths; 11],
    hands: [u64; 4],
}

impl Counts {
    ghost use Rattle.bm_journal.specs.Counts.{counts_after, hand, hand_of, lengths_of, lists, no_counts};
    ghost use Rattle.bm_journal.specs.Change.{held, shifted};

    /// No unit stands anywhere.
    pub fn new() -> Counts
        ensures { result ≡ no_counts }
    {
        Counts {
            classes: [Lengths::NONE; 11],
            hands: [0; 4],
        }
    }

    /// The lengths of a class's lists.
    pub fn lengths(&self, class: Class) -> Lengths
        ensures { result ≡ lengths_of self.now class }
    {
        self.classes[class.index() as usize]
    }

    /// How many units are in hand at a level.
    pub fn hand(&self, level: Level) -> u64
        ensures { result ≡ hand_of self.now level }
    {
        self.hands[level.number() as usize]
    }

    /// Counts an entry of this level.
    pub fn note(&mut self, level: Level, entry: &Entry)
        ensures { self.new ≡ counts_after level entry.now self.old }
    {
        match change_of(entry) {
            Change::Nothing => {}
            Change::Lists(class, shift) => self.shift(class, &shift),
            Change::Hand(hold) => self.hold(level, &hold),
            Change::Both(class, shift, hold) => {
                self.shift(class, &shift);
                self.hold(level, &hold);
            }
            Change::Sent(class) => self.send(level, class),
        }
    }

    fn shift(&mut self, class: Class, shift: &Shift<'_>)
        ensures { self.new ≡ lists class (shifted shift.now) self.old }
    {
        let index = class.index() as usize;
        self.classes[index] = self.classes[index].after(shift);
    }

    fn hold(&mut self, level: Level, hold: &Hold<'_>)
        ensures { self.new ≡ hand level (held hold.now) self.old }
    {
        let index = level.number() as usize;
        let number = self.hands[index];
        self.hands[index] = match hold {
            Hold::One => number.saturating_add(1),
            Hold::Many(units) => number.saturating_add(unit_count(units)),
            Hold::Gone => number.saturating_sub(1),
        };
    }

    fn send(&mut self, level: Level, class: Class)
        ensures { self.new
            ≡ (if hand_of self.old level == 0
            then lists class (λ x. record x { first = 0 }) self.old
            else hand level (λ n. 0) self.old) }
    {
        if self.hand(level) == 0 {
            self.shift(class, &Shift::Emptied(Stack::First));
        } else {
            self.hands[level.number() as usize] = 0;
        }
    }
}

/// How many units a list names, also where their number alone is kept.
pub fn unit_count(units: &Units) -> u64
    ensures { result ≡ unit_count units.now }
{
    match units {
        Units::Whole(numbers) => numbers.as_slice().len() as u64,
        Units::Counted(number) => *number as u64,
    }
}
