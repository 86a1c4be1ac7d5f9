//! What the caches tell.

ghost use Rattle.std.specs.Prelude.{◌≡◌, ◌<◌, ℕ, Option, List, [], length, true, false, MatchOption};
ghost use Rattle.bm_law.specs.Lists.{stamp_of};
ghost use Rattle.bm_law.specs.State.{seven_lists};
ghost use Rattle.bm_cache.specs.Numbers.{numbers_of};
ghost use Rattle.bm_cache.specs.Shown.{shown};

use crate::caches::give_up_sides;
use crate::{Caches, Counts};
use bm_class::Class;
use bm_journal::{Domain, Level, Recorder, Stack};

impl<R> Caches<R> {
    /// The numbers of a class's cache.
    pub fn counts(&self, class: Class) -> Counts
        ensures { result ≡ numbers_of ((shown self.now).rows class) }
    {
        let row = class.index() as usize;
        let numbers = self.rows.numbers(row);
        Counts {
            active: numbers.active,
            count: numbers.count,
            free: self.rows.len(row, Stack::Free),
            extra: self.rows.len(row, Stack::Extra),
            extra_delayed: self.rows.len(row, Stack::ExtraDelayed),
            delayed: self.rows.len(row, Stack::Delayed),
            first: self.rows.len(row, Stack::First),
            ready: self.rows.len(row, Stack::Ready),
            second: self.rows.len(row, Stack::Second),
        }
    }

    /// Whether deferred work is asked for.
    pub fn raised(&self, class: Class) -> bool
        ensures { result ≡ ((shown self.now).rows class).raised }
    {
        self.rows.numbers(class.index() as usize).raised
    }

    /// The least class for which deferred work is asked for. None exactly where no flag is up.
    pub fn lowest_raised(&self) -> Option<Class>
        ensures { MatchOption result ((k : ℕ) → k < 11 → ((shown self.now).rows k).raised ≡ false)
            (λ c. (((shown self.now).rows c).raised ≡ true)
            × ((k : ℕ) → k < c → ((shown self.now).rows k).raised ≡ false)) }
    {
        for class in Class::all() {
            if self.raised(class) {
                return Some(class);
            }
        }
        None
    }

    /// The processor that the parcels of a class go to: the home of the unit whose free raised its active number last.
    pub fn target(&self, class: Class) -> u8
        ensures { result ≡ ((shown self.now).rows class).target }
    {
        self.rows.numbers(class.index() as usize).target
    }

    /// The stamp of the batch of a domain, 0 before it has one. None exactly where no such batch is in progress.
    pub fn in_progress(&self, class: Class, domain: Domain) -> Option<u32>
        ensures { result ≡ stamp_of domain ((shown self.now).rows class).deferred }
    {
        let numbers = self.rows.numbers(class.index() as usize);
        match domain {
            Domain::Plain => numbers.plain,
            Domain::Tracing => numbers.tracing,
        }
    }

    /// The number of the processor.
    pub fn processor(&self) -> u8
        ensures { result ≡ self.now.processor }
    {
        self.processor
    }

    /// The number of the step that comes next, from 1. It stays at the greatest number of its type.
    pub fn next_step(&self) -> u64
        ensures { result ≡ self.now.step }
    {
        self.step
    }

    /// How many units a level has in hand.
    pub fn hand(&self, level: Level) -> usize
        ensures { result ≡ length ((shown self.now).sides level).hand }
    {
        self.sides[level.number() as usize].len()
    }

    /// The recorder.
    pub fn recorder(&self) -> &R
        ensures { result.now ≡ self.now.recorder }
    {
        &self.recorder
    }

    /// The recorder, at the ordinary end: all lists and hands are empty.
    pub fn finish(self) -> R
        requires lists { (c : ℕ) → seven_lists ((shown self).rows c) ≡ [] }
        requires hands { (l : ℕ) → ((shown self).sides l).hand ≡ [] }
        ensures { result ≡ self.recorder }
    {
        self.into_recorder()
    }

    /// The recorder, whatever the caches hold; that ends.
    pub(crate) fn into_recorder(self) -> R
        ensures { result ≡ self.recorder }
    {
        let Caches {
            alloc: _,
            processor: _,
            rows,
            sides,
            step: _,
            first_lent: _,
            recorder,
        } = self;
        rows.give_up();
        give_up_sides(sides);
        recorder
    }
}

impl<R: Recorder + Drop> Caches<R> {
    /// Ends the caches after a want of memory, with all that they hold. Nothing of it is used again.
    pub fn give_up(self) {
        let Caches {
            alloc: _,
            processor: _,
            rows,
            sides,
            step: _,
            first_lent: _,
            recorder: _,
        } = self;
        rows.give_up();
        give_up_sides(sides);
    }
}
