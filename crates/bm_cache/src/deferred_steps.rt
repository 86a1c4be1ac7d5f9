//! Steps of deferred work.

ghost use Rattle.std.specs.Prelude.{◌≡◌, ◌<◌, ◌∷◌, [], List, None, map, length, true, false};
ghost use Rattle.bm_law.specs.Waiting.{is_waiting};
ghost use Rattle.bm_cache.specs.Tokens.{Token, number_of};
ghost use Rattle.bm_cache.specs.Listed.{TookList};
ghost use Rattle.bm_cache.specs.Shown.{shown, Took};
ghost use Rattle.bm_cache.specs.Placed.{Placed};

use crate::Caches;
use bm_class::Class;
use bm_journal::{Entry, Level, Recorder, Stack};
use bm_law::Mark;

impl<R: Recorder> Caches<R> {
    /// Reads the free count.
    pub fn read(&mut self, level: Level, class: Class) -> u32
        requires { Placed R.log R.counts self.old }
        ensures answer { result ≡ ((shown self.old).rows class).count }
        ensures step { Took R.log level (Entry.Read class result) [] self.old self.new }
        ensures placed { Placed R.log R.counts self.new }
    {
        let row = class.index() as usize;
        let _level = level.number();
        let count = self.rows.numbers(row).count;
        self.step = self.step.saturating_add(1);
        self.recorder.put(level, Entry::Read(class, count));
        count
    }

    /// Takes the top of Ready in hand. False, with nothing recorded, exactly where Ready is empty.
    pub fn take_ready(&mut self, level: Level, class: Class) -> bool
        requires placed { Placed R.log R.counts self.old }
        requires quiet { is_waiting ((shown self.old).sides level).mark ≡ false }
        ensures some { result ≡ true
            → (u : Token) × (rest : List Token)
            × (((shown self.old).rows class).deferred.ready ≡ u ∷ rest)
            × Took R.log level (Entry.Ready class u.number) [] self.old self.new }
        ensures none { result ≡ false
            → (((shown self.old).rows class).deferred.ready ≡ []) × (self.new ≡ self.old) }
        ensures placed { Placed R.log R.counts self.new }
    {
        let row = class.index() as usize;
        let side = level.number() as usize;
        if self.rows.len(row, Stack::Ready) == 0 {
            return false;
        }
        match self.rows.pop(row, Stack::Ready) {
            Some(unit) => {
                let number = unit.number();
                self.sides[side].take_in(unit, Mark::Quiet);
                self.step = self.step.saturating_add(1);
                self.recorder.put(level, Entry::Ready(class, number));
                true
            }
            None => unreachable!(),
        }
    }

    /// Takes the top of Second in hand. False, with nothing recorded, exactly where Second is empty.
    pub fn take_second(&mut self, level: Level, class: Class) -> bool
        requires placed { Placed R.log R.counts self.old }
        requires quiet { is_waiting ((shown self.old).sides level).mark ≡ false }
        ensures some { result ≡ true
            → (u : Token) × (rest : List Token)
            × (((shown self.old).rows class).deferred.second ≡ u ∷ rest)
            × Took R.log level (Entry.Second class u.number) [] self.old self.new }
        ensures none { result ≡ false
            → (((shown self.old).rows class).deferred.second ≡ []) × (self.new ≡ self.old) }
        ensures placed { Placed R.log R.counts self.new }
    {
        let row = class.index() as usize;
        let side = level.number() as usize;
        if self.rows.len(row, Stack::Second) == 0 {
            return false;
        }
        match self.rows.pop(row, Stack::Second) {
            Some(unit) => {
                let number = unit.number();
                self.sides[side].take_in(unit, Mark::Quiet);
                self.step = self.step.saturating_add(1);
                self.recorder.put(level, Entry::Second(class, number));
                true
            }
            None => unreachable!(),
        }
    }

    /// Takes all of Extra in hand, and answers how many units that are.
    pub fn take_extra(&mut self, level: Level, class: Class) -> usize
        requires placed { Placed R.log R.counts self.old }
        requires quiet { is_waiting ((shown self.old).sides level).mark ≡ false }
        ensures answer { result ≡ length (((shown self.old).rows class).extra) }
        ensures step { TookList R.log level (Entry.TakeExtra class)
            (map number_of (((shown self.old).rows class).extra)) self.old self.new }
        ensures placed { Placed R.log R.counts self.new }
    {
        let row = class.index() as usize;
        let side = level.number() as usize;
        let moved = self.rows.len(row, Stack::Extra) as usize;
        let units = self.rows.names(self.alloc, row, Stack::Extra);
        self.sides[side].take_all(&mut self.rows, row, Stack::Extra);
        self.step = self.step.saturating_add(1);
        self.recorder.put(level, Entry::TakeExtra(class, units));
        moved
    }

    /// Moves all of ExtraDelayed onto Delayed one by one, and answers how many units that are.
    pub fn take_extra_delayed(&mut self, level: Level, class: Class) -> usize
        requires placed { Placed R.log R.counts self.old }
        ensures answer { result ≡ length (((shown self.old).rows class).extra_delayed) }
        ensures step { TookList R.log level (Entry.TakeDelayed class)
            (map number_of (((shown self.old).rows class).extra_delayed)) self.old self.new }
        ensures placed { Placed R.log R.counts self.new }
    {
        let row = class.index() as usize;
        let _level = level.number();
        let moved = self.rows.len(row, Stack::ExtraDelayed) as usize;
        let units = self.rows.names(self.alloc, row, Stack::ExtraDelayed);
        self.rows.pour(row, Stack::ExtraDelayed, Stack::Delayed);
        self.step = self.step.saturating_add(1);
        self.recorder.put(level, Entry::TakeDelayed(class, units));
        moved
    }

    /// Makes all of Delayed the plain batch, and answers how many units that are.
    pub fn take_batch(&mut self, level: Level, class: Class) -> usize
        requires placed { Placed R.log R.counts self.old }
        requires some { 0 < length ((shown self.old).rows class).delayed }
        requires none { ((shown self.old).rows class).deferred.plain ≡ None }
        ensures answer { result ≡ length (((shown self.old).rows class).delayed) }
        ensures step { TookList R.log level (Entry.Batch class)
            (map number_of (((shown self.old).rows class).delayed)) self.old self.new }
        ensures placed { Placed R.log R.counts self.new }
    {
        let row = class.index() as usize;
        let _level = level.number();
        let moved = self.rows.len(row, Stack::Delayed) as usize;
        let units = self.rows.names(self.alloc, row, Stack::Delayed);
        self.rows.batch(row);
        self.step = self.step.saturating_add(1);
        self.recorder.put(level, Entry::Batch(class, units));
        moved
    }

    /// Makes all of Ready the tracing batch, and answers how many units that are.
    pub fn take_all_ready(&mut self, level: Level, class: Class) -> usize
        requires placed { Placed R.log R.counts self.old }
        requires some { 0 < length ((shown self.old).rows class).deferred.ready }
        requires none { ((shown self.old).rows class).deferred.tracing ≡ None }
        ensures answer { result ≡ length (((shown self.old).rows class).deferred.ready) }
        ensures step { TookList R.log level (Entry.BeginSecond class)
            (map number_of (((shown self.old).rows class).deferred.ready)) self.old self.new }
        ensures placed { Placed R.log R.counts self.new }
    {
        let row = class.index() as usize;
        let _level = level.number();
        let moved = self.rows.len(row, Stack::Ready) as usize;
        let units = self.rows.names(self.alloc, row, Stack::Ready);
        self.rows.begin_second(row);
        self.step = self.step.saturating_add(1);
        self.recorder.put(level, Entry::BeginSecond(class, units));
        moved
    }
}
