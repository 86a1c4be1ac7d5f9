//! Steps of the second stage and the closing: stamps, the sweep, and the return to the stock.

ghost use Rattle.std.specs.Prelude.{◌≡◌, ◌+◌, ◌≤◌, ◌++◌, ℕ, [], Some, None, IsTrue, is_some, map, flat_map, length, IfOk, OnOk, OnErr};
ghost use Rattle.std.specs.List.{All};
ghost use Rattle.bm_law.specs.Lists.{stamp_of};
ghost use Rattle.bm_law.specs.Stands.{stands, times};
ghost use Rattle.bm_law.specs.State.{State, seen, seven_lists};
ghost use Rattle.bm_cache.specs.Each.{Sits};
ghost use Rattle.bm_cache.specs.Lent.{Ended, Lends, SecondIsLent, with_second};
ghost use Rattle.bm_cache.specs.Listed.{TookUnits};
ghost use Rattle.bm_cache.specs.Placed.{Placed};
ghost use Rattle.bm_cache.specs.Shown.{shown, waiting, Took};
ghost use Rattle.bm_cache.specs.Tokens.{Token, number_of};
ghost use Rattle.bm_journal.specs.declared.units.Units.TheVariants.{Whole};

use crate::Caches;
use bm_class::Class;
use bm_journal::{Domain, Entry, Level, Recorder, Stack, UnitNumbers, Units};
use bm_page::Unit;
use bm_word::NoMemory;

impl<R: Recorder> Caches<R> {
    /// Keeps the stamp of the batch that is in progress and has none yet.
    pub fn stamped(&mut self, level: Level, class: Class, domain: Domain, stamp: u32)
        requires placed { Placed R.log R.counts self.old }
        requires unstamped { stamp_of domain ((shown self.old).rows class).deferred ≡ Some 0 }
        ensures step { Took R.log level (Entry.Stamp class domain stamp) [] self.old self.new }
        ensures placed { Placed R.log R.counts self.new }
    {
        let row = class.index() as usize;
        let _level = level.number();
        self.rows.stamp(row, domain, stamp);
        self.step = self.step.saturating_add(1);
        self.recorder.put(level, Entry::Stamp(class, domain, stamp));
    }

    /// Records that the domain's number was read, and that the batch's grace period is over by it.
    pub fn passed(&mut self, level: Level, class: Class, domain: Domain, number: u32)
        requires placed { Placed R.log R.counts self.old }
        ensures step { Took R.log level (Entry.Pass class domain number) [] self.old self.new }
        ensures same { shown self.new ≡ shown self.old }
        ensures placed { Placed R.log R.counts self.new }
    {
        let _class = class.index();
        let _level = level.number();
        self.step = self.step.saturating_add(1);
        self.recorder.put(level, Entry::Pass(class, domain, number));
    }

    /// Makes all units of the class the tracing batch: those of the seven lists in the closing's order, and then those of
    /// the parcels, which are the inbox's, oldest first. It needs no memory but for the entry.
    pub fn sweep_in(&mut self, level: Level, class: Class, parcels: Vec<Vec<Unit>>)
        requires placed { Placed R.log R.counts self.old }
        requires none { waiting class (shown self.old) ≡ 0 }
        requires sit { All (Sits class) (flat_map (λ p. p.items) parcels.items) }
        requires fresh { (n : ℕ)
            → stands n (seen number_of (shown self.old))
            + times n (map number_of (flat_map (λ p. p.items) parcels.items))
            ≤ 1 }
        ensures step { TookUnits R.log level (Entry.Sweep class)
            (map number_of
            (seven_lists ((shown self.old).rows class)
            ++ flat_map (λ p. p.items) parcels.items))
            (flat_map (λ p. p.items) parcels.items) self.old self.new }
        ensures placed { Placed R.log R.counts self.new }
    {
        let row = class.index() as usize;
        let _level = level.number();
        self.rows.sweep(row, parcels);
        let units = self.rows.names(self.alloc, row, Stack::Second);
        self.step = self.step.saturating_add(1);
        self.recorder.put(level, Entry::Sweep(class, units));
    }

    /// Takes out all units of Second, its top first. The log still has them there, until `returned` is called; no other
    /// call may come between. The refusal is want of memory and changes nothing.
    pub fn second_out(&mut self, level: Level, class: Class) -> Result<Vec<Unit>, NoMemory>
        requires placed { Placed R.log R.counts self.old }
        ensures units { IfOk result
            (λ us. us.items ≡ ((shown self.old).rows class).deferred.second) }
        ensures lent { OnOk result
            (Lends R.log R.counts (with_second class [] (shown self.old)) self.old self.new) }
        ensures refused { OnErr result (self.new ≡ self.old) }
    {
        let row = class.index() as usize;
        let _level = level.number();
        let mut units = Vec::with_capacity(self.alloc, self.rows.len(row, Stack::Second) as usize)?;
        self.rows.move_out(row, Stack::Second, &mut units);
        Ok(units)
    }

    /// Ends the loan of `second_out`, whose units have these numbers, in order: they went back to the stock, and the
    /// tracing batch is no more in progress.
    pub fn returned(&mut self, level: Level, class: Class, numbers: Vec<u16>)
        requires lent { (s : State Token)
            × SecondIsLent R.log R.counts class numbers.items s self.old }
        requires progress { IsTrue (is_some ((shown self.old).rows class).deferred.tracing) }
        ensures step { Ended R.log level (Entry.Return class (Whole numbers.items)) self.old
            self.new }
        ensures placed { Placed R.log R.counts self.new }
    {
        let row = class.index() as usize;
        let _level = level.number();
        self.rows.set_stamp(row, Domain::Tracing, None);
        self.step = self.step.saturating_add(1);
        self.recorder.put(
            level,
            Entry::Return(class, Units::Whole(UnitNumbers::new(numbers))),
        );
    }
}
