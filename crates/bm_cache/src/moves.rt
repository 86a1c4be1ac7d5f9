//! Steps of deferred work that move units between the caches and the stock or other processors.

ghost use Rattle.std.specs.Prelude.{◌≡◌, ◌+◌, ◌≤◌, ℕ, [], false, map};
ghost use Rattle.std.specs.List.{All};
ghost use Rattle.bm_law.specs.Stands.{stands, times};
ghost use Rattle.bm_law.specs.State.{seen};
ghost use Rattle.bm_law.specs.Waiting.{is_waiting};
ghost use Rattle.bm_cache.specs.Each.{Sits};
ghost use Rattle.bm_cache.specs.Listed.{TookUnits};
ghost use Rattle.bm_cache.specs.Placed.{Placed};
ghost use Rattle.bm_cache.specs.Shown.{shown, Took};
ghost use Rattle.bm_cache.specs.Tokens.{number_of};

use crate::Caches;
use crate::names::list_names;
use bm_class::Class;
use bm_journal::{Domain, Entry, Level, Period, Recorder, Stack};
use bm_law::Mark;
use bm_page::Unit;

impl<R: Recorder> Caches<R> {
    /// Lowers the flag, as deferred work begins. That is no step.
    pub fn lower(&mut self, level: Level, class: Class)
        requires placed { Placed R.log R.counts self.old }
        ensures step { Took R.log level (Entry.Work class) [] self.old self.new }
        ensures placed { Placed R.log R.counts self.new }
    {
        let row = class.index() as usize;
        let _level = level.number();
        self.rows.flag(row, false);
        self.recorder.put(level, Entry::Work(class));
    }

    /// Records that a period of a domain has begun, by which the domain's number is `number`. That is no step.
    pub fn began(&mut self, level: Level, domain: Domain, number: u32)
        requires placed { Placed R.log R.counts self.old }
        ensures step { Took R.log level (Entry.Begin domain number) [] self.old self.new }
        ensures same { shown self.new ≡ shown self.old }
        ensures placed { Placed R.log R.counts self.new }
    {
        self.note(level, Entry::Begin(domain, number));
    }

    /// Records that a period has ended. That is no step.
    pub fn finished(&mut self, level: Level, period: Period)
        requires placed { Placed R.log R.counts self.old }
        ensures step { Took R.log level (Entry.Finish period) [] self.old self.new }
        ensures same { shown self.new ≡ shown self.old }
        ensures placed { Placed R.log R.counts self.new }
    {
        self.note(level, Entry::Finish(period));
    }

    /// Puts the units of a parcel on Ready, the first one on top. An empty list is a pop of the inbox that found none.
    pub fn take_parcel(&mut self, level: Level, class: Class, units: Vec<Unit>)
        requires placed { Placed R.log R.counts self.old }
        requires sit { All (Sits class) units.items }
        requires fresh { (n : ℕ)
            → stands n (seen number_of (shown self.old)) + times n (map number_of units.items) ≤ 1 }
        ensures step { TookUnits R.log level (Entry.Receive class) (map number_of units.items)
            units.items self.old self.new }
        ensures placed { Placed R.log R.counts self.new }
    {
        let row = class.index() as usize;
        let _level = level.number();
        let names = list_names(self.alloc, &units);
        self.rows.put_on(row, Stack::Ready, units);
        self.step = self.step.saturating_add(1);
        self.recorder.put(level, Entry::Receive(class, names));
    }

    /// Takes units in hand that the stock gave, where so many were wanted.
    pub fn take_fetched(&mut self, level: Level, class: Class, want: u32, units: Vec<Unit>)
        requires placed { Placed R.log R.counts self.old }
        requires quiet { is_waiting ((shown self.old).sides level).mark ≡ false }
        requires sit { All (Sits class) units.items }
        requires fresh { (n : ℕ)
            → stands n (seen number_of (shown self.old)) + times n (map number_of units.items) ≤ 1 }
        ensures step { TookUnits R.log level (Entry.Fetch class want) (map number_of units.items)
            units.items self.old self.new }
        ensures placed { Placed R.log R.counts self.new }
    {
        let _class = class.index();
        let side = level.number() as usize;
        let names = list_names(self.alloc, &units);
        self.sides[side].take_in_all(units, Mark::Quiet);
        self.step = self.step.saturating_add(1);
        self.recorder.put(level, Entry::Fetch(class, want, names));
    }
}
