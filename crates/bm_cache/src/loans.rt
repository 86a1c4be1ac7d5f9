//! Units that leave the caches for another processor, and come back where they aren't taken there.

ghost use Rattle.std.specs.Prelude.{◌≡◌, ℕ, [], false, true, map, length, IfOk, OnOk, OnErr};
ghost use Rattle.bm_journal.specs.declared.units.Units.TheVariants.{Whole};
ghost use Rattle.bm_law.specs.Effect.{effect};
ghost use Rattle.bm_law.specs.State.{State};
ghost use Rattle.bm_law.specs.Waiting.{is_waiting};
ghost use Rattle.bm_cache.specs.Lent.{FirstIsLent, HandIsLent, Lends, PutBack, Recorded, SendIsLent, with_first, with_hand};
ghost use Rattle.bm_cache.specs.Placed.{Placed};
ghost use Rattle.bm_cache.specs.Shown.{shown};
ghost use Rattle.bm_cache.specs.Tokens.{Token};

use crate::Caches;
use bm_class::Class;
use bm_journal::{Domain, Entry, Level, Recorder, Stack, UnitNumbers, Units};
use bm_law::Mark;
use bm_page::Unit;
use bm_word::NoMemory;

impl<R: Recorder> Caches<R> {
    /// Takes out all units in hand, in the order in which they came. The log still has them there, until `sent` or
    /// `hand_in` is called; no other call may come between. The refusal is want of memory and changes nothing.
    pub fn hand_out(&mut self, level: Level, class: Class) -> Result<Vec<Unit>, NoMemory>
        requires placed { Placed R.log R.counts self.old }
        ensures units { IfOk result (λ us. us.items ≡ ((shown self.old).sides level).hand) }
        ensures lent { OnOk result
            (Lends R.log R.counts (with_hand level [] (shown self.old)) self.old self.new) }
        ensures from { OnOk result (self.new.first_lent ≡ false) }
        ensures refused { OnErr result (self.new ≡ self.old) }
    {
        let _class = class.index();
        let side = level.number() as usize;
        let mut units = Vec::with_capacity(self.alloc, self.sides[side].len())?;
        self.sides[side].move_out(&mut units);
        self.first_lent = false;
        Ok(units)
    }

    /// Takes out all units of First, its top first. The log still has them there, until `sent` or `first_in` is called;
    /// no other call may come between. The refusal is want of memory and changes nothing.
    pub fn first_out(&mut self, level: Level, class: Class) -> Result<Vec<Unit>, NoMemory>
        requires placed { Placed R.log R.counts self.old }
        ensures units { IfOk result
            (λ us. us.items ≡ ((shown self.old).rows class).deferred.first) }
        ensures lent { OnOk result
            (Lends R.log R.counts (with_first class [] (shown self.old)) self.old self.new) }
        ensures from { OnOk result (self.new.first_lent ≡ true) }
        ensures refused { OnErr result (self.new ≡ self.old) }
    {
        let row = class.index() as usize;
        let _level = level.number();
        let mut units = Vec::with_capacity(self.alloc, self.rows.len(row, Stack::First) as usize)?;
        self.rows.move_out(row, Stack::First, &mut units);
        self.first_lent = true;
        Ok(units)
    }

    /// Puts the units of `hand_out` back in hand, in the same order.
    pub fn hand_in(&mut self, level: Level, class: Class, units: Vec<Unit>)
        requires lent { (s : State Token) × HandIsLent R.log R.counts level units.items s self.old }
        ensures back { PutBack (with_hand level units.items (shown self.old)) self.old self.new }
        ensures placed { Placed R.log R.counts self.new }
    {
        let _class = class.index();
        let side = level.number() as usize;
        let mark = self.sides[side].mark();
        self.sides[side].take_in_all(units, mark);
    }

    /// Puts the units of `first_out` back in First, in the same order.
    pub fn first_in(&mut self, level: Level, class: Class, units: Vec<Unit>)
        requires lent { (s : State Token)
            × FirstIsLent R.log R.counts class units.items s self.old }
        ensures back { PutBack (with_first class units.items (shown self.old)) self.old self.new }
        ensures placed { Placed R.log R.counts self.new }
    {
        let row = class.index() as usize;
        let _level = level.number();
        self.rows.put_on(row, Stack::First, units);
    }

    /// Ends the loan of `hand_out` or `first_out`, whose units have these numbers, in order: they went to a processor as
    /// one parcel. Where they came out of First no plain batch is in progress any more.
    pub fn sent(&mut self, level: Level, class: Class, to: u8, numbers: Vec<u16>)
        requires lent { (s : State Token)
            × SendIsLent R.log R.counts level class numbers.items s self.old }
        requires quiet { is_waiting ((shown self.old).sides level).mark ≡ false }
        requires target { to ≡ ((shown self.old).rows class).target }
        ensures lists { (s : State Token)
            → SendIsLent R.log R.counts level class numbers.items s self.old
            → shown self.new ≡ effect level (Entry.Send class to (Whole numbers.items)) [] s }
        ensures step { Recorded R.log level (Entry.Send class to (Whole numbers.items)) self.old
            self.new }
        ensures placed { Placed R.log R.counts self.new }
    {
        if self.first_lent {
            self.send_first(level, class, to, numbers);
        } else {
            self.send_hand(level, class, to, numbers);
        }
    }

    /// The same where the units came out of the hand.
    fn send_hand(&mut self, level: Level, class: Class, to: u8, numbers: Vec<u16>)
        requires hand { self.old.first_lent ≡ false }
        requires lent { (s : State Token)
            × SendIsLent R.log R.counts level class numbers.items s self.old }
        requires quiet { is_waiting ((shown self.old).sides level).mark ≡ false }
        requires target { to ≡ ((shown self.old).rows class).target }
        ensures lists { (s : State Token)
            → SendIsLent R.log R.counts level class numbers.items s self.old
            → shown self.new ≡ effect level (Entry.Send class to (Whole numbers.items)) [] s }
        ensures step { Recorded R.log level (Entry.Send class to (Whole numbers.items)) self.old
            self.new }
        ensures placed { Placed R.log R.counts self.new }
    {
        let _class = class.index();
        let side = level.number() as usize;
        self.sides[side].set_mark(Mark::Quiet);
        self.step = self.step.saturating_add(1);
        self.recorder.put(
            level,
            Entry::Send(class, to, Units::Whole(UnitNumbers::new(numbers))),
        );
    }

    /// The same where the units came out of First.
    fn send_first(&mut self, level: Level, class: Class, to: u8, numbers: Vec<u16>)
        requires first { self.old.first_lent ≡ true }
        requires lent { (s : State Token)
            × SendIsLent R.log R.counts level class numbers.items s self.old }
        requires quiet { is_waiting ((shown self.old).sides level).mark ≡ false }
        requires target { to ≡ ((shown self.old).rows class).target }
        ensures lists { (s : State Token)
            → SendIsLent R.log R.counts level class numbers.items s self.old
            → shown self.new ≡ effect level (Entry.Send class to (Whole numbers.items)) [] s }
        ensures step { Recorded R.log level (Entry.Send class to (Whole numbers.items)) self.old
            self.new }
        ensures placed { Placed R.log R.counts self.new }
    {
        let row = class.index() as usize;
        let _level = level.number();
        self.rows.set_stamp(row, Domain::Plain, None);
        self.step = self.step.saturating_add(1);
        self.recorder.put(
            level,
            Entry::Send(class, to, Units::Whole(UnitNumbers::new(numbers))),
        );
    }
}
