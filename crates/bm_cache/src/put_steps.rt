//! Steps on the two lists beside Free and Delayed, for units that are freed while another call is in the cache.

ghost use Rattle.std.specs.Prelude.{◌≡◌, ◌+◌, ◌-◌, ◌<◌, ◌≤◌, ◌^◌, ◌∷◌, [], ℕ, List, Option, map, length, true, false};
ghost use Rattle.bm_law.specs.Waiting.{is_waiting};
ghost use Rattle.bm_cache.specs.Tokens.{Token};
ghost use Rattle.bm_cache.specs.Shown.{shown, waiting, Took};
ghost use Rattle.bm_cache.specs.Placed.{Placed};
ghost use Rattle.bm_law.specs.declared.mark.Mark.TheVariants as mark;

use crate::Caches;
use bm_class::Class;
use bm_journal::{Entry, Level, Recorder, Stack};
use bm_law::Mark;

impl<R: Recorder> Caches<R> {
    /// Looks at Extra, and answers its length.
    pub(crate) fn look(&mut self, level: Level, class: Class) -> u32
        requires placed { Placed R.log R.counts self.old }
        requires quiet { is_waiting ((shown self.old).sides level).mark ≡ false }
        ensures answer { result ≡ length ((shown self.old).rows class).extra }
        ensures step { Took R.log level (Entry.Look class result) [] self.old self.new }
        ensures placed { Placed R.log R.counts self.new }
    {
        let row = class.index() as usize;
        let side = level.number() as usize;
        let length = self.rows.len(row, Stack::Extra);
        self.sides[side].set_mark(Mark::Saw(class, length));
        self.step = self.step.saturating_add(1);
        self.recorder.put(level, Entry::Look(class, length));
        length
    }

    /// Puts the unit in hand on Extra if nothing was put there since the look, which saw `seen` units. False exactly
    /// where more stand there meanwhile; then the unit is still in hand.
    pub(crate) fn put(&mut self, level: Level, class: Class, seen: u32) -> bool
        requires placed { Placed R.log R.counts self.old }
        requires saw { ((shown self.old).sides level).mark ≡ mark.Saw class seen }
        requires longer { seen ≤ length ((shown self.old).rows class).extra }
        requires held { (u : Token) × (rest : List Token)
            × (((shown self.old).sides level).hand ≡ u ∷ rest) × (u.class ≡ class) }
        ensures put { result ≡ true
            → (u : Token) × (rest : List Token) × (((shown self.old).sides level).hand ≡ u ∷ rest)
            × Took R.log level (Entry.Put class u.number) [] self.old self.new }
        ensures lost { result ≡ false
            → (seen < length ((shown self.old).rows class).extra)
            × Took R.log level (Entry.Lost class) [] self.old self.new }
        ensures placed { Placed R.log R.counts self.new }
    {
        let row = class.index() as usize;
        let side = level.number() as usize;
        if self.rows.len(row, Stack::Extra) != seen {
            self.sides[side].set_mark(Mark::Quiet);
            self.step = self.step.saturating_add(1);
            self.recorder.put(level, Entry::Lost(class));
            return false;
        }
        match self.sides[side].hand_over(Mark::Quiet) {
            Some(unit) => {
                let number = unit.number();
                self.rows.push(row, Stack::Extra, unit);
                self.step = self.step.saturating_add(1);
                self.recorder.put(level, Entry::Put(class, number));
                true
            }
            None => unreachable!(),
        }
    }

    /// Looks at ExtraDelayed, and answers its length.
    pub(crate) fn look_delayed(&mut self, level: Level, class: Class) -> u32
        requires placed { Placed R.log R.counts self.old }
        requires quiet { is_waiting ((shown self.old).sides level).mark ≡ false }
        ensures answer { result ≡ length ((shown self.old).rows class).extra_delayed }
        ensures step { Took R.log level (Entry.LookDelayed class result) [] self.old self.new }
        ensures placed { Placed R.log R.counts self.new }
    {
        let row = class.index() as usize;
        let side = level.number() as usize;
        let length = self.rows.len(row, Stack::ExtraDelayed);
        self.sides[side].set_mark(Mark::SawDelayed(class, length));
        self.step = self.step.saturating_add(1);
        self.recorder.put(level, Entry::LookDelayed(class, length));
        length
    }

    /// Puts the unit in hand on ExtraDelayed if nothing was put there since the look, which saw `seen` units. False exactly
    /// where more stand there meanwhile; then the unit is still in hand.
    pub(crate) fn put_delayed(&mut self, level: Level, class: Class, seen: u32) -> bool
        requires placed { Placed R.log R.counts self.old }
        requires saw { ((shown self.old).sides level).mark ≡ mark.SawDelayed class seen }
        requires longer { seen ≤ length ((shown self.old).rows class).extra_delayed }
        requires held { (u : Token) × (rest : List Token)
            × (((shown self.old).sides level).hand ≡ u ∷ rest) × (u.class ≡ class) }
        ensures put { result ≡ true
            → (u : Token) × (rest : List Token) × (((shown self.old).sides level).hand ≡ u ∷ rest)
            × Took R.log level (Entry.PutDelayed class u.number) [] self.old self.new }
        ensures lost { result ≡ false
            → (seen < length ((shown self.old).rows class).extra_delayed)
            × Took R.log level (Entry.LostDelayed class) [] self.old self.new }
        ensures placed { Placed R.log R.counts self.new }
    {
        let row = class.index() as usize;
        let side = level.number() as usize;
        if self.rows.len(row, Stack::ExtraDelayed) != seen {
            self.sides[side].set_mark(Mark::Quiet);
            self.step = self.step.saturating_add(1);
            self.recorder.put(level, Entry::LostDelayed(class));
            return false;
        }
        match self.sides[side].hand_over(Mark::Quiet) {
            Some(unit) => {
                let number = unit.number();
                self.rows.push(row, Stack::ExtraDelayed, unit);
                self.step = self.step.saturating_add(1);
                self.recorder.put(level, Entry::PutDelayed(class, number));
                true
            }
            None => unreachable!(),
        }
    }
}
