//! Steps on Free and its count, and on Delayed; and the beginning of a free.

ghost use Rattle.std.specs.Prelude.{◌≡◌, ◌+◌, ◌-◌, ◌<◌, ◌≤◌, ◌^◌, ◌∷◌, [], ℕ, List, Option, map, length, true, false};
ghost use Rattle.bm_law.specs.Waiting.{is_waiting};
ghost use Rattle.bm_cache.specs.Tokens.{Token};
ghost use Rattle.bm_cache.specs.Shown.{shown, waiting, Took};
ghost use Rattle.bm_cache.specs.Placed.{Placed};
ghost use Rattle.bm_law.specs.State.{seen};
ghost use Rattle.bm_law.specs.Stands.{stands};
ghost use Rattle.bm_law.specs.declared.mark.Mark.TheVariants as mark;
ghost use Rattle.bm_cache.specs.Tokens.{number_of};

use crate::Caches;
use bm_class::Class;
use bm_journal::{Entry, Level, Recorder, Stack};
use bm_law::Mark;
use bm_page::Unit;

impl<R: Recorder> Caches<R> {
    /// Takes the top of Free in hand. False exactly where Free is empty. Its count is a step of its own.
    pub fn pop(&mut self, level: Level, class: Class) -> bool
        requires placed { Placed R.log R.counts self.old }
        requires active { 0 < ((shown self.old).rows class).active }
        requires none { waiting class (shown self.old) ≡ 0 }
        requires quiet { is_waiting ((shown self.old).sides level).mark ≡ false }
        ensures some { result ≡ true
            → (u : Token) × (rest : List Token) × (((shown self.old).rows class).free ≡ u ∷ rest)
            × Took R.log level (Entry.Pop class u.number) [] self.old self.new }
        ensures none { result ≡ false
            → (((shown self.old).rows class).free ≡ [])
            × Took R.log level (Entry.PopNone class) [] self.old self.new }
        ensures placed { Placed R.log R.counts self.new }
    {
        let row = class.index() as usize;
        let side = level.number() as usize;
        match self.rows.pop(row, Stack::Free) {
            Some(unit) => {
                let number = unit.number();
                self.sides[side].take_in(unit, Mark::Took(class));
                self.step = self.step.saturating_add(1);
                self.recorder.put(level, Entry::Pop(class, number));
                true
            }
            None => {
                self.step = self.step.saturating_add(1);
                self.recorder.put(level, Entry::PopNone(class));
                false
            }
        }
    }

    /// Counts what this level has taken off Free, and answers the free count.
    pub fn count_down(&mut self, level: Level, class: Class) -> u32
        requires placed { Placed R.log R.counts self.old }
        requires took { ((shown self.old).sides level).mark ≡ mark.Took class }
        ensures answer { result + 1 ≡ ((shown self.old).rows class).count }
        ensures step { Took R.log level (Entry.Count class result) [] self.old self.new }
        ensures placed { Placed R.log R.counts self.new }
    {
        let row = class.index() as usize;
        let side = level.number() as usize;
        let count = self.rows.numbers(row).count - 1;
        self.rows.set_count(row, count);
        self.sides[side].set_mark(Mark::Quiet);
        self.step = self.step.saturating_add(1);
        self.recorder.put(level, Entry::Count(class, count));
        count
    }

    /// Puts the unit that came into the hand first on Free. Its count is a step of its own.
    pub fn push(&mut self, level: Level, class: Class)
        requires placed { Placed R.log R.counts self.old }
        requires active { 0 < ((shown self.old).rows class).active }
        requires none { waiting class (shown self.old) ≡ 0 }
        requires quiet { is_waiting ((shown self.old).sides level).mark ≡ false }
        requires held { (u : Token) × (rest : List Token)
            × (((shown self.old).sides level).hand ≡ u ∷ rest) × (u.class ≡ class) }
        ensures pushed { (u : Token) × (rest : List Token)
            × (((shown self.old).sides level).hand ≡ u ∷ rest)
            × Took R.log level (Entry.Push class u.number) [] self.old self.new }
        ensures placed { Placed R.log R.counts self.new }
    {
        let row = class.index() as usize;
        let side = level.number() as usize;
        match self.sides[side].hand_over(Mark::Gave(class)) {
            Some(unit) => {
                let number = unit.number();
                self.rows.push(row, Stack::Free, unit);
                self.step = self.step.saturating_add(1);
                self.recorder.put(level, Entry::Push(class, number));
            }
            None => unreachable!(),
        }
    }

    /// Counts what this level has put on Free, and answers the free count.
    pub fn count_up(&mut self, level: Level, class: Class) -> u32
        requires placed { Placed R.log R.counts self.old }
        requires gave { ((shown self.old).sides level).mark ≡ mark.Gave class }
        ensures answer { result ≡ ((shown self.old).rows class).count + 1 }
        ensures step { Took R.log level (Entry.Count class result) [] self.old self.new }
        ensures placed { Placed R.log R.counts self.new }
    {
        let row = class.index() as usize;
        let side = level.number() as usize;
        let count = self.rows.numbers(row).count + 1;
        self.rows.set_count(row, count);
        self.sides[side].set_mark(Mark::Quiet);
        self.step = self.step.saturating_add(1);
        self.recorder.put(level, Entry::Count(class, count));
        count
    }

    /// Puts the unit that came into the hand first on Delayed.
    pub(crate) fn push_delayed(&mut self, level: Level, class: Class)
        requires placed { Placed R.log R.counts self.old }
        requires quiet { is_waiting ((shown self.old).sides level).mark ≡ false }
        requires held { (u : Token) × (rest : List Token)
            × (((shown self.old).sides level).hand ≡ u ∷ rest) × (u.class ≡ class) }
        ensures pushed { (u : Token) × (rest : List Token)
            × (((shown self.old).sides level).hand ≡ u ∷ rest)
            × Took R.log level (Entry.Delayed class u.number) [] self.old self.new }
        ensures placed { Placed R.log R.counts self.new }
    {
        let row = class.index() as usize;
        let side = level.number() as usize;
        match self.sides[side].hand_over(Mark::Quiet) {
            Some(unit) => {
                let number = unit.number();
                self.rows.push(row, Stack::Delayed, unit);
                self.step = self.step.saturating_add(1);
                self.recorder.put(level, Entry::Delayed(class, number));
            }
            None => unreachable!(),
        }
    }

    /// Begins a plain free: the unit comes into the hand, and the next raise makes its home the target.
    pub(crate) fn begin_free(&mut self, level: Level, unit: Unit)
        requires placed { Placed R.log R.counts self.old }
        requires quiet { is_waiting ((shown self.old).sides level).mark ≡ false }
        requires lives { unit.life + 1 < 2 ^ 32 }
        requires fresh { stands unit.number (seen number_of (shown self.old)) ≡ 0 }
        ensures step { Took R.log level (Entry.Free unit.number unit.home) (unit ∷ []) self.old
            self.new }
        ensures placed { Placed R.log R.counts self.new }
    {
        let side = level.number() as usize;
        let number = unit.number();
        let home = unit.home();
        self.sides[side].take_in(unit, Mark::Bound(home, false));
        self.recorder.put(level, Entry::Free(number, home));
    }

    /// Begins a delayed free: the unit comes into the hand, and the next raise makes its home the target.
    pub(crate) fn begin_delayed_free(&mut self, level: Level, unit: Unit)
        requires placed { Placed R.log R.counts self.old }
        requires quiet { is_waiting ((shown self.old).sides level).mark ≡ false }
        requires lives { unit.life + 1 < 2 ^ 32 }
        requires fresh { stands unit.number (seen number_of (shown self.old)) ≡ 0 }
        ensures step { Took R.log level (Entry.Delay unit.number unit.home) (unit ∷ []) self.old
            self.new }
        ensures placed { Placed R.log R.counts self.new }
    {
        let side = level.number() as usize;
        let number = unit.number();
        let home = unit.home();
        self.sides[side].take_in(unit, Mark::Bound(home, true));
        self.recorder.put(level, Entry::Delay(number, home));
    }
}
