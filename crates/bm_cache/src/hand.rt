//! What one level has in hand.

ghost use Rattle.std.specs.Prelude.{◌≡◌, ◌+◌, ◌≤◌, ◌<◌, ◌++◌, ◌∷◌, [], length, drop, set, IfOk, MatchOption, vec_capacity, vec_len};
ghost use Rattle.bm_law.specs.State.{idle_side};
ghost use Rattle.bm_law.specs.Places.{list_at};
ghost use Rattle.bm_cache_lists.specs.Stacks.{with_list};
ghost use Rattle.bm_cache_lists.specs.Housed.{row_at, on_row_at};
ghost use Rattle.bm_law.specs.declared.mark.Mark.TheVariants as mark;

use bm_cache_lists::Rows;
use bm_journal::Stack;
use bm_law::Mark;
use bm_page::Unit;
use bm_word::NoMemory;
use std::alloc::Global;
use std::collections::VecDeque;
use std::marker::Model;

/// How many units a hand has room for: as many as there are unit numbers.
const ROOM: usize = 65_536;

/// The units of one level between two of its steps, in the order in which they came, and what its last step waits for.
/// Contracts see a side of the state. Hands are this project's own.
pub(crate) struct Hand {
    units: VecDeque<Unit>,
    mark: Mark,
}

impl Model for Hand {
    ghost use Rattle.std.specs.Prelude.{◌≤◌, ℕ, List};
    ghost use Rattle.std.specs.VecDeque.{deque_capacity, deque_len};
    ghost use Rattle.bm_law.specs.State.{Side};
    ghost use Rattle.bm_page.specs.UnitState.{UnitState};

    ghost Value = { Side UnitState };

    ghost view = { λ h. record { hand = h.units.items; mark = h.mark } };

    ghost invariant = { λ h. 65536 ≤ deque_capacity h.units };
}

impl Hand {
    /// An empty hand. All its memory is taken here.
    pub(crate) fn new(alloc: Global) -> Result<Hand, NoMemory>
        ensures { IfOk result (λ hand. hand ≡ idle_side) }
    {
        Ok(Hand {
            units: VecDeque::with_capacity(alloc, ROOM)?,
            mark: Mark::Quiet,
        })
    }

    /// Ends the hand, and each unit in it.
    pub(crate) fn give_up(self) {
        let Hand {
            mut units,
            mark: _mark,
        } = self;
        while let Some(unit) = units.pop_front() {
            unit.give_up();
        }
        units.destroy_empty();
    }

    /// How many units are in hand.
    pub(crate) fn len(&self) -> usize
        ensures { result ≡ length self.now.hand }
    {
        self.units.len()
    }

    /// What the last step waits for.
    pub(crate) fn mark(&self) -> Mark
        ensures { result ≡ self.now.mark }
    {
        self.mark
    }

    /// The last step waits for this from now on.
    pub(crate) fn set_mark(&mut self, mark: Mark)
        ensures { self.new ≡ record self.old { mark = mark } }
    {
        self.mark = mark;
    }

    /// A unit comes behind the others.
    pub(crate) fn take_in(&mut self, unit: Unit, mark: Mark)
        requires { length self.old.hand < 65536 }
        ensures { self.new ≡ record { hand = self.old.hand ++ unit ∷ []; mark = mark } }
    {
        if let Err(_refused) = self.units.push_back(unit) {
            unreachable!();
        }
        self.mark = mark;
    }

    /// All units of a list come behind the others, from its top.
    pub(crate) fn take_all(&mut self, rows: &mut Rows, row: usize, stack: Stack)
        requires row { row < 11 }
        requires eleven { length rows.old ≡ 11 }
        requires room { length self.old.hand + length (list_at stack (row_at rows.old row))
            ≤ 65536 }
        ensures side { self.new ≡ record {
          hand = self.old.hand ++ list_at stack (row_at rows.old row);
          mark = mark.Quiet;
        } }
        ensures rows { rows.new ≡ on_row_at row (with_list stack []) rows.old }
    {
        self.mark = Mark::Quiet;
        while let Some(unit) = rows.pop(row, stack) {
            self.take_in(unit, Mark::Quiet);
        }
    }

    /// Units come behind the others, in their order, and the last step waits for `mark` from now on.
    pub(crate) fn take_in_all(&mut self, units: Vec<Unit>, mark: Mark)
        requires { length self.old.hand + length units.items ≤ 65536 }
        ensures { self.new ≡ record { hand = self.old.hand ++ units.items; mark = mark } }
    {
        let mut units = VecDeque::from_vec(units);
        if let Err(_refused) = self.units.append(&mut units) {
            unreachable!();
        }
        units.destroy_empty();
        self.mark = mark;
    }

    /// All units leave, in the order in which they came, into a vector that is empty and has room for them.
    pub(crate) fn move_out(&mut self, out: &mut Vec<Unit>)
        requires empty { vec_len out.old ≡ 0 }
        requires room { length self.old.hand ≤ vec_capacity out.old }
        ensures out { out.new.items ≡ self.old.hand }
        ensures side { self.new ≡ record self.old { hand = [] } }
    {
        while let Some(unit) = self.give_out() {
            if let Err(_refused) = out.push(unit) {
                unreachable!();
            }
        }
    }

    /// The unit that came first leaves.
    pub(crate) fn give_out(&mut self) -> Option<Unit>
        ensures unit { MatchOption result (self.old.hand ≡ [])
            (λ u. self.old.hand ≡ u ∷ self.new.hand) }
        ensures side { self.new ≡ record self.old { hand = drop 1 self.old.hand } }
    {
        self.units.pop_front()
    }

    /// The unit that came first leaves, and the last step waits for `mark` from now on.
    pub(crate) fn hand_over(&mut self, mark: Mark) -> Option<Unit>
        ensures unit { MatchOption result (self.old.hand ≡ [])
            (λ u. self.old.hand ≡ u ∷ self.new.hand) }
        ensures side { self.new ≡ record { hand = drop 1 self.old.hand; mark = mark } }
    {
        self.mark = mark;
        self.units.pop_front()
    }
}
