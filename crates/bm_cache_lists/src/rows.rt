//! The caches of a processor: units in their places, and the lists that name them.

ghost use Rattle.std.specs.Prelude.{◌≡◌, ◌≢◌, ◌+◌, ◌-◌, ◌^◌, ◌≤◌, ◌<◌, ◌++◌, ◌∷◌, ℕ, List, [], set, length, drop, reverse, map, replicate, IfOk, IfSome, MatchOption, flat_map, IsTrue, Some, None, vec_capacity};
ghost use Rattle.bm_law.specs.Stands.{in_row, times};
ghost use Rattle.bm_law.specs.State.{seen_row, empty_row, seven_lists};
ghost use Rattle.bm_law.specs.Effect.{aimed, stamped};
ghost use Rattle.bm_journal.specs.UnitCount.{unit_count};
ghost use Rattle.bm_journal.specs.WellFormed.{is_whole};
ghost use Rattle.bm_cache_lists.specs.Chain.{IsLonger};

use crate::line::{Line, Numbers};
use bm_journal::{Domain, Stack, UnitNumbers, Units};
use bm_law::Mark;
use bm_page::Unit;
use bm_word::NoMemory;
use std::alloc::Global;
use std::collections::VecDeque;
use std::marker::Model;
use std::mem;

/// The rows of the eleven classes: the units in places by their number, and lists that name them. Contracts see the
/// lists of units.
pub struct Rows {
    places: Vec<Option<Unit>>,
    lines: Vec<Line>,
}

impl Model for Rows {
    ghost use Rattle.std.specs.Prelude.{◌≤◌, List, vec_capacity};
    ghost use Rattle.bm_law.specs.State.{Row};
    ghost use Rattle.bm_page.specs.UnitState.{UnitState};

    ghost Value = { List (Row UnitState) };

    ghost use Rattle.bm_cache_lists.specs.Housed.{Housed, rows_of};

    ghost view = { λ r. rows_of r.places.items r.lines.items };

    ghost invariant = { λ r. Housed r.places.items r.lines.items
        × (65536 ≤ vec_capacity r.places) };
}

impl Rows {
    ghost use Rattle.bm_law.specs.Places.{list_at};
    ghost use Rattle.bm_cache_lists.specs.Chain.{IsTop};
    ghost use Rattle.bm_cache_lists.specs.Stacks.{with_list, on_list, moved_onto, filled, batched, second_begun, swept_to};
    ghost use Rattle.bm_cache_lists.specs.Housed.{row_at, on_row_at, number_of, Nowhere, AreFresh};
    ghost use Rattle.bm_cache_lists.specs.Numbers.{numbers_in, with_numbers};
    ghost use Rattle.bm_cache_lists.specs.Stamps.{with_stamp};

    /// The length of a list.
    pub fn len(&self, row: usize, stack: Stack) -> u32
        requires { row < 11 }
        ensures { result ≡ length (list_at stack (row_at self.now row)) }
    {
        self.lines[row].len(stack)
    }

    /// The numbers of a class.
    pub fn numbers(&self, row: usize) -> Numbers
        requires { row < 11 }
        ensures { result ≡ numbers_in (row_at self.now row) }
    {
        self.lines[row].numbers()
    }

    /// A class has these numbers from now on.
    pub fn set_numbers(&mut self, row: usize, numbers: Numbers)
        requires { row < 11 }
        ensures { self.new ≡ on_row_at row (with_numbers numbers) self.old }
    {
        self.lines[row].set_numbers(numbers);
    }

    /// The active number is raised. A free that has begun makes its unit's home the target.
    pub fn enter(&mut self, row: usize, mark: Mark) -> u32
        requires row { row < 11 }
        requires room { (row_at self.old row).active + 1 < 2 ^ 32 }
        ensures answer { result ≡ (row_at self.old row).active + 1 }
        ensures rows { self.new ≡ on_row_at row
            (λ r. record r { active = r.active + 1; target = aimed mark r.target }) self.old }
    {
        let mut numbers = self.numbers(row);
        numbers.active += 1;
        if let Mark::Bound(home, _delayed) = mark {
            numbers.target = home;
        }
        self.set_numbers(row, numbers);
        numbers.active
    }

    /// The active number is lowered.
    pub fn leave(&mut self, row: usize) -> u32
        requires row { row < 11 }
        requires active { 0 < (row_at self.old row).active }
        ensures answer { (row_at self.old row).active ≡ result + 1 }
        ensures rows { self.new ≡ on_row_at row (λ r. record r { active = r.active - 1 }) self.old }
    {
        let mut numbers = self.numbers(row);
        numbers.active -= 1;
        self.set_numbers(row, numbers);
        numbers.active
    }

    /// The flag is raised or lowered.
    pub fn flag(&mut self, row: usize, raised: bool)
        requires { row < 11 }
        ensures { self.new ≡ on_row_at row (λ r. record r { raised = raised }) self.old }
    {
        let mut numbers = self.numbers(row);
        numbers.raised = raised;
        self.set_numbers(row, numbers);
    }

    /// The free count is set.
    pub fn set_count(&mut self, row: usize, count: u32)
        requires { row < 11 }
        ensures { self.new ≡ on_row_at row (λ r. record r { count = count }) self.old }
    {
        let mut numbers = self.numbers(row);
        numbers.count = count;
        self.set_numbers(row, numbers);
    }

    /// The stamp of a domain's batch is set, or there is no such batch in progress any more.
    pub fn set_stamp(&mut self, row: usize, domain: Domain, stamp: Option<u32>)
        requires { row < 11 }
        ensures { self.new ≡ on_row_at row
            (λ r. record r { deferred = with_stamp domain stamp r.deferred }) self.old }
    {
        let mut numbers = self.numbers(row);
        match domain {
            Domain::Plain => numbers.plain = stamp,
            Domain::Tracing => numbers.tracing = stamp,
        }
        self.set_numbers(row, numbers);
    }

    /// The top of a list leaves. None exactly where there is no unit.
    pub fn pop(&mut self, row: usize, stack: Stack) -> Option<Unit>
        requires { row < 11 }
        ensures unit { IsTop result (list_at stack (row_at self.old row)) }
        ensures rows { self.new ≡ on_row_at row (on_list stack (λ us. drop 1 us)) self.old }
    {
        match self.lines[row].pop(stack) {
            Some(number) => self.places[number as usize].take(),
            None => None,
        }
    }

    /// A unit that stands in no list goes on top of one.
    pub fn push(&mut self, row: usize, stack: Stack, unit: Unit)
        requires row { row < 11 }
        requires fresh { Nowhere unit.number self.old }
        ensures { self.new ≡ on_row_at row (on_list stack (λ us. unit ∷ us)) self.old }
    {
        let number = unit.number();
        self.lines[row].push(stack, number);
        reach(&mut self.places, number);
        if let Some(_other) = mem::replace(&mut self.places[number as usize], Some(unit)) {
            unreachable!();
        }
    }

    /// All of a list goes on another, in its order.
    pub fn put_above(&mut self, row: usize, from: Stack, to: Stack)
        requires row { row < 11 }
        requires two { from ≢ to }
        ensures { self.new ≡ on_row_at row (moved_onto from to (λ us. us)) self.old }
    {
        self.lines[row].put_above(from, to);
    }

    /// All of a list goes on another one by one, from its top, so that its last one ends on top.
    pub fn pour(&mut self, row: usize, from: Stack, to: Stack)
        requires row { row < 11 }
        requires two { from ≢ to }
        ensures { self.new ≡ on_row_at row (moved_onto from to reverse) self.old }
    {
        self.lines[row].pour(from, to);
    }

    /// The numbers of the units of a list, from its top.
    pub fn listed(&self, alloc: Global, row: usize, stack: Stack) -> Result<Vec<u16>, NoMemory>
        requires { row < 11 }
        ensures { IfOk result (λ numbers.
            numbers.items ≡ map number_of (list_at stack (row_at self.now row))) }
    {
        self.lines[row].listed(alloc, stack)
    }

    /// Units that stand in no list go on top of one, one by one, so that the last one ends on top.
    pub fn push_all(&mut self, row: usize, stack: Stack, units: Vec<Unit>)
        requires row { row < 11 }
        requires fresh { AreFresh units.items self.old }
        ensures { self.new
            ≡ on_row_at row (on_list stack (λ us. reverse units.items ++ us)) self.old }
    {
        // For the prover: the value opened, which tells that there are eleven rows.
        let _places = &self.places;
        let mut rest = VecDeque::from_vec(units);
        while let Some(unit) = rest.pop_front() {
            self.push(row, stack, unit);
        }
        rest.destroy_empty();
    }

    /// Units that stand in no list go on top of one, with the first one on top.
    pub fn put_on(&mut self, row: usize, stack: Stack, units: Vec<Unit>)
        requires row { row < 11 }
        requires fresh { AreFresh units.items self.old }
        ensures { self.new ≡ on_row_at row (on_list stack (λ us. units.items ++ us)) self.old }
    {
        // For the prover: the value opened, which tells that there are eleven rows.
        let _places = &self.places;
        let mut rest = units;
        while let Some(unit) = rest.pop() {
            self.push(row, stack, unit);
        }
        rest.destroy_empty();
    }

    /// Units go on Free one by one, and are counted.
    pub fn fill(&mut self, row: usize, units: Vec<Unit>)
        requires row { row < 11 }
        requires fresh { AreFresh units.items self.old }
        requires number { length units.items ≤ 65536 }
        requires count { (row_at self.old row).count + length units.items < 2 ^ 32 }
        ensures { self.new ≡ on_row_at row (filled units.items) self.old }
    {
        // For the prover: the value opened, which tells that there are eleven rows.
        let _places = &self.places;
        let number = units.len();
        let count = self.numbers(row).count;
        self.push_all(row, Stack::Free, units);
        self.set_count(row, count + number as u32);
    }

    /// A list is turned over: its last one ends on top.
    fn turn_over(&mut self, row: usize, stack: Stack)
        requires { row < 11 }
        ensures { self.new ≡ on_row_at row (on_list stack reverse) self.old }
    {
        self.lines[row].turn_over(stack);
    }

    /// The units of vectors go on a list one by one.
    fn push_parcels(&mut self, row: usize, stack: Stack, parcels: Vec<Vec<Unit>>)
        requires row { row < 11 }
        requires fresh { AreFresh (flat_map (λ p. p.items) parcels.items) self.old }
        ensures { self.new ≡ on_row_at row
            (on_list stack (λ us. reverse (flat_map (λ p. p.items) parcels.items) ++ us)) self.old }
    {
        // For the prover: the value opened, which tells that there are eleven rows.
        let _places = &self.places;
        let mut rest = VecDeque::from_vec(parcels);
        while let Some(parcel) = rest.pop_front() {
            self.push_all(row, stack, parcel);
        }
        rest.destroy_empty();
    }

    /// All units of the seven lists, and below them those of parcels, become Second, and a tracing batch is in progress.
    pub fn sweep(&mut self, row: usize, parcels: Vec<Vec<Unit>>)
        requires row { row < 11 }
        requires fresh { AreFresh (flat_map (λ p. p.items) parcels.items) self.old }
        ensures { self.new ≡ on_row_at row
            (λ r. swept_to (seven_lists r ++ flat_map (λ p. p.items) parcels.items) r) self.old }
    {
        // For the prover: the value opened, which tells that there are eleven rows.
        let _places = &self.places;
        self.turn_over(row, Stack::Second);
        self.push_parcels(row, Stack::Second, parcels);
        self.turn_over(row, Stack::Second);
        self.gather(row);
    }

    /// All units of the other lists go on Second, and a tracing batch is in progress.
    fn gather(&mut self, row: usize)
        requires { row < 11 }
        ensures { self.new ≡ on_row_at row (λ r. swept_to (seven_lists r) r) self.old }
    {
        // For the prover: the value opened, which tells that there are eleven rows.
        let _places = &self.places;
        self.put_above(row, Stack::Ready, Stack::Second);
        self.put_above(row, Stack::First, Stack::Second);
        self.put_above(row, Stack::ExtraDelayed, Stack::Second);
        self.put_above(row, Stack::Delayed, Stack::Second);
        self.put_above(row, Stack::Extra, Stack::Second);
        self.put_above(row, Stack::Free, Stack::Second);
        let mut numbers = self.numbers(row);
        numbers.count = 0;
        numbers.tracing = Some(0);
        self.set_numbers(row, numbers);
    }

    /// All of Delayed becomes First, and a plain batch is in progress.
    pub fn batch(&mut self, row: usize)
        requires { row < 11 }
        ensures { self.new ≡ on_row_at row batched self.old }
    {
        // For the prover: the value opened, which tells that there are eleven rows.
        let _places = &self.places;
        self.put_above(row, Stack::Delayed, Stack::First);
        self.set_stamp(row, Domain::Plain, Some(0));
    }

    /// All of Ready becomes Second, and a tracing batch is in progress.
    pub fn begin_second(&mut self, row: usize)
        requires { row < 11 }
        ensures { self.new ≡ on_row_at row second_begun self.old }
    {
        // For the prover: the value opened, which tells that there are eleven rows.
        let _places = &self.places;
        self.put_above(row, Stack::Ready, Stack::Second);
        self.set_stamp(row, Domain::Tracing, Some(0));
    }

    /// The batch of a domain has this stamp from now on.
    pub fn stamp(&mut self, row: usize, domain: Domain, stamp: u32)
        requires { row < 11 }
        ensures { self.new ≡ on_row_at row
            (λ r. record r { deferred = stamped domain stamp r.deferred }) self.old }
    {
        self.set_stamp(row, domain, Some(stamp));
    }

    /// The units of a list, as an entry names them; where there is no memory for that, how many they are.
    pub fn names(&self, alloc: Global, row: usize, stack: Stack) -> Units
        requires { row < 11 }
        ensures count { unit_count result ≡ length (list_at stack (row_at self.now row)) }
        ensures whole { IsTrue (is_whole result)
            → result ≡ Units.Whole (map number_of (list_at stack (row_at self.now row))) }
    {
        match self.listed(alloc, row, stack) {
            Ok(numbers) => Units::Whole(UnitNumbers::new(numbers)),
            Err(_refused) => Units::Counted(self.len(row, stack)),
        }
    }

    /// All units of a list leave, the top first, behind what stands in a vector that has room for them.
    pub fn move_out(&mut self, row: usize, stack: Stack, out: &mut Vec<Unit>)
        requires row { row < 11 }
        requires room { length out.old.items + length (list_at stack (row_at self.old row))
            ≤ vec_capacity out.old }
        ensures out { out.new.items ≡ out.old.items ++ list_at stack (row_at self.old row) }
        ensures rows { self.new ≡ on_row_at row (with_list stack []) self.old }
    {
        // For the prover: the value opened, which tells that there are eleven rows.
        let _places = &self.places;
        while let Some(unit) = self.pop(row, stack) {
            if let Err(_refused) = out.push(unit) {
                unreachable!();
            }
        }
    }

    /// Eleven classes without units. All their memory is taken here: one request for the places, one for the lines and
    /// one for the links of each class.
    pub fn new(alloc: Global, target: u8) -> Result<Rows, NoMemory>
        ensures { IfOk result (λ rows. rows ≡ replicate 11 (empty_row target)) }
    {
        let places = Vec::with_capacity(alloc, 65_536)?;
        match new_lines(alloc, target) {
            Ok(lines) => Ok(Rows { places, lines }),
            Err(refused) => {
                give_up_places(places);
                Err(refused)
            }
        }
    }

    /// Ends the rows, and each unit that stands in them.
    pub fn give_up(self) {
        let Rows {
            places,
            lines: _lines,
        } = self;
        give_up_places(places);
    }
}

/// A row of places that has room for all numbers has one for this number from now on. Those that it had stay, and those that
/// are added have no unit.
fn reach(places: &mut Vec<Option<Unit>>, number: u16)
    requires room { 65536 ≤ vec_capacity places.old }
    requires short { length places.old.items ≤ 65536 }
    ensures room { 65536 ≤ vec_capacity places.new }
    ensures short { length places.new.items ≤ 65536 }
    ensures number { number < length places.new.items }
    ensures longer { IsLonger None places.old.items places.new.items }
{
    while places.len() <= number as usize {
        if let Err(_refused) = places.push(None) {
            unreachable!();
        }
    }
}

/// Ends each unit in a place.
fn give_up_places(places: Vec<Option<Unit>>) {
    let mut places = places;
    while let Some(place) = places.pop() {
        if let Some(unit) = place {
            unit.give_up();
        }
    }
    places.destroy_empty();
}

/// Eleven lines without units.
fn new_lines(alloc: Global, target: u8) -> Result<Vec<Line>, NoMemory>
    ensures { IfOk result (λ lines. lines.items ≡ replicate 11 (empty_row target)) }
{
    let mut lines = Vec::with_capacity(alloc, 11)?;
    for _class in 0..11u8 {
        if let Err(_refused) = lines.push(Line::new(alloc, target)?) {
            unreachable!();
        }
    }
    Ok(lines)
}
