ghost use Rattle.std.specs.Prelude.{◌≡◌, ℕ, ◌+◌, ◌*◌, ◌/◌, ◌%◌, ◌<◌, ◌≤◌, ◌↔◌, ◌++◌, length, replicate, vec_len, vec_capacity, All, List, ◌∷◌, true, false, IfOk, OnOk, OnErr, IsNone, IsSome, IfNone, IfSome, MatchOption};
ghost use Rattle.bm_class.specs.Sizes.{units_per_page};
ghost use Rattle.bm_page.specs.UnitState.{UnitState};
ghost use Rattle.bm_page.specs.Out.{AreOut, IsFromStock, count_out};
ghost use Rattle.bm_page.specs.Stock.{class_at, stocked_at, unborn, is_of, is_stock_of, least_stock, lowest_page, next_unit, given, unit_given, fetched, any_out, returned};

use crate::units::{Stocked, Unit};
use bm_class::Class;
use bm_word::NoMemory;
use std::alloc::Global;
use std::marker::Model;

/// How many unit numbers a page has: as many as the least units that it holds.
const PAGE_NUMBERS: usize = 256;

/// The pages and the stock of their units. It has to be ended, by `finish` or by `give_up`.
///
/// Contracts see it as two maps: from a page to its class, if it has one, and from a unit number to
/// whether that unit is out, with its lives so far and its seal. Beside them each page has a
/// position below which all of its units are out, so that a fetch looks at no unit twice.
pub struct Pool {
    classes: Vec<Option<Class>>,
    lows: Vec<u16>,
    units: Vec<Stocked>,
}

impl Model for Pool {
    ghost use Rattle.bm_page.specs.Out.{AreOut, IsFromStock, count_out};
    ghost use Rattle.bm_page.specs.Stock.{Stock};
    ghost use Rattle.bm_page.specs.Kept.{IsPool};

    ghost Value = { Stock };

    ghost view = { λ pool. record { classes = pool.classes.items; units = pool.units.items } };

    ghost invariant = { λ pool. IsPool pool.classes.items pool.lows.items pool.units.items };
}

/// Where a fetch still has to look: the pages from `from` to below `until` may have units in stock
/// of its class, and the pages from `fresh` on may have no class.
#[derive(Clone, Copy)]
struct Walk {
    from: usize,
    until: usize,
    fresh: usize,
}

impl Pool {
    ghost use Rattle.bm_page.specs.Kept.{CanGive, IsFirstOn, IsFresh, IsLeastOn, IsWalk};

    /// A pool of `pages` pages, none with a class, all of whose units are in stock and never lived.
    ///
    /// `NoMemory` is the only error. All later calls but `fetch` take no memory.
    pub fn create(alloc: Global, pages: u16) -> Result<Pool, NoMemory>
        requires { pages ≤ 256 }
        ensures classes { IfOk result (λ pool. pool.classes ≡ replicate pages None) }
        ensures units { IfOk result (λ pool. pool.units ≡ replicate (256 * pages) unborn) }
    {
        let pages = pages as usize;
        Ok(Pool {
            classes: vec![in alloc; None; pages]?,
            lows: vec![in alloc; 0; pages]?,
            units: vec![in alloc; Stocked::NEW; PAGE_NUMBERS * pages]?,
        })
    }

    /// Gives up to `want` units of a class, appended to `out` one after the other: the
    /// least-numbered unit in stock of the class; if none, the lowest page without a class takes the
    /// class; if none, it stops. The answer is how many were given. This project's own rule.
    ///
    /// `NoMemory`, where `out` can't grow, is the only error and changes nothing.
    pub fn fetch(
        &mut self,
        class: Class,
        want: usize,
        out: &mut Vec<Unit>,
    ) -> Result<usize, NoMemory>
        ensures count { IfOk result (λ n. n ≡ length (fetched class want self.old).units) }
        ensures units { OnOk result
            (out.new.items ≡ out.old.items ++ (fetched class want self.old).units) }
        ensures pool { OnOk result (self.new ≡ (fetched class want self.old).pool) }

        // Fewer come exactly where neither stock of the class nor a page without one is left.
        ensures most { IfOk result (λ n. n ≤ want) }
        ensures fewer { IfOk result (λ n. n < want → next_unit class self.new ≡ None) }

        // As many units more are out.
        ensures more_out { IfOk result
            (λ n. count_out self.new.units ≡ count_out self.old.units + n) }

        // Each of them was in stock, and comes as the stock had it.
        ensures each { OnOk result
            (All (IsFromStock class self.old) (fetched class want self.old).units) }

        // Whoever holds units that are out holds these too.
        ensures out { OnOk result ((held : List UnitState) → AreOut self.old held
            → AreOut self.new (held ++ (fetched class want self.old).units)) }

        ensures same_pool { OnErr result (self.new ≡ self.old) }
        ensures same_units { OnErr result (out.new.items ≡ out.old.items) }
    {
        out.reserve(want.min(self.units.len()))?;
        Ok(self.give_units(class, want, out))
    }

    /// Takes a unit of this pool back into the stock, with its lives so far and its seal. Its page
    /// has no class any more where no other unit of it is out. This project's own rule.
    pub fn put_back(&mut self, unit: Unit)
        requires out { (stocked_at self.old.units unit.number).out ≡ true }
        ensures pool { self.new ≡ returned unit self.old }

        ensures fewer_out { count_out self.new.units + 1 ≡ count_out self.old.units }

        // The others that were out with it still are.
        ensures out { (before after : List UnitState) → AreOut self.old (before ++ unit ∷ after)
            → AreOut self.new (before ++ after) }
    {
        let number = unit.number() as usize;
        let page = number / PAGE_NUMBERS;
        let position = (number % PAGE_NUMBERS) as u16;
        self.units[number] = unit.enter_stock();
        self.lows[page] = self.lows[page].min(position);
        if !has_unit_out(&self.units, page) {
            self.classes[page] = None;
        }
    }

    /// How many units are out.
    pub fn units_out(&self) -> u32
        ensures { result ≡ count_out self.now.units }
    {
        self.units.iter().filter(|unit| unit.out).count() as u32
    }

    /// The class of a page; `None` exactly where no unit of the page is out, as where the pool has
    /// no such page.
    pub fn page_class(&self, page: u16) -> Option<Class>
        ensures class { result ≡ class_at self.now.classes page }
        ensures none { IsNone result
            ↔ ((u : ℕ) → u / 256 ≡ page → (stocked_at self.now.units u).out ≡ false) }
    {
        match self.classes.get(page as usize) {
            Some(class) => *class,
            None => None,
        }
    }

    /// Ends a pool all of whose units are in stock.
    pub fn finish(self)
        requires { count_out self.units ≡ 0 }
    {
        self.give_up();
    }

    /// Ends a pool after a want of memory, whatever units are out. They are never put back.
    pub fn give_up(self) {
        let Pool {
            classes: _,
            lows: _,
            units: _,
        } = self;
    }

    /// Gives up to `want` units to a vector with room for them.
    fn give_units(&mut self, class: Class, want: usize, out: &mut Vec<Unit>) -> usize
        requires { vec_len out.old + length (fetched class want self.old).units
            ≤ vec_capacity out.old }
        ensures count { result ≡ length (fetched class want self.old).units }
        ensures units { out.new.items ≡ out.old.items ++ (fetched class want self.old).units }
        ensures pool { self.new ≡ (fetched class want self.old).pool }
        ensures most { result ≤ want }
        ensures fewer { result < want → next_unit class self.new ≡ None }
        ensures more_out { count_out self.new.units ≡ count_out self.old.units + result }
        ensures each { All (IsFromStock class self.old) (fetched class want self.old).units }
        ensures out { (held : List UnitState) → AreOut self.old held
            → AreOut self.new (held ++ (fetched class want self.old).units) }
    {
        let mut walk = Walk {
            from: 0,
            until: self.classes.len(),
            fresh: 0,
        };
        for given in 0..want {
            match self.give_next(class, &mut walk) {
                Some(unit) => {
                    if let Err(_) = out.push(unit) {
                        unreachable!()
                    }
                }
                None => return given,
            }
        }
        want
    }

    /// Gives the next unit of a class, if there is one.
    fn give_next(&mut self, class: Class, walk: &mut Walk) -> Option<Unit>
        requires { IsWalk class self.old walk.old }
        ensures next { MatchOption result (next_unit class self.old ≡ None)
            (λ unit. next_unit class self.old ≡ Some unit.number) }
        ensures unit { IfSome result (λ unit. unit ≡ unit_given class unit.number self.old) }
        ensures pool { MatchOption result (self.new ≡ self.old)
            (λ unit. self.new ≡ given class unit.number self.old) }
        ensures walk { IfSome result (λ _. IsWalk class self.new walk.new) }
    {
        let number = self.find_next(class, walk)?;
        Some(self.give(class, number))
    }

    /// The unit of a class that is given next.
    fn find_next(&mut self, class: Class, walk: &mut Walk) -> Option<usize>
        requires { IsWalk class self.old walk.old }
        ensures same { self.new ≡ self.old }
        ensures next { result ≡ next_unit class self.old }
        ensures ready { IfSome result (CanGive class self.old) }
        ensures walk { IfSome result
            (λ number. IsWalk class (given class number self.old) walk.new) }
    {
        if let Some(number) = self.find_stock(class, walk) {
            return Some(number);
        }
        let page = self.find_fresh(walk)?;
        walk.from = page;
        walk.until = page + 1;
        Some(PAGE_NUMBERS * page)
    }

    /// The least-numbered unit in stock of a class.
    fn find_stock(&mut self, class: Class, walk: &mut Walk) -> Option<usize>
        requires { IsWalk class self.old walk.old }
        ensures same { self.new ≡ self.old }
        ensures least { result ≡ least_stock class self.old }
        ensures found { IfSome result (λ number. IsLeastOn class self.old walk.new.from number) }
        ensures inside { IfSome result (λ _. walk.new.from < walk.new.until) }
        ensures none { IfNone result ((u : ℕ) → is_stock_of class self.old u ≡ false) }
        ensures walk { IsWalk class self.old walk.new }
        ensures carved { 0 < units_per_page class }
    {
        let positions = class.per_page() as usize;
        while walk.from < walk.until {
            if let Some(number) = self.find_on_page(walk.from, class, positions) {
                return Some(number);
            }
            walk.from += 1;
        }
        None
    }

    /// The least-numbered unit in stock of a class on one page.
    fn find_on_page(&mut self, page: usize, class: Class, positions: usize) -> Option<usize>
        requires page { page < length self.old.classes }
        requires carved { positions ≡ units_per_page class }
        requires positions { positions ≤ 256 }
        ensures same { self.new ≡ self.old }
        ensures none { IfNone result
            ((u : ℕ) → u / 256 ≡ page → is_stock_of class self.old u ≡ false) }
        ensures found { IfSome result (IsLeastOn class self.old page) }
    {
        if !self.is_page_of(page, class) {
            return None;
        }
        self.find_position(page, positions)
    }

    /// Whether a page has a class.
    fn is_page_of(&self, page: usize, class: Class) -> bool
        requires { page < length self.now.classes }
        ensures { result ≡ is_of class (class_at self.now.classes page) }
    {
        match self.classes[page] {
            Some(other) => other == class,
            None => false,
        }
    }

    /// The least-numbered unit that isn't out among the first positions of a page.
    fn find_position(&mut self, page: usize, positions: usize) -> Option<usize>
        requires page { page < length self.old.classes }
        requires positions { positions ≤ 256 }
        ensures same { self.new ≡ self.old }
        ensures none { IfNone result ((k : ℕ) → k < positions
            → (stocked_at self.old.units (256 * page + k)).out ≡ true) }
        ensures found { IfSome result (IsFirstOn self.old.units page positions) }
    {
        let low = self.lows[page] as usize;
        let first = PAGE_NUMBERS * page;
        let position = position_in_stock(&self.units, first, low, positions);
        self.lows[page] = position as u16;
        if position < positions {
            Some(first + position)
        } else {
            None
        }
    }

    /// The lowest page without a class.
    fn find_fresh(&self, walk: &mut Walk) -> Option<usize>
        requires { (p : ℕ) → p < walk.old.fresh → IsSome (class_at self.now.classes p) }
        ensures lowest { result ≡ lowest_page self.now }
        ensures found { IfSome result (IsFresh self.now) }
        ensures fresh { (p : ℕ) → p < walk.new.fresh → IsSome (class_at self.now.classes p) }
    {
        while walk.fresh < self.classes.len() {
            if self.classes[walk.fresh].is_none() {
                return Some(walk.fresh);
            }
            walk.fresh += 1;
        }
        None
    }

    /// Gives a unit in stock, whose page has its class or none.
    #[tactic(auto, unfolding(crate::specs::Stock::given, crate::specs::Stock::unit_given))]
    fn give(&mut self, class: Class, number: usize) -> Unit
        requires { CanGive class self.old number }
        ensures unit { result ≡ unit_given class number self.old }
        ensures pool { self.new ≡ given class number self.old }
    {
        let stocked = self.units[number];
        self.classes[number / PAGE_NUMBERS] = Some(class);
        self.units[number].out = true;
        Unit::leave_stock(number as u16, class, stocked)
    }
}

/// Whether a unit of a page is out.
#[tactic(auto, unfolding(crate::specs::Stock::any_out))]
fn has_unit_out(units: &[Stocked], page: usize) -> bool
    requires { 256 * page + 256 ≤ length units.now }
    ensures { result ≡ any_out units.now page }
{
    let first = PAGE_NUMBERS * page;
    units[first..first + PAGE_NUMBERS]
        .iter()
        .any(|unit| unit.out)
}

/// The first position from `low` on whose unit isn't out, on the page that begins with the unit
/// `first`; `positions` where there is none below it.
fn position_in_stock(units: &[Stocked], first: usize, low: usize, positions: usize) -> usize
    requires { first + positions ≤ length units.now }
    ensures bound { result ≤ positions }
    ensures out { (k : ℕ) → low ≤ k → k < result → (stocked_at units.now (first + k)).out ≡ true }
    ensures stock { result < positions → (stocked_at units.now (first + result)).out ≡ false }
{
    for position in low..positions {
        if !units[first + position].out {
            return position;
        }
    }
    positions
}
