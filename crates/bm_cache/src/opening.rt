//! The opening of caches.

ghost use Rattle.std.specs.Prelude.{◌≡◌, ◌+◌, ◌≤◌, ◌<◌, ◌++◌, ◌∷◌, ℕ, [], List, Some, map, length, replicate, vec_len, IfOk, IfErr, IfSome};
ghost use Rattle.bm_journal.specs.Counts.{no_counts};
ghost use Rattle.bm_law.specs.State.{empty_row, idle_side, opening};
ghost use Rattle.bm_law.specs.Stands.{stands, times};
ghost use Rattle.bm_law.specs.State.{seen};
ghost use Rattle.std.specs.List.{All};
ghost use Rattle.bm_cache.specs.Tokens.{number_of};
ghost use Rattle.bm_cache.specs.Each.{Sits};
ghost use Rattle.bm_cache.specs.Opening.{Ascending, FillsSit, Filled, Opened, named, numbers_in};
ghost use Rattle.bm_cache.specs.Placed.{Placed};
ghost use Rattle.bm_cache.specs.Shown.{shown, Took};

use crate::Caches;
use crate::caches::give_up_sides;
use crate::hand::Hand;
use crate::names::list_numbers;
use bm_cache_lists::Rows;
use bm_class::Class;
use bm_journal::{Entry, Level, Recorder, UnitNumbers, Units};
use bm_page::Unit;
use bm_word::NoMemory;
use std::alloc::Global;
use std::collections::VecDeque;

impl<R: Recorder> Caches<R> {
    /// Caches of a processor, each class filled with its units one by one, so that the last one is on top. A `fill` is
    /// recorded for each. All memory of the lists and hands is taken here, for as many units as there are numbers; no
    /// later call takes any but the recorder's. The refusal is want of memory and hands all back. From
    /// `bpf_mem_alloc_init` and `prefill_mem_cache` of kernel/bpf/memalloc.c.
    pub fn create(
        alloc: Global,
        processor: u8,
        units: Vec<(Class, Vec<Unit>)>,
        recorder: R,
    ) -> Result<Caches<R>, (Vec<(Class, Vec<Unit>)>, R)>
        requires ascend { Ascending (map (λ f. (f.0, f.1.items)) units.items) }
        requires sit { FillsSit (map (λ f. (f.0, f.1.items)) units.items) }
        requires once { (n : ℕ)
            → times n (numbers_in (map (λ f. (f.0, f.1.items)) units.items)) ≤ 1 }
        requires counts { R.counts recorder ≡ no_counts }
        requires log { IfSome (R.log recorder) (λ es. es ≡ []) }
        ensures opened { IfOk result
            (λ c. Opened R.log R.counts processor (map (λ f. (f.0, f.1.items)) units.items) c) }
        ensures refused { IfErr result (λ back. (back.0 ≡ units) × (back.1 ≡ recorder)) }
    {
        let Ok(numbers) = all_numbers(alloc, &units) else {
            return Err((units, recorder));
        };
        let Ok(rows) = Rows::new(alloc, processor) else {
            return Err((units, recorder));
        };
        match new_sides(alloc) {
            Ok(sides) => {
                let mut caches = Caches {
                    alloc,
                    processor,
                    rows,
                    sides,
                    step: 1,
                    first_lent: false,
                    recorder,
                };
                caches.fill_all(units, numbers);
                Ok(caches)
            }
            Err(_refused) => {
                rows.give_up();
                Err((units, recorder))
            }
        }
    }

    /// Fills one class after the other.
    fn fill_all(&mut self, units: Vec<(Class, Vec<Unit>)>, numbers: Vec<Vec<u16>>)
        requires placed { Placed R.log R.counts self.old }
        requires sit { FillsSit (map (λ f. (f.0, f.1.items)) units.items) }
        requires fresh { (n : ℕ)
            → stands n (seen number_of (shown self.old))
            + times n (numbers_in (map (λ f. (f.0, f.1.items)) units.items))
            ≤ 1 }
        requires numbers { map (λ v. v.items) numbers.items
            ≡ map (λ f. map number_of f.1.items) units.items }
        ensures { Filled R.log R.counts (map (λ f. (f.0, f.1.items)) units.items) self.old
            self.new }
    {
        let mut rest = VecDeque::from_vec(units);
        let mut names = VecDeque::from_vec(numbers);
        while let Some((class, list)) = rest.pop_front() {
            match names.pop_front() {
                Some(listed) => self.fill(class, list, listed),
                None => unreachable!(),
            }
        }
        rest.destroy_empty();
    }

    /// Fills one class, and records it.
    fn fill(&mut self, class: Class, units: Vec<Unit>, numbers: Vec<u16>)
        requires placed { Placed R.log R.counts self.old }
        requires sit { All (Sits class) units.items }
        requires fresh { (n : ℕ)
            → stands n (seen number_of (shown self.old)) + times n (map number_of units.items) ≤ 1 }
        requires numbers { numbers.items ≡ map number_of units.items }
        ensures class { class < 11 }
        ensures step { Took R.log 0 (Entry.Fill class (named units.items)) units.items self.old
            self.new }
        ensures placed { Placed R.log R.counts self.new }
    {
        let row = class.index() as usize;
        self.rows.fill(row, units);
        self.recorder.put(
            Level::ordinary(),
            Entry::Fill(class, Units::Whole(UnitNumbers::new(numbers))),
        );
    }
}

/// The numbers of each list of units.
fn all_numbers(alloc: Global, units: &Vec<(Class, Vec<Unit>)>) -> Result<Vec<Vec<u16>>, NoMemory>
    ensures { IfOk result
        (λ numbers. map (λ v. v.items) numbers.items
        ≡ map (λ f. map number_of f.1.items) units.now.items) }
{
    let mut numbers = Vec::with_capacity(alloc, units.len())?;
    for (_class, list) in units {
        numbers.push(list_numbers(alloc, list)?)?;
    }
    Ok(numbers)
}

/// Four empty hands.
fn new_sides(alloc: Global) -> Result<Vec<Hand>, NoMemory>
    ensures { IfOk result (λ sides. sides.items ≡ replicate 4 idle_side) }
{
    let mut sides = Vec::with_capacity(alloc, 4)?;
    for _level in 0..4u8 {
        match Hand::new(alloc) {
            Ok(side) => {
                if let Err(_refused) = sides.push(side) {
                    unreachable!();
                }
            }
            Err(refused) => {
                give_up_sides(sides);
                return Err(refused);
            }
        }
    }
    Ok(sides)
}
