//! What each unit waits for.

ghost use Rattle.std.specs.Prelude.{◌≡◌, ◌<◌, ◌^◌, ℕ, IfOk, length, slice_set};
ghost use Rattle.bm_world.specs.Standings.{copied, left_by, standing_at, standing_of as standing_of_seal};
ghost use Rattle.bm_world.specs.declared.standing.Standing.TheVariants.{Nothing as WaitsForNothing};

use crate::wait::Wait;
use bm_page::{Seal, Unit};
use bm_word::NoMemory;
use std::alloc::Global;

/// How many unit numbers there are.
const NUMBERS: usize = 65_536;

/// What a unit waits for since its last life ended, or has waited for. This project's own.
#[derive(Clone, Copy)]
pub enum Standing {
    /// It waits for nothing, and has no seal.
    Nothing,
    /// It was freed with delay, and waits since then.
    Waits(Wait),
    /// It has waited, and has this seal.
    Sealed(Seal),
}

/// What a unit with a seal, or without one, has waited for.
fn standing_of(seal: Option<Seal>) -> Standing
    ensures { result ≡ standing_of_seal seal }
{
    match seal {
        None => Standing::Nothing,
        Some(seal) => Standing::Sealed(seal),
    }
}

/// A standing for each unit number, and room to remember standings, so that units may come back.
#[derive(Drop)]
pub struct Standings {
    /// By number, what the unit waits for.
    pub standings: Vec<Standing>,
    /// By number, what the unit waited for when it went away last.
    pub before: Vec<Standing>,
}

/// Nothing, for each unit number.
fn nothing(alloc: Global) -> Result<Vec<Standing>, NoMemory>
    ensures size { IfOk result (λ v. length v.items ≡ 2 ^ 16) }
    ensures none { IfOk result (λ v. (n : ℕ) → standing_at v.items n ≡ WaitsForNothing) }
{
    let mut standings = Vec::with_capacity(alloc, NUMBERS)?;
    for _place in 0..NUMBERS {
        if let Err(_refused) = standings.push(Standing::Nothing) {
            unreachable!();
        }
    }
    Ok(standings)
}

/// Units stand in one list as in another.
fn copy_standings(to: &mut Vec<Standing>, from: &Vec<Standing>, units: &Vec<Unit>)
    requires to { length to.old.items ≡ 2 ^ 16 }
    requires from { length from.now.items ≡ 2 ^ 16 }
    ensures { to.new.items ≡ copied units.now.items from.now.items to.old.items }
{
    let mut place = 0;
    while place < units.len() {
        let number = units[place].number() as usize;
        to[number] = from[number];
        place += 1;
    }
}

impl Standings {
    /// No unit waits. All memory is taken here.
    pub fn new(alloc: Global) -> Result<Standings, NoMemory>
        ensures size { IfOk result (λ s. length s.standings.items ≡ 2 ^ 16) }
        ensures room { IfOk result (λ s. length s.before.items ≡ 2 ^ 16) }
        ensures none { IfOk result
            (λ s. (n : ℕ) → standing_at s.standings.items n ≡ WaitsForNothing) }
    {
        let standings = nothing(alloc)?;
        let before = nothing(alloc)?;
        Ok(Standings { standings, before })
    }

    /// Says what a unit waits for.
    pub fn set(&mut self, number: u16, standing: Standing)
        requires size { length self.old.standings.items ≡ 2 ^ 16 }
        ensures standings { self.new.standings.items
            ≡ slice_set self.old.standings.items number standing }
        ensures before { self.new.before.items ≡ self.old.before.items }
    {
        self.standings[number as usize] = standing;
    }

    /// Units go away, each with what it has waited for.
    pub fn leave(&mut self, units: &Vec<Unit>)
        requires size { length self.old.standings.items ≡ 2 ^ 16 }
        requires room { length self.old.before.items ≡ 2 ^ 16 }
        ensures standings { self.new.standings.items
            ≡ left_by units.now.items self.old.standings.items }
        ensures before { self.new.before.items
            ≡ copied units.now.items self.old.standings.items self.old.before.items }
    {
        copy_standings(&mut self.before, &self.standings, units);
        let mut place = 0;
        while place < units.len() {
            let standing = standing_of(units[place].seal());
            self.set(units[place].number(), standing);
            place += 1;
        }
    }

    /// Units that went away last come back, and wait for what they did.
    pub fn come_back(&mut self, units: &Vec<Unit>)
        requires size { length self.old.standings.items ≡ 2 ^ 16 }
        requires room { length self.old.before.items ≡ 2 ^ 16 }
        ensures standings { self.new.standings.items
            ≡ copied units.now.items self.old.before.items self.old.standings.items }
        ensures before { self.new.before.items ≡ self.old.before.items }
    {
        copy_standings(&mut self.standings, &self.before, units);
    }
}
