//! How many lives each unit has begun.

ghost use Rattle.std.specs.Prelude.{◌≡◌, ◌<◌, ◌^◌, ℕ, IfOk, length, slice_set};
ghost use Rattle.bm_world.specs.LivingState.{begun_at};

use bm_word::NoMemory;
use std::alloc::Global;

/// How many unit numbers there are.
const NUMBERS: usize = 65_536;

/// A count for each unit number.
#[derive(Drop)]
pub struct Begun {
    /// By number, how many lives the unit has begun.
    pub counts: Vec<u32>,
}

impl Begun {
    /// No unit has begun a life. All memory is taken here.
    pub fn new(alloc: Global) -> Result<Begun, NoMemory>
        ensures size { IfOk result (λ b. length b.counts.items ≡ 2 ^ 16) }
        ensures none { IfOk result (λ b. (n : ℕ) → begun_at b.counts.items n ≡ 0) }
    {
        let mut counts = Vec::with_capacity(alloc, NUMBERS)?;
        for _place in 0..NUMBERS {
            if let Err(_refused) = counts.push(0) {
                unreachable!();
            }
        }
        Ok(Begun { counts })
    }

    /// Says how many lives a unit has begun.
    pub fn set(&mut self, number: u16, count: u32)
        requires size { length self.old.counts.items ≡ 2 ^ 16 }
        ensures { self.new.counts.items ≡ slice_set self.old.counts.items number count }
    {
        self.counts[number as usize] = count;
    }
}
