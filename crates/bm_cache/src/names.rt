//! The names of units, as an entry lists them.

ghost use Rattle.bm_journal.specs.UnitCount.{unit_count};
ghost use Rattle.bm_journal.specs.WellFormed.{is_whole};
ghost use Rattle.bm_cache.specs.Tokens.{number_of};
ghost use Rattle.std.specs.Prelude.{IsTrue, map, ◌≡◌, ◌+◌, ◌<◌, ◌≤◌, ◌++◌, ◌∷◌, ◌↔◌, ℕ, [], true, length, drop, reverse, IfOk, MatchOption, flat_map, vec_capacity, vec_len};

use bm_journal::{UnitNumbers, Units};
use bm_page::Unit;
use bm_word::NoMemory;
use std::alloc::Global;

/// The numbers of units, in one request for memory. The refusal is out of memory.
pub(crate) fn list_numbers(alloc: Global, units: &Vec<Unit>) -> Result<Vec<u16>, NoMemory>
    ensures { IfOk result (λ numbers. numbers.items ≡ map number_of units.now.items) }
{
    let mut numbers = Vec::with_capacity(alloc, units.len())?;
    for unit in units {
        numbers.push(unit.number())?;
    }
    Ok(numbers)
}

/// The numbers of units, as an entry names them; where there is no memory for them, how many they are.
pub(crate) fn list_names(alloc: Global, units: &Vec<Unit>) -> Units
    requires { length units.now.items ≤ 65536 }
    ensures count { unit_count result ≡ length units.now.items }
    ensures whole { IsTrue (is_whole result)
        → result ≡ Units.Whole (map number_of units.now.items) }
{
    match list_numbers(alloc, units) {
        Ok(numbers) => Units::Whole(UnitNumbers::new(numbers)),
        Err(_refused) => Units::Counted(units.len() as u32),
    }
}
