//! The units that caches begin with.

ghost use Rattle.std.specs.Prelude.{◌≡◌, ◌∷◌, ◌++◌, [], ◌≤◌, ℕ, List, IfOk, OnOk, map, length};
ghost use Rattle.std.specs.List.{All};
ghost use Rattle.bm_page.specs.Out.{AreOut};
ghost use Rattle.bm_page.specs.UnitState.{UnitState};
ghost use Rattle.bm_cache.specs.Opening.{FillsSit};
ghost use Rattle.bm_law_scenario.specs.Fills.{prefill};
ghost use Rattle.bm_run.specs.Filling.{filling, units_in, IsUnborn, NeverLived};

use bm_class::Class;
use bm_page::{Pool, Unit};
use bm_word::NoMemory;
use std::alloc::Global;

/// Ends units.
pub(crate) fn give_up_units(units: Vec<Unit>) {
    let mut units = units;
    while let Some(unit) = units.pop() {
        unit.give_up();
    }
    units.destroy_empty();
}

/// Ends the units of classes.
pub(crate) fn give_up_fills(fills: Vec<(Class, Vec<Unit>)>) {
    let mut fills = fills;
    while let Some((_class, units)) = fills.pop() {
        give_up_units(units);
    }
    fills.destroy_empty();
}

// How many units a class's cache begins with.
fn prefill(class: Class) -> usize
    ensures { result ≡ prefill class }
{
    if class.size() <= 256 { 4 } else { 1 }
}

/// The units that the caches of these classes begin with: one class after the other fetches 4 units of at most 256
/// bytes, or 1 greater one, as far as the stock goes. Want of memory is the only refusal. From `prefill_mem_cache` of
/// kernel/bpf/memalloc.c.
pub(crate) fn fill(
    alloc: Global,
    pool: &mut Pool,
    classes: &[Class],
) -> Result<Vec<(Class, Vec<Unit>)>, NoMemory>
    requires unborn { IsUnborn pool.old.units }
    ensures fills { IfOk result
        (λ fills. map (λ f. (f.0, f.1.items)) fills.items ≡ (filling classes.now pool.old).fills) }
    ensures pool { OnOk result (pool.new ≡ (filling classes.now pool.old).pool) }
    ensures sits { IfOk result (λ fills. FillsSit (map (λ f. (f.0, f.1.items)) fills.items)) }
    ensures unlived { IfOk result
        (λ fills. All (λ (u : UnitState). NeverLived u.life u.seal)
        (units_in (map (λ f. (f.0, f.1.items)) fills.items))) }
    ensures out { IfOk result
        (λ fills. AreOut pool.new (units_in (map (λ f. (f.0, f.1.items)) fills.items))) }
    ensures unborn { IsUnborn pool.new.units }
{
    let mut fills = Vec::new(alloc);
    for class in classes {
        let mut units = Vec::new(alloc);
        if pool.fetch(*class, prefill(*class), &mut units).is_err() {
            give_up_units(units);
            give_up_fills(fills);
            return Err(NoMemory);
        }
        if let Err(refused) = fills.push((*class, units)) {
            let (_class, units) = refused.value;
            give_up_units(units);
            give_up_fills(fills);
            return Err(NoMemory);
        }
    }
    Ok(fills)
}
