//! Units that go back to the pool.

ghost use Rattle.std.specs.Prelude.{◌≡◌, ◌≤◌, ℕ, reverse, true};
ghost use Rattle.std.specs.List.{All};
ghost use Rattle.bm_law.specs.Stands.{times};
ghost use Rattle.bm_page.specs.UnitState.{UnitState};
ghost use Rattle.bm_page.specs.Stock.{stocked_at};
ghost use Rattle.bm_post.specs.Rights.{numbers};
ghost use Rattle.bm_post.specs.PostState.{all_returned};

use bm_page::{Pool, Unit};

/// Puts units back into the pool that they are out of, the last one first. No unit is there twice.
pub fn put_all_back(pool: &mut Pool, units: Vec<Unit>)
    requires out { All (λ (unit : UnitState). (stocked_at pool.old.units unit.number).out ≡ true)
        units.items }
    requires once { (n : ℕ) → times n (numbers units.items) ≤ 1 }
    ensures { pool.new ≡ all_returned (reverse units.items) pool.old }
{
    let mut units = units;
    while let Some(unit) = units.pop() {
        pool.put_back(unit);
    }
    units.destroy_empty();
}
