//! A law of the right to units.

ghost use Rattle.std.specs.Prelude.{List, ℕ};
ghost use Rattle.std.specs.List.{All};
ghost use Rattle.bm_page.specs.UnitState.{UnitState};
ghost use Rattle.bm_post.specs.Calls.{Takes};
ghost use Rattle.bm_grace.specs.Rights.{Rights};
ghost use Rattle.bm_post.specs.Rights.{Holds, MayLeave};

/// Units that were fetched or received are mine, each of them once, and may be sent or put back at once.
pub fn taken_law()
    ensures holds { (class : ℕ) (units : List UnitState) (before now : Rights)
        → Takes class units before now → Holds now units }
    ensures may_leave { (class : ℕ) (units : List UnitState) (before now : Rights)
        → Takes class units before now → All (MayLeave now) units }
{}
