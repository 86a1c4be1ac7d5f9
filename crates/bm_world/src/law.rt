//! What holds of units while grace periods go on.

ghost use Rattle.std.specs.Prelude.{List};
ghost use Rattle.std.specs.List.{All};
ghost use Rattle.bm_page.specs.UnitState.{UnitState};
ghost use Rattle.bm_grace.specs.Rights.{Ages, Rights};
ghost use Rattle.bm_post.specs.Rights.{Holds, MayLeave};

/// Over calls on grace periods, units that are mine stay mine, and those that may be sent or put back may be so still.
pub fn aged_law()
    ensures join { (a b c : Rights) → Ages a b → Ages b c → Ages a c }
    ensures holds { (units : List UnitState) (before now : Rights) → Ages before now
        → Holds before units → Holds now units }
    ensures may_leave { (units : List UnitState) (before now : Rights) → Ages before now
        → All (MayLeave before) units → All (MayLeave now) units }
{}
