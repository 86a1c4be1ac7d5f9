//! Since when a log and a side are tied.

ghost use Rattle.std.specs.Prelude.{[]};
ghost use Rattle.bm_law.specs.Lists.{Log};
ghost use Rattle.bm_world.specs.LivingState.{no_living_state};

use crate::LivingSide;
use std::marker::Brand;

/// Since when a processor's log and its side of a world are tied: what the log was then, and what the side was. Whoever runs the
/// code of a processor picks both, at a call with `Brand` for its parameter. This project's own.
pub trait Since<W> {
    ghost since: { Log };

    ghost start: { W };
}

impl Since<LivingSide> for Brand {
    ghost since = { [] };

    ghost start = { no_living_state };
}
