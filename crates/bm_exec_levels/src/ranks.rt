//! The four levels.

ghost use Rattle.std.specs.Prelude.{◌≡◌, ◌+◌, ◌<◌, ◌≤◌, ℕ};
ghost use Rattle.bm_exec_levels.specs.AtProcessor.{Between, FineAt, IsAt, IsDue, SameLives, due_cost};
ghost use Rattle.bm_exec_levels.specs.AtTie.{TiedAt};
ghost use Rattle.bm_plan.specs.Position.{AboutTo};

use crate::handlers::run_one;
use crate::processor::Processor;
use crate::program::Program;
use bm_due::Due;
use bm_journal::Level;
use bm_world::{Lives, Since};

/// A level, and the handlers that run above it.
pub trait Rank {
    /// Its number.
    ghost number: { ℕ };

    /// The level.
    fn level() -> Level
        ensures number { result ≡ number }
        ensures bound { number ≤ 3 };

    /// Runs a handler that is due before a step of code of this level, on the machine of its own level, which is above it. Above
    /// level 3 there is none, and nothing is done.
    fn interrupt<'s, W: Lives, B: Since<W>>(
        own: &mut Processor<W>,
        program: &'s Program<'s>,
        due: &Due,
    )
        requires due { number < 3 → IsDue W.Knows number program.now due.now own.old }
        requires tied { TiedAt W.Knows B.since B.start own.old }
        requires fine { FineAt W.Knows (number + 1) own.old }
        ensures at { number < 3 → IsAt W.Knows AboutTo number program.now own.new }
        ensures tied { TiedAt W.Knows B.since B.start own.new }
        ensures between { number < 3
            → Between W.Knows (due_cost program.now due.now) 2 (number + 1) program.now own.old
            own.new }
        ensures lives { SameLives W.Knows own.old own.new };
}

/// Level 0, of ordinary code.
pub struct Ordinary;

/// Level 1.
pub struct First;

/// Level 2.
pub struct Second;

/// Level 3, above which no handler runs.
pub struct Third;

// The level of this number.
fn level_of(number: u8) -> Level
    requires { number ≤ 3 }
    ensures { result ≡ number }
{
    match Level::new(number) {
        Some(level) => level,
        None => unreachable!(),
    }
}

impl Rank for Third {
    ghost number = { 3 };

    fn level() -> Level {
        level_of(3)
    }

    fn interrupt<'s, W: Lives, B: Since<W>>(
        _own: &mut Processor<W>,
        _program: &'s Program<'s>,
        _due: &Due,
    ) {}
}

impl Rank for Second {
    ghost number = { 2 };

    fn level() -> Level {
        level_of(2)
    }

    fn interrupt<'s, W: Lives, B: Since<W>>(
        own: &mut Processor<W>,
        program: &'s Program<'s>,
        due: &Due,
    ) {
        run_one::<W, B, Third>(own, program, due);
    }
}

impl Rank for First {
    ghost number = { 1 };

    fn level() -> Level {
        level_of(1)
    }

    fn interrupt<'s, W: Lives, B: Since<W>>(
        own: &mut Processor<W>,
        program: &'s Program<'s>,
        due: &Due,
    ) {
        if due.level.number() == 2 {
            run_one::<W, B, Second>(own, program, due);
        } else {
            run_one::<W, B, Third>(own, program, due);
        }
    }
}

impl Rank for Ordinary {
    ghost number = { 0 };

    fn level() -> Level {
        level_of(0)
    }

    fn interrupt<'s, W: Lives, B: Since<W>>(
        own: &mut Processor<W>,
        program: &'s Program<'s>,
        due: &Due,
    ) {
        match due.level.number() {
            1 => run_one::<W, B, First>(own, program, due),
            2 => run_one::<W, B, Second>(own, program, due),
            _ => run_one::<W, B, Third>(own, program, due),
        }
    }
}
