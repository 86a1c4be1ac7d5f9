//! Levels of calls.

ghost use Rattle.std.specs.Prelude.{◌≡◌, ◌≤◌, ℕ};
ghost use Rattle.std.specs.Option.{SomeIff};

use std::marker::Model;

/// The level of a call: 0 is ordinary code, 1 to 3 are handlers, each of which may interrupt those below it.
/// Contracts see its number. The levels are this project's own; they stand for the kernel's contexts.
#[derive(Clone, Copy, Debug, PartialEq, Eq, PartialOrd, Ord)]
pub struct Level(u8);

impl Model for Level {
    ghost Value = { ℕ };

    ghost view = { λ level. level.0 };

    ghost invariant = { λ level. level.0 ≤ 3 };

    ghost inverse = { λ number. record { 0 = number } };
}

impl Level {
    /// The level with this number. None exactly above 3.
    pub fn new(number: u8) -> Option<Level>
        ensures { SomeIff result (number ≤ 3) number }
    {
        if number <= 3 {
            Some(Level(number))
        } else {
            None
        }
    }

    /// The level of ordinary code, 0.
    pub fn ordinary() -> Level
        ensures { result ≡ 0 }
    {
        Level(0)
    }

    /// The number of the level, 0 to 3.
    pub fn number(self) -> u8
        ensures same { result ≡ self }
        ensures bound { result ≤ 3 }
    {
        self.0
    }
}
