//! How many pieces a generated script has.

ghost use Rattle.std.specs.Prelude.{◌≡◌, ◌≤◌, ℕ};
ghost use Rattle.bm_command.specs.PieceCounts.{piece_count};

use std::marker::Model;

/// How many pieces each script of a generated scenario has: 1 to 2,000. Contracts see the number. The bounds are this
/// project's own.
#[derive(Clone, Copy, Debug, PartialEq, Eq)]
pub struct PieceCount(u32);

impl Model for PieceCount {
    ghost Value = { ℕ };

    ghost view = { λ count. count.0 };

    ghost invariant = { λ count. (1 ≤ count.0) × (count.0 ≤ 2000) };

    ghost inverse = { λ number. record { 0 = number } };
}

impl PieceCount {
    /// The count of this number. None exactly where it isn't 1 to 2,000.
    pub fn new(number: u64) -> Option<PieceCount>
        ensures { result ≡ piece_count number }
    {
        if 1 <= number && number <= 2000 {
            Some(PieceCount(number as u32))
        } else {
            None
        }
    }

    /// The number, 1 to 2,000.
    pub fn number(self) -> u32
        ensures same { result ≡ self }
        ensures some { 1 ≤ result }
        ensures few { result ≤ 2000 }
    {
        self.0
    }
}
