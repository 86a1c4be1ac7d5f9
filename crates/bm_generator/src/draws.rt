//! The numbers that a scenario is made with.

ghost use Rattle.std.specs.Prelude.{◌≡◌, ◌<◌};
ghost use Rattle.bm_generator.specs.Draws.{next, drawn};
ghost use Rattle.bm_generator.specs.Pieces.{piece, behind_piece};

use crate::pieces::Piece;

/// A linear congruential generator modulo 2^64, with the multiplier and the increment of Knuth's MMIX.
#[derive(Debug, Drop)]
pub struct Draws {
    pub state: u64,
}

impl Draws {
    // A number below k: the next state's upper 31 bits modulo k.
    fn below(&mut self, k: u64) -> u64
        requires { 0 < k }
        ensures state { self.new.state ≡ next self.old.state }
        ensures value { result ≡ drawn k self.new.state }
    {
        self.state = self
            .state
            .wrapping_mul(6364136223846793005)
            .wrapping_add(1442695040888963407);
        (self.state >> 33) % k
    }

    /// A piece: one of six is picked, and then its numbers are drawn in the order in which they stand.
    pub fn piece(&mut self) -> Piece
        ensures piece { result ≡ piece self.old.state }
        ensures state { self.new.state ≡ behind_piece self.old.state }
    {
        match self.below(6) {
            0 => {
                let first = self.below(100);
                let second = self.below(100);
                Piece::Push { first, second }
            }
            1 => Piece::Pop,
            2 => Piece::Plant {
                key: self.below(50),
            },
            3 => Piece::Pick,
            4 => Piece::Swap {
                value: self.below(100),
            },
            _ => Piece::Yield,
        }
    }
}
