//! Reading a text token by token.

ghost use Rattle.std.specs.Prelude.{◌≡◌, ℕ, ◌+◌, ◌-◌, ◌<◌, ◌≤◌, ◌^◌, length};

use crate::place::Place;
use crate::scan;
use crate::token::{Placed, Token};

/// What is left to read of a text, and where it stands. Contracts see `left`, the tokens that are left with their
/// places, the end of the text last.
#[derive(Clone, Copy, Debug)]
pub struct Tokens<'a> {
    rest: &'a [u8],
    place: Place,
    ghost lines_fit: { place.line + length rest.now < 2 ^ 32 },
    ghost columns_fit: { place.column + length rest.now < 2 ^ 32 },
}

impl<'a> Tokens<'a> {
    ghost use Rattle.std.specs.Prelude.{List};
    ghost use Rattle.bm_lang.specs.Tokens.{Mark, End, placed, tokens, start, Begins, IsLegal, pieces, StartsWithNoSeparator};
    ghost use Rattle.bm_lang.specs.Left.{left};

    /// The tokens of a text. The bound on its length lets its lines and columns be counted.
    pub fn new(bytes: &'a [u8]) -> Tokens<'a>
        requires { length bytes.now < 2 ^ 32 - 1 }
        ensures { left result ≡ tokens start bytes.now }
    {
        Tokens {
            rest: bytes,
            place: Place::START,
        }
    }

    /// The next token, which is taken. Behind the end is the end again, at the same place. A name is a word, and no
    /// reserved one.
    pub fn take(&mut self) -> Placed<'a>
        ensures begins { Begins (left self.old) (placed result) (left self.new) }
        ensures ended { (placed result).sort ≡ End → left self.new ≡ left self.old }
        ensures legal { IsLegal (placed result).sort }
    {
        self.skip_separators();
        let place = self.place;
        let rest = self.rest;
        if rest.is_empty() {
            return Placed {
                token: Token::End,
                place,
            };
        }
        let (bytes, rest) = rest.split_at(scan::token_len(rest));
        let column = place.column + bytes.len() as u32;
        *self = Tokens {
            rest,
            place: Place {
                line: place.line,
                column,
            },
        };
        Placed {
            token: scan::token_of(bytes),
            place,
        }
    }

    /// The next token, which stays: `take` gives the same one.
    pub fn peek(&self) -> Placed<'a>
        ensures begins { (more : List Mark) × Begins (left self.now) (placed result) more }
        ensures legal { IsLegal (placed result).sort }
    {
        let mut ahead = *self;
        ahead.take()
    }

    // Passes the separators at the front.
    fn skip_separators(&mut self)
        ensures same { pieces self.new.place self.new.rest.now
            ≡ pieces self.old.place self.old.rest.now }
        ensures past { StartsWithNoSeparator self.new.rest.now }
    {
        while let [first, rest @ ..] = self.rest {
            if !scan::is_separator(*first) {
                break;
            }
            *self = Tokens {
                rest,
                place: self.place.after(*first),
            };
        }
    }
}
