//! One token.

use crate::keyword::Keyword;
use crate::place::Place;

/// Why some bytes are no token.
#[derive(Clone, Copy, Debug, PartialEq, Eq)]
pub enum TokenFault {
    /// The byte can't begin a token.
    Byte,
    /// A run that begins with a digit is no number of 32 bits, or has a leading zero.
    Number,
    /// The word has more than 31 bytes.
    Name,
}

/// A token, the end of the text, or what is neither. A run is as many ASCII letters, digits and `_` as stand together.
/// What is a token is this project's own rule.
#[derive(Clone, Copy, Debug, PartialEq, Eq)]
pub enum Token<'a> {
    /// `{`
    Open,
    /// `}`
    Close,
    /// A run of digits, without a leading zero but for `0` itself.
    Number(u32),
    /// A reserved word.
    Keyword(Keyword),
    /// The bytes of any other word of at most 31 bytes.
    Name(&'a [u8]),
    /// The end of the text.
    End,
    /// A byte or a run that is no token.
    Wrong(TokenFault),
}

/// A token with the place of its first byte. The end has the place behind the last byte of the text.
#[derive(Clone, Copy, Debug, PartialEq, Eq)]
pub struct Placed<'a> {
    pub token: Token<'a>,
    pub place: Place,
}
