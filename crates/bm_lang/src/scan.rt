//! What stands at the front of some bytes.

ghost use Rattle.std.specs.Prelude.{◌≡◌, ◌<◌, ◌≤◌, length};
ghost use Rattle.bm_word.specs.Word.{is_run_byte};
ghost use Rattle.bm_lang.specs.Tokens.{sort, sort_of, number_sort, word_sort, is_separator, run_length, token_length};

use crate::keyword::keyword_of;
use crate::token::{Token, TokenFault};
use bm_word::read_number;

/// Whether a byte separates tokens: a space, a tab, a line feed or a carriage return.
pub fn is_separator(byte: u8) -> bool
    ensures { result ≡ is_separator byte }
{
    matches!(byte, b' ' | b'\t' | b'\n' | b'\r')
}

fn is_run_byte(byte: u8) -> bool
    ensures { result ≡ is_run_byte byte }
{
    byte.is_ascii_alphanumeric() || byte == b'_'
}

// How many bytes at the front stand in a run.
fn run_len(bytes: &[u8]) -> usize
    ensures { result ≡ run_length bytes.now }
{
    let mut len = 0;
    while len < bytes.len() && is_run_byte(bytes[len]) {
        len += 1;
    }
    len
}

/// How many bytes at the front are one run or one byte that is in none.
pub fn token_len(bytes: &[u8]) -> usize
    requires { 0 < length bytes.now }
    ensures in_range { result ≤ length bytes.now }
    ensures some { 0 < result }
    ensures length { result ≡ token_length bytes.now }
{
    let len = run_len(bytes);
    if len == 0 { 1 } else { len }
}

/// The token with these bytes, which are one run or one byte.
pub fn token_of(bytes: &[u8]) -> Token<'_>
    requires { 0 < length bytes.now }
    ensures { sort result ≡ sort_of bytes.now }
{
    match bytes[0] {
        b'{' => Token::Open,
        b'}' => Token::Close,
        b'0'..=b'9' => number_of(bytes),
        first if is_run_byte(first) => word_of(bytes),
        _ => Token::Wrong(TokenFault::Byte),
    }
}

fn word_of(bytes: &[u8]) -> Token<'_>
    ensures { sort result ≡ word_sort bytes.now }
{
    if bytes.len() > 31 {
        return Token::Wrong(TokenFault::Name);
    }
    match keyword_of(bytes) {
        Some(word) => Token::Keyword(word),
        None => Token::Name(bytes),
    }
}

fn number_of(bytes: &[u8]) -> Token<'_>
    ensures { sort result ≡ number_sort bytes.now }
{
    match read_number(bytes) {
        Some(number) if number <= u32::MAX as u64 => Token::Number(number as u32),
        _ => Token::Wrong(TokenFault::Number),
    }
}
