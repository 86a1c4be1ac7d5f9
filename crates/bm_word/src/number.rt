//! Numbers as decimal digits.

ghost use Rattle.std.specs.Prelude.{◌≡◌, ◌++◌, OnOk, OnErr, decimal};
ghost use Rattle.bm_word.specs.Number.{number_of, number_behind, NumbersRoundTrip};

use crate::memory::NoMemory;
use itoa::Buffer;

/// Appends the decimal digits of a number, without a leading zero. At want of memory nothing changes.
pub fn put_number(out: &mut Vec<u8>, number: u64) -> Result<(), NoMemory>
    ensures ok { OnOk result (out.new.items ≡ out.old.items ++ decimal number) }
    ensures err { OnErr result (out.new.items ≡ out.old.items) }
{
    // Most numbers of a journal have one digit, and need no buffer.
    if number < 10 {
        out.push(b'0' + number as u8)?;
        return Ok(());
    }
    let mut buffer = Buffer::new();
    out.extend_from_slice(buffer.format(number).as_bytes())?;
    Ok(())
}

/// The number whose decimal digits these bytes are. None exactly where they aren't the digits of a number below
/// 2^64 without a leading zero; `0` itself is one.
pub fn read_number(bytes: &[u8]) -> Option<u64>
    ensures { result ≡ number_of bytes.now }
{
    match bytes {
        [] | [b'0', _, ..] => None,
        _ => digits_value(bytes),
    }
}

// The value of some digits, however many zeros they begin with.
fn digits_value(bytes: &[u8]) -> Option<u64>
    ensures { result ≡ number_behind 0 bytes.now }
{
    let mut number = 0u64;
    for byte in bytes {
        if !byte.is_ascii_digit() {
            return None;
        }
        number = number.checked_mul(10)?.checked_add((*byte - b'0') as u64)?;
    }
    Some(number)
}

/// What is printed is read back, and only that is read.
pub fn numbers_round_trip()
    ensures { NumbersRoundTrip }
{}
