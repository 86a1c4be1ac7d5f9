//! Words of a line.

ghost use Rattle.std.specs.Prelude.{◌≡◌, ◌+◌, ◌<◌, ◌∷◌, [], ◌++◌, OnOk, decimal};
ghost use Rattle.bm_journal.specs.Line.{spaced};
ghost use Rattle.bm_journal.specs.EntryText.{numbers};

use bm_word::{NoMemory, put_number};

/// Appends a word behind a space.
pub fn put_word(out: &mut Vec<u8>, word: &[u8]) -> Result<(), NoMemory>
    ensures { OnOk result (out.new.items ≡ out.old.items ++ spaced (word.now ∷ [])) }
{
    out.push(b' ')?;
    out.extend_from_slice(word)?;
    Ok(())
}

/// Appends a word that stands in the program behind a space.
pub fn put_literal<const N: usize>(out: &mut Vec<u8>, word: &[u8; N]) -> Result<(), NoMemory>
    ensures { OnOk result (out.new.items ≡ out.old.items ++ spaced (word.now ∷ [])) }
{
    out.push(b' ')?;
    out.extend_from_slice(word)?;
    Ok(())
}

// The digit of a number below ten.
fn digit(number: u64) -> u8
    requires { number < 10 }
    ensures { result ≡ 48 + number }
{
    b'0' + number as u8
}

/// Appends a number behind a space. Most numbers of a journal have one to three digits, and are written at once.
pub fn put_spaced_number(out: &mut Vec<u8>, number: u64) -> Result<(), NoMemory>
    ensures { OnOk result (out.new.items ≡ out.old.items ++ spaced (decimal number ∷ [])) }
{
    if number < 10 {
        out.extend_from_slice(&[b' ', digit(number)])?;
    } else if number < 100 {
        out.extend_from_slice(&[b' ', digit(number / 10), digit(number % 10)])?;
    } else if number < 1000 {
        out.extend_from_slice(&[
            b' ',
            digit(number / 100),
            digit(number / 10 % 10),
            digit(number % 10),
        ])?;
    } else {
        out.push(b' ')?;
        put_number(out, number)?;
    }
    Ok(())
}

/// Appends numbers, each behind a space.
pub fn put_numbers(out: &mut Vec<u8>, items: &[u32]) -> Result<(), NoMemory>
    ensures { OnOk result (out.new.items ≡ out.old.items ++ spaced (numbers items.now)) }
{
    for item in items {
        put_spaced_number(out, *item as u64)?;
    }
    Ok(())
}

/// Appends numbers of units, each behind a space.
pub fn put_unit_numbers(out: &mut Vec<u8>, units: &[u16]) -> Result<(), NoMemory>
    ensures { OnOk result (out.new.items ≡ out.old.items ++ spaced (numbers units.now)) }
{
    for unit in units {
        put_spaced_number(out, *unit as u64)?;
    }
    Ok(())
}
