//! Numbers and names to the end of a line.

ghost use Rattle.std.specs.Prelude.{◌≡◌, ◌^◌, IfOk, option_map};
ghost use Rattle.bm_journal_reader.specs.Pieces.{texts};
ghost use Rattle.bm_law_text.specs.Parts.{numbers, names, few};

use crate::parts;
use arrayvec::ArrayVec;
use bm_journal::{UnitNumbers, Values, Words};
use bm_word::{Name, NoMemory};
use std::alloc::Global;

/// Numbers of units.
pub fn unit_numbers(alloc: Global, words: &[&[u8]]) -> Result<Option<UnitNumbers>, NoMemory>
    ensures { IfOk result (λ read. read ≡ numbers (2 ^ 16) (texts words.now)) }
{
    let mut units = Vec::new(alloc);
    for word in words {
        let Some(unit) = parts::short(word) else {
            return Ok(None);
        };
        units.push(unit)?;
    }
    Ok(Some(UnitNumbers::new(units)))
}

// At most 16 numbers.
fn few(words: &[&[u8]]) -> Option<ArrayVec<u32, 16>>
    ensures { option_map (λ few. few.items) result ≡ few 16 (texts words.now) }
{
    if words.len() > 16 {
        return None;
    }
    let mut few = ArrayVec::new();
    for word in words {
        let Some(number) = parts::number(word) else {
            return None;
        };
        match few.try_push(number) {
            Ok(()) => {}
            Err(_) => return None,
        }
    }
    Some(few)
}

/// The words that a period looked at.
pub fn section_words(words: &[&[u8]]) -> Option<Words>
    ensures { result ≡ few 16 (texts words.now) }
{
    Words::new(few(words)?.as_slice())
}

/// The values of fields.
pub fn values(words: &[&[u8]]) -> Option<Values>
    ensures { result ≡ few 8 (texts words.now) }
{
    Values::new(few(words)?.as_slice())
}

/// Names.
pub fn names(alloc: Global, words: &[&[u8]]) -> Result<Option<Vec<Name>>, NoMemory>
    ensures { IfOk result
        (λ read. option_map (λ names. names.items) read ≡ names (texts words.now)) }
{
    let mut names = Vec::new(alloc);
    for word in words {
        let Some(name) = parts::name(word) else {
            return Ok(None);
        };
        names.push(name)?;
    }
    Ok(Some(names))
}
