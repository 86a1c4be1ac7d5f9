//! The entry of a line of a log.

ghost use Rattle.std.specs.Prelude.{◌≡◌, IfOk};
ghost use Rattle.bm_journal_reader.specs.EntryLine.{entry_said};

use crate::entry::entry_of;
use crate::parts::level;
use crate::pieces::words_of;
use bm_journal::{Entry, Level};
use bm_word::NoMemory;
use std::alloc::Global;

/// The entry that a line of a log says, with its level. The line is given without its line feed. None exactly where the
/// line says no entry. The only refusal is want of memory.
pub fn read_entry(alloc: Global, line: &[u8]) -> Result<Option<(Level, Entry)>, NoMemory>
    ensures { IfOk result (λ read. read ≡ entry_said line.now) }
{
    let words = words_of(alloc, line)?;
    let [first, rest @ ..] = words.as_slice() else {
        return Ok(None);
    };
    let Some(level) = level(first) else {
        return Ok(None);
    };
    match entry_of(alloc, rest)? {
        Some(entry) => Ok(Some((level, entry))),
        None => Ok(None),
    }
}
