//! The words of a line.

ghost use Rattle.std.specs.Prelude.{◌≡◌, ◌==◌, IfOk};
ghost use Rattle.bm_journal_reader.specs.Pieces.{texts};
ghost use Rattle.bm_law_text.specs.Pieces.{words};

use bm_word::NoMemory;
use std::alloc::Global;

/// The words of a line, which its spaces part.
pub fn words_of(alloc: Global, line: &[u8]) -> Result<Vec<&[u8]>, NoMemory>
    ensures { IfOk result (λ ws. texts ws.items ≡ words line.now) }
{
    let words = line.split(|b| *b == b' ').collect(alloc)?;
    Ok(words)
}
