//! The reader.

ghost use Rattle.std.specs.Prelude.{◌≡◌, ◌<◌, ◌==◌, IfErr, IfOk, IfSome, MatchOption, MatchResult, false, None, length, option_map, position};
ghost use Rattle.bm_journal_reader.specs.Faults.{FaultSays, Finished, IsFirstLine, Kept, NamesFirst, is_done};
ghost use Rattle.bm_journal_reader.specs.Drafts.{IsSound, draft_lines, draft_stage, stage_maps};
ghost use Rattle.bm_law_text.specs.Fits.{Each, JournalFits, LineFits};
ghost use Rattle.bm_journal.specs.JournalText.{journal_text};

use crate::body::{Body, Part};
use crate::draft::{Draft, Head};
use crate::fault::JournalFault;
use crate::pieces::words_of;
use bm_journal::{Histories, Journal, Logs, Names, Opened, Totals};
use bm_word::numbers_round_trip;
use std::alloc::Global;

// The first line and what is behind its line feed. None where there is no line feed.
fn first_line(bytes: &[u8]) -> Option<(&[u8], &[u8])>
    ensures { IsFirstLine bytes.now (option_map (λ cut. (cut.0.now, cut.1.now)) result) }
{
    let end = end_of_line(bytes)?;
    let (line, behind) = bytes.split_at(end);
    match behind {
        [_, left @ ..] => Some((line, left)),
        [] => None,
    }
}

// Where the first line feed is.
fn end_of_line(bytes: &[u8]) -> Option<usize>
    ensures place { result ≡ position (λ b. b == 10) bytes.now }
    ensures inside { IfSome result (λ end. end < length bytes.now) }
{
    bytes.iter().position(|b| *b == b'\n')
}

// Takes all lines, and answers what is behind the last line feed, with its number as a line.
fn read_lines<'a>(
    alloc: Global,
    draft: &mut Draft,
    bytes: &'a [u8],
) -> Result<(&'a [u8], u64), JournalFault>
    requires { Kept bytes.now bytes.now 1 draft.old }
    ensures { MatchResult result
        (λ left. Kept bytes.now left.0.now left.1 draft.new × IsFirstLine left.0.now None)
        (FaultSays bytes.now) }
{
    numbers_round_trip();
    let mut rest = bytes;
    let mut line = 1u64;
    while let Some((first, left)) = first_line(rest) {
        let Ok(words) = words_of(alloc, first) else {
            return Err(JournalFault::NoMemory);
        };
        let Ok(taken) = draft.take(alloc, words.as_slice()) else {
            return Err(JournalFault::NoMemory);
        };
        if !taken {
            return Err(JournalFault::Bad(line));
        }
        rest = left;
        line += 1;
    }
    Ok((rest, line))
}

// The journal, where all of it is read.
fn finish(draft: Draft) -> Option<Journal>
    requires sound { IsSound draft }
    requires fit { Each (LineFits (stage_maps (draft_stage draft))) (draft_lines draft) }
    ensures { MatchOption result (is_done (draft_stage draft) ≡ false) (λ j. Finished draft j) }
{
    let Draft {
        head,
        processors,
        pages,
        types,
        maps,
        owners: _owners,
        scripts,
        body,
    } = draft;
    let Body {
        classes,
        logs,
        graphs,
        totals,
        part,
    } = body;
    match head {
        Head::Behind => {}
        _ => return None,
    }
    match part {
        Part::Totals => {}
        _ => return None,
    }
    if totals.len() != 19 {
        return None;
    }
    let mut values = [0u64; 19];
    values.copy_from_slice(totals.as_slice());
    Some(Journal {
        processors,
        pages,
        types: Names::new(types),
        maps: Names::new(maps),
        scripts: Names::new(scripts),
        classes: Opened::new(classes),
        logs: Logs::new(logs),
        graphs: Histories::new(graphs),
        totals: Totals::new(values),
    })
}

/// The journal whose text these bytes are. Otherwise the first line up to which no journal's text agrees with them: in the lines
/// before it some journal's does.
///
/// Lines are counted from 1; a line is taken with its line feed, and the end of the text counts as a line. The time and the memory
/// are linear in the bytes.
pub fn read_journal(alloc: Global, bytes: &[u8]) -> Result<Journal, JournalFault>
    ensures text { IfOk result (λ j. journal_text j ≡ bytes.now) }
    ensures fits { IfOk result (λ j. JournalFits j) }
    ensures fault { IfErr result (NamesFirst bytes.now) }
{
    numbers_round_trip();
    let mut draft = Draft::new(alloc);
    let (rest, line) = match read_lines(alloc, &mut draft, bytes) {
        Ok(left) => left,
        Err(fault) => return Err(fault),
    };
    if !rest.is_empty() {
        return Err(JournalFault::Bad(line));
    }
    match finish(draft) {
        Some(journal) => Ok(journal),
        None => Err(JournalFault::Bad(line)),
    }
}
