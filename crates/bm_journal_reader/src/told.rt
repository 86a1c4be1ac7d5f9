//! What one line says.

ghost use Rattle.std.specs.Prelude.{◌≡◌, None, IfOk, find, option_map};
ghost use Rattle.bm_law_text.specs.declared.line.Line.TheVariants.{Size};
ghost use Rattle.std.specs.Str.{bytes_eq};
ghost use Rattle.bm_journal.specs.TotalNames.{total_name};
ghost use Rattle.bm_journal_reader.specs.Pieces.{texts};
ghost use Rattle.bm_law_text.specs.Reading.{size_words, class_words, processor_words, graph_words, total_words, past_line_words, body_titled, body_line_of};

use crate::entry::entry_of;
use crate::history::past_call;
use crate::owners::Owners;
use crate::parts;
use bm_class::Marks;
use bm_journal::{Past, Total};
use bm_law_text::Line;
use bm_word::NoMemory;
use std::alloc::Global;

/// How many processors and pages there are.
pub fn size_words(words: &[&[u8]]) -> Option<(u8, u16)>
    ensures { option_map (λ s. Size s.0 s.1) result ≡ size_words (texts words.now) }
{
    let [processors, by, pages] = words else {
        return None;
    };
    if *by != b"pages".as_slice() {
        return None;
    }
    let processors = parts::byte(processors)?;
    let pages = parts::short(pages)?;
    Some((processors, pages))
}

fn class_words(words: &[&[u8]]) -> Option<Line>
    ensures { result ≡ class_words (texts words.now) }
{
    let [class, marks, low, high, batch] = words else {
        return None;
    };
    if *marks != b"marks".as_slice() {
        return None;
    }
    let class = parts::class(class)?;
    let low = parts::number(low)?;
    let high = parts::number(high)?;
    let batch = parts::number(batch)?;
    Some(Line::Class(class, Marks { low, high, batch }))
}

fn processor_words(words: &[&[u8]]) -> Option<Line>
    ensures { result ≡ processor_words (texts words.now) }
{
    let [processor] = words else {
        return None;
    };
    Some(Line::Processor(parts::long(processor)?))
}

fn graph_words(words: &[&[u8]]) -> Option<Line>
    ensures { result ≡ graph_words (texts words.now) }
{
    let [name] = words else {
        return None;
    };
    Some(Line::Graph(parts::name(name)?))
}

// The first of some totals with this name.
fn total_named(totals: &[Total], name: &[u8]) -> Option<Total>
    ensures { result ≡ find (λ t. bytes_eq (total_name t) name.now) totals.now }
{
    totals.iter().copied().find(|total| total.name() == name)
}

fn total_words(words: &[&[u8]]) -> Option<Line>
    ensures { result ≡ total_words (texts words.now) }
{
    let [name, value] = words else {
        return None;
    };
    let total = total_named(&Total::all(), name)?;
    Some(Line::Total(total, parts::long(value)?))
}

fn past_line_words(owners: &Owners, words: &[&[u8]]) -> Option<Line>
    ensures { result ≡ past_line_words owners.now (texts words.now) }
{
    let [position, by, processor, serial, call @ ..] = words else {
        return None;
    };
    if *by != b"by".as_slice() {
        return None;
    }
    let position = parts::long(position)?;
    let tag = parts::tag(processor, serial)?;
    let call = past_call(owners, call)?;
    Some(Line::Past(position, Past { tag, call }))
}

/// What a line behind the first four says, where the maps have these names. None exactly where no such line has these
/// words.
pub fn body_line_of(
    alloc: Global,
    owners: &Owners,
    words: &[&[u8]],
) -> Result<Option<Line>, NoMemory>
    ensures { IfOk result (λ read. read ≡ body_line_of owners.now (texts words.now)) }
{
    let [first, rest @ ..] = words else {
        return Ok(None);
    };
    if let Some(level) = parts::level(first) {
        return match entry_of(alloc, rest)? {
            Some(entry) => Ok(Some(Line::Entry(level, entry))),
            None => Ok(None),
        };
    }
    Ok(titled(owners, first, rest))
}

// A line that doesn't begin with a level is told by its first word.
fn titled(owners: &Owners, first: &[u8], words: &[&[u8]]) -> Option<Line>
    ensures { result ≡ body_titled owners.now first.now (texts words.now) None }
{
    if first == b"at".as_slice() {
        past_line_words(owners, words)
    } else if first == b"graph".as_slice() {
        graph_words(words)
    } else if first == b"processor".as_slice() {
        processor_words(words)
    } else if first == b"total".as_slice() {
        total_words(words)
    } else if first == b"class".as_slice() {
        class_words(words)
    } else {
        None
    }
}
