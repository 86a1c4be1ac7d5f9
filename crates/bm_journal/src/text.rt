//! The text of a journal.

ghost use Rattle.std.specs.Prelude.{◌≡◌, ◌+◌, ◌≤◌, ◌<◌, ◌^◌, ◌++◌, ◌∷◌, [], IfOk, OnOk, length, decimal, codes};
ghost use Rattle.bm_journal.specs.Line.{line, spaced};
ghost use Rattle.bm_journal.specs.Form.{part_words, parts_words};
ghost use Rattle.bm_journal.specs.JournalText.{size_line, class_line, class_lines, entry_line, entry_lines, log_lines, past_line, past_lines, past_words, owner, graph_lines, total_lines, totals_text, heading, journal_text};
ghost use Rattle.bm_journal.specs.TotalNames.{all_totals, total_name};

use crate::entry::Entry;
use crate::form::{Part, put_entry, put_parts};
use crate::ids::ObjId;
use crate::journal::Journal;
use crate::level::Level;
use crate::line::put_word;
use crate::lists::History;
use crate::log::Log;
use crate::past::{Past, PastCall};
use crate::total::{Total, Totals};
use bm_class::{Class, Marks};
use bm_word::{Name, NoMemory, put_number};
use std::alloc::Global;

// A line of these words.
#[tactic(auto, unfolding(crate::specs::Line::line))]
fn put_line(out: &mut Vec<u8>, word: &[u8], parts: &[Part<'_>]) -> Result<(), NoMemory>
    ensures { OnOk result (out.new.items ≡ out.old.items ++ line word.now (parts_words parts.now)) }
{
    out.extend_from_slice(word)?;
    put_parts(out, parts)?;
    out.push(b'\n')?;
    Ok(())
}

fn put_names(out: &mut Vec<u8>, names: &[Name]) -> Result<(), NoMemory>
    ensures { OnOk result (out.new.items ≡ out.old.items ++ spaced names.now) }
{
    for name in names {
        put_word(out, name.as_bytes())?;
    }
    Ok(())
}

#[tactic(auto, unfolding(crate::specs::Line::line))]
fn put_names_line(out: &mut Vec<u8>, word: &[u8], names: &[Name]) -> Result<(), NoMemory>
    ensures { OnOk result (out.new.items ≡ out.old.items ++ line word.now names.now) }
{
    out.extend_from_slice(word)?;
    put_names(out, names)?;
    out.push(b'\n')?;
    Ok(())
}

fn put_class_line(out: &mut Vec<u8>, class: Class, marks: Marks) -> Result<(), NoMemory>
    ensures { OnOk result (out.new.items ≡ out.old.items ++ class_line class marks) }
{
    put_line(
        out,
        b"class",
        &[
            Part::Size(class),
            Part::Text(b"marks"),
            Part::Number(marks.low),
            Part::Number(marks.high),
            Part::Number(marks.batch),
        ],
    )
}

fn put_class_lines(out: &mut Vec<u8>, classes: &[(Class, Marks)]) -> Result<(), NoMemory>
    ensures { OnOk result (out.new.items ≡ out.old.items ++ class_lines classes.now) }
{
    for (class, marks) in classes {
        put_class_line(out, *class, *marks)?;
    }
    Ok(())
}

fn put_size_line(out: &mut Vec<u8>, processors: u8, pages: u16) -> Result<(), NoMemory>
    ensures { OnOk result (out.new.items ≡ out.old.items ++ size_line processors pages) }
{
    put_line(
        out,
        b"processors",
        &[
            Part::Number(processors as u32),
            Part::Text(b"pages"),
            Part::Number(pages as u32),
        ],
    )
}

fn put_heading(out: &mut Vec<u8>, journal: &Journal) -> Result<(), NoMemory>
    ensures { OnOk result (out.new.items ≡ out.old.items ++ heading journal.now) }
{
    put_size_line(out, journal.processors, journal.pages)?;
    put_names_line(out, b"types", journal.types.as_slice())?;
    put_names_line(out, b"maps", journal.maps.as_slice())?;
    put_names_line(out, b"scripts", journal.scripts.as_slice())?;
    put_class_lines(out, journal.classes.as_slice())
}

#[tactic(auto, unfolding(crate::specs::Line::line))]
pub(crate) fn put_entry_line(out: &mut Vec<u8>, level: Level, entry: &Entry) -> Result<(), NoMemory>
    ensures { OnOk result (out.new.items ≡ out.old.items ++ entry_line level entry.now) }
{
    put_number(out, level.number() as u64)?;
    put_entry(out, entry)?;
    out.push(b'\n')?;
    Ok(())
}

fn put_log_lines(out: &mut Vec<u8>, logs: &[Log]) -> Result<(), NoMemory>
    ensures { OnOk result (out.new.items ≡ out.old.items ++ log_lines 0 logs.now) }
{
    for (processor, log) in logs.iter().enumerate() {
        put_line(out, b"processor", &[Part::Long(processor as u64)])?;
        out.extend_from_slice(log.text())?;
    }
    Ok(())
}

fn owner_part(maps: &[Name], place: u8) -> Part<'_>
    ensures { part_words result ≡ owner maps.now place }
{
    match maps.get(place as usize) {
        Some(name) => Part::Text(name.as_bytes()),
        None => Part::Nothing,
    }
}

#[tactic(auto, unfolding(crate::specs::Line::line))]
fn put_past_line(
    out: &mut Vec<u8>,
    maps: &[Name],
    position: u64,
    past: &Past,
) -> Result<(), NoMemory>
    ensures { OnOk result (out.new.items ≡ out.old.items ++ past_line maps.now position past.now) }
{
    out.extend_from_slice(b"at")?;
    put_parts(
        out,
        &[
            Part::Long(position),
            Part::Text(b"by"),
            Part::Number(past.tag.processor as u32),
            Part::Number(past.tag.serial),
        ],
    )?;
    put_past_call(out, maps, past.call)?;
    out.push(b'\n')?;
    Ok(())
}

fn put_past_call(out: &mut Vec<u8>, maps: &[Name], call: PastCall) -> Result<(), NoMemory>
    ensures { OnOk result (out.new.items ≡ out.old.items ++ spaced (past_words maps.now call)) }
{
    match call {
        PastCall::PushFront(object) => put_parts(
            out,
            &[Part::Text(b"push_front"), Part::Object(Some(object))],
        ),
        PastCall::PushBack(object) => put_parts(
            out,
            &[Part::Text(b"push_back"), Part::Object(Some(object))],
        ),
        PastCall::Add(object, key) => put_parts(
            out,
            &[
                Part::Text(b"add"),
                Part::Object(Some(object)),
                Part::Number(key),
            ],
        ),
        PastCall::PushFrontAlready(object, owner) => put_parts(
            out,
            &[
                Part::Text(b"push_front"),
                Part::Object(Some(object)),
                Part::Text(b"already"),
                owner_part(maps, owner),
            ],
        ),
        PastCall::PushBackAlready(object, owner) => put_parts(
            out,
            &[
                Part::Text(b"push_back"),
                Part::Object(Some(object)),
                Part::Text(b"already"),
                owner_part(maps, owner),
            ],
        ),
        PastCall::AddAlready(object, key, owner) => put_parts(
            out,
            &[
                Part::Text(b"add"),
                Part::Object(Some(object)),
                Part::Number(key),
                Part::Text(b"already"),
                owner_part(maps, owner),
            ],
        ),
        PastCall::PopFront(object) => put_parts(
            out,
            &[Part::Text(b"pop_front"), Part::Object(Some(object))],
        ),
        PastCall::PopFrontNone => put_parts(out, &[Part::Text(b"pop_front"), Part::Object(None)]),
        PastCall::PopBack(object) => put_parts(
            out,
            &[Part::Text(b"pop_back"), Part::Object(Some(object))],
        ),
        PastCall::PopBackNone => put_parts(out, &[Part::Text(b"pop_back"), Part::Object(None)]),
        PastCall::First(object) => put_parts(
            out,
            &[Part::Text(b"first"), Part::Object(Some(object))],
        ),
        PastCall::FirstNone => put_parts(out, &[Part::Text(b"first"), Part::Object(None)]),
        PastCall::Remove(object) => put_parts(
            out,
            &[Part::Text(b"remove"), Part::Object(Some(object))],
        ),
    }
}

fn put_past_lines(out: &mut Vec<u8>, maps: &[Name], pasts: &[Past]) -> Result<(), NoMemory>
    ensures { OnOk result (out.new.items ≡ out.old.items ++ past_lines maps.now 0 pasts.now) }
{
    for (position, past) in pasts.iter().enumerate() {
        put_past_line(out, maps, position as u64, past)?;
    }
    Ok(())
}

pub(crate) fn put_graph_lines(
    out: &mut Vec<u8>,
    maps: &[Name],
    graphs: &[History],
) -> Result<(), NoMemory>
    ensures { OnOk result (out.new.items ≡ out.old.items ++ graph_lines maps.now graphs.now) }
{
    for graph in graphs {
        put_line(out, b"graph", &[Part::Text(graph.name().as_bytes())])?;
        put_past_lines(out, maps, graph.as_slice())?;
    }
    Ok(())
}

fn put_total_line(out: &mut Vec<u8>, total: Total, value: u64) -> Result<(), NoMemory>
    ensures { OnOk result
        (out.new.items
        ≡ out.old.items ++ line (codes "total") (total_name total ∷ decimal value ∷ [])) }
{
    put_line(
        out,
        b"total",
        &[Part::Text(total.name()), Part::Long(value)],
    )
}

fn put_total_lines(out: &mut Vec<u8>, totals: &[Total], values: &[u64]) -> Result<(), NoMemory>
    requires { length totals.now ≡ length values.now }
    ensures { OnOk result (out.new.items ≡ out.old.items ++ total_lines totals.now values.now) }
{
    for (place, total) in totals.iter().enumerate() {
        put_total_line(out, *total, values[place])?;
    }
    Ok(())
}

/// Appends the lines of a journal that begin with `total`.
#[tactic(auto, unfolding(crate::specs::JournalText::totals_text))]
pub fn put_totals(out: &mut Vec<u8>, totals: &Totals) -> Result<(), NoMemory>
    ensures { OnOk result (out.new.items ≡ out.old.items ++ totals_text totals.now) }
{
    put_total_lines(out, &Total::all(), totals.values())
}

#[tactic(auto, unfolding(crate::specs::JournalText::journal_text))]
/// The text of a journal. The only refusal is want of memory.
pub fn text_of(alloc: Global, journal: &Journal) -> Result<Vec<u8>, NoMemory>
    ensures { IfOk result (λ text. text.items ≡ journal_text journal.now) }
{
    let mut out = Vec::new(alloc);
    put_heading(&mut out, journal)?;
    put_log_lines(&mut out, journal.logs.as_slice())?;
    put_graph_lines(&mut out, journal.maps.as_slice(), journal.graphs.as_slice())?;
    put_totals(&mut out, &journal.totals)?;
    Ok(out)
}
