//! Reading the lines that run scripts, and the turns.

ghost use Rattle.std.specs.Prelude.{true, ◌≡◌, false, ℕ, ◌<◌, ◌≤◌, Bool, List, [], ◌∷◌, ◌++◌, Option, All, IfOk, IfSome, IsSomeAnd, map, slice_get};
ghost use Rattle.std.specs.List.{flat_map};
ghost use Rattle.bm_lang.specs.Tokens.{Open, Close};
ghost use Rattle.bm_lang.specs.Left.{left};
ghost use Rattle.bm_lang.specs.Names.{Names, TypeForm, MapForm, ScriptForm, runs_as};
ghost use Rattle.bm_lang.specs.Known.{knowing};
ghost use Rattle.bm_lang.specs.Grammar.{Runs, Ats, Turns, Processor, Level, ScriptOf, AnyNumber, TurnNumbers};
ghost use Rattle.bm_lang.specs.Spelling.{any, name, number, script_form, script_name, run_words, at_words, spell_run, spell_at, spell_turns};
ghost use Rattle.bm_lang.specs.Fine.{FineRun, FineAt};
ghost use Rattle.bm_lang.specs.Reads.{Reading};

use crate::expect::{
    any_number, close, fault, open, optional, optional_number, placed_name, placed_number,
};
use crate::fault::{BadKind, LangFault};
use crate::items::Items;
use crate::keyword::Keyword;
use crate::names::runs_as;
use crate::reader::Tokens;
use crate::scenario::{AtLine, RunLine, ScriptId};
use crate::tables::{ScriptTable, script_place};
use std::alloc::Global;

/// The `run` lines that come next.
pub fn runs(
    alloc: Global,
    tokens: &mut Tokens<'_>,
    processors: u32,
    scripts: ScriptTable<'_>,
) -> Result<Vec<RunLine>, LangFault>
    ensures { (types : List TypeForm) (maps : List MapForm)
        → Reading result (knowing processors types maps (map script_form scripts.entry.items.now))
        (Runs ∷ [])
        (λ _. knowing processors types maps (map script_form scripts.entry.items.now))
        (λ v. flat_map (spell_run (map script_form scripts.entry.items.now)) v.items)
        (λ v. All (FineRun processors (map script_form scripts.entry.items.now)) v.items)
        (left tokens.old) (left tokens.new) }
{
    let mut runs = Vec::new(alloc);
    while let Some(place) = optional(tokens, Keyword::Run) {
        let run = run_line(tokens, processors, scripts, place.line)?;
        runs.push(run)?;
    }
    Ok(runs)
}

// A `run` line, behind its first word on this line.
fn run_line(
    tokens: &mut Tokens<'_>,
    processors: u32,
    scripts: ScriptTable<'_>,
    line: u32,
) -> Result<RunLine, LangFault>
    ensures read { (types : List TypeForm) (maps : List MapForm)
        → Reading result (knowing processors types maps (map script_form scripts.entry.items.now))
        (Processor ∷ ScriptOf false ∷ [])
        (λ _. knowing processors types maps (map script_form scripts.entry.items.now))
        (run_words (map script_form scripts.entry.items.now))
        (FineRun processors (map script_form scripts.entry.items.now)) (left tokens.old)
        (left tokens.new) }
    ensures begun { IfOk result (λ r. r.line ≡ line) }
{
    let processor = processor(tokens, processors)?;
    let script = script_id(tokens, scripts, false)?;
    Ok(RunLine {
        line,
        processor,
        script,
    })
}

/// The `at` lines that come next.
pub fn ats(
    alloc: Global,
    tokens: &mut Tokens<'_>,
    processors: u32,
    scripts: ScriptTable<'_>,
) -> Result<Vec<AtLine>, LangFault>
    ensures { (types : List TypeForm) (maps : List MapForm)
        → Reading result (knowing processors types maps (map script_form scripts.entry.items.now))
        (Ats ∷ [])
        (λ _. knowing processors types maps (map script_form scripts.entry.items.now))
        (λ v. flat_map (spell_at (map script_form scripts.entry.items.now)) v.items)
        (λ v. All (FineAt processors (map script_form scripts.entry.items.now)) v.items)
        (left tokens.old) (left tokens.new) }
{
    let mut ats = Vec::new(alloc);
    while let Some(place) = optional(tokens, Keyword::At) {
        let at = at_line(tokens, processors, scripts, place.line)?;
        ats.push(at)?;
    }
    Ok(ats)
}

// An `at` line, behind its first word on this line.
fn at_line(
    tokens: &mut Tokens<'_>,
    processors: u32,
    scripts: ScriptTable<'_>,
    line: u32,
) -> Result<AtLine, LangFault>
    ensures read { (types : List TypeForm) (maps : List MapForm)
        → Reading result (knowing processors types maps (map script_form scripts.entry.items.now))
        (Processor ∷ AnyNumber ∷ Level ∷ ScriptOf true ∷ [])
        (λ _. knowing processors types maps (map script_form scripts.entry.items.now))
        (at_words (map script_form scripts.entry.items.now))
        (FineAt processors (map script_form scripts.entry.items.now)) (left tokens.old)
        (left tokens.new) }
    ensures begun { IfOk result (λ a. a.line ≡ line) }
{
    let processor = processor(tokens, processors)?;
    let step = any_number(tokens)?;
    let level = level(tokens)?;
    let script = script_id(tokens, scripts, true)?;
    Ok(AtLine {
        line,
        processor,
        step,
        level,
        script,
    })
}

// The number of a processor.
fn processor(tokens: &mut Tokens<'_>, processors: u32) -> Result<u32, LangFault>
    ensures { (types : List TypeForm) (maps : List MapForm) (scripts : List ScriptForm)
        → Reading result (knowing processors types maps scripts) (Processor ∷ [])
        (λ _. knowing processors types maps scripts) (λ n. number n ∷ []) (λ n. n < processors)
        (left tokens.old) (left tokens.new) }
{
    let (processor, place) = placed_number(tokens)?;
    if processor >= processors {
        return Err(fault(place, BadKind::Range));
    }
    Ok(processor)
}

// The level of a handler.
fn level(tokens: &mut Tokens<'_>) -> Result<u32, LangFault>
    ensures { (names : Names)
        → Reading result names (Level ∷ []) (λ _. names) (λ n. number n ∷ [])
        (λ n. (1 ≤ n) × (n ≤ 3)) (left tokens.old) (left tokens.new) }
{
    let (level, place) = placed_number(tokens)?;
    if level < 1 || level > 3 {
        return Err(fault(place, BadKind::Range));
    }
    Ok(level)
}

// A script that is a handler, or one that isn't.
fn script_id(
    tokens: &mut Tokens<'_>,
    scripts: ScriptTable<'_>,
    handler: bool,
) -> Result<ScriptId, LangFault>
    ensures { (p : ℕ) (types : List TypeForm) (maps : List MapForm)
        → Reading result (knowing p types maps (map script_form scripts.entry.items.now))
        (ScriptOf handler ∷ [])
        (λ _. knowing p types maps (map script_form scripts.entry.items.now))
        (λ s. name (script_name (map script_form scripts.entry.items.now) s.0) ∷ [])
        (λ s. IsSomeAnd (slice_get (map script_form scripts.entry.items.now) s.0)
        (λ x. runs_as handler x.kind ≡ true))
        (left tokens.old) (left tokens.new) }
{
    let (name, place) = placed_name(tokens)?;
    let Some(found) = script_place(scripts, &name) else {
        return Err(fault(place, BadKind::Unknown));
    };
    if !runs_as(handler, scripts.items[found].kind) {
        return Err(fault(place, BadKind::Wrong));
    }
    Ok(ScriptId(found))
}

/// The turns, if the text has them.
pub fn turns(
    alloc: Global,
    tokens: &mut Tokens<'_>,
    processors: u32,
) -> Result<Option<Items<u32>>, LangFault>
    ensures { (types : List TypeForm) (maps : List MapForm) (scripts : List ScriptForm)
        → Reading result (knowing processors types maps scripts) (Turns ∷ [])
        (λ _. knowing processors types maps scripts) spell_turns
        (λ o. IfSome o (All (λ n. n < processors))) (left tokens.old) (left tokens.new) }
{
    match optional(tokens, Keyword::Turns) {
        Some(_) => {
            open(tokens)?;
            let turns = turn_numbers(alloc, tokens, processors)?;
            close(tokens)?;
            Ok(Some(Items::new(turns)))
        }
        None => Ok(None),
    }
}

// The processors whose turns come next.
fn turn_numbers(
    alloc: Global,
    tokens: &mut Tokens<'_>,
    processors: u32,
) -> Result<Vec<u32>, LangFault>
    ensures { (types : List TypeForm) (maps : List MapForm) (scripts : List ScriptForm)
        → Reading result (knowing processors types maps scripts) (TurnNumbers ∷ [])
        (λ _. knowing processors types maps scripts) (λ v. map number v.items)
        (λ v. All (λ n. n < processors) v.items) (left tokens.old) (left tokens.new) }
{
    let mut turns = Vec::new(alloc);
    while let Some((processor, place)) = optional_number(tokens) {
        if processor >= processors {
            return Err(fault(place, BadKind::Range));
        }
        turns.push(processor)?;
    }
    Ok(turns)
}
