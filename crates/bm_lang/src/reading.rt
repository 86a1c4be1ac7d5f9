//! Reading a scenario.

ghost use Rattle.std.specs.Prelude.{◌≡◌, ◌<◌, ◌-◌, ◌^◌, ℕ, List, [], ◌∷◌, ◌++◌, length, IfOk, Some};
ghost use Rattle.bm_lang.specs.Tokens.{Close, End, tokens, start};
ghost use Rattle.bm_lang.specs.Left.{left};
ghost use Rattle.bm_lang.specs.declared.keyword.Keyword.TheVariants as word;
ghost use Rattle.bm_lang.specs.Names.{Names, no_names, no_draft};
ghost use Rattle.bm_lang.specs.Known.{drafting};
ghost use Rattle.bm_lang.specs.Grammar.{Word, OpenBrace, ProcessorCount, AnyNumber, OnOrOff, CloseBrace, EndOfText, scenario};
ghost use Rattle.bm_lang.specs.Machine.{fault_of};
ghost use Rattle.bm_lang.specs.Spelling.{any, number, reserved, on_or_off, spell_header, spell_scenario, declared};
ghost use Rattle.bm_lang.specs.Fine.{HasConditions};
ghost use Rattle.bm_lang.specs.Reads.{Reading};
ghost use Rattle.bm_lang.specs.Scenarios.{Reads, IsFine, IfBad, IsOkUnlessMemory};
ghost use Rattle.bm_lang.specs.declared.scenario.Parts.{Parts};

use crate::expect::{any_number, close, fault, open, placed_number, refused, word};
use crate::fault::{BadKind, LangFault};
use crate::items::Items;
use crate::keyword::Keyword;
use crate::lines::{ats, runs, turns};
use crate::maps::maps;
use crate::reader::Tokens;
use crate::scenario::{Parts, Scenario};
use crate::scripts::scripts;
use crate::tables::{MapTable, ScriptTable, TypeTable};
use crate::token::Token;
use crate::types::types;
use std::alloc::Global;

/// The scenario that the bytes are the text of. Bad comes exactly where they are the text of none, with the line, the
/// column and the kind of the first token that can't stand at its place.
pub fn read_scenario(alloc: Global, bytes: &[u8]) -> Result<Scenario, LangFault>
    // Lines and columns must fit.
    requires { length bytes.now < 2 ^ 32 - 1 }
    // What is read is what the text says.
    ensures found { IfOk result (Reads bytes.now) }
    // So some text has it as its reading.
    ensures fine { IfOk result IsFine }
    // No text that says something is refused.
    ensures only { (s : Parts) → Reads bytes.now s → IsOkUnlessMemory result }
    // The fault is the text's.
    ensures fault { IfBad result (λ f. fault_of bytes.now ≡ Some f) }
{
    let parts = whole(alloc, bytes)?;
    Ok(Scenario::new(parts))
}

// Its parts, as the machine reads them.
fn whole(alloc: Global, bytes: &[u8]) -> Result<Parts, LangFault>
    requires { length bytes.now < 2 ^ 32 - 1 }
    ensures { Reading result no_names scenario declared (λ s. spell_scenario s ++ any End ∷ [])
        HasConditions (tokens start bytes.now) [] }
{
    let mut tokens = Tokens::new(bytes);
    let header = header(&mut tokens)?;
    let (types, names) = types(alloc, &mut tokens)?;
    let known_types = TypeTable {
        items: &types,
        names: &names,
    };
    let (maps, map_names) = maps(alloc, &mut tokens, known_types)?;
    let known_maps = MapTable {
        items: &maps,
        names: &map_names,
    };
    let (scripts, script_names) = scripts(alloc, &mut tokens, known_types, known_maps)?;
    let known_scripts = ScriptTable {
        items: &scripts,
        names: &script_names,
    };
    let runs = runs(alloc, &mut tokens, header.processors, known_scripts)?;
    let ats = ats(alloc, &mut tokens, header.processors, known_scripts)?;
    let turns = turns(alloc, &mut tokens, header.processors)?;
    end(&mut tokens)?;
    Ok(Parts {
        processors: header.processors,
        pages: header.pages,
        deferred: header.deferred,
        types: Items::new(types),
        maps: Items::new(maps),
        scripts: Items::new(scripts),
        runs: Items::new(runs),
        ats: Items::new(ats),
        turns,
    })
}

#[derive(Clone, Copy)]
struct Front {
    processors: u32,
    pages: u32,
    deferred: bool,
}

// What comes before the declarations.
fn header(tokens: &mut Tokens<'_>) -> Result<Front, LangFault>
    ensures { Reading result no_names
        (Word word.Scenario ∷ OpenBrace ∷ Word word.Processors ∷ ProcessorCount ∷ Word word.Pages
        ∷ AnyNumber ∷ Word word.Deferred ∷ OnOrOff ∷ [])
        (λ h. drafting h.processors [] no_draft) (λ h. spell_header h.processors h.pages h.deferred)
        (λ h. 0 < h.processors) (left tokens.old) (left tokens.new) }
{
    word(tokens, Keyword::Scenario)?;
    open(tokens)?;
    word(tokens, Keyword::Processors)?;
    let processors = processor_count(tokens)?;
    word(tokens, Keyword::Pages)?;
    let pages = any_number(tokens)?;
    word(tokens, Keyword::Deferred)?;
    let deferred = on_or_off(tokens)?;
    Ok(Front {
        processors,
        pages,
        deferred,
    })
}

fn processor_count(tokens: &mut Tokens<'_>) -> Result<u32, LangFault>
    ensures { Reading result no_names (ProcessorCount ∷ []) (λ n. drafting n [] no_draft)
        (λ n. number n ∷ []) (λ n. 0 < n) (left tokens.old) (left tokens.new) }
{
    let (processors, place) = placed_number(tokens)?;
    if processors == 0 {
        return Err(fault(place, BadKind::Range));
    }
    Ok(processors)
}

fn on_or_off(tokens: &mut Tokens<'_>) -> Result<bool, LangFault>
    ensures { (names : Names)
        → Reading result names (OnOrOff ∷ []) (λ _. names) (λ b. reserved (on_or_off b) ∷ [])
        (λ _. Unit {0}) (left tokens.old) (left tokens.new) }
{
    let next = tokens.take();
    match next.token {
        Token::Keyword(word) => match word {
            Keyword::On => Ok(true),
            Keyword::Off => Ok(false),
            _ => Err(refused(next)),
        },
        _ => Err(refused(next)),
    }
}

// The last brace, and nothing behind it.
fn end(tokens: &mut Tokens<'_>) -> Result<(), LangFault>
    ensures { (names : Names)
        → Reading result names (CloseBrace ∷ EndOfText ∷ []) (λ _. names)
        (λ _. any Close ∷ any End ∷ []) (λ _. Unit {0}) (left tokens.old) [] }
{
    close(tokens)?;
    let next = tokens.take();
    match next.token {
        Token::End => Ok(()),
        _ => Err(refused(next)),
    }
}
