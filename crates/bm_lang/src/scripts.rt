//! Reading scripts.

ghost use Rattle.std.specs.Prelude.{false, ◌≡◌, ℕ, List, [], ◌∷◌, ◌++◌, IfOk, map, is_some};
ghost use Rattle.std.specs.List.{flat_map};
ghost use Rattle.bm_lang.specs.Left.{left};
ghost use Rattle.bm_lang.specs.Names.{TypeForm, MapForm, ScriptForm, script_named};
ghost use Rattle.bm_lang.specs.Known.{knowing};
ghost use Rattle.bm_lang.specs.Grammar.{Scripts, ScriptName, KindOfScript, Braced};
ghost use Rattle.bm_lang.specs.Spelling.{type_form, map_form, script_form, name, reserved, script_word, script_words, spell_script};
ghost use Rattle.bm_lang.specs.Fine.{FineScripts, FineBlock};
ghost use Rattle.bm_lang.specs.Reads.{Reading, Kinding};

use crate::blocks::block;
use crate::expect::{fault, optional, placed_name, refused};
use crate::fault::{BadKind, LangFault};
use crate::index::Index;
use crate::keyword::Keyword;
use crate::names::script_kind_of;
use crate::reader::Tokens;
use crate::scenario::{Script, ScriptKind};
use crate::tables::{MapTable, ScriptTable, TypeTable, script_place};
use crate::token::Token;
use bm_word::Name;
use std::alloc::Global;

// How many blocks of a script may be open one inside the other.
const DEPTH: u32 = 16;

/// The scripts that come next.
pub fn scripts(
    alloc: Global,
    tokens: &mut Tokens<'_>,
    types: TypeTable<'_>,
    maps: MapTable<'_>,
) -> Result<(Vec<Script>, Index), LangFault>
    ensures read { (p : ℕ)
        → Reading result
        (knowing p (map type_form types.entry.items.now) (map map_form maps.entry.items.now) [])
        (Scripts ∷ [])
        (λ v. knowing p (map type_form types.entry.items.now)
        (map map_form maps.entry.items.now) (map script_form v.0.items))
        (λ v. flat_map
        (spell_script (map type_form types.entry.items.now)
        (map map_form maps.entry.items.now))
        v.0.items)
        (λ v. FineScripts (map type_form types.entry.items.now)
        (map map_form maps.entry.items.now) [] v.0.items)
        (left tokens.old) (left tokens.new) }
    ensures same { IfOk result (λ v. v.1 ≡ map (λ x. x.name) v.0.items) }
{
    let mut scripts = Vec::new(alloc);
    let mut names = Index::new(alloc);
    while let Some(place) = optional(tokens, Keyword::Script) {
        let script = script(
            alloc,
            tokens,
            types,
            maps,
            ScriptTable {
                items: &scripts,
                names: &names,
            },
            place.line,
        )?;
        names.put(alloc, script.name.as_bytes())?;
        scripts.push(script)?;
    }
    Ok((scripts, names))
}

// A script, behind its first word on this line.
fn script(
    alloc: Global,
    tokens: &mut Tokens<'_>,
    types: TypeTable<'_>,
    maps: MapTable<'_>,
    scripts: ScriptTable<'_>,
    line: u32,
) -> Result<Script, LangFault>
    ensures read { (p : ℕ)
        → Reading result
        (knowing p (map type_form types.entry.items.now) (map map_form maps.entry.items.now)
        (map script_form scripts.entry.items.now))
        (ScriptName ∷ [])
        (λ s. knowing p (map type_form types.entry.items.now)
        (map map_form maps.entry.items.now)
        (map script_form scripts.entry.items.now ++ script_form s ∷ []))
        (script_words (map type_form types.entry.items.now) (map map_form maps.entry.items.now))
        (λ s. (is_some (script_named (map script_form scripts.entry.items.now) s.name) ≡ false)
        × FineBlock (map type_form types.entry.items.now)
        (map map_form maps.entry.items.now) 16 s.body)
        (left tokens.old) (left tokens.new) }
    ensures begun { IfOk result (λ s. s.line ≡ line) }
{
    let (name, place) = placed_name(tokens)?;
    if script_place(scripts, &name).is_some() {
        return Err(fault(place, BadKind::Duplicate));
    }
    let kind = kind(tokens)?;
    let body = block(alloc, tokens, types, maps, DEPTH)?;
    Ok(Script {
        line,
        name,
        kind,
        body,
    })
}

// The kind of a script.
fn kind(tokens: &mut Tokens<'_>) -> Result<ScriptKind, LangFault>
    ensures { (p : ℕ) (types : List TypeForm) (maps : List MapForm) (scripts : List ScriptForm)
        (n : List ℕ)
        → Kinding result (knowing p types maps scripts) n (left tokens.old) (left tokens.new) }
{
    let next = tokens.take();
    match next.token {
        Token::Keyword(word) => match script_kind_of(word) {
            Some(kind) => Ok(kind),
            None => Err(refused(next)),
        },
        _ => Err(refused(next)),
    }
}
