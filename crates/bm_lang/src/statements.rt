//! Reading the statements that have no block.

ghost use Rattle.std.specs.Prelude.{if◌then◌else◌, false, ◌≡◌, ℕ, List, [], ◌∷◌, Option, IfOk, IsSomeAnd, map, slice_get, length};
ghost use Rattle.bm_lang.specs.Tokens.{Reserved};
ghost use Rattle.bm_lang.specs.Left.{left};
ghost use Rattle.bm_lang.specs.Names.{Names, TypeForm, MapForm, ScriptForm, map_named};
ghost use Rattle.bm_lang.specs.Known.{knowing};
ghost use Rattle.bm_lang.specs.Machine.{bad};
ghost use Rattle.bm_lang.specs.declared.fault.LangFault.TheVariants.{Bad};
ghost use Rattle.bm_lang.specs.declared.fault.BadKind.TheVariants as kind;
ghost use Rattle.bm_lang.specs.Grammar.{is_later, AnyName, NewType, Values, MapOf, NameOrNull};
ghost use Rattle.bm_lang.specs.Spelling.{name, number, name_or_null, type_form, map_form, type_name, map_name, spell_action};
ghost use Rattle.bm_lang.specs.Fine.{IsMap, FineAction};
ghost use Rattle.bm_lang.specs.Reads.{Reading, Stating, mark};
ghost use Rattle.bm_lang.specs.Others.{IsOther, IsSimple};
ghost use Rattle.bm_lang.specs.declared.names.MapNeed.TheVariants as need;

use crate::expect::{any_name, fault, optional, placed_name, placed_number};
use crate::fault::{BadKind, LangFault};
use crate::items::Items;
use crate::keyword::Keyword;
use crate::names::{MapNeed, fits, is_later};
use crate::place::Place;
use crate::reader::Tokens;
use crate::scenario::{Action, MapId, TypeId};
use crate::tables::{MapTable, TypeTable, map_place, type_place};
use bm_word::Name;
use std::alloc::Global;

/// What a statement does that begins with this word, at this place, and has no block.
pub fn simple(
    alloc: Global,
    tokens: &mut Tokens<'_>,
    types: TypeTable<'_>,
    maps: MapTable<'_>,
    word: Keyword,
    start: Place,
) -> Result<Action, LangFault>
    requires { IsSimple word }
    ensures { (p : ℕ) (scripts : List ScriptForm) (d : ℕ)
        → Stating result
        (knowing p (map type_form types.entry.items.now) (map map_form maps.entry.items.now)
        scripts)
        d
        (spell_action (map type_form types.entry.items.now) (map map_form maps.entry.items.now)
        start.line)
        (FineAction (map type_form types.entry.items.now) (map map_form maps.entry.items.now) d)
        (mark (Reserved word) start ∷ left tokens.old) (left tokens.new) }
{
    match word {
        Keyword::New => {
            let (name, type_id, values) = creation(alloc, tokens, types)?;
            Ok(Action::New {
                name,
                type_id,
                values: Items::new(values),
            })
        }
        Keyword::Drop => {
            let name = any_name(tokens)?;
            Ok(Action::Drop { name })
        }
        Keyword::Acquire => {
            let (name, of) = two_names(tokens)?;
            Ok(Action::Acquire { name, of })
        }
        Keyword::Get => {
            let (name, field) = two_names(tokens)?;
            Ok(Action::Get { name, field })
        }
        Keyword::Xchg => {
            let (name, slot, given) = exchange(tokens, maps)?;
            Ok(Action::Exchange { name, slot, given })
        }
        Keyword::Unlock => Ok(Action::Unlock),
        Keyword::Yield => Ok(Action::Yield),
        _ => on_graph(tokens, maps, word, start),
    }
}

// What a statement does that begins with this word and has the name of a list or a tree.
fn on_graph(
    tokens: &mut Tokens<'_>,
    maps: MapTable<'_>,
    word: Keyword,
    start: Place,
) -> Result<Action, LangFault>
    requires { IsOther word }
    ensures { (p : ℕ) (types : List TypeForm) (scripts : List ScriptForm) (d : ℕ)
        → Stating result (knowing p types (map map_form maps.entry.items.now) scripts) d
        (spell_action types (map map_form maps.entry.items.now) start.line)
        (FineAction types (map map_form maps.entry.items.now) d)
        (mark (Reserved word) start ∷ left tokens.old) (left tokens.new) }
{
    match word {
        Keyword::Lock => {
            let graph = map_id(tokens, maps, MapNeed::Graph)?;
            Ok(Action::Lock { graph })
        }
        Keyword::PushFront => {
            let (list, name) = map_and_name(tokens, maps, MapNeed::List)?;
            Ok(Action::PushFront { list, name })
        }
        Keyword::PushBack => {
            let (list, name) = map_and_name(tokens, maps, MapNeed::List)?;
            Ok(Action::PushBack { list, name })
        }
        Keyword::PopFront => {
            let (name, list) = name_and_map(tokens, maps, MapNeed::List)?;
            Ok(Action::PopFront { name, list })
        }
        Keyword::PopBack => {
            let (name, list) = name_and_map(tokens, maps, MapNeed::List)?;
            Ok(Action::PopBack { name, list })
        }
        Keyword::Add => {
            let (tree, name) = map_and_name(tokens, maps, MapNeed::Tree)?;
            Ok(Action::Add { tree, name })
        }
        Keyword::First => {
            let (name, tree) = name_and_map(tokens, maps, MapNeed::Tree)?;
            Ok(Action::First { name, tree })
        }
        Keyword::Remove => {
            let (name, tree) = name_and_map(tokens, maps, MapNeed::Tree)?;
            let node = any_name(tokens)?;
            Ok(Action::Remove { name, tree, node })
        }
        _ => Err(no_statement(word, start)),
    }
}

// The fault of a word that begins no statement.
fn no_statement(word: Keyword, start: Place) -> LangFault
    ensures { result ≡ Bad (bad start (if is_later word then kind.NotYet else kind.Unexpected)) }
{
    let kind = if is_later(word) {
        BadKind::NotYet
    } else {
        BadKind::Unexpected
    };
    fault(start, kind)
}

fn two_names(tokens: &mut Tokens<'_>) -> Result<(Name, Name), LangFault>
    ensures { (names : Names)
        → Reading result names (AnyName ∷ AnyName ∷ []) (λ _. names) (λ x. name x.0 ∷ name x.1 ∷ [])
        (λ _. Unit {0}) (left tokens.old) (left tokens.new) }
{
    let first = any_name(tokens)?;
    let second = any_name(tokens)?;
    Ok((first, second))
}

fn map_and_name(
    tokens: &mut Tokens<'_>,
    maps: MapTable<'_>,
    need: MapNeed,
) -> Result<(MapId, Name), LangFault>
    ensures { (p : ℕ) (types : List TypeForm) (scripts : List ScriptForm)
        → Reading result (knowing p types (map map_form maps.entry.items.now) scripts)
        (MapOf need ∷ AnyName ∷ [])
        (λ _. knowing p types (map map_form maps.entry.items.now) scripts)
        (λ x. name (map_name (map map_form maps.entry.items.now) x.0.0) ∷ name x.1 ∷ [])
        (λ x. IsMap (map map_form maps.entry.items.now) need x.0.0) (left tokens.old)
        (left tokens.new) }
{
    let map = map_id(tokens, maps, need)?;
    let name = any_name(tokens)?;
    Ok((map, name))
}

fn name_and_map(
    tokens: &mut Tokens<'_>,
    maps: MapTable<'_>,
    need: MapNeed,
) -> Result<(Name, MapId), LangFault>
    ensures { (p : ℕ) (types : List TypeForm) (scripts : List ScriptForm)
        → Reading result (knowing p types (map map_form maps.entry.items.now) scripts)
        (AnyName ∷ MapOf need ∷ [])
        (λ _. knowing p types (map map_form maps.entry.items.now) scripts)
        (λ x. name x.0 ∷ name (map_name (map map_form maps.entry.items.now) x.1.0) ∷ [])
        (λ x. IsMap (map map_form maps.entry.items.now) need x.1.0) (left tokens.old)
        (left tokens.new) }
{
    let name = any_name(tokens)?;
    let map = map_id(tokens, maps, need)?;
    Ok((name, map))
}

// A map that fits.
fn map_id(tokens: &mut Tokens<'_>, maps: MapTable<'_>, need: MapNeed) -> Result<MapId, LangFault>
    ensures { (p : ℕ) (types : List TypeForm) (scripts : List ScriptForm)
        → Reading result (knowing p types (map map_form maps.entry.items.now) scripts)
        (MapOf need ∷ []) (λ _. knowing p types (map map_form maps.entry.items.now) scripts)
        (λ m. name (map_name (map map_form maps.entry.items.now) m.0) ∷ [])
        (λ m. IsMap (map map_form maps.entry.items.now) need m.0) (left tokens.old)
        (left tokens.new) }
{
    let (name, place) = placed_name(tokens)?;
    let Some(found) = map_place(maps, &name) else {
        return Err(fault(place, BadKind::Unknown));
    };
    if !fits(need, maps.items[found].kind) {
        return Err(fault(place, BadKind::Unknown));
    }
    Ok(MapId(found))
}

// What stands behind `xchg`.
fn exchange(
    tokens: &mut Tokens<'_>,
    maps: MapTable<'_>,
) -> Result<(Name, MapId, Option<Name>), LangFault>
    ensures { (p : ℕ) (types : List TypeForm) (scripts : List ScriptForm)
        → Reading result (knowing p types (map map_form maps.entry.items.now) scripts)
        (AnyName ∷ MapOf need.Slot ∷ NameOrNull ∷ [])
        (λ _. knowing p types (map map_form maps.entry.items.now) scripts)
        (λ x. name x.0 ∷ name (map_name (map map_form maps.entry.items.now) x.1.0)
        ∷ name_or_null x.2 ∷ [])
        (λ x. IsMap (map map_form maps.entry.items.now) need.Slot x.1.0) (left tokens.old)
        (left tokens.new) }
{
    let (name, slot) = name_and_map(tokens, maps, MapNeed::Slot)?;
    let given = name_or_null(tokens)?;
    Ok((name, slot, given))
}

fn name_or_null(tokens: &mut Tokens<'_>) -> Result<Option<Name>, LangFault>
    ensures { (names : Names)
        → Reading result names (NameOrNull ∷ []) (λ _. names) (λ x. name_or_null x ∷ [])
        (λ _. Unit {0}) (left tokens.old) (left tokens.new) }
{
    match optional(tokens, Keyword::Null) {
        Some(_) => Ok(None),
        None => {
            let (name, _) = placed_name(tokens)?;
            Ok(Some(name))
        }
    }
}

// What stands behind `new`.
fn creation(
    alloc: Global,
    tokens: &mut Tokens<'_>,
    types: TypeTable<'_>,
) -> Result<(Name, TypeId, Vec<u32>), LangFault>
    ensures { (p : ℕ) (maps : List MapForm) (scripts : List ScriptForm)
        → Reading result (knowing p (map type_form types.entry.items.now) maps scripts)
        (AnyName ∷ NewType ∷ [])
        (λ _. knowing p (map type_form types.entry.items.now) maps scripts)
        (λ x. name x.0 ∷ name (type_name (map type_form types.entry.items.now) x.1.0)
        ∷ map number x.2.items)
        (λ x. IsSomeAnd (slice_get (map type_form types.entry.items.now) x.1.0)
        (λ e. length x.2.items ≡ length e.fields))
        (left tokens.old) (left tokens.new) }
{
    let name = any_name(tokens)?;
    let (type_name, place) = placed_name(tokens)?;
    let Some(found) = type_place(types, &type_name) else {
        return Err(fault(place, BadKind::Unknown));
    };
    let count = types.items[found].fields.as_slice().len();
    let values = values(alloc, tokens, count)?;
    Ok((name, TypeId(found), values))
}

// So many numbers.
fn values(alloc: Global, tokens: &mut Tokens<'_>, count: usize) -> Result<Vec<u32>, LangFault>
    ensures { (names : Names)
        → Reading result names (Values count ∷ []) (λ _. names) (λ v. map number v.items)
        (λ v. length v.items ≡ count) (left tokens.old) (left tokens.new) }
{
    let mut values = Vec::new(alloc);
    for _ in 0..count {
        let value = placed_number(tokens)?;
        values.push(value.0)?;
    }
    Ok(values)
}
