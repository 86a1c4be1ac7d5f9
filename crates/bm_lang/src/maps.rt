//! Reading slots, lists and trees.

ghost use Rattle.std.specs.Prelude.{true, false, ◌≡◌, ℕ, List, [], ◌∷◌, ◌++◌, Option, Some, None, IfOk, IsSomeAnd, map, is_some, slice_get};
ghost use Rattle.std.specs.List.{flat_map};
ghost use Rattle.bm_lang.specs.Tokens.{Reserved};
ghost use Rattle.bm_lang.specs.Left.{left};
ghost use Rattle.bm_lang.specs.Names.{MapForm, map_named, holds};
ghost use Rattle.bm_lang.specs.Known.{knowing};
ghost use Rattle.bm_lang.specs.Grammar.{Maps, MapName, MapType};
ghost use Rattle.bm_lang.specs.Spelling.{name, type_form, map_form, type_name, spell_map, map_words};
ghost use Rattle.bm_lang.specs.Fine.{FineMaps};
ghost use Rattle.bm_lang.specs.Reads.{Reading, MayBegin};

use crate::expect::{fault, placed_name};
use crate::fault::{BadKind, LangFault};
use crate::index::Index;
use crate::names::{holds, map_kind_of};
use crate::place::Place;
use crate::reader::Tokens;
use crate::scenario::{MapDeclaration, MapKind, TypeId};
use crate::tables::{MapTable, TypeTable, map_place, type_place};
use crate::token::Token;
use bm_word::Name;
use std::alloc::Global;

/// The declarations of maps that come next.
pub fn maps(
    alloc: Global,
    tokens: &mut Tokens<'_>,
    types: TypeTable<'_>,
) -> Result<(Vec<MapDeclaration>, Index), LangFault>
    ensures read { (p : ℕ)
        → Reading result (knowing p (map type_form types.entry.items.now) [] []) (Maps ∷ [])
        (λ v. knowing p (map type_form types.entry.items.now) (map map_form v.0.items) [])
        (λ v. flat_map (spell_map (map type_form types.entry.items.now)) v.0.items)
        (λ v. FineMaps (map type_form types.entry.items.now) [] v.0.items) (left tokens.old)
        (left tokens.new) }
    ensures same { IfOk result (λ v. v.1 ≡ map (λ x. x.name) v.0.items) }
{
    let mut maps = Vec::new(alloc);
    let mut names = Index::new(alloc);
    while let Some((kind, place)) = map_kind(tokens) {
        let map = map_declaration(
            tokens,
            types,
            MapTable {
                items: &maps,
                names: &names,
            },
            kind,
            place.line,
        )?;
        names.put(alloc, map.name.as_bytes())?;
        maps.push(map)?;
    }
    Ok((maps, names))
}

// The word of a map that may come, and its place.
fn map_kind(tokens: &mut Tokens<'_>) -> Option<(MapKind, Place)>
    ensures { MayBegin result (left tokens.old) (left tokens.new) }
{
    let next = tokens.peek();
    match next.token {
        Token::Keyword(word) => {
            let kind = map_kind_of(word)?;
            let _word = tokens.take();
            Some((kind, next.place))
        }
        _ => None,
    }
}

// A map, behind its first word on this line.
fn map_declaration(
    tokens: &mut Tokens<'_>,
    types: TypeTable<'_>,
    maps: MapTable<'_>,
    kind: MapKind,
    line: u32,
) -> Result<MapDeclaration, LangFault>
    ensures read { (p : ℕ)
        → Reading result
        (knowing p (map type_form types.entry.items.now) (map map_form maps.entry.items.now) [])
        (MapName kind ∷ [])
        (λ m. knowing p (map type_form types.entry.items.now)
        (map map_form maps.entry.items.now ++ map_form m ∷ []) [])
        (map_words (map type_form types.entry.items.now))
        (λ m. (is_some (map_named (map map_form maps.entry.items.now) m.name) ≡ false)
        × IsSomeAnd (slice_get (map type_form types.entry.items.now) m.type_id.0)
        (λ e. holds m.kind e.node ≡ true))
        (left tokens.old) (left tokens.new) }
    ensures begun { IfOk result (λ m. (m.line ≡ line) × (m.kind ≡ kind)) }
{
    let (name, place) = placed_name(tokens)?;
    if map_place(maps, &name).is_some() {
        return Err(fault(place, BadKind::Duplicate));
    }
    let type_id = map_type(tokens, types, kind)?;
    Ok(MapDeclaration {
        line,
        kind,
        name,
        type_id,
    })
}

// The type of a map's objects.
fn map_type(
    tokens: &mut Tokens<'_>,
    types: TypeTable<'_>,
    kind: MapKind,
) -> Result<TypeId, LangFault>
    ensures { (p : ℕ) (maps : List MapForm)
        → Reading result (knowing p (map type_form types.entry.items.now) maps [])
        (MapType kind ∷ []) (λ _. knowing p (map type_form types.entry.items.now) maps [])
        (λ t. name (type_name (map type_form types.entry.items.now) t.0) ∷ [])
        (λ t. IsSomeAnd (slice_get (map type_form types.entry.items.now) t.0)
        (λ e. holds kind e.node ≡ true))
        (left tokens.old) (left tokens.new) }
{
    let (name, place) = placed_name(tokens)?;
    let Some(found) = type_place(types, &name) else {
        return Err(fault(place, BadKind::Unknown));
    };
    if !holds(kind, types.items[found].node) {
        return Err(fault(place, BadKind::Wrong));
    }
    Ok(TypeId(found))
}
