//! Reading type declarations.

ghost use Rattle.std.specs.Prelude.{true, false, ◌≡◌, ℕ, ◌+◌, ◌*◌, ◌%◌, ◌==◌, Bool, List, [], ◌∷◌, ◌++◌, Option, Some, None, IfSome, IfOk, map, unwrap_or, is_some, length};
ghost use Rattle.std.specs.List.{flat_map, list_any};
ghost use Rattle.std.specs.Str.{bytes_eq};
ghost use Rattle.bm_lang.specs.Tokens.{Close, Reserved};
ghost use Rattle.bm_lang.specs.Left.{left};
ghost use Rattle.bm_lang.specs.Names.{TypeForm, type_named, has_name, has_key, has_size, no_draft, count_size, node_size, object_size};
ghost use Rattle.bm_lang.specs.Known.{drafting, form};
ghost use Rattle.bm_lang.specs.Grammar.{Types, TypeName, Counted, NodeOfType, OpenBrace, Fields, PadOfType, PadBytes, TypeEnd};
ghost use Rattle.bm_lang.specs.Spelling.{any, name, number, type_form, type_words, spell_type, counted_words, node_words, pad_words};
ghost use Rattle.bm_lang.specs.Fine.{Fresh, FineType, FineTypes};
ghost use Rattle.bm_lang.specs.Reads.{Reading, Read, MayHaveNode};
ghost use Rattle.bm_lang.specs.declared.scenario.Node.{Node};

use crate::expect::{closing, fault, open, optional, optional_name, placed_name, placed_number};
use crate::fault::{BadKind, LangFault};
use crate::index::Index;
use crate::items::Items;
use crate::keyword::Keyword;
use crate::names::node_of;
use crate::place::Place;
use crate::reader::Tokens;
use crate::scenario::{Node, TypeDeclaration};
use crate::tables::{TypeTable, type_place};
use crate::token::Token;
use bm_word::Name;
use std::alloc::Global;

// The greatest size of an object in bytes.
const MAX_SIZE: u64 = 4088;

/// The type declarations that come next.
pub fn types(
    alloc: Global,
    tokens: &mut Tokens<'_>,
) -> Result<(Vec<TypeDeclaration>, Index), LangFault>
    ensures read { (p : ℕ)
        → Reading result (drafting p [] no_draft) (Types ∷ [])
        (λ v. drafting p (map type_form v.0.items) no_draft)
        (λ v. flat_map spell_type v.0.items) (λ v. FineTypes [] v.0.items) (left tokens.old)
        (left tokens.new) }
    ensures same { IfOk result (λ v. v.1 ≡ map (λ t. t.name) v.0.items) }
{
    let mut types = Vec::new(alloc);
    let mut names = Index::new(alloc);
    while let Some(place) = optional(tokens, Keyword::Type) {
        let declaration = type_declaration(
            alloc,
            tokens,
            TypeTable {
                items: &types,
                names: &names,
            },
            place.line,
        )?;
        names.put(alloc, declaration.name.as_bytes())?;
        types.push(declaration)?;
    }
    Ok((types, names))
}

// A type, behind its first word on this line.
fn type_declaration(
    alloc: Global,
    tokens: &mut Tokens<'_>,
    types: TypeTable<'_>,
    line: u32,
) -> Result<TypeDeclaration, LangFault>
    ensures read { (p : ℕ)
        → Reading result (drafting p (map type_form types.entry.items.now) no_draft)
        (TypeName ∷ Counted ∷ NodeOfType ∷ OpenBrace ∷ Fields ∷ PadOfType ∷ TypeEnd ∷ [])
        (λ t. drafting p (map type_form types.entry.items.now ++ type_form t ∷ []) no_draft)
        type_words
        (λ t. (is_some (type_named (map type_form types.entry.items.now) t.name) ≡ false)
        × FineType t)
        (left tokens.old) (left tokens.new) }
    ensures line { IfOk result (λ t. t.line ≡ line) }
{
    let name = type_name(tokens, types)?;
    let counted = counted(tokens);
    let node = node(tokens);
    open(tokens)?;
    let fields = Items::new(fields(alloc, tokens)?);
    let pad = pad(tokens)?;
    let declaration = TypeDeclaration {
        line,
        name,
        counted,
        node,
        fields,
        pad,
    };
    type_end(tokens, &declaration)?;
    Ok(declaration)
}

// The name of a type, which none of the types has.
fn type_name(tokens: &mut Tokens<'_>, types: TypeTable<'_>) -> Result<Name, LangFault>
    ensures { (p : ℕ)
        → Reading result (drafting p (map type_form types.entry.items.now) no_draft) (TypeName ∷ [])
        (λ n. drafting p (map type_form types.entry.items.now) (form n false None [] 0))
        (λ n. name n ∷ [])
        (λ n. is_some (type_named (map type_form types.entry.items.now) n) ≡ false)
        (left tokens.old) (left tokens.new) }
{
    let (name, place) = placed_name(tokens)?;
    if type_place(types, &name).is_some() {
        return Err(fault(place, BadKind::Duplicate));
    }
    Ok(name)
}

// Whether a type is counted.
fn counted(tokens: &mut Tokens<'_>) -> bool
    ensures { (p : ℕ) (types : List TypeForm) (n : List ℕ)
        → Read (drafting p types (form n false None [] 0)) (Counted ∷ [])
        (drafting p types (form n result None [] 0)) [] (counted_words result) (Unit {0})
        (left tokens.old) (left tokens.new) }
{
    match optional(tokens, Keyword::Counted) {
        Some(_) => true,
        None => false,
    }
}

// The node of a type, if it has one.
fn node(tokens: &mut Tokens<'_>) -> Option<Node>
    ensures { (p : ℕ) (types : List TypeForm) (n : List ℕ) (c : Bool)
        → Read (drafting p types (form n c None [] 0)) (NodeOfType ∷ [])
        (drafting p types (form n c result [] 0)) [] (node_words result) (Unit {0})
        (left tokens.old) (left tokens.new) }
{
    match placed_node(tokens) {
        Some((node, _)) => Some(node),
        None => None,
    }
}

// The word of a node that may come, and its place. It is taken.
fn placed_node(tokens: &mut Tokens<'_>) -> Option<(Node, Place)>
    ensures { MayHaveNode result (left tokens.old) (left tokens.new) }
{
    let next = tokens.peek();
    match next.token {
        Token::Keyword(word) => {
            let node = node_of(word)?;
            let _word = tokens.take();
            Some((node, next.place))
        }
        _ => None,
    }
}

// The fields of a type.
fn fields(alloc: Global, tokens: &mut Tokens<'_>) -> Result<Vec<Name>, LangFault>
    ensures { (p : ℕ) (types : List TypeForm) (n : List ℕ) (c : Bool) (d : Option Node)
        → Reading result (drafting p types (form n c d [] 0)) (Fields ∷ [])
        (λ v. drafting p types (form n c d v.items 0)) (λ v. map name v.items)
        (λ v. Fresh [] v.items) (left tokens.old) (left tokens.new) }
{
    let mut fields = Vec::new(alloc);
    let mut names = Index::new(alloc);
    while let Some((field, place)) = optional_name(tokens) {
        if names.place(field.as_bytes()).is_some() {
            return Err(fault(place, BadKind::Duplicate));
        }
        names.put(alloc, field.as_bytes())?;
        fields.push(field)?;
    }
    Ok(fields)
}

// The pad of a type, if it has one.
fn pad(tokens: &mut Tokens<'_>) -> Result<Option<u32>, LangFault>
    ensures { (p : ℕ) (types : List TypeForm) (n : List ℕ) (c : Bool) (d : Option Node)
        (fs : List (List ℕ))
        → Reading result (drafting p types (form n c d fs 0)) (PadOfType ∷ [])
        (λ o. drafting p types (form n c d fs (unwrap_or o 0))) pad_words
        (λ o. IfSome o (λ b. (b % 8 == 0) ≡ true)) (left tokens.old) (left tokens.new) }
{
    match optional(tokens, Keyword::Pad) {
        Some(_) => Ok(Some(pad_bytes(tokens)?)),
        None => Ok(None),
    }
}

// The number of bytes of a pad.
fn pad_bytes(tokens: &mut Tokens<'_>) -> Result<u32, LangFault>
    ensures { (p : ℕ) (types : List TypeForm) (n : List ℕ) (c : Bool) (d : Option Node)
        (fs : List (List ℕ))
        → Reading result (drafting p types (form n c d fs 0)) (PadBytes ∷ [])
        (λ b. drafting p types (form n c d fs b)) (λ b. number b ∷ [])
        (λ b. (b % 8 == 0) ≡ true) (left tokens.old) (left tokens.new) }
{
    let (bytes, place) = placed_number(tokens)?;
    if bytes % 8 != 0 {
        return Err(fault(place, BadKind::Range));
    }
    Ok(bytes)
}

// The closing brace of a type, whose parts must fit one another.
fn type_end(tokens: &mut Tokens<'_>, declaration: &TypeDeclaration) -> Result<(), LangFault>
    ensures { (p : ℕ) (types : List TypeForm)
        → Reading result (drafting p types (type_form declaration.now)) (TypeEnd ∷ [])
        (λ _. drafting p (types ++ type_form declaration.now ∷ []) no_draft)
        (λ _. any Close ∷ [])
        (λ _. (has_key (type_form declaration.now) ≡ true)
        × (has_size (type_form declaration.now) ≡ true))
        (left tokens.old) (left tokens.new) }
{
    let place = closing(tokens)?;
    if !has_key(declaration) {
        return Err(fault(place, BadKind::Wrong));
    }
    if !has_size(declaration) {
        return Err(fault(place, BadKind::TypeSize));
    }
    Ok(())
}

// Whether a tree can be ordered by the first field of such objects, if they have a tree's node.
fn has_key(declaration: &TypeDeclaration) -> bool
    ensures { result ≡ has_key (type_form declaration.now) }
{
    match declaration.node {
        Some(Node::Tree) => !declaration.fields.as_slice().is_empty(),
        _ => true,
    }
}

// Whether the size of such an object is one that there is.
fn has_size(declaration: &TypeDeclaration) -> bool
    ensures { result ≡ has_size (type_form declaration.now) }
{
    let fields = declaration.fields.as_slice().len();
    if fields > 511 {
        return false;
    }
    let node = node_size(declaration.node);
    let count = if declaration.counted { 8 } else { 0 };
    let pad = declaration.pad.unwrap_or(0) as u64;
    let size = 8 * fields as u64 + node + count + pad;
    0 < size && size <= MAX_SIZE
}

fn node_size(node: Option<Node>) -> u64
    ensures { result ≡ node_size node }
{
    match node {
        None => 0,
        Some(Node::List) => 24,
        Some(Node::Tree) => 32,
    }
}
