//! Printing the parts of a scenario.

ghost use Rattle.std.specs.Prelude.{◌≡◌, ℕ, List, [], ◌∷◌, ◌++◌, Option, OnOk, map, decimal};
ghost use Rattle.std.specs.List.{flat_map};
ghost use Rattle.bm_lang.specs.declared.keyword.Keyword.TheVariants as word;
ghost use Rattle.bm_lang.specs.Keywords.{keyword_text};
ghost use Rattle.bm_lang.specs.Tokens.{Reserved};
ghost use Rattle.bm_lang.specs.Built.{spell_option};
ghost use Rattle.bm_lang.specs.Shapes.{HasNoBlock, HasGraph};
ghost use Rattle.bm_lang.specs.Names.{TypeForm, MapForm};
ghost use Rattle.bm_lang.specs.Spelling.{on, name as name_word, number, type_form, map_form, script_form, type_name, map_name, script_name, spell_action, spell_block, spell_type, spell_map, spell_script, spell_run, spell_at, spell_turns};
ghost use Rattle.bm_lang.specs.Printing.{printed, row_text, gap};

use crate::keyword::Keyword;
use crate::scenario::{
    Action, Block, MapDeclaration, MapId, Script, ScriptId, TypeDeclaration, TypeId,
};
use bm_word::{Name, NoMemory, put_number};

pub const SPACE: u8 = b' ';

pub const LINE_FEED: u8 = b'\n';

// Some bytes, and one behind them.
pub fn put(out: &mut Vec<u8>, bytes: &[u8], behind: u8) -> Result<(), NoMemory>
    ensures { OnOk result (out.new.items ≡ out.old.items ++ (bytes.now ++ behind ∷ [])) }
{
    out.extend_from_slice(bytes)?;
    out.push(behind)?;
    Ok(())
}

// A number, and a byte behind it.
pub fn put_count(out: &mut Vec<u8>, number: u32, behind: u8) -> Result<(), NoMemory>
    ensures { OnOk result (out.new.items ≡ out.old.items ++ (decimal number ++ behind ∷ [])) }
{
    put_number(out, number as u64)?;
    out.push(behind)?;
    Ok(())
}

// Numbers on a line, if there are some.
pub fn put_numbers(out: &mut Vec<u8>, numbers: &[u32]) -> Result<(), NoMemory>
    ensures { OnOk result (out.new.items ≡ out.old.items ++ printed (map number numbers.now)) }
{
    match numbers {
        [] => Ok(()),
        [last] => put_count(out, *last, LINE_FEED),
        [first, rest @ ..] => {
            put_count(out, *first, SPACE)?;
            put_numbers(out, rest)
        }
    }
}

// Names in a row, with this byte behind the last.
pub fn put_names(out: &mut Vec<u8>, names: &[Name], behind: u8) -> Result<(), NoMemory>
    ensures { OnOk result (out.new.items ≡ out.old.items ++ row_text names.now behind) }
{
    match names {
        [] => Ok(()),
        [last] => put(out, last.as_bytes(), behind),
        [first, rest @ ..] => {
            put(out, first.as_bytes(), SPACE)?;
            put_names(out, rest, behind)
        }
    }
}

pub fn type_name(types: &[TypeDeclaration], id: TypeId) -> &[u8]
    ensures { result.now ≡ type_name (map type_form types.now) id.0 }
{
    match types.get(id.0) {
        Some(found) => found.name.as_bytes(),
        None => b"",
    }
}

fn map_name(maps: &[MapDeclaration], id: MapId) -> &[u8]
    ensures { result.now ≡ map_name (map map_form maps.now) id.0 }
{
    match maps.get(id.0) {
        Some(found) => found.name.as_bytes(),
        None => b"",
    }
}

pub fn script_name(scripts: &[Script], id: ScriptId) -> &[u8]
    ensures { result.now ≡ script_name (map script_form scripts.now) id.0 }
{
    match scripts.get(id.0) {
        Some(found) => found.name.as_bytes(),
        None => b"",
    }
}

// A line of two words.
fn two(out: &mut Vec<u8>, word: Keyword, name: &[u8]) -> Result<(), NoMemory>
    ensures { OnOk result
        (out.new.items ≡ out.old.items ++ (keyword_text word ++ 32 ∷ (name.now ++ 10 ∷ []))) }
{
    put(out, word.text(), SPACE)?;
    put(out, name, LINE_FEED)
}

// A line of three.
pub fn three(out: &mut Vec<u8>, word: Keyword, first: &[u8], second: &[u8]) -> Result<(), NoMemory>
    ensures { OnOk result
        (out.new.items
        ≡ out.old.items
        ++ (keyword_text word ++ 32 ∷ (first.now ++ 32 ∷ (second.now ++ 10 ∷ [])))) }
{
    put(out, word.text(), SPACE)?;
    two_names(out, first, second)
}

fn two_names(out: &mut Vec<u8>, first: &[u8], second: &[u8]) -> Result<(), NoMemory>
    ensures { OnOk result
        (out.new.items ≡ out.old.items ++ (first.now ++ 32 ∷ (second.now ++ 10 ∷ []))) }
{
    put(out, first, SPACE)?;
    put(out, second, LINE_FEED)
}

// A line of four.
fn four(
    out: &mut Vec<u8>,
    word: Keyword,
    first: &[u8],
    second: &[u8],
    third: &[u8],
) -> Result<(), NoMemory>
    ensures { OnOk result
        (out.new.items
        ≡ out.old.items
        ++ (keyword_text word ++ 32
        ∷ (first.now ++ 32 ∷ (second.now ++ 32 ∷ (third.now ++ 10 ∷ []))))) }
{
    put(out, word.text(), SPACE)?;
    put(out, first, SPACE)?;
    two_names(out, second, third)
}

/// A block, behind the space before it.
#[cycle(printing)]
pub fn put_block(
    out: &mut Vec<u8>,
    types: &[TypeDeclaration],
    maps: &[MapDeclaration],
    block: &Block,
) -> Result<(), NoMemory>
    ensures { OnOk result
        (out.new.items
        ≡ out.old.items
        ++ printed
        (spell_block (map type_form types.now) (map map_form maps.now) block.now)) }
{
    put(out, b"{", LINE_FEED)?;
    for statement in &block.statements {
        put_action(out, types, maps, &statement.action)?;
    }
    put(out, b"}", LINE_FEED)
}

// A statement.
#[cycle(printing)]
fn put_action(
    out: &mut Vec<u8>,
    types: &[TypeDeclaration],
    maps: &[MapDeclaration],
    action: &Action,
) -> Result<(), NoMemory>
    ensures { OnOk result
        ((l : ℕ)
        → out.new.items
        ≡ out.old.items
        ++ printed
        (spell_action (map type_form types.now) (map map_form maps.now) l
        action.now)) }
{
    match action {
        Action::If {
            name,
            body,
            otherwise,
        } => {
            put(out, Keyword::If.text(), SPACE)?;
            put(out, name.as_bytes(), SPACE)?;
            put_block(out, types, maps, body)?;
            put_else(out, types, maps, otherwise)
        }
        Action::Repeat { count, body } => {
            put(out, Keyword::Repeat.text(), SPACE)?;
            put_count(out, *count, SPACE)?;
            put_block(out, types, maps, body)
        }
        Action::Section { body } => {
            put(out, Keyword::Section.text(), SPACE)?;
            put_block(out, types, maps, body)
        }
        _ => put_simple(out, types, maps, action),
    }
}

// The block behind an `else`, if there is one.
#[cycle(printing)]
fn put_else(
    out: &mut Vec<u8>,
    types: &[TypeDeclaration],
    maps: &[MapDeclaration],
    otherwise: &Option<Block>,
) -> Result<(), NoMemory>
    ensures { OnOk result
        (out.new.items
        ≡ out.old.items
        ++ printed
        (spell_option (map type_form types.now) (map map_form maps.now)
        otherwise.now)) }
{
    match otherwise {
        Some(block) => {
            put(out, Keyword::Else.text(), SPACE)?;
            put_block(out, types, maps, block)
        }
        None => Ok(()),
    }
}

// A statement without a block.
fn put_simple(
    out: &mut Vec<u8>,
    types: &[TypeDeclaration],
    maps: &[MapDeclaration],
    action: &Action,
) -> Result<(), NoMemory>
    requires { HasNoBlock action.now }
    ensures { OnOk result
        ((l : ℕ)
        → out.new.items
        ≡ out.old.items
        ++ printed
        (spell_action (map type_form types.now) (map map_form maps.now) l
        action.now)) }
{
    match action {
        Action::New {
            name,
            type_id,
            values,
        } => put_creation(out, types, name, *type_id, values.as_slice()),
        Action::Drop { name } => two(out, Keyword::Drop, name.as_bytes()),
        Action::Acquire { name, of } => three(
            out,
            Keyword::Acquire,
            name.as_bytes(),
            of.as_bytes(),
        ),
        Action::Get { name, field } => three(out, Keyword::Get, name.as_bytes(), field.as_bytes()),
        Action::Exchange { name, slot, given } => {
            let given = match given {
                Some(given) => given.as_bytes(),
                None => Keyword::Null.text(),
            };
            four(
                out,
                Keyword::Xchg,
                name.as_bytes(),
                map_name(maps, *slot),
                given,
            )
        }
        Action::Unlock => put(out, Keyword::Unlock.text(), LINE_FEED),
        Action::Yield => put(out, Keyword::Yield.text(), LINE_FEED),
        _ => put_on_graph(out, maps, action),
    }
}

// A statement with the name of a list or a tree.
fn put_on_graph(out: &mut Vec<u8>, maps: &[MapDeclaration], action: &Action) -> Result<(), NoMemory>
    requires { HasGraph action.now }
    ensures { OnOk result
        ((l : ℕ) (types : List TypeForm)
        → out.new.items
        ≡ out.old.items
        ++ printed (spell_action types (map map_form maps.now) l action.now)) }
{
    match action {
        Action::Lock { graph } => two(out, Keyword::Lock, map_name(maps, *graph)),
        Action::PushFront { list, name } => three(
            out,
            Keyword::PushFront,
            map_name(maps, *list),
            name.as_bytes(),
        ),
        Action::PushBack { list, name } => three(
            out,
            Keyword::PushBack,
            map_name(maps, *list),
            name.as_bytes(),
        ),
        Action::PopFront { name, list } => three(
            out,
            Keyword::PopFront,
            name.as_bytes(),
            map_name(maps, *list),
        ),
        Action::PopBack { name, list } => three(
            out,
            Keyword::PopBack,
            name.as_bytes(),
            map_name(maps, *list),
        ),
        Action::Add { tree, name } => three(
            out,
            Keyword::Add,
            map_name(maps, *tree),
            name.as_bytes(),
        ),
        Action::First { name, tree } => three(
            out,
            Keyword::First,
            name.as_bytes(),
            map_name(maps, *tree),
        ),
        Action::Remove { name, tree, node } => four(
            out,
            Keyword::Remove,
            name.as_bytes(),
            map_name(maps, *tree),
            node.as_bytes(),
        ),
        _ => unreachable!(),
    }
}

// A `new`.
fn put_creation(
    out: &mut Vec<u8>,
    types: &[TypeDeclaration],
    name: &Name,
    type_id: TypeId,
    values: &[u32],
) -> Result<(), NoMemory>
    ensures { OnOk result
        ((l : ℕ)
        → out.new.items
        ≡ out.old.items
        ++ printed
        (on l (Reserved word.New) ∷ name_word name.now
        ∷ name_word (type_name (map type_form types.now) type_id.0)
        ∷ map number values.now)) }
{
    put(out, Keyword::New.text(), SPACE)?;
    put(out, name.as_bytes(), SPACE)?;
    put(out, type_name(types, type_id), byte_before(values))?;
    put_numbers(out, values)
}

// The byte between a name and these numbers.
fn byte_before(values: &[u32]) -> u8
    ensures { (n : List ℕ) → gap (name_word n) (map number values.now) ≡ result }
{
    if values.is_empty() { LINE_FEED } else { SPACE }
}
