//! Reading the blocks of a script.

ghost use Rattle.std.specs.Prelude.{◌≡◌, ℕ, List, [], ◌∷◌, Option, IfOk, map};
ghost use Rattle.bm_lang.specs.Tokens.{Reserved};
ghost use Rattle.bm_lang.specs.Left.{left};
ghost use Rattle.bm_lang.specs.Names.{ScriptForm};
ghost use Rattle.bm_lang.specs.Known.{knowing};
ghost use Rattle.bm_lang.specs.Grammar.{Braced, Else};
ghost use Rattle.bm_lang.specs.Spelling.{type_form, map_form, spell_action, spell_block};
ghost use Rattle.bm_lang.specs.Fine.{FineAction, FineBlock};
ghost use Rattle.bm_lang.specs.Built.{spell_option, FineOption};
ghost use Rattle.bm_lang.specs.Reads.{Reading, Stating, mark};

use crate::expect::{any_name, any_number, fault, opening, optional, refused};
use crate::fault::{BadKind, LangFault};
use crate::keyword::Keyword;
use crate::place::Place;
use crate::reader::Tokens;
use crate::scenario::{Action, Block, Statement};
use crate::statements::simple;
use crate::tables::{MapTable, TypeTable};
use crate::token::Token;
use std::alloc::Global;

/// A block, in which `depth` blocks may still be opened one inside the other, itself among them.
#[cycle(blocks)]
pub fn block(
    alloc: Global,
    tokens: &mut Tokens<'_>,
    types: TypeTable<'_>,
    maps: MapTable<'_>,
    depth: u32,
) -> Result<Block, LangFault>
    ensures { (p : ℕ) (scripts : List ScriptForm)
        → Reading result
        (knowing p (map type_form types.entry.items.now) (map map_form maps.entry.items.now)
        scripts)
        (Braced depth ∷ [])
        (λ _. knowing p (map type_form types.entry.items.now)
        (map map_form maps.entry.items.now) scripts)
        (spell_block (map type_form types.entry.items.now) (map map_form maps.entry.items.now))
        (FineBlock (map type_form types.entry.items.now) (map map_form maps.entry.items.now)
        depth)
        (left tokens.old) (left tokens.new) }
{
    let place = opening(tokens)?;
    if depth == 0 {
        return Err(fault(place, BadKind::Depth));
    }
    let mut statements = Vec::new(alloc);
    loop {
        let next = tokens.take();
        match next.token {
            Token::Close => {
                return Ok(Block {
                    statements,
                    end_line: next.place.line,
                });
            }
            Token::Keyword(word) => {
                let action = action(alloc, tokens, types, maps, depth - 1, word, next.place)?;
                statements.push(Statement {
                    line: next.place.line,
                    action,
                })?;
            }
            _ => return Err(refused(next)),
        }
    }
}

// What a statement does that begins with this word, at this place.
#[cycle(blocks)]
fn action(
    alloc: Global,
    tokens: &mut Tokens<'_>,
    types: TypeTable<'_>,
    maps: MapTable<'_>,
    depth: u32,
    word: Keyword,
    start: Place,
) -> Result<Action, LangFault>
    ensures { (p : ℕ) (scripts : List ScriptForm)
        → Stating result
        (knowing p (map type_form types.entry.items.now) (map map_form maps.entry.items.now)
        scripts)
        depth
        (spell_action (map type_form types.entry.items.now) (map map_form maps.entry.items.now)
        start.line)
        (FineAction (map type_form types.entry.items.now) (map map_form maps.entry.items.now)
        depth)
        (mark (Reserved word) start ∷ left tokens.old) (left tokens.new) }
{
    match word {
        Keyword::If => {
            let name = any_name(tokens)?;
            let body = block(alloc, tokens, types, maps, depth)?;
            let otherwise = otherwise(alloc, tokens, types, maps, depth)?;
            Ok(Action::If {
                name,
                body,
                otherwise,
            })
        }
        Keyword::Repeat => {
            let count = any_number(tokens)?;
            let body = block(alloc, tokens, types, maps, depth)?;
            Ok(Action::Repeat { count, body })
        }
        Keyword::Section => {
            let body = block(alloc, tokens, types, maps, depth)?;
            Ok(Action::Section { body })
        }
        _ => simple(alloc, tokens, types, maps, word, start),
    }
}

// The block behind an `else`, if there is one.
#[cycle(blocks)]
fn otherwise(
    alloc: Global,
    tokens: &mut Tokens<'_>,
    types: TypeTable<'_>,
    maps: MapTable<'_>,
    depth: u32,
) -> Result<Option<Block>, LangFault>
    ensures { (p : ℕ) (scripts : List ScriptForm)
        → Reading result
        (knowing p (map type_form types.entry.items.now) (map map_form maps.entry.items.now)
        scripts)
        (Else depth ∷ [])
        (λ _. knowing p (map type_form types.entry.items.now)
        (map map_form maps.entry.items.now) scripts)
        (spell_option (map type_form types.entry.items.now) (map map_form maps.entry.items.now))
        (FineOption (map type_form types.entry.items.now) (map map_form maps.entry.items.now)
        depth)
        (left tokens.old) (left tokens.new) }
{
    match optional(tokens, Keyword::Else) {
        Some(_) => Ok(Some(block(alloc, tokens, types, maps, depth)?)),
        None => Ok(None),
    }
}
