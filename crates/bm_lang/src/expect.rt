//! One token that is needed, or that may come.

ghost use Rattle.std.specs.Prelude.{◌≡◌, ℕ, List, [], ◌∷◌, IsTrue};
ghost use Rattle.bm_word.specs.Word.{is_word as is_a_word};
ghost use Rattle.bm_lang.specs.Tokens.{Open, Close, Number, Reserved, sort};
ghost use Rattle.bm_lang.specs.Tokens as token;
ghost use Rattle.bm_lang.specs.Left.{left};
ghost use Rattle.bm_lang.specs.Names.{Names};
ghost use Rattle.bm_lang.specs.Grammar.{Word, OpenBrace, CloseBrace, AnyName, AnyNumber, refusal, is_word, is_open, is_close, is_name, is_number};
ghost use Rattle.bm_lang.specs.Machine.{bad};
ghost use Rattle.bm_lang.specs.Spelling.{any, name, number, reserved};
ghost use Rattle.bm_lang.specs.Reads.{Reading, Gets, May, mark};
ghost use Rattle.bm_lang.specs.declared.fault.LangFault.TheVariants.{Bad};

use crate::fault::{BadKind, BadText, LangFault};
use crate::keyword::Keyword;
use crate::place::Place;
use crate::reader::Tokens;
use crate::token::{Placed, Token, TokenFault};
use bm_word::Name;

/// The fault of this kind at this place.
pub fn fault(place: Place, kind: BadKind) -> LangFault
    ensures { result ≡ Bad (bad place kind) }
{
    LangFault::Bad(BadText {
        line: place.line,
        column: place.column,
        kind,
    })
}

/// The fault of a token that can't stand at its place, whatever might.
pub fn refused(next: Placed<'_>) -> LangFault
    ensures { result ≡ Bad (bad next.entry.place (refusal (sort next.entry.token))) }
{
    let kind = match next.token {
        Token::Wrong(TokenFault::Byte) => BadKind::Byte,
        Token::Wrong(TokenFault::Number) => BadKind::Number,
        Token::Wrong(TokenFault::Name) => BadKind::Name,
        Token::End => BadKind::End,
        _ => BadKind::Unexpected,
    };
    fault(next.place, kind)
}

/// A `{`, and its place.
pub fn opening(tokens: &mut Tokens<'_>) -> Result<Place, LangFault>
    ensures { Gets result (λ p. mark Open p) is_open (left tokens.old) (left tokens.new) }
{
    let next = tokens.take();
    match next.token {
        Token::Open => Ok(next.place),
        _ => Err(refused(next)),
    }
}

/// A `}`, and its place.
pub fn closing(tokens: &mut Tokens<'_>) -> Result<Place, LangFault>
    ensures { Gets result (λ p. mark Close p) is_close (left tokens.old) (left tokens.new) }
{
    let next = tokens.take();
    match next.token {
        Token::Close => Ok(next.place),
        _ => Err(refused(next)),
    }
}

/// A number, and its place.
pub fn placed_number(tokens: &mut Tokens<'_>) -> Result<(u32, Place), LangFault>
    ensures { Gets result (λ x. mark (Number x.0) x.1) is_number (left tokens.old)
        (left tokens.new) }
{
    let next = tokens.take();
    match next.token {
        Token::Number(number) => Ok((number, next.place)),
        _ => Err(refused(next)),
    }
}

/// A name, and its place.
pub fn placed_name(tokens: &mut Tokens<'_>) -> Result<(Name, Place), LangFault>
    ensures { Gets result (λ x. mark (token.Name x.0) x.1) is_name (left tokens.old)
        (left tokens.new) }
{
    let next = tokens.take();
    match next.token {
        Token::Name(bytes) => Ok((name_of(bytes), next.place)),
        _ => Err(refused(next)),
    }
}

// A reserved word, and its place.
fn placed_word(tokens: &mut Tokens<'_>, word: Keyword) -> Result<Place, LangFault>
    ensures { Gets result (mark (Reserved word)) (is_word word) (left tokens.old)
        (left tokens.new) }
{
    let next = tokens.take();
    match next.token {
        Token::Keyword(found) if found.is(word) => Ok(next.place),
        _ => Err(refused(next)),
    }
}

/// A reserved word.
pub fn word(tokens: &mut Tokens<'_>, word: Keyword) -> Result<(), LangFault>
    ensures { (names : Names)
        → Reading result names (Word word ∷ []) (λ _. names) (λ _. reserved word ∷ [])
        (λ _. Unit {0}) (left tokens.old) (left tokens.new) }
{
    let _place = placed_word(tokens, word)?;
    Ok(())
}

/// A `{`.
pub fn open(tokens: &mut Tokens<'_>) -> Result<(), LangFault>
    ensures { (names : Names)
        → Reading result names (OpenBrace ∷ []) (λ _. names) (λ _. any Open ∷ []) (λ _. Unit {0})
        (left tokens.old) (left tokens.new) }
{
    let _place = opening(tokens)?;
    Ok(())
}

/// A `}`.
pub fn close(tokens: &mut Tokens<'_>) -> Result<(), LangFault>
    ensures { (names : Names)
        → Reading result names (CloseBrace ∷ []) (λ _. names) (λ _. any Close ∷ []) (λ _. Unit {0})
        (left tokens.old) (left tokens.new) }
{
    let _place = closing(tokens)?;
    Ok(())
}

/// Any name.
pub fn any_name(tokens: &mut Tokens<'_>) -> Result<Name, LangFault>
    ensures { (names : Names)
        → Reading result names (AnyName ∷ []) (λ _. names) (λ x. name x ∷ []) (λ _. Unit {0})
        (left tokens.old) (left tokens.new) }
{
    let (name, _) = placed_name(tokens)?;
    Ok(name)
}

/// Any number.
pub fn any_number(tokens: &mut Tokens<'_>) -> Result<u32, LangFault>
    ensures { (names : Names)
        → Reading result names (AnyNumber ∷ []) (λ _. names) (λ n. number n ∷ []) (λ _. Unit {0})
        (left tokens.old) (left tokens.new) }
{
    let (number, _) = placed_number(tokens)?;
    Ok(number)
}

/// The place of a reserved word that may come, which is taken.
pub fn optional(tokens: &mut Tokens<'_>, word: Keyword) -> Option<Place>
    ensures { May result (mark (Reserved word)) (is_word word) (left tokens.old) (left tokens.new) }
{
    let next = tokens.peek();
    match next.token {
        Token::Keyword(found) if found.is(word) => {
            let _word = tokens.take();
            Some(next.place)
        }
        _ => None,
    }
}

/// A name that may come, and its place. It is taken.
pub fn optional_name(tokens: &mut Tokens<'_>) -> Option<(Name, Place)>
    ensures { May result (λ x. mark (token.Name x.0) x.1) is_name (left tokens.old)
        (left tokens.new) }
{
    let next = tokens.peek();
    match next.token {
        Token::Name(bytes) => {
            let _name = tokens.take();
            Some((name_of(bytes), next.place))
        }
        _ => None,
    }
}

/// A number that may come, and its place. It is taken.
pub fn optional_number(tokens: &mut Tokens<'_>) -> Option<(u32, Place)>
    ensures { May result (λ x. mark (Number x.0) x.1) is_number (left tokens.old)
        (left tokens.new) }
{
    let next = tokens.peek();
    match next.token {
        Token::Number(number) => {
            let _number = tokens.take();
            Some((number, next.place))
        }
        _ => None,
    }
}

// The name with these bytes, which are a word.
fn name_of(bytes: &[u8]) -> Name
    requires { IsTrue (is_a_word bytes.now) }
    ensures { result ≡ bytes.now }
{
    match Name::new(bytes) {
        Some(name) => name,
        None => unreachable!(),
    }
}
