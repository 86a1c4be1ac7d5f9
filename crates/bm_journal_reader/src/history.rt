//! The calls of a history.

ghost use Rattle.std.specs.Prelude.{◌≡◌};
ghost use Rattle.bm_journal_reader.specs.Pieces.{texts};
ghost use Rattle.bm_law_text.specs.Reading.{past_pushed_call, past_refused_call, past_refused, past_pushed, past_added, past_found_call, past_none_call, past_found, past_as, past_call};

use crate::owners::Owners;
use crate::parts;
use bm_journal::{ObjId, PastCall};
use bm_law_text::{Kind, kind_of};

fn past_pushed_call(kind: Kind, object: ObjId) -> Option<PastCall>
    ensures { result ≡ past_pushed_call kind object }
{
    match kind {
        Kind::PushFront => Some(PastCall::PushFront(object)),
        Kind::PushBack => Some(PastCall::PushBack(object)),
        _ => None,
    }
}

fn past_refused_call(kind: Kind, object: ObjId, owner: u8) -> Option<PastCall>
    ensures { result ≡ past_refused_call kind object owner }
{
    match kind {
        Kind::PushFront => Some(PastCall::PushFrontAlready(object, owner)),
        Kind::PushBack => Some(PastCall::PushBackAlready(object, owner)),
        _ => None,
    }
}

fn past_refused(
    kind: Kind,
    object: Option<ObjId>,
    already: &[u8],
    owner: Option<u8>,
) -> Option<PastCall>
    ensures { result ≡ past_refused kind object already.now owner }
{
    if already != b"already".as_slice() {
        return None;
    }
    past_refused_call(kind, object?, owner?)
}

// A push at the front or at the back, done or refused.
fn past_pushed(owners: &Owners, kind: Kind, words: &[&[u8]]) -> Option<PastCall>
    ensures { result ≡ past_pushed owners.now kind (texts words.now) }
{
    match words {
        [unit, life] => past_pushed_call(kind, parts::object_id(unit, life)?),
        [unit, life, already, owner] => {
            let object = parts::object_id(unit, life);
            past_refused(kind, object, already, owners.place(owner))
        }
        _ => None,
    }
}

// An addition, done or refused.
fn past_added(owners: &Owners, words: &[&[u8]]) -> Option<PastCall>
    ensures { result ≡ past_added owners.now (texts words.now) }
{
    match words {
        [unit, life, key] => {
            let object = parts::object_id(unit, life)?;
            Some(PastCall::Add(object, parts::number(key)?))
        }
        [unit, life, key, already, owner] => {
            if *already != b"already".as_slice() {
                return None;
            }
            let object = parts::object_id(unit, life)?;
            let key = parts::number(key)?;
            Some(PastCall::AddAlready(object, key, owners.place(owner)?))
        }
        _ => None,
    }
}

fn past_found_call(kind: Kind, object: ObjId) -> Option<PastCall>
    ensures { result ≡ past_found_call kind object }
{
    match kind {
        Kind::PopFront => Some(PastCall::PopFront(object)),
        Kind::PopBack => Some(PastCall::PopBack(object)),
        Kind::First => Some(PastCall::First(object)),
        Kind::Remove => Some(PastCall::Remove(object)),
        _ => None,
    }
}

fn past_none_call(kind: Kind) -> Option<PastCall>
    ensures { result ≡ past_none_call kind }
{
    match kind {
        Kind::PopFront => Some(PastCall::PopFrontNone),
        Kind::PopBack => Some(PastCall::PopBackNone),
        Kind::First => Some(PastCall::FirstNone),
        _ => None,
    }
}

// A call that takes an object or looks for one.
fn past_found(kind: Kind, words: &[&[u8]]) -> Option<PastCall>
    ensures { result ≡ past_found kind (texts words.now) }
{
    match words {
        [unit, life] => past_found_call(kind, parts::object_id(unit, life)?),
        [none] => {
            if *none != b"none".as_slice() {
                return None;
            }
            past_none_call(kind)
        }
        _ => None,
    }
}

fn past_as(owners: &Owners, kind: Kind, words: &[&[u8]]) -> Option<PastCall>
    ensures { result ≡ past_as owners.now kind (texts words.now) }
{
    match kind {
        Kind::PushFront | Kind::PushBack => past_pushed(owners, kind, words),
        Kind::Add => past_added(owners, words),
        _ => past_found(kind, words),
    }
}

/// The call with these words, where the maps have these names. None exactly where no call has them.
pub fn past_call(owners: &Owners, words: &[&[u8]]) -> Option<PastCall>
    ensures { result ≡ past_call owners.now (texts words.now) }
{
    let [first, rest @ ..] = words else {
        return None;
    };
    past_as(owners, kind_of(first)?, rest)
}
