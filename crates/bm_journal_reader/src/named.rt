//! Entries that name a slot, a list or a tree, or a type.

ghost use Rattle.std.specs.Prelude.{◌≡◌, option_map};
ghost use Rattle.bm_journal_reader.specs.Pieces.{texts};
ghost use Rattle.bm_law_text.specs.Entries.{at_position, pushed_entry, refused_entry, pushed_at, refused_at, pushed, found_entry, found_none, found_at, found};

use crate::parts;
use bm_journal::{Entry, ObjId};
use bm_law_text::Kind;
use bm_word::Name;

fn at_position(at: &[u8], position: &[u8]) -> Option<u32>
    ensures { result ≡ at_position at.now position.now }
{
    if at != b"at".as_slice() {
        return None;
    }
    parts::number(position)
}

fn pushed_entry(kind: Kind, name: Name, o: ObjId, position: u32) -> Option<Entry>
    ensures { result ≡ pushed_entry kind name o position }
{
    match kind {
        Kind::PushFront => Some(Entry::PushFront(name, o.unit, o.life, position)),
        Kind::PushBack => Some(Entry::PushBack(name, o.unit, o.life, position)),
        Kind::Add => Some(Entry::Add(name, o.unit, o.life, position)),
        Kind::Remove => Some(Entry::Remove(name, o.unit, o.life, position)),
        _ => None,
    }
}

fn refused_entry(kind: Kind, name: Name, o: ObjId, owner: Name, position: u32) -> Option<Entry>
    ensures { result ≡ refused_entry kind name o owner position }
{
    match kind {
        Kind::PushFront => Some(Entry::PushFrontAlready(name, o.unit, o.life, owner, position)),
        Kind::PushBack => Some(Entry::PushBackAlready(name, o.unit, o.life, owner, position)),
        Kind::Add => Some(Entry::AddAlready(name, o.unit, o.life, owner, position)),
        _ => None,
    }
}

fn pushed_at(kind: Kind, name: &[u8], object: Option<ObjId>, position: Option<u32>) -> Option<Entry>
    ensures { result ≡ pushed_at kind name.now object position }
{
    pushed_entry(kind, parts::name(name)?, object?, position?)
}

fn refused_at(
    kind: Kind,
    name: &[u8],
    object: Option<ObjId>,
    already: &[u8],
    owner: &[u8],
    position: Option<u32>,
) -> Option<Entry>
    ensures { result ≡ refused_at kind name.now object already.now owner.now position }
{
    if already != b"already".as_slice() {
        return None;
    }
    refused_entry(
        kind,
        parts::name(name)?,
        object?,
        parts::name(owner)?,
        position?,
    )
}

/// A name, an object and a position; where the object was refused, the owner stands between.
pub fn pushed(kind: Kind, words: &[&[u8]]) -> Option<Entry>
    ensures { result ≡ pushed kind (texts words.now) }
{
    match words {
        [name, unit, life, at, position] => {
            let object = parts::object_id(unit, life);
            pushed_at(kind, name, object, at_position(at, position))
        }
        [name, unit, life, already, owner, at, position] => {
            let object = parts::object_id(unit, life);
            refused_at(
                kind,
                name,
                object,
                already,
                owner,
                at_position(at, position),
            )
        }
        _ => None,
    }
}

fn found_entry(kind: Kind, name: Name, item: Option<ObjId>, position: u32) -> Option<Entry>
    ensures { result ≡ found_entry kind name item position }
{
    match kind {
        Kind::PopFront => Some(Entry::PopFront(name, item, position)),
        Kind::PopBack => Some(Entry::PopBack(name, item, position)),
        Kind::First => Some(Entry::First(name, item, position)),
        _ => None,
    }
}

fn found_none(kind: Kind, name: &[u8], none: &[u8], position: Option<u32>) -> Option<Entry>
    ensures { result ≡ found_none kind name.now none.now position }
{
    if none != b"none".as_slice() {
        return None;
    }
    found_entry(kind, parts::name(name)?, None, position?)
}

fn found_at(kind: Kind, name: &[u8], object: Option<ObjId>, position: Option<u32>) -> Option<Entry>
    ensures { result ≡ found_at kind name.now object position }
{
    found_entry(kind, parts::name(name)?, Some(object?), position?)
}

/// A name, an object or `none`, and a position.
pub fn found(kind: Kind, words: &[&[u8]]) -> Option<Entry>
    ensures { result ≡ found kind (texts words.now) }
{
    match words {
        [name, none, at, position] => found_none(kind, name, none, at_position(at, position)),
        [name, unit, life, at, position] => {
            let object = parts::object_id(unit, life);
            found_at(kind, name, object, at_position(at, position))
        }
        _ => None,
    }
}
