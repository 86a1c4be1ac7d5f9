//! Entries, by the form of their lines: a form has so many words behind the first, and the kind tells which entry they make.

ghost use Rattle.std.specs.Prelude.{◌≡◌};
ghost use Rattle.bm_journal_reader.specs.Pieces.{texts};
ghost use Rattle.bm_law_text.specs.Entries.{bare_entry, bare, named_entry, named, of_domain_entry, of_domain, one_entry, one, freed_entry, freed, dropped, given, acquired, got};

use crate::parts;
use bm_journal::{Domain, Entry};
use bm_law_text::Kind;
use bm_word::Name;

fn bare_entry(kind: Kind) -> Option<Entry>
    ensures { result ≡ bare_entry kind }
{
    match kind {
        Kind::Yield => Some(Entry::Yield),
        Kind::Ended => Some(Entry::Ended),
        Kind::Close => Some(Entry::Close),
        Kind::Empty => Some(Entry::Empty),
        Kind::Last => Some(Entry::Last),
        _ => None,
    }
}

/// The word alone.
pub fn bare(kind: Kind, words: &[&[u8]]) -> Option<Entry>
    ensures { result ≡ bare kind (texts words.now) }
{
    match words {
        [] => bare_entry(kind),
        _ => None,
    }
}

fn named_entry(kind: Kind, name: Name) -> Option<Entry>
    ensures { result ≡ named_entry kind name }
{
    match kind {
        Kind::Script => Some(Entry::Script(name)),
        Kind::Done => Some(Entry::Done(name)),
        Kind::Handler => Some(Entry::Handler(name)),
        Kind::Back => Some(Entry::Back(name)),
        Kind::Lock => Some(Entry::Lock(name)),
        Kind::Unlock => Some(Entry::Unlock(name)),
        _ => None,
    }
}

/// A name.
pub fn named(kind: Kind, words: &[&[u8]]) -> Option<Entry>
    ensures { result ≡ named kind (texts words.now) }
{
    let [name] = words else {
        return None;
    };
    named_entry(kind, parts::name(name)?)
}

fn of_domain_entry(kind: Kind, domain: Domain, number: u32) -> Option<Entry>
    ensures { result ≡ of_domain_entry kind domain number }
{
    match kind {
        Kind::In => Some(Entry::In(domain, number)),
        Kind::Out => Some(Entry::Out(domain, number)),
        Kind::Begin => Some(Entry::Begin(domain, number)),
        _ => None,
    }
}

/// A domain and a number.
pub fn of_domain(kind: Kind, words: &[&[u8]]) -> Option<Entry>
    ensures { result ≡ of_domain kind (texts words.now) }
{
    let [domain, number] = words else {
        return None;
    };
    of_domain_entry(kind, parts::domain(domain)?, parts::number(number)?)
}

fn one_entry(kind: Kind, number: u32) -> Option<Entry>
    ensures { result ≡ one_entry kind number }
{
    match kind {
        Kind::Busy => Some(Entry::Busy(number)),
        Kind::Still => Some(Entry::Still(number)),
        _ => None,
    }
}

/// A number.
pub fn one(kind: Kind, words: &[&[u8]]) -> Option<Entry>
    ensures { result ≡ one kind (texts words.now) }
{
    let [number] = words else {
        return None;
    };
    one_entry(kind, parts::number(number)?)
}

fn freed_entry(kind: Kind, unit: u16, home: u8) -> Option<Entry>
    ensures { result ≡ freed_entry kind unit home }
{
    match kind {
        Kind::Free => Some(Entry::Free(unit, home)),
        Kind::Delay => Some(Entry::Delay(unit, home)),
        _ => None,
    }
}

/// A unit and its home.
pub fn freed(kind: Kind, words: &[&[u8]]) -> Option<Entry>
    ensures { result ≡ freed kind (texts words.now) }
{
    let [unit, home] = words else {
        return None;
    };
    freed_entry(kind, parts::short(unit)?, parts::byte(home)?)
}

/// A unit and its life.
pub fn dropped(words: &[&[u8]]) -> Option<Entry>
    ensures { result ≡ dropped (texts words.now) }
{
    let [unit, life] = words else {
        return None;
    };
    let object = parts::object_id(unit, life)?;
    Some(Entry::Drop(object.unit, object.life))
}

/// A unit and its new life, and where it was freed with delay the stamp and the number seen.
pub fn given(words: &[&[u8]]) -> Option<Entry>
    ensures { result ≡ given (texts words.now) }
{
    match words {
        [unit, life] => {
            let object = parts::object_id(unit, life)?;
            Some(Entry::Given(object.unit, object.life))
        }
        [unit, life, after, stamp, seen] => {
            if *after != b"after".as_slice() {
                return None;
            }
            let object = parts::object_id(unit, life)?;
            let stamp = parts::number(stamp)?;
            let seen = parts::number(seen)?;
            Some(Entry::GivenAfter(object.unit, object.life, stamp, seen))
        }
        _ => None,
    }
}

/// A unit, its life and the count seen.
pub fn acquired(words: &[&[u8]]) -> Option<Entry>
    ensures { result ≡ acquired (texts words.now) }
{
    let [unit, life, count] = words else {
        return None;
    };
    let object = parts::object_id(unit, life)?;
    Some(Entry::Acquire(object.unit, object.life, parts::number(count)?))
}

/// A unit, its life, and a field with its value.
pub fn got(words: &[&[u8]]) -> Option<Entry>
    ensures { result ≡ got (texts words.now) }
{
    let [unit, life, field, value] = words else {
        return None;
    };
    let object = parts::object_id(unit, life)?;
    let field = parts::byte(field)?;
    let value = parts::number(value)?;
    Some(Entry::Get(object.unit, object.life, field, value))
}
