//! Lines with parts of more than one length: an exchange, the end of a period, and the values of a new object.

ghost use Rattle.std.specs.Prelude.{◌≡◌, ◌+◌, ◌<◌, length, take, drop, option_map, position, codes, IfSome};
ghost use Rattle.bm_journal_reader.specs.Pieces.{texts};
ghost use Rattle.bm_law_text.specs.Parts.{word_is, object, object_some, call};
ghost use Rattle.bm_law_text.specs.Entries.{exchanged, new, looked_at, both_few, finished};

use crate::lists::{section_words, values};
use crate::parts;
use crate::parts::past_word;
use bm_journal::{Entry, ObjId, Period, Tag, Words};

fn object_some<'a, 'b>(
    unit: &[u8],
    words: &'a [&'b [u8]],
) -> Option<(Option<ObjId>, &'a [&'b [u8]])>
    ensures { option_map (λ read. (read.0, texts read.1.now)) result
        ≡ object_some unit.now (texts words.now) }
{
    let [life, rest @ ..] = words else {
        return None;
    };
    let object = parts::object_id(unit, life)?;
    Some((Some(object), rest))
}

// An object or `none`, and the words after it.
#[tactic(auto, unfolding(bm_law_text::specs::Parts::object))]
fn object<'a, 'b>(words: &'a [&'b [u8]]) -> Option<(Option<ObjId>, &'a [&'b [u8]])>
    ensures { option_map (λ read. (read.0, texts read.1.now)) result ≡ object (texts words.now) }
{
    let [first, rest @ ..] = words else {
        return None;
    };
    if *first == b"none".as_slice() {
        Some((None, rest))
    } else {
        object_some(first, rest)
    }
}

// A call or `start`, to the end of the line.
#[tactic(auto, unfolding(bm_law_text::specs::Parts::call))]
fn call(words: &[&[u8]]) -> Option<Option<Tag>>
    ensures { result ≡ call (texts words.now) }
{
    match words {
        [start] => {
            if *start == b"start".as_slice() {
                Some(None)
            } else {
                None
            }
        }
        [processor, serial] => Some(Some(parts::tag(processor, serial)?)),
        _ => None,
    }
}

/// A name, what was put there, what was there, and by which call.
pub fn exchanged(words: &[&[u8]]) -> Option<Entry>
    ensures { result ≡ exchanged (texts words.now) }
{
    let [name, rest @ ..] = words else {
        return None;
    };
    let name = parts::name(name)?;
    let rest = past_word(b"put", rest)?;
    let (put, rest) = object(rest)?;
    let rest = past_word(b"was", rest)?;
    let (was, rest) = object(rest)?;
    let rest = past_word(b"by", rest)?;
    let by = call(rest)?;
    Some(Entry::Xchg(name, put, was, by))
}

/// The name of a type, and the values of the object's fields.
pub fn new(words: &[&[u8]]) -> Option<Entry>
    ensures { result ≡ new (texts words.now) }
{
    let [name, rest @ ..] = words else {
        return None;
    };
    let name = parts::name(name)?;
    let values = values(rest)?;
    Some(Entry::New(name, values))
}

// The words before a place, and those behind it.
fn words_at(words: &[&[u8]], place: usize) -> Option<(Words, Words)>
    requires { place < length words.now }
    ensures { result
        ≡ both_few (texts (take place words.now)) (texts (drop (place + 1) words.now)) }
{
    let first = section_words(&words[..place])?;
    let later = section_words(&words[place + 1..])?;
    Some((first, later))
}

// The words before `later`, and those behind it.
#[tactic(auto, using(crate::proofs::Later::looked_at_texts))]
fn looked_at(words: &[&[u8]]) -> Option<(Words, Words)>
    ensures { result ≡ looked_at (texts words.now) }
{
    words_at(words, place_of_later(words)?)
}

fn place_of_later(words: &[&[u8]]) -> Option<usize>
    ensures place { result ≡ position (λ w. word_is (codes "later") w.now) words.now }
    ensures inside { IfSome result (λ place. place < length words.now) }
{
    words.iter().position(|word| *word == b"later".as_slice())
}

/// A domain, a number, and the words that the period looked at.
pub fn finished(words: &[&[u8]]) -> Option<Entry>
    ensures { result ≡ finished (texts words.now) }
{
    let [domain, number, first, rest @ ..] = words else {
        return None;
    };
    if *first != b"first".as_slice() {
        return None;
    }
    let domain = parts::domain(domain)?;
    let number = parts::number(number)?;
    let (first, later) = looked_at(rest)?;
    Some(Entry::Finish(Period {
        domain,
        number,
        first,
        later,
    }))
}
