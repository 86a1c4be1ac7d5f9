//! The lines of entries: each form of entry appends its own words.

ghost use Rattle.std.specs.Prelude.{◌≡◌, ◌++◌, ◌∷◌, [], OnOk, codes, decimal};
ghost use Rattle.bm_journal.specs.Line.{spaced};
ghost use Rattle.bm_journal.specs.EntryText.{words_of, numbers, units as unit_words, size, domain as domain_text, object as object_words, call as call_words};
ghost use Rattle.bm_journal.specs.Form.{part_words, parts_words};

use crate::entry::Entry;
use crate::ids::{Domain, ObjId, Tag};
use crate::line::{put_literal, put_numbers, put_spaced_number, put_unit_numbers, put_word};
use crate::period::Period;
use crate::units::Units;
use bm_class::Class;
use bm_word::NoMemory;

/// A part of a line that isn't an entry's.
#[derive(Clone, Copy)]
pub enum Part<'a> {
    Text(&'a [u8]),
    Size(Class),
    Number(u32),
    Long(u64),
    Object(Option<ObjId>),
    Nothing,
}

fn put_part(out: &mut Vec<u8>, part: &Part<'_>) -> Result<(), NoMemory>
    ensures { OnOk result (out.new.items ≡ out.old.items ++ spaced (part_words part.now)) }
{
    match part {
        Part::Text(word) => put_word(out, word),
        Part::Size(class) => put_class(out, *class),
        Part::Number(number) => put_spaced_number(out, *number as u64),
        Part::Long(number) => put_spaced_number(out, *number),
        Part::Object(object) => put_object(out, *object),
        Part::Nothing => Ok(()),
    }
}

/// Appends the words of parts, each behind a space.
pub fn put_parts(out: &mut Vec<u8>, parts: &[Part<'_>]) -> Result<(), NoMemory>
    ensures { OnOk result (out.new.items ≡ out.old.items ++ spaced (parts_words parts.now)) }
{
    for part in parts {
        put_part(out, part)?;
    }
    Ok(())
}

fn put_class(out: &mut Vec<u8>, class: Class) -> Result<(), NoMemory>
    ensures { OnOk result (out.new.items ≡ out.old.items ++ spaced (size class ∷ [])) }
{
    put_spaced_number(out, class.size() as u64)
}

fn put_domain(out: &mut Vec<u8>, domain: Domain) -> Result<(), NoMemory>
    ensures { OnOk result (out.new.items ≡ out.old.items ++ spaced (domain_text domain ∷ [])) }
{
    match domain {
        Domain::Plain => put_literal(out, b"plain"),
        Domain::Tracing => put_literal(out, b"tracing"),
    }
}

fn put_object(out: &mut Vec<u8>, object: Option<ObjId>) -> Result<(), NoMemory>
    ensures { OnOk result (out.new.items ≡ out.old.items ++ spaced (object_words object)) }
{
    match object {
        Some(object) => put_two(out, object.unit as u32, object.life),
        None => put_literal(out, b"none"),
    }
}

fn put_call(out: &mut Vec<u8>, call: Option<Tag>) -> Result<(), NoMemory>
    ensures { OnOk result (out.new.items ≡ out.old.items ++ spaced (call_words call)) }
{
    match call {
        Some(tag) => put_two(out, tag.processor as u32, tag.serial),
        None => put_literal(out, b"start"),
    }
}

fn put_units(out: &mut Vec<u8>, units: &Units) -> Result<(), NoMemory>
    ensures { OnOk result (out.new.items ≡ out.old.items ++ spaced (unit_words units.now)) }
{
    put_unit_numbers(out, units.as_slice())
}

// Two numbers.
fn put_two(out: &mut Vec<u8>, a: u32, b: u32) -> Result<(), NoMemory>
    ensures { OnOk result (out.new.items ≡ out.old.items ++ spaced (decimal a ∷ decimal b ∷ [])) }
{
    put_spaced_number(out, a as u64)?;
    put_spaced_number(out, b as u64)
}

// A word and a name.
fn put_named<const N: usize>(out: &mut Vec<u8>, word: &[u8; N], name: &[u8]) -> Result<(), NoMemory>
    ensures { OnOk result (out.new.items ≡ out.old.items ++ spaced (word.now ∷ name.now ∷ [])) }
{
    put_literal(out, word)?;
    put_word(out, name)
}

// A word and a number.
fn put_numbered<const N: usize>(
    out: &mut Vec<u8>,
    word: &[u8; N],
    number: u32,
) -> Result<(), NoMemory>
    ensures { OnOk result
        (out.new.items ≡ out.old.items ++ spaced (word.now ∷ decimal number ∷ [])) }
{
    put_literal(out, word)?;
    put_spaced_number(out, number as u64)
}

// A word, a unit and its life or its home.
fn put_life<const N: usize>(
    out: &mut Vec<u8>,
    word: &[u8; N],
    unit: u32,
    life: u32,
) -> Result<(), NoMemory>
    ensures { OnOk result
        (out.new.items ≡ out.old.items ++ spaced (word.now ∷ decimal unit ∷ decimal life ∷ [])) }
{
    put_literal(out, word)?;
    put_two(out, unit, life)
}

// A word, a domain and a number.
fn put_of_domain<const N: usize>(
    out: &mut Vec<u8>,
    word: &[u8; N],
    domain: Domain,
    number: u32,
) -> Result<(), NoMemory>
    ensures { OnOk result
        (out.new.items
        ≡ out.old.items ++ spaced (word.now ∷ domain_text domain ∷ decimal number ∷ [])) }
{
    put_literal(out, word)?;
    put_domain(out, domain)?;
    put_spaced_number(out, number as u64)
}

// A call on a list or tree that was done, with its position.
fn put_at<const N: usize>(
    out: &mut Vec<u8>,
    word: &[u8; N],
    name: &[u8],
    unit: u32,
    life: u32,
    position: u32,
) -> Result<(), NoMemory>
    ensures { OnOk result
        (out.new.items
        ≡ out.old.items
        ++ spaced
        (word.now ∷ name.now ∷ decimal unit ∷ decimal life ∷ codes "at"
        ∷ decimal position ∷ [])) }
{
    put_literal(out, word)?;
    put_word(out, name)?;
    put_two(out, unit, life)?;
    put_literal(out, b"at")?;
    put_spaced_number(out, position as u64)
}

// A call on a list or tree that was refused, with the owner and its position.
fn put_already<const N: usize>(
    out: &mut Vec<u8>,
    word: &[u8; N],
    name: &[u8],
    unit: u32,
    life: u32,
    owner: &[u8],
    position: u32,
) -> Result<(), NoMemory>
    ensures { OnOk result
        (out.new.items
        ≡ out.old.items
        ++ spaced
        (word.now ∷ name.now ∷ decimal unit ∷ decimal life ∷ codes "already" ∷ owner.now
        ∷ codes "at" ∷ decimal position ∷ [])) }
{
    put_literal(out, word)?;
    put_word(out, name)?;
    put_two(out, unit, life)?;
    put_owner(out, owner, position)
}

// `already`, with the owner and the position.
fn put_owner(out: &mut Vec<u8>, owner: &[u8], position: u32) -> Result<(), NoMemory>
    ensures { OnOk result (
        out.new.items
        ≡ out.old.items ++ spaced (codes "already" ∷ owner.now ∷ codes "at" ∷ decimal position ∷ [])
        ) }
{
    put_named(out, b"already", owner)?;
    put_numbered(out, b"at", position)
}

// A call that asks a list or tree for an object, with what it found and its position.
fn put_found<const N: usize>(
    out: &mut Vec<u8>,
    word: &[u8; N],
    name: &[u8],
    object: Option<ObjId>,
    position: u32,
) -> Result<(), NoMemory>
    ensures { OnOk result
        (out.new.items
        ≡ out.old.items
        ++ spaced
        (word.now ∷ name.now
        ∷ (object_words object ++ codes "at" ∷ decimal position ∷ []))) }
{
    put_literal(out, word)?;
    put_word(out, name)?;
    put_object(out, object)?;
    put_literal(out, b"at")?;
    put_spaced_number(out, position as u64)
}

// A word and a class.
fn put_of_class<const N: usize>(
    out: &mut Vec<u8>,
    word: &[u8; N],
    class: Class,
) -> Result<(), NoMemory>
    ensures { OnOk result (out.new.items ≡ out.old.items ++ spaced (word.now ∷ size class ∷ [])) }
{
    put_literal(out, word)?;
    put_class(out, class)
}

// A word, a class and a number.
fn put_class_number<const N: usize>(
    out: &mut Vec<u8>,
    word: &[u8; N],
    class: Class,
    number: u32,
) -> Result<(), NoMemory>
    ensures { OnOk result
        (out.new.items ≡ out.old.items ++ spaced (word.now ∷ size class ∷ decimal number ∷ [])) }
{
    put_literal(out, word)?;
    put_class(out, class)?;
    put_spaced_number(out, number as u64)
}

// A word, a class and units.
fn put_class_units<const N: usize>(
    out: &mut Vec<u8>,
    word: &[u8; N],
    class: Class,
    units: &Units,
) -> Result<(), NoMemory>
    ensures { OnOk result
        (out.new.items ≡ out.old.items ++ spaced (word.now ∷ size class ∷ unit_words units.now)) }
{
    put_literal(out, word)?;
    put_class(out, class)?;
    put_units(out, units)
}

// A word, a class, a number and units.
fn put_class_number_units<const N: usize>(
    out: &mut Vec<u8>,
    word: &[u8; N],
    class: Class,
    number: u32,
    units: &Units,
) -> Result<(), NoMemory>
    ensures { OnOk result
        (out.new.items
        ≡ out.old.items
        ++ spaced (word.now ∷ size class ∷ decimal number ∷ unit_words units.now)) }
{
    put_class_number(out, word, class, number)?;
    put_units(out, units)
}

// A word, a class, a domain and a number.
fn put_class_domain<const N: usize>(
    out: &mut Vec<u8>,
    word: &[u8; N],
    class: Class,
    domain: Domain,
    number: u32,
) -> Result<(), NoMemory>
    ensures { OnOk result
        (out.new.items
        ≡ out.old.items
        ++ spaced (word.now ∷ size class ∷ domain_text domain ∷ decimal number ∷ [])) }
{
    put_literal(out, word)?;
    put_class(out, class)?;
    put_domain(out, domain)?;
    put_spaced_number(out, number as u64)
}

// A pop of a list without units.
fn put_pop_none(out: &mut Vec<u8>, class: Class) -> Result<(), NoMemory>
    ensures { OnOk result
        (out.new.items ≡ out.old.items ++ spaced (codes "pop" ∷ size class ∷ codes "none" ∷ [])) }
{
    put_of_class(out, b"pop", class)?;
    put_literal(out, b"none")
}

// `given` with the stamp and the number seen.
fn put_given_after(
    out: &mut Vec<u8>,
    unit: u32,
    life: u32,
    stamp: u32,
    seen: u32,
) -> Result<(), NoMemory>
    ensures { OnOk result (
        out.new.items
        ≡ out.old.items
        ++ spaced
        (codes "given" ∷ decimal unit ∷ decimal life ∷ codes "after" ∷ decimal stamp
        ∷ decimal seen ∷ [])
        ) }
{
    put_life(out, b"given", unit, life)?;
    put_life(out, b"after", stamp, seen)
}

// `acquire` with the count seen.
fn put_acquire(out: &mut Vec<u8>, unit: u32, life: u32, count: u32) -> Result<(), NoMemory>
    ensures { OnOk result (
        out.new.items
        ≡ out.old.items
        ++ spaced (codes "acquire" ∷ decimal unit ∷ decimal life ∷ decimal count ∷ [])
        ) }
{
    put_life(out, b"acquire", unit, life)?;
    put_spaced_number(out, count as u64)
}

// `get` with the field's place and its value.
fn put_get(out: &mut Vec<u8>, unit: u32, life: u32, field: u32, value: u32) -> Result<(), NoMemory>
    ensures { OnOk result (
        out.new.items
        ≡ out.old.items
        ++ spaced (codes "get" ∷ decimal unit ∷ decimal life ∷ decimal field ∷ decimal value ∷ [])
        ) }
{
    put_life(out, b"get", unit, life)?;
    put_two(out, field, value)
}

// `new` with the values of the fields.
fn put_new(out: &mut Vec<u8>, name: &[u8], values: &[u32]) -> Result<(), NoMemory>
    ensures { OnOk result
        (out.new.items ≡ out.old.items ++ spaced (codes "new" ∷ name.now ∷ numbers values.now)) }
{
    put_named(out, b"new", name)?;
    put_numbers(out, values)
}

// `xchg` with what was put, what was there and which call had put it.
fn put_exchange(
    out: &mut Vec<u8>,
    name: &[u8],
    put: Option<ObjId>,
    was: Option<ObjId>,
    by: Option<Tag>,
) -> Result<(), NoMemory>
    ensures { OnOk result (
        out.new.items
        ≡ out.old.items
        ++ spaced (
        codes "xchg" ∷ name.now ∷ codes "put"
        ∷ (object_words put ++ codes "was" ∷ (object_words was ++ codes "by" ∷ call_words by))
        )
        ) }
{
    put_named(out, b"xchg", name)?;
    put_with_object(out, b"put", put)?;
    put_with_object(out, b"was", was)?;
    put_by(out, by)
}

// A word and an object.
fn put_with_object<const N: usize>(
    out: &mut Vec<u8>,
    word: &[u8; N],
    object: Option<ObjId>,
) -> Result<(), NoMemory>
    ensures { OnOk result
        (out.new.items ≡ out.old.items ++ spaced (word.now ∷ object_words object)) }
{
    put_literal(out, word)?;
    put_object(out, object)
}

// `by` and a call.
fn put_by(out: &mut Vec<u8>, call: Option<Tag>) -> Result<(), NoMemory>
    ensures { OnOk result (out.new.items ≡ out.old.items ++ spaced (codes "by" ∷ call_words call)) }
{
    put_literal(out, b"by")?;
    put_call(out, call)
}

// `finish` with the words of the period.
fn put_period(out: &mut Vec<u8>, period: &Period) -> Result<(), NoMemory>
    ensures { OnOk result (
        out.new.items
        ≡ out.old.items
        ++ spaced (
        codes "finish" ∷ domain_text period.now.domain ∷ decimal period.now.number ∷ codes "first"
        ∷ (numbers period.now.first ++ codes "later" ∷ numbers period.now.later)
        )
        ) }
{
    put_of_domain(out, b"finish", period.domain, period.number)?;
    put_listed(out, b"first", period.first.as_slice())?;
    put_listed(out, b"later", period.later.as_slice())
}

// A word and numbers.
fn put_listed<const N: usize>(
    out: &mut Vec<u8>,
    word: &[u8; N],
    items: &[u32],
) -> Result<(), NoMemory>
    ensures { OnOk result (out.new.items ≡ out.old.items ++ spaced (word.now ∷ numbers items.now)) }
{
    put_literal(out, word)?;
    put_numbers(out, items)
}

/// Appends the words of an entry, each behind a space.
pub fn put_entry(out: &mut Vec<u8>, entry: &Entry) -> Result<(), NoMemory>
    ensures { OnOk result (out.new.items ≡ out.old.items ++ spaced (words_of entry.now)) }
{
    match entry {
        Entry::Fill(class, units) => put_class_units(out, b"fill", *class, units),
        Entry::Script(name) => put_named(out, b"script", name.as_bytes()),
        Entry::Done(name) => put_named(out, b"done", name.as_bytes()),
        Entry::Handler(name) => put_named(out, b"handler", name.as_bytes()),
        Entry::Back(name) => put_named(out, b"back", name.as_bytes()),
        Entry::In(domain, word) => put_of_domain(out, b"in", *domain, *word),
        Entry::Out(domain, word) => put_of_domain(out, b"out", *domain, *word),
        Entry::Yield => put_literal(out, b"yield"),
        Entry::Ended => put_literal(out, b"ended"),
        Entry::Close => put_literal(out, b"close"),
        Entry::New(name, values) => put_new(out, name.as_bytes(), values.as_slice()),
        Entry::Given(unit, life) => put_life(out, b"given", *unit as u32, *life),
        Entry::GivenAfter(unit, life, stamp, seen) => {
            put_given_after(out, *unit as u32, *life, *stamp, *seen)
        }
        Entry::Empty => put_literal(out, b"empty"),
        Entry::Busy(active) => put_numbered(out, b"busy", *active),
        Entry::Drop(unit, life) => put_life(out, b"drop", *unit as u32, *life),
        Entry::Still(count) => put_numbered(out, b"still", *count),
        Entry::Last => put_literal(out, b"last"),
        Entry::Free(unit, home) => put_life(out, b"free", *unit as u32, *home as u32),
        Entry::Delay(unit, home) => put_life(out, b"delay", *unit as u32, *home as u32),
        Entry::Acquire(unit, life, count) => put_acquire(out, *unit as u32, *life, *count),
        Entry::Get(unit, life, field, value) => {
            put_get(out, *unit as u32, *life, *field as u32, *value)
        }
        Entry::Xchg(name, put, was, by) => put_exchange(out, name.as_bytes(), *put, *was, *by),
        Entry::Lock(name) => put_named(out, b"lock", name.as_bytes()),
        Entry::Unlock(name) => put_named(out, b"unlock", name.as_bytes()),
        Entry::PushFront(name, unit, life, position) => {
            put_at(
                out,
                b"push_front",
                name.as_bytes(),
                *unit as u32,
                *life,
                *position,
            )
        }
        Entry::PushBack(name, unit, life, position) => {
            put_at(
                out,
                b"push_back",
                name.as_bytes(),
                *unit as u32,
                *life,
                *position,
            )
        }
        Entry::Add(name, unit, life, position) => {
            put_at(out, b"add", name.as_bytes(), *unit as u32, *life, *position)
        }
        Entry::PushFrontAlready(name, unit, life, owner, position) => put_already(
            out,
            b"push_front",
            name.as_bytes(),
            *unit as u32,
            *life,
            owner.as_bytes(),
            *position,
        ),
        Entry::PushBackAlready(name, unit, life, owner, position) => put_already(
            out,
            b"push_back",
            name.as_bytes(),
            *unit as u32,
            *life,
            owner.as_bytes(),
            *position,
        ),
        Entry::AddAlready(name, unit, life, owner, position) => put_already(
            out,
            b"add",
            name.as_bytes(),
            *unit as u32,
            *life,
            owner.as_bytes(),
            *position,
        ),
        Entry::PopFront(name, object, position) => {
            put_found(out, b"pop_front", name.as_bytes(), *object, *position)
        }
        Entry::PopBack(name, object, position) => {
            put_found(out, b"pop_back", name.as_bytes(), *object, *position)
        }
        Entry::First(name, object, position) => {
            put_found(out, b"first", name.as_bytes(), *object, *position)
        }
        Entry::Remove(name, unit, life, position) => {
            put_at(
                out,
                b"remove",
                name.as_bytes(),
                *unit as u32,
                *life,
                *position,
            )
        }
        Entry::Work(class) => put_of_class(out, b"work", *class),
        Entry::Begin(domain, number) => put_of_domain(out, b"begin", *domain, *number),
        Entry::Finish(period) => put_period(out, period),
        Entry::Enter(class, active) => put_class_number(out, b"enter", *class, *active),
        Entry::Pop(class, unit) => put_class_number(out, b"pop", *class, *unit as u32),
        Entry::PopNone(class) => put_pop_none(out, *class),
        Entry::Count(class, count) => put_class_number(out, b"count", *class, *count),
        Entry::Leave(class, active) => put_class_number(out, b"leave", *class, *active),
        Entry::Raise(class) => put_of_class(out, b"raise", *class),
        Entry::Push(class, unit) => put_class_number(out, b"push", *class, *unit as u32),
        Entry::Delayed(class, unit) => put_class_number(out, b"delayed", *class, *unit as u32),
        Entry::Look(class, length) => put_class_number(out, b"look", *class, *length),
        Entry::Put(class, unit) => put_class_number(out, b"put", *class, *unit as u32),
        Entry::Lost(class) => put_of_class(out, b"lost", *class),
        Entry::LookDelayed(class, length) => put_class_number(out, b"lookd", *class, *length),
        Entry::PutDelayed(class, unit) => put_class_number(out, b"putd", *class, *unit as u32),
        Entry::LostDelayed(class) => put_of_class(out, b"lostd", *class),
        Entry::Receive(class, units) => put_class_units(out, b"receive", *class, units),
        Entry::Read(class, count) => put_class_number(out, b"read", *class, *count),
        Entry::Ready(class, unit) => put_class_number(out, b"ready", *class, *unit as u32),
        Entry::Second(class, unit) => put_class_number(out, b"second", *class, *unit as u32),
        Entry::Fetch(class, want, units) => {
            put_class_number_units(out, b"fetch", *class, *want, units)
        }
        Entry::TakeExtra(class, units) => put_class_units(out, b"takex", *class, units),
        Entry::Send(class, processor, units) => {
            put_class_number_units(out, b"send", *class, *processor as u32, units)
        }
        Entry::TakeDelayed(class, units) => put_class_units(out, b"taked", *class, units),
        Entry::Batch(class, units) => put_class_units(out, b"batch", *class, units),
        Entry::Stamp(class, domain, stamp) => put_class_domain(
            out, b"stamp", *class, *domain, *stamp,
        ),
        Entry::Pass(class, domain, number) => put_class_domain(
            out, b"pass", *class, *domain, *number,
        ),
        Entry::BeginSecond(class, units) => put_class_units(out, b"begin2", *class, units),
        Entry::Return(class, units) => put_class_units(out, b"return", *class, units),
        Entry::Sweep(class, units) => put_class_units(out, b"sweep", *class, units),
    }
}
