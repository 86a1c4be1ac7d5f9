//! Entries that name a class.

ghost use Rattle.std.specs.Prelude.{◌≡◌, IfOk};
ghost use Rattle.bm_journal_reader.specs.Pieces.{texts};
ghost use Rattle.bm_law_text.specs.Entries.{of_class_entry, of_class, class_number_entry, class_number, class_unit_entry, class_unit, popped, class_units_entry, class_units, fetched, sent, class_domain_entry, class_domain};

use crate::lists::unit_numbers;
use crate::parts;
use bm_class::Class;
use bm_journal::{Domain, Entry, UnitNumbers, Units};
use bm_law_text::Kind;
use bm_word::NoMemory;
use std::alloc::Global;

fn of_class_entry(kind: Kind, class: Class) -> Option<Entry>
    ensures { result ≡ of_class_entry kind class }
{
    match kind {
        Kind::Work => Some(Entry::Work(class)),
        Kind::Raise => Some(Entry::Raise(class)),
        Kind::Lost => Some(Entry::Lost(class)),
        Kind::LostDelayed => Some(Entry::LostDelayed(class)),
        _ => None,
    }
}

/// A class.
pub fn of_class(kind: Kind, words: &[&[u8]]) -> Option<Entry>
    ensures { result ≡ of_class kind (texts words.now) }
{
    let [class] = words else {
        return None;
    };
    of_class_entry(kind, parts::class(class)?)
}

fn class_number_entry(kind: Kind, class: Class, number: u32) -> Option<Entry>
    ensures { result ≡ class_number_entry kind class number }
{
    match kind {
        Kind::Enter => Some(Entry::Enter(class, number)),
        Kind::Count => Some(Entry::Count(class, number)),
        Kind::Leave => Some(Entry::Leave(class, number)),
        Kind::Look => Some(Entry::Look(class, number)),
        Kind::LookDelayed => Some(Entry::LookDelayed(class, number)),
        Kind::Read => Some(Entry::Read(class, number)),
        _ => None,
    }
}

/// A class and a number.
pub fn class_number(kind: Kind, words: &[&[u8]]) -> Option<Entry>
    ensures { result ≡ class_number kind (texts words.now) }
{
    let [class, number] = words else {
        return None;
    };
    class_number_entry(kind, parts::class(class)?, parts::number(number)?)
}

fn class_unit_entry(kind: Kind, class: Class, unit: u16) -> Option<Entry>
    ensures { result ≡ class_unit_entry kind class unit }
{
    match kind {
        Kind::Push => Some(Entry::Push(class, unit)),
        Kind::Delayed => Some(Entry::Delayed(class, unit)),
        Kind::Put => Some(Entry::Put(class, unit)),
        Kind::PutDelayed => Some(Entry::PutDelayed(class, unit)),
        Kind::Ready => Some(Entry::Ready(class, unit)),
        Kind::Second => Some(Entry::Second(class, unit)),
        Kind::Pop => Some(Entry::Pop(class, unit)),
        _ => None,
    }
}

/// A class and a unit.
pub fn class_unit(kind: Kind, words: &[&[u8]]) -> Option<Entry>
    ensures { result ≡ class_unit kind (texts words.now) }
{
    let [class, unit] = words else {
        return None;
    };
    class_unit_entry(kind, parts::class(class)?, parts::short(unit)?)
}

/// A class, and a unit or `none`.
pub fn popped(words: &[&[u8]]) -> Option<Entry>
    ensures { result ≡ popped (texts words.now) }
{
    let [class, unit] = words else {
        return None;
    };
    if *unit == b"none".as_slice() {
        Some(Entry::PopNone(parts::class(class)?))
    } else {
        class_unit(Kind::Pop, words)
    }
}

fn class_units_entry(kind: Kind, class: Class, units: UnitNumbers) -> Option<Entry>
    ensures { result ≡ class_units_entry kind class units }
{
    match kind {
        Kind::Fill => Some(Entry::Fill(class, Units::Whole(units))),
        Kind::Receive => Some(Entry::Receive(class, Units::Whole(units))),
        Kind::TakeExtra => Some(Entry::TakeExtra(class, Units::Whole(units))),
        Kind::TakeDelayed => Some(Entry::TakeDelayed(class, Units::Whole(units))),
        Kind::Batch => Some(Entry::Batch(class, Units::Whole(units))),
        Kind::BeginSecond => Some(Entry::BeginSecond(class, Units::Whole(units))),
        Kind::Return => Some(Entry::Return(class, Units::Whole(units))),
        Kind::Sweep => Some(Entry::Sweep(class, Units::Whole(units))),
        _ => None,
    }
}

/// A class and units.
pub fn class_units(alloc: Global, kind: Kind, words: &[&[u8]]) -> Result<Option<Entry>, NoMemory>
    ensures { IfOk result (λ read. read ≡ class_units kind (texts words.now)) }
{
    let [class, units @ ..] = words else {
        return Ok(None);
    };
    let Some(class) = parts::class(class) else {
        return Ok(None);
    };
    let Some(units) = unit_numbers(alloc, units)? else {
        return Ok(None);
    };
    Ok(class_units_entry(kind, class, units))
}

/// A class, how many units were wanted, and units.
pub fn fetched(alloc: Global, words: &[&[u8]]) -> Result<Option<Entry>, NoMemory>
    ensures { IfOk result (λ read. read ≡ fetched (texts words.now)) }
{
    let [class, wanted, units @ ..] = words else {
        return Ok(None);
    };
    let (Some(class), Some(wanted)) = (parts::class(class), parts::number(wanted)) else {
        return Ok(None);
    };
    let Some(units) = unit_numbers(alloc, units)? else {
        return Ok(None);
    };
    Ok(Some(Entry::Fetch(class, wanted, Units::Whole(units))))
}

/// A class, a processor, and units.
pub fn sent(alloc: Global, words: &[&[u8]]) -> Result<Option<Entry>, NoMemory>
    ensures { IfOk result (λ read. read ≡ sent (texts words.now)) }
{
    let [class, processor, units @ ..] = words else {
        return Ok(None);
    };
    let (Some(class), Some(processor)) = (parts::class(class), parts::byte(processor)) else {
        return Ok(None);
    };
    let Some(units) = unit_numbers(alloc, units)? else {
        return Ok(None);
    };
    Ok(Some(Entry::Send(class, processor, Units::Whole(units))))
}

fn class_domain_entry(kind: Kind, class: Class, domain: Domain, number: u32) -> Option<Entry>
    ensures { result ≡ class_domain_entry kind class domain number }
{
    match kind {
        Kind::Stamp => Some(Entry::Stamp(class, domain, number)),
        Kind::Pass => Some(Entry::Pass(class, domain, number)),
        _ => None,
    }
}

/// A class, a domain and a number.
pub fn class_domain(kind: Kind, words: &[&[u8]]) -> Option<Entry>
    ensures { result ≡ class_domain kind (texts words.now) }
{
    let [class, domain, number] = words else {
        return None;
    };
    class_domain_entry(
        kind,
        parts::class(class)?,
        parts::domain(domain)?,
        parts::number(number)?,
    )
}
