//! The entry that some words say.

ghost use Rattle.std.specs.Prelude.{◌≡◌, IfOk};
ghost use Rattle.bm_journal_reader.specs.Pieces.{texts};
ghost use Rattle.bm_law_text.specs.Entries.{entry_as, entry_of};

use crate::{calls, exchange, named, steps};
use bm_journal::Entry;
use bm_law_text::{Kind, kind_of};
use bm_word::NoMemory;
use std::alloc::Global;

// The kind decides the form.
fn entry_as(alloc: Global, kind: Kind, words: &[&[u8]]) -> Result<Option<Entry>, NoMemory>
    ensures { IfOk result (λ read. read ≡ entry_as kind (texts words.now)) }
{
    match kind {
        Kind::Fill
        | Kind::Receive
        | Kind::TakeExtra
        | Kind::TakeDelayed
        | Kind::Batch
        | Kind::BeginSecond
        | Kind::Return
        | Kind::Sweep => steps::class_units(alloc, kind, words),
        Kind::Script | Kind::Done | Kind::Handler | Kind::Back | Kind::Lock | Kind::Unlock => Ok(
            calls::named(kind, words),
        ),
        Kind::In | Kind::Out | Kind::Begin => Ok(calls::of_domain(kind, words)),
        Kind::Yield | Kind::Ended | Kind::Close | Kind::Empty | Kind::Last => Ok(calls::bare(
            kind, words,
        )),
        Kind::New => Ok(exchange::new(words)),
        Kind::Given => Ok(calls::given(words)),
        Kind::Busy | Kind::Still => Ok(calls::one(kind, words)),
        Kind::Drop => Ok(calls::dropped(words)),
        Kind::Free | Kind::Delay => Ok(calls::freed(kind, words)),
        Kind::Acquire => Ok(calls::acquired(words)),
        Kind::Get => Ok(calls::got(words)),
        Kind::Xchg => Ok(exchange::exchanged(words)),
        Kind::PushFront | Kind::PushBack | Kind::Add | Kind::Remove => Ok(named::pushed(
            kind, words,
        )),
        Kind::PopFront | Kind::PopBack | Kind::First => Ok(named::found(kind, words)),
        Kind::Work | Kind::Raise | Kind::Lost | Kind::LostDelayed => Ok(steps::of_class(
            kind, words,
        )),
        Kind::Finish => Ok(exchange::finished(words)),
        Kind::Enter | Kind::Count | Kind::Leave | Kind::Look | Kind::LookDelayed | Kind::Read => Ok(
            steps::class_number(kind, words),
        ),
        Kind::Pop => Ok(steps::popped(words)),
        Kind::Push | Kind::Delayed | Kind::Put | Kind::PutDelayed | Kind::Ready | Kind::Second =>
            Ok(steps::class_unit(kind, words)),
        Kind::Fetch => steps::fetched(alloc, words),
        Kind::Send => steps::sent(alloc, words),
        Kind::Stamp | Kind::Pass => Ok(steps::class_domain(kind, words)),
    }
}

/// The entry with these words. None exactly where no entry has them.
pub fn entry_of(alloc: Global, words: &[&[u8]]) -> Result<Option<Entry>, NoMemory>
    ensures { IfOk result (λ read. read ≡ entry_of (texts words.now)) }
{
    let [first, rest @ ..] = words else {
        return Ok(None);
    };
    match kind_of(first) {
        Some(kind) => entry_as(alloc, kind, rest),
        None => Ok(None),
    }
}
