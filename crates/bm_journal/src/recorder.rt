//! Recorders: what takes a processor's entries, one after the other.

ghost use Rattle.std.specs.Prelude.{◌≡◌, ◌∷◌, ◌++◌, ℕ, Bool, false, List, [], Option, Some, None, IsTrue, IfSome, IsSome, is_none, if◌then◌else◌, refl};
ghost use Rattle.bm_journal.specs.declared.entry.Entry.{Entry as EntryValue};
ghost use Rattle.bm_journal.specs.declared.counts.Counts.{Counts as CountsValue};
ghost use Rattle.bm_journal.specs.Counts.{counts_after, no_counts};
ghost use Rattle.bm_journal.specs.Recording.{Appends};
ghost use Rattle.bm_journal.specs.WellFormed.{is_whole_entry, is_whole_log};

use crate::counts::Counts;
use crate::entry::Entry;
use crate::level::Level;
use crate::log::Log;
use crate::units::Units;
use std::alloc::Global;
use std::marker::Model;

/// What takes the entries of one processor, each with the level that it was taken at. It counts the units in lists and
/// in hand by them. It may tell its log, which is all entries that it took, in their order. Recorders are this
/// project's own.
pub trait Recorder {
    /// All entries that it took, in order, where it tells them.
    ghost log: { Self → Option (List (ℕ × EntryValue)) };

    /// The units in lists and in hand, as the entries tell it.
    ghost counts: { Self → CountsValue };

    /// Whether an entry was lost.
    ghost has_failed: { Self → Bool };

    /// Takes an entry. It is counted, and stands at the end of the log, if one is told afterwards. A recorder that
    /// stores its entries may find no memory for this one; then it has failed, for good. After an entry whose list of
    /// units isn't whole no log is told.
    fn put(&mut self, level: Level, entry: Entry)
        ensures counted { counts self.new ≡ counts_after level entry (counts self.old) }
        ensures recorded { Appends (log self.old) level entry (log self.new) }
        ensures whole { IsSome (log self.new) → IsTrue (is_whole_entry entry) }
        ensures for_good { IsTrue (has_failed self.old) → IsTrue (has_failed self.new) };

    /// Whether an entry was lost.
    fn failed(&self) -> bool
        ensures { result ≡ has_failed self.now };

    // One that failed tells no log.
    ghost tells_none: { (recorder : Self) → IsTrue (has_failed recorder) → log recorder ≡ None };
}

/// A recorder that stores its log. Once a put found no memory it has failed for good: it tells no log and stores
/// nothing more, but counts on. An entry whose list of units isn't whole is such a put, since its caller found no
/// memory for the list. Each put takes memory for its own entry alone, amortised over the puts.
#[derive(Drop)]
pub struct Keep {
    log: Log,
    failed: bool,
    counts: Counts,
}

impl Model for Keep {
    ghost use Rattle.std.specs.Prelude.{◌≡◌, IsTrue, Some, None, if◌then◌else◌};
    ghost use Rattle.bm_journal.specs.WellFormed.{is_whole_log};
    ghost use Rattle.bm_journal.specs.Recording.{Kept};

    ghost Value = { Kept };

    ghost view = { λ k. record
        { told = if k.failed then None else Some k.log; counted = k.counts } };

    ghost invariant = { λ k. IsTrue (is_whole_log k.log) };
}

impl Keep {
    /// A recorder without entries. It takes no memory yet.
    pub fn new(alloc: Global) -> Keep
        ensures { result ≡ record { told = Some []; counted = no_counts } }
    {
        Keep {
            log: Log::new(alloc),
            failed: false,
            counts: Counts::new(),
        }
    }

    /// The units in lists and in hand, as the entries told it.
    pub fn counts(&self) -> Counts
        ensures { result ≡ self.now.counted }
    {
        self.counts
    }

    /// The log. None exactly where the recorder has failed. Each list of units in it is whole.
    pub fn into_log(self) -> Option<Log>
        ensures told { result ≡ self.told }
        ensures whole { IfSome result (λ log. IsTrue (is_whole_log log)) }
    {
        let Keep {
            log,
            failed,
            counts: _counts,
        } = self;
        if failed { None } else { Some(log) }
    }
}

impl Recorder for Keep {
    ghost log = { λ k. k.told };

    ghost counts = { λ k. k.counted };

    ghost has_failed = { λ k. is_none k.told };

    ghost use Rattle.bm_journal.specs.Recording.{none-is_none};

    ghost tells_none = { λ k. none-is_none k.told };

    fn put(&mut self, level: Level, entry: Entry) {
        self.counts.note(level, &entry);
        if !self.failed {
            self.failed = !store(&mut self.log, level, &entry);
        }
    }

    fn failed(&self) -> bool {
        self.failed
    }
}

/// Puts an entry at the end of the log, where it is whole and there is memory for it, and answers whether it did.
/// Where it didn't the log is left without entries.
fn store(log: &mut Log, level: Level, entry: &Entry) -> bool
    ensures items { log.new ≡ (if result then log.old ++ (level, entry.now) ∷ [] else []) }
    ensures whole { IsTrue result → IsTrue (is_whole_entry entry.now) }
{
    if !is_whole(entry) {
        log.clear();
        return false;
    }
    match log.push(level, entry) {
        Ok(()) => true,
        Err(_refused) => false,
    }
}

/// Whether the list of units that the entry names, if it names one, is there.
fn is_whole(entry: &Entry) -> bool
    ensures { result ≡ is_whole_entry entry.now }
{
    match entry {
        Entry::Fill(_, units)
        | Entry::Receive(_, units)
        | Entry::Fetch(_, _, units)
        | Entry::TakeExtra(_, units)
        | Entry::Send(_, _, units)
        | Entry::TakeDelayed(_, units)
        | Entry::Batch(_, units)
        | Entry::BeginSecond(_, units)
        | Entry::Return(_, units)
        | Entry::Sweep(_, units) => match units {
            Units::Whole(_) => true,
            Units::Counted(_) => false,
        },
        _ => true,
    }
}

/// A recorder that counts alone. It takes no memory, never fails and tells no log.
#[derive(Clone, Copy, Debug, PartialEq, Eq)]
pub struct Tally {
    counted: Counts,
}

impl Model for Tally {
    ghost use Rattle.bm_journal.specs.declared.counts.Counts.{Counts as CountsValue};

    ghost Value = { CountsValue };

    ghost view = { λ t. t.counted };

    ghost inverse = { λ counts. record { counted = counts } };
}

impl Tally {
    /// A recorder without entries.
    pub fn new() -> Tally
        ensures { result ≡ no_counts }
    {
        Tally {
            counted: Counts::new(),
        }
    }

    /// The units in lists and in hand, as the entries told it.
    pub fn counts(&self) -> Counts
        ensures { result ≡ self.now }
    {
        self.counted
    }
}

impl Recorder for Tally {
    ghost log = { λ _. None };

    ghost counts = { λ t. t };

    ghost has_failed = { λ _. false };

    ghost tells_none = { λ _ _. refl };

    fn put(&mut self, level: Level, entry: Entry) {
        self.counted.note(level, &entry);
    }

    fn failed(&self) -> bool {
        false
    }
}
