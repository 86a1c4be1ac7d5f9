//! The log of one processor, kept as its text.

ghost use Rattle.std.specs.Prelude.{◌≡◌, ◌∷◌, ◌++◌, [], OnOk, OnErr, IfOk, replicate};
ghost use Rattle.bm_journal.specs.Counting.{adds_log};
ghost use Rattle.bm_journal.specs.JournalText.{entry_lines};

use crate::counting::Counters;
use crate::entry::Entry;
use crate::level::Level;
use crate::text::put_entry_line;
use crate::told::Told;
use bm_word::NoMemory;
use std::alloc::Global;
use std::marker::Model;

/// The entries of one processor in order, each with the level that it was taken at. What is kept is their text, line
/// by line, and what they add to the totals; contracts see the list of the entries. `read_entry` of
/// `bm_journal_reader` gives the entry of a line.
#[derive(Drop)]
pub struct Log {
    text: Vec<u8>,
    counters: Counters,
    told: Told,
}

impl Model for Log {
    ghost use Rattle.std.specs.Prelude.{◌≡◌, ℕ, List, replicate};
    ghost use Rattle.bm_journal.specs.declared.entry.Entry.{Entry};
    ghost use Rattle.bm_journal.specs.Counting.{adds_log};
    ghost use Rattle.bm_journal.specs.JournalText.{entry_lines};

    ghost Value = { List (ℕ × Entry) };

    ghost view = { λ l. l.told.items };

    ghost invariant = { λ l. (l.text.items ≡ entry_lines l.told.items)
        × (l.counters.values ≡ adds_log l.told.items (replicate 19 0)) };
}

impl Log {
    /// A log without entries. It takes no memory yet.
    pub fn new(alloc: Global) -> Log
        ensures { result ≡ [] }
    {
        Log {
            text: Vec::new(alloc),
            counters: Counters::new(),
            told: Told::new(),
        }
    }

    /// The log with these entries. The only refusal is want of memory.
    pub fn of(alloc: Global, entries: &[(Level, Entry)]) -> Result<Log, NoMemory>
        ensures { IfOk result (λ log. log ≡ entries.now) }
    {
        let mut log = Log::new(alloc);
        for (level, entry) in entries {
            log.push(*level, entry)?;
        }
        Ok(log)
    }

    /// Puts an entry at the end. At want of memory the log is left without entries.
    pub fn push(&mut self, level: Level, entry: &Entry) -> Result<(), NoMemory>
        ensures done { OnOk result (self.new ≡ self.old ++ (level, entry.now) ∷ []) }
        ensures refused { OnErr result (self.new ≡ []) }
    {
        match put_entry_line(&mut self.text, level, entry) {
            Ok(()) => {
                self.counters.add_entry(entry);
                self.told = Told::with(&self.told, &level, entry);
                Ok(())
            }
            Err(refused) => {
                self.text.clear();
                self.counters = Counters::new();
                self.told = Told::new();
                Err(refused)
            }
        }
    }

    /// Takes all entries away.
    pub fn clear(&mut self)
        ensures { self.new ≡ [] }
    {
        self.text.clear();
        self.counters = Counters::new();
        self.told = Told::new();
    }

    /// The text of the entries, a line each.
    pub fn text(&self) -> &[u8]
        ensures { result.now ≡ entry_lines self.now }
    {
        self.text.as_slice()
    }

    /// What the entries add to the totals.
    pub(crate) fn counters(&self) -> &Counters
        ensures { result.now.values ≡ adds_log self.now (replicate 19 0) }
    {
        &self.counters
    }
}
