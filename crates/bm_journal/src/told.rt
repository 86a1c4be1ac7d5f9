//! What a log was told, for contracts alone.

ghost use Rattle.std.specs.Prelude.{◌≡◌, ◌∷◌, ◌++◌, ℕ, List, []};
ghost use Rattle.std.specs.Borrow.{ftrue};
ghost use Rattle.bm_journal.specs.declared.entry.Entry.{Entry as EntryValue};

use crate::entry::Entry;
use crate::level::Level;
use std::marker::Model;

/// The entries that a log was told, in order, each with its level. Contracts alone read it: it takes no memory, and
/// its methods do nothing when they run.
#[derive(Drop)]
pub struct Told {
    pub ghost items: { List (ℕ × EntryValue) },
}

impl Model for Told {
    ghost also_owns = { λ _. ftrue };
}

impl Told {
    /// Nothing was told yet.
    pub(crate) fn new() -> Told
        ensures { result.items ≡ [] }
    {
        Told {}
    }

    /// One entry more was told.
    pub(crate) fn with(_before: &Told, _level: &Level, _entry: &Entry) -> Told
        ensures { result.items ≡ _before.now.items ++ (_level.now, _entry.now) ∷ [] }
    {
        Told {}
    }
}
