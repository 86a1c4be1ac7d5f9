//! The journal.

ghost use Rattle.std.specs.Prelude.{IsTrue, length};
ghost use Rattle.bm_journal.specs.WellFormed.{all_differ, owners_below, are_whole};

use crate::lists::{Histories, Logs, Names, Opened};
use crate::total::Totals;
use std::alloc::Global;

/// What a run left: its heading, each processor's log, the histories of the lists and trees, and the totals. The
/// names of maps differ, each owner in a history is a place among them, and each list of units is whole.
#[derive(Drop)]
pub struct Journal {
    /// How many processors there are.
    pub processors: u8,
    /// How many pages the stock has.
    pub pages: u16,
    /// The names of the types.
    pub types: Names,
    /// The names of the slots, lists and trees.
    pub maps: Names,
    /// The names of the scripts.
    pub scripts: Names,
    /// The classes that a declared type uses.
    pub classes: Opened,
    /// The processors' logs.
    pub logs: Logs,
    /// The histories of the lists and trees.
    pub graphs: Histories,
    /// The totals.
    pub totals: Totals,
    pub ghost maps_differ: { IsTrue (all_differ maps) },
    pub ghost owners_named: { IsTrue (owners_below (length maps) graphs) },
    pub ghost units_whole: { IsTrue (are_whole logs) },
}
