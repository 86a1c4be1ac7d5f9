//! The lines of a journal's text.

use bm_class::{Class, Marks};
use bm_journal::{Entry, Level, Names, Past, Total};
use bm_word::Name;

/// What one line of a journal says.
#[derive(Drop)]
pub enum Line {
    /// How many processors and pages there are.
    Size(u8, u16),
    /// The names of the types.
    Types(Names),
    /// The names of the slots, lists and trees.
    Maps(Names),
    /// The names of the scripts.
    Scripts(Names),
    /// A class that a declared type uses, with its watermarks.
    Class(Class, Marks),
    /// The log of the processor with this number begins.
    Processor(u64),
    /// An entry, with the level that it was taken at.
    Entry(Level, Entry),
    /// The history of a list or tree begins.
    Graph(Name),
    /// A call of a history, with its position.
    Past(u64, Past),
    /// A total.
    Total(Total, u64),
}
