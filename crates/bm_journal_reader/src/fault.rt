//! Why a text is no journal's.

use bm_word::NoMemory;
use thiserror::Error;

/// Why no journal is answered.
#[derive(Clone, Copy, Debug, PartialEq, Eq, Error)]
pub enum JournalFault {
    /// Up to this line, counted from 1, no journal's text agrees with this one, and before it some journal's does. A line is taken
    /// with its line feed, and the end of the text counts as a line.
    #[error("no journal has line {0}")]
    Bad(u64),
    /// Memory ran out.
    #[error("out of memory")]
    NoMemory,
}

impl From<NoMemory> for JournalFault {
    fn from(_refused: NoMemory) -> JournalFault {
        JournalFault::NoMemory
    }
}
