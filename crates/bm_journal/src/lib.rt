//! Journals: what every processor did, entry by entry, with the text, the totals and the recorders of that.
#![tactic(auto)]

mod change;
mod counting;
mod counts;
mod entry;
mod form;
mod ids;
mod journal;
mod level;
mod line;
mod lists;
mod log;
mod past;
mod period;
mod recorder;
mod text;
mod told;
mod total;
mod units;

pub use bm_word::Name;
pub use change::Stack;
pub use counting::totals_of;
pub use counts::{Counts, Lengths};
pub use entry::Entry;
pub use ids::{Domain, ObjId, Place, Tag};
pub use journal::Journal;
pub use level::Level;
pub use lists::{Histories, History, Logs, Names, Opened};
pub use log::Log;
pub use past::{Past, PastCall};
pub use period::{Period, Values, Words};
pub use recorder::{Keep, Recorder, Tally};
pub use text::{put_totals, text_of};
pub use told::Told;
pub use total::{Total, Totals};
pub use units::{UnitNumbers, Units};
