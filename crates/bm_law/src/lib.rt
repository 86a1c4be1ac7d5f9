//! What one processor's log says: the lists that it leaves, the phrases of calls, and the laws of both. Nothing here runs.
//!
//! - `Log` (specs/Lists) is a list of entries, each with its level; `State` (specs/State) has the seven lists of each class and
//!   the hand of each level; `after` is what a log leaves, and `Leaves` says that each entry names what is there.
//! - `effect` (specs/Effect) is the table: what an entry does to a list. specs/Phrases and specs/SweepPhrases say what a call
//!   records.
//! - `NullLaw` (specs/Null): a pop says `none` exactly where Free is empty, and each reply stands after its allocation.
//! - specs/Inboxes, Begun and Pages: what entries make of a processor's inboxes, of its periods in progress, and of the pages
//!   that units come from.
//! - The laws are public functions with empty bodies (src/laws.rt); `worked_*` compute the definitions on worked logs. `Mark` is
//!   what the last step of a level waits for.
//!
//! The caches (`bm_cache_lists`, `bm_cache`) are proved against these definitions, and all other rules stand on them.
//!
//! The lists are those of `struct bpf_mem_cache` in kernel/bpf/memalloc.c; logs and their entries are this project's own. What a
//! scenario has to do with a log isn't here, nor what all processors share.
#![tactic(auto)]

mod laws;
mod mark;
mod worked;

pub use laws::{
    alone_law, counts_law, fold_law, kept_law, lengths_law, lists_law, null_law, opening_law,
    places_law, plain_law, room_law, seen_law, step_law, stretch_law, units_law,
};
pub use mark::Mark;
pub use worked::{worked_deferred, worked_logs, worked_phrases};
