//! Each unit is in exactly one place, at each entry of the one order of all logs, for any number of processors. Nothing here runs.
//!
//! bm_law_order folds what all processors share over the order, and bm_law folds the lists and hands of each processor over its own
//! log. Here both are one world: a unit is in the stock, in an inbox, in the lists of a cache, in a hand, alive, or between the end
//! of its life and the free that follows. Each entry that finds what it needs in both moves units from one of these places to
//! another.
//!
//! - `places_law`: each unit is in exactly one place, at the outset, after each entry, and wherever one stops in an order.
//! - `found_law`, `logs_law`: an order of logs finds what it needs, from what is proved of the order and of each log.
//! - `apart_law`: what a processor has no other one has or touches; and at the end all is in the stock.
//! - `worked_places`, `worked_journal_places`: orders that are so, and wrong ones beside them.
//!
//! That the order of a run is so is proved where the run is (bm_run).
#![tactic(auto)]

mod laws;
mod worked;

pub use laws::{apart_law, found_law, logs_law, places_law};
pub use worked::{worked_journal_places, worked_places};
