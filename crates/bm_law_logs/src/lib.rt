//! The laws over all logs of a journal, as theorems about what is proved of each log. Nothing here runs.
//!
//! - `parcels_law`, `sweeps_law`: what the order of its entries tells of parcels gives the law of parcels of a log.
//! - `returns_law`: logs of any number of processors that leave nothing return each unit as often as they took it.
//! - `handled_law`, `returned_law`: what a lawful log says by itself, of whichever processor: in its front, which is its opening
//!   and its scripts with the deferred work after them, and as a whole.
//! - `worked_*`: worked examples, and wrong ones beside them.
//!
//! A law of parts (`Laws` of `bm_law_scenario`, proofs/PartLaws) holds of a front where it holds of what the front is made of.
#![tactic(auto)]

mod log;
mod parcels;
mod parcels_worked;
mod returns;
mod returns_worked;
mod sweeps;

pub use log::{handled_law, returned_law};
pub use parcels::parcels_law;
pub use parcels_worked::worked_inboxes;
pub use returns::returns_law;
pub use returns_worked::worked_units;
pub use sweeps::sweeps_law;
