//! Laws over the logs of all processors together, each as a theorem of one order of their entries. Nothing here runs.
//!
//! In an order (bm_law_order) one entry stands after the other, each with its processor and level. The order fits a part of
//! what processors share if each entry finds there what it needs. It is laid if from the outset on it fits all parts. The
//! laws say what follows for the order as a whole: which numbers grace periods have and which lives units get, and that
//! what is sent arrives and what is taken from the stock is given back. A law is stated over its part alone, and over all
//! that is shared.
//!
//! - `numbers_law`, `lives_given_law`, `lives_ended_law`, `references_law`, `parcels_law`, `returns_law`: the laws,
//!   over an order.
//! - `whole_law`, `named_law`: an order of logs, as a run's one order is, names what the logs name.
//! - `journal_law`: what bm_law_lives says of logs, as far as it follows from an order of them that is laid.
//! - `worked_orders`, `worked_closings`: orders that are laid, and wrong ones beside them; `worked_journal`: a whole journal that is
//!   laid.
//! - `worked_polls`, `worked_seals`: orders in which polls have rested and units have waited, and wrong ones beside them.
//!
//! That the order of a run is laid is proved where the run is. What one log says by itself, as which units are on which
//! list of its processor, isn't here either.
#![tactic(auto)]

mod judged;
mod laws;
mod logs;
mod worked;

pub use judged::{worked_journal, worked_polls, worked_seals};
pub use laws::{
    lives_ended_law, lives_given_law, numbers_law, parcels_law, references_law, returns_law,
};
pub use logs::{journal_law, named_law, whole_law};
pub use worked::{worked_closings, worked_orders};
