//! When a journal is lawful for a scenario, and when it is laid: one page, `specs/Lawful.antt`, with a field for each law and the file
//! that states it. The program's promise cites it.
//!
//! - `Lawful` is what a journal says as a whole: its heading, its logs one by one, what they say together, its totals.
//! - `Laid` is what the one order of its entries says, which the scenario's turns make.
//! - `worked_lawful`, `worked_laid`: a journal that is lawful, and one that is laid, made by hand, and logs that no such journal has.
//! - `worked_turns`: a journal of two processors that take turns, which is laid, and wrong ones beside it.
//! - `worked_loan`: a whole journal with its scenario, in which one processor lends a unit to the
//!   other, which is lawful and laid, and wrong ones beside it.
//! - `worked_visits`: a journal in which an object is put into a list, and taken from there in the closing, which is lawful and laid, and wrong ones beside it.
//! - `worked_handover`: a journal in which one processor hands an object to the other through a slot, which is lawful and laid, and wrong ones beside it.
//!
//! The laws themselves are stated in `bm_law_scenario`, `bm_law_lives`, `bm_law_objects` and `bm_law_order`, each with worked examples, right ones and wrong
//! ones. Nothing in this crate runs. That a run's journal is lawful and laid is proved where the run is (`bm_run`).
#![tactic(auto)]

mod lists;
mod loan;
mod slots;
mod turns;
mod worked;

pub use lists::worked_visits;
pub use loan::worked_loan;
pub use slots::worked_handover;
pub use turns::worked_turns;
pub use worked::{worked_laid, worked_lawful};
