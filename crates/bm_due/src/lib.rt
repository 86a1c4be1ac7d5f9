//! Which planned handler is due: the definition, a store that answers it, and when the handlers of a log stand where they are
//! due.
//!
//! - `Due` is a handler that is due: its script and its level. `Planned` is the store of those that haven't run, which answers by
//!   the number of the next step and the level of the code.
//! - `due_handler` (specs/Due) is the rule: of the handlers whose step has come and whose level is above the code's, the first in
//!   the text of those of the highest level.
//! - `HandlersStand` (specs/Standing): in a log each handler stands exactly where it is due, and ends before what it interrupted
//!   goes on.
//! - The laws (src/laws.rt) say how asking, entries and what stands agree; `worked_*` and `wrong_standing` compute them.
//!
//! `bm_plan` has the handlers with their scripts; `bm_law_scenario` says of a lawful log that its handlers stand so.
//!
//! A question costs a look at two numbers where none is due. A handler whose step never comes doesn't run, and none runs after
//! its processor's scripts have ended.
//!
//! Handlers stand for interrupts of the kernel, each on one of three levels; docs/handlers.md. Running one isn't here.
#![tactic(auto)]

mod laws;
mod planned;
mod worked;

pub use laws::{asking_law, due_law, entry_law, kind_law, standing_law};
pub use planned::{Due, Planned};
pub use worked::{worked_due, worked_plans, worked_standing, wrong_standing};
