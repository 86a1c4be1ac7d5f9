//! Where code is in its processor's log, in which the handlers stand where they are due, and the store of the handlers that are
//! planned, with their scripts.
//!
//! - `Position` (specs/Position) is what a log tells of the code that runs: how many steps were taken, which handlers run, which
//!   are left. `AskedAt` is a log at which the next handler is asked for, `StandsAt` one at which the code goes on.
//! - `Handlers` is the store: it is asked before each step whether a handler is due, and gives it away.
//! - `numbers_law`, `position_law`: how steps, questions and entries move a position; `worked_*` and `wrong_positions` compute
//!   it.
//!
//! The machines (`bm_exec_levels`) ask at each of their points.
//!
//! What the store answers is exactly `due_handler` of `bm_due`, by the number of the step that the caches' recorder counts.
//!
//! It stands on the caches, whose steps it counts, and so apart from `bm_due`, on which the rules of a scenario stand. Running a
//! handler isn't here.
#![tactic(auto)]

mod handlers;
mod laws;
mod worked;

pub use handlers::Handlers;
pub use laws::{numbers_law, position_law};
pub use worked::{worked_positions, worked_takes, wrong_positions};
