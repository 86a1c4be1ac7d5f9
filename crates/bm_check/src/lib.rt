//! The ownership checker: which scripts are accepted, and which rule one that isn't breaks first.
#![tactic(auto)]

mod accepted;
mod block;
mod checker;
mod law;
mod meeting;
mod name_log;
mod name_state;
mod rule;
mod setting;
mod statement;
mod stop;
mod table;

pub use accepted::Checked;
pub use checker::{CheckFault, check};
pub use law::{accepted_scripts_are_safe, states_are_right, worked_statements};
pub use name_state::{HeldLock, NameState};
pub use rule::Rule;
