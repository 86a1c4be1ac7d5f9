//! The generator: the text of a scenario that is made of two numbers, with all forms that processors share. Whatever the text reads
//! as is within the limits, and its scripts are accepted.
#![tactic(auto)]

mod draws;
mod law;
mod pieces;
mod scenario;

pub use law::{generated_scenarios_are_accepted, generated_texts_are_accepted, worked_scenarios};
pub use scenario::generated_text;
