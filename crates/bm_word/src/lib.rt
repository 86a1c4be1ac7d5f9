//! What the texts of this project are made of: words, which name things, and numbers. Beside them stands the one
//! error of all that takes memory.
#![tactic(auto)]

mod memory;
mod name;
mod number;

pub use memory::NoMemory;
pub use name::{Name, is_word};
pub use number::{numbers_round_trip, put_number, read_number};
