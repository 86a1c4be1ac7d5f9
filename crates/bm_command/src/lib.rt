//! The program's words, read as a command. Which words are a command is a definition; `clap` reads those of the commands
//! that read a scenario, and those of `gen`, which are two numbers and a flag, are read here.
#![tactic(auto)]

mod command;
mod generation;
mod parser;
mod piece_count;
mod shape;

pub use command::{Command, CommandFault, Reading, read_command};
pub use piece_count::PieceCount;
