//! The program's top call: words, a scenario read from a source, and what is written to a sink.
//!
//! - `bpfmem` is the call: it reads the words as a command, takes all bytes of a source, reads and checks the scenario, runs it
//!   for `replay`, and writes what the command prints; for `gen` it takes nothing, and runs a generated scenario, or writes its text.
//!   `Answer` is its status, with the journal of what was run.
//! - `Refusal` is a refusal with its cause, its status and its one line; `out_of_memory` is the line for want of memory.
//! - `Outcome` (specs) says for each status what was read, written and answered.
//!
//! `bpfmem`, the program, is a `main` of a few lines over it; tests call it over devices in memory and over devices that fail.
//!
//! At 0 exactly the journal's text, its totals, `accepted` or the generated text was written and flushed, and the journal is lawful
//! and laid (`Serves`). At every other status there is one refusal with its line, and nothing on standard output but at status 3, where it
//! is a prefix.
//!
//! Commands, statuses and lines are this project's own. Nothing here names a real file or stream.
#![tactic(auto)]

mod generate;
mod prepare;
mod refusal;
mod top;

pub use generate::generated_texts_are_servable;
pub use refusal::Refusal;
pub use top::{Answer, bpfmem, out_of_memory};
