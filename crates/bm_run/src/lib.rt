//! Runs of whole scenarios on one thread: the openings of their processors, their turns, their closing, and the journal.
//!
//! - `replay` is all of it: from a checked scenario to a journal, or out of memory.
//! - `open_all` fills the caches of each processor, one after the other, out of one stock, and takes all memory that handlers will
//!   need.
//! - Between the two, src/turns.rt is a processor's turn over its `run` lines, each script in its section, with the work after it;
//!   src/seats.rt takes the turn of one of several, and src/all_turns.rt all turns, in the order that the scenario names;
//!   src/closers.rt and closing_desk.rt are the closing; src/journals.rt puts the journal together.
//!
//! `bm_tool` calls `replay`; tests call `open_all` too.
//!
//! The journal is lawful and laid (`Lawful`, `Laid` of `bm_law_journal`), for any number of processors. Each law comes from where it is
//! a theorem: what a lawful log says by itself and what logs say together from `bm_law_logs`, what the one order says from
//! `bm_law_laid`. What is so between two turns is `Between`, and what is so at the end `AllClosed` (specs/Between): the turns have made
//! an order of all entries, along which each finds what it needs, and which is the whole order of the logs (proofs/FinalOrder). A turn
//! adds a stretch to it, tied to the world since it began (`TiedAt` of `bm_exec_levels`), and leaves the other processors alone:
//! `stretch_law`, `others_law`, `asked_law`.
#![tactic(auto)]

mod all_turns;
mod classes;
mod closers;
mod closing_desk;
mod emptying;
mod filling;
mod journals;
mod opening;
mod others;
mod seats;
mod stretches;
mod turns;
mod worked;

pub use journals::replay;
pub use opening::open_all;
pub use others::{asked_law, others_law, stretch_law};
pub use worked::worked_orders_in_turns;
