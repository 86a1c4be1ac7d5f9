//! The lists of a processor's caches, as linked indexes: no list owns memory of its own, and none grows.
//!
//! `struct bpf_mem_cache` of kernel/bpf/memalloc.c has seven lists of free units, each a singly linked list whose links
//! stand in the units themselves. Here a unit is a value that isn't shared, so it stands in a place by its number, and
//! its link stands beside it, in a row of numbers.
//!
//! - `Rows` is what a processor has: room for 65,536 places, one for each unit number, and a `Line` for each of the eleven classes.
//!   Contracts see it as eleven rows of units.
//! - `Line` is one class: its lists, by the units' numbers, and its `Numbers`. Contracts see it as a row of numbers.
//! - `Links` is one row with room for 65,536 links of four bytes, with eight heads: seven lists, and a spare one that is empty
//!   between two calls, by which a list is turned over.
//!
//! The caches (`bm_cache`) call `Rows` alone. A list is named by `Stack` of `bm_journal`, and a row is that of `bm_law`.
//!
//! Each type keeps what its lists need: `Linked` (each chain of links ends, where its length says, and no number stands
//! twice, in one chain or in two) and `Housed` (a place has a unit exactly where a list names it, and it is the unit of
//! that number). The definitions stand in `specs/`, a README.md says what the contracts promise.
//!
//! A pop, a length and a move of a whole list onto an empty one cost a constant. So does a push, but that it first writes the
//! links and places up to its number, each once; another move costs the length of the list that moves. All memory is taken
//! in `Rows::new`; `listed` and `names` alone take more, for what they answer.
//!
//! There are no hands here, no log and no steps, and nothing of when a list may change: that is the caches'.
#![tactic(auto)]

mod line;
mod links;
mod rows;

pub use line::{Line, Numbers};
pub use links::Links;
pub use rows::Rows;
