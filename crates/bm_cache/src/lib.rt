//! The caches of one processor: lists of free units, on which a call may be interrupted at any step by a handler that
//! allocates and frees on the same lists. From kernel/bpf/memalloc.c; docs/caches.md walks through the steps.
//!
//! - `Caches` has the lists of the eleven classes (`Rows` of `bm_cache_lists`), a hand for each of the four levels, the number of the
//!   next step, and a recorder. Contracts see lists and hands as one value, `shown`.
//! - Its steps are one function each: a step names what is there, does to the lists what its entry does, and records it.
//! - `Host` is what runs a call: it owns or borrows the caches, and runs handlers at its points.
//! - `alloc`, `free` and `free_delayed` are the three calls, generic over a host; `Given` is what an allocation answers.
//!
//! The program's desk (`bm_work`) and deferred work (`bm_work_lists`) call the steps; machines call the three calls.
//!
//! What must hold between two steps is `Placed`: no unit is anywhere twice, each is on a list of its class, the free counts
//! agree with Free, and the recorder's counts and its log agree with the lists. Each step needs and leaves it. What handlers may do
//! meanwhile is `Kept` of `bm_law`, and what a call did is `Walk` and `Records`.
//!
//! The rules of steps and lists stand in `bm_law`, those of hosts in `specs/` here; a README.md says what the contracts promise.
//!
//! All memory of lists and hands is taken in `Caches::create`. `alloc`, `free` and `free_delayed` take none but the recorder's, and refuse
//! nothing. How lists are stored isn't here; nor are the grace periods, parcels and the stock that deferred work needs beside.
#![tactic(auto)]

mod allocate;
mod caches;
mod counts;
mod deferred_steps;
mod free_steps;
mod hand;
mod host;
mod loans;
mod moves;
mod names;
mod opening;
mod put_steps;
mod queries;
mod release;
mod release_delayed;
mod returns;
mod steps;
mod stretches;

pub use allocate::{Given, alloc, count_taken, take_free};
pub use caches::Caches;
pub use counts::Counts;
pub use host::Host;
pub use release::{count_added, free, push_free};
pub use release_delayed::free_delayed;
pub use stretches::{lower_active, raise_active, raise_flag};
