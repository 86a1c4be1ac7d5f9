//! What all processors share, entry by entry: the one state that every journal of a run on one thread has to fit.
//!
//! A journal has a log for each processor. What its entries say of the stock, the inboxes, the section words, the numbers of
//! grace periods and the lives of units is judged here over one order of all entries, not by each log alone.
//!
//! - `Shared` is the state, in parts: `Words`, `Numbers`, `Looks`, `Lives`, `Pages` and `Parcels` each have a file with what
//!   an entry needs of the part and what it makes of it. `Fits` and `shared_after` are all of them together.
//! - `Orders` has the order, and when it is laid: from the outset on each entry finds what it needs. `Whole` has the one order
//!   of a run, computed from its turns.
//! - `Polls` and `Seals` judge an order by what logs leave on their lists: polls do what they can, and units wait long enough.
//! - `Act` has what a world tells: one act a call. `Chunk` is the table that says which entries stand for which acts.
//! - `Tie` ties a log to a world since some time: the log has grown by entries that stand for what was done.
//!
//! The traits of grace periods and of the post (`bm_grace`, `bm_post`) tell acts, and the world on one thread (`bm_world`) shows
//! that each act is a step of this state. The machines of a processor (`bm_exec_levels`) are tied to their log, and so a run
//! (`bm_run`) is proved to leave a journal that is laid.
//! Nothing here runs. The definitions stand in `specs/`; a README.md says how they hang together.
#![tactic(auto)]

mod laws;

pub use laws::{story_law, tie_law, wait_law};
