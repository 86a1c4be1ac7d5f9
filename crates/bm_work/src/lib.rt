//! Deferred work on a desk, which is the caches of a processor together with its side of all that processors share.
//!
//! - `Desk` is the trait: a host (`Host` of `bm_cache`) with a world (`World` of `bm_post`), what the processor owes its log
//!   (`owes`), and why a poll may rest (`rested`).
//! - `work` is the work of a class: it receives parcels, refills or drains, and carries both stages of delayed frees on. `Worked`
//!   says how it ended.
//! - `poll` looks whether a batch's grace period has passed, and does what it can for it: it begins a period, looks, ends one.
//!
//! The work after statements (`bm_exec_levels`) and the closing (`bm_closing`) call it; tests have desks of their own.
//!
//! A work leaves exactly its phrase (`Work` of `bm_law_work`), whatever handlers run at its points; a batch is sent or returned
//! only after a pass that saw its stamp reached. Out of memory, it stops before a fetch, a parcel or a return, with the caches
//! placed.
//!
//! The rules are those of bpf_mem_refill and of __free_rcu and __free_rcu_tasks_trace in kernel/bpf/memalloc.c; that work polls,
//! where the kernel is called back, is this project's own. When a work runs isn't decided here. What it does to the caches alone
//! is `bm_work_lists`.
#![tactic(auto)]

mod deferred;
mod desk;
mod fetches;
mod leaving;
mod lists;
mod loans;
mod parcels;
mod period;
mod polls;
mod returns;
mod sends;
mod stages;
mod stamps;

pub use deferred::{Worked, work};
pub use desk::Desk;
pub use polls::poll;
