//! What deferred work leaves in a log: the phrases of its calls, which depend on what stands in the lists. Nothing here runs.
//!
//! - `Part` (specs/Parts) says of a part of a log, together with the lists that the log leaves before it, that it is so; `Then`,
//!   `If` and `When` join parts.
//! - `Work` (specs/WorkPhrases) is the work of a class, of `Receive`, `Balance`, `FirstStage` and `SecondStage`; `Refill` and
//!   `Drain` are in `Balance`.
//! - specs/Grown: a recorded log has grown by a part.
//! - `worked_*` compute parts on worked logs, and on wrong ones beside them.
//!
//! `bm_work_lists` and `bm_work` cite these phrases in their contracts, and `bm_law_scenario` says where a work stands in a
//! script.
//!
//! The rules are those of bpf_mem_refill, alloc_bulk, free_bulk, free_bulk_rcu and do_call_rcu_ttrace in kernel/bpf/memalloc.c.
//! That a period is waited for by polls, and that units go home as parcels, is this project's own. What the phrases mean for all
//! that is shared isn't here, but in `bm_law_order`.
#![tactic(auto)]

mod worked;

pub use worked::{worked_pages, worked_parts, worked_works};
