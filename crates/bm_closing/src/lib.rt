//! The closing of a processor whose scripts have ended, on a desk: the grace periods that it has in progress end, and all its
//! units go back to the stock. No handler runs there.
//!
//! - `Ended` is the trait of a desk whose scripts have ended: no handler is due on it, and it tells its log what the closing did.
//! - `end_periods` and `sweep_each` are its two phases: both domains, and then class by class. Where several processors close
//!   together, each ends its periods before any sweeps.
//! - `close` is one after the other, for a processor that is alone.
//! - `Crew` is the trait of processors that close together; `barrier` is a phase of all of them, and `close_all` both.
//! - `closing_law` says what the closing of a processor leaves of the others, and `stop_law` what a sweep is that stopped before its
//!   return.
//! - `end_period` ends the period of a domain that the processor has in progress, if it has one, by looks until all words pass.
//! - `sweep` takes all units of a class, from its seven lists and then from its inbox, waits for a tracing period, and gives them
//!   back.
//!
//! Runs close by `close_all`, whose crew takes the phases by `end_periods` and `sweep_each`; tests call `close` and its parts.
//!
//! The closing leaves exactly its part of a log (`Closing` of `bm_law_scenario`): each sweep names exactly the units of the lists
//! and then those of the inbox, and returns exactly these, after a pass that has reached its stamp. Out of memory is the only
//! refusal. A sweep has recorded nothing then, or all but its return, and no unit has left the lists.
//!
//! In kernel/bpf/memalloc.c it is bpf_mem_alloc_destroy with drain_mem_cache.
#![tactic(auto)]

mod closing;
mod crew;
mod ended;
mod gathering;
mod inbox;
mod law;
mod period;
mod whole;

pub use closing::{end_period, sweep};
pub use crew::{Crew, Phase, barrier, close_all};
pub use ended::Ended;
pub use law::{closing_law, stop_law};
pub use whole::{close, end_periods, sweep_each};
