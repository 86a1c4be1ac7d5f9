//! Grace periods of two domains, plain and tracing: one processor's side of both, and all sides for one thread.
//!
//! - `Knows` is what a side tells of itself (`Known`: words, numbers, what lives), which units are whose (`Rights`), and by which
//!   acts it came to be what it is (`does`).
//! - `Grace` is a side: `enter` and `leave` move its words, `stamp` answers what a batch waits for, `done` whether a stamp is
//!   reached and else the number, and `begin`, `look` and `finish` carry a period from its begin to its end.
//! - `PlainGrace` is all sides for one thread. `TableStep` names the steps of a table of words and numbers, as threads will take
//!   them.
//! - `period_law`: the period that a `finish` hands out is a grace period, by its number and by its words at the first look and
//!   later.
//!
//! `bm_post` and `bm_world` stand on the traits; deferred work (`bm_work`) polls by them.
//!
//! A word is odd exactly in a section. A number is odd exactly where a period is in progress. A period may end only when each
//! word that was odd at its first look has changed. So what a side does keeps `Known` as specs/Calls has it.
//!
//! The kernel's are rcu_read_lock, call_rcu and call_rcu_tasks_trace; docs/grace-periods.md says what stands for what. Threads
//! aren't here.
#![tactic(auto)]

mod answer;
mod domain;
mod grace;
mod law;
mod plain;
mod step;

pub use answer::{Began, Done, Look};
pub use grace::{Grace, Knows};
pub use law::period_law;
pub use plain::PlainGrace;
pub use step::{StepKind, TableStep, TableWord};
