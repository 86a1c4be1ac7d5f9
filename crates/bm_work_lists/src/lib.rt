//! What deferred work does to the caches of one processor alone: units move between the lists and the hand of its level, with
//! whatever handlers run at the points.
//!
//! - `refill_from_lists` brings units from Ready and Second to Free, until there are enough or both are empty.
//! - `drain_to_hand` takes units off Free down to the middle mark, and `take_all_extra` all of Extra, into the hand.
//! - `gather_delayed` takes Delayed and ExtraDelayed; `begin_second` makes Ready the tracing batch.
//! - `take_one`, `add_unit`, `bring_ready`, `bring_second`, `unload`, `begin_work`, `read_count` are their parts.
//! - `whole_refill`: a refill and the fetch after it are the phrase `Refill` of `bm_law_work`.
//!
//! `bm_work` calls them between its calls on the world.
//!
//! Each is generic over a host (`Host` of `bm_cache`), has a point before each step, leaves the caches placed, and says which
//! part of a log it recorded, by the phrases of `bm_law_work`.
//!
//! The rules are those of alloc_bulk, free_bulk, free_bulk_rcu and do_call_rcu_ttrace in kernel/bpf/memalloc.c. Nothing of the
//! stock, of parcels or of grace periods is here.
#![tactic(auto)]

mod add;
mod batch;
mod bring;
mod count;
mod drain;
mod extra;
mod law;
mod refill;
mod second;
mod take;

pub use add::add_unit;
pub use batch::gather_delayed;
pub use bring::{bring_ready, bring_second};
pub use count::{begin_work, read_count};
pub use drain::{drain_to_hand, unload};
pub use extra::take_all_extra;
pub use law::whole_refill;
pub use refill::refill_from_lists;
pub use second::begin_second;
pub use take::take_one;
