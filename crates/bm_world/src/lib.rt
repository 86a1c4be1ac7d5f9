//! The world: one processor's side of all that processors share, which are the pool, the inboxes, and the grace periods.
//!
//! - `World`, of `bm_post`, is a `Post` and a `Grace` in one value, so that a grace period that has passed can make the post's units ripe.
//! - `OneSide` is the world on one thread for any number of processors, of which one has its turn.
//! - `Lives` is a `World` in which units live: `begin_life`, `acquire`, `read`, `exchange`,
//!   `push`, `pop`, `first`, `remove`, `release_other`, `end_life`, `ask`.
//! - `LivingSide` is such a world on one thread: beside a `OneSide` it owns the objects that live, by the numbers of their units, and keeps
//!   what each unit waits for (`Standing`).
//! - `Since` says since when a processor's log and its side are tied.
//! - `WaitingSide` tells which units wait and since when; the tests of delayed frees stand on it.
//! - `Contents` has the slots of a scenario (`MapSlot`), with what they hold; an exchange answers what was there (`Displaced`).
//! - `Graphs` has the lists and trees of a scenario (`MapGraph`), each with the history of its calls. A push answers what became of the
//!   object (`Pushed`). An object is in one list or tree at most, and says in which.
//! - `Slots` holds the objects that live, each with its unit, how many references there are to it, the values of its fields, and the list or
//!   tree that it is in.
//!
//! Deferred work (`bm_work`) is generic over any world, and the machines of a run (`bm_exec_levels`) over any world with lives.
//!
//! Each call says by which acts the side came to be what it is (`LivingDoes`, specs/ToldLiving): that is the side's half of the
//! tie between a log and what is shared, whose other half is the log's (`bm_law_order`). A unit that lives is nobody's to free
//! until its life ends.
//!
//! That lives are counted, and that a unit is given with the values of its object's fields, is this project's own. The world of several threads isn't here.
#![tactic(auto)]

mod begun;
mod contents;
mod graphs;
mod law;
mod lives;
mod living;
mod one_side;
mod pushed;
mod since;
mod slots;
mod standing;
mod wait;
mod waiting;
mod waiting_law;

pub use bm_post::World;
pub use contents::{Contents, Displaced, MapSlot};
pub use graphs::{Graphs, MapGraph};
pub use law::aged_law;
pub use lives::Lives;
pub use living::LivingSide;
pub use one_side::OneSide;
pub use pushed::Pushed;
pub use since::Since;
pub use slots::Slots;
pub use standing::{Standing, Standings};
pub use wait::Wait;
pub use waiting::WaitingSide;
pub use waiting_law::{ripe_only_when_passed, waits_without_a_seal};
