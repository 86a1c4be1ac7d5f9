//! The post: the pool of units, and an inbox for each processor and class, as one processor sees them, and both for one thread.
//!
//! - `Post` is the trait: `fetch` takes units from the pool, `put_back` gives them back, `send` puts a parcel into an inbox,
//!   `receive` takes the oldest one out. A sender may be the receiver.
//! - `PlainPost` is all of it for one thread, over the stock of `bm_page`.
//! - `taken_law`: units that were fetched or received are a side's own, each once, and may be sent or put back at once.
//!
//! - `World` is a `Post` and a `Grace` (of `bm_grace`) in one value, so that a grace period that has passed can make the post's units
//!   ripe. Deferred work (`bm_work`) and the closing call it; the worlds of one thread are in `bm_world`.
//!
//! It tells which units are a side's own (`mine`), and of a unit whether it may be used again (`settled`), waits (`due`), or has
//! waited long enough (`ripe`). A unit goes back or on its way only where it is settled or ripe. Nothing is refused but for want
//! of memory, and then the units are handed back.
//!
//! The kernel has no inboxes: a processor puts units on another one's list. Parcels are this project's own.
#![tactic(auto)]

mod back;
mod inbox;
mod law;
mod plain;
mod post;
mod world;

pub use law::taken_law;
pub use plain::PlainPost;
pub use post::Post;
pub use world::World;
