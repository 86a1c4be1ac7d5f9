//! Each life ends once, by a free to its home, and a unit that was freed with delay is given again with the stamp and the number of its
//! batch, over the logs of any number of processors. Nothing here runs.
//!
//! - `lives_law`: in logs of which an order counts lives and references, the replies `last` and the frees behind them end each life once
//!   (`WholeLives` of bm_law_lives), however many references there were.
//! - `worked_references`: an order with two references to a life that is so, and wrong ones beside it.
//!
//! The one order of all entries says what each unit waits for (`IsSealed` of bm_law_order). The law of stamps says it of logs: after
//! the drop that ended the life before stand the batch with the unit, its stamp, and, next after a pass of the batch's class, the
//! parcel that takes it away (`SealsFit` of bm_law_lives). Here the one follows from the other.
//!
//! - `seals_law`: the law, for each order of logs in which each unit is in one place.
//! - `WaitsInBatches` says what it needs of the order besides: a drop, its reply and its free stand together; a delayed free puts its
//!   unit on Delayed or ExtraDelayed; what waits goes away as a batch, directly after its pass; and nothing is given after a sweep.
//! - `worked_batches`: the order of a whole journal of one processor that is so, and wrong ones beside it.
#![tactic(auto)]

mod laws;
mod lives;
mod worked;

pub use laws::seals_law;
pub use lives::lives_law;
pub use worked::{worked_batches, worked_references};
