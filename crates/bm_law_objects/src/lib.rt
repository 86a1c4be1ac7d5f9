//! What calls on objects and slots need of what processors share, and the laws over all logs that follow. Nothing here runs.
//!
//! A script makes objects, takes and drops references to them, reads their fields and exchanges what slots hold. Its log has
//! an entry for each call. Along one order of the entries of all logs (bm_law_order) each entry finds a state that those before
//! it leave:
//!
//! - `Owned` (specs/Objects) is that state: the lives of units, and beside them what is asked for, what each unit was made of,
//!   what each slot holds and who put it, and how many calls each log has. `OwnedFit` says what an entry needs of it, and
//!   `IsOwned` that each entry of an order finds it from the outset.
//!
//! Three laws speak of logs alone, with no state and no order:
//!
//! - `SlotChain`: the exchanges of a slot form one chain, in which each takes what the one before put.
//! - `ReadsLaw`: a read finds a value with which the object was made.
//! - `ReferenceLaw`: the count of references goes up past a number as often as it comes down past it.
//!
//! `slots_law`, `reads_law` and `counts_law` say that they follow from an order, `chain_law` what follows from a chain. `worked_*`
//! compute them on orders made by hand, and on wrong ones beside them. `specs/Gathered` has how a reply is matched with its call, and
//! how the calls of a log are numbered.
//!
//! Lists and trees aren't here, and that a run leaves an order with `IsOwned` is proved where runs are.
#![tactic(auto)]

mod laws;
mod worked;

pub use laws::{chain_law, counts_law, reads_law, slots_law};
pub use worked::{worked_laws, worked_orders, wrong_laws, wrong_orders};
