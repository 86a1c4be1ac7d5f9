//! Units of memory, the pages that they are carved from, and the stock of units that isn't in use.
#![tactic(auto)]

mod pool;
mod units;

pub use pool::Pool;
pub use units::{Seal, Unit};
