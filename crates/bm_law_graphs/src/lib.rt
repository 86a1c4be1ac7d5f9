//! What calls on lists and trees need of what processors share, and the laws of their histories that follow. Nothing here runs.
//!
//! A script pushes objects onto lists and takes them off, adds them to trees and removes them, each time under the lock of the
//! list or tree. Its log has an entry for each such call, with the call's position in the history of that list or tree. Along one
//! order of the entries of all logs (bm_law_order) each entry finds a state that those before it leave:
//!
//! - `Shelved` (specs/Shelves) is that state: the objects of bm_law_objects, and beside them `Shelves`: by name the history of a
//!   list or tree, by unit where its object stands, and by name who holds the lock. `ShelvedFit` says what an entry needs of it,
//!   and `IsShelved` that each entry of an order finds it from the outset. The names of maps are given beside the order.
//!
//! Laws of histories and logs, with no state and no order, together `GraphLaws`:
//!
//! - `GraphHistory`: a history has right replies, and the calls of each log, in its order, each at the position that the log names.
//! - `RefusalLaw`: a refused push names the list or tree in which its object is.
//! - `KeysLaw`: the key of an addition is the first value with which its object was made.
//! - `LocksLaw`: the calls that a processor makes under one lock have consecutive positions.
//! - `TakesLaw`: a life is put into lists and trees as often as it is taken out.
//!
//! `ShelvesGo` (specs/ToldCalls) says that what a processor's log adds finds what it needs; `chunk_law` has it of each chunk of a
//! story, by what the log before it tells.
//!
//! `*_law` say that they follow from an order; `worked_*` and `wrong_*` compute them on orders and histories made by hand, and on
//! wrong ones beside them. What a right reply is, the sequential list and tree of bm_graph say.
//!
//! Who uses it: whoever proves that a run leaves such an order. That stands where runs are, and isn't here; nor is the text of a
//! journal.
#![tactic(auto)]

mod laws;
mod worked;

pub use laws::{
    beside_law, chunk_law, content_law, graphs_law, histories_law, keys_law, locks_law,
    refusals_law, takes_law, uncalled_law,
};
pub use worked::{worked_laws, worked_orders, wrong_laws, wrong_orders};
