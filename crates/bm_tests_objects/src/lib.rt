//! Tests of objects over the public calls of bm_obj: what exchanges of one slot answer, the counts of one object from its first
//! reference to its last, claims, a note that goes through a list on a shelf, and an object's way into a list and out again, with
//! its claim and the list's page.
//!
//! `same_object_law` says that bm_obj and bm_graph, of which neither stands on the other, mean the same by one object.
//!
//! What the contracts of bm_obj say is proved there. The tests are for what no contract says: that the calls answer so where
//! there is memory, and that the words of the contracts mean what they are meant to.
#![tactic(auto)]

#[cfg(test)]
mod fixture;
mod law;
#[cfg(test)]
mod object_tests;
#[cfg(test)]
mod shelf_tests;
#[cfg(test)]
mod visit_tests;

pub use law::same_object_law;
