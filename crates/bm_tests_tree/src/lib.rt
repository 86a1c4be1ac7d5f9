//! Tests of the red-black tree over its public calls: a worked example with two equal keys, a long run of random inserts and
//! takes beside a sorted list, and a tree of items that have to be spent, which ends after an out of memory. And tests of lists
//! and trees with their histories: a worked history of each, and lists and trees that end with items in them.
//!
//! What the contracts of bm_tree and bm_graph say is proved there. The tests are for what no contract says: that the calls answer so where
//! there is memory, and that the words of the contracts mean what they are meant to.
#![tactic(auto)]

#[cfg(test)]
mod history_tests;
#[cfg(test)]
mod left_over_tests;
#[cfg(test)]
mod random_tests;
#[cfg(test)]
mod spend_tests;
#[cfg(test)]
mod worked_tests;
