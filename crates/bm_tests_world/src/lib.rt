//! Tests of journals, units, grace periods, the post and the world, over their public calls.
#![tactic(auto)]

#[cfg(test)]
mod grace_tests;
#[cfg(test)]
mod graph_tests;
#[cfg(test)]
mod living_tests;
#[cfg(test)]
mod one_side_tests;
#[cfg(test)]
mod pool_tests;
#[cfg(test)]
mod pools;
#[cfg(test)]
mod post_tests;
#[cfg(test)]
mod recorder_tests;
#[cfg(test)]
mod slot_tests;
#[cfg(test)]
mod text_tests;
#[cfg(test)]
mod waiting_tests;
