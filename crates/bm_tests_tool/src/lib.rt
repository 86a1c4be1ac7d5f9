//! Tests of the program's whole calls and of the opening, over their public calls.
#![tactic(auto)]

#[cfg(test)]
mod broken_tests;
#[cfg(test)]
mod calls;
#[cfg(test)]
mod deferred_tests;
#[cfg(test)]
mod examples;
#[cfg(test)]
mod generated_tests;
#[cfg(test)]
mod graph_tests;
#[cfg(test)]
mod handler_tests;
#[cfg(test)]
mod held_up_tests;
#[cfg(test)]
mod hostile_tests;
#[cfg(test)]
mod journal_tests;
#[cfg(test)]
mod opening_tests;
#[cfg(test)]
mod page_tests;
#[cfg(test)]
mod refusal_tests;
#[cfg(test)]
mod section_tests;
#[cfg(test)]
mod slot_tests;
#[cfg(test)]
mod worked_tests;
