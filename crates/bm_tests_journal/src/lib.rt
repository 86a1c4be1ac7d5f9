//! Tests of journals read back, over their public calls.
#![tactic(auto)]

#[cfg(test)]
mod entry_tests;
#[cfg(test)]
mod reader_tests;
