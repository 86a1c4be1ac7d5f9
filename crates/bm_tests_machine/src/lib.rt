//! Tests of what a machine is made of, over public calls alone: the caches, planned handlers, deferred work, desks, the work after
//! statements and scripts, and the closing. What each leaves is worked out by hand. No other crate stands on this one.
//!
//! - `cache_hosts`: a host with two planned handlers, each of which frees a unit at a step that a plan names: one host owns the
//!   caches, two borrow them, each from the one below. `still_desk`: a desk on which no handler runs. `handler_desk`: one with a
//!   handler that takes seven units.
//! - `cache_fixtures`, `openings`, `desks`, `calls`: units, sides, caches and desks that tests begin with, and calls on them.
//! - `lent`: a recorder that is borrowed, so that its log is there when the caches have ended. `logs`: the text of a log.
//! - all others: tests, by what they call.
//!
//! A log is compared by the journal's text. The hosts, desks and fixtures have contracts, since a call on the caches needs that
//! they are placed. What is out of memory here fails the test.
#![tactic(auto)]

#[cfg(test)]
mod behind_tests;
#[cfg(test)]
mod cache_call_tests;
#[cfg(test)]
mod cache_closing_tests;
#[cfg(test)]
mod cache_fixtures;
#[cfg(test)]
mod cache_hosts;
#[cfg(test)]
mod cache_move_tests;
#[cfg(test)]
mod calls;
#[cfg(test)]
mod closing_tests;
#[cfg(test)]
mod desk_tests;
#[cfg(test)]
mod desks;
#[cfg(test)]
mod drain_tests;
#[cfg(test)]
mod handler_desk;
#[cfg(test)]
mod handler_tests;
#[cfg(test)]
mod lent;
#[cfg(test)]
mod logs;
#[cfg(test)]
mod openings;
#[cfg(test)]
mod planned_tests;
#[cfg(test)]
mod poll_tests;
#[cfg(test)]
mod refill_tests;
#[cfg(test)]
mod still_desk;
#[cfg(test)]
mod work_tests;
