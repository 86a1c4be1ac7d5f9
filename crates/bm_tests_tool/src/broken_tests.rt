//! Texts of which an end is missing, or that have one byte more. What is told of each is worked out by hand from the rules.

use crate::calls::{agrees, bytes_are_refused, call};
use crate::examples::one_object::{JOURNAL, SCENARIO};
use std::alloc::Global;
use std::process::Abort;
use std::test::Fail;

const REPLAY: &[&str] = &["replay"];

const TOTALS: &[&str] = &["replay", "--totals"];

const CHECK: &[&str] = &["check"];

// Each front of a text that ends before its last brace is refused, at its end or at the place of a token that was cut.
const CUTS: &[(usize, &str)] = &[
    (0, "line 1 column 1: end"),
    (5, "line 1 column 1: unexpected"),
    (8, "line 1 column 9: end"),
    (11, "line 2 column 1: end"),
    (20, "line 2 column 1: unexpected"),
    (22, "line 2 column 12: end"),
    (60, "line 5 column 16: end"),
    (102, "line 8 column 8: unexpected"),
];

fn are_cut_off(rt: &impl Abort, alloc: Global, rows: &[(usize, &str)]) -> Result<(), Fail> {
    for (cut, line) in rows {
        let told = format!(in alloc; "bpfmem: {line}\n")?;
        let front = SCENARIO.get(..*cut).unwrap_or(SCENARIO);
        bytes_are_refused(rt, alloc, REPLAY, front.as_bytes(), 5, told.as_str(), line)?;
        bytes_are_refused(rt, alloc, CHECK, front.as_bytes(), 5, told.as_str(), line)?;
    }
    Ok(())
}

// Each front ends with status 5 and prints nothing, but the one without its last line feed, which is whole.
fn fronts_are_refused(rt: &impl Abort, alloc: Global, text: &[u8]) -> Result<(), Fail> {
    for cut in 0..text.len() {
        let called = call(alloc, REPLAY, text.get(..cut).unwrap_or(text))?;
        if text.len() - cut > 1 {
            assert_eq!(rt; called.status, 5, "{cut}");
            assert_eq!(rt; called.out.len(), 0, "{cut}");
            assert!(rt; !called.answered, "{cut}");
        } else {
            agrees(rt, &called, 0, JOURNAL, "", "whole");
        }
    }
    Ok(())
}

#[test]
fn texts_that_were_cut_off(rt: HostRuntime) -> Result<(), Fail> {
    are_cut_off(&rt, rt.alloc(), CUTS)?;
    fronts_are_refused(&rt, rt.alloc(), SCENARIO.as_bytes())
}

// Each token of the scenario: how many bytes stand before it, and its place.
const TOKENS: &[(usize, &str)] = &[
    (0, "line 1 column 1"),
    (9, "line 1 column 10"),
    (11, "line 2 column 1"),
    (22, "line 2 column 12"),
    (24, "line 3 column 1"),
    (30, "line 3 column 7"),
    (32, "line 4 column 1"),
    (41, "line 4 column 10"),
    (45, "line 5 column 1"),
    (50, "line 5 column 6"),
    (55, "line 5 column 11"),
    (57, "line 5 column 13"),
    (59, "line 5 column 15"),
    (61, "line 6 column 1"),
    (68, "line 6 column 8"),
    (73, "line 6 column 13"),
    (79, "line 6 column 19"),
    (81, "line 7 column 1"),
    (85, "line 7 column 5"),
    (87, "line 7 column 7"),
    (92, "line 7 column 12"),
    (94, "line 8 column 1"),
    (97, "line 8 column 4"),
    (99, "line 8 column 6"),
    (101, "line 8 column 8"),
    (106, "line 8 column 13"),
    (108, "line 8 column 15"),
    (110, "line 9 column 1"),
    (112, "line 10 column 1"),
    (116, "line 10 column 5"),
    (118, "line 10 column 7"),
    (123, "line 11 column 1"),
];

// A byte that can begin no token, in front of each of these.
fn stray_bytes_are_told(
    rt: &impl Abort,
    alloc: Global,
    text: &[u8],
    rows: &[(usize, &str)],
) -> Result<(), Fail> {
    for (before, place) in rows {
        let mut bytes = Vec::from_slice(alloc, text.get(..*before).unwrap_or(text))?;
        bytes.push(200)?;
        bytes.extend_from_slice(text.get(*before..).unwrap_or(&[]))?;
        let told = format!(in alloc; "bpfmem: {place}: byte\n")?;
        let bytes = bytes.as_slice();
        bytes_are_refused(rt, alloc, REPLAY, bytes, 5, told.as_str(), place)?;
        bytes_are_refused(rt, alloc, TOTALS, bytes, 5, told.as_str(), place)?;
        bytes_are_refused(rt, alloc, CHECK, bytes, 5, told.as_str(), place)?;
    }
    Ok(())
}

#[test]
fn a_stray_byte_before_each_token(rt: HostRuntime) -> Result<(), Fail> {
    stray_bytes_are_told(&rt, rt.alloc(), SCENARIO.as_bytes(), TOKENS)
}
