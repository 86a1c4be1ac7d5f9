//! A text of the greatest length.

use bm_lang::*;
use std::alloc::{AllocError, Global};
use std::test::Fail;

const LENGTH: usize = 1_048_576;

// A text of this length: as many types as fit, each with a name of its own, and spaces behind them.
fn text(alloc: Global) -> Result<String, AllocError> {
    let mut text = String::from_str(alloc, "scenario { processors 1 pages 1 deferred on\n")?;
    for number in 0..100_000u32 {
        if text.len() > LENGTH - 64 {
            break;
        }
        let line = format!(in alloc; "type t{number} {{ f{number} }}\n")?;
        text.push_str(line.as_str())?;
    }
    text.push_str("}")?;
    for _ in 0..128 {
        if text.len() < LENGTH {
            text.push_str(" ")?;
        }
    }
    Ok(text)
}

#[test]
fn a_text_of_the_greatest_length(rt: HostRuntime) -> Result<(), Fail> {
    let text = text(rt.alloc())?;
    if text.len() != LENGTH {
        return Err(Fail::from("a text of another length"));
    }
    let scenario = read_scenario(rt.alloc(), text.as_bytes())?;
    assert!(rt; scenario.parts().types.as_slice().len() > 40_000);
    assert!(rt; limits(&scenario) == Some(Limit::Types));
    Ok(())
}
