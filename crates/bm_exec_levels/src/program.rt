//! What runs on a processor.

use bm_exec::Types;
use bm_lang::Parts;

/// What runs on a processor: a scenario, and its types with the class of each.
#[derive(Clone, Copy)]
pub struct Program<'s> {
    pub scenario: &'s Parts,
    pub types: Types<'s>,
}
