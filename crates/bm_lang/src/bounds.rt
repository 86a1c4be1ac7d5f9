//! The limits of a scenario.

ghost use Rattle.std.specs.Prelude.{◌≡◌, Some, length, nat_lt};
ghost use Rattle.std.specs.List.{list_any};
ghost use Rattle.bm_lang.specs.Limits.{limit_text, first_limit, turns_length};

use crate::costs::has_too_many_statements;
use crate::items::Items;
use crate::scenario::{Scenario, TypeDeclaration};
use std::fmt;

/// The first limit that a scenario exceeds, in their order; that of the input is told before a text is read. None
/// exactly where it exceeds none.
pub fn limits(scenario: &Scenario) -> Option<Limit>
    ensures { result ≡ first_limit scenario.now }
{
    let parts = scenario.parts();
    if parts.processors > 8 {
        return Some(Limit::Processors);
    }
    if parts.pages > 256 {
        return Some(Limit::Pages);
    }
    if parts.types.as_slice().len() > 32 {
        return Some(Limit::Types);
    }
    if has_too_many_fields(parts.types.as_slice()) {
        return Some(Limit::Fields);
    }
    if parts.maps.as_slice().len() > 64 {
        return Some(Limit::Maps);
    }
    if parts.scripts.as_slice().len() > 256 {
        return Some(Limit::Scripts);
    }
    if parts.ats.as_slice().len() > 1000 {
        return Some(Limit::Handlers);
    }
    if turns_len(&parts.turns) > 100_000 {
        return Some(Limit::Turns);
    }
    if has_too_many_statements(parts) {
        return Some(Limit::Statements);
    }
    None
}

// Whether one of the types has more than 8 fields.
fn has_too_many_fields(types: &[TypeDeclaration]) -> bool
    ensures { result ≡ list_any (λ t. nat_lt 8 (length t.fields)) types.now }
{
    types.iter().any(|known| known.fields.as_slice().len() > 8)
}

fn turns_len(turns: &Option<Items<u32>>) -> usize
    ensures { result ≡ turns_length turns.now }
{
    match turns {
        Some(turns) => turns.as_slice().len(),
        None => 0,
    }
}

/// What there is at most of. The limits and their order are this project's own.
#[derive(Clone, Copy, Debug, PartialEq, Eq)]
pub enum Limit {
    /// A text has at most 1,048,576 bytes. It is told before the text is read.
    Input,
    /// At most 8 processors.
    Processors,
    /// At most 256 pages.
    Pages,
    /// At most 32 types.
    Types,
    /// At most 8 fields in each type.
    Fields,
    /// At most 64 slots, lists and trees together.
    Maps,
    /// At most 256 scripts.
    Scripts,
    /// At most 1,000 lines that run a handler script.
    Handlers,
    /// At most 100,000 turns.
    Turns,
    /// At most 20,000 statements on each processor.
    Statements,
}

impl Limit {
    /// The word for this limit.
    pub fn text(self) -> &'static [u8]
        ensures { result.now ≡ limit_text self }
    {
        self.word().as_bytes()
    }

    fn word(self) -> &'static str
        ensures { result.now ≡ limit_text self }
    {
        match self {
            Limit::Input => "input",
            Limit::Processors => "processors",
            Limit::Pages => "pages",
            Limit::Types => "types",
            Limit::Fields => "fields",
            Limit::Maps => "maps",
            Limit::Scripts => "scripts",
            Limit::Handlers => "handlers",
            Limit::Turns => "turns",
            Limit::Statements => "statements",
        }
    }
}

impl fmt::Display for Limit {
    ghost output = { λ limit. Some (limit_text limit) };

    fn fmt<W: fmt::Write>(&self, f: &mut fmt::Formatter<W>) -> fmt::Result {
        f.write_str(self.word())
    }
}
