//! Why a call didn't do all: the statuses of the program, and their lines.

ghost use Rattle.std.specs.Prelude.{◌≡◌, ◌++◌, IfOk};
ghost use Rattle.bm_tool.specs.Refusals.{status_of, bad_text_line, limit_line, rejected_line};

use bm_check::Rule;
use bm_lang::{BadText, Limit};
use bm_word::{Name, NoMemory, put_number};
use std::alloc::Global;

/// Why a call of the program refused. Each has a status and a line; both are this project's own.
#[derive(Debug, Drop)]
pub enum Refusal {
    /// The words are no command.
    Usage,
    /// The source failed.
    ReadFailed,
    /// The sink failed.
    WriteFailed,
    /// Memory ran out.
    OutOfMemory,
    /// The text has no reading.
    Text(BadText),
    /// A script breaks a rule of ownership.
    Rejected { script: Name, line: u32, rule: Rule },
    /// A limit is exceeded.
    Limit(Limit),
}

impl Refusal {
    /// The exit status.
    pub fn status(&self) -> u8
        ensures { result ≡ status_of self.now }
    {
        match self {
            Refusal::Usage => 1,
            Refusal::ReadFailed => 2,
            Refusal::WriteFailed => 3,
            Refusal::OutOfMemory => 4,
            Refusal::Text(_) => 5,
            Refusal::Rejected { .. } => 6,
            Refusal::Limit(_) => 7,
        }
    }
}

/// The line of a text's fault.
#[tactic(auto, unfolding(crate::specs::Refusals::bad_text_line))]
pub fn bad_text_line(alloc: Global, bad: BadText) -> Result<Vec<u8>, NoMemory>
    ensures { IfOk result (λ line. line.items ≡ bad_text_line bad) }
{
    let mut line = Vec::from_slice(alloc, b"bpfmem: line ")?;
    put_number(&mut line, bad.line as u64)?;
    line.extend_from_slice(b" column ")?;
    put_number(&mut line, bad.column as u64)?;
    line.extend_from_slice(b": ")?;
    line.extend_from_slice(bad.kind.text())?;
    line.push(b'\n')?;
    Ok(line)
}

/// The line of a script's first broken rule.
#[tactic(auto, unfolding(crate::specs::Refusals::rejected_line))]
pub fn rejected_line(
    alloc: Global,
    script: &Name,
    line: u32,
    rule: Rule,
) -> Result<Vec<u8>, NoMemory>
    ensures { IfOk result (λ text. text.items ≡ rejected_line script.now line rule) }
{
    let mut text = Vec::from_slice(alloc, b"bpfmem: script ")?;
    text.extend_from_slice(script.as_bytes())?;
    text.extend_from_slice(b" line ")?;
    put_number(&mut text, line as u64)?;
    text.extend_from_slice(b": rule ")?;
    put_number(&mut text, rule.number() as u64)?;
    text.push(b'\n')?;
    Ok(text)
}

/// The line of a limit. It takes no memory.
#[tactic(auto, unfolding(crate::specs::Refusals::limit_line))]
pub fn limit_line(limit: Limit) -> &'static [u8]
    ensures { result.now ≡ limit_line limit }
{
    match limit {
        Limit::Input => b"bpfmem: limit input\n",
        Limit::Processors => b"bpfmem: limit processors\n",
        Limit::Pages => b"bpfmem: limit pages\n",
        Limit::Types => b"bpfmem: limit types\n",
        Limit::Fields => b"bpfmem: limit fields\n",
        Limit::Maps => b"bpfmem: limit maps\n",
        Limit::Scripts => b"bpfmem: limit scripts\n",
        Limit::Handlers => b"bpfmem: limit handlers\n",
        Limit::Turns => b"bpfmem: limit turns\n",
        Limit::Statements => b"bpfmem: limit statements\n",
    }
}
