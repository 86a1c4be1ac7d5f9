//! The top call.

ghost use Rattle.std.specs.Prelude.{◌≡◌, ◌≢◌, ◌⊎◌, ◌↔◌, ℕ, ◌≤◌, Bool, List, None, Some, length, vec_len, IfSome, IsSome, IfOk, IfErr, OnOk};
ghost use Rattle.std.specs.Io.KnownBytes.{IsAtEnd};
ghost use Rattle.bm_text.specs.Faults.{Rose};
ghost use Rattle.bm_command.specs.Words.{command_of, texts};
ghost use Rattle.bm_command.specs.declared.command.Command.{Command as Asked};
ghost use Rattle.bm_command.specs.declared.command.Command.TheVariants.{Read, Gen};
ghost use Rattle.bm_command.specs.declared.command.Reading.{Reading as Asking};
ghost use Rattle.bm_tool.specs.declared.refusal.Refusal.{Refusal as RefusalValue};
ghost use Rattle.bm_tool.specs.declared.refusal.Refusal.TheVariants.{OutOfMemory, WriteFailed};
ghost use Rattle.bm_tool.specs.Causes.{InputCause};
ghost use Rattle.bm_tool.specs.Outcome.{IsServable, Serves, out_text, Printed, PrintedInPart, Refuses, Stayed};
ghost use Rattle.bm_tool.specs.Refusals.{input_limit, status_of, line_of, IsLong, Told};

use crate::generate::generate;
use crate::prepare::{Done, serve};
use crate::refusal::{Refusal, bad_text_line, limit_line, rejected_line};
use bm_command::{Command, CommandFault, Reading, read_command};
use bm_journal::Journal;
use bm_lang::Limit;
use bm_text::{Sink, Source, TextFault, read_all, write_all};
use bm_word::NoMemory;
use std::alloc::Global;

// The greatest input, in bytes.
const INPUT_LIMIT: usize = 1048576;

/// What a call of the program answers.
#[derive(Drop)]
pub struct Answer {
    /// The exit status: 0 where all was done, else that of a refusal.
    pub status: u8,
    /// The journal that `replay` made, at status 0, and at status 3, where its text couldn't be written whole.
    pub journal: Option<Journal>,
}

// Reads the whole input, up to its limit.
fn input<S: Source>(alloc: Global, source: &mut S) -> Result<Vec<u8>, Refusal>
    ensures all { IfOk result (λ bytes. IfSome (S.left source.old) (λ left. bytes.items ≡ left)) }
    ensures within { IfOk result (λ bytes. vec_len bytes ≤ input_limit) }
    ensures end { OnOk result (IsAtEnd (S.left source.new)) }
    ensures cause { IfErr result
        (InputCause (S.left source.old) (S.faults source.old) (S.faults source.new)) }
{
    match read_all(alloc, source, INPUT_LIMIT) {
        Ok(bytes) => Ok(bytes),
        Err(TextFault::Read) => Err(Refusal::ReadFailed),
        Err(TextFault::TooLong) => Err(Refusal::Limit(Limit::Input)),
        Err(TextFault::NoMemory) => Err(Refusal::OutOfMemory),
    }
}

// Reads the input, and does what the command asks.
fn run<S: Source>(alloc: Global, command: Reading, source: &mut S) -> Result<Done, Refusal>
    ensures serves { IfOk result (λ done. Serves (Read command) (S.left source.old) done.journal) }
    ensures text { IfOk result (λ done. done.text.items ≡ out_text (Read command) done.journal) }
    ensures end { OnOk result (IsAtEnd (S.left source.new)) }
    ensures cause { IfErr result
        (InputCause (S.left source.old) (S.faults source.old) (S.faults source.new)) }
{
    let bytes = input(alloc, source)?;
    serve(alloc, command, bytes.as_slice())
}

// Writes a line once. A fault changes nothing else.
fn put<E: Sink>(err: &mut E, line: &[u8])
    ensures { Told (E.written err.old) (E.written err.new) (E.faults err.old) (E.faults err.new)
        line.now }
{
    let _ = write_all(err, line);
}

// Writes the line of a refusal where there was memory for it. Else it is a want of memory.
fn tell_long<E: Sink>(err: &mut E, refusal: Refusal, line: Result<Vec<u8>, NoMemory>) -> Refusal
    requires { IfOk line (λ text. text.items ≡ line_of refusal) }
    ensures same { (result ≡ refusal) ⊎ (result ≡ OutOfMemory) }
    ensures told { Told (E.written err.old) (E.written err.new) (E.faults err.old)
        (E.faults err.new) (line_of result) }
{
    match line {
        Ok(text) => {
            put(err, text.as_slice());
            refusal
        }
        Err(NoMemory) => {
            put(err, b"bpfmem: out of memory\n");
            Refusal::OutOfMemory
        }
    }
}

// Writes the line of a refusal, and answers the refusal. Where there is no memory for the line it is that.
fn tell<E: Sink>(alloc: Global, err: &mut E, refusal: Refusal) -> Refusal
    ensures same { (result ≡ refusal) ⊎ (IsLong refusal × (result ≡ OutOfMemory)) }
    ensures told { Told (E.written err.old) (E.written err.new) (E.faults err.old)
        (E.faults err.new) (line_of result) }
{
    match refusal {
        Refusal::Usage => {
            put(err, b"bpfmem: usage\n");
            Refusal::Usage
        }
        Refusal::ReadFailed => {
            put(err, b"bpfmem: read failed\n");
            Refusal::ReadFailed
        }
        Refusal::WriteFailed => {
            put(err, b"bpfmem: write failed\n");
            Refusal::WriteFailed
        }
        Refusal::OutOfMemory => {
            put(err, b"bpfmem: out of memory\n");
            Refusal::OutOfMemory
        }
        Refusal::Limit(limit) => {
            put(err, limit_line(limit));
            Refusal::Limit(limit)
        }
        Refusal::Text(bad) => tell_long(err, Refusal::Text(bad), bad_text_line(alloc, bad)),
        Refusal::Rejected { script, line, rule } => {
            let text = rejected_line(alloc, &script, line, rule);
            tell_long(err, Refusal::Rejected { script, line, rule }, text)
        }
    }
}

// Writes what a command did.
fn print<K: Sink, E: Sink>(out: &mut K, err: &mut E, done: Done) -> Answer
    ensures status { (result.status ≡ 0) ⊎ (result.status ≡ 3) }
    ensures journal { result.journal ≡ done.journal }
    ensures failed { result.status ≡ 3 → Rose (K.faults out.old) (K.faults out.new) }
    ensures printed { result.status ≡ 0
        → Printed done.text.items (K.written out.old) (K.written out.new) (K.flushed out.old)
        (K.flushed out.new) }
    ensures in_part { result.status ≡ 3
        → PrintedInPart done.text.items (K.written out.old) (K.written out.new) }
    ensures silent { result.status ≡ 0 → E.written err.new ≡ E.written err.old }
    ensures told { result.status ≡ 3
        → Told (E.written err.old) (E.written err.new) (E.faults err.old) (E.faults err.new)
        (line_of WriteFailed) }
{
    let Done { journal, text } = done;
    match write_all(out, text.as_slice()) {
        Ok(()) => Answer { status: 0, journal },
        Err(_) => {
            put(err, b"bpfmem: write failed\n");
            Answer { status: 3, journal }
        }
    }
}

// The answer of a refusal, whose line is written.
fn refused<E: Sink>(alloc: Global, err: &mut E, refusal: Refusal) -> Answer
    ensures told { (r : RefusalValue) × ((r ≡ refusal) ⊎ (IsLong refusal × (r ≡ OutOfMemory)))
        × (result.status ≡ status_of r)
        × Told (E.written err.old) (E.written err.new) (E.faults err.old) (E.faults err.new)
        (line_of r) }
    ensures journal { result.journal ≡ None }
{
    let told = tell(alloc, err, refusal);
    Answer {
        status: told.status(),
        journal: None,
    }
}

/// The answer where memory ran out before the program could be called: status 4, and its line on `err`, or a front of
/// it where `err` failed. It takes no memory.
pub fn out_of_memory<E: Sink>(err: &mut E) -> Answer
    ensures status { result.status ≡ status_of OutOfMemory }
    ensures journal { result.journal ≡ None }
    ensures told { Told (E.written err.old) (E.written err.new) (E.faults err.old)
        (E.faults err.new) (line_of OutOfMemory) }
{
    put(err, b"bpfmem: out of memory\n");
    Answer {
        status: Refusal::OutOfMemory.status(),
        journal: None,
    }
}

/// The program. `replay` reads a scenario from `source`, runs it and writes its journal to `out`, or with `--totals` the
/// lines of its totals; `check` reads a scenario and writes `accepted` where all its scripts are accepted; `gen` reads
/// nothing and writes the text of the generated scenario of its two numbers.
///
/// The statuses are 0 where all was done, 1 where the words are no command, 2 where the source failed, 3 where the sink
/// failed, 4 where memory ran out, 5 where the text has no reading (for `replay` also where it has a form that can't be
/// run yet), 6 where a script isn't accepted, and 7 where a limit is exceeded. They are looked for in the order words,
/// input, text, limits, scripts, run, output; of `gen` only 0, 3 and 4 come. At every status but 0 a line is written to
/// `err`.
pub fn bpfmem<S: Source, K: Sink, E: Sink>(
    alloc: Global,
    words: &[&str],
    source: &mut S,
    out: &mut K,
    err: &mut E,
) -> Answer
    // Each refusal has its status, its cause and its line.
    ensures refused { result.status ≢ 0
        → Refuses (texts words.now) (S.left source.old) (S.faults source.old) (S.faults source.new)
        (K.faults out.old) (K.faults out.new) (E.written err.old) (E.written err.new)
        (E.faults err.old) (E.faults err.new) result.status }
    ensures usage { (result.status ≡ 1) ↔ (command_of (texts words.now) ≡ None) }

    // Where all was done, or only the writing failed: what the command serves, and what was written.
    ensures served { (result.status ≡ 0) ⊎ (result.status ≡ 3)
        → (c : Asked) × (command_of (texts words.now) ≡ Some c)
        × Serves c (S.left source.old) result.journal
        × (result.status ≡ 0
        → Printed (out_text c result.journal) (K.written out.old) (K.written out.new)
        (K.flushed out.old) (K.flushed out.new))
        × (result.status ≡ 3
        → PrintedInPart (out_text c result.journal) (K.written out.old) (K.written out.new)) }
    ensures silent { result.status ≡ 0 → E.written err.new ≡ E.written err.old }
    ensures all_taken { (c : Asking) → command_of (texts words.now) ≡ Some (Read c)
        → (result.status ≡ 0) ⊎ (result.status ≡ 3) → IsAtEnd (S.left source.new) }

    // At every other status nothing is written to `out`, and no journal is answered.
    ensures nothing_printed { result.status ≢ 0 → result.status ≢ 3
        → (result.journal ≡ None) × (K.written out.new ≡ K.written out.old) }
    ensures nothing_taken { result.status ≡ 1
        → (S.left source.new ≡ S.left source.old) × (S.faults source.new ≡ S.faults source.old) }

    // A command that reads, a text that it can serve, and no fault of the source or the sink: then all is done, or memory ran out.
    ensures complete { (c : Asking) → command_of (texts words.now) ≡ Some (Read c)
        → IsSome (S.left source.old)
        → IfSome (S.left source.old) IsServable
        → Stayed (S.faults source.old) (S.faults source.new)
        → Stayed (K.faults out.old) (K.faults out.new)
        → (result.status ≡ 0) ⊎ (result.status ≡ 4) }

    // `gen` takes nothing from the source. Where no fault of the sink came, all is done, or memory ran out; else it may be the writing
    // that failed.
    ensures made { (count start : ℕ) (text : Bool)
        → command_of (texts words.now) ≡ Some (Gen count start text)
        → (S.left source.new ≡ S.left source.old) × (S.faults source.new ≡ S.faults source.old)
        × ((result.status ≡ 0) ⊎ (result.status ≡ 4) ⊎ (result.status ≡ 3))
        × (Stayed (K.faults out.old) (K.faults out.new) → (result.status ≡ 0) ⊎ (result.status ≡ 4)) }
{
    let command = match read_command(alloc, words) {
        Ok(command) => command,
        Err(CommandFault::Usage) => return refused(alloc, err, Refusal::Usage),
        Err(CommandFault::NoMemory) => return refused(alloc, err, Refusal::OutOfMemory),
    };
    match command {
        Command::Read(reading) => match run(alloc, reading, source) {
            Ok(done) => print(out, err, done),
            Err(refusal) => refused(alloc, err, refusal),
        },
        Command::Gen { count, start, text } => match generate(alloc, count, start, text) {
            Ok(done) => print(out, err, done),
            Err(NoMemory) => refused(alloc, err, Refusal::OutOfMemory),
        },
    }
}
