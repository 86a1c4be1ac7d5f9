//! What the words of the command line ask for.

ghost use Rattle.std.specs.Prelude.{◌≡◌, ◌↔◌, Some, None, Err, IfOk};
ghost use Rattle.bm_command.specs.Words.{command_of, texts};

use crate::generation::generation;
use crate::parser::parsed;
use crate::piece_count::PieceCount;
use crate::shape::are_reading;
use std::alloc::Global;

/// A command of the program. The commands are this project's own.
#[derive(Clone, Copy, Debug, PartialEq, Eq)]
pub enum Command {
    /// A command that reads a scenario.
    Read(Reading),
    /// `gen N START`: runs the generated scenario of these two numbers, prints the lines of its totals, and reads nothing.
    Gen {
        /// N: how many pieces each script has.
        count: PieceCount,
        /// START: where the drawn numbers begin, below 2^64.
        start: u64,
        /// `--text`: the scenario's text is printed, and nothing is run.
        text: bool,
    },
}

/// A command that reads a scenario.
#[derive(Clone, Copy, Debug, PartialEq, Eq)]
pub enum Reading {
    /// `replay`: prints the scenario's journal.
    Replay {
        /// `--totals`: the totals alone are printed.
        totals: bool,
    },
    /// `check`: tells whether all its scripts are accepted.
    Check,
}

/// Why words weren't read as a command.
#[derive(Clone, Copy, Debug, PartialEq, Eq)]
pub enum CommandFault {
    /// The words are no command.
    Usage,
    /// The words are a command, and memory ran out.
    NoMemory,
}

/// Reads the words of the command line, without the program's own name, as a command.
///
/// A command's word stands first, and its flag anywhere behind it: `replay`, `replay --totals`, `check`, `gen N START` and
/// `gen N START --text` are the commands, where N is 1 to 2,000 and START below 2^64, in decimal digits without a
/// leading zero. `Usage` comes exactly where the words are none of them, and takes no memory: a word too many or too
/// few, a flag given twice or before the command, one that the command doesn't have, another
/// number, a call for help, and every other word. `NoMemory` is want of memory alone, and comes only for the words of
/// a command.
pub fn read_command(alloc: Global, words: &[&str]) -> Result<Command, CommandFault>
    ensures read { IfOk result (λ command. command_of (texts words.now) ≡ Some command) }
    ensures usage { (result ≡ Err CommandFault.Usage) ↔ (command_of (texts words.now) ≡ None) }
{
    let [word, rest @ ..] = words else {
        return Err(CommandFault::Usage);
    };
    if *word == "gen" {
        return generation(rest).ok_or(CommandFault::Usage);
    }
    if !are_reading(words) {
        return Err(CommandFault::Usage);
    }
    Ok(Command::Read(parsed(alloc, words)?))
}
