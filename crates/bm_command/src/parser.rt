//! The commands that read a scenario, as the parser of command lines knows and reads them.

ghost use Rattle.std.specs.Prelude.{◌≡◌, Some, true, false, is_some, IfOk, IfErr};
ghost use Rattle.clap.specs.Words.{app_of, subcommand_rows_of};
ghost use Rattle.clap.specs.declared.builder.command.Command.TheViews.{out-Command};
ghost use Rattle.bm_command.specs.Grammar.{bare_app, grammar_app, entered_reading};
ghost use Rattle.bm_command.specs.Words.{reading_of, texts};

use crate::command::{CommandFault, Reading};
use clap::error::ErrorKind;
use clap::{Arg, ArgAction, ArgMatches};
use std::alloc::{AllocError, Global};

// A command's word, with neither help nor a version of its own.
fn bare<'a>(alloc: Global, word: &'a str) -> clap::Command<'a>
    ensures app { app_of result ≡ bare_app word.entry.now }
    ensures local { (out-Command result).has_globals ≡ false }
{
    clap::Command::new(alloc, word)
        .disable_help_flag(true)
        .disable_help_subcommand(true)
        .disable_version_flag(true)
}

// The program, with its commands below it.
fn grammar<'a>(alloc: Global) -> Result<clap::Command<'a>, AllocError>
    ensures { IfOk result (λ program. app_of program ≡ grammar_app) }
{
    let totals = Arg::new(alloc, "totals")
        .long("totals")
        .action(ArgAction::SetTrue);
    let replay = bare(alloc, "replay").arg(totals)?;
    let check = bare(alloc, "check");
    bare(alloc, "bpfmem")
        .no_binary_name(true)
        .subcommand_required(true)
        .subcommand(replay)?
        .subcommand(check)
}

// The command that the parser found.
fn entered(matches: &ArgMatches) -> Reading
    requires { is_some (entered_reading (subcommand_rows_of matches.now)) ≡ true }
    ensures { entered_reading (subcommand_rows_of matches.now) ≡ Some result }
{
    match matches.subcommand() {
        Some(("replay", found)) => Reading::Replay {
            totals: found.get_flag("totals"),
        },
        Some(("check", _)) => Reading::Check,
        _ => unreachable!(),
    }
}

/// The command that the words are, as the parser reads them. It refuses them for want of memory alone.
pub fn parsed(alloc: Global, words: &[&str]) -> Result<Reading, CommandFault>
    requires { is_some (reading_of (texts words.now)) ≡ true }
    ensures read { IfOk result (λ reading. reading_of (texts words.now) ≡ Some reading) }
    ensures memory { IfErr result (λ fault. fault ≡ CommandFault.NoMemory) }
{
    let Ok(program) = grammar(alloc) else {
        return Err(CommandFault::NoMemory);
    };
    match program.try_get_matches_from(words) {
        Ok(matches) => Ok(entered(&matches)),
        Err(error) => match error.kind() {
            ErrorKind::OutOfMemory => Err(CommandFault::NoMemory),
            _ => unreachable!(),
        },
    }
}
