//! Lists of words, each with its command or refused.

use bm_command::{Command, CommandFault, PieceCount, Reading, read_command};
use std::alloc::Global;
use std::process::Abort;

// Whether the words are read as this, where there is memory.
fn read(alloc: Global, words: &[&str], answer: Result<Command, CommandFault>) -> bool {
    read_command(alloc, words) == answer
}

const REPLAY: Result<Command, CommandFault> = Ok(Command::Read(Reading::Replay { totals: false }));

const TOTALS: Result<Command, CommandFault> = Ok(Command::Read(Reading::Replay { totals: true }));

const CHECK: Result<Command, CommandFault> = Ok(Command::Read(Reading::Check));

const USAGE: Result<Command, CommandFault> = Err(CommandFault::Usage);

#[test]
fn words_and_their_commands(rt: HostRuntime) {
    let table: [(&[&str], Result<Command, CommandFault>); 45] = [
        // The commands.
        (&["replay"], REPLAY),
        (&["replay", "--totals"], TOTALS),
        (&["check"], CHECK),
        // No word, and words that are no command.
        (&[], USAGE),
        (&[""], USAGE),
        (&["", "replay"], USAGE),
        (&["Replay"], USAGE),
        (&["replay "], USAGE),
        (&[" replay"], USAGE),
        (&["repla"], USAGE),
        (&["replays"], USAGE),
        (&["replay\0"], USAGE),
        (&["checks"], USAGE),
        (&["CHECK"], USAGE),
        (&["réplay"], USAGE),
        (&["再生"], USAGE),
        (&["replay --totals"], USAGE),
        (&["bpfmem", "replay"], USAGE),
        (&["run"], USAGE),
        // A flag that isn't the command's, one given twice, one before the command.
        (&["--totals"], USAGE),
        (&["--totals", "replay"], USAGE),
        (&["--totals", "check"], USAGE),
        (&["replay", "--totals", "--totals"], USAGE),
        (&["replay", "--totals", "--totals", "--totals"], USAGE),
        (&["replay", "--totals=1"], USAGE),
        (&["replay", "--totals="], USAGE),
        (&["replay", "--totals "], USAGE),
        (&["replay", "--total"], USAGE),
        (&["replay", "--Totals"], USAGE),
        (&["replay", "-t"], USAGE),
        (&["replay", "-totals"], USAGE),
        (&["replay", "--text"], USAGE),
        (&["check", "--totals"], USAGE),
        // Words too many.
        (&["replay", "replay"], USAGE),
        (&["replay", ""], USAGE),
        (&["replay", "totals"], USAGE),
        (&["replay", "--totals", "x"], USAGE),
        (&["replay", "x", "--totals"], USAGE),
        (&["replay", "–totals"], USAGE),
        (&["check", "replay"], USAGE),
        (&["check", ""], USAGE),
        // What parsers of command lines often take: ends of flags, standard input, help, versions.
        (&["replay", "--"], USAGE),
        (&["replay", "-"], USAGE),
        (&["--", "replay"], USAGE),
        (&["-"], USAGE),
    ];
    for (words, answer) in table {
        assert!(rt; read(rt.alloc(), words, answer), "{words:?}");
    }
}

#[test]
fn help_and_versions_are_no_commands(rt: HostRuntime) {
    let table: [&[&str]; 12] = [
        &["help"],
        &["help", "replay"],
        &["replay", "help"],
        &["--help"],
        &["-h"],
        &["replay", "--help"],
        &["replay", "-h"],
        &["check", "--help"],
        &["--version"],
        &["-V"],
        &["version"],
        &["replay", "--version"],
    ];
    for words in table {
        assert!(rt; read(rt.alloc(), words, USAGE), "{words:?}");
    }
}

// Words behind `gen`, with their two numbers where they are a command.
const GEN: &[(&[&str], Option<(u64, u64)>)] = &[
    // The flag stands anywhere behind the command's word.
    (&["gen", "1", "0", "--text"], Some((1, 0))),
    (&["gen", "1", "--text", "0"], Some((1, 0))),
    (&["gen", "--text", "1", "0"], Some((1, 0))),
    // The least and the greatest numbers, and those beside them.
    (&["gen", "2", "1", "--text"], Some((2, 1))),
    (&["gen", "1999", "--text", "10"], Some((1999, 10))),
    (
        &["gen", "2000", "18446744073709551615", "--text"],
        Some((2000, 18446744073709551615)),
    ),
    (&["gen", "0", "1", "--text"], None),
    (&["gen", "2001", "1", "--text"], None),
    (&["gen", "4294967297", "1", "--text"], None),
    (&["gen", "18446744073709551616", "1", "--text"], None),
    (&["gen", "1", "18446744073709551616", "--text"], None),
    // The first number is the count.
    (&["gen", "5", "3000", "--text"], Some((5, 3000))),
    (&["gen", "3000", "5", "--text"], None),
    // Words that are no numbers, and numbers in another form.
    (&["gen", "01", "0", "--text"], None),
    (&["gen", "1", "00", "--text"], None),
    (&["gen", "1", "07", "--text"], None),
    (&["gen", "+1", "0", "--text"], None),
    (&["gen", "-1", "0", "--text"], None),
    (&["gen", "1", "-0", "--text"], None),
    (&["gen", "1", "0x7", "--text"], None),
    (&["gen", "1", "1_000", "--text"], None),
    (&["gen", "1", "7 ", "--text"], None),
    (&["gen", "", "7", "--text"], None),
    (&["gen", "1", "", "--text"], None),
    (&["gen", "one", "7", "--text"], None),
    (&["gen", "１", "7", "--text"], None),
    // Words too few and too many.
    (&["gen"], None),
    (&["gen", "--text"], None),
    (&["gen", "1"], None),
    (&["gen", "1", "--text"], None),
    (&["gen", "1", "0", "0", "--text"], None),
    (&["gen", "1", "0", "--text", "x"], None),
    (&["gen", "gen", "1", "0", "--text"], None),
    // The flag twice, in another form, or before the command's word, and flags of others.
    (&["gen", "1", "0", "--text", "--text"], None),
    (&["gen", "--text", "--text", "1"], None),
    (&["gen", "--text", "1", "--text"], None),
    (&["gen", "1", "0", "--text=1"], None),
    (&["gen", "1", "0", "--tex"], None),
    (&["gen", "1", "0", "--Text"], None),
    (&["gen", "1", "0", "-text"], None),
    (&["gen", "1", "0", "text"], None),
    (&["gen", "1", "0", "--totals"], None),
    (&["gen", "1", "0", "--text", "--totals"], None),
    (&["gen", "1", "0", "--help"], None),
    (&["gen", "1", "0", "--"], None),
    (&["gen", "--", "1", "0", "--text"], None),
    (&["--text", "gen", "1", "0"], None),
    (&["gen --text", "1", "0"], None),
    (&["Gen", "1", "0", "--text"], None),
    (&["generate", "1", "0", "--text"], None),
    (&["replay", "1", "0", "--text"], None),
    (&["check", "1", "0", "--text"], None),
];

// .. and words without the flag
const GEN_TOTALS: &[(&[&str], Option<(u64, u64)>)] = &[
    (&["gen", "1", "0"], Some((1, 0))),
    (&["gen", "1", "2"], Some((1, 2))),
    (
        &["gen", "2000", "18446744073709551615"],
        Some((2000, 18446744073709551615)),
    ),
    (&["gen", "5", "3000"], Some((5, 3000))),
    (&["gen", "3000", "5"], None),
    (&["gen", "0", "1"], None),
    (&["gen", "2001", "1"], None),
    (&["gen", "1", "18446744073709551616"], None),
    (&["gen", "01", "0"], None),
    (&["gen", "1", "00"], None),
    (&["gen", "1", "-0"], None),
    (&["gen", "-1", "0"], None),
    (&["gen", "1", ""], None),
    (&["gen", "1", "x"], None),
    (&["gen", "1", "0", "0"], None),
    (&["gen", "gen", "1", "0"], None),
];

// The command of two numbers, or that words are none.
fn gen_answer(
    rt: &impl Abort,
    numbers: Option<(u64, u64)>,
    text: bool,
) -> Result<Command, CommandFault> {
    let Some((count, start)) = numbers else {
        return USAGE;
    };
    let count = PieceCount::new(count).expect(rt, "a count of pieces");
    Ok(Command::Gen { count, start, text })
}

#[test]
fn words_of_gen(rt: HostRuntime) {
    for (words, numbers) in GEN {
        let answer = gen_answer(&rt, *numbers, true);
        assert!(rt; read(rt.alloc(), words, answer), "{words:?}");
    }
}

#[test]
fn words_of_gen_without_its_flag(rt: HostRuntime) {
    for (words, numbers) in GEN_TOTALS {
        let answer = gen_answer(&rt, *numbers, false);
        assert!(rt; read(rt.alloc(), words, answer), "{words:?}");
    }
}

#[test]
fn counts_of_pieces(rt: HostRuntime) {
    for number in [1, 2, 1000, 1999, 2000] {
        let count = PieceCount::new(number).expect(&rt, "a count of pieces");
        assert_eq!(rt; u64::from(count.number()), number);
    }
    for number in [0, 2001, 4294967297, 18446744073709551615] {
        assert!(rt; PieceCount::new(number).is_none(), "{number}");
    }
}
