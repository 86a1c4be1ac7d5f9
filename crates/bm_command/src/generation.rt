//! The words of `gen`.

ghost use Rattle.std.specs.Prelude.{◌≡◌, ◌∷◌, []};
ghost use Rattle.bm_command.specs.Words.{gen_behind, gen_by, count_of, texts};
ghost use Rattle.bm_word.specs.Number.{number_of};

use crate::command::Command;
use crate::piece_count::PieceCount;
use bm_word::read_number;

/// The command that the words behind `gen` are, where they are one. It takes no memory.
pub fn generation(rest: &[&str]) -> Option<Command>
    ensures { result ≡ gen_behind (texts rest.now) }
{
    match rest {
        [count, start] => of_two(count, start),
        [first, second, third] => of_three(first, second, third),
        _ => None,
    }
}

// The command of two words, which are no flags.
fn of_two(count: &str, start: &str) -> Option<Command>
    ensures { result ≡ gen_behind (count.now ∷ start.now ∷ []) }
{
    of_numbers(count, start, false)
}

// The command of three words, one of which is the flag.
fn of_three(first: &str, second: &str, third: &str) -> Option<Command>
    ensures { result ≡ gen_behind (first.now ∷ second.now ∷ third.now ∷ []) }
{
    if first == "--text" {
        of_numbers(second, third, true)
    } else if second == "--text" {
        of_numbers(first, third, true)
    } else if third == "--text" {
        of_numbers(first, second, true)
    } else {
        None
    }
}

// The command of the two numbers that these words are.
fn of_numbers(count: &str, start: &str, text: bool) -> Option<Command>
    ensures { result ≡ gen_by (count_of count.now) (number_of start.now) text }
{
    let count = PieceCount::new(read_number(count.as_bytes())?)?;
    let start = read_number(start.as_bytes())?;
    Some(Command::Gen { count, start, text })
}
