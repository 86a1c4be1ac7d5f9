//! Whether words are those of a command that reads a scenario.

ghost use Rattle.std.specs.Prelude.{◌≡◌, is_some, filter};
ghost use Rattle.bm_command.specs.Words.{reading_of, replay_of, is_flag, is_argument, texts};

/// Whether the words are those of a command that reads a scenario. It takes no memory.
pub fn are_reading(words: &[&str]) -> bool
    ensures { result ≡ is_some (reading_of (texts words.now)) }
{
    match words {
        [] => false,
        [word, rest @ ..] => match *word {
            "replay" => are_of_replay(rest),
            "check" => rest.is_empty(),
            _ => false,
        },
    }
}

// Whether the words behind `replay` are its own.
fn are_of_replay(rest: &[&str]) -> bool
    ensures { result
        ≡ is_some
        (replay_of (filter is_flag (texts rest.now)) (filter is_argument (texts rest.now))) }
{
    match rest {
        [] => true,
        [flag] => *flag == "--totals",
        _ => false,
    }
}
