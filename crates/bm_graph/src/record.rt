//! The history of a list or tree grows by one entry a call.

ghost use Rattle.std.specs.Prelude.{◌≡◌, ◌<◌, ◌++◌, ◌∷◌, [], length, IfOk, vec_capacity, vec_len};

use bm_journal::{Past, PastCall, Tag};
use bm_word::NoMemory;

// How many entries a history has at most: positions are numbers below 2^32 - 1.
const MOST_ENTRIES: usize = 4294967295;

/// Makes room for one more entry, and answers its position: the number of entries before it. A history of 2^32 - 1
/// entries has no room. The bound is this project's own.
pub fn next_position(history: &mut Vec<Past>) -> Result<u32, NoMemory>
    ensures same { history.new.items ≡ history.old.items }
    ensures position { IfOk result (λ position. position ≡ length history.old.items) }
    ensures below { IfOk result (λ _. length history.old.items < 4294967295) }
    ensures room { IfOk result (λ _. vec_len history.new < vec_capacity history.new) }
{
    let position = history.len();
    if position >= MOST_ENTRIES {
        return Err(NoMemory);
    }
    history.reserve(1)?;
    Ok(position as u32)
}

/// Appends an entry, for which there is room.
pub fn append(history: &mut Vec<Past>, tag: Tag, call: PastCall)
    requires { vec_len history.old < vec_capacity history.old }
    ensures { history.new.items ≡ history.old.items ++ record { tag = tag; call = call } ∷ [] }
{
    history.push_reserved(Past { tag, call });
}
