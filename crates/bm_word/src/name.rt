//! Names.

ghost use Rattle.std.specs.Prelude.{◌≡◌, ◌≤◌, IsTrue, length};
ghost use Rattle.std.specs.Option.{SomeIff};
ghost use Rattle.std.specs.List.{list_all};
ghost use Rattle.bm_word.specs.Word.{is_run_byte, begins_word, is_word};

use arrayvec::ArrayVec;
use std::marker::Model;

/// A name: a word of 1 to 31 ASCII letters, digits and `_` that doesn't begin with a digit. It is kept in place, and
/// contracts see its bytes. The limit is this project's own.
#[derive(Debug, Drop)]
pub struct Name {
    bytes: ArrayVec<u8, 31>,
}

impl Model for Name {
    ghost use Rattle.std.specs.Prelude.{ℕ, List, IsTrue};
    ghost use Rattle.bm_word.specs.Word.{is_word};

    ghost Value = { List ℕ };

    ghost view = { λ n. n.bytes.items };

    ghost invariant = { λ n. IsTrue (is_word n.bytes.items) };
}

// Whether a byte may stand in a run.
fn is_run_byte(byte: u8) -> bool
    ensures { result ≡ is_run_byte byte }
{
    byte.is_ascii_alphanumeric() || byte == b'_'
}

// Whether all bytes may stand in a run.
fn is_run(bytes: &[u8]) -> bool
    ensures { result ≡ list_all is_run_byte bytes.now }
{
    bytes.iter().all(|byte| is_run_byte(*byte))
}

// Whether the bytes begin with a byte that is no digit.
fn begins_word(bytes: &[u8]) -> bool
    ensures { result ≡ begins_word bytes.now }
{
    match bytes {
        [] => false,
        [first, ..] => !first.is_ascii_digit(),
    }
}

/// Whether some bytes are a word, as names are.
pub fn is_word(bytes: &[u8]) -> bool
    ensures { result ≡ is_word bytes.now }
{
    begins_word(bytes) && bytes.len() <= 31 && is_run(bytes)
}

impl Name {
    /// The name with these bytes. None exactly where they are no word.
    pub fn new(bytes: &[u8]) -> Option<Name>
        ensures { SomeIff result (IsTrue (is_word bytes.now)) bytes.now }
    {
        if !is_word(bytes) {
            return None;
        }
        match ArrayVec::try_from(bytes) {
            Ok(bytes) => Some(Name { bytes }),
            Err(_) => None,
        }
    }

    /// The bytes of the name, which are a word.
    pub fn as_bytes(&self) -> &[u8]
        ensures value { result.now ≡ self.now }
        ensures word { IsTrue (is_word self.now) }
    {
        self.bytes.as_slice()
    }

    /// The same name once more. It takes no memory.
    pub fn duplicate(&self) -> Name
        ensures { result ≡ self.now }
    {
        match ArrayVec::try_from(self.bytes.as_slice()) {
            Ok(bytes) => Name { bytes },
            Err(_) => unreachable!(),
        }
    }
}
