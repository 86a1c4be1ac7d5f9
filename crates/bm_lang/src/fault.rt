//! Faults of a text.

ghost use Rattle.std.specs.Prelude.{◌≡◌, Some};
ghost use Rattle.bm_lang.specs.Kinds.{kind_text};
ghost use Rattle.bm_lang.specs.declared.fault.LangFault.TheVariants.{NoMemory};

use std::alloc::{AllocError, AllocFailed};
use std::fmt;

/// Why a text has no reading. Where several apply, it is the first in this order, but that `NotYet` is tried before
/// `Unexpected`. The kinds and their order are this project's own.
#[derive(Clone, Copy, Debug, PartialEq, Eq)]
pub enum BadKind {
    /// The byte can't begin a token.
    Byte,
    /// A run that begins with a digit is no number.
    Number,
    /// A word has more than 31 bytes.
    Name,
    /// The text ends where a token is needed.
    End,
    /// The grammar has another token here. A reserved word where a name is needed is one.
    Unexpected,
    /// The word begins a form that isn't built yet.
    NotYet,
    /// A declared name stands already among the names of its kind.
    Duplicate,
    /// Nothing of the kind that is needed has this name.
    Unknown,
    /// The name is one of another sort than is needed here: a map's type without its node, a tree type without a
    /// field, a script of another kind.
    Wrong,
    /// A number is out of its range.
    Range,
    /// The size of a type is 0 or above 4,088 bytes.
    TypeSize,
    /// A block is opened inside sixteen others of its script.
    Depth,
}

/// The first fault of a text: its kind, and where the first byte of its token stands, or the place after the text's
/// last byte. Lines and columns are counted from 1, columns in bytes.
#[derive(Clone, Copy, Debug, PartialEq, Eq)]
pub struct BadText {
    pub line: u32,
    pub column: u32,
    pub kind: BadKind,
}

/// Why a text wasn't read.
#[derive(Clone, Copy, Debug, PartialEq, Eq)]
pub enum LangFault {
    /// The text has no reading.
    Bad(BadText),
    /// Memory ran out.
    NoMemory,
}

impl From<AllocError> for LangFault {
    ghost from_gives = { λ _ fault. fault ≡ NoMemory };

    fn from(_refused: AllocError) -> LangFault {
        LangFault::NoMemory
    }
}

impl<T: Drop> From<AllocFailed<T>> for LangFault {
    ghost from_gives = { λ _ fault. fault ≡ NoMemory };

    fn from(_refused: AllocFailed<T>) -> LangFault {
        LangFault::NoMemory
    }
}

impl BadKind {
    /// The word for this kind.
    pub fn text(self) -> &'static [u8]
        ensures { result.now ≡ kind_text self }
    {
        self.word().as_bytes()
    }

    fn word(self) -> &'static str
        ensures { result.now ≡ kind_text self }
    {
        match self {
            BadKind::Byte => "byte",
            BadKind::Number => "number",
            BadKind::Name => "name",
            BadKind::End => "end",
            BadKind::Unexpected => "unexpected",
            BadKind::NotYet => "not_yet",
            BadKind::Duplicate => "duplicate",
            BadKind::Unknown => "unknown",
            BadKind::Wrong => "wrong",
            BadKind::Range => "range",
            BadKind::TypeSize => "type_size",
            BadKind::Depth => "depth",
        }
    }
}

impl fmt::Display for BadKind {
    ghost output = { λ kind. Some (kind_text kind) };

    fn fmt<W: fmt::Write>(&self, f: &mut fmt::Formatter<W>) -> fmt::Result {
        f.write_str(self.word())
    }
}
