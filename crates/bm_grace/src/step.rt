//! Steps on the words that all processors share.

use bm_journal::Domain;

/// A word that all processors share, by what it is.
#[derive(Clone, Copy, Debug, PartialEq, Eq)]
pub enum TableWord {
    /// A processor's section word of a domain.
    Section(Domain, u8),
    /// A domain's number.
    Number(Domain),
}

/// What a step on such a word is for.
#[derive(Clone, Copy, Debug, PartialEq, Eq)]
pub enum StepKind {
    /// The outermost section of a domain begins: a store of the section word.
    Enter,
    /// It ends: a store of the section word.
    Leave,
    /// A number is read.
    Stamp,
    /// A period is to begin: a compare and exchange of the number.
    Begin,
    /// A period of this domain looks at a section word.
    Look(Domain),
    /// A period ends: a store of the number.
    Finish,
}

/// One step of one processor on one word: what it found there, and what it left there.
#[derive(Clone, Copy, Debug, PartialEq, Eq)]
pub struct TableStep {
    pub kind: StepKind,
    pub word: TableWord,
    pub found: u64,
    pub left: u64,
}
