//! Answers of the calls on grace periods.

/// Whether a domain's number is at least a stamp, with the number seen: a period that began after the stamp was taken
/// has ended exactly where it is.
#[derive(Clone, Copy, Debug, PartialEq, Eq)]
pub enum Done {
    /// The number seen, which is at least the stamp.
    Passed(u32),
    /// The number seen, which is below the stamp.
    NotYet(u32),
}

/// Whether a period was begun.
#[derive(Clone, Copy, Debug, PartialEq, Eq)]
pub enum Began {
    /// It was: the number was the one that was named, and is one greater now.
    Won,
    /// It wasn't: the number found, which is another than the one that was named.
    Moved(u32),
}

/// Whether a period's words have all passed.
#[derive(Clone, Copy, Debug, PartialEq, Eq)]
pub enum Look {
    /// All have.
    All,
    /// The first word that hasn't, in the order of a period's words: its processor, and the word as it was seen now.
    Waits(u8, u32),
}
