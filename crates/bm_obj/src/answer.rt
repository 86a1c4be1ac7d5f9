//! What calls on objects answer.

use bm_journal::Tag;
use bm_page::Unit;

/// What became of an object whose reference was released.
pub enum Released {
    /// It lives on: it had this many references before, more than one.
    Still(u32),
    /// It was the last reference, and the life has ended. The unit is the caller's.
    Last(Unit),
}

/// What a slot holds, or what an exchange displaced there: the reference, if there was one, and the tag of the call that put
/// it there, or emptied the slot; no tag where no call did since the slot was opened.
pub struct Displaced<T> {
    /// The reference that the slot held.
    pub old: Option<T>,
    /// The tag of the exchange that left the slot so.
    pub by: Option<Tag>,
}

/// Whether an object was claimed for a graph.
#[derive(Clone, Copy, Debug, PartialEq, Eq)]
pub enum Claimed {
    /// No graph owned it, and now this one does.
    Won,
    /// It was owned by this graph already, and still is.
    Taken(u8),
}
