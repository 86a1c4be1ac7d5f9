//! Entries of the histories of lists and trees.

use crate::ids::{ObjId, Tag};

/// A call on a list or tree, as its history keeps it. A refused push names the list or tree that the object stands
/// in, by its place among the names of maps; an addition has the object's key.
#[derive(Clone, Copy, Debug, PartialEq, Eq)]
pub enum PastCall {
    PushFront(ObjId),
    PushBack(ObjId),
    Add(ObjId, u32),
    PushFrontAlready(ObjId, u8),
    PushBackAlready(ObjId, u8),
    AddAlready(ObjId, u32, u8),
    PopFront(ObjId),
    PopFrontNone,
    PopBack(ObjId),
    PopBackNone,
    First(ObjId),
    FirstNone,
    Remove(ObjId),
}

/// One entry of a history: which call it was, and what it did.
#[derive(Clone, Copy, Debug, PartialEq, Eq)]
pub struct Past {
    pub tag: Tag,
    pub call: PastCall,
}
