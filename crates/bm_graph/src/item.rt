//! What a list or tree holds.

use bm_journal::ObjId;

/// An object in a list or tree: the reference to it that the list or tree owns, which may have to be spent, its id,
/// and its key, which is the first field of its type.
#[derive(Drop)]
pub struct Item<T> {
    pub reference: T,
    pub id: ObjId,
    pub key: u32,
}
