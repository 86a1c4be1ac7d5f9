//! Calls, and how a history names them.

ghost use Rattle.std.specs.Prelude.{◌≡◌};
ghost use Rattle.bm_graph.specs.Calls.{front_call, back_call, first_call};
ghost use Rattle.bm_graph.specs.Refused.{refused_call};

use crate::item::Item;
use bm_journal::{ObjId, PastCall};

/// A push onto a list, or an addition to a tree with the object's key.
#[derive(Clone, Copy, Debug, PartialEq, Eq)]
pub enum GraphCall {
    PushFront,
    PushBack,
    Add(u32),
}

/// How a history names a call that was refused, since the object stands in the list or tree of this number.
pub fn refused(call: GraphCall, id: ObjId, owner: u8) -> PastCall
    ensures { result ≡ refused_call call id owner }
{
    match call {
        GraphCall::PushFront => PastCall::PushFrontAlready(id, owner),
        GraphCall::PushBack => PastCall::PushBackAlready(id, owner),
        GraphCall::Add(key) => PastCall::AddAlready(id, key, owner),
    }
}

/// How a history names a pop from the front that took this item, or none.
pub fn popped_front<T>(popped: &Option<Item<T>>) -> PastCall
    ensures { result ≡ front_call popped.now }
{
    match popped {
        Some(item) => PastCall::PopFront(item.id),
        None => PastCall::PopFrontNone,
    }
}

/// How a history names a pop from the back that took this item, or none.
pub fn popped_back<T>(popped: &Option<Item<T>>) -> PastCall
    ensures { result ≡ back_call popped.now }
{
    match popped {
        Some(item) => PastCall::PopBack(item.id),
        None => PastCall::PopBackNone,
    }
}

/// How a history names a look at the first node, which found this one, or none.
pub fn looked_first(first: Option<ObjId>) -> PastCall
    ensures { result ≡ first_call first }
{
    match first {
        Some(id) => PastCall::First(id),
        None => PastCall::FirstNone,
    }
}
