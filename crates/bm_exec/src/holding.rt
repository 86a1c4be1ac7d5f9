//! What a script's name holds.

ghost use Rattle.std.specs.Prelude.{◌≡◌};
ghost use Rattle.bm_law_scenario.specs.Calls.{answered, found_in, put_in};
ghost use Rattle.bm_exec.specs.Living.{reply_of};
ghost use Rattle.bm_exec.specs.Seen.{held_of};

use bm_journal::ObjId;
use bm_lang::{MapId, TypeId};

/// What a name of a running script holds.
#[derive(Clone, Copy, Debug, PartialEq, Eq)]
pub enum Holding {
    /// Nothing: it isn't bound, or what it held was given up.
    Nothing,
    /// Null.
    Null,
    /// An owning reference to an object of a type.
    Object(TypeId, ObjId),
    /// A non-owning reference to an object of a type, which is in this list or tree.
    Soft(TypeId, MapId, ObjId),
}

impl Holding {
    ghost use Rattle.bm_exec.specs.Softened.{without_soft};

    // What is left of it where non-owning references end.
    pub(crate) fn ended(self) -> Holding
        ensures { result ≡ without_soft self }
    {
        match self {
            Holding::Soft(_, _, _) => Holding::Nothing,
            held => held,
        }
    }
}

// What a name holds after a reply to a call for an object of this type.
pub(crate) fn holding_of(type_id: TypeId, reply: Option<ObjId>) -> Holding
    ensures { held_of result ≡ answered type_id (reply_of reply) }
{
    match reply {
        Some(object) => Holding::Object(type_id, object),
        None => Holding::Null,
    }
}

// What a name holds whose object is in a list or tree now.
pub(crate) fn pushed_as(counted: bool, type_id: TypeId, graph: MapId, object: ObjId) -> Holding
    ensures { held_of result ≡ put_in counted type_id graph object.unit object.life }
{
    if counted {
        Holding::Nothing
    } else {
        Holding::Soft(type_id, graph, object)
    }
}

// What a name holds that sees the first object of a tree, if it has any.
pub(crate) fn found_as(type_id: TypeId, tree: MapId, item: Option<ObjId>) -> Holding
    ensures { held_of result ≡ found_in type_id tree item }
{
    match item {
        Some(object) => Holding::Soft(type_id, tree, object),
        None => Holding::Null,
    }
}
