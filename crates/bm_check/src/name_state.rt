//! What a name stands for, as far as the checker knows.

ghost use Rattle.std.specs.Prelude.{◌≡◌};
ghost use Rattle.bm_check.specs.NameStates as spec;

use bm_lang::{MapId, TypeId};

/// The state of a name. It stands for what the kernel's verifier knows of a register: whether it holds an owning
/// reference, whether that may be null, or whether it is a non-owning reference into a graph.
#[derive(Clone, Copy, Debug)]
pub enum NameState {
    /// Not bound yet.
    Unbound,
    /// Was bound, and has nothing any more.
    Spent,
    /// Null, or an owning reference to an object of a type.
    Maybe(TypeId),
    /// An owning reference to an object of a type.
    Owned(TypeId),
    /// A non-owning reference to an object of a type in a graph.
    Soft(TypeId, MapId),
    /// Null, or a non-owning reference to an object of a type in a graph.
    MaybeSoft(TypeId, MapId),
}

/// The lock that a script holds at a statement.
#[derive(Clone, Copy, Debug, Default)]
pub enum HeldLock {
    /// No lock is held.
    #[default]
    Nothing,
    /// The lock of this graph is held, and was taken in this block.
    Here(MapId),
    /// The lock of this graph is held, and was taken in a block around this one.
    Around(MapId),
}

impl HeldLock {
    ghost use Rattle.bm_check.specs.Blocks as blocks;

    /// The lock as an inner block sees it: one that is held was taken in a block around it.
    pub fn from_inside(self) -> HeldLock
        ensures { result ≡ blocks.from_inside self }
    {
        match self {
            HeldLock::Here(graph) => HeldLock::Around(graph),
            other => other,
        }
    }
}

impl NameState {
    /// Whether nothing stands under the name.
    pub fn is_free(self) -> bool
        ensures { result ≡ spec.is_free self }
    {
        match self {
            NameState::Unbound | NameState::Spent => true,
            _ => false,
        }
    }

    /// Whether the name has an object that must be given up.
    pub fn owns(self) -> bool
        ensures { result ≡ spec.owns self }
    {
        match self {
            NameState::Maybe(_) | NameState::Owned(_) => true,
            _ => false,
        }
    }

    /// Whether the name may be null.
    pub fn may_be_null(self) -> bool
        ensures { result ≡ spec.may_be_null self }
    {
        match self {
            NameState::Maybe(_) | NameState::MaybeSoft(_, _) => true,
            _ => false,
        }
    }

    /// The type of the object that stands under the name, if it isn't null.
    pub fn type_in(self) -> Option<TypeId>
        ensures { result ≡ spec.type_in self }
    {
        match self {
            NameState::Unbound | NameState::Spent => None,
            NameState::Maybe(type_id) | NameState::Owned(type_id) => Some(type_id),
            NameState::Soft(type_id, _) | NameState::MaybeSoft(type_id, _) => Some(type_id),
        }
    }

    /// The graph that a non-owning reference leads into.
    pub fn graph_in(self) -> Option<MapId>
        ensures { result ≡ spec.graph_in self }
    {
        match self {
            NameState::Soft(_, graph) | NameState::MaybeSoft(_, graph) => Some(graph),
            _ => None,
        }
    }

    /// The state once the name is known not to be null.
    pub fn non_null(self) -> NameState
        ensures { result ≡ spec.non_null self }
    {
        match self {
            NameState::Maybe(type_id) => NameState::Owned(type_id),
            NameState::MaybeSoft(type_id, graph) => NameState::Soft(type_id, graph),
            known => known,
        }
    }

    /// Whether the name is a non-owning reference.
    pub fn is_soft(self) -> bool
        ensures { result ≡ spec.is_soft self }
    {
        match self {
            NameState::Soft(_, _) | NameState::MaybeSoft(_, _) => true,
            _ => false,
        }
    }

    /// Whether two states are one.
    pub fn is_same(self, other: NameState) -> bool
        ensures { result ≡ spec.is_same self other }
    {
        match (self, other) {
            (NameState::Unbound, NameState::Unbound) => true,
            (NameState::Spent, NameState::Spent) => true,
            (NameState::Maybe(one), NameState::Maybe(two)) => one.0 == two.0,
            (NameState::Owned(one), NameState::Owned(two)) => one.0 == two.0,
            (NameState::Soft(one, here), NameState::Soft(two, there)) => one.0 == two.0
                && here.0 == there.0,
            (NameState::MaybeSoft(one, here), NameState::MaybeSoft(two, there)) => one.0 == two.0
                && here.0 == there.0,
            _ => false,
        }
    }

    /// Whether two states are one, or both are free.
    pub fn agrees(self, other: NameState) -> bool
        ensures { result ≡ spec.agrees self other }
    {
        self.is_same(other) || (self.is_free() && other.is_free())
    }

    /// Whether the states at the ends of two branches break a rule.
    pub fn clashes(self, other: NameState) -> bool
        ensures { result ≡ spec.clashes self other }
    {
        !self.agrees(other) && (self.owns() || other.owns())
    }

    /// The state after an `if` that ends with these two.
    pub fn joined(self, other: NameState) -> NameState
        ensures { result ≡ spec.joined_state self other }
    {
        if self.is_same(other) {
            self
        } else {
            NameState::Spent
        }
    }

    /// The state after a `repeat` whose body starts with this one and ends with the other.
    pub fn repeated(self, end: NameState) -> NameState
        ensures { result ≡ spec.repeated_state self end }
    {
        match end {
            NameState::Spent => NameState::Spent,
            _ => self,
        }
    }
}
