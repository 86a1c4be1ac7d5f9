//! The rules of ownership.

ghost use Rattle.std.specs.Prelude.{◌≡◌};
ghost use Rattle.bm_check.specs.RuleNumbers.{number_of};

/// A rule of ownership, which a statement or an end of a block can break. The rules and their numbers are this
/// project's own; they say of names what the kernel's verifier says of registers and stack places.
#[derive(Clone, Copy, Debug, PartialEq, Eq)]
pub enum Rule {
    /// 1: a name that is used is bound, and one that is bound is free.
    BoundOnce,
    /// 2: a name that is used where null isn't allowed can't be null.
    NotNull,
    /// 3: a name that is used isn't spent.
    NotSpent,
    /// 4: no name owns at the end of a script.
    NothingOwned,
    /// 5: a name that owns at the end of a branch has the same state at the end of the other.
    BranchesAgree,
    /// 6: a name has the same state at the end of a repeated block as at its start.
    RepeatAgrees,
    /// 7: a graph's statement stands under that graph's lock, and an unlock under a lock.
    UnderItsLock,
    /// 8: a lock is taken where none is held.
    OneLock,
    /// 9: no object is made, dropped or exchanged under a lock, and nothing yields there.
    NotUnderLock,
    /// 10: a lock is given back in the block in which it was taken, before its end.
    LockInItsBlock,
    /// 11: a handler takes no lock and doesn't yield.
    NotInHandler,
    /// 12: a name that is used has the type and the kind of reference that are needed.
    RightKind,
}

impl Rule {
    /// The number of the rule, 1 to 12.
    pub fn number(self) -> u8
        ensures { result ≡ number_of self }
    {
        match self {
            Rule::BoundOnce => 1,
            Rule::NotNull => 2,
            Rule::NotSpent => 3,
            Rule::NothingOwned => 4,
            Rule::BranchesAgree => 5,
            Rule::RepeatAgrees => 6,
            Rule::UnderItsLock => 7,
            Rule::OneLock => 8,
            Rule::NotUnderLock => 9,
            Rule::LockInItsBlock => 10,
            Rule::NotInHandler => 11,
            Rule::RightKind => 12,
        }
    }
}
