//! Where two parts of a text meet.

ghost use Rattle.std.specs.Prelude.{◌≡◌};
ghost use Rattle.bm_check.specs.Meetings as spec;

use crate::name_state::NameState;
use crate::rule::Rule;

/// Two places of a text whose states are compared.
#[derive(Clone, Copy)]
pub enum Meeting {
    /// The ends of the two branches of an `if`.
    Branches,
    /// The start and the end of a repeated body.
    Body,
}

impl Meeting {
    /// Whether a name's states at the two places break the meeting's rule.
    pub fn breaks(self, first: NameState, second: NameState) -> bool
        ensures { result ≡ spec.breaks self first second }
    {
        match self {
            Meeting::Branches => first.clashes(second),
            Meeting::Body => !first.agrees(second),
        }
    }

    /// The state afterwards.
    pub fn outcome(self, first: NameState, second: NameState) -> NameState
        ensures { result ≡ spec.outcome self first second }
    {
        match self {
            Meeting::Branches => first.joined(second),
            Meeting::Body => first.repeated(second),
        }
    }

    /// The rule that the states keep.
    pub fn rule(self) -> Rule
        ensures { result ≡ spec.rule_of self }
    {
        match self {
            Meeting::Branches => Rule::BranchesAgree,
            Meeting::Body => Rule::RepeatAgrees,
        }
    }
}
