//! Short lists that are kept in place: the words of a grace period, and the values of fields.

ghost use Rattle.std.specs.Prelude.{◌≡◌, ◌≤◌, length};
ghost use Rattle.std.specs.Option.{SomeIff};

use crate::ids::Domain;
use arrayvec::ArrayVec;
use std::marker::Model;

/// The section words that a period looked at, in order: one a processor in the plain domain, two in the tracing one,
/// plain before tracing. There are at most 16, kept in place. Contracts see a list.
#[derive(Debug, Drop)]
pub struct Words {
    items: ArrayVec<u32, 16>,
}

impl Model for Words {
    ghost use Rattle.std.specs.Prelude.{ℕ, List};

    ghost Value = { List ℕ };

    ghost view = { λ w. w.items.items };
}

impl Words {
    /// The list with these items. None exactly where there are more than 16. It takes no memory.
    pub fn new(items: &[u32]) -> Option<Words>
        ensures { SomeIff result (length items.now ≤ 16) items.now }
    {
        match ArrayVec::try_from(items) {
            Ok(items) => Some(Words { items }),
            Err(_) => None,
        }
    }

    /// The same list once more. It takes no memory.
    pub fn duplicate(&self) -> Words
        ensures { result ≡ self.now }
    {
        match ArrayVec::try_from(self.items.as_slice()) {
            Ok(items) => Words { items },
            Err(_) => unreachable!(),
        }
    }

    /// The items.
    pub fn as_slice(&self) -> &[u32]
        ensures { result.now ≡ self.now }
    {
        self.items.as_slice()
    }
}

/// The values of an object's fields, in order. There are at most 8, kept in place. Contracts see a list.
#[derive(Debug, Drop)]
pub struct Values {
    items: ArrayVec<u32, 8>,
}

impl Model for Values {
    ghost use Rattle.std.specs.Prelude.{ℕ, List};

    ghost Value = { List ℕ };

    ghost view = { λ v. v.items.items };
}

impl Values {
    /// The list with these items. None exactly where there are more than 8. It takes no memory.
    pub fn new(items: &[u32]) -> Option<Values>
        ensures { SomeIff result (length items.now ≤ 8) items.now }
    {
        match ArrayVec::try_from(items) {
            Ok(items) => Some(Values { items }),
            Err(_) => None,
        }
    }

    /// The same list once more. It takes no memory.
    pub fn duplicate(&self) -> Values
        ensures { result ≡ self.now }
    {
        match ArrayVec::try_from(self.items.as_slice()) {
            Ok(items) => Values { items },
            Err(_) => unreachable!(),
        }
    }

    /// The items.
    pub fn as_slice(&self) -> &[u32]
        ensures { result.now ≡ self.now }
    {
        self.items.as_slice()
    }
}

/// A grace period that has ended: its domain, the even number at its end, and each section word as it was first
/// looked at and as it was last looked at.
#[derive(Debug, Drop)]
pub struct Period {
    pub domain: Domain,
    pub number: u32,
    pub first: Words,
    pub later: Words,
}
