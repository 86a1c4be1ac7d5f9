//! Lists of units.

ghost use Rattle.std.specs.Prelude.{◌≡◌};

use std::marker::Model;

/// Numbers of units, in order. Contracts see a list.
#[derive(Debug, Drop)]
pub struct UnitNumbers {
    items: Vec<u16>,
}

impl Model for UnitNumbers {
    ghost use Rattle.std.specs.Prelude.{ℕ, List};

    ghost Value = { List ℕ };

    ghost view = { λ u. u.items.items };
}

impl UnitNumbers {
    /// The list with these items. It takes no memory.
    pub fn new(items: Vec<u16>) -> UnitNumbers
        ensures { result ≡ items.items }
    {
        UnitNumbers { items }
    }

    /// The items.
    pub fn as_slice(&self) -> &[u16]
        ensures { result.now ≡ self.now }
    {
        self.items.as_slice()
    }

    /// The items, without taking memory.
    pub fn into_vec(self) -> Vec<u16>
        ensures { result.items ≡ self }
    {
        self.items
    }
}

/// The units that an entry names. Where no memory is found for them, their number alone is kept; such a list stands
/// in no journal.
#[derive(Debug, Drop)]
pub enum Units {
    Whole(UnitNumbers),
    Counted(u32),
}

impl Units {
    ghost use Rattle.bm_journal.specs.EntryText.{unit_list};

    /// The units; none where their number alone is kept.
    pub fn as_slice(&self) -> &[u16]
        ensures { result.now ≡ unit_list self.now }
    {
        match self {
            Units::Whole(numbers) => numbers.as_slice(),
            Units::Counted(_) => &[],
        }
    }
}
