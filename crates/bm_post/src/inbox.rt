//! Inboxes of one processor and class.

ghost use Rattle.std.specs.Prelude.{◌≡◌, ◌∷◌, ◌++◌, [], IfErr, IfSome, IfNone, OnOk, OnErr, drop};

use bm_page::Unit;
use std::alloc::Global;
use std::collections::VecDeque;
use std::marker::Model;

/// The parcels that wait for one processor, of one class, oldest first. Contracts see a list of lists of units.
pub struct Inbox {
    parcels: VecDeque<Vec<Unit>>,
}

impl Model for Inbox {
    ghost use Rattle.std.specs.Prelude.{List, map};
    ghost use Rattle.bm_page.specs.UnitState.{UnitState};

    ghost Value = { List (List UnitState) };

    ghost view = { λ inbox. map (λ units. units.items) inbox.parcels.items };
}

impl Inbox {
    /// An empty inbox. It takes no memory yet.
    pub fn new(alloc: Global) -> Inbox
        ensures { result ≡ [] }
    {
        Inbox {
            parcels: VecDeque::new(alloc),
        }
    }

    /// Puts a parcel behind those that wait. Where there is no memory nothing changes, and the units come back.
    pub fn push(&mut self, units: Vec<Unit>) -> Result<(), Vec<Unit>>
        ensures ok { OnOk result (self.new ≡ self.old ++ units.items ∷ []) }
        ensures err { OnErr result (self.new ≡ self.old) }
        ensures back { IfErr result (λ refused. refused.items ≡ units.items) }
    {
        match self.parcels.push_back(units) {
            Ok(()) => Ok(()),
            Err(refused) => Err(refused.value),
        }
    }

    /// Takes the oldest parcel; `None` exactly where there is none.
    pub fn pop(&mut self) -> Option<Vec<Unit>>
        ensures some { IfSome result (λ units. self.old ≡ units.items ∷ self.new) }
        ensures none { IfNone result (self.old ≡ []) }
        ensures rest { self.new ≡ drop 1 self.old }
    {
        self.parcels.pop_front()
    }

    /// Ends an empty inbox.
    pub fn finish(self)
        requires { self ≡ [] }
    {
        let Inbox { parcels } = self;
        parcels.destroy_empty();
    }

    /// Ends an inbox after a want of memory, whatever parcels wait. Their units are lost.
    pub fn give_up(self) {
        let Inbox { mut parcels } = self;
        while let Some(units) = parcels.pop_front() {
            give_up_units(units);
        }
        parcels.destroy_empty();
    }
}

/// Ends units that nobody has any more, after a want of memory.
fn give_up_units(units: Vec<Unit>) {
    let mut units = units;
    while let Some(unit) = units.pop() {
        unit.give_up();
    }
    units.destroy_empty();
}
