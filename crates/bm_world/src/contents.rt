//! What the slots of a scenario's maps hold.

ghost use Rattle.std.specs.Prelude.{◌≡◌, ◌<◌, Some, length, map, true};
ghost use Rattle.bm_law_order.specs.Slots.{named_in, with_slot};
ghost use Rattle.bm_world.specs.Contents.{are_apart, names_in, put_at, slot_at};
ghost use Rattle.bm_world.specs.NamedSlots.{named_of};

use bm_journal::{ObjId, Tag};
use bm_word::Name;
use std::marker::Model;

/// A slot of a scenario: its name, what it holds, and the call that put that; none at the outset.
#[derive(Drop)]
pub struct MapSlot {
    pub name: Name,
    pub held: Option<ObjId>,
    pub by: Option<Tag>,
}

/// What an exchange found in a slot, and the call that had put that; none for what was there at the outset.
#[derive(Clone, Copy, Debug, PartialEq, Eq)]
pub struct Displaced {
    pub held: Option<ObjId>,
    pub by: Option<Tag>,
}

/// The slots of a scenario, by their places, no two of them with one name. A place may stand for a map that is no slot: it stays empty
/// then. This project's own.
#[derive(Drop)]
pub struct Contents {
    slots: Vec<MapSlot>,
}

impl Model for Contents {
    ghost use Rattle.std.specs.Prelude.{◌≡◌, List, map, true};
    ghost use Rattle.bm_law_order.specs.Slots.{Named};
    ghost use Rattle.bm_world.specs.Contents.{are_apart, names_in};
    ghost use Rattle.bm_world.specs.NamedSlots.{named_of};

    ghost Value = { List Named };

    ghost view = { λ contents. map named_of contents.slots.items };

    ghost invariant = { λ contents. are_apart (names_in (map named_of contents.slots.items))
        ≡ true };
}

impl Contents {
    /// These slots.
    pub fn create(slots: Vec<MapSlot>) -> Contents
        requires apart { are_apart (names_in (map named_of slots.items)) ≡ true }
        ensures { result ≡ map named_of slots.items }
    {
        Contents { slots }
    }

    /// Exchanges what a slot holds, by its place: answers what was there. From bpf_kptr_xchg of kernel/bpf/helpers.c.
    pub fn exchange(&mut self, place: usize, put: Option<ObjId>, tag: Tag) -> Displaced
        requires there { place < length self.old }
        ensures held { result.held ≡ (slot_at place self.old).slot.held }
        ensures by { result.by ≡ (slot_at place self.old).slot.by }
        ensures slots { self.new ≡ put_at place (record { held = put; by = Some tag }) self.old }
        ensures named { named_in self.old (slot_at place self.old).name
            ≡ (slot_at place self.old).slot }
        ensures told { named_in self.new
            ≡ with_slot (slot_at place self.old).name (record { held = put; by = Some tag })
            (named_in self.old) }
    {
        let slot = &mut self.slots[place];
        let found = Displaced {
            held: slot.held,
            by: slot.by,
        };
        slot.held = put;
        slot.by = Some(tag);
        found
    }
}
