//! Where in a tree each object stands.

ghost use Rattle.std.specs.Prelude.{◌≡◌, ◌<◌, Some, None, OnOk, IsOk};
ghost use Rattle.bm_journal.specs.declared.ids.ObjId.{ObjId};
ghost use Rattle.bm_graph.specs.Index.{place_in, room_in, HoldsSame, Changes};

use bm_journal::ObjId;
use bm_word::NoMemory;
use std::alloc::Global;
use std::collections::HashMap;

/// The place of each object of a tree, by the object's unit and life. So an object is found without a walk.
#[derive(Drop)]
pub struct Index {
    places: HashMap<(u16, u32), u32>,
}

impl Index {
    /// An index of no object. It takes no memory.
    pub fn new(alloc: Global) -> Index
        ensures { (id : ObjId) → place_in result id ≡ None }
    {
        Index {
            places: HashMap::new(alloc),
        }
    }

    /// Makes room for one more object. Every object keeps its place, also where there is no memory.
    pub fn reserve(&mut self) -> Result<(), NoMemory>
        ensures same { HoldsSame self.old self.new }
        ensures room { OnOk result (0 < room_in self.new) }
    {
        self.places.reserve(1)?;
        Ok(())
    }

    /// Notes the place of an object, for which there is room.
    pub fn insert(&mut self, id: ObjId, place: u32)
        requires { 0 < room_in self.old }
        ensures { Changes self.old self.new id (Some place) }
    {
        let Ok(_) = self.places.insert((id.unit, id.life), place) else {
            unreachable!()
        };
    }

    /// The place of an object. None where the object isn't in the index.
    pub fn place(&self, id: ObjId) -> Option<u32>
        ensures { result ≡ place_in self.now id }
    {
        self.places.get(&(id.unit, id.life)).copied()
    }

    /// Drops the place of an object.
    pub fn remove(&mut self, id: ObjId)
        ensures { Changes self.old self.new id None }
    {
        let _place = self.places.remove(&(id.unit, id.life));
    }
}
