//! The objects that live, each in the slot of its unit's number.

ghost use Rattle.std.specs.Prelude.{◌≡◌, ◌<◌, ◌^◌, IfOk, length, Some, None, is_some, true, slice_get, slice_set};
ghost use Rattle.bm_world.specs.Graphs.{key_of};
ghost use Rattle.bm_world.specs.LivingState.{slots_counted, slots_placed};
ghost use Rattle.bm_world.specs.Slots.{AllEmpty, count_of, new_object, object_at, place_within, unit_at, values_of};

use bm_journal::Values;
use bm_page::Unit;
use bm_word::NoMemory;
use std::alloc::Global;
use std::mem;

/// How many unit numbers there are.
const NUMBERS: usize = 65_536;

/// An object that lives: its unit, the number of its type among those declared, how many references there are to it, the values of
/// its fields, and the place of the list or tree that it is in, if it is in one.
pub struct Object {
    pub unit: Unit,
    pub type_number: usize,
    pub count: u32,
    pub values: Values,
    pub within: Option<u8>,
}

/// A slot for each unit number, which holds the object that the unit is where it lives.
pub struct Slots {
    /// By number, the object that the unit is, if it lives.
    pub slots: Vec<Option<Object>>,
}

impl Slots {
    /// Empty slots. All memory is taken here.
    pub fn new(alloc: Global) -> Result<Slots, NoMemory>
        ensures size { IfOk result (λ s. length s.slots.items ≡ 2 ^ 16) }
        ensures empty { IfOk result (λ s. AllEmpty s.slots.items) }
    {
        let mut slots = Vec::with_capacity(alloc, NUMBERS)?;
        for _place in 0..NUMBERS {
            if let Err(_refused) = slots.push(None) {
                unreachable!();
            }
        }
        Ok(Slots { slots })
    }

    /// Puts a unit into its slot, which is empty, as an object of this type with these values of its fields, to which there is one
    /// reference, and which is in no list or tree.
    pub fn put(&mut self, unit: Unit, type_number: usize, values: Values)
        requires size { length self.old.slots.items ≡ 2 ^ 16 }
        requires number { unit.number < 2 ^ 16 }
        requires empty { unit_at self.old.slots.items unit.number ≡ None }
        ensures { self.new.slots.items
            ≡ slice_set self.old.slots.items unit.number (Some (new_object type_number values unit)) }
    {
        let place = unit.number() as usize;
        let object = Object {
            unit,
            type_number,
            count: 1,
            values,
            within: None,
        };
        match mem::replace(&mut self.slots[place], Some(object)) {
            None => {}
            Some(_) => unreachable!(),
        }
    }

    /// Takes the unit out of its slot.
    pub fn take(&mut self, number: u16) -> Unit
        requires size { length self.old.slots.items ≡ 2 ^ 16 }
        requires there { is_some (unit_at self.old.slots.items number) ≡ true }
        ensures unit { unit_at self.old.slots.items number ≡ Some result }
        ensures empty { self.new.slots.items ≡ slice_set self.old.slots.items number None }
    {
        match self.slots[number as usize].take() {
            Some(object) => {
                let Object {
                    unit,
                    type_number: _,
                    count: _,
                    values: _,
                    within: _,
                } = object;
                unit
            }
            None => unreachable!(),
        }
    }

    /// How many references there are to the object that a unit is; none where it doesn't live.
    pub fn references(&self, number: u16) -> u32
        requires size { length self.now.slots.items ≡ 2 ^ 16 }
        ensures { result ≡ count_of (object_at self.now.slots.items number) }
    {
        match &self.slots[number as usize] {
            Some(object) => object.count,
            None => 0,
        }
    }

    /// Says how many references there are to the object that a unit is.
    pub fn count(&mut self, number: u16, count: u32)
        requires size { length self.old.slots.items ≡ 2 ^ 16 }
        requires there { is_some (unit_at self.old.slots.items number) ≡ true }
        ensures { self.new.slots.items ≡ slots_counted number count self.old.slots.items }
    {
        match &mut self.slots[number as usize] {
            Some(object) => object.count = count,
            None => unreachable!(),
        }
    }

    /// The value of a field of the object that a unit is, by its place.
    pub fn value(&self, number: u16, place: u8) -> u32
        requires size { length self.now.slots.items ≡ 2 ^ 16 }
        requires there { is_some
            (slice_get (values_of (object_at self.now.slots.items number)) place)
            ≡ true }
        ensures { slice_get (values_of (object_at self.now.slots.items number)) place
            ≡ Some result }
    {
        match &self.slots[number as usize] {
            Some(object) => match object.values.as_slice().get(place as usize) {
                Some(value) => *value,
                None => unreachable!(),
            },
            None => unreachable!(),
        }
    }

    /// The key of the object that a unit is: the value of its first field, and 0 where it has none.
    pub fn key(&self, number: u16) -> u32
        requires size { length self.now.slots.items ≡ 2 ^ 16 }
        ensures { result ≡ key_of (values_of (object_at self.now.slots.items number)) }
    {
        match &self.slots[number as usize] {
            Some(object) => match object.values.as_slice().get(0) {
                Some(value) => *value,
                None => 0,
            },
            None => 0,
        }
    }

    /// The place of the list or tree that the object is in which a unit is, if it is in one.
    pub fn within(&self, number: u16) -> Option<u8>
        requires size { length self.now.slots.items ≡ 2 ^ 16 }
        ensures { result ≡ place_within (object_at self.now.slots.items number) }
    {
        match &self.slots[number as usize] {
            Some(object) => object.within,
            None => None,
        }
    }

    /// Says in which list or tree the object is which a unit is, or that it is in none.
    pub fn place(&mut self, number: u16, within: Option<u8>)
        requires size { length self.old.slots.items ≡ 2 ^ 16 }
        requires there { is_some (unit_at self.old.slots.items number) ≡ true }
        ensures { self.new.slots.items ≡ slots_placed number within self.old.slots.items }
    {
        match &mut self.slots[number as usize] {
            Some(object) => object.within = within,
            None => unreachable!(),
        }
    }

    /// Ends the slots, and each object in them.
    pub fn give_up(self) {
        let Slots { slots } = self;
        give_up_slots(slots);
    }
}

/// Ends slots, and each object in them.
fn give_up_slots(slots: Vec<Option<Object>>) {
    let mut slots = slots;
    while let Some(slot) = slots.pop() {
        if let Some(object) = slot {
            let Object {
                unit,
                type_number: _,
                count: _,
                values: _,
                within: _,
            } = object;
            unit.give_up();
        }
    }
    slots.destroy_empty();
}
