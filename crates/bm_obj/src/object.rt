//! Objects by the numbers of their units.

ghost use Rattle.std.specs.Prelude.{◌≡◌, ◌<◌, ◌≤◌, ℕ, IfOk, None, Some, is_some, true, length, replicate, slice_get, slice_set};
ghost use Rattle.bm_obj.specs.Table.{changed, object_at, with_count, with_noted, with_owner};
ghost use Rattle.bm_obj.specs.declared.object.UnitPlace.TheVariants.{Free, Lives};

use bm_journal::Values;
use bm_page::Unit;
use bm_word::NoMemory;
use std::alloc::Global;
use std::mem;

/// An object: the unit that it is, with its life, how many references there are, the number of its type, its values, the graph
/// that owns it, if one does, how many of the references are in notes, and whether the graph's claim is in one of these.
pub struct Object {
    pub unit: Unit,
    pub count: u32,
    pub def: u8,
    pub values: Values,
    pub owner: Option<u8>,
    pub noted: u32,
    pub carried: bool,
}

impl Object {
    /// The unit of an object that has ended.
    pub(crate) fn into_unit(self) -> Unit
        ensures { result ≡ self.unit }
    {
        let Object {
            unit,
            count: _,
            def: _,
            values: _,
            owner: _,
            noted: _,
            carried: _,
        } = self;
        unit
    }

    /// Ends an object after an out of memory. Its unit is lost.
    fn give_up(self) {
        self.into_unit().give_up();
    }
}

/// What there is under the number of a unit.
pub enum UnitPlace {
    /// No object; the unit has begun so many lives.
    Free(u32),
    /// An object, which is the unit's last life begun.
    Lives(Object),
}

/// Ends places after an out of memory, and the objects there. Their units are lost.
pub(crate) fn give_up_places(places: Vec<UnitPlace>) {
    let mut places = places;
    while let Some(place) = places.pop() {
        match place {
            UnitPlace::Free(_) => {}
            UnitPlace::Lives(object) => object.give_up(),
        }
    }
    places.destroy_empty();
}

/// So many places without an object, whose units never lived.
pub(crate) fn free_places(alloc: Global, count: usize) -> Result<Vec<UnitPlace>, NoMemory>
    ensures { IfOk result (λ v. v.items ≡ replicate count (Free 0)) }
{
    let mut places = Vec::with_capacity(alloc, count)?;
    for _place in 0..count {
        if let Err(_refused) = places.push(UnitPlace::Free(0)) {
            unreachable!();
        }
    }
    Ok(places)
}

/// Puts an object into the place of its unit, where there is none.
pub(crate) fn put_object(places: &mut Vec<UnitPlace>, object: Object)
    requires inside { object.unit.number < length places.old.items }
    requires free { object_at places.old.items object.unit.number ≡ None }
    ensures { places.new.items ≡ slice_set places.old.items object.unit.number (Lives object) }
{
    let place = object.unit.number() as usize;
    match mem::replace(&mut places[place], UnitPlace::Lives(object)) {
        UnitPlace::Free(_) => {}
        UnitPlace::Lives(_other) => unreachable!(),
    }
}

/// Takes the object out of a place, whose unit has then begun so many lives.
pub(crate) fn take_object(places: &mut Vec<UnitPlace>, unit: u16, life: u32) -> Object
    requires { is_some (object_at places.old.items unit) ≡ true }
    ensures object { object_at places.old.items unit ≡ Some result }
    ensures free { places.new.items ≡ slice_set places.old.items unit (Free life) }
{
    match mem::replace(&mut places[unit as usize], UnitPlace::Free(life)) {
        UnitPlace::Lives(object) => object,
        UnitPlace::Free(_) => unreachable!(),
    }
}

/// The object in a place.
pub(crate) fn look_at(places: &Vec<UnitPlace>, unit: u16) -> &Object
    requires { is_some (object_at places.now.items unit) ≡ true }
    ensures { object_at places.now.items unit ≡ Some result.now }
{
    match &places[unit as usize] {
        UnitPlace::Lives(object) => object,
        UnitPlace::Free(_) => unreachable!(),
    }
}

/// Sets the count of the object in a place.
pub(crate) fn set_count(places: &mut Vec<UnitPlace>, unit: u16, count: u32)
    requires { is_some (object_at places.old.items unit) ≡ true }
    ensures { places.new.items ≡ changed unit (with_count count) places.old.items }
{
    match &mut places[unit as usize] {
        UnitPlace::Lives(object) => object.count = count,
        UnitPlace::Free(_) => unreachable!(),
    }
}

/// Sets the owner of the object in a place.
pub(crate) fn set_owner(places: &mut Vec<UnitPlace>, unit: u16, owner: Option<u8>)
    requires { is_some (object_at places.old.items unit) ≡ true }
    ensures { places.new.items ≡ changed unit (with_owner owner) places.old.items }
{
    match &mut places[unit as usize] {
        UnitPlace::Lives(object) => object.owner = owner,
        UnitPlace::Free(_) => unreachable!(),
    }
}

/// Sets how many references to the object in a place are in notes, and whether its claim is in one of these.
pub(crate) fn set_noted(places: &mut Vec<UnitPlace>, unit: u16, noted: u32, carried: bool)
    requires { is_some (object_at places.old.items unit) ≡ true }
    ensures { places.new.items ≡ changed unit (with_noted noted carried) places.old.items }
{
    match &mut places[unit as usize] {
        UnitPlace::Lives(object) => {
            object.noted = noted;
            object.carried = carried;
        }
        UnitPlace::Free(_) => unreachable!(),
    }
}
