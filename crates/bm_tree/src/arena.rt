//! The slots of the arena: what each place holds.

ghost use Rattle.std.specs.Prelude.{◌≡◌, ℕ, ◌<◌, length, option_copied, slice_get, slice_set, Some};
ghost use Rattle.bm_tree.specs.Rows.{key_of, item_in, full_in};

use std::mem;

// What a place holds: a key with its item, or, where it is free, the next free place.
#[derive(Drop)]
pub(crate) enum Slot<T> {
    Free(u32),
    Full(u32, T),
}

// The key at a place, and 0 at a free one.
pub(crate) fn key_at<T>(slots: &[Slot<T>], place: u32) -> u32
    ensures { result ≡ key_of slots.now place }
{
    match slots.get(place as usize) {
        Some(Slot::Full(key, _)) => *key,
        _ => 0,
    }
}

// The item at a place.
pub(crate) fn item_of<T>(slots: &[Slot<T>], place: u32) -> Option<&T>
    ensures { option_copied result ≡ item_in (slice_get slots.now place) }
{
    match slots.get(place as usize) {
        Some(Slot::Full(_, item)) => Some(item),
        _ => None,
    }
}

// Puts an item at a free place, and returns the free place after it.
pub(crate) fn fill<T>(slots: &mut [Slot<T>], place: u32, key: u32, item: T) -> u32
    requires inside { place < length slots.old }
    requires free { (next : ℕ) × (slice_get slots.old place ≡ Some (Slot.Free next)) }
    ensures was { slice_get slots.old place ≡ Some (Slot.Free result) }
    ensures is { slots.new ≡ slice_set slots.old place (Slot.Full key item) }
{
    match mem::replace(&mut slots[place as usize], Slot::Full(key, item)) {
        Slot::Free(next) => next,
        Slot::Full(_, _item) => unreachable!(),
    }
}

// Takes the item out of a place, which becomes free, before the free place `next`.
pub(crate) fn empty<T>(slots: &mut [Slot<T>], place: u32, next: u32) -> (u32, T)
    requires inside { place < length slots.old }
    requires full { full_in (slice_get slots.old place) ≡ 1 }
    ensures was { slice_get slots.old place ≡ Some (Slot.Full result.0 result.1) }
    ensures is { slots.new ≡ slice_set slots.old place (Slot.Free next) }
{
    match mem::replace(&mut slots[place as usize], Slot::Free(next)) {
        Slot::Full(key, item) => (key, item),
        Slot::Free(_) => unreachable!(),
    }
}
