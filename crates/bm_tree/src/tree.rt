//! The tree with its items.

ghost use Rattle.std.specs.Prelude.{◌≡◌, ◌+◌, ◌<◌, ◌≤◌, length, [], option_copied, option_map, IsOk, IfOk, OnOk, IfErr, OnErr, IfSome, IfNone, MatchOption};
ghost use Rattle.bm_tree.specs.Row.{first_place, item_at, Inserted, Taken, IsFirst, KeysAscend, PlacesDiffer};
ghost use Rattle.bm_tree.specs.Colours.{IsShallow};
ghost use Rattle.bm_tree.specs.Spending.{CanSpendAll, SpendsAll};

use crate::arena::{Slot, empty, fill, item_of};
use crate::links::{Link, NIL, NONE, leftmost};
use crate::places::{enter, unlink};
use crate::spend::Spend;
use std::alloc::Global;
use std::marker::Model;

/// Items in the order of their keys, each at a place that it keeps until it is taken.
///
/// A place is a number below 2^32 - 1. Contracts see the tree as the list of its rows, each with a
/// place, a key and an item, in the order of the keys, and among equal keys in the order of their
/// inserts. Beside the rows they see `spare`, how many more items need no memory, and `height`, how
/// many items stand on the longest way down from the root.
///
/// A tree of items that have to be spent ends by `finish` once it is empty, or by `give_up`.
#[derive(Drop)]
pub struct RedBlack<T> {
    links: Vec<Link>,
    slots: Vec<Slot<T>>,
    root: u32,
    free: u32,
    len: usize,
}

impl<T> Model for RedBlack<T> {
    ghost use Rattle.std.specs.Prelude.{◌-◌, min, vec_capacity};
    ghost use Rattle.bm_tree.specs.Row.{Tree, tree_code};

    ghost Value = { Tree T };

    ghost coded = { tree_code T.code };

    ghost use Rattle.bm_tree.specs.Shape.{order_of, below};
    ghost use Rattle.bm_tree.specs.Colours.{depth};
    ghost use Rattle.bm_tree.specs.Rows.{rows, IsSound};

    ghost view = { λ s. record {
      rows = rows s.slots.items (order_of s.links.items s.root);
      spare = min (vec_capacity s.links) (vec_capacity s.slots) - s.len;
      height = depth (below s.links.items s.root);
    } };

    ghost invariant = { λ s. IsSound s.links.items s.slots.items s.root s.free s.len };
}

impl<T> RedBlack<T> {
    /// An empty tree. It takes no memory until the first insert.
    pub fn new(alloc: Global) -> Self
        ensures { result.rows ≡ [] }
    {
        RedBlack {
            links: Vec::new(alloc),
            slots: Vec::new(alloc),
            root: NONE,
            free: NONE,
            len: 0,
        }
    }

    /// How many items there are. In every tree the rows ascend by their keys, no two have one place,
    /// and the height is at most 2 * log2(items + 1).
    pub fn len(&self) -> usize
        ensures value { result ≡ length self.now.rows }
        ensures in_order { KeysAscend self.now.rows }
        ensures places_differ { PlacesDiffer self.now.rows }
        ensures shallow { IsShallow self.now.height (length self.now.rows) }
    {
        self.len
    }

    /// The place of the first row: of the least key, and among its equals the one inserted first.
    /// None exactly where the tree is empty.
    pub fn least(&self) -> Option<u32>
        ensures { result ≡ first_place self.now.rows }
    {
        if self.root == NONE {
            return None;
        }
        Some(leftmost(self.links.as_slice(), self.root))
    }

    /// Lends the item at `place`. None exactly where the place is free.
    pub fn at(&self, place: u32) -> Option<&T>
        ensures { option_copied result ≡ item_at self.now.rows place }
    {
        item_of(self.slots.as_slice(), place)
    }

    /// Inserts an item after all whose key is not greater, and answers its place, which was free. All
    /// other rows stay as they were, each at its place.
    ///
    /// `Err` hands the item back and leaves the rows as they were. It comes only where the tree is
    /// out of memory, and never while something is to spare.
    pub fn insert(&mut self, key: u32, item: T) -> Result<u32, T>
        requires { length self.old.rows < 4294967295 }
        ensures ok { IfOk result (λ place. Inserted self.old.rows self.new.rows place key item) }
        ensures err { OnErr result (self.new.rows ≡ self.old.rows) }
        ensures item_returned { IfErr result (λ back. back ≡ item) }

        // Items that were taken leave room for as many.
        ensures succeeds { 0 < self.old.spare → IsOk result }
        ensures room { OnOk result (self.old.spare ≤ self.new.spare + 1) }
        ensures no_room { OnErr result (self.new.spare ≡ 0) }
    {
        let place = self.free;
        if place == NONE {
            if self.links.reserve(1).is_err() {
                return Err(item);
            }
            if self.slots.reserve(1).is_err() {
                return Err(item);
            }
            let last = self.slots.len() as u32;
            self.links.push_reserved(NIL);
            self.slots.push_reserved(Slot::Full(key, item));
            self.root = enter(
                self.links.as_mut_slice(),
                self.slots.as_slice(),
                self.root,
                last,
                key,
            );
            self.len += 1;
            return Ok(last);
        }
        self.free = fill(self.slots.as_mut_slice(), place, key, item);
        self.root = enter(
            self.links.as_mut_slice(),
            self.slots.as_slice(),
            self.root,
            place,
            key,
        );
        self.len += 1;
        Ok(place)
    }

    /// Takes the row at `place` out, with its key and its item, and frees the place. None exactly
    /// where the place is free. All other rows stay as they were, each at its place.
    pub fn take(&mut self, place: u32) -> Option<(u32, T)>
        ensures value { option_map (λ p. p.1) result ≡ item_at self.old.rows place }
        ensures taken { IfSome result (λ p. Taken self.old.rows self.new.rows place p.0 p.1) }
        ensures absent { IfNone result (self.new ≡ self.old) }
        ensures makes_room { IfSome result (λ _. self.new.spare ≡ self.old.spare + 1) }
    {
        if item_of(self.slots.as_slice(), place).is_none() {
            return None;
        }
        self.root = unlink(self.links.as_mut_slice(), self.root, place);
        self.len -= 1;
        let taken = empty(self.slots.as_mut_slice(), place, self.free);
        self.free = place;
        Some(taken)
    }

    /// Takes the first row out, with its key and its item. None exactly where the tree is empty.
    pub fn pop_least(&mut self) -> Option<(u32, T)>
        ensures popped { MatchOption result (self.old.rows ≡ [])
            (IsFirst self.old.rows self.new.rows) }
        ensures absent { IfNone result (self.new ≡ self.old) }
        ensures makes_room { IfSome result (λ _. self.new.spare ≡ self.old.spare + 1) }
    {
        // That no two rows have one place is a fact that the proof takes from here.
        let _len = self.len();
        match self.least() {
            Some(place) => self.take(place),
            None => None,
        }
    }

    /// Ends an empty tree.
    pub fn finish(self)
        requires { self.rows ≡ [] }
    {
        let RedBlack {
            links: _links,
            mut slots,
            root: _,
            free: _,
            len: _,
        } = self;
        while let Some(slot) = slots.pop() {
            match slot {
                Slot::Free(_) => {}
                Slot::Full(_, _item) => unreachable!(),
            }
        }
        slots.destroy_empty();
    }

    /// Ends a tree, as after an out of memory, and spends each item that it holds, in their order.
    pub fn give_up<S: Spend<T>>(self, spender: &mut S)
        requires { CanSpendAll S.can_spend S.spends self.rows spender.old }
        ensures { SpendsAll S.spends self.rows spender.old spender.new }
    {
        let mut tree = self;
        while let Some((key, item)) = tree.pop_least() {
            spender.spend(key, item);
        }
        tree.finish();
    }
}
