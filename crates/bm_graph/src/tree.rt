//! Trees with their histories.

ghost use Rattle.std.specs.Prelude.{◌≡◌, [], length, OnOk, OnErr, IfOk, IfErr, IsSome, IfNone, Some, None, option_copied, true};
ghost use Rattle.bm_journal.specs.declared.past.PastCall.TheVariants.{Add, Remove};
ghost use Rattle.bm_graph.specs.Contents.{nodes, item_of, IdsDiffer};
ghost use Rattle.bm_graph.specs.Objects.{tree_object};
ghost use Rattle.bm_graph.specs.Replay.{replay, Records};
ghost use Rattle.bm_graph.specs.Calls.{first_call, first_id, Adds, Removes, KeysAscend};
ghost use Rattle.bm_graph.specs.Refused.{refused_call, is_addition};
ghost use Rattle.bm_graph.specs.Spending.{CanSpendItems, SpendsItems};

use crate::call::{GraphCall, looked_first, refused};
use crate::index::Index;
use crate::item::Item;
use crate::record::{append, next_position};
use bm_journal::{ObjId, Past, PastCall, Tag};
use bm_tree::{RedBlack, Spend};
use bm_word::NoMemory;
use std::alloc::Global;
use std::marker::Model;

/// A tree that programs own objects through, in the order of their keys, with the history of its calls.
#[derive(Drop)]
pub struct Tree<T> {
    rows: RedBlack<Item<T>>,
    index: Index,
    history: Vec<Past>,
}

impl<T> Model for Tree<T> {
    ghost use Rattle.bm_graph.specs.Contents.{Contents};

    ghost Value = { Contents T };

    ghost use Rattle.bm_graph.specs.Sound.{items_of, IsSoundTree};

    ghost view = { λ t. record { items = items_of t.rows.rows; history = t.history.items } };

    ghost invariant = { λ t. IsSoundTree t.rows.rows t.index t.history.items };
}

impl<T> Tree<T> {
    /// An empty tree, with an empty history. It takes no memory.
    pub fn new(alloc: Global) -> Self
        ensures items { result.items ≡ [] }
        ensures history { result.history ≡ [] }
    {
        Tree {
            rows: RedBlack::new(alloc),
            index: Index::new(alloc),
            history: Vec::new(alloc),
        }
    }

    /// Adds an item after the last whose key isn't greater, as `bpf_rbtree_add_impl` does with the order of the first
    /// field, and answers the call's position in the history.
    ///
    /// `Err` hands the item back and changes nothing. It comes where the tree is out of memory, or where its history has
    /// 2^32 - 1 entries.
    pub fn add(&mut self, tag: Tag, item: Item<T>) -> Result<u32, Item<T>>
        requires { item_of self.old.items item.id ≡ None }
        ensures entry { IfOk result (λ position.
            Records self.old.history self.new.history position tag (Add item.id item.key)) }
        ensures items { OnOk result (Adds self.old.items self.new.items item) }
        ensures err { OnErr result (self.new ≡ self.old) }
        ensures item_returned { IfErr result (λ back. back ≡ item) }
    {
        let Ok(position) = next_position(&mut self.history) else {
            return Err(item);
        };
        if self.index.reserve().is_err() {
            return Err(item);
        }
        let id = item.id;
        let key = item.key;
        match self.rows.insert(key, item) {
            Ok(place) => {
                self.index.insert(id, place);
                append(&mut self.history, tag, PastCall::Add(id, key));
                Ok(position)
            }
            Err(item) => Err(item),
        }
    }

    /// Records an addition that was refused, since the object `id` is in the list or tree of the number `owner` already,
    /// and answers its position in the history. The kernel answers -EINVAL there.
    ///
    /// `Err` changes nothing. It comes where the tree is out of memory, or where its history has 2^32 - 1 entries.
    pub fn already(
        &mut self,
        tag: Tag,
        call: GraphCall,
        id: ObjId,
        owner: u8,
    ) -> Result<u32, NoMemory>
        requires { is_addition call ≡ true }
        ensures entry { IfOk result (λ position.
            Records self.old.history self.new.history position tag (refused_call call id owner)) }
        ensures items { self.new.items ≡ self.old.items }
        ensures err { OnErr result (self.new ≡ self.old) }
    {
        let position = next_position(&mut self.history)?;
        append(&mut self.history, tag, refused(call, id, owner));
        Ok(position)
    }

    /// The id of the first item: of the least key, and among its equals the one added first. None exactly where the tree
    /// is empty.
    fn first_id(&self) -> Option<ObjId>
        ensures { result ≡ first_id self.now.items }
    {
        match self.rows.least() {
            Some(place) => self.rows.at(place).map(|item| item.id),
            None => None,
        }
    }

    /// Names the first item, as `bpf_rbtree_first` does, and answers its id with the call's position in the history. The
    /// item stays. There is none exactly where the tree is empty, and the history says so.
    ///
    /// `Err` changes nothing. It comes where the tree is out of memory, or where its history has 2^32 - 1 entries.
    pub fn first(&mut self, tag: Tag) -> Result<(u32, Option<ObjId>), NoMemory>
        ensures entry { IfOk result (λ answer.
            Records self.old.history self.new.history answer.0 tag (first_call answer.1)) }
        ensures value { IfOk result (λ answer. answer.1 ≡ first_id self.old.items) }
        ensures none { IfOk result (λ answer. IfNone answer.1 (self.new.items ≡ [])) }
        ensures items { self.new.items ≡ self.old.items }
        ensures err { OnErr result (self.new ≡ self.old) }
    {
        let first = self.first_id();
        let position = next_position(&mut self.history)?;
        append(&mut self.history, tag, looked_first(first));
        Ok((position, first))
    }

    /// Takes the item of this id out, as `bpf_rbtree_remove` does, and answers it with the call's position in the
    /// history.
    ///
    /// `Err` changes nothing. It comes where the tree is out of memory, or where its history has 2^32 - 1 entries.
    pub fn remove(&mut self, tag: Tag, id: ObjId) -> Result<(u32, Item<T>), NoMemory>
        requires { IsSome (item_of self.old.items id) }
        ensures entry { IfOk result (λ answer.
            Records self.old.history self.new.history answer.0 tag (Remove id)) }
        ensures value { IfOk result (λ answer. item_of self.old.items id ≡ Some answer.1) }
        ensures items { IfOk result (λ answer. Removes self.old.items self.new.items answer.1) }
        ensures err { OnErr result (self.new ≡ self.old) }
    {
        // For the prover: no two rows have one place.
        let _len = self.rows.len();
        let position = next_position(&mut self.history)?;
        let Some(place) = self.index.place(id) else {
            unreachable!()
        };
        let Some((_, item)) = self.rows.take(place) else {
            unreachable!()
        };
        self.index.remove(id);
        append(&mut self.history, tag, PastCall::Remove(id));
        Ok((position, item))
    }

    /// The history: one entry for each call that was made, the first one first. Of every tree: its history, replayed from
    /// the empty tree on, has right replies and gives the ids and keys of its items, the keys ascend, and no two items have
    /// one id.
    pub fn history(&self) -> &[Past]
        ensures value { result.now ≡ self.now.history }
        ensures replays { replay tree_object self.now.history ≡ Some (nodes self.now.items) }
        ensures keys_ascend { KeysAscend self.now.items }
        ensures ids_differ { IdsDiffer self.now.items }
    {
        // For the prover: the keys of the rows ascend.
        let _len = self.rows.len();
        self.history.as_slice()
    }

    /// Lends the item of this id. None exactly where it isn't in the tree.
    pub fn item(&self, id: ObjId) -> Option<&Item<T>>
        ensures { option_copied result ≡ item_of self.now.items id }
    {
        // For the prover: no two rows have one place.
        let _len = self.rows.len();
        match self.index.place(id) {
            Some(place) => self.rows.at(place),
            None => None,
        }
    }

    /// Ends an empty tree, and gives its history.
    pub fn finish(self) -> Vec<Past>
        requires { self.items ≡ [] }
        ensures { result.items ≡ self.history }
    {
        let Tree {
            rows,
            index: _,
            history,
        } = self;
        rows.finish();
        history
    }

    /// Ends a tree, as after an out of memory, and spends each item that it holds, in their order.
    pub fn give_up<S: Spend<Item<T>>>(self, spender: &mut S)
        requires { CanSpendItems S.can_spend S.spends self.items spender.old }
        ensures { SpendsItems S.spends self.items spender.old spender.new }
    {
        let Tree {
            rows,
            index: _,
            history: _,
        } = self;
        rows.give_up(spender);
    }
}

impl<T: Drop> Tree<T> {
    /// Gives a tree's history, and ends the tree and the items that it holds.
    pub fn into_history(self) -> Vec<Past>
        ensures { result.items ≡ self.history }
    {
        let Tree {
            rows: _,
            index: _,
            history,
        } = self;
        history
    }
}
