//! Lists with their histories.

ghost use Rattle.std.specs.Prelude.{◌≡◌, ◌++◌, ◌∷◌, [], length, OnOk, OnErr, IfOk, IfErr, Some, None, option_copied, false};
ghost use Rattle.bm_graph.specs.Contents.{ids, item_of, IdsDiffer};
ghost use Rattle.bm_graph.specs.Objects.{list_object};
ghost use Rattle.bm_graph.specs.Replay.{replay, Records};
ghost use Rattle.bm_graph.specs.Calls.{front_call, back_call, TakesFirst, TakesLast};
ghost use Rattle.bm_journal.specs.declared.past.PastCall.TheVariants.{PushFront, PushBack};
ghost use Rattle.bm_graph.specs.Refused.{refused_call, is_addition};
ghost use Rattle.bm_graph.specs.Spending.{CanSpendItems, SpendsItems};

use crate::call::{GraphCall, popped_back, popped_front, refused};
use crate::item::Item;
use crate::record::{append, next_position};
use bm_journal::{ObjId, Past, PastCall, Tag};
use bm_tree::Spend;
use bm_word::NoMemory;
use std::alloc::Global;
use std::collections::VecDeque;
use std::marker::Model;

/// A list that programs own objects through, with the history of its calls.
#[derive(Drop)]
pub struct List<T> {
    items: VecDeque<Item<T>>,
    history: Vec<Past>,
}

impl<T> Model for List<T> {
    ghost use Rattle.bm_graph.specs.Contents.{Contents};

    ghost Value = { Contents T };

    ghost use Rattle.bm_graph.specs.Sound.{IsSoundList};

    ghost view = { λ l. record { items = l.items.items; history = l.history.items } };

    ghost invariant = { λ l. IsSoundList l.items.items l.history.items };
}

impl<T> List<T> {
    /// An empty list, with an empty history. It takes no memory.
    pub fn new(alloc: Global) -> Self
        ensures items { result.items ≡ [] }
        ensures history { result.history ≡ [] }
    {
        List {
            items: VecDeque::new(alloc),
            history: Vec::new(alloc),
        }
    }

    /// Pushes an item at the front, as `bpf_list_push_front_impl` does, and answers the call's position in the history.
    ///
    /// `Err` hands the item back and changes nothing. It comes where the list is out of memory, or where its history has
    /// 2^32 - 1 entries.
    pub fn push_front(&mut self, tag: Tag, item: Item<T>) -> Result<u32, Item<T>>
        requires { item_of self.old.items item.id ≡ None }
        ensures entry { IfOk result (λ position.
            Records self.old.history self.new.history position tag (PushFront item.id)) }
        ensures items { OnOk result (self.new.items ≡ item ∷ self.old.items) }
        ensures err { OnErr result (self.new ≡ self.old) }
        ensures item_returned { IfErr result (λ back. back ≡ item) }
    {
        let Ok(position) = next_position(&mut self.history) else {
            return Err(item);
        };
        let id = item.id;
        match self.items.push_front(item) {
            Ok(()) => {
                append(&mut self.history, tag, PastCall::PushFront(id));
                Ok(position)
            }
            Err(refused) => Err(refused.value),
        }
    }

    /// Pushes an item at the back, as `bpf_list_push_back_impl` does, and answers the call's position in the history.
    ///
    /// `Err` hands the item back and changes nothing. It comes where the list is out of memory, or where its history has
    /// 2^32 - 1 entries.
    pub fn push_back(&mut self, tag: Tag, item: Item<T>) -> Result<u32, Item<T>>
        requires { item_of self.old.items item.id ≡ None }
        ensures entry { IfOk result (λ position.
            Records self.old.history self.new.history position tag (PushBack item.id)) }
        ensures items { OnOk result (self.new.items ≡ self.old.items ++ item ∷ []) }
        ensures err { OnErr result (self.new ≡ self.old) }
        ensures item_returned { IfErr result (λ back. back ≡ item) }
    {
        let Ok(position) = next_position(&mut self.history) else {
            return Err(item);
        };
        let id = item.id;
        match self.items.push_back(item) {
            Ok(()) => {
                append(&mut self.history, tag, PastCall::PushBack(id));
                Ok(position)
            }
            Err(refused) => Err(refused.value),
        }
    }

    /// Records a push that was refused, since the object `id` is in the list or tree of the number `owner` already, and
    /// answers its position in the history. The kernel answers -EINVAL there.
    ///
    /// `Err` changes nothing. It comes where the list is out of memory, or where its history has 2^32 - 1 entries.
    pub fn already(
        &mut self,
        tag: Tag,
        call: GraphCall,
        id: ObjId,
        owner: u8,
    ) -> Result<u32, NoMemory>
        requires { is_addition call ≡ false }
        ensures entry { IfOk result (λ position.
            Records self.old.history self.new.history position tag (refused_call call id owner)) }
        ensures items { self.new.items ≡ self.old.items }
        ensures err { OnErr result (self.new ≡ self.old) }
    {
        let position = next_position(&mut self.history)?;
        append(&mut self.history, tag, refused(call, id, owner));
        Ok(position)
    }

    /// Takes the first item, as `bpf_list_pop_front` does, and answers it with the call's position in the history. There
    /// is no item exactly where the list is empty, and the history says so.
    ///
    /// `Err` changes nothing. It comes where the list is out of memory, or where its history has 2^32 - 1 entries.
    pub fn pop_front(&mut self, tag: Tag) -> Result<(u32, Option<Item<T>>), NoMemory>
        ensures entry { IfOk result (λ answer.
            Records self.old.history self.new.history answer.0 tag (front_call answer.1)) }
        ensures items { IfOk result (λ answer. TakesFirst self.old.items self.new.items answer.1) }
        ensures err { OnErr result (self.new ≡ self.old) }
    {
        let position = next_position(&mut self.history)?;
        let popped = self.items.pop_front();
        append(&mut self.history, tag, popped_front(&popped));
        Ok((position, popped))
    }

    /// Takes the last item, as `bpf_list_pop_back` does, and answers it with the call's position in the history. There is
    /// no item exactly where the list is empty, and the history says so.
    ///
    /// `Err` changes nothing. It comes where the list is out of memory, or where its history has 2^32 - 1 entries.
    pub fn pop_back(&mut self, tag: Tag) -> Result<(u32, Option<Item<T>>), NoMemory>
        ensures entry { IfOk result (λ answer.
            Records self.old.history self.new.history answer.0 tag (back_call answer.1)) }
        ensures items { IfOk result (λ answer. TakesLast self.old.items self.new.items answer.1) }
        ensures err { OnErr result (self.new ≡ self.old) }
    {
        let position = next_position(&mut self.history)?;
        let popped = self.items.pop_back();
        append(&mut self.history, tag, popped_back(&popped));
        Ok((position, popped))
    }

    /// The history: one entry for each call that was made, the first one first. Of every list: its history, replayed from
    /// the empty list on, has right replies and gives the ids of its items, and no two items have one id.
    pub fn history(&self) -> &[Past]
        ensures value { result.now ≡ self.now.history }
        ensures replays { replay list_object self.now.history ≡ Some (ids self.now.items) }
        ensures ids_differ { IdsDiffer self.now.items }
    {
        self.history.as_slice()
    }

    /// Lends the item of this id. None exactly where it isn't in the list. It goes through the items.
    pub fn item(&self, id: ObjId) -> Option<&Item<T>>
        ensures { option_copied result ≡ item_of self.now.items id }
    {
        self.items.iter().find(|item| item.id == id)
    }

    /// Ends an empty list, and gives its history.
    pub fn finish(self) -> Vec<Past>
        requires { self.items ≡ [] }
        ensures { result.items ≡ self.history }
    {
        let List { items, history } = self;
        items.destroy_empty();
        history
    }

    /// Ends a list, as after an out of memory, and spends each item that it holds, in their order.
    pub fn give_up<S: Spend<Item<T>>>(self, spender: &mut S)
        requires { CanSpendItems S.can_spend S.spends self.items spender.old }
        ensures { SpendsItems S.spends self.items spender.old spender.new }
    {
        let List {
            mut items,
            history: _,
        } = self;
        while let Some(item) = items.pop_front() {
            spender.spend(item.key, item);
        }
        items.destroy_empty();
    }
}

impl<T: Drop> List<T> {
    /// Gives a list's history, and ends the list and the items that it holds.
    pub fn into_history(self) -> Vec<Past>
        ensures { result.items ≡ self.history }
    {
        let List { items: _, history } = self;
        history
    }
}
