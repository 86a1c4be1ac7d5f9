//! Lists and trees that end with items in them, as after an out of memory: each item is spent once, in their order. `rt try --test
//! --fail-alloc N` makes the Nth allocation fail, so that one of the calls is refused; the tests hold there too.

use bm_graph::{Graph, GraphCall, Item, List, Tree};
use bm_journal::{ObjId, PastCall, Tag};
use bm_tree::Spend;
use std::alloc::Global;
use std::process::Abort;

// A reference that cannot be dropped.
struct Reference(u32);

// Who drops references: how many, their numbers as the digits of one number, and how many pushes were refused.
#[derive(Drop)]
struct Dropper {
    dropped: u32,
    order: u64,
    refused: u32,
}

impl Spend<Item<Reference>> for Dropper {
    ghost can_spend = { λ _ _ _. Unit {0} };

    ghost spends = { λ _ _ _ _. Unit {0} };

    fn spend(&mut self, _key: u32, item: Item<Reference>) {
        let Item {
            reference: Reference(number),
            id: _,
            key: _,
        } = item;
        self.dropped = self.dropped.saturating_add(1);
        self.order = self.order.saturating_mul(10).saturating_add(number as u64);
    }
}

fn new_dropper() -> Dropper {
    Dropper {
        dropped: 0,
        order: 0,
        refused: 0,
    }
}

// A life of the one unit that all objects here lie in.
fn life(life: u32) -> ObjId {
    ObjId { unit: 9, life }
}

fn by(serial: u32) -> Tag {
    Tag {
        processor: 7,
        serial,
    }
}

fn item(number: u32, key: u32) -> Item<Reference> {
    Item {
        reference: Reference(number),
        id: life(number),
        key,
    }
}

// A push that was refused hands its item back.
fn note(dropper: &mut Dropper, answer: Result<u32, Item<Reference>>) {
    if let Err(refused) = answer {
        let Item {
            reference: Reference(_),
            id: _,
            key: _,
        } = refused;
        dropper.refused = dropper.refused.saturating_add(1);
    }
}

// A tree of these keys, whose objects are numbered from 1.
fn tree_of(
    rt: &impl Abort,
    alloc: Global,
    dropper: &mut Dropper,
    keys: &[u32],
) -> Graph<Reference> {
    let mut tree: Tree<Reference> = Tree::new(alloc);
    let mut number: u32 = 0;
    for key in keys {
        number = number.saturating_add(1);
        let added = item(number, *key);
        assert!(rt; tree.item(added.id).is_none());
        note(dropper, tree.add(by(number), added));
    }
    let recorded = tree.history().len();
    let already = tree.already(by(100), GraphCall::Add(4), life(1), 3);
    if already.is_ok() {
        assert_eq!(rt; tree.history().len(), recorded.saturating_add(1));
        let last = tree.history().last().map(|past| past.call);
        assert_eq!(rt; last, Some(PastCall::AddAlready(life(1), 4, 3)));
    }
    Graph::Tree(tree)
}

// A list of two objects.
fn list_of(rt: &impl Abort, alloc: Global, dropper: &mut Dropper) -> Graph<Reference> {
    let mut list: List<Reference> = List::new(alloc);
    let first = item(1, 0);
    assert!(rt; list.item(first.id).is_none());
    note(dropper, list.push_back(by(1), first));
    let second = item(2, 0);
    assert!(rt; list.item(second.id).is_none());
    note(dropper, list.push_front(by(2), second));
    Graph::List(list)
}

// Ends a list or tree with all that is in it.
fn give_up(graph: Graph<Reference>, dropper: &mut Dropper) {
    match graph {
        Graph::List(list) => list.give_up(dropper),
        Graph::Tree(tree) => tree.give_up(dropper),
    }
}

#[test]
fn each_item_of_a_tree_is_spent_in_their_order(rt: HostRuntime) {
    let mut dropper = new_dropper();
    let tree = tree_of(&rt, rt.alloc(), &mut dropper, &[5, 1, 5, 0]);
    give_up(tree, &mut dropper);
    assert_eq!(rt; dropper.dropped.saturating_add(dropper.refused), 4);
    assert!(rt; dropper.refused > 0 || dropper.order == 4213);
}

#[test]
fn each_item_of_a_list_is_spent_in_their_order(rt: HostRuntime) {
    let mut dropper = new_dropper();
    let list = list_of(&rt, rt.alloc(), &mut dropper);
    give_up(list, &mut dropper);
    assert_eq!(rt; dropper.dropped.saturating_add(dropper.refused), 2);
    assert!(rt; dropper.refused > 0 || dropper.order == 21);
}
