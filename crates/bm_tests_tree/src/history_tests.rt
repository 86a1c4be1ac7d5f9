//! Lists and trees with their histories: a tree of keys 5, 5 and 3, and a list that both ends are pushed and popped of. Each
//! history is a table. Each call is made as its entry says, and has to answer what the entry says, with the entry's place; and the
//! whole history has to be the table.

use bm_graph::{GraphCall, Item, List, Tree};
use bm_journal::{ObjId, Past, PastCall, Tag};
use bm_word::NoMemory;
use std::process::Abort;

// A reference to an object, which has to be spent.
struct Reference(u16);

// The first life of a unit.
fn object(unit: u16) -> ObjId {
    ObjId { unit, life: 1 }
}

// An entry of a call of processor 0.
fn entry(serial: u32, call: PastCall) -> Past {
    Past {
        tag: Tag {
            processor: 0,
            serial,
        },
        call,
    }
}

fn item(id: ObjId, key: u32) -> Item<Reference> {
    Item {
        reference: Reference(id.unit),
        id,
        key,
    }
}

// Spends an item that was taken, where this object has to be taken.
fn spend(rt: &impl Abort, item: Item<Reference>, wanted: Option<ObjId>) {
    let Item {
        reference: Reference(spent),
        id,
        key: _,
    } = item;
    assert_eq!(rt; spent, id.unit);
    assert_eq!(rt; Some(id), wanted);
}

// The position of a push or an addition, which has memory.
fn position_of(rt: &impl Abort, answer: Result<u32, Item<Reference>>) -> u32 {
    match answer {
        Ok(position) => position,
        Err(refused) => {
            let Item {
                reference: Reference(_),
                id: _,
                key: _,
            } = refused;
            panic!(rt; "there is memory")
        }
    }
}

// The position of a pop, which has memory, and has to take this object or find nothing.
fn popped(
    rt: &impl Abort,
    answer: Result<(u32, Option<Item<Reference>>), NoMemory>,
    wanted: Option<ObjId>,
) -> u32 {
    let (position, taken) = answer.expect(rt, "there is memory");
    match taken {
        Some(item) => spend(rt, item, wanted),
        None => assert!(rt; wanted.is_none()),
    }
    position
}

// Makes a call on a tree, as its entry says.
fn call_tree(rt: &impl Abort, tree: &mut Tree<Reference>, entry: Past) -> u32 {
    let Past { tag, call } = entry;
    match call {
        PastCall::Add(id, key) => {
            let added = item(id, key);
            assert!(rt; tree.item(added.id).is_none());
            let position = position_of(rt, tree.add(tag, added));
            assert!(rt; tree.item(id).is_some());
            position
        }
        PastCall::First(id) => {
            let (position, first) = tree.first(tag).expect(rt, "there is memory");
            assert_eq!(rt; first, Some(id));
            position
        }
        PastCall::Remove(id) => {
            assert!(rt; tree.item(id).is_some());
            let (position, taken) = tree.remove(tag, id).expect(rt, "there is memory");
            spend(rt, taken, Some(id));
            assert!(rt; tree.item(id).is_none());
            position
        }
        _ => panic!(rt; "it is in the table"),
    }
}

// Makes a call on a list, as its entry says.
fn call_list(rt: &impl Abort, list: &mut List<Reference>, entry: Past) -> u32 {
    let Past { tag, call } = entry;
    match call {
        PastCall::PushFront(id) => {
            let pushed = item(id, 0);
            assert!(rt; list.item(pushed.id).is_none());
            let position = position_of(rt, list.push_front(tag, pushed));
            assert!(rt; list.item(id).is_some());
            position
        }
        PastCall::PushBack(id) => {
            let pushed = item(id, 0);
            assert!(rt; list.item(pushed.id).is_none());
            let position = position_of(rt, list.push_back(tag, pushed));
            assert!(rt; list.item(id).is_some());
            position
        }
        PastCall::PushFrontAlready(id, owner) => list
            .already(tag, GraphCall::PushFront, id, owner)
            .expect(rt, "there is memory"),
        PastCall::PushBackAlready(id, owner) => list
            .already(tag, GraphCall::PushBack, id, owner)
            .expect(rt, "there is memory"),
        PastCall::PopFront(id) => popped(rt, list.pop_front(tag), Some(id)),
        PastCall::PopBack(id) => popped(rt, list.pop_back(tag), Some(id)),
        PastCall::PopBackNone => popped(rt, list.pop_back(tag), None),
        _ => panic!(rt; "it is in the table"),
    }
}

#[test]
fn equal_keys_are_taken_in_the_order_of_their_additions(rt: HostRuntime) {
    let entries = [
        entry(5, PastCall::Add(object(3), 5)),
        entry(6, PastCall::Add(object(2), 5)),
        entry(7, PastCall::Add(object(1), 3)),
        entry(8, PastCall::First(object(1))),
        entry(9, PastCall::Remove(object(1))),
        entry(11, PastCall::First(object(3))),
        entry(12, PastCall::Remove(object(3))),
        entry(14, PastCall::First(object(2))),
        entry(15, PastCall::Remove(object(2))),
        entry(17, PastCall::FirstNone),
    ];
    let mut tree: Tree<Reference> = Tree::new(rt.alloc());
    for (place, entry) in entries[..9].iter().enumerate() {
        assert_eq!(rt;
            call_tree(&rt, &mut tree, *entry) as usize,
            place,
            "at {place}"
        );
    }
    end_tree(&rt, tree, &entries);
}

// Looks for a first node where there is none, by the last entry, and ends the tree.
fn end_tree(rt: &impl Abort, tree: Tree<Reference>, entries: &[Past; 10]) {
    let mut tree = tree;
    let (position, first) = tree.first(entries[9].tag).expect(rt, "there is memory");
    assert_eq!(rt; position, 9);
    assert!(rt; first.is_none());
    let history = tree.finish();
    assert!(rt; history.as_slice() == entries.as_slice());
}

#[test]
fn both_ends_of_a_list_are_pushed_and_popped(rt: HostRuntime) {
    let entries = [
        entry(1, PastCall::PushBack(object(1))),
        entry(2, PastCall::PushBack(object(2))),
        entry(3, PastCall::PushFront(object(3))),
        entry(4, PastCall::PushBackAlready(object(1), 7)),
        entry(6, PastCall::PushFrontAlready(object(4), 8)),
        entry(8, PastCall::PopBack(object(2))),
        entry(9, PastCall::PopFront(object(3))),
        entry(10, PastCall::PopFront(object(1))),
        entry(11, PastCall::PopBackNone),
        entry(12, PastCall::PopFrontNone),
    ];
    let mut list: List<Reference> = List::new(rt.alloc());
    for (place, entry) in entries[..9].iter().enumerate() {
        assert_eq!(rt;
            call_list(&rt, &mut list, *entry) as usize,
            place,
            "at {place}"
        );
    }
    end_list(&rt, list, &entries);
}

// Pops an empty list, by the last entry, and ends it.
fn end_list(rt: &impl Abort, list: List<Reference>, entries: &[Past; 10]) {
    let mut list = list;
    let history = match list.pop_front(entries[9].tag) {
        Ok((position, None)) => {
            assert_eq!(rt; position, 9);
            list.finish()
        }
        Ok((_, Some(taken))) => {
            spend(rt, taken, None);
            panic!(rt; "the list is empty")
        }
        Err(NoMemory) => panic!(rt; "there is memory"),
    };
    assert!(rt; history.as_slice() == entries.as_slice());
}
