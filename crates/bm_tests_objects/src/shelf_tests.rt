//! One object goes into a list on a shelf and out again, in a note; and a push is refused.

ghost use Rattle.std.specs.Prelude.{◌≡◌, None, Some, length, ◌<◌};
ghost use Rattle.bm_journal.specs.declared.past.PastCall.TheVariants.{PopFront, PushBack, PushBackAlready};

use crate::fixture::{call, next_unit, one_page, one_shelf, one_world};
use bm_graph::{Graph, GraphCall, Item, PlainShelf, Shelf, Visit};
use bm_journal::{ObjId, Past, PastCall, Tag};
use bm_obj::{Carry, Note, Objects};
use std::mem;
use std::process::Abort;

/// Pushes an item at the back of a list that doesn't have it.
struct PushCall {
    tag: Tag,
    item: Option<Item<Note>>,
    at: Option<u32>,
}

impl Visit<Note> for PushCall {
    ghost may_visit = { λ _ _ _. Unit {0} };

    ghost visits = { λ _ _ _ _ _ _. Unit {0} };

    fn visit(&mut self, graph: &mut Graph<Note>, _page: &mut Option<Note>) {
        let Graph::List(list) = graph else {
            return;
        };
        let Some(item) = self.item.take() else {
            return;
        };
        let left = if list.item(item.id).is_some() {
            Some(item)
        } else {
            match list.push_back(self.tag, item) {
                Ok(at) => {
                    self.at = Some(at);
                    None
                }
                Err(item) => Some(item),
            }
        };
        match mem::replace(&mut self.item, left) {
            None => {}
            Some(_item) => unreachable!(),
        }
    }
}

/// Records the refused push of an object.
struct RefuseCall {
    tag: Tag,
    id: ObjId,
    at: Option<u32>,
}

impl Visit<Note> for RefuseCall {
    ghost may_visit = { λ _ _ _. Unit {0} };

    ghost visits = { λ _ _ _ _ _ _. Unit {0} };

    fn visit(&mut self, graph: &mut Graph<Note>, _page: &mut Option<Note>) {
        if let Graph::List(list) = graph {
            self.at = list.already(self.tag, GraphCall::PushBack, self.id, 0).ok();
        }
    }
}

/// Pops the first item of a list.
struct PopCall {
    tag: Tag,
    popped: Option<Item<Note>>,
    at: Option<u32>,
}

impl Visit<Note> for PopCall {
    ghost use Rattle.std.specs.Prelude.{◌≡◌, None};

    ghost may_visit = { λ v _ _. v.popped ≡ None };

    ghost visits = { λ _ _ _ _ _ _. Unit {0} };

    fn visit(&mut self, graph: &mut Graph<Note>, _page: &mut Option<Note>) {
        let Graph::List(list) = graph else {
            return;
        };
        let Ok((at, popped)) = list.pop_front(self.tag) else {
            return;
        };
        self.at = Some(at);
        match mem::replace(&mut self.popped, popped) {
            None => {}
            Some(_item) => unreachable!(),
        }
    }
}

/// Pushes a note onto the list, at this position.
fn push(
    rt: &(impl Abort + AllocGlobal),
    shelf: &mut PlainShelf<Note>,
    tag: Tag,
    note: Note,
    id: ObjId,
    position: u32,
) -> Past
    requires { 0 < length shelf.old }
    ensures length { length shelf.new ≡ length shelf.old }
    ensures past { result ≡ record { tag = tag; call = PushBack id } }
{
    let item = Item {
        reference: note,
        id,
        key: 7,
    };
    let mut visit = PushCall {
        tag,
        item: Some(item),
        at: None,
    };
    shelf.with(0, &mut visit);
    let PushCall { tag: _, item, at } = visit;
    match item {
        None => {}
        Some(_item) => panic!(rt; "it was pushed"),
    }
    assert!(rt; at == Some(position));
    Past {
        tag,
        call: PastCall::PushBack(id),
    }
}

/// Records a push that was refused, at this position.
fn refuse(
    rt: &(impl Abort + AllocGlobal),
    shelf: &mut PlainShelf<Note>,
    tag: Tag,
    id: ObjId,
    position: u32,
) -> Past
    requires { 0 < length shelf.old }
    ensures length { length shelf.new ≡ length shelf.old }
    ensures past { result ≡ record { tag = tag; call = PushBackAlready id 0 } }
{
    let mut visit = RefuseCall { tag, id, at: None };
    shelf.with(0, &mut visit);
    let RefuseCall { tag: _, id: _, at } = visit;
    assert!(rt; at == Some(position));
    Past {
        tag,
        call: PastCall::PushBackAlready(id, 0),
    }
}

/// Pops the note of an object, at this position.
fn pop(
    rt: &(impl Abort + AllocGlobal),
    shelf: &mut PlainShelf<Note>,
    tag: Tag,
    id: ObjId,
    position: u32,
) -> (Note, Past)
    requires { 0 < length shelf.old }
    ensures length { length shelf.new ≡ length shelf.old }
    ensures past { result.1 ≡ record { tag = tag; call = PopFront id } }
{
    let mut visit = PopCall {
        tag,
        popped: None,
        at: None,
    };
    shelf.with(0, &mut visit);
    let PopCall { tag: _, popped, at } = visit;
    assert!(rt; at == Some(position));
    match popped {
        Some(item) => {
            let Item {
                reference,
                id: popped,
                key: _,
            } = item;
            assert!(rt; popped == id);
            let past = Past {
                tag,
                call: PastCall::PopFront(id),
            };
            (reference, past)
        }
        None => panic!(rt; "there was an item"),
    }
}

/// Ends a shelf whose list is empty and has a history of so many entries.
fn end_shelf(rt: &(impl Abort + AllocGlobal), shelf: PlainShelf<Note>, entries: usize) {
    let mut graphs = shelf.finish();
    let (graph, page) = graphs.pop().expect(rt, "a graph");
    assert!(rt; graphs.is_empty());
    graphs.destroy_empty();
    page.give_up();
    let Graph::List(mut list) = graph else {
        panic!(rt; "it was a list");
    };
    assert!(rt; list.history().len() == entries);
    match list.pop_front(call(9)) {
        Ok((_at, None)) => {
            let _history = list.finish();
        }
        Ok((_at, Some(_item))) => panic!(rt; "it is empty"),
        Err(_refused) => panic!(rt; "memory"),
    }
}

/// The note carries the first life of unit 0, of type 0, without a claim.
fn is_first_life(note: &Note) -> bool {
    match note {
        Note::Item(r, claim) => {
            r.id() == ObjId { unit: 0, life: 1 } && r.def() == 0 && claim.is_none()
        }
        Note::Page(_graph) => false,
    }
}

#[test]
fn a_note_goes_through_a_shelf(rt: HostRuntime) {
    let mut pool = one_page(&rt);
    let mut world = one_world(&rt);
    let unit = next_unit(&rt, &mut pool, 0);
    let x = world.make(unit, 0, &[7]);
    let id = world.id(&x);
    let mut shelf = one_shelf(&rt, Note::Page(0));
    let note = world.put_in(x);
    let _pushed = push(&rt, &mut shelf, call(1), note, id, 0);
    let _refused = refuse(&rt, &mut shelf, call(2), id, 1);
    let (note, _popped) = pop(&rt, &mut shelf, call(3), id, 2);
    assert!(rt; is_first_life(&note));
    note.give_up();
    end_shelf(&rt, shelf, 3);
    world.give_up();
    pool.give_up();
}
