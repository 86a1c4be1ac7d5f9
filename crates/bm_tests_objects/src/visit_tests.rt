//! One object's way into a list and out again: claimed and pushed in one visit, read and popped in another, each visit with the
//! graph's page at the side and its entry marked.

ghost use Rattle.std.specs.Prelude.{◌≡◌, ◌<◌, ◌∷◌, [], IfErr, IfSome, None, OnOk, Some, length};
ghost use Rattle.bm_graph.specs.Shelved.{is_tree};
ghost use Rattle.bm_obj.specs.declared.note.Note.TheVariants.{Page};
ghost use Rattle.bm_obj.specs.declared.object.UnitPlace.TheVariants.{Free};
ghost use Rattle.bm_tests_objects.specs.Visits.{IsShelf, MayLeave, first, first_item, in_hands, in_list, items_in, tag_of, world_with};

use crate::fixture::{call, last_unit, next_unit, one_page, one_shelf, one_world};
use bm_graph::{Graph, Item, List, PlainShelf, Shelf, Visit};
use bm_journal::{ObjId, Past, PastCall};
use bm_obj::{Carry, Claimed, Note, Objects, OneWorld, Ref};
use bm_page::Pool;
use std::mem;
use std::process::Abort;

/// The world that the tests begin with.
fn opened(rt: &(impl Abort + AllocGlobal)) -> OneWorld
    ensures { result ≡ world_with (Free 0) None None }
{
    one_world(rt)
}

/// Makes the object, with the value 7.
fn make_first(rt: &(impl Abort + AllocGlobal), pool: &mut Pool, world: &mut OneWorld) -> Ref
    requires { world.old ≡ world_with (Free 0) None None }
    ensures reference { result ≡ first }
    ensures state { world.new ≡ world_with in_hands None None }
{
    let unit = next_unit(rt, pool, 0);
    world.make(unit, 0, &[7])
}

/// Claims the object for the list and pushes it, by call 1. Where there is no memory the claim is ended, and the reference comes
/// back.
fn push_first(world: &mut OneWorld, list: &mut List<Note>, x: Ref) -> Result<u32, Ref>
    requires state { world.old ≡ world_with in_hands None None }
    requires items { list.old.items ≡ [] }
    requires reference { x ≡ first }
    ensures state { OnOk result (world.new ≡ world_with in_list None (Some (tag_of 1))) }
    ensures items { OnOk result (list.new.items ≡ first_item ∷ []) }
    ensures refused { IfErr result (λ _. world.new ≡ world_with in_hands None (Some (tag_of 1))) }
{
    let tag = call(1);
    let id = world.id(&x);
    world.mark(tag);
    let Claimed::Won = world.claim(&x, 0) else {
        unreachable!();
    };
    let item = Item {
        reference: world.put_in(x),
        id,
        key: 7,
    };
    match list.push_back(tag, item) {
        Ok(at) => {
            world.mark_past(0, at, &past(1, PastCall::PushBack(id)));
            Ok(at)
        }
        Err(item) => {
            let x = world.take_out(item.reference);
            world.unclaim(&x);
            Err(x)
        }
    }
}

/// Reads the object in the list, pops it and ends its claim, by call 2. The answer is the entry's position, the value that was
/// read, and the reference. Where there is no memory the object stays in the list.
fn pop_first(world: &mut OneWorld, list: &mut List<Note>) -> Option<(u32, u32, Ref)>
    requires state { world.old ≡ world_with in_list None (Some (tag_of 1)) }
    requires items { list.old.items ≡ first_item ∷ [] }
    ensures reference { IfSome result (λ popped. popped.2 ≡ first) }
    ensures state { IfSome result (λ _. world.new ≡ world_with in_hands None (Some (tag_of 2))) }
    ensures items { IfSome result (λ _. list.new.items ≡ []) }
    ensures refused { result ≡ None → world.new ≡ world_with in_list None (Some (tag_of 2)) }
{
    let tag = call(2);
    world.mark(tag);
    let value = match list.item(ObjId { unit: 0, life: 1 }) {
        Some(item) => world.get_in(&item.reference, 0),
        None => unreachable!(),
    };
    match list.pop_front(tag) {
        Ok((at, Some(item))) => {
            let x = world.take_out(item.reference);
            world.unclaim(&x);
            world.mark_past(0, at, &past(2, PastCall::PopFront(item.id)));
            Some((at, value, x))
        }
        Ok((_at, None)) => unreachable!(),
        Err(_refused) => None,
    }
}

/// Makes the call on a list. The reference stays where it isn't done.
fn push_on(world: &mut OneWorld, graph: &mut Graph<Note>, x: &mut Option<Ref>) -> Option<u32>
    requires state { world.old ≡ world_with in_hands None None }
    requires items { items_in graph.old ≡ Some [] }
    requires reference { x.old ≡ Some first }
    ensures kind { is_tree graph.new ≡ is_tree graph.old }
    ensures leaves { MayLeave world.new }
    ensures state { IfSome result (λ _. world.new ≡ world_with in_list None (Some (tag_of 1))) }
    ensures items { IfSome result (λ _. items_in graph.new ≡ Some (first_item ∷ [])) }
{
    let Graph::List(list) = graph else {
        unreachable!();
    };
    let Some(r) = x.take() else {
        unreachable!();
    };
    match push_first(world, list, r) {
        Ok(at) => Some(at),
        Err(back) => {
            keep(x, back);
            None
        }
    }
}

/// Makes the call on a list. The answer is the entry's position and the value that was read.
fn pop_on(world: &mut OneWorld, graph: &mut Graph<Note>, x: &mut Option<Ref>) -> Option<(u32, u32)>
    requires state { world.old ≡ world_with in_list None (Some (tag_of 1)) }
    requires items { items_in graph.old ≡ Some (first_item ∷ []) }
    requires reference { x.old ≡ None }
    ensures kind { is_tree graph.new ≡ is_tree graph.old }
    ensures leaves { MayLeave world.new }
    ensures reference { IfSome result (λ _. x.new ≡ Some first) }
    ensures state { IfSome result (λ _. world.new ≡ world_with in_hands None (Some (tag_of 2))) }
    ensures items { IfSome result (λ _. items_in graph.new ≡ Some []) }
{
    let Graph::List(list) = graph else {
        unreachable!();
    };
    let (at, value, r) = pop_first(world, list)?;
    keep(x, r);
    Some((at, value))
}

/// Keeps a reference where there is none.
fn keep(x: &mut Option<Ref>, r: Ref)
    requires { x.old ≡ None }
    ensures { x.new ≡ Some r }
{
    match mem::replace(x, Some(r)) {
        None => {}
        Some(_other) => unreachable!(),
    }
}

/// Takes the page of the graph to the side.
fn page_to(world: &mut OneWorld, page: &mut Option<Note>)
    requires page { page.old ≡ Some (Page 0) }
    requires graph { 0 < length world.old.graphs }
    ensures page { page.new ≡ None }
    ensures state { world.new ≡ world.old }
{
    let Some(note) = page.take() else {
        unreachable!();
    };
    world.page_in(note);
}

/// Gives out the page of the graph.
fn page_from(world: &mut OneWorld, page: &mut Option<Note>)
    requires leaves { MayLeave world.old }
    requires page { page.old ≡ None }
    ensures page { page.new ≡ Some (Page 0) }
    ensures state { world.new ≡ world.old }
{
    let note = world.page_out(0);
    match mem::replace(page, Some(note)) {
        None => {}
        Some(_other) => unreachable!(),
    }
}

/// Puts the object into a list.
struct PushVisit {
    world: OneWorld,
    x: Option<Ref>,
    at: Option<u32>,
}

impl Visit<Note> for PushVisit {
    ghost use Rattle.std.specs.Prelude.{◌≡◌, ◌∷◌, [], None, Some};
    ghost use Rattle.bm_tests_objects.specs.Visits.{Finds, LeavesBy, first, first_item, in_hands, in_list, tag_of, world_with};

    ghost may_visit = { λ v graph page.
        Finds (world_with in_hands None None) [] v.world graph page × (v.x ≡ Some first) };

    ghost visits = { λ _ _ _ v graph page.
        LeavesBy (world_with in_list None (Some (tag_of 1))) (first_item ∷ []) v.at v.world graph
        page };

    fn visit(&mut self, graph: &mut Graph<Note>, page: &mut Option<Note>) {
        page_to(&mut self.world, page);
        self.at = push_on(&mut self.world, graph, &mut self.x);
        page_from(&mut self.world, page);
    }
}

/// Takes the object out of a list.
struct PopVisit {
    world: OneWorld,
    x: Option<Ref>,
    popped: Option<(u32, u32)>,
}

impl Visit<Note> for PopVisit {
    ghost use Rattle.std.specs.Prelude.{◌≡◌, ◌∷◌, [], IfSome, None, Some};
    ghost use Rattle.bm_tests_objects.specs.Visits.{Finds, LeavesBy, first, first_item, in_hands, in_list, tag_of, world_with};

    ghost may_visit = { λ v graph page.
        Finds (world_with in_list None (Some (tag_of 1))) (first_item ∷ []) v.world graph page
        × (v.x ≡ None) };

    ghost visits = { λ _ _ _ v graph page.
        LeavesBy (world_with in_hands None (Some (tag_of 2))) [] v.popped v.world graph page
        × IfSome v.popped (λ _. v.x ≡ Some first) };

    fn visit(&mut self, graph: &mut Graph<Note>, page: &mut Option<Note>) {
        page_to(&mut self.world, page);
        self.popped = pop_on(&mut self.world, graph, &mut self.x);
        page_from(&mut self.world, page);
    }
}

/// Puts the object into the list on a shelf, by the first entry of the list's history.
fn push(
    rt: &(impl Abort + AllocGlobal),
    shelf: &mut PlainShelf<Note>,
    world: OneWorld,
    x: Ref,
) -> OneWorld
    requires shelf { IsShelf [] shelf.old }
    requires state { world ≡ world_with in_hands None None }
    requires reference { x ≡ first }
    ensures shelf { IsShelf (first_item ∷ []) shelf.new }
    ensures state { result ≡ world_with in_list None (Some (tag_of 1)) }
{
    let mut visit = PushVisit {
        world,
        x: Some(x),
        at: None,
    };
    shelf.with(0, &mut visit);
    let PushVisit { world, x, at } = visit;
    assert!(rt; at == Some(0));
    match x {
        None => {}
        Some(_x) => panic!(rt; "it was pushed"),
    }
    world
}

/// Takes the object out of the list on a shelf, by the second entry of the list's history. The value that is read before is 7.
fn pop(
    rt: &(impl Abort + AllocGlobal),
    shelf: &mut PlainShelf<Note>,
    world: OneWorld,
) -> (OneWorld, Ref)
    requires shelf { IsShelf (first_item ∷ []) shelf.old }
    requires state { world ≡ world_with in_list None (Some (tag_of 1)) }
    ensures shelf { IsShelf [] shelf.new }
    ensures state { result.0 ≡ world_with in_hands None (Some (tag_of 2)) }
    ensures reference { result.1 ≡ first }
{
    let mut visit = PopVisit {
        world,
        x: None,
        popped: None,
    };
    shelf.with(0, &mut visit);
    let PopVisit { world, x, popped } = visit;
    assert!(rt; popped == Some((1, 7)));
    match x {
        Some(x) => (world, x),
        None => panic!(rt; "it was popped"),
    }
}

/// Ends a shelf whose list is empty. The list's history has a push and a pop of the first life of unit 0, by calls 1 and 2. The
/// answer is the page.
fn end_shelf(rt: &(impl Abort + AllocGlobal), shelf: PlainShelf<Note>) -> Note
    requires { IsShelf [] shelf }
    ensures { result ≡ Page 0 }
{
    let mut graphs = shelf.finish();
    let Some((graph, page)) = graphs.pop() else {
        unreachable!();
    };
    graphs.destroy_empty();
    let Graph::List(list) = graph else {
        unreachable!();
    };
    let id = ObjId { unit: 0, life: 1 };
    let history = list.finish();
    assert_eq!(rt; history.len(), 2);
    assert!(rt; history[0] == past(1, PastCall::PushBack(id)));
    assert!(rt; history[1] == past(2, PastCall::PopFront(id)));
    page
}

/// What a call of processor 0 did.
fn past(serial: u32, what: PastCall) -> Past
    ensures { result ≡ record { tag = tag_of serial; call = what } }
{
    Past {
        tag: call(serial),
        call: what,
    }
}

#[test]
fn an_object_goes_into_a_list_and_out(rt: HostRuntime) {
    let mut pool = one_page(&rt);
    let mut world = opened(&rt);
    let x = make_first(&rt, &mut pool, &mut world);
    let page = world.page_out(0);
    let mut shelf = one_shelf(&rt, page);
    let world = push(&rt, &mut shelf, world, x);
    let (mut world, x) = pop(&rt, &mut shelf, world);
    let page = end_shelf(&rt, shelf);
    world.page_in(page);
    let ended = last_unit(&rt, world.release(x));
    assert_eq!(rt; (ended.number(), ended.life()), (0, 1));
    ended.give_up();
    world.finish();
    pool.give_up();
}
