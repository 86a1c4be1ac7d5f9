//! A list and a tree with two objects, call by call.

ghost use Rattle.std.specs.Prelude.{◌≡◌, ◌<◌, length};
ghost use Rattle.bm_grace.specs.Known.{Lives as LivesByNumber};
ghost use Rattle.bm_world.specs.Graphs.{AreBare};
ghost use Rattle.bm_law_order.specs.Graphs.{graph_at};
ghost use Rattle.std.specs.Prelude.{false, true};
ghost use Rattle.bm_tests_world.specs.Playing.{IsPlaying, IsReady, place_for};

use crate::living_tests::{fetch_one, fields, living_side, no_slots};
use bm_class::Class;
use bm_graph::{End, Way};
use bm_journal::{ObjId, Past, PastCall, Tag};
use bm_word::Name;
use bm_world::{Graphs, Lives, LivingSide, MapGraph, Pushed};
use std::process::Abort;

/// A list and a tree.
fn list_and_tree(rt: &(impl Abort + AllocGlobal)) -> Graphs
    ensures two { length result ≡ 2 }
    ensures list { (graph_at 0 result).is_tree ≡ false }
    ensures tree { (graph_at 1 result).is_tree ≡ true }
    ensures bare { AreBare result }
{
    let list = MapGraph::new(
        rt.alloc(),
        Name::new(b"l").expect(rt, "a word is a name"),
        false,
    );
    let tree = MapGraph::new(
        rt.alloc(),
        Name::new(b"t").expect(rt, "a word is a name"),
        true,
    );
    let mut graphs = Vec::with_capacity(rt.alloc(), 2).expect(rt, "memory");
    if let Err(_refused) = graphs.push(list) {
        panic!(rt; "memory");
    }
    if let Err(_refused) = graphs.push(tree) {
        panic!(rt; "memory");
    }
    Graphs::create(graphs)
}

/// One of two objects.
#[derive(Clone, Copy)]
enum Which {
    First,
    Second,
}

/// A call on the list or on the tree.
#[derive(Clone, Copy)]
enum Call {
    Push(Way, Which),
    Pop(End),
    /// The tree's first object is named, and then taken out by another call.
    Take,
}

/// What a call finds.
#[derive(Clone, Copy)]
enum Seen {
    Done,
    Refused(u8),
    Nothing,
    Object(Which),
}

/// A call of processor 0: its serial, its position in the history, and what it finds.
struct Case {
    serial: u32,
    call: Call,
    position: u32,
    seen: Seen,
}

/// The object that is meant.
fn pick(which: Which, first: ObjId, second: ObjId) -> ObjId
    ensures { (lives : LivesByNumber)
        → IsReady lives first → IsReady lives second → IsReady lives result }
{
    match which {
        Which::First => first,
        Which::Second => second,
    }
}

/// The place for a push, or for an addition.
fn place_for(way: Way) -> usize
    ensures { result ≡ place_for way }
{
    match way {
        Way::Front => 0,
        Way::Back => 0,
        Way::Ordered => 1,
    }
}

/// The tag of a call.
fn tag(serial: u32) -> Tag {
    Tag {
        processor: 0,
        serial,
    }
}

/// Whether this is what a push should answer.
fn is_pushed(pushed: Pushed, case: &Case) -> bool {
    match case.seen {
        Seen::Done => pushed == Pushed::Done(case.position),
        Seen::Refused(owner) => {
            pushed
                == Pushed::Already {
                    owner,
                    position: case.position,
                }
        }
        Seen::Nothing => false,
        Seen::Object(_) => false,
    }
}

/// Whether this is the object that a call should find.
fn is_found(found: Option<ObjId>, first: ObjId, second: ObjId, case: &Case) -> bool {
    match case.seen {
        Seen::Nothing => found == None,
        Seen::Object(which) => found == Some(pick(which, first, second)),
        Seen::Done => false,
        Seen::Refused(_) => false,
    }
}

/// One push or addition.
fn push_once(
    rt: &impl Abort,
    world: &mut LivingSide,
    first: ObjId,
    second: ObjId,
    way: Way,
    which: Which,
    case: &Case,
)
    requires { IsPlaying world.old first second }
    ensures { IsPlaying world.new first second }
{
    let object = pick(which, first, second);
    let pushed = world
        .push(place_for(way), way, object, tag(case.serial))
        .expect(rt, "memory");
    assert!(rt; is_pushed(pushed, case), "at {}", case.serial);
}

/// One pop.
fn pop_once(
    rt: &impl Abort,
    world: &mut LivingSide,
    first: ObjId,
    second: ObjId,
    end: End,
    case: &Case,
)
    requires { IsPlaying world.old first second }
    ensures { IsPlaying world.new first second }
{
    let (position, popped) = world.pop(0, end, tag(case.serial)).expect(rt, "memory");
    assert_eq!(rt; position, case.position);
    assert!(rt; is_found(popped, first, second, case), "at {}", case.serial);
}

/// The first object of the tree is named, and taken out if there is one.
fn take_once(rt: &impl Abort, world: &mut LivingSide, first: ObjId, second: ObjId, case: &Case)
    requires { IsPlaying world.old first second }
    ensures { IsPlaying world.new first second }
{
    let (position, found) = world.first(1, tag(case.serial)).expect(rt, "memory");
    assert_eq!(rt; position, case.position);
    assert!(rt; is_found(found, first, second, case), "at {}", case.serial);
    if let Some(object) = found {
        let next = world
            .remove(1, object, tag(case.serial))
            .expect(rt, "memory");
        assert!(rt; next > position);
    }
}

/// One call.
fn call_once(rt: &impl Abort, world: &mut LivingSide, first: ObjId, second: ObjId, case: &Case)
    requires { IsPlaying world.old first second }
    ensures { IsPlaying world.new first second }
{
    match case.call {
        Call::Push(way, which) => push_once(rt, world, first, second, way, which, case),
        Call::Pop(end) => pop_once(rt, world, first, second, end, case),
        Call::Take => take_once(rt, world, first, second, case),
    }
}

/// By hand: positions count the calls of each, refused ones too; the first object has the key 7, the second one 3.
const CASES: [Case; 13] = [
    Case {
        serial: 1,
        call: Call::Pop(End::Front),
        position: 0,
        seen: Seen::Nothing,
    },
    Case {
        serial: 2,
        call: Call::Push(Way::Front, Which::First),
        position: 1,
        seen: Seen::Done,
    },
    Case {
        serial: 3,
        call: Call::Push(Way::Front, Which::Second),
        position: 2,
        seen: Seen::Done,
    },
    Case {
        serial: 4,
        call: Call::Push(Way::Ordered, Which::First),
        position: 0,
        seen: Seen::Refused(0),
    },
    Case {
        serial: 5,
        call: Call::Pop(End::Back),
        position: 3,
        seen: Seen::Object(Which::First),
    },
    Case {
        serial: 6,
        call: Call::Push(Way::Back, Which::First),
        position: 4,
        seen: Seen::Done,
    },
    Case {
        serial: 7,
        call: Call::Pop(End::Front),
        position: 5,
        seen: Seen::Object(Which::Second),
    },
    Case {
        serial: 8,
        call: Call::Pop(End::Back),
        position: 6,
        seen: Seen::Object(Which::First),
    },
    Case {
        serial: 9,
        call: Call::Push(Way::Ordered, Which::First),
        position: 1,
        seen: Seen::Done,
    },
    Case {
        serial: 10,
        call: Call::Push(Way::Ordered, Which::Second),
        position: 2,
        seen: Seen::Done,
    },
    Case {
        serial: 11,
        call: Call::Push(Way::Back, Which::Second),
        position: 7,
        seen: Seen::Refused(1),
    },
    Case {
        serial: 12,
        call: Call::Take,
        position: 3,
        seen: Seen::Object(Which::Second),
    },
    Case {
        serial: 13,
        call: Call::Take,
        position: 5,
        seen: Seen::Object(Which::First),
    },
];

/// Whether a history has just these calls, in this order.
fn has_calls(history: &[Past], calls: &[PastCall]) -> bool {
    if history.len() != calls.len() {
        return false;
    }
    for i in 0..calls.len() {
        if history[i].call != calls[i] {
            return false;
        }
    }
    true
}

/// What the list's history has at the end.
fn has_list_history(calls: &[Past], first: ObjId, second: ObjId) -> bool {
    let expected = [
        PastCall::PopFrontNone,
        PastCall::PushFront(first),
        PastCall::PushFront(second),
        PastCall::PopBack(first),
        PastCall::PushBack(first),
        PastCall::PopFront(second),
        PastCall::PopBack(first),
        PastCall::PushBackAlready(second, 1),
    ];
    has_calls(calls, &expected)
}

/// What the tree's has.
fn has_tree_history(calls: &[Past], first: ObjId, second: ObjId) -> bool {
    let expected = [
        PastCall::AddAlready(first, 7, 0),
        PastCall::Add(first, 7),
        PastCall::Add(second, 3),
        PastCall::First(second),
        PastCall::Remove(second),
        PastCall::First(first),
        PastCall::Remove(first),
    ];
    has_calls(calls, &expected)
}

#[test]
fn two_objects_go_through_a_list_and_a_tree(rt: HostRuntime) {
    let class = Class::new(1).expect(&rt, "an index is a class");
    let mut world = living_side(&rt, no_slots(&rt), list_and_tree(&rt));
    let unit = fetch_one(&rt, &mut world, class);
    let first = world.begin_life(unit, 0, fields(&rt, &[7]));
    let other = fetch_one(&rt, &mut world, class);
    let second = world.begin_life(other, 0, fields(&rt, &[3]));
    for case in &CASES {
        call_once(&rt, &mut world, first, second, case);
    }
    let (side, slots, _asked, graphs) = world.into_parts();
    let histories = graphs.into_histories(rt.alloc()).expect(&rt, "memory");
    assert_eq!(rt; histories.len(), 2);
    assert!(rt; histories[0].name().as_bytes() == b"l".as_slice());
    assert!(rt; has_list_history(histories[0].as_slice(), first, second));
    assert!(rt; histories[1].name().as_bytes() == b"t".as_slice());
    assert!(rt; has_tree_history(histories[1].as_slice(), first, second));
    slots.give_up();
    let (post, _grace) = side.into_parts();
    post.give_up();
}
