//! A world and units for tests.

ghost use Rattle.std.specs.Prelude.{◌≡◌, ◌^◌, ◌∷◌, [], None, length, replicate, true};
ghost use Rattle.bm_graph.specs.declared.graph.Graph.TheVariants.{List as GraphList};
ghost use Rattle.bm_obj.specs.WorldState.{opening_word};
ghost use Rattle.bm_obj.specs.declared.object.UnitPlace.TheVariants.{Free};
ghost use Rattle.bm_obj.specs.declared.type_def.Node.TheVariants.{List as ListNode};

use bm_class::Class;
use bm_graph::{Graph, List, PlainShelf};
use bm_journal::Tag;
use bm_obj::{Node, Note, OneWorld, Released, TypeDef};
use bm_page::{Pool, Unit};
use std::process::Abort;

/// A type with one field, a count and a node of a list: 40 bytes, of the class of 64 bytes.
const ITEM: TypeDef = TypeDef {
    fields: 1,
    counted: true,
    node: Node::List,
    pad: 0,
};

/// One value.
fn one_of<T>(rt: &(impl Abort + AllocGlobal), item: T) -> Vec<T>
    ensures { result.items ≡ item ∷ [] }
{
    let mut items = Vec::with_capacity(rt.alloc(), 1).expect(rt, "memory");
    if let Err(_refused) = items.push(item) {
        panic!(rt; "memory");
    }
    items
}

/// A world of one page, with a slot and a graph of the one type.
pub(crate) fn one_world(rt: &(impl Abort + AllocGlobal)) -> OneWorld
    ensures { result ≡ record {
      places = replicate 256 (Free 0);
      words = opening_word ∷ [];
      slots = 0 ∷ [];
      graphs = 0 ∷ [];
      defs = record { fields = 1; counted = true; node = ListNode; pad = 0 } ∷ [];
      processor = 0;
      acquires = 2 ^ 30;
      waits = None ∷ [];
      last = None;
    } }
{
    let slots = one_of(rt, 0);
    let graphs = one_of(rt, 0);
    let defs = one_of(rt, ITEM);
    OneWorld::create(rt.alloc(), 1, slots, graphs, defs).expect(rt, "there is memory for a page")
}

/// A pool of one page.
pub(crate) fn one_page(rt: &(impl Abort + AllocGlobal)) -> Pool {
    Pool::create(rt.alloc(), 1).expect(rt, "memory")
}

/// The next unit of the class of 64 bytes, which has this number and never lived. Its home is processor 0.
pub(crate) fn next_unit(rt: &(impl Abort + AllocGlobal), pool: &mut Pool, number: u16) -> Unit
    ensures number { result.number ≡ number }
    ensures class { result.class ≡ 2 }
    ensures home { result.home ≡ 0 }
    ensures life { result.life ≡ 0 }
{
    let class = Class::new(2).expect(rt, "an index is a class");
    let mut units = Vec::new(rt.alloc());
    let count = pool.fetch(class, 1, &mut units).expect(rt, "memory");
    assert!(rt; count == 1);
    let mut unit = units.pop().expect(rt, "a unit");
    assert!(rt; units.is_empty());
    units.destroy_empty();
    unit.set_home(0);
    assert!(rt; unit.number() == number);
    assert!(rt; unit.class().index() == 2);
    assert!(rt; unit.life() == 0);
    unit
}

/// A shelf of one empty list, with this page.
pub(crate) fn one_shelf(rt: &(impl Abort + AllocGlobal), page: Note) -> PlainShelf<Note>
    ensures length { length result ≡ 1 }
    ensures shelf { result ≡ (GraphList (record { items = []; history = [] }), page) ∷ [] }
{
    PlainShelf::new(one_of(rt, (Graph::List(List::new(rt.alloc())), page)))
}

/// A call of processor 0.
pub(crate) fn call(serial: u32) -> Tag
    ensures { result ≡ record { processor = 0; serial = serial } }
{
    Tag {
        processor: 0,
        serial,
    }
}

/// The unit of the last release.
pub(crate) fn last_unit(rt: &(impl Abort + AllocGlobal), released: Released) -> Unit {
    match released {
        Released::Last(unit) => unit,
        Released::Still(_count) => panic!(rt; "there was another reference"),
    }
}
