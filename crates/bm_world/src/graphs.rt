//! The lists and trees of a scenario's maps.

ghost use Rattle.std.specs.Prelude.{◌≡◌, ℕ, ◌<◌, ◌≤◌, [], false, length, map, true, IfOk, IfSome, OnErr, OnOk, None, Some};
ghost use Rattle.bm_graph.specs.Calls.{first_call};
ghost use Rattle.bm_graph.specs.Ways.{is_for_tree, pop_call, push_call, refused_push};
ghost use Rattle.bm_graph.specs.Refused.{is_addition, refused_call};
ghost use Rattle.bm_journal.specs.declared.ids.ObjId.{ObjId as ObjIdValue};
ghost use Rattle.bm_journal.specs.declared.past.PastCall.TheVariants as past;
ghost use Rattle.bm_graph.specs.declared.ways.End.TheVariants as end_;
ghost use Rattle.bm_graph.specs.declared.ways.Way.TheVariants as way;
ghost use Rattle.bm_law_order.specs.Graphs.{Calls, NamedGraph, effect_of, graph_at, graph_names_in, graphs_after, life_among, moved, shelf_of, standing_from};
ghost use Rattle.bm_world.specs.Contents.{are_apart};
ghost use Rattle.bm_world.specs.Graphs.{AreBare, Grows, HasMore, end_node, first_node, last_node, times_in};
ghost use Rattle.bm_world.specs.GraphItems.{ListGrows, TreeGrows, history_told, item_id};
ghost use Rattle.bm_world.specs.NamedGraphs.{list_nodes, named_graph};
ghost use Rattle.bm_graph.specs.Contents.{nodes};

use bm_graph::{End, Graph, GraphCall, Item, List, Tree, Way};
use bm_journal::{History, ObjId, Past, Tag};
use bm_word::{Name, NoMemory};
use std::alloc::Global;
use std::marker::Model;

/// A list or tree of a scenario, with its name. The references that it owns are those of the objects whose ids it has.
#[derive(Drop)]
pub struct MapGraph {
    pub name: Name,
    pub graph: Graph<()>,
}

impl MapGraph {
    /// An empty list, or an empty tree, of this name, with an empty history. It takes no memory.
    pub fn new(alloc: Global, name: Name, is_tree: bool) -> MapGraph
        ensures { named_graph result
            ≡ record { name = name; is_tree = is_tree; history = []; nodes = [] } }
    {
        let graph = if is_tree {
            Graph::Tree(Tree::new(alloc))
        } else {
            Graph::List(List::new(alloc))
        };
        MapGraph { name, graph }
    }
}

// An object as a list or tree holds it: its reference is counted elsewhere.
fn item(id: ObjId, key: u32) -> Item<()>
    ensures id { result.id ≡ id }
    ensures key { result.key ≡ key }
{
    Item {
        reference: (),
        id,
        key,
    }
}

// The object that was taken, if one was.
fn id_in(popped: Option<Item<()>>) -> Option<ObjId>
    ensures { result ≡ item_id popped }
{
    match popped {
        Some(item) => Some(item.id),
        None => None,
    }
}

// An object is put at the front of a list.
fn push_front(list: &mut List<()>, id: ObjId, tag: Tag) -> Result<u32, NoMemory>
    requires absent { life_among id.unit (list_nodes list.old.items) ≡ None }
    ensures grows { IfOk result
        (λ position. ListGrows list.old list.new position (past.PushFront id) tag) }
    ensures more { OnOk result
        (HasMore id (list_nodes list.old.items) (list_nodes list.new.items)) }
    ensures err { OnErr result (list.new ≡ list.old) }
{
    match list.push_front(tag, item(id, 0)) {
        Ok(position) => {
            // For the prover: the history has right replies.
            let _history = list.history();
            Ok(position)
        }
        Err(_item) => Err(NoMemory),
    }
}

// An object is put at the back of a list.
fn push_back(list: &mut List<()>, id: ObjId, tag: Tag) -> Result<u32, NoMemory>
    requires absent { life_among id.unit (list_nodes list.old.items) ≡ None }
    ensures grows { IfOk result
        (λ position. ListGrows list.old list.new position (past.PushBack id) tag) }
    ensures more { OnOk result
        (HasMore id (list_nodes list.old.items) (list_nodes list.new.items)) }
    ensures err { OnErr result (list.new ≡ list.old) }
{
    match list.push_back(tag, item(id, 0)) {
        Ok(position) => {
            // For the prover: the history has right replies.
            let _history = list.history();
            Ok(position)
        }
        Err(_item) => Err(NoMemory),
    }
}

// An object is added to a tree.
fn add(tree: &mut Tree<()>, id: ObjId, key: u32, tag: Tag) -> Result<u32, NoMemory>
    requires absent { life_among id.unit (nodes tree.old.items) ≡ None }
    ensures grows { IfOk result
        (λ position. TreeGrows tree.old tree.new position (past.Add id key) tag) }
    ensures more { OnOk result (HasMore id (nodes tree.old.items) (nodes tree.new.items)) }
    ensures err { OnErr result (tree.new ≡ tree.old) }
{
    // For the prover, here and below: the history has right replies, and gives the nodes.
    let _before = tree.history();
    match tree.add(tag, item(id, key)) {
        Ok(position) => {
            let _history = tree.history();
            Ok(position)
        }
        Err(_item) => Err(NoMemory),
    }
}

// How a refused push is named.
fn call_of(way: Way, key: u32) -> GraphCall
    ensures kind { is_addition result ≡ is_for_tree way }
    ensures named { (id : ObjIdValue) (owner : ℕ)
        → refused_call result id owner ≡ refused_push way id key owner }
{
    match way {
        Way::Front => GraphCall::PushFront,
        Way::Back => GraphCall::PushBack,
        Way::Ordered => GraphCall::Add(key),
    }
}

// A push onto a list is refused.
fn refuse_push(
    list: &mut List<()>,
    call: GraphCall,
    id: ObjId,
    owner: u8,
    tag: Tag,
) -> Result<u32, NoMemory>
    requires list { is_addition call ≡ false }
    ensures grows { IfOk result
        (λ position. ListGrows list.old list.new position (refused_call call id owner) tag) }
    ensures err { OnErr result (list.new ≡ list.old) }
{
    let position = list.already(tag, call, id, owner)?;
    // For the prover: the history has right replies.
    let _history = list.history();
    Ok(position)
}

// An addition to a tree is refused.
fn refuse_add(
    tree: &mut Tree<()>,
    call: GraphCall,
    id: ObjId,
    owner: u8,
    tag: Tag,
) -> Result<u32, NoMemory>
    requires tree { is_addition call ≡ true }
    ensures grows { IfOk result
        (λ position. TreeGrows tree.old tree.new position (refused_call call id owner) tag) }
    ensures err { OnErr result (tree.new ≡ tree.old) }
{
    let position = tree.already(tag, call, id, owner)?;
    // For the prover: the history has right replies.
    let _history = tree.history();
    Ok(position)
}

// The first object of a list is taken.
fn pop_front(list: &mut List<()>, tag: Tag) -> Result<(u32, Option<ObjId>), NoMemory>
    ensures grows { IfOk result
        (λ answer. ListGrows list.old list.new answer.0 (pop_call end_.Front answer.1) tag) }
    ensures item { IfOk result (λ answer. answer.1 ≡ first_node (list_nodes list.old.items)) }
    ensures less { IfOk result
        (λ answer. IfSome answer.1
        (λ id. HasMore id (list_nodes list.new.items) (list_nodes list.old.items))) }
    ensures err { OnErr result (list.new ≡ list.old) }
{
    let (position, popped) = list.pop_front(tag)?;
    // For the prover: the history has right replies.
    let _history = list.history();
    Ok((position, id_in(popped)))
}

// The last object of a list is taken.
fn pop_back(list: &mut List<()>, tag: Tag) -> Result<(u32, Option<ObjId>), NoMemory>
    ensures grows { IfOk result
        (λ answer. ListGrows list.old list.new answer.0 (pop_call end_.Back answer.1) tag) }
    ensures item { IfOk result (λ answer. answer.1 ≡ last_node (list_nodes list.old.items)) }
    ensures less { IfOk result
        (λ answer. IfSome answer.1
        (λ id. HasMore id (list_nodes list.new.items) (list_nodes list.old.items))) }
    ensures err { OnErr result (list.new ≡ list.old) }
{
    let (position, popped) = list.pop_back(tag)?;
    // For the prover: the history has right replies.
    let _history = list.history();
    Ok((position, id_in(popped)))
}

// The first object of a tree is named.
fn look_first(tree: &mut Tree<()>, tag: Tag) -> Result<(u32, Option<ObjId>), NoMemory>
    ensures grows { IfOk result
        (λ answer. TreeGrows tree.old tree.new answer.0 (first_call answer.1) tag) }
    ensures item { IfOk result (λ answer. answer.1 ≡ first_node (nodes tree.old.items)) }
    ensures err { OnErr result (tree.new ≡ tree.old) }
{
    let (position, first) = tree.first(tag)?;
    // For the prover: the history has right replies.
    let _history = tree.history();
    Ok((position, first))
}

// An object is taken out of a tree.
fn take_out(tree: &mut Tree<()>, id: ObjId, tag: Tag) -> Result<u32, NoMemory>
    requires there { life_among id.unit (nodes tree.old.items) ≡ Some id.life }
    ensures grows { IfOk result
        (λ position. TreeGrows tree.old tree.new position (past.Remove id) tag) }
    ensures less { OnOk result (HasMore id (nodes tree.new.items) (nodes tree.old.items)) }
    ensures err { OnErr result (tree.new ≡ tree.old) }
{
    // For the prover, here and below: the history has right replies, and gives the nodes.
    let _before = tree.history();
    let (position, _item) = tree.remove(tag, id)?;
    let _history = tree.history();
    Ok(position)
}

// An object is put into a list or tree.
fn put_in(graph: &mut MapGraph, way: Way, id: ObjId, key: u32, tag: Tag) -> Result<u32, NoMemory>
    requires kind { (named_graph graph.old).is_tree ≡ is_for_tree way }
    requires absent { life_among id.unit (named_graph graph.old).nodes ≡ None }
    ensures grows { IfOk result (λ position.
        Grows (named_graph graph.old) (named_graph graph.new) position (push_call way id key) tag) }
    ensures more { OnOk result
        (HasMore id (named_graph graph.old).nodes (named_graph graph.new).nodes) }
    ensures err { OnErr result (graph.new ≡ graph.old) }
{
    match &mut graph.graph {
        Graph::List(list) => match way {
            Way::Front => push_front(list, id, tag),
            Way::Back => push_back(list, id, tag),
            Way::Ordered => unreachable!(),
        },
        Graph::Tree(tree) => match way {
            Way::Ordered => add(tree, id, key, tag),
            Way::Front => unreachable!(),
            Way::Back => unreachable!(),
        },
    }
}

// A push or an addition is refused.
fn refuse_in(
    graph: &mut MapGraph,
    way: Way,
    id: ObjId,
    key: u32,
    owner: u8,
    tag: Tag,
) -> Result<u32, NoMemory>
    requires kind { (named_graph graph.old).is_tree ≡ is_for_tree way }
    ensures grows { IfOk result (λ position.
        Grows (named_graph graph.old) (named_graph graph.new) position
        (refused_push way id key owner) tag) }
    ensures err { OnErr result (graph.new ≡ graph.old) }
{
    let call = call_of(way, key);
    match &mut graph.graph {
        Graph::List(list) => refuse_push(list, call, id, owner, tag),
        Graph::Tree(tree) => refuse_add(tree, call, id, owner, tag),
    }
}

// An object is taken from an end of a list.
fn pop_from(graph: &mut MapGraph, end: End, tag: Tag) -> Result<(u32, Option<ObjId>), NoMemory>
    requires kind { (named_graph graph.old).is_tree ≡ false }
    ensures grows { IfOk result (λ answer.
        Grows (named_graph graph.old) (named_graph graph.new) answer.0 (pop_call end answer.1) tag) }
    ensures item { IfOk result (λ answer. answer.1 ≡ end_node end (named_graph graph.old).nodes) }
    ensures less { IfOk result
        (λ answer. IfSome answer.1
        (λ id. HasMore id (named_graph graph.new).nodes (named_graph graph.old).nodes)) }
    ensures err { OnErr result (graph.new ≡ graph.old) }
{
    match &mut graph.graph {
        Graph::List(list) => match end {
            End::Front => pop_front(list, tag),
            End::Back => pop_back(list, tag),
        },
        Graph::Tree(_) => unreachable!(),
    }
}

// The first object of a tree is named.
fn first_of(graph: &mut MapGraph, tag: Tag) -> Result<(u32, Option<ObjId>), NoMemory>
    requires kind { (named_graph graph.old).is_tree ≡ true }
    ensures grows { IfOk result (λ answer.
        Grows (named_graph graph.old) (named_graph graph.new) answer.0 (first_call answer.1) tag) }
    ensures item { IfOk result (λ answer. answer.1 ≡ first_node (named_graph graph.old).nodes) }
    ensures err { OnErr result (graph.new ≡ graph.old) }
{
    match &mut graph.graph {
        Graph::Tree(tree) => look_first(tree, tag),
        Graph::List(_) => unreachable!(),
    }
}

// An object is taken out of a tree.
fn remove_from(graph: &mut MapGraph, id: ObjId, tag: Tag) -> Result<u32, NoMemory>
    requires kind { (named_graph graph.old).is_tree ≡ true }
    requires there { life_among id.unit (named_graph graph.old).nodes ≡ Some id.life }
    ensures grows { IfOk result (λ position.
        Grows (named_graph graph.old) (named_graph graph.new) position (past.Remove id) tag) }
    ensures less { OnOk result
        (HasMore id (named_graph graph.new).nodes (named_graph graph.old).nodes) }
    ensures err { OnErr result (graph.new ≡ graph.old) }
{
    match &mut graph.graph {
        Graph::Tree(tree) => take_out(tree, id, tag),
        Graph::List(_) => unreachable!(),
    }
}

// The history of a list or tree, at its end.
fn history_of(graph: MapGraph) -> History
    ensures { result ≡ history_told (named_graph graph) }
{
    let MapGraph { name, graph } = graph;
    match graph {
        Graph::List(list) => History::new(name, list.into_history()),
        Graph::Tree(tree) => History::new(name, tree.into_history()),
    }
}

/// The lists and trees of a scenario, each at the place of its map, and an empty list at the place of a map that is a slot. No two have
/// one name, no object is in two of them or twice in one, and there are no more than a byte can number. This project's own.
#[derive(Drop)]
pub struct Graphs {
    graphs: Vec<MapGraph>,
}

impl Model for Graphs {
    ghost use Rattle.std.specs.Prelude.{List, map};
    ghost use Rattle.bm_law_order.specs.Graphs.{NamedGraph};
    ghost use Rattle.bm_world.specs.Graphs.{AreGraphs};
    ghost use Rattle.bm_world.specs.NamedGraphs.{named_graph};

    ghost Value = { List NamedGraph };

    ghost view = { λ graphs. map named_graph graphs.graphs.items };

    ghost invariant = { λ graphs. AreGraphs (map named_graph graphs.graphs.items) };
}

impl Graphs {
    /// These lists and trees, in which nothing is.
    pub fn create(graphs: Vec<MapGraph>) -> Graphs
        requires apart { are_apart (graph_names_in (map named_graph graphs.items)) ≡ true }
        requires few { length graphs.items ≤ 256 }
        requires bare { AreBare (map named_graph graphs.items) }
        ensures { result ≡ map named_graph graphs.items }
    {
        Graphs { graphs }
    }

    // No unit is in two of them, or twice in one.
    pub(crate) fn each_once(&self)
        ensures { (u : ℕ) → times_in u self.now ≤ 1 }
    {
        // For the prover: what the lists and trees keep.
        let _graphs = &self.graphs;
    }

    /// Puts an object that is in no list or tree into the one at a place, with its key: a list's objects have none. Answers the call's
    /// position in the history. From bpf_list_push_front_impl, bpf_list_push_back_impl and bpf_rbtree_add_impl of kernel/bpf/helpers.c.
    ///
    /// `Err` changes nothing. It comes where memory is out, or where the history has 2^32 - 1 entries; so it is of each call below.
    pub fn push(
        &mut self,
        place: usize,
        way: Way,
        id: ObjId,
        key: u32,
        tag: Tag,
    ) -> Result<u32, NoMemory>
        requires there { place < length self.old }
        requires kind { (graph_at place self.old).is_tree ≡ is_for_tree way }
        requires absent { standing_from 0 self.old id.unit ≡ None }
        ensures small { place < 256 }
        ensures at { IfOk result (λ position. position ≡ length (graph_at place self.old).history) }
        ensures graphs { OnOk result
            (self.new ≡ graphs_after place (push_call way id key) tag self.old) }
        ensures called { IfOk result (λ position.
            Calls (graph_names_in self.old) (graph_at place self.old).name position
            (push_call way id key) tag (shelf_of self.old) (shelf_of self.new)) }
        ensures moves { OnOk result
            (standing_from 0 self.new
            ≡ moved place (effect_of (push_call way id key)) (standing_from 0 self.old)) }
        ensures err { OnErr result (self.new ≡ self.old) }
    {
        let graph = &mut self.graphs[place];
        put_in(graph, way, id, key, tag)
    }

    /// Records that an object wasn't put into the list or tree at a place, since it is in the one whose place is `owner`. Answers the
    /// call's position in the history. The kernel answers -EINVAL there.
    pub fn refuse(
        &mut self,
        place: usize,
        way: Way,
        id: ObjId,
        key: u32,
        owner: u8,
        tag: Tag,
    ) -> Result<u32, NoMemory>
        requires there { place < length self.old }
        requires kind { (graph_at place self.old).is_tree ≡ is_for_tree way }
        requires stands { standing_from 0 self.old id.unit
            ≡ Some (record { life = id.life; place = owner }) }
        ensures at { IfOk result (λ position. position ≡ length (graph_at place self.old).history) }
        ensures graphs { OnOk result
            (self.new ≡ graphs_after place (refused_push way id key owner) tag self.old) }
        ensures called { IfOk result (λ position.
            Calls (graph_names_in self.old) (graph_at place self.old).name position
            (refused_push way id key owner) tag (shelf_of self.old) (shelf_of self.new)) }
        ensures moves { OnOk result
            (standing_from 0 self.new
            ≡ moved place (effect_of (refused_push way id key owner))
            (standing_from 0 self.old)) }
        ensures err { OnErr result (self.new ≡ self.old) }
    {
        let graph = &mut self.graphs[place];
        refuse_in(graph, way, id, key, owner, tag)
    }

    /// Takes the object at an end of the list at a place, and answers it with the call's position in the history; none exactly where the
    /// list is empty. From bpf_list_pop_front and bpf_list_pop_back of kernel/bpf/helpers.c.
    pub fn pop(
        &mut self,
        place: usize,
        end: End,
        tag: Tag,
    ) -> Result<(u32, Option<ObjId>), NoMemory>
        requires there { place < length self.old }
        requires kind { (graph_at place self.old).is_tree ≡ false }
        ensures at { IfOk result (λ answer. answer.0 ≡ length (graph_at place self.old).history) }
        ensures item { IfOk result
            (λ answer. answer.1 ≡ end_node end (graph_at place self.old).nodes) }
        ensures stood { IfOk result (λ answer. IfSome answer.1 (λ id.
            standing_from 0 self.old id.unit ≡ Some (record { life = id.life; place = place }))) }
        ensures graphs { IfOk result
            (λ answer. self.new ≡ graphs_after place (pop_call end answer.1) tag self.old) }
        ensures called { IfOk result (λ answer.
            Calls (graph_names_in self.old) (graph_at place self.old).name answer.0
            (pop_call end answer.1) tag (shelf_of self.old) (shelf_of self.new)) }
        ensures moves { IfOk result
            (λ answer. standing_from 0 self.new
            ≡ moved place (effect_of (pop_call end answer.1)) (standing_from 0 self.old)) }
        ensures err { OnErr result (self.new ≡ self.old) }
    {
        let graph = &mut self.graphs[place];
        pop_from(graph, end, tag)
    }

    /// Names the first object of the tree at a place, and answers it with the call's position in the history; none exactly where the tree
    /// is empty. The object stays. From bpf_rbtree_first of kernel/bpf/helpers.c.
    pub fn first(&mut self, place: usize, tag: Tag) -> Result<(u32, Option<ObjId>), NoMemory>
        requires there { place < length self.old }
        requires kind { (graph_at place self.old).is_tree ≡ true }
        ensures at { IfOk result (λ answer. answer.0 ≡ length (graph_at place self.old).history) }
        ensures item { IfOk result
            (λ answer. answer.1 ≡ first_node (graph_at place self.old).nodes) }
        ensures stood { IfOk result (λ answer. IfSome answer.1 (λ id.
            standing_from 0 self.old id.unit ≡ Some (record { life = id.life; place = place }))) }
        ensures graphs { IfOk result
            (λ answer. self.new ≡ graphs_after place (first_call answer.1) tag self.old) }
        ensures called { IfOk result (λ answer.
            Calls (graph_names_in self.old) (graph_at place self.old).name answer.0
            (first_call answer.1) tag (shelf_of self.old) (shelf_of self.new)) }
        ensures moves { IfOk result
            (λ answer. standing_from 0 self.new
            ≡ moved place (effect_of (first_call answer.1)) (standing_from 0 self.old)) }
        ensures err { OnErr result (self.new ≡ self.old) }
    {
        let graph = &mut self.graphs[place];
        first_of(graph, tag)
    }

    /// Takes an object out of the tree at a place, in which it is, and answers the call's position in the history. From
    /// bpf_rbtree_remove of kernel/bpf/helpers.c.
    pub fn remove(&mut self, place: usize, id: ObjId, tag: Tag) -> Result<u32, NoMemory>
        requires there { place < length self.old }
        requires kind { (graph_at place self.old).is_tree ≡ true }
        requires stands { standing_from 0 self.old id.unit
            ≡ Some (record { life = id.life; place = place }) }
        ensures at { IfOk result (λ position. position ≡ length (graph_at place self.old).history) }
        ensures graphs { OnOk result (self.new ≡ graphs_after place (past.Remove id) tag self.old) }
        ensures called { IfOk result (λ position.
            Calls (graph_names_in self.old) (graph_at place self.old).name position (past.Remove id)
            tag (shelf_of self.old) (shelf_of self.new)) }
        ensures moves { OnOk result
            (standing_from 0 self.new
            ≡ moved place (effect_of (past.Remove id)) (standing_from 0 self.old)) }
        ensures err { OnErr result (self.new ≡ self.old) }
    {
        let graph = &mut self.graphs[place];
        remove_from(graph, id, tag)
    }

    /// The histories of all, in the order of their places, each with its name: at the end, for the journal. Of a map that is a slot there is
    /// an empty one. Want of memory is the only refusal.
    pub fn into_histories(self, alloc: Global) -> Result<Vec<History>, NoMemory>
        ensures { IfOk result (λ histories. histories.items ≡ map history_told self) }
    {
        let Graphs { graphs } = self;
        let mut histories = Vec::new(alloc);
        for graph in graphs {
            histories.push(history_of(graph))?;
        }
        Ok(histories)
    }
}
