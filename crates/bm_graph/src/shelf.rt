//! Shelves of graphs, and visits to them.

ghost use Rattle.std.specs.Prelude.{◌≡◌, ◌<◌, Bool, IfSome, IsSome, List, None, Option, Some, length};
ghost use Rattle.bm_graph.specs.Shelved.{IsFound, IsVisited, is_tree};

use crate::graph::Graph;

/// What is done on one graph, from its lock to its unlock.
pub trait Visit<T> {
    ghost use Rattle.bm_graph.specs.declared.graph.Graph.{Graph};

    /// It can be done on this graph, with this page.
    ghost may_visit: { Self → Graph T → T → Type 0 };

    /// What it leaves: of itself, of the graph, and of the page.
    ghost visits: { Self → Graph T → T → Self → Graph T → T → Type 0 };

    /// Does it. The page is Some before and after. A list stays a list, and a tree a tree.
    fn visit(&mut self, graph: &mut Graph<T>, page: &mut Option<T>)
        requires page { IsSome page.old }
        requires may { IfSome page.old (λ p. may_visit self.old graph.old p) }
        ensures page { IsSome page.new }
        ensures kind { is_tree graph.new ≡ is_tree graph.old }
        ensures visits { (p q : T) → page.old ≡ Some p → page.new ≡ Some q
            → visits self.old graph.old p self.new graph.new q };
}

/// Graphs by their numbers, each with its page and, where threads share them, with its lock. In the kernel a graph lies in a
/// map's value beside its `struct bpf_spin_lock`; pages, and graphs by number, are this project's own.
pub trait Shelf<T> {
    ghost use Rattle.bm_graph.specs.declared.graph.Graph.{Graph};

    /// Of each graph whether it is a tree; else it is a list.
    ghost kinds: { Self → List Bool };

    /// The graphs with their pages, where the shelf tells them.
    ghost shelved: { Self → Option (List (Graph T × T)) };

    /// Makes a visit once to the graph of this number, under its lock. The visit can be made on each graph that it may find there.
    /// It changes nothing else on the shelf.
    fn with<V: Visit<T>>(&mut self, graph: u8, visit: &mut V)
        requires graph { graph < length (kinds self.old) }
        requires may { (lent : Graph T) (page : T)
            → IsFound (kinds self.old) (shelved self.old) graph lent page
            → V.may_visit visit.old lent page }
        ensures kinds { kinds self.new ≡ kinds self.old }
        ensures visited { IsVisited V.visits visit.old visit.new (kinds self.old) graph
            (shelved self.old) (shelved self.new) };
}
