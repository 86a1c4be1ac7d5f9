//! A shelf for one thread.

ghost use Rattle.std.specs.Prelude.{◌≡◌, ◌<◌, ◌≤◌, ◌+◌, ◌++◌, ◌∷◌, [], Some, length, vec_capacity, vec_len};
ghost use Rattle.std.specs.List.{SwappedAt};
ghost use Rattle.bm_graph.specs.Shelved.{kinds_of};

use crate::graph::Graph;
use crate::shelf::{Shelf, Visit};
use std::marker::Model;

/// A shelf for one thread. It tells what is on it, and has no locks.
#[derive(Drop)]
pub struct PlainShelf<T> {
    graphs: Vec<(Graph<T>, T)>,
}

impl<T> Model for PlainShelf<T> {
    ghost use Rattle.std.specs.Prelude.{List};
    ghost use Rattle.bm_graph.specs.declared.graph.Graph.{Graph};

    ghost Value = { List (Graph T × T) };

    ghost view = { λ shelf. shelf.graphs.items };
}

impl<T> PlainShelf<T> {
    /// A shelf of these graphs with their pages, by number.
    pub fn new(graphs: Vec<(Graph<T>, T)>) -> Self
        ensures { result ≡ graphs.items }
    {
        PlainShelf { graphs }
    }

    /// Gives back the graphs with their pages.
    pub fn finish(self) -> Vec<(Graph<T>, T)>
        ensures { result.items ≡ self }
    {
        let PlainShelf { graphs } = self;
        graphs
    }
}

impl<T> Shelf<T> for PlainShelf<T> {
    ghost kinds = { kinds_of };

    ghost shelved = { λ shelf. Some shelf };

    fn with<V: Visit<T>>(&mut self, graph: u8, visit: &mut V) {
        let place = graph as usize;
        let (mut lent, page) = self.graphs.swap_remove(place);
        let mut page = Some(page);
        visit.visit(&mut lent, &mut page);
        let Some(page) = page else {
            unreachable!();
        };
        put_back(&mut self.graphs, place, (lent, page));
    }
}

/// Puts an item into a place from which `swap_remove` took one.
fn put_back<P>(items: &mut Vec<P>, place: usize, item: P)
    requires place { place ≤ length items.old.items }
    requires room { vec_len items.old < vec_capacity items.old }
    ensures length { length items.new.items ≡ length items.old.items + 1 }
    ensures by_index { SwappedAt (items.old.items ++ item ∷ []) items.new.items place
        (length items.old.items) }
{
    let last = items.len();
    items.push_reserved(item);
    items.swap(place, last);
}
