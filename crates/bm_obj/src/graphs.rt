//! The graphs of a world.

ghost use Rattle.std.specs.Prelude.{◌≡◌, ◌<◌, IfOk, IfSome, None, length, replicate, slice_set};
ghost use Rattle.bm_obj.specs.Waits.{after_claim, ended, waiting_at};

use crate::waiting::{Waiting, waiting_after_claim, waiting_after_unclaim};
use bm_journal::ObjId;
use bm_word::NoMemory;
use std::alloc::Global;
use std::marker::Model;

/// By graph, the number of its type, and what waits for its history.
#[derive(Drop)]
pub struct Graphs {
    types: Vec<u8>,
    waits: Vec<Option<Waiting>>,
}

impl Model for Graphs {
    ghost use Rattle.std.specs.Prelude.{◌≡◌, length};
    ghost use Rattle.bm_obj.specs.GraphState.{GraphState};

    ghost Value = { GraphState };

    ghost view = { λ graphs. record { types = graphs.types.items; waits = graphs.waits.items } };

    ghost invariant = { λ graphs. length graphs.waits.items ≡ length graphs.types.items };
}

impl Graphs {
    /// Graphs of these types, for which nothing waits. Out of memory is the only error.
    pub(crate) fn create(alloc: Global, types: Vec<u8>) -> Result<Graphs, NoMemory>
        ensures { IfOk result (λ graphs. graphs ≡ record {
          types = types.items;
          waits = replicate (length types.items) None;
        }) }
    {
        let waits = nothing_waits(alloc, types.len())?;
        Ok(Graphs { types, waits })
    }

    /// A graph has won the claim of an object.
    pub(crate) fn claim(&mut self, graph: u8, id: ObjId)
        requires { graph < length self.old.types }
        ensures inside { graph < length self.old.waits }
        ensures waits { self.new ≡ record self.old {
          waits = slice_set self.old.waits graph (after_claim id (waiting_at self.old.waits graph));
        } }
    {
        let place = graph as usize;
        self.waits[place] = waiting_after_claim(self.waits[place], id);
    }

    /// The claim of an object was ended, by the graph that owned it, if one did.
    pub(crate) fn unclaim(&mut self, owner: Option<u8>, id: ObjId)
        requires { IfSome owner (λ graph. graph < length self.old.types) }
        ensures inside { IfSome owner (λ graph. graph < length self.old.waits) }
        ensures waits { self.new ≡ record self.old { waits = ended id owner self.old.waits } }
    {
        let Some(graph) = owner else {
            return;
        };
        let place = graph as usize;
        self.waits[place] = waiting_after_unclaim(self.waits[place], id);
    }

    /// A graph's history got an entry.
    pub(crate) fn enter(&mut self, graph: u8)
        requires { graph < length self.old.types }
        ensures inside { graph < length self.old.waits }
        ensures waits { self.new ≡ record self.old { waits = slice_set self.old.waits graph None } }
    {
        self.waits[graph as usize] = None;
    }
}

/// So many graphs for which nothing waits.
fn nothing_waits(alloc: Global, count: usize) -> Result<Vec<Option<Waiting>>, NoMemory>
    ensures { IfOk result (λ v. v.items ≡ replicate count None) }
{
    let mut waits = Vec::with_capacity(alloc, count)?;
    for _graph in 0..count {
        if let Err(_refused) = waits.push(None) {
            unreachable!();
        }
    }
    Ok(waits)
}
