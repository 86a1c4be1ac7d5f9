//! What a processor has.

ghost use Rattle.std.specs.Prelude.{◌≡◌};

use crate::kept::Kept;
use bm_cache::Caches;
use bm_due::Due;
use bm_exec::NameTable;
use bm_journal::Keep;
use bm_lang::MapId;
use bm_plan::Handlers;
use std::alloc::Global;

/// What a processor has in its turn: what it keeps between its turns (`Kept`), and its side of the world that processors share.
/// This project's own.
pub struct Processor<W> {
    pub alloc: Global,
    pub caches: Caches<Keep>,
    pub side: W,
    /// How many times it was asked for the work behind a statement or a script.
    pub settled: u32,
    /// How many calls of scripts its log has so far, of all levels together.
    pub calls: u32,
    /// Whether it is in a plain section.
    pub inside: bool,
    /// The list or tree whose lock it holds.
    pub locked: Option<MapId>,
    /// The handlers that haven't run.
    pub handlers: Handlers,
    /// The handlers that run, the innermost last. There is room for one of each level.
    pub running: Vec<Due>,
    /// The tables of names that no handler uses, one for each level at which none runs.
    pub tables: Vec<NameTable>,
}

impl<W> Processor<W> {
    /// A turn begins: the processor is given its side of the world.
    pub fn open(kept: Kept, side: W) -> Processor<W>
        ensures { result ≡ record {
          alloc = kept.alloc;
          caches = kept.caches;
          side = side;
          settled = kept.settled;
          calls = kept.calls;
          inside = kept.inside;
          locked = kept.locked;
          handlers = kept.handlers;
          running = kept.running;
          tables = kept.tables;
        } }
    {
        let Kept {
            alloc,
            caches,
            settled,
            calls,
            inside,
            locked,
            handlers,
            running,
            tables,
        } = kept;
        Processor {
            alloc,
            caches,
            side,
            settled,
            calls,
            inside,
            locked,
            handlers,
            running,
            tables,
        }
    }

    /// A turn ends: the processor keeps what is its own, and gives its side of the world back.
    pub fn close(self) -> (Kept, W)
        ensures kept { result.0 ≡ record {
          alloc = self.alloc;
          caches = self.caches;
          settled = self.settled;
          calls = self.calls;
          inside = self.inside;
          locked = self.locked;
          handlers = self.handlers;
          running = self.running;
          tables = self.tables;
        } }
        ensures side { result.1 ≡ self.side }
    {
        let Processor {
            alloc,
            caches,
            side,
            settled,
            calls,
            inside,
            locked,
            handlers,
            running,
            tables,
        } = self;
        (
            Kept {
                alloc,
                caches,
                settled,
                calls,
                inside,
                locked,
                handlers,
                running,
                tables,
            },
            side,
        )
    }
}
