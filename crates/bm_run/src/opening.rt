//! The opening of processors.

ghost use Rattle.std.specs.Prelude.{◌≡◌, ◌<◌, ◌≤◌, [], ℕ, IfOk, None, length, map, true};
ghost use Rattle.bm_lang.specs.declared.scenario.MapDeclaration.{MapDeclaration as MapValue};
ghost use Rattle.bm_lang.specs.Fine.{HasConditions};
ghost use Rattle.bm_lang.specs.Limits.{first_limit};
ghost use Rattle.bm_law_scenario.specs.Fills.{fresh_stock};
ghost use Rattle.bm_exec_levels.specs.AtTie.{TiedAt};
ghost use Rattle.bm_exec_levels.specs.Ready.{IsProgram};
ghost use Rattle.bm_run.specs.Filling.{IsUnborn, filling, units_in};
ghost use Rattle.bm_run.specs.Opened.{IsOpen, ascends, empty_graphs, empty_slots, fresh_side, is_tree_kind, outset};
ghost use Rattle.bm_run.specs.Openings.{AreFilled, AreNew, AreOpen, IsFilled};
ghost use Rattle.bm_world.specs.Contents.{are_apart};
ghost use Rattle.bm_world.specs.Graphs.{AreBare};
ghost use Rattle.bm_world.specs.LivingState.{begun_at};
ghost use Rattle.bm_world.specs.Slots.{AllEmpty};
ghost use Rattle.bm_world.specs.Standings.{standing_at};
ghost use Rattle.bm_world.specs.ToldLiving.{knows_living};
ghost use Rattle.bm_world.specs.declared.standing.Standing.TheVariants.{Nothing as WaitsForNothing};

use crate::filling::{fill, give_up_fills};
use bm_cache::Caches;
use bm_class::Class;
use bm_exec_levels::{Kept, Processor, Program};
use bm_grace::PlainGrace;
use bm_journal::Keep;
use bm_lang::{MapDeclaration, MapKind, Scenario};
use bm_page::Pool;
use bm_post::PlainPost;
use bm_word::NoMemory;
use bm_world::{Contents, Graphs, LivingSide, MapGraph, MapSlot, OneSide};
use std::alloc::Global;

// The slots of these maps, which hold nothing. Want of memory is the only refusal.
fn empty_slots(alloc: Global, maps: &[MapDeclaration]) -> Result<Contents, NoMemory>
    requires apart { are_apart (map (λ (m : MapValue). m.name) maps.now) ≡ true }
    ensures { IfOk result (λ contents. contents ≡ empty_slots maps.now) }
{
    let mut slots = Vec::new(alloc);
    for declared in maps {
        slots.push(MapSlot {
            name: declared.name.duplicate(),
            held: None,
            by: None,
        })?;
    }
    Ok(Contents::create(slots))
}

// Whether a map of this kind is a tree.
fn is_tree_kind(kind: MapKind) -> bool
    ensures { result ≡ is_tree_kind kind }
{
    match kind {
        MapKind::Slot | MapKind::List => false,
        MapKind::Tree => true,
    }
}

// The lists and trees of these maps, in which nothing is; at the place of a slot stands an empty list. Want of memory is the only
// refusal.
fn empty_graphs(alloc: Global, maps: &[MapDeclaration]) -> Result<Graphs, NoMemory>
    requires apart { are_apart (map (λ (m : MapValue). m.name) maps.now) ≡ true }
    requires few { length maps.now ≤ 256 }
    ensures { IfOk result (λ graphs. graphs ≡ empty_graphs maps.now) }
{
    let mut graphs = Vec::new(alloc);
    for declared in maps {
        let is_tree = is_tree_kind(declared.kind);
        graphs.push(MapGraph::new(alloc, declared.name.duplicate(), is_tree))?;
    }
    Ok(Graphs::create(graphs))
}

// The side of processor 0, of so many, with this stock, these slots, and these lists and trees, on which nobody has done anything. Want of memory is the only
// refusal.
fn open_side(
    alloc: Global,
    pool: Pool,
    processors: u8,
    contents: Contents,
    graphs: Graphs,
) -> Result<LivingSide, NoMemory>
    requires some { 0 < processors }
    requires limit { processors ≤ 8 }
    requires unborn { IsUnborn pool.units }
    requires bare { AreBare graphs }
    ensures side { IfOk result (λ world. world.side ≡ fresh_side processors 0 pool) }
    ensures slots { IfOk result (λ world. AllEmpty world.slots) }
    ensures begun { IfOk result (λ world. (n : ℕ) → begun_at world.begun n ≡ 0) }
    ensures standings { IfOk result
        (λ world. (n : ℕ) → standing_at world.standings n ≡ WaitsForNothing) }
    ensures asked { IfOk result (λ world. world.asked ≡ 0) }
    ensures contents { IfOk result (λ world. world.contents ≡ contents) }
    ensures graphs { IfOk result (λ world. world.graphs ≡ graphs) }
{
    match PlainPost::create(alloc, pool, processors) {
        Ok(post) => {
            let side = OneSide::new(post, PlainGrace::new(processors));
            match LivingSide::create(alloc, side, contents, graphs) {
                Ok(world) => Ok(world),
                Err(side) => {
                    let (post, _grace) = side.into_parts();
                    post.give_up();
                    Err(NoMemory)
                }
            }
        }
        Err(pool) => {
            pool.give_up();
            Err(NoMemory)
        }
    }
}

// What a processor keeps once its caches of these classes, ascending, are filled from this stock: with all memory that the handlers
// need which the scenario plans for it. Want of memory is the only refusal.
fn open_kept(
    alloc: Global,
    scenario: &Scenario,
    classes: &[Class],
    processor: u8,
    pool: &mut Pool,
) -> Result<Kept, NoMemory>
    requires ascend { ascends classes.now ≡ true }
    requires unborn { IsUnborn pool.old.units }
    ensures kept { IfOk result
        (IsFilled scenario.now processor (filling classes.now pool.old).fills) }
    ensures units { IfOk result
        (λ kept. AreNew pool.new (units_in (filling classes.now pool.old).fills)) }
    ensures pool { IfOk result (λ kept. pool.new ≡ (filling classes.now pool.old).pool) }
    ensures unborn { IsUnborn pool.new.units }
{
    let fills = fill(alloc, pool, classes)?;
    let caches = match Caches::create(alloc, processor, fills, Keep::new(alloc)) {
        Ok(caches) => caches,
        Err((fills, _recorder)) => {
            give_up_fills(fills);
            return Err(NoMemory);
        }
    };
    match Kept::create(alloc, scenario, processor, caches) {
        Ok(kept) => Ok(kept),
        Err(caches) => {
            caches.give_up();
            Err(NoMemory)
        }
    }
}

// Ends what processors keep after memory ran out.
pub(crate) fn give_up_kept(kept: Vec<Kept>) {
    let mut kept = kept;
    while let Some(own) = kept.pop() {
        own.give_up();
    }
    kept.destroy_empty();
}

// What so many processors keep, from processor 0 on, each with caches filled from the stock that those before it have left. Want of
// memory is the only refusal.
fn open_each(
    alloc: Global,
    scenario: &Scenario,
    classes: &[Class],
    processors: u8,
    pool: &mut Pool,
) -> Result<Vec<Kept>, NoMemory>
    requires ascend { ascends classes.now ≡ true }
    requires fresh { pool.old ≡ fresh_stock scenario.now.pages }
    requires unborn { IsUnborn pool.old.units }
    ensures kept { IfOk result (λ kept. AreFilled scenario.now classes.now kept.items pool.new) }
    ensures many { IfOk result (λ kept. length kept.items ≡ processors) }
    ensures unborn { IsUnborn pool.new.units }
{
    let mut kept = Vec::new(alloc);
    for processor in 0..processors {
        let Ok(own) = open_kept(alloc, scenario, classes, processor, pool) else {
            give_up_kept(kept);
            return Err(NoMemory);
        };
        if let Err(refused) = kept.push(own) {
            refused.value.give_up();
            give_up_kept(kept);
            return Err(NoMemory);
        }
    }
    Ok(kept)
}

/// What the processors of a scenario keep before their first turns, ascending, and the world that they share, which is the side of
/// processor 0. They run this program, the types of the scenario each with its class, and open one after the other: each fills its
/// caches of these classes, ascending, from the stock that those before it have left, and has all memory that the handlers need
/// which are planned for it. The slots, lists and trees of its maps hold nothing. Want of memory is the only refusal. From `bpf_mem_alloc_init` of kernel/bpf/memalloc.c.
pub fn open_all(
    alloc: Global,
    scenario: &Scenario,
    program: &Program<'_>,
    classes: &[Class],
) -> Result<(Vec<Kept>, LivingSide), NoMemory>
    requires same { program.now.scenario.now ≡ scenario.now }
    requires fits { IsProgram program.now }
    requires fine { HasConditions scenario.now }
    requires limits { first_limit scenario.now ≡ None }
    requires ascend { ascends classes.now ≡ true }
    requires apart { are_apart (map (λ (m : MapValue). m.name) scenario.now.maps) ≡ true }
    ensures { IfOk result (λ all. AreOpen program.now classes.now all.0.items all.1) }
{
    let parts = program.scenario;
    let processors = parts.processors as u8;
    let contents = empty_slots(alloc, parts.maps.as_slice())?;
    let graphs = empty_graphs(alloc, parts.maps.as_slice())?;
    let mut pool = Pool::create(alloc, parts.pages as u16)?;
    let Ok(kept) = open_each(alloc, scenario, classes, processors, &mut pool) else {
        pool.give_up();
        return Err(NoMemory);
    };
    match open_side(alloc, pool, processors, contents, graphs) {
        Ok(world) => Ok((kept, world)),
        Err(_) => {
            give_up_kept(kept);
            Err(NoMemory)
        }
    }
}
