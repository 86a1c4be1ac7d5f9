//! What a processor keeps between its turns.

ghost use Rattle.std.specs.Prelude.{◌≡◌, ◌≤◌, ◌<◌, [], All, IfErr, IfOk, None, false, length, vec_capacity};
ghost use Rattle.bm_due.specs.Due.{planned_for};
ghost use Rattle.bm_exec_levels.specs.Ready.{BindsAll};

use bm_cache::Caches;
use bm_due::Due;
use bm_exec::NameTable;
use bm_journal::Keep;
use bm_lang::{MapId, Scenario, Script};
use bm_plan::Handlers;
use bm_word::NoMemory;
use std::alloc::Global;

/// What a processor keeps between its turns: its caches, and the handlers that are planned for it. All memory that handlers need
/// is in it before the first script runs. This project's own.
pub struct Kept {
    pub alloc: Global,
    pub caches: Caches<Keep>,
    /// How many times it was asked for the work behind a statement or a script.
    pub settled: u32,
    /// How many calls of scripts its log has so far, of all levels together.
    pub calls: u32,
    /// Whether it is in a plain section.
    pub inside: bool,
    /// The list or tree whose lock it holds.
    pub locked: Option<MapId>,
    /// The handlers that haven't run.
    pub handlers: Handlers,
    /// The handlers that run, the innermost last. There is room for one of each level.
    pub running: Vec<Due>,
    /// The tables of names that no handler uses, one for each level at which none runs.
    pub tables: Vec<NameTable>,
}

// Three tables of names, in each of which is each name that one of these scripts binds. Out of memory is the only refusal.
fn three_tables(alloc: Global, scripts: &[Script]) -> Result<Vec<NameTable>, NoMemory>
    ensures bound { IfOk result (λ tables. All (BindsAll scripts.now) tables.items) }
    ensures three { IfOk result (λ tables. length tables.items ≡ 3) }
    ensures capacity { IfOk result (λ tables. 3 ≤ vec_capacity tables) }
{
    let mut tables = Vec::with_capacity(alloc, 3)?;
    for _level in 0..3_usize {
        tables.push(NameTable::for_scripts(alloc, scripts)?)?;
    }
    Ok(tables)
}

// What a processor has for the handlers that are planned for it, all memory of which is taken as it is made.
#[derive(Drop)]
struct Room {
    handlers: Handlers,
    running: Vec<Due>,
    tables: Vec<NameTable>,
}

// What a processor has for the handlers that a scenario plans for it. Out of memory is the only refusal.
fn make_room(alloc: Global, scenario: &Scenario, processor: u8) -> Result<Room, NoMemory>
    ensures planned { IfOk result
        (λ room. room.handlers.planned
        ≡ record { left = planned_for processor scenario.now; ended = false }) }
    ensures scripts { IfOk result (λ room. room.handlers.scripts ≡ length scenario.now.scripts) }
    ensures running { IfOk result (λ room. room.running.items ≡ []) }
    ensures room_running { IfOk result (λ room. 3 ≤ vec_capacity room.running) }
    ensures bound { IfOk result (λ room. All (BindsAll scenario.now.scripts) room.tables.items) }
    ensures tables { IfOk result (λ room. length room.tables.items ≡ 3) }
    ensures room_tables { IfOk result (λ room. 3 ≤ vec_capacity room.tables) }
{
    let handlers = Handlers::create(alloc, scenario, u32::from(processor))?;
    let tables = three_tables(alloc, scenario.parts().scripts.as_slice())?;
    let running = Vec::with_capacity(alloc, 3)?;
    Ok(Room {
        handlers,
        running,
        tables,
    })
}

impl Kept {
    /// What a processor keeps, with these caches, before its first script: none of the handlers that a scenario plans for it has
    /// run, and none runs. Out of memory is the only refusal, and hands the caches back.
    pub fn create(
        alloc: Global,
        scenario: &Scenario,
        processor: u8,
        caches: Caches<Keep>,
    ) -> Result<Kept, Caches<Keep>>
        ensures fresh { IfOk result
            (λ kept. kept
            ≡ record kept {
              alloc = alloc;
              caches = caches;
              settled = 0;
              calls = 0;
              inside = false;
              locked = None;
            }) }
        ensures planned { IfOk result
            (λ kept. kept.handlers.planned
            ≡ record { left = planned_for processor scenario.now; ended = false }) }
        ensures scripts { IfOk result
            (λ kept. kept.handlers.scripts ≡ length scenario.now.scripts) }
        ensures running { IfOk result (λ kept. kept.running.items ≡ []) }
        ensures room_running { IfOk result (λ kept. 3 ≤ vec_capacity kept.running) }
        ensures bound { IfOk result
            (λ kept. All (BindsAll scenario.now.scripts) kept.tables.items) }
        ensures tables { IfOk result (λ kept. length kept.tables.items ≡ 3) }
        ensures room_tables { IfOk result (λ kept. 3 ≤ vec_capacity kept.tables) }
        ensures refused { IfErr result (λ back. back ≡ caches) }
    {
        match make_room(alloc, scenario, processor) {
            Ok(room) => {
                let Room {
                    handlers,
                    running,
                    tables,
                } = room;
                Ok(Kept {
                    alloc,
                    caches,
                    settled: 0,
                    calls: 0,
                    inside: false,
                    locked: None,
                    handlers,
                    running,
                    tables,
                })
            }
            Err(_) => Err(caches),
        }
    }

    /// Ends it after memory ran out, with all that it holds.
    pub fn give_up(self) {
        let Kept {
            alloc: _,
            caches,
            settled: _,
            calls: _,
            inside: _,
            locked: _,
            handlers: _,
            running: _,
            tables: _,
        } = self;
        caches.give_up();
    }
}
