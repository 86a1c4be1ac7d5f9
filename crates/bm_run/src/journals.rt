//! The run of a scenario on one thread, and its journal.

ghost use Rattle.std.specs.Prelude.{◌≡◌, ◌≤◌, ◌++◌, All, IfOk, IsTrue, OnOk, Some, length, map};
ghost use Rattle.bm_journal.specs.WellFormed.{is_whole_log};
ghost use Rattle.bm_lang.specs.declared.scenario.MapDeclaration.{MapDeclaration as MapValue};
ghost use Rattle.bm_lang.specs.declared.scenario.Script.{Script};
ghost use Rattle.bm_lang.specs.declared.scenario.TypeDeclaration.{TypeDeclaration};
ghost use Rattle.bm_lang.specs.Fine.{HasConditions};
ghost use Rattle.bm_check.specs.Scripts.{IsChecked};
ghost use Rattle.bm_class.specs.Sizes.{class_of_size};
ghost use Rattle.bm_exec.specs.Lists.{behind_of};
ghost use Rattle.bm_law_scenario.specs.Opened.{object_size, opened_classes};
ghost use Rattle.bm_law_journal.specs.Lawful.{Laid, Lawful, named_turns};
ghost use Rattle.bm_law_scenario.specs.Lawful.{is_graph_kind};
ghost use Rattle.bm_run.specs.Histories.{of_graph, of_graphs};
ghost use Rattle.bm_run.specs.Between.{AllClosed};
ghost use Rattle.bm_run.specs.Lines.{when_on};

use crate::all_turns::run_turns;
use crate::classes::{opened_classes, type_classes, with_marks};
use crate::closers::{Closed, close_seats};
use crate::opening::open_all;
use bm_check::Checked;
use bm_class::Class;
use bm_exec::Types;
use bm_exec_levels::{Deferred, Program};
use bm_journal::{Histories, History, Journal, Logs, Names, Opened, totals_of};
use bm_lang::{MapDeclaration, MapKind, Parts, Scenario, Script, TypeDeclaration};
use bm_law_graphs::graphs_law;
use bm_law_laid::journal_law;
use bm_law_logs::{handled_law, returned_law, returns_law, sweeps_law};
use bm_law_objects::{counts_law, reads_law, slots_law};
use bm_law_seals::{lives_law, seals_law};
use bm_word::NoMemory;
use std::alloc::Global;

// The names of types.
fn type_names(alloc: Global, types: &[TypeDeclaration]) -> Result<Names, NoMemory>
    ensures { IfOk result (λ names. names ≡ map (λ (t : TypeDeclaration). t.name) types.now) }
{
    let mut names = Vec::new(alloc);
    for declared in types {
        names.push(declared.name.duplicate())?;
    }
    Ok(Names::new(names))
}

// The names of maps.
fn map_names(alloc: Global, maps: &[MapDeclaration]) -> Result<Names, NoMemory>
    ensures { IfOk result (λ names. names ≡ map (λ (m : MapValue). m.name) maps.now) }
{
    let mut names = Vec::new(alloc);
    for declared in maps {
        names.push(declared.name.duplicate())?;
    }
    Ok(Names::new(names))
}

// The names of scripts.
fn script_names(alloc: Global, scripts: &[Script]) -> Result<Names, NoMemory>
    ensures { IfOk result (λ names. names ≡ map (λ (s : Script). s.name) scripts.now) }
{
    let mut names = Vec::new(alloc);
    for script in scripts {
        names.push(script.name.duplicate())?;
    }
    Ok(Names::new(names))
}

// Whether a map is a list or tree.
fn is_graph(declared: &MapDeclaration) -> bool
    ensures { result ≡ is_graph_kind declared.now.kind }
{
    match declared.kind {
        MapKind::Slot => false,
        MapKind::List => true,
        MapKind::Tree => true,
    }
}

// The history of a map is kept, if that is a list or tree. Want of memory is the only refusal.
fn keep_graph(
    kept: &mut Vec<History>,
    declared: &MapDeclaration,
    history: History,
) -> Result<(), NoMemory>
    ensures { OnOk result (kept.new.items ≡ kept.old.items ++ of_graph declared.now history) }
{
    if is_graph(declared) {
        kept.push(history)?;
    }
    Ok(())
}

// Of the histories of all maps, each at its place, those of lists and trees. Want of memory is the only refusal.
fn graph_histories(
    alloc: Global,
    maps: &[MapDeclaration],
    histories: Vec<History>,
) -> Result<Vec<History>, NoMemory>
    requires { length histories.items ≡ length maps.now }
    ensures { IfOk result (λ kept. kept.items ≡ of_graphs maps.now histories.items) }
{
    let mut kept = Vec::new(alloc);
    let mut place = 0;
    for history in histories {
        keep_graph(&mut kept, &maps[place], history)?;
        place += 1;
    }
    Ok(kept)
}

// The journal of logs and of the histories of all maps.
fn journal_of(
    alloc: Global,
    scenario: &Parts,
    classes: &[Class],
    closed: Closed,
) -> Result<Journal, NoMemory>
    requires fine { HasConditions scenario.now }
    requires few { scenario.now.processors ≤ 8 }
    requires pages { scenario.now.pages ≤ 256 }
    requires classes { classes.now ≡ opened_classes scenario.now.types }
    requires whole { All (λ log. IsTrue (is_whole_log log)) closed.logs.items }
    requires closed { AllClosed scenario.now (named_turns scenario.now.turns)
        closed.logs.items closed.histories.items }
    ensures lawful { IfOk result (Lawful scenario.now) }
    ensures laid { IfOk result (Laid scenario.now) }
{
    handled_law();
    sweeps_law();
    lives_law();
    returns_law();
    returned_law();
    journal_law();
    seals_law();
    counts_law();
    slots_law();
    reads_law();
    graphs_law();
    let Closed { logs, histories } = closed;
    let types = type_names(alloc, scenario.types.as_slice())?;
    let maps = map_names(alloc, scenario.maps.as_slice())?;
    let scripts = script_names(alloc, scenario.scripts.as_slice())?;
    let classes = Opened::new(with_marks(alloc, classes)?);
    let logs = Logs::new(logs);
    let totals = totals_of(&logs);
    let graphs = Histories::new(graph_histories(alloc, scenario.maps.as_slice(), histories)?);
    Ok(Journal {
        processors: scenario.processors as u8,
        pages: scenario.pages as u16,
        types,
        maps,
        scripts,
        classes,
        logs,
        graphs,
        totals,
    })
}

// The classes for which deferred work runs, if it runs.
fn when_on<'s>(on: bool, classes: &'s [Class]) -> Option<&'s [Class]>
    ensures { behind_of result ≡ when_on on classes.now }
{
    if on { Some(classes) } else { None }
}

// The logs of a run.
fn logs_of(
    alloc: Global,
    scenario: &Scenario,
    classes: &[Class],
    opened: &[Class],
) -> Result<Closed, NoMemory>
    requires fine { HasConditions scenario.now }
    requires checked { IsChecked scenario.now }
    requires classes { map Some classes.now
        ≡ map (λ t. class_of_size (object_size t)) scenario.now.types }
    requires opened { opened.now ≡ opened_classes scenario.now.types }
    ensures closed { IfOk result (λ closed.
        AllClosed scenario.now (named_turns scenario.now.turns) closed.logs.items
        closed.histories.items) }
    ensures whole { IfOk result
        (λ closed. All (λ log. IsTrue (is_whole_log log)) closed.logs.items) }
{
    let parts = scenario.parts();
    let program = Program {
        scenario: parts,
        types: Types {
            declared: parts.types.as_slice(),
            classes,
            maps: parts.maps.as_slice(),
        },
    };
    let deferred = Deferred {
        behind: when_on(parts.deferred, opened),
    };
    let (kept, world) = open_all(alloc, scenario, &program, opened)?;
    let (seats, world) = run_turns(alloc, kept, world, &program, &deferred)?;
    close_seats(alloc, seats, world, &program, opened)
}

/// Runs a checked scenario, and gives its journal, which is lawful and laid, in which each unit is in
/// exactly one place at each entry, each poll has rested, each unit was given with what it had waited for, and each grace period has
/// ended. Its time grows with the statements
/// run. Out of memory is the only refusal.
pub fn replay(alloc: Global, checked: &Checked) -> Result<Journal, NoMemory>
    ensures lawful { IfOk result (Lawful checked.now) }
    ensures laid { IfOk result (Laid checked.now) }
{
    let scenario = checked.scenario();
    let parts = scenario.parts();
    let types = parts.types.as_slice();
    let classes = type_classes(alloc, types)?;
    let opened = opened_classes(alloc, types, classes.as_slice())?;
    let closed = logs_of(alloc, scenario, classes.as_slice(), opened.as_slice())?;
    journal_of(alloc, parts, opened.as_slice(), closed)
}
