//! The turns of all processors, in the order that the scenario names.

ghost use Rattle.std.specs.Prelude.{◌≡◌, ◌<◌, ◌≤◌, [], ℕ, All, IfNone, IfOk, IfSome, List, OnOk, false, get_or, length, true};
ghost use Rattle.bm_lang.specs.Fine.{HasConditions};
ghost use Rattle.bm_law_journal.specs.Lawful.{named_turns};
ghost use Rattle.bm_law_scenario.specs.Opened.{opened_classes};
ghost use Rattle.bm_check.specs.Scripts.{IsChecked};
ghost use Rattle.bm_exec.specs.Lists.{behind_of};
ghost use Rattle.bm_exec_levels.specs.Ready.{IsProgram};
ghost use Rattle.bm_run.specs.AllTurns.{AllTold, AreSeats, SomeFailed};
ghost use Rattle.bm_run.specs.Between.{AllStopped, Between, ended_of};
ghost use Rattle.bm_run.specs.InTurns.{IsLowest};
ghost use Rattle.bm_run.specs.Lines.{works_for};
ghost use Rattle.bm_run.specs.Openings.{AreOpen};

use crate::closers::give_up_seats;
use crate::opening::give_up_kept;
use crate::seats::{Seat, turn_of};
use crate::turns::Remaining;
use bm_exec_levels::{Deferred, Kept, Program};
use bm_journal::Recorder;
use bm_lang::RunLine;
use bm_word::NoMemory;
use bm_world::LivingSide;
use std::alloc::Global;
use std::collections::VecDeque;

// Whether a recorder of these processors has lost an entry.
fn some_failed(kept: &[Kept]) -> bool
    ensures told { result ≡ false → AllTold kept.now }
    ensures failed { result ≡ true → SomeFailed kept.now }
{
    for own in kept {
        if own.caches.recorder().failed() {
            return true;
        }
    }
    false
}

// A seat for each processor, ascending, with all these lines to run: a processor passes over those of others. Out of memory is the only
// refusal.
fn seat_all<'s>(
    alloc: Global,
    kept: Vec<Kept>,
    lines: &'s [RunLine],
) -> Result<Vec<Seat<'s>>, NoMemory>
    requires few { length kept.items ≤ 8 }
    ensures { IfOk result (λ seats. AreSeats lines.now 0 kept.items seats.items) }
{
    let mut rest = VecDeque::from_vec(kept);
    let mut seats = Vec::new(alloc);
    let mut processor = 0;
    while let Some(own) = rest.pop_front() {
        let seat = Seat {
            kept: Some(own),
            remaining: Remaining {
                processor,
                begun: None,
                lines,
            },
            ended: false,
        };
        if let Err(refused) = seats.push(seat) {
            give_up_seat(refused.value);
            give_up_seats(seats);
            give_up_kept(Vec::from(rest));
            return Err(NoMemory);
        }
        processor += 1;
    }
    rest.destroy_empty();
    Ok(seats)
}

// Ends a processor after a want of memory, with all that it holds.
fn give_up_seat(seat: Seat<'_>) {
    let Seat {
        kept,
        remaining: _,
        ended: _,
    } = seat;
    if let Some(kept) = kept {
        kept.give_up();
    }
}

// Whether a processor has ended.
fn has_ended(seats: &[Seat<'_>], processor: u32) -> bool
    requires { processor < length seats.now }
    ensures { result ≡ get_or (ended_of seats.now) processor true }
{
    seats[processor as usize].ended
}

// The lowest processor that hasn't ended, if there is one.
fn lowest(seats: &[Seat<'_>]) -> Option<u8>
    requires { length seats.now ≤ 8 }
    ensures some { IfSome result (IsLowest (ended_of seats.now)) }
    ensures none { IfNone result (AllStopped seats.now) }
{
    for (processor, seat) in seats.iter().enumerate() {
        if !seat.ended {
            return Some(processor as u8);
        }
    }
    None
}

// The turns that a scenario names, one after the other, where one that has ended is passed over. Out of memory is the only refusal; the
// world is given up then.
fn run_named<'s>(
    alloc: Global,
    seats: &mut Vec<Seat<'s>>,
    world: LivingSide,
    program: &'s Program<'s>,
    deferred: &'s Deferred<'s>,
    turns: &[u32],
) -> Result<LivingSide, NoMemory>
    requires between { Between program.now turns.now turns.now seats.old.items world }
    requires works { behind_of deferred.now.behind ≡ works_for program.now.scenario.now }
    requires few { IfSome deferred.now.behind (λ classes. length classes.now ≤ 11) }
    requires limit { program.now.scenario.now.processors ≤ 8 }
    requires there { All (λ p. p < program.now.scenario.now.processors) turns.now }
    ensures { IfOk result (λ now. Between program.now turns.now [] seats.new.items now) }
{
    let mut world = world;
    for turn in turns {
        if !has_ended(seats.as_slice(), *turn) {
            world = turn_of(alloc, seats, world, program, deferred, *turn as u8)?;
        }
    }
    Ok(world)
}

// Until all have ended, turns of the lowest that hasn't. Out of memory is the only refusal; the world is given up then.
fn run_lowest<'s>(
    alloc: Global,
    seats: &mut Vec<Seat<'s>>,
    world: LivingSide,
    program: &'s Program<'s>,
    deferred: &'s Deferred<'s>,
) -> Result<LivingSide, NoMemory>
    requires between { (turns : List ℕ) × Between program.now turns [] seats.old.items world }
    requires works { behind_of deferred.now.behind ≡ works_for program.now.scenario.now }
    requires few { IfSome deferred.now.behind (λ classes. length classes.now ≤ 11) }
    requires limit { program.now.scenario.now.processors ≤ 8 }
    ensures between { IfOk result (λ now. (turns : List ℕ) →
        Between program.now turns [] seats.old.items world →
        Between program.now turns [] seats.new.items now) }
    ensures stopped { OnOk result (AllStopped seats.new.items) }
{
    let mut world = world;
    while let Some(processor) = lowest(seats.as_slice()) {
        world = turn_of(alloc, seats, world, program, deferred, processor)?;
    }
    Ok(world)
}

// All turns of processors that have their seats: those that the scenario names, and then those of the lowest. Out of memory is the only
// refusal; the world is given up then.
fn run_seats<'s>(
    alloc: Global,
    seats: &mut Vec<Seat<'s>>,
    world: LivingSide,
    program: &'s Program<'s>,
    deferred: &'s Deferred<'s>,
) -> Result<LivingSide, NoMemory>
    requires fine { HasConditions program.now.scenario.now }
    requires limit { program.now.scenario.now.processors ≤ 8 }
    requires works { behind_of deferred.now.behind ≡ works_for program.now.scenario.now }
    requires few { IfSome deferred.now.behind (λ classes. length classes.now ≤ 11) }
    requires between { Between program.now (named_turns program.now.scenario.now.turns)
        (named_turns program.now.scenario.now.turns) seats.old.items world }
    ensures between { IfOk result (λ now.
        Between program.now (named_turns program.now.scenario.now.turns) [] seats.new.items now) }
    ensures stopped { OnOk result (AllStopped seats.new.items) }
{
    let turns = match &program.scenario.turns {
        Some(turns) => turns.as_slice(),
        None => &[],
    };
    let world = run_named(alloc, seats, world, program, deferred, turns)?;
    run_lowest(alloc, seats, world, program, deferred)
}

/// All turns of a run: each processor in its turn goes on from where it stopped, up to and with its next `yield`, or to the end of its
/// scripts. The turns come in the order that the scenario names, where one that has ended is passed over, and then, until all have ended,
/// the lowest that hasn't takes each turn. Out of memory is the only refusal.
pub fn run_turns<'s>(
    alloc: Global,
    kept: Vec<Kept>,
    world: LivingSide,
    program: &'s Program<'s>,
    deferred: &'s Deferred<'s>,
) -> Result<(Vec<Seat<'s>>, LivingSide), NoMemory>
    requires fits { IsProgram program.now }
    requires fine { HasConditions program.now.scenario.now }
    requires checked { IsChecked program.now.scenario.now }
    requires works { behind_of deferred.now.behind ≡ works_for program.now.scenario.now }
    requires few { IfSome deferred.now.behind (λ classes. length classes.now ≤ 11) }
    requires open { AreOpen program.now (opened_classes program.now.scenario.now.types) kept.items
        world }
    ensures between { IfOk result (λ r.
        Between program.now (named_turns program.now.scenario.now.turns) [] r.0.items r.1) }
    ensures stopped { IfOk result (λ r. AllStopped r.0.items) }
{
    if some_failed(kept.as_slice()) {
        give_up_kept(kept);
        world.give_up();
        return Err(NoMemory);
    }
    let Ok(seats) = seat_all(alloc, kept, program.scenario.runs.as_slice()) else {
        world.give_up();
        return Err(NoMemory);
    };
    let mut seats = seats;
    match run_seats(alloc, &mut seats, world, program, deferred) {
        Ok(world) => Ok((seats, world)),
        Err(_) => {
            give_up_seats(seats);
            Err(NoMemory)
        }
    }
}
