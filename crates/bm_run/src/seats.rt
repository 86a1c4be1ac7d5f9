//! Processors that take turns, and a turn of one of them.

ghost use Rattle.std.specs.Prelude.{◌≡◌, ◌<◌, ◌≤◌, ◌+◌, ◌^◌, ℕ, IfOk, IfSome, List, OnOk, Some, false, length, slice_get, true};
ghost use Rattle.bm_journal.specs.Recording.{Appends};
ghost use Rattle.bm_journal.specs.declared.entry.Entry.TheVariants as entry;
ghost use Rattle.bm_cache.specs.Shown.{shown};
ghost use Rattle.bm_law.specs.Lists.{Log};
ghost use Rattle.bm_world.specs.LivingState.{LivingState};
ghost use Rattle.bm_world.specs.ToldLiving.{knows_living};
ghost use Rattle.bm_exec.specs.Lists.{behind_of};
ghost use Rattle.bm_exec_levels.specs.AtProcessor.{FineAt, log_of};
ghost use Rattle.bm_exec_levels.specs.AtTie.{TiedAt};
ghost use Rattle.bm_exec_levels.specs.Sound.{Sound};
ghost use Rattle.bm_exec_levels.specs.declared.program.Program.{Program as ProgramValue};
ghost use Rattle.bm_run.specs.Between.{Between, ended_of};
ghost use Rattle.bm_run.specs.Lines.{works_for};
ghost use Rattle.bm_run.specs.NextTurn.{IsNextTurn, seats_weight};
ghost use Rattle.bm_run.specs.SeatTurn.{MayTurn, TookTurn, has_gone};
ghost use Rattle.bm_run.specs.Turns.{CanRun, cost_left, used_in};
ghost use Rattle.bm_run.specs.declared.seats.Seat.{Seat as SeatValue};

use crate::stretches::note;
use crate::turns::{Remaining, Turned, take_turn};
use bm_exec_levels::{Deferred, Kept, Processor, Program, Since};
use bm_journal::{Entry, Recorder};
use bm_word::NoMemory;
use bm_world::LivingSide;
use std::alloc::Global;
use std::marker::Brand;
use std::mem;

/// A processor that takes turns. This project's own.
pub struct Seat<'s> {
    /// What it keeps between its turns: nothing only while it takes one.
    pub kept: Option<Kept>,
    /// What it has still to run.
    pub remaining: Remaining<'s>,
    /// Whether its scripts have ended.
    pub ended: bool,
}

// Records that the scripts of a processor have ended. From then on no handler is due.
fn end_scripts(own: &mut Processor<LivingSide>)
    requires fine { FineAt knows_living 0 own.old }
    ensures said { Appends (log_of own.old) 0 entry.Ended (log_of own.new) }
    ensures lists { shown own.new.caches ≡ shown own.old.caches }
    ensures same { own.new
        ≡ record own.old { caches = own.new.caches; handlers = own.new.handlers } }
    ensures planned { own.new.handlers.planned
        ≡ record own.old.handlers.planned { ended = true } }
    ensures tied { (since : Log) (start : LivingState)
        → TiedAt knows_living since start own.old → TiedAt knows_living since start own.new }
    ensures sound { (p : ProgramValue)
        → Sound knows_living p own.old → Sound knows_living p own.new }
{
    note(own, Entry::Ended);
    own.handlers.end();
}

// A turn of a processor, and the record of its end where it ends with it; the answer is whether it does. Out of memory is the only
// refusal.
fn go_on<'s, B: Since<LivingSide>>(
    alloc: Global,
    own: &mut Processor<LivingSide>,
    program: &'s Program<'s>,
    deferred: &'s Deferred<'s>,
    remaining: &mut Remaining<'s>,
) -> Result<bool, NoMemory>
    requires sound { Sound knows_living program.now own.old }
    requires tied { TiedAt knows_living B.since B.start own.old }
    requires works { behind_of deferred.now.behind ≡ works_for program.now.scenario.now }
    requires few { IfSome deferred.now.behind (λ classes. length classes.now ≤ 11) }
    requires can { CanRun program.now.scenario.now (works_for program.now.scenario.now)
        own.old remaining.old }
    requires room { used_in program.now.scenario.now own.old
        + cost_left program.now.scenario.now remaining.old < 2 ^ 22 }
    ensures gone { IfOk result (λ ended. has_gone ended program.now
        own.old remaining.old own.new remaining.new) }
    ensures processor { OnOk result (remaining.new.processor ≡ remaining.old.processor) }
    ensures sound { OnOk result (Sound knows_living program.now own.new) }
    ensures tied { OnOk result (TiedAt knows_living B.since B.start own.new) }
{
    match take_turn::<B>(alloc, own, program, deferred, remaining)? {
        Turned::Yielded => Ok(false),
        Turned::Ended => {
            end_scripts(own);
            Ok(true)
        }
    }
}

// Ends a processor after a want of memory, with all that it holds.
fn give_up(own: Processor<LivingSide>) {
    let (kept, side) = own.close();
    kept.give_up();
    side.give_up();
}

// A turn of the processor of a seat, which keeps what is the processor's own after it. Out of memory is the only refusal; what was
// taken is given up then.
fn turn_on<'s, B: Since<LivingSide>>(
    alloc: Global,
    seat: &mut Seat<'s>,
    world: LivingSide,
    program: &'s Program<'s>,
    deferred: &'s Deferred<'s>,
) -> Result<LivingSide, NoMemory>
    requires may { MayTurn program.now B.since B.start seat.old }
    requires start { B.start ≡ world }
    requires works { behind_of deferred.now.behind ≡ works_for program.now.scenario.now }
    requires few { IfSome deferred.now.behind (λ classes. length classes.now ≤ 11) }
    ensures took { IfOk result (λ now. TookTurn program.now B.since B.start now seat.old seat.new) }
{
    let Some(kept) = seat.kept.take() else {
        unreachable!();
    };
    let mut own = Processor::open(kept, world);
    let Ok(ended) = go_on::<B>(alloc, &mut own, program, deferred, &mut seat.remaining) else {
        give_up(own);
        return Err(NoMemory);
    };
    if own.caches.recorder().failed() {
        give_up(own);
        return Err(NoMemory);
    }
    let (kept, world) = own.close();
    match mem::replace(&mut seat.kept, Some(kept)) {
        None => {}
        Some(_) => unreachable!(),
    }
    seat.ended = ended;
    Ok(world)
}

/// A turn of a processor that hasn't ended, which records its end where it ends with it. Out of memory is the only refusal; the world is
/// given up then.
pub fn turn_of<'s>(
    alloc: Global,
    seats: &mut Vec<Seat<'s>>,
    world: LivingSide,
    program: &'s Program<'s>,
    deferred: &'s Deferred<'s>,
    processor: u8,
) -> Result<LivingSide, NoMemory>
    requires between { (turns rest : List ℕ)
        × Between program.now turns rest seats.old.items world }
    requires works { behind_of deferred.now.behind ≡ works_for program.now.scenario.now }
    requires few { IfSome deferred.now.behind (λ classes. length classes.now ≤ 11) }
    requires there { (seat : SeatValue) × (slice_get seats.old.items processor ≡ Some seat)
        × (seat.ended ≡ false) }
    ensures between { IfOk result (λ now. (turns rest after : List ℕ) →
        IsNextTurn (ended_of seats.old.items) rest processor after →
        Between program.now turns rest seats.old.items world →
        Between program.now turns after seats.new.items now) }
    ensures less { OnOk result (seats_weight program.now.scenario.now seats.new.items
        < seats_weight program.now.scenario.now seats.old.items) }
{
    let mut world = world;
    world.turn(processor);
    let seat = &mut seats[processor as usize];
    turn_on::<Brand>(alloc, seat, world, program, deferred)
}
