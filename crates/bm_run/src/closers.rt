//! The closing of all processors.

ghost use Rattle.std.specs.Prelude.{◌≡◌, ◌<◌, ◌≤◌, ◌++◌, ◌∷◌, [], All, IfOk, IfSome, IsTrue, None, OnOk, Some, ℕ, List, length, map, set, slice_get, true};
ghost use Rattle.bm_journal.specs.WellFormed.{is_whole_log};
ghost use Rattle.bm_law.specs.Lists.{Log as LogValue};
ghost use Rattle.bm_closing.specs.declared.crew.Phase.TheVariants.{Ends as EndsPhase};
ghost use Rattle.bm_law_scenario.specs.Opened.{opened_classes};
ghost use Rattle.bm_world.specs.LivingState.{LivingState};
ghost use Rattle.bm_exec_levels.specs.declared.kept.Kept.{Kept as KeptValue};
ghost use Rattle.bm_run.specs.Between.{AllClosed, AllStopped, Between};
ghost use Rattle.bm_run.specs.Closers.{BeginsClosing, CloseTogether, EndsOf, FineHere, IsAmong, IsEmptied, IsResting, Keeps, NeedsFor, OwnAfter, OwnBefore, StepOf, SweepsOf, TellsHistories, TookStep, gathered_with, held_of, log_kept, number_among};
ghost use Rattle.bm_exec_levels.specs.Sound.{Sound};
ghost use Rattle.bm_lang.specs.declared.scenario.MapDeclaration.{MapDeclaration as MapValue};
ghost use Rattle.bm_world.specs.Contents.{are_apart};
ghost use Rattle.bm_world.specs.ToldLiving.{knows_living};
ghost use Rattle.bm_run.specs.Asked.{in_its_turn};
ghost use Rattle.bm_run.specs.Emptied.{HasRoomFor};
ghost use Rattle.bm_run.specs.SoFar.{at_turn};
ghost use Rattle.bm_run.specs.ClosersCrew.{all-even, gathered, holds-none, sweeps-next};
ghost use Rattle.bm_run.specs.declared.seats.Seat.{Seat as SeatValue};

use crate::closing_desk::ClosingDesk;
use crate::emptying::empty_maps;
use crate::seats::Seat;
use crate::stretches::note;
use bm_class::Class;
use bm_closing::{Crew, Phase, close_all, end_periods, sweep_each};
use bm_exec_levels::{Kept, Processor, Program, Since};
use bm_journal::{Entry, History, Log, Recorder};
use bm_law_logs::handled_law;
use bm_word::NoMemory;
use bm_world::LivingSide;
use std::alloc::Global;
use std::marker::{Brand, PhantomData};
use std::mem;

// Ends processors after a want of memory, with all that they hold.
pub(crate) fn give_up_seats(seats: Vec<Seat<'_>>) {
    let mut seats = seats;
    while let Some(seat) = seats.pop() {
        let Seat {
            kept,
            remaining: _,
            ended: _,
        } = seat;
        if let Some(kept) = kept {
            kept.give_up();
        }
    }
    seats.destroy_empty();
}

// Ends what a processor keeps after a want of memory, if it is there.
fn give_up_place(place: Option<Kept>) {
    if let Some(kept) = place {
        kept.give_up();
    }
}

// Ends what processors keep after a want of memory.
fn give_up_places(places: Vec<Option<Kept>>) {
    let mut places = places;
    while let Some(place) = places.pop() {
        give_up_place(place);
    }
    places.destroy_empty();
}

// What processors keep, without the rest of their seats. Want of memory is the only refusal.
fn places_of(alloc: Global, seats: Vec<Seat<'_>>) -> Result<Vec<Option<Kept>>, NoMemory>
    ensures { IfOk result
        (λ places. places.items ≡ map (λ (x : SeatValue). x.kept) seats.entry.items) }
{
    let mut seats = seats;
    let mut places = Vec::new(alloc);
    while let Some(seat) = seats.pop() {
        let Seat {
            kept,
            remaining: _,
            ended: _,
        } = seat;
        if let Err(refused) = places.push(kept) {
            give_up_place(refused.value);
            give_up_places(places);
            give_up_seats(seats);
            return Err(NoMemory);
        }
    }
    seats.destroy_empty();
    places.as_mut_slice().reverse();
    Ok(places)
}

// What a processor keeps and its side, if its recorder has lost nothing; else both end.
fn if_told(kept: Kept, side: LivingSide) -> Result<(Kept, LivingSide), NoMemory>
    ensures same { IfOk result (λ r. (r.0 ≡ kept) × (r.1 ≡ side)) }
    ensures told { IfOk result (λ r. (log : LogValue) × (kept.caches.recorder.told ≡ Some log)) }
{
    if kept.caches.recorder().failed() {
        kept.give_up();
        side.give_up();
        return Err(NoMemory);
    }
    Ok((kept, side))
}

// The step of a processor in which the periods end that it has in progress. Want of memory is the only refusal.
fn end_own<B: Since<LivingSide>>(
    kept: Kept,
    side: LivingSide,
    classes: &[Class],
) -> Result<(Kept, LivingSide), NoMemory>
    requires rests { IsResting kept side B.since }
    requires start { B.start ≡ side }
    ensures { IfOk result (λ r. EndsOf classes.now kept side B.since r.0 r.1) }
{
    side.all_at_rest();
    let Kept {
        alloc,
        caches,
        settled,
        inside,
        locked,
        handlers,
        running,
        tables,
        calls,
    } = kept;
    let mut desk = ClosingDesk::<B> {
        caches,
        side,
        since: PhantomData,
    };
    end_periods(&mut desk);
    let ClosingDesk {
        caches,
        side,
        since: _,
    } = desk;
    side.all_at_rest();
    let kept = Kept {
        alloc,
        caches,
        settled,
        inside,
        locked,
        handlers,
        running,
        tables,
        calls,
    };
    if_told(kept, side)
}

// The step of a processor in which it sweeps these classes. Want of memory is the only refusal.
fn sweep_own<B: Since<LivingSide>>(
    alloc: Global,
    kept: Kept,
    side: LivingSide,
    classes: &[Class],
) -> Result<(Kept, LivingSide), NoMemory>
    requires rests { IsResting kept side B.since }
    requires start { B.start ≡ side }
    requires needs { NeedsFor Phase.Sweeps classes.now side }
    ensures { IfOk result (λ r. SweepsOf classes.now kept side B.since r.0 r.1) }
{
    side.all_at_rest();
    let Kept {
        alloc: own_alloc,
        caches,
        settled,
        inside,
        locked,
        handlers,
        running,
        tables,
        calls,
    } = kept;
    let mut desk = ClosingDesk::<B> {
        caches,
        side,
        since: PhantomData,
    };
    let swept = sweep_each(alloc, &mut desk, classes);
    let ClosingDesk {
        caches,
        side,
        since: _,
    } = desk;
    if swept.is_err() {
        caches.give_up();
        side.give_up();
        return Err(NoMemory);
    }
    side.all_at_rest();
    let kept = Kept {
        alloc: own_alloc,
        caches,
        settled,
        inside,
        locked,
        handlers,
        running,
        tables,
        calls,
    };
    if_told(kept, side)
}

// The step of a processor of a phase. Want of memory is the only refusal.
fn step_own<B: Since<LivingSide>>(
    alloc: Global,
    phase: Phase,
    kept: Kept,
    side: LivingSide,
    classes: &[Class],
) -> Result<(Kept, LivingSide), NoMemory>
    requires rests { IsResting kept side B.since }
    requires start { B.start ≡ side }
    requires needs { NeedsFor phase classes.now side }
    ensures { IfOk result (λ r. StepOf phase classes.now kept side B.since r.0 r.1) }
{
    match phase {
        Phase::Ends => end_own::<B>(kept, side, classes),
        Phase::Sweeps => sweep_own::<B>(alloc, kept, side, classes),
    }
}

// What a processor keeps is taken out of its place.
fn take_kept(places: &mut Vec<Option<Kept>>, processor: u8) -> Kept
    requires { (kept : KeptValue) × Keeps places.old.items processor kept }
    ensures kept { Keeps places.old.items processor result }
    ensures places { places.new.items ≡ set places.old.items processor None }
{
    let Some(kept) = places[processor as usize].take() else {
        unreachable!();
    };
    kept
}

// .. and is put back
fn put_kept(places: &mut Vec<Option<Kept>>, processor: u8, kept: Kept)
    requires { slice_get places.old.items processor ≡ Some None }
    ensures { places.new.items ≡ set places.old.items processor (Some kept) }
{
    if let Some(_other) = mem::replace(&mut places[processor as usize], Some(kept)) {
        unreachable!();
    }
}

// The world at the turn of a processor.
fn turned(world: Option<LivingSide>, processor: u8) -> LivingSide
    requires { (w : LivingState) × (world ≡ Some w) × (processor < w.side.post.processors) }
    ensures { (w : LivingState) → world ≡ Some w → result ≡ at_turn processor w }
{
    let Some(mut world) = world else {
        unreachable!();
    };
    world.turn(processor);
    world
}

// .. and given back
fn put_world(world: &mut Option<LivingSide>, now: LivingSide)
    requires { world.old ≡ None }
    ensures { world.new ≡ Some now }
{
    if let Some(_other) = mem::replace(world, Some(now)) {
        unreachable!();
    }
}

// Processors that close on one thread, in turns: what each keeps, and the world that they share. Each is there while none takes a
// step.
struct Closers<'s> {
    alloc: Global,
    processors: u8,
    places: Vec<Option<Kept>>,
    world: Option<LivingSide>,
    classes: &'s [Class],
}

impl<'s> Crew for Closers<'s> {
    ghost count = { λ c. c.processors };

    ghost may = { λ phase c p. IsAmong (OwnBefore phase) (gathered c) p };

    ghost has = { λ phase c p. IsAmong (OwnAfter phase) (gathered c) p };

    ghost goes = { λ phase p a b. TookStep phase p (gathered a) (gathered b) };

    ghost number = { λ c d. number_among c.processors c.world d };

    ghost holds = { λ c p. held_of c.classes.now (gathered c) p };

    fn processors(&self) -> u8 {
        self.processors
    }

    fn step(&mut self, phase: Phase, processor: u8) -> Result<(), NoMemory> {
        let kept = take_kept(&mut self.places, processor);
        let side = turned(self.world.take(), processor);
        let (kept, side) = step_own::<Brand>(self.alloc, phase, kept, side, self.classes)?;
        put_kept(&mut self.places, processor, kept);
        put_world(&mut self.world, side);
        Ok(())
    }

    ghost sweeps_next = { λ c h. sweeps-next (gathered c) h };

    ghost even = { λ phase c h d. all-even phase (gathered c) h d };

    ghost empty = { λ c p h. holds-none (gathered c) p h };
}

// Processor 0 notes that the closing begins, and empties the maps. Want of memory is the only refusal.
fn begin_own<'s, B: Since<LivingSide>>(
    kept: Kept,
    side: LivingSide,
    program: &'s Program<'s>,
) -> Result<(Kept, LivingSide), NoMemory>
    requires told { kept.caches.recorder.told ≡ Some B.since }
    requires start { B.start ≡ side }
    requires sound { Sound knows_living program.now (in_its_turn kept side) }
    requires first { side.side.grace.processor ≡ 0 }
    requires unlocked { kept.locked ≡ None }
    requires room { HasRoomFor program.now (in_its_turn kept side) }
    ensures { IfOk result (λ r. BeginsClosing program.now kept side B.since r.0 r.1) }
{
    let mut own = Processor::open(kept, side);
    note(&mut own, Entry::Close);
    let emptied = empty_maps::<B>(&mut own, program);
    let (kept, side) = own.close();
    if emptied.is_err() {
        kept.give_up();
        side.give_up();
        return Err(NoMemory);
    }
    if_told(kept, side)
}

// The log that a processor's recorder tells, where its lists and hands are empty. None where it has lost an entry.
fn log_of(place: Option<Kept>) -> Option<Log>
    requires { IsEmptied place }
    ensures told { result ≡ log_kept place }
    ensures whole { IfSome result (λ log. IsTrue (is_whole_log log)) }
{
    let Some(kept) = place else {
        unreachable!();
    };
    let Kept {
        alloc: _,
        caches,
        settled: _,
        inside: _,
        locked: _,
        handlers: _,
        running: _,
        tables: _,
        calls: _,
    } = kept;
    caches.finish().into_log()
}

// A log more. Want of memory is the only refusal.
fn add_log(logs: &mut Vec<Log>, log: Log) -> Result<(), NoMemory>
    ensures { OnOk result (logs.new.items ≡ logs.old.items ++ log ∷ []) }
{
    logs.push(log)?;
    Ok(())
}

// The logs that all recorders tell, in the order of their processors. Want of memory is the only refusal.
fn logs_of(alloc: Global, places: Vec<Option<Kept>>) -> Result<Vec<Log>, NoMemory>
    requires { All IsEmptied places.items }
    ensures told { IfOk result
        (λ logs. map Some logs.items ≡ map log_kept places.items) }
    ensures whole { IfOk result (λ logs. All (λ log. IsTrue (is_whole_log log)) logs.items) }
{
    let mut places = places;
    let mut logs = Vec::new(alloc);
    while let Some(place) = places.pop() {
        let Some(log) = log_of(place) else {
            give_up_places(places);
            return Err(NoMemory);
        };
        if add_log(&mut logs, log).is_err() {
            give_up_places(places);
            return Err(NoMemory);
        }
    }
    places.destroy_empty();
    logs.as_mut_slice().reverse();
    Ok(logs)
}

// The histories of the maps that the world tells, at its end. Want of memory is the only refusal.
fn histories_of(alloc: Global, world: Option<LivingSide>) -> Result<Vec<History>, NoMemory>
    requires { (w : LivingState) × (world ≡ Some w) }
    ensures { IfOk result (λ histories. TellsHistories world histories.items) }
{
    let Some(world) = world else {
        unreachable!();
    };
    world.into_histories(alloc)
}

// The closing of processors whose closing has begun. Want of memory is the only refusal.
fn close_begun(
    alloc: Global,
    places: Vec<Option<Kept>>,
    world: LivingSide,
    classes: &[Class],
) -> Result<Closed, NoMemory>
    requires some { 0 < length places.items }
    requires few { length places.items ≤ 8 }
    requires may { (p : ℕ) → p < length places.items →
        IsAmong (OwnBefore EndsPhase) (gathered_with places.items world classes.now) p }
    ensures closed { IfOk result (λ closed.
        CloseTogether (gathered_with places.items world classes.now) closed.logs.items
        closed.histories.items) }
    ensures whole { IfOk result
        (λ closed. All (λ log. IsTrue (is_whole_log log)) closed.logs.items) }
{
    let mut closers = Closers {
        alloc,
        processors: places.len() as u8,
        places,
        world: Some(world),
        classes,
    };
    let closed = close_all(&mut closers);
    let Closers {
        alloc: _,
        processors: _,
        places,
        world,
        classes: _,
    } = closers;
    if closed.is_err() {
        give_up_places(places);
        if let Some(world) = world {
            world.give_up();
        }
        return Err(NoMemory);
    }
    let histories = match histories_of(alloc, world) {
        Ok(histories) => histories,
        Err(_) => {
            give_up_places(places);
            return Err(NoMemory);
        }
    };
    let logs = logs_of(alloc, places)?;
    Ok(Closed { logs, histories })
}

/// What processors leave that have closed: what the recorder of each holds, ascending, and the history of each map, in the order of their
/// declarations; that of a slot is empty.
#[derive(Drop)]
pub struct Closed {
    pub logs: Vec<Log>,
    pub histories: Vec<History>,
}

/// The closing of all processors, whose scripts have ended: processor 0 begins it, and gives up what the maps hold; each ends the periods
/// that it has in progress; and then each sweeps these classes. Out of memory is the only refusal.
pub fn close_seats<'s>(
    alloc: Global,
    seats: Vec<Seat<'s>>,
    world: LivingSide,
    program: &'s Program<'s>,
    classes: &[Class],
) -> Result<Closed, NoMemory>
    requires between { (turns : List ℕ) × Between program.now turns [] seats.items world }
    requires stopped { AllStopped seats.items }
    requires classes { classes.now ≡ opened_classes program.now.scenario.now.types }
    requires apart { are_apart (map (λ (m : MapValue). m.name) program.now.scenario.now.maps)
        ≡ true }
    requires few { length program.now.scenario.now.maps ≤ 64 }
    ensures closed { IfOk result (λ closed. (turns : List ℕ) →
        Between program.now turns [] seats.entry.items world →
        AllClosed program.now.scenario.now turns closed.logs.items closed.histories.items) }
    ensures whole { IfOk result
        (λ closed. All (λ log. IsTrue (is_whole_log log)) closed.logs.items) }
{
    handled_law();
    world.few_items();
    let mut places = match places_of(alloc, seats) {
        Ok(places) => places,
        Err(_) => {
            world.give_up();
            return Err(NoMemory);
        }
    };
    let kept = take_kept(&mut places, 0);
    let side = turned(Some(world), 0);
    let (kept, world) = match begin_own::<Brand>(kept, side, program) {
        Ok(begun) => begun,
        Err(_) => {
            give_up_places(places);
            return Err(NoMemory);
        }
    };
    put_kept(&mut places, 0, kept);
    world.all_at_rest();
    close_begun(alloc, places, world, classes)
}
