//! The turns of a processor: the scripts of its `run` lines, each from where it stopped to its next `yield` or its end.

ghost use Rattle.std.specs.Prelude.{◌≡◌, ◌+◌, ◌*◌, ◌<◌, ◌≤◌, ◌%◌, ◌^◌, [], ℕ, IfNone, IfOk, IfSome, List, None, OnOk, Option, Some, length, slice_get};
ghost use Rattle.bm_world.specs.LivingState.{LivingState};
ghost use Rattle.bm_world.specs.ToldLiving.{knows_living};
ghost use Rattle.bm_journal.specs.declared.ids.Domain.{Domain as DomainValue};
ghost use Rattle.bm_journal.specs.declared.ids.Domain.TheVariants.{Plain, Tracing};
ghost use Rattle.bm_lang.specs.Limits.{block_cost};
ghost use Rattle.bm_law.specs.Lists.{Log};
ghost use Rattle.bm_exec.specs.Cost.{stack_cost};
ghost use Rattle.bm_exec.specs.Lists.{Behind, behind_of};
ghost use Rattle.bm_exec.specs.Yields.{IfWent, IsTurn, Unyielding};
ghost use Rattle.bm_exec.specs.declared.running.Stopped.TheVariants as stopped;
ghost use Rattle.bm_law_scenario.specs.Grammar.{is_plain, section_of, starts_inside};
ghost use Rattle.bm_exec_levels.specs.AtProcessor.{SameLives, lists_of, log_of};
ghost use Rattle.bm_exec_levels.specs.AtTie.{TiedAt};
ghost use Rattle.bm_exec_levels.specs.Ordinary.{Scripted};
ghost use Rattle.bm_exec_levels.specs.Ready.{asked_of, left_of, word_of};
ghost use Rattle.bm_exec_levels.specs.Sound.{Sound};
ghost use Rattle.bm_run.specs.Lines.{lines_cost, works_for, AreDeclared, Wrote};
ghost use Rattle.bm_run.specs.Turns.{Advanced, CanRun, GoesTo, HasBegun, HasEnded, HasRun, IsInScript, IsNextOf, NothingLeft, WentOn, blocks_of, cost_left, lines_left, used_in, weight_left};
ghost use Rattle.bm_run.specs.declared.turns.Turned.TheVariants as turned;

use crate::stretches::{begin_script, end_script, settle_behind};
use bm_exec::{Activation, Stopped, resume};
use bm_exec_levels::{Deferred, Ground, Processor, Program, Since};
use bm_journal::Domain;
use bm_lang::{Parts, RunLine, Script, ScriptKind};
use bm_word::NoMemory;
use bm_world::LivingSide;
use std::alloc::Global;
use std::marker::PhantomData;

/// A script that has begun on a processor and hasn't ended.
#[derive(Drop)]
pub struct Begun<'s> {
    pub script: &'s Script,
    pub activation: Activation<'s>,
}

/// What a processor has still to run: the script that it stopped in, if it did, and the `run` lines that it hasn't come to, among them
/// those of other processors.
#[derive(Drop)]
pub struct Remaining<'s> {
    pub processor: u32,
    pub begun: Option<Begun<'s>>,
    pub lines: &'s [RunLine],
}

/// How a turn ended.
#[derive(Clone, Copy, Debug, PartialEq, Eq)]
pub enum Turned {
    /// With a `yield`.
    Yielded,
    /// With the end of the processor's scripts.
    Ended,
}

// The domain of the section that a script of a kind runs in.
fn section_of(kind: ScriptKind) -> Domain
    ensures { result ≡ section_of kind }
{
    match kind {
        ScriptKind::Sleepable => Domain::Tracing,
        ScriptKind::Plain | ScriptKind::Handler => Domain::Plain,
    }
}

// Whether a script of a kind is in a plain section from its begin to its end.
fn is_plain(kind: ScriptKind) -> bool
    ensures { result ≡ is_plain (section_of kind) }
{
    match kind {
        ScriptKind::Sleepable => false,
        ScriptKind::Plain | ScriptKind::Handler => true,
    }
}

// Begins a script, and its section. Out of memory is the only refusal.
fn begin<'s>(
    alloc: Global,
    own: &mut Processor<LivingSide>,
    program: &'s Program<'s>,
    script: &'s Script,
) -> Result<Begun<'s>, NoMemory>
    requires sound { Sound knows_living program.now own.old }
    requires found { (i : ℕ) × (slice_get program.now.scenario.now.scripts i ≡ Some script.now) }
    requires outside { (d : DomainValue) → word_of knows_living d own.old % 2 ≡ 0 }
    requires unlocked { own.old.locked ≡ None }
    requires room { used_in program.now.scenario.now own.old + 3 * block_cost script.now.body + 5
        < 2 ^ 22 }
    ensures begun { IfOk result (λ begun. (w : Option (List ℕ)) → Behind w (lists_of own.old) []
        → HasBegun program.now.scenario.now w script.now own.old own.new begun) }
    ensures yields { OnOk result (Unyielding 0 (log_of own.old) (log_of own.new)) }
    ensures sound { OnOk result (Sound knows_living program.now own.new) }
    ensures tied { OnOk result ((since : Log) (start : LivingState)
        → TiedAt knows_living since start own.old → TiedAt knows_living since start own.new) }
{
    let domain = section_of(script.kind);
    begin_script(own, &script.name, domain);
    let activation = Activation::begin(alloc, &program.types, program.scenario, script)?;
    Ok(Begun { script, activation })
}

// Goes on with a script, as ordinary code, to its next `yield` or its end.
fn go_on<'s, B: Since<LivingSide>>(
    own: &mut Processor<LivingSide>,
    program: &'s Program<'s>,
    deferred: &'s Deferred<'s>,
    begun: Begun<'s>,
) -> (Stopped, Begun<'s>)
    requires sound { Sound knows_living program.now own.old }
    requires tied { TiedAt knows_living B.since B.start own.old }
    requires few { IfSome deferred.now.behind (λ classes. length classes.now ≤ 11) }
    requires stands { IsInScript program.now.scenario.now (behind_of deferred.now.behind) own.old
        begun }
    requires room { used_in program.now.scenario.now own.old + 3 * stack_cost (blocks_of begun)
        < 2 ^ 22 }
    ensures turn { IsTurn result.0 0 (log_of own.old) (log_of own.new) }
    ensures yielded { result.0 ≡ stopped.Yielded
        → WentOn program.now.scenario.now (behind_of deferred.now.behind) own.old own.new
        begun.entry result.1 }
    ensures ended { result.0 ≡ stopped.Ended
        → HasRun program.now.scenario.now (behind_of deferred.now.behind) own.old own.new
        begun.entry }
    ensures same { result.1.script.now ≡ begun.entry.script.now }
    ensures scripted { IfWent result.0
        (Scripted knows_living (starts_inside begun.entry.script.now) own.old own.new) }
    ensures sound { IfWent result.0 (Sound knows_living program.now own.new) }
    ensures tied { IfWent result.0 (TiedAt knows_living B.since B.start own.new) }
{
    let within = is_plain(begun.script.kind);
    let mut code = Ground::<LivingSide, B> {
        own,
        program,
        deferred,
        within,
        since: PhantomData,
    };
    let Begun { script, activation } = begun;
    let Activation {
        mut frame,
        mut names,
    } = activation;
    let stopped = resume(&mut frame, &mut names, &mut code, &program.types);
    let Ground {
        own: _,
        program: _,
        deferred: _,
        within: _,
        since: _,
    } = code;
    let activation = Activation { frame, names };
    (stopped, Begun { script, activation })
}

// Ends a script's section, and the script, and runs the deferred work after it. Out of memory is the only refusal.
fn finish<'s, B: Since<LivingSide>>(
    own: &mut Processor<LivingSide>,
    program: &'s Program<'s>,
    deferred: &'s Deferred<'s>,
    script: &'s Script,
) -> Result<(), NoMemory>
    requires sound { Sound knows_living program.now own.old }
    requires tied { TiedAt knows_living B.since B.start own.old }
    requires few { IfSome deferred.now.behind (λ classes. length classes.now ≤ 11) }
    requires inside { word_of knows_living (section_of script.now.kind) own.old % 2 ≡ 1 }
    requires outer { own.old.inside ≡ starts_inside script.now }
    requires apart { section_of script.now.kind ≡ Plain
        → word_of knows_living Tracing own.old % 2 ≡ 0 }
    requires unlocked { own.old.locked ≡ None }
    requires room { used_in program.now.scenario.now own.old + 2 < 2 ^ 22 }
    ensures ended { OnOk result
        (HasEnded program.now.scenario.now (behind_of deferred.now.behind) script.now own.old
        own.new) }
    ensures yields { OnOk result (Unyielding 0 (log_of own.old) (log_of own.new)) }
    ensures sound { OnOk result (Sound knows_living program.now own.new) }
    ensures tied { OnOk result (TiedAt knows_living B.since B.start own.new) }
{
    end_script(own, &script.name, section_of(script.kind));
    settle_behind::<B>(own, program, deferred)
}

// The script of the next `run` line of the processor, which is taken off those that remain; None where none remains.
fn next_script<'s>(remaining: &mut Remaining<'s>, scenario: &'s Parts) -> Option<&'s Script>
    requires declared { AreDeclared scenario.now remaining.old.lines.now }
    ensures some { IfSome result
        (λ script. IsNextOf scenario.now script.now remaining.old remaining.new) }
    ensures none { IfNone result (lines_left remaining.old ≡ []) }
    ensures none_left { IfNone result (lines_left remaining.new ≡ []) }
    ensures declared { AreDeclared scenario.now remaining.new.lines.now }
    ensures same { remaining.new ≡ record remaining.old { lines = remaining.new.lines } }
    ensures less { lines_cost remaining.old.processor scenario.now.scripts remaining.new.lines.now
        ≤ lines_cost remaining.old.processor scenario.now.scripts remaining.old.lines.now }
{
    while let [line, rest @ ..] = remaining.lines {
        remaining.lines = rest;
        if line.processor == remaining.processor {
            let Some(script) = scenario.scripts.as_slice().get(line.script.0) else {
                unreachable!();
            };
            return Some(script);
        }
    }
    None
}

// The script that the processor goes on with: the one that it stopped in, or else that of its next line, which begins; None where
// nothing remains. Out of memory is the only refusal.
fn next_begun<'s>(
    alloc: Global,
    own: &mut Processor<LivingSide>,
    program: &'s Program<'s>,
    deferred: &'s Deferred<'s>,
    remaining: &mut Remaining<'s>,
) -> Result<Option<Begun<'s>>, NoMemory>
    requires sound { Sound knows_living program.now own.old }
    requires works { behind_of deferred.now.behind ≡ works_for program.now.scenario.now }
    requires can { CanRun program.now.scenario.now (behind_of deferred.now.behind) own.old
        remaining.old }
    requires room { used_in program.now.scenario.now own.old
        + cost_left program.now.scenario.now remaining.old
        < 2 ^ 22 }
    ensures advanced { IfOk result
        (λ begun. Advanced program.now.scenario.now (behind_of deferred.now.behind)
        own.old remaining.old own.new (record remaining.new { begun = begun })) }
    ensures light { IfOk result
        (λ begun. weight_left program.now.scenario.now (record remaining.new { begun = begun })
        ≤ weight_left program.now.scenario.now remaining.old) }
    ensures taken { OnOk result (remaining.new.begun ≡ None) }
    ensures processor { OnOk result (remaining.new.processor ≡ remaining.old.processor) }
    ensures none { IfOk result (λ begun. begun ≡ None → lines_left remaining.new ≡ []) }
    ensures yields { OnOk result (Unyielding 0 (log_of own.old) (log_of own.new)) }
    ensures sound { OnOk result (Sound knows_living program.now own.new) }
    ensures tied { OnOk result ((since : Log) (start : LivingState)
        → TiedAt knows_living since start own.old → TiedAt knows_living since start own.new) }
{
    if let Some(begun) = remaining.begun.take() {
        return Ok(Some(begun));
    }
    match next_script(remaining, program.scenario) {
        Some(script) => Ok(Some(begin(alloc, own, program, script)?)),
        None => Ok(None),
    }
}

/// A processor's turn: it goes on from where it stopped, up to and with its next `yield`, or to the end of its scripts, each in its
/// section and with the deferred work after it; and the handlers that are due meanwhile. Out of memory is the only refusal.
pub fn take_turn<'s, B: Since<LivingSide>>(
    alloc: Global,
    own: &mut Processor<LivingSide>,
    program: &'s Program<'s>,
    deferred: &'s Deferred<'s>,
    remaining: &mut Remaining<'s>,
) -> Result<Turned, NoMemory>
    requires sound { Sound knows_living program.now own.old }
    requires tied { TiedAt knows_living B.since B.start own.old }
    requires works { behind_of deferred.now.behind ≡ works_for program.now.scenario.now }
    requires few { IfSome deferred.now.behind (λ classes. length classes.now ≤ 11) }
    requires can { CanRun program.now.scenario.now (behind_of deferred.now.behind) own.old
        remaining.old }
    requires room { used_in program.now.scenario.now own.old
        + cost_left program.now.scenario.now remaining.old
        < 2 ^ 22 }
    ensures advanced { OnOk result (Advanced program.now.scenario.now
        (behind_of deferred.now.behind)
        own.old remaining.old own.new remaining.new) }
    ensures turn { IfOk result (λ how. GoesTo how (log_of own.old) (log_of own.new)) }
    ensures left { IfOk result (λ how. NothingLeft how remaining.new) }
    ensures processor { OnOk result (remaining.new.processor ≡ remaining.old.processor) }
    ensures less { IfOk result (λ how. how ≡ turned.Yielded
        → weight_left program.now.scenario.now remaining.new
        < weight_left program.now.scenario.now remaining.old) }
    ensures sound { OnOk result (Sound knows_living program.now own.new) }
    ensures tied { OnOk result (TiedAt knows_living B.since B.start own.new) }
{
    'scripts: loop {
        let Some(begun) = next_begun(alloc, own, program, deferred, remaining)? else {
            return Ok(Turned::Ended);
        };
        let (stopped, begun) = go_on::<B>(own, program, deferred, begun);
        match stopped {
            Stopped::Yielded => {
                remaining.begun = Some(begun);
                return Ok(Turned::Yielded);
            }
            Stopped::Ended => finish::<B>(own, program, deferred, begun.script)?,
            Stopped::NoMemory => return Err(NoMemory),
        }
    }
}
