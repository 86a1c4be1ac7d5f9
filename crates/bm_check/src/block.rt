//! Blocks, and the statements that hold them.

ghost use Rattle.std.specs.Prelude.{◌≡◌, OnOk, IfOk, IfErr, Some, None, if◌then◌else◌};
ghost use Rattle.bm_check.specs.Changes.{names_in, at_states, Leads, Starts, KeepsStart};
ghost use Rattle.bm_check.specs.Meetings.{after_meeting};
ghost use Rattle.bm_check.specs.Answers.{IsEntered, IsOther, IsJudged};
ghost use Rattle.bm_check.specs.declared.rule.Rule.TheVariants.{LockInItsBlock};
ghost use Rattle.bm_check.specs.declared.stop.Stop.TheVariants.{NoMemory};
ghost use Rattle.bm_check.specs.Statements.{setting_of};
ghost use Rattle.bm_check.specs.Blocks as spec;

use crate::meeting::Meeting;
use crate::name_log::{Change, NameLog};
use crate::name_state::{HeldLock, NameState};
use crate::rule::Rule;
use crate::setting::Setting;
use crate::statement::{doubtful, simple};
use crate::stop::Stop;
use bm_lang::{Action, Block};
use bm_word::Name;
use std::alloc::Global;

/// Where a statement with blocks ends: what meets there, the last line, and the lock around it.
#[derive(Clone, Copy)]
struct Leaving {
    meeting: Meeting,
    line: u32,
    lock: HeldLock,
}

fn is_here(lock: HeldLock) -> bool
    ensures { spec.given_back lock ≡ (if result then Some LockInItsBlock else None) }
{
    match lock {
        HeldLock::Here(_) => true,
        _ => false,
    }
}

// The start of an `if`: its own log is begun, and the name isn't null in the first block. Gives the log before it.
fn enter_first<'a>(
    alloc: Global,
    log: &mut NameLog<'a>,
    line: u32,
    name: &'a Name,
) -> Result<Vec<Change<'a>>, Stop>
    ensures { IsEntered result line log.old log.new name.now }
{
    let state = log.table.state(name.as_bytes());
    if let Some(rule) = doubtful(state) {
        return Err(Stop::Broken { line, rule });
    }
    let outer = log.begin(alloc);
    log.put(name.as_bytes(), state.non_null())?;
    Ok(outer)
}

// Between the blocks of an `if`: back to the states before it, but that the name is spent. Gives the log that leads to
// those at the first block's end.
fn enter_other<'a>(
    alloc: Global,
    log: &mut NameLog<'a>,
    name: &'a Name,
) -> Result<Vec<Change<'a>>, Stop>
    ensures ok { IfOk result
        (λ first. (f : _) → Starts log.old f → IsOther first log.old log.new name.now f) }
    ensures err { IfErr result (λ stop. stop ≡ NoMemory) }
{
    let first = log.go_back(alloc)?;
    log.put(name.as_bytes(), NameState::Spent)?;
    Ok(first)
}

// The end of an `if` or a `repeat`: what meets there is compared and joined, and the log before it goes on.
fn leave<'a>(
    alloc: Global,
    log: &mut NameLog<'a>,
    end: Leaving,
    first: Vec<Change<'a>>,
    outer: Vec<Change<'a>>,
) -> Result<HeldLock, Stop>
    ensures judged { (f g : _) → Starts log.old f
        → Leads first.entry.items (at_states (names_in log.old) f) g
        → IsJudged result (names_in log.new)
        (after_meeting end.meeting end.line end.lock (at_states (names_in log.old) g)
        (spec.at (names_in log.old) end.lock)) }
    ensures kept { OnOk result
        ((f g h : _) → Starts log.old f → Leads first.entry.items (at_states (names_in log.old) f) g
        → Leads outer.entry.items (at_states (names_in log.old) f) h → Starts log.new h) }
{
    match log.meet(alloc, first, end.meeting)? {
        Some(outcomes) => {
            log.changes = outer;
            log.apply(outcomes)?;
            Ok(end.lock)
        }
        None => Err(Stop::Broken {
            line: end.line,
            rule: end.meeting.rule(),
        }),
    }
}

/// The statements of a block, begun under a lock, and its end.
#[cycle(blocks)]
pub fn judge_block<'a>(
    alloc: Global,
    setting: &Setting,
    log: &mut NameLog<'a>,
    lock: HeldLock,
    block: &'a Block,
) -> Result<HeldLock, Stop>
    ensures judged { IsJudged result (names_in log.new)
        (spec.judged_block (setting_of setting.now.scenario.now setting.now.kind)
        (spec.at (names_in log.old) lock) block.now) }
    ensures kept { OnOk result (KeepsStart log.old log.new) }
{
    let mut held = lock.from_inside();
    for statement in &block.statements {
        held = judge_action(alloc, setting, log, held, statement.line, &statement.action)?;
    }
    if is_here(held) {
        return Err(Stop::Broken {
            line: block.end_line,
            rule: Rule::LockInItsBlock,
        });
    }
    Ok(lock)
}

#[cycle(blocks)]
fn judge_action<'a>(
    alloc: Global,
    setting: &Setting,
    log: &mut NameLog<'a>,
    lock: HeldLock,
    line: u32,
    action: &'a Action,
) -> Result<HeldLock, Stop>
    ensures judged { IsJudged result (names_in log.new)
        (spec.judged_action (setting_of setting.now.scenario.now setting.now.kind)
        (spec.at (names_in log.old) lock) line action.now) }
    ensures kept { OnOk result (KeepsStart log.old log.new) }
{
    match action {
        Action::If {
            name,
            body,
            otherwise,
        } => {
            let outer = enter_first(alloc, log, line, name)?;
            judge_block(alloc, setting, log, lock, body)?;
            let first = enter_other(alloc, log, name)?;
            let end_line = match otherwise {
                Some(block) => {
                    judge_block(alloc, setting, log, lock, block)?;
                    block.end_line
                }
                None => body.end_line,
            };
            let end = Leaving {
                meeting: Meeting::Branches,
                line: end_line,
                lock,
            };
            leave(alloc, log, end, first, outer)
        }
        Action::Repeat { body, .. } => {
            let outer = log.begin(alloc);
            judge_block(alloc, setting, log, lock, body)?;
            let end = Leaving {
                meeting: Meeting::Body,
                line: body.end_line,
                lock,
            };
            leave(alloc, log, end, Vec::new(alloc), outer)
        }
        Action::Section { body } => judge_block(alloc, setting, log, lock, body),
        _ => simple(setting, log, lock, line, action),
    }
}
