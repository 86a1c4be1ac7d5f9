//! Handlers that are due.

ghost use Rattle.std.specs.Prelude.{◌≡◌, ◌+◌, ◌<◌, ◌++◌, ◌∷◌, [], ℕ, IfNone, IfSome, List, Some, length, slice_get};
ghost use Rattle.bm_journal.specs.declared.entry.Entry.TheVariants as entry;
ghost use Rattle.bm_journal.specs.Recording.{Appends};
ghost use Rattle.bm_due.specs.declared.planned.Due.{Due as DueValue};
ghost use Rattle.bm_exec_levels.specs.AtProcessor.{Between, CameAt, FineAt, HasPhrase, IsAt, IsBegun, IsDue, SameLives, due_cost, log_of};
ghost use Rattle.bm_exec_levels.specs.AtTie.{TiedAt};
ghost use Rattle.bm_exec_levels.specs.Ready.{BindsAll, known_of, left_of};
ghost use Rattle.bm_exec_levels.specs.declared.processor.Processor.{Processor as ProcessorValue};
ghost use Rattle.bm_plan.specs.Position.{AboutTo, AskedAt, StandsAt};

use crate::inside::run_inside;
use crate::processor::Processor;
use crate::program::Program;
use crate::ranks::Rank;
use bm_due::Due;
use bm_exec::NameTable;
use bm_journal::{Entry, Level};
use bm_lang::Script;
use bm_world::{Lives, Since};

// The handler that is due before the next step of code of this level, and begins; None, and nothing changes, where none is due.
fn begin_due<'s, W: Lives>(
    own: &mut Processor<W>,
    program: &'s Program<'s>,
    level: Level,
) -> Option<Due>
    requires at { IsAt W.Knows AboutTo level program.now own.old }
    requires fine { FineAt W.Knows (level + 1) own.old }
    ensures none { IfNone result (own.new ≡ own.old) }
    ensures asked { IfNone result (IsAt W.Knows AskedAt level program.now own.old) }
    ensures begun { IfSome result (λ due. IsBegun W.Knows level program.now due own.old own.new) }
    ensures between { Between W.Knows 0 0 (level + 1) program.now own.old own.new }
    ensures lives { SameLives W.Knows own.old own.new }
    ensures same { own.new ≡ record own.old { handlers = own.new.handlers } }
{
    let step = own.caches.next_step();
    own.handlers.begin_due(step, level)
}

/// All handlers that are due before the next step of code of a level run, the highest level first, then in the order of the text,
/// and the step's number is read anew after each. Where none is due nothing changes. It takes no memory but the recorder's.
pub(crate) fn run_due<'s, W: Lives, B: Since<W>, L: Rank>(
    own: &mut Processor<W>,
    program: &'s Program<'s>,
)
    requires at { IsAt W.Knows AboutTo L.number program.now own.old }
    requires tied { TiedAt W.Knows B.since B.start own.old }
    requires fine { FineAt W.Knows (L.number + 1) own.old }
    ensures asked { IsAt W.Knows AskedAt L.number program.now own.new }
    ensures tied { TiedAt W.Knows B.since B.start own.new }
    ensures between { Between W.Knows 0 0 (L.number + 1) program.now own.old own.new }
    ensures lives { SameLives W.Knows own.old own.new }
    ensures quiet { length (left_of own.new) ≡ length (left_of own.old) → own.new ≡ own.old }
{
    while let Some(due) = begin_due(own, program, L::level()) {
        L::interrupt::<W, B>(own, program, &due);
    }
}

// The script of a handler.
fn script_of<'s>(program: &'s Program<'s>, due: &Due) -> &'s Script
    requires { due.now.script.0 < length program.now.scenario.now.scripts }
    ensures { slice_get program.now.scenario.now.scripts due.now.script.0 ≡ Some result.now }
{
    &program.scenario.scripts.as_slice()[due.script.0]
}

// A handler begins: its line stands next, it is among those that run, and a table of names is its own.
fn begin_handler<'s, W: Lives>(
    own: &mut Processor<W>,
    program: &'s Program<'s>,
    due: &Due,
    script: &'s Script,
) -> NameTable
    requires due { (k : ℕ) × IsDue W.Knows k program.now due.now own.old }
    requires found { slice_get program.now.scenario.now.scripts due.now.script.0 ≡ Some script.now }
    requires fine { FineAt W.Knows due.now.level own.old }
    ensures at { IsAt W.Knows StandsAt due.now.level program.now own.new }
    ensures said { Appends (log_of own.old) due.now.level (entry.Handler script.now.name)
        (log_of own.new) }
    ensures fine { FineAt W.Knows due.now.level own.new }
    ensures came { CameAt W.Knows due.now.level own.old own.new }
    ensures same { own.new
        ≡ record own.old
        { caches = own.new.caches; running = own.new.running; tables = own.new.tables } }
    ensures running { own.new.running.items ≡ own.old.running.items ++ due.now ∷ [] }
    ensures tables { length own.new.tables.items + 1 ≡ length own.old.tables.items }
    ensures bound { BindsAll program.now.scenario.now.scripts result }
{
    own.caches
        .note(due.level, Entry::Handler(script.name.duplicate()));
    match own.running.push(*due) {
        Ok(()) => {}
        Err(_) => unreachable!(),
    }
    match own.tables.pop() {
        Some(table) => table,
        None => unreachable!(),
    }
}

// A handler goes back: its line stands next, it is no more among those that run, and its table of names is free.
fn end_handler<'s, W: Lives>(
    own: &mut Processor<W>,
    program: &'s Program<'s>,
    due: &Due,
    script: &'s Script,
    table: NameTable,
)
    requires at { IsAt W.Knows StandsAt due.now.level program.now own.old }
    requires found { slice_get program.now.scenario.now.scripts due.now.script.0 ≡ Some script.now }
    requires phrase { IfSome (log_of own.old)
        (HasPhrase (known_of W.Knows own.old).grace.processor due.now.level program.now.scenario.now
        script.now.name) }
    requires fine { FineAt W.Knows due.now.level own.old }
    requires runs { (dues : List DueValue) × (own.old.running.items ≡ dues ++ due.now ∷ []) }
    requires bound { BindsAll program.now.scenario.now.scripts table }
    ensures at { (was : ProcessorValue W) (k : ℕ) → IsDue W.Knows k program.now due.now was
        → own.old.running.items ≡ was.running.items ++ due.now ∷ []
        → IsAt W.Knows AboutTo k program.now own.new }
    ensures said { Appends (log_of own.old) due.now.level (entry.Back script.now.name)
        (log_of own.new) }
    ensures fine { FineAt W.Knows due.now.level own.new }
    ensures came { CameAt W.Knows due.now.level own.old own.new }
    ensures same { own.new
        ≡ record own.old
        { caches = own.new.caches; running = own.new.running; tables = own.new.tables } }
    ensures running { (dues : List DueValue) → own.old.running.items ≡ dues ++ due.now ∷ []
        → own.new.running.items ≡ dues }
    ensures tables { length own.new.tables.items ≡ length own.old.tables.items + 1 }
{
    own.caches
        .note(due.level, Entry::Back(script.name.duplicate()));
    let _gone = own.running.pop();
    match own.tables.push(table) {
        Ok(()) => {}
        Err(_) => unreachable!(),
    }
}

/// A handler that is due runs, on the machine of its level. It takes no memory but the recorder's.
pub(crate) fn run_one<'s, W: Lives, B: Since<W>, L: Rank>(
    own: &mut Processor<W>,
    program: &'s Program<'s>,
    due: &Due,
)
    requires due { (k : ℕ) × IsDue W.Knows k program.now due.now own.old }
    requires level { due.now.level ≡ L.number }
    requires tied { TiedAt W.Knows B.since B.start own.old }
    requires fine { FineAt W.Knows due.now.level own.old }
    ensures at { (k : ℕ) → IsDue W.Knows k program.now due.now own.old
        → IsAt W.Knows AboutTo k program.now own.new }
    ensures tied { TiedAt W.Knows B.since B.start own.new }
    ensures between { Between W.Knows (due_cost program.now due.now) 2 due.now.level program.now
        own.old own.new }
    ensures lives { SameLives W.Knows own.old own.new }
{
    let script = script_of(program, due);
    let mut table = begin_handler(own, program, due, script);
    run_inside::<W, B, L>(own, program, script, &mut table);
    end_handler(own, program, due, script, table);
}
