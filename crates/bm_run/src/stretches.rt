//! Stretches of a run that stand around what its scripts do.

ghost use Rattle.std.specs.Prelude.{◌≡◌, ◌+◌, ◌*◌, ◌<◌, ◌≤◌, ◌%◌, ◌^◌, ◌∷◌, [], IfSome, IsTrue, OnOk, false, length, true};
ghost use Rattle.bm_world.specs.ToldLiving.{knows_living};
ghost use Rattle.bm_journal.specs.declared.entry.Entry.TheVariants as entry;
ghost use Rattle.bm_journal.specs.declared.ids.Domain.TheVariants.{Plain};
ghost use Rattle.bm_law.specs.Begun.{for_domain};
ghost use Rattle.bm_journal.specs.Recording.{Appends};
ghost use Rattle.bm_grace.specs.Calls.{entered, left};
ghost use Rattle.bm_cache.specs.Shown.{shown};
ghost use Rattle.bm_cache.specs.Steps.{is_note};
ghost use Rattle.bm_law_work.specs.Parts.{Stand};
ghost use Rattle.bm_due.specs.Standing.{Stays as StaysKind, kind_of};
ghost use Rattle.bm_exec.specs.Lists.{Behind, behind_of};
ghost use Rattle.bm_exec_levels.specs.AtProcessor.{FineAt, SameLives, lists_of, log_of};
ghost use Rattle.bm_law.specs.Lists.{Log};
ghost use Rattle.bm_law_order.specs.Quiet.{is_quiet};
ghost use Rattle.bm_world.specs.LivingState.{LivingState};
ghost use Rattle.bm_exec_levels.specs.AtTie.{TiedAt};
ghost use Rattle.bm_exec_levels.specs.Calling.{is_marked};
ghost use Rattle.bm_exec_levels.specs.Growing.{IsInner};
ghost use Rattle.bm_exec_levels.specs.Ordinary.{Statements};
ghost use Rattle.bm_exec_levels.specs.Ready.{asked_of, known_of, left_of, word_of};
ghost use Rattle.bm_exec_levels.specs.Sound.{Sound};
ghost use Rattle.bm_exec_levels.specs.declared.program.Program.{Program as ProgramValue};
ghost use Rattle.bm_run.specs.Lines.{BehindScript, Wrote};

use bm_exec_levels::{
    Deferred, Processor, Program, Since, enter_section, leave_section, settle_script,
};
use bm_journal::{Domain, Entry, Level};
use bm_word::{Name, NoMemory};
use bm_world::LivingSide;

/// Records an entry of ordinary code that moves nothing.
pub(crate) fn note(own: &mut Processor<LivingSide>, entry: Entry)
    requires fine { FineAt knows_living 0 own.old }
    requires note { IsTrue (is_note entry) }
    ensures wrote { Wrote (Stand 0 (entry ∷ [])) own.old own.new }
    ensures said { Appends (log_of own.old) 0 entry (log_of own.new) }
    ensures lists { shown own.new.caches ≡ shown own.old.caches }
    ensures processor { own.new.caches.processor ≡ own.old.caches.processor }
    ensures same { own.new ≡ record own.old { caches = own.new.caches } }
    ensures fine { FineAt knows_living 0 own.new }
    ensures tied { IsTrue (is_quiet entry) → (since : Log) (start : LivingState)
        → TiedAt knows_living since start own.old → TiedAt knows_living since start own.new }
    ensures sound { (p : ProgramValue) → kind_of entry ≡ StaysKind → is_marked entry ≡ false
        → IsInner entry → Sound knows_living p own.old → Sound knows_living p own.new }
{
    own.caches.note(Level::ordinary(), entry);
}

// Begins the section that a script runs in, and records it.
fn go_in(own: &mut Processor<LivingSide>, domain: Domain)
    requires fine { FineAt knows_living 0 own.old }
    requires outside { word_of knows_living domain own.old % 2 ≡ 0 }
    requires few { word_of knows_living domain own.old + 1 < 2 ^ 28 }
    requires room { word_of knows_living Plain own.old + 2 * length (left_of own.old) + 1 < 2 ^ 28 }
    ensures wrote { Wrote (Stand 0 (entry.In domain (word_of knows_living domain own.old + 1) ∷ []))
        own.old own.new }
    ensures lists { shown own.new.caches ≡ shown own.old.caches }
    ensures processor { own.new.caches.processor ≡ own.old.caches.processor }
    ensures known { known_of knows_living own.new
        ≡ entered false domain (known_of knows_living own.old) }
    ensures inside { own.new.inside ≡ for_domain Plain domain true own.old.inside }
    ensures same { own.new
        ≡ record own.old { caches = own.new.caches; side = own.new.side; inside = own.new.inside } }
    ensures fine { FineAt knows_living 0 own.new }
    ensures tied { (since : Log) (start : LivingState) → TiedAt knows_living since start own.old
        → TiedAt knows_living since start own.new }
    ensures sound { (p : ProgramValue) → Sound knows_living p own.old
        → Sound knows_living p own.new }
{
    enter_section(own, Level::ordinary(), domain);
}

// Ends the section that a script ran in, and records it.
fn go_out(own: &mut Processor<LivingSide>, domain: Domain)
    requires fine { FineAt knows_living 0 own.old }
    requires inside { word_of knows_living domain own.old % 2 ≡ 1 }
    requires room { word_of knows_living Plain own.old + 2 * length (left_of own.old) + 1 < 2 ^ 28 }
    ensures wrote { Wrote
        (Stand 0 (entry.Out domain (word_of knows_living domain own.old + 1) ∷ [])) own.old
        own.new }
    ensures lists { shown own.new.caches ≡ shown own.old.caches }
    ensures processor { own.new.caches.processor ≡ own.old.caches.processor }
    ensures known { known_of knows_living own.new
        ≡ left false domain (known_of knows_living own.old) }
    ensures inside { own.new.inside ≡ for_domain Plain domain false own.old.inside }
    ensures same { own.new
        ≡ record own.old { caches = own.new.caches; side = own.new.side; inside = own.new.inside } }
    ensures fine { FineAt knows_living 0 own.new }
    ensures tied { (since : Log) (start : LivingState) → TiedAt knows_living since start own.old
        → TiedAt knows_living since start own.new }
    ensures sound { (p : ProgramValue) → Sound knows_living p own.old
        → Sound knows_living p own.new }
{
    leave_section(own, Level::ordinary(), domain);
}

/// Names a script, and begins its section.
pub(crate) fn begin_script(own: &mut Processor<LivingSide>, name: &Name, domain: Domain)
    requires fine { FineAt knows_living 0 own.old }
    requires outside { word_of knows_living domain own.old % 2 ≡ 0 }
    requires few { word_of knows_living domain own.old + 1 < 2 ^ 28 }
    requires room { word_of knows_living Plain own.old + 2 * length (left_of own.old) + 1 < 2 ^ 28 }
    ensures wrote { Wrote
        (Stand 0
        (entry.Script name.now ∷ entry.In domain (word_of knows_living domain own.old + 1)
        ∷ []))
        own.old own.new }
    ensures lists { shown own.new.caches ≡ shown own.old.caches }
    ensures known { known_of knows_living own.new
        ≡ entered false domain (known_of knows_living own.old) }
    ensures inside { own.new.inside ≡ for_domain Plain domain true own.old.inside }
    ensures same { own.new
        ≡ record own.old { caches = own.new.caches; side = own.new.side; inside = own.new.inside } }
    ensures tied { (since : Log) (start : LivingState) → TiedAt knows_living since start own.old
        → TiedAt knows_living since start own.new }
    ensures sound { (p : ProgramValue) → Sound knows_living p own.old
        → Sound knows_living p own.new }
{
    note(own, Entry::Script(name.duplicate()));
    go_in(own, domain);
}

/// Ends a script's section, and the script.
pub(crate) fn end_script(own: &mut Processor<LivingSide>, name: &Name, domain: Domain)
    requires fine { FineAt knows_living 0 own.old }
    requires inside { word_of knows_living domain own.old % 2 ≡ 1 }
    requires room { word_of knows_living Plain own.old + 2 * length (left_of own.old) + 1 < 2 ^ 28 }
    ensures wrote { Wrote
        (Stand 0
        (entry.Out domain (word_of knows_living domain own.old + 1) ∷ entry.Done name.now ∷ []))
        own.old own.new }
    ensures lists { shown own.new.caches ≡ shown own.old.caches }
    ensures known { known_of knows_living own.new
        ≡ left false domain (known_of knows_living own.old) }
    ensures inside { own.new.inside ≡ for_domain Plain domain false own.old.inside }
    ensures same { own.new
        ≡ record own.old { caches = own.new.caches; side = own.new.side; inside = own.new.inside } }
    ensures tied { (since : Log) (start : LivingState) → TiedAt knows_living since start own.old
        → TiedAt knows_living since start own.new }
    ensures sound { (p : ProgramValue) → Sound knows_living p own.old
        → Sound knows_living p own.new }
{
    go_out(own, domain);
    note(own, Entry::Done(name.duplicate()));
}

/// Runs the deferred work that stands after a script, if any runs. Out of memory is the only refusal.
pub(crate) fn settle_behind<'s, B: Since<LivingSide>>(
    own: &mut Processor<LivingSide>,
    program: &'s Program<'s>,
    deferred: &'s Deferred<'s>,
) -> Result<(), NoMemory>
    requires sound { Sound knows_living program.now own.old }
    requires tied { TiedAt knows_living B.since B.start own.old }
    requires room { asked_of knows_living program.now.scenario.now own.old + 1 < 2 ^ 22 }
    requires few { IfSome deferred.now.behind (λ classes. length classes.now ≤ 11) }
    ensures wrote { OnOk result
        (Wrote (BehindScript (behind_of deferred.now.behind)) own.old own.new) }
    ensures down { OnOk result (Behind (behind_of deferred.now.behind) (lists_of own.new) []) }
    ensures lives { OnOk result (SameLives knows_living own.old own.new) }
    ensures asked { OnOk result
        (asked_of knows_living program.now.scenario.now own.new
        ≤ asked_of knows_living program.now.scenario.now own.old + 1) }
    ensures statements { OnOk result (Statements knows_living own.old own.new) }
    ensures locked { OnOk result (own.new.locked ≡ own.old.locked) }
    ensures sound { OnOk result (Sound knows_living program.now own.new) }
    ensures tied { OnOk result (TiedAt knows_living B.since B.start own.new) }
{
    let Some(classes) = deferred.behind else {
        return Ok(());
    };
    settle_script::<LivingSide, B>(own, program, classes)
}
