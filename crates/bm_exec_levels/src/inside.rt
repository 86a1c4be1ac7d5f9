//! What a handler does between its begin and its end.

ghost use Rattle.std.specs.Prelude.{◌≡◌, ◌+◌, ◌*◌, ◌^◌, ◌<◌, ℕ, None, Some, length, slice_get, true};
ghost use Rattle.bm_law_work.specs.Grown.{GrewBy};
ghost use Rattle.bm_journal.specs.declared.ids.Domain.TheVariants.{Plain};
ghost use Rattle.bm_exec.specs.Running.{RanScript};
ghost use Rattle.bm_lang.specs.Limits.{script_cost};
ghost use Rattle.bm_lang.specs.declared.scenario.ScriptKind.TheVariants as kind;
ghost use Rattle.bm_law_scenario.specs.Handlers.{HandlerRun};
ghost use Rattle.bm_exec.specs.Named.{declared_of};
ghost use Rattle.bm_exec_levels.specs.AtProcessor.{Between, FineAt, IsAt, SameLives, lists_of, log_of};
ghost use Rattle.bm_exec_levels.specs.AtTie.{TiedAt};
ghost use Rattle.bm_exec_levels.specs.Ready.{BindsAll, asked_of, left_of, word_of};
ghost use Rattle.bm_plan.specs.Position.{StandsAt};

use crate::host::At;
use crate::processor::Processor;
use crate::program::Program;
use crate::ranks::Rank;
use crate::sections::{enter_section, leave_section};
use bm_exec::{NameTable, run_handler};
use bm_journal::Domain;
use bm_lang::Script;
use bm_world::{Lives, Since};
use std::marker::PhantomData;

// Runs the script of a handler on the machine of its level, as the processor stands.
fn run_code<'s, W: Lives, B: Since<W>, L: Rank>(
    own: &mut Processor<W>,
    program: &'s Program<'s>,
    script: &'s Script,
    table: &mut NameTable,
)
    requires at { IsAt W.Knows StandsAt L.number program.now own.old }
    requires tied { TiedAt W.Knows B.since B.start own.old }
    requires fine { FineAt W.Knows L.number own.old }
    requires above { 0 < L.number }
    requires found { (i : ℕ) × (slice_get program.now.scenario.now.scripts i ≡ Some script.now) }
    requires handles { script.now.kind ≡ kind.Handler }
    requires asks { asked_of W.Knows program.now.scenario.now own.old
        + 3 * script_cost (Some script.now)
        < 2 ^ 22 }
    requires bound { BindsAll program.now.scenario.now.scripts table.old }
    ensures ran { RanScript (declared_of program.now.types) L.number true None (lists_of own.old)
        script.now (log_of own.old) (log_of own.new) }
    ensures at { IsAt W.Knows StandsAt L.number program.now own.new }
    ensures tied { TiedAt W.Knows B.since B.start own.new }
    ensures between { Between W.Knows (3 * script_cost (Some script.now)) 0 L.number program.now
        own.old own.new }
    ensures lives { SameLives W.Knows own.old own.new }
    ensures bound { BindsAll program.now.scenario.now.scripts table.new }
{
    let mut at = At::<W, B, L> {
        own,
        program,
        of: PhantomData,
        since: PhantomData,
    };
    run_handler(&mut at, table, &program.types, program.scenario, script);
    let At {
        own: _,
        program: _,
        of: _,
        since: _,
    } = at;
}

/// Runs the script of a handler on the machine of its level, in a plain section of its own where the processor is in none. It takes
/// no memory but the recorder's.
pub(crate) fn run_inside<'s, W: Lives, B: Since<W>, L: Rank>(
    own: &mut Processor<W>,
    program: &'s Program<'s>,
    script: &'s Script,
    table: &mut NameTable,
)
    requires at { IsAt W.Knows StandsAt L.number program.now own.old }
    requires tied { TiedAt W.Knows B.since B.start own.old }
    requires fine { FineAt W.Knows L.number own.old }
    requires above { 0 < L.number }
    requires found { (i : ℕ) × (slice_get program.now.scenario.now.scripts i ≡ Some script.now) }
    requires handles { script.now.kind ≡ kind.Handler }
    requires asks { asked_of W.Knows program.now.scenario.now own.old
        + 3 * script_cost (Some script.now)
        < 2 ^ 22 }
    requires words { word_of W.Knows Plain own.old + 2 * length (left_of own.old) + 2 < 2 ^ 28 }
    requires bound { BindsAll program.now.scenario.now.scripts table.old }
    ensures runs { GrewBy
        (HandlerRun program.now.scenario.now L.number script.now.name
        (word_of W.Knows Plain own.old))
        (lists_of own.old) (log_of own.old) (log_of own.new) }
    ensures at { IsAt W.Knows StandsAt L.number program.now own.new }
    ensures tied { TiedAt W.Knows B.since B.start own.new }
    ensures between { Between W.Knows (3 * script_cost (Some script.now)) 2 L.number program.now
        own.old own.new }
    ensures lives { SameLives W.Knows own.old own.new }
    ensures bound { BindsAll program.now.scenario.now.scripts table.new }
{
    if own.inside {
        run_code::<W, B, L>(own, program, script, table);
    } else {
        let level = L::level();
        enter_section(own, level, Domain::Plain);
        run_code::<W, B, L>(own, program, script, table);
        leave_section(own, level, Domain::Plain);
    }
}
