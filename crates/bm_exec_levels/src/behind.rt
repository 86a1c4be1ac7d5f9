//! Deferred work behind statements and scripts.

ghost use Rattle.std.specs.Prelude.{◌≡◌, ◌≤◌, ◌+◌, ◌-◌, ◌*◌, ℕ, None, length, OnOk};
ghost use Rattle.bm_journal.specs.declared.ids.Domain.{Domain};
ghost use Rattle.bm_grace.specs.Known.{side};
ghost use Rattle.bm_law.specs.State.{seen};
ghost use Rattle.bm_cache.specs.Shown.{shown};
ghost use Rattle.bm_cache.specs.Tokens.{number_of};
ghost use Rattle.bm_law_scenario.specs.Works.{UntilDown, WorkBehind, lowest_raised};
ghost use Rattle.bm_work.specs.Works.{Works};
ghost use Rattle.bm_exec_levels.specs.Settled.{Settled};

use crate::flags::lowest_raised;
use crate::once::{work_each, work_once};
use bm_class::Class;
use bm_journal::Recorder;
use bm_word::NoMemory;
use bm_work::Desk;
use std::alloc::Global;

/// Deferred work behind a statement of a script: the work of the first of these classes whose flag is up, and again, until no
/// flag is up. It ends: a work leaves the flag of its class down, a flag is raised only where a handler ran, and no handler runs
/// twice. Each work begins at most one grace period of each domain; how many begin at most is told by the handlers that ran. Want
/// of memory is the only refusal; the desk is of no further use then.
///
/// In kernel/bpf/memalloc.c `irq_work_raise` asks for the work, and `bpf_mem_refill` runs behind the code that asked. That it
/// runs directly behind the statement, for the least class first, is this project's own.
pub fn until_down<R: Recorder, H: Desk<R>>(
    alloc: Global,
    host: &mut H,
    classes: &[Class],
) -> Result<(), NoMemory>
    requires at_rest { Settled R.log R.counts H.Host.sound H.Host.tests H.Host.face H.Host.held
        host.old }
    requires begins { (d : Domain)
        → (length classes.now + 1) * (H.Host.pending host.old + 1)
        ≤ (side d (H.W.Knows.known (H.shared host.old))).begins }
    ensures works { OnOk result
        (Works R.log H.Host.face H.Host.pending H.stays H.Host.held
        (λ h. H.W.Knows.known (H.shared h))
        ((length classes.now + 1) * (H.Host.pending host.old - H.Host.pending host.new + 1))
        ((length classes.now + 1) * (H.Host.pending host.old - H.Host.pending host.new + 1))
        (λ l. UntilDown classes.now) host.old host.new) }
    ensures down { OnOk result
        (lowest_raised classes.now (seen number_of (shown (H.Host.held host.new))) ≡ None) }
    ensures at_rest { OnOk result
        (Settled R.log R.counts H.Host.sound H.Host.tests H.Host.face H.Host.held host.new) }
{
    while let Some(class) = lowest_raised(host, classes) {
        work_once(alloc, host, class)?;
    }
    Ok(())
}

/// Deferred work behind a script: the work of each of these classes once, in their order, whether its flag is up or not, and
/// then works until no flag is up. Want of memory is the only refusal; the desk is of no further use then.
///
/// In kernel/bpf/memalloc.c `irq_work_raise` asks for the work, and `bpf_mem_refill` runs behind the code that asked. That each
/// class has its work once more behind a script is this project's own.
pub fn work_behind<R: Recorder, H: Desk<R>>(
    alloc: Global,
    host: &mut H,
    classes: &[Class],
) -> Result<(), NoMemory>
    requires at_rest { Settled R.log R.counts H.Host.sound H.Host.tests H.Host.face H.Host.held
        host.old }
    requires begins { (d : Domain)
        → length classes.now + (length classes.now + 1) * (H.Host.pending host.old + 1)
        ≤ (side d (H.W.Knows.known (H.shared host.old))).begins }
    ensures works { OnOk result
        (Works R.log H.Host.face H.Host.pending H.stays H.Host.held
        (λ h. H.W.Knows.known (H.shared h))
        (length classes.now
        + (length classes.now + 1)
        * (H.Host.pending host.old - H.Host.pending host.new + 1))
        (length classes.now
        + (length classes.now + 1)
        * (H.Host.pending host.old - H.Host.pending host.new + 1))
        (λ l. WorkBehind classes.now) host.old host.new) }
    ensures down { OnOk result
        (lowest_raised classes.now (seen number_of (shown (H.Host.held host.new))) ≡ None) }
    ensures at_rest { OnOk result
        (Settled R.log R.counts H.Host.sound H.Host.tests H.Host.face H.Host.held host.new) }
{
    work_each(alloc, host, classes)?;
    until_down(alloc, host, classes)
}
