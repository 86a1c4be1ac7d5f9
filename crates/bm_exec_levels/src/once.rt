//! One work, and one for each class.

ghost use Rattle.std.specs.Prelude.{◌≡◌, ◌<◌, ◌≤◌, ◌+◌, ◌*◌, ℕ, false, length, OnOk};
ghost use Rattle.bm_journal.specs.declared.ids.Domain.{Domain};
ghost use Rattle.bm_grace.specs.Known.{side};
ghost use Rattle.bm_cache.specs.Shown.{shown};
ghost use Rattle.bm_law_work.specs.WorkPhrases.{Work};
ghost use Rattle.bm_law_scenario.specs.Works.{WorkEach};
ghost use Rattle.bm_work.specs.Works.{Works};
ghost use Rattle.bm_exec_levels.specs.Settled.{Settled};

use bm_class::Class;
use bm_journal::Recorder;
use bm_word::NoMemory;
use bm_work::{Desk, Worked, work};
use std::alloc::Global;

/// The deferred work of one class. Want of memory is the only refusal.
pub(crate) fn work_once<R: Recorder, H: Desk<R>>(
    alloc: Global,
    host: &mut H,
    class: Class,
) -> Result<(), NoMemory>
    requires at_rest { Settled R.log R.counts H.Host.sound H.Host.tests H.Host.face H.Host.held
        host.old }
    requires begins { (d : Domain) → 0 < (side d (H.W.Knows.known (H.shared host.old))).begins }
    ensures works { OnOk result
        (Works R.log H.Host.face H.Host.pending H.stays H.Host.held
        (λ h. H.W.Knows.known (H.shared h)) 1 1 (λ l. Work 0 class) host.old host.new) }
    ensures lowered { OnOk result
        (H.Host.pending host.new ≡ H.Host.pending host.old
        → ((shown (H.Host.held host.new)).rows class).raised ≡ false) }
    ensures at_rest { OnOk result
        (Settled R.log R.counts H.Host.sound H.Host.tests H.Host.face H.Host.held host.new) }
{
    match work(alloc, host, class) {
        Worked::Done => Ok(()),
        Worked::NoMemory => Err(NoMemory),
    }
}

/// The deferred work of each of these classes, once, in their order. Want of memory is the only refusal.
pub(crate) fn work_each<R: Recorder, H: Desk<R>>(
    alloc: Global,
    host: &mut H,
    classes: &[Class],
) -> Result<(), NoMemory>
    requires at_rest { Settled R.log R.counts H.Host.sound H.Host.tests H.Host.face H.Host.held
        host.old }
    requires begins { (d : Domain)
        → length classes.now ≤ (side d (H.W.Knows.known (H.shared host.old))).begins }
    ensures works { OnOk result
        (Works R.log H.Host.face H.Host.pending H.stays H.Host.held
        (λ h. H.W.Knows.known (H.shared h)) (length classes.now) (length classes.now)
        (λ l. WorkEach classes.now) host.old host.new) }
    ensures at_rest { OnOk result
        (Settled R.log R.counts H.Host.sound H.Host.tests H.Host.face H.Host.held host.new) }
{
    for class in classes {
        work_once(alloc, host, *class)?;
    }
    Ok(())
}
