//! Calls on a desk at rest.

ghost use Rattle.std.specs.Prelude.{◌≡◌, ◌+◌, ◌<◌, ◌^◌};
ghost use Rattle.bm_cache.specs.Answers.{Gone};
ghost use Rattle.bm_cache.specs.Shown.{shown};
ghost use Rattle.bm_cache.specs.Tests.{Waits};
ghost use Rattle.bm_cache.specs.Tokens.{number_of};
ghost use Rattle.bm_cache.specs.declared.allocate.Given.TheVariants as given;
ghost use Rattle.bm_work.specs.Rests.{Rests};
ghost use Rattle.bm_law.specs.Stands.{stands};
ghost use Rattle.bm_law.specs.State.{seen};
ghost use Rattle.bm_work.specs.declared.deferred.Worked.TheVariants as ended;

use bm_cache::{Given, Host, alloc, free_delayed};
use bm_class::Class;
use bm_journal::Recorder;
use bm_page::Unit;
use bm_work::{Desk, Worked, work};
use std::process::Abort;

/// The work is done.
pub(crate) fn is_done(rt: &impl Abort, worked: Worked)
    ensures { worked ≡ ended.Done }
{
    match worked {
        Worked::Done => {}
        Worked::NoMemory => panic!(rt; "there is memory"),
    }
}

/// A work, which is done, on a desk at rest.
pub(crate) fn work_once<R: Recorder, H: Desk<R>>(
    rt: &(impl Abort + AllocGlobal),
    host: &mut H,
    class: Class,
    left: u32,
)
    requires rests { Rests R.log R.counts H.Host.sound H.Host.tests H.Host.face H.Host.held
        (λ h. H.W.Knows.known (H.shared h)) class (left + 1) host.old }
    ensures rests { Rests R.log R.counts H.Host.sound H.Host.tests H.Host.face H.Host.held
        (λ h. H.W.Knows.known (H.shared h)) class left host.new }
    ensures processors { (H.Host.face host.new).processors ≡ (H.Host.face host.old).processors }
{
    let _left = left;
    is_done(rt, work(rt.alloc(), host, class));
}

/// The unit that an allocation gives, on a desk at rest.
pub(crate) fn given_unit<R: Recorder, H: Desk<R>>(
    rt: &(impl Abort + AllocGlobal),
    host: &mut H,
    class: Class,
    left: u32,
) -> Unit
    requires rests { Rests R.log R.counts H.Host.sound H.Host.tests H.Host.face H.Host.held
        (λ h. H.W.Knows.known (H.shared h)) class left host.old }
    ensures rests { Rests R.log R.counts (H.Host.gave result.number (result.life + 1)) H.Host.tests
        H.Host.face H.Host.held (λ h. H.W.Knows.known (H.shared h)) class left host.new }
    ensures gone { Gone (H.Host.tests host.new) (shown (H.Host.held host.new)) (given.Unit result) }
    ensures processors { (H.Host.face host.new).processors ≡ (H.Host.face host.old).processors }
{
    let _left = left;
    match alloc(host, class) {
        Given::Unit(unit) => unit,
        Given::Empty | Given::Busy(_) => panic!(rt; "Free has a unit"),
    }
}

/// A unit is freed with delay, on a desk at rest.
pub(crate) fn free_with_delay<R: Recorder, H: Desk<R>>(
    host: &mut H,
    class: Class,
    unit: Unit,
    left: u32,
)
    requires rests { Rests R.log R.counts (H.Host.frees unit.number unit.home) H.Host.tests
        H.Host.face H.Host.held (λ h. H.W.Knows.known (H.shared h)) class left host.old }
    requires fresh { stands unit.number (seen number_of (shown (H.Host.held host.old))) ≡ 0 }
    requires lives { unit.life + 1 < 2 ^ 32 }
    requires home { unit.home < (H.Host.face host.old).processors }
    requires suits { Waits (H.Host.tests host.old) unit }
    ensures rests { Rests R.log R.counts H.Host.sound H.Host.tests H.Host.face H.Host.held
        (λ h. H.W.Knows.known (H.shared h)) class left host.new }
    ensures processors { (H.Host.face host.new).processors ≡ (H.Host.face host.old).processors }
{
    let _left = (class, left);
    free_delayed(host, unit);
}
