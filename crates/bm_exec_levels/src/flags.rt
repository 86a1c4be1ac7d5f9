//! Which flag is up.

ghost use Rattle.std.specs.Prelude.{◌≡◌, ℕ, []};
ghost use Rattle.bm_law.specs.State.{seen};
ghost use Rattle.bm_cache.specs.Shown.{shown};
ghost use Rattle.bm_cache.specs.Tokens.{number_of};
ghost use Rattle.bm_law_scenario.specs.Works.{lowest_raised};
ghost use Rattle.bm_work.specs.Works.{Posted};
ghost use Rattle.bm_exec_levels.specs.Settled.{Settled};

use bm_cache::Caches;
use bm_class::Class;
use bm_journal::Recorder;
use bm_work::Desk;

/// The first of these classes for which deferred work is asked for.
fn first_raised<R>(caches: &Caches<R>, classes: &[Class]) -> Option<Class>
    ensures { result ≡ lowest_raised classes.now (seen number_of (shown caches.now)) }
{
    classes.iter().copied().find(|class| caches.raised(*class))
}

/// The first of these classes whose flag is up on a desk. Nothing changes.
pub(crate) fn lowest_raised<R: Recorder, H: Desk<R>>(
    host: &mut H,
    classes: &[Class],
) -> Option<Class>
    requires at_rest { Settled R.log R.counts H.Host.sound H.Host.tests H.Host.face H.Host.held
        host.old }
    ensures answer { result
        ≡ lowest_raised classes.now (seen number_of (shown (H.Host.held host.new))) }
    ensures posted { Posted H.Host.face H.Host.pending H.stays H.Host.held
        (λ h. H.W.Knows.known (H.shared h)) H.Host.tests ([]) host.old host.new }
    ensures at_rest { Settled R.log R.counts H.Host.sound H.Host.tests H.Host.face H.Host.held
        host.new }
{
    first_raised(host.caches(), classes)
}
