//! All units of a class become one tracing batch.

ghost use Rattle.std.specs.Prelude.{◌≡◌, ◌+◌, ◌≤◌, ℕ, length, map, IsTrue, is_some};
ghost use Rattle.std.specs.List.{All, flat_map};
ghost use Rattle.bm_law.specs.Kept.{Ready};
ghost use Rattle.bm_law.specs.Stands.{stands, times};
ghost use Rattle.bm_law.specs.State.{seen, seven_lists};
ghost use Rattle.bm_cache.specs.Each.{Sits};
ghost use Rattle.bm_cache.specs.Placed.{Placed};
ghost use Rattle.bm_cache.specs.Shown.{shown};
ghost use Rattle.bm_cache.specs.Tokens.{number_of};
ghost use Rattle.bm_closing.specs.Gathered.{Gathered};

use crate::period::Waited;
use bm_cache::Caches;
use bm_class::Class;
use bm_journal::{Domain, Level, Recorder};
use bm_page::Unit;

/// How many units the lists of a class hold.
pub(crate) fn units_of<R: Recorder>(caches: &Caches<R>, class: Class) -> u64
    ensures { result ≡ length (seven_lists ((shown caches.now).rows class)) }
{
    let counts = caches.counts(class);
    counts.free as u64
        + counts.extra as u64
        + counts.delayed as u64
        + counts.extra_delayed as u64
        + counts.first as u64
        + counts.ready as u64
        + counts.second as u64
}

/// All units of a class, and those of these parcels, become a tracing batch, which takes its stamp and sees its period pass.
pub(crate) fn gather<R: Recorder>(
    caches: &mut Caches<R>,
    class: Class,
    parcels: Vec<Vec<Unit>>,
    waited: Waited,
)
    requires placed { Placed R.log R.counts caches.old }
    requires ready { Ready 0 (shown caches.old) }
    requires sit { All (Sits class) (flat_map (λ p. p.items) parcels.items) }
    requires fresh { (n : ℕ)
        → stands n (seen number_of (shown caches.old))
        + times n (map number_of (flat_map (λ p. p.items) parcels.items))
        ≤ 1 }
    ensures gathered { Gathered R.log class (flat_map (λ p. p.items) parcels.items) waited
        caches.old caches.new }
    ensures progress { IsTrue (is_some ((shown caches.new).rows class).deferred.tracing) }
    ensures placed { Placed R.log R.counts caches.new }
{
    let Waited {
        stamp,
        begun,
        period,
        seen,
    } = waited;
    let level = Level::ordinary();
    caches.sweep_in(level, class, parcels);
    caches.stamped(level, class, Domain::Tracing, stamp);
    caches.began(level, Domain::Tracing, begun);
    caches.finished(level, period);
    caches.passed(level, class, Domain::Tracing, seen);
}
