//! Stamps of batches.

ghost use Rattle.bm_law_order.specs.Act.{Act};
ghost use Rattle.bm_law_order.specs.Act as act;
ghost use Rattle.bm_work.specs.Owed.{Whatever};
ghost use Rattle.std.specs.Prelude.{◌≡◌, ◌≢◌, ◌<◌, ◌+◌, ℕ, Some, ◌∷◌, ◌++◌, [], List};
ghost use Rattle.std.specs.List.{All};
ghost use Rattle.bm_journal.specs.declared.entry.Entry.TheVariants as entry;
ghost use Rattle.bm_law.specs.Effect.{stamped};
ghost use Rattle.bm_law.specs.Lists.{stamp_of};
ghost use Rattle.bm_cache.specs.Shown.{shown};
ghost use Rattle.bm_cache.specs.Tests.{Either, Passes};
ghost use Rattle.bm_cache.specs.Tokens.{Token};
ghost use Rattle.bm_law_work.specs.Parts.{Say};
ghost use Rattle.bm_law_work.specs.WorkPhrases.{IsOne, IsStamp};
ghost use Rattle.bm_work.specs.Dated.{batch_of};
ghost use Rattle.bm_work.specs.DeskTests.{since_test};
ghost use Rattle.bm_work.specs.Works.{Called, Stands, Works};

use crate::Desk;
use crate::polls::pause;
use bm_cache::Host;
use bm_class::Class;
use bm_grace::Grace;
use bm_journal::{Domain, Recorder};

/// Reads the number of a domain, and answers the stamp of it. What is mine has been mine since.
pub fn take_stamp<R: Recorder, H: Desk<R>>(host: &mut H, domain: Domain) -> u32
    requires stands { Stands R.log R.counts Whatever H.Host.tests H.Host.face H.Host.held host.old }
    ensures positive { 0 < result }
    ensures since { (u : Token) → Either (H.Host.tests host.old) u
        → Passes (H.Host.tests host.new) (since_test domain result) u }
    ensures called { Called H.Host.face H.Host.pending H.stays H.Host.held
        (λ h. H.W.Knows.known (H.shared h)) (λ h. H.W.Knows.rights (H.shared h)) 0 0 host.old
        host.new }
    ensures stands { Stands R.log R.counts Whatever H.Host.tests H.Host.face H.Host.held host.new }
    ensures owes { (done : List Act) → H.asked_owes done host.old
        → H.asked_owes (done ++ act.Stamps domain result ∷ []) host.new }
{
    host.world().stamp(domain)
}

/// Records the stamp of a batch.
fn note_stamp<R: Recorder, H: Desk<R>>(host: &mut H, class: Class, domain: Domain, stamp: u32)
    requires stands { Stands R.log R.counts Whatever H.Host.tests H.Host.face H.Host.held host.old }
    requires unstamped { stamp_of domain ((shown (H.Host.held host.old)).rows class).deferred
        ≡ Some 0 }
    requires since { All (Passes (H.Host.tests host.old) (since_test domain stamp))
        (batch_of domain ((shown (H.Host.held host.old)).rows class).deferred) }
    ensures works { Works R.log H.Host.face H.Host.pending H.stays H.Host.held
        (λ h. H.W.Knows.known (H.shared h)) 0 0
        (λ l. Say l (IsOne (entry.Stamp class domain stamp))) host.old host.new }
    ensures deferred { ((shown (H.Host.held host.new)).rows class).deferred
        ≡ stamped domain stamp ((shown (H.Host.held host.old)).rows class).deferred }
    ensures kept { (k : ℕ) → k ≢ class
        → ((shown (H.Host.held host.new)).rows k).deferred
        ≡ ((shown (H.Host.held host.old)).rows k).deferred }
    ensures side { (shown (H.Host.held host.new)).sides (H.Host.face host.old).level
        ≡ (shown (H.Host.held host.old)).sides (H.Host.face host.old).level }
    ensures stands { Stands R.log R.counts Whatever H.Host.tests H.Host.face H.Host.held host.new }
    ensures sound { H.asked_owes (act.Stamps domain stamp ∷ []) host.old → H.Host.sound host.new }
{
    let level = host.level();
    host.caches().stamped(level, class, domain, stamp);
}

/// A point, and the batch of a domain that has none yet takes its stamp. From `call_rcu` and `call_rcu_tasks_trace`, which
/// take it for their callbacks.
pub fn stamp_batch<R: Recorder, H: Desk<R>>(host: &mut H, class: Class, domain: Domain)
    requires stands { Stands R.log R.counts H.Host.sound H.Host.tests H.Host.face H.Host.held
        host.old }
    requires unstamped { stamp_of domain ((shown (H.Host.held host.old)).rows class).deferred
        ≡ Some 0 }
    ensures works { Works R.log H.Host.face H.Host.pending H.stays H.Host.held
        (λ h. H.W.Knows.known (H.shared h)) 0 0 (λ l. Say l (IsStamp class domain)) host.old
        host.new }
    ensures deferred { (x : ℕ) × (0 < x)
        × (((shown (H.Host.held host.new)).rows class).deferred
        ≡ stamped domain x ((shown (H.Host.held host.old)).rows class).deferred) }
    ensures kept { (k : ℕ) → k ≢ class
        → ((shown (H.Host.held host.new)).rows k).deferred
        ≡ ((shown (H.Host.held host.old)).rows k).deferred }
    ensures side { (shown (H.Host.held host.new)).sides (H.Host.face host.old).level
        ≡ (shown (H.Host.held host.old)).sides (H.Host.face host.old).level }
    ensures stands { Stands R.log R.counts H.Host.sound H.Host.tests H.Host.face H.Host.held
        host.new }
{
    pause(host);
    let stamp = take_stamp(host, domain);
    note_stamp(host, class, domain, stamp);
}
