//! Polls of a domain.

ghost use Rattle.std.specs.Prelude.{◌≡◌, ◌+◌, ◌<◌, ◌∷◌, ℕ, []};
ghost use Rattle.bm_law_order.specs.Act as act;
ghost use Rattle.std.specs.List.{All};
ghost use Rattle.bm_journal.specs.declared.entry.Entry.TheVariants as entry;
ghost use Rattle.bm_grace.specs.Answers.{Answers, number_in};
ghost use Rattle.bm_grace.specs.Known.{side};
ghost use Rattle.bm_journal.specs.declared.entry.Entry.{Entry as EntryValue};
ghost use Rattle.bm_journal.specs.declared.ids.Domain.{Domain as DomainValue};
ghost use Rattle.bm_grace.specs.Rights.{Ages};
ghost use Rattle.bm_cache.specs.Shown.{shown};
ghost use Rattle.bm_cache.specs.Span.{Came};
ghost use Rattle.bm_law_work.specs.Parts.{Say, Stand};
ghost use Rattle.bm_law_work.specs.WorkPhrases.{IsOne};
ghost use Rattle.bm_work.specs.DeskTests.{Ripened};
ghost use Rattle.bm_work.specs.Goes.{GoesOn};
ghost use Rattle.bm_work.specs.Periods.{Sees};
ghost use Rattle.bm_work.specs.Rested.{LastIs, PollsFor};
ghost use Rattle.bm_work.specs.Owed.{Whatever};
ghost use Rattle.bm_work.specs.Works.{Stands, Works, plain_of, tracing_of};

use crate::Desk;
use crate::period::{ask_now, begin_if_due, finish_if_passed};
use bm_cache::Host;
use bm_class::Class;
use bm_grace::Done;
use bm_journal::{Domain, Recorder};

/// Handlers may run here.
pub fn pause<R: Recorder, H: Desk<R>>(host: &mut H)
    requires stands { Stands R.log R.counts H.Host.sound H.Host.tests H.Host.face H.Host.held
        host.old }
    ensures works { Works R.log H.Host.face H.Host.pending H.stays H.Host.held
        (λ h. H.W.Knows.known (H.shared h)) 0 0 (λ l. Stand l []) host.old host.new }
    ensures came { Came R.log ((H.Host.face host.old).level + 1) (H.Host.tests host.old)
        (H.Host.tests host.new) (H.Host.held host.old) (H.Host.held host.new) }
    ensures known { GoesOn (H.W.Knows.known (H.shared host.old))
        (H.W.Knows.known (H.shared host.new)) }
    ensures quiet { H.Host.pending host.new ≡ H.Host.pending host.old → host.new ≡ host.old }
    ensures stands { Stands R.log R.counts H.Host.asked H.Host.tests H.Host.face H.Host.held
        host.new }
    ensures rested { (d : DomainValue) (x : ℕ) → H.rested d x host.old
        → H.asked_rested d x [] host.new }
    ensures last { (e : EntryValue)
        → LastIs R.log (H.Host.face host.old).level e (H.Host.held host.old)
        → LastIs R.log (H.Host.face host.old).level e (H.Host.held host.new) }
{
    host.point();
}

/// Records that the number of a domain was read for a class.
fn note_passed<R: Recorder, H: Desk<R>>(host: &mut H, class: Class, domain: Domain, number: u32)
    requires stands { Stands R.log R.counts Whatever H.Host.tests H.Host.face H.Host.held host.old }
    ensures works { Works R.log H.Host.face H.Host.pending H.stays H.Host.held
        (λ h. H.W.Knows.known (H.shared h)) 0 0
        (λ l. Say l (IsOne (entry.Pass class domain number))) host.old host.new }
    ensures lists { shown (H.Host.held host.new) ≡ shown (H.Host.held host.old) }
    ensures ages { Ages (H.W.Knows.rights (H.shared host.old))
        (H.W.Knows.rights (H.shared host.new)) }
    ensures stands { Stands R.log R.counts Whatever H.Host.tests H.Host.face H.Host.held host.new }
    ensures sound { (stamp : ℕ) → PollsFor H.minds class domain stamp (H.Host.held host.old)
        → H.asked_rested domain stamp (act.Reads domain stamp number ∷ []) host.old
        → H.Host.sound host.new }
    ensures last { LastIs R.log (H.Host.face host.old).level (entry.Pass class domain number)
        (H.Host.held host.new) }
{
    let level = host.level();
    host.caches().passed(level, class, domain, number);
}

/// The number that was read.
fn seen_number(seen: Done) -> u32
    ensures { result ≡ number_in seen }
{
    match seen {
        Done::Passed(number) | Done::NotYet(number) => number,
    }
}

/// A point, and the number of a domain is read for a class.
fn see<R: Recorder, H: Desk<R>>(host: &mut H, class: Class, domain: Domain, stamp: u32) -> Done
    requires stands { Stands R.log R.counts H.Host.sound H.Host.tests H.Host.face H.Host.held
        host.old }
    requires rested { H.rested domain stamp host.old }
    requires batch { PollsFor H.minds class domain stamp (H.Host.held host.old) }
    ensures works { Works R.log H.Host.face H.Host.pending H.stays H.Host.held
        (λ h. H.W.Knows.known (H.shared h)) 0 0
        (λ l. Say l (IsOne (entry.Pass class domain (number_in result)))) host.old host.new }
    ensures answer { Answers result stamp }
    ensures ripe { (k : ℕ)
        → All (Ripened (H.Host.tests host.old) (H.Host.tests host.new) domain stamp result)
        ((shown (H.Host.held host.old)).rows k).deferred.first
        × All (Ripened (H.Host.tests host.old) (H.Host.tests host.new) domain stamp result)
        ((shown (H.Host.held host.old)).rows k).deferred.second }
    ensures deferred { (k : ℕ)
        → ((shown (H.Host.held host.new)).rows k).deferred
        ≡ ((shown (H.Host.held host.old)).rows k).deferred }
    ensures side { (shown (H.Host.held host.new)).sides (H.Host.face host.old).level
        ≡ (shown (H.Host.held host.old)).sides (H.Host.face host.old).level }
    ensures stands { Stands R.log R.counts H.Host.sound H.Host.tests H.Host.face H.Host.held
        host.new }
    ensures last { LastIs R.log (H.Host.face host.old).level
        (entry.Pass class domain (number_in result)) (H.Host.held host.new) }
{
    pause(host);
    let seen = ask_now(host, domain, stamp);
    note_passed(host, class, domain, seen_number(seen));
    seen
}

/// Polls a domain for a class's batch with this stamp, and answers the number that it sees. A period that this side has in
/// progress is looked at first, and ended if it has passed. Then, where none is in progress and the number is even and below
/// the stamp, one is begun, and looked at. From `poll_state_synchronize_rcu` of kernel/rcu/tree.c, which begins nothing;
/// there a kernel thread drives the periods. On a desk that minds, the stamp is that of the class's batch. Its last entry is the
/// pass, which names the number.
pub fn poll<R: Recorder, H: Desk<R>>(host: &mut H, class: Class, domain: Domain, stamp: u32) -> Done
    requires stands { Stands R.log R.counts H.Host.sound H.Host.tests H.Host.face H.Host.held
        host.old }
    requires room { 0 < (side domain (H.W.Knows.known (H.shared host.old))).begins }
    requires batch { PollsFor H.minds class domain stamp (H.Host.held host.old) }
    ensures works { Works R.log H.Host.face H.Host.pending H.stays H.Host.held
        (λ h. H.W.Knows.known (H.shared h)) (plain_of domain) (tracing_of domain)
        (λ l. Say l (Sees class domain (number_in result))) host.old host.new }
    ensures answer { Answers result stamp }
    ensures ripe { (k : ℕ)
        → All (Ripened (H.Host.tests host.old) (H.Host.tests host.new) domain stamp result)
        ((shown (H.Host.held host.old)).rows k).deferred.first
        × All (Ripened (H.Host.tests host.old) (H.Host.tests host.new) domain stamp result)
        ((shown (H.Host.held host.old)).rows k).deferred.second }
    ensures deferred { (k : ℕ)
        → ((shown (H.Host.held host.new)).rows k).deferred
        ≡ ((shown (H.Host.held host.old)).rows k).deferred }
    ensures side { (shown (H.Host.held host.new)).sides (H.Host.face host.old).level
        ≡ (shown (H.Host.held host.old)).sides (H.Host.face host.old).level }
    ensures stands { Stands R.log R.counts H.Host.sound H.Host.tests H.Host.face H.Host.held
        host.new }
    ensures last { LastIs R.log (H.Host.face host.old).level
        (entry.Pass class domain (number_in result)) (H.Host.held host.new) }
{
    finish_if_passed(host, domain);
    begin_if_due(host, domain, stamp);
    see(host, class, domain, stamp)
}
