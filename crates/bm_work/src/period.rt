//! Periods of grace that a desk's side begins, looks at and ends.

ghost use Rattle.std.specs.Prelude.{◌≡◌, ◌≢◌, ◌+◌, ◌<◌, ◌%◌, ◌^◌, ◌-◌, ◌∷◌, ◌++◌, [], ℕ, List, true, false};
ghost use Rattle.bm_law.specs.SweepPhrases.{MayBegin, MayFinish};
ghost use Rattle.bm_grace.specs.Answers.{Answers, CanFinish, number_in};
ghost use Rattle.bm_grace.specs.Calls.{began, finished, read};
ghost use Rattle.bm_grace.specs.Known.{side};
ghost use Rattle.bm_grace.specs.Rights.{Ages};
ghost use Rattle.bm_grace.specs.declared.answer.Look.TheVariants as look_answer;
ghost use Rattle.bm_cache.specs.Shown.{shown};
ghost use Rattle.bm_cache.specs.Tokens.{Token};
ghost use Rattle.bm_law_work.specs.Parts.{Say};
ghost use Rattle.bm_journal.specs.Recording.{Appends};
ghost use Rattle.bm_journal.specs.declared.entry.Entry.TheVariants as entry;
ghost use Rattle.bm_work.specs.DeskTests.{Ripened};
ghost use Rattle.bm_work.specs.Periods.{Ends};
ghost use Rattle.bm_work.specs.Rested.{Fails, LooksOrEnds, PollsForSome};
ghost use Rattle.bm_law_order.specs.Act.{Act};
ghost use Rattle.bm_law_order.specs.Act as act;
ghost use Rattle.bm_grace.specs.Begins.{begin_act};
ghost use Rattle.bm_journal.specs.declared.entry.Entry.{Entry as EntryValue};
ghost use Rattle.bm_journal.specs.declared.period.Period.{Period as PeriodValue};
ghost use Rattle.bm_work.specs.Owed.{Whatever};
ghost use Rattle.bm_work.specs.Works.{Called, Handled, Stands, Turned, Works, plain_of, tracing_of};

use crate::Desk;
use bm_cache::Host;
use bm_grace::{Began, Done, Grace, Look};
use bm_journal::{Domain, Period, Recorder};

/// Whether the side has a period of a domain in progress.
fn drives<R: Recorder, H: Desk<R>>(host: &mut H, domain: Domain) -> bool
    requires stands { Stands R.log R.counts Whatever H.Host.tests H.Host.face H.Host.held host.old }
    ensures none { result ≡ false → (side domain (H.W.Knows.known (H.shared host.new))).number ≡ 0 }
    ensures odd { result ≡ true
        → (side domain (H.W.Knows.known (H.shared host.new))).number % 2 ≡ 1 }
    ensures called { Called H.Host.face H.Host.pending H.stays H.Host.held
        (λ h. H.W.Knows.known (H.shared h)) (λ h. H.W.Knows.rights (H.shared h)) 0 0 host.old
        host.new }
    ensures stands { Stands R.log R.counts Whatever H.Host.tests H.Host.face H.Host.held host.new }
    ensures owes { (done : List Act) (es : List EntryValue) → H.owes done es host.old
        → H.owes done es host.new }
    ensures rested { (x : ℕ) → H.rested domain x host.old → H.rested domain x host.new }
{
    host.world().driving(domain)
}

/// Looks at each word of the period of a domain that the side has in progress.
fn look_now<R: Recorder, H: Desk<R>>(host: &mut H, domain: Domain) -> Look
    requires stands { Stands R.log R.counts Whatever H.Host.tests H.Host.face H.Host.held host.old }
    requires driving { (side domain (H.W.Knows.known (H.shared host.old))).number % 2 ≡ 1 }
    ensures passed { result ≡ look_answer.All
        → CanFinish domain (H.W.Knows.known (H.shared host.new)) }
    ensures called { Called H.Host.face H.Host.pending H.stays H.Host.held
        (λ h. H.W.Knows.known (H.shared h)) (λ h. H.W.Knows.rights (H.shared h)) 0 0 host.old
        host.new }
    ensures stands { Stands R.log R.counts Whatever H.Host.tests H.Host.face H.Host.held host.new }
    ensures owes { (done : List Act) (es : List EntryValue) → H.owes done es host.old
        → H.owes
        (done ++ act.Looks domain (side domain (H.W.Knows.known (H.shared host.new))).later
        ∷ [])
        es host.new }
    ensures fails { result ≢ look_answer.All
        → Fails (side domain (H.W.Knows.known (H.shared host.new))).first
        (side domain (H.W.Knows.known (H.shared host.new))).later }
{
    host.world().look(domain)
}

/// Ends the period of a domain that the side has in progress.
fn finish_now<R: Recorder, H: Desk<R>>(host: &mut H, domain: Domain) -> Period
    requires stands { Stands R.log R.counts Whatever H.Host.tests H.Host.face H.Host.held host.old }
    requires passed { CanFinish domain (H.W.Knows.known (H.shared host.old)) }
    ensures domain { result.domain ≡ domain }
    ensures known { H.W.Knows.known (H.shared host.new)
        ≡ finished H.W.Knows.tells domain (H.W.Knows.known (H.shared host.old)) }
    ensures turned { Turned H.Host.face H.Host.pending H.stays H.Host.held
        (λ h. H.W.Knows.known (H.shared h)) (λ h. H.W.Knows.rights (H.shared h)) 0 0 host.old
        host.new }
    ensures stands { Stands R.log R.counts Whatever H.Host.tests H.Host.face H.Host.held host.new }
    ensures owes { (done : List Act) (es : List EntryValue) → H.owes done es host.old
        → H.owes (done ++ act.Finishes result ∷ []) es host.new }
{
    host.world().finish(domain)
}

/// Records that a period has ended.
fn note_finished<R: Recorder, H: Desk<R>>(host: &mut H, period: Period)
    requires stands { Stands R.log R.counts Whatever H.Host.tests H.Host.face H.Host.held host.old }
    ensures step { Appends (R.log (H.Host.held host.old).recorder) (H.Host.face host.old).level
        (entry.Finish period) (R.log (H.Host.held host.new).recorder) }
    ensures lists { shown (H.Host.held host.new) ≡ shown (H.Host.held host.old) }
    ensures processor { (H.Host.held host.new).processor ≡ (H.Host.held host.old).processor }
    ensures handled { Handled H.Host.face H.Host.pending H.stays H.shared H.Host.tests host.old
        host.new }
    ensures stands { Stands R.log R.counts Whatever H.Host.tests H.Host.face H.Host.held host.new }
    ensures owes { (done : List Act) (es : List EntryValue) → H.owes done es host.old
        → H.owes done (es ++ entry.Finish period ∷ []) host.new }
{
    let level = host.level();
    host.caches().finished(level, period);
}

/// Ends the period of a domain that the side has in progress, and records that.
fn end_now<R: Recorder, H: Desk<R>>(host: &mut H, domain: Domain)
    requires stands { Stands R.log R.counts Whatever H.Host.tests H.Host.face H.Host.held host.old }
    requires passed { CanFinish domain (H.W.Knows.known (H.shared host.old)) }
    ensures works { Works R.log H.Host.face H.Host.pending H.stays H.Host.held
        (λ h. H.W.Knows.known (H.shared h)) 0 0 (λ l. Say l (Ends domain)) host.old host.new }
    ensures lists { shown (H.Host.held host.new) ≡ shown (H.Host.held host.old) }
    ensures quiet { H.Host.pending host.new ≡ H.Host.pending host.old }
    ensures ages { Ages (H.W.Knows.rights (H.shared host.old))
        (H.W.Knows.rights (H.shared host.new)) }
    ensures stands { Stands R.log R.counts Whatever H.Host.tests H.Host.face H.Host.held host.new }
    ensures owes { (done : List Act) (es : List EntryValue) → H.owes done es host.old
        → (p : PeriodValue) × (p.domain ≡ domain)
        × H.owes (done ++ act.Finishes p ∷ []) (es ++ entry.Finish p ∷ []) host.new }
    ensures ended { (side domain (H.W.Knows.known (H.shared host.new))).number ≡ 0 }
{
    let period = finish_now(host, domain);
    note_finished(host, period);
}

/// Looks at the words of the period of a domain that the side has in progress, and ends it if all pass.
fn finish_if_all<R: Recorder, H: Desk<R>>(host: &mut H, domain: Domain)
    requires stands { Stands R.log R.counts Whatever H.Host.tests H.Host.face H.Host.held host.old }
    requires driving { (side domain (H.W.Knows.known (H.shared host.old))).number % 2 ≡ 1 }
    ensures works { Works R.log H.Host.face H.Host.pending H.stays H.Host.held
        (λ h. H.W.Knows.known (H.shared h)) 0 0 (λ l. Say l (MayFinish domain)) host.old host.new }
    ensures lists { shown (H.Host.held host.new) ≡ shown (H.Host.held host.old) }
    ensures quiet { H.Host.pending host.new ≡ H.Host.pending host.old }
    ensures ages { Ages (H.W.Knows.rights (H.shared host.old))
        (H.W.Knows.rights (H.shared host.new)) }
    ensures stands { Stands R.log R.counts Whatever H.Host.tests H.Host.face H.Host.held host.new }
    ensures owes { (done : List Act) (es : List EntryValue) → H.owes done es host.old
        → LooksOrEnds (λ h. H.W.Knows.known (H.shared h)) H.owes domain done es host.new }
{
    match look_now(host, domain) {
        Look::All => end_now(host, domain),
        Look::Waits(_, _) => {}
    }
}

/// Where the side has a period of a domain in progress, looks at its words, and ends it if all pass. Handlers run neither
/// before nor after, since neither is a step. From `rcu_gp_fqs` of kernel/rcu/tree.c.
pub fn finish_if_passed<R: Recorder, H: Desk<R>>(host: &mut H, domain: Domain)
    requires stands { Stands R.log R.counts H.Host.sound H.Host.tests H.Host.face H.Host.held
        host.old }
    ensures works { Works R.log H.Host.face H.Host.pending H.stays H.Host.held
        (λ h. H.W.Knows.known (H.shared h)) 0 0 (λ l. Say l (MayFinish domain)) host.old host.new }
    ensures lists { shown (H.Host.held host.new) ≡ shown (H.Host.held host.old) }
    ensures quiet { H.Host.pending host.new ≡ H.Host.pending host.old }
    ensures ages { Ages (H.W.Knows.rights (H.shared host.old))
        (H.W.Knows.rights (H.shared host.new)) }
    ensures stands { Stands R.log R.counts H.Host.sound H.Host.tests H.Host.face H.Host.held
        host.new }
    ensures rested { (x : ℕ) → (side domain (H.W.Knows.known (H.shared host.new))).number % 2 ≡ 1
        → H.rested domain x host.new }
{
    if drives(host, domain) {
        finish_if_all(host, domain);
    }
}

/// Reads the number of a domain, and answers whether it is at least a stamp.
fn ask<R: Recorder, H: Desk<R>>(host: &mut H, domain: Domain, stamp: u32) -> Done
    requires stands { Stands R.log R.counts Whatever H.Host.tests H.Host.face H.Host.held host.old }
    ensures answer { Answers result stamp }
    ensures known { H.W.Knows.known (H.shared host.new)
        ≡ read H.W.Knows.tells domain (number_in result) (H.W.Knows.known (H.shared host.old)) }
    ensures ripe { (u : Token)
        → Ripened (H.Host.tests host.old) (H.Host.tests host.new) domain stamp result u }
    ensures called { Called H.Host.face H.Host.pending H.stays H.Host.held
        (λ h. H.W.Knows.known (H.shared h)) (λ h. H.W.Knows.rights (H.shared h)) 0 0 host.old
        host.new }
    ensures stands { Stands R.log R.counts Whatever H.Host.tests H.Host.face H.Host.held host.new }
    ensures owes { (done : List Act) (es : List EntryValue) → H.owes done es host.old
        → H.owes (done ++ act.Reads domain stamp (number_in result) ∷ []) es host.new }
{
    host.world().done(domain, stamp)
}

/// Reads the number of a domain, and answers whether it is at least a stamp, behind a point.
pub fn ask_now<R: Recorder, H: Desk<R>>(host: &mut H, domain: Domain, stamp: u32) -> Done
    requires stands { Stands R.log R.counts Whatever H.Host.tests H.Host.face H.Host.held host.old }
    ensures answer { Answers result stamp }
    ensures known { H.W.Knows.known (H.shared host.new)
        ≡ read H.W.Knows.tells domain (number_in result) (H.W.Knows.known (H.shared host.old)) }
    ensures ripe { (u : Token)
        → Ripened (H.Host.tests host.old) (H.Host.tests host.new) domain stamp result u }
    ensures called { Called H.Host.face H.Host.pending H.stays H.Host.held
        (λ h. H.W.Knows.known (H.shared h)) (λ h. H.W.Knows.rights (H.shared h)) 0 0 host.old
        host.new }
    ensures stands { Stands R.log R.counts Whatever H.Host.tests H.Host.face H.Host.held host.new }
    ensures owes { (done : List Act) → H.asked_owes done host.old
        → H.asked_owes (done ++ act.Reads domain stamp (number_in result) ∷ []) host.new }
    ensures rested { (done : List Act) → H.asked_rested domain stamp done host.old
        → H.asked_rested domain stamp (done ++ act.Reads domain stamp (number_in result) ∷ [])
        host.new }
{
    host.world().done(domain, stamp)
}

/// Tries to begin a period of a domain at an even number.
fn try_begin<R: Recorder, H: Desk<R>>(host: &mut H, domain: Domain, even: u32) -> Began
    requires stands { Stands R.log R.counts Whatever H.Host.tests H.Host.face H.Host.held host.old }
    requires even { even % 2 ≡ 0 }
    requires idle { (side domain (H.W.Knows.known (H.shared host.old))).number ≡ 0 }
    requires room { 0 < (side domain (H.W.Knows.known (H.shared host.old))).begins }
    ensures known { H.W.Knows.known (H.shared host.new)
        ≡ began H.W.Knows.tells domain result even (H.W.Knows.known (H.shared host.old)) }
    ensures turned { Turned H.Host.face H.Host.pending H.stays H.Host.held
        (λ h. H.W.Knows.known (H.shared h)) (λ h. H.W.Knows.rights (H.shared h)) (plain_of domain)
        (tracing_of domain) host.old host.new }
    ensures stands { Stands R.log R.counts Whatever H.Host.tests H.Host.face H.Host.held host.new }
    ensures owes { (done : List Act) (es : List EntryValue) → H.owes done es host.old
        → H.owes (done ++ begin_act domain even result ∷ []) es host.new }
{
    host.world().begin(domain, even)
}

/// Records that a period has begun, by which the number of a domain is `number`.
fn note_begun<R: Recorder, H: Desk<R>>(host: &mut H, domain: Domain, number: u32)
    requires stands { Stands R.log R.counts Whatever H.Host.tests H.Host.face H.Host.held host.old }
    ensures step { Appends (R.log (H.Host.held host.old).recorder) (H.Host.face host.old).level
        (entry.Begin domain number) (R.log (H.Host.held host.new).recorder) }
    ensures lists { shown (H.Host.held host.new) ≡ shown (H.Host.held host.old) }
    ensures processor { (H.Host.held host.new).processor ≡ (H.Host.held host.old).processor }
    ensures handled { Handled H.Host.face H.Host.pending H.stays H.shared H.Host.tests host.old
        host.new }
    ensures stands { Stands R.log R.counts Whatever H.Host.tests H.Host.face H.Host.held host.new }
    ensures owes { (done : List Act) (es : List EntryValue) → H.owes done es host.old
        → H.owes done (es ++ entry.Begin domain number ∷ []) host.new }
{
    let level = host.level();
    host.caches().began(level, domain, number);
}

/// Begins a period of a domain at an even number, if that is still the number, and looks at its words; it ends if all pass.
fn begin_at<R: Recorder, H: Desk<R>>(host: &mut H, domain: Domain, even: u32)
    requires stands { Stands R.log R.counts H.Host.sound H.Host.tests H.Host.face H.Host.held
        host.old }
    requires even { even % 2 ≡ 0 }
    requires small { even < 2 ^ 32 - 1 }
    requires idle { (side domain (H.W.Knows.known (H.shared host.old))).number ≡ 0 }
    requires room { 0 < (side domain (H.W.Knows.known (H.shared host.old))).begins }
    ensures works { Works R.log H.Host.face H.Host.pending H.stays H.Host.held
        (λ h. H.W.Knows.known (H.shared h)) (plain_of domain) (tracing_of domain)
        (λ l. Say l (MayBegin domain)) host.old host.new }
    ensures lists { shown (H.Host.held host.new) ≡ shown (H.Host.held host.old) }
    ensures quiet { H.Host.pending host.new ≡ H.Host.pending host.old }
    ensures ages { Ages (H.W.Knows.rights (H.shared host.old))
        (H.W.Knows.rights (H.shared host.new)) }
    ensures stands { Stands R.log R.counts Whatever H.Host.tests H.Host.face H.Host.held host.new }
    ensures rested { (x : ℕ) → even < x → PollsForSome H.minds domain x (H.Host.held host.old)
        → H.owes (act.Reads domain x even ∷ []) [] host.old → H.rested domain x host.new }
{
    match try_begin(host, domain, even) {
        Began::Won => {
            note_begun(host, domain, even + 1);
            finish_if_all(host, domain);
        }
        Began::Moved(_) => {}
    }
}

/// Begins a period of a domain where the side has none in progress and the number is even and below the stamp. One that began
/// is looked at, and ended if all of its words pass. From `rcu_gp_init` of kernel/rcu/tree.c.
pub fn begin_if_due<R: Recorder, H: Desk<R>>(host: &mut H, domain: Domain, stamp: u32)
    requires stands { Stands R.log R.counts H.Host.sound H.Host.tests H.Host.face H.Host.held
        host.old }
    requires room { 0 < (side domain (H.W.Knows.known (H.shared host.old))).begins }
    requires rested { (side domain (H.W.Knows.known (H.shared host.old))).number % 2 ≡ 1
        → H.rested domain stamp host.old }
    requires batch { PollsForSome H.minds domain stamp (H.Host.held host.old) }
    ensures works { Works R.log H.Host.face H.Host.pending H.stays H.Host.held
        (λ h. H.W.Knows.known (H.shared h)) (plain_of domain) (tracing_of domain)
        (λ l. Say l (MayBegin domain)) host.old host.new }
    ensures lists { shown (H.Host.held host.new) ≡ shown (H.Host.held host.old) }
    ensures quiet { H.Host.pending host.new ≡ H.Host.pending host.old }
    ensures ages { Ages (H.W.Knows.rights (H.shared host.old))
        (H.W.Knows.rights (H.shared host.new)) }
    ensures stands { Stands R.log R.counts H.Host.sound H.Host.tests H.Host.face H.Host.held
        host.new }
    ensures rested { H.rested domain stamp host.new }
{
    if drives(host, domain) {
        return;
    }
    if let Done::NotYet(number) = ask(host, domain, stamp) {
        if number % 2 == 0 {
            begin_at(host, domain, number);
        }
    }
}
