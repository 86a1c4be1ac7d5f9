//! The stages of deferred work.

ghost use Rattle.std.specs.Prelude.{◌≡◌, ◌≢◌, ◌≤◌, ◌<◌, ◌+◌, ℕ, List, [], Some, None, IsTrue, is_some, true, false, length, vec_capacity, vec_len, IfOk, OnOk, OnErr};
ghost use Rattle.std.specs.List.{All};
ghost use Rattle.bm_journal.specs.declared.ids.Domain.TheVariants.{Plain, Tracing};
ghost use Rattle.bm_law.specs.declared.mark.Mark.TheVariants as mark;
ghost use Rattle.bm_grace.specs.Known.{side};
ghost use Rattle.bm_law.specs.Lists.{is_unstamped, stamp_of};
ghost use Rattle.bm_law.specs.State.{idle_side};
ghost use Rattle.bm_cache.specs.Shown.{shown};
ghost use Rattle.bm_cache.specs.Tokens.{Token, number_of};
ghost use Rattle.bm_law_work.specs.WorkPhrases.{FirstStage, SecondStage};
ghost use Rattle.bm_work.specs.Stops.{BeginFirst, BeginSecond, FirstStop, PassFirst, PassSecond, SecondStop};
ghost use Rattle.bm_work.specs.Works.{Handled, Posted, Stands, Stopped, Works};

use crate::Desk;
use crate::leaving::{return_second, send_first};
use crate::lists::{begin_batch, gather};
use crate::polls::poll;
use crate::stamps::stamp_batch;
use bm_cache::Host;
use bm_class::Class;
use bm_grace::Done;
use bm_journal::{Domain, Recorder};
use bm_page::Seal;
use bm_word::NoMemory;
use std::alloc::Global;

/// The stamp of the batch of a domain; none where none is in progress.
fn batch_stamp<R: Recorder, H: Desk<R>>(host: &mut H, class: Class, domain: Domain) -> Option<u32>
    requires stands { Stands R.log R.counts H.Host.sound H.Host.tests H.Host.face H.Host.held
        host.old }
    ensures stamp { result ≡ stamp_of domain ((shown (H.Host.held host.old)).rows class).deferred }
    ensures same { (H.Host.held host.new) ≡ (H.Host.held host.old) }
    ensures handled { Handled H.Host.face H.Host.pending H.stays H.shared H.Host.tests host.old
        host.new }
    ensures posted { Posted H.Host.face H.Host.pending H.stays H.Host.held
        (λ h. H.W.Knows.known (H.shared h)) H.Host.tests ([]) host.old host.new }
    ensures stands { Stands R.log R.counts H.Host.sound H.Host.tests H.Host.face H.Host.held
        host.new }
{
    host.caches().in_progress(class, domain)
}

/// The plain batch, if one is in progress, is sent where its grace period has passed. Want of memory is the only refusal.
fn pass_first<R: Recorder, H: Desk<R>>(
    alloc: Global,
    host: &mut H,
    class: Class,
) -> Result<(), NoMemory>
    requires stands { Stands R.log R.counts H.Host.sound H.Host.tests H.Host.face H.Host.held
        host.old }
    requires idle { (shown (H.Host.held host.old)).sides (H.Host.face host.old).level ≡ idle_side }
    requires room { 0 < (side Plain (H.W.Knows.known (H.shared host.old))).begins }
    requires stamped { is_unstamped ((shown (H.Host.held host.old)).rows class).deferred.plain
        ≡ false }
    ensures ok { OnOk result
        (Works R.log H.Host.face H.Host.pending H.stays H.Host.held
        (λ h. H.W.Knows.known (H.shared h)) 1 0 (λ l. PassFirst l class) host.old host.new) }
    ensures err { OnErr result
        (Stopped R.log R.counts H.Host.face H.Host.held (λ l. FirstStop l class) host.old
        host.new) }
    ensures stamped { OnOk result
        (is_unstamped ((shown (H.Host.held host.new)).rows class).deferred.plain ≡ false) }
    ensures tracing { OnOk result
        (((shown (H.Host.held host.new)).rows class).deferred.tracing
        ≡ ((shown (H.Host.held host.old)).rows class).deferred.tracing) }
    ensures kept { OnOk result
        ((k : ℕ) → k ≢ class
        → ((shown (H.Host.held host.new)).rows k).deferred
        ≡ ((shown (H.Host.held host.old)).rows k).deferred) }
    ensures side { OnOk result
        ((shown (H.Host.held host.new)).sides (H.Host.face host.old).level ≡ idle_side) }
    ensures back { OnOk result
        (Stands R.log R.counts H.Host.sound H.Host.tests H.Host.face H.Host.held host.new) }
{
    let stamp = match batch_stamp(host, class, Domain::Plain) {
        Some(stamp) => stamp,
        None => return Ok(()),
    };
    match poll(host, class, Domain::Plain, stamp) {
        Done::Passed(seen) => send_first(alloc, host, class, Seal { stamp, seen }),
        Done::NotYet(_seen) => Ok(()),
    }
}

/// The tracing batch, if one is in progress, goes back to the stock where its grace period has passed. Want of memory is the
/// only refusal.
fn pass_second<R: Recorder, H: Desk<R>>(
    alloc: Global,
    host: &mut H,
    class: Class,
) -> Result<(), NoMemory>
    requires stands { Stands R.log R.counts H.Host.sound H.Host.tests H.Host.face H.Host.held
        host.old }
    requires idle { (shown (H.Host.held host.old)).sides (H.Host.face host.old).level ≡ idle_side }
    requires room { 0 < (side Tracing (H.W.Knows.known (H.shared host.old))).begins }
    ensures ok { OnOk result
        (Works R.log H.Host.face H.Host.pending H.stays H.Host.held
        (λ h. H.W.Knows.known (H.shared h)) 0 1 (λ l. PassSecond l class) host.old host.new) }
    ensures err { OnErr result
        (Stopped R.log R.counts H.Host.face H.Host.held (λ l. SecondStop l class) host.old
        host.new) }
    ensures plain { OnOk result
        (((shown (H.Host.held host.new)).rows class).deferred.plain
        ≡ ((shown (H.Host.held host.old)).rows class).deferred.plain) }
    ensures kept { OnOk result
        ((k : ℕ) → k ≢ class
        → ((shown (H.Host.held host.new)).rows k).deferred
        ≡ ((shown (H.Host.held host.old)).rows k).deferred) }
    ensures side { OnOk result
        ((shown (H.Host.held host.new)).sides (H.Host.face host.old).level ≡ idle_side) }
    ensures back { OnOk result
        (Stands R.log R.counts H.Host.sound H.Host.tests H.Host.face H.Host.held host.new) }
{
    let stamp = match batch_stamp(host, class, Domain::Tracing) {
        Some(stamp) => stamp,
        None => return Ok(()),
    };
    match poll(host, class, Domain::Tracing, stamp) {
        Done::Passed(_seen) => return_second(alloc, host, class),
        Done::NotYet(_seen) => Ok(()),
    }
}

/// What was freed with delay becomes the plain batch, if it holds a unit and none is in progress, and takes its stamp.
fn begin_first<R: Recorder, H: Desk<R>>(host: &mut H, class: Class)
    requires stands { Stands R.log R.counts H.Host.sound H.Host.tests H.Host.face H.Host.held
        host.old }
    requires idle { (shown (H.Host.held host.old)).sides (H.Host.face host.old).level ≡ idle_side }
    requires active { ((shown (H.Host.held host.old)).rows class).active ≡ 0 }
    requires stamped { is_unstamped ((shown (H.Host.held host.old)).rows class).deferred.plain
        ≡ false }
    ensures works { Works R.log H.Host.face H.Host.pending H.stays H.Host.held
        (λ h. H.W.Knows.known (H.shared h)) 0 0 (λ l. BeginFirst l class) host.old host.new }
    ensures stamped { is_unstamped ((shown (H.Host.held host.new)).rows class).deferred.plain
        ≡ false }
    ensures tracing { ((shown (H.Host.held host.new)).rows class).deferred.tracing
        ≡ ((shown (H.Host.held host.old)).rows class).deferred.tracing }
    ensures kept { (k : ℕ) → k ≢ class
        → ((shown (H.Host.held host.new)).rows k).deferred
        ≡ ((shown (H.Host.held host.old)).rows k).deferred }
    ensures side { (shown (H.Host.held host.new)).sides (H.Host.face host.old).level ≡ idle_side }
    ensures stands { Stands R.log R.counts H.Host.sound H.Host.tests H.Host.face H.Host.held
        host.new }
{
    if gather(host, class) {
        stamp_batch(host, class, Domain::Plain);
    }
}

/// Ready becomes the tracing batch, if it holds a unit and none is in progress, and takes its stamp.
fn begin_second<R: Recorder, H: Desk<R>>(host: &mut H, class: Class)
    requires stands { Stands R.log R.counts H.Host.sound H.Host.tests H.Host.face H.Host.held
        host.old }
    requires idle { (shown (H.Host.held host.old)).sides (H.Host.face host.old).level ≡ idle_side }
    ensures works { Works R.log H.Host.face H.Host.pending H.stays H.Host.held
        (λ h. H.W.Knows.known (H.shared h)) 0 0 (λ l. BeginSecond l class) host.old host.new }
    ensures plain { ((shown (H.Host.held host.new)).rows class).deferred.plain
        ≡ ((shown (H.Host.held host.old)).rows class).deferred.plain }
    ensures kept { (k : ℕ) → k ≢ class
        → ((shown (H.Host.held host.new)).rows k).deferred
        ≡ ((shown (H.Host.held host.old)).rows k).deferred }
    ensures side { (shown (H.Host.held host.new)).sides (H.Host.face host.old).level ≡ idle_side }
    ensures stands { Stands R.log R.counts H.Host.sound H.Host.tests H.Host.face H.Host.held
        host.new }
{
    if begin_batch(host, class) {
        stamp_batch(host, class, Domain::Tracing);
    }
}

/// The first stage of a class: the plain batch is sent where its grace period has passed, and what was freed with delay becomes
/// the next one. Want of memory is the only refusal. From `check_free_by_rcu` of kernel/bpf/memalloc.c.
pub fn first_stage<R: Recorder, H: Desk<R>>(
    alloc: Global,
    host: &mut H,
    class: Class,
) -> Result<(), NoMemory>
    requires stands { Stands R.log R.counts H.Host.sound H.Host.tests H.Host.face H.Host.held
        host.old }
    requires idle { (shown (H.Host.held host.old)).sides (H.Host.face host.old).level ≡ idle_side }
    requires active { ((shown (H.Host.held host.old)).rows class).active ≡ 0 }
    requires room { 0 < (side Plain (H.W.Knows.known (H.shared host.old))).begins }
    requires stamped { is_unstamped ((shown (H.Host.held host.old)).rows class).deferred.plain
        ≡ false }
    ensures ok { OnOk result
        (Works R.log H.Host.face H.Host.pending H.stays H.Host.held
        (λ h. H.W.Knows.known (H.shared h)) 1 0 (λ l. FirstStage l class) host.old host.new) }
    ensures err { OnErr result
        (Stopped R.log R.counts H.Host.face H.Host.held (λ l. FirstStop l class) host.old
        host.new) }
    ensures stamped { OnOk result
        (is_unstamped ((shown (H.Host.held host.new)).rows class).deferred.plain ≡ false) }
    ensures tracing { OnOk result
        (((shown (H.Host.held host.new)).rows class).deferred.tracing
        ≡ ((shown (H.Host.held host.old)).rows class).deferred.tracing) }
    ensures kept { OnOk result
        ((k : ℕ) → k ≢ class
        → ((shown (H.Host.held host.new)).rows k).deferred
        ≡ ((shown (H.Host.held host.old)).rows k).deferred) }
    ensures side { OnOk result
        ((shown (H.Host.held host.new)).sides (H.Host.face host.old).level ≡ idle_side) }
    ensures back { OnOk result
        (Stands R.log R.counts H.Host.sound H.Host.tests H.Host.face H.Host.held host.new) }
{
    pass_first(alloc, host, class)?;
    begin_first(host, class);
    Ok(())
}

/// The second stage of a class: the tracing batch goes back to the stock where its grace period has passed, and Ready becomes
/// the next one. Want of memory is the only refusal. From `do_call_rcu_ttrace` of kernel/bpf/memalloc.c.
pub fn second_stage<R: Recorder, H: Desk<R>>(
    alloc: Global,
    host: &mut H,
    class: Class,
) -> Result<(), NoMemory>
    requires stands { Stands R.log R.counts H.Host.sound H.Host.tests H.Host.face H.Host.held
        host.old }
    requires idle { (shown (H.Host.held host.old)).sides (H.Host.face host.old).level ≡ idle_side }
    requires room { 0 < (side Tracing (H.W.Knows.known (H.shared host.old))).begins }
    ensures ok { OnOk result
        (Works R.log H.Host.face H.Host.pending H.stays H.Host.held
        (λ h. H.W.Knows.known (H.shared h)) 0 1 (λ l. SecondStage l class) host.old host.new) }
    ensures err { OnErr result
        (Stopped R.log R.counts H.Host.face H.Host.held (λ l. SecondStop l class) host.old
        host.new) }
    ensures plain { OnOk result
        (((shown (H.Host.held host.new)).rows class).deferred.plain
        ≡ ((shown (H.Host.held host.old)).rows class).deferred.plain) }
    ensures kept { OnOk result
        ((k : ℕ) → k ≢ class
        → ((shown (H.Host.held host.new)).rows k).deferred
        ≡ ((shown (H.Host.held host.old)).rows k).deferred) }
    ensures side { OnOk result
        ((shown (H.Host.held host.new)).sides (H.Host.face host.old).level ≡ idle_side) }
    ensures back { OnOk result
        (Stands R.log R.counts H.Host.sound H.Host.tests H.Host.face H.Host.held host.new) }
{
    pass_second(alloc, host, class)?;
    begin_second(host, class);
    Ok(())
}
