//! The closing of a processor on a desk: periods that end, and sweeps.

ghost use Rattle.std.specs.Prelude.{◌≡◌, ◌≢◌, ◌+◌, ◌++◌, ◌%◌, ◌<◌, ◌≤◌, ℕ, List, [], true, false, length, map, vec_capacity, vec_len, IfOk, OnErr, OnOk, IsTrue, is_some};
ghost use Rattle.std.specs.List.{All, flat_map};
ghost use Rattle.bm_journal.specs.declared.ids.Domain.TheVariants.{Plain, Tracing};
ghost use Rattle.bm_law.specs.Stands.{stands, times};
ghost use Rattle.bm_journal.specs.declared.entry.Entry.{Entry as EntryValue};
ghost use Rattle.bm_law_order.specs.Act.{Act};
ghost use Rattle.bm_post.specs.Rights.{AreSame, Loses, MayLeave, numbers};
ghost use Rattle.bm_journal.specs.declared.ids.Domain.{Domain as DomainValue};
ghost use Rattle.bm_grace.specs.Known.{side};
ghost use Rattle.bm_grace.specs.Rest.{MovesNumber, StaysAtRest};
ghost use Rattle.bm_law.specs.Alone.{Alone};
ghost use Rattle.bm_law.specs.State.{seen, seven_lists};
ghost use Rattle.bm_cache.specs.Shown.{shown};
ghost use Rattle.bm_cache.specs.Span.{Goes};
ghost use Rattle.bm_cache.specs.Tokens.{number_of};
ghost use Rattle.bm_law.specs.Begun.{begun_by};
ghost use Rattle.bm_law_work.specs.Grown.{GrewBy};
ghost use Rattle.bm_work.specs.Goes.{Alike};
ghost use Rattle.bm_work.specs.Owed.{Whatever};
ghost use Rattle.bm_work.specs.Works.{Handled};
ghost use Rattle.bm_law_scenario.specs.Closing.{EndsOne};
ghost use Rattle.bm_closing.specs.AtEnd.{AtEnd, ended_at};
ghost use Rattle.bm_closing.specs.Arrived.{Arrived};
ghost use Rattle.bm_closing.specs.Closes.{ClosesBy};
ghost use Rattle.bm_closing.specs.Emptied.{Emptied};
ghost use Rattle.bm_closing.specs.Gathered.{Gathered, swept};
ghost use Rattle.bm_closing.specs.SentBack.{SentBack};
ghost use Rattle.bm_closing.specs.Stops.{StopsSweep, Unreturned};
ghost use Rattle.bm_closing.specs.Sweeps.{Sweeps};
ghost use Rattle.bm_closing.specs.Swept.{Swept};
ghost use Rattle.bm_closing.specs.Told.{receives_all};
ghost use Rattle.bm_closing.specs.Waited.{WaitedAt};
ghost use Rattle.bm_closing.specs.declared.period.Waited.{Waited as WaitedValue};

use crate::Ended;
use crate::gathering::{gather, units_of};
use crate::inbox::{give_up_parcels, receive_all, write_numbers};
use crate::period::{end_driven, wait_period};
use bm_cache::Host;
use bm_class::Class;
use bm_grace::Grace;
use bm_journal::{Domain, Recorder};
use bm_page::Unit;
use bm_post::Post;
use bm_word::NoMemory;
use bm_work::Desk;
use std::alloc::Global;

/// Ends the period of a domain that this processor has in progress, if it has one: all of its words pass, since no section is
/// open anywhere. No handler runs. From `rcu_barrier_tasks_trace` in `free_mem_alloc` of kernel/bpf/memalloc.c, which waits for
/// the periods that are in progress; that each processor ends its own is this project's own.
pub fn end_period<R: Recorder, H: Ended<R>>(host: &mut H, domain: Domain)
    requires at_end { AtEnd R.log R.counts H.Host.sound H.Host.tests H.Host.face H.Host.held
        host.old }
    requires rest { (n : ℕ) × H.W.Knows.rest (H.shared host.old) domain n }
    ensures ends { GrewBy
        (EndsOne domain (begun_by (side domain (H.W.Knows.known (H.shared host.old))).number))
        (seen number_of (shown (H.Host.held host.old))) (R.log (H.Host.held host.old).recorder)
        (R.log (H.Host.held host.new).recorder) }
    ensures alone { Alone 0 (R.log (H.Host.held host.old).recorder)
        (R.log (H.Host.held host.new).recorder) }
    ensures lists { shown (H.Host.held host.new) ≡ shown (H.Host.held host.old) }
    ensures processor { (H.Host.held host.new).processor ≡ (H.Host.held host.old).processor }
    ensures ended { (side domain (H.W.Knows.known (H.shared host.new))).number ≡ 0 }
    ensures other { (d : DomainValue) → d ≢ domain
        → side d (H.W.Knows.known (H.shared host.new))
        ≡ side d (H.W.Knows.known (H.shared host.old)) }
    ensures begins { (d : DomainValue)
        → (side d (H.W.Knows.known (H.shared host.new))).begins
        ≡ (side d (H.W.Knows.known (H.shared host.old))).begins }
    ensures alike { Alike (H.W.Knows.known (H.shared host.old))
        (H.W.Knows.known (H.shared host.new)) }
    ensures parcels { (H.W.Knows.known (H.shared host.new)).parcels
        ≡ (H.W.Knows.known (H.shared host.old)).parcels }
    ensures does { ClosesBy H.W.Knows.does (H.shared host.old) (H.shared host.new) }
    ensures rest { (n : ℕ)
        → MovesNumber H.W.Knows.rest domain n
        (ended_at (side domain (H.W.Knows.known (H.shared host.old))).number n)
        (H.shared host.old) (H.shared host.new) }
    ensures goes { Goes H.Host.face H.Host.pending H.stays host.old host.new }
    ensures at_end { AtEnd R.log R.counts H.Host.sound H.Host.tests H.Host.face H.Host.held
        host.new }
{
    if !host.world().driving(domain) {
        return;
    }
    let period = end_driven(host.world(), domain);
    let level = host.level();
    host.caches().finished(level, period);
}

/// All parcels of a class's inbox, each of which holds a unit. Want of memory is the only refusal, and leaves the caches as they
/// were; parcels that were received are lost then.
fn empty_inbox<R: Recorder, H: Ended<R>>(
    alloc: Global,
    host: &mut H,
    class: Class,
) -> Result<Vec<Vec<Unit>>, NoMemory>
    requires at_end { AtEnd R.log R.counts H.Host.sound H.Host.tests H.Host.face H.Host.held
        host.old }
    ensures some { IfOk result
        (λ parcels. length parcels.items ≤ length (flat_map (λ p. p.items) parcels.items)) }
    ensures emptied { IfOk result
        (λ parcels. Emptied H.Host.face H.Host.pending H.stays H.Host.held
        (λ h. H.W.Knows.known (H.shared h)) (λ h. H.W.Knows.rights (H.shared h)) class
        (flat_map (λ p. p.items) parcels.items) host.old host.new) }
    ensures does { OnOk result (ClosesBy H.W.Knows.does (H.shared host.old) (H.shared host.new)) }
    ensures rest { OnOk result
        (StaysAtRest H.W.Knows.rest (H.shared host.old) (H.shared host.new)) }
    ensures at_end { OnOk result
        (AtEnd R.log R.counts Whatever H.Host.tests H.Host.face H.Host.held host.new) }
    ensures owes { IfOk result
        (λ parcels. H.owes (receives_all class (map (λ p. numbers p.items) parcels.items)) []
        host.new) }
    ensures refused { OnErr result (H.Host.held host.new ≡ H.Host.held host.old) }
{
    let mut parcels = Vec::new(alloc);
    if receive_all(host.world(), class, &mut parcels).is_err() {
        give_up_parcels(parcels);
        return Err(NoMemory);
    }
    Ok(parcels)
}

/// All units of a class's lists and of these parcels become a tracing batch, which takes its stamp and sees a period pass. Each of
/// them may leave then.
fn gather_all<R: Recorder, H: Ended<R>>(host: &mut H, class: Class, parcels: Vec<Vec<Unit>>)
    requires at_end { AtEnd R.log R.counts Whatever H.Host.tests H.Host.face H.Host.held host.old }
    requires owes { H.owes (receives_all class (map (λ p. numbers p.items) parcels.items)) []
        host.old }
    requires arrived { Arrived class (H.W.Knows.rights (H.shared host.old))
        (flat_map (λ p. p.items) parcels.items) }
    requires apart { (n : ℕ)
        → stands n (seen number_of (shown (H.Host.held host.old)))
        + times n (map number_of (flat_map (λ p. p.items) parcels.items))
        ≤ 1 }
    requires rest { (n : ℕ) × (H.W.Knows.rest (H.shared host.old) Tracing n × (n % 2 ≡ 0)) }
    requires room { 0 < (side Tracing (H.W.Knows.known (H.shared host.old))).begins }
    ensures gathered { (w : WaitedValue)
        × ((n : ℕ) → H.W.Knows.rest (H.shared host.old) Tracing n → n % 2 ≡ 0 → WaitedAt n w)
        × Gathered R.log class (flat_map (λ p. p.items) parcels.items) w (H.Host.held host.old)
        (H.Host.held host.new) }
    ensures progress { IsTrue
        (is_some ((shown (H.Host.held host.new)).rows class).deferred.tracing) }
    ensures fit { All (MayLeave (H.W.Knows.rights (H.shared host.new)))
        ((shown (H.Host.held host.new)).rows class).deferred.second }
    ensures mine { AreSame (H.W.Knows.rights (H.shared host.old))
        (H.W.Knows.rights (H.shared host.new)) }
    ensures alike { Alike (H.W.Knows.known (H.shared host.old))
        (H.W.Knows.known (H.shared host.new)) }
    ensures plain { (side Plain (H.W.Knows.known (H.shared host.new))).begins
        ≡ (side Plain (H.W.Knows.known (H.shared host.old))).begins }
    ensures begins { (side Tracing (H.W.Knows.known (H.shared host.old))).begins
        ≤ (side Tracing (H.W.Knows.known (H.shared host.new))).begins + 1 }
    ensures parcels { (H.W.Knows.known (H.shared host.new)).parcels
        ≡ (H.W.Knows.known (H.shared host.old)).parcels }
    ensures does { ClosesBy H.W.Knows.does (H.shared host.old) (H.shared host.new) }
    ensures rest { (n : ℕ) → n % 2 ≡ 0
        → MovesNumber H.W.Knows.rest Tracing n (n + 2) (H.shared host.old) (H.shared host.new) }
    ensures goes { Goes H.Host.face H.Host.pending H.stays host.old host.new }
    ensures at_end { AtEnd R.log R.counts H.Host.sound H.Host.tests H.Host.face H.Host.held
        host.new }
{
    let waited = wait_period(host.world());
    gather(host.caches(), class, parcels, waited);
}

/// An empty list with room for the numbers of the units of a class's tracing batch. Want of memory is the only refusal. Nothing
/// changes.
fn room_for_return<R: Recorder, H: Ended<R>>(
    alloc: Global,
    host: &mut H,
    class: Class,
) -> Result<Vec<u16>, NoMemory>
    requires at_end { AtEnd R.log R.counts H.Host.sound H.Host.tests H.Host.face
        H.Host.held host.old }
    ensures room { IfOk result (λ numbers. (vec_len numbers ≡ 0)
        × (length ((shown (H.Host.held host.old)).rows class).deferred.second
        ≤ vec_capacity numbers)) }
    ensures same { H.Host.held host.new ≡ H.Host.held host.old }
    ensures handled { Handled H.Host.face H.Host.pending H.stays H.shared H.Host.tests
        host.old host.new }
    ensures at_end { AtEnd R.log R.counts H.Host.sound H.Host.tests H.Host.face
        H.Host.held host.new }
{
    let count = host.caches().counts(class).second;
    Ok(Vec::with_capacity(alloc, count as usize)?)
}

/// The tracing batch of a class, whose units may leave, goes back to the stock. The list has room for their numbers. Want of
/// memory is the only refusal, and leaves the caches as they were.
fn send_back_now<R: Recorder, H: Ended<R>>(
    host: &mut H,
    class: Class,
    numbers: Vec<u16>,
) -> Result<(), NoMemory>
    requires at_end { AtEnd R.log R.counts H.Host.sound H.Host.tests H.Host.face H.Host.held
        host.old }
    requires progress { IsTrue
        (is_some ((shown (H.Host.held host.old)).rows class).deferred.tracing) }
    requires fit { All (MayLeave (H.W.Knows.rights (H.shared host.old)))
        ((shown (H.Host.held host.old)).rows class).deferred.second }
    requires empty { vec_len numbers ≡ 0 }
    requires room { length ((shown (H.Host.held host.old)).rows class).deferred.second
        ≤ vec_capacity numbers }
    ensures gone { OnOk result
        (Loses (map number_of ((shown (H.Host.held host.old)).rows class).deferred.second)
        (H.W.Knows.rights (H.shared host.old)) (H.W.Knows.rights (H.shared host.new))) }
    ensures sent { OnOk result
        (SentBack R.log class (H.Host.held host.old) (H.Host.held host.new)) }
    ensures alike { OnOk result
        (Alike (H.W.Knows.known (H.shared host.old)) (H.W.Knows.known (H.shared host.new))) }
    ensures grace { OnOk result
        ((H.W.Knows.known (H.shared host.new)).grace
        ≡ (H.W.Knows.known (H.shared host.old)).grace) }
    ensures parcels { OnOk result
        ((H.W.Knows.known (H.shared host.new)).parcels
        ≡ (H.W.Knows.known (H.shared host.old)).parcels) }
    ensures does { OnOk result (ClosesBy H.W.Knows.does (H.shared host.old) (H.shared host.new)) }
    ensures rest { OnOk result
        (StaysAtRest H.W.Knows.rest (H.shared host.old) (H.shared host.new)) }
    ensures goes { OnOk result (Goes H.Host.face H.Host.pending H.stays host.old host.new) }
    ensures at_end { OnOk result
        (AtEnd R.log R.counts H.Host.sound H.Host.tests H.Host.face H.Host.held host.new) }
    ensures refused { OnErr result (H.Host.held host.new ≡ H.Host.held host.old) }
{
    let mut numbers = numbers;
    let level = host.level();
    let units = host.caches().second_out(level, class)?;
    write_numbers(&mut numbers, &units);
    host.world().put_back(units);
    host.caches().returned(level, class, numbers);
    Ok(())
}

/// The tracing batch of a class, whose units may leave, goes back to the stock. Want of memory is the only refusal, and leaves the
/// caches as they were.
fn send_back<R: Recorder, H: Ended<R>>(
    alloc: Global,
    host: &mut H,
    class: Class,
) -> Result<(), NoMemory>
    requires at_end { AtEnd R.log R.counts H.Host.sound H.Host.tests H.Host.face H.Host.held
        host.old }
    requires progress { IsTrue
        (is_some ((shown (H.Host.held host.old)).rows class).deferred.tracing) }
    requires fit { All (MayLeave (H.W.Knows.rights (H.shared host.old)))
        ((shown (H.Host.held host.old)).rows class).deferred.second }
    ensures gone { OnOk result
        (Loses (map number_of ((shown (H.Host.held host.old)).rows class).deferred.second)
        (H.W.Knows.rights (H.shared host.old)) (H.W.Knows.rights (H.shared host.new))) }
    ensures sent { OnOk result
        (SentBack R.log class (H.Host.held host.old) (H.Host.held host.new)) }
    ensures alike { OnOk result
        (Alike (H.W.Knows.known (H.shared host.old)) (H.W.Knows.known (H.shared host.new))) }
    ensures grace { OnOk result
        ((H.W.Knows.known (H.shared host.new)).grace
        ≡ (H.W.Knows.known (H.shared host.old)).grace) }
    ensures parcels { OnOk result
        ((H.W.Knows.known (H.shared host.new)).parcels
        ≡ (H.W.Knows.known (H.shared host.old)).parcels) }
    ensures does { OnOk result (ClosesBy H.W.Knows.does (H.shared host.old) (H.shared host.new)) }
    ensures rest { OnOk result
        (StaysAtRest H.W.Knows.rest (H.shared host.old) (H.shared host.new)) }
    ensures goes { OnOk result (Goes H.Host.face H.Host.pending H.stays host.old host.new) }
    ensures at_end { OnOk result
        (AtEnd R.log R.counts H.Host.sound H.Host.tests H.Host.face H.Host.held host.new) }
    ensures refused { OnErr result (H.Host.held host.new ≡ H.Host.held host.old) }
{
    let numbers = room_for_return(alloc, host, class)?;
    send_back_now(host, class, numbers)
}

/// Whether neither a class's lists nor these parcels hold a unit.
fn hold_nothing<R: Recorder, H: Ended<R>>(
    host: &mut H,
    class: Class,
    parcels: &Vec<Vec<Unit>>,
) -> bool
    requires some { length parcels.now.items ≤ length (flat_map (λ p. p.items) parcels.now.items) }
    ensures nothing { result ≡ true
        → (seven_lists ((shown (H.Host.held host.old)).rows class) ≡ [])
        × (parcels.now.items ≡ []) }
    ensures something { result ≡ false
        → 0
        < length
        (seven_lists ((shown (H.Host.held host.old)).rows class)
        ++ flat_map (λ p. p.items) parcels.now.items) }
    ensures same { H.Host.held host.new ≡ H.Host.held host.old }
    ensures handled { Handled H.Host.face H.Host.pending H.stays H.shared H.Host.tests host.old
        host.new }
    ensures owes { (done : List Act) (es : List EntryValue) → H.owes done es host.old
        → H.owes done es host.new }
{
    units_of(host.caches(), class) == 0 && parcels.is_empty()
}

/// All units of a class's lists and of these parcels become a tracing batch, a tracing period passes, and they go back to the
/// stock. Want of memory is the only refusal: they are the batch then, and the return isn't recorded.
fn sweep_all<R: Recorder, H: Ended<R>>(
    alloc: Global,
    host: &mut H,
    class: Class,
    parcels: Vec<Vec<Unit>>,
) -> Result<(), NoMemory>
    requires at_end { AtEnd R.log R.counts Whatever H.Host.tests H.Host.face H.Host.held host.old }
    requires owes { H.owes (receives_all class (map (λ p. numbers p.items) parcels.items)) []
        host.old }
    requires arrived { Arrived class (H.W.Knows.rights (H.shared host.old))
        (flat_map (λ p. p.items) parcels.items) }
    requires apart { (n : ℕ)
        → stands n (seen number_of (shown (H.Host.held host.old)))
        + times n (map number_of (flat_map (λ p. p.items) parcels.items))
        ≤ 1 }
    requires rest { (n : ℕ) × (H.W.Knows.rest (H.shared host.old) Tracing n × (n % 2 ≡ 0)) }
    requires room { 0 < (side Tracing (H.W.Knows.known (H.shared host.old))).begins }
    ensures gone { OnOk result
        (Loses (swept class (flat_map (λ p. p.items) parcels.items) (shown (H.Host.held host.old)))
        (H.W.Knows.rights (H.shared host.old)) (H.W.Knows.rights (H.shared host.new))) }
    ensures swept { OnOk result
        (Swept R.log H.Host.face H.Host.pending H.stays H.Host.held
        (λ h. H.W.Knows.known (H.shared h)) class (flat_map (λ p. p.items) parcels.items)
        host.old host.new) }
    ensures does { OnOk result (ClosesBy H.W.Knows.does (H.shared host.old) (H.shared host.new)) }
    ensures rest { OnOk result
        ((n : ℕ) → n % 2 ≡ 0
        → MovesNumber H.W.Knows.rest Tracing n (n + 2) (H.shared host.old)
        (H.shared host.new)) }
    ensures at_end { OnOk result
        (AtEnd R.log R.counts H.Host.sound H.Host.tests H.Host.face H.Host.held host.new) }
    ensures memory { OnErr result (Unreturned R.log R.counts class
        (flat_map (λ p. p.items) parcels.items) (H.Host.held host.old) (H.Host.held host.new)) }
{
    gather_all(host, class, parcels);
    send_back(alloc, host, class)
}

/// All units that this processor holds of a class, in the lists of its cache and in its inbox, go back to the stock, so that none
/// of them is its own any more; nothing is recorded where it holds none. They become one tracing batch, and a tracing period
/// passes the batch's stamp, since some of them may still wait for one. Want of memory is the only refusal: it stopped before it
/// had recorded anything, or before its return, and no unit has left the lists. Parcels that were received before anything was
/// recorded are lost then, and the desk is fit for nothing more. From `free_mem_alloc` and `drain_mem_cache` of
/// kernel/bpf/memalloc.c, which empty all lists of a cache after the periods that are in progress; the tracing period of each
/// sweep is this project's own.
pub fn sweep<R: Recorder, H: Ended<R>>(
    alloc: Global,
    host: &mut H,
    class: Class,
) -> Result<(), NoMemory>
    requires at_end { AtEnd R.log R.counts H.Host.sound H.Host.tests H.Host.face H.Host.held
        host.old }
    requires rest { (n : ℕ) × (H.W.Knows.rest (H.shared host.old) Tracing n × (n % 2 ≡ 0)) }
    requires room { 0 < (side Tracing (H.W.Knows.known (H.shared host.old))).begins }
    ensures gone { OnOk result
        (Loses (map number_of (seven_lists ((shown (H.Host.held host.old)).rows class)))
        (H.W.Knows.rights (H.shared host.old)) (H.W.Knows.rights (H.shared host.new))) }
    ensures sweeps { OnOk result
        (Sweeps R.log H.Host.face H.Host.pending H.stays H.Host.held
        (λ h. H.W.Knows.known (H.shared h)) class host.old host.new) }
    ensures does { OnOk result (ClosesBy H.W.Knows.does (H.shared host.old) (H.shared host.new)) }
    ensures rest { OnOk result
        ((n : ℕ) → n % 2 ≡ 0
        → (m : ℕ)
        × ((m % 2 ≡ 0)
        × MovesNumber H.W.Knows.rest Tracing n m (H.shared host.old)
        (H.shared host.new))) }
    ensures at_end { OnOk result
        (AtEnd R.log R.counts H.Host.sound H.Host.tests H.Host.face H.Host.held host.new) }
    ensures memory { OnErr result (StopsSweep R.log R.counts H.Host.face H.Host.held
        (λ h. H.W.Knows.known (H.shared h)) class host.old host.new) }
{
    let parcels = empty_inbox(alloc, host, class)?;
    if hold_nothing(host, class, &parcels) {
        parcels.destroy_empty();
        return Ok(());
    }
    sweep_all(alloc, host, class, parcels)
}
