//! The whole closing of a processor on a desk: its periods end, and then its classes are swept.

ghost use Rattle.std.specs.Prelude.{◌≡◌, ◌≢◌, ◌⊎◌, ◌%◌, ◌<◌, ◌≤◌, ℕ, [], length, OnErr, OnOk, IfSome};
ghost use Rattle.std.specs.Option.{option_map};
ghost use Rattle.bm_journal.specs.declared.ids.Domain.TheVariants.{Tracing};
ghost use Rattle.bm_journal.specs.declared.ids.Domain.{Domain as DomainValue};
ghost use Rattle.bm_grace.specs.Known.{side};
ghost use Rattle.bm_law.specs.Alone.{Alone};
ghost use Rattle.bm_law.specs.Stands.{times};
ghost use Rattle.bm_law.specs.State.{seen, seven_lists};
ghost use Rattle.bm_cache.specs.Shown.{shown};
ghost use Rattle.bm_cache.specs.Span.{Goes};
ghost use Rattle.bm_cache.specs.Tokens.{number_of};
ghost use Rattle.bm_law_work.specs.Grown.{GrewBy};
ghost use Rattle.bm_law_work.specs.Parts.{Then};
ghost use Rattle.bm_work.specs.Goes.{Alike};
ghost use Rattle.bm_law_scenario.specs.Closing.{AreSweeps};
ghost use Rattle.bm_law_logs.specs.SweepsTold.{SweepsTold};
ghost use Rattle.bm_closing.specs.AtEnd.{AtEnd, ended_at};
ghost use Rattle.bm_closing.specs.Closes.{ClosesBy};
ghost use Rattle.bm_closing.specs.EndsBegun.{EndsBegun};
ghost use Rattle.bm_closing.specs.Stops.{StopsClosing, StopsEach};
ghost use Rattle.bm_closing.specs.SweepsEach.{SweepsEach, all_emptied};

use crate::Ended;
use crate::closing::{end_period, sweep};
use bm_cache::Host;
use bm_class::Class;
use bm_journal::{Domain, Recorder};
use bm_word::NoMemory;
use bm_work::Desk;
use std::alloc::Global;

/// The first phase of a closing: ends the periods that this processor has in progress, first that of the plain domain and then that
/// of the tracing one (see `end_period`). All stays at rest, and the number of a domain is one greater where its period was this
/// processor's, and else as it was. It is even then if it was before, or if the period was this processor's.
pub fn end_periods<R: Recorder, H: Ended<R>>(host: &mut H)
    requires at_end { AtEnd R.log R.counts H.Host.sound H.Host.tests H.Host.face H.Host.held
        host.old }
    requires rest { (d : DomainValue) → (n : ℕ) × H.W.Knows.rest (H.shared host.old) d n }
    ensures ends { GrewBy (EndsBegun (H.W.Knows.known (H.shared host.old)))
        (seen number_of (shown (H.Host.held host.old))) (R.log (H.Host.held host.old).recorder)
        (R.log (H.Host.held host.new).recorder) }
    ensures alone { Alone 0 (R.log (H.Host.held host.old).recorder)
        (R.log (H.Host.held host.new).recorder) }
    ensures lists { shown (H.Host.held host.new) ≡ shown (H.Host.held host.old) }
    ensures processor { (H.Host.held host.new).processor ≡ (H.Host.held host.old).processor }
    ensures begins { (d : DomainValue)
        → (side d (H.W.Knows.known (H.shared host.new))).begins
        ≡ (side d (H.W.Knows.known (H.shared host.old))).begins }
    ensures alike { Alike (H.W.Knows.known (H.shared host.old))
        (H.W.Knows.known (H.shared host.new)) }
    ensures parcels { (H.W.Knows.known (H.shared host.new)).parcels
        ≡ (H.W.Knows.known (H.shared host.old)).parcels }
    ensures ended { (d : DomainValue) → (side d (H.W.Knows.known (H.shared host.new))).number ≡ 0 }
    ensures does { ClosesBy H.W.Knows.does (H.shared host.old) (H.shared host.new) }
    ensures rest { (d : DomainValue) (n : ℕ) → H.W.Knows.rest (H.shared host.old) d n →
        let own = (side d (H.W.Knows.known (H.shared host.old))).number in
        H.W.Knows.rest (H.shared host.new) d (ended_at own n) }
    ensures even { (d : DomainValue) (n : ℕ) → H.W.Knows.rest (H.shared host.old) d n →
        let own = (side d (H.W.Knows.known (H.shared host.old))).number in
        (n % 2 ≡ 0) ⊎ (own ≢ 0) → ended_at own n % 2 ≡ 0 }
    ensures goes { Goes H.Host.face H.Host.pending H.stays host.old host.new }
    ensures at_end { AtEnd R.log R.counts H.Host.sound H.Host.tests H.Host.face H.Host.held
        host.new }
{
    end_period(host, Domain::Plain);
    end_period(host, Domain::Tracing);
}

/// The second phase of a closing, behind the first one of each processor: sweeps each of these classes of this processor, in their
/// order (see `sweep`). Want of memory is the only refusal: one class's sweep stopped (see there), those before it are swept, and
/// those behind it are as they were. The desk is fit for nothing more then. From `drain_mem_cache` and `bpf_mem_alloc_destroy` of
/// kernel/bpf/memalloc.c; the order is this project's own.
pub fn sweep_each<R: Recorder, H: Ended<R>>(
    alloc: Global,
    host: &mut H,
    classes: &[Class],
) -> Result<(), NoMemory>
    requires at_end { AtEnd R.log R.counts H.Host.sound H.Host.tests H.Host.face H.Host.held
        host.old }
    requires rest { (d : DomainValue)
        → (n : ℕ) × (H.W.Knows.rest (H.shared host.old) d n × (n % 2 ≡ 0)) }
    requires room { length classes.now
        ≤ (side Tracing (H.W.Knows.known (H.shared host.old))).begins }
    ensures sweeps { OnOk result
        (SweepsEach R.log H.Host.face H.Host.pending H.stays H.Host.held
        (λ h. H.W.Knows.known (H.shared h)) classes.now host.old host.new) }
    ensures does { OnOk result (ClosesBy H.W.Knows.does (H.shared host.old) (H.shared host.new)) }
    ensures rest { OnOk result
        ((d : DomainValue) → (n : ℕ) × (H.W.Knows.rest (H.shared host.new) d n × (n % 2 ≡ 0))) }
    ensures at_end { OnOk result
        (AtEnd R.log R.counts H.Host.sound H.Host.tests H.Host.face H.Host.held host.new) }
    ensures memory { OnErr result (StopsEach R.log R.counts H.Host.face H.Host.pending H.stays
        H.Host.held (λ h. H.W.Knows.known (H.shared h)) classes.now host.old host.new) }
{
    for class in classes {
        sweep(alloc, host, *class)?;
    }
    Ok(())
}

/// Closes a processor whose scripts have ended. The period of the plain domain that it has in progress ends, and then that of the
/// tracing domain. Then each class is swept, in the order of the list: all units that the processor holds of it, in the lists of
/// its cache and in its inbox, go back to the stock, and other classes stay as they are. No handler runs. Want of memory is the
/// only refusal: the periods have ended, and one class's sweep stopped (see `sweep_each`). The desk is fit for nothing more then.
/// From `free_mem_alloc`, `drain_mem_cache` and `bpf_mem_alloc_destroy` of kernel/bpf/memalloc.c, which wait for the periods that
/// are in progress and then empty all lists of each cache; that each processor ends its own periods, the order, and the tracing
/// period of each sweep are this project's own.
pub fn close<R: Recorder, H: Ended<R>>(
    alloc: Global,
    host: &mut H,
    classes: &[Class],
) -> Result<(), NoMemory>
    requires at_end { AtEnd R.log R.counts H.Host.sound H.Host.tests H.Host.face H.Host.held
        host.old }
    requires rest { (d : DomainValue)
        → (n : ℕ)
        × (H.W.Knows.rest (H.shared host.old) d n
        × (ended_at (side d (H.W.Knows.known (H.shared host.old))).number n % 2 ≡ 0)) }
    requires room { length classes.now
        ≤ (side Tracing (H.W.Knows.known (H.shared host.old))).begins }
    ensures closes { OnOk result
        (IfSome (H.W.Knows.known (H.shared host.old)).parcels
        (λ boxes. GrewBy
        (Then (EndsBegun (H.W.Knows.known (H.shared host.old)))
        (SweepsTold classes.now boxes))
        (seen number_of (shown (H.Host.held host.old)))
        (R.log (H.Host.held host.old).recorder) (R.log (H.Host.held host.new).recorder))) }
    ensures sweeps { OnOk result
        (GrewBy (Then (EndsBegun (H.W.Knows.known (H.shared host.old))) (AreSweeps classes.now))
        (seen number_of (shown (H.Host.held host.old))) (R.log (H.Host.held host.old).recorder)
        (R.log (H.Host.held host.new).recorder)) }
    ensures alone { OnOk result
        (Alone 0 (R.log (H.Host.held host.old).recorder) (R.log (H.Host.held host.new).recorder)) }
    ensures empty { OnOk result
        ((c : ℕ) → 0 < times c classes.now
        → seven_lists ((shown (H.Host.held host.new)).rows c) ≡ []) }
    ensures others { OnOk result
        ((c : ℕ) → times c classes.now ≡ 0
        → (shown (H.Host.held host.new)).rows c ≡ (shown (H.Host.held host.old)).rows c) }
    ensures none_left { OnOk result
        ((H.W.Knows.known (H.shared host.new)).parcels
        ≡ option_map (all_emptied classes.now) (H.W.Knows.known (H.shared host.old)).parcels) }
    ensures processor { OnOk result
        ((H.Host.held host.new).processor ≡ (H.Host.held host.old).processor) }
    ensures alike { OnOk result
        (Alike (H.W.Knows.known (H.shared host.old)) (H.W.Knows.known (H.shared host.new))) }
    ensures goes { OnOk result (Goes H.Host.face H.Host.pending H.stays host.old host.new) }
    ensures does { OnOk result (ClosesBy H.W.Knows.does (H.shared host.old) (H.shared host.new)) }
    ensures rest { OnOk result
        ((d : DomainValue) → (n : ℕ) × (H.W.Knows.rest (H.shared host.new) d n × (n % 2 ≡ 0))) }
    ensures at_end { OnOk result
        (AtEnd R.log R.counts H.Host.sound H.Host.tests H.Host.face H.Host.held host.new) }
    ensures memory { OnErr result (StopsClosing R.log R.counts H.Host.face H.Host.pending H.stays
        H.Host.held (λ h. H.W.Knows.known (H.shared h)) classes.now host.old host.new) }
{
    end_periods(host);
    sweep_each(alloc, host, classes)
}
