//! Units that the stock gives to a refill.

ghost use Rattle.bm_law_order.specs.Act.{Act};
ghost use Rattle.bm_law_order.specs.Act as act;
ghost use Rattle.std.specs.Prelude.{◌≡◌, ◌≢◌, ◌≤◌, ◌+◌, ◌-◌, ◌<◌, ◌∷◌, ◌++◌, ℕ, List, [], map, length, drop, IfOk, OnOk, OnErr};
ghost use Rattle.std.specs.List.{All};
ghost use Rattle.bm_journal.specs.declared.entry.Entry.TheVariants as entry;
ghost use Rattle.bm_law.specs.declared.mark.Mark.TheVariants as mark;
ghost use Rattle.bm_law.specs.Stands.{stands, times};
ghost use Rattle.bm_law.specs.State.{seen, idle_side};
ghost use Rattle.bm_cache.specs.Each.{Sits};
ghost use Rattle.bm_cache.specs.Listed.{TookUnits};
ghost use Rattle.bm_cache.specs.Placed.{Placed};
ghost use Rattle.bm_cache.specs.Shown.{shown};
ghost use Rattle.bm_cache.specs.Tests.{Reusable};
ghost use Rattle.bm_cache.specs.Tokens.{Token, number_of};
ghost use Rattle.bm_law_work.specs.Parts.{Say, Stand};
ghost use Rattle.bm_law_work.specs.WorkPhrases.{AddAll};
ghost use Rattle.bm_work_lists.specs.Fit.{Fit};
ghost use Rattle.bm_work_lists.specs.FromLists.{Fetched};
ghost use Rattle.bm_work.specs.Owed.{Whatever};
ghost use Rattle.bm_work.specs.Periods.{AddsFirst};
ghost use Rattle.bm_work.specs.Works.{Handled, Posted, Stands, Works};

use crate::Desk;
use crate::lists::add_one;
use crate::polls::pause;
use bm_cache::Host;
use bm_class::Class;
use bm_journal::Recorder;
use bm_page::Unit;
use bm_post::Post;
use bm_word::NoMemory;
use std::alloc::Global;

/// Fetches up to so many units of a class from the stock. Want of memory is the only refusal.
fn get_fetched<R: Recorder, H: Desk<R>>(
    alloc: Global,
    host: &mut H,
    class: Class,
    want: u32,
) -> Result<Vec<Unit>, NoMemory>
    requires stands { Stands R.log R.counts Whatever H.Host.tests H.Host.face H.Host.held host.old }
    ensures posted { Posted H.Host.face H.Host.pending H.stays H.Host.held
        (λ h. H.W.Knows.known (H.shared h)) H.Host.tests [] host.old host.new }
    ensures few { IfOk result (λ us. length us.items ≤ want) }
    ensures sit { IfOk result (λ us. All (Sits class) us.items) }
    ensures fresh { IfOk result
        (λ us. (n : ℕ)
        → stands n (seen number_of (shown (H.Host.held host.new)))
        + times n (map number_of us.items)
        ≤ 1) }
    ensures reusable { IfOk result (λ us. All (Reusable (H.Host.tests host.new)) us.items) }
    ensures stands { Stands R.log R.counts Whatever H.Host.tests H.Host.face H.Host.held host.new }
    ensures owes { IfOk result
        (λ us. (done : List Act) → H.asked_owes done host.old
        → H.asked_owes (done ++ act.Fetches class want (map number_of us.items) ∷ [])
        host.new) }
{
    let mut units = Vec::new(alloc);
    match host.world().fetch(class, want as usize, &mut units) {
        Ok(_count) => Ok(units),
        Err(refused) => {
            units.destroy_empty();
            Err(refused)
        }
    }
}

/// The units that the stock gave come into the hand, and that is recorded.
fn note_fetched<R: Recorder, H: Desk<R>>(host: &mut H, class: Class, want: u32, units: Vec<Unit>)
    requires stands { Stands R.log R.counts Whatever H.Host.tests H.Host.face H.Host.held host.old }
    requires empty { (shown (H.Host.held host.old)).sides (H.Host.face host.old).level ≡ idle_side }
    requires sit { All (Sits class) units.items }
    requires fresh { (n : ℕ)
        → stands n (seen number_of (shown (H.Host.held host.old)))
        + times n (map number_of units.items)
        ≤ 1 }
    requires reusable { All (Reusable (H.Host.tests host.old)) units.items }
    ensures step { TookUnits R.log (H.Host.face host.old).level (entry.Fetch class want)
        (map number_of units.items) units.items (H.Host.held host.old) (H.Host.held host.new) }
    ensures handled { Handled H.Host.face H.Host.pending H.stays H.shared H.Host.tests host.old
        host.new }
    ensures deferred { (k : ℕ)
        → ((shown (H.Host.held host.new)).rows k).deferred
        ≡ ((shown (H.Host.held host.old)).rows k).deferred }
    ensures side { (shown (H.Host.held host.new)).sides (H.Host.face host.old).level
        ≡ record { hand = units.items; mark = mark.Quiet } }
    ensures fit { All (Fit (H.Host.tests host.new) class) units.items }
    ensures stands { Stands R.log R.counts Whatever H.Host.tests H.Host.face H.Host.held host.new }
    ensures sound { H.asked_owes (act.Fetches class want (map number_of units.items) ∷ []) host.old
        → H.Host.sound host.new }
{
    let level = host.level();
    host.caches().take_fetched(level, class, want, units);
}

/// The first of so many units in hand is added to Free.
fn add_first<R: Recorder, H: Desk<R>>(host: &mut H, class: Class, left: usize)
    requires stands { Stands R.log R.counts H.Host.sound H.Host.tests H.Host.face H.Host.held
        host.old }
    requires idle { ((shown (H.Host.held host.old)).rows class).active ≡ 0 }
    requires quiet { ((shown (H.Host.held host.old)).sides (H.Host.face host.old).level).mark
        ≡ mark.Quiet }
    requires fit { All (Fit (H.Host.tests host.old) class)
        ((shown (H.Host.held host.old)).sides (H.Host.face host.old).level).hand }
    requires left { left
        ≡ length ((shown (H.Host.held host.old)).sides (H.Host.face host.old).level).hand }
    requires some { left ≢ 0 }
    ensures works { Works R.log H.Host.face H.Host.pending H.stays H.Host.held
        (λ h. H.W.Knows.known (H.shared h)) 0 0
        (λ l. Say l
        (AddsFirst class
        (map number_of
        ((shown (H.Host.held host.old)).sides (H.Host.face host.old).level).hand)))
        host.old host.new }
    ensures deferred { (k : ℕ)
        → ((shown (H.Host.held host.new)).rows k).deferred
        ≡ ((shown (H.Host.held host.old)).rows k).deferred }
    ensures idle { ((shown (H.Host.held host.new)).rows class).active ≡ 0 }
    ensures quiet { ((shown (H.Host.held host.new)).sides (H.Host.face host.new).level).mark
        ≡ mark.Quiet }
    ensures fit { All (Fit (H.Host.tests host.new) class)
        ((shown (H.Host.held host.new)).sides (H.Host.face host.new).level).hand }
    ensures left { left - 1
        ≡ length ((shown (H.Host.held host.new)).sides (H.Host.face host.new).level).hand }
    ensures named { map number_of
        ((shown (H.Host.held host.new)).sides (H.Host.face host.new).level).hand
        ≡ drop 1
        (map number_of
        ((shown (H.Host.held host.old)).sides (H.Host.face host.old).level).hand) }
    ensures stands { Stands R.log R.counts H.Host.sound H.Host.tests H.Host.face H.Host.held
        host.new }
{
    add_one(host, class);
}

/// All units in hand are added to Free, one after the other.
fn add_all<R: Recorder, H: Desk<R>>(host: &mut H, class: Class, left: usize)
    requires stands { Stands R.log R.counts H.Host.sound H.Host.tests H.Host.face H.Host.held
        host.old }
    requires idle { ((shown (H.Host.held host.old)).rows class).active ≡ 0 }
    requires quiet { ((shown (H.Host.held host.old)).sides (H.Host.face host.old).level).mark
        ≡ mark.Quiet }
    requires fit { All (Fit (H.Host.tests host.old) class)
        ((shown (H.Host.held host.old)).sides (H.Host.face host.old).level).hand }
    requires left { left
        ≡ length ((shown (H.Host.held host.old)).sides (H.Host.face host.old).level).hand }
    ensures works { Works R.log H.Host.face H.Host.pending H.stays H.Host.held
        (λ h. H.W.Knows.known (H.shared h)) 0 0
        (λ l. AddAll l class
        (map number_of
        ((shown (H.Host.held host.old)).sides (H.Host.face host.old).level).hand))
        host.old host.new }
    ensures deferred { (k : ℕ)
        → ((shown (H.Host.held host.new)).rows k).deferred
        ≡ ((shown (H.Host.held host.old)).rows k).deferred }
    ensures side { (shown (H.Host.held host.new)).sides (H.Host.face host.old).level ≡ idle_side }
    ensures stands { Stands R.log R.counts H.Host.sound H.Host.tests H.Host.face H.Host.held
        host.new }
{
    if left == 0 {
        return;
    }
    add_first(host, class, left);
    add_all(host, class, left - 1);
}

/// Fetches so many units from the stock and adds what it gave to Free; nothing where none are wanted. Want of memory is the only
/// refusal, and comes before the fetch. From the end of `alloc_bulk` of kernel/bpf/memalloc.c, which allocates pages.
pub fn fetch_rest<R: Recorder, H: Desk<R>>(
    alloc: Global,
    host: &mut H,
    class: Class,
    want: u32,
) -> Result<(), NoMemory>
    requires stands { Stands R.log R.counts H.Host.sound H.Host.tests H.Host.face H.Host.held
        host.old }
    requires idle { ((shown (H.Host.held host.old)).rows class).active ≡ 0 }
    requires empty { (shown (H.Host.held host.old)).sides (H.Host.face host.old).level ≡ idle_side }
    ensures ok { OnOk result
        (Works R.log H.Host.face H.Host.pending H.stays H.Host.held
        (λ h. H.W.Knows.known (H.shared h)) 0 0 (λ l. Fetched l class want) host.old host.new) }
    ensures err { OnErr result
        (Works R.log H.Host.face H.Host.pending H.stays H.Host.held
        (λ h. H.W.Knows.known (H.shared h)) 0 0 (λ l. Stand l []) host.old host.new) }
    ensures wanted { OnErr result (0 < want) }
    ensures deferred { (k : ℕ)
        → ((shown (H.Host.held host.new)).rows k).deferred
        ≡ ((shown (H.Host.held host.old)).rows k).deferred }
    ensures side { (shown (H.Host.held host.new)).sides (H.Host.face host.old).level ≡ idle_side }
    ensures placed { Placed R.log R.counts (H.Host.held host.new) }
    ensures stands { OnOk result
        (Stands R.log R.counts H.Host.sound H.Host.tests H.Host.face H.Host.held host.new) }
{
    if want == 0 {
        return Ok(());
    }
    pause(host);
    let units = get_fetched(alloc, host, class, want)?;
    let count = units.len();
    note_fetched(host, class, want, units);
    add_all(host, class, count);
    Ok(())
}
