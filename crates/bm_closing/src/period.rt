//! Grace periods while all is at rest.

ghost use Rattle.std.specs.Prelude.{◌≡◌, ◌≢◌, ◌+◌, ◌%◌, ◌<◌, ◌≤◌, ◌∷◌, [], ℕ, List};
ghost use Rattle.bm_journal.specs.declared.ids.Domain.{Domain as DomainValue};
ghost use Rattle.bm_journal.specs.declared.ids.Domain.TheVariants.{Plain, Tracing};
ghost use Rattle.bm_grace.specs.Rest.{MovesNumber};
ghost use Rattle.bm_grace.specs.Known.{side};
ghost use Rattle.bm_grace.specs.Rights.{Ages};
ghost use Rattle.bm_work.specs.Goes.{Alike};
ghost use Rattle.bm_law_order.specs.Act as act;
ghost use Rattle.bm_closing.specs.Told.{waiting};
ghost use Rattle.bm_closing.specs.Waited.{AllRipe, WaitedAt};

use bm_grace::{Began, Done, Grace, Look};
use bm_journal::{Domain, Period};

/// A tracing period that was waited for: the stamp that it passes, the number with which it began, the period, and the number
/// that was seen afterwards.
#[derive(Drop)]
pub struct Waited {
    pub stamp: u32,
    pub begun: u32,
    pub period: Period,
    pub seen: u32,
}

/// Ends the period of a domain that this side has in progress; all of its words pass, since all is at rest.
pub(crate) fn end_driven<W: Grace>(world: &mut W, domain: Domain) -> Period
    requires rest { (n : ℕ) × W.Knows.rest world.old domain n }
    requires driving { (side domain (W.Knows.known world.old)).number % 2 ≡ 1 }
    ensures domain { result.domain ≡ domain }
    ensures number { result.number ≡ (side domain (W.Knows.known world.old)).number + 1 }
    ensures ended { (side domain (W.Knows.known world.new)).number ≡ 0 }
    ensures other { (d : DomainValue) → d ≢ domain
        → side d (W.Knows.known world.new) ≡ side d (W.Knows.known world.old) }
    ensures alike { Alike (W.Knows.known world.old) (W.Knows.known world.new) }
    ensures begins { (d : DomainValue)
        → (side d (W.Knows.known world.new)).begins ≡ (side d (W.Knows.known world.old)).begins }
    ensures parcels { (W.Knows.known world.new).parcels ≡ (W.Knows.known world.old).parcels }
    ensures rest { (n : ℕ) → MovesNumber W.Knows.rest domain n (n + 1) world.old world.new }
    ensures ages { Ages (W.Knows.rights world.old) (W.Knows.rights world.new) }
    ensures does { (words : List ℕ)
        × W.Knows.does (act.Looks domain words ∷ act.Finishes result ∷ []) world.old world.new }
{
    match world.look(domain) {
        Look::All => {}
        Look::Waits(_, _) => unreachable!(),
    }
    world.finish(domain)
}

/// Begins a tracing period at the even number that the domain has.
fn begin_tracing<W: Grace>(world: &mut W, even: u32)
    requires rest { W.Knows.rest world.old Tracing even }
    requires even { even % 2 ≡ 0 }
    requires room { 0 < (side Tracing (W.Knows.known world.old)).begins }
    ensures number { (side Tracing (W.Knows.known world.new)).number ≡ even + 1 }
    ensures alike { Alike (W.Knows.known world.old) (W.Knows.known world.new) }
    ensures plain { (side Plain (W.Knows.known world.new)).begins
        ≡ (side Plain (W.Knows.known world.old)).begins }
    ensures begins { (side Tracing (W.Knows.known world.old)).begins
        ≤ (side Tracing (W.Knows.known world.new)).begins + 1 }
    ensures parcels { (W.Knows.known world.new).parcels ≡ (W.Knows.known world.old).parcels }
    ensures rest { MovesNumber W.Knows.rest Tracing even (even + 1) world.old world.new }
    ensures ages { Ages (W.Knows.rights world.old) (W.Knows.rights world.new) }
    ensures does { W.Knows.does (act.Begins Tracing (even + 1) ∷ []) world.old world.new }
{
    match world.begin(Domain::Tracing, even) {
        Began::Won => {}
        Began::Moved(_) => unreachable!(),
    }
}

/// Where all is at rest: takes a stamp of the tracing domain, begins a period, which passes, and reads the number. What is mine
/// and waits is ripe then. From `synchronize_rcu_tasks_trace`, which waits for such a period.
pub(crate) fn wait_period<W: Grace>(world: &mut W) -> Waited
    requires rest { (n : ℕ) × (W.Knows.rest world.old Tracing n × (n % 2 ≡ 0)) }
    requires room { 0 < (side Tracing (W.Knows.known world.old)).begins }
    ensures waited { (n : ℕ) → W.Knows.rest world.old Tracing n → n % 2 ≡ 0 → WaitedAt n result }
    ensures rest { (n : ℕ) → n % 2 ≡ 0
        → MovesNumber W.Knows.rest Tracing n (n + 2) world.old world.new }
    ensures alike { Alike (W.Knows.known world.old) (W.Knows.known world.new) }
    ensures plain { (side Plain (W.Knows.known world.new)).begins
        ≡ (side Plain (W.Knows.known world.old)).begins }
    ensures begins { (side Tracing (W.Knows.known world.old)).begins
        ≤ (side Tracing (W.Knows.known world.new)).begins + 1 }
    ensures parcels { (W.Knows.known world.new).parcels ≡ (W.Knows.known world.old).parcels }
    ensures ripe { AllRipe (W.Knows.rights world.old) (W.Knows.rights world.new) }
    ensures ages { Ages (W.Knows.rights world.old) (W.Knows.rights world.new) }
    ensures does { (words : List ℕ) × W.Knows.does (waiting words result) world.old world.new }
{
    let stamp = world.stamp(Domain::Tracing);
    let even = stamp - 2;
    begin_tracing(world, even);
    let period = end_driven(world, Domain::Tracing);
    let seen = match world.done(Domain::Tracing, stamp) {
        Done::Passed(number) => number,
        Done::NotYet(_) => unreachable!(),
    };
    Waited {
        stamp,
        begun: even + 1,
        period,
        seen,
    }
}
