//! Counting the totals of logs.

ghost use Rattle.std.specs.Prelude.{◌≡◌, replicate};
ghost use Rattle.bm_journal.specs.Totals.{counts_of, totals_of};
ghost use Rattle.bm_journal.specs.TotalNames.{all_totals};
ghost use Rattle.bm_journal.specs.Counting.{added, adds, each_total, counted_parts};

use crate::counts::unit_count;
use crate::entry::Entry;
use crate::ids::Domain;
use crate::lists::Logs;
use crate::total::{Total, Totals};
use crate::units::Units;

/// The totals of logs, those of all processors together. Each counts entries, or units that entries name, as
/// docs/journals.md says. A total stands still at 2^64 - 1. It takes no memory.
pub fn totals_of(logs: &Logs) -> Totals
    ensures { result ≡ totals_of logs.now }
{
    let mut counters = Counters::new();
    for log in logs.as_slice() {
        counters.add_all(log.counters());
    }
    Totals::new(counters.values)
}

/// What an entry adds to the totals besides a step.
#[derive(Clone, Copy)]
enum Part<'a> {
    Nothing,
    One(Total),
    Units(Total, &'a Units),
}

/// A number for each total, in their order. Each stands still at 2^64 - 1.
#[derive(Drop)]
pub(crate) struct Counters {
    pub(crate) values: [u64; 19],
}

impl Counters {
    /// Nothing was counted yet.
    pub(crate) fn new() -> Counters
        ensures { result.values ≡ replicate 19 0 }
    {
        Counters { values: [0; 19] }
    }

    /// Adds what others counted.
    pub(crate) fn add_all(&mut self, others: &Counters)
        ensures { self.new.values ≡ adds (each_total others.now.values all_totals) self.old.values }
    {
        self.add_each(&Total::all(), others);
    }

    fn add_each(&mut self, totals: &[Total], others: &Counters)
        ensures { self.new.values ≡ adds (each_total others.now.values totals.now) self.old.values }
    {
        for total in totals {
            self.add(*total, others.values[total.place()]);
        }
    }

    /// Adds what an entry counts.
    pub(crate) fn add_entry(&mut self, entry: &Entry)
        ensures { self.new.values ≡ adds (counts_of entry.now) self.old.values }
    {
        let (is_step, part) = parts_of(entry);
        if is_step {
            self.add(Total::Steps, 1);
        }
        match part {
            Part::Nothing => {}
            Part::One(total) => self.add(total, 1),
            Part::Units(total, units) => self.add(total, unit_count(units)),
        }
    }

    fn add(&mut self, total: Total, amount: u64)
        ensures { self.new.values ≡ added total amount self.old.values }
    {
        let place = total.place();
        self.values[place] = self.values[place].saturating_add(amount);
    }
}

/// Whether an entry is a step, and what it adds besides.
fn parts_of(entry: &Entry) -> (bool, Part<'_>)
    ensures { counted_parts result ≡ counts_of entry.now }
{
    match entry {
        Entry::Handler(_) => (false, Part::One(Total::Handlers)),
        Entry::Given(_, _) | Entry::GivenAfter(_, _, _, _) => (false, Part::One(Total::Given)),
        Entry::Empty => (false, Part::One(Total::Empty)),
        Entry::Busy(_) => (false, Part::One(Total::Busy)),
        Entry::Last => (false, Part::One(Total::Last)),
        Entry::Still(_) => (false, Part::One(Total::Still)),
        Entry::Acquire(_, _, _) => (false, Part::One(Total::Acquired)),
        Entry::Xchg(_, _, _, _) => (false, Part::One(Total::Exchanged)),
        Entry::PushFront(_, _, _, _) | Entry::PushBack(_, _, _, _) | Entry::Add(_, _, _, _) => {
            (false, Part::One(Total::Pushed))
        }
        Entry::PushFrontAlready(_, _, _, _, _)
        | Entry::PushBackAlready(_, _, _, _, _)
        | Entry::AddAlready(_, _, _, _, _) => (false, Part::One(Total::Already)),
        Entry::PopFront(_, found, _) | Entry::PopBack(_, found, _) => match found {
            Some(_) => (false, Part::One(Total::Taken)),
            None => (false, Part::One(Total::None)),
        },
        Entry::First(_, found, _) => match found {
            Some(_) => (false, Part::Nothing),
            None => (false, Part::One(Total::None)),
        },
        Entry::Remove(_, _, _, _) => (false, Part::One(Total::Taken)),
        Entry::Work(_) => (false, Part::One(Total::Worked)),
        Entry::Raise(_) => (true, Part::One(Total::Raised)),
        Entry::Fill(_, units) => (false, Part::Units(Total::Fetched, units)),
        Entry::Fetch(_, _, units) => (true, Part::Units(Total::Fetched, units)),
        Entry::Return(_, units) => (true, Part::Units(Total::Returned, units)),
        Entry::Finish(period) => match period.domain {
            Domain::Plain => (false, Part::One(Total::Plain)),
            Domain::Tracing => (false, Part::One(Total::Tracing)),
        },
        Entry::Script(_)
        | Entry::Done(_)
        | Entry::Back(_)
        | Entry::In(_, _)
        | Entry::Out(_, _)
        | Entry::Yield
        | Entry::Ended
        | Entry::Close
        | Entry::New(_, _)
        | Entry::Drop(_, _)
        | Entry::Free(_, _)
        | Entry::Delay(_, _)
        | Entry::Get(_, _, _, _)
        | Entry::Lock(_)
        | Entry::Unlock(_)
        | Entry::Begin(_, _) => (false, Part::Nothing),
        Entry::Enter(_, _)
        | Entry::Pop(_, _)
        | Entry::PopNone(_)
        | Entry::Count(_, _)
        | Entry::Leave(_, _)
        | Entry::Push(_, _)
        | Entry::Delayed(_, _)
        | Entry::Look(_, _)
        | Entry::Put(_, _)
        | Entry::Lost(_)
        | Entry::LookDelayed(_, _)
        | Entry::PutDelayed(_, _)
        | Entry::LostDelayed(_)
        | Entry::Receive(_, _)
        | Entry::Read(_, _)
        | Entry::Ready(_, _)
        | Entry::Second(_, _)
        | Entry::TakeExtra(_, _)
        | Entry::Send(_, _, _)
        | Entry::TakeDelayed(_, _)
        | Entry::Batch(_, _)
        | Entry::Stamp(_, _, _)
        | Entry::Pass(_, _, _)
        | Entry::BeginSecond(_, _)
        | Entry::Sweep(_, _) => (true, Part::Nothing),
    }
}
