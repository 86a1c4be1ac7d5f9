//! What recorders count and keep, entry by entry.

use bm_class::Class;
use bm_journal::*;
use std::alloc::Global;
use std::process::Abort;
use std::test::Fail;

fn whole(alloc: Global, numbers: &[u16]) -> Result<Units, Fail> {
    Ok(Units::Whole(UnitNumbers::new(numbers.to_vec(alloc)?)))
}

fn name(word: &[u8]) -> Result<Name, Fail> {
    Ok(Name::new(word).ok_or("a word is a name")?)
}

fn period(domain: Domain, first: &[u32], later: &[u32]) -> Result<Period, Fail> {
    Ok(Period {
        domain,
        number: 2,
        first: Words::new(first).ok_or("few words")?,
        later: Words::new(later).ok_or("few words")?,
    })
}

/// One object is made and dropped by one script, on one processor with one page.
fn one_object(alloc: Global) -> Result<Vec<Entry>, Fail> {
    let [class, ..] = Class::all();
    let values = Values::new(&[7]).ok_or("one value")?;
    let ended = period(Domain::Tracing, &[2, 0], &[2, 0])?;
    let filled = whole(alloc, &[0, 1, 2, 3])?;
    let swept = whole(alloc, &[3, 2, 1, 0])?;
    let returned = whole(alloc, &[3, 2, 1, 0])?;
    let script = name(b"main")?;
    let done = name(b"main")?;
    let item = name(b"item")?;
    Ok(vec![in alloc;
        Entry::Fill(class, filled),
        Entry::Script(script),
        Entry::In(Domain::Plain, 1),
        Entry::New(item, values),
        Entry::Enter(class, 1),
        Entry::Pop(class, 3),
        Entry::Count(class, 3),
        Entry::Leave(class, 0),
        Entry::Raise(class),
        Entry::Given(3, 1),
        Entry::Drop(3, 1),
        Entry::Last,
        Entry::Free(3, 0),
        Entry::Enter(class, 1),
        Entry::Push(class, 3),
        Entry::Count(class, 4),
        Entry::Leave(class, 0),
        Entry::Out(Domain::Plain, 2),
        Entry::Done(done),
        Entry::Ended,
        Entry::Close,
        Entry::Sweep(class, swept),
        Entry::Stamp(class, Domain::Tracing, 2),
        Entry::Begin(Domain::Tracing, 1),
        Entry::Finish(ended),
        Entry::Pass(class, Domain::Tracing, 2),
        Entry::Return(class, returned),
    ]?)
}

/// Calls on slots, lists and trees, and what else the first has none of.
fn other_calls(alloc: Global) -> Result<Vec<Entry>, Fail> {
    let [class, ..] = Class::all();
    let object = ObjId { unit: 3, life: 1 };
    let tag = Tag {
        processor: 0,
        serial: 1,
    };
    let ended = period(Domain::Plain, &[2], &[4])?;
    let words: [&[u8]; 6] = [b"s", b"q", b"t", b"r", b"h", b"k"];
    let mut names = Vec::new(alloc);
    for word in words {
        names.push(name(word)?)?;
    }
    let [slot, list, tree, rest, handler, last] = names.as_slice() else {
        return Err("six names")?;
    };
    Ok(vec![in alloc;
        Entry::Handler(handler.duplicate()),
        Entry::Handler(last.duplicate()),
        Entry::Empty,
        Entry::Busy(2),
        Entry::Still(2),
        Entry::Acquire(3, 1, 1),
        Entry::Xchg(slot.duplicate(), Some(object), None, None),
        Entry::Xchg(slot.duplicate(), None, Some(object), Some(tag)),
        Entry::PushFront(list.duplicate(), 3, 1, 0),
        Entry::PushBack(list.duplicate(), 2, 1, 1),
        Entry::Add(tree.duplicate(), 1, 1, 0),
        Entry::PushBackAlready(list.duplicate(), 3, 1, rest.duplicate(), 2),
        Entry::PopFront(list.duplicate(), Some(object), 3),
        Entry::PopBack(rest.duplicate(), None, 0),
        Entry::First(tree.duplicate(), Some(object), 1),
        Entry::Remove(tree.duplicate(), 1, 1, 2),
        Entry::First(tree.duplicate(), None, 3),
        Entry::Work(class),
        Entry::Finish(ended),
        Entry::Fetch(class, 48, Units::Counted(5)),
        Entry::Return(class, Units::Counted(2)),
    ]?)
}

/// Three units go round the lists of a class.
fn moves(alloc: Global) -> Result<Vec<Entry>, Fail> {
    let [class, ..] = Class::all();
    Ok(vec![in alloc;
        Entry::Fetch(class, 3, whole(alloc, &[1, 2, 3])?),
        Entry::Push(class, 1),
        Entry::Delayed(class, 2),
        Entry::Put(class, 3),
        Entry::TakeExtra(class, whole(alloc, &[3])?),
        Entry::Send(class, 0, whole(alloc, &[3])?),
        Entry::Batch(class, whole(alloc, &[2])?),
        Entry::Send(class, 0, whole(alloc, &[2])?),
        Entry::Receive(class, whole(alloc, &[3])?),
        Entry::BeginSecond(class, whole(alloc, &[3])?),
        Entry::Second(class, 3),
        Entry::PutDelayed(class, 3),
        Entry::TakeDelayed(class, whole(alloc, &[3])?),
    ]?)
}

fn put_all<R: Recorder>(recorder: &mut R, entries: Vec<Entry>) {
    for entry in entries {
        recorder.put(Level::ordinary(), entry);
    }
}

fn log_of(alloc: Global, entries: Vec<Entry>) -> Result<Log, Fail> {
    let mut items = Vec::new(alloc);
    for entry in entries {
        items.push((Level::ordinary(), entry))?;
    }
    Ok(Log::of(alloc, items.as_slice()).ok().ok_or("memory")?)
}

#[test]
fn totals_go_over_all_logs(rt: HostRuntime) -> Result<(), Fail> {
    let first = log_of(rt.alloc(), one_object(rt.alloc())?)?;
    let logs = Logs::new(vec![in rt.alloc(); first]?);
    let want = [13, 1, 0, 0, 1, 0, 0, 0, 0, 0, 0, 0, 1, 0, 4, 4, 0, 1, 0];
    assert_eq!(rt; totals_of(&logs), Totals::new(want));
    let first = log_of(rt.alloc(), one_object(rt.alloc())?)?;
    let second = log_of(rt.alloc(), other_calls(rt.alloc())?)?;
    let logs = Logs::new(vec![in rt.alloc(); first, second]?);
    let want = [15, 1, 1, 1, 1, 1, 1, 2, 3, 1, 2, 2, 1, 1, 9, 6, 1, 1, 2];
    assert_eq!(rt; totals_of(&logs), Totals::new(want));
    Ok(())
}

// After so many entries: the lengths of the lists of the first class, and how many units are in hand.
type Row = (usize, Lengths, u64);

const NONE: Lengths = Lengths::NONE;

const OF_ONE_OBJECT: &[Row] = &[
    (1, Lengths { free: 4, ..NONE }, 0),
    (6, Lengths { free: 3, ..NONE }, 1),
    (10, Lengths { free: 3, ..NONE }, 0),
    (13, Lengths { free: 3, ..NONE }, 1),
    (21, Lengths { free: 4, ..NONE }, 0),
    (22, Lengths { second: 4, ..NONE }, 0),
    (27, NONE, 0),
];

fn are_counted(rt: &impl Abort, counts: &Counts, lengths: Lengths, hand: u64, number: usize) {
    let [class, ..] = Class::all();
    assert_eq!(rt; counts.lengths(class), lengths, "after {number} entries");
    assert_eq!(rt;
        counts.hand(Level::ordinary()),
        hand,
        "after {number} entries"
    );
}

fn are_tallied(rt: &impl Abort, alloc: Global, rows: &[Row]) -> Result<(), Fail> {
    for (number, lengths, hand) in rows {
        let mut entries = one_object(alloc)?;
        entries.truncate(*number);
        let mut tally = Tally::new();
        put_all(&mut tally, entries);
        let counts = tally.counts();
        are_counted(rt, &counts, *lengths, *hand, *number);
        assert!(rt; !tally.failed());
    }
    Ok(())
}

#[test]
fn recorders_count_units(rt: HostRuntime) -> Result<(), Fail> {
    are_tallied(&rt, rt.alloc(), OF_ONE_OBJECT)
}

const ONE: Lengths = Lengths {
    free: 1,
    delayed: 1,
    ..NONE
};

const TAKEN: Lengths = Lengths { delayed: 0, ..ONE };

const OF_MOVES: &[Row] = &[
    (1, NONE, 3),
    (4, Lengths { extra: 1, ..ONE }, 0),
    (5, ONE, 1),
    (6, ONE, 0),
    (7, Lengths { first: 1, ..TAKEN }, 0),
    (8, TAKEN, 0),
    (9, Lengths { ready: 1, ..TAKEN }, 0),
    (10, Lengths { second: 1, ..TAKEN }, 0),
    (11, TAKEN, 1),
    (
        12,
        Lengths {
            extra_delayed: 1,
            ..TAKEN
        },
        0,
    ),
    (13, ONE, 0),
];

fn are_kept(rt: &impl Abort, alloc: Global, rows: &[Row]) -> Result<(), Fail> {
    for (number, lengths, hand) in rows {
        let mut entries = moves(alloc)?;
        entries.truncate(*number);
        let mut keep = Keep::new(alloc);
        put_all(&mut keep, entries);
        let counts = keep.counts();
        are_counted(rt, &counts, *lengths, *hand, *number);
        let log = keep.into_log().ok_or("a log")?;
        let lines = log.text().iter().filter(|byte| **byte == b'\n').count();
        assert_eq!(rt; lines, *number);
    }
    Ok(())
}

#[test]
fn units_go_round_the_lists(rt: HostRuntime) -> Result<(), Fail> {
    are_kept(&rt, rt.alloc(), OF_MOVES)
}

#[test]
fn a_list_without_its_units_fails_a_keep_for_good(rt: HostRuntime) -> Result<(), Fail> {
    let [class, ..] = Class::all();
    let mut keep = Keep::new(rt.alloc());
    keep.put(
        Level::ordinary(),
        Entry::Receive(class, whole(rt.alloc(), &[1, 2])?),
    );
    assert!(rt; !keep.failed());
    keep.put(Level::ordinary(), Entry::Receive(class, Units::Counted(3)));
    assert!(rt; keep.failed());
    keep.put(Level::ordinary(), Entry::Ready(class, 1));
    assert!(rt; keep.failed());
    assert_eq!(rt; keep.counts().lengths(class).ready, 4);
    assert!(rt; keep.into_log().is_none());
    Ok(())
}
