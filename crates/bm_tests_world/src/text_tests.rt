//! Each form of line, with its exact text, from the table of forms of docs/journals.md.

ghost use Rattle.std.specs.Prelude.{◌≡◌, ◌∷◌, [], IsTrue, codes};
ghost use Rattle.std.specs.List.{list_all};
ghost use Rattle.bm_journal.specs.WellFormed.{are_whole, owner_below, owners_below};

use bm_class::{Class, marks};
use bm_journal::*;
use std::process::Abort;
use std::test::Fail;

// What stands before the entries in the text of a journal that `journal_of` makes.
const HEADING: &[u8] = b"processors 1 pages 0
types
maps
scripts main
class 16 marks 32 96 48
processor 0
";

const LONGEST: &[u8] = b"a_name_of_thirty_one_bytes_abcd";

fn name(rt: &impl Abort, bytes: &[u8]) -> Name
    ensures { result ≡ bytes.now }
{
    Name::new(bytes).expect(rt, "a word is a name")
}

fn class(rt: &impl Abort, index: u8) -> Class {
    Class::new(index).expect(rt, "an index is a class")
}

fn units(rt: &(impl Abort + AllocGlobal), numbers: &[u16]) -> Units {
    let items = Vec::from_slice(rt.alloc(), numbers).expect(rt, "memory");
    Units::Whole(UnitNumbers::new(items))
}

fn words(rt: &impl Abort, items: &[u32]) -> Words {
    Words::new(items).expect(rt, "at most sixteen words")
}

fn values(rt: &impl Abort, items: &[u32]) -> Values {
    Values::new(items).expect(rt, "at most eight values")
}

// The entry's line stands in the text of a journal of this entry alone, right after the heading.
fn is_line(rt: &(impl Abort + AllocGlobal), level: u8, entry: Entry, want: &str) {
    let mut keep = Keep::new(rt.alloc());
    keep.put(Level::new(level).expect(rt, "a level"), entry);
    let text = text_of(rt.alloc(), &of_one_log(rt, keep)).expect(rt, "memory");
    let line = text
        .as_slice()
        .strip_prefix(HEADING)
        .expect(rt, "a heading");
    let rest = line.strip_prefix(want.as_bytes()).expect(rt, want);
    assert!(rt; rest.starts_with(b"total steps "), "{want}");
}

#[test]
fn scripts_and_sections(rt: HostRuntime) {
    is_line(
        &rt,
        0,
        Entry::Fill(class(&rt, 0), units(&rt, &[0, 1, 2, 3])),
        "0 fill 16 0 1 2 3\n",
    );
    is_line(
        &rt,
        0,
        Entry::Fill(class(&rt, 10), units(&rt, &[])),
        "0 fill 4096\n",
    );
    is_line(&rt, 0, Entry::Script(name(&rt, b"main")), "0 script main\n");
    is_line(
        &rt,
        0,
        Entry::Done(name(&rt, LONGEST)),
        "0 done a_name_of_thirty_one_bytes_abcd\n",
    );
    is_line(&rt, 3, Entry::Handler(name(&rt, b"h")), "3 handler h\n");
    is_line(&rt, 1, Entry::Back(name(&rt, b"h")), "1 back h\n");
    is_line(&rt, 0, Entry::In(Domain::Plain, 1), "0 in plain 1\n");
    is_line(
        &rt,
        2,
        Entry::Out(Domain::Tracing, 4294967295),
        "2 out tracing 4294967295\n",
    );
    is_line(&rt, 0, Entry::Yield, "0 yield\n");
    is_line(&rt, 0, Entry::Ended, "0 ended\n");
    is_line(&rt, 0, Entry::Close, "0 close\n");
}

#[test]
fn objects(rt: HostRuntime) {
    is_line(
        &rt,
        0,
        Entry::New(name(&rt, b"item"), values(&rt, &[7])),
        "0 new item 7\n",
    );
    is_line(
        &rt,
        0,
        Entry::New(name(&rt, b"bare"), values(&rt, &[])),
        "0 new bare\n",
    );
    is_line(
        &rt,
        0,
        Entry::New(
            name(&rt, b"t"),
            values(&rt, &[0, 1, 2, 3, 4, 5, 6, 4294967295]),
        ),
        "0 new t 0 1 2 3 4 5 6 4294967295\n",
    );
    is_line(
        &rt,
        0,
        Entry::Given(65535, 4294967295),
        "0 given 65535 4294967295\n",
    );
    is_line(
        &rt,
        0,
        Entry::GivenAfter(55, 2, 4294967294, 4294967295),
        "0 given 55 2 after 4294967294 4294967295\n",
    );
    is_line(&rt, 0, Entry::Empty, "0 empty\n");
    is_line(&rt, 3, Entry::Busy(4), "3 busy 4\n");
    is_line(&rt, 0, Entry::Drop(3, 1), "0 drop 3 1\n");
    is_line(&rt, 0, Entry::Still(2), "0 still 2\n");
    is_line(&rt, 0, Entry::Last, "0 last\n");
    is_line(&rt, 0, Entry::Free(3, 0), "0 free 3 0\n");
    is_line(&rt, 0, Entry::Delay(65535, 7), "0 delay 65535 7\n");
    is_line(&rt, 0, Entry::Acquire(3, 1, 1), "0 acquire 3 1 1\n");
    is_line(
        &rt,
        0,
        Entry::Get(3, 1, 7, 4294967295),
        "0 get 3 1 7 4294967295\n",
    );
}

#[test]
fn slots_lists_and_trees(rt: HostRuntime) {
    let three = ObjId { unit: 3, life: 1 };
    let two = ObjId { unit: 2, life: 1 };
    let tag = Tag {
        processor: 7,
        serial: 4294967295,
    };
    is_line(
        &rt,
        0,
        Entry::Xchg(name(&rt, b"s"), None, None, None),
        "0 xchg s put none was none by start\n",
    );
    is_line(
        &rt,
        0,
        Entry::Xchg(name(&rt, b"s"), Some(two), Some(three), Some(tag)),
        "0 xchg s put 2 1 was 3 1 by 7 4294967295\n",
    );
    is_line(&rt, 0, Entry::Lock(name(&rt, b"q")), "0 lock q\n");
    is_line(&rt, 0, Entry::Unlock(name(&rt, b"q")), "0 unlock q\n");
    is_line(
        &rt,
        0,
        Entry::PushFront(name(&rt, b"q"), 3, 1, 0),
        "0 push_front q 3 1 at 0\n",
    );
    is_line(
        &rt,
        0,
        Entry::PushBack(name(&rt, b"q"), 3, 1, 1),
        "0 push_back q 3 1 at 1\n",
    );
    is_line(
        &rt,
        0,
        Entry::Add(name(&rt, b"t"), 3, 1, 4294967295),
        "0 add t 3 1 at 4294967295\n",
    );
    is_line(
        &rt,
        0,
        Entry::PushFrontAlready(name(&rt, b"q"), 3, 1, name(&rt, b"r"), 0),
        "0 push_front q 3 1 already r at 0\n",
    );
    is_line(
        &rt,
        0,
        Entry::PushBackAlready(name(&rt, b"q"), 3, 1, name(&rt, b"r"), 0),
        "0 push_back q 3 1 already r at 0\n",
    );
    is_line(
        &rt,
        0,
        Entry::AddAlready(name(&rt, b"t"), 3, 1, name(&rt, b"u"), 2),
        "0 add t 3 1 already u at 2\n",
    );
    is_line(
        &rt,
        0,
        Entry::PopFront(name(&rt, b"q"), Some(three), 4),
        "0 pop_front q 3 1 at 4\n",
    );
    is_line(
        &rt,
        0,
        Entry::PopBack(name(&rt, b"q"), None, 5),
        "0 pop_back q none at 5\n",
    );
    is_line(
        &rt,
        0,
        Entry::First(name(&rt, b"t"), None, 9),
        "0 first t none at 9\n",
    );
    is_line(
        &rt,
        0,
        Entry::Remove(name(&rt, b"t"), 1, 1, 4),
        "0 remove t 1 1 at 4\n",
    );
}

#[test]
fn deferred_work_and_periods(rt: HostRuntime) {
    is_line(&rt, 0, Entry::Work(class(&rt, 1)), "0 work 32\n");
    is_line(&rt, 0, Entry::Begin(Domain::Plain, 1), "0 begin plain 1\n");
    let plain = Period {
        domain: Domain::Plain,
        number: 2,
        first: words(&rt, &[2, 1]),
        later: words(&rt, &[4, 2]),
    };
    is_line(
        &rt,
        0,
        Entry::Finish(plain),
        "0 finish plain 2 first 2 1 later 4 2\n",
    );
    let most = [0, 1, 2, 3, 4, 5, 6, 7, 8, 9, 10, 11, 12, 13, 14, 4294967295];
    let tracing = Period {
        domain: Domain::Tracing,
        number: 4294967294,
        first: words(&rt, &most),
        later: words(&rt, &most),
    };
    is_line(
        &rt,
        0,
        Entry::Finish(tracing),
        "0 finish tracing 4294967294 first 0 1 2 3 4 5 6 7 8 9 10 11 12 13 14 4294967295 later 0 1 2 3 4 5 6 7 8 9 10 11 12 13 14 4294967295\n",
    );
    is_line(
        &rt,
        0,
        Entry::Receive(class(&rt, 0), units(&rt, &[])),
        "0 receive 16\n",
    );
    is_line(&rt, 0, Entry::Read(class(&rt, 10), 7), "0 read 4096 7\n");
    is_line(&rt, 0, Entry::Ready(class(&rt, 0), 9), "0 ready 16 9\n");
    is_line(&rt, 0, Entry::Second(class(&rt, 0), 9), "0 second 16 9\n");
    is_line(
        &rt,
        0,
        Entry::Fetch(class(&rt, 2), 48, units(&rt, &[7, 8])),
        "0 fetch 64 48 7 8\n",
    );
    is_line(
        &rt,
        0,
        Entry::TakeExtra(class(&rt, 3), units(&rt, &[5])),
        "0 takex 96 5\n",
    );
    is_line(
        &rt,
        0,
        Entry::Send(class(&rt, 1), 7, units(&rt, &[3])),
        "0 send 32 7 3\n",
    );
    is_line(
        &rt,
        0,
        Entry::TakeDelayed(class(&rt, 4), units(&rt, &[])),
        "0 taked 128\n",
    );
    is_line(
        &rt,
        0,
        Entry::Batch(class(&rt, 5), units(&rt, &[55])),
        "0 batch 192 55\n",
    );
    is_line(
        &rt,
        0,
        Entry::Stamp(class(&rt, 6), Domain::Plain, 4294967295),
        "0 stamp 256 plain 4294967295\n",
    );
    is_line(
        &rt,
        0,
        Entry::Pass(class(&rt, 7), Domain::Tracing, 2),
        "0 pass 512 tracing 2\n",
    );
    is_line(
        &rt,
        0,
        Entry::BeginSecond(class(&rt, 8), units(&rt, &[3])),
        "0 begin2 1024 3\n",
    );
    is_line(
        &rt,
        0,
        Entry::Return(class(&rt, 9), units(&rt, &[])),
        "0 return 2048\n",
    );
    is_line(
        &rt,
        0,
        Entry::Sweep(class(&rt, 0), units(&rt, &[65535, 2, 1, 0])),
        "0 sweep 16 65535 2 1 0\n",
    );
}

#[test]
fn steps_of_a_cache(rt: HostRuntime) {
    is_line(&rt, 3, Entry::Enter(class(&rt, 0), 4), "3 enter 16 4\n");
    is_line(&rt, 0, Entry::Pop(class(&rt, 0), 65535), "0 pop 16 65535\n");
    is_line(&rt, 0, Entry::PopNone(class(&rt, 0)), "0 pop 16 none\n");
    is_line(&rt, 0, Entry::Count(class(&rt, 0), 3), "0 count 16 3\n");
    is_line(&rt, 0, Entry::Leave(class(&rt, 0), 0), "0 leave 16 0\n");
    is_line(&rt, 0, Entry::Raise(class(&rt, 0)), "0 raise 16\n");
    is_line(&rt, 0, Entry::Push(class(&rt, 0), 3), "0 push 16 3\n");
    is_line(&rt, 0, Entry::Delayed(class(&rt, 1), 3), "0 delayed 32 3\n");
    is_line(&rt, 1, Entry::Look(class(&rt, 0), 0), "1 look 16 0\n");
    is_line(&rt, 2, Entry::Put(class(&rt, 0), 2), "2 put 16 2\n");
    is_line(&rt, 1, Entry::Lost(class(&rt, 0)), "1 lost 16\n");
    is_line(
        &rt,
        1,
        Entry::LookDelayed(class(&rt, 0), 4294967295),
        "1 lookd 16 4294967295\n",
    );
    is_line(&rt, 1, Entry::PutDelayed(class(&rt, 0), 2), "1 putd 16 2\n");
    is_line(&rt, 1, Entry::LostDelayed(class(&rt, 0)), "1 lostd 16\n");
}

fn past(processor: u8, serial: u32, call: PastCall) -> Past
    ensures { result.call ≡ call }
{
    Past {
        tag: Tag { processor, serial },
        call,
    }
}

/// The names of a list, another list and a tree.
fn maps(rt: &(impl Abort + AllocGlobal)) -> Names
    ensures { result ≡ codes "q" ∷ codes "r" ∷ codes "t" ∷ [] }
{
    let names = vec![in rt.alloc(); name(rt, b"q"), name(rt, b"r"), name(rt, b"t")];
    Names::new(names.expect(rt, "memory"))
}

/// The history of a list, with each of its calls. The owners that refused pushes name are maps 0 and 1.
fn list_history(rt: &(impl Abort + AllocGlobal)) -> History
    ensures { IsTrue (list_all (λ past. owner_below 3 past.call) result.1) }
{
    let three = ObjId { unit: 3, life: 1 };
    let two = ObjId {
        unit: 65535,
        life: 4294967295,
    };
    let calls = vec![in rt.alloc();
        past(0, 6, PastCall::PushFront(three)),
        past(7, 4294967295, PastCall::PushBack(two)),
        past(0, 7, PastCall::PushFrontAlready(three, 0)),
        past(0, 8, PastCall::PushBackAlready(three, 1)),
        past(1, 1, PastCall::PopFront(three)),
        past(1, 2, PastCall::PopFrontNone),
        past(1, 3, PastCall::PopBack(two)),
        past(1, 4, PastCall::PopBackNone),
    ];
    History::new(name(rt, b"q"), calls.expect(rt, "memory"))
}

/// The history of a tree, with each of its calls. The owner that a refused push names is map 2.
fn tree_history(rt: &(impl Abort + AllocGlobal)) -> History
    ensures { IsTrue (list_all (λ past. owner_below 3 past.call) result.1) }
{
    let three = ObjId { unit: 3, life: 1 };
    let calls = vec![in rt.alloc();
        past(0, 5, PastCall::Add(three, 5)),
        past(0, 6, PastCall::AddAlready(three, 4294967295, 2)),
        past(0, 8, PastCall::First(three)),
        past(0, 9, PastCall::Remove(three)),
        past(0, 17, PastCall::FirstNone),
    ];
    History::new(name(rt, b"t"), calls.expect(rt, "memory"))
}

/// These histories, with a list that nobody called between them.
fn histories(rt: &(impl Abort + AllocGlobal)) -> Histories
    ensures { IsTrue (owners_below 3 result) }
{
    let none = History::new(name(rt, b"r"), Vec::new(rt.alloc()));
    let graphs = vec![in rt.alloc(); list_history(rt), none, tree_history(rt)];
    Histories::new(graphs.expect(rt, "memory"))
}

#[test]
fn histories_and_totals(rt: HostRuntime) -> Result<(), Fail> {
    let journal = Journal {
        processors: 1,
        pages: 0,
        types: Names::new(Vec::new(rt.alloc())),
        maps: maps(&rt),
        scripts: Names::new(Vec::new(rt.alloc())),
        classes: Opened::new(Vec::new(rt.alloc())),
        logs: Logs::new(Vec::new(rt.alloc())),
        graphs: histories(&rt),
        totals: Totals::new([
            13,
            1,
            0,
            0,
            1,
            0,
            0,
            0,
            0,
            0,
            0,
            0,
            1,
            0,
            4,
            4,
            0,
            1,
            18446744073709551615,
        ]),
    };
    let text = text_of(rt.alloc(), &journal)?;
    let want = b"processors 1 pages 0
types
maps q r t
scripts
graph q
at 0 by 0 6 push_front 3 1
at 1 by 7 4294967295 push_back 65535 4294967295
at 2 by 0 7 push_front 3 1 already q
at 3 by 0 8 push_back 3 1 already r
at 4 by 1 1 pop_front 3 1
at 5 by 1 2 pop_front none
at 6 by 1 3 pop_back 65535 4294967295
at 7 by 1 4 pop_back none
graph r
graph t
at 0 by 0 5 add 3 1 5
at 1 by 0 6 add 3 1 4294967295 already t
at 2 by 0 8 first 3 1
at 3 by 0 9 remove 3 1
at 4 by 0 17 first none
total steps 13
total given 1
total empty 0
total busy 0
total last 1
total still 0
total acquired 0
total exchanged 0
total pushed 0
total already 0
total taken 0
total none 0
total raised 1
total worked 0
total fetched 4
total returned 4
total plain 0
total tracing 1
total handlers 18446744073709551615
";
    assert_eq!(rt; text.as_slice(), want.as_slice());
    Ok(())
}

// A journal of so many entries, all of one processor.
fn raised(rt: &(impl Abort + AllocGlobal), count: u32) -> Journal {
    let mut keep = Keep::new(rt.alloc());
    for _ in 0..count {
        keep.put(Level::ordinary(), Entry::Raise(class(rt, 0)));
    }
    of_one_log(rt, keep)
}

// A journal of one processor, which has kept its log.
fn of_one_log(rt: &(impl Abort + AllocGlobal), keep: Keep) -> Journal {
    let log = keep.into_log().expect(rt, "memory");
    let mut logs = Vec::new(rt.alloc());
    logs.push(log).expect(rt, "memory");
    journal_of(rt, Logs::new(logs))
}

fn journal_of(rt: &(impl Abort + AllocGlobal), logs: Logs) -> Journal
    requires { IsTrue (are_whole logs) }
{
    let totals = totals_of(&logs);
    Journal {
        processors: 1,
        pages: 0,
        types: Names::new(Vec::new(rt.alloc())),
        maps: Names::new(Vec::new(rt.alloc())),
        scripts: Names::new(vec![in rt.alloc(); name(rt, b"main")].expect(rt, "memory")),
        classes: Opened::new(vec![in rt.alloc(); (class(rt, 0), marks(class(rt, 0)))].expect(
            rt, "memory",
        )),
        logs,
        graphs: Histories::new(Vec::new(rt.alloc())),
        totals,
    }
}

#[test]
fn a_small_journal(rt: HostRuntime) -> Result<(), Fail> {
    let text = text_of(rt.alloc(), &raised(&rt, 2))?;
    let want = b"processors 1 pages 0
types
maps
scripts main
class 16 marks 32 96 48
processor 0
0 raise 16
0 raise 16
total steps 2
total given 0
total empty 0
total busy 0
total last 0
total still 0
total acquired 0
total exchanged 0
total pushed 0
total already 0
total taken 0
total none 0
total raised 2
total worked 0
total fetched 0
total returned 0
total plain 0
total tracing 0
total handlers 0
";
    assert_eq!(rt; text.as_slice(), want.as_slice());
    Ok(())
}

#[test]
fn a_hundred_thousand_entries(rt: HostRuntime) -> Result<(), Fail> {
    let text = text_of(rt.alloc(), &raised(&rt, 100_000))?;
    // the heading has 69 bytes, a processor's line 12 and each entry 11; the totals have 285, and two have 5 digits more
    assert_eq!(rt; text.len(), 69 + 12 + 11 * 100_000 + 285 + 2 * 5);
    Ok(())
}
