//! Journals read back, over the public call.

use bm_journal_reader::{JournalFault, read_journal};
use std::alloc::Global;
use std::test::Fail;

/// Texts, and the line that the fault names; 0 where there is a journal. The first is the journal of one object that is made and
/// dropped, worked out by hand.
const TEXTS: [(&[u8], u64); 12] = [
    // the text of a journal
    (
        b"processors 1 pages 1\ntypes item\nmaps\nscripts main\nclass 16 marks 32 96 48\nprocessor 0\n0 fill 16 0 1 2 3\n0 script main\n0 in plain 1\n0 new item 7\n0 enter 16 1\n0 pop 16 3\n0 count 16 3\n0 leave 16 0\n0 raise 16\n0 given 3 1\n0 drop 3 1\n0 last\n0 free 3 0\n0 enter 16 1\n0 push 16 3\n0 count 16 4\n0 leave 16 0\n0 out plain 2\n0 done main\n0 ended\n0 close\n0 sweep 16 3 2 1 0\n0 stamp 16 tracing 2\n0 begin tracing 1\n0 finish tracing 2 first 2 0 later 2 0\n0 pass 16 tracing 2\n0 return 16 3 2 1 0\ntotal steps 13\ntotal given 1\ntotal empty 0\ntotal busy 0\ntotal last 1\ntotal still 0\ntotal acquired 0\ntotal exchanged 0\ntotal pushed 0\ntotal already 0\ntotal taken 0\ntotal none 0\ntotal raised 1\ntotal worked 0\ntotal fetched 4\ntotal returned 4\ntotal plain 0\ntotal tracing 1\ntotal handlers 0\n",
        0,
    ),
    // without its last line
    (
        b"processors 1 pages 1\ntypes item\nmaps\nscripts main\nclass 16 marks 32 96 48\nprocessor 0\n0 fill 16 0 1 2 3\n0 script main\n0 in plain 1\n0 new item 7\n0 enter 16 1\n0 pop 16 3\n0 count 16 3\n0 leave 16 0\n0 raise 16\n0 given 3 1\n0 drop 3 1\n0 last\n0 free 3 0\n0 enter 16 1\n0 push 16 3\n0 count 16 4\n0 leave 16 0\n0 out plain 2\n0 done main\n0 ended\n0 close\n0 sweep 16 3 2 1 0\n0 stamp 16 tracing 2\n0 begin tracing 1\n0 finish tracing 2 first 2 0 later 2 0\n0 pass 16 tracing 2\n0 return 16 3 2 1 0\ntotal steps 13\ntotal given 1\ntotal empty 0\ntotal busy 0\ntotal last 1\ntotal still 0\ntotal acquired 0\ntotal exchanged 0\ntotal pushed 0\ntotal already 0\ntotal taken 0\ntotal none 0\ntotal raised 1\ntotal worked 0\ntotal fetched 4\ntotal returned 4\ntotal plain 0\ntotal tracing 1\n",
        52,
    ),
    // with one line more
    (
        b"processors 1 pages 1\ntypes item\nmaps\nscripts main\nclass 16 marks 32 96 48\nprocessor 0\n0 fill 16 0 1 2 3\n0 script main\n0 in plain 1\n0 new item 7\n0 enter 16 1\n0 pop 16 3\n0 count 16 3\n0 leave 16 0\n0 raise 16\n0 given 3 1\n0 drop 3 1\n0 last\n0 free 3 0\n0 enter 16 1\n0 push 16 3\n0 count 16 4\n0 leave 16 0\n0 out plain 2\n0 done main\n0 ended\n0 close\n0 sweep 16 3 2 1 0\n0 stamp 16 tracing 2\n0 begin tracing 1\n0 finish tracing 2 first 2 0 later 2 0\n0 pass 16 tracing 2\n0 return 16 3 2 1 0\ntotal steps 13\ntotal given 1\ntotal empty 0\ntotal busy 0\ntotal last 1\ntotal still 0\ntotal acquired 0\ntotal exchanged 0\ntotal pushed 0\ntotal already 0\ntotal taken 0\ntotal none 0\ntotal raised 1\ntotal worked 0\ntotal fetched 4\ntotal returned 4\ntotal plain 0\ntotal tracing 1\ntotal handlers 0\ntotal handlers 0\n",
        53,
    ),
    // without its last line feed
    (
        b"processors 1 pages 1\ntypes item\nmaps\nscripts main\nclass 16 marks 32 96 48\nprocessor 0\n0 fill 16 0 1 2 3\n0 script main\n0 in plain 1\n0 new item 7\n0 enter 16 1\n0 pop 16 3\n0 count 16 3\n0 leave 16 0\n0 raise 16\n0 given 3 1\n0 drop 3 1\n0 last\n0 free 3 0\n0 enter 16 1\n0 push 16 3\n0 count 16 4\n0 leave 16 0\n0 out plain 2\n0 done main\n0 ended\n0 close\n0 sweep 16 3 2 1 0\n0 stamp 16 tracing 2\n0 begin tracing 1\n0 finish tracing 2 first 2 0 later 2 0\n0 pass 16 tracing 2\n0 return 16 3 2 1 0\ntotal steps 13\ntotal given 1\ntotal empty 0\ntotal busy 0\ntotal last 1\ntotal still 0\ntotal acquired 0\ntotal exchanged 0\ntotal pushed 0\ntotal already 0\ntotal taken 0\ntotal none 0\ntotal raised 1\ntotal worked 0\ntotal fetched 4\ntotal returned 4\ntotal plain 0\ntotal tracing 1\ntotal handlers 0",
        52,
    ),
    // no text
    (b"", 1),
    // a line that may come, and the end
    (
        b"processors 1 pages 1\ntypes item\nmaps\nscripts main\nclass 16 marks 32 96 48\nprocessor 0\n0 fill 16 0 1 2 3\n0 script main\n0 in plain 1\n0 new item 7\n",
        11,
    ),
    // a leading zero
    (
        b"processors 1 pages 1\ntypes item\nmaps\nscripts main\nclass 16 marks 32 96 48\nprocessor 0\n0 fill 16 0 1 2 3\n0 script main\n0 in plain 1\n0 new item 07\n",
        10,
    ),
    // two spaces
    (
        b"processors 1 pages 1\ntypes item\nmaps\nscripts main\nclass 16 marks 32 96 48\nprocessor 0\n0 fill 16 0 1 2 3\n0 script main\n0 in plain 1\n0 new  item 7\n",
        10,
    ),
    // a space at the end
    (
        b"processors 1 pages 1\ntypes item\nmaps\nscripts main\nclass 16 marks 32 96 48\nprocessor 0\n0 fill 16 0 1 2 3\n0 script main\n0 in plain 1\n0 new item 7 \n",
        10,
    ),
    // a level that isn't there
    (
        b"processors 1 pages 1\ntypes item\nmaps\nscripts main\nclass 16 marks 32 96 48\nprocessor 0\n0 fill 16 0 1 2 3\n0 script main\n0 in plain 1\n4 new item 7\n",
        10,
    ),
    // a processor out of turn
    (
        b"processors 1 pages 1\ntypes item\nmaps\nscripts main\nclass 16 marks 32 96 48\nprocessor 0\n0 fill 16 0 1 2 3\n0 script main\n0 in plain 1\nprocessor 2\n",
        10,
    ),
    // a total out of turn
    (
        b"processors 1 pages 1\ntypes item\nmaps\nscripts main\nclass 16 marks 32 96 48\nprocessor 0\n0 fill 16 0 1 2 3\n0 script main\n0 in plain 1\ntotal given 0\n",
        10,
    ),
];

/// Texts with histories, and beginnings of them with one line that may not come, each with the line that the fault names. No line
/// before it is wrong: each can be gone on with to a whole journal.
const FIRST_WRONG: [(&[u8], u64); 27] = [
    // a journal with histories
    (
        b"processors 2 pages 0\ntypes item\nmaps q t\nscripts\nclass 16 marks 32 96 48\nprocessor 0\n3 pop 16 none\n0 xchg s put none was 3 1 by start\nprocessor 1\n0 finish plain 2 first 2 0 later\ngraph q\nat 0 by 0 1 push_back 3 1\nat 1 by 1 1 push_front 3 1 already q\ngraph t\nat 0 by 0 2 first none\ntotal steps 0\ntotal given 0\ntotal empty 0\ntotal busy 0\ntotal last 0\ntotal still 0\ntotal acquired 0\ntotal exchanged 0\ntotal pushed 0\ntotal already 0\ntotal taken 0\ntotal none 0\ntotal raised 0\ntotal worked 0\ntotal fetched 0\ntotal returned 0\ntotal plain 0\ntotal tracing 0\ntotal handlers 0\n",
        0,
    ),
    // a whole journal, and another behind it
    (
        b"processors 2 pages 0\ntypes item\nmaps q t\nscripts\nclass 16 marks 32 96 48\nprocessor 0\n3 pop 16 none\n0 xchg s put none was 3 1 by start\nprocessor 1\n0 finish plain 2 first 2 0 later\ngraph q\nat 0 by 0 1 push_back 3 1\nat 1 by 1 1 push_front 3 1 already q\ngraph t\nat 0 by 0 2 first none\ntotal steps 0\ntotal given 0\ntotal empty 0\ntotal busy 0\ntotal last 0\ntotal still 0\ntotal acquired 0\ntotal exchanged 0\ntotal pushed 0\ntotal already 0\ntotal taken 0\ntotal none 0\ntotal raised 0\ntotal worked 0\ntotal fetched 0\ntotal returned 0\ntotal plain 0\ntotal tracing 0\ntotal handlers 0\nprocessors 2 pages 0\ntypes item\nmaps q t\nscripts\nclass 16 marks 32 96 48\nprocessor 0\n3 pop 16 none\n0 xchg s put none was 3 1 by start\nprocessor 1\n0 finish plain 2 first 2 0 later\ngraph q\nat 0 by 0 1 push_back 3 1\nat 1 by 1 1 push_front 3 1 already q\ngraph t\nat 0 by 0 2 first none\n",
        35,
    ),
    // the first line without its line feed
    (b"processors 2 pages 0", 1),
    // the first line alone
    (b"processors 2 pages 0\n", 2),
    // more processors than a byte can say
    (b"processors 256 pages 0\ntypes\n", 1),
    // a carriage return
    (b"processors 2 pages 0\r\n", 1),
    // a name of 32 bytes
    (
        b"processors 2 pages 0\ntypes xxxxxxxxxxxxxxxxxxxxxxxxxxxxxxxx\n",
        2,
    ),
    // a name twice among the types, which may be, and among the maps
    (b"processors 2 pages 0\ntypes q q\nmaps q q\n", 3),
    // an empty line
    (
        b"processors 2 pages 0\ntypes item\nmaps q t\n\nscripts\n",
        4,
    ),
    // marks without a batch
    (
        b"processors 2 pages 0\ntypes item\nmaps q t\nscripts\nclass 16 marks 32 96\n",
        5,
    ),
    // a size of no class
    (
        b"processors 2 pages 0\ntypes item\nmaps q t\nscripts\nclass 48 marks 32 96 48\n",
        5,
    ),
    // the processors begin with the second
    (
        b"processors 2 pages 0\ntypes item\nmaps q t\nscripts\nclass 16 marks 32 96 48\nprocessor 1\n",
        6,
    ),
    // an entry before its processor
    (
        b"processors 2 pages 0\ntypes item\nmaps q t\nscripts\nclass 16 marks 32 96 48\n0 ended\n",
        6,
    ),
    // an entry of no form
    (
        b"processors 2 pages 0\ntypes item\nmaps q t\nscripts\nclass 16 marks 32 96 48\nprocessor 0\n0 lost 16 3\n",
        7,
    ),
    // a unit that 16 bits can't say
    (
        b"processors 2 pages 0\ntypes item\nmaps q t\nscripts\nclass 16 marks 32 96 48\nprocessor 0\n0 pop 16 65536\n",
        7,
    ),
    // nine values
    (
        b"processors 2 pages 0\ntypes item\nmaps q t\nscripts\nclass 16 marks 32 96 48\nprocessor 0\n0 new item 1 2 3 4 5 6 7 8 9\n",
        7,
    ),
    // a class behind a log
    (
        b"processors 2 pages 0\ntypes item\nmaps q t\nscripts\nclass 16 marks 32 96 48\nprocessor 0\n3 pop 16 none\n0 xchg s put none was 3 1 by start\nclass 16 marks 32 96 48\n",
        9,
    ),
    // a period without its later words
    (
        b"processors 2 pages 0\ntypes item\nmaps q t\nscripts\nclass 16 marks 32 96 48\nprocessor 0\n3 pop 16 none\n0 xchg s put none was 3 1 by start\nprocessor 1\n0 finish plain 2 first 2 0\n",
        10,
    ),
    // a call without its graph
    (
        b"processors 2 pages 0\ntypes item\nmaps q t\nscripts\nclass 16 marks 32 96 48\nprocessor 0\n3 pop 16 none\n0 xchg s put none was 3 1 by start\nprocessor 1\n0 finish plain 2 first 2 0 later\nat 0 by 0 1 push_back 3 1\n",
        11,
    ),
    // positions begin with 1
    (
        b"processors 2 pages 0\ntypes item\nmaps q t\nscripts\nclass 16 marks 32 96 48\nprocessor 0\n3 pop 16 none\n0 xchg s put none was 3 1 by start\nprocessor 1\n0 finish plain 2 first 2 0 later\ngraph q\nat 1 by 0 1 push_back 3 1\n",
        12,
    ),
    // a position twice
    (
        b"processors 2 pages 0\ntypes item\nmaps q t\nscripts\nclass 16 marks 32 96 48\nprocessor 0\n3 pop 16 none\n0 xchg s put none was 3 1 by start\nprocessor 1\n0 finish plain 2 first 2 0 later\ngraph q\nat 0 by 0 1 push_back 3 1\nat 0 by 0 1 push_back 3 1\n",
        13,
    ),
    // an owner that is no map
    (
        b"processors 2 pages 0\ntypes item\nmaps q t\nscripts\nclass 16 marks 32 96 48\nprocessor 0\n3 pop 16 none\n0 xchg s put none was 3 1 by start\nprocessor 1\n0 finish plain 2 first 2 0 later\ngraph q\nat 0 by 0 1 push_back 3 1\nat 1 by 1 1 push_front 3 1 already item\n",
        13,
    ),
    // a removal of nothing
    (
        b"processors 2 pages 0\ntypes item\nmaps q t\nscripts\nclass 16 marks 32 96 48\nprocessor 0\n3 pop 16 none\n0 xchg s put none was 3 1 by start\nprocessor 1\n0 finish plain 2 first 2 0 later\ngraph q\nat 0 by 0 1 push_back 3 1\nat 1 by 1 1 push_front 3 1 already q\ngraph t\nat 0 by 0 2 remove none\n",
        15,
    ),
    // a processor behind a graph
    (
        b"processors 2 pages 0\ntypes item\nmaps q t\nscripts\nclass 16 marks 32 96 48\nprocessor 0\n3 pop 16 none\n0 xchg s put none was 3 1 by start\nprocessor 1\n0 finish plain 2 first 2 0 later\ngraph q\nat 0 by 0 1 push_back 3 1\nat 1 by 1 1 push_front 3 1 already q\ngraph t\nat 0 by 0 2 first none\nprocessor 2\n",
        16,
    ),
    // a total above 64 bits
    (
        b"processors 2 pages 0\ntypes item\nmaps q t\nscripts\nclass 16 marks 32 96 48\nprocessor 0\n3 pop 16 none\n0 xchg s put none was 3 1 by start\nprocessor 1\n0 finish plain 2 first 2 0 later\ngraph q\nat 0 by 0 1 push_back 3 1\nat 1 by 1 1 push_front 3 1 already q\ngraph t\nat 0 by 0 2 first none\ntotal steps 18446744073709551616\n",
        16,
    ),
    // a graph between the totals
    (
        b"processors 2 pages 0\ntypes item\nmaps q t\nscripts\nclass 16 marks 32 96 48\nprocessor 0\n3 pop 16 none\n0 xchg s put none was 3 1 by start\nprocessor 1\n0 finish plain 2 first 2 0 later\ngraph q\nat 0 by 0 1 push_back 3 1\nat 1 by 1 1 push_front 3 1 already q\ngraph t\nat 0 by 0 2 first none\ntotal steps 0\ngraph q\n",
        17,
    ),
    // the totals end with the last but one
    (
        b"processors 2 pages 0\ntypes item\nmaps q t\nscripts\nclass 16 marks 32 96 48\nprocessor 0\n3 pop 16 none\n0 xchg s put none was 3 1 by start\nprocessor 1\n0 finish plain 2 first 2 0 later\ngraph q\nat 0 by 0 1 push_back 3 1\nat 1 by 1 1 push_front 3 1 already q\ngraph t\nat 0 by 0 2 first none\ntotal steps 0\ntotal given 0\ntotal empty 0\ntotal busy 0\ntotal last 0\ntotal still 0\ntotal acquired 0\ntotal exchanged 0\ntotal pushed 0\ntotal already 0\ntotal taken 0\ntotal none 0\ntotal raised 0\ntotal worked 0\ntotal fetched 0\ntotal returned 0\ntotal plain 0\ntotal tracing 0\n",
        34,
    ),
];

// The line that the fault of a text names; 0 where there is a journal.
fn first_wrong(alloc: Global, text: &[u8]) -> u64 {
    match read_journal(alloc, text) {
        Ok(_journal) => 0,
        Err(JournalFault::Bad(line)) => line,
        Err(JournalFault::NoMemory) => 1000,
    }
}

#[test]
fn texts_are_read(rt: HostRuntime) -> Result<(), Fail> {
    for (text, line) in TEXTS {
        assert_eq!(rt; first_wrong(rt.alloc(), text), line);
    }
    Ok(())
}

#[test]
fn the_first_wrong_line_is_named(rt: HostRuntime) -> Result<(), Fail> {
    for (text, line) in FIRST_WRONG {
        assert_eq!(rt; first_wrong(rt.alloc(), text), line);
    }
    Ok(())
}
