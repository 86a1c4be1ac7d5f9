//! Periods of both domains that a section of another processor holds up. What happens to the unit that waits, and the totals, are worked
//! out by hand from the rules; the whole journals are those of the second simulator in tools/ too.

use crate::calls::give_their_journals;
use std::alloc::Global;
use std::process::Abort;
use std::test::Fail;

// Processor 1 has the first turn, and is in a plain section up to its second one. On processor 0 the unit that `main` freed waits for a
// plain period, which begins in the work after `main`. Only the work after `again` can end it, as processor 1 has left its section by
// then; and the unit that `again` freed becomes the next batch.
const PLAIN: &str = "scenario {
processors 2
pages 1
deferred on
type obj counted { a }
script main plain { new x obj 5 if x { drop x } }
script again plain { yield new y obj 6 if y { drop y } }
script hold plain { yield }
run 0 main
run 0 again
run 1 hold
turns { 1 0 1 0 }
}
";

const PLAIN_START: &str = "processors 2 pages 1
types obj
maps
scripts main again hold
class 32 marks 32 96 48
processor 0
0 fill 32 0 1 2 3
0 script main
0 in plain 1
0 new obj 5
0 enter 32 1
0 pop 32 3
0 count 32 3
0 leave 32 0
0 raise 32
0 given 3 1
0 work 32
0 receive 32
0 read 32 3
0 fetch 32 48 8 9 10 11 12 13 14 15 16 17 18 19 20 21 22 23 24 25 26 27 28 29 30 31 32 33 34 35 36 37 38 39 40 41 42 43 44 45 46 47 48 49 50 51 52 53 54 55
";

const PLAIN_MIDDLE: &str = "0 enter 32 1
0 taked 32
0 leave 32 0
0 drop 3 1
0 last
0 delay 3 0
0 enter 32 1
0 delayed 32 3
0 leave 32 0
0 raise 32
0 work 32
0 receive 32
0 read 32 51
0 enter 32 1
0 taked 32
0 batch 32 3
0 leave 32 0
0 stamp 32 plain 2
0 out plain 2
0 done main
0 work 32
0 receive 32
0 read 32 51
0 begin plain 1
0 pass 32 plain 1
0 enter 32 1
0 taked 32
0 leave 32 0
0 script again
0 in plain 3
0 yield
0 new obj 6
0 enter 32 1
0 pop 32 55
0 count 32 50
0 leave 32 0
0 given 55 1
0 drop 55 1
0 last
0 delay 55 0
0 enter 32 1
0 delayed 32 55
0 leave 32 0
0 out plain 4
0 done again
0 work 32
0 receive 32
0 read 32 50
0 finish plain 2 first 2 1 later 4 2
0 pass 32 plain 2
0 send 32 0 3
0 enter 32 1
0 taked 32
0 batch 32 55
0 leave 32 0
0 stamp 32 plain 4
0 ended
0 close
0 sweep 32 54 53 52 51 50 49 48 47 46 45 44 43 42 41 40 39 38 37 36 35 34 33 32 31 30 29 28 27 26 25 24 23 22 21 20 19 18 17 16 15 14 13 12 11 10 9 8 2 1 0 55 3
0 stamp 32 tracing 2
0 begin tracing 1
0 finish tracing 2 first 4 0 2 0 later 4 0 2 0
0 pass 32 tracing 2
0 return 32 54 53 52 51 50 49 48 47 46 45 44 43 42 41 40 39 38 37 36 35 34 33 32 31 30 29 28 27 26 25 24 23 22 21 20 19 18 17 16 15 14 13 12 11 10 9 8 2 1 0 55 3
processor 1
0 fill 32 4 5 6 7
0 script hold
0 in plain 1
0 yield
0 out plain 2
0 done hold
0 work 32
0 receive 32
0 read 32 4
0 fetch 32 48 56 57 58 59 60 61 62 63 64 65 66 67 68 69 70 71 72 73 74 75 76 77 78 79 80 81 82 83 84 85 86 87 88 89 90 91 92 93 94 95 96 97 98 99 100 101 102 103
";

const PLAIN_END: &str = "0 enter 32 1
0 taked 32
0 leave 32 0
0 ended
0 sweep 32 103 102 101 100 99 98 97 96 95 94 93 92 91 90 89 88 87 86 85 84 83 82 81 80 79 78 77 76 75 74 73 72 71 70 69 68 67 66 65 64 63 62 61 60 59 58 57 56 7 6 5 4
0 stamp 32 tracing 4
0 begin tracing 3
0 finish tracing 4 first 4 0 2 0 later 4 0 2 0
0 pass 32 tracing 4
0 return 32 103 102 101 100 99 98 97 96 95 94 93 92 91 90 89 88 87 86 85 84 83 82 81 80 79 78 77 76 75 74 73 72 71 70 69 68 67 66 65 64 63 62 61 60 59 58 57 56 7 6 5 4
total steps 442
total given 2
total empty 0
total busy 0
total last 2
total still 0
total acquired 0
total exchanged 0
total pushed 0
total already 0
total taken 0
total none 0
total raised 2
total worked 5
total fetched 104
total returned 104
total plain 1
total tracing 2
total handlers 0
";

// Processor 1 is in a tracing section up to its second turn. The plain period waits for no such section, so it ends where it begins, in
// the work after `main`; the work after the first `idle` receives the unit, and that after the second one begins a tracing period for it.
// Processor 1 leaves its section in the last turn, so only the closing ends that period.
const TRACING: &str = "scenario {
processors 2
pages 1
deferred on
type obj counted { a }
script main plain { new x obj 5 if x { drop x } }
script idle plain { }
script hold sleepable { yield }
run 0 main
run 0 idle
run 0 idle
run 1 hold
turns { 1 0 1 }
}
";

const TRACING_START: &str = "processors 2 pages 1
types obj
maps
scripts main idle hold
class 32 marks 32 96 48
processor 0
0 fill 32 0 1 2 3
0 script main
0 in plain 1
0 new obj 5
0 enter 32 1
0 pop 32 3
0 count 32 3
0 leave 32 0
0 raise 32
0 given 3 1
0 work 32
0 receive 32
0 read 32 3
0 fetch 32 48 8 9 10 11 12 13 14 15 16 17 18 19 20 21 22 23 24 25 26 27 28 29 30 31 32 33 34 35 36 37 38 39 40 41 42 43 44 45 46 47 48 49 50 51 52 53 54 55
";

const TRACING_MIDDLE: &str = "0 enter 32 1
0 taked 32
0 leave 32 0
0 drop 3 1
0 last
0 delay 3 0
0 enter 32 1
0 delayed 32 3
0 leave 32 0
0 raise 32
0 work 32
0 receive 32
0 read 32 51
0 enter 32 1
0 taked 32
0 batch 32 3
0 leave 32 0
0 stamp 32 plain 2
0 out plain 2
0 done main
0 work 32
0 receive 32
0 read 32 51
0 begin plain 1
0 finish plain 2 first 2 0 later 2 0
0 pass 32 plain 2
0 send 32 0 3
0 enter 32 1
0 taked 32
0 leave 32 0
0 script idle
0 in plain 3
0 out plain 4
0 done idle
0 work 32
0 receive 32 3
0 receive 32
0 read 32 51
0 enter 32 1
0 taked 32
0 leave 32 0
0 begin2 32 3
0 stamp 32 tracing 2
0 script idle
0 in plain 5
0 out plain 6
0 done idle
0 work 32
0 receive 32
0 read 32 51
0 enter 32 1
0 taked 32
0 leave 32 0
0 begin tracing 1
0 pass 32 tracing 1
0 ended
0 close
0 finish tracing 2 first 6 0 0 1 later 6 0 0 2
0 sweep 32 55 54 53 52 51 50 49 48 47 46 45 44 43 42 41 40 39 38 37 36 35 34 33 32 31 30 29 28 27 26 25 24 23 22 21 20 19 18 17 16 15 14 13 12 11 10 9 8 2 1 0 3
0 stamp 32 tracing 4
0 begin tracing 3
0 finish tracing 4 first 6 0 0 2 later 6 0 0 2
0 pass 32 tracing 4
0 return 32 55 54 53 52 51 50 49 48 47 46 45 44 43 42 41 40 39 38 37 36 35 34 33 32 31 30 29 28 27 26 25 24 23 22 21 20 19 18 17 16 15 14 13 12 11 10 9 8 2 1 0 3
processor 1
0 fill 32 4 5 6 7
0 script hold
0 in tracing 1
0 yield
0 out tracing 2
0 done hold
0 work 32
0 receive 32
0 read 32 4
0 fetch 32 48 56 57 58 59 60 61 62 63 64 65 66 67 68 69 70 71 72 73 74 75 76 77 78 79 80 81 82 83 84 85 86 87 88 89 90 91 92 93 94 95 96 97 98 99 100 101 102 103
";

const TRACING_END: &str = "0 enter 32 1
0 taked 32
0 leave 32 0
0 ended
0 sweep 32 103 102 101 100 99 98 97 96 95 94 93 92 91 90 89 88 87 86 85 84 83 82 81 80 79 78 77 76 75 74 73 72 71 70 69 68 67 66 65 64 63 62 61 60 59 58 57 56 7 6 5 4
0 stamp 32 tracing 6
0 begin tracing 5
0 finish tracing 6 first 6 0 0 2 later 6 0 0 2
0 pass 32 tracing 6
0 return 32 103 102 101 100 99 98 97 96 95 94 93 92 91 90 89 88 87 86 85 84 83 82 81 80 79 78 77 76 75 74 73 72 71 70 69 68 67 66 65 64 63 62 61 60 59 58 57 56 7 6 5 4
total steps 441
total given 1
total empty 0
total busy 0
total last 1
total still 0
total acquired 0
total exchanged 0
total pushed 0
total already 0
total taken 0
total none 0
total raised 2
total worked 6
total fetched 104
total returned 104
total plain 1
total tracing 3
total handlers 0
";

// The additions of a refill of 48 units: the number of the first unit, and how many are free once it has come.
fn additions(alloc: Global, first: u8, free: u8) -> Result<String, Fail> {
    let mut lines = String::new(alloc);
    for index in 0..48u32 {
        let unit = u32::from(first) + index;
        let count = u32::from(free) + index;
        let steps = format!(in alloc;
            "0 enter 32 1\n0 push 32 {unit}\n0 count 32 {count}\n0 leave 32 0\n"
        )?;
        lines.push_str(steps.as_str())?;
    }
    Ok(lines)
}

// A text, and the three parts of its journal. After the first one stand the additions of processor 0, whose cache has three units left,
// and after the second one those of processor 1, whose cache has all its four.
type HeldUp<'a> = (&'a str, &'a str, &'a str, &'a str);

const HELD_UP: &[HeldUp<'static>] = &[
    (PLAIN, PLAIN_START, PLAIN_MIDDLE, PLAIN_END),
    (TRACING, TRACING_START, TRACING_MIDDLE, TRACING_END),
];

fn give_their_journals_in_parts(
    rt: &impl Abort,
    alloc: Global,
    rows: &[HeldUp<'_>],
) -> Result<(), Fail> {
    let lower = additions(alloc, 8, 4)?;
    let higher = additions(alloc, 56, 5)?;
    for (text, start, middle, end) in rows {
        let journal = format!(in alloc; "{start}{lower}{middle}{higher}{end}")?;
        give_their_journals(rt, alloc, &[(text, journal.as_str())])?;
    }
    Ok(())
}

#[test]
fn sections_of_another_processor_hold_periods_up(rt: HostRuntime) -> Result<(), Fail> {
    give_their_journals_in_parts(&rt, rt.alloc(), HELD_UP)
}
