//! Worked examples of the rules, each with its own text. What is expected is worked out by hand; the whole journals of objects in slots
//! and trees, and of one with two references, are those of the second simulator in tools/ too.

use crate::calls::{agrees, call, give_their_journals};
use std::alloc::Global;
use std::process::Abort;
use std::test::Fail;

// A class whose units are whole pages: its marks are 2, 6 and 3, and its cache begins with one unit.
const WHOLE_PAGE: &str = "scenario { processors 1 pages 1 deferred on type t { pad 4088 } }\n";

const WHOLE_PAGE_JOURNAL: &str = "processors 1 pages 1
types t
maps
scripts
class 4096 marks 2 6 3
processor 0
0 fill 4096 0
0 ended
0 close
0 sweep 4096 0
0 stamp 4096 tracing 2
0 begin tracing 1
0 finish tracing 2 first 0 0 later 0 0
0 pass 4096 tracing 2
0 return 4096 0
total steps 4
total given 0
total empty 0
total busy 0
total last 0
total still 0
total acquired 0
total exchanged 0
total pushed 0
total already 0
total taken 0
total none 0
total raised 0
total worked 0
total fetched 1
total returned 1
total plain 0
total tracing 1
total handlers 0
";

// A handler between the pop and the count of an allocation asks the same cache: it is busy, though units are free.
const SAME_CLASS: &str = "scenario {
processors 1
pages 1
deferred off
type item { a }
script main plain {
new x item 7
if x { drop x }
}
script h handler { new y item 9 if y { drop y } }
run 0 main
at 0 3 1 h
}
";

const SAME_CLASS_JOURNAL: &str = "processors 1 pages 1
types item
maps
scripts main h
class 16 marks 32 96 48
processor 0
0 fill 16 0 1 2 3
0 script main
0 in plain 1
0 new item 7
0 enter 16 1
0 pop 16 3
1 handler h
1 new item 9
1 enter 16 2
1 leave 16 1
1 raise 16
1 busy 2
1 back h
0 count 16 3
0 leave 16 0
0 raise 16
0 given 3 1
0 drop 3 1
0 last
0 free 3 0
0 enter 16 1
0 push 16 3
0 count 16 4
0 leave 16 0
0 out plain 2
0 done main
0 ended
0 close
0 sweep 16 3 2 1 0
0 stamp 16 tracing 2
0 begin tracing 1
0 finish tracing 2 first 2 0 later 2 0
0 pass 16 tracing 2
0 return 16 3 2 1 0
total steps 16
total given 1
total empty 0
total busy 1
total last 1
total still 0
total acquired 0
total exchanged 0
total pushed 0
total already 0
total taken 0
total none 0
total raised 2
total worked 0
total fetched 4
total returned 4
total plain 0
total tracing 1
total handlers 1
";

// The same handler asks another class, whose cache isn't in use: it is given a unit by the steps 3 to 7, and gives it back by the
// steps 8 to 11. The count of the call that it interrupted is step 12.
const OTHER_CLASS: &str = "scenario {
processors 1
pages 2
deferred off
type item { a }
type wide { a b }
script main plain {
new x item 7
if x { drop x }
}
script h handler { new y wide 1 2 if y { drop y } }
run 0 main
at 0 3 1 h
}
";

const OTHER_CLASS_JOURNAL: &str = "processors 1 pages 2
types item wide
maps
scripts main h
class 16 marks 32 96 48
class 32 marks 32 96 48
processor 0
0 fill 16 0 1 2 3
0 fill 32 256 257 258 259
0 script main
0 in plain 1
0 new item 7
0 enter 16 1
0 pop 16 3
1 handler h
1 new wide 1 2
1 enter 32 1
1 pop 32 259
1 count 32 3
1 leave 32 0
1 raise 32
1 given 259 1
1 drop 259 1
1 last
1 free 259 0
1 enter 32 1
1 push 32 259
1 count 32 4
1 leave 32 0
1 back h
0 count 16 3
0 leave 16 0
0 raise 16
0 given 3 1
0 drop 3 1
0 last
0 free 3 0
0 enter 16 1
0 push 16 3
0 count 16 4
0 leave 16 0
0 out plain 2
0 done main
0 ended
0 close
0 sweep 16 3 2 1 0
0 stamp 16 tracing 2
0 begin tracing 1
0 finish tracing 2 first 2 0 later 2 0
0 pass 16 tracing 2
0 return 16 3 2 1 0
0 sweep 32 259 258 257 256
0 stamp 32 tracing 4
0 begin tracing 3
0 finish tracing 4 first 2 0 later 2 0
0 pass 32 tracing 4
0 return 32 259 258 257 256
total steps 26
total given 2
total empty 0
total busy 0
total last 2
total still 0
total acquired 0
total exchanged 0
total pushed 0
total already 0
total taken 0
total none 0
total raised 2
total worked 0
total fetched 8
total returned 8
total plain 0
total tracing 2
total handlers 1
";

#[test]
fn worked_examples_give_their_journals(rt: HostRuntime) -> Result<(), Fail> {
    give_their_journals(
        &rt,
        rt.alloc(),
        &[
            (WHOLE_PAGE, WHOLE_PAGE_JOURNAL),
            (SAME_CLASS, SAME_CLASS_JOURNAL),
            (OTHER_CLASS, OTHER_CLASS_JOURNAL),
        ],
    )
}

// The script takes what is in an empty slot, twice, and then puts two objects into it, of which the second one brings the first one back.
// The closing takes the second. Each exchange names the call that put what it found there: by their serials those of the script are the
// calls 1, 2, 4 and 6.
const FOUR_EXCHANGES: &str = "scenario {
processors 1
pages 1
deferred off
type item { a }
slot s item
script main plain {
xchg a s null if a { drop a } xchg b s null if b { drop b } new x item 1 if x { xchg c s x if c { drop c } } new y item 2 if y { xchg d s y if d { drop d } }
}
run 0 main
}
";

const FOUR_EXCHANGES_JOURNAL: &str = "processors 1 pages 1
types item
maps s
scripts main
class 16 marks 32 96 48
processor 0
0 fill 16 0 1 2 3
0 script main
0 in plain 1
0 xchg s put none was none by start
0 xchg s put none was none by 0 1
0 new item 1
0 enter 16 1
0 pop 16 3
0 count 16 3
0 leave 16 0
0 raise 16
0 given 3 1
0 xchg s put 3 1 was none by 0 2
0 new item 2
0 enter 16 1
0 pop 16 2
0 count 16 2
0 leave 16 0
0 raise 16
0 given 2 1
0 xchg s put 2 1 was 3 1 by 0 4
0 drop 3 1
0 last
0 free 3 0
0 enter 16 1
0 push 16 3
0 count 16 3
0 leave 16 0
0 out plain 2
0 done main
0 ended
0 close
0 xchg s put none was 2 1 by 0 6
0 drop 2 1
0 last
0 free 2 0
0 enter 16 1
0 push 16 2
0 count 16 4
0 leave 16 0
0 sweep 16 2 3 1 0
0 stamp 16 tracing 2
0 begin tracing 1
0 finish tracing 2 first 2 0 later 2 0
0 pass 16 tracing 2
0 return 16 2 3 1 0
total steps 22
total given 2
total empty 0
total busy 0
total last 2
total still 0
total acquired 0
total exchanged 5
total pushed 0
total already 0
total taken 0
total none 0
total raised 2
total worked 0
total fetched 4
total returned 4
total plain 0
total tracing 1
total handlers 0
";

// A counted object is read, gets a second owner, and is given up by both; only the second `drop` frees it, with delay.
const TWO_REFERENCES: &str = "scenario {
processors 1
pages 1
deferred off
type item counted { a }
script main plain {
new x item 7 if x { get x a acquire y x drop x drop y }
}
run 0 main
}
";

const TWO_REFERENCES_JOURNAL: &str = "processors 1 pages 1
types item
maps
scripts main
class 32 marks 32 96 48
processor 0
0 fill 32 0 1 2 3
0 script main
0 in plain 1
0 new item 7
0 enter 32 1
0 pop 32 3
0 count 32 3
0 leave 32 0
0 raise 32
0 given 3 1
0 get 3 1 0 7
0 acquire 3 1 1
0 drop 3 1
0 still 2
0 drop 3 1
0 last
0 delay 3 0
0 enter 32 1
0 delayed 32 3
0 leave 32 0
0 raise 32
0 out plain 2
0 done main
0 ended
0 close
0 sweep 32 2 1 0 3
0 stamp 32 tracing 2
0 begin tracing 1
0 finish tracing 2 first 2 0 later 2 0
0 pass 32 tracing 2
0 return 32 2 1 0 3
total steps 13
total given 1
total empty 0
total busy 0
total last 1
total still 1
total acquired 1
total exchanged 0
total pushed 0
total already 0
total taken 0
total none 0
total raised 2
total worked 0
total fetched 4
total returned 4
total plain 0
total tracing 1
total handlers 0
";

// Three objects under one lock: of the two with the key 5 the one that was added first stands first. The least one is taken out and given
// up by the script, and the other two by the closing. The first `add` is the script's call 5.
const THREE_IN_A_TREE: &str = "scenario {
processors 1
pages 1
deferred off
type node tree { k }
tree t node
script main plain {
new a node 5 if a { get a k new b node 5 if b { new c node 3 if c { lock t add t a add t b add t c first f t remove g t f unlock if g { drop g } } else { drop b drop a } } else { drop a } }
}
run 0 main
}
";

const THREE_IN_A_TREE_JOURNAL: &str = "processors 1 pages 1
types node
maps t
scripts main
class 64 marks 32 96 48
processor 0
0 fill 64 0 1 2 3
0 script main
0 in plain 1
0 new node 5
0 enter 64 1
0 pop 64 3
0 count 64 3
0 leave 64 0
0 raise 64
0 given 3 1
0 get 3 1 0 5
0 new node 5
0 enter 64 1
0 pop 64 2
0 count 64 2
0 leave 64 0
0 raise 64
0 given 2 1
0 new node 3
0 enter 64 1
0 pop 64 1
0 count 64 1
0 leave 64 0
0 raise 64
0 given 1 1
0 lock t
0 add t 3 1 at 0
0 add t 2 1 at 1
0 add t 1 1 at 2
0 first t 1 1 at 3
0 remove t 1 1 at 4
0 unlock t
0 drop 1 1
0 last
0 free 1 0
0 enter 64 1
0 push 64 1
0 count 64 2
0 leave 64 0
0 out plain 2
0 done main
0 ended
0 close
0 first t 3 1 at 5
0 remove t 3 1 at 6
0 drop 3 1
0 last
0 free 3 0
0 enter 64 1
0 push 64 3
0 count 64 3
0 leave 64 0
0 first t 2 1 at 7
0 remove t 2 1 at 8
0 drop 2 1
0 last
0 free 2 0
0 enter 64 1
0 push 64 2
0 count 64 4
0 leave 64 0
0 first t none at 9
0 sweep 64 2 3 1 0
0 stamp 64 tracing 2
0 begin tracing 1
0 finish tracing 2 first 2 0 later 2 0
0 pass 64 tracing 2
0 return 64 2 3 1 0
graph t
at 0 by 0 5 add 3 1 5
at 1 by 0 6 add 2 1 5
at 2 by 0 7 add 1 1 3
at 3 by 0 8 first 1 1
at 4 by 0 9 remove 1 1
at 5 by 0 11 first 3 1
at 6 by 0 12 remove 3 1
at 7 by 0 14 first 2 1
at 8 by 0 15 remove 2 1
at 9 by 0 17 first none
total steps 31
total given 3
total empty 0
total busy 0
total last 3
total still 0
total acquired 0
total exchanged 0
total pushed 3
total already 0
total taken 3
total none 1
total raised 3
total worked 0
total fetched 4
total returned 4
total plain 0
total tracing 1
total handlers 0
";

#[test]
fn objects_that_slots_and_trees_own(rt: HostRuntime) -> Result<(), Fail> {
    give_their_journals(
        &rt,
        rt.alloc(),
        &[
            (FOUR_EXCHANGES, FOUR_EXCHANGES_JOURNAL),
            (TWO_REFERENCES, TWO_REFERENCES_JOURNAL),
            (THREE_IN_A_TREE, THREE_IN_A_TREE_JOURNAL),
        ],
    )
}

const TOO_GREAT: &str = "scenario { processors 1 pages 1 deferred on type t { pad 4096 } }\n";

// What stands after the last brace is no part of a scenario.
const ONE_MORE: &str = "scenario {
processors 1
pages 1
deferred off
type item { a }
script main plain {
new x item 7
if x { drop x }
}
run 0 main
}
x
";

// Texts with what `check` answers: the status, and the line on the one stream or the other.
const CHECKED: &[(&str, u8, &str, &str)] = &[
    (WHOLE_PAGE, 0, "accepted\n", ""),
    (TOO_GREAT, 5, "", "bpfmem: line 1 column 63: type_size\n"),
    (
        "scenario {\nprocessors 1\n",
        5,
        "",
        "bpfmem: line 3 column 1: end\n",
    ),
    (ONE_MORE, 5, "", "bpfmem: line 12 column 1: unexpected\n"),
    ("", 5, "", "bpfmem: line 1 column 1: end\n"),
];

fn are_checked(
    rt: &impl Abort,
    alloc: Global,
    rows: &[(&str, u8, &str, &str)],
) -> Result<(), Fail> {
    for (text, status, out, err) in rows {
        let called = call(alloc, &["check"], text.as_bytes())?;
        agrees(rt, &called, *status, out, err, text);
    }
    Ok(())
}

// `replay` refuses the same texts by the same lines.
fn are_refused(
    rt: &impl Abort,
    alloc: Global,
    rows: &[(&str, u8, &str, &str)],
) -> Result<(), Fail> {
    for (text, status, out, err) in rows {
        if *status != 0 {
            let called = call(alloc, &["replay"], text.as_bytes())?;
            agrees(rt, &called, *status, out, err, text);
        }
    }
    Ok(())
}

#[test]
fn worked_texts_are_checked(rt: HostRuntime) -> Result<(), Fail> {
    are_checked(&rt, rt.alloc(), CHECKED)?;
    are_refused(&rt, rt.alloc(), CHECKED)
}
