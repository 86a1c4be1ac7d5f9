//! Runs with lists and trees. Totals are worked out by hand from the rules; whole journals, and the rows of planned handlers, are those
//! of the second simulator in tools/, and were read through.

use crate::calls::{call, ends_with, give_their_journals, give_their_totals};
use std::alloc::Global;
use std::process::Abort;
use std::test::Fail;

const REPLAY: &[&str] = &["replay"];

// Two objects are put into a list, in two visits under its lock, and one is taken out in a third and given up. The other one is left
// for the closing. A handler before this step makes and gives up an object of the same type.
fn with_handler(alloc: Global, step: &str) -> Result<String, Fail> {
    Ok(format!(in alloc;
        "scenario {{
processors 1
pages 1
deferred off
type job list {{ a }}
list q job
script main plain {{
new x job 7
if x {{
lock q
push_back q x
unlock
}}
new y job 8
if y {{
lock q
push_front q y
unlock
}}
lock q
pop_back z q
unlock
if z {{ drop z }}
}}
script h handler {{ new w job 9 if w {{ drop w }} }}
run 0 main
at 0 {step} 1 h
}}
"
    )?)
}

// The handler comes directly behind the first visit, before the first step of the second allocation. Its two calls stand between the
// two pushes, and the unit that it gave back has its second life in the list.
const BEHIND_A_VISIT: &str = "processors 1 pages 1
types job
maps q
scripts main h
class 64 marks 32 96 48
processor 0
0 fill 64 0 1 2 3
0 script main
0 in plain 1
0 new job 7
0 enter 64 1
0 pop 64 3
0 count 64 3
0 leave 64 0
0 raise 64
0 given 3 1
0 lock q
0 push_back q 3 1 at 0
0 unlock q
0 new job 8
1 handler h
1 new job 9
1 enter 64 1
1 pop 64 2
1 count 64 2
1 leave 64 0
1 raise 64
1 given 2 1
1 drop 2 1
1 last
1 free 2 0
1 enter 64 1
1 push 64 2
1 count 64 3
1 leave 64 0
1 back h
0 enter 64 1
0 pop 64 2
0 count 64 2
0 leave 64 0
0 raise 64
0 given 2 2
0 lock q
0 push_front q 2 2 at 1
0 unlock q
0 lock q
0 pop_back q 3 1 at 2
0 unlock q
0 drop 3 1
0 last
0 free 3 0
0 enter 64 1
0 push 64 3
0 count 64 3
0 leave 64 0
0 out plain 2
0 done main
0 ended
0 close
0 pop_front q 2 2 at 3
0 drop 2 2
0 last
0 free 2 0
0 enter 64 1
0 push 64 2
0 count 64 4
0 leave 64 0
0 pop_front q none at 4
0 sweep 64 2 3 1 0
0 stamp 64 tracing 2
0 begin tracing 1
0 finish tracing 2 first 2 0 later 2 0
0 pass 64 tracing 2
0 return 64 2 3 1 0
graph q
at 0 by 0 2 push_back 3 1
at 1 by 0 6 push_front 2 2
at 2 by 0 7 pop_back 3 1
at 3 by 0 9 pop_front 2 2
at 4 by 0 11 pop_front none
total steps 31
total given 3
total empty 0
total busy 0
total last 3
total still 0
total acquired 0
total exchanged 0
total pushed 2
total already 0
total taken 2
total none 1
total raised 3
total worked 0
total fetched 4
total returned 4
total plain 0
total tracing 1
total handlers 1
";

#[test]
fn a_handler_directly_behind_a_visit(rt: HostRuntime) -> Result<(), Fail> {
    let text = with_handler(rt.alloc(), "6")?;
    give_their_journals(&rt, rt.alloc(), &[(text.as_str(), BEHIND_A_VISIT)])
}

// The step before which the handler is planned; how many steps there are, how many objects were given, and how many requests found
// the cache busy; and the history. A visit has no step, so a handler comes before it or behind it: those of the steps 6 and 11 come
// directly behind one.
const HANDLERS: &[(&str, &str, &str, &str, &str)] = &[
    (
        "1",
        "31",
        "3",
        "0",
        "graph q
at 0 by 0 4 push_back 3 2
at 1 by 0 6 push_front 2 1
at 2 by 0 7 pop_back 3 2
at 3 by 0 9 pop_front 2 1
at 4 by 0 11 pop_front none
",
    ),
    (
        "2",
        "25",
        "2",
        "1",
        "graph q
at 0 by 0 3 push_back 3 1
at 1 by 0 5 push_front 2 1
at 2 by 0 6 pop_back 3 1
at 3 by 0 8 pop_front 2 1
at 4 by 0 10 pop_front none
",
    ),
    (
        "3",
        "25",
        "2",
        "1",
        "graph q
at 0 by 0 3 push_back 3 1
at 1 by 0 5 push_front 2 1
at 2 by 0 6 pop_back 3 1
at 3 by 0 8 pop_front 2 1
at 4 by 0 10 pop_front none
",
    ),
    (
        "4",
        "25",
        "2",
        "1",
        "graph q
at 0 by 0 3 push_back 3 1
at 1 by 0 5 push_front 2 1
at 2 by 0 6 pop_back 3 1
at 3 by 0 8 pop_front 2 1
at 4 by 0 10 pop_front none
",
    ),
    (
        "5",
        "31",
        "3",
        "0",
        "graph q
at 0 by 0 4 push_back 3 1
at 1 by 0 6 push_front 2 2
at 2 by 0 7 pop_back 3 1
at 3 by 0 9 pop_front 2 2
at 4 by 0 11 pop_front none
",
    ),
    (
        "6",
        "31",
        "3",
        "0",
        "graph q
at 0 by 0 2 push_back 3 1
at 1 by 0 6 push_front 2 2
at 2 by 0 7 pop_back 3 1
at 3 by 0 9 pop_front 2 2
at 4 by 0 11 pop_front none
",
    ),
    (
        "7",
        "25",
        "2",
        "1",
        "graph q
at 0 by 0 2 push_back 3 1
at 1 by 0 5 push_front 2 1
at 2 by 0 6 pop_back 3 1
at 3 by 0 8 pop_front 2 1
at 4 by 0 10 pop_front none
",
    ),
    (
        "8",
        "25",
        "2",
        "1",
        "graph q
at 0 by 0 2 push_back 3 1
at 1 by 0 5 push_front 2 1
at 2 by 0 6 pop_back 3 1
at 3 by 0 8 pop_front 2 1
at 4 by 0 10 pop_front none
",
    ),
    (
        "9",
        "25",
        "2",
        "1",
        "graph q
at 0 by 0 2 push_back 3 1
at 1 by 0 5 push_front 2 1
at 2 by 0 6 pop_back 3 1
at 3 by 0 8 pop_front 2 1
at 4 by 0 10 pop_front none
",
    ),
    (
        "10",
        "31",
        "3",
        "0",
        "graph q
at 0 by 0 2 push_back 3 1
at 1 by 0 6 push_front 2 1
at 2 by 0 7 pop_back 3 1
at 3 by 0 9 pop_front 2 1
at 4 by 0 11 pop_front none
",
    ),
    (
        "11",
        "31",
        "3",
        "0",
        "graph q
at 0 by 0 2 push_back 3 1
at 1 by 0 4 push_front 2 1
at 2 by 0 5 pop_back 3 1
at 3 by 0 9 pop_front 2 1
at 4 by 0 11 pop_front none
",
    ),
    (
        "12",
        "25",
        "2",
        "1",
        "graph q
at 0 by 0 2 push_back 3 1
at 1 by 0 4 push_front 2 1
at 2 by 0 5 pop_back 3 1
at 3 by 0 8 pop_front 2 1
at 4 by 0 10 pop_front none
",
    ),
];

fn end_with_their_histories(
    rt: &impl Abort,
    alloc: Global,
    rows: &[(&str, &str, &str, &str, &str)],
) -> Result<(), Fail> {
    for (step, steps, given, busy, history) in rows {
        let text = with_handler(alloc, step)?;
        let called = call(alloc, REPLAY, text.as_bytes())?;
        let end = format!(in alloc;
            "{history}total steps {steps}
total given {given}
total empty 0
total busy {busy}
total last {given}
total still 0
total acquired 0
total exchanged 0
total pushed 2
total already 0
total taken 2
total none 1
total raised 3
total worked 0
total fetched 4
total returned 4
total plain 0
total tracing 1
total handlers 1
"
        )?;
        ends_with(rt, &called, end.as_str(), step);
    }
    Ok(())
}

#[test]
fn a_handler_before_each_of_twelve_steps(rt: HostRuntime) -> Result<(), Fail> {
    end_with_their_histories(&rt, rt.alloc(), HANDLERS)
}

// A hundred objects are put into a list, and a hundred pops take them. The count of free units is below 32 behind the requests 1, 21
// and 69, and each time 48 units are fetched; it is 97 behind the frees 49 and 82, and each time 33 are drained. Of these the work
// behind the script returns the first 33 to the stock, and has the others wait.
const QUEUE: &str = "scenario {
processors 1
pages 3
deferred on
type job list { a }
list q job
script main plain {
repeat 100 {
new x job 1
if x { lock q push_back q x unlock }
}
repeat 100 {
lock q pop_front y q unlock
if y { drop y }
}
}
run 0 main
}
";

const QUEUE_TOTALS: &str = "total steps 1694
total given 100
total empty 0
total busy 0
total last 100
total still 0
total acquired 0
total exchanged 0
total pushed 100
total already 0
total taken 100
total none 1
total raised 5
total worked 6
total fetched 148
total returned 148
total plain 0
total tracing 2
total handlers 0
";

#[test]
fn a_hundred_objects_in_a_list(rt: HostRuntime) -> Result<(), Fail> {
    give_their_totals(&rt, rt.alloc(), &[(QUEUE, QUEUE_TOTALS)])
}

// Processor 0 has two references to an object, and hands one over through a slot. Processor 1 pushes it onto `r`, so the push of the
// other one onto `q` is refused, by the name of `r`. The closing finds nothing in the slot and in `q`, and drops the last reference
// from `r`: the free is with delay, on processor 0.
const HELD_ELSEWHERE: &str = "scenario {
processors 2
pages 1
deferred off
type job counted list { a }
slot s job
list q job
list r job
script main plain {
new x job 9
if x {
acquire y x
xchg o s y
if o { drop o }
yield
lock q
push_back q x
unlock
}
}
script other plain {
xchg z s null
if z {
lock r
push_back r z
unlock
}
}
run 0 main
run 1 other
turns { 0 1 0 }
}
";

const HELD_ELSEWHERE_JOURNAL: &str = "processors 2 pages 1
types job
maps s q r
scripts main other
class 64 marks 32 96 48
processor 0
0 fill 64 0 1 2 3
0 script main
0 in plain 1
0 new job 9
0 enter 64 1
0 pop 64 3
0 count 64 3
0 leave 64 0
0 raise 64
0 given 3 1
0 acquire 3 1 1
0 xchg s put 3 1 was none by start
0 yield
0 lock q
0 push_back q 3 1 already r at 0
0 drop 3 1
0 still 2
0 unlock q
0 out plain 2
0 done main
0 ended
0 close
0 xchg s put none was none by 1 1
0 pop_front q none at 1
0 pop_front r 3 1 at 1
0 drop 3 1
0 last
0 delay 3 0
0 enter 64 1
0 delayed 64 3
0 leave 64 0
0 raise 64
0 pop_front r none at 2
0 sweep 64 2 1 0 3
0 stamp 64 tracing 2
0 begin tracing 1
0 finish tracing 2 first 2 0 2 0 later 2 0 2 0
0 pass 64 tracing 2
0 return 64 2 1 0 3
processor 1
0 fill 64 4 5 6 7
0 script other
0 in plain 1
0 xchg s put none was 3 1 by 0 3
0 lock r
0 push_back r 3 1 at 0
0 unlock r
0 out plain 2
0 done other
0 ended
0 sweep 64 7 6 5 4
0 stamp 64 tracing 4
0 begin tracing 3
0 finish tracing 4 first 2 0 2 0 later 2 0 2 0
0 pass 64 tracing 4
0 return 64 7 6 5 4
graph q
at 0 by 0 4 push_back 3 1 already r
at 1 by 0 7 pop_front none
graph r
at 0 by 1 2 push_back 3 1
at 1 by 0 8 pop_front 3 1
at 2 by 0 10 pop_front none
total steps 17
total given 1
total empty 0
total busy 0
total last 1
total still 1
total acquired 1
total exchanged 3
total pushed 1
total already 1
total taken 1
total none 2
total raised 2
total worked 0
total fetched 8
total returned 8
total plain 0
total tracing 2
total handlers 0
";

#[test]
fn a_push_of_what_another_processor_has_pushed(rt: HostRuntime) -> Result<(), Fail> {
    give_their_journals(&rt, rt.alloc(), &[(HELD_ELSEWHERE, HELD_ELSEWHERE_JOURNAL)])
}
