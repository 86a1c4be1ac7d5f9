//! The example refused_push, as it stands in examples/.

pub(crate) const SCENARIO: &str = "scenario {
processors 1
pages 1
deferred off
type job counted list { a }
list q job
list r job
script main plain {
new x job 7
if x {
acquire y x
acquire z x
lock q
push_front q x
push_back q z
unlock
lock r
push_back r y
unlock
}
}
run 0 main
}
";

pub(crate) const JOURNAL: &str = "processors 1 pages 1
types job
maps q r
scripts main
class 64 marks 32 96 48
processor 0
0 fill 64 0 1 2 3
0 script main
0 in plain 1
0 new job 7
0 enter 64 1
0 pop 64 3
0 count 64 3
0 leave 64 0
0 raise 64
0 given 3 1
0 acquire 3 1 1
0 acquire 3 1 2
0 lock q
0 push_front q 3 1 at 0
0 push_back q 3 1 already q at 1
0 drop 3 1
0 still 3
0 unlock q
0 lock r
0 push_back r 3 1 already q at 0
0 drop 3 1
0 still 2
0 unlock r
0 out plain 2
0 done main
0 ended
0 close
0 pop_front q 3 1 at 2
0 drop 3 1
0 last
0 delay 3 0
0 enter 64 1
0 delayed 64 3
0 leave 64 0
0 raise 64
0 pop_front q none at 3
0 pop_front r none at 1
0 sweep 64 2 1 0 3
0 stamp 64 tracing 2
0 begin tracing 1
0 finish tracing 2 first 2 0 later 2 0
0 pass 64 tracing 2
0 return 64 2 1 0 3
graph q
at 0 by 0 4 push_front 3 1
at 1 by 0 5 push_back 3 1 already q
at 2 by 0 9 pop_front 3 1
at 3 by 0 11 pop_front none
graph r
at 0 by 0 7 push_back 3 1 already q
at 1 by 0 12 pop_front none
total steps 13
total given 1
total empty 0
total busy 0
total last 1
total still 2
total acquired 2
total exchanged 0
total pushed 1
total already 2
total taken 1
total none 2
total raised 2
total worked 0
total fetched 4
total returned 4
total plain 0
total tracing 1
total handlers 0
";
