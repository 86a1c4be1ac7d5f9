//! The example list_hand_over, as it stands in examples/.

pub(crate) const SCENARIO: &str = "scenario {
processors 2
pages 1
deferred off
type job list { a }
list q job
script gives plain {
new x job 7
if x {
new y job 8
if y {
lock q
push_back q x
push_front q y
unlock
} else {
drop x
}
}
yield
new x job 9
if x {
lock q
push_back q x
unlock
}
}
script takes plain {
repeat 3 {
lock q
pop_front x q
unlock
if x {
get x a
drop x
}
}
}
run 0 gives
run 1 takes
turns { 0 1 0 }
}
";

pub(crate) const JOURNAL: &str = "processors 2 pages 1
types job
maps q
scripts gives takes
class 64 marks 32 96 48
processor 0
0 fill 64 0 1 2 3
0 script gives
0 in plain 1
0 new job 7
0 enter 64 1
0 pop 64 3
0 count 64 3
0 leave 64 0
0 raise 64
0 given 3 1
0 new job 8
0 enter 64 1
0 pop 64 2
0 count 64 2
0 leave 64 0
0 raise 64
0 given 2 1
0 lock q
0 push_back q 3 1 at 0
0 push_front q 2 1 at 1
0 unlock q
0 yield
0 new job 9
0 enter 64 1
0 pop 64 1
0 count 64 1
0 leave 64 0
0 raise 64
0 given 1 1
0 lock q
0 push_back q 1 1 at 5
0 unlock q
0 out plain 2
0 done gives
0 ended
0 close
0 pop_front q 1 1 at 6
0 drop 1 1
0 last
0 free 1 0
0 enter 64 1
0 push 64 1
0 count 64 2
0 leave 64 0
0 pop_front q none at 7
0 sweep 64 1 0
0 stamp 64 tracing 2
0 begin tracing 1
0 finish tracing 2 first 2 0 2 0 later 2 0 2 0
0 pass 64 tracing 2
0 return 64 1 0
processor 1
0 fill 64 4 5 6 7
0 script takes
0 in plain 1
0 lock q
0 pop_front q 2 1 at 2
0 unlock q
0 get 2 1 0 8
0 drop 2 1
0 last
0 free 2 0
0 enter 64 1
0 push 64 2
0 count 64 5
0 leave 64 0
0 lock q
0 pop_front q 3 1 at 3
0 unlock q
0 get 3 1 0 7
0 drop 3 1
0 last
0 free 3 0
0 enter 64 1
0 push 64 3
0 count 64 6
0 leave 64 0
0 lock q
0 pop_front q none at 4
0 unlock q
0 out plain 2
0 done takes
0 ended
0 sweep 64 3 2 7 6 5 4
0 stamp 64 tracing 4
0 begin tracing 3
0 finish tracing 4 first 2 0 2 0 later 2 0 2 0
0 pass 64 tracing 4
0 return 64 3 2 7 6 5 4
graph q
at 0 by 0 3 push_back 3 1
at 1 by 0 4 push_front 2 1
at 2 by 1 1 pop_front 2 1
at 3 by 1 4 pop_front 3 1
at 4 by 1 7 pop_front none
at 5 by 0 6 push_back 1 1
at 6 by 0 7 pop_front 1 1
at 7 by 0 9 pop_front none
total steps 35
total given 3
total empty 0
total busy 0
total last 3
total still 0
total acquired 0
total exchanged 0
total pushed 3
total already 0
total taken 3
total none 2
total raised 3
total worked 0
total fetched 8
total returned 8
total plain 0
total tracing 2
total handlers 0
";
