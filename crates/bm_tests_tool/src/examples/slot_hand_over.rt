//! The example slot_hand_over, as it stands in examples/.

pub(crate) const SCENARIO: &str = "scenario {
processors 2
pages 1
deferred off
type item { a }
slot desk item
script gives plain {
new x item 7
if x {
xchg old desk x
if old { drop old }
}
yield
}
script takes plain {
xchg x desk null
if x {
get x a
drop x
}
}
script puts handler {
new x item 8
if x {
xchg old desk x
if old { drop old }
}
}
run 0 gives
run 0 takes
run 1 takes
at 1 1 1 puts
turns { 0 1 0 }
}
";

pub(crate) const JOURNAL: &str = "processors 2 pages 1
types item
maps desk
scripts gives takes puts
class 16 marks 32 96 48
processor 0
0 fill 16 0 1 2 3
0 script gives
0 in plain 1
0 new item 7
0 enter 16 1
0 pop 16 3
0 count 16 3
0 leave 16 0
0 raise 16
0 given 3 1
0 xchg desk put 3 1 was none by start
0 yield
0 out plain 2
0 done gives
0 script takes
0 in plain 3
0 xchg desk put none was 7 1 by 1 5
0 get 7 1 0 8
0 drop 7 1
0 last
0 free 7 1
0 enter 16 1
0 push 16 7
0 count 16 4
0 leave 16 0
0 out plain 4
0 done takes
0 ended
0 close
0 xchg desk put none was none by 0 3
0 sweep 16 7 2 1 0
0 stamp 16 tracing 2
0 begin tracing 1
0 finish tracing 2 first 4 0 2 0 later 4 0 2 0
0 pass 16 tracing 2
0 return 16 7 2 1 0
processor 1
0 fill 16 4 5 6 7
0 script takes
0 in plain 1
0 xchg desk put none was 3 1 by 0 2
0 get 3 1 0 7
0 drop 3 1
0 last
0 free 3 0
1 handler puts
1 new item 8
1 enter 16 1
1 pop 16 7
1 count 16 3
1 leave 16 0
1 raise 16
1 given 7 1
1 xchg desk put 7 1 was none by 1 1
1 back puts
0 enter 16 1
0 push 16 3
0 count 16 4
0 leave 16 0
0 out plain 2
0 done takes
0 ended
0 sweep 16 3 6 5 4
0 stamp 16 tracing 4
0 begin tracing 3
0 finish tracing 4 first 4 0 2 0 later 4 0 2 0
0 pass 16 tracing 4
0 return 16 3 6 5 4
total steps 26
total given 2
total empty 0
total busy 0
total last 2
total still 0
total acquired 0
total exchanged 5
total pushed 0
total already 0
total taken 0
total none 0
total raised 2
total worked 0
total fetched 8
total returned 8
total plain 0
total tracing 2
total handlers 1
";
