//! The example slot_left_full, as it stands in examples/.

pub(crate) const SCENARIO: &str = "scenario {
processors 1
pages 1
deferred off
type item counted { a }
slot shelf item
slot desk item
script main plain {
new x item 7
if x {
acquire y x
acquire z x
xchg old desk y
if old { drop old }
xchg old shelf z
if old { drop old }
drop x
}
}
run 0 main
}
";

pub(crate) const JOURNAL: &str = "processors 1 pages 1
types item
maps shelf desk
scripts main
class 32 marks 32 96 48
processor 0
0 fill 32 0 1 2 3
0 script main
0 in plain 1
0 new item 7
0 enter 32 1
0 pop 32 3
0 count 32 3
0 leave 32 0
0 raise 32
0 given 3 1
0 acquire 3 1 1
0 acquire 3 1 2
0 xchg desk put 3 1 was none by start
0 xchg shelf put 3 1 was none by start
0 drop 3 1
0 still 3
0 out plain 2
0 done main
0 ended
0 close
0 xchg shelf put none was 3 1 by 0 5
0 drop 3 1
0 still 2
0 xchg desk put none was 3 1 by 0 4
0 drop 3 1
0 last
0 delay 3 0
0 enter 32 1
0 delayed 32 3
0 leave 32 0
0 raise 32
0 sweep 32 2 1 0 3
0 stamp 32 tracing 2
0 begin tracing 1
0 finish tracing 2 first 2 0 later 2 0
0 pass 32 tracing 2
0 return 32 2 1 0 3
total steps 13
total given 1
total empty 0
total busy 0
total last 1
total still 2
total acquired 2
total exchanged 4
total pushed 0
total already 0
total taken 0
total none 0
total raised 2
total worked 0
total fetched 4
total returned 4
total plain 0
total tracing 1
total handlers 0
";
