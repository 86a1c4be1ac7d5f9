//! The example fields_read, as it stands in examples/.

pub(crate) const SCENARIO: &str = "scenario {
processors 1
pages 1
deferred off
type pair counted { a b }
script main plain {
new x pair 7 9
if x {
get x b
acquire y x
get y a
drop x
get y b
drop y
}
}
run 0 main
}
";

pub(crate) const JOURNAL: &str = "processors 1 pages 1
types pair
maps
scripts main
class 32 marks 32 96 48
processor 0
0 fill 32 0 1 2 3
0 script main
0 in plain 1
0 new pair 7 9
0 enter 32 1
0 pop 32 3
0 count 32 3
0 leave 32 0
0 raise 32
0 given 3 1
0 get 3 1 1 9
0 acquire 3 1 1
0 get 3 1 0 7
0 drop 3 1
0 still 2
0 get 3 1 1 9
0 drop 3 1
0 last
0 delay 3 0
0 enter 32 1
0 delayed 32 3
0 leave 32 0
0 raise 32
0 out plain 2
0 done main
0 ended
0 close
0 sweep 32 2 1 0 3
0 stamp 32 tracing 2
0 begin tracing 1
0 finish tracing 2 first 2 0 later 2 0
0 pass 32 tracing 2
0 return 32 2 1 0 3
total steps 13
total given 1
total empty 0
total busy 0
total last 1
total still 1
total acquired 1
total exchanged 0
total pushed 0
total already 0
total taken 0
total none 0
total raised 2
total worked 0
total fetched 4
total returned 4
total plain 0
total tracing 1
total handlers 0
";
