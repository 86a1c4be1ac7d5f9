//! The example busy_handler, as it stands in examples/.

pub(crate) const SCENARIO: &str = "scenario {
processors 1
pages 2
deferred off
type item { a }
type wide { a b }
script main plain {
new x item 7
if x { drop x }
}
script tick handler {
new y item 9
if y { drop y }
new w wide 1 2
if w { drop w }
}
run 0 main
at 0 3 1 tick
}
";

pub(crate) const JOURNAL: &str = "processors 1 pages 2
types item wide
maps
scripts main tick
class 16 marks 32 96 48
class 32 marks 32 96 48
processor 0
0 fill 16 0 1 2 3
0 fill 32 256 257 258 259
0 script main
0 in plain 1
0 new item 7
0 enter 16 1
0 pop 16 3
1 handler tick
1 new item 9
1 enter 16 2
1 leave 16 1
1 raise 16
1 busy 2
1 new wide 1 2
1 enter 32 1
1 pop 32 259
1 count 32 3
1 leave 32 0
1 raise 32
1 given 259 1
1 drop 259 1
1 last
1 free 259 0
1 enter 32 1
1 push 32 259
1 count 32 4
1 leave 32 0
1 back tick
0 count 16 3
0 leave 16 0
0 raise 16
0 given 3 1
0 drop 3 1
0 last
0 free 3 0
0 enter 16 1
0 push 16 3
0 count 16 4
0 leave 16 0
0 out plain 2
0 done main
0 ended
0 close
0 sweep 16 3 2 1 0
0 stamp 16 tracing 2
0 begin tracing 1
0 finish tracing 2 first 2 0 later 2 0
0 pass 16 tracing 2
0 return 16 3 2 1 0
0 sweep 32 259 258 257 256
0 stamp 32 tracing 4
0 begin tracing 3
0 finish tracing 4 first 2 0 later 2 0
0 pass 32 tracing 4
0 return 32 259 258 257 256
total steps 29
total given 2
total empty 0
total busy 1
total last 2
total still 0
total acquired 0
total exchanged 0
total pushed 0
total already 0
total taken 0
total none 0
total raised 3
total worked 0
total fetched 8
total returned 8
total plain 0
total tracing 2
total handlers 1
";
