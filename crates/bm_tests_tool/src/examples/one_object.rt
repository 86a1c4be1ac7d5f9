//! The example one_object, as it stands in examples/.

pub(crate) const SCENARIO: &str = "scenario {
processors 1
pages 1
deferred off
type item { a }
script main plain {
new x item 7
if x { drop x }
}
run 0 main
}
";

pub(crate) const JOURNAL: &str = "processors 1 pages 1
types item
maps
scripts main
class 16 marks 32 96 48
processor 0
0 fill 16 0 1 2 3
0 script main
0 in plain 1
0 new item 7
0 enter 16 1
0 pop 16 3
0 count 16 3
0 leave 16 0
0 raise 16
0 given 3 1
0 drop 3 1
0 last
0 free 3 0
0 enter 16 1
0 push 16 3
0 count 16 4
0 leave 16 0
0 out plain 2
0 done main
0 ended
0 close
0 sweep 16 3 2 1 0
0 stamp 16 tracing 2
0 begin tracing 1
0 finish tracing 2 first 2 0 later 2 0
0 pass 16 tracing 2
0 return 16 3 2 1 0
total steps 13
total given 1
total empty 0
total busy 0
total last 1
total still 0
total acquired 0
total exchanged 0
total pushed 0
total already 0
total taken 0
total none 0
total raised 1
total worked 0
total fetched 4
total returned 4
total plain 0
total tracing 1
total handlers 0
";
