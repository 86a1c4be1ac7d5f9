//! The example two_scripts, as it stands in examples/.

pub(crate) const SCENARIO: &str = "scenario {
processors 1
pages 1
deferred off
type item { a }
script pair plain {
new x item 1
new y item 2
if x { drop x }
if y { drop y }
}
script single plain {
new x item 3
if x { drop x }
}
run 0 pair
run 0 single
run 0 pair
}
";

pub(crate) const JOURNAL: &str = "processors 1 pages 1
types item
maps
scripts pair single
class 16 marks 32 96 48
processor 0
0 fill 16 0 1 2 3
0 script pair
0 in plain 1
0 new item 1
0 enter 16 1
0 pop 16 3
0 count 16 3
0 leave 16 0
0 raise 16
0 given 3 1
0 new item 2
0 enter 16 1
0 pop 16 2
0 count 16 2
0 leave 16 0
0 raise 16
0 given 2 1
0 drop 3 1
0 last
0 free 3 0
0 enter 16 1
0 push 16 3
0 count 16 3
0 leave 16 0
0 drop 2 1
0 last
0 free 2 0
0 enter 16 1
0 push 16 2
0 count 16 4
0 leave 16 0
0 out plain 2
0 done pair
0 script single
0 in plain 3
0 new item 3
0 enter 16 1
0 pop 16 2
0 count 16 3
0 leave 16 0
0 raise 16
0 given 2 2
0 drop 2 2
0 last
0 free 2 0
0 enter 16 1
0 push 16 2
0 count 16 4
0 leave 16 0
0 out plain 4
0 done single
0 script pair
0 in plain 5
0 new item 1
0 enter 16 1
0 pop 16 2
0 count 16 3
0 leave 16 0
0 raise 16
0 given 2 3
0 new item 2
0 enter 16 1
0 pop 16 3
0 count 16 2
0 leave 16 0
0 raise 16
0 given 3 2
0 drop 2 3
0 last
0 free 2 0
0 enter 16 1
0 push 16 2
0 count 16 3
0 leave 16 0
0 drop 3 2
0 last
0 free 3 0
0 enter 16 1
0 push 16 3
0 count 16 4
0 leave 16 0
0 out plain 6
0 done pair
0 ended
0 close
0 sweep 16 3 2 1 0
0 stamp 16 tracing 2
0 begin tracing 1
0 finish tracing 2 first 6 0 later 6 0
0 pass 16 tracing 2
0 return 16 3 2 1 0
total steps 49
total given 5
total empty 0
total busy 0
total last 5
total still 0
total acquired 0
total exchanged 0
total pushed 0
total already 0
total taken 0
total none 0
total raised 5
total worked 0
total fetched 4
total returned 4
total plain 0
total tracing 1
total handlers 0
";
