//! The example empty_stock, as it stands in examples/.

pub(crate) const SCENARIO: &str = "scenario {
processors 1
pages 1
deferred off
type item { a }
script main plain {
new a item 1
new b item 2
new c item 3
new d item 4
new e item 5
if e { drop e } else {
new late item 6
if late { drop late }
}
if a { drop a }
if b { drop b }
if c { drop c }
if d { drop d }
}
run 0 main
}
";

pub(crate) const JOURNAL: &str = "processors 1 pages 1
types item
maps
scripts main
class 16 marks 32 96 48
processor 0
0 fill 16 0 1 2 3
0 script main
0 in plain 1
0 new item 1
0 enter 16 1
0 pop 16 3
0 count 16 3
0 leave 16 0
0 raise 16
0 given 3 1
0 new item 2
0 enter 16 1
0 pop 16 2
0 count 16 2
0 leave 16 0
0 raise 16
0 given 2 1
0 new item 3
0 enter 16 1
0 pop 16 1
0 count 16 1
0 leave 16 0
0 raise 16
0 given 1 1
0 new item 4
0 enter 16 1
0 pop 16 0
0 count 16 0
0 leave 16 0
0 raise 16
0 given 0 1
0 new item 5
0 enter 16 1
0 pop 16 none
0 leave 16 0
0 raise 16
0 empty
0 new item 6
0 enter 16 1
0 pop 16 none
0 leave 16 0
0 raise 16
0 empty
0 drop 3 1
0 last
0 free 3 0
0 enter 16 1
0 push 16 3
0 count 16 1
0 leave 16 0
0 drop 2 1
0 last
0 free 2 0
0 enter 16 1
0 push 16 2
0 count 16 2
0 leave 16 0
0 drop 1 1
0 last
0 free 1 0
0 enter 16 1
0 push 16 1
0 count 16 3
0 leave 16 0
0 drop 0 1
0 last
0 free 0 0
0 enter 16 1
0 push 16 0
0 count 16 4
0 leave 16 0
0 out plain 2
0 done main
0 ended
0 close
0 sweep 16 0 1 2 3
0 stamp 16 tracing 2
0 begin tracing 1
0 finish tracing 2 first 2 0 later 2 0
0 pass 16 tracing 2
0 return 16 0 1 2 3
total steps 48
total given 4
total empty 2
total busy 0
total last 4
total still 0
total acquired 0
total exchanged 0
total pushed 0
total already 0
total taken 0
total none 0
total raised 6
total worked 0
total fetched 4
total returned 4
total plain 0
total tracing 1
total handlers 0
";
