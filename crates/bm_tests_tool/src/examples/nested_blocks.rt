//! The example nested_blocks, as it stands in examples/.

pub(crate) const SCENARIO: &str = "scenario {
processors 1
pages 1
deferred off
type item { a }
script main plain {
new d item 1
new e item 2
repeat 2 {
new a item 3
if a {
repeat 2 {
new b item 4
if b {
new c item 5
if c { drop c } else {
new c item 6
if c { drop c }
}
drop b
new b item 7
if b { drop b }
}
}
drop a
}
}
if d { drop d }
if e { drop e }
}
run 0 main
}
";

pub(crate) const JOURNAL: &str = "processors 1 pages 1
types item
maps
scripts main
class 16 marks 32 96 48
processor 0
0 fill 16 0 1 2 3
0 script main
0 in plain 1
0 new item 1
0 enter 16 1
0 pop 16 3
0 count 16 3
0 leave 16 0
0 raise 16
0 given 3 1
0 new item 2
0 enter 16 1
0 pop 16 2
0 count 16 2
0 leave 16 0
0 raise 16
0 given 2 1
0 new item 3
0 enter 16 1
0 pop 16 1
0 count 16 1
0 leave 16 0
0 raise 16
0 given 1 1
0 new item 4
0 enter 16 1
0 pop 16 0
0 count 16 0
0 leave 16 0
0 raise 16
0 given 0 1
0 new item 5
0 enter 16 1
0 pop 16 none
0 leave 16 0
0 raise 16
0 empty
0 new item 6
0 enter 16 1
0 pop 16 none
0 leave 16 0
0 raise 16
0 empty
0 drop 0 1
0 last
0 free 0 0
0 enter 16 1
0 push 16 0
0 count 16 1
0 leave 16 0
0 new item 7
0 enter 16 1
0 pop 16 0
0 count 16 0
0 leave 16 0
0 raise 16
0 given 0 2
0 drop 0 2
0 last
0 free 0 0
0 enter 16 1
0 push 16 0
0 count 16 1
0 leave 16 0
0 new item 4
0 enter 16 1
0 pop 16 0
0 count 16 0
0 leave 16 0
0 raise 16
0 given 0 3
0 new item 5
0 enter 16 1
0 pop 16 none
0 leave 16 0
0 raise 16
0 empty
0 new item 6
0 enter 16 1
0 pop 16 none
0 leave 16 0
0 raise 16
0 empty
0 drop 0 3
0 last
0 free 0 0
0 enter 16 1
0 push 16 0
0 count 16 1
0 leave 16 0
0 new item 7
0 enter 16 1
0 pop 16 0
0 count 16 0
0 leave 16 0
0 raise 16
0 given 0 4
0 drop 0 4
0 last
0 free 0 0
0 enter 16 1
0 push 16 0
0 count 16 1
0 leave 16 0
0 drop 1 1
0 last
0 free 1 0
0 enter 16 1
0 push 16 1
0 count 16 2
0 leave 16 0
0 new item 3
0 enter 16 1
0 pop 16 1
0 count 16 1
0 leave 16 0
0 raise 16
0 given 1 2
0 new item 4
0 enter 16 1
0 pop 16 0
0 count 16 0
0 leave 16 0
0 raise 16
0 given 0 5
0 new item 5
0 enter 16 1
0 pop 16 none
0 leave 16 0
0 raise 16
0 empty
0 new item 6
0 enter 16 1
0 pop 16 none
0 leave 16 0
0 raise 16
0 empty
0 drop 0 5
0 last
0 free 0 0
0 enter 16 1
0 push 16 0
0 count 16 1
0 leave 16 0
0 new item 7
0 enter 16 1
0 pop 16 0
0 count 16 0
0 leave 16 0
0 raise 16
0 given 0 6
0 drop 0 6
0 last
0 free 0 0
0 enter 16 1
0 push 16 0
0 count 16 1
0 leave 16 0
0 new item 4
0 enter 16 1
0 pop 16 0
0 count 16 0
0 leave 16 0
0 raise 16
0 given 0 7
0 new item 5
0 enter 16 1
0 pop 16 none
0 leave 16 0
0 raise 16
0 empty
0 new item 6
0 enter 16 1
0 pop 16 none
0 leave 16 0
0 raise 16
0 empty
0 drop 0 7
0 last
0 free 0 0
0 enter 16 1
0 push 16 0
0 count 16 1
0 leave 16 0
0 new item 7
0 enter 16 1
0 pop 16 0
0 count 16 0
0 leave 16 0
0 raise 16
0 given 0 8
0 drop 0 8
0 last
0 free 0 0
0 enter 16 1
0 push 16 0
0 count 16 1
0 leave 16 0
0 drop 1 2
0 last
0 free 1 0
0 enter 16 1
0 push 16 1
0 count 16 2
0 leave 16 0
0 drop 3 1
0 last
0 free 3 0
0 enter 16 1
0 push 16 3
0 count 16 3
0 leave 16 0
0 drop 2 1
0 last
0 free 2 0
0 enter 16 1
0 push 16 2
0 count 16 4
0 leave 16 0
0 out plain 2
0 done main
0 ended
0 close
0 sweep 16 2 3 1 0
0 stamp 16 tracing 2
0 begin tracing 1
0 finish tracing 2 first 2 0 later 2 0
0 pass 16 tracing 2
0 return 16 2 3 1 0
total steps 144
total given 12
total empty 8
total busy 0
total last 12
total still 0
total acquired 0
total exchanged 0
total pushed 0
total already 0
total taken 0
total none 0
total raised 20
total worked 0
total fetched 4
total returned 4
total plain 0
total tracing 1
total handlers 0
";
