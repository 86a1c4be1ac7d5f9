//! The example two_classes, as it stands in examples/.

pub(crate) const SCENARIO: &str = "scenario {
processors 1
pages 2
deferred off
type item { a }
type record { key mark pad 480 }
script main plain {
new small item 1
new great record 2 3
if great { drop great }
if small { drop small }
}
run 0 main
}
";

pub(crate) const JOURNAL: &str = "processors 1 pages 2
types item record
maps
scripts main
class 16 marks 32 96 48
class 512 marks 16 48 24
processor 0
0 fill 16 0 1 2 3
0 fill 512 256
0 script main
0 in plain 1
0 new item 1
0 enter 16 1
0 pop 16 3
0 count 16 3
0 leave 16 0
0 raise 16
0 given 3 1
0 new record 2 3
0 enter 512 1
0 pop 512 256
0 count 512 0
0 leave 512 0
0 raise 512
0 given 256 1
0 drop 256 1
0 last
0 free 256 0
0 enter 512 1
0 push 512 256
0 count 512 1
0 leave 512 0
0 drop 3 1
0 last
0 free 3 0
0 enter 16 1
0 push 16 3
0 count 16 4
0 leave 16 0
0 out plain 2
0 done main
0 ended
0 close
0 sweep 16 3 2 1 0
0 stamp 16 tracing 2
0 begin tracing 1
0 finish tracing 2 first 2 0 later 2 0
0 pass 16 tracing 2
0 return 16 3 2 1 0
0 sweep 512 256
0 stamp 512 tracing 4
0 begin tracing 3
0 finish tracing 4 first 2 0 later 2 0
0 pass 512 tracing 4
0 return 512 256
total steps 26
total given 2
total empty 0
total busy 0
total last 2
total still 0
total acquired 0
total exchanged 0
total pushed 0
total already 0
total taken 0
total none 0
total raised 2
total worked 0
total fetched 5
total returned 5
total plain 0
total tracing 2
total handlers 0
";
