//! The example deferred_block, as it stands in examples/.

pub(crate) const SCENARIO: &str = "scenario {
processors 1
pages 2
deferred on
type block { pad 4088 }
script main plain {
new x block
if x { drop x }
}
run 0 main
}
";

pub(crate) const JOURNAL: &str = "processors 1 pages 2
types block
maps
scripts main
class 4096 marks 2 6 3
processor 0
0 fill 4096 0
0 script main
0 in plain 1
0 new block
0 enter 4096 1
0 pop 4096 0
0 count 4096 0
0 leave 4096 0
0 raise 4096
0 given 0 1
0 work 4096
0 receive 4096
0 read 4096 0
0 fetch 4096 3 256
0 enter 4096 1
0 push 4096 256
0 count 4096 1
0 leave 4096 0
0 enter 4096 1
0 taked 4096
0 leave 4096 0
0 drop 0 1
0 last
0 free 0 0
0 enter 4096 1
0 push 4096 0
0 count 4096 2
0 leave 4096 0
0 out plain 2
0 done main
0 work 4096
0 receive 4096
0 read 4096 2
0 enter 4096 1
0 taked 4096
0 leave 4096 0
0 ended
0 close
0 sweep 4096 0 256
0 stamp 4096 tracing 2
0 begin tracing 1
0 finish tracing 2 first 2 0 later 2 0
0 pass 4096 tracing 2
0 return 4096 0 256
total steps 28
total given 1
total empty 0
total busy 0
total last 1
total still 0
total acquired 0
total exchanged 0
total pushed 0
total already 0
total taken 0
total none 0
total raised 1
total worked 2
total fetched 2
total returned 2
total plain 0
total tracing 1
total handlers 0
";
