//! The example refill_handlers, as it stands in examples/.

pub(crate) const SCENARIO: &str = "scenario {
processors 1
pages 3
deferred on
type block { pad 4088 }
script main plain {
new x block
if x { drop x }
}
script tick handler { new y block if y { drop y } }
run 0 main
at 0 11 1 tick
at 0 16 1 tick
}
";

pub(crate) const JOURNAL: &str = "processors 1 pages 3
types block
maps
scripts main tick
class 4096 marks 2 6 3
processor 0
0 fill 4096 0
0 script main
0 in plain 1
0 new block
0 enter 4096 1
0 pop 4096 0
0 count 4096 0
0 leave 4096 0
0 raise 4096
0 given 0 1
0 work 4096
0 receive 4096
0 read 4096 0
0 fetch 4096 3 256 512
0 enter 4096 1
0 push 4096 256
1 handler tick
1 new block
1 enter 4096 2
1 leave 4096 1
1 raise 4096
1 busy 2
1 back tick
0 count 4096 1
0 leave 4096 0
1 handler tick
1 new block
1 enter 4096 1
1 pop 4096 256
1 count 4096 0
1 leave 4096 0
1 raise 4096
1 given 256 1
1 drop 256 1
1 last
1 free 256 0
1 enter 4096 1
1 push 4096 256
1 count 4096 1
1 leave 4096 0
1 back tick
0 enter 4096 1
0 push 4096 512
0 count 4096 2
0 leave 4096 0
0 enter 4096 1
0 taked 4096
0 leave 4096 0
0 work 4096
0 receive 4096
0 read 4096 2
0 enter 4096 1
0 taked 4096
0 leave 4096 0
0 drop 0 1
0 last
0 free 0 0
0 enter 4096 1
0 push 4096 0
0 count 4096 3
0 leave 4096 0
0 out plain 2
0 done main
0 work 4096
0 receive 4096
0 read 4096 3
0 enter 4096 1
0 taked 4096
0 leave 4096 0
0 ended
0 close
0 sweep 4096 0 512 256
0 stamp 4096 tracing 2
0 begin tracing 1
0 finish tracing 2 first 2 0 later 2 0
0 pass 4096 tracing 2
0 return 4096 0 512 256
total steps 49
total given 2
total empty 0
total busy 1
total last 2
total still 0
total acquired 0
total exchanged 0
total pushed 0
total already 0
total taken 0
total none 0
total raised 3
total worked 3
total fetched 3
total returned 3
total plain 0
total tracing 1
total handlers 2
";
