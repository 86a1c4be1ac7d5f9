//! The example counted_object, as it stands in examples/.

pub(crate) const SCENARIO: &str = "scenario {
processors 1
pages 1
deferred on
type node counted { key pad 4072 }
script main plain {
new x node 7
if x { drop x }
new y node 8
if y { drop y }
}
run 0 main
run 0 main
}
";

pub(crate) const JOURNAL: &str = "processors 1 pages 1
types node
maps
scripts main
class 4096 marks 2 6 3
processor 0
0 fill 4096 0
0 script main
0 in plain 1
0 new node 7
0 enter 4096 1
0 pop 4096 0
0 count 4096 0
0 leave 4096 0
0 raise 4096
0 given 0 1
0 work 4096
0 receive 4096
0 read 4096 0
0 fetch 4096 3
0 enter 4096 1
0 taked 4096
0 leave 4096 0
0 drop 0 1
0 last
0 delay 0 0
0 enter 4096 1
0 delayed 4096 0
0 leave 4096 0
0 raise 4096
0 work 4096
0 receive 4096
0 read 4096 0
0 fetch 4096 3
0 enter 4096 1
0 taked 4096
0 batch 4096 0
0 leave 4096 0
0 stamp 4096 plain 2
0 new node 8
0 enter 4096 1
0 pop 4096 none
0 leave 4096 0
0 raise 4096
0 empty
0 work 4096
0 receive 4096
0 read 4096 0
0 fetch 4096 3
0 begin plain 1
0 pass 4096 plain 1
0 enter 4096 1
0 taked 4096
0 leave 4096 0
0 out plain 2
0 done main
0 work 4096
0 receive 4096
0 read 4096 0
0 fetch 4096 3
0 finish plain 2 first 1 later 2
0 pass 4096 plain 2
0 send 4096 0 0
0 enter 4096 1
0 taked 4096
0 leave 4096 0
0 script main
0 in plain 3
0 new node 7
0 enter 4096 1
0 pop 4096 none
0 leave 4096 0
0 raise 4096
0 empty
0 work 4096
0 receive 4096 0
0 receive 4096
0 read 4096 0
0 ready 4096 0
0 enter 4096 1
0 push 4096 0
0 count 4096 1
0 leave 4096 0
0 fetch 4096 2
0 enter 4096 1
0 taked 4096
0 leave 4096 0
0 new node 8
0 enter 4096 1
0 pop 4096 0
0 count 4096 0
0 leave 4096 0
0 raise 4096
0 given 0 2 after 2 2
0 work 4096
0 receive 4096
0 read 4096 0
0 fetch 4096 3
0 enter 4096 1
0 taked 4096
0 leave 4096 0
0 drop 0 2
0 last
0 delay 0 0
0 enter 4096 1
0 delayed 4096 0
0 leave 4096 0
0 raise 4096
0 work 4096
0 receive 4096
0 read 4096 0
0 fetch 4096 3
0 enter 4096 1
0 taked 4096
0 batch 4096 0
0 leave 4096 0
0 stamp 4096 plain 4
0 out plain 4
0 done main
0 work 4096
0 receive 4096
0 read 4096 0
0 fetch 4096 3
0 begin plain 3
0 finish plain 4 first 4 later 4
0 pass 4096 plain 4
0 send 4096 0 0
0 enter 4096 1
0 taked 4096
0 leave 4096 0
0 ended
0 close
0 sweep 4096 0
0 stamp 4096 tracing 2
0 begin tracing 1
0 finish tracing 2 first 4 0 later 4 0
0 pass 4096 tracing 2
0 return 4096 0
total steps 93
total given 2
total empty 2
total busy 0
total last 2
total still 0
total acquired 0
total exchanged 0
total pushed 0
total already 0
total taken 0
total none 0
total raised 6
total worked 8
total fetched 1
total returned 1
total plain 2
total tracing 1
total handlers 0
";
