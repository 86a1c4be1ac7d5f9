//! The example held_by_a_plain_section, as it stands in examples/.

pub(crate) const SCENARIO: &str = "scenario {
processors 2
pages 1
deferred on
type big counted { pad 4080 }
script main plain { new x big if x { drop x } }
script wait plain { yield }
run 0 main
run 0 wait
run 0 wait
run 0 main
run 1 wait
turns { 1 0 1 0 }
}
";

pub(crate) const JOURNAL: &str = "processors 2 pages 1
types big
maps
scripts main wait
class 4096 marks 2 6 3
processor 0
0 fill 4096 0
0 script main
0 in plain 1
0 new big
0 enter 4096 1
0 pop 4096 0
0 count 4096 0
0 leave 4096 0
0 raise 4096
0 given 0 1
0 work 4096
0 receive 4096
0 read 4096 0
0 fetch 4096 3
0 enter 4096 1
0 taked 4096
0 leave 4096 0
0 drop 0 1
0 last
0 delay 0 0
0 enter 4096 1
0 delayed 4096 0
0 leave 4096 0
0 raise 4096
0 work 4096
0 receive 4096
0 read 4096 0
0 fetch 4096 3
0 enter 4096 1
0 taked 4096
0 batch 4096 0
0 leave 4096 0
0 stamp 4096 plain 2
0 out plain 2
0 done main
0 work 4096
0 receive 4096
0 read 4096 0
0 fetch 4096 3
0 begin plain 1
0 pass 4096 plain 1
0 enter 4096 1
0 taked 4096
0 leave 4096 0
0 script wait
0 in plain 3
0 yield
0 out plain 4
0 done wait
0 work 4096
0 receive 4096
0 read 4096 0
0 fetch 4096 3
0 finish plain 2 first 2 1 later 4 2
0 pass 4096 plain 2
0 send 4096 0 0
0 enter 4096 1
0 taked 4096
0 leave 4096 0
0 script wait
0 in plain 5
0 yield
0 out plain 6
0 done wait
0 work 4096
0 receive 4096 0
0 receive 4096
0 read 4096 0
0 ready 4096 0
0 enter 4096 1
0 push 4096 0
0 count 4096 1
0 leave 4096 0
0 fetch 4096 2
0 enter 4096 1
0 taked 4096
0 leave 4096 0
0 script main
0 in plain 7
0 new big
0 enter 4096 1
0 pop 4096 0
0 count 4096 0
0 leave 4096 0
0 raise 4096
0 given 0 2 after 2 2
0 work 4096
0 receive 4096
0 read 4096 0
0 fetch 4096 3
0 enter 4096 1
0 taked 4096
0 leave 4096 0
0 drop 0 2
0 last
0 delay 0 0
0 enter 4096 1
0 delayed 4096 0
0 leave 4096 0
0 raise 4096
0 work 4096
0 receive 4096
0 read 4096 0
0 fetch 4096 3
0 enter 4096 1
0 taked 4096
0 batch 4096 0
0 leave 4096 0
0 stamp 4096 plain 4
0 out plain 8
0 done main
0 work 4096
0 receive 4096
0 read 4096 0
0 fetch 4096 3
0 begin plain 3
0 finish plain 4 first 8 2 later 8 2
0 pass 4096 plain 4
0 send 4096 0 0
0 enter 4096 1
0 taked 4096
0 leave 4096 0
0 ended
0 close
0 sweep 4096 0
0 stamp 4096 tracing 2
0 begin tracing 1
0 finish tracing 2 first 8 0 2 0 later 8 0 2 0
0 pass 4096 tracing 2
0 return 4096 0
processor 1
0 fill 4096
0 script wait
0 in plain 1
0 yield
0 out plain 2
0 done wait
0 work 4096
0 receive 4096
0 read 4096 0
0 fetch 4096 3
0 enter 4096 1
0 taked 4096
0 leave 4096 0
0 ended
total steps 91
total given 2
total empty 0
total busy 0
total last 2
total still 0
total acquired 0
total exchanged 0
total pushed 0
total already 0
total taken 0
total none 0
total raised 4
total worked 9
total fetched 1
total returned 1
total plain 2
total tracing 1
total handlers 0
";
