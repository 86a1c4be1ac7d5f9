//! The example held_by_a_tracing_section, as it stands in examples/.

pub(crate) const SCENARIO: &str = "scenario {
processors 2
pages 4
deferred on
type big counted { pad 4080 }
script main plain { new x big if x { drop x } }
script wait plain { yield }
script hold sleepable { yield }
run 0 main
run 0 wait
run 0 wait
run 0 wait
run 1 hold
turns { 1 0 0 0 1 0 }
}
";

pub(crate) const JOURNAL: &str = "processors 2 pages 4
types big
maps
scripts main wait hold
class 4096 marks 2 6 3
processor 0
0 fill 4096 0
0 script main
0 in plain 1
0 new big
0 enter 4096 1
0 pop 4096 0
0 count 4096 0
0 leave 4096 0
0 raise 4096
0 given 0 1
0 work 4096
0 receive 4096
0 read 4096 0
0 fetch 4096 3 512 768
0 enter 4096 1
0 push 4096 512
0 count 4096 1
0 leave 4096 0
0 enter 4096 1
0 push 4096 768
0 count 4096 2
0 leave 4096 0
0 enter 4096 1
0 taked 4096
0 leave 4096 0
0 drop 0 1
0 last
0 delay 0 0
0 enter 4096 1
0 delayed 4096 0
0 leave 4096 0
0 raise 4096
0 work 4096
0 receive 4096
0 read 4096 2
0 enter 4096 1
0 taked 4096
0 batch 4096 0
0 leave 4096 0
0 stamp 4096 plain 2
0 out plain 2
0 done main
0 work 4096
0 receive 4096
0 read 4096 2
0 begin plain 1
0 finish plain 2 first 2 0 later 2 0
0 pass 4096 plain 2
0 send 4096 0 0
0 enter 4096 1
0 taked 4096
0 leave 4096 0
0 script wait
0 in plain 3
0 yield
0 out plain 4
0 done wait
0 work 4096
0 receive 4096 0
0 receive 4096
0 read 4096 2
0 enter 4096 1
0 taked 4096
0 leave 4096 0
0 begin2 4096 0
0 stamp 4096 tracing 2
0 script wait
0 in plain 5
0 yield
0 out plain 6
0 done wait
0 work 4096
0 receive 4096
0 read 4096 2
0 enter 4096 1
0 taked 4096
0 leave 4096 0
0 begin tracing 1
0 pass 4096 tracing 1
0 script wait
0 in plain 7
0 yield
0 out plain 8
0 done wait
0 work 4096
0 receive 4096
0 read 4096 2
0 enter 4096 1
0 taked 4096
0 leave 4096 0
0 finish tracing 2 first 6 0 0 1 later 8 0 0 2
0 pass 4096 tracing 2
0 return 4096 0
0 ended
0 close
0 sweep 4096 768 512
0 stamp 4096 tracing 4
0 begin tracing 3
0 finish tracing 4 first 8 0 0 2 later 8 0 0 2
0 pass 4096 tracing 4
0 return 4096 768 512
processor 1
0 fill 4096 256
0 script hold
0 in tracing 1
0 yield
0 out tracing 2
0 done hold
0 work 4096
0 receive 4096
0 read 4096 1
0 fetch 4096 3
0 enter 4096 1
0 taked 4096
0 leave 4096 0
0 ended
0 sweep 4096 256
0 stamp 4096 tracing 6
0 begin tracing 5
0 finish tracing 6 first 8 0 0 2 later 8 0 0 2
0 pass 4096 tracing 6
0 return 4096 256
total steps 72
total given 1
total empty 0
total busy 0
total last 1
total still 0
total acquired 0
total exchanged 0
total pushed 0
total already 0
total taken 0
total none 0
total raised 2
total worked 7
total fetched 4
total returned 4
total plain 1
total tracing 3
total handlers 0
";
