//! The example sleepable_wait, as it stands in examples/.

pub(crate) const SCENARIO: &str = "scenario {
processors 1
pages 20
deferred on
type page { pad 4088 }
script hold sleepable {
  new p0 page
  new p1 page
  new p2 page
  new p3 page
  new p4 page
  new p5 page
  new p6 page
  new p7 page
  new p8 page
  if p0 { drop p0 }
  if p1 { drop p1 }
  if p2 { drop p2 }
  if p3 { drop p3 }
  if p4 { drop p4 }
  if p5 { drop p5 }
  if p6 { drop p6 }
  if p7 { drop p7 }
  if p8 { drop p8 }
}
run 0 hold
}
";

pub(crate) const JOURNAL: &str = "processors 1 pages 20
types page
maps
scripts hold
class 4096 marks 2 6 3
processor 0
0 fill 4096 0
0 script hold
0 in tracing 1
0 new page
0 enter 4096 1
0 pop 4096 0
0 count 4096 0
0 leave 4096 0
0 raise 4096
0 given 0 1
0 work 4096
0 receive 4096
0 read 4096 0
0 fetch 4096 3 256 512 768
0 enter 4096 1
0 push 4096 256
0 count 4096 1
0 leave 4096 0
0 enter 4096 1
0 push 4096 512
0 count 4096 2
0 leave 4096 0
0 enter 4096 1
0 push 4096 768
0 count 4096 3
0 leave 4096 0
0 enter 4096 1
0 taked 4096
0 leave 4096 0
0 new page
0 enter 4096 1
0 pop 4096 768
0 count 4096 2
0 leave 4096 0
0 given 768 1
0 new page
0 enter 4096 1
0 pop 4096 512
0 count 4096 1
0 leave 4096 0
0 raise 4096
0 given 512 1
0 work 4096
0 receive 4096
0 read 4096 1
0 fetch 4096 3 1024 1280 1536
0 enter 4096 1
0 push 4096 1024
0 count 4096 2
0 leave 4096 0
0 enter 4096 1
0 push 4096 1280
0 count 4096 3
0 leave 4096 0
0 enter 4096 1
0 push 4096 1536
0 count 4096 4
0 leave 4096 0
0 enter 4096 1
0 taked 4096
0 leave 4096 0
0 new page
0 enter 4096 1
0 pop 4096 1536
0 count 4096 3
0 leave 4096 0
0 given 1536 1
0 new page
0 enter 4096 1
0 pop 4096 1280
0 count 4096 2
0 leave 4096 0
0 given 1280 1
0 new page
0 enter 4096 1
0 pop 4096 1024
0 count 4096 1
0 leave 4096 0
0 raise 4096
0 given 1024 1
0 work 4096
0 receive 4096
0 read 4096 1
0 fetch 4096 3 1792 2048 2304
0 enter 4096 1
0 push 4096 1792
0 count 4096 2
0 leave 4096 0
0 enter 4096 1
0 push 4096 2048
0 count 4096 3
0 leave 4096 0
0 enter 4096 1
0 push 4096 2304
0 count 4096 4
0 leave 4096 0
0 enter 4096 1
0 taked 4096
0 leave 4096 0
0 new page
0 enter 4096 1
0 pop 4096 2304
0 count 4096 3
0 leave 4096 0
0 given 2304 1
0 new page
0 enter 4096 1
0 pop 4096 2048
0 count 4096 2
0 leave 4096 0
0 given 2048 1
0 new page
0 enter 4096 1
0 pop 4096 1792
0 count 4096 1
0 leave 4096 0
0 raise 4096
0 given 1792 1
0 work 4096
0 receive 4096
0 read 4096 1
0 fetch 4096 3 2560 2816 3072
0 enter 4096 1
0 push 4096 2560
0 count 4096 2
0 leave 4096 0
0 enter 4096 1
0 push 4096 2816
0 count 4096 3
0 leave 4096 0
0 enter 4096 1
0 push 4096 3072
0 count 4096 4
0 leave 4096 0
0 enter 4096 1
0 taked 4096
0 leave 4096 0
0 drop 0 1
0 last
0 free 0 0
0 enter 4096 1
0 push 4096 0
0 count 4096 5
0 leave 4096 0
0 drop 768 1
0 last
0 free 768 0
0 enter 4096 1
0 push 4096 768
0 count 4096 6
0 leave 4096 0
0 drop 512 1
0 last
0 free 512 0
0 enter 4096 1
0 push 4096 512
0 count 4096 7
0 leave 4096 0
0 raise 4096
0 work 4096
0 receive 4096
0 read 4096 7
0 enter 4096 1
0 pop 4096 512
0 count 4096 6
0 leave 4096 0
0 enter 4096 1
0 pop 4096 768
0 count 4096 5
0 leave 4096 0
0 enter 4096 1
0 pop 4096 0
0 count 4096 4
0 leave 4096 0
0 takex 4096
0 send 4096 0 512 768 0
0 enter 4096 1
0 taked 4096
0 leave 4096 0
0 drop 1536 1
0 last
0 free 1536 0
0 enter 4096 1
0 push 4096 1536
0 count 4096 5
0 leave 4096 0
0 drop 1280 1
0 last
0 free 1280 0
0 enter 4096 1
0 push 4096 1280
0 count 4096 6
0 leave 4096 0
0 drop 1024 1
0 last
0 free 1024 0
0 enter 4096 1
0 push 4096 1024
0 count 4096 7
0 leave 4096 0
0 raise 4096
0 work 4096
0 receive 4096 512 768 0
0 receive 4096
0 read 4096 7
0 enter 4096 1
0 pop 4096 1024
0 count 4096 6
0 leave 4096 0
0 enter 4096 1
0 pop 4096 1280
0 count 4096 5
0 leave 4096 0
0 enter 4096 1
0 pop 4096 1536
0 count 4096 4
0 leave 4096 0
0 takex 4096
0 send 4096 0 1024 1280 1536
0 enter 4096 1
0 taked 4096
0 leave 4096 0
0 begin2 4096 512 768 0
0 stamp 4096 tracing 2
0 drop 2304 1
0 last
0 free 2304 0
0 enter 4096 1
0 push 4096 2304
0 count 4096 5
0 leave 4096 0
0 drop 2048 1
0 last
0 free 2048 0
0 enter 4096 1
0 push 4096 2048
0 count 4096 6
0 leave 4096 0
0 drop 1792 1
0 last
0 free 1792 0
0 enter 4096 1
0 push 4096 1792
0 count 4096 7
0 leave 4096 0
0 raise 4096
0 work 4096
0 receive 4096 1024 1280 1536
0 receive 4096
0 read 4096 7
0 enter 4096 1
0 pop 4096 1792
0 count 4096 6
0 leave 4096 0
0 enter 4096 1
0 pop 4096 2048
0 count 4096 5
0 leave 4096 0
0 enter 4096 1
0 pop 4096 2304
0 count 4096 4
0 leave 4096 0
0 takex 4096
0 send 4096 0 1792 2048 2304
0 enter 4096 1
0 taked 4096
0 leave 4096 0
0 begin tracing 1
0 pass 4096 tracing 1
0 out tracing 2
0 done hold
0 work 4096
0 receive 4096 1792 2048 2304
0 receive 4096
0 read 4096 4
0 enter 4096 1
0 taked 4096
0 leave 4096 0
0 finish tracing 2 first 0 1 later 0 2
0 pass 4096 tracing 2
0 return 4096 512 768 0
0 begin2 4096 1792 2048 2304 1024 1280 1536
0 stamp 4096 tracing 4
0 ended
0 close
0 sweep 4096 3072 2816 2560 256 1792 2048 2304 1024 1280 1536
0 stamp 4096 tracing 4
0 begin tracing 3
0 finish tracing 4 first 0 2 later 0 2
0 pass 4096 tracing 4
0 return 4096 3072 2816 2560 256 1792 2048 2304 1024 1280 1536
total steps 227
total given 9
total empty 0
total busy 0
total last 9
total still 0
total acquired 0
total exchanged 0
total pushed 0
total already 0
total taken 0
total none 0
total raised 7
total worked 8
total fetched 13
total returned 13
total plain 0
total tracing 2
total handlers 0
";
