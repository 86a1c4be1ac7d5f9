//! A page that goes from one class to another. Its counts are worked out by hand from the rules; the whole journal is that of the
//! second simulator in tools/ too.

use crate::calls::give_their_journals;
use std::test::Fail;

// Of eight pages the class of 2048 bytes begins with the first, and that of 4096 bytes, whose unit is a page, takes the other seven
// by its opening and two refills of three. Four objects are made and given up: 7 units on Free are more than the high mark of 6, so
// that a drain sends three of them away, and 4 are left. The work after `taken` receives them and begins the tracing batch; that
// after `idle` finds its period over and returns the pages 3, 4 and 7. Before, the class of 2048 bytes asked for 6 units in vain;
// in `again` it asks for 6 again, and gets the two units of each of these three pages.
const TAKEN_AGAIN: &str = "scenario {
processors 1
pages 8
deferred on
type wide { pad 2040 }
type block { pad 4088 }
script taken plain {
new a block
new b block
new c block
new d block
if a { drop a }
if b { drop b }
if c { drop c }
if d { drop d }
}
script idle plain { }
script again plain {
new y wide
if y { drop y }
}
run 0 taken
run 0 idle
run 0 again
}
";

const TAKEN_AGAIN_JOURNAL: &str = "processors 1 pages 8
types wide block
maps
scripts taken idle again
class 2048 marks 4 12 6
class 4096 marks 2 6 3
processor 0
0 fill 2048 0
0 fill 4096 256
0 script taken
0 in plain 1
0 new block
0 enter 4096 1
0 pop 4096 256
0 count 4096 0
0 leave 4096 0
0 raise 4096
0 given 256 1
0 work 4096
0 receive 4096
0 read 4096 0
0 fetch 4096 3 512 768 1024
0 enter 4096 1
0 push 4096 512
0 count 4096 1
0 leave 4096 0
0 enter 4096 1
0 push 4096 768
0 count 4096 2
0 leave 4096 0
0 enter 4096 1
0 push 4096 1024
0 count 4096 3
0 leave 4096 0
0 enter 4096 1
0 taked 4096
0 leave 4096 0
0 new block
0 enter 4096 1
0 pop 4096 1024
0 count 4096 2
0 leave 4096 0
0 given 1024 1
0 new block
0 enter 4096 1
0 pop 4096 768
0 count 4096 1
0 leave 4096 0
0 raise 4096
0 given 768 1
0 work 4096
0 receive 4096
0 read 4096 1
0 fetch 4096 3 1280 1536 1792
0 enter 4096 1
0 push 4096 1280
0 count 4096 2
0 leave 4096 0
0 enter 4096 1
0 push 4096 1536
0 count 4096 3
0 leave 4096 0
0 enter 4096 1
0 push 4096 1792
0 count 4096 4
0 leave 4096 0
0 enter 4096 1
0 taked 4096
0 leave 4096 0
0 new block
0 enter 4096 1
0 pop 4096 1792
0 count 4096 3
0 leave 4096 0
0 given 1792 1
0 drop 256 1
0 last
0 free 256 0
0 enter 4096 1
0 push 4096 256
0 count 4096 4
0 leave 4096 0
0 drop 1024 1
0 last
0 free 1024 0
0 enter 4096 1
0 push 4096 1024
0 count 4096 5
0 leave 4096 0
0 drop 768 1
0 last
0 free 768 0
0 enter 4096 1
0 push 4096 768
0 count 4096 6
0 leave 4096 0
0 drop 1792 1
0 last
0 free 1792 0
0 enter 4096 1
0 push 4096 1792
0 count 4096 7
0 leave 4096 0
0 raise 4096
0 work 4096
0 receive 4096
0 read 4096 7
0 enter 4096 1
0 pop 4096 1792
0 count 4096 6
0 leave 4096 0
0 enter 4096 1
0 pop 4096 768
0 count 4096 5
0 leave 4096 0
0 enter 4096 1
0 pop 4096 1024
0 count 4096 4
0 leave 4096 0
0 takex 4096
0 send 4096 0 1792 768 1024
0 enter 4096 1
0 taked 4096
0 leave 4096 0
0 out plain 2
0 done taken
0 work 2048
0 receive 2048
0 read 2048 1
0 fetch 2048 6 1
0 enter 2048 1
0 push 2048 1
0 count 2048 2
0 leave 2048 0
0 enter 2048 1
0 taked 2048
0 leave 2048 0
0 work 4096
0 receive 4096 1792 768 1024
0 receive 4096
0 read 4096 4
0 enter 4096 1
0 taked 4096
0 leave 4096 0
0 begin2 4096 1792 768 1024
0 stamp 4096 tracing 2
0 script idle
0 in plain 3
0 out plain 4
0 done idle
0 work 2048
0 receive 2048
0 read 2048 2
0 fetch 2048 6
0 enter 2048 1
0 taked 2048
0 leave 2048 0
0 work 4096
0 receive 4096
0 read 4096 4
0 enter 4096 1
0 taked 4096
0 leave 4096 0
0 begin tracing 1
0 finish tracing 2 first 4 0 later 4 0
0 pass 4096 tracing 2
0 return 4096 1792 768 1024
0 script again
0 in plain 5
0 new wide
0 enter 2048 1
0 pop 2048 1
0 count 2048 1
0 leave 2048 0
0 raise 2048
0 given 1 1
0 work 2048
0 receive 2048
0 read 2048 1
0 fetch 2048 6 768 769 1024 1025 1792 1793
0 enter 2048 1
0 push 2048 768
0 count 2048 2
0 leave 2048 0
0 enter 2048 1
0 push 2048 769
0 count 2048 3
0 leave 2048 0
0 enter 2048 1
0 push 2048 1024
0 count 2048 4
0 leave 2048 0
0 enter 2048 1
0 push 2048 1025
0 count 2048 5
0 leave 2048 0
0 enter 2048 1
0 push 2048 1792
0 count 2048 6
0 leave 2048 0
0 enter 2048 1
0 push 2048 1793
0 count 2048 7
0 leave 2048 0
0 enter 2048 1
0 taked 2048
0 leave 2048 0
0 drop 1 1
0 last
0 free 1 0
0 enter 2048 1
0 push 2048 1
0 count 2048 8
0 leave 2048 0
0 out plain 6
0 done again
0 work 2048
0 receive 2048
0 read 2048 8
0 enter 2048 1
0 taked 2048
0 leave 2048 0
0 work 4096
0 receive 4096
0 read 4096 4
0 enter 4096 1
0 taked 4096
0 leave 4096 0
0 ended
0 close
0 sweep 2048 1 1793 1792 1025 1024 769 768 0
0 stamp 2048 tracing 4
0 begin tracing 3
0 finish tracing 4 first 6 0 later 6 0
0 pass 2048 tracing 4
0 return 2048 1 1793 1792 1025 1024 769 768 0
0 sweep 4096 256 1536 1280 512
0 stamp 4096 tracing 6
0 begin tracing 5
0 finish tracing 6 first 6 0 later 6 0
0 pass 4096 tracing 6
0 return 4096 256 1536 1280 512
total steps 178
total given 5
total empty 0
total busy 0
total last 5
total still 0
total acquired 0
total exchanged 0
total pushed 0
total already 0
total taken 0
total none 0
total raised 4
total worked 10
total fetched 15
total returned 15
total plain 0
total tracing 3
total handlers 0
";

#[test]
fn returned_pages_serve_another_class(rt: HostRuntime) -> Result<(), Fail> {
    give_their_journals(&rt, rt.alloc(), &[(TAKEN_AGAIN, TAKEN_AGAIN_JOURNAL)])
}
