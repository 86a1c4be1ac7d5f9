//! The example tree_with_equal_keys, as it stands in examples/.

pub(crate) const SCENARIO: &str = "scenario {
processors 1
pages 1
deferred off
type node tree { k v }
tree t node
script main plain {
new a node 5 1
if a {
lock t
add t a
unlock
}
new b node 5 2
if b {
lock t
add t b
unlock
}
new c node 3 3
if c {
lock t
add t c
get c k
first f t
remove g t f
unlock
if g {
get g v
drop g
}
}
lock t
first f t
if f { get f v }
unlock
}
run 0 main
}
";

pub(crate) const JOURNAL: &str = "processors 1 pages 1
types node
maps t
scripts main
class 64 marks 32 96 48
processor 0
0 fill 64 0 1 2 3
0 script main
0 in plain 1
0 new node 5 1
0 enter 64 1
0 pop 64 3
0 count 64 3
0 leave 64 0
0 raise 64
0 given 3 1
0 lock t
0 add t 3 1 at 0
0 unlock t
0 new node 5 2
0 enter 64 1
0 pop 64 2
0 count 64 2
0 leave 64 0
0 raise 64
0 given 2 1
0 lock t
0 add t 2 1 at 1
0 unlock t
0 new node 3 3
0 enter 64 1
0 pop 64 1
0 count 64 1
0 leave 64 0
0 raise 64
0 given 1 1
0 lock t
0 add t 1 1 at 2
0 get 1 1 0 3
0 first t 1 1 at 3
0 remove t 1 1 at 4
0 unlock t
0 get 1 1 1 3
0 drop 1 1
0 last
0 free 1 0
0 enter 64 1
0 push 64 1
0 count 64 2
0 leave 64 0
0 lock t
0 first t 3 1 at 5
0 get 3 1 1 1
0 unlock t
0 out plain 2
0 done main
0 ended
0 close
0 first t 3 1 at 6
0 remove t 3 1 at 7
0 drop 3 1
0 last
0 free 3 0
0 enter 64 1
0 push 64 3
0 count 64 3
0 leave 64 0
0 first t 2 1 at 8
0 remove t 2 1 at 9
0 drop 2 1
0 last
0 free 2 0
0 enter 64 1
0 push 64 2
0 count 64 4
0 leave 64 0
0 first t none at 10
0 sweep 64 2 3 1 0
0 stamp 64 tracing 2
0 begin tracing 1
0 finish tracing 2 first 2 0 later 2 0
0 pass 64 tracing 2
0 return 64 2 3 1 0
graph t
at 0 by 0 2 add 3 1 5
at 1 by 0 4 add 2 1 5
at 2 by 0 6 add 1 1 3
at 3 by 0 8 first 1 1
at 4 by 0 9 remove 1 1
at 5 by 0 12 first 3 1
at 6 by 0 14 first 3 1
at 7 by 0 15 remove 3 1
at 8 by 0 17 first 2 1
at 9 by 0 18 remove 2 1
at 10 by 0 20 first none
total steps 31
total given 3
total empty 0
total busy 0
total last 3
total still 0
total acquired 0
total exchanged 0
total pushed 3
total already 0
total taken 3
total none 1
total raised 3
total worked 0
total fetched 4
total returned 4
total plain 0
total tracing 1
total handlers 0
";
