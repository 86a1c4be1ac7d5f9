//! The example frees_within_frees, as it stands in examples/.

pub(crate) const SCENARIO: &str = "scenario {
processors 1
pages 1
deferred off
type item { a }
slot one item
slot two item
script main plain {
new x item 1
if x {
xchg old one x
if old { drop old }
}
new x item 2
if x {
xchg old two x
if old { drop old }
}
new x item 3
if x { drop x }
}
script lower handler {
xchg x one null
if x { drop x }
}
script higher handler {
xchg x two null
if x { drop x }
}
run 0 main
at 0 13 1 lower
at 0 15 2 higher
}
";

pub(crate) const JOURNAL: &str = "processors 1 pages 1
types item
maps one two
scripts main lower higher
class 16 marks 32 96 48
processor 0
0 fill 16 0 1 2 3
0 script main
0 in plain 1
0 new item 1
0 enter 16 1
0 pop 16 3
0 count 16 3
0 leave 16 0
0 raise 16
0 given 3 1
0 xchg one put 3 1 was none by start
0 new item 2
0 enter 16 1
0 pop 16 2
0 count 16 2
0 leave 16 0
0 raise 16
0 given 2 1
0 xchg two put 2 1 was none by start
0 new item 3
0 enter 16 1
0 pop 16 1
1 handler lower
1 xchg one put none was 3 1 by 0 2
1 drop 3 1
1 last
1 free 3 0
1 enter 16 2
1 look 16 0
2 handler higher
2 xchg two put none was 2 1 by 0 4
2 drop 2 1
2 last
2 free 2 0
2 enter 16 3
2 look 16 0
2 put 16 2
2 leave 16 2
2 back higher
1 lost 16
1 look 16 1
1 put 16 3
1 leave 16 1
1 back lower
0 count 16 1
0 leave 16 0
0 raise 16
0 given 1 1
0 drop 1 1
0 last
0 free 1 0
0 enter 16 1
0 push 16 1
0 count 16 2
0 leave 16 0
0 out plain 2
0 done main
0 ended
0 close
0 xchg one put none was none by 0 6
0 xchg two put none was none by 0 8
0 sweep 16 1 0 3 2
0 stamp 16 tracing 2
0 begin tracing 1
0 finish tracing 2 first 2 0 later 2 0
0 pass 16 tracing 2
0 return 16 1 0 3 2
total steps 33
total given 3
total empty 0
total busy 0
total last 3
total still 0
total acquired 0
total exchanged 6
total pushed 0
total already 0
total taken 0
total none 0
total raised 3
total worked 0
total fetched 4
total returned 4
total plain 0
total tracing 1
total handlers 2
";
