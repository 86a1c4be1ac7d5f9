//! The example sleepable_script, as it stands in examples/.

pub(crate) const SCENARIO: &str = "scenario {
processors 1
pages 1
deferred off
type item { a }
script nap sleepable {
  new x item 1
  yield
  section {
    section {
      if x { drop x }
    }
  }
}
script tick handler {
  new y item 9
  if y { drop y }
}
run 0 nap
at 0 2 1 tick
at 0 9 1 tick
turns { 0 0 }
}
";

pub(crate) const JOURNAL: &str = "processors 1 pages 1
types item
maps
scripts nap tick
class 16 marks 32 96 48
processor 0
0 fill 16 0 1 2 3
0 script nap
0 in tracing 1
0 new item 1
0 enter 16 1
1 handler tick
1 in plain 1
1 new item 9
1 enter 16 2
1 leave 16 1
1 raise 16
1 busy 2
1 out plain 2
1 back tick
0 pop 16 3
0 count 16 3
0 leave 16 0
0 raise 16
0 given 3 1
0 yield
0 in plain 3
0 drop 3 1
0 last
0 free 3 0
1 handler tick
1 new item 9
1 enter 16 1
1 pop 16 2
1 count 16 2
1 leave 16 0
1 raise 16
1 given 2 1
1 drop 2 1
1 last
1 free 2 0
1 enter 16 1
1 push 16 2
1 count 16 3
1 leave 16 0
1 back tick
0 enter 16 1
0 push 16 3
0 count 16 4
0 leave 16 0
0 out plain 4
0 out tracing 2
0 done nap
0 ended
0 close
0 sweep 16 3 2 1 0
0 stamp 16 tracing 2
0 begin tracing 1
0 finish tracing 2 first 4 2 later 4 2
0 pass 16 tracing 2
0 return 16 3 2 1 0
total steps 25
total given 2
total empty 0
total busy 1
total last 2
total still 0
total acquired 0
total exchanged 0
total pushed 0
total already 0
total taken 0
total none 0
total raised 3
total worked 0
total fetched 4
total returned 4
total plain 0
total tracing 1
total handlers 2
";
