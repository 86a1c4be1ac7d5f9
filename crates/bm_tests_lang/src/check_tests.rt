//! Tables of scripts, with the line and the number of the first broken rule, worked out by hand from the rules.

use bm_check::{CheckFault, Checked, check};
use bm_lang::{Scenario, ScriptId, limits, read_scenario};
use bm_word::read_number;
use std::alloc::Global;
use std::process::Abort;
use std::test::Fail;

// The lines before a script's body, but for the script's kind.
struct Head {
    before: &'static [u8],
    after: &'static [u8],
}

// The body begins on line 7. There are no maps.
const ITEMS: Head = Head {
    before: b"scenario {\nprocessors 1\npages 1\ndeferred off\ntype item { a }\nscript main ",
    after: b" {\n",
};

// The body begins on line 5.
const JOBS: Head = Head {
    before: b"scenario { processors 1 pages 1 deferred off\ntype job list { a }\nslot s job list q job\nscript main ",
    after: b" {\n",
};

// The body begins on line 5: types with and without a count, slots, lists and a tree.
const ALL: Head = Head {
    before: b"scenario { processors 1 pages 1 deferred off\ntype item { a } type part counted { v } type job list { a b } type task counted list { a } type node tree { k }\nslot s item slot p part list q job list r task tree t node\nscript main ",
    after: b" {\n",
};

fn text_of(alloc: Global, head: &Head, kind: &[u8], body: &[u8]) -> Result<Vec<u8>, Fail> {
    let mut text = Vec::new(alloc);
    text.extend_from_slice(head.before)?;
    text.extend_from_slice(kind)?;
    text.extend_from_slice(head.after)?;
    text.extend_from_slice(body)?;
    text.extend_from_slice(b"\n}\n}\n")?;
    Ok(text)
}

fn checked(alloc: Global, text: &[u8]) -> Result<Result<Checked, (CheckFault, Scenario)>, Fail> {
    if text.len() > 100_000 {
        return Err("a short text")?;
    }
    let scenario = read_scenario(alloc, text)?;
    match limits(&scenario) {
        None => Ok(check(alloc, scenario)),
        Some(_) => Err("a limit")?,
    }
}

// The script, the line and the number of the rule that a text breaks first.
fn answer(alloc: Global, text: &[u8]) -> Result<(usize, u32, u8), Fail> {
    match checked(alloc, text)? {
        Ok(_) => Ok((0, 0, 0)),
        Err(
            (
                CheckFault::Rejected {
                    script: ScriptId(place),
                    line,
                    rule,
                },
                _,
            ),
        ) => Ok((place, line, rule.number())),
        Err((CheckFault::NoMemory, _)) => Err("memory")?,
    }
}

// The text before a byte, and the text behind it.
fn cut(text: &[u8], at: u8) -> (&[u8], &[u8]) {
    for (place, byte) in text.iter().enumerate() {
        if *byte == at {
            return (&text[..place], &text[place + 1..]);
        }
    }
    (text, b"".as_slice())
}

// One case of a table. In the body a slash stands for a line feed.
fn expect_case(rt: &impl Abort, alloc: Global, head: &Head, case: &[u8]) -> Result<(), Fail> {
    let (kind, rest) = cut(case, b' ');
    let (line, rest) = cut(rest, b' ');
    let (rule, rest) = cut(rest, b' ');
    let mut body = Vec::new(alloc);
    for byte in rest {
        body.push(if *byte == b'/' { b'\n' } else { *byte })?;
    }
    let text = text_of(alloc, head, kind, body.as_slice())?;
    let (script, found_line, found_rule) = answer(alloc, text.as_slice())?;
    let wanted = (0usize, read_number(line), read_number(rule));
    let found = (
        script,
        Some(u64::from(found_line)),
        Some(u64::from(found_rule)),
    );
    assert!(rt; found == wanted, "{found:?} in {case:?}");
    Ok(())
}

// A table has one case on each line: a script's kind, the line and the number of its first broken rule, 0 and 0 where it
// is accepted, and its body. A line that begins with # says what the next ones are about.
fn expect(
    rt: &impl Abort,
    alloc: Global,
    head: &Head,
    table: &[u8],
    cases: u32,
) -> Result<(), Fail> {
    let mut left = table;
    let mut seen = 0u32;
    for _ in 0..1000 {
        if left.is_empty() {
            break;
        }
        let (case, rest) = cut(left, b'\n');
        left = rest;
        if !case.starts_with(b"#") {
            expect_case(rt, alloc, head, case)?;
            seen = seen.saturating_add(1);
        }
    }
    assert_eq!(rt; seen, cases);
    Ok(())
}

// One script for each rule.
const EACH_RULE_IS_BROKEN: &[u8] = b"\
plain 5 1 drop x
plain 6 2 new x job 1/drop x
plain 7 3 new x job 1/if x { lock q push_back q x unlock/drop x }
plain 6 4 new x job 1
plain 7 5 new x job 1/if x {/}
plain 7 6 repeat 2 {/new x job 1/}
plain 5 7 push_back q x
plain 6 8 lock q/lock q
plain 6 9 lock q/new x job 1
plain 6 10 lock q
handler 5 11 lock q
plain 6 12 xchg x s null/if x { acquire y x drop y drop x }
";

#[test]
fn each_rule_is_broken(rt: HostRuntime) -> Result<(), Fail> {
    expect(&rt, rt.alloc(), &JOBS, EACH_RULE_IS_BROKEN, 12)
}

// A script for each rule that keeps it.
const EACH_RULE_IS_KEPT: &[u8] = b"\
plain 0 0 new x job 1 if x { drop x } new x job 2 if x { drop x }
plain 0 0 new x job 1 if x { drop x }
plain 0 0 new x job 1 if x { lock q push_back q x get x a unlock }
plain 0 0 new x job 1 if x { xchg y s x if y { drop y } }
plain 0 0 new x job 1 new y job 2 if x { drop x } if y { drop y }
plain 0 0 repeat 2 { new x job 1 if x { drop x } }
plain 0 0 lock q pop_front x q unlock if x { drop x }
plain 0 0 lock q unlock lock q unlock
plain 0 0 new x job 1 if x { lock q push_back q x unlock }
plain 0 0 repeat 2 { lock q unlock }
handler 0 0 new x job 1 if x { drop x }
plain 0 0 xchg x s null if x { get x a drop x }
";

#[test]
fn each_rule_is_kept(rt: HostRuntime) -> Result<(), Fail> {
    expect(&rt, rt.alloc(), &JOBS, EACH_RULE_IS_KEPT, 12)
}

// Names and blocks alone.
const NAMES_IN_BLOCKS: &[u8] = b"\
plain 7 1 drop x
plain 8 2 new x item 1/drop x
plain 9 3 new x item 1/if x { drop x/drop x }
plain 8 4 new x item 1
plain 9 5 new x item 1/if x {/}
plain 9 6 repeat 2 {/new x item 1/}
plain 8 12 new x item 1/if x { if x { drop x } else { drop x } }
";

#[test]
fn names_in_blocks(rt: HostRuntime) -> Result<(), Fail> {
    expect(&rt, rt.alloc(), &ITEMS, NAMES_IN_BLOCKS, 7)
}

// Each statement, and nested blocks.
const ACCEPTED: &[u8] = b"\
plain 0 0
plain 0 0 new x item 1 if x { drop x }
plain 0 0 new x item 1 if x { get x a drop x } else { }
plain 0 0 new x part 1 if x { acquire y x drop x get y v drop y }
plain 0 0 new x item 1 if x { xchg y s x if y { drop y } }
plain 0 0 xchg y s null if y { drop y }
plain 0 0 new x item 1 if x { xchg x s x if x { drop x } }
plain 0 0 new x job 1 2 if x { lock q push_front q x get x b unlock }
plain 0 0 new x task 1 if x { lock r push_back r x unlock }
plain 0 0 lock q pop_front x q unlock if x { drop x }
plain 0 0 lock q pop_back x q unlock if x { drop x }
plain 0 0 lock q pop_back x q if x { push_front q x } unlock
plain 0 0 new x node 1 if x { lock t add t x unlock }
plain 0 0 lock t first f t remove g t f unlock if g { drop g }
plain 0 0 lock t first f t if f { get f k } else { } unlock
plain 0 0 new x job 1 2 if x { lock q push_back q x pop_front x q unlock if x { drop x } }
plain 0 0 lock t section { first f t if f { get f k } } unlock
plain 0 0 lock t first f t remove f t f unlock if f { drop f }
plain 0 0 lock t first f t if f { get f k } unlock
plain 0 0 new x node 1 if x { lock t add t x remove y t x unlock if y { drop y } }
plain 0 0 lock q unlock lock t unlock yield
sleepable 0 0 section { section { new x item 1 if x { drop x } } } yield
handler 0 0 new x part 7 if x { xchg o p x if o { drop o } }
plain 0 0 repeat 0 { } repeat 4294967295 { yield }
plain 0 0 repeat 3 { new x item 1 if x { drop x } } new x item 2 if x { drop x }
plain 0 0 repeat 2 { repeat 2 { lock q repeat 2 { } unlock } }
plain 0 0 new x item 1 new y item 2 if x { if y { drop x drop y } else { drop x } } else { if y { drop y } }
plain 0 0 new x item 1 if x { section { repeat 1 { } drop x } }
plain 0 0 new x item 1 if x { drop x new y item 1 if y { drop y } }
";

#[test]
fn accepted(rt: HostRuntime) -> Result<(), Fail> {
    expect(&rt, rt.alloc(), &ALL, ACCEPTED, 29)
}

// Two rules broken at once: which one is first at a statement.
const ORDERS_AT_A_STATEMENT: &[u8] = b"\
# handlers, locks, graphs
handler 5 11 yield
handler 5 7 unlock
handler 5 7 push_back q x
plain 5 7 unlock
plain 6 7 lock t/push_back q x
plain 6 7 new x job 1 2/pop_front x q
plain 6 8 lock q/lock t
# under a lock, before the names
plain 6 9 lock q/drop x
plain 6 9 lock q/xchg y s x
plain 6 9 lock q/xchg y s null
plain 6 9 lock q/yield
plain 7 9 new x job 1 2/lock q/new x job 1 2
# names: unbound, spent, wrong, null
plain 5 1 get x a
plain 5 1 if x { }
plain 5 1 acquire y x
plain 6 3 new x item 1/if x { drop x get x v }
plain 7 3 new x item 1/if x { drop x }/if x { }
plain 6 12 new x item 1/acquire y x
plain 6 2 new x part 1/acquire y x
plain 6 12 new x item 1/get x v
plain 6 2 new x item 1/get x a
plain 7 12 new x item 1/if x {/get x v/}
plain 7 12 new x item 1/lock q/push_back q x
plain 7 2 new x job 1 2/lock q/push_back q x
plain 6 12 new x part 1/xchg y s x
plain 6 2 new x item 1/xchg y s x
plain 7 12 new x part 1/if x {/xchg y s x/}
plain 7 12 lock t/first f t/get f a
plain 7 2 lock t/first f t/get f k
plain 7 12 lock t/first f t/add t f
plain 9 12 new x job 1 2/if x {/lock q/push_back q x/push_back q x/}
plain 7 12 new x node 1/lock t/remove y t x
plain 8 12 new x node 1/if x {/lock t/remove y t x/}
plain 8 12 lock t/first f t/if f {/if f { }/}
# the bound name comes last
plain 6 1 new x item 1/new x item 1
plain 7 1 new x part 1/if x {/acquire x x/}
plain 6 1 new x part 1/acquire x y
plain 6 12 new x item 1/acquire x x
plain 8 1 new x item 1/new y item 1/if x {/xchg y s x/}
plain 7 1 lock t/first f t/first f t
plain 7 1 new x job 1 2/lock q/pop_front x q
# what ends the references into a graph
plain 8 3 lock t/first f t/unlock/if f { }
plain 8 3 lock t/first f t/remove g t f/remove h t f
plain 10 3 new x job 1 2/if x {/lock q/push_back q x/pop_back y q/get x a/}
plain 9 3 new x task 1/if x {/lock r/push_back r x/get x a/}
";

#[test]
fn orders_at_a_statement(rt: HostRuntime) -> Result<(), Fail> {
    expect(&rt, rt.alloc(), &ALL, ORDERS_AT_A_STATEMENT, 45)
}

// Rules at the ends of blocks, against those inside and against one another.
const ORDERS_AT_THE_ENDS_OF_BLOCKS: &[u8] = b"\
# a rule inside comes before one at the end
plain 7 2 repeat 2 {/new x item 1/drop x/}
plain 8 1 new x item 1/if x {/} else {/drop z/}
plain 6 1 new x item 1/new x item 1
# locks and their blocks
plain 7 10 lock q/section {/unlock/}
plain 7 10 new x item 1/lock q/if x { unlock } else { unlock }
plain 7 10 section {/lock q/}/unlock
plain 7 10 lock q/repeat 2 {/unlock/lock q/}/unlock
plain 7 8 lock q/section {/lock q/}
plain 8 10 repeat 1 {/new x item 1/lock q/}
plain 7 10 new x item 1/lock q
plain 8 10 new x item 1/if x {/lock q/} else {/}
plain 9 10 new x item 1/if x {/} else {/lock q/}
# branches
plain 10 5 new x item 1/if x {/drop x/} else {/new y item 1/}
plain 11 5 new x item 1/if x {/new y item 1/drop x/} else {/new y part 1/}
plain 10 5 lock t/first f t/if f {/remove g t f/} else {/}/unlock
plain 11 3 new c item 1/if c {/new x item 1/if x { drop x }/drop c/}/drop x
plain 9 3 lock t/first f t/first g t/if f { if g { } }/get g k
plain 8 3 lock t/first f t/if f { }/get f k
plain 10 5 new x item 1/new y item 1/if x {/if y { drop y }/drop x/}
# repeated blocks
plain 8 6 lock t/repeat 2 {/first f t/}
plain 8 6 lock t/repeat 0 {/first f t/}
plain 9 6 lock t/first f t/repeat 1 {/remove g t f/}
plain 9 6 new x item 1/if x {/repeat 1 {/drop x/}/}
plain 9 3 repeat 1 {/new x item 1/if x { drop x }/}/drop x
# the end of a script
handler 11 5 new x part 1/if x {/acquire y x/drop x/} else {/xchg y p null/}
handler 6 4 xchg y p null
";

#[test]
fn orders_at_the_ends_of_blocks(rt: HostRuntime) -> Result<(), Fail> {
    expect(&rt, rt.alloc(), &ALL, ORDERS_AT_THE_ENDS_OF_BLOCKS, 26)
}

// Each statement with each state of the name that it uses, and of the name that it binds.
const EACH_STATE: &[u8] = b"\
# drop: unbound, spent, maybe, owned, soft, maybe soft
plain 5 1 drop x
plain 6 3 new x item 1 if x { drop x }/drop x
plain 6 2 new x item 1/drop x
plain 0 0 new x item 1 if x { drop x }
plain 6 9 lock t first x t if x {/drop x }
plain 6 9 lock t first x t/drop x
# acquire
plain 5 1 acquire y x
plain 6 3 new x part 1 if x { drop x }/acquire y x
plain 6 2 new x part 1/acquire y x
plain 0 0 new x part 1 if x { acquire y x drop x drop y }
plain 6 12 lock t first x t if x {/acquire y x }
plain 6 12 lock t first x t/acquire y x
# get
plain 5 1 get x a
plain 6 3 new x item 1 if x { drop x }/get x a
plain 6 2 new x item 1/get x a
plain 0 0 new x item 1 if x { get x a drop x }
plain 0 0 lock t first x t if x { get x k } unlock
plain 6 2 lock t first x t/get x k
# xchg
plain 5 1 xchg y s x
plain 6 3 new x item 1 if x { drop x }/xchg y s x
plain 6 2 new x item 1/xchg y s x
plain 0 0 new x item 1 if x { xchg y s x if y { drop y } }
plain 6 9 lock t first x t if x {/xchg y s x }
plain 6 9 lock t first x t/xchg y s x
# push_front; a name that may be a non-owning reference leads into a tree, whose lock is held then
plain 6 1 lock q/push_front q x
plain 6 3 new x job 1 2 if x { drop x } lock q/push_front q x
plain 6 2 new x job 1 2 lock q/push_front q x
plain 0 0 new x job 1 2 if x { lock q push_front q x unlock }
plain 6 12 new x job 1 2 if x { lock q push_front q x/push_front q x unlock }
plain 6 7 lock t first x t/push_front q x
# push_back
plain 6 1 lock q/push_back q x
plain 6 3 new x job 1 2 if x { drop x } lock q/push_back q x
plain 6 2 new x job 1 2 lock q/push_back q x
plain 0 0 new x job 1 2 if x { lock q push_back q x unlock }
plain 6 12 new x job 1 2 if x { lock q push_front q x/push_back q x unlock }
plain 6 7 lock t first x t/push_back q x
# add
plain 6 1 lock t/add t x
plain 6 3 new x node 1 if x { drop x } lock t/add t x
plain 6 2 new x node 1 lock t/add t x
plain 0 0 new x node 1 if x { lock t add t x unlock }
plain 6 12 lock t first x t if x {/add t x }
plain 6 12 lock t first x t/add t x
# remove
plain 6 1 lock t/remove y t x
plain 6 3 new x node 1 if x { drop x } lock t/remove y t x
plain 6 12 new x node 1 lock t/remove y t x
plain 6 12 new x node 1 if x { lock t/remove y t x }
plain 0 0 lock t first x t if x { remove y t x if y { add t y } } unlock
plain 0 0 lock t first x t remove y t x if y { add t y } unlock
# if
plain 5 1 if x { }
plain 6 3 new x item 1 if x { drop x }/if x { }
plain 0 0 new x item 1 if x { drop x } else { }
plain 6 12 new x item 1 if x {/if x { } }
plain 6 12 lock t first x t if x {/if x { } }
plain 0 0 lock t first x t if x { } else { } unlock
# a name that is bound
plain 0 0 new x item 1 if x { drop x } new x item 1 if x { drop x }
plain 6 1 new x item 1/new x item 1
plain 6 1 new x item 1 if x {/new x item 1 }
plain 6 9 lock t first x t/new x item 1
plain 6 1 lock t first x t if x {/first x t }
plain 0 0 new x job 1 2 if x { lock q push_back q x pop_front x q unlock if x { drop x } }
plain 6 1 new x job 1 2 lock q/pop_back x q
plain 6 1 new x job 1 2 if x { lock q/pop_back x q }
plain 0 0 lock t first x t remove x t x if x { add t x } unlock
plain 6 1 new y item 1 lock t first x t/remove y t x
plain 6 1 new y part 1 if y {/acquire y y }
plain 0 0 xchg x s null if x { xchg x s x if x { drop x } }
plain 6 1 new x item 1/xchg x s null
# what ends the references into a graph, and what doesn't
plain 6 3 new x job 1 2 if x { lock q push_back q x pop_front y q/get x a }
plain 6 3 new x job 1 2 if x { lock q push_back q x unlock/get x a }
plain 6 3 lock t first x t if x { first y t remove z t y/get x k }
plain 6 3 lock t first x t unlock lock t/if x { }
plain 0 0 new x job 1 2 new y job 1 2 if x { if y { lock q push_back q x push_front q y get x a get y b unlock } else { drop x } } else { if y { drop y } }
";

#[test]
fn each_statement_against_each_state(rt: HostRuntime) -> Result<(), Fail> {
    expect(&rt, rt.alloc(), &ALL, EACH_STATE, 72)
}

// One name with each pair of states at the ends of two branches, and at the two ends of a repeated block.
const PAIRS_OF_STATES: &[u8] = b"\
# the ends of branches: unbound, spent and maybe
plain 0 0 new c item 1 if c { drop c } else { }
plain 6 5 new c item 1 if c { drop c } else { new z item 1/}
plain 6 5 new c item 1 if c { drop c new z item 1/}
plain 6 5 new c item 1 if c { drop c new z item 1 } else { new z item 1 if z { drop z }/}
plain 6 5 new c item 1 if c { drop c new z item 1 if z { drop z } } else { new z item 1/}
plain 0 0 new c item 1 if c { drop c new z item 1 } else { new z item 1 } if z { drop z }
plain 6 5 new c item 1 if c { drop c new z item 1 } else { new z part 1/}
plain 0 0 new c item 1 if c { drop c } else { new z item 1 if z { drop z } } new z item 1 if z { drop z }
plain 0 0 new c item 1 if c { drop c new z item 1 if z { drop z } } new z item 1 if z { drop z }
# owned before
plain 0 0 new z item 1 if z { new c item 1 if c { drop c } drop z }
plain 6 5 new z item 1 if z { new c item 1 if c { drop c } else { drop z/} }
plain 6 5 new z item 1 if z { new c item 1 if c { drop c drop z/} }
plain 6 5 new z item 1 if z { new c item 1 if c { drop c } else { xchg z s z/} }
plain 6 5 new z item 1 if z { new c item 1 if c { drop c xchg z s z/} }
plain 6 5 new z node 1 if z { lock t first c t if c { } else { add t z/} }
plain 6 5 new z node 1 if z { lock t first c t if c { add t z/} }
plain 6 5 new z node 1 if z { lock t first c t if c { } else { add t z remove y t z if y { add t y } first z t/} }
plain 0 0 new z node 1 if z { lock t first c t if c { add t z } else { add t z } get z k unlock }
# non-owning before
plain 6 3 lock t first z t if z { first c t if c { } else { remove y t z if y { add t y } }/get z k } unlock
plain 6 3 lock t first z t if z { first c t if c { } else { remove y t z if y { add t y } first z t }/get z k }
plain 6 5 lock t first z t if z { first c t if c { remove z t z/} }
plain 6 5 lock t first z t if z { first c t if c { } else { remove z t z/} }
plain 6 3 lock t first z t first c t if c { } else { remove y t z if y { add t y } }/remove y t z
plain 6 3 lock t first z t first c t if c { remove y t z if y { add t y } }/if z { }
plain 0 0 lock t first z t first c t if c { } if z { } unlock
plain 6 5 lock t first z t first c t if c { remove z t z/}
plain 6 5 lock t first z t first c t if c { } else { remove z t z/}
plain 6 3 lock t first c t if c { } else { first z t }/get z k
plain 6 3 lock t first c t if c { first z t }/get z k
# repeated blocks: maybe, owned, soft, maybe soft, spent before
plain 0 0 new z item 1 repeat 1 { } if z { drop z }
plain 0 0 new z item 1 repeat 1 { if z { drop z } new z item 2 } if z { drop z }
plain 6 6 new z item 1 repeat 1 { if z { drop z }/}
plain 0 0 new z item 1 if z { repeat 3 { get z a } drop z }
plain 6 6 new z item 1 if z { repeat 1 { xchg z s z/} }
plain 6 6 new z node 1 if z { lock t repeat 1 { add t z/} }
plain 0 0 lock t first z t if z { repeat 2 { get z k } get z k } unlock
plain 6 6 lock t first z t if z { repeat 1 { remove y t z if y { add t y }/} }
plain 6 6 lock t first z t if z { repeat 1 { remove z t z/} }
plain 0 0 lock t first z t repeat 2 { } if z { } unlock
plain 6 6 lock t first z t repeat 2 { if z { }/}
plain 6 6 lock t first z t repeat 1 { remove y t z if y { add t y }/}
plain 6 6 lock t first z t repeat 1 { remove z t z/}
plain 0 0 new z item 1 if z { drop z } repeat 1 { }
plain 6 6 new z item 1 if z { drop z } repeat 1 { new z item 2/}
plain 6 6 lock t first z t remove y t z if y { add t y } repeat 1 { first z t/}
";

#[test]
fn pairs_of_states(rt: HostRuntime) -> Result<(), Fail> {
    expect(&rt, rt.alloc(), &ALL, PAIRS_OF_STATES, 45)
}

// Each statement in a handler, and two rules broken at one statement.
const HANDLERS_AND_ORDERS: &[u8] = b"\
# handlers
handler 0 0 new x item 1 if x { drop x }
handler 0 0 new x part 1 if x { acquire y x get y v drop y drop x }
handler 0 0 xchg y s null if y { xchg y s y if y { drop y } }
handler 0 0 repeat 2 { } section { }
handler 5 7 push_front q x
handler 5 7 add t x
handler 5 7 pop_front x q
handler 5 7 pop_back x q
handler 5 7 first x t
handler 5 7 remove y t x
handler 5 11 lock t
# the lock of a graph before its names
plain 6 7 lock q/add t x
plain 6 7 new x node 1 if x { drop x } lock q/add t x
plain 6 7 new x item 1 lock q/add t x
plain 6 7 new x node 1 lock q/add t x
plain 6 7 new x job 1 2 lock t/pop_back x q
plain 6 7 new x node 1 lock q/first x t
# what mustn't stand under a lock before its names
plain 6 9 new x item 1 if x { drop x } lock q/drop x
plain 6 9 new x item 1 lock q/drop x
plain 6 9 new x part 1 lock q/xchg y s x
plain 6 9 xchg y p null lock q/xchg y p null
# the name that is used before the one that is bound
plain 6 3 new x part 1 if x { drop x } new y item 1/acquire y x
plain 6 2 new x part 1/acquire x x
plain 6 12 new x node 1 new y item 1 lock t/remove y t x
plain 6 2 new x item 1 new y item 1/xchg y s x
";

#[test]
fn handlers_and_orders(rt: HostRuntime) -> Result<(), Fail> {
    expect(&rt, rt.alloc(), &ALL, HANDLERS_AND_ORDERS, 25)
}

// The first script that isn't accepted is named, and the scenario is handed back.
#[test]
fn the_first_script_is_named(rt: HostRuntime) -> Result<(), Fail> {
    let alloc = rt.alloc();
    let text =
        b"scenario { processors 1 pages 1 deferred off type part counted { v }\nscript one plain { }\nscript two handler {\n\nnew x part 1\n}\nscript three plain { drop x } }";
    let found = answer(alloc, text)?;
    assert!(rt; found == (1, 6, 4), "{found:?}");
    match checked(alloc, text)? {
        Err((CheckFault::Rejected { .. }, scenario)) => {
            assert_eq!(rt; scenario.parts().scripts.as_slice().len(), 3);
        }
        _ => Err("a rejected scenario")?,
    }
    Ok(())
}

// A checked scenario is lent and given back.
#[test]
fn a_checked_scenario_is_given_back(rt: HostRuntime) -> Result<(), Fail> {
    let alloc = rt.alloc();
    let text = text_of(alloc, &ITEMS, b"plain", b"new x item 1 if x { drop x }")?;
    match checked(alloc, text.as_slice())? {
        Ok(checked) => {
            assert_eq!(rt; checked.scenario().parts().scripts.as_slice().len(), 1);
            assert_eq!(rt; checked.into_scenario().parts().types.as_slice().len(), 1);
        }
        Err(_) => Err("an accepted scenario")?,
    }
    Ok(())
}

// Many names at once.
#[test]
fn many_names(rt: HostRuntime) -> Result<(), Fail> {
    let alloc = rt.alloc();
    let mut body = Vec::new(alloc);
    for n in 0..200u32 {
        let line = format!(in alloc; "new x{n} item 1\n")?;
        body.extend_from_slice(line.as_bytes())?;
    }
    let mut drops = Vec::new(alloc);
    for n in 0..200u32 {
        let line = format!(in alloc; "if x{n} {{ drop x{n} }}\n")?;
        drops.extend_from_slice(line.as_bytes())?;
    }
    let kept = text_of(alloc, &ITEMS, b"plain", body.as_slice())?;
    // the body's 200 lines begin on line 7, behind them an empty one, then the brace
    assert_eq!(rt; answer(alloc, kept.as_slice())?, (0, 208, 4));
    body.extend_from_slice(drops.as_slice())?;
    let dropped = text_of(alloc, &ITEMS, b"plain", body.as_slice())?;
    assert_eq!(rt; answer(alloc, dropped.as_slice())?, (0, 0, 0));
    Ok(())
}
