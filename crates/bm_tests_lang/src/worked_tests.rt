//! Worked scenarios: each text is read, printed, and read again.

use bm_lang::*;
use std::alloc::{AllocError, Global};
use std::process::Abort;
use std::test::Fail;

// Texts with every form of the language.
const TEXTS: &[&[u8]] = &[
    b"scenario { processors 1 pages 1 deferred off type item { a } script main plain { new x item 7 if \
     x { drop x } } run 0 main }",
    b"scenario { processors 1 pages 0 deferred off type item { a } script main plain { new x item 7 if \
     x { drop x } } run 0 main }",
    b"scenario { processors 1 pages 1 deferred on type t { pad 4088 } }",
    b"scenario { processors 1 pages 0 deferred on type a { pad 88 } type b { pad 96 } type c { pad 504 \
     } type d { pad 1016 } type e { pad 2040 } }",
    b"scenario { processors 1 pages 3 deferred on type job list { a } list q job script main plain { \
     repeat 100 { new x job 1 if x { lock q push_back q x unlock } } repeat 100 { lock q pop_front y \
     q unlock if y { drop y } } } run 0 main }",
    b"scenario { processors 1 pages 1 deferred off type item { a } script main plain { new x item 7 if \
     x { drop x } } script h handler { new y item 9 if y { drop y } } run 0 main at 0 3 1 h }",
    b"scenario { processors 1 pages 2 deferred off type item { a } type wide { a b } script main plain \
     { new x item 7 if x { drop x } } script h handler { new y wide 1 2 if y { drop y } } run 0 main \
     at 0 3 1 h }",
    b"scenario { processors 1 pages 1 deferred off type item { a } slot s1 item slot s2 item script \
     main plain { new x item 1 if x { xchg o s1 x if o { drop o } } new x item 2 if x { xchg o s2 x \
     if o { drop o } } new x item 3 if x { drop x } } script h1 handler { xchg x s1 null if x { drop \
     x } } script h2 handler { xchg x s2 null if x { drop x } } run 0 main at 0 13 1 h1 at 0 15 2 h2 \
     }",
    b"scenario { processors 2 pages 1 deferred on type obj counted { a } script main plain { new x obj \
     5 if x { drop x } } script again plain { yield new y obj 6 if y { drop y } } script hold plain { \
     yield } run 0 main run 0 again run 1 hold turns { 1 0 1 0 } }",
    b"scenario { processors 2 pages 1 deferred on type obj counted { a } script main plain { new x obj \
     5 if x { drop x } } script idle plain { } script hold sleepable { yield } run 0 main run 0 idle \
     run 0 idle run 1 hold turns { 1 0 1 } }",
    b"scenario { processors 1 pages 1 deferred off type item { a } slot s item script main plain { \
     xchg a s null if a { drop a } xchg b s null if b { drop b } new x item 1 if x { xchg c s x if c \
     { drop c } } new y item 2 if y { xchg d s y if d { drop d } } } run 0 main }",
    b"scenario { processors 2 pages 1 deferred off type job counted list { a } slot s job list q job \
     list r job script main plain { new x job 9 if x { acquire y x xchg o s y if o { drop o } yield \
     lock q push_back q x unlock } } script other plain { xchg z s null if z { lock r push_back r z \
     unlock } } run 0 main run 1 other turns { 0 1 0 } }",
    b"scenario { processors 1 pages 1 deferred off type node tree { k } tree t node script main plain \
     { new a node 5 if a { get a k new b node 5 if b { new c node 3 if c { lock t add t a add t b add \
     t c first f t remove g t f unlock if g { drop g } } else { drop b drop a } } else { drop a } } } \
     run 0 main }",
    b"scenario { processors 1 pages 1 deferred off type job list { a } slot s job list q job script \
     main plain { drop x } run 0 main }",
    b"scenario { processors 1 pages 1 deferred off type job list { a } slot s job list q job script \
     main plain { new x job 1 drop x } run 0 main }",
    b"scenario { processors 1 pages 1 deferred off type job list { a } slot s job list q job script \
     main plain { new x job 1 if x { lock q push_back q x unlock drop x } } run 0 main }",
    b"scenario { processors 1 pages 1 deferred off type job list { a } slot s job list q job script \
     main plain { new x job 1 } run 0 main }",
    b"scenario { processors 1 pages 1 deferred off type job list { a } slot s job list q job script \
     main plain { new x job 1 if x { } } run 0 main }",
    b"scenario { processors 1 pages 1 deferred off type job list { a } slot s job list q job script \
     main plain { repeat 2 { new x job 1 } } run 0 main }",
    b"scenario { processors 1 pages 1 deferred off type job list { a } slot s job list q job script \
     main plain { push_back q x } run 0 main }",
    b"scenario { processors 1 pages 1 deferred off type job list { a } slot s job list q job script \
     main plain { lock q lock q } run 0 main }",
    b"scenario { processors 1 pages 1 deferred off type job list { a } slot s job list q job script \
     main plain { lock q new x job 1 } run 0 main }",
    b"scenario { processors 1 pages 1 deferred off type job list { a } slot s job list q job script \
     main plain { lock q } run 0 main }",
    b"scenario { processors 1 pages 1 deferred off type job list { a } slot s job list q job script \
     main handler { lock q } at 0 1 1 main }",
    b"scenario { processors 1 pages 1 deferred off type job list { a } slot s job list q job script \
     main plain { xchg x s null if x { acquire y x drop y drop x } } run 0 main }",
    b"scenario { processors 1 pages 257 deferred off type item { a } script main plain { new x item 7 \
     if x { drop x } } run 0 main }",
    b"scenario { processors 1 pages 1 deferred off type item { a } script main plain { repeat 19990 { \
     } } run 0 main }",
    b"scenario { processors 1 pages 1 deferred off type item { a } script main plain { repeat 19989 { \
     } } run 0 main }",
    b"scenario { processors 1 pages 1 deferred off type item { a } script main plain { if x { if x { \
     if x { if x { if x { if x { if x { if x { if x { if x { if x { if x { if x { if x { if x { } } } \
     } } } } } } } } } } } } } run 0 main }",
    b"scenario { processors 1 pages 1 deferred off type item { a } script main plain { new x item 7 if \
     x { drop x } } script h handler { new y item 9 if y { drop y } } run 0 main at 0 1 1 h }",
    b"scenario { processors 1 pages 1 deferred off type item { a } script main plain { new x item 7 if \
     x { drop x } } script h handler { new y item 9 if y { drop y } } run 0 main at 0 2 1 h }",
    b"scenario { processors 1 pages 1 deferred off type item { a } script main plain { new x item 7 if \
     x { drop x } } script h handler { new y item 9 if y { drop y } } run 0 main at 0 4 1 h }",
    b"scenario { processors 1 pages 1 deferred off type item { a } script main plain { new x item 7 if \
     x { drop x } } script h handler { new y item 9 if y { drop y } } run 0 main at 0 5 1 h }",
    b"scenario { processors 1 pages 1 deferred off type item { a } script main plain { new x item 7 if \
     x { drop x } } script h handler { new y item 9 if y { drop y } } run 0 main at 0 6 1 h }",
    b"scenario { processors 1 pages 1 deferred off type item { a } script main plain { new x item 7 if \
     x { drop x } } script h handler { new y item 9 if y { drop y } } run 0 main at 0 7 1 h }",
    b"scenario { processors 1 pages 1 deferred off type item { a } script main plain { new x item 7 if \
     x { drop x } } script h handler { new y item 9 if y { drop y } } run 0 main at 0 8 1 h }",
    b"scenario { processors 1 pages 1 deferred off type item { a } script main plain { new x item 7 if \
     x { drop x } } script h handler { new y item 9 if y { drop y } } run 0 main at 0 9 1 h }",
    b"scenario { processors 1 pages 1 deferred off type item { a } script main plain { new x item 7 if \
     x { drop x } } script h handler { new y item 9 if y { drop y } } run 0 main at 0 10 1 h }",
    b"scenario { processors 1 pages 1 deferred off type item { a } script main plain { new x item 7 if \
     x { drop x } } script h handler { new y item 9 if y { drop y } } run 0 main at 0 11 1 h }",
    b"scenario { processors 1 pages 1 deferred off type item { a } script main plain { new x item 7 if \
     x { drop x } } script h handler { new y item 9 if y { drop y } } run 0 main at 0 12 1 h }",
    b"scenario { processors 1 pages 0 deferred on type big { pad 4088 } script main plain { new a big \
     new b big new c big new d big if a { drop a } if b { drop b } if c { drop c } if d { drop d } } \
     run 0 main }",
    b"scenario { processors 1 pages 1 deferred on type big { pad 4088 } script main plain { new a big \
     new b big new c big new d big if a { drop a } if b { drop b } if c { drop c } if d { drop d } } \
     run 0 main }",
    b"scenario { processors 1 pages 2 deferred on type big { pad 4088 } script main plain { new a big \
     new b big new c big new d big if a { drop a } if b { drop b } if c { drop c } if d { drop d } } \
     run 0 main }",
    b"scenario { processors 1 pages 3 deferred on type big { pad 4088 } script main plain { new a big \
     new b big new c big new d big if a { drop a } if b { drop b } if c { drop c } if d { drop d } } \
     run 0 main }",
    b"scenario { processors 1 pages 1 deferred off type item { a } script main plain { drop x } run 0 \
     main }",
    b"scenario { processors 1 pages 1 deferred off type item { a } script main plain { new x item 1 \
     drop x } run 0 main }",
    b"scenario { processors 1 pages 1 deferred off type item { a } script main plain { new x item 1 if \
     x { drop x drop x } } run 0 main }",
    b"scenario { processors 1 pages 1 deferred off type item { a } script main plain { new x item 1 } \
     run 0 main }",
    b"scenario { processors 1 pages 1 deferred off type item { a } script main plain { new x item 1 if \
     x { } } run 0 main }",
    b"scenario { processors 1 pages 1 deferred off type item { a } script main plain { repeat 2 { new \
     x item 1 } } run 0 main }",
    b"scenario { processors 1 pages 1 deferred off type item { a } script main plain { new x item 1 if \
     x { if x { drop x } else { drop x } } } run 0 main }",
    b"scenario { processors 1 pages 1 deferred on type item { a } script main plain { new x1 item 1 \
     new x2 item 1 new x3 item 1 new x4 item 1 new x5 item 1 new x6 item 1 new x7 item 1 new x8 item \
     1 new x9 item 1 new x10 item 1 new x11 item 1 new x12 item 1 new x13 item 1 new x14 item 1 new \
     x15 item 1 new x16 item 1 new x17 item 1 new x18 item 1 new x19 item 1 new x20 item 1 new x21 \
     item 1 new x22 item 1 new x23 item 1 new x24 item 1 new x25 item 1 new x26 item 1 new x27 item 1 \
     new x28 item 1 new x29 item 1 new x30 item 1 new x31 item 1 new x32 item 1 new x33 item 1 new \
     x34 item 1 new x35 item 1 new x36 item 1 new x37 item 1 new x38 item 1 new x39 item 1 new x40 \
     item 1 if x1 { drop x1 } if x2 { drop x2 } if x3 { drop x3 } if x4 { drop x4 } if x5 { drop x5 } \
     if x6 { drop x6 } if x7 { drop x7 } if x8 { drop x8 } if x9 { drop x9 } if x10 { drop x10 } if \
     x11 { drop x11 } if x12 { drop x12 } if x13 { drop x13 } if x14 { drop x14 } if x15 { drop x15 } \
     if x16 { drop x16 } if x17 { drop x17 } if x18 { drop x18 } if x19 { drop x19 } if x20 { drop \
     x20 } if x21 { drop x21 } if x22 { drop x22 } if x23 { drop x23 } if x24 { drop x24 } if x25 { \
     drop x25 } if x26 { drop x26 } if x27 { drop x27 } if x28 { drop x28 } if x29 { drop x29 } if \
     x30 { drop x30 } if x31 { drop x31 } if x32 { drop x32 } if x33 { drop x33 } if x34 { drop x34 } \
     if x35 { drop x35 } if x36 { drop x36 } if x37 { drop x37 } if x38 { drop x38 } if x39 { drop \
     x39 } if x40 { drop x40 } } run 0 main }",
    b"scenario { processors 1 pages 1 deferred off type item counted { a } script main plain { new x \
     item 7 if x { get x a acquire y x drop x drop y } } run 0 main }",
    b"scenario { processors 4 pages 64 deferred on type job counted list { a b } type node tree { k } \
     type part counted { v } slot spare part list q job tree t node script p0 plain { yield } script \
     p1 plain { new x job 37 36 if x { lock q push_back q x unlock } } script p2 plain { yield } \
     script p3 plain { yield } script h handler { new x part 7 if x { xchg o spare x if o { drop o } \
     } } run 0 p0 run 1 p1 run 2 p2 run 3 p3 at 0 100 1 h at 1 200 2 h turns { 0 1 2 3 } }",
];

// A text with every form of the grammar, and how it is printed.
const EVERY: &str =
    "scenario{processors 2 pages 4 deferred on type job counted list{a b}type node tree{k pad 16} \
     type part{v}slot spare part list q job tree t node script h handler{new y part 1 if y{drop y}} \
     script s sleepable{}script m plain{new x job 4294967295 0 if x{drop x}else{}acquire y x get x a \
     xchg y spare x xchg y spare null repeat 0{}section{if z{yield}}lock q push_front q x push_back q x \
     pop_front x q pop_back x q unlock lock t add t x first f t remove y t f unlock yield new z node 3} \
     run 0 m run 1 s at 0 3 1 h at 1 4294967295 3 h turns{0 1 0}}";

const PRINTED: &str = "\
scenario {
processors 2
pages 4
deferred on
type job counted list {
a b
}
type node tree {
k pad 16
}
type part {
v
}
slot spare part
list q job
tree t node
script h handler {
new y part 1
if y {
drop y
}
}
script s sleepable {
}
script m plain {
new x job 4294967295 0
if x {
drop x
}
else {
}
acquire y x
get x a
xchg y spare x
xchg y spare null
repeat 0 {
}
section {
if z {
yield
}
}
lock q
push_front q x
push_back q x
pop_front x q
pop_back x q
unlock
lock t
add t x
first f t
remove y t f
unlock
yield
new z node 3
}
run 0 m
run 1 s
at 0 3 1 h
at 1 4294967295 3 h
turns {
0 1 0
}
}
";

// What a text is printed as, once it is read.
fn printed(alloc: Global, text: &[u8]) -> Result<Vec<u8>, Fail> {
    if text.len() > 2_000_000 {
        return Err(Fail::from("a long text"));
    }
    let scenario = read_scenario(alloc, text)?;
    Ok(print_scenario(alloc, &scenario)?)
}

#[test]
fn every_form_is_printed_and_read_again(rt: HostRuntime) -> Result<(), Fail> {
    let text = printed(rt.alloc(), EVERY.as_bytes())?;
    assert!(rt; text.as_slice() == PRINTED.as_bytes());
    let again = printed(rt.alloc(), &text)?;
    assert!(rt; again == text);
    Ok(())
}

// Lists without items have no line.
#[test]
fn what_is_empty_is_printed(rt: HostRuntime) -> Result<(), Fail> {
    let text = b"scenario { processors 1 pages 0 deferred off type x counted { } turns { } }";
    let printed = printed(rt.alloc(), text)?;
    let expected =
        b"scenario {\nprocessors 1\npages 0\ndeferred off\ntype x counted {\n}\nturns {\n}\n}\n";
    assert!(rt; printed.as_slice() == expected.as_slice());
    Ok(())
}

fn are_printed_and_read_again(rt: &impl Abort, alloc: Global, texts: &[&[u8]]) -> Result<(), Fail> {
    for text in texts {
        let once = printed(alloc, text)?;
        let twice = printed(alloc, &once)?;
        assert!(rt; once == twice, "{text:?}");
    }
    Ok(())
}

#[test]
fn worked_scenarios_are_printed_and_read_again(rt: HostRuntime) -> Result<(), Fail> {
    assert_eq!(rt; TEXTS.len(), 54);
    are_printed_and_read_again(&rt, rt.alloc(), TEXTS)
}

// A piece of a generated script: its text, with so many numbers below a bound between its two halves.
struct Piece {
    before: &'static str,
    numbers: u32,
    below: u64,
    after: &'static str,
}

// The six pieces that a generated script is made of.
const PIECES: [Piece; 6] = [
    Piece {
        before: "new x job",
        numbers: 2,
        below: 100,
        after: "\nif x {\nlock q\npush_back q x\nunlock\n}\n",
    },
    Piece {
        before: "lock q\npop_front x q\nunlock\nif x {\ndrop x\n}\n",
        numbers: 0,
        below: 1,
        after: "",
    },
    Piece {
        before: "new x node",
        numbers: 1,
        below: 50,
        after: "\nif x {\nlock t\nadd t x\nunlock\n}\n",
    },
    Piece {
        before: "lock t\nfirst f t\nremove g t f\nunlock\nif g {\ndrop g\n}\n",
        numbers: 0,
        below: 1,
        after: "",
    },
    Piece {
        before: "new x part",
        numbers: 1,
        below: 100,
        after: "\nif x {\nxchg o spare x\nif o {\ndrop o\n}\n}\n",
    },
    Piece {
        before: "yield\n",
        numbers: 0,
        below: 1,
        after: "",
    },
];

// What stands before the scripts of a generated scenario.
const FRONT: &str = "\
scenario {
processors 4
pages 64
deferred on
type job counted list {
a b
}
type node tree {
k
}
type part counted {
v
}
slot spare part
list q job
tree t node
";

// What stands behind the scripts, up to the first four turns.
const BACK: &str = "\
script h handler {
new x part 7
if x {
xchg o spare x
if o {
drop o
}
}
}
run 0 p0
run 1 p1
run 2 p2
run 3 p3
at 0 100 1 h
at 1 200 2 h
turns {
0 1 2 3";

// The next number below a bound, drawn from a state.
fn draw(state: &mut u64, below: u64) -> u64 {
    *state = state
        .wrapping_mul(6_364_136_223_846_793_005)
        .wrapping_add(1_442_695_040_888_963_407);
    (*state >> 33).checked_rem(below).unwrap_or(0)
}

// A piece with its numbers drawn.
fn put_piece(
    alloc: Global,
    text: &mut String,
    state: &mut u64,
    piece: &Piece,
) -> Result<(), AllocError> {
    text.push_str(piece.before)?;
    for _ in 0..piece.numbers {
        let number = draw(state, piece.below);
        let word = format!(in alloc; " {number}")?;
        text.push_str(word.as_str())?;
    }
    text.push_str(piece.after)?;
    Ok(())
}

// A script of 400 pieces, each drawn from the six.
fn put_pieces(alloc: Global, text: &mut String, state: &mut u64) -> Result<(), AllocError> {
    for _ in 0..400 {
        if let Some(piece) = PIECES.get(draw(state, 6) as usize) {
            put_piece(alloc, text, state, piece)?;
        }
    }
    text.push_str("}\n")?;
    Ok(())
}

// A scenario with a script of drawn pieces for each of four processors, in the layout of what is printed.
fn generated(alloc: Global) -> Result<String, AllocError> {
    let mut text = String::from_str(alloc, FRONT)?;
    let mut state = 7;
    for processor in 0..4u32 {
        let line = format!(in alloc; "script p{processor} plain {{\n")?;
        text.push_str(line.as_str())?;
        put_pieces(alloc, &mut text, &mut state)?;
    }
    text.push_str(BACK)?;
    for _ in 1..400 {
        text.push_str(" 0 1 2 3")?;
    }
    text.push_str("\n}\n}\n")?;
    Ok(text)
}

// The checksum of a text by FNV-1a, in 64 bits.
fn checksum(text: &[u8]) -> u64 {
    let mut sum: u64 = 14_695_981_039_346_656_037;
    for byte in text {
        sum = (sum ^ *byte as u64).wrapping_mul(1_099_511_628_211);
    }
    sum
}

// The length and the checksum of the generated scenario were computed outside, from a text that was made elsewhere.
#[test]
fn a_generated_scenario_is_printed_and_read_again(rt: HostRuntime) -> Result<(), Fail> {
    let text = generated(rt.alloc())?;
    assert_eq!(rt; text.len(), 70_643);
    assert_eq!(rt; checksum(text.as_bytes()), 15_285_005_330_595_055_371);
    let once = printed(rt.alloc(), text.as_bytes())?;
    assert!(rt; once.as_slice() == text.as_bytes());
    let twice = printed(rt.alloc(), &once)?;
    assert!(rt; twice == once);
    Ok(())
}
