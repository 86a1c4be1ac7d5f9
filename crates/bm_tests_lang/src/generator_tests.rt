//! Texts of generated scenarios. The first pieces were drawn by hand, from the rule of the draws; the lengths are those of the texts of
//! tools/second_generator.py, which is written from the rules alone.

use bm_command::PieceCount;
use bm_generator::generated_text;
use std::alloc::Global;
use std::process::Abort;
use std::test::Fail;

// What stands before the first script of each.
const DECLARATIONS: &str = "scenario {
processors 4
pages 64
deferred on
type job counted list {
a b
}
type node tree {
k
}
type part counted {
v
}
slot spare part
list q job
tree t node
";

// What stands behind the scripts of the processors, up to the turns.
const PLANS: &str = "script h handler {
new x part 7
if x {
xchg o spare x
if o {
drop o
}
}
}
run 0 p0
run 1 p1
run 2 p2
run 3 p3
at 0 100 1 h
at 1 200 2 h
turns {
";

// A count of pieces and a start; how the scripts begin, how long the text is, and its turns.
const ROWS: &[(u64, u64, &str, usize, &str)] = &[
    (
        1,
        0,
        "script p0 plain {\nyield\n}\nscript p1 plain {\nnew x job 37 36\nif x {\nlock q\npush_back q x\nunlock\n}\n}\nscript p2 plain {
yield\n}\nscript p3 plain {\nyield\n}\nscript h handler {\n",
        466,
        "0 1 2 3\n}\n}\n",
    ),
    (
        2,
        11,
        "script p0 plain {\nnew x part 51\nif x {\nxchg o spare x\nif o {\ndrop o\n}\n}\nyield\n}\nscript p1 plain {\nnew x job 34 83\n",
        716,
        "0 1 2 3 0 1 2 3\n}\n}\n",
    ),
    (
        3,
        18446744073709551615,
        "script p0 plain {\nnew x part 43\nif x {\nxchg o spare x\nif o {\ndrop o\n}\n}\nlock q\npop_front x q\nunlock\nif x {\ndrop x\n}
new x node 14\nif x {\nlock t\nadd t x\nunlock\n}\n}\nscript p1 plain {\n",
        885,
        "0 1 2 3 0 1 2 3 0 1 2 3\n}\n}\n",
    ),
    (
        400,
        7,
        "script p0 plain {\nnew x node 31\nif x {\nlock t\nadd t x\nunlock\n}\nlock t\nfirst f t\nremove g t f\nunlock\nif g {\ndrop g\n}\n",
        70643,
        "0 1 2 3 0 1 2 3\n}\n}\n",
    ),
    (
        2000,
        18446744073709551615,
        "script p0 plain {\nnew x part 43\n",
        356879,
        "0 1 2 3 0 1 2 3\n}\n}\n",
    ),
];

fn is_made(
    rt: &impl Abort,
    alloc: Global,
    row: &(u64, u64, &str, usize, &str),
) -> Result<(), Fail> {
    let (number, start, scripts, length, turns) = *row;
    let count = PieceCount::new(number).expect(rt, "a count of pieces");
    let text = generated_text(alloc, count.number(), start)?;
    let front = format!(in alloc; "{DECLARATIONS}{scripts}")?;
    assert!(rt;
        text.as_slice().starts_with(front.as_bytes()),
        "{number} {start}"
    );
    assert_eq!(rt; text.len(), length, "{number} {start}");
    assert!(rt;
        text.as_slice().ends_with(turns.as_bytes()),
        "{number} {start}"
    );
    Ok(())
}

#[test]
fn texts_of_generated_scenarios(rt: HostRuntime) -> Result<(), Fail> {
    for row in ROWS {
        is_made(&rt, rt.alloc(), row)?;
    }
    Ok(())
}

// The handler and the plans stand directly before the turns, of which each piece has a round of eight bytes.
#[test]
fn plans_stand_before_the_turns(rt: HostRuntime) -> Result<(), Fail> {
    for number in [1, 2, 5, 2000] {
        let count = PieceCount::new(number).expect(&rt, "a count of pieces");
        let text = generated_text(rt.alloc(), count.number(), 0)?;
        let turns = 8 * count.number() as usize + 4;
        let front = text.len().saturating_sub(turns);
        let plans = text.as_slice().get(..front).unwrap_or(b"");
        assert!(rt; plans.ends_with(PLANS.as_bytes()), "{number}");
    }
    Ok(())
}
