//! Openings of two classes, for a scenario without types, maps and scripts: of three processors over a stock of two pages.

ghost use Rattle.std.specs.Prelude.{◌≡◌, ◌∷◌, []};

use bm_class::Class;
use bm_exec::Types;
use bm_exec_levels::Program;
use bm_journal::Recorder;
use bm_lang::{limits, read_scenario};
use bm_run::open_all;
use std::process::Abort;
use std::test::Fail;

const THREE: &[u8] = b"scenario { processors 3 pages 2 deferred off }";

/// How many units of 16 and of 4096 bytes each of the three has.
const FILLED: &[(u64, u64)] = &[(4, 1), (4, 0), (4, 0)];

/// The classes of 16 bytes and of 4096.
fn two_classes(rt: &impl Abort) -> [Class; 2]
    ensures { result ≡ 0 ∷ 10 ∷ [] }
{
    let least = Class::new(0).expect(rt, "the class of 16 bytes");
    let greatest = Class::new(10).expect(rt, "the class of 4096 bytes");
    [least, greatest]
}

/// The first processor takes units of the first page for the least class, and the second page for the greatest; each of the others
/// takes the next units of the first page, and finds no page for the greatest. What each log tells is counted here, entry by entry. No
/// work was asked for, no handler is planned, and there is a table for each of three.
#[test]
#[tactic(auto, using(bm_run::proofs::Started::idle_program, bm_run::proofs::Started::idle_maps))]
fn each_processor_takes_what_those_before_left(rt: HostRuntime) -> Result<(), Fail> {
    let classes = two_classes(&rt);
    let scenario = read_scenario(rt.alloc(), THREE)?;
    let parts = scenario.parts();
    if limits(&scenario).is_some() {
        return Err(Fail::from("a scenario within the limits"));
    }
    if parts.types.as_slice().len() != 0 {
        return Err(Fail::from("a scenario without types"));
    }
    if parts.maps.as_slice().len() != 0 {
        return Err(Fail::from("a scenario without maps"));
    }
    if parts.scripts.as_slice().len() != 0 {
        return Err(Fail::from("a scenario without scripts"));
    }
    let program = Program {
        scenario: parts,
        types: Types {
            declared: parts.types.as_slice(),
            classes: &[],
            maps: parts.maps.as_slice(),
        },
    };
    let (kept, world) = open_all(rt.alloc(), &scenario, &program, &classes)?;
    world.give_up();
    assert_eq!(rt; kept.len(), FILLED.len());
    let mut kept = kept;
    let mut filled = FILLED.iter().rev();
    while let Some(last) = kept.pop() {
        let (least, greatest) = filled.next().expect(&rt, "a processor more than three");
        assert!(rt; !last.caches.recorder().failed());
        let told = last.caches.recorder().counts();
        assert_eq!(rt; told.lengths(classes[0]).free, *least);
        assert_eq!(rt; told.lengths(classes[1]).free, *greatest);
        assert_eq!(rt; last.settled, 0);
        assert!(rt; !last.inside);
        assert_eq!(rt; last.running.len(), 0);
        assert_eq!(rt; last.tables.len(), 3);
        last.give_up();
    }
    kept.destroy_empty();
    Ok(())
}
