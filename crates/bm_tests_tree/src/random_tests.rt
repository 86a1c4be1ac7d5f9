//! 100,000 random operations, each checked beside a sorted list.

ghost use Rattle.std.specs.Prelude.{◌<◌, ◌^◌};

use bm_tree::RedBlack;
use std::alloc::Global;
use std::process::Abort;
use std::test::Fail;

const OPERATIONS: u32 = 100000;

// A row of the list beside the tree.
#[derive(Drop)]
struct Sample {
    place: u32,
    key: u32,
    item: u32,
}

// The next number of a generator by Knuth, modulo 2^32.
fn next_random(state: u64) -> u64
    ensures { result < 2 ^ 32 }
{
    (state % 4294967296 * 1664525 + 1013904223) % 4294967296
}

// Inserts into the tree, and into the list after all whose key is not greater.
fn insert(
    rt: &impl Abort,
    tree: &mut RedBlack<u32>,
    samples: &mut Vec<Sample>,
    key: u32,
    item: u32,
) -> Result<(), Fail> {
    assert!(rt; tree.len() < 1000000);
    let place = tree.insert(key, item).ok().ok_or("no memory")?;
    let at = samples
        .iter()
        .position(|sample| sample.key > key)
        .unwrap_or(samples.len());
    assert!(rt; at <= samples.len());
    samples.insert(at, Sample { place, key, item })?;
    assert_eq!(rt; tree.at(place).copied(), Some(item));
    Ok(())
}

// Takes the row that stands at `at` in the list out of both, and once more out of the tree.
fn take(rt: &impl Abort, tree: &mut RedBlack<u32>, samples: &mut Vec<Sample>, at: usize) {
    assert!(rt; at < samples.len());
    let sample = samples.remove(at);
    assert_eq!(rt; tree.at(sample.place).copied(), Some(sample.item));
    assert_eq!(rt; tree.take(sample.place), Some((sample.key, sample.item)));
    assert!(rt; tree.at(sample.place).is_none());
    assert!(rt; tree.take(sample.place).is_none());
}

// The tree grows for 2,000 operations and shrinks for as many, in turns.
fn run(rt: &impl Abort, alloc: Global, tree: &mut RedBlack<u32>) -> Result<Vec<Sample>, Fail> {
    let mut samples: Vec<Sample> = Vec::new(alloc);
    let mut state: u64 = 7;
    let mut most: usize = 0;
    for step in 0..OPERATIONS {
        state = next_random(state);
        let limit = if step % 4000 < 2000 { 5 } else { 3 };
        let grows = state / 65536 % 8 < limit;
        state = next_random(state);
        if grows || samples.is_empty() {
            insert(rt, tree, &mut samples, (state / 65536 % 200) as u32, step)?;
        } else {
            let at = state as usize / 16 % samples.len();
            take(rt, tree, &mut samples, at);
        }
        assert_eq!(rt; tree.len(), samples.len());
        assert_eq!(rt; tree.least(), samples.first().map(|sample| sample.place));
        most = most.max(samples.len());
    }
    assert!(rt; most > 400);
    Ok(samples)
}

#[test]
fn agrees_with_a_sorted_list(rt: HostRuntime) -> Result<(), Fail> {
    let alloc = rt.alloc();
    let mut tree: RedBlack<u32> = RedBlack::new(alloc);
    let samples = run(&rt, alloc, &mut tree)?;
    for sample in samples.iter() {
        assert_eq!(rt; tree.pop_least(), Some((sample.key, sample.item)));
    }
    assert_eq!(rt; tree.len(), 0);
    assert!(rt; tree.least().is_none());
    Ok(())
}
