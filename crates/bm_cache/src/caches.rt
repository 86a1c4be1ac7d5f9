//! The caches of one processor.

ghost use Rattle.std.specs.Prelude.{◌≡◌, length, vec_len};

use crate::hand::Hand;
use bm_cache_lists::Rows;
use std::alloc::Global;

/// The caches of one processor, one for each class, and its hands, one for each level, with a recorder of what is done
/// to them. Contracts see the lists and hands by `shown`. (`struct bpf_mem_caches` of kernel/bpf/memalloc.c, of one
/// processor; hands and recorder are this project's own.)
pub struct Caches<R> {
    pub(crate) alloc: Global,
    pub(crate) processor: u8,
    pub(crate) rows: Rows,
    pub(crate) sides: Vec<Hand>,
    pub(crate) step: u64,
    /// Whether the units that were taken out last came out of First, and not out of the hand.
    pub(crate) first_lent: bool,
    pub(crate) recorder: R,
    ghost rows_whole: { length rows ≡ 11 },
    ghost sides_whole: { vec_len sides ≡ 4 },
}

/// Ends hands, and each unit in them.
pub(crate) fn give_up_sides(sides: Vec<Hand>) {
    let mut sides = sides;
    while let Some(side) = sides.pop() {
        side.give_up();
    }
    sides.destroy_empty();
}
