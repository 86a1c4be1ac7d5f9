//! The sizes of the allocator's units, their classes, and the watermarks of a cache.
#![tactic(auto)]

ghost use Rattle.std.specs.Prelude.{◌≡◌, ◌+◌, ◌<◌, ◌≤◌};
ghost use Rattle.bm_class.specs.Sizes.{size_of_class};
ghost use Rattle.bm_class.specs.Watermarks.{marks_of_size};

mod size_class;
mod watermarks;

pub use size_class::{Class, class_of, size_class_law};
pub use watermarks::{Marks, marks_of};

/// The watermarks and the batch of a class's caches: those of the size of its units.
///
/// The low mark is at least 2, the high mark 6 to 96 and the batch 3 to 48. A batch on top of fewer
/// units than the low mark stays below the high mark. From `init_refill_work` of
/// kernel/bpf/memalloc.c.
#[tactic(auto, unfolding(crate::specs::Sizes::size_of_class, crate::specs::Watermarks::low_of_size, crate::specs::Watermarks::high_of_size, crate::specs::Watermarks::batch_of_size))]
pub fn marks(class: Class) -> Marks
    ensures value { result ≡ marks_of_size (size_of_class class) }
    ensures low { 2 ≤ result.low }
    ensures high { 6 ≤ result.high }
    ensures batch { 3 ≤ result.batch }
    ensures greatest { result.high ≤ 96 }
    ensures greatest_batch { result.batch ≤ 48 }
    ensures order { result.low < result.high }
    ensures room { result.low + result.batch ≤ result.high }
{
    macro_rules! marks_of_sizes {
        ($($index:literal => $size:literal),* $(,)?) => {
            match class.index() {
                $($index => marks_of::<$size>(),)*
                _ => unreachable!(),
            }
        };
    }

    marks_of_sizes! {
        0 => 16,
        1 => 32,
        2 => 64,
        3 => 96,
        4 => 128,
        5 => 192,
        6 => 256,
        7 => 512,
        8 => 1024,
        9 => 2048,
        10 => 4096,
    }
}
