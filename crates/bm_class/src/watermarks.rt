ghost use Rattle.std.specs.Prelude.{◌≡◌, ◌+◌, ◌<◌, ◌≤◌, ◌^◌};
ghost use Rattle.bm_class.specs.Watermarks.{marks_of_size, middle_of};

/// When a cache is refilled and drained, and how many units one refill brings.
///
/// From `low_watermark`, `high_watermark` and `batch` of a cache in kernel/bpf/memalloc.c.
#[derive(Clone, Copy, Debug, PartialEq, Eq)]
pub struct Marks {
    /// Below this many free units the cache is refilled.
    pub low: u32,
    /// Above this many free units the cache is drained.
    pub high: u32,
    /// How many units one refill brings.
    pub batch: u32,
}

impl Marks {
    /// The number of free units at which a drain ends: half way between the two marks, rounded
    /// down. From `free_bulk` of kernel/bpf/memalloc.c.
    pub fn middle(self) -> u32
        requires { self.low + self.high < 2 ^ 32 }
        ensures { result ≡ middle_of self }
    {
        (self.low + self.high) / 2
    }
}

/// The watermarks and the batch of caches whose units have `SIZE` bytes, any `SIZE`.
///
/// From `init_refill_work` of kernel/bpf/memalloc.c: about 32 and 96 units up to 256 bytes, and
/// above as many as take up the same memory, but at least 1 and 3.
#[tactic(auto, unfolding(crate::specs::Watermarks::low_of_size, crate::specs::Watermarks::high_of_size, crate::specs::Watermarks::batch_of_size))]
pub fn marks_of<const SIZE: u32>() -> Marks
    ensures value { result ≡ marks_of_size SIZE }
    ensures low { 1 ≤ result.low }
    ensures high { 3 ≤ result.high }
    ensures batch { 1 ≤ result.batch }
    ensures greatest { result.high ≤ 96 }
    ensures order { result.low < result.high }
    ensures room { result.low + result.batch ≤ result.high }
{
    let (low, high) = if SIZE <= 256 {
        (32, 96)
    } else {
        ((32 * 256 / SIZE).max(1), (96 * 256 / SIZE).max(3))
    };
    let batch = ((high - low) / 4 * 3).max(1);

    Marks { low, high, batch }
}
