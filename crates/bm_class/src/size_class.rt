ghost use Rattle.std.specs.Prelude.{◌≡◌, ◌+◌, ◌<◌, ◌≤◌, ◌↔◌, ◌⊎◌, ℕ, [], ◌∷◌, IfSome, IsSome};
ghost use Rattle.bm_class.specs.Sizes.{IsClassOf, class_of_size, size_of_class, units_per_page};

use std::marker::Model;

const PAGE_BYTES: u32 = 4096;

/// The sizes of the classes' units in bytes, by class.
const SIZES: [u32; 11] = [16, 32, 64, 96, 128, 192, 256, 512, 1024, 2048, 4096];

/// A class of units: one of the eleven sizes of units, named by its place among them, 0 to 10.
///
/// The sizes are those of `sizes` in kernel/bpf/memalloc.c; their order, ascending, is this
/// project's own.
#[derive(Clone, Copy, Debug, PartialEq, Eq, PartialOrd, Ord, Hash)]
pub struct Class(u8);

impl Model for Class {
    ghost Value = { ℕ };

    ghost view = { λ class. class.0 };

    ghost invariant = { λ class. class.0 ≤ 10 };

    ghost inverse = { λ index. record { 0 = index } };
}

impl Class {
    /// The class with this index, and `None` for an index above 10.
    pub fn new(index: u8) -> Option<Class>
        ensures same { IfSome result (λ class. class ≡ index) }
        ensures found { IsSome result ↔ (index ≤ 10) }
    {
        if index <= 10 {
            Some(Class(index))
        } else {
            None
        }
    }

    /// The eleven classes, ascending.
    pub fn all() -> [Class; 11]
        ensures { result ≡ 0 ∷ 1 ∷ 2 ∷ 3 ∷ 4 ∷ 5 ∷ 6 ∷ 7 ∷ 8 ∷ 9 ∷ 10 ∷ [] }
    {
        [
            Class(0),
            Class(1),
            Class(2),
            Class(3),
            Class(4),
            Class(5),
            Class(6),
            Class(7),
            Class(8),
            Class(9),
            Class(10),
        ]
    }

    /// The index of this class, 0 to 10.
    pub fn index(self) -> u8
        ensures same { result ≡ self }
        ensures in_range { result ≤ 10 }
    {
        self.0
    }

    /// The size of this class's units in bytes, 16 to 4096.
    #[tactic(auto, unfolding(crate::specs::Sizes::size_of_class))]
    pub fn size(self) -> u32
        ensures value { result ≡ size_of_class self }
        ensures least { 16 ≤ result }
        ensures greatest { result ≤ 4096 }
    {
        SIZES[self.index() as usize]
    }

    /// How many units of this class a page of 4096 bytes is carved into, 1 to 256. The rest of
    /// the page is unused. Pages are this project's own rule.
    pub fn per_page(self) -> u16
        ensures value { result ≡ units_per_page self }
        ensures least { 1 ≤ result }
        ensures greatest { result ≤ 256 }
    {
        (PAGE_BYTES / self.size()) as u16
    }
}

/// The class that serves an object of `bytes` bytes: the least whose units have room for the
/// object and for the 8 bytes before it. `None` exactly for 0 bytes and for more than 4088.
///
/// From `bpf_mem_alloc` and `bpf_mem_cache_idx` of kernel/bpf/memalloc.c, where the 8 bytes hold
/// the unit's place in a list or its home. Each row below ends at the class's size less these 8.
/// `size_class_law` says that the class is the least one.
#[tactic(auto, unfolding(crate::specs::Sizes::class_of_size))]
pub fn class_of(bytes: u32) -> Option<Class>
    ensures value { result ≡ class_of_size bytes }
    ensures found { IsSome result ↔ ((0 < bytes) × (bytes ≤ 4088)) }
{
    match bytes {
        1..=8 => Some(Class(0)),
        9..=24 => Some(Class(1)),
        25..=56 => Some(Class(2)),
        57..=88 => Some(Class(3)),
        89..=120 => Some(Class(4)),
        121..=184 => Some(Class(5)),
        185..=248 => Some(Class(6)),
        249..=504 => Some(Class(7)),
        505..=1016 => Some(Class(8)),
        1017..=2040 => Some(Class(9)),
        2041..=4088 => Some(Class(10)),
        _ => None,
    }
}

/// The law of an object's class, for objects of any size: the class is the least one with room,
/// and exactly the objects of 1 to 4088 bytes have one.
pub fn size_class_law()
    ensures least { (bytes index : ℕ) →
        (class_of_size bytes ≡ Some index) ↔ ((0 < bytes) × IsClassOf bytes index) }
    ensures none { (bytes : ℕ) → (class_of_size bytes ≡ None) ↔ ((bytes ≡ 0) ⊎ (4088 < bytes)) }
{}
