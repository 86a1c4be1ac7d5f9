//! What programs own: objects with reference counts, slots that hold references, and claims for lists and trees.
//!
//! - `TypeDef` and `Node` are a type as a program declares it, and `size_of_type` its size.
//! - `Ref` is one reference to one life of a unit. It is plain numbers, is never copied, and has to be spent.
//! - `Objects` is one side of all objects: it makes objects of units, reads their values, counts references, exchanges what
//!   slots hold, and claims objects for graphs. No call refuses or takes memory. It tells what the side knows (`Known`).
//! - `Carry` is an `Objects` with notes: each takes an object with its claim into a graph and out again, or is a graph's page.
//!   `Slip` says what a note carries.
//! - `OneWorld` is all objects on one thread, for any number of processors, of which one has its turn; `Note` are its notes.
//!
//! Who calls it: whoever runs programs. A unit comes from the allocator and goes back to it; while it is an object here,
//! nobody else has it.
//!
//! What has to be kept: a unit is one object at a time, and each life is the unit's next one. The count of an object is the
//! number of references to it, in hands, in slots and in notes, and the object ends with the last. What a slot holds lives, and is of
//! the slot's type. An object of a type without a count has one reference. An object that a graph owns isn't ended, and the
//! graph is of its type.
//!
//! Where the rule stands: specs/WorldState.antt says what each call does to the objects on one thread, specs/Known.antt and
//! specs/Carrying.antt what it does to what a side knows, specs/Kept.antt what `OneWorld` keeps true.
//!
//! From the kernel's programs: `bpf_obj_new` and `bpf_obj_drop` (a new object, and the end of a reference),
//! `bpf_refcount_acquire`, `bpf_kptr_xchg`, and the owner of a graph's node in `bpf_list_push_front` and `bpf_rbtree_add`.
//! Numbers in place of pointers, types by number, and tags are this project's own.
//!
//! `notes_law` says that `put_in` and `take_out` undo each other (specs/Undoing.antt). `worked_*` compute the rules on examples
//! (specs/Worked.antt).
//!
//! What isn't here: the lists and trees themselves, and objects that several threads share.
#![tactic(auto)]

mod answer;
mod carry;
mod graphs;
mod law;
mod note;
mod object;
mod objects;
mod one_world;
mod reference;
mod type_def;
mod waiting;
mod worked;

pub use answer::{Claimed, Displaced, Released};
pub use carry::{Carry, Slip};
pub use law::notes_law;
pub use note::Note;
pub use objects::Objects;
pub use one_world::OneWorld;
pub use reference::Ref;
pub use type_def::{Node, TypeDef, size_of_type};
pub use waiting::Waiting;
pub use worked::{
    worked_claims, worked_counts, worked_items, worked_last_release, worked_notes, worked_sizes,
    worked_slots, worked_waits,
};
