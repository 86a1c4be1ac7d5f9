//! Lists and trees that programs own objects through, each with the history of its calls.
//!
//! `List<T>` and `Tree<T>` are the kernel's `bpf_list_head` and `bpf_rb_root`, `Graph<T>` is either of them. An `Item<T>`
//! is an object in one of them: the reference that the list or tree owns, of any type `T`, also one whose values have to be
//! spent; the object's id; and its key.
//!
//! A `Shelf` has graphs by number, each with a page. It takes a `Visit` to one of them, from its lock to its unlock;
//! `PlainShelf` is the shelf for one thread.
//!
//! Who calls it: a program's statements on lists and trees. Each call takes a `Tag`, which names the program's call, and
//! answers its position in the history, so that the journal of a processor and the history of a list or tree name each
//! other. `history` and `item` only look. One call after the other is made on a list or tree; whoever shares one among
//! processors has a lock around it.
//!
//! What has to be kept (specs/Sound.antt): the history of a list or tree, replayed from the empty one on, has right replies
//! and gives exactly the objects that are in it now; an object is in it once. What a right reply is, and what each call
//! makes of the objects, is said by two sequential objects, `list_object` and `tree_object` (specs/Objects.antt).
//!
//! The rules are those of bpf_list_push_front_impl, bpf_list_push_back_impl, bpf_list_pop_front, bpf_list_pop_back,
//! bpf_rbtree_add_impl, bpf_rbtree_first and bpf_rbtree_remove of kernel/bpf/helpers.c, and of
//! Documentation/bpf/graph_ds_impl.rst. That a tree orders its nodes by one number, and that a history ends after 2^32 - 1
//! entries, is this project's own.
//!
//! What isn't here: a shelf that threads share, with its locks; what a page holds; which list or tree an object is in, who may push it, and what becomes of a reference whose
//! push is refused.
#![tactic(auto)]

mod call;
mod graph;
mod index;
mod item;
mod list;
mod plain_shelf;
mod record;
mod shelf;
mod tree;
mod ways;
mod worked;

pub use call::GraphCall;
pub use graph::Graph;
pub use item::Item;
pub use list::List;
pub use plain_shelf::PlainShelf;
pub use shelf::{Shelf, Visit};
pub use tree::Tree;
pub use ways::{End, Way};
pub use worked::{worked_lists, worked_trees};
