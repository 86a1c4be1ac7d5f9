//! A red-black tree over an arena: items in the order of their keys, each at a place that it keeps.
//!
//! `RedBlack<T>` is the tree, as lib/rbtree.c of the kernel has it, with one difference: the nodes lie
//! in one arena and name each other by their places in it, and not by pointers. A place that `take`
//! frees is used again by a later `insert`. Among equal keys the item that was inserted first comes
//! first, as `bpf_rbtree_add` leaves them where its `less` is a strict order of the keys.
//!
//! Who calls it: the tree of a program's graph, which holds references to objects. So an item may
//! have to be spent, and a tree ends by `finish` once it is empty or by `give_up`, whose `Spend` says
//! what becomes of each item that is left.
//!
//! What has to be kept (specs/Rows.antt): the links hold one tree of the places with an item, in the
//! order of their keys; no red place has a red parent, the root is black, and each way down from a
//! place has as many black places; each other place is on one list of free places. Contracts see the
//! list of rows, each with its place, key and item, and that the height is at most
//! 2 * log2(items + 1) (specs/Row.antt).
//!
//! The rules are those of Cormen, Leiserson, Rivest and Stein, Introduction to Algorithms, chapter 13,
//! with one difference: the loops only paint, and the rotations, at most three, come after them.
//!
//! What isn't here: a search by key, a walk in order, a lock, and what is recorded of a call.
#![tactic(auto)]

mod arena;
mod balance;
mod links;
mod places;
mod spend;
mod tree;

pub use spend::Spend;
pub use tree::RedBlack;
