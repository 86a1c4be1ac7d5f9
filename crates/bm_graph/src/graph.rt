//! A list or a tree.

use crate::list::List;
use crate::tree::Tree;

/// A list or a tree of objects, each with its history. The kernel calls both graphs.
#[derive(Drop)]
pub enum Graph<T> {
    List(List<T>),
    Tree(Tree<T>),
}
