//! How an object is put into a list or tree, and from which end of a list one is taken.

/// How an object is put in: at an end of a list, or into a tree by its key.
#[derive(Clone, Copy, Debug, PartialEq, Eq)]
pub enum Way {
    /// At the front of a list, as `bpf_list_push_front_impl` does.
    Front,
    /// At the back of a list, as `bpf_list_push_back_impl` does.
    Back,
    /// Into a tree, as `bpf_rbtree_add_impl` does.
    Ordered,
}

/// The end of a list from which an object is taken.
#[derive(Clone, Copy, Debug, PartialEq, Eq)]
pub enum End {
    /// The first object, as `bpf_list_pop_front` takes it.
    Front,
    /// The last object, as `bpf_list_pop_back` takes it.
    Back,
}
