//! Types of objects.

ghost use Rattle.std.specs.Prelude.{◌≡◌};
ghost use Rattle.bm_obj.specs.TypeSize.{type_size};

/// The node of an object, by which it may be put into a graph.
#[derive(Clone, Copy, Debug, PartialEq, Eq)]
pub enum Node {
    /// It has no node.
    Bare,
    /// It has a node of a list: `struct bpf_list_node`.
    List,
    /// It has a node of a tree: `struct bpf_rb_node`.
    Tree,
}

/// A type of objects, as a program declares it.
#[derive(Clone, Copy, Debug, PartialEq, Eq)]
pub struct TypeDef {
    /// How many fields it has, each of 8 bytes, which hold a value.
    pub fields: u8,
    /// Whether it has a count, a `struct bpf_refcount`, so that an object can have several references.
    pub counted: bool,
    /// Its node.
    pub node: Node,
    /// How many bytes more it has, which nothing uses.
    pub pad: u32,
}

/// The size of an object of a type in bytes: 8 for each field, 24 for a node of a list or 32 for one of a tree, 8 for a count,
/// and its bytes more. The sizes of nodes and counts are those of `struct bpf_list_node`, `struct bpf_rb_node` and
/// `struct bpf_refcount` with their alignment; the order of the parts doesn't matter.
pub fn size_of_type(def: &TypeDef) -> u64
    ensures { result ≡ type_size def.now }
{
    let node = match def.node {
        Node::Bare => 0,
        Node::List => 24,
        Node::Tree => 32,
    };
    let count = if def.counted { 8 } else { 0 };
    8 * def.fields as u64 + node + count + def.pad as u64
}
