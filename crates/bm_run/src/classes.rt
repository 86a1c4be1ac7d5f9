//! The classes of a scenario's types.

ghost use Rattle.std.specs.Prelude.{◌≡◌, ◌∷◌, [], ℕ, IfOk, Some, map, nat_eq, true};
ghost use Rattle.std.specs.List.{list_all, list_any};
ghost use Rattle.bm_class.specs.Sizes.{class_of_size, size_of_class};
ghost use Rattle.bm_class.specs.Watermarks.{marks_of_size};
ghost use Rattle.bm_lang.specs.Names.{has_size, node_size};
ghost use Rattle.bm_lang.specs.Spelling.{type_form};
ghost use Rattle.bm_lang.specs.declared.scenario.TypeDeclaration.{TypeDeclaration};
ghost use Rattle.bm_law_scenario.specs.Opened.{object_size, opened_classes};

use bm_class::{Class, Marks, class_of, marks};
use bm_lang::{Node, TypeDeclaration};
use bm_word::NoMemory;
use std::alloc::Global;

// The bytes of a node.
fn node_bytes(node: Option<Node>) -> u32
    ensures { result ≡ node_size node }
{
    match node {
        None => 0,
        Some(Node::List) => 24,
        Some(Node::Tree) => 32,
    }
}

// The bytes of an object of a type.
fn object_bytes(declared: &TypeDeclaration) -> u32
    requires { has_size (type_form declared.now) ≡ true }
    ensures { result ≡ object_size declared.now }
{
    let fields = declared.fields.as_slice().len() as u32;
    let node = node_bytes(declared.node);
    let count = if declared.counted { 8 } else { 0 };
    let pad = declared.pad.unwrap_or(0);
    8 * fields + node + count + pad
}

/// The class of each declared type, in their order. Each type has a size, as the language's reader sees to. Want of
/// memory is the only refusal.
pub(crate) fn type_classes(alloc: Global, types: &[TypeDeclaration]) -> Result<Vec<Class>, NoMemory>
    requires { list_all (λ (t : TypeDeclaration). has_size (type_form t)) types.now ≡ true }
    ensures { IfOk result
        (λ classes. map Some classes.items ≡ map (λ t. class_of_size (object_size t)) types.now) }
{
    let mut classes = Vec::new(alloc);
    for declared in types {
        let Some(class) = class_of(object_bytes(declared)) else {
            unreachable!();
        };
        classes.push(class)?;
    }
    Ok(classes)
}

// Whether a class stands among these.
fn is_used(class: Class, classes: &[Class]) -> bool
    ensures { result ≡ list_any (nat_eq class) classes.now }
{
    classes.iter().any(|used| class == *used)
}

/// The classes that some type uses, ascending, by the class of each type. Want of memory is the only refusal.
pub(crate) fn opened_classes(
    alloc: Global,
    types: &[TypeDeclaration],
    classes: &[Class],
) -> Result<Vec<Class>, NoMemory>
    requires { map Some classes.now ≡ map (λ t. class_of_size (object_size t)) types.now }
    ensures { IfOk result (λ opened. opened.items ≡ opened_classes types.now) }
{
    let mut opened = Vec::new(alloc);
    let eleven = Class::all();
    for class in &eleven {
        if is_used(*class, classes) {
            opened.push(*class)?;
        }
    }
    Ok(opened)
}

/// Classes with their watermarks.
pub(crate) fn with_marks(alloc: Global, classes: &[Class]) -> Result<Vec<(Class, Marks)>, NoMemory>
    ensures { IfOk result
        (λ opened. opened.items ≡ map (λ c. (c, marks_of_size (size_of_class c))) classes.now) }
{
    let mut opened = Vec::new(alloc);
    for class in classes {
        opened.push((*class, marks(*class)))?;
    }
    Ok(opened)
}
