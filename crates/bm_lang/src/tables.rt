//! Declared things with their names.

ghost use Rattle.std.specs.Prelude.{◌≡◌, map, position};
ghost use Rattle.std.specs.Str.{bytes_eq};

use crate::index::Index;
use crate::scenario::{MapDeclaration, Script, TypeDeclaration};
use bm_word::Name;

/// Types in the order of their declaration, and their names.
#[derive(Clone, Copy)]
pub struct TypeTable<'a> {
    pub items: &'a [TypeDeclaration],
    pub names: &'a Index,
    ghost same: { names.now ≡ map (λ t. t.name) items.now },
}

/// Slots, lists and trees in the order of their declaration, and their names.
#[derive(Clone, Copy)]
pub struct MapTable<'a> {
    pub items: &'a [MapDeclaration],
    pub names: &'a Index,
    ghost same: { names.now ≡ map (λ m. m.name) items.now },
}

/// Scripts in the order of their declaration, and their names.
#[derive(Clone, Copy)]
pub struct ScriptTable<'a> {
    pub items: &'a [Script],
    pub names: &'a Index,
    ghost same: { names.now ≡ map (λ s. s.name) items.now },
}

/// The place of the type with this name among some.
pub fn type_place(types: TypeTable<'_>, name: &Name) -> Option<usize>
    ensures { result ≡ position (λ t. bytes_eq t.name name.now) types.entry.items.now }
{
    types.names.place(name.as_bytes())
}

/// The place of the map with this name among some.
pub fn map_place(maps: MapTable<'_>, name: &Name) -> Option<usize>
    ensures { result ≡ position (λ m. bytes_eq m.name name.now) maps.entry.items.now }
{
    maps.names.place(name.as_bytes())
}

/// The place of the script with this name among some.
pub fn script_place(scripts: ScriptTable<'_>, name: &Name) -> Option<usize>
    ensures { result ≡ position (λ s. bytes_eq s.name name.now) scripts.entry.items.now }
{
    scripts.names.place(name.as_bytes())
}
