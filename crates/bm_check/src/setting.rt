//! Where a statement stands: the scenario's declarations, and the kind of its script.

ghost use Rattle.std.specs.Prelude.{◌≡◌, ◌==◌, is_some, false};
ghost use Rattle.std.specs.List.{list_any};
ghost use Rattle.std.specs.Str.{bytes_eq};
ghost use Rattle.std.specs.Option.{option_map_or};
ghost use Rattle.bm_check.specs.NameStates.{type_in, graph_in};
ghost use Rattle.bm_check.specs.Statements as spec;

use crate::name_state::NameState;
use bm_lang::{MapId, Parts, ScriptKind, TypeId};
use bm_word::Name;

/// The scenario's parts, and the kind of the script that is checked.
#[derive(Clone, Copy)]
pub struct Setting<'a> {
    pub scenario: &'a Parts,
    pub kind: ScriptKind,
}

/// Whether the script is a handler.
pub fn is_handler(setting: &Setting) -> bool
    ensures { result ≡ spec.is_handler setting.now.kind }
{
    match setting.kind {
        ScriptKind::Handler => true,
        _ => false,
    }
}

/// The type of the objects that a map holds.
pub fn type_of_map(setting: &Setting, map: MapId) -> Option<TypeId>
    ensures { result
        ≡ spec.type_of_map (spec.setting_of setting.now.scenario.now setting.now.kind) map }
{
    match setting.scenario.maps.as_slice().get(map.0) {
        Some(declaration) => Some(declaration.type_id),
        None => None,
    }
}

// Whether a map holds objects of a type.
fn holds_type(setting: &Setting, map: MapId, type_id: TypeId) -> bool
    ensures { result
        ≡ spec.holds_type (spec.setting_of setting.now.scenario.now setting.now.kind) map type_id }
{
    match type_of_map(setting, map) {
        Some(held) => held.0 == type_id.0,
        None => false,
    }
}

/// Whether objects of a type carry a reference count.
pub fn is_counted(setting: &Setting, type_id: TypeId) -> bool
    ensures { result
        ≡ spec.is_counted (spec.setting_of setting.now.scenario.now setting.now.kind) type_id }
{
    match setting.scenario.types.as_slice().get(type_id.0) {
        Some(declaration) => declaration.counted,
        None => false,
    }
}

// Whether a name is among some names.
fn is_among(names: &[Name], name: &Name) -> bool
    ensures { result ≡ list_any (bytes_eq name.now) names.now }
{
    for other in names {
        if name.as_bytes() == other.as_bytes() {
            return true;
        }
    }
    false
}

// Whether a type has a field.
fn has_field(setting: &Setting, field: &Name, type_id: TypeId) -> bool
    ensures { result
        ≡ spec.has_field (spec.setting_of setting.now.scenario.now setting.now.kind) field.now
        type_id }
{
    match setting.scenario.types.as_slice().get(type_id.0) {
        Some(declaration) => is_among(declaration.fields.as_slice(), field),
        None => false,
    }
}

/// Whether a name stands for an object of the type that a map holds.
pub fn fits_map(setting: &Setting, map: MapId, state: NameState) -> bool
    ensures { result
        ≡ option_map_or
        (spec.holds_type (spec.setting_of setting.now.scenario.now setting.now.kind) map)
        (type_in state) false }
{
    match state.type_in() {
        Some(type_id) => holds_type(setting, map, type_id),
        None => false,
    }
}

/// Whether a name stands for an object of a counted type.
pub fn fits_counted(setting: &Setting, state: NameState) -> bool
    ensures { result
        ≡ option_map_or
        (spec.is_counted (spec.setting_of setting.now.scenario.now setting.now.kind))
        (type_in state) false }
{
    match state.type_in() {
        Some(type_id) => is_counted(setting, type_id),
        None => false,
    }
}

/// Whether a name stands for an object of a type that has a field.
pub fn fits_field(setting: &Setting, field: &Name, state: NameState) -> bool
    ensures { result
        ≡ option_map_or
        (spec.has_field (spec.setting_of setting.now.scenario.now setting.now.kind) field.now)
        (type_in state) false }
{
    match state.type_in() {
        Some(type_id) => has_field(setting, field, type_id),
        None => false,
    }
}

/// Whether a name stands for an object of any type.
pub fn fits_any(state: NameState) -> bool
    ensures { result ≡ option_map_or spec.any_type (type_in state) false }
{
    match state.type_in() {
        Some(_) => true,
        None => false,
    }
}

/// Whether a name is a non-owning reference into a graph, or may be one.
pub fn leads_into(state: NameState, graph: MapId) -> bool
    ensures { result ≡ option_map_or (λ h. graph.0 == h.0) (graph_in state) false }
{
    match state.graph_in() {
        Some(other) => graph.0 == other.0,
        None => false,
    }
}
