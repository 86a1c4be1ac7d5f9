//! Printing a scenario.

ghost use Rattle.std.specs.Prelude.{◌≡◌, ℕ, List, [], ◌∷◌, ◌++◌, Option, OnOk, IfOk, map, decimal};
ghost use Rattle.std.specs.List.{flat_map};
ghost use Rattle.bm_lang.specs.Spelling.{type_form, map_form, script_form, node_word, map_word, script_word, on_or_off, spell_header, spell_type, spell_map, spell_script, spell_run, spell_at, spell_turns, spell_scenario};
ghost use Rattle.bm_lang.specs.Printing.{printed, type_front, fields_text, counted_text, node_text};
ghost use Rattle.bm_lang.specs.Scenarios.{ReadsButLines};

use crate::items::Items;
use crate::keyword::Keyword;
use crate::printing::{
    LINE_FEED, SPACE, put, put_block, put_count, put_names, put_numbers, script_name, three,
    type_name,
};
use crate::scenario::{
    AtLine, MapDeclaration, MapKind, Node, RunLine, Scenario, Script, ScriptKind, TypeDeclaration,
};
use bm_word::{Name, NoMemory};
use std::alloc::Global;

/// The text of a scenario. Tokens of a line are separated by a space. A line ends behind each brace and behind the
/// last token of an item, of a row of fields or numbers, and of a statement without a block.
pub fn print_scenario(alloc: Global, scenario: &Scenario) -> Result<Vec<u8>, NoMemory>
    // The words of the scenario, each with the space or the line feed behind it.
    ensures text { IfOk result (λ v. v.items ≡ printed (spell_scenario scenario.now)) }
    // What is printed reads back as the same scenario, line numbers apart.
    ensures back { IfOk result (λ v. ReadsButLines v.items scenario.now) }
{
    let parts = scenario.parts();
    let mut out = Vec::new(alloc);
    let types = parts.types.as_slice();
    let maps = parts.maps.as_slice();
    let scripts = parts.scripts.as_slice();
    put_header(&mut out, parts.processors, parts.pages, parts.deferred)?;
    put_types(&mut out, types)?;
    put_maps(&mut out, types, maps)?;
    put_scripts(&mut out, types, maps, scripts)?;
    put_runs(&mut out, scripts, parts.runs.as_slice())?;
    put_ats(&mut out, scripts, parts.ats.as_slice())?;
    put_turns(&mut out, &parts.turns)?;
    put(&mut out, b"}", LINE_FEED)?;
    Ok(out)
}

// What comes before the declarations.
fn put_header(
    out: &mut Vec<u8>,
    processors: u32,
    pages: u32,
    deferred: bool,
) -> Result<(), NoMemory>
    ensures { OnOk result
        (out.new.items ≡ out.old.items ++ printed (spell_header processors pages deferred)) }
{
    put(out, b"scenario {", LINE_FEED)?;
    put(out, Keyword::Processors.text(), SPACE)?;
    put_count(out, processors, LINE_FEED)?;
    put(out, Keyword::Pages.text(), SPACE)?;
    put_count(out, pages, LINE_FEED)?;
    put(out, Keyword::Deferred.text(), SPACE)?;
    put(out, on_or_off(deferred).text(), LINE_FEED)
}

fn on_or_off(deferred: bool) -> Keyword
    ensures { result ≡ on_or_off deferred }
{
    if deferred { Keyword::On } else { Keyword::Off }
}

fn put_types(out: &mut Vec<u8>, types: &[TypeDeclaration]) -> Result<(), NoMemory>
    ensures { OnOk result
        (out.new.items ≡ out.old.items ++ printed (flat_map spell_type types.now)) }
{
    for declaration in types {
        put_type(out, declaration)?;
    }
    Ok(())
}

fn put_type(out: &mut Vec<u8>, declaration: &TypeDeclaration) -> Result<(), NoMemory>
    ensures { OnOk result (out.new.items ≡ out.old.items ++ printed (spell_type declaration.now)) }
{
    put_type_front(
        out,
        &declaration.name,
        declaration.counted,
        declaration.node,
    )?;
    put_fields(out, declaration.fields.as_slice(), declaration.pad)?;
    put(out, b"}", LINE_FEED)
}

// The line of a type up to its opening brace.
fn put_type_front(
    out: &mut Vec<u8>,
    name: &Name,
    counted: bool,
    node: Option<Node>,
) -> Result<(), NoMemory>
    ensures { OnOk result (out.new.items ≡ out.old.items ++ type_front name.now counted node) }
{
    put(out, Keyword::Type.text(), SPACE)?;
    put(out, name.as_bytes(), SPACE)?;
    put_counted(out, counted)?;
    put_node(out, node)?;
    put(out, b"{", LINE_FEED)
}

fn put_counted(out: &mut Vec<u8>, counted: bool) -> Result<(), NoMemory>
    ensures { OnOk result (out.new.items ≡ out.old.items ++ counted_text counted) }
{
    if counted {
        put(out, Keyword::Counted.text(), SPACE)
    } else {
        Ok(())
    }
}

fn put_node(out: &mut Vec<u8>, node: Option<Node>) -> Result<(), NoMemory>
    ensures { OnOk result (out.new.items ≡ out.old.items ++ node_text node) }
{
    match node {
        Some(node) => put(out, node_word(node).text(), SPACE),
        None => Ok(()),
    }
}

fn node_word(node: Node) -> Keyword
    ensures { result ≡ node_word node }
{
    match node {
        Node::List => Keyword::List,
        Node::Tree => Keyword::Tree,
    }
}

// The line of a type's fields and its pad, if it has some.
fn put_fields(out: &mut Vec<u8>, fields: &[Name], pad: Option<u32>) -> Result<(), NoMemory>
    ensures { OnOk result (out.new.items ≡ out.old.items ++ fields_text fields.now pad) }
{
    match pad {
        Some(bytes) => {
            put_names(out, fields, SPACE)?;
            put(out, Keyword::Pad.text(), SPACE)?;
            put_count(out, bytes, LINE_FEED)
        }
        None => put_names(out, fields, LINE_FEED),
    }
}

fn put_maps(
    out: &mut Vec<u8>,
    types: &[TypeDeclaration],
    maps: &[MapDeclaration],
) -> Result<(), NoMemory>
    ensures { OnOk result
        (out.new.items
        ≡ out.old.items ++ printed (flat_map (spell_map (map type_form types.now)) maps.now)) }
{
    for declaration in maps {
        put_map(out, types, declaration)?;
    }
    Ok(())
}

fn put_map(
    out: &mut Vec<u8>,
    types: &[TypeDeclaration],
    declaration: &MapDeclaration,
) -> Result<(), NoMemory>
    ensures { OnOk result
        (out.new.items
        ≡ out.old.items ++ printed (spell_map (map type_form types.now) declaration.now)) }
{
    three(
        out,
        map_word(declaration.kind),
        declaration.name.as_bytes(),
        type_name(types, declaration.type_id),
    )
}

fn map_word(kind: MapKind) -> Keyword
    ensures { result ≡ map_word kind }
{
    match kind {
        MapKind::Slot => Keyword::Slot,
        MapKind::List => Keyword::List,
        MapKind::Tree => Keyword::Tree,
    }
}

fn put_scripts(
    out: &mut Vec<u8>,
    types: &[TypeDeclaration],
    maps: &[MapDeclaration],
    scripts: &[Script],
) -> Result<(), NoMemory>
    ensures { OnOk result
        (out.new.items
        ≡ out.old.items
        ++ printed
        (flat_map (spell_script (map type_form types.now) (map map_form maps.now))
        scripts.now)) }
{
    for script in scripts {
        put_script(out, types, maps, script)?;
    }
    Ok(())
}

fn put_script(
    out: &mut Vec<u8>,
    types: &[TypeDeclaration],
    maps: &[MapDeclaration],
    script: &Script,
) -> Result<(), NoMemory>
    ensures { OnOk result
        (out.new.items
        ≡ out.old.items
        ++ printed
        (spell_script (map type_form types.now) (map map_form maps.now) script.now)) }
{
    put(out, Keyword::Script.text(), SPACE)?;
    put(out, script.name.as_bytes(), SPACE)?;
    put(out, script_word(script.kind).text(), SPACE)?;
    put_block(out, types, maps, &script.body)
}

fn script_word(kind: ScriptKind) -> Keyword
    ensures { result ≡ script_word kind }
{
    match kind {
        ScriptKind::Plain => Keyword::Plain,
        ScriptKind::Sleepable => Keyword::Sleepable,
        ScriptKind::Handler => Keyword::Handler,
    }
}

fn put_runs(out: &mut Vec<u8>, scripts: &[Script], runs: &[RunLine]) -> Result<(), NoMemory>
    ensures { OnOk result
        (out.new.items
        ≡ out.old.items
        ++ printed (flat_map (spell_run (map script_form scripts.now)) runs.now)) }
{
    for run in runs {
        put_run(out, scripts, *run)?;
    }
    Ok(())
}

fn put_run(out: &mut Vec<u8>, scripts: &[Script], run: RunLine) -> Result<(), NoMemory>
    ensures { OnOk result
        (out.new.items ≡ out.old.items ++ printed (spell_run (map script_form scripts.now) run)) }
{
    put(out, Keyword::Run.text(), SPACE)?;
    put_count(out, run.processor, SPACE)?;
    put(out, script_name(scripts, run.script), LINE_FEED)
}

fn put_ats(out: &mut Vec<u8>, scripts: &[Script], ats: &[AtLine]) -> Result<(), NoMemory>
    ensures { OnOk result
        (out.new.items
        ≡ out.old.items
        ++ printed (flat_map (spell_at (map script_form scripts.now)) ats.now)) }
{
    for at in ats {
        put_at(out, scripts, *at)?;
    }
    Ok(())
}

fn put_at(out: &mut Vec<u8>, scripts: &[Script], at: AtLine) -> Result<(), NoMemory>
    ensures { OnOk result
        (out.new.items ≡ out.old.items ++ printed (spell_at (map script_form scripts.now) at)) }
{
    put(out, Keyword::At.text(), SPACE)?;
    put_count(out, at.processor, SPACE)?;
    put_count(out, at.step, SPACE)?;
    put_count(out, at.level, SPACE)?;
    put(out, script_name(scripts, at.script), LINE_FEED)
}

fn put_turns(out: &mut Vec<u8>, turns: &Option<Items<u32>>) -> Result<(), NoMemory>
    ensures { OnOk result (out.new.items ≡ out.old.items ++ printed (spell_turns turns.now)) }
{
    match turns {
        Some(turns) => {
            put(out, b"turns {", LINE_FEED)?;
            put_numbers(out, turns.as_slice())?;
            put(out, b"}", LINE_FEED)
        }
        None => Ok(()),
    }
}
