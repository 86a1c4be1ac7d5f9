//! A whole scenario.

ghost use Rattle.std.specs.Prelude.{◌≡◌, ◌≤◌, ◌<◌, ◌++◌, ◌+◌, ◌∷◌, [], OnOk, IfOk};
ghost use Rattle.std.specs.List.{flat_map};
ghost use Rattle.bm_lang.specs.Spelling.{spell_scenario};
ghost use Rattle.bm_lang.specs.Printing.{printed};
ghost use Rattle.bm_generator.specs.Pieces.{pieces, behind_pieces};
ghost use Rattle.bm_generator.specs.Texts.{piece_text, header_text, types_text, maps_text, script_text, scripts_text, handler_text, run_text, at_text, turns_text};
ghost use Rattle.bm_generator.specs.Generated.{generated};

use crate::draws::Draws;
use crate::pieces::{put_bytes, put_piece, put_swap};
use bm_word::NoMemory;
use std::alloc::Global;

/// The text of the scenario that is made with so many pieces in each processor's script, 1 to 2,000, drawn from a start on.
///
/// It is what printing gives of the scenario: four processors with a queue of counted jobs, a tree by key and a spare part in a
/// slot that they share, and two planned handlers. Its only refusal is want of memory. The scenario is this project's own.
pub fn generated_text(alloc: Global, count: u32, start: u64) -> Result<Vec<u8>, NoMemory>
    requires some { 1 ≤ count }
    requires few { count ≤ 2000 }
    ensures { IfOk result (λ text. text.items ≡ printed (spell_scenario (generated count start))) }
{
    let mut out = Vec::new(alloc);
    put_head(&mut out)?;
    put_scripts(&mut out, Draws { state: start }, count)?;
    put_lines(&mut out)?;
    put_turns(&mut out, count)?;
    put_bytes(&mut out, b"}\n")?;
    Ok(out)
}

// What stands before the scripts.
fn put_head(out: &mut Vec<u8>) -> Result<(), NoMemory>
    ensures { OnOk result
        (out.new.items ≡ out.old.items ++ (header_text ++ (types_text ++ maps_text))) }
{
    put_bytes(out, b"scenario {\nprocessors 4\npages 64\ndeferred on\n")?;
    put_bytes(
        out,
        b"type job counted list {\na b\n}\ntype node tree {\nk\n}\ntype part counted {\nv\n}\n",
    )?;
    put_bytes(out, b"slot spare part\nlist q job\ntree t node\n")
}

// Pieces, one drawn after the other.
fn put_pieces(out: &mut Vec<u8>, draws: &mut Draws, count: u32) -> Result<(), NoMemory>
    ensures text { OnOk result
        (out.new.items ≡ out.old.items ++ flat_map piece_text (pieces count draws.old.state)) }
    ensures state { OnOk result (draws.new.state ≡ behind_pieces count draws.old.state) }
{
    for _ in 0..count {
        let piece = draws.piece();
        put_piece(out, piece)?;
    }
    Ok(())
}

// The script of a processor.
fn put_script(
    out: &mut Vec<u8>,
    draws: &mut Draws,
    processor: u8,
    count: u32,
) -> Result<(), NoMemory>
    requires { processor < 4 }
    ensures text { OnOk result
        (out.new.items ≡ out.old.items ++ script_text processor (pieces count draws.old.state)) }
    ensures state { OnOk result (draws.new.state ≡ behind_pieces count draws.old.state) }
{
    put_bytes(out, b"script p")?;
    out.push(b'0' + processor)?;
    put_bytes(out, b" plain {\n")?;
    put_pieces(out, draws, count)?;
    put_bytes(out, b"}\n")
}

// The scripts of the processors.
fn put_scripts(out: &mut Vec<u8>, mut draws: Draws, count: u32) -> Result<(), NoMemory>
    ensures { OnOk result (out.new.items ≡ out.old.items ++ scripts_text 4 0 count draws.state) }
{
    for processor in 0..4u8 {
        put_script(out, &mut draws, processor, count)?;
    }
    Ok(())
}

// The handler's script, and the lines that run scripts.
fn put_lines(out: &mut Vec<u8>) -> Result<(), NoMemory>
    ensures { OnOk result
        (out.new.items ≡ out.old.items ++ (handler_text ++ (run_text ++ at_text))) }
{
    put_bytes(out, b"script h handler {\n")?;
    put_swap(out, 7)?;
    put_bytes(out, b"}\n")?;
    put_bytes(out, b"run 0 p0\nrun 1 p1\nrun 2 p2\nrun 3 p3\n")?;
    put_bytes(out, b"at 0 100 1 h\nat 1 200 2 h\n")
}

// The processors in turn, so many times.
fn put_turns(out: &mut Vec<u8>, count: u32) -> Result<(), NoMemory>
    requires { 1 ≤ count }
    ensures { OnOk result (out.new.items ≡ out.old.items ++ turns_text count) }
{
    put_bytes(out, b"turns {\n")?;
    for _ in 1..count {
        put_bytes(out, b"0 1 2 3 ")?;
    }
    put_bytes(out, b"0 1 2 3\n}\n")
}
