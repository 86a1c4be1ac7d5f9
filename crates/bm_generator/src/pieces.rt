//! The pieces that scripts are made of, and their texts.

ghost use Rattle.std.specs.Prelude.{◌≡◌, ◌++◌, ◌∷◌, [], OnOk, decimal};
ghost use Rattle.bm_generator.specs.declared.pieces.Piece.TheVariants.{Push, Plant, Swap};
ghost use Rattle.bm_generator.specs.Texts.{piece_text};

use bm_word::{NoMemory, put_number};

/// A few statements of a script, which leave each name free and no lock held.
#[derive(Clone, Copy, Debug)]
pub enum Piece {
    /// A job with these values is put at the back of the list.
    Push { first: u64, second: u64 },
    /// The job at the front of the list is taken and dropped.
    Pop,
    /// A node with this key is put into the tree.
    Plant { key: u64 },
    /// The least node of the tree is taken out and dropped.
    Pick,
    /// A part with this value is put into the slot, and what was there is dropped.
    Swap { value: u64 },
    /// Other processors go on.
    Yield,
}

// A number, and a line feed.
fn put_line(out: &mut Vec<u8>, number: u64) -> Result<(), NoMemory>
    ensures { OnOk result (out.new.items ≡ out.old.items ++ (decimal number ++ 10 ∷ [])) }
{
    put_number(out, number)?;
    out.push(b'\n')?;
    Ok(())
}

fn put_push(out: &mut Vec<u8>, first: u64, second: u64) -> Result<(), NoMemory>
    ensures { OnOk result (out.new.items ≡ out.old.items ++ piece_text (Push first second)) }
{
    put_bytes(out, b"new x job ")?;
    put_number(out, first)?;
    out.push(b' ')?;
    put_line(out, second)?;
    put_bytes(out, b"if x {\nlock q\npush_back q x\nunlock\n}\n")?;
    Ok(())
}

fn put_plant(out: &mut Vec<u8>, key: u64) -> Result<(), NoMemory>
    ensures { OnOk result (out.new.items ≡ out.old.items ++ piece_text (Plant key)) }
{
    put_bytes(out, b"new x node ")?;
    put_line(out, key)?;
    put_bytes(out, b"if x {\nlock t\nadd t x\nunlock\n}\n")?;
    Ok(())
}

/// The text of a `Swap`.
pub fn put_swap(out: &mut Vec<u8>, value: u64) -> Result<(), NoMemory>
    ensures { OnOk result (out.new.items ≡ out.old.items ++ piece_text (Swap value)) }
{
    put_bytes(out, b"new x part ")?;
    put_line(out, value)?;
    put_bytes(out, b"if x {\nxchg o spare x\nif o {\ndrop o\n}\n}\n")?;
    Ok(())
}

/// The text of a piece.
pub fn put_piece(out: &mut Vec<u8>, piece: Piece) -> Result<(), NoMemory>
    ensures { OnOk result (out.new.items ≡ out.old.items ++ piece_text piece) }
{
    match piece {
        Piece::Push { first, second } => put_push(out, first, second),
        Piece::Pop => put_bytes(out, b"lock q\npop_front x q\nunlock\nif x {\ndrop x\n}\n"),
        Piece::Plant { key } => put_plant(out, key),
        Piece::Pick => put_bytes(
            out,
            b"lock t\nfirst f t\nremove g t f\nunlock\nif g {\ndrop g\n}\n",
        ),
        Piece::Swap { value } => put_swap(out, value),
        Piece::Yield => put_bytes(out, b"yield\n"),
    }
}

/// Some bytes.
pub fn put_bytes(out: &mut Vec<u8>, bytes: &[u8]) -> Result<(), NoMemory>
    ensures { OnOk result (out.new.items ≡ out.old.items ++ bytes.now) }
{
    out.extend_from_slice(bytes)?;
    Ok(())
}
