//! Worked texts, whose faults are computed by the definition alone.

ghost use Rattle.std.specs.Prelude.{◌≡◌, ◌∷◌, [], Some, codes};
ghost use Rattle.bm_lang.specs.Machine.{fault_of};
ghost use Rattle.bm_lang.specs.declared.fault.BadKind.TheVariants.{Byte, End, Unexpected};

/// The first token that can't stand at its place, with its line, its column in bytes, both from 1, and why: the end of an empty
/// text, of one of separators, and behind a word; a word that stands twice; and a stray byte.
pub fn worked_faults()
    ensures empty { fault_of [] ≡ Some (record { line = 1; column = 1; kind = End }) }
    ensures separators { fault_of (32 ∷ 10 ∷ 9 ∷ [])
        ≡ Some (record { line = 2; column = 2; kind = End }) }
    ensures behind { fault_of (codes "scenario")
        ≡ Some (record { line = 1; column = 9; kind = End }) }
    ensures twice { fault_of (codes "scenario scenario")
        ≡ Some (record { line = 1; column = 10; kind = Unexpected }) }
    ensures stray { fault_of (codes "scenario @")
        ≡ Some (record { line = 1; column = 10; kind = Byte }) }
{}
