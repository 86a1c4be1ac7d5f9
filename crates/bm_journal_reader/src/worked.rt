//! Examples of what a fault says, computed.

ghost use Rattle.std.specs.Prelude.{◌≡◌, [], ◌∷◌, codes};
ghost use Rattle.bm_journal_reader.specs.Faults.{AgreeIn, IsFirstWrong, text_lines};

use bm_word::numbers_round_trip;

/// The lines of small texts: each with its line feed, and the end counts as a line. Texts that agree in so many lines, and
/// wrong neighbours: one without the line feed, and one that goes on where the other ends. Of the text of no bytes the first
/// wrong line is the first.
pub fn worked_faults()
    ensures nothing { text_lines [] ≡ [] ∷ [] }
    ensures ended { text_lines (codes "ab") ≡ codes "ab" ∷ [] }
    ensures fed { text_lines (97 ∷ 10 ∷ 98 ∷ 10 ∷ []) ≡ (97 ∷ 10 ∷ []) ∷ (98 ∷ 10 ∷ []) ∷ [] ∷ [] }
    ensures agree { AgreeIn 1 (97 ∷ 10 ∷ 98 ∷ []) (97 ∷ 10 ∷ 99 ∷ 10 ∷ []) }
    ensures unfed { AgreeIn 1 (97 ∷ []) (97 ∷ 10 ∷ []) → ⊥ }
    ensures on { AgreeIn 2 (97 ∷ 10 ∷ []) (97 ∷ 10 ∷ 98 ∷ 10 ∷ []) → ⊥ }
    ensures empty { IsFirstWrong [] 1 }
{
    numbers_round_trip();
}
