//! The law of texts.

ghost use Rattle.std.specs.Prelude.{◌≡◌, ℕ, List, [], ◌∷◌, ◌++◌, Some, None, IsTrue, codes};
ghost use Rattle.bm_journal.specs.declared.entry.Entry.TheVariants as entry;
ghost use Rattle.bm_journal.specs.declared.journal.Journal.{Journal};
ghost use Rattle.bm_journal.specs.EntryText.{Words};
ghost use Rattle.bm_journal.specs.JournalText.{journal_text};
ghost use Rattle.bm_journal.specs.WellFormed.{all_differ};
ghost use Rattle.bm_law_text.specs.declared.line.Line.{Line};
ghost use Rattle.bm_law_text.specs.declared.line.Line.TheVariants as line_as;
ghost use Rattle.bm_law_text.specs.Fits.{JournalFits, LineFits};
ghost use Rattle.bm_law_text.specs.Lines.{journal_items, line_head, line_tail, lines_text};
ghost use Rattle.bm_law_text.specs.Pieces.{words};
ghost use Rattle.bm_law_text.specs.Reading.{line_of};

use bm_word::numbers_round_trip;

/// The text of a journal is that of its lines.
pub fn text_law()
    ensures { (j : Journal) → journal_text j ≡ lines_text j.maps (journal_items j) }
{}

/// A line that fits is read back from its words, where the names of the maps differ; and where words say a line they are
/// its words, and it fits.
pub fn lines_law()
    ensures back { (maps : List (List ℕ)) (l : Line) → IsTrue (all_differ maps) → LineFits maps l →
        line_of maps (line_head l ∷ line_tail maps l) ≡ Some l }
    ensures only { (maps : List (List ℕ)) (ws : Words) (l : Line) → line_of maps ws ≡ Some l →
        ((line_head l ∷ line_tail maps l) ≡ ws) × LineFits maps l }
{
    numbers_round_trip();
}

/// No two journals have one text, among those whose numbers, names and lists are as their types keep them.
pub fn one_text()
    ensures { (j k : Journal) → JournalFits j → JournalFits k →
        journal_text j ≡ journal_text k → j ≡ k }
{
    numbers_round_trip();
}

/// The readings of single lines, computed: an entry, and beside it one with a leading zero, with two spaces, with a space at
/// its end, with a number above its type's, of no level, and with a word too many.
pub fn worked_lines()
    ensures entry { line_of [] (words (codes "0 busy 7")) ≡ Some (line_as.Entry 0 (entry.Busy 7)) }
    ensures zero { line_of [] (words (codes "0 busy 07")) ≡ None }
    ensures spaces { line_of [] (words (codes "0  busy 7")) ≡ None }
    ensures behind { line_of [] (words (codes "0 busy 7 ")) ≡ None }
    ensures above { line_of [] (words (codes "0 busy 4294967296")) ≡ None }
    ensures level { line_of [] (words (codes "4 busy 7")) ≡ None }
    ensures longer { line_of [] (words (codes "0 busy 7 7")) ≡ None }
    ensures class { line_of [] (words (codes "1 pop 96 none"))
        ≡ Some (line_as.Entry 1 (entry.PopNone 3)) }
    ensures size { line_of [] (words (codes "1 pop 97 none")) ≡ None }
    ensures maps { line_of [] (words (codes "maps q t"))
        ≡ Some (line_as.Maps (codes "q" ∷ codes "t" ∷ [])) }
    ensures twice { line_of [] (words (codes "maps q q")) ≡ None }
{}
