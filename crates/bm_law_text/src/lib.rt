//! The law of texts: no two journals have one text. Nothing here runs but the table of the words that entries begin with.
//!
//! - A journal's text is lines (specs/Lines): `journal_items` are the lines of a journal, `line_head` and `line_tail` the words of
//!   each. `lines_text` is their text, which is the journal's (`text_law`). What `words_of` and `past_words` of bm_journal say of
//!   a line is cited there, and nothing of it is said again.
//! - A line is read by its form (specs/Parts, Entries, Reading): numbers are decimal digits without a leading zero and in the
//!   range of their type, names are words, classes are sizes; the first word decides which form a line has, and the names of the
//!   maps which owners a history may name. `line_of` is what the words of a line say.
//! - `lines_law`: what a line says is read back from its words, and words that say a line are its words. So no line has two
//!   readings, and no reading is left out.
//! - `JournalFits` (specs/Fits) is what the types of a journal keep of its values. The facts that a journal has as ghost fields
//!   are its own already.
//! - `one_text`: two journals of one text are the same. A text is cut at its line feeds, a line at its spaces (specs/Pieces),
//!   each line is read, and the lines give the journal back.
//! - `worked_lines` computes readings of single lines, and of wrong neighbours of them.
#![tactic(auto)]

mod kind;
mod law;
mod line;

pub use kind::{Kind, kind_of};
pub use law::{lines_law, one_text, text_law, worked_lines};
pub use line::Line;
