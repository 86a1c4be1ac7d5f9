//! Journals read back: `read_journal` gives the journal whose text some bytes are, or the first line that no journal has there.
//!
//! - A text is cut at its line feeds, a line at its spaces (`words` of bm_law_text), and the words are read by the form of the line:
//!   the first word decides which it is (`stage_line` of specs/Drafts), and the functions of `calls`, `named`, `exchange`, `steps`,
//!   `history` and `told` read one form each, as `line_of` of bm_law_text says.
//! - `read_entry` gives the entry of one line of a log (`entry_said` of specs/EntryLine).
//! - What may come next is told by a stage (`Stage`, `next` of specs/Drafts): the four lines of the heading, classes, logs with their
//!   entries, histories with their calls, the nineteen totals. Numbers of processors, positions and totals go up one by one.
//! - `Draft` and `Body` are what is read so far; each line that is taken is one line more of it (`Read`, `Taken`).
//! - `text_lines` (specs/Faults) are the lines of a text, each with its line feed, and behind the last one the end; `AgreeIn` says
//!   that two texts agree in so many lines, `SomeAgrees` that some journal's text agrees in so many, and `IsFirstWrong` that this is
//!   so for fewer lines alone. `worked_faults` computes them on small texts.
//!
//! That no journal's text agrees with a refused text up to its line rests on `lines_law` of bm_law_text: a journal's lines are read
//! back from its text, so that a line that may not come is in none. That some journal's text agrees before it is shown by one: what
//! was read is led on to a whole journal, with the lines of the heading that are missing and zero for each missing total.
#![tactic(auto)]

mod body;
mod calls;
mod draft;
mod entry;
mod entry_line;
mod exchange;
mod fault;
mod history;
mod lists;
mod named;
mod owners;
mod parts;
mod pieces;
mod reader;
mod steps;
mod told;
mod worked;

pub use entry_line::read_entry;
pub use fault::JournalFault;
pub use reader::read_journal;
pub use worked::worked_faults;
