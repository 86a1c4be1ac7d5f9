//! What speaks of a scenario and a journal: what a block and a handler leave in a log, and when a journal is lawful, log by log.
//! Nothing in this crate runs.
//!
//! - `RunsBlock` (specs/Runs) says which part of a log the statements of a block leave, and what the script's names hold then. It
//!   is the one definition for scripts and handlers.
//! - `IsLog` (specs/Grammar) is what a log is made of: fills, scripts with the work after them, the closing (specs/Fills, Works,
//!   Closing).
//! - `HandlerPhrase` and `HandlersDone` (specs/Handlers) are what handlers leave; `ParcelLaw` (specs/Parcels) speaks of parcels.
//! - `SectionWords` and `JournalShort`, of `bm_law_lives`, count the words of sections and speak of fewer units than were wanted.
//! - `LawfulLog` and `LawfulLogs` (specs/Lawful) put them together.
//! - `handlers_law`, `unplanned_law` are laws; `worked_*` and `wrong_*` compute all of it on worked journals and on wrong
//!   neighbours.
//!
//! Every contract of a run leads here: `bm_exec` and `bm_exec_levels` say what they leave by `Runs`, `bm_closing` by the
//! closing's parts.
//!
//! The statements and their replies are this project's own; what an allocation and a free record is `bm_law`'s. The laws over all
//! logs together are in `bm_law_lives`, and the page that puts everything together is in `bm_law_journal`.
#![tactic(auto)]

mod deferred;
mod drops;
mod handlers;
mod interrupted;
mod lists;
mod openings;
mod references;
mod sections;
mod slots;
mod worked;
mod worked_journal;

pub use deferred::{worked_deferred, worked_flags, worked_parcels, worked_periods, wrong_deferred};
pub use drops::worked_drops;
pub use handlers::{handlers_law, unplanned_law};
pub use interrupted::{worked_handlers, wrong_handlers, wrong_words};
pub use lists::{worked_lists, worked_visit, wrong_lists};
pub use openings::worked_openings;
pub use references::{worked_reads, worked_references};
pub use sections::{worked_sections, wrong_sections};
pub use slots::worked_slots;
pub use worked::{worked_classes, worked_graphs, worked_names};
pub use worked_journal::{worked_journals, wrong_journals};
