//! Laws of all logs of a journal together, each stated by itself. Nothing in this crate runs.
//!
//! - `WholeLives` (specs/Lives): the lives of a unit are 1, 2, .., n, each begun once and ended once, by a free to its home.
//! - `FreedAsGiven` (specs/Units): all logs together free each unit as often as they give it.
//! - `ReturnsLaw` (specs/Returns): each unit goes back to the stock as often as it was taken from it, and each parcel arrives.
//! - `WholeGrace` (specs/GraceLaw): periods begin with 1, 3, .. and end with 2, 4, .., each once, and only when all words pass.
//! - `StampLaw` (specs/StampLaw): a stamp waits long enough, a seal is a batch's, and units go back after their batch's pass.
//! - `SectionWords` counts the words of a log's sections, and `JournalShort` (specs/Short) speaks of fewer units than were wanted. Both
//!   are put to work in `bm_law_scenario`.
//! - `worked_*` compute them on worked journals of one and two processors, and on wrong neighbours (specs/Worked, Wrong).
//!
//! That a run meets them is proved in `bm_law_laid` and `bm_law_seals`, from the one order of all entries, and in `bm_law_logs`, from
//! what is proved of each log. `bm_law_journal` cites all four.
//!
//! Lives, seals and journals are this project's own; that memory is given back, and when, is kernel/bpf/memalloc.c's.
#![tactic(auto)]

mod worked;

pub use worked::{worked_grace, worked_lives, worked_returns, worked_stamps};
