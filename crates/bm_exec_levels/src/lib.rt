//! Machines of four levels on a processor, on which planned handlers run between any two steps, each on the machine of its own
//! level; and the deferred work after each statement of a script, and after each script.
//!
//! - `Processor` is what a processor has: caches, its side of a world (any `Lives` of `bm_world`), the handlers that haven't run.
//! - `Kept` is what it keeps between its turns: `Processor::open` gives it its side of the world, and `close` takes that back.
//! - `At` is the machine of a level (`Ordinary`, `First`, `Second` or `Third`, by `Rank`), which borrows the processor: a host, a
//!   desk, and what statements run on. Before each step its point asks which handler is due, and runs it whole.
//! - `Ground` is ordinary code with `Deferred` work after its statements: `until_down` after each statement, `settle_script` and
//!   `work_behind` after a script. `enter_section` and `leave_section` are the sections of scripts.
//! - `exchange` and `give_up` are calls of a level for what a slot holds, `pop`, `first_item` and `remove` those for lists and trees: the closing
//!   of a run empties the maps by them. A list or tree is called under its lock, or in the closing.
//! - `Program` is what is run, `Since` the time since which a processor is tied to its log.
//!
//! `bm_run` opens a processor, runs scripts on it, and closes it.
//!
//! Between any two steps the log is one in which the handlers so far stand where they are due, and it is **tied** to the side
//! (`TiedAt`): its lines and the side's acts tell one story (`bm_law_order`). Code leaves the handlers that run, the section, and
//! the objects that live as they were (`Between`).
//!
//! Levels 1 to 3 stand for soft interrupts, hard interrupts and NMIs. All here is of one processor, whichever it is.
#![tactic(auto)]

mod behind;
mod calls;
mod code;
mod flags;
mod graphs;
mod ground;
mod handlers;
mod host;
mod inside;
mod kept;
mod once;
mod processor;
mod program;
mod ranks;
mod sections;

pub use behind::{until_down, work_behind};
pub use bm_world::Since;
pub use calls::{exchange, give_up};
pub use graphs::{first_item, pop, remove};
pub use ground::{Deferred, Ground, settle_script};
pub use host::At;
pub use kept::Kept;
pub use processor::Processor;
pub use program::Program;
pub use ranks::{First, Ordinary, Rank, Second, Third};
pub use sections::{enter_section, leave_section};
