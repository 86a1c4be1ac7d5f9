//! Input and output of whole texts: sources and sinks of bytes, over memory and over std's readers and writers; the
//! whole of a source read up to a limit, and a text written and flushed.
#![tactic(auto)]

mod device;
mod input;
mod memory;
mod output;
mod plan;
mod sure;
mod whole;

pub use bm_word::{NoMemory, put_number, read_number};
pub use device::{StdSink, StdSource};
pub use input::{Read, Source};
pub use memory::{MemSink, MemSource};
pub use output::{Flushed, Sink, Wrote};
pub use sure::{SureSink, SureSource};
pub use whole::{TextFault, read_all, write_all};
