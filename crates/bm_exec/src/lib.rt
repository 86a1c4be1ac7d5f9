//! The runner of scripts, over any machine.
//!
//! - `Machine` is the trait: what a statement needs of a processor. `create` asks for an object, `acquire` for one more reference to
//!   it, `read` reads a field of it, and `dispose` gives a reference up, and ends the object with its last one; `exchange` puts a
//!   reference or null into a slot and takes what was there; `lock` and `unlock` take and give back the lock of a list or tree, `push`,
//!   `pop`, `first` and `remove` are the calls on one, and `look` reads a field of an object that is in one; `enter` and `leave` are a
//!   plain section's begin and end, `pause` is a yield, `settle` is the work after a statement; `keeps` is what a call leaves as it was.
//! - `Frame` is where a running script stands: a position over the scenario's own blocks, with those that are open (`Open`) and the
//!   lock that is held in each, in place. Beside it stands the table of its names (`NameTable`). `Holding` is what a name holds.
//! - `Activation` is a script that has begun: its frame and its names. `resume` runs the script of a frame to its next `yield` or
//!   its end, and `Stopped` says why it stopped. `run_handler` runs a handler's script whole, with names that were made beforehand, so
//!   with no memory but the recorder's.
//!
//! `worked_turns` computes what a turn leaves in a log.
//!
//! `bm_exec_levels` has the machines.
//!
//! A script that the checker accepted finds what it needs: no statement meets a name that holds nothing, and at its end the names
//! own nothing. What it leaves in the log is a run of its block (`RunsBlock` of `bm_law_scenario`).
//!
//! The language is this project's own; the statements stand for bpf_obj_new, bpf_obj_drop, bpf_refcount_acquire, bpf_kptr_xchg,
//! bpf_spin_lock, bpf_list_push_front, bpf_list_pop_front, bpf_rbtree_add and their like of kernel/bpf/helpers.c.
#![tactic(auto)]

mod activation;
mod binding;
mod frame;
mod holding;
mod machine;
mod names;
mod running;
mod turns;

pub use activation::Activation;
pub use frame::{Frame, Next, Open};
pub use holding::Holding;
pub use machine::Machine;
pub use names::NameTable;
pub use running::{Stopped, Types, resume, run_handler};
pub use turns::worked_turns;
