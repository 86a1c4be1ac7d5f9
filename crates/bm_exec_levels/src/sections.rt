//! Sections of either domain.

ghost use Rattle.std.specs.Prelude.{◌≡◌, ◌+◌, ◌*◌, ◌%◌, ◌<◌, ◌^◌, false, length, true};
ghost use Rattle.bm_journal.specs.declared.entry.Entry.TheVariants as entry;
ghost use Rattle.bm_journal.specs.declared.ids.Domain.TheVariants.{Plain};
ghost use Rattle.bm_journal.specs.Recording.{Appends};
ghost use Rattle.bm_grace.specs.Calls.{entered, left};
ghost use Rattle.bm_cache.specs.Shown.{shown};
ghost use Rattle.bm_exec_levels.specs.AtProcessor.{CameAt, FineAt, IsAt, log_of};
ghost use Rattle.bm_exec_levels.specs.AtTie.{TiedAt};
ghost use Rattle.bm_law.specs.Begun.{for_domain};
ghost use Rattle.bm_law.specs.Lists.{Log};
ghost use Rattle.bm_exec_levels.specs.Ready.{known_of, left_of, word_of};
ghost use Rattle.bm_exec_levels.specs.declared.program.Program.{Program as ProgramValue};
ghost use Rattle.bm_plan.specs.Position.{StandsAt};
ghost use Rattle.bm_grace.specs.Rights.{AsBefore};

use crate::processor::Processor;
use bm_grace::Grace;
use bm_journal::{Domain, Entry, Level};
use bm_world::Lives;

// Whether the processor is in a plain section, where one of this domain begins or ends.
fn inside_after(domain: Domain, begins: bool, inside: bool) -> bool
    ensures { result ≡ for_domain Plain domain begins inside }
{
    match domain {
        Domain::Plain => begins,
        Domain::Tracing => inside,
    }
}

/// Begins a section of a domain at a level, where there is none, and records it. It takes no memory but the recorder's. It stands for
/// rcu_read_lock of include/linux/rcupdate.h, and for rcu_read_lock_trace of include/linux/rcupdate_trace.h.
pub fn enter_section<W: Lives>(own: &mut Processor<W>, level: Level, domain: Domain)
    requires fine { FineAt W.Knows level own.old }
    requires outside { word_of W.Knows domain own.old % 2 ≡ 0 }
    requires room { word_of W.Knows domain own.old + 1 < 2 ^ 28 }
    ensures said { Appends (log_of own.old) level
        (entry.In domain (word_of W.Knows domain own.old + 1)) (log_of own.new) }
    ensures at { (p : ProgramValue) → IsAt W.Knows StandsAt level p own.old
        → word_of W.Knows Plain own.old + 2 * length (left_of own.old) + 1 < 2 ^ 28
        → IsAt W.Knows StandsAt level p own.new }
    ensures tied { (since : Log) (start : W) → TiedAt W.Knows since start own.old
        → TiedAt W.Knows since start own.new }
    ensures fine { FineAt W.Knows level own.new }
    ensures came { CameAt W.Knows level own.old own.new }
    ensures lists { shown own.new.caches ≡ shown own.old.caches }
    ensures known { known_of W.Knows own.new
        ≡ entered W.Knows.tells domain (known_of W.Knows own.old) }
    ensures rights { AsBefore (W.Knows.rights own.old.side) (W.Knows.rights own.new.side) }
    ensures inside { own.new.inside ≡ for_domain Plain domain true own.old.inside }
    ensures same { own.new
        ≡ record own.old { caches = own.new.caches; side = own.new.side; inside = own.new.inside } }
{
    let word = own.side.enter(domain);
    own.inside = inside_after(domain, true, own.inside);
    own.caches.note(level, Entry::In(domain, word));
}

/// Ends the section of a domain at a level, and records it. It takes no memory but the recorder's. It stands for rcu_read_unlock of
/// include/linux/rcupdate.h, and for rcu_read_unlock_trace of include/linux/rcupdate_trace.h.
pub fn leave_section<W: Lives>(own: &mut Processor<W>, level: Level, domain: Domain)
    requires fine { FineAt W.Knows level own.old }
    requires inside { word_of W.Knows domain own.old % 2 ≡ 1 }
    ensures said { Appends (log_of own.old) level
        (entry.Out domain (word_of W.Knows domain own.old + 1)) (log_of own.new) }
    ensures at { (p : ProgramValue) → IsAt W.Knows StandsAt level p own.old
        → word_of W.Knows Plain own.old + 2 * length (left_of own.old) + 1 < 2 ^ 28
        → IsAt W.Knows StandsAt level p own.new }
    ensures tied { (since : Log) (start : W) → TiedAt W.Knows since start own.old
        → TiedAt W.Knows since start own.new }
    ensures fine { FineAt W.Knows level own.new }
    ensures came { CameAt W.Knows level own.old own.new }
    ensures lists { shown own.new.caches ≡ shown own.old.caches }
    ensures known { known_of W.Knows own.new
        ≡ left W.Knows.tells domain (known_of W.Knows own.old) }
    ensures rights { AsBefore (W.Knows.rights own.old.side) (W.Knows.rights own.new.side) }
    ensures inside { own.new.inside ≡ for_domain Plain domain false own.old.inside }
    ensures same { own.new
        ≡ record own.old { caches = own.new.caches; side = own.new.side; inside = own.new.inside } }
{
    let word = own.side.leave(domain);
    own.inside = inside_after(domain, false, own.inside);
    own.caches.note(level, Entry::Out(domain, word));
}
