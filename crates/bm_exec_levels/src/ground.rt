//! The machine of ordinary code.

ghost use Rattle.std.specs.Prelude.{◌≡◌, ◌≤◌, ◌+◌, ◌<◌, ◌^◌, [], OnOk, length};
ghost use Rattle.bm_law_work.specs.Grown.{GrewBy};
ghost use Rattle.bm_exec.specs.Lists.{Behind};
ghost use Rattle.bm_law_scenario.specs.Works.{UntilDown, WorkBehind};
ghost use Rattle.bm_exec_levels.specs.AtProcessor.{SameLives, lists_of, log_of};
ghost use Rattle.bm_exec_levels.specs.AtTie.{TiedAt};
ghost use Rattle.bm_exec_levels.specs.Ordinary.{Statements};
ghost use Rattle.bm_exec_levels.specs.Ready.{asked_of};
ghost use Rattle.bm_exec_levels.specs.Sound.{Sound};

use crate::behind::{until_down, work_behind};
use crate::calls::{acquire, exchange, give_up, make, read_field};
use crate::graphs::{first_item, give_lock_back, look, pop, put, remove, take_lock};
use crate::host::At;
use crate::processor::Processor;
use crate::program::Program;
use crate::ranks::Ordinary;
use crate::sections::{enter_section, leave_section};
use bm_class::Class;
use bm_exec::Machine;
use bm_graph::{End, Way};
use bm_journal::{Domain, Entry, Level, ObjId, Values};
use bm_lang::{MapId, TypeId};
use bm_word::{Name, NoMemory};
use bm_world::{Lives, Since};
use std::marker::PhantomData;

/// The classes for which deferred work runs behind statements and scripts; none where none runs.
#[derive(Clone, Copy)]
pub struct Deferred<'s> {
    pub behind: Option<&'s [Class]>,
}

/// Ordinary code on a processor, which it borrows.
pub struct Ground<'a, 's, W, B> {
    pub own: &'a mut Processor<W>,
    pub program: &'s Program<'s>,
    /// The work behind its statements.
    pub deferred: &'s Deferred<'s>,
    /// Whether its script is in a plain section from its begin to its end.
    pub within: bool,
    pub since: PhantomData<B>,
}

// Deferred work behind a statement, until no flag of these classes is up. Want of memory is the only refusal.
fn settle_statement<'s, W: Lives, B: Since<W>>(
    own: &mut Processor<W>,
    program: &'s Program<'s>,
    classes: &'s [Class],
) -> Result<(), NoMemory>
    requires sound { Sound W.Knows program.now own.old }
    requires tied { TiedAt W.Knows B.since B.start own.old }
    requires few { length classes.now ≤ 11 }
    requires room { asked_of W.Knows program.now.scenario.now own.old + 1 < 2 ^ 22 }
    ensures grew { OnOk result
        (GrewBy (UntilDown classes.now) (lists_of own.old) (log_of own.old) (log_of own.new)) }
    ensures down { OnOk result (Behind (Some classes.now) (lists_of own.new) []) }
    ensures lives { OnOk result (SameLives W.Knows own.old own.new) }
    ensures locked { OnOk result (own.new.locked ≡ own.old.locked) }
    ensures asked { OnOk result
        (asked_of W.Knows program.now.scenario.now own.new
        ≤ asked_of W.Knows program.now.scenario.now own.old + 1) }
    ensures statements { OnOk result (Statements W.Knows own.old own.new) }
    ensures sound { OnOk result (Sound W.Knows program.now own.new) }
    ensures tied { OnOk result (TiedAt W.Knows B.since B.start own.new) }
{
    own.settled += 1;
    let alloc = own.alloc;
    let mut at = At::<W, B, Ordinary> {
        own,
        program,
        of: PhantomData,
        since: PhantomData,
    };
    let settled = until_down(alloc, &mut at, classes);
    let At {
        own: _,
        program: _,
        of: _,
        since: _,
    } = at;
    settled
}

/// Deferred work behind a script: the work of each of these classes, and then until no flag is up. Want of memory is the only
/// refusal; the processor is of no further use then.
pub fn settle_script<'s, W: Lives, B: Since<W>>(
    own: &mut Processor<W>,
    program: &'s Program<'s>,
    classes: &'s [Class],
) -> Result<(), NoMemory>
    requires sound { Sound W.Knows program.now own.old }
    requires tied { TiedAt W.Knows B.since B.start own.old }
    requires few { length classes.now ≤ 11 }
    requires room { asked_of W.Knows program.now.scenario.now own.old + 1 < 2 ^ 22 }
    ensures grew { OnOk result
        (GrewBy (WorkBehind classes.now) (lists_of own.old) (log_of own.old) (log_of own.new)) }
    ensures down { OnOk result (Behind (Some classes.now) (lists_of own.new) []) }
    ensures lives { OnOk result (SameLives W.Knows own.old own.new) }
    ensures asked { OnOk result
        (asked_of W.Knows program.now.scenario.now own.new
        ≤ asked_of W.Knows program.now.scenario.now own.old + 1) }
    ensures statements { OnOk result (Statements W.Knows own.old own.new) }
    ensures locked { OnOk result (own.new.locked ≡ own.old.locked) }
    ensures sound { OnOk result (Sound W.Knows program.now own.new) }
    ensures tied { OnOk result (TiedAt W.Knows B.since B.start own.new) }
{
    own.settled += 1;
    let alloc = own.alloc;
    let mut at = At::<W, B, Ordinary> {
        own,
        program,
        of: PhantomData,
        since: PhantomData,
    };
    let settled = work_behind(alloc, &mut at, classes);
    let At {
        own: _,
        program: _,
        of: _,
        since: _,
    } = at;
    settled
}

impl<'a, 's, W: Lives, B: Since<W>> Machine for Ground<'a, 's, W, B> {
    ghost use Rattle.std.specs.Prelude.{◌≡◌, ◌≤◌, ◌+◌, IfSome, length, refl, true};
    ghost use Rattle.std.proofs.Common.{◌∙◌, ap};
    ghost use Rattle.bm_exec_levels.specs.declared.program.Program.{Program as ProgramValue};
    ghost use Rattle.bm_exec.specs.Lists.{behind_of};
    ghost use Rattle.bm_law_scenario.specs.Declared.{declared_in};
    ghost use Rattle.bm_exec_levels.specs.AtProcessor.{guarded_of, lists_of, lives_of, log_of};
    ghost use Rattle.bm_exec_levels.specs.AtTie.{TiedAt};
    ghost use Rattle.bm_exec_levels.specs.Ordinary.{Scripted, around_of, words_of};
    ghost use Rattle.bm_exec_levels.specs.Stated.{scripted-joined, scripted-same};
    ghost use Rattle.bm_exec_levels.specs.Ready.{asked_of, known_of};
    ghost use Rattle.bm_exec_levels.specs.Sound.{Sound};

    ghost log = { λ m. log_of m.own.now };

    ghost lists = { λ m. lists_of m.own.now };

    ghost processor = { λ m. m.own.now.caches.processor };

    ghost level = { λ _. 0 };

    ghost declared = { λ m. declared_in m.program.now.scenario.now };

    ghost lives = { λ m. lives_of W.Knows m.own.now };

    ghost guarded = { λ m. guarded_of W.Knows m.own.now };

    ghost around = { λ m. around_of W.Knows m.within m.own.now };

    ghost asked = { λ m. asked_of W.Knows m.program.now.scenario.now m.own.now
        + words_of W.Knows m.own.now };

    ghost behind = { λ m. behind_of m.deferred.now.behind };

    ghost through = { λ m. m.own.ghost_name };

    ghost sound = { λ m. Sound W.Knows m.program.now m.own.now
        × IfSome m.deferred.now.behind (λ classes. length classes.now ≤ 11)
        × TiedAt W.Knows B.since B.start m.own.now × (m.within ≡ true → m.own.now.inside ≡ true) };

    ghost keeps = { λ a b. Scripted W.Knows a.within a.own.now b.own.now
        × (b.program.now ≡ a.program.now) × (b.within ≡ a.within) };

    fn create(
        &mut self,
        class: Class,
        type_id: TypeId,
        name: Name,
        values: Values,
    ) -> Option<ObjId> {
        make::<W, B, Ordinary>(self.own, self.program, class, type_id, name, values)
    }

    fn acquire(&mut self, object: ObjId) {
        acquire::<W, B, Ordinary>(self.own, self.program, object);
    }

    fn read(&mut self, object: ObjId, place: u8) {
        read_field::<W, B, Ordinary>(self.own, self.program, object, place);
    }

    fn dispose(&mut self, object: ObjId, counted: bool) {
        give_up::<W, B, Ordinary>(self.own, self.program, object, counted);
    }

    fn exchange(&mut self, slot: MapId, name: Name, put: Option<ObjId>) -> Option<ObjId> {
        exchange::<W, B, Ordinary>(self.own, self.program, slot, name, put)
    }

    fn lock(&mut self, graph: MapId, name: Name) {
        take_lock::<W, B, Ordinary>(self.own, self.program, graph, name);
    }

    fn unlock(&mut self, graph: MapId, name: Name) {
        give_lock_back::<W, B, Ordinary>(self.own, self.program, graph, name);
    }

    fn push(
        &mut self,
        graph: MapId,
        name: Name,
        way: Way,
        object: ObjId,
    ) -> Result<bool, NoMemory> {
        put::<W, B, Ordinary>(self.own, self.program, graph, name, way, object)
    }

    fn pop(&mut self, graph: MapId, name: Name, end: End) -> Result<Option<ObjId>, NoMemory> {
        pop::<W, B, Ordinary>(self.own, self.program, graph, name, end)
    }

    fn first(&mut self, graph: MapId, name: Name) -> Result<Option<ObjId>, NoMemory> {
        first_item::<W, B, Ordinary>(self.own, self.program, graph, name)
    }

    fn remove(&mut self, graph: MapId, name: Name, object: ObjId) -> Result<(), NoMemory> {
        remove::<W, B, Ordinary>(self.own, self.program, graph, name, object)
    }

    fn look(&mut self, object: ObjId, place: u8) {
        look::<W, B, Ordinary>(self.own, self.program, object, place);
    }

    fn is_inside(&self) -> bool {
        self.within || self.own.inside
    }

    fn enter(&mut self) {
        if !self.within && !self.own.inside {
            enter_section(self.own, Level::ordinary(), Domain::Plain);
        }
    }

    fn leave(&mut self) {
        if !self.within && self.own.inside {
            leave_section(self.own, Level::ordinary(), Domain::Plain);
        }
    }

    fn pause(&mut self) {
        self.own.caches.note(Level::ordinary(), Entry::Yield);
    }

    fn settle(&mut self) -> Result<(), NoMemory> {
        let Some(classes) = self.deferred.behind else {
            return Ok(());
        };
        settle_statement::<W, B>(self.own, self.program, classes)
    }

    ghost told = { λ m s. s.0.fine.placed.told };

    ghost keeps_same = { λ m. (scripted-same W.Knows m.within m.own.now, refl, refl) };

    ghost keeps_declared = { λ a b k. ap (λ (p : ProgramValue). declared_in p.scenario.now) k.1 };

    ghost keeps_join = { λ a b c x y. (
      scripted-joined W.Knows a.within b.within a.own.now b.own.now
          c.own.now x.2 x.0 y.0,
      y.1 ∙ x.1,
      y.2 ∙ x.2,
    ) };
}
