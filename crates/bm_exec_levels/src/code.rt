//! The machine on which handlers run.

use crate::calls::{acquire, exchange, give_up, make, read_field};
use crate::graphs::{first_item, give_lock_back, look, pop, put, remove, take_lock};
use crate::host::At;
use crate::ranks::Rank;
use bm_class::Class;
use bm_exec::Machine;
use bm_graph::{End, Way};
use bm_journal::{Entry, ObjId, Values};
use bm_lang::{MapId, TypeId};
use bm_word::{Name, NoMemory};
use bm_world::{Lives, Since};

impl<'a, 's, W: Lives, B: Since<W>, L: Rank> Machine for At<'a, 's, W, B, L> {
    ghost use Rattle.std.specs.Prelude.{◌≡◌, None, refl, true};
    ghost use Rattle.std.proofs.Common.{◌∙◌, ap};
    ghost use Rattle.bm_plan.specs.Position.{StandsAt};
    ghost use Rattle.bm_law_scenario.specs.Declared.{declared_in};
    ghost use Rattle.bm_exec_levels.specs.declared.program.Program.{Program as ProgramValue};
    ghost use Rattle.bm_exec_levels.specs.AtProcessor.{FineAt, IsAt, guarded_of, lists_of, lives_of, log_of};
    ghost use Rattle.bm_exec_levels.specs.AtTie.{TiedAt};
    ghost use Rattle.bm_exec_levels.specs.Ready.{asked_of, known_of};
    ghost use Rattle.bm_exec_levels.specs.RunsOn.{RunsOn, runs-joined, runs-same};

    ghost log = { λ m. log_of m.own.now };

    ghost lists = { λ m. lists_of m.own.now };

    ghost processor = { λ m. m.own.now.caches.processor };

    ghost level = { λ m. L.number };

    ghost declared = { λ m. declared_in m.program.now.scenario.now };

    ghost lives = { λ m. lives_of W.Knows m.own.now };

    ghost guarded = { λ m. guarded_of W.Knows m.own.now };

    // A handler runs in a plain section from its begin to its end.
    ghost around = { λ m. record { whole = true; begun = None } };

    ghost asked = { λ m. asked_of W.Knows m.program.now.scenario.now m.own.now };

    ghost behind = { λ m. None };

    ghost through = { λ m. m.own.ghost_name };

    ghost sound = { λ m. IsAt W.Knows StandsAt L.number m.program.now m.own.now
        × FineAt W.Knows L.number m.own.now × TiedAt W.Knows B.since B.start m.own.now };

    ghost keeps = { λ a b. RunsOn W.Knows L.number a.program.now a.own.now b.own.now
        × (b.program.now ≡ a.program.now) };

    fn create(
        &mut self,
        class: Class,
        type_id: TypeId,
        name: Name,
        values: Values,
    ) -> Option<ObjId> {
        make::<W, B, L>(self.own, self.program, class, type_id, name, values)
    }

    fn acquire(&mut self, object: ObjId) {
        acquire::<W, B, L>(self.own, self.program, object);
    }

    fn read(&mut self, object: ObjId, place: u8) {
        read_field::<W, B, L>(self.own, self.program, object, place);
    }

    fn dispose(&mut self, object: ObjId, counted: bool) {
        give_up::<W, B, L>(self.own, self.program, object, counted);
    }

    fn exchange(&mut self, slot: MapId, name: Name, put: Option<ObjId>) -> Option<ObjId> {
        exchange::<W, B, L>(self.own, self.program, slot, name, put)
    }

    fn lock(&mut self, graph: MapId, name: Name) {
        take_lock::<W, B, L>(self.own, self.program, graph, name);
    }

    fn unlock(&mut self, graph: MapId, name: Name) {
        give_lock_back::<W, B, L>(self.own, self.program, graph, name);
    }

    fn push(
        &mut self,
        graph: MapId,
        name: Name,
        way: Way,
        object: ObjId,
    ) -> Result<bool, NoMemory> {
        put::<W, B, L>(self.own, self.program, graph, name, way, object)
    }

    fn pop(&mut self, graph: MapId, name: Name, end: End) -> Result<Option<ObjId>, NoMemory> {
        pop::<W, B, L>(self.own, self.program, graph, name, end)
    }

    fn first(&mut self, graph: MapId, name: Name) -> Result<Option<ObjId>, NoMemory> {
        first_item::<W, B, L>(self.own, self.program, graph, name)
    }

    fn remove(&mut self, graph: MapId, name: Name, object: ObjId) -> Result<(), NoMemory> {
        remove::<W, B, L>(self.own, self.program, graph, name, object)
    }

    fn look(&mut self, object: ObjId, place: u8) {
        look::<W, B, L>(self.own, self.program, object, place);
    }

    fn is_inside(&self) -> bool {
        true
    }

    // It is in a plain section already.
    fn enter(&mut self) {}

    // So no statement of it began one.
    fn leave(&mut self) {}

    fn pause(&mut self) {
        self.own.caches.note(L::level(), Entry::Yield);
    }

    fn settle(&mut self) -> Result<(), NoMemory> {
        Ok(())
    }

    ghost told = { λ m s. s.1.placed.told };

    ghost keeps_same = { λ m. (runs-same W.Knows L.number m.program.now m.own.now, refl) };

    ghost keeps_declared = { λ a b k. ap (λ (p : ProgramValue). declared_in p.scenario.now) k.1 };

    ghost keeps_join = { λ a b c x y. (
      runs-joined W.Knows L.number a.program.now b.program.now
          a.own.now b.own.now c.own.now x.1 x.0 y.0,
      y.1 ∙ x.1,
    ) };
}
