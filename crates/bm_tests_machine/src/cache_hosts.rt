//! Hosts for tests: one that owns the caches, and two that borrow them, each from the one below.

ghost use Rattle.std.specs.Prelude.{◌≡◌, ◌+◌, ◌-◌, ◌<◌, ◌≤◌, ◌∷◌, ◌++◌, [], ℕ, List, Option, refl, true, false};
ghost use Rattle.bm_law.specs.State.{seen};
ghost use Rattle.bm_law.specs.Stands.{stands};
ghost use Rattle.bm_cache.specs.Tokens.{number_of};
ghost use Rattle.bm_cache.specs.Tests.{Reusable, Waits};
ghost use Rattle.bm_cache.specs.Shown.{shown};
ghost use Rattle.bm_cache.specs.Span.{Came, Fine, Goes};
ghost use Rattle.bm_tests_machine.specs.Holding.{Holding, handlers_left, tests_beside};

use bm_cache::{Caches, Host, free, free_delayed};
use bm_journal::{Level, Recorder};
use bm_page::Unit;

/// When the two handlers run, and how they free.
#[derive(Clone, Copy)]
pub(crate) struct Plan {
    /// The step before which the first handler runs, at level 1.
    pub(crate) first: u64,
    /// The step before which the second one runs, at level 2.
    pub(crate) second: u64,
    /// Whether they haven't run yet.
    pub(crate) first_left: bool,
    pub(crate) second_left: bool,
    /// Whether they free with delay.
    pub(crate) delayed: bool,
}

/// The caches, units that are held, of which each handler frees the last one, and the plan.
pub(crate) struct Kept<R> {
    pub(crate) caches: Caches<R>,
    pub(crate) units: Vec<Unit>,
    pub(crate) plan: Plan,
}

/// Level 0: it owns the caches.
pub(crate) struct Ground<R> {
    pub(crate) kept: Kept<R>,
}

/// Level 1: it borrows what level 0 owns.
pub(crate) struct First<'a, R> {
    kept: &'a mut Kept<R>,
    level: Level,
}

/// Level 2: it borrows the same, and no handler runs above it.
pub(crate) struct Second<'a, R> {
    kept: &'a mut Kept<R>,
    level: Level,
}

impl<R: Recorder> Host<R> for Ground<R> {
    ghost held = { λ m. m.kept.caches };

    ghost with_held = { λ m c. record m { kept = record m.kept { caches = c } } };

    ghost face = { λ m. record { level = 0; processors = 1; through = 0 } };

    ghost pending = { λ m. handlers_left m.kept.plan.first_left m.kept.plan.second_left };

    ghost tests = { λ m. tests_beside m.kept.units.items };

    ghost sound = { λ m. Holding 1 m.kept.units.items };

    ghost asked = { λ m. Holding 1 m.kept.units.items };

    ghost gave = { λ u n m. Holding 1 m.kept.units.items };

    ghost frees = { λ u n m. Holding 1 m.kept.units.items };

    ghost keeps = { λ a b. Unit {0} };

    ghost held_back = { λ h c. refl };

    ghost face_back = { λ h c. refl };

    ghost pending_back = { λ h c. refl };

    ghost tests_back = { λ h c. refl };

    ghost asked_back = { λ h c p e s. s };

    ghost sound_back = { λ h c p e s. s };

    ghost sound_stepped = { λ h c e i p a k. k };

    ghost sound_said = { λ h c e i p a s. s };

    ghost sound_given = { λ h c u n x p a s. s };

    ghost sound_freed = { λ h c e u n i p a s. s };

    ghost keeps_back = { λ h c. tt };

    ghost keeps_same = { λ h. tt };

    ghost keeps_join = { λ a b c k m. tt };

    fn caches(&mut self) -> &mut Caches<R> {
        let kept = &mut self.kept;
        &mut kept.caches
    }

    fn level(&self) -> Level {
        Level::ordinary()
    }

    fn point(&mut self) {
        let plan = self.kept.plan;
        if plan.first_left && plan.first <= self.kept.caches.next_step() {
            self.kept.plan.first_left = false;
            run_first(&mut self.kept, level_one());
        }
    }
}

impl<'a, R: Recorder> Host<R> for First<'a, R> {
    ghost held = { λ m. m.kept.now.caches };

    ghost with_held = { λ m c. record m
        { kept = record m.kept { now = record m.kept.now { caches = c } } } };

    ghost face = { λ m. record { level = m.level; processors = 1; through = m.kept.ghost_name } };

    ghost pending = { λ m. handlers_left m.kept.now.plan.first_left m.kept.now.plan.second_left };

    ghost tests = { λ m. tests_beside m.kept.now.units.items };

    ghost sound = { λ m. Holding 1 m.kept.now.units.items × (m.level ≡ 1) };

    ghost asked = { λ m. Holding 1 m.kept.now.units.items × (m.level ≡ 1) };

    ghost gave = { λ u n m. Holding 1 m.kept.now.units.items × (m.level ≡ 1) };

    ghost frees = { λ u n m. Holding 1 m.kept.now.units.items × (m.level ≡ 1) };

    ghost keeps = { λ a b. Unit {0} };

    ghost held_back = { λ h c. refl };

    ghost face_back = { λ h c. refl };

    ghost pending_back = { λ h c. refl };

    ghost tests_back = { λ h c. refl };

    ghost asked_back = { λ h c p e s. s };

    ghost sound_back = { λ h c p e s. s };

    ghost sound_stepped = { λ h c e i p a k. k };

    ghost sound_said = { λ h c e i p a s. s };

    ghost sound_given = { λ h c u n x p a s. s };

    ghost sound_freed = { λ h c e u n i p a s. s };

    ghost keeps_back = { λ h c. tt };

    ghost keeps_same = { λ h. tt };

    ghost keeps_join = { λ a b c k m. tt };

    fn caches(&mut self) -> &mut Caches<R> {
        let kept = &mut *self.kept;
        &mut kept.caches
    }

    fn level(&self) -> Level {
        let _level = self.level.number();
        self.level
    }

    fn point(&mut self) {
        let plan = self.kept.plan;
        if plan.second_left && plan.second <= self.kept.caches.next_step() {
            self.kept.plan.second_left = false;
            run_second(self.kept, level_two());
        }
    }
}

impl<'a, R: Recorder> Host<R> for Second<'a, R> {
    ghost held = { λ m. m.kept.now.caches };

    ghost with_held = { λ m c. record m
        { kept = record m.kept { now = record m.kept.now { caches = c } } } };

    ghost face = { λ m. record { level = m.level; processors = 1; through = m.kept.ghost_name } };

    ghost pending = { λ m. handlers_left m.kept.now.plan.first_left m.kept.now.plan.second_left };

    ghost tests = { λ m. tests_beside m.kept.now.units.items };

    ghost sound = { λ m. Holding 1 m.kept.now.units.items };

    ghost asked = { λ m. Holding 1 m.kept.now.units.items };

    ghost gave = { λ u n m. Holding 1 m.kept.now.units.items };

    ghost frees = { λ u n m. Holding 1 m.kept.now.units.items };

    ghost keeps = { λ a b. Unit {0} };

    ghost held_back = { λ h c. refl };

    ghost face_back = { λ h c. refl };

    ghost pending_back = { λ h c. refl };

    ghost tests_back = { λ h c. refl };

    ghost asked_back = { λ h c p e s. s };

    ghost sound_back = { λ h c p e s. s };

    ghost sound_stepped = { λ h c e i p a k. k };

    ghost sound_said = { λ h c e i p a s. s };

    ghost sound_given = { λ h c u n x p a s. s };

    ghost sound_freed = { λ h c e u n i p a s. s };

    ghost keeps_back = { λ h c. tt };

    ghost keeps_same = { λ h. tt };

    ghost keeps_join = { λ a b c k m. tt };

    fn caches(&mut self) -> &mut Caches<R> {
        let kept = &mut *self.kept;
        &mut kept.caches
    }

    fn level(&self) -> Level {
        let _level = self.level.number();
        self.level
    }

    fn point(&mut self) {}
}

fn level_one() -> Level
    ensures { result ≡ 1 }
{
    match Level::new(1) {
        Some(level) => level,
        None => unreachable!(),
    }
}

fn level_two() -> Level
    ensures { result ≡ 2 }
{
    match Level::new(2) {
        Some(level) => level,
        None => unreachable!(),
    }
}

/// The first handler frees the last held unit.
fn run_first<'a, R: Recorder>(kept: &'a mut Kept<R>, level: Level)
    requires level { level ≡ 1 }
    requires holding { Holding 1 kept.old.units.items }
    requires fine { Fine R.log R.counts (tests_beside kept.old.units.items) 1 1 kept.old.caches }
    ensures holding { Holding 1 kept.new.units.items }
    ensures fine { Fine R.log R.counts (tests_beside kept.new.units.items) 1 1 kept.new.caches }
    ensures came { Came R.log 1 (tests_beside kept.old.units.items)
        (tests_beside kept.new.units.items) kept.old.caches kept.new.caches }
    ensures left { handlers_left kept.new.plan.first_left kept.new.plan.second_left
        ≤ handlers_left kept.old.plan.first_left kept.old.plan.second_left }
{
    let delayed = kept.plan.delayed;
    if let Some(unit) = kept.units.pop() {
        let mut upper = First { kept, level };
        handler(&mut upper, unit, delayed);
        let First { kept: _, level: _ } = upper;
    }
}

/// The second handler frees the last held unit.
fn run_second<'a, R: Recorder>(kept: &'a mut Kept<R>, level: Level)
    requires level { level ≡ 2 }
    requires holding { Holding 1 kept.old.units.items }
    requires fine { Fine R.log R.counts (tests_beside kept.old.units.items) 1 2 kept.old.caches }
    ensures holding { Holding 1 kept.new.units.items }
    ensures fine { Fine R.log R.counts (tests_beside kept.new.units.items) 1 2 kept.new.caches }
    ensures came { Came R.log 2 (tests_beside kept.old.units.items)
        (tests_beside kept.new.units.items) kept.old.caches kept.new.caches }
    ensures left { handlers_left kept.new.plan.first_left kept.new.plan.second_left
        ≤ handlers_left kept.old.plan.first_left kept.old.plan.second_left }
{
    let delayed = kept.plan.delayed;
    if let Some(unit) = kept.units.pop() {
        let mut upper = Second { kept, level };
        handler(&mut upper, unit, delayed);
        let Second { kept: _, level: _ } = upper;
    }
}

/// What a handler does: it frees a unit.
pub(crate) fn handler<R: Recorder, H: Host<R>>(host: &mut H, unit: Unit, delayed: bool)
    requires frees { H.frees unit.number unit.home host.old }
    requires fine { Fine R.log R.counts (H.tests host.old) (H.face host.old).processors
        (H.face host.old).level (H.held host.old) }
    requires fresh { stands unit.number (seen number_of (shown (H.held host.old))) ≡ 0 }
    requires lives { unit.life + 1 < 4294967296 }
    requires home { unit.home < (H.face host.old).processors }
    requires reusable { Reusable (H.tests host.old) unit }
    requires waits { Waits (H.tests host.old) unit }
    ensures came { Came R.log (H.face host.old).level (H.tests host.old) (H.tests host.new)
        (H.held host.old) (H.held host.new) }
    ensures fine { Fine R.log R.counts (H.tests host.new) (H.face host.new).processors
        (H.face host.new).level (H.held host.new) }
    ensures goes { Goes H.face H.pending H.keeps host.old host.new }
    ensures sound { H.sound host.new }
{
    if delayed {
        free_delayed(host, unit);
    } else {
        free(host, unit);
    }
}
