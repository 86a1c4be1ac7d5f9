//! A desk for tests, on which a handler may run before the third step, and the host of that handler, which borrows what the
//! desk owns.

ghost use Rattle.std.specs.Prelude.{◌≡◌, ℕ, ◌+◌, if◌then◌else◌, refl};
ghost use Rattle.std.proofs.Common.{◌∙◌, ap};
ghost use Rattle.bm_cache.specs.Span.{Came, Face, Fine, Goes};
ghost use Rattle.bm_work.specs.DeskTests.{tests_by};
ghost use Rattle.bm_work.specs.Goes.{Alike};
ghost use Rattle.bm_work.specs.Still.{alike-joined, alike-still, goes-still};

use crate::still_desk::Gives;
use bm_cache::{Caches, Given, Host, alloc};
use bm_class::Class;
use bm_journal::{Level, Recorder};
use bm_page::Unit;
use bm_work::Desk;
use bm_world::World;

/// What a processor has: its caches, and its side of all that processors share.
pub(crate) struct Kept<R, S> {
    pub caches: Caches<R>,
    pub side: S,
}

/// A desk at level 0, which owns the caches and the side. Before the third step its handler runs, if it waits: at level 1 it takes
/// seven units of a class, which are held. This project's own, for tests.
pub(crate) struct Ground<R, S> {
    pub kept: Kept<R, S>,
    /// The units that the handler took. It takes no memory where there is room for seven.
    pub held: Vec<Unit>,
    /// The class that it takes from.
    pub class: Class,
    /// Whether it hasn't run.
    pub waits: bool,
}

/// Level 1: it borrows what level 0 owns, and no handler runs above it.
struct Upper<'a, R, S> {
    kept: &'a mut Kept<R, S>,
    level: Level,
}

impl<'a, R: Recorder, S: World> Gives<R> for Upper<'a, R, S> {
    ghost sound_gave = { λ u n h s. s };
}

impl<R: Recorder, S: World> Host<R> for Ground<R, S> {
    ghost held = { λ m. m.kept.caches };

    ghost with_held = { λ m c. record m { kept = record m.kept { caches = c } } };

    ghost face = { λ m. record
        { level = 0; processors = (S.Knows.known m.kept.side).grace.processors; through = 0 } };

    ghost pending = { λ m. if m.waits then 1 else 0 };

    ghost tests = { λ m. tests_by (S.Knows.rights m.kept.side) };

    ghost sound = { λ m. Unit {0} };

    ghost asked = { λ m. Unit {0} };

    ghost gave = { λ _ _ m. Unit {0} };

    ghost frees = { λ _ _ m. Unit {0} };

    ghost keeps = { λ a b. b.kept.side ≡ a.kept.side };

    ghost held_back = { λ h c. refl };

    ghost face_back = { λ h c. refl };

    ghost pending_back = { λ h c. refl };

    ghost tests_back = { λ h c. refl };

    ghost sound_back = { λ h c p e s. s };

    ghost asked_back = { λ h c p e s. s };

    ghost sound_stepped = { λ h c e i p a k. k };

    ghost sound_said = { λ h c e i p a s. s };

    ghost sound_given = { λ h c u n x p a s. s };

    ghost sound_freed = { λ h c e u n i p a s. s };

    ghost keeps_back = { λ h c. refl };

    ghost keeps_same = { λ h. refl };

    ghost keeps_join = { λ a b c k m. m ∙ k };

    fn caches(&mut self) -> &mut Caches<R> {
        let kept = &mut self.kept;
        &mut kept.caches
    }

    fn level(&self) -> Level {
        Level::ordinary()
    }

    fn point(&mut self) {
        if self.waits && 3 <= self.kept.caches.next_step() {
            self.waits = false;
            run_handler(&mut self.kept, &mut self.held, self.class);
        }
    }
}

impl<R: Recorder, S: World> Desk<R> for Ground<R, S> {
    type W = S;

    ghost shared = { λ m. m.kept.side };

    ghost with_shared = { λ m w. record m { kept = record m.kept { side = w } } };

    ghost stays = { λ a b. Alike (S.Knows.known a.kept.side) (S.Knows.known b.kept.side) };

    ghost owes = { λ _ _ m. Unit {0} };

    ghost asked_owes = { λ _ m. Unit {0} };

    ghost minds = { ⊥ };

    ghost rested = { λ _ _ m. Unit {0} };

    ghost asked_rested = { λ _ _ _ m. Unit {0} };

    fn world(&mut self) -> &mut S {
        let kept = &mut self.kept;
        &mut kept.side
    }

    ghost shared_back = { λ h w. refl };

    ghost held_apart = { λ h w. refl };

    ghost shared_apart = { λ h c. refl };

    ghost face_apart = { λ h w a. ap
        (λ n. let f : Face = record { level = 0; processors = n; through = 0 } in f) a.processors };

    ghost pending_apart = { λ h w. refl };

    ghost stays_apart = { λ h w a. a };

    ghost tests_are = { λ h. refl };

    ghost processors_are = { λ h. refl };

    ghost known_goes = { λ a b k. goes-still (S.Knows.known a.kept.side) (S.Knows.known b.kept.side)
        (ap S.Knows.known k) };

    ghost keeps_stays = { λ a b k. alike-still (S.Knows.known a.kept.side)
        (S.Knows.known b.kept.side) (ap S.Knows.known k) };

    ghost stays_join = { λ a b c k m. alike-joined (S.Knows.known a.kept.side)
        (S.Knows.known b.kept.side) (S.Knows.known c.kept.side) k m };

    ghost owes_open = { λ h s. s };

    ghost owes_shut = { λ h o. o };

    ghost owes_done = { λ h w A B es a d o. o };

    ghost owes_said = { λ h c A es e i p a o. o };

    ghost owes_closed = { λ h A es x o. o };

    ghost asked_open = { λ h s. s };

    ghost asked_done = { λ h w A B a d o. o };

    ghost asked_closed = { λ h A x o. o };

    ghost asked_stepped = { λ h c A e i x p a o. o };

    ghost asked_released = { λ h c i to us x n m p a o. o };

    ghost rested_looked = { λ h d x f o. o };

    ghost rested_begun = { λ h d x n b w f o. o };

    ghost rested_read = { λ h d x n i z o. o };

    ghost rested_missed = { λ h d x e n o. o };

    ghost rested_whole = { λ h d x n ws p e b w o. o };

    ghost rested_sound = { λ h d x o. o };

    ghost rested_lent = { λ h w d x e o. o };

    ghost rested_kept = { λ a b d x k m s o. o };

    ghost rested_done = { λ h w d x A B a m o. o };

    ghost rested_passed = { λ h c i d x n w p a o. o };
}

impl<'a, R: Recorder, S: World> Host<R> for Upper<'a, R, S> {
    ghost held = { λ m. m.kept.now.caches };

    ghost with_held = { λ m c. record m
        { kept = record m.kept { now = record m.kept.now { caches = c } } } };

    ghost face = { λ m. record {
      level = m.level;
      processors = (S.Knows.known m.kept.now.side).grace.processors;
      through = m.kept.ghost_name;
    } };

    ghost pending = { λ m. 0 };

    ghost tests = { λ m. tests_by (S.Knows.rights m.kept.now.side) };

    ghost sound = { λ m. Unit {0} };

    ghost asked = { λ m. Unit {0} };

    ghost gave = { λ _ _ m. Unit {0} };

    ghost frees = { λ _ _ m. Unit {0} };

    ghost keeps = { λ a b. b.kept.now.side ≡ a.kept.now.side };

    ghost held_back = { λ h c. refl };

    ghost face_back = { λ h c. refl };

    ghost pending_back = { λ h c. refl };

    ghost tests_back = { λ h c. refl };

    ghost sound_back = { λ h c p e s. s };

    ghost asked_back = { λ h c p e s. s };

    ghost sound_stepped = { λ h c e i p a k. k };

    ghost sound_said = { λ h c e i p a s. s };

    ghost sound_given = { λ h c u n x p a s. s };

    ghost sound_freed = { λ h c e u n i p a s. s };

    ghost keeps_back = { λ h c. refl };

    ghost keeps_same = { λ h. refl };

    ghost keeps_join = { λ a b c k m. m ∙ k };

    fn caches(&mut self) -> &mut Caches<R> {
        let kept = &mut *self.kept;
        &mut kept.caches
    }

    fn level(&self) -> Level {
        let _level = self.level.number();
        self.level
    }

    fn point(&mut self) {}
}

fn level_one() -> Level
    ensures { result ≡ 1 }
{
    match Level::new(1) {
        Some(level) => level,
        None => unreachable!(),
    }
}

/// The handler: it takes seven units.
fn run_handler<R: Recorder, S: World>(kept: &mut Kept<R, S>, held: &mut Vec<Unit>, class: Class)
    requires fine { Fine R.log R.counts (tests_by (S.Knows.rights kept.old.side))
        (S.Knows.known kept.old.side).grace.processors 1 kept.old.caches }
    ensures fine { Fine R.log R.counts (tests_by (S.Knows.rights kept.new.side))
        (S.Knows.known kept.new.side).grace.processors 1 kept.new.caches }
    ensures came { Came R.log 1 (tests_by (S.Knows.rights kept.old.side))
        (tests_by (S.Knows.rights kept.new.side)) kept.old.caches kept.new.caches }
    ensures side { kept.new.side ≡ kept.old.side }
{
    let mut upper = Upper {
        kept,
        level: level_one(),
    };
    take_seven(&mut upper, held, class);
    let Upper { kept: _, level: _ } = upper;
}

/// Seven allocations.
fn take_seven<R: Recorder, H: Gives<R>>(host: &mut H, held: &mut Vec<Unit>, class: Class)
    requires sound { H.sound host.old }
    requires fine { Fine R.log R.counts (H.tests host.old) (H.face host.old).processors
        (H.face host.old).level (H.held host.old) }
    ensures came { Came R.log (H.face host.old).level (H.tests host.old) (H.tests host.new)
        (H.held host.old) (H.held host.new) }
    ensures fine { Fine R.log R.counts (H.tests host.new) (H.face host.new).processors
        (H.face host.new).level (H.held host.new) }
    ensures goes { Goes H.face H.pending H.keeps host.old host.new }
    ensures sound { H.sound host.new }
{
    for _turn in 0..7u8 {
        take_one(host, held, class);
    }
}

/// An allocation, and the unit is held.
fn take_one<R: Recorder, H: Gives<R>>(host: &mut H, held: &mut Vec<Unit>, class: Class)
    requires sound { H.sound host.old }
    requires fine { Fine R.log R.counts (H.tests host.old) (H.face host.old).processors
        (H.face host.old).level (H.held host.old) }
    ensures came { Came R.log (H.face host.old).level (H.tests host.old) (H.tests host.new)
        (H.held host.old) (H.held host.new) }
    ensures fine { Fine R.log R.counts (H.tests host.new) (H.face host.new).processors
        (H.face host.new).level (H.held host.new) }
    ensures goes { Goes H.face H.pending H.keeps host.old host.new }
    ensures sound { H.sound host.new }
{
    match alloc(host, class) {
        Given::Unit(unit) => hold(held, unit),
        Given::Empty | Given::Busy(_) => {}
    }
}

/// A unit is held, where there is room for it.
fn hold(held: &mut Vec<Unit>, unit: Unit) {
    if let Err(refused) = held.push(unit) {
        refused.value.give_up();
    }
}
