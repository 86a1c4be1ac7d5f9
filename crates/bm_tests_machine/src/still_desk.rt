//! A desk for tests: one that owns its caches and its side, and on which no handler runs.

ghost use Rattle.std.specs.Prelude.{◌≡◌, ℕ, refl};
ghost use Rattle.std.proofs.Common.{◌∙◌, ap};
ghost use Rattle.bm_cache.specs.Span.{Face};
ghost use Rattle.bm_work.specs.DeskTests.{tests_by};
ghost use Rattle.bm_work.specs.Goes.{Alike};
ghost use Rattle.bm_work.specs.Still.{alike-joined, alike-still, goes-still};

use bm_cache::{Caches, Host};
use bm_closing::Ended;
use bm_journal::{Level, Recorder};
use bm_work::Desk;
use bm_world::World;

/// Caches at level 0 and a side, and no handler.
pub(crate) struct StillDesk<R, S> {
    pub(crate) caches: Caches<R>,
    pub(crate) side: S,
}

/// A host for tests, for which a unit that was given makes no difference.
pub(crate) trait Gives<R: Recorder>: Host<R> {
    // What is there once a unit was given is sound.
    ghost sound_gave: { (u life : ℕ) (h : Self) → Self.Host.gave u life h → Self.Host.sound h };
}

impl<R: Recorder, S: World> Gives<R> for StillDesk<R, S> {
    ghost sound_gave = { λ u n h s. s };
}

impl<R: Recorder, S: World> Host<R> for StillDesk<R, S> {
    ghost held = { λ m. m.caches };

    ghost with_held = { λ m c. record m { caches = c } };

    ghost face = { λ m. record
        { level = 0; processors = (S.Knows.known m.side).grace.processors; through = 0 } };

    ghost pending = { λ m. 0 };

    ghost tests = { λ m. tests_by (S.Knows.rights m.side) };

    ghost sound = { λ m. Unit {0} };

    ghost asked = { λ m. Unit {0} };

    ghost gave = { λ _ _ m. Unit {0} };

    ghost frees = { λ _ _ m. Unit {0} };

    ghost keeps = { λ a b. b.side ≡ a.side };

    ghost held_back = { λ h c. refl };

    ghost face_back = { λ h c. refl };

    ghost pending_back = { λ h c. refl };

    ghost tests_back = { λ h c. refl };

    ghost sound_back = { λ h c p e s. s };

    ghost asked_back = { λ h c p e s. s };

    ghost sound_stepped = { λ h c e i p a k. k };

    ghost sound_said = { λ h c e i p a s. s };

    ghost sound_given = { λ h c u n x p a s. s };

    ghost sound_freed = { λ h c e u n i p a s. s };

    ghost keeps_back = { λ h c. refl };

    ghost keeps_same = { λ h. refl };

    ghost keeps_join = { λ a b c k m. m ∙ k };

    fn caches(&mut self) -> &mut Caches<R> {
        &mut self.caches
    }

    fn level(&self) -> Level {
        Level::ordinary()
    }

    fn point(&mut self) {}
}

impl<R: Recorder, S: World> Desk<R> for StillDesk<R, S> {
    type W = S;

    ghost shared = { λ m. m.side };

    ghost with_shared = { λ m w. record m { side = w } };

    ghost stays = { λ a b. Alike (S.Knows.known a.side) (S.Knows.known b.side) };

    ghost owes = { λ _ _ m. Unit {0} };

    ghost asked_owes = { λ _ m. Unit {0} };

    ghost minds = { ⊥ };

    ghost rested = { λ _ _ m. Unit {0} };

    ghost asked_rested = { λ _ _ _ m. Unit {0} };

    fn world(&mut self) -> &mut S {
        &mut self.side
    }

    ghost shared_back = { λ h w. refl };

    ghost held_apart = { λ h w. refl };

    ghost shared_apart = { λ h c. refl };

    ghost face_apart = { λ h w a. ap
        (λ n. let f : Face = record { level = 0; processors = n; through = 0 } in f) a.processors };

    ghost pending_apart = { λ h w. refl };

    ghost stays_apart = { λ h w a. a };

    ghost tests_are = { λ h. refl };

    ghost processors_are = { λ h. refl };

    ghost known_goes = { λ a b k. goes-still (S.Knows.known a.side) (S.Knows.known b.side)
        (ap S.Knows.known k) };

    ghost keeps_stays = { λ a b k. alike-still (S.Knows.known a.side) (S.Knows.known b.side)
        (ap S.Knows.known k) };

    ghost stays_join = { λ a b c k m. alike-joined (S.Knows.known a.side) (S.Knows.known b.side)
        (S.Knows.known c.side) k m };

    ghost owes_open = { λ h s. s };

    ghost owes_shut = { λ h o. o };

    ghost owes_done = { λ h w A B es a d o. o };

    ghost owes_said = { λ h c A es e i p a o. o };

    ghost owes_closed = { λ h A es x o. o };

    ghost asked_open = { λ h s. s };

    ghost asked_done = { λ h w A B a d o. o };

    ghost asked_closed = { λ h A x o. o };

    ghost asked_stepped = { λ h c A e i x p a o. o };

    ghost asked_released = { λ h c i to us x n m p a o. o };

    ghost rested_looked = { λ h d x f o. o };

    ghost rested_begun = { λ h d x n b w f o. o };

    ghost rested_read = { λ h d x n i z o. o };

    ghost rested_missed = { λ h d x e n o. o };

    ghost rested_whole = { λ h d x n ws p e b w o. o };

    ghost rested_sound = { λ h d x o. o };

    ghost rested_lent = { λ h w d x e o. o };

    ghost rested_kept = { λ a b d x k m s o. o };

    ghost rested_done = { λ h w d x A B a m o. o };

    ghost rested_passed = { λ h c i d x n w p a o. o };
}

impl<R: Recorder, S: World> Ended<R> for StillDesk<R, S> {
    ghost owes_noted = { λ h c A es more p a o. o };

    ghost owes_told = { λ h A B es others s o. o };

    ghost owes_returned = { λ h i us o. o };

    ghost owes_passed = { λ h d x n m c ws p e b w o. o };
}
