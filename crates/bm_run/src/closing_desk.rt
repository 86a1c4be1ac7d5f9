//! The desk of the processor that a run closes.

ghost use Rattle.std.specs.Prelude.{◌≡◌, [], refl, true};
ghost use Rattle.bm_world.specs.ToldLiving.{knows_living};
ghost use Rattle.std.proofs.Common.{◌∙◌, ap, subst, sym};
ghost use Rattle.std.proofs.lemmas.Bool.{and_parts};
ghost use Rattle.bm_cache.specs.Span.{Face};
ghost use Rattle.bm_cache.specs.Steps.{is_reply, is_step};
ghost use Rattle.bm_work.specs.DeskTests.{tests_by};
ghost use Rattle.bm_work.specs.Goes.{Alike};
ghost use Rattle.bm_work.specs.Still.{alike-joined, alike-still, goes-still};
ghost use Rattle.bm_grace.specs.Known.{Objects};
ghost use Rattle.bm_law_order.specs.Graphs.{graph_names_in};
ghost use Rattle.bm_law_order.specs.Quiet.{is_quiet};
ghost use Rattle.bm_world.specs.LivingState.{known_living, rights_living};
ghost use Rattle.bm_exec_levels.specs.AtRests.{RestedBy, RestsBy, goes-in, law-kept, law-passed, law-released, law-rested_done, rests-begun, rests-looked, rests-missed, rests-read, rests-tied, rests-whole, waits-in};
ghost use Rattle.bm_run.specs.ClosingTie.{EndsHere, IsHere, ends-back, ends-closed, ends-did, ends-noted, ends-quiet, ends-returned, ends-said, ends-stepped, ends-told, ends-waited};

use bm_cache::{Caches, Host};
use bm_closing::Ended;
use bm_exec_levels::Since;
use bm_journal::{Keep, Level};
use bm_work::Desk;
use bm_world::LivingSide;
use std::marker::PhantomData;

/// A processor that has ended: its caches and its side of all that processors share, at the level of ordinary code, tied to its log
/// since a time. No handler runs on it, and no unit is freed. This project's own.
pub(crate) struct ClosingDesk<B> {
    pub(crate) caches: Caches<Keep>,
    pub(crate) side: LivingSide,
    pub(crate) since: PhantomData<B>,
}

impl<B: Since<LivingSide>> Host<Keep> for ClosingDesk<B> {
    ghost held = { λ m. m.caches };

    ghost with_held = { λ m c. record m { caches = c } };

    ghost face = { λ m. record
        { level = 0; processors = (known_living m.side).grace.processors; through = 0 } };

    ghost pending = { λ m. 0 };

    ghost tests = { λ m. tests_by (rights_living m.side) };

    ghost sound = { λ m. EndsHere B.since B.start [] [] m.caches m.side };

    ghost asked = { λ m. EndsHere B.since B.start [] [] m.caches m.side };

    ghost gave = { λ _ _ m. Unit {0} };

    ghost frees = { λ _ _ m. ⊥ };

    ghost keeps = { λ a b. b.side ≡ a.side };

    ghost held_back = { λ h c. refl };

    ghost face_back = { λ h c. refl };

    ghost pending_back = { λ h c. refl };

    ghost tests_back = { λ h c. refl };

    ghost sound_back = { λ h c p e s. (
      p ∙ s.0,
      ends-back B.since B.start c.recorder.told h.caches.recorder.told h.side e s.1,
    ) };

    ghost asked_back = { λ h c p e s. (
      p ∙ s.0,
      ends-back B.since B.start c.recorder.told h.caches.recorder.told h.side e s.1,
    ) };

    ghost sound_stepped = { λ h c e i p a s. (
      p ∙ s.0,
      ends-quiet B.since B.start e h.caches.recorder.told c.recorder.told h.side
          (and_parts (is_step e) (is_quiet e) i).1 a s.1,
    ) };

    ghost sound_said = { λ h c e i p a s. (
      p ∙ s.0,
      ends-quiet B.since B.start e h.caches.recorder.told c.recorder.told h.side
          (and_parts (is_reply e) (is_quiet e) i).1 a s.1,
    ) };

    ghost sound_given = { λ h c u n x p a s. tt };

    ghost sound_freed = { λ h c e u n i p a s. absurd s };

    ghost keeps_back = { λ h c. refl };

    ghost keeps_same = { λ h. refl };

    ghost keeps_join = { λ a b c k m. m ∙ k };

    fn caches(&mut self) -> &mut Caches<Keep> {
        &mut self.caches
    }

    fn level(&self) -> Level {
        Level::ordinary()
    }

    fn point(&mut self) {}
}

impl<B: Since<LivingSide>> Desk<Keep> for ClosingDesk<B> {
    type W = LivingSide;

    ghost shared = { λ m. m.side };

    ghost with_shared = { λ m w. record m { side = w } };

    ghost stays = { λ a b. Alike (known_living a.side) (known_living b.side) };

    ghost owes = { λ done es m. EndsHere B.since B.start done es m.caches m.side };

    ghost asked_owes = { λ done m. EndsHere B.since B.start done [] m.caches m.side };

    ghost minds = { Unit {0} };

    ghost rested = { λ d x m. IsHere m.caches m.side
        × RestsBy knows_living true B.since B.start 0 d x m.caches.recorder.told m.side };

    ghost asked_rested = { λ d x done m. IsHere m.caches m.side
        × RestedBy knows_living true B.since B.start 0 d x done m.caches.recorder.told m.side };

    fn world(&mut self) -> &mut LivingSide {
        &mut self.side
    }

    ghost shared_back = { λ h w. refl };

    ghost held_apart = { λ h w. refl };

    ghost shared_apart = { λ h c. refl };

    ghost face_apart = { λ h w a. ap
        (λ n. let f : Face = record { level = 0; processors = n; through = 0 } in f) a.processors };

    ghost pending_apart = { λ h w. refl };

    ghost stays_apart = { λ h w a. a };

    ghost tests_are = { λ h. refl };

    ghost processors_are = { λ h. refl };

    ghost known_goes = { λ a b k. goes-still (known_living a.side) (known_living b.side)
        (ap known_living k) };

    ghost keeps_stays = { λ a b k. alike-still (known_living a.side) (known_living b.side)
        (ap known_living k) };

    ghost stays_join = { λ a b c k m. alike-joined (known_living a.side) (known_living b.side)
        (known_living c.side) k m };

    ghost owes_open = { λ h s. s };

    ghost owes_shut = { λ h o. o };

    ghost owes_done = { λ h w done more es a d o. (
      o.0 ∙ sym a.processor,
      ends-did B.since B.start done more es h.caches.recorder.told h.side w
          (d, a.processor, ap (λ (x : Objects). graph_names_in x.graphs) a.objects) o.1,
    ) };

    ghost owes_said = { λ h c done es e i p a o. (
      p ∙ o.0,
      ends-said B.since B.start done es e h.caches.recorder.told c.recorder.told h.side a o.1,
    ) };

    ghost owes_closed = { λ h done es x o. (
      o.0,
      ends-closed B.since B.start done es h.caches.recorder.told h.side x o.1,
    ) };

    ghost asked_open = { λ h s. s };

    ghost asked_done = { λ h w done more a d o. (
      o.0 ∙ sym a.processor,
      ends-did B.since B.start done more [] h.caches.recorder.told h.side w
          (d, a.processor, ap (λ (x : Objects). graph_names_in x.graphs) a.objects) o.1,
    ) };

    ghost asked_closed = { λ h done x o. (
      o.0,
      ends-closed B.since B.start done [] h.caches.recorder.told h.side x o.1,
    ) };

    ghost asked_stepped = { λ h c done e i x p a o. (
      p ∙ o.0,
      ends-stepped B.since B.start done e h.caches.recorder.told c.recorder.told h.side x a
          o.1,
    ) };

    ghost asked_released = { λ h c i to us x n m p a o. (
      p ∙ o.0,
      law-released knows_living true B.since B.start 0 i to us x n h.caches.recorder.told
          c.recorder.told h.side (goes-in _ 0 i x n _ h.caches o.0 m) a o.1,
    ) };

    ghost rested_looked = { λ h d x f o. (
      o.0,
      rests-looked knows_living true B.since B.start 0 d x h.caches.recorder.told h.side f o.1,
    ) };

    ghost rested_begun = { λ h d x n b a f o. (
      o.0,
      rests-begun knows_living true B.since B.start 0 d x n _ h.caches h.side b o.0 (a tt) f
          o.1,
    ) };

    ghost rested_read = { λ h d x n i z o. (
      o.0,
      rests-read knows_living true B.since B.start 0 d x n h.caches.recorder.told h.side i z
          o.1,
    ) };

    ghost rested_missed = { λ h d x even n o. (
      o.0,
      rests-missed knows_living true B.since B.start 0 d x even n h.caches.recorder.told h.side
          o.1,
    ) };

    ghost rested_whole = { λ h d x n ws p q b a o. (
      o.0,
      rests-whole knows_living true B.since B.start 0 d x n _ ws p h.caches h.side q b o.0 (a tt)
          o.1,
    ) };

    ghost rested_sound = { λ h d x r. (
      r.0,
      rests-tied knows_living true B.since B.start 0 d x h.caches.recorder.told h.side r.1,
    ) };

    ghost rested_lent = { λ h w d x e r. subst
        (λ v. IsHere h.caches v
        × RestsBy knows_living true B.since B.start 0 d x h.caches.recorder.told v)
        (sym e) r };

    ghost rested_kept = { λ a b d x k m s r. (
      s.0,
      law-kept knows_living true B.since B.start 0 d x a.caches.recorder.told
          b.caches.recorder.told a.side b.side m s.1 r.1,
    ) };

    ghost rested_done = { λ h w d x done more a m r. (
      r.0 ∙ sym a.processor,
      law-rested_done knows_living true B.since B.start 0 d x done more h.caches.recorder.told
          h.side w (m, a.processor, ap (λ (x : Objects). graph_names_in x.graphs) a.objects)
          r.1,
    ) };

    ghost rested_passed = { λ h c i d x n b p a r. (
      p ∙ r.0,
      law-passed knows_living true B.since B.start 0 i d x n h.caches.recorder.told
          c.recorder.told h.side (waits-in _ i d x _ h.caches r.0 (b tt)) a r.1,
    ) };
}

impl<B: Since<LivingSide>> Ended<Keep> for ClosingDesk<B> {
    ghost owes_returned = { λ h i us o. (
      o.0,
      ends-returned B.since B.start i us h.caches.recorder.told h.side o.1,
    ) };

    ghost owes_noted = { λ h c done es more p a o. (
      p ∙ o.0,
      ends-noted B.since B.start done es more h.caches.recorder.told c.recorder.told h.side a
          o.1,
    ) };

    ghost owes_told = { λ h done more es others s o. (
      o.0,
      ends-told B.since B.start done more es others h.caches.recorder.told h.side s o.1,
    ) };

    ghost owes_passed = { λ h d x n m c ws p e b w o. (
      o.0,
      ends-waited B.since B.start d x n m c ws p h.caches.recorder.told h.side e b
          (waits-in _ c d x _ h.caches o.0 w) o.1,
    ) };
}
