//! The machine of a level.

use crate::handlers::run_due;
use crate::processor::Processor;
use crate::program::Program;
use crate::ranks::Rank;
use bm_cache::{Caches, Host};
use bm_journal::{Keep, Level};
use bm_work::Desk;
use bm_world::{Lives, Since};
use std::marker::PhantomData;

/// Code of a level on a processor, which it borrows.
pub struct At<'a, 's, W, B, L> {
    pub own: &'a mut Processor<W>,
    pub program: &'s Program<'s>,
    pub of: PhantomData<L>,
    pub since: PhantomData<B>,
}

impl<'a, 's, W: Lives, B: Since<W>, L: Rank> Host<Keep> for At<'a, 's, W, B, L> {
    ghost use Rattle.std.specs.Prelude.{◌≡◌, length, refl};
    ghost use Rattle.std.proofs.Common.{◌∙◌};
    ghost use Rattle.bm_work.specs.Goes.{GoesOn};
    ghost use Rattle.bm_work.specs.Still.{goes-still};
    ghost use Rattle.bm_plan.specs.Position.{AskedAt, StandsAt};
    ghost use Rattle.bm_exec_levels.specs.AtProcessor.{IsAt, SameLives, Stays, tests_of};
    ghost use Rattle.bm_exec_levels.specs.Hosting.{at-freed, at-gave, at-said, at-same, at-stepped, goes-joined, lives-cached, lives-joined, lives-same, stays-caches, stays-joined, stays-same, with_caches};
    ghost use Rattle.bm_cache.specs.Steps.{is_reply, is_step};
    ghost use Rattle.bm_law_order.specs.Quiet.{is_quiet};
    ghost use Rattle.std.proofs.lemmas.Bool.{and_parts};
    ghost use Rattle.bm_exec_levels.specs.AtTie.{FreesAt, GaveAt, TiedAt, tied-freed, tied-gave, tied-quiet, tied-same};
    ghost use Rattle.bm_exec_levels.specs.Ready.{known_of, left_of};

    ghost held = { λ m. m.own.now.caches };

    ghost with_held = { λ m c. record m { own = record m.own { now = with_caches m.own.now c } } };

    ghost face = { λ m. record {
      level = L.number;
      processors = (known_of W.Knows m.own.now).grace.processors;
      through = m.own.ghost_name;
    } };

    ghost pending = { λ m. length (left_of m.own.now) };

    ghost tests = { λ m. tests_of W.Knows m.own.now };

    ghost sound = { λ m. IsAt W.Knows StandsAt L.number m.program.now m.own.now
        × TiedAt W.Knows B.since B.start m.own.now };

    ghost asked = { λ m. IsAt W.Knows AskedAt L.number m.program.now m.own.now
        × TiedAt W.Knows B.since B.start m.own.now };

    ghost gave = { λ u life m. IsAt W.Knows StandsAt L.number m.program.now m.own.now
        × GaveAt W.Knows B.since B.start L.number u life m.own.now };

    ghost frees = { λ u home m. IsAt W.Knows StandsAt L.number m.program.now m.own.now
        × FreesAt W.Knows B.since B.start L.number u home m.own.now };

    ghost keeps = { λ a b. Stays W.Knows 0 0 a.program.now a.own.now b.own.now
        × SameLives W.Knows a.own.now b.own.now
        × GoesOn (known_of W.Knows a.own.now) (known_of W.Knows b.own.now)
        × (b.program.now ≡ a.program.now) };

    ghost held_back = { λ h c. refl };

    ghost face_back = { λ h c. refl };

    ghost pending_back = { λ h c. refl };

    ghost tests_back = { λ h c. refl };

    ghost sound_back = { λ h c p e s. (
      at-same W.Knows StandsAt L.number h.program.now h.own.now c p
          e s.0,
      tied-same W.Knows B.since B.start h.own.now c e s.1,
    ) };

    ghost asked_back = { λ h c p e s. (
      at-same W.Knows AskedAt L.number h.program.now h.own.now c p
          e s.0,
      tied-same W.Knows B.since B.start h.own.now c e s.1,
    ) };

    ghost sound_stepped = { λ h c e i p a s. (
      at-stepped W.Knows L.number h.program.now h.own.now c
          e (and_parts (is_step e) (is_quiet e) i).0 p a s.0,
      tied-quiet W.Knows B.since B.start L.number h.own.now c e
          (and_parts (is_step e) (is_quiet e) i).1 a s.1,
    ) };

    ghost sound_said = { λ h c e i p a s. (
      at-said W.Knows L.number h.program.now h.own.now c e
          (and_parts (is_reply e) (is_quiet e) i).0 p a s.0,
      tied-quiet W.Knows B.since B.start L.number h.own.now c e
          (and_parts (is_reply e) (is_quiet e) i).1 a s.1,
    ) };

    ghost sound_given = { λ h c u n x p a s. (
      at-gave W.Knows L.number h.program.now h.own.now c u n
          x p a s.0,
      tied-gave W.Knows B.since B.start L.number h.own.now c u n x a s.1,
    ) };

    ghost sound_freed = { λ h c e u f i p a s. (
      at-freed W.Knows L.number h.program.now h.own.now c
          e u.number u.home i p a s.0,
      tied-freed W.Knows B.since B.start L.number h.own.now c e u f i a s.1,
    ) };

    ghost keeps_back = { λ h c. (
      stays-caches W.Knows h.program.now h.own.now c,
      lives-cached W.Knows h.own.now c,
      goes-still (known_of W.Knows h.own.now) (known_of W.Knows h.own.now) refl,
      refl,
    ) };

    ghost keeps_same = { λ h. (
      stays-same W.Knows h.program.now h.own.now,
      lives-same W.Knows h.own.now,
      goes-still (known_of W.Knows h.own.now) (known_of W.Knows h.own.now) refl,
      refl,
    ) };

    ghost keeps_join = { λ a b c x y. (
      stays-joined W.Knows a.program.now b.program.now a.own.now
          b.own.now c.own.now x.3 x.0 y.0,
      lives-joined W.Knows a.own.now b.own.now c.own.now x.1 y.1,
      goes-joined (known_of W.Knows a.own.now) (known_of W.Knows b.own.now)
          (known_of W.Knows c.own.now) x.2 y.2,
      y.3 ∙ x.3,
    ) };

    fn caches(&mut self) -> &mut Caches<Keep> {
        let own = &mut *self.own;
        &mut own.caches
    }

    fn level(&self) -> Level {
        L::level()
    }

    fn point(&mut self) {
        run_due::<W, B, L>(self.own, self.program);
    }
}

impl<'a, 's, W: Lives, B: Since<W>, L: Rank> Desk<Keep> for At<'a, 's, W, B, L> {
    ghost use Rattle.std.specs.Prelude.{◌≡◌, refl};
    ghost use Rattle.std.proofs.Common.{◌∙◌, ap};
    ghost use Rattle.bm_cache.specs.Span.{Face};
    ghost use Rattle.bm_plan.specs.Position.{AskedAt, StandsAt};
    ghost use Rattle.std.specs.Prelude.{[], false};
    ghost use Rattle.std.proofs.Common.{subst, sym};
    ghost use Rattle.bm_journal.specs.declared.entry.Entry.TheVariants as entry;
    ghost use Rattle.bm_journal.specs.declared.units.Units.TheVariants.{Whole};
    ghost use Rattle.bm_exec_levels.specs.AtProcessor.{IsAt, SameLives, Stays, log_of};
    ghost use Rattle.bm_exec_levels.specs.AtTie.{OwesAt, owes-did, owes-said, tied-closed, tied-open, tied-paid, tied-shut};
    ghost use Rattle.bm_exec_levels.specs.AtRests.{RestedBy, RestsBy, goes-in, law-kept, law-passed, law-released, law-rested_done, rests-begun, rests-looked, rests-missed, rests-read, rests-tied, rests-whole, waits-in};
    ghost use Rattle.bm_law_order.specs.Act as act;
    ghost use Rattle.std.specs.Prelude.{◌∷◌};
    ghost use Rattle.bm_grace.specs.Known.{Objects};
    ghost use Rattle.bm_law_order.specs.Graphs.{graph_names_in};
    ghost use Rattle.bm_exec_levels.specs.Hosting.{at-said, at-sided, at-stepped, lives-joined, lives-sided, names-sided, stays-joined, stays-sided, with_caches, with_side};

    type W = W;

    ghost shared = { λ m. m.own.now.side };

    ghost with_shared = { λ m w. record m { own = record m.own { now = with_side m.own.now w } } };

    ghost stays = { λ a b. Stays W.Knows 0 0 a.program.now a.own.now b.own.now
        × SameLives W.Knows a.own.now b.own.now × (b.program.now ≡ a.program.now) };

    ghost owes = { λ done es m. IsAt W.Knows StandsAt L.number m.program.now m.own.now
        × OwesAt W.Knows B.since B.start L.number done es m.own.now };

    ghost asked_owes = { λ done m. IsAt W.Knows AskedAt L.number m.program.now m.own.now
        × OwesAt W.Knows B.since B.start L.number done [] m.own.now };

    ghost minds = { Unit {0} };

    ghost rested = { λ d x m. IsAt W.Knows StandsAt L.number m.program.now m.own.now
        × RestsBy W.Knows false B.since B.start L.number d x (log_of m.own.now) m.own.now.side };

    ghost asked_rested = { λ d x done m. IsAt W.Knows AskedAt L.number m.program.now m.own.now
        × RestedBy W.Knows false B.since B.start L.number d x done (log_of m.own.now)
        m.own.now.side };

    fn world(&mut self) -> &mut W {
        let own = &mut *self.own;
        &mut own.side
    }

    ghost shared_back = { λ h w. refl };

    ghost held_apart = { λ h w. refl };

    ghost shared_apart = { λ h c. refl };

    ghost face_apart = { λ h w a. ap
        (λ n. let f : Face = record { level = L.number; processors = n; through = h.own.ghost_name }
        in
        f)
        a.processors };

    ghost pending_apart = { λ h w. refl };

    ghost stays_apart = { λ h w a. (
      stays-sided W.Knows h.program.now h.own.now w a,
      lives-sided W.Knows h.own.now w a,
      refl,
    ) };

    ghost tests_are = { λ h. refl };

    ghost processors_are = { λ h. refl };

    ghost known_goes = { λ a b k. k.2 };

    ghost keeps_stays = { λ a b k. (k.0, k.1, k.3) };

    ghost stays_join = { λ a b c x y. (
      stays-joined W.Knows a.program.now b.program.now a.own.now
          b.own.now c.own.now x.2 x.0 y.0,
      lives-joined W.Knows a.own.now b.own.now c.own.now x.1 y.1,
      y.2 ∙ x.2,
    ) };

    ghost owes_open = { λ h s. (s.0, tied-open W.Knows B.since B.start L.number h.own.now s.1) };

    ghost owes_shut = { λ h o. (o.0, tied-shut W.Knows B.since B.start L.number h.own.now o.1) };

    ghost owes_done = { λ h w done more es a d o. (
      at-sided W.Knows StandsAt L.number h.program.now
          h.own.now w a o.0,
      owes-did W.Knows B.since B.start L.number done more es h.own.now w
          (d, a.processor, ap (λ (x : Objects). graph_names_in x.graphs) a.objects) o.1,
    ) };

    ghost owes_said = { λ h c done es e i p a o. (
      at-said W.Knows L.number h.program.now h.own.now c
          e i p a o.0,
      owes-said W.Knows B.since B.start L.number done es e h.own.now c a o.1,
    ) };

    ghost owes_closed = { λ h done es x o. (
      o.0,
      tied-closed W.Knows B.since B.start L.number done es h.own.now x o.1,
    ) };

    ghost asked_open = { λ h s. (s.0, tied-open W.Knows B.since B.start L.number h.own.now s.1) };

    ghost asked_done = { λ h w done more a d o. (
      at-sided W.Knows AskedAt L.number h.program.now
          h.own.now w a o.0,
      owes-did W.Knows B.since B.start L.number done more [] h.own.now w
          (d, a.processor, ap (λ (x : Objects). graph_names_in x.graphs) a.objects) o.1,
    ) };

    ghost asked_closed = { λ h done x o. (
      o.0,
      tied-closed W.Knows B.since B.start L.number done [] h.own.now x o.1,
    ) };

    ghost asked_stepped = { λ h c done e i x p a o. (
      at-stepped W.Knows L.number h.program.now
          h.own.now c e i p a o.0,
      tied-paid W.Knows B.since B.start L.number done e h.own.now c x a o.1,
    ) };

    ghost asked_released = { λ h c i to us x n m p a o. (
      at-stepped W.Knows L.number h.program.now
          h.own.now c (entry.Send i to (Whole us)) refl p a o.0,
      tied-shut W.Knows B.since B.start L.number (with_caches h.own.now c)
          (law-released W.Knows false B.since B.start L.number i to us x n (log_of h.own.now)
          c.recorder.told h.own.now.side
          (goes-in _ L.number i x n _ h.own.now.caches o.0.ready.here m) a o.1),
    ) };

    ghost rested_looked = { λ h d x f o. (
      o.0,
      rests-looked W.Knows false B.since B.start L.number d x (log_of h.own.now) h.own.now.side f
          o.1,
    ) };

    ghost rested_begun = { λ h d x n b a f o. (
      o.0,
      rests-begun W.Knows false B.since B.start L.number d x n _ h.own.now.caches h.own.now.side b
          o.0.ready.here (a tt) f o.1,
    ) };

    ghost rested_read = { λ h d x n i z o. (
      o.0,
      rests-read W.Knows false B.since B.start L.number d x n (log_of h.own.now) h.own.now.side i
          z o.1,
    ) };

    ghost rested_missed = { λ h d x even n o. (
      o.0,
      rests-missed W.Knows false B.since B.start L.number d x even n (log_of h.own.now)
          h.own.now.side o.1,
    ) };

    ghost rested_whole = { λ h d x n ws p q b a o. (
      o.0,
      rests-whole W.Knows false B.since B.start L.number d x n _ ws p h.own.now.caches
          h.own.now.side q b o.0.ready.here (a tt) o.1,
    ) };

    ghost rested_sound = { λ h d x r. (
      r.0,
      tied-shut W.Knows B.since B.start L.number h.own.now
          (rests-tied W.Knows false B.since B.start L.number d x (log_of h.own.now) h.own.now.side
          r.1),
    ) };

    ghost rested_lent = { λ h w d x e r. subst
        (λ v. IsAt W.Knows StandsAt L.number h.program.now (with_side h.own.now v)
        × RestsBy W.Knows false B.since B.start L.number d x (log_of h.own.now) v)
        (sym e) r };

    ghost rested_kept = { λ a b d x k m s r. (
      s.0,
      law-kept W.Knows false B.since B.start L.number d x (log_of a.own.now) (log_of b.own.now)
          a.own.now.side b.own.now.side m
          (tied-open W.Knows B.since B.start L.number b.own.now s.1) r.1,
    ) };

    ghost rested_done = { λ h w d x done more a m r. (
      at-sided W.Knows AskedAt L.number
          h.program.now h.own.now w a r.0,
      law-rested_done W.Knows false B.since B.start L.number d x done more (log_of h.own.now)
          h.own.now.side w (m, a.processor, names-sided W.Knows h.own.now w a) r.1,
    ) };

    ghost rested_passed = { λ h c i d x n b p a r. (
      at-stepped W.Knows L.number h.program.now
          h.own.now c (entry.Pass i d n) refl p a r.0,
      tied-shut W.Knows B.since B.start L.number (with_caches h.own.now c)
          (law-passed W.Knows false B.since B.start L.number i d x n (log_of h.own.now)
          c.recorder.told h.own.now.side
          (waits-in _ i d x _ h.own.now.caches r.0.ready.here (b tt)) a r.1),
    ) };
}
