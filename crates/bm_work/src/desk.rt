//! Desks: what runs deferred work.

ghost use Rattle.bm_law.specs.Spans.{Above};
ghost use Rattle.std.specs.Prelude.{◌≡◌, ◌≤◌, ◌+◌, ◌∷◌, ◌++◌, [], ℕ, List, true, IsSome};
ghost use Rattle.bm_law_order.specs.Act.{Act};
ghost use Rattle.bm_law_order.specs.Act as act;
ghost use Rattle.bm_grace.specs.Known.{side};
ghost use Rattle.bm_journal.specs.declared.units.Units.TheVariants.{Whole};
ghost use Rattle.bm_work.specs.Rested.{Fails, HasStamp, IsIdle, MayGo};
ghost use Rattle.bm_journal.specs.declared.ids.Domain.{Domain as DomainValue};
ghost use Rattle.bm_journal.specs.declared.period.Period.{Period as PeriodValue};
ghost use Rattle.bm_journal.specs.declared.entry.Entry.TheVariants as entry;
ghost use Rattle.bm_law_order.specs.Chunk.{Shows};
ghost use Rattle.bm_cache.specs.Steps.{is_reply, is_step};
ghost use Rattle.bm_journal.specs.Recording.{Appends};
ghost use Rattle.bm_journal.specs.declared.entry.Entry.{Entry as EntryValue};
ghost use Rattle.std.specs.Borrow.{Lends, sem};
ghost use Rattle.bm_cache.specs.declared.caches.Caches.{Caches};
ghost use Rattle.bm_work.specs.Goes.{Alike, GoesOn};
ghost use Rattle.bm_work.specs.DeskTests.{tests_by};

use bm_cache::Host;
use bm_journal::Recorder;
use bm_post::World;

/// What runs deferred work: a host that has beside its caches its processor's side of all that processors share. The host
/// owns both, since a handler in the middle of deferred work uses sections of the same processor. Its points send, receive,
/// fetch and put back nothing, and begin and finish no period; they may enter and leave sections. Which units may be used
/// again, and which wait, is told by the rights of that side. This project's own.
pub trait Desk<R: Recorder>: Host<R> {
    /// Its processor's side of all that processors share.
    type W: World;

    /// That side.
    ghost shared: { Self → Self.W };

    /// The desk with another side.
    ghost with_shared: { Self → Self.W → Self };

    /// What else a call on the desk leaves as it was. It is less than what a point keeps.
    ghost stays: { Self → Self → Type 0 };

    /// What is there in place of `sound` once the side did these acts and these entries stand, until the entries stand for the
    /// acts.
    ghost owes: { List Act → List EntryValue → Self → Type 0 };

    /// The same in place of `asked`, before the entry of the step.
    ghost asked_owes: { List Act → Self → Type 0 };

    /// Holds where each poll has to be for its class's batch.
    ghost minds: { Type 0 };

    /// The desk is sound, and by what its level did last a poll of this domain for this stamp has nothing to do.
    ghost rested: { DomainValue → ℕ → Self → Type 0 };

    /// The same behind a point, once the side did these acts.
    ghost asked_rested: { DomainValue → ℕ → List Act → Self → Type 0 };

    /// Lends the side.
    fn world(&mut self) -> &mut Self::W
        ensures* lends { sem 𝓛 (Lends Self.row Self.W.row self.entry result (with_shared self.old)) }
        ensures held { result.now ≡ shared self.old };

    // The side and the caches are two parts.
    ghost shared_back: { (h : Self) (w : Self.W) → shared (with_shared h w) ≡ w };

    ghost held_apart: { (h : Self) (w : Self.W)
        → Self.Host.held (with_shared h w) ≡ Self.Host.held h };

    ghost shared_apart: { (h : Self) (c : Caches R) → shared (Self.Host.with_held h c) ≡ shared h };

    // A side of the same processor leaves the face and what waits, and what the host needs.
    ghost face_apart: { (h : Self) (w : Self.W)
        → Alike (Self.W.Knows.known (shared h)) (Self.W.Knows.known w)
        → Self.Host.face (with_shared h w) ≡ Self.Host.face h };

    ghost pending_apart: { (h : Self) (w : Self.W)
        → Self.Host.pending (with_shared h w) ≡ Self.Host.pending h };

    ghost stays_apart: { (h : Self) (w : Self.W)
        → Alike (Self.W.Knows.known (shared h)) (Self.W.Knows.known w)
        → stays h (with_shared h w) };

    // The tests are those of the side's rights, and the processors are the side's.
    ghost tests_are: { (h : Self) → Self.Host.tests h ≡ tests_by (Self.W.Knows.rights (shared h)) };

    ghost processors_are: { (h : Self)
        → (Self.Host.face h).processors ≡ (Self.W.Knows.known (shared h)).grace.processors };

    // What a point keeps.
    ghost known_goes: { (a b : Self) → Self.Host.keeps a b
        → GoesOn (Self.W.Knows.known (shared a)) (Self.W.Knows.known (shared b)) };

    ghost keeps_stays: { (a b : Self) → Self.Host.keeps a b → stays a b };

    ghost stays_join: { (a b c : Self) → stays a b → stays b c → stays a c };

    // Acts and entries come, one after the other, and what is whole is sound again.
    ghost owes_open: { (h : Self) → Self.Host.sound h → owes [] [] h };

    ghost owes_shut: { (h : Self) → owes [] [] h → Self.Host.sound h };

    ghost owes_done: { (h : Self) (w : Self.W) (done more : List Act) (es : List EntryValue)
        → Alike (Self.W.Knows.known (shared h)) (Self.W.Knows.known w)
        → Self.W.Knows.does more (shared h) w → owes done es h
        → owes (done ++ more) es (with_shared h w) };

    ghost owes_said: { (h : Self) (c : Caches R) (done : List Act) (es : List EntryValue)
        (e : EntryValue)
        → is_reply e ≡ true → c.processor ≡ (Self.Host.held h).processor
        → Appends (R.log (Self.Host.held h).recorder) (Self.Host.face h).level e (R.log c.recorder)
        → owes done es h → owes done (es ++ e ∷ []) (Self.Host.with_held h c) };

    ghost owes_closed: { (h : Self) (done : List Act) (es : List EntryValue) → Shows done es
        → owes done es h → Self.Host.sound h };

    ghost asked_open: { (h : Self) → Self.Host.asked h → asked_owes [] h };

    ghost asked_done: { (h : Self) (w : Self.W) (done more : List Act)
        → Alike (Self.W.Knows.known (shared h)) (Self.W.Knows.known w)
        → Self.W.Knows.does more (shared h) w → asked_owes done h
        → asked_owes (done ++ more) (with_shared h w) };

    ghost asked_closed: { (h : Self) (done : List Act) → Shows done [] → asked_owes done h
        → Self.Host.asked h };

    ghost asked_stepped: { (h : Self) (c : Caches R) (done : List Act) (e : EntryValue)
        → is_step e ≡ true → (IsSome (R.log c.recorder) → Shows done (e ∷ []))
        → c.processor ≡ (Self.Host.held h).processor
        → Appends (R.log (Self.Host.held h).recorder) (Self.Host.face h).level e (R.log c.recorder)
        → asked_owes done h → Self.Host.sound (Self.Host.with_held h c) };

    // What has waited goes as one parcel, directly after the pass of its stamp.
    ghost asked_released: { (h : Self) (c : Caches R) (i to : ℕ) (us : List ℕ) (stamp seen : ℕ)
        → MayGo R.log (Self.Host.face h).processors (Self.Host.face h).level i stamp seen
        (Self.Host.held h)
        → c.processor ≡ (Self.Host.held h).processor
        → Appends (R.log (Self.Host.held h).recorder) (Self.Host.face h).level
        (entry.Send i to (Whole us)) (R.log c.recorder)
        → asked_owes (act.Releases i to us stamp seen ∷ []) h
        → Self.Host.sound (Self.Host.with_held h c) };

    // A look in vain, also at a period that began just now for a batch that waits for the stamp, below it; a number that needs no
    // begin; a begin that was too late for the number that was read; and such a period that ended at once.
    ghost rested_looked: { (h : Self) (d : DomainValue) (x : ℕ)
        → Fails (side d (Self.W.Knows.known (shared h))).first
        (side d (Self.W.Knows.known (shared h))).later
        → owes (act.Looks d (side d (Self.W.Knows.known (shared h))).later ∷ []) [] h
        → rested d x h };

    ghost rested_begun: { (h : Self) (d : DomainValue) (x n : ℕ) → n ≤ x
        → (minds → (i : ℕ) × HasStamp R.log (Self.Host.face h).processors i d x (Self.Host.held h))
        → Fails (side d (Self.W.Knows.known (shared h))).first
        (side d (Self.W.Knows.known (shared h))).later
        → owes (act.Begins d n ∷ act.Looks d (side d (Self.W.Knows.known (shared h))).later ∷ [])
        (entry.Begin d n ∷ []) h
        → rested d x h };

    ghost rested_read: { (h : Self) (d : DomainValue) (x n : ℕ) → IsIdle x n
        → (side d (Self.W.Knows.known (shared h))).number ≡ 0 → owes (act.Reads d x n ∷ []) [] h
        → rested d x h };

    ghost rested_missed: { (h : Self) (d : DomainValue) (x even n : ℕ)
        → owes (act.Reads d x even ∷ act.Misses d even n ∷ []) [] h → rested d x h };

    ghost rested_whole: { (h : Self) (d : DomainValue) (x n : ℕ) (ws : List ℕ) (p : PeriodValue)
        → p.domain ≡ d → n ≤ x
        → (minds → (i : ℕ) × HasStamp R.log (Self.Host.face h).processors i d x (Self.Host.held h))
        → owes (act.Begins d n ∷ act.Looks d ws ∷ act.Finishes p ∷ [])
        (entry.Begin d n ∷ entry.Finish p ∷ []) h
        → rested d x h };

    ghost rested_sound: { (h : Self) (d : DomainValue) (x : ℕ) → rested d x h → Self.Host.sound h };

    ghost rested_lent: { (h : Self) (w : Self.W) (d : DomainValue) (x : ℕ) → w ≡ shared h
        → rested d x h → rested d x (with_shared h w) };

    // Handlers of higher levels leave it so, and a number is read behind it.
    ghost rested_kept: { (a b : Self) (d : DomainValue) (x : ℕ) → Self.Host.keeps a b
        → Above ((Self.Host.face a).level + 1) (R.log (Self.Host.held a).recorder)
        (R.log (Self.Host.held b).recorder)
        → Self.Host.asked b → rested d x a → asked_rested d x [] b };

    ghost rested_done: { (h : Self) (w : Self.W) (d : DomainValue) (x : ℕ) (done more : List Act)
        → Alike (Self.W.Knows.known (shared h)) (Self.W.Knows.known w)
        → Self.W.Knows.does more (shared h) w → asked_rested d x done h
        → asked_rested d x (done ++ more) (with_shared h w) };

    ghost rested_passed: { (h : Self) (c : Caches R) (i : ℕ) (d : DomainValue) (x n : ℕ)
        → (minds → HasStamp R.log (Self.Host.face h).processors i d x (Self.Host.held h))
        → c.processor ≡ (Self.Host.held h).processor
        → Appends (R.log (Self.Host.held h).recorder) (Self.Host.face h).level (entry.Pass i d n)
        (R.log c.recorder)
        → asked_rested d x (act.Reads d x n ∷ []) h → Self.Host.sound (Self.Host.with_held h c) };
}
