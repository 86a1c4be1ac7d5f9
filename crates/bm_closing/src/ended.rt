//! Desks whose processor has ended.

ghost use Rattle.std.specs.Prelude.{◌≡◌, ◌≤◌, ◌∷◌, ◌++◌, [], ℕ, List};
ghost use Rattle.bm_journal.specs.declared.entry.Entry.{Entry as EntryValue};
ghost use Rattle.bm_journal.specs.declared.entry.Entry.TheVariants as entry;
ghost use Rattle.bm_journal.specs.declared.ids.Domain.{Domain as DomainValue};
ghost use Rattle.bm_journal.specs.declared.period.Period.{Period as PeriodValue};
ghost use Rattle.bm_law.specs.Alone.{Adds};
ghost use Rattle.bm_journal.specs.declared.units.Units.TheVariants.{Whole};
ghost use Rattle.bm_law_order.specs.Act.{Act, Sealed, units_of};
ghost use Rattle.bm_law_order.specs.Act as act;
ghost use Rattle.bm_law_order.specs.Chunk.{Shows};
ghost use Rattle.bm_cache.specs.declared.caches.Caches.{Caches};
ghost use Rattle.bm_work.specs.Rested.{HasStamp};
ghost use Rattle.bm_closing.specs.Told.{at_once, passed_at_once};

use bm_journal::Recorder;
use bm_work::Desk;

/// A desk whose processor has ended, so that no handler runs on it any more, and no step is asked for: entries come one after the
/// other, and may come after all the acts that they stand for. This project's own.
pub trait Ended<R: Recorder>: Desk<R> {
    // Entries were recorded.
    ghost owes_noted: { (h : Self) (c : Caches R) (done : List Act) (es more : List EntryValue)
        → c.processor ≡ (Self.Host.held h).processor
        → Adds (Self.Host.face h).level more (R.log (Self.Host.held h).recorder) (R.log c.recorder)
        → Self.Desk.owes done es h → Self.Desk.owes done (es ++ more) (Self.Host.with_held h c) };

    // The first entries stand for the first acts.
    ghost owes_told: { (h : Self) (done more : List Act) (es others : List EntryValue)
        → Shows done es → Self.Desk.owes (done ++ more) (es ++ others) h
        → Self.Desk.owes more others h };

    // Units went back, whatever they wait for.
    ghost owes_returned: { (h : Self) (i : ℕ) (us : List Sealed)
        → Self.Desk.owes (act.Returns us ∷ []) (entry.Return i (Whole (units_of us)) ∷ []) h
        → Self.Host.sound h };

    // A period began below the stamp that the batch of a class waits for, and ended at once, and the number was read for the class.
    ghost owes_passed: { (h : Self) (d : DomainValue) (x n m c : ℕ) (ws : List ℕ) (p : PeriodValue)
        → p.domain ≡ d → n ≤ x
        → HasStamp R.log (Self.Host.face h).processors c d x (Self.Host.held h)
        → Self.Desk.owes (at_once d x n m ws p) (passed_at_once d n m c p) h → Self.Host.sound h };
}
