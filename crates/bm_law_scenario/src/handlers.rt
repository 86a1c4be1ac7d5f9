//! Laws of handlers.

ghost use Rattle.std.specs.Prelude.{◌≡◌, ◌<◌, ◌∷◌, ◌++◌, [], ℕ, List, true};
ghost use Rattle.bm_journal.specs.declared.ids.Domain.TheVariants.{Plain};
ghost use Rattle.bm_journal.specs.declared.entry.Entry.{Entry};
ghost use Rattle.bm_journal.specs.declared.entry.Entry.TheVariants as entry;
ghost use Rattle.bm_lang.specs.declared.scenario.Parts.{Parts};
ghost use Rattle.bm_law.specs.Alone.{AllAt};
ghost use Rattle.bm_law.specs.Lists.{Log};
ghost use Rattle.bm_law.specs.Spans.{own_entries};
ghost use Rattle.bm_law_work.proofs.Each.{AllOf};
ghost use Rattle.bm_due.specs.Due.{planned_for};
ghost use Rattle.bm_due.specs.Standing.{HandlersStand};
ghost use Rattle.bm_law_scenario.specs.CallEntries.{IsOfHandler};
ghost use Rattle.bm_law_scenario.specs.Handlers.{AreHandlers, HandlerPhrase, HandlersDone, RunsThere, all_within};
ghost use Rattle.bm_law_lives.specs.SectionWords.{word_after};

/// The handlers of a log that have gone back left their phrases: so it is before the first entry, behind each entry that ends
/// no handler, and where one goes back that left its phrase and ran there; and so it was at each time before. Where handlers stand where they
/// are due, the entries of each level above ordinary code are those of whole handlers, one after the other, and so what calls
/// write; they stand so before the end of the processor too, and none stands behind it.
pub fn handlers_law()
    ensures none { (s : Parts) (p : ℕ) → HandlersDone s p [] }
    ensures goes_on { (s : Parts) (p : ℕ) (log : Log) (l : ℕ) (e : Entry)
        → ((name : List ℕ) → e ≡ entry.Back name → ⊥) →
        HandlersDone s p log → HandlersDone s p (log ++ (l, e) ∷ []) }
    ensures goes_back { (s : Parts) (p : ℕ) (front part : Log) (l : ℕ) (name : List ℕ) →
        HandlersDone s p (front ++ (l, entry.Handler name) ∷ part) →
        HandlerPhrase s name (word_after Plain front) (own_entries l part) →
        RunsThere s p l name front part →
        HandlersDone s p (front ++ (l, entry.Handler name) ∷ part ++ (l, entry.Back name) ∷ []) }
    ensures before { (s : Parts) (p : ℕ) (one two : Log) → HandlersDone s p (one ++ two)
        → HandlersDone s p one }
    ensures levels { (s : Parts) (p : ℕ) (log : Log) → HandlersStand s p log
        → HandlersDone s p log →
        (l : ℕ) → 0 < l → AreHandlers s (own_entries l log) }
    ensures entries { (s : Parts) (p : ℕ) (log : Log) → HandlersStand s p log
        → HandlersDone s p log →
        (l : ℕ) → 0 < l → AllOf IsOfHandler (own_entries l log) }
    ensures closing { (s : Parts) (p : ℕ) (front closing : Log) (rest : List Entry)
        → HandlersStand s p (front ++ closing) →
        own_entries 0 closing ≡ entry.Ended ∷ rest → HandlersStand s p front × AllAt 0 closing }
{}

/// Where no handler is planned for a processor, its log is of ordinary code alone; and a log of ordinary code that begins and
/// ends none stands, and none of it has gone back.
pub fn unplanned_law()
    ensures alone { (s : Parts) (p : ℕ) (log : Log) → planned_for p s ≡ [] → HandlersStand s p log
        → AllAt 0 log }
    ensures stands { (s : Parts) (p : ℕ) (log : Log) → planned_for p s ≡ [] → AllAt 0 log →
        all_within (own_entries 0 log) ≡ true → HandlersStand s p log }
    ensures done { (s : Parts) (p : ℕ) (log : Log) → AllAt 0 log →
        all_within (own_entries 0 log) ≡ true → HandlersDone s p log }
{}
