//! Logs and an order of their entries.

ghost use Rattle.std.specs.Prelude.{◌≡◌, ◌<◌, ◌≤◌, ℕ, ◌+◌, List, [], None, length};
ghost use Rattle.bm_journal.specs.declared.entry.Entry.{Entry};
ghost use Rattle.bm_journal.specs.declared.ids.Domain.{Domain};
ghost use Rattle.bm_law.specs.Lists.{Log};
ghost use Rattle.bm_law_lives.specs.SectionWords.{SectionWords};
ghost use Rattle.bm_law_lives.specs.Short.{JournalShort};
ghost use Rattle.bm_law_lives.specs.Together.{AreOnce, Each, EachLog, named, times};
ghost use Rattle.bm_law_lives.specs.GraceLaw.{AllEnded, GraceLaw, NumbersFit};
ghost use Rattle.bm_law_lives.specs.Lives.{lives_given};
ghost use Rattle.bm_law_lives.specs.StampLaw.{SeenFit, StampsFit};
ghost use Rattle.bm_law_lives.specs.Returns.{receiver, returned_units, taken_units};
ghost use Rattle.bm_law_order.specs.ByDomain.{of};
ghost use Rattle.bm_law_order.specs.Orders.{IsLaid, Order, shared_over};
ghost use Rattle.bm_law_order.specs.Shared.{fresh};
ghost use Rattle.bm_law_order.specs.Whole.{whole};
ghost use Rattle.bm_law_laid.specs.Once.{named_by};
ghost use Rattle.bm_law_laid.specs.UnitsOut.{times_out};
ghost use Rattle.bm_law_laid.specs.OrderOf.{IsOrderOf};

/// The one order of a run by its turns has the entries of the logs, of each log in its order, whatever the turns.
pub fn whole_law()
    ensures { (turns : List ℕ) (logs : List Log) → IsOrderOf logs (whole turns logs) }
{}

/// What logs name is what an order of them names, each number as often.
pub fn named_law()
    ensures times { (names : Entry → List ℕ) (logs : List Log) (o : Order) →
        IsOrderOf logs o → (x : ℕ) →
        times x (named names logs) ≡ times x (named_by names o) }
    ensures count { (names : Entry → List ℕ) (logs : List Log) (o : Order) → IsOrderOf logs o →
        length (named names logs) ≡ length (named_by names o) }
{}

/// Logs of which an order is laid: periods begin with 1, 3, .. and end with 2, 4, .., each number once; a unit is given the
/// lives 1, 2, .., each once; it is returned as often as it is taken, once less if it is out at last; fewer units come than
/// were wanted only where each page gave one; and each parcel goes to a processor that there is. A stamp waits for each number that its log named before, and no number is seen above the
/// last one that a period can end with. Of at most eight logs the law of grace periods holds as a whole, and the sections of
/// each have the words 1, 2, ..; and where no period of a domain is in progress at last, each that began has ended.
pub fn journal_law()
    ensures numbers { (d : Domain) (processors pages : ℕ) (logs : List Log) (o : Order) →
        IsOrderOf logs o → IsLaid processors pages o → NumbersFit d logs }
    ensures given { (u processors pages : ℕ) (logs : List Log) (o : Order) →
        IsOrderOf logs o → IsLaid processors pages o → AreOnce (λ k. k + 1) (lives_given u logs) }
    ensures returned { (u processors pages : ℕ) (logs : List Log) (o : Order) →
        IsOrderOf logs o → IsLaid processors pages o →
        times u (named taken_units logs) ≡ times u (named returned_units logs)
        + times_out u (shared_over o (fresh processors pages)).pool }
    ensures short { (processors pages : ℕ) (logs : List Log) (o : Order) →
        IsOrderOf logs o → IsLaid processors pages o → JournalShort pages logs }
    ensures receivers { (processors pages : ℕ) (logs : List Log) (o : Order) →
        IsOrderOf logs o → IsLaid processors pages o →
        Each (λ p. p < processors) (named receiver logs) }
    ensures stamps { (d : Domain) (processors pages : ℕ) (logs : List Log) (o : Order) →
        IsOrderOf logs o → IsLaid processors pages o → EachLog (λ p log. StampsFit d [] log) logs }
    ensures seen { (d : Domain) (processors pages : ℕ) (logs : List Log) (o : Order) →
        IsOrderOf logs o → IsLaid processors pages o → SeenFit d logs }
    ensures grace { (pages : ℕ) (logs : List Log) (o : Order) → length logs ≤ 8 →
        IsOrderOf logs o → IsLaid (length logs) pages o → GraceLaw logs }
    ensures words { (pages : ℕ) (logs : List Log) (o : Order) → length logs ≤ 8 →
        IsOrderOf logs o → IsLaid (length logs) pages o → EachLog (λ p log. SectionWords log) logs }
    ensures ended { (d : Domain) (processors pages : ℕ) (logs : List Log) (o : Order) →
        IsOrderOf logs o → IsLaid processors pages o →
        (of d (shared_over o (fresh processors pages)).numbers).driver ≡ None → AllEnded d logs }
{}
