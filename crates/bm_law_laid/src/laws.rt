//! The laws over an order.

ghost use Rattle.bm_journal.specs.declared.ids.Domain.{Domain};
ghost use Rattle.std.specs.Prelude.{◌≡◌, ℕ, ◌+◌};
ghost use Rattle.bm_page.specs.Stock.{Stock};
ghost use Rattle.bm_law_lives.specs.Returns.{returned_units, taken_units};
ghost use Rattle.bm_law_lives.specs.Together.{times};
ghost use Rattle.bm_law_order.specs.ByDomain.{of};
ghost use Rattle.bm_law_order.specs.Numbers.{Numbers, NumbersFit, numbers_after};
ghost use Rattle.bm_law_order.specs.Lives.{Lives, LivesFit, first_lives, lives_after};
ghost use Rattle.bm_law_order.specs.Pages.{PagesFit, fresh_pages, pages_after};
ghost use Rattle.bm_law_order.specs.Parcels.{Boxes, BoxesFit, boxes_after};
ghost use Rattle.bm_law_order.specs.Orders.{AllFit, AllShared, Order, over, shared_over};
ghost use Rattle.bm_law_order.specs.Shared.{Shared};
ghost use Rattle.bm_law_laid.specs.Once.{named_by};
ghost use Rattle.bm_law_laid.specs.PeriodNumbers.{AreNumbered};
ghost use Rattle.bm_law_laid.specs.LivesGiven.{AreGiven};
ghost use Rattle.bm_law_laid.specs.LivesEnded.{AreEnded, HasBegun, ended_so_far, lives_ended_over};
ghost use Rattle.bm_law_laid.specs.References.{references, references_dropped_over, references_made_over};
ghost use Rattle.bm_law_laid.specs.ParcelsSent.{times_sent_over, times_taken_over, times_waiting};
ghost use Rattle.bm_law_laid.specs.UnitsOut.{IsSettled, times_out};

/// Over an order the periods of a domain begin with the odd numbers above the number before and not above the one after,
/// each once, and end with the even ones.
pub fn numbers_law()
    ensures part { (d : Domain) (o : Order) (n : Numbers) → AllFit numbers_after NumbersFit o n →
        AreNumbered d (of d n).number (of d (over numbers_after o n)).number o }
    ensures all { (d : Domain) (o : Order) (s : Shared) → AllShared o s →
        AreNumbered d (of d s.numbers).number (of d (shared_over o s).numbers).number o }
{}

/// The lives that a unit is given are the next ones, each once.
pub fn lives_given_law()
    ensures part { (u : ℕ) (o : Order) (lives : Lives) → AllFit lives_after LivesFit o lives →
        AreGiven u (lives.begun u) ((over lives_after o lives).begun u) o }
    ensures all { (u : ℕ) (o : Order) (s : Shared) → AllShared o s →
        AreGiven u (s.lives.begun u) ((shared_over o s).lives.begun u) o }
{}

/// The lives of a unit that replies `last` end are the next ones, each once, up to all that have begun but the one that
/// the unit has. At the outset no unit has one.
pub fn lives_ended_law()
    ensures part { (u : ℕ) (o : Order) (lives : Lives) →
        AllFit lives_after LivesFit o lives → HasBegun u lives →
        AreEnded u (ended_so_far u lives) (ended_so_far u (over lives_after o lives))
        (lives_ended_over u o lives) }
    ensures all { (u : ℕ) (o : Order) (s : Shared) → AllShared o s → HasBegun u s.lives →
        AreEnded u (ended_so_far u s.lives) (ended_so_far u (shared_over o s).lives)
        (lives_ended_over u o s.lives) }
    ensures outset { (u : ℕ) → HasBegun u first_lives }
{}

/// References to a unit that are made, with those that there were, are those dropped and those that there are: a life begins
/// with one, an acquire makes one, and each reply to a drop gives one up.
pub fn references_law()
    ensures part { (u : ℕ) (o : Order) (lives : Lives) → AllFit lives_after LivesFit o lives →
        references_made_over u o + references u lives
        ≡ references_dropped_over u o lives + references u (over lives_after o lives) }
    ensures all { (u : ℕ) (o : Order) (s : Shared) → AllShared o s →
        references_made_over u o + references u s.lives
        ≡ references_dropped_over u o s.lives + references u (shared_over o s).lives }
{}

/// How often a unit is sent to an inbox, and waited there at first, is how often it is taken out and waits at last.
pub fn parcels_law()
    ensures part { (u p c processors : ℕ) (o : Order) (boxes : Boxes) →
        AllFit boxes_after (BoxesFit processors) o boxes →
        times_sent_over u p c o + times_waiting u p c boxes
        ≡ times_taken_over u p c o boxes + times_waiting u p c (over boxes_after o boxes) }
    ensures all { (u p c : ℕ) (o : Order) (s : Shared) → AllShared o s →
        times_sent_over u p c o + times_waiting u p c s.boxes
        ≡ times_taken_over u p c o s.boxes + times_waiting u p c (shared_over o s).boxes }
{}

/// How often a unit is returned is how often it is taken from the stock, by fills and fetches, once more if it was out at
/// first, and once less if it is out at last. At the outset the stock is settled.
pub fn returns_law()
    ensures part { (u : ℕ) (o : Order) (pool : Stock) →
        IsSettled pool → AllFit pages_after PagesFit o pool →
        times u (named_by taken_units o) + times_out u pool
        ≡ times u (named_by returned_units o) + times_out u (over pages_after o pool) }
    ensures all { (u : ℕ) (o : Order) (s : Shared) → IsSettled s.pool → AllShared o s →
        times u (named_by taken_units o) + times_out u s.pool
        ≡ times u (named_by returned_units o) + times_out u (shared_over o s).pool }
    ensures outset { (pages : ℕ) → IsSettled (fresh_pages pages) }
{}
