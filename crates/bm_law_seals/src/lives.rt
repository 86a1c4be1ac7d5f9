//! The law of lives.

ghost use Rattle.std.specs.Prelude.{◌≡◌, ℕ, List, None};
ghost use Rattle.bm_law.specs.Lists.{Log};
ghost use Rattle.bm_law_laid.specs.OrderOf.{IsOrderOf};
ghost use Rattle.bm_law_lives.specs.Lives.{LivesLaw, WholeLives};
ghost use Rattle.bm_law_lives.specs.Units.{FreedAsGiven};
ghost use Rattle.bm_law_order.specs.Lives.{LivesFit, first_lives, lives_after};
ghost use Rattle.bm_law_order.specs.Orders.{AllFit, Order, over, part_of};
ghost use Rattle.bm_law_seals.specs.Answered.{AreAnswered};

/// Logs of which an order finds what it needs of lives, and in which each drop has its reply directly behind it and each reply `last` the
/// free, fit the law of lives, however many references there are. Where at last no unit has a life and no drop is under way, each life that
/// was given has ended, and each unit is freed as often as it was given.
pub fn lives_law()
    ensures law { (logs : List Log) (o : Order) → IsOrderOf logs o →
        AllFit lives_after LivesFit o first_lives → ((p : ℕ) → AreAnswered (part_of p o)) →
        LivesLaw logs }
    ensures whole { (logs : List Log) (o : Order) → IsOrderOf logs o →
        AllFit lives_after LivesFit o first_lives → ((p : ℕ) → AreAnswered (part_of p o)) →
        ((u : ℕ) → (over lives_after o first_lives).holds u ≡ None) →
        ((p l : ℕ) → (over lives_after o first_lives).dropping p l ≡ None) → WholeLives logs }
    ensures freed { (logs : List Log) (o : Order) → IsOrderOf logs o →
        AllFit lives_after LivesFit o first_lives → ((p : ℕ) → AreAnswered (part_of p o)) →
        ((u : ℕ) → (over lives_after o first_lives).holds u ≡ None) →
        ((p l : ℕ) → (over lives_after o first_lives).dropping p l ≡ None) → FreedAsGiven logs }
{}
