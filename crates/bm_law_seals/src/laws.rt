//! The law of seals.

ghost use Rattle.std.specs.Prelude.{ℕ, List};
ghost use Rattle.bm_law.specs.Lists.{Log};
ghost use Rattle.bm_law_laid.specs.OrderOf.{IsOrderOf};
ghost use Rattle.bm_law_lives.specs.Lives.{LivesLaw};
ghost use Rattle.bm_law_lives.specs.StampLaw.{SealsFit};
ghost use Rattle.bm_law_lives.specs.Together.{EachLog};
ghost use Rattle.bm_law_order.specs.Orders.{Order};
ghost use Rattle.bm_law_order.specs.Seals.{IsSealed};
ghost use Rattle.bm_law_places.specs.World.{AllFound, outset};
ghost use Rattle.bm_law_seals.specs.Batches.{WaitsInBatches};

/// In logs of which an order finds what it needs, and gives each unit with what it has waited for, a unit is given with a seal exactly
/// where its life before ended by a delayed free; and the seal is the stamp of the first batch that then had the unit, and the number that
/// the pass saw after which that batch went away.
pub fn seals_law()
    ensures { (processors pages : ℕ) (logs : List Log) (o : Order) → IsOrderOf logs o →
        AllFound o (outset processors pages) → IsSealed o → WaitsInBatches o → LivesLaw logs →
        EachLog (λ p log. SealsFit logs log) logs }
{}
