//! What acts tell, entries tell.

ghost use Rattle.std.specs.Prelude.{◌++◌, ℕ, List, []};
ghost use Rattle.bm_law.specs.Lists.{Log};
ghost use Rattle.bm_law_order.specs.Acts.{ActsFit, ActsLead, acts_over};
ghost use Rattle.bm_law_order.specs.Orders.{Leads, by};
ghost use Rattle.bm_law_order.specs.Seals.{GivesNone, IsSealed, Nothing, ReleasesFit, Wait, WaitLeads, nobody_waits};
ghost use Rattle.bm_law_order.specs.Shared.{Shared};
ghost use Rattle.bm_law_order.specs.Story.{Steady, Story, deeds, lines, plainly};
ghost use Rattle.bm_law_order.specs.Tie.{HasLed, Tied, whatever};

/// Where the acts of a story find what they need, from a steady state on, its entries find what they need, and lead to the same
/// state, but for the words that were last looked at, which no entry names. The state is steady afterwards.
pub fn story_law()
    ensures leads { (p : ℕ) (story : Story) (s : Shared) → ActsFit p (deeds story) s → Steady s →
        Leads (by p (lines story)) (plainly s) (plainly (acts_over p (deeds story) s)) }
    ensures steady { (p : ℕ) (story : Story) (s : Shared) → ActsFit p (deeds story) s → Steady s →
        Steady (acts_over p (deeds story) s) }
{}

/// A log that is tied to a world whose acts lead from one state to another has grown by entries that lead there, however its
/// chunks are judged.
pub fn tie_law()
    ensures { (p l : ℕ) (since log : Log) (start now : Shared) →
        Tied whatever (ActsLead p) since start l [] [] log now → Steady start →
        HasLed p since start log now }
{}

/// Where the acts of a story tell what each unit waits for, and each batch goes away behind the pass of its class, with its stamp and the
/// number that was seen there, each unit is given with what it has waited for; also where entries come after it that give none.
pub fn wait_law()
    ensures { (p : ℕ) (story : Story) (rest : Log) (now : ℕ → Wait)
        → WaitLeads (deeds story) (λ u. Nothing) now →
        ReleasesFit p story nobody_waits → GivesNone rest → IsSealed (by p (lines story ++ rest)) }
{}
