//! What the parts of deferred work make together.

ghost use Rattle.std.specs.Prelude.{ℕ, ◌++◌};
ghost use Rattle.bm_law.specs.State.{State};
ghost use Rattle.bm_law.specs.Lists.{Log, after};
ghost use Rattle.bm_law_work.specs.WorkPhrases.{Refill};
ghost use Rattle.bm_work_lists.specs.FromLists.{FromLists, Fetched};

/// A refill from the lists, and then the fetch of what is left, if any, is a refill.
pub fn whole_refill()
    ensures whole { (l c n left : ℕ) (s : State ℕ) (one two : Log) → FromLists l c n left s one
        → Fetched l c left (after s one) two → Refill l c n s (one ++ two) }
{}
