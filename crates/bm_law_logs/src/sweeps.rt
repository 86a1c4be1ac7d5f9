//! The sweeps of a closing, from what deferred work says of them.

ghost use Rattle.std.specs.Prelude.{ℕ, List};
ghost use Rattle.bm_law.specs.State.{State};
ghost use Rattle.bm_law.specs.Lists.{Log};
ghost use Rattle.bm_law.specs.Inboxes.{Inboxes};
ghost use Rattle.bm_law_scenario.specs.Closing.{AreSweeps};
ghost use Rattle.bm_law_logs.specs.SweepsTold.{SweepsTold};

/// Sweeps of the lists and of inboxes whose parcels are told are sweeps of the closing.
pub fn sweeps_law()
    ensures { (classes : List ℕ) (boxes : Inboxes) (s : State ℕ) (part : Log)
        → SweepsTold classes boxes s part → AreSweeps classes s part }
{}
