//! What the closing of one processor leaves of the others, and what a sweep is that lacks its return.

ghost use Rattle.std.specs.Prelude.{◌≡◌, ◌≢◌, ◌≤◌, ℕ, List, [], ◌∷◌, ◌++◌};
ghost use Rattle.bm_journal.specs.declared.entry.Entry.{Entry as EntryValue};
ghost use Rattle.bm_journal.specs.declared.entry.Entry.TheVariants as entry;
ghost use Rattle.bm_journal.specs.declared.ids.Domain.{Domain as DomainValue};
ghost use Rattle.bm_journal.specs.declared.ids.Domain.TheVariants.{Tracing};
ghost use Rattle.bm_journal.specs.declared.units.Units.TheVariants.{Whole};
ghost use Rattle.bm_world.specs.LivingState.{LivingState};
ghost use Rattle.bm_world.specs.SideState.{SideState};
ghost use Rattle.bm_world.specs.Told.{IsSideOf, SideDoes};
ghost use Rattle.bm_world.specs.ToldLiving.{LivingDoes};
ghost use Rattle.bm_closing.specs.Closes.{ClosesBy};
ghost use Rattle.bm_closing.specs.Gathered.{gathering};
ghost use Rattle.bm_closing.specs.Others.{LeavesOther};
ghost use Rattle.bm_closing.specs.Stops.{LacksReturn};
ghost use Rattle.bm_closing.specs.declared.period.Waited.{Waited as WaitedValue};

/// Where processors take turns on one thread, what one of them does in its closing leaves each other one without a period in progress
/// if it had none, with as many periods to begin, and with the same parcels in its inboxes.
pub fn closing_law()
    ensures side { (p q : ℕ) (before now : SideState) → p ≢ q → IsSideOf q before →
        ClosesBy SideDoes before now → LeavesOther p before now }
    ensures living { (p q : ℕ) (before now : LivingState) → p ≢ q → IsSideOf q before.side →
        ClosesBy LivingDoes before now → LeavesOther p before.side now.side }
{}

/// A gathering whose period passes its stamp is a sweep that lacks its return. Wrong neighbours: with the return behind it, without
/// the stamp, of another class, of other units, and where the number that was seen doesn't reach the stamp.
pub fn stop_law()
    ensures gathered { (c : ℕ) (units : List ℕ) (w : WaitedValue) → w.period.domain ≡ Tracing →
        w.stamp ≤ w.seen → LacksReturn c units (gathering c units w) }
    ensures returned { (c : ℕ) (units : List ℕ) (w : WaitedValue) →
        ¬ LacksReturn c units (gathering c units w ++ entry.Return c (Whole units) ∷ []) }
    ensures unstamped { (c n : ℕ) (units : List ℕ) (d : DomainValue) (more : List EntryValue) →
        ¬ LacksReturn c units (entry.Sweep c (Whole units) ∷ entry.Begin d n ∷ more) }
    ensures classed { (c k : ℕ) (units : List ℕ) (w : WaitedValue) →
        LacksReturn c units (gathering k units w) → k ≡ c }
    ensures named { (c : ℕ) (units others : List ℕ) (w : WaitedValue) →
        LacksReturn c units (gathering c others w) → others ≡ units }
    ensures waited { (c : ℕ) (units : List ℕ) (w : WaitedValue) →
        LacksReturn c units (gathering c units w) → w.stamp ≤ w.seen }
{}
