//! What turns of other processors leave of one that waits for its turn.

ghost use Rattle.std.specs.Prelude.{◌≡◌, ◌≢◌, ◌<◌, ◌≤◌, ◌+◌, ◌^◌, ◌++◌, ℕ, Bool, List, None, [], get_or, length, set};
ghost use Rattle.bm_journal.specs.declared.ids.Domain.{Domain};
ghost use Rattle.bm_lang.specs.declared.scenario.Parts.{Parts};
ghost use Rattle.bm_law.specs.Lists.{Leaves, Log, after};
ghost use Rattle.bm_law.specs.State.{State, opening, seen};
ghost use Rattle.bm_law_order.specs.Act.{Act};
ghost use Rattle.bm_law_order.specs.Calls.{lock_in};
ghost use Rattle.bm_law_order.specs.Orders.{AllFit, Order, by, part_of};
ghost use Rattle.bm_law_order.specs.Seals.{Wait, WaitLeads};
ghost use Rattle.bm_law_order.specs.Story.{Story, deeds, lines, plainly};
ghost use Rattle.bm_law_order.specs.Tie.{Tied};
ghost use Rattle.bm_law_scenario.specs.Declared.{declared_in};
ghost use Rattle.bm_law_places.specs.Placed.{IsWellPlaced};
ghost use Rattle.bm_law_places.specs.World.{AllFound, SweepsInbox, World, outset, world_after, world_over};
ghost use Rattle.bm_grace.specs.Known.{side};
ghost use Rattle.bm_cache.specs.Shown.{shown};
ghost use Rattle.bm_cache.specs.Tokens.{Token, number_of};
ghost use Rattle.bm_world.specs.LivingState.{LivingState, known_living};
ghost use Rattle.bm_world.specs.Spared.{AllSpare};
ghost use Rattle.bm_world.specs.Standings.{standing_at};
ghost use Rattle.bm_world.specs.Told.{IsSideOf};
ghost use Rattle.bm_world.specs.ToldLiving.{knows_living, told_living};
ghost use Rattle.bm_exec_levels.specs.AtPolls.{DoesHere, polled};
ghost use Rattle.bm_exec_levels.specs.Hosting.{with_side};
ghost use Rattle.bm_exec_levels.specs.Ready.{asked_of};
ghost use Rattle.bm_exec_levels.specs.Slotted.{AreStocked};
ghost use Rattle.bm_exec_levels.specs.Sound.{Sound};
ghost use Rattle.bm_exec_levels.specs.declared.kept.Kept.{Kept};
ghost use Rattle.bm_exec_levels.specs.declared.processor.Processor.{Processor};
ghost use Rattle.bm_exec_levels.specs.declared.program.Program.{Program};
ghost use Rattle.bm_run.specs.Asked.{asked_by_all, in_its_turn};
ghost use Rattle.bm_run.specs.LeftAlone.{AllUnswept, IsLeftAlone, IsTold, IsTurnOf, KeepsFor, Turned};
ghost use Rattle.bm_run.specs.LogsSoFar.{LogsSoFar, Stretched};
ghost use Rattle.bm_run.specs.SoFar.{at_turn};
ghost use Rattle.bm_run.specs.Spared.{Has};

/// Ordinary code can go on on a processor that was left alone between two worlds, if few enough objects and works are asked for in the
/// later one, and what lives there, and what slots hold, is as the program's types and maps have it. An order without entries of processor q, in which each entry finds what it needs, leaves q alone where the units that q
/// has wait for what they waited for, q may begin as many periods, and no fewer calls are counted. The acts of a turn of another processor spare each unit that q
/// has, and acts that spare a unit change nothing that is told of its waiting. So a turn leaves q alone whose acts keep what q may begin
/// and what the units that they spare wait for, and ordinary code can go on on q afterwards. A turn is such a one where its log is tied to
/// the world since its begin, goes on naming what is there, and sweeps what waits in the inboxes, as one that doesn't sweep does.
pub fn others_law()
    ensures sound { (p : Program) (m : Processor LivingState) (now : LivingState) →
        IsLeftAlone (shown m.caches) m.side now →
        asked_of knows_living p.scenario.now (with_side m now) < 2 ^ 22 →
        AreStocked (declared_in p.scenario.now) (known_living now).objects →
        Sound knows_living p m → Sound knows_living p (with_side m now) }
    ensures alone { (q : ℕ) (o : Order) (w : World) (before now : LivingState) (s : State Token) →
        part_of q o ≡ [] → IsWellPlaced w → AllFound o w →
        w.shared ≡ plainly (told_living before) →
        (world_over o w).shared ≡ plainly (told_living now) →
        w.lists q ≡ seen number_of s → IsSideOf q before.side → IsSideOf q now.side →
        ((d : Domain) →
        (side d (known_living before)).begins ≤ (side d (known_living now)).begins) →
        before.asked ≤ now.asked →
        ((n : ℕ) → Has n (seen number_of s) →
        standing_at now.standings n ≡ standing_at before.standings n) →
        IsLeftAlone s before now }
    ensures spares { (p q n : ℕ) → q ≢ p → (story : Story) (w : World) →
        IsWellPlaced w → Has n (w.lists q) → AllFound (by p (lines story)) w →
        AllSpare n (deeds story) }
    ensures turn { (p q : ℕ) → q ≢ p →
        (story : Story) (w : World) (before now : LivingState) (s : State Token) →
        IsTurnOf p story w before now → KeepsFor q (deeds story) before now →
        w.lists q ≡ seen number_of s → q < before.side.grace.processors →
        IsLeftAlone s (at_turn q before) (at_turn q now) }
    ensures stays { (p q : ℕ) → q ≢ p →
        (story : Story) (w : World) (before now : LivingState) (g : Program) (k : Kept) →
        IsTurnOf p story w before now → KeepsFor q (deeds story) before now →
        w.lists q ≡ seen number_of (shown k.caches) → q < before.side.grace.processors →
        asked_of knows_living g.scenario.now (in_its_turn k (at_turn q now)) < 2 ^ 22 →
        AreStocked (declared_in g.scenario.now) (known_living now).objects →
        Sound knows_living g (in_its_turn k (at_turn q before)) →
        Sound knows_living g (in_its_turn k (at_turn q now)) }
    ensures told { (closing : Bool) (p : ℕ) (since log : Log)
        (w : World) (before now : LivingState) (s : State ℕ)
        (tie : Tied (polled knows_living closing since before) (DoesHere knows_living)
        since before 0 [] [] log now) →
        IsTold w before → IsSideOf p before.side → Leaves p since (w.lists p) → Leaves p log s →
        AllFit world_after SweepsInbox (by p (lines tie.story)) w →
        Turned p tie.story w s before now }
    ensures unswept { (p : ℕ) (log : Log) (w : World) →
        AllUnswept log → AllFit world_after SweepsInbox (by p log) w }
    ensures waits { (n : ℕ) (acts : List Act) (before now : ℕ → Wait) →
        AllSpare n acts → WaitLeads acts before now → now n ≡ before n }
{}

/// A stretch of a processor's log that is tied to the world since its begin goes into the order: with it each entry of the order finds what
/// it needs, each drop has its answers, and each other processor was left alone. The stretch names what is there, ends under no lock, and its
/// sweeps take what waits in the inboxes.
pub fn stretch_law()
    ensures { (closing : Bool) (n pages p : ℕ) (o : Order) (logs : List Log)
        (log added : Log) (world now : LivingState) (s : State ℕ) →
        LogsSoFar n pages o logs world → p < n → log ≡ get_or logs p [] ++ added →
        lock_in log ≡ None →
        Tied (polled knows_living closing (get_or logs p []) (at_turn p world))
        (DoesHere knows_living) (get_or logs p []) (at_turn p world) 0 [] [] log now →
        Leaves p (get_or logs p []) (after (opening p) (get_or logs p [])) → Leaves p log s →
        AllFit world_after SweepsInbox (by p added) (world_over o (outset n pages)) →
        Stretched n pages p o logs added world now }
{}

/// No processor asked for more than all did, and a turn that asks for at most so many raises what all did by at most so many.
pub fn asked_law()
    ensures each { (s : Parts) (kept : List Kept) (world : LivingState) (i : ℕ) (k : Kept) →
        i < length kept →
        asked_of knows_living s (in_its_turn (get_or kept i k) world) ≤ asked_by_all s kept world }
    ensures turn { (s : Parts) (kept : List Kept) (before now : LivingState)
        (i n : ℕ) (k d : Kept) → i < length kept →
        asked_of knows_living s (in_its_turn k now)
        ≤ asked_of knows_living s (in_its_turn (get_or kept i d) before) + n →
        asked_by_all s (set kept i k) now ≤ asked_by_all s kept before + n }
{}
