//! Processors that close together.

ghost use Rattle.std.specs.Prelude.{◌≡◌, ◌%◌, ◌<◌, ℕ, List, [], OnOk};
ghost use Rattle.bm_journal.specs.declared.ids.Domain.{Domain as DomainValue};
ghost use Rattle.bm_closing.specs.Crews.{ClosesInOrder, LeavesSteps, OfEach, StepsBelow};
ghost use Rattle.bm_closing.specs.declared.crew.Phase.{Phase as PhaseValue};
ghost use Rattle.bm_closing.specs.declared.crew.Phase.TheVariants.{Ends as EndsPhase, Sweeps as SweepsPhase};

use bm_word::NoMemory;

/// A phase of a closing: each processor ends the periods that it has in progress (`end_periods`), or sweeps its classes
/// (`sweep_each`). This project's own.
#[derive(Clone, Copy)]
pub enum Phase {
    Ends,
    Sweeps,
}

/// Processors whose scripts have ended, and that close together. Each takes a step of each phase, and all have taken their steps of
/// one before any takes one of the next. A step leaves to each other processor what it needs for its own, so that what it needs
/// says nothing of an order: processors that take turns may be a crew, and so may threads. This project's own.
pub trait Crew {
    /// How many processors there are.
    ghost count: { Self → ℕ };

    /// What a processor needs for its step of a phase.
    ghost may: { PhaseValue → Self → ℕ → Type 0 };

    /// What is there once a processor has taken its step of a phase.
    ghost has: { PhaseValue → Self → ℕ → Type 0 };

    /// One crew came to be another by the step of a processor of a phase.
    ghost goes: { PhaseValue → ℕ → Self → Self → Type 0 };

    /// The number of a domain.
    ghost number: { Self → DomainValue → ℕ };

    /// The units that a processor holds of the classes that are swept, in its lists and in its inboxes.
    ghost holds: { Self → ℕ → List ℕ };

    /// How many processors there are.
    fn processors(&self) -> u8
        ensures { result ≡ count self.now };

    /// The step of a processor of a phase. Want of memory is the only refusal, and nothing is said of the crew then.
    fn step(&mut self, phase: Phase, processor: u8) -> Result<(), NoMemory>
        requires there { processor < count self.old }
        requires may { may phase self.old processor }
        ensures count { OnOk result (count self.new ≡ count self.old) }
        ensures has { OnOk result (has phase self.new processor) }
        ensures goes { OnOk result (goes phase processor self.old self.new) }
        ensures others { OnOk result
            (LeavesSteps (may phase) (has phase) processor self.old self.new) };

    // Once each processor has ended its periods, each may sweep, ..
    ghost sweeps_next: { (c : Self) →
        OfEach (count c) (has EndsPhase c) → OfEach (count c) (may SweepsPhase c) };

    // .. and behind each phase none has a period in progress.
    ghost even: { (phase : PhaseValue) (c : Self) → OfEach (count c) (has phase c) →
        (d : DomainValue) → number c d % 2 ≡ 0 };

    // A processor that has swept holds nothing.
    ghost empty: { (c : Self) (p : ℕ) → has SweepsPhase c p → holds c p ≡ [] };
}

/// A phase of a crew: each processor takes its step, in ascending order. Want of memory is the only refusal.
pub fn barrier<C: Crew>(crew: &mut C, phase: Phase) -> Result<(), NoMemory>
    requires may { OfEach (C.count crew.old) (C.may phase crew.old) }
    ensures count { OnOk result (C.count crew.new ≡ C.count crew.old) }
    ensures has { OnOk result (OfEach (C.count crew.new) (C.has phase crew.new)) }
    ensures steps { OnOk result
        (StepsBelow (C.goes phase) (C.count crew.old) crew.old crew.new) }
{
    for processor in 0..crew.processors() {
        crew.step(phase, processor)?;
    }
    Ok(())
}

/// The closing of a crew: each processor ends the periods that it has in progress, and then each sweeps its classes. Want of memory
/// is the only refusal.
pub fn close_all<C: Crew>(crew: &mut C) -> Result<(), NoMemory>
    requires may { OfEach (C.count crew.old) (C.may EndsPhase crew.old) }
    ensures count { OnOk result (C.count crew.new ≡ C.count crew.old) }
    ensures has { OnOk result (OfEach (C.count crew.new) (C.has SweepsPhase crew.new)) }
    ensures goes { OnOk result
        (ClosesInOrder C.goes (C.count crew.old) crew.old crew.new) }
    ensures even { OnOk result ((d : DomainValue) → C.number crew.new d % 2 ≡ 0) }
    ensures empty { OnOk result (OfEach (C.count crew.new) (λ p. C.holds crew.new p ≡ [])) }
{
    barrier(crew, Phase::Ends)?;
    barrier(crew, Phase::Sweeps)
}
