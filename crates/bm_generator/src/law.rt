//! Laws of generated scenarios, and worked ones.

ghost use Rattle.bm_generator.specs.Laws.{AllGenerated, AllServed};
ghost use Rattle.bm_generator.specs.Worked.{WorkedScenarios};

/// Each generated scenario exceeds no limit, each of its scripts is accepted, and its printed text reads as it, line numbers apart.
pub fn generated_scenarios_are_accepted()
    ensures { AllGenerated }
{}

/// The text of each generated scenario is within the greatest input and reads as it, and whatever it reads as exceeds no limit and
/// has accepted scripts alone.
pub fn generated_texts_are_accepted()
    ensures { AllServed }
{}

/// The text of a generated scenario and the pieces of another, computed by the definition, and pieces that wrong rules would give.
pub fn worked_scenarios()
    ensures { WorkedScenarios }
{}
