//! Worked scripts with sections, and wrong journals beside theirs.

ghost use Rattle.std.specs.Prelude.{refl};
ghost use Rattle.bm_law_scenario.specs.Lawful.{LawfulLogs};
ghost use Rattle.bm_law_scenario.specs.WorkedSections.{asleep, asleep_log, awake, awake_log, no_section, one_yield, open_section, stepless, two_sections, wide_section};

/// Lawful journals of a script with a section inside a section and two yields: a sleepable one, in whose tracing section the outer
/// of the two begins a plain one; and a plain one, in whose plain section neither begins one.
pub fn worked_sections()
    ensures asleep { LawfulLogs asleep (stepless asleep_log refl) }
    ensures awake { LawfulLogs awake (stepless awake_log refl) }
{}

/// Journals that aren't lawful, each one step away: of the sleepable script without a plain section, with one for each of its two,
/// with one that goes on over the second yield or doesn't end, with a yield less, in a plain section as a whole; and of the plain
/// script in a tracing section.
pub fn wrong_sections()
    ensures none { ¬ LawfulLogs asleep (stepless no_section refl) }
    ensures two { ¬ LawfulLogs asleep (stepless two_sections refl) }
    ensures wide { ¬ LawfulLogs asleep (stepless wide_section refl) }
    ensures open { ¬ LawfulLogs asleep (stepless open_section refl) }
    ensures yields { ¬ LawfulLogs asleep (stepless one_yield refl) }
    ensures plain { ¬ LawfulLogs asleep (stepless awake_log refl) }
    ensures tracing { ¬ LawfulLogs awake (stepless asleep_log refl) }
{}
