//! Worked logs with handlers, and wrong logs beside them.

ghost use Rattle.std.specs.Prelude.{◌≡◌, false, []};
ghost use Rattle.bm_journal.specs.declared.ids.Domain.TheVariants.{Plain};
ghost use Rattle.bm_law_scenario.specs.Handlers.{HandlersDone};
ghost use Rattle.bm_law_scenario.specs.Lawful.{LawfulLogs};
ghost use Rattle.bm_law_lives.specs.SectionWords.{SectionWords, words_fit};
ghost use Rattle.bm_law_scenario.specs.WorkedHandlers.{asks_too, back_as_other, begins_with_two, behind_script, encloses_inside, ends_first, handled, idle, interrupted, interrupted_journal, keeps, keeps_it, no_section, plain_script, same_words, uninterrupted_journal};
ghost use Rattle.bm_law_scenario.specs.WorkedJournal.{makes_and_drops};

/// Handlers that left their phrases, in logs with the words of sections: one inside the section of a script, whose allocation
/// answers null; and one in the deferred work behind a script, in a section of its own. The journal with the first of them is
/// lawful.
pub fn worked_handlers()
    ensures interrupted { HandlersDone (handled (makes_and_drops 7 8 9)) 0 interrupted }
    ensures words { SectionWords interrupted }
    ensures journal { LawfulLogs (handled (makes_and_drops 7 8 9)) interrupted_journal }
    ensures behind { HandlersDone (handled idle) 0 behind_script }
    ensures words_behind { SectionWords behind_script }
{}

/// Handlers that didn't: one that keeps its object; one that leaves what its body doesn't; one that begins a section inside a
/// section, and one that begins none outside; a plain script; and one that goes back by another name. Nor is a journal lawful in
/// which a handler stands that isn't planned, or none stands though one is due.
pub fn wrong_handlers()
    ensures keeps { ¬ HandlersDone (handled keeps) 0 keeps_it }
    ensures asks { ¬ HandlersDone (handled idle) 0 asks_too }
    ensures encloses { ¬ HandlersDone (handled idle) 0 encloses_inside }
    ensures bare { ¬ HandlersDone (handled idle) 0 no_section }
    ensures plain { ¬ HandlersDone (handled idle) 0 plain_script }
    ensures back { ¬ HandlersDone (handled idle) 0 back_as_other }
    ensures unplanned { ¬ LawfulLogs (record (handled (makes_and_drops 7 8 9)) { ats = [] })
        interrupted_journal }
    ensures left_out { ¬ LawfulLogs (handled (makes_and_drops 7 8 9)) uninterrupted_journal }
{}

/// Words that no log has: two sections with the same words, a first section with word 2, and one that ends before it began.
pub fn wrong_words()
    ensures same { words_fit Plain 0 same_words ≡ false }
    ensures two { words_fit Plain 0 begins_with_two ≡ false }
    ensures ends { words_fit Plain 0 ends_first ≡ false }
{}
