//! Worked scenarios with their journals, and wrong journals beside them.

ghost use Rattle.std.specs.Prelude.{◌≡◌};
ghost use Rattle.bm_journal.specs.JournalText.{journal_text};
ghost use Rattle.bm_law_scenario.specs.Lawful.{LawfulLogs};
ghost use Rattle.bm_law_scenario.specs.WorkedJournal.{one_object, one_object_journal, no_object, no_object_journal, three_calls, three_calls_journal};
ghost use Rattle.bm_law_scenario.specs.WorkedText.{lines_text, one_object_lines};
ghost use Rattle.bm_law_scenario.specs.WrongJournals.{not_opened, two_processors, other_type, other_script, one_map, one_history, other_dropped, other_value, other_class, two_pages, other_marks, one_step_more, two_logs, no_log, never_dropped, object_left, dropped_twice, null_with_units, below_the_top, not_counted, other_order, one_left_out, not_swept, not_closed, empty_swept, main_first, repeated_once};

/// Lawful journals: of a script that makes an object and drops it, where there is a page, with its text; of the same script
/// where there is none, so that nothing is made, dropped or swept; and of two scripts without a page, the second of which
/// runs first and asks twice.
pub fn worked_journals()
    ensures one_object { LawfulLogs one_object one_object_journal }
    ensures text { journal_text one_object_journal ≡ lines_text one_object_lines }
    ensures no_object { LawfulLogs no_object no_object_journal }
    ensures three_calls { LawfulLogs three_calls three_calls_journal }
{}

/// Journals that aren't lawful, each one step away from one above: in the heading, the histories, a total or the number of
/// logs; in the opening; in the call and what it gives; in the drop, which is left out, stands twice, is of another object or doesn't count;
/// in the close and the sweep; in the order of the scripts; and in how often a block runs. The clause `object_left` is of a
/// script that drops nothing, with exactly the journal that its run would leave.
pub fn wrong_journals()
    ensures processors { ¬ LawfulLogs one_object two_processors }
    ensures pages { ¬ LawfulLogs one_object two_pages }
    ensures types { ¬ LawfulLogs one_object other_type }
    ensures maps { ¬ LawfulLogs one_object one_map }
    ensures scripts { ¬ LawfulLogs one_object other_script }
    ensures marks { ¬ LawfulLogs one_object other_marks }
    ensures histories { ¬ LawfulLogs one_object one_history }
    ensures totals { ¬ LawfulLogs one_object one_step_more }
    ensures opening { ¬ LawfulLogs one_object not_opened }
    ensures two_logs { ¬ LawfulLogs one_object two_logs }
    ensures no_log { ¬ LawfulLogs one_object no_log }
    ensures value { ¬ LawfulLogs one_object other_value }
    ensures class { ¬ LawfulLogs one_object other_class }
    ensures null { ¬ LawfulLogs one_object null_with_units }
    ensures below_the_top { ¬ LawfulLogs one_object below_the_top }
    ensures never_dropped { ¬ LawfulLogs one_object never_dropped }
    ensures object_left { ¬ LawfulLogs object_left never_dropped }
    ensures dropped_twice { ¬ LawfulLogs one_object dropped_twice }
    ensures other_dropped { ¬ LawfulLogs one_object other_dropped }
    ensures not_counted { ¬ LawfulLogs one_object not_counted }
    ensures other_order { ¬ LawfulLogs one_object other_order }
    ensures one_left_out { ¬ LawfulLogs one_object one_left_out }
    ensures not_swept { ¬ LawfulLogs one_object not_swept }
    ensures not_closed { ¬ LawfulLogs one_object not_closed }
    ensures empty_swept { ¬ LawfulLogs no_object empty_swept }
    ensures main_first { ¬ LawfulLogs three_calls main_first }
    ensures repeated_once { ¬ LawfulLogs three_calls repeated_once }
{}
