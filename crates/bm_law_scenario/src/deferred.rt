//! Worked scenarios with deferred work and their journals, and wrong journals beside them.

ghost use Rattle.std.specs.Prelude.{◌≡◌, true, [], ◌∷◌, None, Some};
ghost use Rattle.bm_journal.specs.JournalText.{journal_text};
ghost use Rattle.bm_journal.specs.declared.ids.Domain.TheVariants.{Plain, Tracing};
ghost use Rattle.bm_law.specs.State.{opening};
ghost use Rattle.bm_law_scenario.specs.Closing.{EndsPeriods, in_progress};
ghost use Rattle.bm_law_scenario.specs.Lawful.{LawfulLogs};
ghost use Rattle.bm_law_scenario.specs.Parcels.{ParcelLaw};
ghost use Rattle.bm_law_scenario.specs.Works.{lowest_raised};
ghost use Rattle.bm_law_scenario.specs.WorkedDeferred.{one_block, one_block_journal, no_block, no_block_journal};
ghost use Rattle.bm_law_scenario.specs.WorkedText.{lines_text, one_block_lines};
ghost use Rattle.bm_law_scenario.specs.WrongShort.{third_unnamed, three_pages};
ghost use Rattle.bm_law_scenario.specs.WrongDeferred.{begun, ends, inbox_forgotten, left_out, not_asked, not_behind, not_received, other_received, raised, received, received_twice, sends, swept_from_inbox};

/// Lawful journals with deferred work: of a script that makes an object of 4088 bytes and drops it, with its text; and of
/// one that makes nothing, so that a work stands behind the script alone.
pub fn worked_deferred()
    ensures one_block { LawfulLogs one_block one_block_journal }
    ensures text { journal_text one_block_journal ≡ lines_text one_block_lines }
    ensures no_block { LawfulLogs no_block no_block_journal }
{}

/// Journals that aren't lawful, each one step away from one above: no work behind a call that raised the flag; a work
/// behind a statement though no flag is up; no work behind the script; a fetch that gives fewer units than were wanted though a page
/// was never named.
pub fn wrong_deferred()
    ensures left_out { ¬ LawfulLogs one_block left_out }
    ensures not_asked { ¬ LawfulLogs no_block not_asked }
    ensures not_behind { ¬ LawfulLogs no_block not_behind }
    ensures unnamed { ¬ LawfulLogs three_pages third_unnamed }
{}

/// Which class is worked for first, computed: the lowest one whose flag is up.
pub fn worked_flags()
    ensures lowest { lowest_raised (1 ∷ 9 ∷ 10 ∷ []) (raised 9 (raised 10 (opening 0))) ≡ Some 9 }
    ensures other { lowest_raised (1 ∷ 10 ∷ []) (raised 9 (raised 10 (opening 0))) ≡ Some 10 }
    ensures none { lowest_raised (1 ∷ 10 ∷ []) (raised 9 (opening 0)) ≡ None }
{}

/// Which periods are in progress at the closing, and that they end then: one that has begun and not ended; no other one.
pub fn worked_periods()
    ensures begun { in_progress Plain None (begun Plain 1) ≡ Some 1 }
    ensures other { in_progress Tracing None (begun Plain 1) ≡ None }
    ensures ended { in_progress Tracing None (ends Tracing 1) ≡ None }
    ensures ends { EndsPeriods (begun Plain 1) (opening 0) (ends Plain 2) }
    ensures left { ¬ EndsPeriods (begun Plain 1) (opening 0) [] }
    ensures number { ¬ EndsPeriods (begun Plain 1) (opening 0) (ends Plain 4) }
    ensures domain { ¬ EndsPeriods (begun Plain 1) (opening 0) (ends Tracing 2) }
    ensures twice { ¬ EndsPeriods (ends Plain 2) (opening 0) (ends Plain 2) }
{}

/// Parcels: one that a drain sent is received, or swept behind the units of the lists. A sweep that forgets the inbox is
/// refused, and none at all; so is a parcel that isn't received, another one, and one that is received twice.
pub fn worked_parcels()
    ensures received { ParcelLaw 0 received }
    ensures swept { ParcelLaw 0 swept_from_inbox }
    ensures forgotten { ¬ ParcelLaw 0 inbox_forgotten }
    ensures not_swept { ¬ ParcelLaw 0 sends }
    ensures not_received { ¬ ParcelLaw 0 not_received }
    ensures other_received { ¬ ParcelLaw 0 other_received }
    ensures received_twice { ¬ ParcelLaw 0 received_twice }
    ensures elsewhere { ¬ ParcelLaw 1 received }
{}
