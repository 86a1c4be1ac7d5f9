//! Works of worked logs, as the phrases say them.

ghost use Rattle.std.specs.Prelude.{◌≡◌, true, false, [], ◌∷◌, ◌++◌, None, Some};
ghost use Rattle.bm_journal.specs.declared.ids.Domain.TheVariants.{Plain};
ghost use Rattle.bm_law.specs.State.{opening};
ghost use Rattle.bm_law.specs.WorkedDeferred.{work_overtaken, first_batch, second_batch, second_stage, second_returned};
ghost use Rattle.bm_law.specs.Pages.{ShortLaw};
ghost use Rattle.bm_law_work.specs.Parts.{Say};
ghost use Rattle.bm_law_work.specs.WorkPhrases.{IsSend, Passing, Refill, Unloads, Work, empty_take, may_batch, may_begin, middle_of_class, takes};
ghost use Rattle.bm_law_work.specs.WorkedPages.{fetched_by, fetched_later, filled_with};
ghost use Rattle.bm_law_work.specs.WorkedParts.{IsFrom, brought_too_many, fetched_none, fetched_too_many, from_both, from_stock, kept_at, second_too_early, sent_at, take_to, with_batches, with_lists};

/// The works of some logs: a drain during which a handler takes all units; a batch that begins; one that passes, and the
/// next one that begins; a second stage that begins, and that ends.
#[tactic(auto, unfolding(bm_class::specs::Sizes::size_of_class, bm_class::specs::Watermarks::low_of_size, bm_class::specs::Watermarks::high_of_size))]
pub fn worked_works()
    ensures overtaken { IsFrom 1 (Work 0 10) work_overtaken }
    ensures batched { IsFrom 216 (Work 0 1) first_batch }
    ensures passed { IsFrom 251 (Work 0 1) second_batch }
    ensures begun { IsFrom 262 (Work 0 1) second_stage }
    ensures ended { IsFrom 273 (Work 0 1) second_returned }
{}

/// What the parts of a work say, and what they refuse: where a refill takes its units from, where a drain ends, and when a
/// batch begins and is sent.
#[tactic(auto, unfolding(bm_class::specs::Sizes::size_of_class, bm_class::specs::Watermarks::low_of_size, bm_class::specs::Watermarks::high_of_size))]
pub fn worked_parts()
    ensures both { Refill 0 10 3 (with_lists (5 ∷ []) (9 ∷ 8 ∷ 7 ∷ [])) from_both }
    ensures early { ¬ Refill 0 10 3 (with_lists (5 ∷ []) (9 ∷ 8 ∷ 7 ∷ [])) second_too_early }
    ensures stock { Refill 0 10 3 (with_lists (5 ∷ []) []) from_stock }
    ensures many { ¬ Refill 0 10 3 (with_lists (5 ∷ []) []) fetched_too_many }
    ensures beyond { ¬ Refill 0 10 3 (with_lists (5 ∷ []) []) brought_too_many }
    ensures none { ¬ Refill 0 10 3 (with_lists (5 ∷ []) []) fetched_none }
    ensures middle { Unloads 10 4 (takes 10 (take_to 3 6 ∷ take_to 2 5 ∷ take_to 1 4 ∷ [])) }
    ensures emptied { Unloads 10 4 (takes 10 (take_to 3 6 ∷ []) ++ empty_take 10 0) }
    ensures high { ¬ Unloads 10 4 (takes 10 (take_to 3 6 ∷ take_to 2 5 ∷ [])) }
    ensures past { ¬ Unloads 10 4 (takes 10 (take_to 3 5 ∷ take_to 2 4 ∷ take_to 1 3 ∷ [])) }
    ensures small { middle_of_class 0 ≡ 64 }
    ensures page { middle_of_class 10 ≡ 4 }
    ensures batches { may_batch 1 (with_batches (3 ∷ []) None (Some 2)) ≡ true }
    ensures batched { may_batch 1 (with_batches (3 ∷ []) (Some 2) None) ≡ false }
    ensures no_batch { may_batch 1 (with_batches [] None None) ≡ false }
    ensures begins { may_begin 1 (with_batches (3 ∷ []) (Some 2) None) ≡ true }
    ensures begun { may_begin 1 (with_batches (3 ∷ []) None (Some 2)) ≡ false }
    ensures no_second { may_begin 1 (with_batches [] None None) ≡ false }
    ensures sent { Passing 0 1 Plain (Some 4) (Say 0 (IsSend 1)) (opening 0) (sent_at 4) }
    ensures waits { Passing 0 1 Plain (Some 4) (Say 0 (IsSend 1)) (opening 0) (kept_at 3) }
    ensures hasty { ¬ Passing 0 1 Plain (Some 4) (Say 0 (IsSend 1)) (opening 0) (sent_at 3) }
    ensures late { ¬ Passing 0 1 Plain (Some 4) (Say 0 (IsSend 1)) (opening 0) (kept_at 4) }
{}

/// Where fewer units come than were wanted, computed: of two pages both are named, also where the second one is named behind
/// the fetch; where a page was never named, a fetch that gives fewer or nothing is refused, and a cache that begins with three
/// small units.
#[tactic(auto, unfolding(bm_class::specs::Sizes::size_of_class))]
pub fn worked_pages()
    ensures both { ShortLaw 2 (fetched_by (256 ∷ [])) }
    ensures later { ShortLaw 2 fetched_later }
    ensures enough { ShortLaw 9 (fetched_by (256 ∷ 512 ∷ 768 ∷ [])) }
    ensures filled { ShortLaw 9 (filled_with (0 ∷ 1 ∷ 2 ∷ 3 ∷ [])) }
    ensures third { ¬ ShortLaw 3 (fetched_by (256 ∷ [])) }
    ensures nothing { ¬ ShortLaw 2 (fetched_by []) }
    ensures few { ¬ ShortLaw 2 (filled_with (0 ∷ 1 ∷ 2 ∷ [])) }
{}
