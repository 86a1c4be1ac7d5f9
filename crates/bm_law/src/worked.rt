//! Worked logs, whose lists are computed.

ghost use Rattle.std.specs.Prelude.{◌≡◌, ◌∷◌, [], Some, None, true, false};
ghost use Rattle.std.specs.Option.{IsSomeAnd};
ghost use Rattle.bm_law.specs.Lists.{lists_of};
ghost use Rattle.bm_law.specs.Worked.{Emptied, four_lists, made, made_and_dropped, without_pages, first_looked, second_put, first_put, third_given, third_freed, nested_frees, second_put_delayed, third_delayed, nested_delayed_frees, nested_busy, first_taken, second_taken};
ghost use Rattle.std.specs.Prelude.{◌++◌, codes, ℕ};
ghost use Rattle.bm_journal.specs.declared.entry.Entry.TheVariants as entry;
ghost use Rattle.bm_journal.specs.declared.ids.Domain.TheVariants.{Plain as PlainDomain};
ghost use Rattle.bm_journal.specs.declared.units.Units.TheVariants.{Whole};
ghost use Rattle.bm_law.specs.Spans.{own_entries};
ghost use Rattle.bm_law.specs.Null.{Nothing, NullLaw, RepliesFit};
ghost use Rattle.bm_law.specs.Phrases.{alloc_took, alloc_empty, alloc_busy, free_pushed, free_put, delay_pushed, delay_put};
ghost use Rattle.bm_law.specs.Worked.{script_begins, script_stops};
ghost use Rattle.bm_law.specs.WorkedDeferred.{cache_of, work_overtaken, first_batch, second_batch, free_then, swept_up, second_stage, second_returned};

/// What some logs leave, computed: that of one object made and dropped; that of one asked for where there is no page;
/// and that of three frees each within the one below, plain and delayed, where the inner one overtakes the outer.
pub fn worked_logs()
    ensures made { four_lists (lists_of 0 made) ≡ Some ((2 ∷ 1 ∷ 0 ∷ []) ∷ [] ∷ [] ∷ [] ∷ []) }
    ensures dropped { IsSomeAnd (lists_of 0 made_and_dropped) Emptied }
    ensures without_pages { IsSomeAnd (lists_of 0 without_pages) Emptied }
    ensures looked { four_lists (lists_of 0 first_looked) ≡ Some ((0 ∷ []) ∷ [] ∷ [] ∷ [] ∷ []) }
    ensures second { four_lists (lists_of 0 second_put)
        ≡ Some ((0 ∷ []) ∷ (2 ∷ []) ∷ [] ∷ [] ∷ []) }
    ensures first { four_lists (lists_of 0 first_put)
        ≡ Some ((0 ∷ []) ∷ (3 ∷ 2 ∷ []) ∷ [] ∷ [] ∷ []) }
    ensures given { four_lists (lists_of 0 third_given)
        ≡ Some ((0 ∷ []) ∷ (3 ∷ 2 ∷ []) ∷ [] ∷ [] ∷ []) }
    ensures third { four_lists (lists_of 0 third_freed)
        ≡ Some ((1 ∷ 0 ∷ []) ∷ (3 ∷ 2 ∷ []) ∷ [] ∷ [] ∷ []) }
    ensures frees { IsSomeAnd (lists_of 0 nested_frees) Emptied }
    ensures second_delayed { four_lists (lists_of 0 second_put_delayed)
        ≡ Some ((0 ∷ []) ∷ [] ∷ [] ∷ (2 ∷ []) ∷ []) }
    ensures third_delayed { four_lists (lists_of 0 third_delayed)
        ≡ Some ((0 ∷ []) ∷ [] ∷ (1 ∷ []) ∷ (3 ∷ 2 ∷ []) ∷ []) }
    ensures delayed_frees { IsSomeAnd (lists_of 0 nested_delayed_frees) Emptied }
{}

/// What some logs with deferred work leave, computed: that of a work during which a handler takes all units; that of two
/// objects freed with delay, where the second one waits for the first one's grace period; and of its two ends.
#[tactic(auto, unfolding(bm_class::specs::Sizes::size_of_class, bm_class::specs::Watermarks::low_of_size))]
pub fn worked_deferred()
    ensures overtaken { cache_of 10 (lists_of 0 work_overtaken)
        ≡ Some
        (record {
          free = [];
          extra = [];
          delayed = [];
          extra_delayed = [];
          active = 0;
          count = 0;
          raised = true;
          target = 0;
          deferred =
              record {
                ready = [];
                second = [];
                first = [];
                plain = None;
                tracing = None;
              };
        }) }
    ensures first_batch { cache_of 1 (lists_of 0 first_batch)
        ≡ Some
        (record {
          free = 55 ∷ free_then;
          extra = [];
          delayed = [];
          extra_delayed = [];
          active = 0;
          count = 51;
          raised = false;
          target = 0;
          deferred =
              record {
                ready = [];
                second = [];
                first = 3 ∷ [];
                plain = Some 2;
                tracing = None;
              };
        }) }
    ensures second_batch { cache_of 1 (lists_of 0 second_batch)
        ≡ Some
        (record {
          free = free_then;
          extra = [];
          delayed = [];
          extra_delayed = [];
          active = 0;
          count = 50;
          raised = false;
          target = 0;
          deferred =
              record {
                ready = [];
                second = [];
                first = 55 ∷ [];
                plain = Some 4;
                tracing = None;
              };
        }) }
    ensures swept { cache_of 1 (lists_of 0 swept_up)
        ≡ Some
        (record {
          free = [];
          extra = [];
          delayed = [];
          extra_delayed = [];
          active = 0;
          count = 0;
          raised = false;
          target = 0;
          deferred =
              record {
                ready = [];
                second = [];
                first = [];
                plain = Some 4;
                tracing = None;
              };
        }) }
    ensures second_stage { cache_of 1 (lists_of 0 second_stage)
        ≡ Some
        (record {
          free = free_then;
          extra = [];
          delayed = [];
          extra_delayed = [];
          active = 0;
          count = 50;
          raised = false;
          target = 0;
          deferred =
              record {
                ready = [];
                second = 3 ∷ [];
                first = 55 ∷ [];
                plain = Some 4;
                tracing = Some 2;
              };
        }) }
    ensures returned { cache_of 1 (lists_of 0 second_returned)
        ≡ Some
        (record {
          free = free_then;
          extra = [];
          delayed = [];
          extra_delayed = [];
          active = 0;
          count = 50;
          raised = false;
          target = 0;
          deferred =
              record {
                ready = [];
                second = [];
                first = 55 ∷ [];
                plain = Some 4;
                tracing = None;
              };
        }) }
{}

/// The phrases of these logs' calls, computed: the entries of one level, whatever handlers stand between them.
#[tactic(auto, unfolding(bm_class::specs::Sizes::size_of_class, bm_class::specs::Watermarks::low_of_size, bm_class::specs::Watermarks::high_of_size))]
pub fn worked_phrases()
    ensures took { own_entries 0 made
        ≡ script_begins ++ entry.New (codes "item") (7 ∷ []) ∷ alloc_took 0 3 1 None 3 0 }
    ensures empty { own_entries 0 without_pages
        ≡ entry.Fill 0 (Whole []) ∷ entry.Script (codes "main") ∷ entry.In PlainDomain 1
        ∷ entry.New (codes "item") (7 ∷ []) ∷ alloc_empty 0 0 ++ script_stops }
    ensures outer { own_entries 0 nested_busy
        ≡ script_begins ++ entry.New (codes "item") (7 ∷ []) ∷ alloc_took 0 3 1 None 3 0 }
    ensures busy { own_entries 1 nested_busy
        ≡ entry.Handler (codes "h") ∷ entry.New (codes "item") (9 ∷ []) ∷ alloc_busy 0 2 1
        ++ entry.Back (codes "h") ∷ [] }
    ensures first_put { own_entries 1 third_freed
        ≡ own_entries 1 first_taken ++ free_put 0 3 0 2 (0 ∷ []) 1 1 ++ entry.Back (codes "h1")
        ∷ [] }
    ensures second_put { own_entries 2 third_freed
        ≡ own_entries 2 second_taken ++ free_put 0 2 0 3 [] 0 2 ++ entry.Back (codes "h2") ∷ [] }
    ensures third_pushed { own_entries 0 third_freed
        ≡ own_entries 0 third_given ++ free_pushed 0 1 0 2 0 }
    ensures first_delayed { own_entries 1 third_delayed
        ≡ own_entries 1 first_taken ++ delay_put 0 3 0 2 (0 ∷ []) 1 1 false
        ++ entry.Back (codes "h1") ∷ [] }
    ensures second_delayed { own_entries 2 third_delayed
        ≡ own_entries 2 second_taken ++ delay_put 0 2 0 3 [] 0 2 false ++ entry.Back (codes "h2")
        ∷ [] }
    ensures third_delayed { own_entries 0 third_delayed
        ≡ own_entries 0 third_given ++ delay_pushed 0 1 0 0 false }
    ensures replies_empty { RepliesFit Nothing (own_entries 0 without_pages) }
    ensures replies_busy { RepliesFit Nothing (own_entries 1 nested_busy) }
    ensures null { NullLaw 0 nested_busy }
    ensures replies_given { RepliesFit Nothing (own_entries 0 nested_frees) }
{}
