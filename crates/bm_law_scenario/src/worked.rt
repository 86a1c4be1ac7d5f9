//! Worked declarations, whose classes are computed.

ghost use Rattle.std.specs.Prelude.{◌≡◌, ◌∷◌, [], ℕ};
ghost use Rattle.bm_law.specs.State.{State};
ghost use Rattle.bm_law_scenario.specs.Held.{Nothing, Null, no_names, with_name};
ghost use Rattle.bm_law_scenario.specs.Opened.{object_size, opened_classes};
ghost use Rattle.bm_law_scenario.specs.Runs.{Done};
ghost use Rattle.bm_law_scenario.specs.Lawful.{graph_names};
ghost use Rattle.bm_law_scenario.specs.Worked.{item, page, pair, three_maps};
ghost use Rattle.std.specs.Prelude.{codes};

/// The classes that some types use, computed: an object of one field is served from the least class, one of two fields
/// from the next, and one with a great pad from the last. Each class stands once, ascending.
#[tactic(auto, unfolding(bm_class::specs::Sizes::class_of_size))]
pub fn worked_classes()
    ensures sizes { object_size pair ≡ 16 }
    ensures padded { object_size page ≡ 4088 }
    ensures none { opened_classes [] ≡ [] }
    ensures one { opened_classes (item ∷ []) ≡ 0 ∷ [] }
    ensures three { opened_classes (page ∷ pair ∷ item ∷ pair ∷ []) ≡ 0 ∷ 1 ∷ 10 ∷ [] }
{}

/// What names hold, computed: a name holds what it got last, and the others hold what they held.
pub fn worked_names()
    ensures same { with_name (codes "x") Null no_names (codes "x") ≡ Null }
    ensures other { with_name (codes "x") Null no_names (codes "y") ≡ Nothing }
    ensures done { (s : State ℕ) → Done no_names no_names s [] }
{}

/// The lists and trees among the maps of a scenario, computed: slots aren't among them.
pub fn worked_graphs()
    ensures none { graph_names [] ≡ [] }
    ensures two { graph_names three_maps ≡ codes "q" ∷ codes "t" ∷ [] }
{}
