//! Worked openings, and wrong ones beside them.

ghost use Rattle.std.specs.Prelude.{◌∷◌, []};
ghost use Rattle.bm_journal.specs.declared.entry.Entry.TheVariants as entry;
ghost use Rattle.bm_journal.specs.declared.units.Units.TheVariants.{Whole};
ghost use Rattle.bm_law_scenario.specs.Fills.{AreFills, fresh_stock, opening_stock};

/// What caches begin with, computed: processor 0 opens with the first units of a fresh stock. Processor 1 opens with the next page where a
/// unit has a page of its own, with nothing where that page was the last one, with the next units of a page where it has room, and with all
/// its classes after all those of processor 0. Refused: the units with which processor 0 opens, for processor 1.
pub fn worked_openings()
    ensures first { AreFills (10 ∷ []) (fresh_stock 2) (entry.Fill 10 (Whole (0 ∷ [])) ∷ []) }
    ensures next_page { AreFills (10 ∷ []) (opening_stock (10 ∷ []) 2 1)
        (entry.Fill 10 (Whole (256 ∷ [])) ∷ []) }
    ensures none_left { AreFills (10 ∷ []) (opening_stock (10 ∷ []) 1 1)
        (entry.Fill 10 (Whole []) ∷ []) }
    ensures same_page { AreFills (0 ∷ []) (opening_stock (0 ∷ []) 1 1)
        (entry.Fill 0 (Whole (4 ∷ 5 ∷ 6 ∷ 7 ∷ [])) ∷ []) }
    ensures two_classes { AreFills (0 ∷ 10 ∷ []) (opening_stock (0 ∷ 10 ∷ []) 3 1)
        (entry.Fill 0 (Whole (4 ∷ 5 ∷ 6 ∷ 7 ∷ [])) ∷ entry.Fill 10 (Whole (512 ∷ [])) ∷ []) }
    ensures page_again { ¬ AreFills (10 ∷ []) (opening_stock (10 ∷ []) 2 1)
        (entry.Fill 10 (Whole (0 ∷ [])) ∷ []) }
    ensures units_again { ¬ AreFills (0 ∷ []) (opening_stock (0 ∷ []) 1 1)
        (entry.Fill 0 (Whole (0 ∷ 1 ∷ 2 ∷ 3 ∷ [])) ∷ []) }
{}
