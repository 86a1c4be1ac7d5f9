//! A word that bm_obj and bm_graph each have for themselves, since neither stands on the other.

ghost use Rattle.std.specs.Prelude.{◌≡◌};
ghost use Rattle.bm_graph.specs.Objects.{same_object};
ghost use Rattle.bm_journal.specs.declared.ids.ObjId.{ObjId};
ghost use Rattle.bm_obj.specs.Notes.{is_object};

/// The two crates mean the same by one object: what a page's history leaves as an item, and what a list or tree holds, go by the
/// same unit and life.
pub fn same_object_law()
    ensures { (a b : ObjId) → is_object a b ≡ same_object a b }
{}
