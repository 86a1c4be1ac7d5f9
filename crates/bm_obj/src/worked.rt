//! Worked examples of the rules, as theorems by computing.

ghost use Rattle.std.specs.Prelude.{◌≡◌, ◌∷◌, [], None, Some, slice_get};
ghost use Rattle.bm_obj.specs.Carrying.{carried_from};
ghost use Rattle.bm_obj.specs.Notes.{LeavesItem};
ghost use Rattle.bm_obj.specs.Reference.{id_of};
ghost use Rattle.bm_obj.specs.TypeSize.{type_size};
ghost use Rattle.bm_obj.specs.Worked.{one_claimed, one_made, one_put, opened, other, pair, shared, tag_3, x, x_claimed, x_stays};
ghost use Rattle.bm_obj.specs.WorldState.{acquired, claimed, count_of, entered, exchanged, known_of, opening_word, owner_of, put_in, released, taken_out, unclaimed, values_of};
ghost use Rattle.bm_obj.specs.declared.object.UnitPlace.TheVariants.{Free};
ghost use Rattle.bm_obj.specs.declared.type_def.Node.TheVariants.{Bare, List, Tree};
ghost use Rattle.bm_obj.specs.declared.waiting.Waiting.TheVariants.{Claim, Unclaim};

/// Sizes: two fields take 16 bytes; a field, a count and 3 bytes more take 19 without a node, 43 with one of a list and 51 with
/// one of a tree. A node of a list isn't as large as one of a tree.
pub fn worked_sizes()
    ensures pair { type_size pair ≡ 16 }
    ensures bare { type_size (shared Bare) ≡ 19 }
    ensures list { type_size (shared List) ≡ 43 }
    ensures tree { type_size (shared Tree) ≡ 51 }
    ensures nodes { ¬ type_size (shared List) ≡ type_size (shared Tree) }
{}

/// One object with the value 7: a new one has one reference; an acquire makes two; the slot then holds one of them, by its tag,
/// so the side has one. A release leaves one reference and the life; the reference in the slot isn't the side's.
pub fn worked_counts()
    ensures new { count_of x one_made ≡ 1 }
    ensures value { values_of x one_made ≡ 7 ∷ [] }
    ensures two { count_of x (acquired x one_made) ≡ 2 }
    ensures slot { slice_get one_put.words 0 ≡ Some (record { old = Some x; by = Some tag_3 }) }
    ensures had { (known_of one_put).refs 1 ≡ Some (record { to = x; count = 1 }) }
    ensures stays { count_of x (released x one_put) ≡ 1 }
    ensures gone { (known_of (released x one_put)).refs 1 ≡ None }
    ensures not_two { ¬ count_of x one_made ≡ 2 }
    ensures not_mine { ¬ (known_of one_made).mine 1 ≡ Some 5 }
{}

/// The last release ends the life, and the unit has begun it; a release before doesn't.
pub fn worked_last_release()
    ensures last { slice_get (released x one_made).places 1 ≡ Some (Free 5) }
    ensures mine { (known_of (released x one_made)).mine 1 ≡ Some 5 }
    ensures other { (known_of (released x one_made)).mine 0 ≡ Some 0 }
    ensures not_yet { ¬ slice_get (released x (acquired x one_made)).places 1 ≡ Some (Free 5) }
{}

/// An object has no owner at first; a claim gives it one, which a second claim leaves; an unclaim takes it away.
pub fn worked_claims()
    ensures first { owner_of x one_made ≡ None }
    ensures won { owner_of x (claimed x 0 one_made) ≡ Some 0 }
    ensures taken { owner_of x (claimed x 1 (claimed x 0 one_made)) ≡ Some 0 }
    ensures free { owner_of x (unclaimed x (claimed x 0 one_made)) ≡ None }
    ensures stays { (claimed x 0 one_made).words ≡ one_made.words }
{}

/// The slot is opened without a tag; an empty exchange leaves its tag too.
pub fn worked_slots()
    ensures opening { slice_get opened.words 0 ≡ Some opening_word }
    ensures empty { slice_get (exchanged 0 None tag_3 opened).words 0
        ≡ Some (record { old = None; by = Some tag_3 }) }
    ensures not_opening { ¬ slice_get (exchanged 0 None tag_3 opened).words 0 ≡ Some opening_word }
{}

/// A claimed object goes into a note with its claim: the side then has neither, the note is one of those that are out, and what
/// comes out of it gives back both.
pub fn worked_notes()
    ensures carried { carried_from x (known_of one_claimed) ≡ x_claimed }
    ensures refs { (known_of (put_in x one_claimed)).refs 1 ≡ None }
    ensures claims { (known_of (put_in x one_claimed)).claims 1 ≡ None }
    ensures owner { owner_of x (put_in x one_claimed) ≡ Some 0 }
    ensures back { taken_out x_claimed (put_in x one_claimed) ≡ one_claimed }
    ensures not_without { ¬ carried_from x (known_of one_claimed)
        ≡ carried_from x (known_of one_made) }
    ensures not_out { ¬ put_in x one_claimed ≡ one_claimed }
{}

/// A won claim waits until the graph's history has its entry, or until the claim ends; the end of a claim whose entry is there
/// waits too.
pub fn worked_waits()
    ensures claim { (known_of one_claimed).waits 0 ≡ Some (Claim (id_of x)) }
    ensures ended { (known_of (unclaimed x one_claimed)).waits 0 ≡ None }
    ensures entry { (known_of (entered 0 one_claimed)).waits 0 ≡ None }
    ensures unclaim { (known_of (unclaimed x (entered 0 one_claimed))).waits 0
        ≡ Some (Unclaim (id_of x)) }
    ensures not_claim { ¬ (known_of (unclaimed x one_claimed)).waits 0 ≡ Some (Claim (id_of x)) }
{}

/// A history leaves an object as an item that was pushed and not popped; a pop of another life of its unit doesn't matter.
pub fn worked_items()
    ensures stays { LeavesItem (id_of x) x_stays }
    ensures popped { ¬ LeavesItem other x_stays }
{}
