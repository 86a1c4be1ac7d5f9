//! The law of notes: putting a reference in and taking it out undo each other.

ghost use Rattle.std.specs.Prelude.{◌≡◌, None};
ghost use Rattle.bm_obj.specs.Carrying.{IsCarried, carried_from, told_put_in, told_taken_out};
ghost use Rattle.bm_obj.specs.Known.{Has, Known};
ghost use Rattle.bm_obj.specs.Notes.{Carried};
ghost use Rattle.bm_obj.specs.Reference.{Reference};
ghost use Rattle.bm_obj.specs.Undoing.{IsOfLife};
ghost use Rattle.bm_obj.specs.WorldState.{World, known_of};

/// A reference that goes into a note and comes out again is the same, and leaves what the side knows as it was, the claim too. So
/// does one that comes out of a note and goes in again, where the side hadn't the claim. That needs that what the side knows of the
/// life is of one life (`IsOfLife`), as it is on one thread.
pub fn notes_law()
    ensures same { (r : Reference) (k : Known) → (carried_from r k).to ≡ r }
    ensures out_again { (r : Reference) (k : Known) → Has r k → IsOfLife r k →
        told_taken_out (carried_from r k) (told_put_in (carried_from r k) k) ≡ k }
    ensures in_again { (c : Carried) (k : Known) → IsCarried c k → IsOfLife c.to k →
        k.claims c.to.unit ≡ None →
        told_put_in (carried_from c.to (told_taken_out c k)) (told_taken_out c k) ≡ k }
    ensures in_hands { (r : Reference) (w : World) → Has r (known_of w) →
        IsOfLife r (known_of w) }
    ensures in_notes { (c : Carried) (w : World) → IsCarried c (known_of w) →
        IsOfLife c.to (known_of w) }
{}
