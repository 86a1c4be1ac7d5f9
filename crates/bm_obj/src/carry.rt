//! Notes and pages, by which objects go from a side to a graph and back.

ghost use Rattle.std.specs.Prelude.{◌≡◌, ◌≢◌, ◌<◌, ℕ, true, None, Some, is_some, length, IfSome};
ghost use Rattle.std.specs.Option.{option_map};
ghost use Rattle.bm_journal.specs.declared.ids.Tag.{Tag};
ghost use Rattle.bm_obj.specs.Carrying.{HasClaimPage, IsCarried, IsClaimOfType, MayLook, NoClaimFor, carried_from, told_entered, told_marked, told_page_in, told_put_in, told_taken_out};
ghost use Rattle.bm_obj.specs.Known.{Has, HasPage, type_at};
ghost use Rattle.bm_obj.specs.Waits.{waits_for};

use crate::objects::Objects;
use bm_journal::{Past, Tag};

/// What a note carries: one reference to an object, with the object's claim if it goes along, or the page of a graph. It has no
/// calls.
pub trait Slip {
    ghost use Rattle.std.specs.Prelude.{Option};
    ghost use Rattle.bm_obj.specs.Notes.{Carried, Page};

    /// The object that it carries, if it does.
    ghost item: { Self → Option Carried };

    /// The page that it is, if it is one.
    ghost page: { Self → Option Page };
}

/// Notes of one side of all objects. A graph's items are notes, and so is its page, which goes to the side that works on the graph.
/// No call refuses or takes memory. This project's own; in the kernel a node's pointer goes into a graph, under the graph's lock.
pub trait Carry: Objects {
    /// A note. It has to be spent.
    type Note: Slip;

    /// Puts a reference into a note. The object's claim goes with it, where this side has it; then the side has the graph's page.
    fn put_in(&mut self, r: Self::Ref) -> Self::Note
        requires has { Has (Self.reference r) (Self.known self.old) }
        requires page { HasClaimPage ((Self.known self.old).claims (Self.reference r).unit)
            (Self.known self.old) }
        ensures item { Self.Note.item result
            ≡ Some (carried_from (Self.reference r) (Self.known self.old)) }
        ensures page { Self.Note.page result ≡ None }
        ensures of_type { IsClaimOfType (carried_from (Self.reference r) (Self.known self.old))
            (Self.known self.old) }
        ensures known { Self.known self.new
            ≡ told_put_in (carried_from (Self.reference r) (Self.known self.old))
            (Self.known self.old) };

    /// Takes the reference out of a note, with the claim that the note carries, if it does; then the side has the graph's page.
    fn take_out(&mut self, n: Self::Note) -> Self::Ref
        requires item { is_some (Self.Note.item n) ≡ true }
        requires carried { IfSome (Self.Note.item n) (λ c. IsCarried c (Self.known self.old)) }
        requires page { IfSome (Self.Note.item n)
            (λ c. HasClaimPage c.claim (Self.known self.old)) }
        ensures answer { option_map (λ c. c.to) (Self.Note.item n) ≡ Some (Self.reference result) }
        ensures of_type { IfSome (Self.Note.item n) (λ c. IsClaimOfType c (Self.known self.old)) }
        ensures known { IfSome (Self.Note.item n) (λ c.
            Self.known self.new ≡ told_taken_out c (Self.known self.old)) };

    /// Notes that the call of this tag begins.
    fn mark(&mut self, tag: Tag)
        ensures known { Self.known self.new ≡ told_marked tag (Self.known self.old) };

    /// Takes the page of a graph to this side.
    fn page_in(&mut self, n: Self::Note)
        requires page { is_some (Self.Note.page n) ≡ true }
        requires graph { IfSome (Self.Note.page n) (λ page.
            page.graph < length (Self.known self.old).graphs) }
        ensures known { IfSome (Self.Note.page n) (λ page.
            Self.known self.new ≡ told_page_in page (Self.known self.old)) };

    /// Gives out the page of a graph, which this side has. It has no claim for the graph itself, and nothing waits for an entry in
    /// the graph's history. What the side knows of other pages stays.
    fn page_out(&mut self, graph: u8) -> Self::Note
        requires page { HasPage graph (Self.known self.old) }
        requires claims { NoClaimFor graph (Self.known self.old) }
        requires waits { (Self.known self.old).waits graph ≡ None }
        ensures item { Self.Note.item result ≡ None }
        ensures page { Self.Note.page result ≡ (Self.known self.old).pages graph }
        ensures others { (g : ℕ) → g ≢ graph
            → (Self.known self.new).pages g ≡ (Self.known self.old).pages g }
        ensures known { Self.known self.new
            ≡ record (Self.known self.old) { pages = (Self.known self.new).pages } };

    /// Adds an entry to the history of a graph whose page this side has, with its position. It is an entry of the last call that was
    /// marked. A push or an addition that was done names the object whose won claim waits, a pop with an object or a removal the one
    /// whose claim was ended, and at any other entry nothing waits.
    fn mark_past(&mut self, graph: u8, at: u32, past: &Past)
        requires page { HasPage graph (Self.known self.old) }
        requires tag { (Self.known self.old).last ≡ Some past.now.tag }
        requires waits { (Self.known self.old).waits graph ≡ waits_for past.now.call }
        ensures known { Self.known self.new
            ≡ told_entered graph at past.now (Self.known self.old) };

    /// A value of the object that a note carries, the one that the object was made with. The side has the page of the graph that has
    /// the object's claim, and where the page tells its history, that leaves the object as an item.
    fn get_in(&mut self, n: &Self::Note, field: u8) -> u32
        requires item { is_some (Self.Note.item n.now) ≡ true }
        requires carried { IfSome (Self.Note.item n.now) (λ c. IsCarried c (Self.known self.old)) }
        requires look { IfSome (Self.Note.item n.now) (λ c. MayLook c (Self.known self.old)) }
        requires field { IfSome (Self.Note.item n.now) (λ c.
            field < (type_at (Self.known self.old).defs c.to.def).fields) }
        ensures known { Self.known self.new ≡ Self.known self.old };
}
