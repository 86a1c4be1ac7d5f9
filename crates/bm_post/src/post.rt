//! The pool and the inboxes, as one processor sees them.

ghost use Rattle.std.specs.Prelude.{◌≡◌, ◌<◌, ◌≤◌, ◌+◌, ◌^◌, ◌∷◌, true, ℕ, List, Option, [], drop, length, IfOk, IfErr, IfSome, IfNone, OnOk, OnErr};
ghost use Rattle.std.specs.List.{All};
ghost use Rattle.std.specs.Option.{option_map_or};
ghost use Rattle.bm_page.specs.declared.units.Seal.{Seal};
ghost use Rattle.bm_grace.specs.Rest.{StaysAtRest};
ghost use Rattle.bm_grace.specs.Rights.{Rights};
ghost use Rattle.bm_law_order.specs.Act as act;
ghost use Rattle.bm_law_order.specs.Act.{sealed};
ghost use Rattle.bm_post.specs.Calls.{Fetches, GivesBack, IsOf, KeepsCalls, Mails, PostCall, Posts, Receives, TellsCall, fetched, received, returned_call, sent};
ghost use Rattle.bm_post.specs.Parcels.{oldest, parcel_sent, parcel_taken};
ghost use Rattle.bm_post.specs.Rights.{AreSame, Holds, IsSettled, Lasting, MayLeave, WaitedBy, numbers};

use bm_class::Class;
use bm_grace::Knows;
use bm_page::Unit;
use bm_word::NoMemory;

/// The pool of units, and an inbox for each processor and class, as one processor sees them. The kernel has no inboxes:
/// a processor there puts units on another one's list itself. This project's own.
///
/// It tells which units are `mine`: those that it gave this side and hasn't got back. Of a unit with its lives so far
/// and its seal or none it tells three tests: whether it is *settled*, so that it may be used again; *due*, so that it
/// waits for a grace period; and *ripe*, so that its grace period is seen to have passed. A settled unit has a number of
/// its type and room for one life more. It may also tell its calls.
pub trait Post: Knows {
    /// The calls that weren't refused, in order, where they are told.
    ghost calls: { Self → Option (List PostCall) };

    /// Appends up to `want` units of a class from the pool, and answers how many. They weren't mine before, and differ
    /// from each other. Which come, and when fewer do, is what the act says that it tells; on one thread it is what the
    /// stock gives. `NoMemory`, where `out` can't grow, is the only error and changes nothing.
    fn fetch(&mut self, class: Class, want: usize, out: &mut Vec<Unit>) -> Result<usize, NoMemory>
        ensures ok { IfOk result
            (λ n. Fetches class want n out.old.items out.new.items (Self.rights self.old)
            (Self.rights self.new)) }
        ensures err { OnErr result (out.new.items ≡ out.old.items) }
        ensures same { OnErr result (AreSame (Self.rights self.old) (Self.rights self.new)) }
        ensures lasts { Lasting [] (Self.rights self.old) (Self.rights self.new) }
        ensures known { Posts Self.tells (Self.known self.old) (Self.known self.new) }
        ensures rest { StaysAtRest Self.rest self.old self.new }
        ensures calls { IfOk result
            (λ n. TellsCall (fetched class want n out.old.items out.new.items) (calls self.old)
            (calls self.new)) }
        ensures no_call { OnErr result (KeepsCalls (calls self.old) (calls self.new)) }
        ensures does { OnOk result
            (Self.does
            (act.Fetches class want (numbers (drop (length out.old.items) out.new.items)) ∷ [])
            self.old self.new) }
        ensures idle { OnErr result (Self.does [] self.old self.new) };

    /// Gives units back to the pool; none is fine. They are mine, and settled or ripe. Where all are settled, that is told.
    fn put_back(&mut self, units: Vec<Unit>)
        requires mine { Holds (Self.rights self.old) units.items }
        requires fit { All (MayLeave (Self.rights self.old)) units.items }
        ensures back { GivesBack (numbers units.items) (Self.rights self.old)
            (Self.rights self.new) }
        ensures lasts { Lasting (numbers units.items) (Self.rights self.old)
            (Self.rights self.new) }
        ensures known { Posts Self.tells (Self.known self.old) (Self.known self.new) }
        ensures rest { StaysAtRest Self.rest self.old self.new }
        ensures calls { TellsCall (returned_call units.items) (calls self.old) (calls self.new) }
        ensures does { Self.does (act.Returns (sealed units.items) ∷ []) self.old self.new }
        ensures gives { All (IsSettled (Self.rights self.old)) units.items
            → Self.does (act.GivesBack (numbers units.items) ∷ []) self.old self.new };

    /// Sends units of a class to a processor's inbox, as one parcel; this one's own inbox too. They are mine, and settled
    /// or ripe. It refuses for want of memory alone, and then hands the units back, which are mine still.
    /// Where all are settled, or all are ripe by one seal, that is told.
    fn send(&mut self, to: u8, class: Class, units: Vec<Unit>) -> Result<(), Vec<Unit>>
        requires to { to < (Self.known self.old).grace.processors }
        requires some { 0 < length units.items }
        requires class { All (IsOf class) units.items }
        requires mine { Holds (Self.rights self.old) units.items }
        requires fit { All (MayLeave (Self.rights self.old)) units.items }
        ensures sent { OnOk result
            (GivesBack (numbers units.items) (Self.rights self.old) (Self.rights self.new)) }
        ensures refused { IfErr result (λ back. back.items ≡ units.items) }
        ensures same { OnErr result (AreSame (Self.rights self.old) (Self.rights self.new)) }
        ensures lasts { Lasting (numbers units.items) (Self.rights self.old)
            (Self.rights self.new) }
        ensures may { OnErr result (All (MayLeave (Self.rights self.new)) units.items) }
        ensures mails { OnOk result
            (Mails Self.tells
            (parcel_sent to (Self.known self.old).grace.processor class (numbers units.items))
            (Self.known self.old) (Self.known self.new)) }
        ensures known { OnErr result
            (Posts Self.tells (Self.known self.old) (Self.known self.new)) }
        ensures rest { StaysAtRest Self.rest self.old self.new }
        ensures calls { OnOk result
            (TellsCall (sent to class units.items) (calls self.old) (calls self.new)) }
        ensures no_call { OnErr result (KeepsCalls (calls self.old) (calls self.new)) }
        ensures does { OnOk result
            (Self.does (act.Sends class to (sealed units.items) ∷ []) self.old self.new) }
        ensures drains { OnOk result (All (IsSettled (Self.rights self.old)) units.items
            → Self.does (act.Drains class to (numbers units.items) ∷ []) self.old self.new) }
        ensures releases { OnOk result ((seal : Seal)
            → All (WaitedBy (Self.rights self.old) seal) units.items
            → Self.does (act.Releases class to (numbers units.items) seal.stamp seal.seen ∷ [])
            self.old self.new) }
        ensures idle { OnErr result (Self.does [] self.old self.new) };

    /// Takes the oldest parcel out of this processor's inbox of a class, as it was sent; `None` where it found the inbox
    /// empty. The units weren't mine before, and differ from each other.
    fn receive(&mut self, class: Class) -> Option<Vec<Unit>>
        ensures some { IfSome result
            (λ units. Receives class units.items (Self.rights self.old) (Self.rights self.new)) }
        ensures none { IfNone result (AreSame (Self.rights self.old) (Self.rights self.new)) }
        ensures lasts { Lasting [] (Self.rights self.old) (Self.rights self.new) }
        ensures mails { Mails Self.tells (parcel_taken class) (Self.known self.old)
            (Self.known self.new) }
        ensures oldest_told { IfSome (Self.known self.old).parcels
            (λ boxes. oldest (boxes class) ≡ option_map_or (λ units. numbers units.items) result []) }
        ensures none_told { IfNone result
            (IfSome (Self.known self.old).parcels (λ boxes. boxes class ≡ [])) }
        ensures rest { StaysAtRest Self.rest self.old self.new }
        ensures calls { IfSome result
            (λ units. TellsCall (received class units.items) (calls self.old) (calls self.new)) }
        ensures empty { IfNone result
            (TellsCall (received class []) (calls self.old) (calls self.new)) }
        ensures does { Self.does
            (act.Receives class (option_map_or (λ units. numbers units.items) result []) ∷ [])
            self.old self.new };

    // What may be used again can be named, and can begin a life.
    ghost room: { (p : Self) (n life : ℕ) (seal : Option Seal)
        → (Self.rights p).settled n life seal ≡ true → (n < 2 ^ 16) × (life + 1 < 2 ^ 32) };
}
