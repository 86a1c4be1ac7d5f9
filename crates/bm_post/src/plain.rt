//! The pool and the inboxes for one thread.

ghost use Rattle.std.specs.Prelude.{◌≡◌, ◌+◌, ◌*◌, ◌%◌, ◌<◌, ◌≤◌, ◌∷◌, ◌++◌, [], IfOk, IfErr, IfSome, IfNone, OnOk, OnErr, None, drop, false, length, reverse, vec_capacity};
ghost use Rattle.std.specs.List.{All};
ghost use Rattle.std.specs.Option.{option_map_or};
ghost use Rattle.bm_page.specs.Out.{IsFromStock};
ghost use Rattle.bm_page.specs.Stock.{fetched as stock_fetched, next_unit};
ghost use Rattle.bm_post.specs.Kept.{IsRoomy};
ghost use Rattle.bm_post.specs.HasRoom.{room-of};
ghost use Rattle.bm_post.specs.Calls.{Fetches, GivesBack, IsOf, KeepsCalls, Mails, Posts, Receives, TellsCall, fetched, received, returned_call, sent};
ghost use Rattle.bm_post.specs.PostState.{Parcels, all_returned, inbox, no_parcels, known_by, rights_in, sent_to, taken_by, told_in};
ghost use Rattle.bm_post.specs.Parcels.{oldest, parcel_sent, parcel_taken};
ghost use Rattle.bm_post.specs.Rights.{AreSame, Holds, Lasting, MayLeave, numbers};

use crate::back::put_all_back;
use crate::inbox::Inbox;
use crate::post::Post;
use bm_class::Class;
use bm_grace::Knows;
use bm_page::{Pool, Unit};
use bm_word::NoMemory;
use std::alloc::Global;
use std::marker::Model;

/// How many inboxes there are: one for each of eight processors and eleven classes.
const INBOXES: usize = 88;

/// The pool and all inboxes, on one thread. It is one processor's side at a time, which `turn` chooses. It has to be
/// ended, by `finish` or by `give_up`. Contracts see the pool, and each inbox as the parcels that wait in it.
///
/// It doesn't tell its calls: what they did is what stands in the pool and the inboxes.
pub struct PlainPost {
    pool: Pool,
    processors: u8,
    processor: u8,
    inboxes: Vec<Inbox>,
}

impl Model for PlainPost {
    ghost use Rattle.bm_post.specs.PostState.{PostState};
    ghost use Rattle.bm_post.specs.Kept.{IsPost};

    ghost Value = { PostState };

    ghost view = { λ post. record {
      pool = post.pool;
      processors = post.processors;
      processor = post.processor;
      inboxes = post.inboxes.items;
    } };

    ghost invariant = { λ post. IsPost post.processors post.processor post.pool
        post.inboxes.items };
}

/// The place of an inbox among all.
fn place_of(processor: u8, class: Class) -> usize
    requires { processor < 8 }
    ensures place { result ≡ 11 * processor + class }
    ensures inside { result < 88 }
    ensures class { result % 11 ≡ class }
{
    11 * processor as usize + class.index() as usize
}

/// Empty inboxes, behind some that are there already, up to their number.
fn fill_inboxes(alloc: Global, inboxes: &mut Vec<Inbox>)
    requires none { inboxes.old.items ≡ [] }
    requires room { 88 ≤ vec_capacity inboxes.old }
    ensures { inboxes.new.items ≡ no_parcels }
{
    for _place in 0..INBOXES {
        if let Err(_) = inboxes.push(Inbox::new(alloc)) {
            unreachable!()
        }
    }
}

impl PlainPost {
    /// The pool and empty inboxes, for so many processors, 1 to 8. It is the side of processor 0. Units of the pool that
    /// are out are mine. Each unit of the pool has room for one life more, as in a pool that was just made. Want of memory is the only refusal, and hands the pool back.
    pub fn create(alloc: Global, pool: Pool, processors: u8) -> Result<PlainPost, Pool>
        requires some { 0 < processors }
        requires limit { processors ≤ 8 }
        requires roomy { IsRoomy pool }
        ensures ok { IfOk result (λ post.
            post
            ≡ record
            { pool = pool; processors = processors; processor = 0; inboxes = no_parcels }) }
        ensures err { IfErr result (λ back. back ≡ pool) }
    {
        match Vec::with_capacity(alloc, INBOXES) {
            Ok(mut inboxes) => {
                fill_inboxes(alloc, &mut inboxes);
                Ok(PlainPost {
                    pool,
                    processors,
                    processor: 0,
                    inboxes,
                })
            }
            Err(_) => Err(pool),
        }
    }

    /// Makes it the side of a processor.
    pub fn turn(&mut self, processor: u8)
        requires { processor < self.old.processors }
        ensures { self.new ≡ record self.old { processor = processor } }
    {
        self.processor = processor;
    }

    /// Ends it where no parcel waits, and gives the pool back.
    pub fn finish(self) -> Pool
        requires { All (λ (parcels : Parcels). parcels ≡ []) self.inboxes }
        ensures { result ≡ self.pool }
    {
        let PlainPost {
            pool,
            processors: _,
            processor: _,
            mut inboxes,
        } = self;
        while let Some(inbox) = inboxes.pop() {
            inbox.finish();
        }
        inboxes.destroy_empty();
        pool
    }

    /// Ends it after a want of memory, whatever waits. Its units are lost.
    pub fn give_up(self) {
        let PlainPost {
            pool,
            processors: _,
            processor: _,
            mut inboxes,
        } = self;
        while let Some(inbox) = inboxes.pop() {
            inbox.give_up();
        }
        inboxes.destroy_empty();
        pool.give_up();
    }
}

impl Knows for PlainPost {
    ghost known = { known_by };

    ghost tells = { false };

    ghost rights = { rights_in };

    // It knows nothing of grace periods.
    ghost rest = { λ _ _ _. ⊥ };

    // What a world does is told by the whole of it.
    ghost does = { λ _ _ _. Unit {0} };

    ghost does_same = { λ a. tt };

    ghost does_join = { λ es fs a b c x y. tt };
}

impl Post for PlainPost {
    ghost calls = { λ _. None };

    fn fetch(&mut self, class: Class, want: usize, out: &mut Vec<Unit>) -> Result<usize, NoMemory>
        ensures count { IfOk result
            (λ n. n ≡ length (stock_fetched class want self.old.pool).units) }
        ensures units { OnOk result
            (out.new.items ≡ out.old.items ++ (stock_fetched class want self.old.pool).units) }
        ensures state { OnOk result
            (self.new ≡ record self.old { pool = (stock_fetched class want self.old.pool).pool }) }
        ensures fewer { IfOk result (λ n. n < want → next_unit class self.new.pool ≡ None) }
        ensures each { OnOk result
            (All (IsFromStock class self.old.pool) (stock_fetched class want self.old.pool).units) }
        ensures err_state { OnErr result (self.new ≡ self.old) }
        ensures ok { IfOk result
            (λ n. Fetches class want n out.old.items out.new.items (rights_in self.old)
            (rights_in self.new)) }
        ensures err { OnErr result (out.new.items ≡ out.old.items) }
        ensures same { OnErr result (AreSame (rights_in self.old) (rights_in self.new)) }
        ensures lasts { Lasting [] (rights_in self.old) (rights_in self.new) }
        ensures known { Posts false (known_by self.old) (known_by self.new) }
    {
        self.pool.fetch(class, want, out)
    }

    fn put_back(&mut self, units: Vec<Unit>)
        requires mine { Holds (rights_in self.old) units.items }
        requires fit { All (MayLeave (rights_in self.old)) units.items }
        ensures state { self.new
            ≡ record self.old { pool = all_returned (reverse units.items) self.old.pool } }
        ensures back { GivesBack (numbers units.items) (rights_in self.old) (rights_in self.new) }
        ensures lasts { Lasting (numbers units.items) (rights_in self.old) (rights_in self.new) }
        ensures known { Posts false (known_by self.old) (known_by self.new) }
    {
        put_all_back(&mut self.pool, units);
    }

    fn send(&mut self, to: u8, class: Class, units: Vec<Unit>) -> Result<(), Vec<Unit>>
        requires to { to < self.old.processors }
        requires some { 0 < length units.items }
        requires class { All (IsOf class) units.items }
        requires mine { Holds (rights_in self.old) units.items }
        requires fit { All (MayLeave (rights_in self.old)) units.items }
        ensures state { OnOk result (self.new ≡ sent_to to class units.items self.old) }
        ensures err_state { OnErr result (self.new ≡ self.old) }
        ensures refused { IfErr result (λ back. back.items ≡ units.items) }
        ensures sent { OnOk result
            (GivesBack (numbers units.items) (rights_in self.old) (rights_in self.new)) }
        ensures same { OnErr result (AreSame (rights_in self.old) (rights_in self.new)) }
        ensures lasts { Lasting (numbers units.items) (rights_in self.old) (rights_in self.new) }
        ensures may { OnErr result (All (MayLeave (rights_in self.new)) units.items) }
        ensures mails { OnOk result
            (Mails false (parcel_sent to self.old.processor class (numbers units.items))
            (known_by self.old) (known_by self.new)) }
    {
        let inboxes = &mut self.inboxes;
        inboxes[place_of(to, class)].push(units)
    }

    fn receive(&mut self, class: Class) -> Option<Vec<Unit>>
        ensures oldest { IfSome result (λ units.
            inbox self.old.processor class self.old
            ≡ units.items ∷ inbox self.old.processor class self.new) }
        ensures none_waits { IfNone result (inbox self.old.processor class self.old ≡ []) }
        ensures state { IfSome result (λ _. self.new ≡ taken_by self.old.processor class self.old) }
        ensures none_state { IfNone result (self.new ≡ self.old) }
        ensures some { IfSome result
            (λ units. Receives class units.items (rights_in self.old) (rights_in self.new)) }
        ensures none { IfNone result (AreSame (rights_in self.old) (rights_in self.new)) }
        ensures lasts { Lasting [] (rights_in self.old) (rights_in self.new) }
        ensures mails { Mails false (parcel_taken class) (known_by self.old) (known_by self.new) }
        ensures oldest_told { oldest (told_in self.old class)
            ≡ option_map_or (λ units. numbers units.items) result [] }
        ensures none_told { IfNone result (told_in self.old class ≡ []) }
    {
        let place = place_of(self.processor, class);
        let inbox = &mut self.inboxes[place];
        inbox.pop()
    }

    ghost room = { λ p. room-of };
}
