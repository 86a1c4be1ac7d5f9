//! The world on one thread that tells which units wait.

ghost use Rattle.std.specs.Prelude.{◌≡◌, ◌≢◌, ◌+◌, ◌%◌, ◌^◌, ◌<◌, ◌≤◌, ◌∷◌, ◌++◌, [], drop, ℕ, List, Option, None, Some, false, length, reverse, true, vec_capacity, IfOk, IfErr, IfSome, IfNone, OnOk, OnErr};
ghost use Rattle.std.specs.List.{All};
ghost use Rattle.std.specs.Option.{option_map_or};
ghost use Rattle.bm_page.specs.Stock.{fetched as stock_fetched};
ghost use Rattle.bm_page.specs.declared.units.Seal.{Seal};
ghost use Rattle.bm_grace.specs.Answers.{Answers, BeganAt, CanFinish, Stamped, Verdict, ended, next, number_in};
ghost use Rattle.bm_grace.specs.Calls.{began, entered, finished, found_at, left, looked, looks, read};
ghost use Rattle.bm_grace.specs.Rights.{Ages, AsBefore, MineSince, Ripens};
ghost use Rattle.bm_grace.specs.Rest.{MovesNumber, StaysAtRest};
ghost use Rattle.bm_grace.specs.declared.answer.Began.TheVariants.{Won};
ghost use Rattle.bm_grace.specs.declared.answer.Look.TheVariants.{All as AllPass};
ghost use Rattle.bm_grace.specs.Known.{side};
ghost use Rattle.bm_grace.specs.PlainState.{domain_in, is_processor, period_begun, period_ended, period_looked, with_domain, word_moved, words_in};
ghost use Rattle.bm_post.specs.PostState.{all_returned, inbox, is_mine, sent_to, taken_by, told_in};
ghost use Rattle.bm_post.specs.HasRoom.{has_room};
ghost use Rattle.bm_post.specs.Calls.{Fetches, GivesBack, IsOf, Mails, Posts, Receives};
ghost use Rattle.bm_post.specs.Parcels.{oldest, parcel_sent, parcel_taken};
ghost use Rattle.bm_post.specs.Rights.{AreSame, Holds, Lasting, MayLeave, numbers};
ghost use Rattle.bm_world.specs.SideState.{known_of};
ghost use Rattle.bm_world.specs.WaitingState.{WaitingAtRest, cleared, idle-now, no_waits, rights_now, room-now, wait_of, with_wait};
ghost use Rattle.bm_world.specs.declared.wait.Wait.{Wait};

use crate::OneSide;
use crate::wait::Wait;
use bm_class::Class;
use bm_grace::{Began, Done, Grace, Knows, Look};
use bm_journal::{Domain, Period};
use bm_page::Unit;
use bm_post::{Post, World};
use bm_word::NoMemory;
use std::alloc::Global;
use std::marker::Model;

/// The world on one thread that tells which units wait. Beside the side it keeps for each number of a unit since when that
/// unit waits, if it does. This project's own.
///
/// A unit that waits isn't settled, whatever its seal. It is ripe once its seal shows a stamp that was taken since it began to
/// wait, and a number that the plain domain had and that is at least the stamp. It waits no more once it was sent or put back.
pub struct WaitingSide {
    /// The pool, all inboxes, and the words and numbers of both domains.
    side: OneSide,
    /// By number, since when a unit waits.
    waits: Vec<Option<Wait>>,
}

impl Model for WaitingSide {
    ghost use Rattle.bm_world.specs.WaitingState.{AreKept, WaitingState};

    ghost Value = { WaitingState };

    ghost view = { λ world. record { side = world.side; waits = world.waits.items } };

    ghost invariant = { λ world. AreKept world.side.post world.side.grace.plain.number
        world.side.grace.tracing.number world.waits.items };
}

/// How many numbers units have.
const NUMBERS: usize = 65536;

/// Nothing waits, at first.
fn fill(waits: &mut Vec<Option<Wait>>)
    requires none { waits.old.items ≡ [] }
    requires room { 65536 ≤ vec_capacity waits.old }
    ensures { waits.new.items ≡ no_waits }
{
    for _number in 0..NUMBERS {
        if let Err(_) = waits.push(None) {
            unreachable!()
        }
    }
}

/// Units wait no more.
fn clear(waits: &mut Vec<Option<Wait>>, units: &Vec<Unit>)
    requires size { length waits.old.items ≡ 65536 }
    ensures { waits.new.items ≡ cleared (numbers units.now.items) waits.old.items }
{
    let mut place = 0;
    while place < units.len() {
        waits[units[place].number() as usize] = None;
        place += 1;
    }
}

impl WaitingSide {
    /// A side of which no unit waits. Want of memory is the only refusal, and hands the side back.
    pub fn create(alloc: Global, side: OneSide) -> Result<WaitingSide, OneSide>
        ensures ok { IfOk result (λ world. world ≡ record { side = side; waits = no_waits }) }
        ensures err { IfErr result (λ back. back ≡ side) }
    {
        match Vec::with_capacity(alloc, NUMBERS) {
            Ok(mut waits) => {
                fill(&mut waits);
                Ok(WaitingSide { side, waits })
            }
            Err(_) => Err(side),
        }
    }

    /// Gives the side back; what waits is forgotten.
    pub fn into_side(self) -> OneSide
        ensures { result ≡ self.side }
    {
        let WaitingSide { side, waits: _ } = self;
        side
    }

    /// Makes it the side of a processor.
    pub fn turn(&mut self, processor: u8)
        requires { processor < self.old.side.post.processors }
        ensures { self.new ≡ record self.old {
          side = record {
            post = record self.old.side.post { processor = processor };
            grace = record self.old.side.grace { processor = processor };
          };
        } }
    {
        self.side.turn(processor);
    }

    /// A unit of mine, by its number, begins to wait for a grace period that begins from now on: so a free with delay leaves
    /// it. It may not be used again until it was sent or put back, and it is due.
    pub fn wait_for(&mut self, number: u16)
        requires mine { is_mine self.old.side.post number ≡ true }
        ensures state { self.new ≡ with_wait number self.old }
        ensures waits { (life : ℕ) (seal : Option Seal)
            → (rights_now self.new).settled number life seal ≡ false }
        ensures due { (life : ℕ) (seal : Option Seal)
            → (rights_now self.new).due number life seal ≡ has_room number life }
        ensures others { (n : ℕ) → n ≢ number
            → wait_of self.new.waits n ≡ wait_of self.old.waits n }
    {
        let plain = self.side.stamp(Domain::Plain);
        let tracing = self.side.stamp(Domain::Tracing);
        self.waits[number as usize] = Some(Wait { plain, tracing });
    }
}

impl Knows for WaitingSide {
    ghost known = { λ world. known_of world.side };

    ghost tells = { false };

    ghost rights = { rights_now };

    ghost rest = { WaitingAtRest };

    ghost does = { λ _ _ _. Unit {0} };

    ghost does_same = { λ a. tt };

    ghost does_join = { λ es fs a b c x y. tt };
}

impl Grace for WaitingSide {
    fn enter(&mut self, domain: Domain) -> u32
        requires outside { (side domain (known_of self.old.side)).word % 2 ≡ 0 }
        requires room { (side domain (known_of self.old.side)).word < 2 ^ 28 }
        ensures post { self.new.side.post ≡ self.old.side.post }
        ensures waits { self.new.waits ≡ self.old.waits }
        ensures grace { self.new.side.grace
            ≡ with_domain domain
            (word_moved self.old.side.grace.processor
            (domain_in domain self.old.side.grace))
            self.old.side.grace }
        ensures word { result ≡ (side domain (known_of self.old.side)).word + 1 }
        ensures known { known_of self.new.side ≡ entered false domain (known_of self.old.side) }
        ensures rights { Ages (rights_now self.old) (rights_now self.new) }
        ensures same { AsBefore (rights_now self.old) (rights_now self.new) }
    {
        self.side.enter(domain)
    }

    fn leave(&mut self, domain: Domain) -> u32
        requires inside { (side domain (known_of self.old.side)).word % 2 ≡ 1 }
        ensures post { self.new.side.post ≡ self.old.side.post }
        ensures waits { self.new.waits ≡ self.old.waits }
        ensures grace { self.new.side.grace
            ≡ with_domain domain
            (word_moved self.old.side.grace.processor
            (domain_in domain self.old.side.grace))
            self.old.side.grace }
        ensures word { result ≡ (side domain (known_of self.old.side)).word + 1 }
        ensures known { known_of self.new.side ≡ left false domain (known_of self.old.side) }
        ensures rights { Ages (rights_now self.old) (rights_now self.new) }
        ensures same { AsBefore (rights_now self.old) (rights_now self.new) }
    {
        self.side.leave(domain)
    }

    fn stamp(&mut self, domain: Domain) -> u32
        ensures stamp { result ≡ next (domain_in domain self.old.side.grace).number }
        ensures state { self.new ≡ self.old }
        ensures known { Stamped false domain result (known_of self.old.side)
            (known_of self.new.side) }
        ensures rights { Ages (rights_now self.old) (rights_now self.new) }
        ensures since { MineSince domain result (rights_now self.old) (rights_now self.new) }
        ensures rest { StaysAtRest WaitingAtRest self.old self.new }
        ensures at_rest { (n : ℕ) → WaitingAtRest self.old domain n → result ≡ next n }
    {
        self.side.stamp(domain)
    }

    fn done(&mut self, domain: Domain, stamp: u32) -> Done
        ensures number { number_in result ≡ (domain_in domain self.old.side.grace).number }
        ensures state { self.new ≡ self.old }
        ensures answer { Answers result stamp }
        ensures seen { (side domain (known_of self.old.side)).seen ≤ number_in result }
        ensures known { known_of self.new.side
            ≡ read false domain (number_in result) (known_of self.old.side) }
        ensures rights { Ages (rights_now self.old) (rights_now self.new) }
        ensures ripe { Ripens domain stamp result (rights_now self.old) (rights_now self.new) }
        ensures rest { StaysAtRest WaitingAtRest self.old self.new }
        ensures at_rest { (n : ℕ) → WaitingAtRest self.old domain n → number_in result ≡ n }
    {
        self.side.done(domain, stamp)
    }

    fn begin(&mut self, domain: Domain, even: u32) -> Began
        requires even { even % 2 ≡ 0 }
        requires idle { (side domain (known_of self.old.side)).number ≡ 0 }
        requires room { 0 < (side domain (known_of self.old.side)).begins }
        ensures found { found_at even result ≡ (domain_in domain self.old.side.grace).number }
        ensures post { self.new.side.post ≡ self.old.side.post }
        ensures waits { self.new.waits ≡ self.old.waits }
        ensures grace { self.new.side.grace
            ≡ with_domain domain
            (period_begun self.old.side.grace.processor result
            (domain_in domain self.old.side.grace))
            self.old.side.grace }
        ensures answer { BeganAt result even }
        ensures seen { (side domain (known_of self.old.side)).seen ≤ found_at even result }
        ensures known { known_of self.new.side
            ≡ began false domain result even (known_of self.old.side) }
        ensures rights { Ages (rights_now self.old) (rights_now self.new) }
        ensures rest { MovesNumber WaitingAtRest domain even (even + 1) self.old self.new }
        ensures at_rest { WaitingAtRest self.old domain even → result ≡ Won }
    {
        self.side.begin(domain, even)
    }

    fn look(&mut self, domain: Domain) -> Look
        requires driving { (side domain (known_of self.old.side)).number % 2 ≡ 1 }
        ensures post { self.new.side.post ≡ self.old.side.post }
        ensures waits { self.new.waits ≡ self.old.waits }
        ensures grace { self.new.side.grace
            ≡ with_domain domain
            (period_looked (words_in domain self.old.side.grace)
            (domain_in domain self.old.side.grace))
            self.old.side.grace }
        ensures first { length (side domain (known_of self.new.side)).first
            ≡ looks domain self.old.side.grace.processors }
        ensures later { length (side domain (known_of self.new.side)).later
            ≡ looks domain self.old.side.grace.processors }
        ensures answer { let s = side domain (known_of self.new.side) in
            Verdict result domain s.first s.later }
        ensures known { known_of self.new.side
            ≡ looked false domain (side domain (known_of self.new.side)).later
            (known_of self.old.side) }
        ensures rights { Ages (rights_now self.old) (rights_now self.new) }
        ensures rest { StaysAtRest WaitingAtRest self.old self.new }
        ensures at_rest { (n : ℕ) → WaitingAtRest self.old domain n → result ≡ AllPass }
    {
        self.side.look(domain)
    }

    fn finish(&mut self, domain: Domain) -> Period
        requires { CanFinish domain (known_of self.old.side) }
        ensures post { self.new.side.post ≡ self.old.side.post }
        ensures waits { self.new.waits ≡ self.old.waits }
        ensures grace { self.new.side.grace
            ≡ with_domain domain (period_ended (domain_in domain self.old.side.grace))
            self.old.side.grace }
        ensures period { result ≡ ended domain (side domain (known_of self.old.side)) }
        ensures known { known_of self.new.side ≡ finished false domain (known_of self.old.side) }
        ensures rights { Ages (rights_now self.old) (rights_now self.new) }
        ensures rest { (n : ℕ) → MovesNumber WaitingAtRest domain n (n + 1) self.old self.new }
    {
        self.side.finish(domain)
    }

    fn driving(&self, domain: Domain) -> bool
        ensures is { result
            ≡ is_processor self.now.side.grace.processor
            (domain_in domain self.now.side.grace).driver }
        ensures none { result ≡ false → (side domain (known_of self.now.side)).number ≡ 0 }
        ensures odd { result ≡ true → (side domain (known_of self.now.side)).number % 2 ≡ 1 }
    {
        self.side.driving(domain)
    }

    ghost idle_at_rest = { idle-now };
}

impl Post for WaitingSide {
    ghost calls = { λ _. None };

    fn fetch(&mut self, class: Class, want: usize, out: &mut Vec<Unit>) -> Result<usize, NoMemory>
        ensures count { IfOk result
            (λ n. n ≡ length (stock_fetched class want self.old.side.post.pool).units) }
        ensures units { OnOk result
            (out.new.items
            ≡ out.old.items ++ (stock_fetched class want self.old.side.post.pool).units) }
        ensures state { OnOk result
            (self.new.side.post
            ≡ record self.old.side.post
            { pool = (stock_fetched class want self.old.side.post.pool).pool }) }
        ensures err_state { OnErr result (self.new.side.post ≡ self.old.side.post) }
        ensures grace { self.new.side.grace ≡ self.old.side.grace }
        ensures waits { self.new.waits ≡ self.old.waits }
        ensures ok { IfOk result
            (λ n. Fetches class want n out.old.items out.new.items (rights_now self.old)
            (rights_now self.new)) }
        ensures err { OnErr result (out.new.items ≡ out.old.items) }
        ensures same { OnErr result (AreSame (rights_now self.old) (rights_now self.new)) }
        ensures lasts { Lasting [] (rights_now self.old) (rights_now self.new) }
        ensures known { Posts false (known_of self.old.side) (known_of self.new.side) }
        ensures rest { StaysAtRest WaitingAtRest self.old self.new }
    {
        self.side.fetch(class, want, out)
    }

    fn put_back(&mut self, units: Vec<Unit>)
        requires mine { Holds (rights_now self.old) units.items }
        requires fit { All (MayLeave (rights_now self.old)) units.items }
        ensures state { self.new.side.post
            ≡ record self.old.side.post
            { pool = all_returned (reverse units.items) self.old.side.post.pool } }
        ensures grace { self.new.side.grace ≡ self.old.side.grace }
        ensures waits { self.new.waits ≡ cleared (numbers units.items) self.old.waits }
        ensures back { GivesBack (numbers units.items) (rights_now self.old) (rights_now self.new) }
        ensures lasts { Lasting (numbers units.items) (rights_now self.old) (rights_now self.new) }
        ensures known { Posts false (known_of self.old.side) (known_of self.new.side) }
        ensures rest { StaysAtRest WaitingAtRest self.old self.new }
    {
        clear(&mut self.waits, &units);
        self.side.put_back(units);
    }

    fn send(&mut self, to: u8, class: Class, units: Vec<Unit>) -> Result<(), Vec<Unit>>
        requires to { to < self.old.side.grace.processors }
        requires some { 0 < length units.items }
        requires class { All (IsOf class) units.items }
        requires mine { Holds (rights_now self.old) units.items }
        requires fit { All (MayLeave (rights_now self.old)) units.items }
        ensures state { OnOk result
            (self.new.side.post ≡ sent_to to class units.items self.old.side.post) }
        ensures err_state { OnErr result (self.new.side.post ≡ self.old.side.post) }
        ensures grace { self.new.side.grace ≡ self.old.side.grace }
        ensures waits { self.new.waits ≡ cleared (numbers units.items) self.old.waits }
        ensures sent { OnOk result
            (GivesBack (numbers units.items) (rights_now self.old) (rights_now self.new)) }
        ensures refused { IfErr result (λ back. back.items ≡ units.items) }
        ensures same { OnErr result (AreSame (rights_now self.old) (rights_now self.new)) }
        ensures lasts { Lasting (numbers units.items) (rights_now self.old) (rights_now self.new) }
        ensures may { OnErr result (All (MayLeave (rights_now self.new)) units.items) }
        ensures mails { OnOk result
            (Mails false (parcel_sent to self.old.side.grace.processor class (numbers units.items))
            (known_of self.old.side) (known_of self.new.side)) }
        ensures known { OnErr result
            (Posts false (known_of self.old.side) (known_of self.new.side)) }
        ensures rest { StaysAtRest WaitingAtRest self.old self.new }
    {
        clear(&mut self.waits, &units);
        self.side.send(to, class, units)
    }

    fn receive(&mut self, class: Class) -> Option<Vec<Unit>>
        ensures oldest { IfSome result (λ units.
            inbox self.old.side.post.processor class self.old.side.post
            ≡ units.items ∷ inbox self.old.side.post.processor class self.new.side.post) }
        ensures none_waits { IfNone result
            (inbox self.old.side.post.processor class self.old.side.post ≡ []) }
        ensures state { IfSome result
            (λ _. self.new.side.post
            ≡ taken_by self.old.side.post.processor class self.old.side.post) }
        ensures none_state { IfNone result (self.new.side.post ≡ self.old.side.post) }
        ensures grace { self.new.side.grace ≡ self.old.side.grace }
        ensures waits { self.new.waits ≡ self.old.waits }
        ensures some { IfSome result
            (λ units. Receives class units.items (rights_now self.old) (rights_now self.new)) }
        ensures none { IfNone result (AreSame (rights_now self.old) (rights_now self.new)) }
        ensures lasts { Lasting [] (rights_now self.old) (rights_now self.new) }
        ensures mails { Mails false (parcel_taken class) (known_of self.old.side)
            (known_of self.new.side) }
        ensures oldest_told { oldest (told_in self.old.side.post class)
            ≡ option_map_or (λ units. numbers units.items) result [] }
        ensures none_told { IfNone result (told_in self.old.side.post class ≡ []) }
        ensures rest { StaysAtRest WaitingAtRest self.old self.new }
    {
        self.side.receive(class)
    }

    ghost room = { room-now };
}

impl World for WaitingSide {}
