//! The world on one thread.

ghost use Rattle.std.specs.Prelude.{◌≡◌, ℕ, ◌+◌, ◌%◌, ◌^◌, ◌<◌, ◌≤◌, ◌∷◌, ◌++◌, [], drop, None, false, length, reverse, true, IfOk, IfErr, IfSome, IfNone, OnOk, OnErr};
ghost use Rattle.std.specs.List.{All};
ghost use Rattle.std.specs.Option.{option_map_or};
ghost use Rattle.bm_page.specs.Out.{IsFromStock};
ghost use Rattle.bm_page.specs.Stock.{fetched as stock_fetched};
ghost use Rattle.bm_grace.specs.Answers.{Answers, BeganAt, CanFinish, Stamped, Verdict, ended, next, number_in};
ghost use Rattle.bm_grace.specs.Calls.{began, entered, finished, found_at, left, looked, looks, read};
ghost use Rattle.bm_grace.specs.Rights.{Ages, AsBefore, MineSince, Ripens};
ghost use Rattle.bm_grace.specs.Rest.{MovesNumber, StaysAtRest};
ghost use Rattle.bm_grace.specs.declared.answer.Began.TheVariants.{Won};
ghost use Rattle.bm_grace.specs.declared.answer.Look.TheVariants.{All as AllPass};
ghost use Rattle.bm_grace.specs.AtRest.{AreEven, IsDriven, IsSole};
ghost use Rattle.bm_grace.specs.Known.{side};
ghost use Rattle.bm_journal.specs.declared.ids.Domain.{Domain as DomainValue};
ghost use Rattle.bm_grace.specs.PlainState.{domain_in, is_processor, period_begun, period_ended, period_looked, side_in, with_domain, word_moved, words_in};
ghost use Rattle.bm_post.specs.PostState.{all_returned, inbox, rights_in, sent_to, taken_by, told_in};
ghost use Rattle.bm_post.specs.HasRoom.{room-of};
ghost use Rattle.bm_post.specs.Calls.{Fetches, GivesBack, IsOf, Mails, Posts, Receives};
ghost use Rattle.bm_post.specs.Parcels.{oldest, parcel_sent, parcel_taken};
ghost use Rattle.bm_world.specs.SideState.{SideAtRest, idle-of, known_of};
ghost use Rattle.bm_world.specs.Told.{SideDoes, does-join, does-same};
ghost use Rattle.bm_law_order.specs.Act as act;
ghost use Rattle.bm_law_order.specs.Act.{sealed};
ghost use Rattle.bm_grace.specs.Begins.{begin_act};
ghost use Rattle.bm_page.specs.declared.units.Seal.{Seal as SealValue};
ghost use Rattle.bm_post.specs.Rights.{AreSame, Holds, IsSettled, Lasting, MayLeave, WaitedBy, numbers};

use bm_class::Class;
use bm_grace::{Began, Done, Grace, Knows, Look, PlainGrace};
use bm_journal::{Domain, Period};
use bm_page::Unit;
use bm_post::{PlainPost, Post, World};
use bm_word::NoMemory;
use std::marker::Model;

/// All that processors share, on one thread: the post and the grace periods of all of them. It is one processor's side at
/// a time, which `turn` chooses. This project's own.
pub struct OneSide {
    /// The pool and all inboxes.
    post: PlainPost,
    /// The words and numbers of both domains.
    grace: PlainGrace,
}

impl Model for OneSide {
    ghost use Rattle.bm_world.specs.SideState.{AreOne, SideState};

    ghost Value = { SideState };

    ghost view = { λ world. record { post = world.post; grace = world.grace } };

    ghost invariant = { λ world. AreOne world.post world.grace };
}

impl OneSide {
    /// Joins the two parts, which have as many processors, and are the side of the same one.
    pub fn new(post: PlainPost, grace: PlainGrace) -> OneSide
        requires processors { post.processors ≡ grace.processors }
        requires processor { post.processor ≡ grace.processor }
        ensures { result ≡ record { post = post; grace = grace } }
    {
        OneSide { post, grace }
    }

    /// Gives the two parts back.
    pub fn into_parts(self) -> (PlainPost, PlainGrace)
        ensures { result ≡ (self.post, self.grace) }
    {
        let OneSide { post, grace } = self;
        (post, grace)
    }

    /// Both parts have as many processors.
    pub fn processors_agree(&self)
        ensures { self.now.post.processors ≡ self.now.grace.processors }
    {
        let _ = &self.post;
    }

    /// Where no processor is in a section, all is at rest, whoever's side it is. Where the number of a domain is odd, one of the
    /// processors has a period in progress; where it is even, none has. So once each has ended its own, the number is even.
    pub fn all_at_rest(&self)
        requires outside { (d : DomainValue) → let g = self.now.grace in
            AreEven g.processors (domain_in d g).words }
        ensures rest { (d : DomainValue) →
            SideAtRest self.now d (domain_in d self.now.grace).number }
        ensures driven { (d : DomainValue) → let g = self.now.grace in
            IsDriven g.processors (domain_in d g) }
        ensures ended { (d : DomainValue) → let g = self.now.grace in
            ((p : ℕ) → p < g.processors → (side_in p (domain_in d g)).number ≡ 0) →
            (domain_in d g).number % 2 ≡ 0 }
    {
        self.grace.all_at_rest();
    }

    /// Where there is one processor, and it is in no section, all is at rest; and if a period is in progress, it is this side's.
    pub fn one_at_rest(&self)
        requires one { self.now.grace.processors ≡ 1 }
        requires outside { (d : DomainValue) → (side d (known_of self.now)).word % 2 ≡ 0 }
        ensures rest { (d : DomainValue)
            → SideAtRest self.now d (domain_in d self.now.grace).number }
        ensures sole { (d : DomainValue)
            → IsSole (side d (known_of self.now)).number (domain_in d self.now.grace).number }
    {
        self.grace.one_at_rest();
    }

    /// Makes it the side of a processor.
    pub fn turn(&mut self, processor: u8)
        requires { processor < self.old.post.processors }
        ensures { self.new ≡ record {
          post = record self.old.post { processor = processor };
          grace = record self.old.grace { processor = processor };
        } }
    {
        self.post.turn(processor);
        self.grace.turn(processor);
    }
}

impl Knows for OneSide {
    ghost known = { known_of };

    ghost tells = { false };

    ghost rights = { λ world. rights_in world.post };

    ghost rest = { SideAtRest };

    ghost does = { SideDoes };

    ghost does_same = { does-same };

    ghost does_join = { does-join };
}

impl Grace for OneSide {
    fn enter(&mut self, domain: Domain) -> u32
        requires outside { (side domain (known_of self.old)).word % 2 ≡ 0 }
        requires room { (side domain (known_of self.old)).word < 2 ^ 28 }
        ensures post { self.new.post ≡ self.old.post }
        ensures grace { self.new.grace
            ≡ with_domain domain
            (word_moved self.old.grace.processor (domain_in domain self.old.grace))
            self.old.grace }
        ensures word { result ≡ (side domain (known_of self.old)).word + 1 }
        ensures known { known_of self.new ≡ entered false domain (known_of self.old) }
        ensures rights { Ages (rights_in self.old.post) (rights_in self.new.post) }
        ensures same { AsBefore (rights_in self.old.post) (rights_in self.new.post) }
        ensures does { SideDoes (act.Enters domain result ∷ []) self.old self.new }
    {
        self.grace.enter(domain)
    }

    fn leave(&mut self, domain: Domain) -> u32
        requires inside { (side domain (known_of self.old)).word % 2 ≡ 1 }
        ensures post { self.new.post ≡ self.old.post }
        ensures grace { self.new.grace
            ≡ with_domain domain
            (word_moved self.old.grace.processor (domain_in domain self.old.grace))
            self.old.grace }
        ensures word { result ≡ (side domain (known_of self.old)).word + 1 }
        ensures known { known_of self.new ≡ left false domain (known_of self.old) }
        ensures rights { Ages (rights_in self.old.post) (rights_in self.new.post) }
        ensures same { AsBefore (rights_in self.old.post) (rights_in self.new.post) }
        ensures does { SideDoes (act.Leaves domain result ∷ []) self.old self.new }
    {
        self.grace.leave(domain)
    }

    fn stamp(&mut self, domain: Domain) -> u32
        ensures stamp { result ≡ next (domain_in domain self.old.grace).number }
        ensures state { self.new ≡ self.old }
        ensures known { Stamped false domain result (known_of self.old) (known_of self.new) }
        ensures rights { Ages (rights_in self.old.post) (rights_in self.new.post) }
        ensures since { MineSince domain result (rights_in self.old.post)
            (rights_in self.new.post) }
        ensures rest { StaysAtRest SideAtRest self.old self.new }
        ensures at_rest { (n : ℕ) → SideAtRest self.old domain n → result ≡ next n }
        ensures does { SideDoes (act.Stamps domain result ∷ []) self.old self.new }
    {
        self.grace.stamp(domain)
    }

    fn done(&mut self, domain: Domain, stamp: u32) -> Done
        ensures number { number_in result ≡ (domain_in domain self.old.grace).number }
        ensures state { self.new ≡ self.old }
        ensures answer { Answers result stamp }
        ensures seen { (side domain (known_of self.old)).seen ≤ number_in result }
        ensures known { known_of self.new
            ≡ read false domain (number_in result) (known_of self.old) }
        ensures rights { Ages (rights_in self.old.post) (rights_in self.new.post) }
        ensures ripe { Ripens domain stamp result (rights_in self.old.post)
            (rights_in self.new.post) }
        ensures rest { StaysAtRest SideAtRest self.old self.new }
        ensures at_rest { (n : ℕ) → SideAtRest self.old domain n → number_in result ≡ n }
        ensures does { SideDoes (act.Reads domain stamp (number_in result) ∷ []) self.old self.new }
    {
        self.grace.done(domain, stamp)
    }

    fn begin(&mut self, domain: Domain, even: u32) -> Began
        requires even { even % 2 ≡ 0 }
        requires idle { (side domain (known_of self.old)).number ≡ 0 }
        requires room { 0 < (side domain (known_of self.old)).begins }
        ensures found { found_at even result ≡ (domain_in domain self.old.grace).number }
        ensures post { self.new.post ≡ self.old.post }
        ensures grace { self.new.grace
            ≡ with_domain domain
            (period_begun self.old.grace.processor result (domain_in domain self.old.grace))
            self.old.grace }
        ensures answer { BeganAt result even }
        ensures seen { (side domain (known_of self.old)).seen ≤ found_at even result }
        ensures known { known_of self.new ≡ began false domain result even (known_of self.old) }
        ensures rights { Ages (rights_in self.old.post) (rights_in self.new.post) }
        ensures rest { MovesNumber SideAtRest domain even (even + 1) self.old self.new }
        ensures at_rest { SideAtRest self.old domain even → result ≡ Won }
        ensures does { SideDoes (begin_act domain even result ∷ []) self.old self.new }
    {
        self.grace.begin(domain, even)
    }

    fn look(&mut self, domain: Domain) -> Look
        requires driving { (side domain (known_of self.old)).number % 2 ≡ 1 }
        ensures post { self.new.post ≡ self.old.post }
        ensures grace { self.new.grace
            ≡ with_domain domain
            (period_looked (words_in domain self.old.grace)
            (domain_in domain self.old.grace))
            self.old.grace }
        ensures first { length (side domain (known_of self.new)).first
            ≡ looks domain self.old.grace.processors }
        ensures later { length (side domain (known_of self.new)).later
            ≡ looks domain self.old.grace.processors }
        ensures answer { let s = side domain (known_of self.new) in
            Verdict result domain s.first s.later }
        ensures known { known_of self.new
            ≡ looked false domain (side domain (known_of self.new)).later (known_of self.old) }
        ensures rights { Ages (rights_in self.old.post) (rights_in self.new.post) }
        ensures rest { StaysAtRest SideAtRest self.old self.new }
        ensures at_rest { (n : ℕ) → SideAtRest self.old domain n → result ≡ AllPass }
        ensures does { SideDoes (act.Looks domain (side domain (known_of self.new)).later ∷ [])
            self.old self.new }
    {
        self.grace.look(domain)
    }

    fn finish(&mut self, domain: Domain) -> Period
        requires { CanFinish domain (known_of self.old) }
        ensures post { self.new.post ≡ self.old.post }
        ensures grace { self.new.grace
            ≡ with_domain domain (period_ended (domain_in domain self.old.grace)) self.old.grace }
        ensures period { result ≡ ended domain (side domain (known_of self.old)) }
        ensures known { known_of self.new ≡ finished false domain (known_of self.old) }
        ensures rights { Ages (rights_in self.old.post) (rights_in self.new.post) }
        ensures rest { (n : ℕ) → MovesNumber SideAtRest domain n (n + 1) self.old self.new }
        ensures does { SideDoes (act.Finishes result ∷ []) self.old self.new }
    {
        self.grace.finish(domain)
    }

    fn driving(&self, domain: Domain) -> bool
        ensures is { result
            ≡ is_processor self.now.grace.processor (domain_in domain self.now.grace).driver }
        ensures none { result ≡ false → (side domain (known_of self.now)).number ≡ 0 }
        ensures odd { result ≡ true → (side domain (known_of self.now)).number % 2 ≡ 1 }
    {
        self.grace.driving(domain)
    }

    ghost idle_at_rest = { idle-of };
}

impl Post for OneSide {
    ghost calls = { λ _. None };

    fn fetch(&mut self, class: Class, want: usize, out: &mut Vec<Unit>) -> Result<usize, NoMemory>
        ensures count { IfOk result
            (λ n. n ≡ length (stock_fetched class want self.old.post.pool).units) }
        ensures units { OnOk result
            (out.new.items ≡ out.old.items ++ (stock_fetched class want self.old.post.pool).units) }
        ensures state { OnOk result
            (self.new.post
            ≡ record self.old.post
            { pool = (stock_fetched class want self.old.post.pool).pool }) }
        ensures each { OnOk result
            (All (IsFromStock class self.old.post.pool)
            (stock_fetched class want self.old.post.pool).units) }
        ensures err_state { OnErr result (self.new.post ≡ self.old.post) }
        ensures grace { self.new.grace ≡ self.old.grace }
        ensures ok { IfOk result
            (λ n. Fetches class want n out.old.items out.new.items (rights_in self.old.post)
            (rights_in self.new.post)) }
        ensures err { OnErr result (out.new.items ≡ out.old.items) }
        ensures same { OnErr result (AreSame (rights_in self.old.post) (rights_in self.new.post)) }
        ensures lasts { Lasting [] (rights_in self.old.post) (rights_in self.new.post) }
        ensures known { Posts false (known_of self.old) (known_of self.new) }
        ensures rest { StaysAtRest SideAtRest self.old self.new }
        ensures does { OnOk result
            (SideDoes
            (act.Fetches class want (numbers (drop (length out.old.items) out.new.items)) ∷ [])
            self.old self.new) }
        ensures idle { OnErr result (SideDoes [] self.old self.new) }
    {
        self.post.fetch(class, want, out)
    }

    fn put_back(&mut self, units: Vec<Unit>)
        requires mine { Holds (rights_in self.old.post) units.items }
        requires fit { All (MayLeave (rights_in self.old.post)) units.items }
        ensures state { self.new.post
            ≡ record self.old.post
            { pool = all_returned (reverse units.items) self.old.post.pool } }
        ensures grace { self.new.grace ≡ self.old.grace }
        ensures back { GivesBack (numbers units.items) (rights_in self.old.post)
            (rights_in self.new.post) }
        ensures lasts { Lasting (numbers units.items) (rights_in self.old.post)
            (rights_in self.new.post) }
        ensures known { Posts false (known_of self.old) (known_of self.new) }
        ensures rest { StaysAtRest SideAtRest self.old self.new }
        ensures does { SideDoes (act.Returns (sealed units.items) ∷ []) self.old self.new }
        ensures gives { All (IsSettled (rights_in self.old.post)) units.items
            → SideDoes (act.GivesBack (numbers units.items) ∷ []) self.old self.new }
    {
        self.post.put_back(units);
    }

    fn send(&mut self, to: u8, class: Class, units: Vec<Unit>) -> Result<(), Vec<Unit>>
        requires to { to < self.old.grace.processors }
        requires some { 0 < length units.items }
        requires class { All (IsOf class) units.items }
        requires mine { Holds (rights_in self.old.post) units.items }
        requires fit { All (MayLeave (rights_in self.old.post)) units.items }
        ensures state { OnOk result (self.new.post ≡ sent_to to class units.items self.old.post) }
        ensures err_state { OnErr result (self.new.post ≡ self.old.post) }
        ensures grace { self.new.grace ≡ self.old.grace }
        ensures sent { OnOk result
            (GivesBack (numbers units.items) (rights_in self.old.post) (rights_in self.new.post)) }
        ensures refused { IfErr result (λ back. back.items ≡ units.items) }
        ensures same { OnErr result (AreSame (rights_in self.old.post) (rights_in self.new.post)) }
        ensures lasts { Lasting (numbers units.items) (rights_in self.old.post)
            (rights_in self.new.post) }
        ensures may { OnErr result (All (MayLeave (rights_in self.new.post)) units.items) }
        ensures mails { OnOk result
            (Mails false (parcel_sent to self.old.grace.processor class (numbers units.items))
            (known_of self.old) (known_of self.new)) }
        ensures known { OnErr result (Posts false (known_of self.old) (known_of self.new)) }
        ensures rest { StaysAtRest SideAtRest self.old self.new }
        ensures does { OnOk result
            (SideDoes (act.Sends class to (sealed units.items) ∷ []) self.old self.new) }
        ensures drains { OnOk result (All (IsSettled (rights_in self.old.post)) units.items
            → SideDoes (act.Drains class to (numbers units.items) ∷ []) self.old self.new) }
        ensures releases { OnOk result ((seal : SealValue)
            → All (WaitedBy (rights_in self.old.post) seal) units.items
            → SideDoes (act.Releases class to (numbers units.items) seal.stamp seal.seen ∷ [])
            self.old self.new) }
        ensures idle { OnErr result (SideDoes [] self.old self.new) }
    {
        let _ = class.index();
        self.post.send(to, class, units)
    }

    fn receive(&mut self, class: Class) -> Option<Vec<Unit>>
        ensures oldest { IfSome result (λ units.
            inbox self.old.post.processor class self.old.post
            ≡ units.items ∷ inbox self.old.post.processor class self.new.post) }
        ensures none_waits { IfNone result
            (inbox self.old.post.processor class self.old.post ≡ []) }
        ensures state { IfSome result
            (λ _. self.new.post ≡ taken_by self.old.post.processor class self.old.post) }
        ensures none_state { IfNone result (self.new.post ≡ self.old.post) }
        ensures grace { self.new.grace ≡ self.old.grace }
        ensures some { IfSome result
            (λ units. Receives class units.items (rights_in self.old.post)
            (rights_in self.new.post)) }
        ensures none { IfNone result (AreSame (rights_in self.old.post) (rights_in self.new.post)) }
        ensures lasts { Lasting [] (rights_in self.old.post) (rights_in self.new.post) }
        ensures mails { Mails false (parcel_taken class) (known_of self.old) (known_of self.new) }
        ensures oldest_told { oldest (told_in self.old.post class)
            ≡ option_map_or (λ units. numbers units.items) result [] }
        ensures none_told { IfNone result (told_in self.old.post class ≡ []) }
        ensures rest { StaysAtRest SideAtRest self.old self.new }
        ensures does { SideDoes
            (act.Receives class (option_map_or (λ units. numbers units.items) result []) ∷ [])
            self.old self.new }
    {
        self.post.receive(class)
    }

    ghost room = { λ world. room-of };
}

impl World for OneSide {}
