//! The world on one thread with the units that live in it.

ghost use Rattle.std.specs.Prelude.{◌≡◌, ◌≢◌, ◌+◌, ◌%◌, ◌^◌, ◌<◌, ◌≤◌, ◌∷◌, ◌++◌, [], drop, ℕ, eqb, if◌then◌else◌, List, Option, None, Some, false, length, is_some, reverse, slice_get, true, IfOk, IfErr, IfSome, IfNone, OnOk, OnErr, map};
ghost use Rattle.std.specs.List.{All};
ghost use Rattle.std.specs.Option.{option_map_or};
ghost use Rattle.bm_page.specs.Stock.{fetched as stock_fetched};
ghost use Rattle.bm_grace.specs.Answers.{Answers, BeganAt, CanFinish, Stamped, Verdict, ended, next, number_in};
ghost use Rattle.bm_grace.specs.Calls.{began, entered, finished, found_at, left, looked, looks, read};
ghost use Rattle.bm_grace.specs.Rights.{Ages, AsBefore, MineSince, Ripens};
ghost use Rattle.bm_grace.specs.Rest.{MovesNumber, StaysAtRest};
ghost use Rattle.bm_grace.specs.declared.answer.Began.TheVariants.{Won};
ghost use Rattle.bm_grace.specs.declared.answer.Look.TheVariants.{All as AllPass};
ghost use Rattle.bm_grace.specs.AtRest.{AreEven, IsDriven, IsSole};
ghost use Rattle.bm_grace.specs.Known.{side};
ghost use Rattle.bm_journal.specs.declared.ids.Domain.{Domain as DomainValue};
ghost use Rattle.bm_grace.specs.PlainState.{domain_in, is_processor, period_begun, period_ended, period_looked, side_in, with_domain, word_moved, words_in};
ghost use Rattle.bm_post.specs.PostState.{all_returned, inbox, sent_to, taken_by, told_in};
ghost use Rattle.bm_post.specs.Calls.{Fetches, GivesBack, IsOf, Mails, Posts, Receives};
ghost use Rattle.bm_post.specs.Parcels.{oldest, parcel_sent, parcel_taken};
ghost use Rattle.bm_post.specs.Rights.{AreSame, Gains, Holds, IsSettled, Lasting, Loses, MayLeave, WaitedBy, numbers};
ghost use Rattle.bm_world.specs.Slots.{AllEmpty, unit_at};
ghost use Rattle.bm_grace.specs.Known.{Living};
ghost use Rattle.bm_world.specs.ToldLiving.{LivingDoes, living-join, living-same};
ghost use Rattle.bm_law_order.specs.Act as act;
ghost use Rattle.bm_law_order.specs.Act.{sealed};
ghost use Rattle.bm_grace.specs.Begins.{begin_act};
ghost use Rattle.bm_world.specs.LivingState.{HaveLived, LivingAtRest, begun_at, idle-living, known_living, lives_of, rights_living, room-living, with_acquired, with_asked, standings_after, with_begun, with_ended, with_exchanged, with_given_up};
ghost use Rattle.bm_world.specs.Contents.{slot_at};
ghost use Rattle.bm_journal.specs.declared.past.PastCall.TheVariants as past;
ghost use Rattle.bm_graph.specs.Calls.{first_call};
ghost use Rattle.bm_graph.specs.Ways.{is_for_tree, pop_call};
ghost use Rattle.bm_graph.specs.declared.ways.Way.TheVariants.{Ordered};
ghost use Rattle.bm_law_order.specs.Graphs.{effect_of, graph_at, moved, standing_from};
ghost use Rattle.bm_world.specs.GraphItems.{history_told};
ghost use Rattle.bm_world.specs.Graphs.{AreBare, end_node, first_node, items_in, key_of, pushed_at, pushed_call, stood};
ghost use Rattle.bm_world.specs.Standings.{left_by, standing_at};
ghost use Rattle.bm_world.specs.declared.standing.Standing.TheVariants.{Nothing as WaitsForNothing};
ghost use Rattle.bm_world.specs.Lives.{HasLife, OthersAsBefore, PutLives, asked_once, count_in, graph_called, life_acquired, life_begun, life_ended, life_given_up, life_of_unit, slot_exchanged, type_in, values_in};
ghost use Rattle.bm_page.specs.declared.units.Seal.{Seal as SealValue};

use crate::begun::Begun;
use crate::contents::{Contents, Displaced};
use crate::graphs::Graphs;
use crate::pushed::Pushed;
use crate::slots::Slots;
use crate::standing::{Standing, Standings};
use crate::wait::Wait;
use crate::{Lives, OneSide};
use bm_class::Class;
use bm_grace::{Began, Done, Grace, Knows, Look};
use bm_graph::{End, Way};
use bm_journal::{Domain, History, ObjId, Period, Tag, Values};
use bm_page::Unit;
use bm_post::{Post, World};
use bm_word::NoMemory;
use std::alloc::Global;
use std::marker::Model;

/// The world on one thread with the units that live in it. Beside the side it owns each unit that lives, by its number, counts how
/// many lives each unit has begun, keeps what each unit waits for, and has the slots, lists and trees of a scenario. It has to be ended, by `give_up` or by ending its parts. This
/// project's own.
///
/// A unit that lives isn't mine: its number can be named, and nothing can be done with it, until its life ends. A unit whose life
/// ended by a free with delay isn't settled until it has waited: it is ripe once its seal shows a stamp that was taken since then,
/// and a number that the plain domain had and that is at least the stamp. It has that seal when it begins its next life.
pub struct LivingSide {
    /// The pool, all inboxes, and the words and numbers of both domains.
    side: OneSide,
    /// By number, the object that the unit is, if it lives.
    slots: Slots,
    /// By number, how many lives the unit has begun.
    begun: Begun,
    /// By number, what the unit waits for.
    standings: Standings,
    /// How many calls for objects were counted.
    asked: u32,
    /// The slots of the scenario, with what they hold.
    contents: Contents,
    /// The lists and trees of the scenario.
    graphs: Graphs,
}

impl Model for LivingSide {
    ghost use Rattle.std.specs.Prelude.{◌≡◌, ◌^◌, length};
    ghost use Rattle.bm_world.specs.LivingState.{AreLiving, AreShelved, LivingState};

    ghost Value = { LivingState };

    ghost view = { λ world. record {
      side = world.side;
      slots = world.slots.slots.items;
      begun = world.begun.counts.items;
      standings = world.standings.standings.items;
      asked = world.asked;
      contents = world.contents;
      graphs = world.graphs;
    } };

    ghost invariant = { λ world. AreLiving world.side.post world.side.grace.plain.number
        world.side.grace.tracing.number world.slots.slots.items world.begun.counts.items
        world.standings.standings.items world.asked
        × (length world.standings.before.items ≡ 2 ^ 16)
        × AreShelved world.slots.slots.items world.graphs };
}

impl LivingSide {
    /// A side with these slots, and with these lists and trees, in which nothing lives, and for which no object was asked. No unit of its pool or its inboxes has ever lived. Want
    /// of memory is the only refusal, and hands the side back.
    pub fn create(
        alloc: Global,
        side: OneSide,
        contents: Contents,
        graphs: Graphs,
    ) -> Result<LivingSide, OneSide>
        requires lived { HaveLived [] [] side.post }
        requires bare { AreBare graphs }
        ensures side { IfOk result (λ world. world.side ≡ side) }
        ensures slots { IfOk result (λ world. AllEmpty world.slots) }
        ensures begun { IfOk result (λ world. (n : ℕ) → begun_at world.begun n ≡ 0) }
        ensures standings { IfOk result
            (λ world. (n : ℕ) → standing_at world.standings n ≡ WaitsForNothing) }
        ensures asked { IfOk result (λ world. world.asked ≡ 0) }
        ensures contents { IfOk result (λ world. world.contents ≡ contents) }
        ensures graphs { IfOk result (λ world. world.graphs ≡ graphs) }
        ensures err { IfErr result (λ back. back ≡ side) }
    {
        let begun = match Begun::new(alloc) {
            Ok(begun) => begun,
            Err(_) => return Err(side),
        };
        let standings = match Standings::new(alloc) {
            Ok(standings) => standings,
            Err(_) => return Err(side),
        };
        match Slots::new(alloc) {
            Ok(slots) => Ok(LivingSide {
                side,
                slots,
                begun,
                standings,
                asked: 0,
                contents,
                graphs,
            }),
            Err(_) => Err(side),
        }
    }

    /// Gives the side and the units that live back, how many objects were asked for, and the lists and trees.
    pub fn into_parts(self) -> (OneSide, Slots, u32, Graphs)
        ensures side { result.0 ≡ self.side }
        ensures slots { result.1.slots.items ≡ self.slots }
        ensures asked { result.2 ≡ self.asked }
        ensures graphs { result.3 ≡ self.graphs }
    {
        let LivingSide {
            side,
            slots,
            begun: _,
            standings: _,
            asked,
            contents: _,
            graphs,
        } = self;
        (side, slots, asked, graphs)
    }

    /// Ends it after a want of memory, whatever lives or waits. Its units are lost.
    pub fn give_up(self) {
        let LivingSide {
            side,
            slots,
            begun: _,
            standings: _,
            asked: _,
            contents: _,
            graphs: _,
        } = self;
        slots.give_up();
        let (post, _grace) = side.into_parts();
        post.give_up();
    }

    /// No more objects are in lists and trees than there are units: each is in one at most, and lives.
    pub fn few_items(&self)
        ensures { items_in self.now.graphs ≤ 2 ^ 16 }
    {
        self.graphs.each_once();
    }

    /// Ends it, whatever lives or waits, for the histories of its lists and trees, in the order of their places: of a map that is a slot
    /// there is an empty one. Want of memory is the only refusal.
    pub fn into_histories(self, alloc: Global) -> Result<Vec<History>, NoMemory>
        ensures { IfOk result (λ histories. histories.items ≡ map history_told self.graphs) }
    {
        let (side, slots, _asked, graphs) = self.into_parts();
        slots.give_up();
        let (post, _grace) = side.into_parts();
        post.give_up();
        graphs.into_histories(alloc)
    }

    /// Makes it the side of a processor.
    pub fn turn(&mut self, processor: u8)
        requires { processor < self.old.side.post.processors }
        ensures { self.new ≡ record self.old {
          side = record {
            post = record self.old.side.post { processor = processor };
            grace = record self.old.side.grace { processor = processor };
          };
        } }
    {
        self.side.turn(processor);
    }

    /// Where no processor is in a section, all is at rest, whoever's side it is. Where the number of a domain is odd, one of the
    /// processors has a period in progress; where it is even, none has. So once each has ended its own, the number is even.
    pub fn all_at_rest(&self)
        requires outside { (d : DomainValue) → let g = self.now.side.grace in
            AreEven g.processors (domain_in d g).words }
        ensures rest { (d : DomainValue) →
            LivingAtRest self.now d (domain_in d self.now.side.grace).number }
        ensures driven { (d : DomainValue) → let g = self.now.side.grace in
            IsDriven g.processors (domain_in d g) }
        ensures ended { (d : DomainValue) → let g = self.now.side.grace in
            ((p : ℕ) → p < g.processors → (side_in p (domain_in d g)).number ≡ 0) →
            (domain_in d g).number % 2 ≡ 0 }
    {
        self.side.all_at_rest();
    }

    /// Where there is one processor, and it is in no section, all is at rest; and if a period is in progress, it is this side's.
    pub fn one_at_rest(&self)
        requires one { self.now.side.grace.processors ≡ 1 }
        requires outside { (d : DomainValue) → (side d (known_living self.now)).word % 2 ≡ 0 }
        ensures rest { (d : DomainValue)
            → LivingAtRest self.now d (domain_in d self.now.side.grace).number }
        ensures sole { (d : DomainValue)
            → IsSole (side d (known_living self.now)).number
            (domain_in d self.now.side.grace).number }
    {
        self.side.one_at_rest();
    }
}

/// The life of a unit ends: if it is freed with delay, it waits from now on.
fn end_standing(side: &mut OneSide, standings: &mut Standings, number: u16, delayed: bool)
    requires size { length standings.old.standings.items ≡ 2 ^ 16 }
    ensures side { side.new ≡ side.old }
    ensures before { standings.new.before.items ≡ standings.old.before.items }
    ensures standings { standings.new.standings.items
        ≡ standings_after delayed number side.old.grace standings.old.standings.items }
{
    if delayed {
        let plain = side.stamp(Domain::Plain);
        let tracing = side.stamp(Domain::Tracing);
        standings.set(number, Standing::Waits(Wait { plain, tracing }));
    }
}

impl Knows for LivingSide {
    ghost known = { known_living };

    ghost tells = { false };

    ghost rights = { rights_living };

    ghost rest = { LivingAtRest };

    ghost does = { LivingDoes };

    ghost does_same = { living-same };

    ghost does_join = { living-join };
}

impl Grace for LivingSide {
    fn enter(&mut self, domain: Domain) -> u32
        requires outside { (side domain (known_living self.old)).word % 2 ≡ 0 }
        requires room { (side domain (known_living self.old)).word < 2 ^ 28 }
        ensures post { self.new.side.post ≡ self.old.side.post }
        ensures slots { self.new.slots ≡ self.old.slots }
        ensures begun { self.new.begun ≡ self.old.begun }
        ensures standings { self.new.standings ≡ self.old.standings }
        ensures asked { self.new.asked ≡ self.old.asked }
        ensures contents { self.new.contents ≡ self.old.contents }
        ensures graphs { self.new.graphs ≡ self.old.graphs }
        ensures grace { self.new.side.grace
            ≡ with_domain domain
            (word_moved self.old.side.grace.processor
            (domain_in domain self.old.side.grace))
            self.old.side.grace }
        ensures word { result ≡ (side domain (known_living self.old)).word + 1 }
        ensures known { known_living self.new ≡ entered false domain (known_living self.old) }
        ensures rights { Ages (rights_living self.old) (rights_living self.new) }
        ensures same { AsBefore (rights_living self.old) (rights_living self.new) }
        ensures does { LivingDoes (act.Enters domain result ∷ []) self.old self.new }
    {
        self.side.enter(domain)
    }

    fn leave(&mut self, domain: Domain) -> u32
        requires inside { (side domain (known_living self.old)).word % 2 ≡ 1 }
        ensures post { self.new.side.post ≡ self.old.side.post }
        ensures slots { self.new.slots ≡ self.old.slots }
        ensures begun { self.new.begun ≡ self.old.begun }
        ensures standings { self.new.standings ≡ self.old.standings }
        ensures asked { self.new.asked ≡ self.old.asked }
        ensures contents { self.new.contents ≡ self.old.contents }
        ensures graphs { self.new.graphs ≡ self.old.graphs }
        ensures grace { self.new.side.grace
            ≡ with_domain domain
            (word_moved self.old.side.grace.processor
            (domain_in domain self.old.side.grace))
            self.old.side.grace }
        ensures word { result ≡ (side domain (known_living self.old)).word + 1 }
        ensures known { known_living self.new ≡ left false domain (known_living self.old) }
        ensures rights { Ages (rights_living self.old) (rights_living self.new) }
        ensures same { AsBefore (rights_living self.old) (rights_living self.new) }
        ensures does { LivingDoes (act.Leaves domain result ∷ []) self.old self.new }
    {
        self.side.leave(domain)
    }

    fn stamp(&mut self, domain: Domain) -> u32
        ensures stamp { result ≡ next (domain_in domain self.old.side.grace).number }
        ensures state { self.new ≡ self.old }
        ensures known { Stamped false domain result (known_living self.old)
            (known_living self.new) }
        ensures rights { Ages (rights_living self.old) (rights_living self.new) }
        ensures since { MineSince domain result (rights_living self.old) (rights_living self.new) }
        ensures rest { StaysAtRest LivingAtRest self.old self.new }
        ensures at_rest { (n : ℕ) → LivingAtRest self.old domain n → result ≡ next n }
        ensures does { LivingDoes (act.Stamps domain result ∷ []) self.old self.new }
    {
        self.side.stamp(domain)
    }

    fn done(&mut self, domain: Domain, stamp: u32) -> Done
        ensures number { number_in result ≡ (domain_in domain self.old.side.grace).number }
        ensures state { self.new ≡ self.old }
        ensures answer { Answers result stamp }
        ensures seen { (side domain (known_living self.old)).seen ≤ number_in result }
        ensures known { known_living self.new
            ≡ read false domain (number_in result) (known_living self.old) }
        ensures rights { Ages (rights_living self.old) (rights_living self.new) }
        ensures ripe { Ripens domain stamp result (rights_living self.old)
            (rights_living self.new) }
        ensures rest { StaysAtRest LivingAtRest self.old self.new }
        ensures at_rest { (n : ℕ) → LivingAtRest self.old domain n → number_in result ≡ n }
        ensures does { LivingDoes (act.Reads domain stamp (number_in result) ∷ []) self.old
            self.new }
    {
        self.side.done(domain, stamp)
    }

    fn begin(&mut self, domain: Domain, even: u32) -> Began
        requires even { even % 2 ≡ 0 }
        requires idle { (side domain (known_living self.old)).number ≡ 0 }
        requires room { 0 < (side domain (known_living self.old)).begins }
        ensures found { found_at even result ≡ (domain_in domain self.old.side.grace).number }
        ensures post { self.new.side.post ≡ self.old.side.post }
        ensures slots { self.new.slots ≡ self.old.slots }
        ensures begun { self.new.begun ≡ self.old.begun }
        ensures standings { self.new.standings ≡ self.old.standings }
        ensures asked { self.new.asked ≡ self.old.asked }
        ensures contents { self.new.contents ≡ self.old.contents }
        ensures graphs { self.new.graphs ≡ self.old.graphs }
        ensures grace { self.new.side.grace
            ≡ with_domain domain
            (period_begun self.old.side.grace.processor result
            (domain_in domain self.old.side.grace))
            self.old.side.grace }
        ensures answer { BeganAt result even }
        ensures seen { (side domain (known_living self.old)).seen ≤ found_at even result }
        ensures known { known_living self.new
            ≡ began false domain result even (known_living self.old) }
        ensures rights { Ages (rights_living self.old) (rights_living self.new) }
        ensures rest { MovesNumber LivingAtRest domain even (even + 1) self.old self.new }
        ensures at_rest { LivingAtRest self.old domain even → result ≡ Won }
        ensures does { LivingDoes (begin_act domain even result ∷ []) self.old self.new }
    {
        self.side.begin(domain, even)
    }

    fn look(&mut self, domain: Domain) -> Look
        requires driving { (side domain (known_living self.old)).number % 2 ≡ 1 }
        ensures post { self.new.side.post ≡ self.old.side.post }
        ensures slots { self.new.slots ≡ self.old.slots }
        ensures begun { self.new.begun ≡ self.old.begun }
        ensures standings { self.new.standings ≡ self.old.standings }
        ensures asked { self.new.asked ≡ self.old.asked }
        ensures contents { self.new.contents ≡ self.old.contents }
        ensures graphs { self.new.graphs ≡ self.old.graphs }
        ensures grace { self.new.side.grace
            ≡ with_domain domain
            (period_looked (words_in domain self.old.side.grace)
            (domain_in domain self.old.side.grace))
            self.old.side.grace }
        ensures first { length (side domain (known_living self.new)).first
            ≡ looks domain self.old.side.grace.processors }
        ensures later { length (side domain (known_living self.new)).later
            ≡ looks domain self.old.side.grace.processors }
        ensures answer { let s = side domain (known_living self.new) in
            Verdict result domain s.first s.later }
        ensures known { known_living self.new
            ≡ looked false domain (side domain (known_living self.new)).later
            (known_living self.old) }
        ensures rights { Ages (rights_living self.old) (rights_living self.new) }
        ensures rest { StaysAtRest LivingAtRest self.old self.new }
        ensures at_rest { (n : ℕ) → LivingAtRest self.old domain n → result ≡ AllPass }
        ensures does { LivingDoes
            (act.Looks domain (side domain (known_living self.new)).later ∷ []) self.old self.new }
    {
        self.side.look(domain)
    }

    fn finish(&mut self, domain: Domain) -> Period
        requires { CanFinish domain (known_living self.old) }
        ensures post { self.new.side.post ≡ self.old.side.post }
        ensures slots { self.new.slots ≡ self.old.slots }
        ensures begun { self.new.begun ≡ self.old.begun }
        ensures standings { self.new.standings ≡ self.old.standings }
        ensures asked { self.new.asked ≡ self.old.asked }
        ensures contents { self.new.contents ≡ self.old.contents }
        ensures graphs { self.new.graphs ≡ self.old.graphs }
        ensures grace { self.new.side.grace
            ≡ with_domain domain (period_ended (domain_in domain self.old.side.grace))
            self.old.side.grace }
        ensures period { result ≡ ended domain (side domain (known_living self.old)) }
        ensures known { known_living self.new ≡ finished false domain (known_living self.old) }
        ensures rights { Ages (rights_living self.old) (rights_living self.new) }
        ensures rest { (n : ℕ) → MovesNumber LivingAtRest domain n (n + 1) self.old self.new }
        ensures does { LivingDoes (act.Finishes result ∷ []) self.old self.new }
    {
        self.side.finish(domain)
    }

    fn driving(&self, domain: Domain) -> bool
        ensures is { result
            ≡ is_processor self.now.side.grace.processor
            (domain_in domain self.now.side.grace).driver }
        ensures none { result ≡ false → (side domain (known_living self.now)).number ≡ 0 }
        ensures odd { result ≡ true → (side domain (known_living self.now)).number % 2 ≡ 1 }
    {
        self.side.driving(domain)
    }

    ghost idle_at_rest = { idle-living };
}

impl Post for LivingSide {
    ghost calls = { λ _. None };

    fn fetch(&mut self, class: Class, want: usize, out: &mut Vec<Unit>) -> Result<usize, NoMemory>
        ensures count { IfOk result
            (λ n. n ≡ length (stock_fetched class want self.old.side.post.pool).units) }
        ensures units { OnOk result
            (out.new.items
            ≡ out.old.items ++ (stock_fetched class want self.old.side.post.pool).units) }
        ensures state { OnOk result
            (self.new.side.post
            ≡ record self.old.side.post
            { pool = (stock_fetched class want self.old.side.post.pool).pool }) }
        ensures err_state { OnErr result (self.new.side.post ≡ self.old.side.post) }
        ensures grace { self.new.side.grace ≡ self.old.side.grace }
        ensures slots { self.new.slots ≡ self.old.slots }
        ensures begun { self.new.begun ≡ self.old.begun }
        ensures standings { self.new.standings ≡ self.old.standings }
        ensures asked { self.new.asked ≡ self.old.asked }
        ensures contents { self.new.contents ≡ self.old.contents }
        ensures graphs { self.new.graphs ≡ self.old.graphs }
        ensures ok { IfOk result
            (λ n. Fetches class want n out.old.items out.new.items (rights_living self.old)
            (rights_living self.new)) }
        ensures err { OnErr result (out.new.items ≡ out.old.items) }
        ensures same { OnErr result (AreSame (rights_living self.old) (rights_living self.new)) }
        ensures lasts { Lasting [] (rights_living self.old) (rights_living self.new) }
        ensures known { Posts false (known_living self.old) (known_living self.new) }
        ensures rest { StaysAtRest LivingAtRest self.old self.new }
        ensures does { OnOk result
            (LivingDoes
            (act.Fetches class want (numbers (drop (length out.old.items) out.new.items)) ∷ [])
            self.old self.new) }
        ensures idle { OnErr result (LivingDoes [] self.old self.new) }
    {
        self.side.fetch(class, want, out)
    }

    fn put_back(&mut self, units: Vec<Unit>)
        requires mine { Holds (rights_living self.old) units.items }
        requires fit { All (MayLeave (rights_living self.old)) units.items }
        ensures state { self.new.side.post
            ≡ record self.old.side.post
            { pool = all_returned (reverse units.items) self.old.side.post.pool } }
        ensures grace { self.new.side.grace ≡ self.old.side.grace }
        ensures slots { self.new.slots ≡ self.old.slots }
        ensures begun { self.new.begun ≡ self.old.begun }
        ensures standings { self.new.standings ≡ left_by units.items self.old.standings }
        ensures asked { self.new.asked ≡ self.old.asked }
        ensures contents { self.new.contents ≡ self.old.contents }
        ensures graphs { self.new.graphs ≡ self.old.graphs }
        ensures back { GivesBack (numbers units.items) (rights_living self.old)
            (rights_living self.new) }
        ensures lasts { Lasting (numbers units.items) (rights_living self.old)
            (rights_living self.new) }
        ensures known { Posts false (known_living self.old) (known_living self.new) }
        ensures rest { StaysAtRest LivingAtRest self.old self.new }
        ensures does { LivingDoes (act.Returns (sealed units.items) ∷ []) self.old self.new }
        ensures gives { All (IsSettled (rights_living self.old)) units.items
            → LivingDoes (act.GivesBack (numbers units.items) ∷ []) self.old self.new }
    {
        self.standings.leave(&units);
        self.side.put_back(units);
    }

    fn send(&mut self, to: u8, class: Class, units: Vec<Unit>) -> Result<(), Vec<Unit>>
        requires to { to < self.old.side.grace.processors }
        requires some { 0 < length units.items }
        requires class { All (IsOf class) units.items }
        requires mine { Holds (rights_living self.old) units.items }
        requires fit { All (MayLeave (rights_living self.old)) units.items }
        ensures state { OnOk result
            (self.new.side.post ≡ sent_to to class units.items self.old.side.post) }
        ensures err_state { OnErr result (self.new.side.post ≡ self.old.side.post) }
        ensures grace { self.new.side.grace ≡ self.old.side.grace }
        ensures slots { self.new.slots ≡ self.old.slots }
        ensures begun { self.new.begun ≡ self.old.begun }
        ensures standings { OnOk result
            (self.new.standings ≡ left_by units.items self.old.standings) }
        ensures err_standings { OnErr result (self.new.standings ≡ self.old.standings) }
        ensures asked { self.new.asked ≡ self.old.asked }
        ensures contents { self.new.contents ≡ self.old.contents }
        ensures graphs { self.new.graphs ≡ self.old.graphs }
        ensures sent { OnOk result
            (GivesBack (numbers units.items) (rights_living self.old) (rights_living self.new)) }
        ensures refused { IfErr result (λ back. back.items ≡ units.items) }
        ensures same { OnErr result (AreSame (rights_living self.old) (rights_living self.new)) }
        ensures lasts { Lasting (numbers units.items) (rights_living self.old)
            (rights_living self.new) }
        ensures may { OnErr result (All (MayLeave (rights_living self.new)) units.items) }
        ensures mails { OnOk result
            (Mails false (parcel_sent to self.old.side.grace.processor class (numbers units.items))
            (known_living self.old) (known_living self.new)) }
        ensures known { OnErr result (Posts false (known_living self.old) (known_living self.new)) }
        ensures rest { StaysAtRest LivingAtRest self.old self.new }
        ensures does { OnOk result
            (LivingDoes (act.Sends class to (sealed units.items) ∷ []) self.old self.new) }
        ensures drains { OnOk result (All (IsSettled (rights_living self.old)) units.items
            → LivingDoes (act.Drains class to (numbers units.items) ∷ []) self.old self.new) }
        ensures releases { OnOk result ((seal : SealValue)
            → All (WaitedBy (rights_living self.old) seal) units.items
            → LivingDoes (act.Releases class to (numbers units.items) seal.stamp seal.seen ∷ [])
            self.old self.new) }
        ensures idle { OnErr result (LivingDoes [] self.old self.new) }
    {
        self.standings.leave(&units);
        match self.side.send(to, class, units) {
            Ok(()) => Ok(()),
            Err(units) => {
                self.standings.come_back(&units);
                Err(units)
            }
        }
    }

    fn receive(&mut self, class: Class) -> Option<Vec<Unit>>
        ensures oldest { IfSome result (λ units.
            inbox self.old.side.post.processor class self.old.side.post
            ≡ units.items ∷ inbox self.old.side.post.processor class self.new.side.post) }
        ensures none_waits { IfNone result
            (inbox self.old.side.post.processor class self.old.side.post ≡ []) }
        ensures state { IfSome result
            (λ _. self.new.side.post
            ≡ taken_by self.old.side.post.processor class self.old.side.post) }
        ensures none_state { IfNone result (self.new.side.post ≡ self.old.side.post) }
        ensures grace { self.new.side.grace ≡ self.old.side.grace }
        ensures slots { self.new.slots ≡ self.old.slots }
        ensures begun { self.new.begun ≡ self.old.begun }
        ensures standings { self.new.standings ≡ self.old.standings }
        ensures asked { self.new.asked ≡ self.old.asked }
        ensures contents { self.new.contents ≡ self.old.contents }
        ensures graphs { self.new.graphs ≡ self.old.graphs }
        ensures some { IfSome result
            (λ units. Receives class units.items (rights_living self.old)
            (rights_living self.new)) }
        ensures none { IfNone result (AreSame (rights_living self.old) (rights_living self.new)) }
        ensures lasts { Lasting [] (rights_living self.old) (rights_living self.new) }
        ensures mails { Mails false (parcel_taken class) (known_living self.old)
            (known_living self.new) }
        ensures oldest_told { oldest (told_in self.old.side.post class)
            ≡ option_map_or (λ units. numbers units.items) result [] }
        ensures none_told { IfNone result (told_in self.old.side.post class ≡ []) }
        ensures rest { StaysAtRest LivingAtRest self.old self.new }
        ensures does { LivingDoes
            (act.Receives class (option_map_or (λ units. numbers units.items) result []) ∷ [])
            self.old self.new }
    {
        self.side.receive(class)
    }

    ghost room = { room-living };
}

impl World for LivingSide {}

impl Lives for LivingSide {
    fn ask(&mut self)
        requires room { self.old.asked + 1 < 2 ^ 31 }
        ensures state { self.new ≡ with_asked self.old }
        ensures known { known_living self.new ≡ asked_once (known_living self.old) }
        ensures same { AsBefore (rights_living self.old) (rights_living self.new) }
        ensures rest { StaysAtRest LivingAtRest self.old self.new }
        ensures does { LivingDoes [] self.old self.new }
    {
        self.asked += 1;
    }

    fn begin_life(&mut self, unit: Unit, type_number: usize, values: Values) -> ObjId
        requires room { self.old.asked + 1 < 2 ^ 31 }
        requires mine { (rights_living self.old).mine unit.number ≡ true }
        requires settled { IsSettled (rights_living self.old) unit }
        requires home { unit.home < self.old.side.grace.processors }
        ensures object { result ≡ record { unit = unit.number; life = unit.life + 1 } }
        ensures next { unit.life ≡ begun_at self.old.begun unit.number }
        ensures none { lives_of self.old.slots unit.number ≡ None }
        ensures alone { standing_from 0 self.old.graphs unit.number ≡ None }
        ensures state { self.new ≡ with_begun type_number values unit self.old }
        ensures known { known_living self.new
            ≡ life_begun type_number values unit (known_living self.old) }
        ensures gone { Loses (unit.number ∷ []) (rights_living self.old) (rights_living self.new) }
        ensures others { OthersAsBefore unit.number (rights_living self.old)
            (rights_living self.new) }
        ensures rest { StaysAtRest LivingAtRest self.old self.new }
        ensures does { unit.home ≡ self.old.side.grace.processor
            → LivingDoes (act.Makes unit.number (unit.life + 1) type_number values unit.seal ∷ [])
            self.old self.new }
    {
        self.side.processors_agree();
        let mut unit = unit;
        unit.begin_life();
        let object = ObjId {
            unit: unit.number(),
            life: unit.life(),
        };
        self.begun.set(object.unit, object.life);
        self.standings.set(object.unit, Standing::Nothing);
        self.slots.put(unit, type_number, values);
        self.asked += 1;
        object
    }

    fn references(&self, number: u16) -> u32
        requires lives { is_some (lives_of self.now.slots number) ≡ true }
        ensures count { result ≡ count_in (lives_of self.now.slots number) }
        ensures some { 0 < result }
    {
        self.slots.references(number)
    }

    fn acquire(&mut self, object: ObjId) -> u32
        requires room { self.old.asked + 1 < 2 ^ 31 }
        requires lives { (l : Living)
            × HasLife (lives_of self.old.slots) object.unit object.life l }
        ensures state { self.new ≡ with_acquired object.unit self.old }
        ensures seen { result ≡ count_in (lives_of self.old.slots object.unit) }
        ensures some { 0 < result }
        ensures known { known_living self.new ≡ life_acquired object.unit (known_living self.old) }
        ensures same { AsBefore (rights_living self.old) (rights_living self.new) }
        ensures rest { StaysAtRest LivingAtRest self.old self.new }
        ensures does { LivingDoes (act.Acquires object.unit object.life result ∷ []) self.old
            self.new }
    {
        let count = self.slots.references(object.unit);
        self.slots.count(object.unit, count + 1);
        self.asked += 1;
        count
    }

    fn read(&self, object: ObjId, place: u8) -> u32
        requires lives { (l : Living)
            × HasLife (lives_of self.now.slots) object.unit object.life l }
        requires there { is_some (slice_get (values_in (lives_of self.now.slots object.unit)) place)
            ≡ true }
        ensures value { slice_get (values_in (lives_of self.now.slots object.unit)) place
            ≡ Some result }
        ensures does { LivingDoes (act.Finds object.unit object.life place result ∷ []) self.now
            self.now }
    {
        self.slots.value(object.unit, place)
    }

    fn exchange(&mut self, place: usize, put: Option<ObjId>, tag: Tag) -> Displaced
        requires there { place < length self.old.contents }
        requires lives { PutLives (lives_of self.old.slots) put }
        ensures held { result.held ≡ (slot_at place self.old.contents).slot.held }
        ensures by { result.by ≡ (slot_at place self.old.contents).slot.by }
        ensures state { self.new ≡ with_exchanged place put tag self.old }
        ensures known { known_living self.new
            ≡ slot_exchanged place put tag (known_living self.old) }
        ensures same { AsBefore (rights_living self.old) (rights_living self.new) }
        ensures rest { StaysAtRest LivingAtRest self.old self.new }
        ensures does { let name = (slot_at place self.old.contents).name in
            LivingDoes (act.Exchanges name put result.held result.by tag ∷ []) self.old self.new }
    {
        self.contents.exchange(place, put, tag)
    }

    fn push(&mut self, place: usize, way: Way, object: ObjId, tag: Tag) -> Result<Pushed, NoMemory>
        requires there { place < length self.old.graphs }
        requires kind { (graph_at place self.old.graphs).is_tree ≡ is_for_tree way }
        requires lives { (l : Living)
            × HasLife (lives_of self.old.slots) object.unit object.life l }
        requires keyed { way ≡ Ordered
            → 0 < length (values_in (lives_of self.old.slots object.unit)) }
        ensures at { IfOk result
            (λ pushed. pushed_at pushed ≡ length (graph_at place self.old.graphs).history) }
        ensures stood { IfOk result
            (λ pushed. standing_from 0 self.old.graphs object.unit ≡ stood object.life pushed) }
        ensures moves { IfOk result
            (λ pushed. let key = key_of (values_in (lives_of self.old.slots object.unit)) in
            standing_from 0 self.new.graphs
            ≡ moved place (effect_of (pushed_call way object key pushed))
            (standing_from 0 self.old.graphs)) }
        ensures known { IfOk result
            (λ pushed. let key = key_of (values_in (lives_of self.old.slots object.unit)) in
            known_living self.new
            ≡ graph_called place (pushed_call way object key pushed) tag
            (known_living self.old)) }
        ensures same { AsBefore (rights_living self.old) (rights_living self.new) }
        ensures rest { StaysAtRest LivingAtRest self.old self.new }
        ensures does { IfOk result
            (λ pushed. let key = key_of (values_in (lives_of self.old.slots object.unit)) in
            LivingDoes
            (act.Calls (graph_at place self.old.graphs).name (pushed_at pushed)
            (pushed_call way object key pushed) tag
            ∷ [])
            self.old self.new) }
        ensures err { OnErr result (self.new ≡ self.old) }
    {
        let key = self.slots.key(object.unit);
        match self.slots.within(object.unit) {
            Some(owner) => {
                let position = self.graphs.refuse(place, way, object, key, owner, tag)?;
                Ok(Pushed::Already { owner, position })
            }
            None => {
                let position = self.graphs.push(place, way, object, key, tag)?;
                self.slots.place(object.unit, Some(place as u8));
                Ok(Pushed::Done(position))
            }
        }
    }

    fn pop(&mut self, place: usize, end: End, tag: Tag) -> Result<(u32, Option<ObjId>), NoMemory>
        requires there { place < length self.old.graphs }
        requires kind { (graph_at place self.old.graphs).is_tree ≡ false }
        ensures at { IfOk result
            (λ answer. answer.0 ≡ length (graph_at place self.old.graphs).history) }
        ensures item { IfOk result
            (λ answer. answer.1 ≡ end_node end (graph_at place self.old.graphs).nodes) }
        ensures stood { IfOk result (λ answer. IfSome answer.1 (λ id.
            standing_from 0 self.old.graphs id.unit
            ≡ Some (record { life = id.life; place = place }))) }
        ensures lives { IfOk result
            (λ answer. IfSome answer.1
            (λ id. (l : Living) × HasLife (lives_of self.old.slots) id.unit id.life l)) }
        ensures moves { IfOk result
            (λ answer. standing_from 0 self.new.graphs
            ≡ moved place (effect_of (pop_call end answer.1))
            (standing_from 0 self.old.graphs)) }
        ensures known { IfOk result
            (λ answer. known_living self.new
            ≡ graph_called place (pop_call end answer.1) tag (known_living self.old)) }
        ensures same { AsBefore (rights_living self.old) (rights_living self.new) }
        ensures rest { StaysAtRest LivingAtRest self.old self.new }
        ensures does { IfOk result (λ answer.
            LivingDoes
            (act.Calls (graph_at place self.old.graphs).name answer.0
            (pop_call end answer.1) tag
            ∷ [])
            self.old self.new) }
        ensures err { OnErr result (self.new ≡ self.old) }
    {
        let (position, popped) = self.graphs.pop(place, end, tag)?;
        if let Some(object) = popped {
            self.slots.place(object.unit, None);
        }
        Ok((position, popped))
    }

    fn first(&mut self, place: usize, tag: Tag) -> Result<(u32, Option<ObjId>), NoMemory>
        requires there { place < length self.old.graphs }
        requires kind { (graph_at place self.old.graphs).is_tree ≡ true }
        ensures at { IfOk result
            (λ answer. answer.0 ≡ length (graph_at place self.old.graphs).history) }
        ensures item { IfOk result
            (λ answer. answer.1 ≡ first_node (graph_at place self.old.graphs).nodes) }
        ensures stood { IfOk result (λ answer. IfSome answer.1 (λ id.
            standing_from 0 self.old.graphs id.unit
            ≡ Some (record { life = id.life; place = place }))) }
        ensures lives { IfOk result
            (λ answer. IfSome answer.1
            (λ id. (l : Living) × HasLife (lives_of self.old.slots) id.unit id.life l)) }
        ensures moves { IfOk result
            (λ answer. standing_from 0 self.new.graphs
            ≡ moved place (effect_of (first_call answer.1)) (standing_from 0 self.old.graphs)) }
        ensures known { IfOk result
            (λ answer. known_living self.new
            ≡ graph_called place (first_call answer.1) tag (known_living self.old)) }
        ensures same { AsBefore (rights_living self.old) (rights_living self.new) }
        ensures rest { StaysAtRest LivingAtRest self.old self.new }
        ensures does { IfOk result (λ answer.
            LivingDoes
            (act.Calls (graph_at place self.old.graphs).name answer.0 (first_call answer.1)
            tag
            ∷ [])
            self.old self.new) }
        ensures err { OnErr result (self.new ≡ self.old) }
    {
        self.graphs.first(place, tag)
    }

    fn remove(&mut self, place: usize, object: ObjId, tag: Tag) -> Result<u32, NoMemory>
        requires there { place < length self.old.graphs }
        requires kind { (graph_at place self.old.graphs).is_tree ≡ true }
        requires stands { standing_from 0 self.old.graphs object.unit
            ≡ Some (record { life = object.life; place = place }) }
        ensures at { IfOk result
            (λ position. position ≡ length (graph_at place self.old.graphs).history) }
        ensures lives { (l : Living) × HasLife (lives_of self.old.slots) object.unit object.life l }
        ensures moves { OnOk result
            (standing_from 0 self.new.graphs
            ≡ moved place (effect_of (past.Remove object)) (standing_from 0 self.old.graphs)) }
        ensures known { OnOk result
            (known_living self.new
            ≡ graph_called place (past.Remove object) tag (known_living self.old)) }
        ensures same { AsBefore (rights_living self.old) (rights_living self.new) }
        ensures rest { StaysAtRest LivingAtRest self.old self.new }
        ensures does { IfOk result (λ position.
            LivingDoes
            (act.Calls (graph_at place self.old.graphs).name position (past.Remove object)
            tag
            ∷ [])
            self.old self.new) }
        ensures err { OnErr result (self.new ≡ self.old) }
    {
        let position = self.graphs.remove(place, object, tag)?;
        self.slots.place(object.unit, None);
        Ok(position)
    }

    fn release_other(&mut self, object: ObjId) -> u32
        requires lives { (l : Living)
            × HasLife (lives_of self.old.slots) object.unit object.life l }
        requires others { 1 < count_in (lives_of self.old.slots object.unit) }
        ensures state { self.new ≡ with_given_up object.unit self.old }
        ensures seen { result ≡ count_in (lives_of self.old.slots object.unit) }
        ensures known { known_living self.new ≡ life_given_up object.unit (known_living self.old) }
        ensures same { AsBefore (rights_living self.old) (rights_living self.new) }
        ensures rest { StaysAtRest LivingAtRest self.old self.new }
        ensures does { LivingDoes (act.GivesUp object.unit object.life result ∷ []) self.old
            self.new }
    {
        let count = self.slots.references(object.unit);
        self.slots.count(object.unit, count - 1);
        count
    }

    fn end_life(&mut self, number: u16, delayed: bool) -> Unit
        requires lives { is_some (lives_of self.old.slots number) ≡ true }
        requires only { count_in (lives_of self.old.slots number) ≡ 1 }
        requires alone { standing_from 0 self.old.graphs number ≡ None }
        ensures unit { unit_at self.old.slots number ≡ Some result }
        ensures lived { let was = lives_of self.old.slots number in
            was ≡ Some (life_of_unit (type_in was) 1 (values_in was) result) }
        ensures number { result.number ≡ number }
        ensures last { result.life ≡ begun_at self.old.begun number }
        ensures state { self.new ≡ with_ended delayed number self.old }
        ensures known { known_living self.new ≡ life_ended number (known_living self.old) }
        ensures mine { Gains (number ∷ []) (rights_living self.old) (rights_living self.new) }
        ensures others { OthersAsBefore number (rights_living self.old) (rights_living self.new) }
        ensures unsealed { result.seal ≡ None }
        ensures room { result.life + 1 < 2 ^ 32 }
        ensures settled { delayed ≡ false → IsSettled (rights_living self.new) result }
        ensures undue { delayed ≡ false → (life : ℕ) (seal : Option SealValue)
            → (rights_living self.new).due number life seal ≡ false }
        ensures due { delayed ≡ true → (rights_living self.new).due number result.life None ≡ true }
        ensures unsettled { delayed ≡ true → (life : ℕ) (seal : Option SealValue)
            → (rights_living self.new).settled number life seal ≡ false }
        ensures home { result.home < self.old.side.grace.processors }
        ensures rest { StaysAtRest LivingAtRest self.old self.new }
        ensures does { LivingDoes (act.Ends number result.life result.home delayed ∷ []) self.old
            self.new }
    {
        self.side.processors_agree();
        end_standing(&mut self.side, &mut self.standings, number, delayed);
        self.slots.take(number)
    }
}
