//! All objects on one thread.

ghost use Rattle.std.specs.Prelude.{◌≡◌, ◌≢◌, ◌<◌, ◌≤◌, ◌*◌, ◌^◌, ℕ, true, false, None, Some, is_some, length, replicate, slice_get, slice_index, IfOk, IfSome};
ghost use Rattle.std.specs.List.{All};
ghost use Rattle.std.specs.Option.{option_map};
ghost use Rattle.bm_class.specs.Sizes.{class_of_size};
ghost use Rattle.bm_obj.specs.Kept.{word_at};
ghost use Rattle.bm_obj.specs.Carrying.{HasClaimPage, IsCarried, IsClaimOfType, MayLook, NoClaimFor, carried_from, told_entered, told_marked, told_page_in, told_put_in, told_taken_out};
ghost use Rattle.bm_obj.specs.Known.{Has, HasPage, IsLast, IsLastUnit, IsMine, IsOwnerOf, IsSeen, MayEnd, MayGo, count_had, first_reference, told_acquired, told_claimed, told_exchanged, told_made, told_released, told_unclaimed, type_at};
ghost use Rattle.bm_obj.specs.NoteShows.{item_in, page_in};
ghost use Rattle.bm_obj.specs.Table.{object_at};
ghost use Rattle.bm_obj.specs.Reference.{id_of};
ghost use Rattle.bm_obj.specs.TypeSize.{type_size};
ghost use Rattle.bm_obj.specs.Waits.{NoOtherWaits, waiting_at, waits_for};
ghost use Rattle.bm_obj.specs.WorldState.{IsReleased, acquired, claim_in, claimed, count_of, entered, exchanged, found, known_of, made, marked, opening_word, owner_of, owner_seen, page_of, put_in, released, still_carried, taken_out, unclaimed, values_of};
ghost use Rattle.bm_obj.specs.declared.answer.Claimed.TheVariants.{Won, Taken};
ghost use Rattle.bm_obj.specs.declared.object.UnitPlace.TheVariants.{Free};

use crate::answer::{Claimed, Displaced, Released};
use crate::carry::Carry;
use crate::graphs::Graphs;
use crate::note::Note;
use crate::object::{
    Object, UnitPlace, free_places, give_up_places, look_at, put_object, set_count, set_noted,
    set_owner, take_object,
};
use crate::objects::Objects;
use crate::reference::Ref;
use crate::type_def::TypeDef;
use bm_journal::{ObjId, Past, Tag, Values};
use bm_page::Unit;
use bm_word::NoMemory;
use std::alloc::Global;
use std::marker::Model;
use std::mem;

/// How many unit numbers a page has.
const PAGE_NUMBERS: usize = 256;

/// How many references may be acquired in all.
const MOST_ACQUIRES: u32 = 1_073_741_824;

/// All objects on one thread, for any number of processors, of which one has its turn. It has all references and
/// claims that aren't in slots or notes, all units that aren't objects, and always the page of each graph. It has to be ended, by `finish` or by `give_up`.
pub struct OneWorld {
    /// By unit number, the object, or how many lives the unit has begun.
    places: Vec<UnitPlace>,
    /// By slot, what it holds.
    words: Vec<Displaced<Ref>>,
    /// By slot, the number of its type.
    slots: Vec<u8>,
    /// By graph, the number of its type, and what waits for its history.
    graphs: Graphs,
    /// The types, by their numbers.
    defs: Vec<TypeDef>,
    /// The processor that has its turn.
    processor: u8,
    /// How many references may still be acquired.
    acquires: u32,
    /// The tag of the last call that was marked.
    last: Option<Tag>,
}

impl Model for OneWorld {
    ghost use Rattle.bm_obj.specs.Kept.{IsWorld};
    ghost use Rattle.bm_obj.specs.WorldState.{World};

    ghost Value = { World };

    ghost view = { λ world. record {
      places = world.places.items;
      words = world.words.items;
      slots = world.slots.items;
      graphs = world.graphs.types;
      defs = world.defs.items;
      processor = world.processor;
      acquires = world.acquires;
      waits = world.graphs.waits;
      last = world.last;
    } };

    ghost invariant = { λ world. IsWorld world.places.items world.words.items world.slots.items
        world.graphs.types world.defs.items world.acquires };
}

impl OneWorld {
    /// A world in which no unit of these pages ever lived, with an empty slot for each type of `slots` and a graph for each of
    /// `graphs`; types are by number. All memory is taken here, and out of memory is the only error. It is processor 0's turn.
    pub fn create(
        alloc: Global,
        pages: u16,
        slots: Vec<u8>,
        graphs: Vec<u8>,
        defs: Vec<TypeDef>,
    ) -> Result<OneWorld, NoMemory>
        requires pages { pages ≤ 256 }
        requires fields { (d : ℕ) → (type_at defs.items d).fields ≤ 8 }
        ensures { IfOk result (λ world. world ≡ record {
          places = replicate (256 * pages) (Free 0);
          words = replicate (length slots.items) opening_word;
          slots = slots.items;
          graphs = graphs.items;
          defs = defs.items;
          processor = 0;
          acquires = 2 ^ 30;
          waits = replicate (length graphs.items) None;
          last = None;
        }) }
    {
        let graphs = Graphs::create(alloc, graphs)?;
        let places = free_places(alloc, PAGE_NUMBERS * pages as usize)?;
        match opening_words(alloc, slots.len()) {
            Ok(words) => Ok(OneWorld {
                places,
                words,
                slots,
                graphs,
                defs,
                processor: 0,
                acquires: MOST_ACQUIRES,
                last: None,
            }),
            Err(refused) => {
                give_up_places(places);
                Err(refused)
            }
        }
    }

    /// Makes it the side of a processor.
    pub fn turn(&mut self, processor: u8)
        ensures { self.new ≡ record self.old { processor = processor } }
    {
        self.processor = processor;
    }

    /// Ends a world in which no object lives.
    pub fn finish(self)
        requires { (n : ℕ) → object_at self.places n ≡ None }
    {
        self.give_up();
    }

    /// Ends a world after an out of memory, whatever it holds. Its units are lost.
    pub fn give_up(self) {
        let OneWorld {
            places,
            words,
            slots: _,
            graphs: _,
            defs: _,
            processor: _,
            acquires: _,
            last: _,
        } = self;
        give_up_places(places);
        give_up_words(words);
    }
}

impl Objects for OneWorld {
    type Ref = Ref;

    ghost reference = { λ r. r };

    ghost known = { known_of };

    fn id(&self, r: &Ref) -> ObjId
        ensures { result ≡ id_of r.now }
    {
        r.id()
    }

    fn make(&mut self, unit: Unit, def: u8, values: &[u32]) -> Ref
        requires mine { IsMine unit (known_of self.old) }
        requires room { unit.life < 262143 }
        requires home { unit.home ≡ self.old.processor }
        requires class { class_of_size (type_size (type_at self.old.defs def)) ≡ Some unit.class }
        requires values { length values.now ≡ (type_at self.old.defs def).fields }
        ensures answer { result ≡ first_reference unit def }
        ensures state { self.new ≡ made unit def values.now self.old }
        ensures known { known_of self.new ≡ told_made result (known_of self.old) }
    {
        // The world's invariant bounds the fields of a type; it is known once a part of the world is read.
        let _processor = self.processor;
        let mut unit = unit;
        unit.begin_life();
        let r = Ref::new(unit.number(), unit.life(), def, unit.home());
        let object = Object {
            unit,
            count: 1,
            def,
            values: kept_values(values),
            owner: None,
            noted: 0,
            carried: false,
        };
        put_object(&mut self.places, object);
        r
    }

    fn get(&mut self, r: &Ref, field: u8) -> u32
        requires has { Has r.now (known_of self.old) }
        requires field { field < (type_at self.old.defs r.now.def).fields }
        ensures value { slice_get (values_of r.now self.old) field ≡ Some result }
        ensures state { self.new ≡ self.old }
        ensures known { known_of self.new ≡ known_of self.old }
    {
        look_at(&self.places, r.unit()).values.as_slice()[field as usize]
    }

    fn acquire(&mut self, r: &Ref) -> (Ref, u32)
        requires has { Has r.now (known_of self.old) }
        requires counted { (type_at self.old.defs r.now.def).counted ≡ true }
        requires room { 0 < self.old.acquires }
        ensures answer { result.0 ≡ r.now }
        ensures count { result.1 ≡ count_of r.now self.old }
        ensures some { 0 < result.1 }
        ensures seen { count_had r.now.unit (known_of self.old) ≤ result.1 }
        ensures state { self.new ≡ acquired r.now self.old }
        ensures known { known_of self.new ≡ told_acquired r.now (known_of self.old) }
    {
        let count = look_at(&self.places, r.unit()).count;
        set_count(&mut self.places, r.unit(), count + 1);
        self.acquires -= 1;
        (r.again(), count)
    }

    fn release(&mut self, r: Ref) -> Released
        requires has { Has r (known_of self.old) }
        requires keeps { MayGo r (known_of self.old) }
        ensures answer { IsReleased r self.old result }
        ensures seen { IsSeen (count_had r.unit (known_of self.old)) result }
        ensures single { (type_at self.old.defs r.def).counted ≡ false → IsLast result }
        ensures unit { IsLastUnit self.old.defs r result }
        ensures state { self.new ≡ released r self.old }
        ensures known { known_of self.new ≡ told_released r result (known_of self.old) }
    {
        let unit = r.unit();
        let life = r.life();
        r.give_up();
        let count = look_at(&self.places, unit).count;
        if count > 1 {
            set_count(&mut self.places, unit, count - 1);
            return Released::Still(count);
        }
        Released::Last(take_object(&mut self.places, unit, life).into_unit())
    }

    fn exchange(&mut self, slot: u8, put: Option<Ref>, tag: Tag) -> Displaced<Ref>
        requires slot { slot < length self.old.slots }
        requires has { IfSome put (λ r. Has r (known_of self.old)) }
        requires of_type { IfSome put (λ r. r.def ≡ slice_index self.old.slots slot) }
        requires keeps { IfSome put (λ r. MayGo r (known_of self.old)) }
        requires processor { tag.processor ≡ self.old.processor }
        requires serial { tag.serial < 2 ^ 18 }
        ensures answer { slice_get self.old.words slot ≡ Some result }
        ensures of_type { IfSome result.old (λ r. r.def ≡ slice_index self.old.slots slot) }
        ensures state { self.new ≡ exchanged slot put tag self.old }
        ensures known { known_of self.new
            ≡ told_exchanged (λ r. r) put result.old (known_of self.old) }
    {
        let word = Displaced {
            old: put,
            by: Some(tag),
        };
        mem::replace(&mut self.words[slot as usize], word)
    }

    fn claim(&mut self, r: &Ref, graph: u8) -> Claimed
        requires has { Has r.now (known_of self.old) }
        requires graph { graph < length self.old.graphs }
        requires of_type { r.now.def ≡ slice_index self.old.graphs graph }
        requires waits { NoOtherWaits (id_of r.now) (waiting_at self.old.waits graph) }
        ensures answer { owner_of r.now self.old ≡ owner_seen result }
        ensures mine { (g : ℕ) → (known_of self.old).claims r.now.unit ≡ Some g → result ≡ Taken g }
        ensures single { (type_at self.old.defs r.now.def).counted ≡ false
            → (known_of self.old).claims r.now.unit ≡ None → result ≡ Won }
        ensures owner { IsOwnerOf self.old.graphs r.now.def result }
        ensures state { self.new ≡ claimed r.now graph self.old }
        ensures known { known_of self.new ≡ told_claimed r.now graph result (known_of self.old) }
    {
        match look_at(&self.places, r.unit()).owner {
            Some(owner) => Claimed::Taken(owner),
            None => {
                set_owner(&mut self.places, r.unit(), Some(graph));
                self.graphs.claim(graph, r.id());
                Claimed::Won
            }
        }
    }

    fn unclaim(&mut self, r: &Ref)
        requires has { Has r.now (known_of self.old) }
        requires claimed { is_some ((known_of self.old).claims r.now.unit) ≡ true }
        requires ends { MayEnd r.now (known_of self.old) }
        ensures state { self.new ≡ unclaimed r.now self.old }
        ensures known { known_of self.new ≡ told_unclaimed r.now (known_of self.old) }
    {
        let owner = look_at(&self.places, r.unit()).owner;
        self.graphs.unclaim(owner, r.id());
        set_owner(&mut self.places, r.unit(), None);
    }
}

impl Carry for OneWorld {
    type Note = Note;

    fn put_in(&mut self, r: Ref) -> Note
        requires has { Has r (known_of self.old) }
        requires page { HasClaimPage ((known_of self.old).claims r.unit) (known_of self.old) }
        ensures item { item_in result ≡ Some (carried_from r (known_of self.old)) }
        ensures page { page_in result ≡ None }
        ensures of_type { IsClaimOfType (carried_from r (known_of self.old)) (known_of self.old) }
        ensures state { self.new ≡ put_in r self.old }
        ensures known { known_of self.new
            ≡ told_put_in (carried_from r (known_of self.old)) (known_of self.old) }
    {
        let object = look_at(&self.places, r.unit());
        let noted = object.noted + 1;
        let claim = claim_in_hands(object);
        let carried = object.owner.is_some();
        set_noted(&mut self.places, r.unit(), noted, carried);
        Note::Item(r, claim)
    }

    fn take_out(&mut self, n: Note) -> Ref
        requires item { is_some (item_in n) ≡ true }
        requires carried { IfSome (item_in n) (λ c. IsCarried c (known_of self.old)) }
        requires page { IfSome (item_in n) (λ c. HasClaimPage c.claim (known_of self.old)) }
        ensures answer { option_map (λ c. c.to) (item_in n) ≡ Some result }
        ensures of_type { IfSome (item_in n) (λ c. IsClaimOfType c (known_of self.old)) }
        ensures state { IfSome (item_in n) (λ c. self.new ≡ taken_out c self.old) }
        ensures known { IfSome (item_in n) (λ c.
            known_of self.new ≡ told_taken_out c (known_of self.old)) }
    {
        let (r, claim) = item_of(n);
        let object = look_at(&self.places, r.unit());
        let noted = object.noted - 1;
        let carried = still_carried(object.carried, claim);
        set_noted(&mut self.places, r.unit(), noted, carried);
        r
    }

    fn mark(&mut self, tag: Tag)
        ensures state { self.new ≡ marked tag self.old }
        ensures known { known_of self.new ≡ told_marked tag (known_of self.old) }
    {
        self.last = Some(tag);
    }

    fn page_in(&mut self, n: Note)
        requires page { is_some (page_in n) ≡ true }
        requires graph { IfSome (page_in n) (λ page. page.graph < length self.old.graphs) }
        ensures state { self.new ≡ self.old }
        ensures known { IfSome (page_in n) (λ page.
            known_of self.new ≡ told_page_in page (known_of self.old)) }
    {
        n.give_up();
    }

    fn page_out(&mut self, graph: u8) -> Note
        requires page { HasPage graph (known_of self.old) }
        requires claims { NoClaimFor graph (known_of self.old) }
        requires waits { waiting_at self.old.waits graph ≡ None }
        ensures item { item_in result ≡ None }
        ensures page { page_in result ≡ page_of self.old.graphs graph }
        ensures others { (g : ℕ) → g ≢ graph
            → (known_of self.new).pages g ≡ (known_of self.old).pages g }
        ensures state { self.new ≡ self.old }
        ensures known { known_of self.new
            ≡ record (known_of self.old) { pages = (known_of self.new).pages } }
    {
        Note::Page(graph)
    }

    fn mark_past(&mut self, graph: u8, at: u32, past: &Past)
        requires page { HasPage graph (known_of self.old) }
        requires tag { self.old.last ≡ Some past.now.tag }
        requires waits { waiting_at self.old.waits graph ≡ waits_for past.now.call }
        ensures state { self.new ≡ entered graph self.old }
        ensures known { known_of self.new ≡ told_entered graph at past.now (known_of self.old) }
    {
        // A page tells no history, so no position is kept.
        let _position = at;
        self.graphs.enter(graph);
    }

    fn get_in(&mut self, n: &Note, field: u8) -> u32
        requires item { is_some (item_in n.now) ≡ true }
        requires carried { IfSome (item_in n.now) (λ c. IsCarried c (known_of self.old)) }
        requires look { IfSome (item_in n.now) (λ c. MayLook c (known_of self.old)) }
        requires field { IfSome (item_in n.now) (λ c.
            field < (type_at self.old.defs c.to.def).fields) }
        ensures value { IfSome (item_in n.now) (λ c.
            slice_get (values_of c.to self.old) field ≡ Some result) }
        ensures state { self.new ≡ self.old }
        ensures known { known_of self.new ≡ known_of self.old }
    {
        let unit = noted_unit(n);
        look_at(&self.places, unit).values.as_slice()[field as usize]
    }
}

/// The claim of an object, if it isn't in a note.
fn claim_in_hands(object: &Object) -> Option<u8>
    ensures { result ≡ claim_in (Some object.now) }
{
    if object.carried { None } else { object.owner }
}

/// Whether the claim of an object is in a note, once a note came back that has a claim or not.
fn still_carried(carried: bool, claim: Option<u8>) -> bool
    ensures { result ≡ still_carried claim carried }
{
    match claim {
        Some(_graph) => false,
        None => carried,
    }
}

/// What a note carries that is no page.
fn item_of(n: Note) -> (Ref, Option<u8>)
    requires { is_some (item_in n) ≡ true }
    ensures { item_in n ≡ Some (record { to = result.0; claim = result.1 }) }
{
    match n {
        Note::Item(r, claim) => (r, claim),
        Note::Page(_graph) => unreachable!(),
    }
}

/// The unit of the object that a note carries.
fn noted_unit(n: &Note) -> u16
    requires { is_some (item_in n.now) ≡ true }
    ensures { option_map (λ c. c.to.unit) (item_in n.now) ≡ Some result }
{
    match n {
        Note::Item(r, _claim) => r.unit(),
        Note::Page(_graph) => unreachable!(),
    }
}

/// Values that an object keeps, of which there are at most 8.
fn kept_values(values: &[u32]) -> Values
    requires { length values.now ≤ 8 }
    ensures { result ≡ values.now }
{
    match Values::new(values) {
        Some(values) => values,
        None => unreachable!(),
    }
}

/// So many empty slots.
fn opening_words(alloc: Global, count: usize) -> Result<Vec<Displaced<Ref>>, NoMemory>
    ensures { IfOk result (λ v. v.items ≡ replicate count opening_word) }
{
    let mut words = Vec::with_capacity(alloc, count)?;
    for _slot in 0..count {
        let word = Displaced {
            old: None,
            by: None,
        };
        if let Err(_refused) = words.push(word) {
            unreachable!();
        }
    }
    Ok(words)
}

/// Ends slots after an out of memory, and the references in them.
fn give_up_words(words: Vec<Displaced<Ref>>) {
    let mut words = words;
    while let Some(word) = words.pop() {
        let Displaced { old, by: _ } = word;
        if let Some(r) = old {
            r.give_up();
        }
    }
    words.destroy_empty();
}
