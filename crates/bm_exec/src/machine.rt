//! Machines: what statements run on.

ghost use Rattle.std.specs.Prelude.{◌≡◌, ◌+◌, ◌<◌, ◌≤◌, ◌^◌, ◌∷◌, [], ℕ, Bool, IfOk, IfSome, IsOk, List, None, Ok, OnOk, Option, Some, false, is_some, length, slice_get, true};
ghost use Rattle.bm_lang.specs.declared.scenario.MapDeclaration.{MapDeclaration};
ghost use Rattle.bm_journal.specs.declared.entry.Entry.TheVariants as entry;
ghost use Rattle.bm_law.specs.State.{State};
ghost use Rattle.bm_law.specs.Lists.{Log, Leaves};
ghost use Rattle.bm_law.specs.Spans.{Records};
ghost use Rattle.bm_law_scenario.specs.Calls.{IsCounted};
ghost use Rattle.bm_law_scenario.specs.Declared.{Declared, IsGraph, IsSlot};
ghost use Rattle.bm_law_work.specs.Grown.{GrewBy};
ghost use Rattle.bm_graph.specs.Ways.{is_for_tree};
ghost use Rattle.bm_graph.specs.declared.ways.Way.TheVariants as way_is;
ghost use Rattle.bm_exec.specs.Around.{Around, Entered, HasLeft, is_inside};
ghost use Rattle.bm_exec.specs.Guarded.{Found, Guarded, HasLooked, IsShelved, Popped, PutIn, Refused, Removed, shelved_values, with_guard};
ghost use Rattle.bm_exec.specs.Lists.{Behind};
ghost use Rattle.bm_exec.specs.Living.{Acquired, Created, Exchanged, HasRead, HasType, IsMade, IsToPut, LetGo, Lives, LivesAs, type_in, values_in};
ghost use Rattle.bm_exec.specs.Yields.{Unyielding};

use bm_class::Class;
use bm_graph::{End, Way};
use bm_journal::{ObjId, Values};
use bm_lang::{MapId, TypeId};
use bm_word::{Name, NoMemory};

/// A processor at one level, as the statements of a script use it: it makes objects and gives them up. Machines are this
/// project's own.
pub trait Machine {
    /// The log, where it is told.
    ghost log: { Self → Option Log };

    /// What stands in its lists and hands.
    ghost lists: { Self → State ℕ };

    /// The number of the processor.
    ghost processor: { Self → ℕ };

    /// The level that the script runs at.
    ghost level: { Self → ℕ };

    /// The types and the maps that its statements may name.
    ghost declared: { Self → Declared };

    /// The objects to which names hold references, with how many of these: those that slots hold aren't counted in it.
    ghost lives: { Self → Lives };

    /// The plain section around the code.
    ghost around: { Self → Around };

    /// The lock that the code holds, and the objects that are in lists and trees.
    ghost guarded: { Self → Guarded };

    /// How many times it was asked: for an object, a reference, a field, an exchange, a call on a list or tree, the work after a statement, or
    /// the begin or the end of a section. It may count beforehand what handlers that are planned may still ask for, so a call may lower it.
    ghost asked: { Self → ℕ };

    /// The classes for which deferred work runs behind each statement, until no flag is up; none where none runs.
    ghost behind: { Self → Option (List ℕ) };

    /// The name of the reference to what it works on; 0 where it owns that.
    ghost through: { Self → ℕ };

    /// What the machine needs and leaves.
    ghost sound: { Self → Type 0 };

    /// What a call does to, and leaves of, what the machine works on; so is what several calls do, one after the other.
    ghost keeps: { Self → Self → Type 0 };

    /// Asks for an object of a class and of a type, which has this name, with these values of its fields. None exactly where the
    /// allocation answers null. It takes no memory but the recorder's.
    fn create(&mut self, class: Class, type_id: TypeId, name: Name, values: Values) -> Option<ObjId>
        requires sound { sound self.old }
        requires room { asked self.old + 2 < 2 ^ 22 }
        requires made { IsMade (declared self.old).types class type_id.0 values }
        ensures created { Created (level self.old) class type_id.0 name values (log self.old)
            (log self.new) (lives self.old) (lives self.new) result }
        ensures sound { sound self.new }
        ensures level { level self.new ≡ level self.old }
        ensures asked { asked self.new ≤ asked self.old + 2 }
        ensures processor { processor self.new ≡ processor self.old }
        ensures behind { behind self.new ≡ behind self.old }
        ensures through { through self.new ≡ through self.old }
        ensures guarded { guarded self.new ≡ guarded self.old }
        ensures around { around self.new ≡ around self.old }
        ensures keeps { keeps self.old self.new };

    /// Asks for one more reference to an object that lives. It takes no memory but the recorder's. From `bpf_refcount_acquire_impl` of
    /// kernel/bpf/helpers.c.
    fn acquire(&mut self, object: ObjId)
        requires sound { sound self.old }
        requires room { asked self.old + 2 < 2 ^ 22 }
        requires living { (c : ℕ) × LivesAs (lives self.old) c object.unit object.life }
        requires counted { IsCounted (declared self.old).types
            (type_in (lives self.old object.unit)) }
        ensures acquired { Acquired (level self.old) object (log self.old) (log self.new)
            (lives self.old) (lives self.new) }
        ensures lists { lists self.new ≡ lists self.old }
        ensures sound { sound self.new }
        ensures level { level self.new ≡ level self.old }
        ensures asked { asked self.new ≤ asked self.old + 2 }
        ensures processor { processor self.new ≡ processor self.old }
        ensures behind { behind self.new ≡ behind self.old }
        ensures through { through self.new ≡ through self.old }
        ensures guarded { guarded self.new ≡ guarded self.old }
        ensures around { around self.new ≡ around self.old }
        ensures keeps { keeps self.old self.new };

    /// Reads a field of an object that lives, by its place. It takes no memory but the recorder's.
    fn read(&mut self, object: ObjId, place: u8)
        requires sound { sound self.old }
        requires room { asked self.old + 1 < 2 ^ 22 }
        requires living { (c : ℕ) × LivesAs (lives self.old) c object.unit object.life }
        requires there { is_some (slice_get (values_in (lives self.old object.unit)) place) ≡ true }
        ensures read { HasRead (level self.old) object place (log self.old) (log self.new)
            (lives self.old) }
        ensures lists { lists self.new ≡ lists self.old }
        ensures lives { lives self.new ≡ lives self.old }
        ensures sound { sound self.new }
        ensures level { level self.new ≡ level self.old }
        ensures asked { asked self.new ≤ asked self.old + 1 }
        ensures processor { processor self.new ≡ processor self.old }
        ensures behind { behind self.new ≡ behind self.old }
        ensures through { through self.new ≡ through self.old }
        ensures guarded { guarded self.new ≡ guarded self.old }
        ensures around { around self.new ≡ around self.old }
        ensures keeps { keeps self.old self.new };

    /// Gives up a reference to an object that lives. If others are left, be it in slots, the object stays. If it is the last one, the object's unit is
    /// freed, with delay where objects of its type are counted, else plainly. From `__bpf_obj_drop_impl` of kernel/bpf/helpers.c.
    fn dispose(&mut self, object: ObjId, counted: bool)
        requires sound { sound self.old }
        requires room { asked self.old + 1 < 2 ^ 22 }
        requires living { (c : ℕ) × LivesAs (lives self.old) c object.unit object.life }
        requires typed { HasType (declared self.old).types (type_in (lives self.old object.unit))
            counted }
        ensures disposed { (c : ℕ) → LivesAs (lives self.old) c object.unit object.life
            → LetGo (level self.old) counted c object (lists self.old) (log self.old) (log self.new)
            (lives self.old) (lives self.new) }
        ensures sound { sound self.new }
        ensures level { level self.new ≡ level self.old }
        ensures asked { asked self.new ≤ asked self.old + 1 }
        ensures processor { processor self.new ≡ processor self.old }
        ensures behind { behind self.new ≡ behind self.old }
        ensures through { through self.new ≡ through self.old }
        ensures guarded { guarded self.new ≡ guarded self.old }
        ensures around { around self.new ≡ around self.old }
        ensures keeps { keeps self.old self.new };

    /// Exchanges what a slot holds, by its number, with a reference or null: answers what was there. It takes no memory but the
    /// recorder's. From `bpf_kptr_xchg` of kernel/bpf/helpers.c.
    fn exchange(&mut self, slot: MapId, name: Name, put: Option<ObjId>) -> Option<ObjId>
        requires sound { sound self.old }
        requires room { asked self.old + 1 < 2 ^ 22 }
        requires slot { (m : MapDeclaration) × IsSlot (declared self.old).maps slot.0 m
            × (m.name ≡ name) × IsToPut m.type_id.0 (lives self.old) put }
        ensures exchanged { (m : MapDeclaration) → IsSlot (declared self.old).maps slot.0 m
            → Exchanged (level self.old) (declared self.old).types m.type_id.0 name put
            (log self.old) (log self.new) (lives self.old) (lives self.new) result }
        ensures lists { lists self.new ≡ lists self.old }
        ensures sound { sound self.new }
        ensures level { level self.new ≡ level self.old }
        ensures asked { asked self.new ≤ asked self.old + 1 }
        ensures processor { processor self.new ≡ processor self.old }
        ensures behind { behind self.new ≡ behind self.old }
        ensures through { through self.new ≡ through self.old }
        ensures guarded { guarded self.new ≡ guarded self.old }
        ensures around { around self.new ≡ around self.old }
        ensures keeps { keeps self.old self.new };

    /// Takes the lock of a list or tree, by its number: none is held. It takes no memory but the recorder's. It stands for `bpf_spin_lock` of
    /// kernel/bpf/helpers.c.
    fn lock(&mut self, graph: MapId, name: Name)
        requires sound { sound self.old }
        requires room { asked self.old + 1 < 2 ^ 22 }
        requires ground { level self.old ≡ 0 }
        requires free { (guarded self.old).lock ≡ None }
        requires graph { (b : Bool) × (m : MapDeclaration)
            × IsGraph (declared self.old).maps b graph.0 m × (m.name ≡ name) }
        ensures locked { Records (level self.old) (entry.Lock name ∷ [])
            (log self.old) (log self.new) }
        ensures guarded { guarded self.new ≡ with_guard (Some graph.0) (guarded self.old) }
        ensures lists { lists self.new ≡ lists self.old }
        ensures lives { lives self.new ≡ lives self.old }
        ensures sound { sound self.new }
        ensures level { level self.new ≡ level self.old }
        ensures asked { asked self.new ≤ asked self.old + 1 }
        ensures processor { processor self.new ≡ processor self.old }
        ensures behind { behind self.new ≡ behind self.old }
        ensures through { through self.new ≡ through self.old }
        ensures around { around self.new ≡ around self.old }
        ensures keeps { keeps self.old self.new };

    /// Gives back the lock of a list or tree, by its number: it is the one that is held. It takes no memory but the recorder's. It stands for
    /// `bpf_spin_unlock` of kernel/bpf/helpers.c.
    fn unlock(&mut self, graph: MapId, name: Name)
        requires sound { sound self.old }
        requires room { asked self.old + 1 < 2 ^ 22 }
        requires ground { level self.old ≡ 0 }
        requires held { (guarded self.old).lock ≡ Some graph.0 }
        requires graph { (b : Bool) × (m : MapDeclaration)
            × IsGraph (declared self.old).maps b graph.0 m × (m.name ≡ name) }
        ensures unlocked { Records (level self.old) (entry.Unlock name ∷ [])
            (log self.old) (log self.new) }
        ensures guarded { guarded self.new ≡ with_guard None (guarded self.old) }
        ensures lists { lists self.new ≡ lists self.old }
        ensures lives { lives self.new ≡ lives self.old }
        ensures sound { sound self.new }
        ensures level { level self.new ≡ level self.old }
        ensures asked { asked self.new ≤ asked self.old + 1 }
        ensures processor { processor self.new ≡ processor self.old }
        ensures behind { behind self.new ≡ behind self.old }
        ensures through { through self.new ≡ through self.old }
        ensures around { around self.new ≡ around self.old }
        ensures keeps { keeps self.old self.new };

    /// Puts a reference into the list or tree whose lock is held, by its number: answers whether it did. It doesn't where the object is in a list or
    /// tree already, and then nothing changes but that the call is recorded. Want of memory is the only refusal. From
    /// `bpf_list_push_front_impl`, `bpf_list_push_back_impl` and `bpf_rbtree_add_impl` of kernel/bpf/helpers.c.
    fn push(&mut self, graph: MapId, name: Name, way: Way, object: ObjId) -> Result<bool, NoMemory>
        requires sound { sound self.old }
        requires room { asked self.old + 1 < 2 ^ 22 }
        requires ground { level self.old ≡ 0 }
        requires held { (guarded self.old).lock ≡ Some graph.0 }
        requires graph { (m : MapDeclaration)
            × IsGraph (declared self.old).maps (is_for_tree way) graph.0 m
            × (m.name ≡ name) × IsToPut m.type_id.0 (lives self.old) (Some object) }
        requires keyed { way ≡ way_is.Ordered
            → 0 < length (values_in (lives self.old object.unit)) }
        ensures put_in { result ≡ Ok true → PutIn (level self.old) graph.0 name way object
            (log self.old) (log self.new) (lives self.old) (lives self.new)
            (guarded self.old) (guarded self.new) }
        ensures refused { result ≡ Ok false
            → Refused (level self.old) (declared self.old).types (declared self.old).maps
            name way object
            (log self.old) (log self.new) (lives self.old) (lives self.new)
            (guarded self.old) (guarded self.new) }
        ensures lists { OnOk result (lists self.new ≡ lists self.old) }
        ensures sound { OnOk result (sound self.new) }
        ensures level { OnOk result (level self.new ≡ level self.old) }
        ensures asked { OnOk result (asked self.new ≤ asked self.old + 1) }
        ensures processor { OnOk result (processor self.new ≡ processor self.old) }
        ensures behind { OnOk result (behind self.new ≡ behind self.old) }
        ensures through { through self.new ≡ through self.old }
        ensures around { OnOk result (around self.new ≡ around self.old) }
        ensures keeps { OnOk result (keeps self.old self.new) };

    /// Takes the object at an end of the list whose lock is held, by its number: answers what it took, and None where the list is empty. Want of
    /// memory is the only refusal. From `bpf_list_pop_front` and `bpf_list_pop_back` of kernel/bpf/helpers.c.
    fn pop(&mut self, graph: MapId, name: Name, end: End) -> Result<Option<ObjId>, NoMemory>
        requires sound { sound self.old }
        requires room { asked self.old + 1 < 2 ^ 22 }
        requires ground { level self.old ≡ 0 }
        requires held { (guarded self.old).lock ≡ Some graph.0 }
        requires graph { (m : MapDeclaration)
            × IsGraph (declared self.old).maps false graph.0 m × (m.name ≡ name) }
        ensures popped { IfOk result (λ was. (m : MapDeclaration)
            → IsGraph (declared self.old).maps false graph.0 m
            → Popped (level self.old) (declared self.old).types m.type_id.0 name end
            (log self.old) (log self.new) (lives self.old) (lives self.new)
            (guarded self.old) (guarded self.new) was) }
        ensures lists { OnOk result (lists self.new ≡ lists self.old) }
        ensures sound { OnOk result (sound self.new) }
        ensures level { OnOk result (level self.new ≡ level self.old) }
        ensures asked { OnOk result (asked self.new ≤ asked self.old + 1) }
        ensures processor { OnOk result (processor self.new ≡ processor self.old) }
        ensures behind { OnOk result (behind self.new ≡ behind self.old) }
        ensures through { through self.new ≡ through self.old }
        ensures around { OnOk result (around self.new ≡ around self.old) }
        ensures keeps { OnOk result (keeps self.old self.new) };

    /// Looks for the first object of the tree whose lock is held, by its number: None where the tree is empty. Want of memory is the only refusal.
    /// From `bpf_rbtree_first` of kernel/bpf/helpers.c.
    fn first(&mut self, graph: MapId, name: Name) -> Result<Option<ObjId>, NoMemory>
        requires sound { sound self.old }
        requires room { asked self.old + 1 < 2 ^ 22 }
        requires ground { level self.old ≡ 0 }
        requires held { (guarded self.old).lock ≡ Some graph.0 }
        requires graph { (m : MapDeclaration)
            × IsGraph (declared self.old).maps true graph.0 m × (m.name ≡ name) }
        ensures found { IfOk result (λ item. (m : MapDeclaration)
            → IsGraph (declared self.old).maps true graph.0 m
            → Found (level self.old) (declared self.old).types m.type_id.0 graph.0 name
            (log self.old) (log self.new) (guarded self.old) item) }
        ensures guarded { OnOk result (guarded self.new ≡ guarded self.old) }
        ensures lists { OnOk result (lists self.new ≡ lists self.old) }
        ensures lives { OnOk result (lives self.new ≡ lives self.old) }
        ensures sound { OnOk result (sound self.new) }
        ensures level { OnOk result (level self.new ≡ level self.old) }
        ensures asked { OnOk result (asked self.new ≤ asked self.old + 1) }
        ensures processor { OnOk result (processor self.new ≡ processor self.old) }
        ensures behind { OnOk result (behind self.new ≡ behind self.old) }
        ensures through { through self.new ≡ through self.old }
        ensures around { OnOk result (around self.new ≡ around self.old) }
        ensures keeps { OnOk result (keeps self.old self.new) };

    /// Takes an object that is in the tree whose lock is held out of it. Want of memory is the only refusal. From `bpf_rbtree_remove` of
    /// kernel/bpf/helpers.c.
    fn remove(&mut self, graph: MapId, name: Name, object: ObjId) -> Result<(), NoMemory>
        requires sound { sound self.old }
        requires room { asked self.old + 1 < 2 ^ 22 }
        requires ground { level self.old ≡ 0 }
        requires held { (guarded self.old).lock ≡ Some graph.0 }
        requires graph { (m : MapDeclaration)
            × IsGraph (declared self.old).maps true graph.0 m × (m.name ≡ name)
            × IsShelved (declared self.old).types m.type_id.0 graph.0 (guarded self.old)
            object.unit object.life }
        ensures removed { OnOk result ((m : MapDeclaration)
            → IsGraph (declared self.old).maps true graph.0 m
            → Removed (level self.old) (declared self.old).types m.type_id.0 name object
            (log self.old) (log self.new) (lives self.old) (lives self.new)
            (guarded self.old) (guarded self.new)) }
        ensures lists { OnOk result (lists self.new ≡ lists self.old) }
        ensures sound { OnOk result (sound self.new) }
        ensures level { OnOk result (level self.new ≡ level self.old) }
        ensures asked { OnOk result (asked self.new ≤ asked self.old + 1) }
        ensures processor { OnOk result (processor self.new ≡ processor self.old) }
        ensures behind { OnOk result (behind self.new ≡ behind self.old) }
        ensures through { through self.new ≡ through self.old }
        ensures around { OnOk result (around self.new ≡ around self.old) }
        ensures keeps { OnOk result (keeps self.old self.new) };

    /// Reads a field, by its place, of an object that is in a list or tree whose lock is held. It takes no memory but the recorder's.
    fn look(&mut self, object: ObjId, place: u8)
        requires sound { sound self.old }
        requires room { asked self.old + 1 < 2 ^ 22 }
        requires ground { level self.old ≡ 0 }
        requires shelved { (t graph : ℕ)
            × IsShelved (declared self.old).types t graph (guarded self.old) object.unit object.life
            × ((guarded self.old).lock ≡ Some graph) }
        requires there { is_some
            (slice_get (shelved_values ((guarded self.old).within object.unit)) place) ≡ true }
        ensures looked { HasLooked (level self.old) object place
            (log self.old) (log self.new) (guarded self.old) }
        ensures guarded { guarded self.new ≡ guarded self.old }
        ensures lists { lists self.new ≡ lists self.old }
        ensures lives { lives self.new ≡ lives self.old }
        ensures sound { sound self.new }
        ensures level { level self.new ≡ level self.old }
        ensures asked { asked self.new ≤ asked self.old + 1 }
        ensures processor { processor self.new ≡ processor self.old }
        ensures behind { behind self.new ≡ behind self.old }
        ensures through { through self.new ≡ through self.old }
        ensures around { around self.new ≡ around self.old }
        ensures keeps { keeps self.old self.new };

    /// Whether the code is in a plain section.
    fn is_inside(&self) -> bool
        ensures { result ≡ is_inside (around self.now) };

    /// Begins a plain section where the code is in none; else it does nothing. It takes no memory but the recorder's. It stands for
    /// rcu_read_lock of include/linux/rcupdate.h.
    fn enter(&mut self)
        requires sound { sound self.old }
        requires room { asked self.old + 2 < 2 ^ 22 }
        ensures entered { is_inside (around self.old) ≡ false
            → Entered (level self.old) (around self.old) (around self.new) (log self.old)
            (log self.new) }
        ensures inner { is_inside (around self.old) ≡ true
            → (around self.new ≡ around self.old) × (log self.new ≡ log self.old) }
        ensures lists { lists self.new ≡ lists self.old }
        ensures lives { lives self.new ≡ lives self.old }
        ensures sound { sound self.new }
        ensures level { level self.new ≡ level self.old }
        ensures asked { asked self.new ≤ asked self.old + 2 }
        ensures processor { processor self.new ≡ processor self.old }
        ensures behind { behind self.new ≡ behind self.old }
        ensures through { through self.new ≡ through self.old }
        ensures guarded { guarded self.new ≡ guarded self.old }
        ensures keeps { keeps self.old self.new };

    /// Ends the plain section that `enter` began; where it began none it does nothing. It takes no memory but the recorder's. It stands
    /// for rcu_read_unlock of include/linux/rcupdate.h.
    fn leave(&mut self)
        requires sound { sound self.old }
        requires room { asked self.old < 2 ^ 22 }
        ensures left { (w : ℕ) → (around self.old).begun ≡ Some w
            → HasLeft (level self.old) (around self.old) (around self.new) (log self.old)
            (log self.new) }
        ensures outer { (around self.old).begun ≡ None
            → (around self.new ≡ around self.old) × (log self.new ≡ log self.old) }
        ensures lists { lists self.new ≡ lists self.old }
        ensures lives { lives self.new ≡ lives self.old }
        ensures sound { sound self.new }
        ensures level { level self.new ≡ level self.old }
        ensures asked { asked self.new ≤ asked self.old }
        ensures processor { processor self.new ≡ processor self.old }
        ensures behind { behind self.new ≡ behind self.old }
        ensures through { through self.new ≡ through self.old }
        ensures guarded { guarded self.new ≡ guarded self.old }
        ensures keeps { keeps self.old self.new };

    /// Records that the code yields. It takes no memory but the recorder's.
    fn pause(&mut self)
        requires sound { sound self.old }
        ensures paused { Records (level self.old) (entry.Yield ∷ []) (log self.old) (log self.new) }
        ensures lists { lists self.new ≡ lists self.old }
        ensures lives { lives self.new ≡ lives self.old }
        ensures sound { sound self.new }
        ensures level { level self.new ≡ level self.old }
        ensures asked { asked self.new ≤ asked self.old }
        ensures processor { processor self.new ≡ processor self.old }
        ensures behind { behind self.new ≡ behind self.old }
        ensures through { through self.new ≡ through self.old }
        ensures guarded { guarded self.new ≡ guarded self.old }
        ensures around { around self.new ≡ around self.old }
        ensures keeps { keeps self.old self.new };

    /// Runs the deferred work that stands after a statement, if any runs: the work of the first of its classes whose flag is up,
    /// and again, until no flag is up. None of it yields. Want of memory is the only refusal, and where no work runs there is none. In
    /// kernel/bpf/memalloc.c the work runs behind the code that asked for it, by irq_work_raise.
    fn settle(&mut self) -> Result<(), NoMemory>
        requires sound { sound self.old }
        requires room { asked self.old + 1 < 2 ^ 22 }
        ensures settled { OnOk result
            (GrewBy (Behind (behind self.old)) (lists self.old) (log self.old) (log self.new)) }
        ensures down { OnOk result (Behind (behind self.old) (lists self.new) []) }
        ensures yields { OnOk result (Unyielding (level self.old) (log self.old) (log self.new)) }
        ensures sound { OnOk result (sound self.new) }
        ensures lives { OnOk result (lives self.new ≡ lives self.old) }
        ensures asked { OnOk result (asked self.new ≤ asked self.old + 1) }
        ensures level { OnOk result (level self.new ≡ level self.old) }
        ensures processor { OnOk result (processor self.new ≡ processor self.old) }
        ensures behind { OnOk result (behind self.new ≡ behind self.old) }
        ensures through { through self.new ≡ through self.old }
        ensures guarded { OnOk result (guarded self.new ≡ guarded self.old) }
        ensures around { OnOk result (around self.new ≡ around self.old) }
        ensures keeps { OnOk result (keeps self.old self.new) }
        ensures none { behind self.old ≡ None → IsOk result };

    /// A log that is told leaves these lists.
    ghost told: { (m : Self) → sound m → IfSome (log m) (λ es. Leaves (processor m) es (lists m)) };

    /// Where nothing is called all is kept.
    ghost keeps_same: { (m : Self) → keeps m m };

    /// What each of two calls keeps, both keep.
    ghost keeps_join: { (a b c : Self) → keeps a b → keeps b c → keeps a c };

    /// What its statements may name stays.
    ghost keeps_declared: { (a b : Self) → keeps a b → declared b ≡ declared a };
}
