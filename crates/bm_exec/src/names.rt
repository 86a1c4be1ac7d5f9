//! The names of a running script.

ghost use Rattle.std.specs.Prelude.{◌≡◌, ℕ, length, vec_len, slice_index_or, EachIndex};
ghost use Rattle.bm_exec.specs.Softened.{without_soft};
ghost use Rattle.bm_exec.specs.declared.holding.Holding.TheVariants.{Nothing};

use crate::holding::Holding;
use bm_word::NoMemory;
use indexmap::IndexSet;
use std::alloc::Global;

/// The names of running scripts, by their first bindings, and what each holds. A name that isn't there holds nothing. A name
/// stays there once it is, and takes no memory from then on.
#[derive(Drop)]
pub struct NameTable {
    pub names: IndexSet<Vec<u8>>,
    pub holdings: Vec<Holding>,
    ghost each_holding: { vec_len holdings ≡ length names.keys },
}

// What stands at a place. All that the list lacks is nothing.
fn holding_at(holdings: &[Holding], place: usize) -> Holding
    ensures { result ≡ slice_index_or holdings.now place Nothing }
{
    match holdings.get(place) {
        Some(holding) => *holding,
        None => Holding::Nothing,
    }
}

// Nothing stands at any place.
fn clear_all(holdings: &mut [Holding])
    ensures { EachIndex holdings.new (λ k. slice_index_or holdings.new k Nothing ≡ Nothing) }
{
    for holding in holdings.iter_mut() {
        *holding = Holding::Nothing;
    }
}

// Non-owning references end at each place.
fn end_each(holdings: &mut [Holding])
    ensures length { length holdings.new ≡ length holdings.old }
    ensures each { (k : ℕ) → slice_index_or holdings.new k Nothing
        ≡ without_soft (slice_index_or holdings.old k Nothing) }
{
    for holding in holdings.iter_mut() {
        *holding = holding.ended();
    }
}

impl NameTable {
    ghost use Rattle.std.specs.Prelude.{ℕ, List, true, IsOk, OnOk};
    ghost use Rattle.bm_law_scenario.specs.Held.{no_names, soft_ended, with_name};
    ghost use Rattle.bm_exec.specs.Seen.{held_of, names_of, has_name};

    /// A table without names.
    pub fn new(alloc: Global) -> NameTable
        ensures { names_of result ≡ no_names }
    {
        NameTable {
            names: IndexSet::new(alloc),
            holdings: Vec::new(alloc),
        }
    }

    /// What a name holds.
    pub fn holding(&self, name: &[u8]) -> Holding
        ensures { held_of result ≡ names_of self.now name.now }
    {
        match self.names.get_index_of(name) {
            Some(place) => holding_at(self.holdings.as_slice(), place),
            None => Holding::Nothing,
        }
    }

    /// Lets a name hold this. Want of memory is the only refusal, for a name that isn't there yet, and then nothing changes.
    pub fn put(&mut self, name: &[u8], holding: Holding) -> Result<(), NoMemory>
        ensures ok { OnOk result
            (names_of self.new ≡ with_name name.now (held_of holding) (names_of self.old)) }
        ensures known { has_name self.old name.now ≡ true → IsOk result }
        ensures same { has_name self.old name.now ≡ true
            → self.new.names.keys ≡ self.old.names.keys }
        ensures there { OnOk result (has_name self.new name.now ≡ true) }
        ensures names { OnOk result
            ((x : List ℕ) → has_name self.old x ≡ true → has_name self.new x ≡ true) }
    {
        match self.names.get_index_of(name) {
            Some(place) => {
                if place < self.holdings.len() {
                    self.holdings[place] = holding;
                }
            }
            None => {
                let word = name.to_vec(*self.holdings.allocator())?;
                self.holdings.push(holding)?;
                if let Err(_refused) = self.names.insert(word) {
                    let _taken_back = self.holdings.pop();
                    return Err(NoMemory);
                }
            }
        }
        Ok(())
    }

    /// Lets a name be there. It holds what it held. Want of memory is the only refusal, and then nothing changes.
    pub fn add(&mut self, name: &[u8]) -> Result<(), NoMemory>
        ensures there { OnOk result (has_name self.new name.now ≡ true) }
        ensures names { OnOk result
            ((x : List ℕ) → has_name self.old x ≡ true → has_name self.new x ≡ true) }
        ensures held { OnOk result (names_of self.new ≡ names_of self.old) }
    {
        if self.names.contains(name) {
            return Ok(());
        }
        self.put(name, Holding::Nothing)
    }

    /// Lets no name hold a non-owning reference. It takes no memory, and all names stay there.
    pub fn end_soft(&mut self)
        ensures names { names_of self.new ≡ soft_ended (names_of self.old) }
        ensures keys { self.new.names.keys ≡ self.old.names.keys }
    {
        end_each(self.holdings.as_mut_slice());
    }

    /// Lets no name hold anything. It takes no memory, and all names stay there.
    pub fn clear(&mut self)
        ensures names { names_of self.new ≡ no_names }
        ensures keys { self.new.names.keys ≡ self.old.names.keys }
    {
        clear_all(self.holdings.as_mut_slice());
    }
}
