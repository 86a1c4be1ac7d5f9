//! The names of the maps while a journal is read.

ghost use Rattle.std.specs.Prelude.{◌≡◌, [], IfOk, map};
ghost use Rattle.bm_law_text.specs.Reading.{owner_place};
ghost use Rattle.bm_journal_reader.specs.Owning.{Puts};

use bm_word::NoMemory;
use indexmap::IndexSet;
use std::alloc::Global;
use std::marker::Model;

/// Names that differ, in their order. Contracts see the list of their bytes. Whether a name is among them, and where, is
/// told in the same time however many they are.
#[derive(Drop)]
pub struct Owners {
    names: IndexSet<Vec<u8>>,
}

impl Model for Owners {
    ghost use Rattle.std.specs.Prelude.{ℕ, List, map};

    ghost Value = { List (List ℕ) };

    ghost view = { λ owners. map (λ v. v.items) owners.names.keys };
}

impl Owners {
    /// No names.
    pub fn new(alloc: Global) -> Owners
        ensures { result ≡ [] }
    {
        Owners {
            names: IndexSet::new(alloc),
        }
    }

    /// The place of a name, where a byte can say it.
    pub fn place(&self, name: &[u8]) -> Option<u8>
        ensures { result ≡ owner_place self.now name.now }
    {
        place_of(&self.names, name)
    }

    /// Puts a name at the end, and answers whether it differs from the others. Where it doesn't they stay as they are.
    pub fn put(&mut self, alloc: Global, name: &[u8]) -> Result<bool, NoMemory>
        ensures { IfOk result (λ differs. Puts differs self.old name.now self.new) }
    {
        let owned = Vec::from_slice(alloc, name)?;
        put_name(&mut self.names, owned)
    }
}

#[tactic(auto, using(crate::proofs::OwnersPut::owner_texts))]
fn place_of(names: &IndexSet<Vec<u8>>, name: &[u8]) -> Option<u8>
    ensures { result ≡ owner_place (map (λ v. v.items) names.now.keys) name.now }
{
    u8::try_from(names.get_index_of(name)?).ok()
}

fn put_name(names: &mut IndexSet<Vec<u8>>, name: Vec<u8>) -> Result<bool, NoMemory>
    ensures { IfOk result
        (λ differs. Puts differs (map (λ v. v.items) names.old.keys) name.items
        (map (λ v. v.items) names.new.keys)) }
{
    let differs = names.insert(name)?;
    Ok(differs)
}
