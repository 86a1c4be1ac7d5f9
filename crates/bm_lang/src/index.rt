//! Names in the order of their declaration, found without a search.

ghost use Rattle.std.specs.Prelude.{◌≡◌, None, position, List, [], ◌∷◌, ◌++◌, OnOk};
ghost use Rattle.std.specs.Str.{bytes_eq};

use indexmap::IndexSet;
use std::alloc::{AllocError, Global};
use std::marker::Model;

/// Names, none of them twice, in the order in which they were put. Contracts see the list of their bytes. Whether a
/// name is among them, and where, is told in the same time however many they are.
#[derive(Debug, Drop)]
pub struct Index {
    names: IndexSet<Vec<u8>>,
}

impl Model for Index {
    ghost use Rattle.std.specs.Prelude.{ℕ, List, map};

    ghost Value = { List (List ℕ) };

    ghost view = { λ index. map (λ v. v.items) index.names.keys };
}

impl Index {
    /// No names.
    pub fn new(alloc: Global) -> Index
        ensures { result ≡ [] }
    {
        Index {
            names: IndexSet::new(alloc),
        }
    }

    /// The place of a name among them.
    pub fn place(&self, name: &[u8]) -> Option<usize>
        ensures { result ≡ position (λ n. bytes_eq n name.now) self.now }
    {
        key_place(&self.names, name)
    }

    /// One more name, which isn't among them yet.
    pub fn put(&mut self, alloc: Global, name: &[u8]) -> Result<(), AllocError>
        requires { position (λ n. bytes_eq n name.now) self.old ≡ None }
        ensures { OnOk result (self.new ≡ self.old ++ name.now ∷ []) }
    {
        let owned = Vec::from_slice(alloc, name)?;
        put_key(&mut self.names, owned)
    }
}

// The place of a key with these bytes.
fn key_place(keys: &IndexSet<Vec<u8>>, name: &[u8]) -> Option<usize>
    ensures { result ≡ position (λ v. bytes_eq v.items name.now) keys.now.keys }
{
    keys.get_index_of(name)
}

// One more key at the end.
fn put_key(keys: &mut IndexSet<Vec<u8>>, owned: Vec<u8>) -> Result<(), AllocError>
    requires { position (λ v. bytes_eq v.items owned.items) keys.old.keys ≡ None }
    ensures { OnOk result (keys.new.keys ≡ keys.old.keys ++ owned ∷ []) }
{
    keys.insert_full(owned)?;
    Ok(())
}
