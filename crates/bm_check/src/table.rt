//! The checker's table of names.

ghost use Rattle.std.specs.Prelude.{◌≡◌, length, vec_len, slice_index_or};
ghost use Rattle.std.specs.List.{IsDistinct, IsDistinct-prop};
ghost use Rattle.std.specs.Str.{bytes_eq};
ghost use Rattle.bm_check.specs.declared.name_state.NameState.TheVariants.{Unbound};

use crate::name_state::NameState;
use crate::stop::Stop;
use indexmap::IndexSet;
use std::alloc::Global;

/// The names that a script has bound so far, by their first bindings, and the state of each. A name that isn't there is
/// unbound.
#[derive(Drop)]
pub struct NameTable<'a> {
    pub names: IndexSet<&'a [u8]>,
    pub states: Vec<NameState>,
    ghost each_state: { vec_len states ≡ length names.keys },
    ghost distinct: { IsDistinct (λ x y. bytes_eq x.now y.now) names.keys } by { IsDistinct-prop (λ x y. bytes_eq x.now y.now) names.keys },
}

// The state at a place. All that the list lacks is unbound.
fn state_at(states: &[NameState], place: usize) -> NameState
    ensures { result ≡ slice_index_or states.now place Unbound }
{
    match states.get(place) {
        Some(state) => *state,
        None => NameState::Unbound,
    }
}

impl<'a> NameTable<'a> {
    ghost use Rattle.std.specs.Prelude.{OnOk, OnErr, IfErr};
    ghost use Rattle.bm_check.specs.Tables.{names_of};
    ghost use Rattle.bm_check.specs.Names as spec;
    ghost use Rattle.bm_check.specs.declared.stop.Stop.TheVariants.{NoMemory};

    /// A table without names.
    pub fn new(alloc: Global) -> NameTable<'a>
        ensures { names_of result ≡ spec.no_names }
    {
        NameTable {
            names: IndexSet::new(alloc),
            states: Vec::new(alloc),
        }
    }

    /// The state of a name.
    pub fn state(&self, name: &[u8]) -> NameState
        ensures { result ≡ (names_of self.now).state name.now }
    {
        match self.names.get_index_of(name) {
            Some(place) => state_at(self.states.as_slice(), place),
            None => NameState::Unbound,
        }
    }

    /// Gives a name a state. Out of memory is the only refusal, and then all stays the same.
    pub fn put(&mut self, name: &'a [u8], state: NameState) -> Result<(), Stop>
        ensures ok { OnOk result (names_of self.new ≡ spec.put (names_of self.old) name.now state) }
        ensures same { OnErr result (names_of self.new ≡ names_of self.old) }
        ensures err { IfErr result (λ stop. stop ≡ NoMemory) }
    {
        match self.names.get_index_of(name) {
            Some(place) => self.states[place] = state,
            None => {
                self.states.push(state)?;
                if let Err(refused) = self.names.insert(name) {
                    let _taken_back = self.states.pop();
                    return Err(Stop::from(refused));
                }
            }
        }
        Ok(())
    }

    /// Whether some name owns.
    pub fn owns_some(&self) -> bool
        ensures { result ≡ spec.owns_some (names_of self.now) }
    {
        for state in &self.states {
            if state.owns() {
                return true;
            }
        }
        false
    }
}
