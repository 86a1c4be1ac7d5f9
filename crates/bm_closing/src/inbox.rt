//! The parcels of an inbox.

ghost use Rattle.std.specs.Prelude.{◌≡◌, ◌≤◌, ◌++◌, [], ℕ, List, OnOk, length, map, vec_capacity, vec_len};
ghost use Rattle.std.specs.List.{flat_map};
ghost use Rattle.bm_grace.specs.Rest.{StaysAtRest};
ghost use Rattle.bm_post.specs.Rights.{Lasting, numbers};
ghost use Rattle.bm_cache.specs.Tokens.{number_of};
ghost use Rattle.bm_closing.specs.Arrived.{Arrived, Came};
ghost use Rattle.bm_closing.specs.Told.{ReceivesAll};

use bm_class::Class;
use bm_grace::Knows;
use bm_page::Unit;
use bm_post::Post;
use bm_word::NoMemory;

/// Ends units.
pub(crate) fn give_up_units(units: Vec<Unit>) {
    let mut units = units;
    while let Some(unit) = units.pop() {
        unit.give_up();
    }
    units.destroy_empty();
}

/// Ends the units of parcels.
pub(crate) fn give_up_parcels(parcels: Vec<Vec<Unit>>) {
    let mut parcels = parcels;
    while let Some(units) = parcels.pop() {
        give_up_units(units);
    }
    parcels.destroy_empty();
}

/// Takes all parcels out of this processor's inbox of a class, behind those that came before. Each holds a unit, so that there
/// are at least as many units as parcels. Want of memory is the only refusal.
pub(crate) fn receive_all<P: Post>(
    post: &mut P,
    class: Class,
    parcels: &mut Vec<Vec<Unit>>,
) -> Result<(), NoMemory>
    requires arrived { Arrived class (P.Knows.rights post.old)
        (flat_map (λ p. p.items) parcels.old.items) }
    requires some { length parcels.old.items ≤ length (flat_map (λ p. p.items) parcels.old.items) }
    ensures some { OnOk result
        (length parcels.new.items ≤ length (flat_map (λ p. p.items) parcels.new.items)) }
    ensures arrived { OnOk result
        (Arrived class (P.Knows.rights post.new) (flat_map (λ p. p.items) parcels.new.items)) }
    ensures came { OnOk result
        (Came class (flat_map (λ p. p.items) parcels.old.items)
        (flat_map (λ p. p.items) parcels.new.items) (P.Knows.rights post.old)
        (P.Knows.rights post.new) (P.Knows.known post.old) (P.Knows.known post.new)) }
    ensures lasts { OnOk result (Lasting [] (P.Knows.rights post.old) (P.Knows.rights post.new)) }
    ensures rest { OnOk result (StaysAtRest P.Knows.rest post.old post.new) }
    ensures does { OnOk result
        (ReceivesAll P.Knows.does class (map (λ p. numbers p.items) parcels.old.items)
        (map (λ p. numbers p.items) parcels.new.items) post.old post.new) }
{
    while let Some(units) = post.receive(class) {
        if let Err(refused) = parcels.push(units) {
            give_up_units(refused.value);
            return Err(NoMemory);
        }
    }
    Ok(())
}

/// The numbers of units, into a list that is empty and has room for them.
pub(crate) fn write_numbers(numbers: &mut Vec<u16>, units: &Vec<Unit>)
    requires empty { vec_len numbers.old ≡ 0 }
    requires room { length units.now.items ≤ vec_capacity numbers.old }
    ensures { numbers.new.items ≡ map number_of units.now.items }
{
    for unit in units {
        if let Err(_refused) = numbers.push(unit.number()) {
            unreachable!();
        }
    }
}
