//! Eight lists of numbers below 65,536 in one row of links. (`struct llist_node` of the kernel, with an index for a
//! pointer.)

ghost use Rattle.std.specs.Prelude.{◌≡◌, ◌≢◌, ◌<◌, ◌≤◌, ◌++◌, ◌∷◌, ℕ, List, [], length, drop, reverse, set, get_or, replicate, vec_capacity, IfOk, IfSome, MatchOption};
ghost use Rattle.bm_law.specs.Stands.{times};
ghost use Rattle.bm_cache_lists.specs.Chain.{IsLonger};

use bm_word::NoMemory;
use std::alloc::Global;
use std::marker::Model;

/// The link that stands for the end of a list: no unit has this number.
const END: u32 = 65_536;

/// The first number of a list, or the end, and how many numbers there are.
#[derive(Clone, Copy)]
struct Head {
    first: u32,
    length: u32,
}

/// A row of links that has room for all numbers has one for this number from now on. Those that it had stay, and those that
/// are added are of no list.
fn reach(next: &mut Vec<u32>, number: u16)
    requires room { 65536 ≤ vec_capacity next.old }
    requires short { length next.old.items ≤ 65536 }
    ensures room { 65536 ≤ vec_capacity next.new }
    ensures short { length next.new.items ≤ 65536 }
    ensures number { number < length next.new.items }
    ensures longer { IsLonger 0 next.old.items next.new.items }
{
    while next.len() <= number as usize {
        if let Err(_refused) = next.push(0) {
            unreachable!();
        }
    }
}

/// Eight lists of numbers below 65,536, none of which stands twice: a link for each number, to the number below it.
/// Contracts see the lists, each with its top first.
#[derive(Drop)]
pub struct Links {
    next: Vec<u32>,
    heads: [Head; 8],
}

impl Model for Links {
    ghost use Rattle.std.specs.Prelude.{◌≤◌, ℕ, List, vec_capacity};
    ghost use Rattle.std.specs.Coded.{coded_list, coded_ℕ};

    ghost Value = { List (List ℕ) };

    ghost coded = { coded_list (coded_list coded_ℕ) };

    ghost use Rattle.bm_cache_lists.specs.Chain.{Linked, chains};

    ghost view = { λ s. chains s.next.items s.heads };

    ghost invariant = { λ s. Linked s.next.items s.heads × (65536 ≤ vec_capacity s.next) };
}

impl Links {
    ghost use Rattle.bm_cache_lists.specs.Chain.{joined, emptied, IsTop};

    /// Empty lists. All their memory is taken here, in one request. The refusal is out of memory.
    pub fn new(alloc: Global) -> Result<Links, NoMemory>
        ensures { IfOk result (λ lists. lists ≡ replicate 8 []) }
    {
        let head = Head {
            first: END,
            length: 0,
        };
        Ok(Links {
            next: Vec::with_capacity(alloc, 65_536)?,
            heads: [head; 8],
        })
    }

    /// The length of a list, at no cost of a walk.
    pub fn len(&self, list: usize) -> u32
        requires { list < 8 }
        ensures { result ≡ length (get_or self.now list []) }
    {
        self.heads[list].length
    }

    /// A number that stands nowhere goes on top of a list.
    pub fn push(&mut self, list: usize, number: u16)
        requires list { list < 8 }
        requires fresh { times number (joined self.old) ≡ 0 }
        ensures { self.new ≡ set self.old list (number ∷ get_or self.old list []) }
    {
        let head = self.heads[list];
        reach(&mut self.next, number);
        self.next[number as usize] = head.first;
        self.heads[list] = Head {
            first: number as u32,
            length: head.length + 1,
        };
    }

    /// The top of a list leaves, and stands in none afterwards. None exactly where the list is empty.
    pub fn pop(&mut self, list: usize) -> Option<u16>
        requires { list < 8 }
        ensures number { IsTop result (get_or self.old list []) }
        ensures gone { IfSome result (λ n. times n (joined self.new) ≡ 0) }
        ensures lists { self.new ≡ set self.old list (drop 1 (get_or self.old list [])) }
    {
        let head = self.heads[list];
        if head.length == 0 {
            return None;
        }
        let number = head.first as u16;
        self.heads[list] = Head {
            first: self.next[number as usize],
            length: head.length - 1,
        };
        Some(number)
    }

    /// All of a list goes on one that is empty, in its order: a head is copied, and no link is touched.
    pub fn hand_on(&mut self, from: usize, to: usize)
        requires from { from < 8 }
        requires to { to < 8 }
        requires empty { get_or self.old to [] ≡ [] }
        ensures { self.new ≡ emptied from to (λ xs. xs) self.old }
    {
        self.heads[to] = self.heads[from];
        self.heads[from] = Head {
            first: END,
            length: 0,
        };
    }

    /// All numbers of a list go on another one by one, from its top, so that its last one ends on top.
    pub fn pour(&mut self, from: usize, to: usize)
        requires from { from < 8 }
        requires to { to < 8 }
        requires two { from ≢ to }
        ensures { self.new ≡ emptied from to (λ xs. reverse xs ++ get_or self.old to []) self.old }
    {
        // For the prover: the value opened, which tells that there are eight lists.
        let _heads = &self.heads;
        while let Some(number) = self.pop(from) {
            self.push(to, number);
        }
    }

    /// The numbers of a list, from its top, in one request for memory. The refusal is out of memory.
    pub fn listed(&self, alloc: Global, list: usize) -> Result<Vec<u16>, NoMemory>
        requires { list < 8 }
        ensures { IfOk result (λ numbers. numbers.items ≡ get_or self.now list []) }
    {
        let head = self.heads[list];
        let mut numbers = Vec::with_capacity(alloc, head.length as usize)?;
        let mut at = head.first;
        for _place in 0..head.length {
            numbers.push(at as u16)?;
            at = self.next[at as usize];
        }
        Ok(numbers)
    }
}
