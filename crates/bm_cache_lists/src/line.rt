//! The lists and numbers of one class, by the units' numbers.

ghost use Rattle.std.specs.Prelude.{◌≡◌, ◌≢◌, ◌<◌, ◌++◌, ◌∷◌, ℕ, List, [], length, drop, reverse, IfOk, IfSome, MatchOption};
ghost use Rattle.bm_law.specs.Stands.{in_row};
ghost use Rattle.bm_law.specs.State.{empty_row};
ghost use Rattle.bm_cache_lists.specs.Stacks.{head_of};

use crate::links::Links;
use bm_journal::Stack;
use bm_word::NoMemory;
use std::alloc::Global;
use std::marker::Model;

/// The spare head, which is empty between two calls: a list is turned over by it.
const SPARE: usize = 7;

/// What a class has beside its lists.
#[derive(Clone, Copy)]
pub struct Numbers {
    /// How many calls are between their entry and their exit (`active`).
    pub active: u32,
    /// The free count (`free_cnt`).
    pub count: u32,
    /// Whether deferred work is asked for (the pending mark of `refill_work`).
    pub raised: bool,
    /// The processor that parcels go to, 0 to 7 (`tgt`).
    pub target: u8,
    /// The stamp of the plain batch in progress, 0 before it has one (`call_rcu_in_progress`).
    pub plain: Option<u32>,
    /// The stamp of the tracing batch in progress (`call_rcu_ttrace_in_progress`).
    pub tracing: Option<u32>,
}

/// The place of a list among the heads.
fn head_index(stack: Stack) -> usize
    ensures { result ≡ head_of stack }
{
    match stack {
        Stack::Free => 0,
        Stack::Extra => 1,
        Stack::Delayed => 2,
        Stack::ExtraDelayed => 3,
        Stack::First => 4,
        Stack::Ready => 5,
        Stack::Second => 6,
    }
}

/// The seven lists of one class, by the units' numbers, and its `Numbers`. Contracts see a row of the state.
#[derive(Drop)]
pub struct Line {
    links: Links,
    plain: Option<u32>,
    tracing: Option<u32>,
    active: u32,
    count: u32,
    raised: bool,
    target: u8,
}

impl Model for Line {
    ghost use Rattle.std.specs.Prelude.{◌≡◌, ℕ, [], length, get_or};
    ghost use Rattle.bm_law.specs.State.{Row};
    ghost use Rattle.bm_cache_lists.specs.Stacks.{row_of};

    ghost Value = { Row ℕ };

    ghost view = { λ l. row_of l.links l.active l.count l.raised l.target l.plain l.tracing };

    ghost invariant = { λ l. (length l.links ≡ 8) × (get_or l.links 7 [] ≡ []) };
}

impl Line {
    ghost use Rattle.bm_law.specs.Places.{list_at};
    ghost use Rattle.bm_cache_lists.specs.Chain.{IsTop};
    ghost use Rattle.bm_cache_lists.specs.Stacks.{on_list, moved_onto};
    ghost use Rattle.bm_cache_lists.specs.Numbers.{numbers_in, with_numbers};

    /// A class without units, whose parcels go to `target`. All its memory is taken here. The refusal is out of memory.
    pub fn new(alloc: Global, target: u8) -> Result<Line, NoMemory>
        ensures { IfOk result (λ line. line ≡ empty_row target) }
    {
        Ok(Line {
            links: Links::new(alloc)?,
            plain: None,
            tracing: None,
            active: 0,
            count: 0,
            raised: false,
            target,
        })
    }

    /// The length of a list.
    pub fn len(&self, stack: Stack) -> u32
        ensures { result ≡ length (list_at stack self.now) }
    {
        self.links.len(head_index(stack))
    }

    /// The numbers of the class.
    pub fn numbers(&self) -> Numbers
        ensures { result ≡ numbers_in self.now }
    {
        Numbers {
            active: self.active,
            count: self.count,
            raised: self.raised,
            target: self.target,
            plain: self.plain,
            tracing: self.tracing,
        }
    }

    /// The class has these numbers from now on.
    pub fn set_numbers(&mut self, numbers: Numbers)
        ensures { self.new ≡ with_numbers numbers self.old }
    {
        self.active = numbers.active;
        self.count = numbers.count;
        self.raised = numbers.raised;
        self.target = numbers.target;
        self.plain = numbers.plain;
        self.tracing = numbers.tracing;
    }

    /// A number that stands nowhere goes on a list.
    pub fn push(&mut self, stack: Stack, number: u16)
        requires { in_row number self.old ≡ 0 }
        ensures { self.new ≡ on_list stack (λ xs. number ∷ xs) self.old }
    {
        self.links.push(head_index(stack), number);
    }

    /// The top of a list leaves, and stands nowhere afterwards. None exactly where the list is empty.
    pub fn pop(&mut self, stack: Stack) -> Option<u16>
        ensures number { IsTop result (list_at stack self.old) }
        ensures gone { IfSome result (λ n. in_row n self.new ≡ 0) }
        ensures row { self.new ≡ on_list stack (λ xs. drop 1 xs) self.old }
    {
        self.links.pop(head_index(stack))
    }

    /// All of a list goes on another one by one, from its top, so that its last one ends on top.
    pub fn pour(&mut self, from: Stack, to: Stack)
        requires { from ≢ to }
        ensures { self.new ≡ moved_onto from to reverse self.old }
    {
        self.links.pour(head_index(from), head_index(to));
    }

    /// A list is turned over: its last one ends on top.
    pub fn turn_over(&mut self, stack: Stack)
        ensures { self.new ≡ on_list stack reverse self.old }
    {
        let list = head_index(stack);
        self.links.pour(list, SPARE);
        self.links.hand_on(SPARE, list);
    }

    /// All of a list goes on another, in its order: at once where that one is empty, else by the spare head.
    pub fn put_above(&mut self, from: Stack, to: Stack)
        requires { from ≢ to }
        ensures { self.new ≡ moved_onto from to (λ xs. xs) self.old }
    {
        let list = head_index(from);
        let below = head_index(to);
        if self.links.len(below) == 0 {
            self.links.hand_on(list, below);
        } else {
            self.links.pour(list, SPARE);
            self.links.pour(SPARE, below);
        }
    }

    /// The numbers of a list, from its top. The refusal is out of memory.
    pub fn listed(&self, alloc: Global, stack: Stack) -> Result<Vec<u16>, NoMemory>
        ensures { IfOk result (λ numbers. numbers.items ≡ list_at stack self.now) }
    {
        self.links.listed(alloc, head_index(stack))
    }
}
