//! The words and the number of one domain, of all processors.

ghost use Rattle.std.specs.Prelude.{◌≡◌, ◌≢◌, ◌⊎◌, ◌+◌, ◌*◌, ◌%◌, ◌^◌, ◌<◌, ◌≤◌, ◌==◌, IfSome, IfNone, Option, Some, None, Bool, true, [], length, slice_index, take};
ghost use Rattle.bm_grace.specs.PlainState.{idle, in_turn, is_processor, period_begun, period_ended, period_looked, word_moved};
ghost use Rattle.bm_grace.specs.Answers.{ArePassed, BeganAt, IsNamed, Verdict, Waiting};
ghost use Rattle.bm_grace.specs.Calls.{found_at};
ghost use Rattle.bm_grace.specs.Kept.{parity};

use crate::answer::{Began, Look};
use arrayvec::ArrayVec;
use bm_journal::{Domain, Period, Words};
use std::marker::Model;
use std::mem;

/// How many periods of a domain each processor may begin.
const BEGINS: u32 = 134217728;

/// One domain: its number, the section word of each processor and how many periods it may still begin, and the words of
/// the period in progress, which stand where they are and take no memory.
#[derive(Drop)]
pub struct OneDomain {
    words: [u32; 8],
    begins: [u32; 8],
    number: u32,
    driver: Option<u8>,
    first: Words,
    later: Words,
}

impl Model for OneDomain {
    ghost use Rattle.bm_grace.specs.PlainState.{DomainState};
    ghost use Rattle.bm_grace.specs.Kept.{IsDomain};

    ghost Value = { DomainState };

    ghost view = { λ d. record {
      words = d.words;
      begins = d.begins;
      number = d.number;
      driver = d.driver;
      first = d.first;
      later = d.later;
    } };

    ghost invariant = { λ d. IsDomain d.words d.begins d.number d.driver };
}

/// A list without words.
fn no_words() -> Words
    ensures { result ≡ [] }
{
    match Words::new(&[]) {
        Some(words) => words,
        None => unreachable!(),
    }
}

impl OneDomain {
    /// A domain of which nobody has done anything.
    pub fn new() -> OneDomain
        ensures { result ≡ idle }
    {
        OneDomain {
            words: [0; 8],
            begins: [BEGINS; 8],
            number: 0,
            driver: None,
            first: no_words(),
            later: no_words(),
        }
    }

    /// The section words of the eight processors.
    pub fn words(&self) -> &[u32]
        ensures words { result.now ≡ self.now.words }
        ensures count { length result.now ≡ 8 }
    {
        &self.words
    }

    /// The number.
    pub fn number(&self) -> u32
        ensures is { result ≡ self.now.number }
        ensures limit { result ≤ 2 ^ 31 }
    {
        self.number
    }

    /// The number is odd exactly where a period is in progress.
    pub fn parity_agrees(&self)
        ensures { self.now.number % 2 ≡ parity self.now.driver }
    {
        let _ = &self.number;
    }

    /// Makes the section word of a processor one greater.
    pub fn move_word(&mut self, processor: u8) -> u32
        requires there { processor < 8 }
        requires room { slice_index self.old.words processor ≢ 2 ^ 28 }
        ensures word { result ≡ slice_index self.old.words processor + 1 }
        ensures state { self.new ≡ word_moved processor self.old }
        ensures count { length self.old.words ≡ 8 }
    {
        let word = self.words[processor as usize] + 1;
        self.words[processor as usize] = word;
        word
    }

    /// Begins a period where the number is the even one that is named.
    pub fn begin(&mut self, processor: u8, even: u32) -> Began
        requires there { processor < 8 }
        requires even { even % 2 ≡ 0 }
        requires room { 0 < slice_index self.old.begins processor }
        ensures answer { BeganAt result even }
        ensures found { found_at even result ≡ self.old.number }
        ensures state { self.new ≡ period_begun processor result self.old }
    {
        if self.number != even {
            return Began::Moved(self.number);
        }
        self.number += 1;
        self.begins[processor as usize] -= 1;
        self.driver = Some(processor);
        self.first = no_words();
        self.later = no_words();
        Began::Won
    }

    /// Takes the words that the period in progress found.
    pub fn look(&mut self, domain: Domain, words: Words) -> Look
        requires alike { (self.old.first ≡ []) ⊎ (length self.old.first ≡ length words) }
        requires few { length words ≤ 16 }
        ensures answer { Verdict result domain self.new.first words }
        ensures state { self.new ≡ period_looked words self.old }
    {
        if self.first.as_slice().is_empty() {
            self.first = words.duplicate();
        }
        self.later = words;
        match waiting(self.first.as_slice(), self.later.as_slice()) {
            Some(place) => waits_for(domain, place, self.later.as_slice()[place]),
            None => Look::All,
        }
    }

    /// Ends the period in progress.
    pub fn finish(&mut self, domain: Domain) -> Period
        requires driving { self.old.number % 2 ≡ 1 }
        ensures period { result
            ≡ record {
              domain = domain;
              number = self.old.number + 1;
              first = self.old.first;
              later = self.old.later;
            } }
        ensures state { self.new ≡ period_ended self.old }
    {
        self.number += 1;
        self.driver = None;
        Period {
            domain,
            number: self.number,
            first: mem::replace(&mut self.first, no_words()),
            later: mem::replace(&mut self.later, no_words()),
        }
    }

    /// Whether a processor has the period in progress.
    pub fn is_driven_by(&self, processor: u8) -> bool
        ensures is { result ≡ is_processor processor self.now.driver }
        ensures odd { result ≡ true → self.now.number % 2 ≡ 1 }
    {
        match self.driver {
            Some(other) => other == processor,
            None => false,
        }
    }
}

/// Names the word that a look waits for, by its place in the period's order.
fn waits_for(domain: Domain, place: usize, word: u32) -> Look
    requires { place < 16 }
    ensures { IsNamed result domain place word }
{
    let processor = match domain {
        Domain::Plain => place,
        Domain::Tracing => place / 2,
    };
    Look::Waits(processor as u8, word)
}

/// The first word that doesn't pass.
fn waiting(first: &[u32], later: &[u32]) -> Option<usize>
    requires { length first.now ≡ length later.now }
    ensures none { IfNone result (ArePassed (length later.now) first.now later.now) }
    ensures some { IfSome result (λ i. Waiting i first.now later.now) }
{
    for i in 0..later.len() {
        if first[i] % 2 != 0 && later[i] <= first[i] {
            return Some(i);
        }
    }
    None
}

/// The first words of two lists, as many of each, in turn.
pub fn words_in_turn(plain: &[u32], tracing: &[u32], count: u8) -> Words
    requires few { count ≤ 8 }
    requires plain { count ≤ length plain.now }
    requires tracing { count ≤ length tracing.now }
    ensures words { result ≡ in_turn (take count plain.now) (take count tracing.now) }
    ensures length { length result ≡ 2 * count }
{
    let mut words: ArrayVec<u32, 16> = ArrayVec::new();
    for i in 0..count as usize {
        words.push(plain[i]);
        words.push(tracing[i]);
    }
    match Words::new(words.as_slice()) {
        Some(words) => words,
        None => unreachable!(),
    }
}

/// The first words of a list.
pub fn first_words(plain: &[u32], count: u8) -> Words
    requires few { count ≤ 8 }
    requires there { count ≤ length plain.now }
    ensures words { result ≡ take count plain.now }
    ensures length { length result ≡ count }
{
    match Words::new(&plain[..count as usize]) {
        Some(words) => words,
        None => unreachable!(),
    }
}
