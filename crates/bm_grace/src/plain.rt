//! Grace periods for one thread and all processors.

ghost use Rattle.std.specs.Prelude.{◌≡◌, ◌≢◌, ◌⊎◌, ◌+◌, ◌*◌, ◌%◌, ◌^◌, ◌<◌, ◌≤◌, ℕ, Bool, true, false, [], length, slice_index};
ghost use Rattle.bm_grace.specs.Known.{side};
ghost use Rattle.bm_grace.specs.Calls.{began, entered, finished, found_at, left, looked, looks, read};
ghost use Rattle.bm_grace.specs.Rights.{no_rights};
ghost use Rattle.bm_grace.specs.Answers.{Answers, BeganAt, CanFinish, Stamped, Verdict, ended, next, number_in};
ghost use Rattle.bm_grace.specs.AtRest.{AreEven, IsAtRest, IsDriven, IsSole, idle-at-rest};
ghost use Rattle.bm_journal.specs.declared.ids.Domain.{Domain as DomainValue};
ghost use Rattle.bm_grace.specs.Rest.{MovesNumber, StaysAtRest};
ghost use Rattle.bm_grace.specs.declared.answer.Began.TheVariants.{Won};
ghost use Rattle.bm_grace.specs.declared.answer.Look.TheVariants.{All};
ghost use Rattle.bm_grace.specs.PlainState.{domain_in, idle, is_processor, known_in, period_begun, period_ended, period_looked, side_in, with_domain, word_moved, words_in};

use crate::answer::{Began, Done, Look};
use crate::domain::{OneDomain, first_words, words_in_turn};
use crate::grace::{Grace, Knows};
use bm_journal::{Domain, Period, Words};
use std::marker::Model;

/// The words and numbers of both domains for all processors, on one thread. It is one processor's side at a time, which
/// `turn` chooses. Nothing of it takes memory. Contracts see all words, numbers and periods.
#[derive(Drop)]
pub struct PlainGrace {
    processors: u8,
    processor: u8,
    plain: OneDomain,
    tracing: OneDomain,
}

impl Model for PlainGrace {
    ghost use Rattle.bm_grace.specs.PlainState.{PlainState};
    ghost use Rattle.bm_grace.specs.Kept.{IsPlain};

    ghost Value = { PlainState };

    ghost view = { λ g. record {
      processors = g.processors;
      processor = g.processor;
      plain = g.plain;
      tracing = g.tracing;
    } };

    ghost invariant = { λ g. IsPlain g.processors g.processor g.plain g.tracing };
}

impl PlainGrace {
    /// Both domains of so many processors, 1 to 8, none of which has done anything. It is the side of processor 0.
    pub fn new(processors: u8) -> PlainGrace
        requires some { 0 < processors }
        requires limit { processors ≤ 8 }
        ensures { result
            ≡ record { processors = processors; processor = 0; plain = idle; tracing = idle } }
    {
        PlainGrace {
            processors,
            processor: 0,
            plain: OneDomain::new(),
            tracing: OneDomain::new(),
        }
    }

    /// Makes it the side of a processor.
    pub fn turn(&mut self, processor: u8)
        requires { processor < self.old.processors }
        ensures { self.new ≡ record self.old { processor = processor } }
    {
        self.processor = processor;
    }

    /// Where no processor is in a section, all is at rest, whoever's side it is. Where the number of a domain is odd, one of the
    /// processors has a period in progress; where it is even, none has. So once each has ended its own, the number is even.
    pub fn all_at_rest(&self)
        requires outside { (d : DomainValue) →
            AreEven self.now.processors (domain_in d self.now).words }
        ensures rest { (d : DomainValue) → IsAtRest self.now d (domain_in d self.now).number }
        ensures driven { (d : DomainValue) → IsDriven self.now.processors (domain_in d self.now) }
        ensures ended { (d : DomainValue) → let here = domain_in d self.now in
            ((p : ℕ) → p < self.now.processors → (side_in p here).number ≡ 0) →
            here.number % 2 ≡ 0 }
    {
        self.plain.parity_agrees();
        self.tracing.parity_agrees();
    }

    /// Where there is one processor, and it is in no section, all is at rest; and if a period is in progress, it is this side's.
    pub fn one_at_rest(&self)
        requires one { self.now.processors ≡ 1 }
        requires outside { (d : DomainValue) → (side d (known_in self.now)).word % 2 ≡ 0 }
        ensures rest { (d : DomainValue) → IsAtRest self.now d (domain_in d self.now).number }
        ensures sole { (d : DomainValue)
            → IsSole (side d (known_in self.now)).number (domain_in d self.now).number }
    {
        self.plain.parity_agrees();
        self.tracing.parity_agrees();
    }

    /// The number of a domain.
    fn number(&self, domain: Domain) -> u32
        ensures is { result ≡ (domain_in domain self.now).number }
        ensures limit { result ≤ 2 ^ 31 }
    {
        match domain {
            Domain::Plain => self.plain.number(),
            Domain::Tracing => self.tracing.number(),
        }
    }

    /// The words that a period of a domain looks at, as they are.
    fn words_seen(&self, domain: Domain) -> Words
        ensures words { result ≡ words_in domain self.now }
        ensures length { length result ≡ looks domain self.now.processors }
    {
        match domain {
            Domain::Plain => first_words(self.plain.words(), self.processors),
            Domain::Tracing => {
                words_in_turn(self.plain.words(), self.tracing.words(), self.processors)
            }
        }
    }

    /// Makes the section word of the processor one greater.
    fn move_word(&mut self, domain: Domain) -> u32
        requires { slice_index (domain_in domain self.old).words self.old.processor ≢ 2 ^ 28 }
        ensures word { result
            ≡ slice_index (domain_in domain self.old).words self.old.processor + 1 }
        ensures state { self.new
            ≡ with_domain domain (word_moved self.old.processor (domain_in domain self.old))
            self.old }
        ensures there { self.old.processor < length (domain_in domain self.old).words }
    {
        match domain {
            Domain::Plain => self.plain.move_word(self.processor),
            Domain::Tracing => self.tracing.move_word(self.processor),
        }
    }
}

impl Knows for PlainGrace {
    ghost known = { known_in };

    ghost tells = { false };

    ghost rights = { λ _. no_rights };

    ghost rest = { IsAtRest };

    // What a world does is told by the whole of it.
    ghost does = { λ _ _ _. Unit {0} };

    ghost does_same = { λ a. tt };

    ghost does_join = { λ es fs a b c x y. tt };
}

impl Grace for PlainGrace {
    fn enter(&mut self, domain: Domain) -> u32
        requires outside { (side domain (known_in self.old)).word % 2 ≡ 0 }
        requires room { (side domain (known_in self.old)).word < 2 ^ 28 }
        ensures word { result
            ≡ slice_index (domain_in domain self.old).words self.old.processor + 1 }
        ensures state { self.new
            ≡ with_domain domain (word_moved self.old.processor (domain_in domain self.old))
            self.old }
        ensures known { known_in self.new ≡ entered false domain (known_in self.old) }
    {
        self.move_word(domain)
    }

    fn leave(&mut self, domain: Domain) -> u32
        requires inside { (side domain (known_in self.old)).word % 2 ≡ 1 }
        ensures word { result
            ≡ slice_index (domain_in domain self.old).words self.old.processor + 1 }
        ensures state { self.new
            ≡ with_domain domain (word_moved self.old.processor (domain_in domain self.old))
            self.old }
        ensures known { known_in self.new ≡ left false domain (known_in self.old) }
    {
        self.move_word(domain)
    }

    fn stamp(&mut self, domain: Domain) -> u32
        ensures stamp { result ≡ next (domain_in domain self.old).number }
        ensures state { self.new ≡ self.old }
        ensures known { Stamped false domain result (known_in self.old) (known_in self.new) }
        ensures rest { StaysAtRest IsAtRest self.old self.new }
        ensures at_rest { (n : ℕ) → IsAtRest self.old domain n → result ≡ next n }
    {
        let number = self.number(domain);
        number + 2 + number % 2
    }

    fn done(&mut self, domain: Domain, stamp: u32) -> Done
        ensures answer { Answers result stamp }
        ensures number { number_in result ≡ (domain_in domain self.old).number }
        ensures state { self.new ≡ self.old }
        ensures seen { (side domain (known_in self.old)).seen ≤ number_in result }
        ensures known { known_in self.new
            ≡ read false domain (number_in result) (known_in self.old) }
        ensures rest { StaysAtRest IsAtRest self.old self.new }
        ensures at_rest { (n : ℕ) → IsAtRest self.old domain n → number_in result ≡ n }
    {
        let number = self.number(domain);
        if number < stamp {
            Done::NotYet(number)
        } else {
            Done::Passed(number)
        }
    }

    fn begin(&mut self, domain: Domain, even: u32) -> Began
        requires even { even % 2 ≡ 0 }
        requires idle { (side domain (known_in self.old)).number ≡ 0 }
        requires room { 0 < (side domain (known_in self.old)).begins }
        ensures answer { BeganAt result even }
        ensures found { found_at even result ≡ (domain_in domain self.old).number }
        ensures state { self.new
            ≡ with_domain domain
            (period_begun self.old.processor result (domain_in domain self.old)) self.old }
        ensures seen { (side domain (known_in self.old)).seen ≤ found_at even result }
        ensures known { known_in self.new ≡ began false domain result even (known_in self.old) }
        ensures rest { MovesNumber IsAtRest domain even (even + 1) self.old self.new }
        ensures at_rest { IsAtRest self.old domain even → result ≡ Won }
    {
        match domain {
            Domain::Plain => self.plain.begin(self.processor, even),
            Domain::Tracing => self.tracing.begin(self.processor, even),
        }
    }

    fn look(&mut self, domain: Domain) -> Look
        requires driving { (side domain (known_in self.old)).number % 2 ≡ 1 }
        ensures answer { let here = domain_in domain self.new in
            Verdict result domain here.first here.later }
        ensures state { self.new
            ≡ with_domain domain
            (period_looked (words_in domain self.old) (domain_in domain self.old)) self.old }
        ensures first { length (side domain (known_in self.new)).first
            ≡ looks domain self.old.processors }
        ensures later { length (side domain (known_in self.new)).later
            ≡ looks domain self.old.processors }
        ensures known { known_in self.new
            ≡ looked false domain (side domain (known_in self.new)).later (known_in self.old) }
        ensures verdict { let s = side domain (known_in self.new) in
            Verdict result domain s.first s.later }
        ensures rest { StaysAtRest IsAtRest self.old self.new }
        ensures at_rest { (n : ℕ) → IsAtRest self.old domain n → result ≡ All }
    {
        let words = self.words_seen(domain);
        match domain {
            Domain::Plain => self.plain.look(domain, words),
            Domain::Tracing => self.tracing.look(domain, words),
        }
    }

    fn finish(&mut self, domain: Domain) -> Period
        requires { CanFinish domain (known_in self.old) }
        ensures period { let here = domain_in domain self.old in
            result
            ≡ record {
              domain = domain;
              number = here.number + 1;
              first = here.first;
              later = here.later;
            } }
        ensures state { self.new
            ≡ with_domain domain (period_ended (domain_in domain self.old)) self.old }
        ensures ended { result ≡ ended domain (side domain (known_in self.old)) }
        ensures known { known_in self.new ≡ finished false domain (known_in self.old) }
        ensures rest { (n : ℕ) → MovesNumber IsAtRest domain n (n + 1) self.old self.new }
    {
        match domain {
            Domain::Plain => self.plain.finish(domain),
            Domain::Tracing => self.tracing.finish(domain),
        }
    }

    fn driving(&self, domain: Domain) -> bool
        ensures is { result ≡ is_processor self.now.processor (domain_in domain self.now).driver }
        ensures none { result ≡ false → (side domain (known_in self.now)).number ≡ 0 }
        ensures odd { result ≡ true → (side domain (known_in self.now)).number % 2 ≡ 1 }
    {
        match domain {
            Domain::Plain => self.plain.is_driven_by(self.processor),
            Domain::Tracing => self.tracing.is_driven_by(self.processor),
        }
    }

    ghost idle_at_rest = { idle-at-rest };
}
