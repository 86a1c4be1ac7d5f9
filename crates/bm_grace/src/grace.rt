//! One processor's side of both domains of grace periods.

ghost use Rattle.std.specs.Prelude.{◌≡◌, ◌+◌, ◌%◌, ◌^◌, ◌<◌, ◌≤◌, ◌∷◌, ◌++◌, [], ℕ, List, Bool, true, false, length};
ghost use Rattle.bm_law_order.specs.Act.{Act, Enters, Leaves, Stamps, Reads, Looks, Finishes};
ghost use Rattle.bm_grace.specs.Begins.{begin_act};
ghost use Rattle.bm_grace.specs.Known.{Known, side};
ghost use Rattle.bm_grace.specs.Calls.{began, entered, finished, found_at, left, looked, looks, read};
ghost use Rattle.bm_grace.specs.Rights.{Ages, AsBefore, MineSince, Rights, Ripens};
ghost use Rattle.bm_grace.specs.Rest.{MovesNumber, StaysAtRest};
ghost use Rattle.bm_grace.specs.declared.answer.Began.TheVariants.{Won};
ghost use Rattle.bm_grace.specs.declared.answer.Look.TheVariants.{All};
ghost use Rattle.bm_journal.specs.declared.ids.Domain.{Domain as DomainValue};
ghost use Rattle.bm_grace.specs.Answers.{Answers, BeganAt, CanFinish, Stamped, Verdict, ended, next, number_in};

use crate::answer::{Began, Done, Look};
use bm_journal::{Domain, Period};

/// What a processor's side knows of the words that all processors share, and which units are its own. Each call of a side
/// changes what it knows by one equation, so that what a call doesn't speak of stays as it was. This project's own.
pub trait Knows {
    /// What this side knows.
    ghost known: { Self → Known };

    /// Whether `known` has the steps that were taken.
    ghost tells: { Bool };

    /// Which units are this side's, and what it tells of their waiting.
    ghost rights: { Self → Rights };

    /// Where all is at rest: no section is open on any processor, and nobody but this side calls. The number of the
    /// domain is then this one.
    ghost rest: { Self → DomainValue → ℕ → Type 0 };

    /// This side came to be that one by these acts of its own, and by nothing else.
    ghost does: { List Act → Self → Self → Type 0 };

    /// No act changes nothing, and acts follow each other.
    ghost does_same: { (a : Self) → does [] a a };

    ghost does_join: { (es fs : List Act) (a b c : Self) → does es a b → does fs b c
        → does (es ++ fs) a c };
}

/// One processor's side of both domains. A domain stands for a kind of grace period of the kernel: `Plain` for RCU,
/// `Tracing` for RCU tasks trace. Each domain has a number, 0 at first, and one section word a processor, 0 at first.
/// The numbers and words are this project's own.
///
/// No call takes memory. A side has 2^27 sections and 2^27 periods of a domain, which are more than a scenario makes.
pub trait Grace: Knows {
    /// Begins the outermost section of a domain, from outside of one. The answer is the processor's new section word,
    /// an odd number. From `rcu_read_lock` and `rcu_read_lock_trace`.
    fn enter(&mut self, domain: Domain) -> u32
        requires outside { (side domain (Self.known self.old)).word % 2 ≡ 0 }
        requires room { (side domain (Self.known self.old)).word < 2 ^ 28 }
        ensures word { result ≡ (side domain (Self.known self.old)).word + 1 }
        ensures known { Self.known self.new ≡ entered Self.tells domain (Self.known self.old) }
        ensures rights { Ages (Self.rights self.old) (Self.rights self.new) }
        ensures same { AsBefore (Self.rights self.old) (Self.rights self.new) }
        ensures does { Self.does (Enters domain result ∷ []) self.old self.new };

    /// Ends the outermost section of a domain, from inside of it. The answer is the processor's new section word, an
    /// even number. From `rcu_read_unlock` and `rcu_read_unlock_trace`.
    fn leave(&mut self, domain: Domain) -> u32
        requires inside { (side domain (Self.known self.old)).word % 2 ≡ 1 }
        ensures word { result ≡ (side domain (Self.known self.old)).word + 1 }
        ensures known { Self.known self.new ≡ left Self.tells domain (Self.known self.old) }
        ensures rights { Ages (Self.rights self.old) (Self.rights self.new) }
        ensures same { AsBefore (Self.rights self.old) (Self.rights self.new) }
        ensures does { Self.does (Leaves domain result ∷ []) self.old self.new };

    /// Reads a domain's number, and answers the stamp of it: the number at the end of the first period that begins
    /// afterwards. That is the number and 2 where no period is in progress, and the number and 3 where one is. From
    /// `get_state_synchronize_rcu`; `call_rcu` and `call_rcu_tasks_trace` keep it in a callback's place in its list.
    fn stamp(&mut self, domain: Domain) -> u32
        ensures known { Stamped Self.tells domain result (Self.known self.old)
            (Self.known self.new) }
        ensures rights { Ages (Self.rights self.old) (Self.rights self.new) }
        ensures since { MineSince domain result (Self.rights self.old) (Self.rights self.new) }
        ensures rest { StaysAtRest Self.rest self.old self.new }
        ensures at_rest { (n : ℕ) → Self.rest self.old domain n → result ≡ next n }
        ensures does { Self.does (Stamps domain result ∷ []) self.old self.new };

    /// Reads a domain's number, and answers whether it is at least a stamp. From `poll_state_synchronize_rcu`.
    fn done(&mut self, domain: Domain, stamp: u32) -> Done
        ensures answer { Answers result stamp }
        ensures seen { (side domain (Self.known self.old)).seen ≤ number_in result }
        ensures known { Self.known self.new
            ≡ read Self.tells domain (number_in result) (Self.known self.old) }
        ensures rights { Ages (Self.rights self.old) (Self.rights self.new) }
        ensures ripe { Ripens domain stamp result (Self.rights self.old) (Self.rights self.new) }
        ensures rest { StaysAtRest Self.rest self.old self.new }
        ensures at_rest { (n : ℕ) → Self.rest self.old domain n → number_in result ≡ n }
        ensures does { Self.does (Reads domain stamp (number_in result) ∷ []) self.old self.new };

    /// Begins a period of a domain where its number is the even one that is named, and changes nothing elsewhere. The
    /// number is odd from then on, until this side finishes the period. From `rcu_seq_start`.
    fn begin(&mut self, domain: Domain, even: u32) -> Began
        requires even { even % 2 ≡ 0 }
        requires idle { (side domain (Self.known self.old)).number ≡ 0 }
        requires room { 0 < (side domain (Self.known self.old)).begins }
        ensures answer { BeganAt result even }
        ensures seen { (side domain (Self.known self.old)).seen ≤ found_at even result }
        ensures known { Self.known self.new
            ≡ began Self.tells domain result even (Self.known self.old) }
        ensures rights { Ages (Self.rights self.old) (Self.rights self.new) }
        ensures rest { MovesNumber Self.rest domain even (even + 1) self.old self.new }
        ensures at_rest { Self.rest self.old domain even → result ≡ Won }
        ensures does { Self.does (begin_act domain even result ∷ []) self.old self.new };

    /// Looks at each word of the period of a domain that this side has in progress: at the plain words in the plain
    /// domain, and at both words of each processor, the plain one first, in the tracing domain, whose periods imply
    /// plain ones. The first look of a period reads each word as its first and its later one, each further look as its
    /// later one. A word passes that was even when it was first looked at, or that is greater later. From
    /// `rcu_watching_snap_recheck` and `rcu_tasks_wait_gp`.
    fn look(&mut self, domain: Domain) -> Look
        requires driving { (side domain (Self.known self.old)).number % 2 ≡ 1 }
        ensures first { length (side domain (Self.known self.new)).first
            ≡ looks domain (Self.known self.old).grace.processors }
        ensures later { length (side domain (Self.known self.new)).later
            ≡ looks domain (Self.known self.old).grace.processors }
        ensures answer { let s = side domain (Self.known self.new) in
            Verdict result domain s.first s.later }
        ensures known { Self.known self.new
            ≡ looked Self.tells domain (side domain (Self.known self.new)).later
            (Self.known self.old) }
        ensures rights { Ages (Self.rights self.old) (Self.rights self.new) }
        ensures rest { StaysAtRest Self.rest self.old self.new }
        ensures at_rest { (n : ℕ) → Self.rest self.old domain n → result ≡ All }
        ensures does { Self.does (Looks domain (side domain (Self.known self.new)).later ∷ [])
            self.old self.new };

    /// Ends the period of a domain that this side has in progress and all of whose words have passed. The number is
    /// even again. The answer has that number, and the words as they were first and last looked at. From `rcu_seq_end`.
    fn finish(&mut self, domain: Domain) -> Period
        requires { CanFinish domain (Self.known self.old) }
        ensures period { result ≡ ended domain (side domain (Self.known self.old)) }
        ensures known { Self.known self.new ≡ finished Self.tells domain (Self.known self.old) }
        ensures rights { Ages (Self.rights self.old) (Self.rights self.new) }
        ensures rest { (n : ℕ) → MovesNumber Self.rest domain n (n + 1) self.old self.new }
        ensures does { Self.does (Finishes result ∷ []) self.old self.new };

    /// Whether this side has a period of a domain in progress.
    fn driving(&self, domain: Domain) -> bool
        ensures none { result ≡ false → (side domain (Self.known self.now)).number ≡ 0 }
        ensures odd { result ≡ true → (side domain (Self.known self.now)).number % 2 ≡ 1 };

    // Where all is at rest and the number is even, no period is in progress.
    ghost idle_at_rest: { (g : Self) (d : DomainValue) (n : ℕ) → Self.rest g d n → n % 2 ≡ 0
        → (side d (Self.known g)).number ≡ 0 };
}
