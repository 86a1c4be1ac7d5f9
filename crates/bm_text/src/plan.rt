//! The calls of a source or a sink in memory, and which of them are to fail.

ghost use Rattle.std.specs.Prelude.{◌≡◌, ◌^◌, ◌<◌, ◌≤◌, ◌||◌, ◌==◌};
ghost use Rattle.std.specs.List.{list_any};
ghost use Rattle.bm_text.specs.Memory.{Calls, is_planned, calls_after};

use std::marker::Model;

// The numbers of the calls that are to fail, and the counts of calls and of faults, each up to 2^64 - 1.
#[derive(Debug, Drop)]
pub(crate) struct Plan {
    fail: Vec<u32>,
    made: u64,
    faults: u64,
}

impl Model for Plan {
    ghost Value = { Calls };

    ghost view = { λ plan. record
        { fail = plan.fail.items; made = plan.made; faults = plan.faults } };
}

impl Plan {
    // No call was made yet.
    pub(crate) fn new(fail: Vec<u32>) -> Plan
        ensures { result ≡ record { fail = fail.items; made = 0; faults = 0 } }
    {
        Plan {
            fail,
            made: 0,
            faults: 0,
        }
    }

    // Counts one more call, and answers whether it fails: by its number, or for a cause of the caller's.
    pub(crate) fn fails(&mut self, has_cause: bool) -> bool
        ensures answer { result ≡ (has_cause || is_planned self.old) }
        ensures after { self.new ≡ calls_after result self.old }
        ensures never_falls { self.old.faults ≤ self.new.faults }
        ensures counted { self.new.faults < 2 ^ 64 }
    {
        let number = self.made.saturating_add(1);
        let faults = self.faults;
        self.made = number;
        let fails = has_cause || stands_in(number, &self.fail);
        if fails {
            self.faults = faults.saturating_add(1);
        }
        fails
    }
}

fn stands_in(number: u64, numbers: &[u32]) -> bool
    ensures { result ≡ list_any (λ n. n == number) numbers.now }
{
    numbers.iter().any(|n| u64::from(*n) == number)
}
