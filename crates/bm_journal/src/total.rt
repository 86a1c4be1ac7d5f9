//! The totals of a journal.

ghost use Rattle.std.specs.Prelude.{◌≡◌, ◌<◌, length, slice_index};
ghost use Rattle.bm_journal.specs.TotalNames.{all_totals, total_name, total_place};

use std::marker::Model;

/// What a journal counts over all logs. docs/journals.md says what each one counts.
#[derive(Clone, Copy, Debug, PartialEq, Eq)]
pub enum Total {
    Steps,
    Given,
    Empty,
    Busy,
    Last,
    Still,
    Acquired,
    Exchanged,
    Pushed,
    Already,
    Taken,
    None,
    Raised,
    Worked,
    Fetched,
    Returned,
    Plain,
    Tracing,
    Handlers,
}

impl Total {
    /// The nineteen totals, in the order in which a journal prints them.
    pub fn all() -> [Total; 19]
        ensures { result ≡ all_totals }
    {
        [
            Total::Steps,
            Total::Given,
            Total::Empty,
            Total::Busy,
            Total::Last,
            Total::Still,
            Total::Acquired,
            Total::Exchanged,
            Total::Pushed,
            Total::Already,
            Total::Taken,
            Total::None,
            Total::Raised,
            Total::Worked,
            Total::Fetched,
            Total::Returned,
            Total::Plain,
            Total::Tracing,
            Total::Handlers,
        ]
    }

    /// The place of the total among all, from 0.
    pub fn place(self) -> usize
        ensures value { result ≡ total_place self }
        ensures bound { result < 19 }
    {
        self as usize
    }

    /// The name of the total in a journal's text.
    pub fn name(self) -> &'static [u8]
        ensures { result.now ≡ total_name self }
    {
        match self {
            Total::Steps => b"steps",
            Total::Given => b"given",
            Total::Empty => b"empty",
            Total::Busy => b"busy",
            Total::Last => b"last",
            Total::Still => b"still",
            Total::Acquired => b"acquired",
            Total::Exchanged => b"exchanged",
            Total::Pushed => b"pushed",
            Total::Already => b"already",
            Total::Taken => b"taken",
            Total::None => b"none",
            Total::Raised => b"raised",
            Total::Worked => b"worked",
            Total::Fetched => b"fetched",
            Total::Returned => b"returned",
            Total::Plain => b"plain",
            Total::Tracing => b"tracing",
            Total::Handlers => b"handlers",
        }
    }
}

/// The numbers of the nineteen totals, in their order. Contracts see the list of the numbers.
#[derive(Clone, Copy, Debug, PartialEq, Eq)]
pub struct Totals {
    values: [u64; 19],
}

impl Model for Totals {
    ghost use Rattle.std.specs.Prelude.{ℕ, List};

    ghost Value = { List ℕ };

    ghost view = { λ t. t.values };

    ghost inverse = { λ ns. record { values = ns } };
}

impl Totals {
    /// The totals with these numbers.
    pub fn new(values: [u64; 19]) -> Totals
        ensures { result ≡ values }
    {
        Totals { values }
    }

    /// The nineteen numbers.
    pub fn values(&self) -> &[u64]
        ensures value { result.now ≡ self.now }
        ensures length { length result.now ≡ 19 }
    {
        &self.values
    }

    /// The number of a total.
    pub fn get(&self, total: Total) -> u64
        ensures { result ≡ slice_index self.now (total_place total) }
    {
        self.values[total.place()]
    }
}
