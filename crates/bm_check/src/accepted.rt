//! Scenarios whose scripts are accepted.

ghost use Rattle.std.specs.Prelude.{◌≡◌};
ghost use Rattle.bm_check.specs.Scripts.{IsChecked};

use bm_lang::Scenario;
use std::marker::Model;

/// A scenario all of whose scripts are accepted, and which exceeds no limit. Contracts see the scenario's parts. Only
/// `check` makes one.
#[derive(Debug, Drop)]
pub struct Checked {
    scenario: Scenario,
}

impl Model for Checked {
    ghost use Rattle.bm_lang.specs.declared.scenario.Parts.{Parts};
    ghost use Rattle.bm_lang.specs.contracts.scenario.Block as block;
    ghost use Rattle.std.specs.Coded.{codes};
    ghost use Rattle.bm_check.specs.Scripts.{IsChecked};

    ghost Value = { Parts };

    ghost coded = { Prim.hlevel (codes, block.the_row.coded) };

    ghost view = { λ c. c.scenario };

    ghost invariant = { λ c. IsChecked c.scenario };
}

impl Checked {
    // A scenario that was found to be so.
    pub(crate) fn new(scenario: Scenario) -> Checked
        requires { IsChecked scenario }
        ensures { result ≡ scenario }
    {
        Checked { scenario }
    }

    /// The scenario.
    pub fn scenario(&self) -> &Scenario
        ensures value { result.now ≡ self.now }
        ensures checked { IsChecked self.now }
    {
        &self.scenario
    }

    /// Gives the scenario back.
    pub fn into_scenario(self) -> Scenario
        ensures value { result ≡ self }
        ensures checked { IsChecked self }
    {
        self.scenario
    }
}
