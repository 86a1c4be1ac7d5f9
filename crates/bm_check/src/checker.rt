//! The check of all scripts.

ghost use Rattle.std.specs.Prelude.{◌≡◌, None, OnOk, IfOk, IfErr};
ghost use Rattle.bm_lang.specs.Limits.{first_limit};
ghost use Rattle.bm_check.specs.Answers.{IsScriptJudged, IsAnswer, IsFault};
ghost use Rattle.bm_check.specs.Scripts.{AllAccepted};
ghost use Rattle.bm_check.specs.declared.checker.CheckFault.TheVariants.{NoMemory};

use crate::accepted::Checked;
use crate::block::judge_block;
use crate::name_log::NameLog;
use crate::name_state::HeldLock;
use crate::rule::Rule;
use crate::setting::Setting;
use crate::stop::Stop;
use bm_lang::{Parts, Scenario, Script, ScriptId};
use std::alloc::Global;
use thiserror::Error;

/// Why a scenario isn't checked.
#[derive(Clone, Copy, Debug, Error)]
pub enum CheckFault {
    /// A script isn't accepted: the first one in the order of the text, with its first broken rule and that rule's
    /// line.
    #[error("a script breaks a rule of ownership")]
    Rejected {
        script: ScriptId,
        line: u32,
        rule: Rule,
    },
    /// Memory ran out.
    #[error("out of memory")]
    NoMemory,
}

// One script: its first broken rule.
fn judge_script(alloc: Global, scenario: &Parts, script: &Script) -> Result<(), Stop>
    ensures { IsScriptJudged result scenario.now script.now }
{
    let setting = Setting {
        scenario,
        kind: script.kind,
    };
    let mut log = NameLog::new(alloc);
    judge_block(alloc, &setting, &mut log, HeldLock::Nothing, &script.body)?;
    if log.table.owns_some() {
        return Err(Stop::Broken {
            line: script.body.end_line,
            rule: Rule::NothingOwned,
        });
    }
    Ok(())
}

/// Whether all scripts of a scenario are accepted, and if not, the first one that isn't.
pub(crate) fn check_scripts(alloc: Global, scenario: &Parts) -> Result<(), CheckFault>
    ensures { IsAnswer result scenario.now }
{
    for (place, script) in scenario.scripts.as_slice().iter().enumerate() {
        if let Err(stop) = judge_script(alloc, scenario, script) {
            return Err(match stop {
                Stop::Broken { line, rule } => CheckFault::Rejected {
                    script: ScriptId(place),
                    line,
                    rule,
                },
                Stop::NoMemory => CheckFault::NoMemory,
            });
        }
    }
    Ok(())
}

/// Checks all scripts of a scenario that exceeds no limit.
///
/// # Errors
///
/// `Rejected` comes exactly where a script isn't accepted, with the first such script in the order of the text, and
/// its first broken rule with that rule's line. `NoMemory` comes where memory runs out. Both hand the scenario back.
/// The rules stand in docs/ownership.md, as definitions in `specs/Statements.antt`, `specs/Blocks.antt` and
/// `specs/Scripts.antt`.
pub fn check(alloc: Global, scenario: Scenario) -> Result<Checked, (CheckFault, Scenario)>
    requires { first_limit scenario ≡ None }
    // A checked scenario is the one that was given, and all its scripts are accepted.
    ensures checked { IfOk result (λ c. c ≡ scenario) }
    ensures accepted { OnOk result (AllAccepted scenario) }

    // A refusal gives the scenario back, with the first broken rule of its first script that isn't accepted.
    ensures given_back { IfErr result (λ refusal. refusal.1 ≡ scenario) }
    ensures fault { IfErr result (λ refusal. IsFault refusal.0 scenario) }

    // So where all its scripts are accepted, only memory can be wanting.
    ensures only { AllAccepted scenario → IfErr result (λ refusal. refusal.0 ≡ NoMemory) }
{
    match check_scripts(alloc, scenario.parts()) {
        Ok(()) => Ok(Checked::new(scenario)),
        Err(fault) => Err((fault, scenario)),
    }
}
