//! A script that has begun.

ghost use Rattle.std.specs.Prelude.{◌≡◌, IfOk, reverse, true};
ghost use Rattle.bm_check.specs.Scripts.{Accepted};
ghost use Rattle.bm_exec.specs.Depth.{block_fits};
ghost use Rattle.bm_exec.specs.Going.{IsAtStart};
ghost use Rattle.bm_exec.specs.Named.{declared_of};
ghost use Rattle.bm_exec.specs.Runnable.{can_run_block};

use crate::frame::Frame;
use crate::names::NameTable;
use crate::running::Types;
use bm_check::accepted_scripts_are_safe;
use bm_lang::{Parts, Script};
use bm_word::NoMemory;
use std::alloc::Global;

/// A script that has begun and hasn't ended: where it stands, and its names. `resume` goes on with it.
#[derive(Drop)]
pub struct Activation<'s> {
    pub frame: Frame<'s>,
    pub names: NameTable,
}

impl<'s> Activation<'s> {
    /// A script that the checker accepted, before its first statement. Out of memory for the table of its names is the only refusal.
    pub fn begin(
        alloc: Global,
        types: &Types<'s>,
        scenario: &Parts,
        script: &'s Script,
    ) -> Result<Activation<'s>, NoMemory>
        requires can { can_run_block (declared_of types.now) script.now.body ≡ true }
        requires fits { block_fits 16 script.now.body ≡ true }
        requires accepted { Accepted scenario.now script.now }
        requires types { scenario.now.types ≡ types.now.declared.now }
        requires maps { scenario.now.maps ≡ types.now.maps.now }
        ensures start { IfOk result (λ begun. IsAtStart (declared_of types.now) script.now.kind
            script.now.body begun.names (reverse begun.frame.blocks.items)) }
    {
        accepted_scripts_are_safe();
        let names = NameTable::for_script(alloc, script)?;
        let frame = Frame::start(script);
        Ok(Activation { frame, names })
    }
}
