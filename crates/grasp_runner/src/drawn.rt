//! Scripts that are drawn from a number.

ghost use Rattle.std.specs.Prelude.{◌≡◌, IfOk};
ghost use Rattle.grasp_script_draws.specs.Generator.{script_of};
ghost use Rattle.grasp_script.specs.Scripts.{IsScript};

use grasp_cbor::OutOfMemory;
use grasp_laws_draws::drawn_texts_are_scripts;
use grasp_script::{Script, ScriptFault, parse_script};
use grasp_script_draws::script_of;
use std::alloc::Global;

/// The script that is drawn from a number.
pub(crate) fn drawn_script(alloc: Global, number: u64) -> Result<Script, OutOfMemory>
    ensures { IfOk result (λ script. IsScript (script_of number) script.plan script.lines) }
{
    drawn_texts_are_scripts();
    let text = script_of(alloc, number)?;
    match parse_script(alloc, text.bytes()) {
        Ok(script) => Ok(script),
        Err(ScriptFault::OutOfMemory) => Err(OutOfMemory),
        Err(ScriptFault::BadScript { .. }) => unreachable!(),
    }
}
