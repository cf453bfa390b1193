//! A script over bytes in memory.
ghost use Rattle.std.specs.Prelude.{◌≡◌, IfOk};
ghost use Rattle.xs_script.specs.Line.{script_lines};
ghost use Rattle.xs_script.specs.Script.{IsScript};

use std::alloc::Global;
use xs_io::{FromRead, ToWrite};
use xs_script::{ScriptFault, run_script};

/// Runs a script over these bytes. Returns the replies.
pub fn run_bytes(alloc: Global, script: &[u8]) -> Result<Vec<u8>, ScriptFault>
    ensures { IfOk result (λ replies. IsScript (script_lines script.now) replies.items) }
{
    let mut reader = FromRead::new(script);
    let mut writer = ToWrite::new(Vec::new(alloc));
    match run_script(alloc, &mut reader, &mut writer) {
        Ok(_) => Ok(writer.into_inner()),
        Err(fault) => Err(fault),
    }
}
