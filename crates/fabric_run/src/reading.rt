//! A script from a source.

ghost use Rattle.std.specs.Prelude.{IfOk};
ghost use Rattle.tree_revision.specs.Sound.{IsSoundScript, IsWithinCounts};
ghost use Rattle.script_read.specs.Plain.{plain_script};
ghost use Rattle.fabric_run.specs.Steps.{ReadsFromSource};

use crate::status::Status;
use byte_ports::{ReadRefusal, Source, Taken, read_up_to};
use script_read::{Script, ScriptFault, ScriptRefusal, read_script};
use std::alloc::Global;

/// The most bytes that a script has.
const SCRIPT_BYTES: usize = 4_194_304;

/// Reads the source to its end. Answers the script that its bytes are, or the status that the program
/// ends with.
pub(crate) fn script_from<S: Source>(alloc: Global, source: &mut S) -> Result<Script, Status>
    ensures reads { ReadsFromSource (S.source_view source.old) (S.source_view source.new) result }
    ensures sound { IfOk result (λ script. IsSoundScript (plain_script script)) }
    ensures counts { IfOk result (λ script. IsWithinCounts (plain_script script)) }
{
    let bytes = match read_up_to(alloc, source, SCRIPT_BYTES) {
        Ok(Taken::Whole(bytes)) => bytes,
        Ok(Taken::Beyond) => return Err(Status::Refused(ScriptFault::TooLong)),
        Err(ReadRefusal::Failed) => return Err(Status::ReadFault),
        Err(ReadRefusal::Memory) => return Err(Status::Memory),
    };
    match read_script(alloc, &bytes) {
        Ok(script) => Ok(script),
        Err(ScriptRefusal::Fault(fault)) => Err(Status::Refused(fault)),
        Err(ScriptRefusal::Memory) => Err(Status::Memory),
    }
}
