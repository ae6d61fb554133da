//! How the program ends.

ghost use Rattle.std.specs.Prelude.{◌≡◌};
ghost use Rattle.fabric_run.specs.Status.{exit_status_of};

use script_read::ScriptFault;

/// How the program ended.
#[derive(Debug, Drop)]
pub enum Status {
    /// The whole text was written.
    Done,
    /// The bytes are no script that is run.
    Refused(ScriptFault),
    /// The words are none that the program takes.
    Usage,
    /// A read failed, and nothing was written.
    ReadFault,
    /// A write failed after some bytes of the text, maybe none.
    WriteFault,
    /// There was no memory, and nothing was written.
    Memory,
}

/// The exit status of the process.
pub fn exit_status(status: &Status) -> u8
    ensures { result ≡ exit_status_of status.now }
{
    match status {
        Status::Done => 0,
        Status::Refused(_) => 1,
        Status::Usage => 2,
        Status::ReadFault => 3,
        Status::WriteFault => 4,
        Status::Memory => 5,
    }
}
