//! A text that is at hand, and its writing.

ghost use Rattle.std.specs.Prelude.{List, ℕ};
ghost use Rattle.byte_ports.specs.Sinks.{Writes};
ghost use Rattle.fabric_run.specs.Steps.{WritesText};

use crate::status::Status;
use byte_ports::{Failed, Sink};

/// What has a text that can be written without memory.
pub(crate) trait Text {
    ghost text: { Self → List ℕ };

    /// What has to hold of it.
    ghost is_ready: { Self → Type 0 };

    /// Writes the text. After `Failed` its first bytes are written, and the sink's count rose.
    fn write<K: Sink>(&self, out: &mut K) -> Result<(), Failed>
        requires { is_ready self.now }
        ensures { Writes (K.sink_view out.old) (K.sink_view out.new) (text self.now) result };
}

/// Writes a text that is at hand. It takes no memory.
pub(crate) fn write_text<T: Text, K: Sink>(text: &T, out: &mut K) -> Status
    requires { T.is_ready text.now }
    ensures { WritesText (T.text text.now) (K.sink_view out.old) (K.sink_view out.new) result }
{
    match text.write(out) {
        Ok(()) => Status::Done,
        Err(_) => Status::WriteFault,
    }
}
