//! Sinks, and writing a whole text to one.
ghost use Rattle.std.specs.Prelude.{ℕ, ◌<◌, length};
ghost use Rattle.byte_ports.specs.Sinks.{SinkView, Writes, WritesSome};

use crate::Failed;

/// Takes bytes, one piece a call.
///
/// A sink has a count of faults that never falls and, where it tells them, its written bytes.
pub trait Sink {
    ghost sink_view: { Self → SinkView };

    /// Appends the first bytes of `piece`, which is not empty, and returns how many: 1 at least.
    /// After `Failed` nothing is appended and the count of faults rose.
    fn write(&mut self, piece: &[u8]) -> Result<usize, Failed>
        requires { 0 < length piece.now }
        ensures { WritesSome (sink_view self.old) (sink_view self.new) piece.now result };
}

/// A sink that is borrowed: it is behind this reference.
impl<K: Sink> Sink for &mut K {
    ghost use Rattle.byte_ports.specs.Sinks.{behind};

    ghost sink_view = { λ s. behind s.ghost_name (K.sink_view s.now) };

    fn write(&mut self, piece: &[u8]) -> Result<usize, Failed> {
        (**self).write(piece)
    }
}

/// Appends all of `piece`. After `Failed` its first bytes are appended and the count of faults rose.
#[tactic(auto, using(crate::proofs::Joined::whole_none))]
pub fn write_whole<K: Sink>(sink: &mut K, piece: &[u8]) -> Result<(), Failed>
    ensures { Writes (K.sink_view sink.old) (K.sink_view sink.new) piece.now result }
{
    let mut done = 0;
    while done < piece.len() {
        done += sink.write(&piece[done..])?;
    }
    Ok(())
}
