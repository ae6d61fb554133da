//! Ports over std's readers and writers: the trusted edge, which tells no bytes.
ghost use Rattle.std.specs.Prelude.{◌≡◌, ◌<◌, length, None, [], OnOk, OnErr};
ghost use Rattle.counts.specs.Raised.{raised};

use crate::{Failed, Sink, Source};
use std::io::{Read, Write};
use std::marker::Model;

/// A source over a reader of std. It tells no bytes.
#[derive(Drop)]
pub struct StdSource<R> {
    inner: R,
    faults: u64,
}

impl<R> Model for StdSource<R> {
    ghost use Rattle.std.specs.Prelude.{None};
    ghost use Rattle.byte_ports.specs.Sources.{SourceView};

    ghost Value = { SourceView };

    ghost view = { λ s. record { left = None; faults = s.faults } };
}

impl<R> StdSource<R> {
    /// Reads from `inner`, with no fault so far.
    pub fn start(inner: R) -> StdSource<R>
        ensures { result ≡ record { left = None; faults = 0 } }
    {
        StdSource { inner, faults: 0 }
    }
}

impl<R: Read> Source for StdSource<R> {
    ghost use Rattle.byte_ports.specs.Sources.{ReadsSome};

    ghost source_view = { λ s. s };

    /// Every error of the reader is a fault, one that may be retried too.
    fn read(&mut self, buf: &mut [u8]) -> Result<usize, Failed>
        requires { 0 < length buf.old }
        ensures told { ReadsSome self.old self.new buf.new result }
        ensures ok { OnOk result (self.new ≡ self.old) }
        ensures err { OnErr result (self.new.faults ≡ raised self.old.faults 1) }
    {
        match self.inner.read(buf) {
            Ok(count) => Ok(count),
            Err(_) => {
                self.faults = self.faults.saturating_add(1);
                Err(Failed)
            }
        }
    }
}

/// A sink over a writer of std. It tells no bytes.
#[derive(Drop)]
pub struct StdSink<W> {
    inner: W,
    faults: u64,
}

impl<W> Model for StdSink<W> {
    ghost use Rattle.std.specs.Prelude.{None, []};
    ghost use Rattle.byte_ports.specs.Sinks.{SinkView};

    ghost Value = { SinkView };

    ghost view = { λ s. record { written = None; levels = []; faults = s.faults; reference = 0 } };
}

impl<W> StdSink<W> {
    /// Writes to `inner`, with no fault so far.
    pub fn start(inner: W) -> StdSink<W>
        ensures { result ≡ record { written = None; levels = []; faults = 0; reference = 0 } }
    {
        StdSink { inner, faults: 0 }
    }
}

impl<W: Write> Sink for StdSink<W> {
    ghost use Rattle.byte_ports.specs.Sinks.{WritesSome};

    ghost sink_view = { λ s. s };

    /// Every error of the writer is a fault, and so is a write of no byte.
    fn write(&mut self, piece: &[u8]) -> Result<usize, Failed>
        requires { 0 < length piece.now }
        ensures told { WritesSome self.old self.new piece.now result }
        ensures ok { OnOk result (self.new ≡ self.old) }
        ensures err { OnErr result (self.new.faults ≡ raised self.old.faults 1) }
    {
        match self.inner.write(piece) {
            Ok(count) if count > 0 => Ok(count),
            _ => {
                self.faults = self.faults.saturating_add(1);
                Err(Failed)
            }
        }
    }
}
