//! Byte ports: where the program's bytes come from and where they go.
//!
//! A [`Source`] gives bytes and a [`Sink`] takes them. Each counts its faults, and tells its bytes to
//! contracts where it knows them: the ports over memory do, those over std's readers and writers do not.
#![tactic(auto)]

mod block_sink;
mod memory_sink;
mod memory_source;
mod sink;
mod source;
mod std_ports;
#[cfg(test)]
mod tests;

pub use block_sink::BlockSink;
pub use memory_sink::MemorySink;
pub use memory_source::MemorySource;
pub use sink::{Sink, write_whole};
pub use source::{ReadRefusal, Source, Taken, read_up_to};
pub use std_ports::{StdSink, StdSource};

/// A read or a write that failed. The port's count of faults rose.
#[derive(Clone, Copy, Debug, PartialEq, Eq)]
pub struct Failed;
