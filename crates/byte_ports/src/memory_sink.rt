//! A sink over memory.
ghost use Rattle.std.specs.Prelude.{◌≡◌, ◌-◌, ◌^◌, ◌<◌, ◌≤◌, [], length, IfOk};

use crate::{Failed, Sink};
use std::alloc::{AllocError, Global};
use std::marker::Model;

/// A sink over memory of a fixed room, whose bytes it tells. Chosen calls fail.
///
/// Calls are numbered from 0; the number stands still at its type's end.
#[derive(Drop)]
pub struct MemorySink {
    bytes: Vec<u8>,
    room: usize,
    fails: Vec<u64>,
    calls: u64,
    most: usize,
    faults: u64,
}

impl Model for MemorySink {
    ghost use Rattle.std.specs.Prelude.{◌≤◌, vec_len, vec_capacity};
    ghost use Rattle.byte_ports.specs.MemorySinks.{MemorySinkState};

    ghost Value = { MemorySinkState };

    ghost view = { λ s. record {
      written = s.bytes.items;
      room = s.room;
      fails = s.fails.items;
      calls = s.calls;
      most = s.most;
      faults = s.faults;
    } };

    ghost invariant = { λ s. (vec_len s.bytes ≤ s.room) × (s.room ≤ vec_capacity s.bytes) × (1 ≤ s.most) };
}

impl MemorySink {
    /// Holds at most `room` bytes. The calls whose numbers are in `fails` fail.
    pub fn start(alloc: Global, room: usize, fails: Vec<u64>) -> Result<MemorySink, AllocError>
        ensures { IfOk result (λ sink. sink ≡ record {
          written = [];
          room = room;
          fails = fails.items;
          calls = 0;
          most = usize.MAX;
          faults = 0;
        }) }
    {
        let bytes = Vec::with_capacity(alloc, room)?;
        Ok(MemorySink {
            bytes,
            room,
            fails,
            calls: 0,
            most: usize::MAX,
            faults: 0,
        })
    }

    /// The same sink, of which each call takes at most `most` bytes.
    pub fn pieces(self, most: usize) -> MemorySink
        requires { 1 ≤ most }
        ensures { result ≡ record self { most = most } }
    {
        MemorySink { most, ..self }
    }

    /// The bytes written.
    pub fn bytes(&self) -> &[u8]
        ensures { result.now ≡ self.now.written }
    {
        &self.bytes
    }
}

impl Sink for MemorySink {
    ghost use Rattle.byte_ports.specs.Sinks.{WritesSome};
    ghost use Rattle.byte_ports.specs.MemorySinks.{sink_view_of, MemoryWrites};

    ghost sink_view = { sink_view_of };

    fn write(&mut self, piece: &[u8]) -> Result<usize, Failed>
        requires { 0 < length piece.now }
        ensures told { WritesSome (sink_view_of self.old) (sink_view_of self.new) piece.now result }
        ensures exact { MemoryWrites self.old self.new piece.now result }
    {
        let is_listed = self.fails.contains(&self.calls);
        self.calls = self.calls.saturating_add(1);
        if is_listed || self.bytes.len() >= self.room {
            self.faults = self.faults.saturating_add(1);
            return Err(Failed);
        }
        let room_left = self.room - self.bytes.len();
        let count = piece.len().min(room_left).min(self.most);
        // The room was taken at the start, so this does not fail.
        self.bytes
            .extend_from_slice(&piece[..count])
            .map_err(|_| Failed)?;
        Ok(count)
    }
}
