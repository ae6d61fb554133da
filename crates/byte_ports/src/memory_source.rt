//! A source over bytes in memory.
ghost use Rattle.std.specs.Prelude.{◌≡◌, ◌-◌, ◌^◌, ◌<◌, ◌≤◌, length};

use crate::{Failed, Source};
use std::marker::Model;

/// A source over bytes in memory, which it tells. Chosen calls fail.
///
/// Calls are numbered from 0; the number stands still at its type's end.
#[derive(Drop)]
pub struct MemorySource {
    bytes: Vec<u8>,
    taken: usize,
    fails: Vec<u64>,
    calls: u64,
    most: usize,
    faults: u64,
}

impl Model for MemorySource {
    ghost use Rattle.std.specs.Prelude.{◌≤◌, drop, vec_len};
    ghost use Rattle.byte_ports.specs.MemorySources.{MemorySourceState};

    ghost Value = { MemorySourceState };

    ghost view = { λ s. record {
      left = drop s.taken s.bytes.items;
      fails = s.fails.items;
      calls = s.calls;
      most = s.most;
      faults = s.faults;
    } };

    ghost invariant = { λ s. (s.taken ≤ vec_len s.bytes) × (1 ≤ s.most) };
}

impl MemorySource {
    /// Gives `bytes`, as many a call as fit. The calls whose numbers are in `fails` fail.
    pub fn start(bytes: Vec<u8>, fails: Vec<u64>) -> MemorySource
        ensures { result ≡ record {
          left = bytes.items;
          fails = fails.items;
          calls = 0;
          most = usize.MAX;
          faults = 0;
        } }
    {
        MemorySource {
            bytes,
            taken: 0,
            fails,
            calls: 0,
            most: usize::MAX,
            faults: 0,
        }
    }

    /// The same source, of which each call gives at most `most` bytes.
    pub fn pieces(self, most: usize) -> MemorySource
        requires { 1 ≤ most }
        ensures { result ≡ record self { most = most } }
    {
        MemorySource { most, ..self }
    }
}

impl Source for MemorySource {
    ghost use Rattle.byte_ports.specs.Sources.{ReadsSome};
    ghost use Rattle.byte_ports.specs.MemorySources.{source_view_of, MemoryReads};

    ghost source_view = { source_view_of };

    fn read(&mut self, buf: &mut [u8]) -> Result<usize, Failed>
        requires { 0 < length buf.old }
        ensures told { ReadsSome (source_view_of self.old) (source_view_of self.new) buf.new result }
        ensures exact { MemoryReads self.old self.new buf.new result }
    {
        let is_listed = self.fails.contains(&self.calls);
        self.calls = self.calls.saturating_add(1);
        if is_listed {
            self.faults = self.faults.saturating_add(1);
            return Err(Failed);
        }
        let rest = &self.bytes[self.taken..];
        let count = rest.len().min(buf.len()).min(self.most);
        buf[..count].copy_from_slice(&rest[..count]);
        self.taken += count;
        Ok(count)
    }
}
