//! A sink that gathers bytes into blocks.
ghost use Rattle.std.specs.Prelude.{◌≡◌, ◌-◌, ◌^◌, ◌<◌, ◌≤◌, [], length, vec_capacity};
ghost use Rattle.byte_ports.specs.BlockSinks.{over, HandsOnSome, EndsAs};

use crate::{Failed, Sink};
use std::marker::Model;

/// A sink that holds back what is written until a block is full, and then hands it on to the sink
/// below in one piece.
///
/// What it tells is what the sink below tells, followed by what it holds back. Its count of faults is
/// that of the sink below.
#[derive(Drop)]
pub struct BlockSink<K: Sink> {
    below: K,
    block: Vec<u8>,
    /// How many bytes of the block are handed on.
    done: usize,
    room: usize,
}

impl<K: Sink> Model for BlockSink<K> {
    ghost use Rattle.std.specs.Prelude.{◌-◌, ◌≤◌, drop, vec_len, vec_capacity};
    ghost use Rattle.byte_ports.specs.BlockSinks.{BlockSinkState};

    ghost Value = { BlockSinkState };

    ghost view = { λ s. record {
      below = K.sink_view s.below;
      held = drop s.done s.block.items;
      room = s.room;
      free = s.room - vec_len s.block;
    } };

    ghost invariant = { λ s. (s.done ≤ vec_len s.block) × (vec_len s.block ≤ s.room) × (s.room ≤ vec_capacity s.block) × (1 ≤ s.room) };
}

impl<K: Sink> BlockSink<K> {
    /// Holds nothing back, and will hold back at most as many bytes as the empty `block` has memory
    /// for.
    pub fn start(block: Vec<u8>, below: K) -> BlockSink<K>
        requires empty { block.items ≡ [] }
        requires room { 1 ≤ vec_capacity block }
        ensures { result ≡ over (K.sink_view below) (vec_capacity block) }
    {
        let room = block.capacity();
        BlockSink {
            below,
            block,
            done: 0,
            room,
        }
    }

    /// Hands on all that is held back. After `Failed` its first bytes are handed on and the others are
    /// held back still.
    pub fn flush(&mut self) -> Result<(), Failed>
        ensures { HandsOnSome self.old self.new result }
    {
        while self.done < self.block.len() {
            self.done += self.below.write(&self.block[self.done..])?;
        }
        self.block.clear();
        self.done = 0;
        Ok(())
    }

    /// Ends a text that was written as said: where it was written whole, what is held back is handed
    /// on. Gives the sink below, on which the text is written as the answer says.
    pub fn finish(mut self, written: Result<(), Failed>) -> (K, Result<(), Failed>)
        ensures { EndsAs self written (K.sink_view result.0) result.1 }
    {
        let ended = match written {
            Ok(()) => self.flush(),
            Err(failed) => Err(failed),
        };
        (self.below, ended)
    }
}

impl<K: Sink> Sink for BlockSink<K> {
    ghost use Rattle.byte_ports.specs.Sinks.{WritesSome};
    ghost use Rattle.byte_ports.specs.BlockSinks.{block_view_of};

    ghost sink_view = { block_view_of };

    fn write(&mut self, piece: &[u8]) -> Result<usize, Failed>
        requires { 0 < length piece.now }
        ensures { WritesSome (block_view_of self.old) (block_view_of self.new) piece.now result }
    {
        if self.block.len() >= self.room {
            self.flush()?;
        }
        let count = piece.len().min(self.room - self.block.len());
        // The block has memory for these, so this does not fail.
        self.block
            .extend_from_slice(&piece[..count])
            .map_err(|_| Failed)?;
        Ok(count)
    }
}
