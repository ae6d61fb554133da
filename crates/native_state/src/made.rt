//! How much was made.

ghost use Rattle.std.specs.Prelude.{◌≡◌};
ghost use Rattle.counts.specs.Raised.{raised};
ghost use Rattle.native_state.specs.Made.{nothing_made, one_node_more, families_more};

use std::marker::Model;
use std::thread::Threads;

/// How many nodes were made, and how many families were put into new pages.
///
/// Each count stands still at its last value, 2^64 - 1.
#[derive(Drop)]
pub struct Made {
    nodes: u64,
    families: u64,
}

impl Model for Made {
    ghost use Rattle.native_state.specs.Made.{MadeCounts};

    ghost Value = { MadeCounts };

    ghost view = { λ made. record { nodes = made.nodes; families = made.families } };
}

impl Made {
    /// Nothing is made yet. There is no other way to a count.
    pub fn start<R: Threads>(_rt: &R) -> Made
        ensures { result ≡ nothing_made }
    {
        Made {
            nodes: 0,
            families: 0,
        }
    }

    /// How many nodes were made.
    pub fn count(&self) -> u64
        ensures { result ≡ self.now.nodes }
    {
        self.nodes
    }

    /// How many families were put into new pages.
    pub fn families(&self) -> u64
        ensures { result ≡ self.now.families }
    {
        self.families
    }

    /// Counts one more node.
    pub fn node_made(&mut self)
        ensures { self.new ≡ one_node_more self.old }
    {
        self.nodes = self.nodes.saturating_add(1);
    }

    /// Counts the families of a new page.
    pub(crate) fn families_made(&mut self, count: usize)
        ensures { self.new ≡ families_more self.old count }
    {
        self.families = self.families.saturating_add(count as u64);
    }
}
