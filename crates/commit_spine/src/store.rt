//! What the slot of a spine has.

use tree_revision::{Record, Revision};

/// A surface's admitted records, and the revision that stands for them.
#[derive(Drop)]
pub struct Store {
    pub records: Vec<Record>,
    pub front: Revision,
}
