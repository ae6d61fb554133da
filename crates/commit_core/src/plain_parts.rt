//! What a history in one hand is kept in.

ghost use Rattle.std.specs.Prelude.{◌≤◌, ◌<◌, ◌^◌, length, vec_capacity};
ghost use Rattle.tree_revision.specs.Stands.{StandsFor};
ghost use Rattle.tree_revision.proofs.OneProof.{StandsFor-prop};
ghost use Rattle.commit_core.specs.Plain.{plain_records};

use shadow_frame::Size;
use tree_revision::{Record, Revision};

/// A surface's history: its records, and the revision that stands for them. The room, which is the
/// number of records that it can have, is below 2^62 and never changes.
#[derive(Drop)]
pub struct PlainSpine {
    pub(crate) first: Size,
    pub(crate) room: u64,
    pub(crate) records: Vec<Record>,
    pub(crate) front: Revision,
    ghost stands: { StandsFor first front (plain_records records.items) } by { StandsFor-prop first front (plain_records records.items) },
    ghost within: { length records.items ≤ room },
    ghost memory: { room ≤ vec_capacity records },
    ghost room_is_small: { room < 2 ^ 62 },
}

/// What one holder has seen of a history: that many of its first records, after that many looks. It
/// has also reached a number that the history has come to, the floor, which is no less.
#[derive(Drop)]
pub struct PlainPass {
    pub(crate) seen: u64,
    pub(crate) floor: u64,
    pub(crate) looks: u64,
    ghost seen_is_reached: { seen ≤ floor },
}

/// A history as the holder of a pass sees it.
#[derive(Drop)]
pub struct PlainPort {
    pub(crate) spine: PlainSpine,
    pub(crate) pass: PlainPass,
    /// The number of records when the port was made.
    pub(crate) begun: u64,
    ghost floor_is_reached: { pass.floor ≤ length (plain_records spine.records.items) },
    ghost begun_is_reached: { begun ≤ length (plain_records spine.records.items) },
}
