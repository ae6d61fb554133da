//! What a run leaves: for each surface its records and mounts, for each actor its answers.

use host_views::{Mutation, PlacedView};
use sqlite_items::Items;
use tree_revision::{Answer, Record};

/// A step, by its actor's number and its own number within the actor.
#[derive(Clone, Copy, Debug, PartialEq, Eq)]
pub struct StepName {
    pub actor: u32,
    pub call: u32,
}

/// A mount: from which revision to which, by which step (the closing one by none), and its mutations.
#[derive(Drop)]
pub struct MountPart {
    pub base: u64,
    pub to: u64,
    pub by: Option<StepName>,
    pub mutations: Items<Mutation>,
}

/// What a run did on a surface: its admitted commits, its mounts, and the last views in host preorder.
#[derive(Drop)]
pub struct SurfacePart {
    pub id: u32,
    pub records: Items<Record>,
    pub mounts: Items<MountPart>,
    pub last: Items<PlacedView>,
}

/// The answer of a step, on the surface of that id.
#[derive(Clone, Copy, Debug, PartialEq, Eq)]
pub struct StepPart {
    pub surface: u32,
    pub answer: Answer,
}

/// An actor, and the answers of its steps in order.
#[derive(Drop)]
pub struct ActorPart {
    pub name: Items<u8>,
    pub steps: Items<StepPart>,
}

/// A whole run.
#[derive(Drop)]
pub struct Journal {
    pub surfaces: Items<SurfacePart>,
    pub actors: Items<ActorPart>,
}

fn needs_send<T: Send + Sync>(_value: &T) {}

/// What a journal holds is shared by threads.
pub fn are_shared_by_threads(surfaces: &Items<SurfacePart>, actors: &Items<ActorPart>) {
    needs_send(surfaces);
    needs_send(actors);
}
