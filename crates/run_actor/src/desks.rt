//! A surface as an actor has it.

use mount_coordinator::Coordinator;
use tree_revision::Port;

/// A surface as one holder has it: the port to its history, and what stands mounted where the holder
/// mounts there.
#[derive(Drop)]
pub struct Desk<P: Port> {
    pub port: P,
    pub mount: Option<Coordinator>,
}
