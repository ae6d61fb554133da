//! What the core asks of a platform: its views are made, put into one another and changed.

use host_views::{Mutation, ViewRef};

/// Why a platform does not follow a mutation. A transaction that leads on from what stands mounted
/// asks for nothing of this but memory.
#[derive(Clone, Copy, Debug, PartialEq, Eq)]
pub enum PlatformFault {
    Memory,
    /// There is no view of that tag, or no child at that place.
    Missing,
}

/// The views of a platform, each by its tag. The root is there from the beginning, with tag 0.
pub trait HostPlatform: Drop {
    /// Makes a view, which lies in no other yet.
    fn create(&mut self, tag: u32, view: &ViewRef) -> Result<(), PlatformFault>;

    /// Takes a view away, which lies in no other any more.
    fn delete(&mut self, tag: u32) -> Result<(), PlatformFault>;

    /// Puts a view into another, as its child of that index.
    fn insert(&mut self, parent: u32, tag: u32, index: usize) -> Result<(), PlatformFault>;

    /// Takes the child of that index out of a view.
    fn remove(&mut self, parent: u32, index: usize) -> Result<(), PlatformFault>;

    /// Changes what a view shows.
    fn update(&mut self, tag: u32, view: &ViewRef) -> Result<(), PlatformFault>;
}

/// Follows one mutation.
pub fn follow<P: HostPlatform>(platform: &mut P, mutation: &Mutation) -> Result<(), PlatformFault> {
    match mutation {
        Mutation::Create { tag, view } => platform.create(*tag, view),
        Mutation::Delete { tag } => platform.delete(*tag),
        Mutation::Insert { parent, tag, index } => {
            platform.insert(*parent, *tag, *index as usize)
        }
        Mutation::Remove { parent, index, .. } => platform.remove(*parent, *index as usize),
        Mutation::Update { tag, view } => platform.update(*tag, view),
    }
}
