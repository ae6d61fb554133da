//! Which host frames a mount changed, and who hears of them.
#![tactic(auto)]

ghost use Rattle.std.specs.Prelude.{◌≡◌, map, IfOk};
ghost use Rattle.host_views.specs.Plain.{PlainHostTree, plain_mutation};
ghost use Rattle.frame_watch.specs.Frames.{frames_changed};
ghost use Rattle.frame_watch.specs.Mounts.{IsMount, MayMount};
ghost use Rattle.host_views.specs.Plain.{update};
ghost use Rattle.frame_watch.specs.Reading.{frame_by};

mod follow;
#[cfg(test)]
mod tests;
mod watcher;

pub use follow::Follow;
use host_views::{HostView, Mutation, Registry};
use shadow_frame::Rect;
use std::alloc::{AllocError, Global};
pub use watcher::{Heard, MemoryWatcher, Watcher, tell};

/// The frame that a view has from a mount on, where it is new or had another one.
#[derive(Clone, Copy, Debug, PartialEq, Eq)]
pub struct FrameChange {
    pub tag: u32,
    /// The frame in the host parent.
    pub frame: Rect,
}

impl FrameChange {
    /// The frame of that view.
    fn of(tag: u32, view: &HostView) -> FrameChange
        ensures { result ≡ record { tag = tag; frame = view.now.frame } }
    {
        FrameChange {
            tag,
            frame: view.frame,
        }
    }
}

/// Which host frames a mount changes: first those of new views, and then those of views that have
/// another frame in the registry, each in host preorder of what is mounted.
///
/// The registry is that of the host tree that stands mounted, and the mutations lead to another one
/// in which no tag has another kind. The cost is in proportion to the mutations.
pub fn changes(
    alloc: Global,
    registry: &Registry,
    list: &[Mutation],
) -> Result<Vec<FrameChange>, AllocError>
    requires { MayMount registry.now (map plain_mutation list.now) }
    ensures { (old new : PlainHostTree)
        → IsMount registry.now (map plain_mutation list.now) old new
        → IfOk result (λ changes. changes.items ≡ frames_changed old new) }
{
    let mut changes = Vec::new(alloc);
    for mutation in list {
        if let Some(change) = change_by(registry, mutation) {
            changes.push(change)?;
        }
    }
    Ok(changes)
}

/// The frame that a mutation changes, where it does.
fn change_by(registry: &Registry, mutation: &Mutation) -> Option<FrameChange>
    ensures { result ≡ frame_by registry.now (plain_mutation mutation.now) }
{
    match mutation {
        Mutation::Create { tag, view } => Some(FrameChange::of(*tag, view)),
        Mutation::Update { tag, view } => change_at(registry, *tag, view),
        Mutation::Delete { .. } | Mutation::Insert { .. } | Mutation::Remove { .. } => None,
    }
}

/// The frame of a view, where the one that its tag has in the registry has another.
fn change_at(registry: &Registry, tag: u32, view: &HostView) -> Option<FrameChange>
    ensures { result ≡ frame_by registry.now (update tag view.now) }
{
    let was = registry.view(tag)?;
    if was.frame == view.frame {
        return None;
    }
    Some(FrameChange::of(tag, view))
}
