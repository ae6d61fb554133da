//! A registry that follows the mounts of a surface.

ghost use Rattle.std.specs.Prelude.{◌≡◌, [], map, IfOk, OnOk, OnErr};
ghost use Rattle.host_views.specs.Plain.{PlainHostTree, plain_mutation};
ghost use Rattle.host_views.specs.Registry.{registry_of};
ghost use Rattle.frame_watch.specs.Frames.{frames_changed};
ghost use Rattle.frame_watch.specs.Mounts.{IsMount, MayMount};

use crate::{FrameChange, changes};
use host_views::{Mutation, Registry};
use std::alloc::{AllocError, Global};
use std::marker::Model;

/// What stands mounted on a surface, as it is led on by one list of mutations after another.
#[derive(Drop)]
pub struct Follow {
    registry: Registry,
    alloc: Global,
}

impl Model for Follow {
    ghost use Rattle.host_views.specs.Registry.{PlainRegistry};
    ghost use Rattle.host_views.specs.Code.{coded_registry};

    ghost Value = { PlainRegistry };

    ghost coded = { coded_registry };

    ghost view = { λ follow. follow.registry };
}

impl Follow {
    /// Nothing stands mounted.
    pub fn start(alloc: Global) -> Result<Follow, AllocError>
        ensures { IfOk result (λ follow. follow ≡ registry_of []) }
    {
        Ok(Follow {
            registry: Registry::start(alloc)?,
            alloc,
        })
    }

    /// Mounts what the mutations lead to, and gives the frames that changed, as `changes` does.
    ///
    /// Where there is no memory, nothing is changed.
    pub fn mount(&mut self, list: &[Mutation]) -> Result<Vec<FrameChange>, AllocError>
        requires { MayMount self.old (map plain_mutation list.now) }
        ensures changes { (old new : PlainHostTree)
            → IsMount self.old (map plain_mutation list.now) old new
            → IfOk result (λ changes. changes.items ≡ frames_changed old new) }
        ensures mounted { (old new : PlainHostTree)
            → IsMount self.old (map plain_mutation list.now) old new
            → OnOk result (self.new ≡ registry_of new) }
        ensures stays { OnErr result (self.new ≡ self.old) }
    {
        let changes = changes(self.alloc, &self.registry, list)?;
        self.registry.apply_all(self.alloc, list)?;
        Ok(changes)
    }

    /// The views that stand mounted.
    pub fn registry(&self) -> &Registry
        ensures { result.now ≡ self.now }
    {
        &self.registry
    }
}
