//! Mounting, by the one thread that keeps what stands mounted.

ghost use Rattle.std.specs.Prelude.{◌≡◌, ◌≤◌, [], ◌++◌, IfOk, Option};
ghost use Rattle.host_views.specs.Registry.{registry_of};
ghost use Rattle.tree_revision.specs.Stands.{StandsFor};
ghost use Rattle.view_flatten.specs.HostTree.{host_tree_of};
ghost use Rattle.mount_coordinator.specs.Answers.{IsPullAnswer};
ghost use Rattle.mount_coordinator.specs.Mounted.{host_tree_at};
ghost use Rattle.commit_spine.specs.SpinePorts.{spine_told};
ghost use Rattle.surface.specs.Passing.{PassGoesOn};
ghost use Rattle.surface.specs.Mounting.{IsMountAnswer, PullLeadsRegistry};

use crate::parts::{Mounter, Surface};
use host_views::Registry;
use mount_coordinator::{Coordinator, Pulled, Transaction};
use std::alloc::{AllocError, Global};
use std::sync::Wait;
use std::thread;
use tree_revision::Revision;

impl Mounter {
    /// A surface's first revision stands mounted, with the root alone.
    pub fn start(alloc: Global, surface: Surface, first: Revision) -> Result<Mounter, AllocError>
        requires first { StandsFor surface.pass.kept.mark.first first [] }
        ensures surface { IfOk result (λ mounter. mounter.surface.pass ≡ surface.pass) }
        ensures base { IfOk result (λ mounter. mounter.coordinator ≡ record { base = first.newest; entered = 0 }) }
    {
        let coordinator = Coordinator::start(alloc, first)?;
        Ok(Mounter {
            surface,
            coordinator,
        })
    }

    /// Looks once, and leads the views on to the newest revision that may be mounted, where that is
    /// newer. It waits for nobody.
    ///
    /// Where nothing is newer, another holder has the turn, or there is no memory, what stands
    /// mounted is as before.
    pub fn try_mount(&mut self, alloc: Global) -> Result<Pulled, AllocError>
        ensures goes_on { PassGoesOn self.old.surface.pass self.new.surface.pass }
        ensures answer { IsPullAnswer (spine_told self.old.surface.pass) (spine_told self.new.surface.pass) self.old.coordinator self.new.coordinator result }
        ensures leads { IfOk result (PullLeadsRegistry self.old.coordinator self.new.coordinator) }
    {
        self.coordinator.pull(alloc, &mut self.surface)
    }

    /// The same, once no other holder has the turn: the transaction to the newest revision that may
    /// be mounted, or `None` where nothing is newer.
    pub fn mount<R: Wait>(
        &mut self,
        rt: &R,
        alloc: Global,
    ) -> Result<Option<Transaction>, AllocError>
        ensures goes_on { PassGoesOn self.old.surface.pass self.new.surface.pass }
        ensures answer { IsMountAnswer self.old self.new result }
    {
        for _ in rt.forever() {
            let Ok(pulled) = self.try_mount(alloc) else {
                return Err(AllocError);
            };
            match pulled {
                Pulled::Transaction(transaction) => return Ok(Some(transaction)),
                Pulled::Empty { .. } => return Ok(None),
                Pulled::Busy => thread::yield_now(),
            }
        }
        unreachable!()
    }

    /// The number of the revision that stands mounted.
    pub fn base(&self) -> u64
        ensures { result ≡ self.now.coordinator.base.number }
    {
        self.coordinator.base()
    }

    /// The views that stand mounted.
    pub fn registry(&self) -> &Registry
        ensures { result.now ≡ registry_of (host_tree_of self.now.coordinator.base.forest) }
    {
        self.coordinator.registry()
    }

    /// The surface, and what stands mounted.
    pub fn into_parts(self) -> (Surface, Coordinator)
        ensures { result ≡ (self.surface, self.coordinator) }
    {
        let Mounter {
            surface,
            coordinator,
        } = self;
        (surface, coordinator)
    }
}
