//! The end of a surface in a run.

ghost use Rattle.std.specs.Prelude.{IfOk};
ghost use Rattle.mount_coordinator.specs.Answers.{MayFinish};
ghost use Rattle.run_engine.specs.Run.{IsOpen};
ghost use Rattle.commit_core.specs.Plain.{plain_records};
ghost use Rattle.run_engine.specs.Ends.{AreClosed, IsClosedPart, IsPartOf};

use crate::parts::mount_part;
use commit_core::PlainPort;
use host_views::HostTree;
use mount_coordinator::Coordinator;
use run_actor::Desk;
use run_report::{MountPart, SurfacePart};
use sqlite_items::Items;
use std::alloc::{AllocError, Global};
use tree_revision::{Record, Revision};
use view_flatten::flatten;

/// After the last event: the part of the journal of a surface of that id, with these mounts and the
/// closing one. Nothing is copied.
pub(crate) fn finish_desk(
    alloc: Global,
    id: u32,
    desk: Desk<PlainPort>,
    mounts: Items<MountPart>,
) -> Result<SurfacePart, AllocError>
    requires { IsOpen desk }
    ensures { IfOk result (IsPartOf id desk mounts) }
{
    let Desk { port, mount } = desk;
    let Some(coordinator) = mount else {
        unreachable!()
    };
    let (spine, _) = port.parts();
    let (records, front) = spine.into_parts();
    close_surface(alloc, id, records, front, coordinator, mounts)
}

/// The part of the journal of a surface of that id with these records, whose newest revision is the
/// front: with these mounts and the closing one, and the views of what may be mounted. Nothing is
/// copied.
pub(crate) fn close_surface(
    alloc: Global,
    id: u32,
    records: Items<Record>,
    front: Revision,
    coordinator: Coordinator,
    mounts: Items<MountPart>,
) -> Result<SurfacePart, AllocError>
    requires { MayFinish coordinator front }
    ensures { IfOk result (IsClosedPart id (plain_records records) front coordinator.base mounts) }
{
    let mounts = with_closing(alloc, coordinator, front.share()?, mounts)?;
    let next = front.mountable()?;
    let HostTree { views: last } = flatten(alloc, next.forest())?;
    Ok(SurfacePart {
        id,
        records,
        mounts,
        last,
    })
}

/// The mounts, and the closing one where the revision that may be mounted is newer than the base.
fn with_closing(
    alloc: Global,
    mut coordinator: Coordinator,
    front: Revision,
    mut mounts: Items<MountPart>,
) -> Result<Items<MountPart>, AllocError>
    requires { MayFinish coordinator front }
    ensures { IfOk result (AreClosed front coordinator.base mounts) }
{
    match coordinator.finish(alloc, front)? {
        None => Ok(mounts),
        Some(transaction) => {
            mounts.push(mount_part(transaction, None))?;
            Ok(mounts)
        }
    }
}
