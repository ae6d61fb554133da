//! What a host keeps may go to another thread.

ghost use denote.Hole.{as_row};
ghost use denote.Param.Send.{IsSend};
ghost use Rattle.surface.specs.contracts.parts.Handle as handle_type;
ghost use Rattle.surface.specs.contracts.parts.Mounter as mounter_type;
ghost use Rattle.surface.specs.contracts.parts.Surface as surface_type;
ghost use Rattle.commit_spine.specs.contracts.spine_parts.Spine as spine_type;
ghost use Rattle.commit_spine.specs.contracts.store.Store as store_type;
ghost use Rattle.mount_coordinator.specs.contracts.coordinator.Coordinator as coordinator_type;
ghost use Rattle.tree_revision.specs.contracts.revision.Revision as revision_type;

use crate::parts::{Handle, Mounter, Surface};
use commit_spine::{Spine, Store, passes_are_sent, spines_are_shared};
use mount_coordinator::Coordinator;
use tree_revision::Revision;

/// A value of that type may go to another thread.
fn needs_send<T: Send>(_none: Option<&T>)
    ensures { IsSend T.row }
{}

/// A revision may go to another thread.
fn revisions_are_sent()
    ensures { IsSend (as_row revision_type.the_field) }
{
    needs_send::<Revision>(None);
}

/// A coordinator may go to another thread.
fn coordinators_are_sent()
    ensures { IsSend (as_row coordinator_type.the_field) }
{
    needs_send::<Coordinator>(None);
}

/// A history's store may go to another thread.
fn stores_are_sent()
    ensures { IsSend (as_row store_type.the_field) }
{
    needs_send::<Store>(None);
}

/// A history may go to another thread.
fn spines_are_sent()
    ensures { IsSend (as_row spine_type.the_field) }
{
    stores_are_sent();
    needs_send::<Spine>(None);
}

/// A surface may go to another thread.
pub fn surfaces_are_sent()
    ensures { IsSend (as_row surface_type.the_field) }
{
    spines_are_shared();
    spines_are_sent();
    passes_are_sent();
}

/// A handle may go to another thread.
pub fn handles_are_sent()
    ensures { IsSend (as_row handle_type.the_field) }
{
    surfaces_are_sent();
    revisions_are_sent();
}

/// A mounter may go to another thread.
pub fn mounters_are_sent()
    ensures { IsSend (as_row mounter_type.the_field) }
{
    surfaces_are_sent();
    coordinators_are_sent();
}
