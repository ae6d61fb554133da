//! What a host keeps.

ghost use Rattle.std.specs.Prelude.{◌≡◌, ◌≤◌, length, take};
ghost use Rattle.std.specs.Coded.{codes};
ghost use Rattle.atomic_table.specs.Seated.{table_id_coded};
ghost use Rattle.tree_revision.specs.Stands.{StandsFor};
ghost use Rattle.tree_revision.proofs.OneProof.{StandsFor-prop};
ghost use Rattle.mount_coordinator.specs.Mounted.{mounted_whole};

use commit_spine::{Spine, SpinePass};
use mount_coordinator::Coordinator;
use std::sync::Arc;
use tree_revision::Revision;

/// A surface's history, which threads share, with a pass of its own. It is a port to the history.
#[derive(Drop)]
pub struct Surface {
    pub(crate) spine: Arc<Spine>,
    pub(crate) pass: SpinePass,
    ghost one_spine: { pass.spine ≡ spine.value.table.shared.table_id } by { Prim.hlevel (table_id_coded, codes) },
    ghost reached: { length pass.kept.seen ≤ pass.kept.floor },
}

/// What a thread commits with: its surface, the revision that it holds, the number of its actor and
/// that of its next call.
///
/// The held revision stands for the first of the records that its surface has seen.
#[derive(Drop)]
pub struct Handle {
    pub(crate) surface: Surface,
    pub(crate) held: Revision,
    pub(crate) actor: u32,
    pub(crate) call: u32,
    ghost within: { held.newest.number ≤ length surface.pass.kept.seen },
    ghost stands: { StandsFor surface.pass.kept.mark.first held (take held.newest.number surface.pass.kept.seen) } by { StandsFor-prop surface.pass.kept.mark.first held (take held.newest.number surface.pass.kept.seen) },
}

/// What the one thread that mounts a surface keeps: its own way to the surface, and what stands
/// mounted.
///
/// The base that stands mounted stands for the first of the records that its surface has seen.
#[derive(Drop)]
pub struct Mounter {
    pub(crate) surface: Surface,
    pub(crate) coordinator: Coordinator,
    ghost mounted: { StandsFor surface.pass.kept.mark.first (mounted_whole coordinator.base) (take coordinator.base.number surface.pass.kept.seen) } by { StandsFor-prop surface.pass.kept.mark.first (mounted_whole coordinator.base) (take coordinator.base.number surface.pass.kept.seen) },
}
