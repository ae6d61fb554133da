//! The revision after a change.

ghost use Rattle.std.specs.Prelude.{◌≡◌, ℕ, ◌+◌, ◌-◌, ◌≤◌, ◌<◌, ◌^◌, List, [], ◌∷◌, ◌++◌, length, take, Some, IfOk, IfSome, OnOk, IfErr, unwrap_or};
ghost use Rattle.std.specs.Option.{option_map};
ghost use Rattle.shadow_frame.specs.declared.Size.{Size as SurfaceSize};
ghost use Rattle.counts.specs.Raised.{raised};
ghost use Rattle.tree_revision.specs.InRange.{IsOpInRange};
ghost use Rattle.tree_revision.specs.Records.{PlainRecord, plain_op};
ghost use Rattle.tree_revision.specs.Cancels.{cancel_of};
ghost use Rattle.tree_revision.specs.Stands.{StandsFor};
ghost use Rattle.tree_revision.specs.Made.{IsMadeFor};
ghost use Rattle.tree_revision.specs.OneMore.{StandsForOneMore, IsCancelledFor};
ghost use Rattle.tree_revision.specs.Prepared.{mountable_next};
ghost use Rattle.tree_revision.specs.Settled.{SettledRevision};
ghost use Rattle.tree_revision.specs.Steps.{refusal_for};
ghost use Rattle.tree_revision.specs.declared.record.Cancel.{Cancel as CancelValue};
ghost use Rattle.tree_revision.specs.declared.next.PrepareRefusal.TheVariants.{Cancel as CancelRefusal, Memory};

use crate::after::after;
use crate::record::{Cancel, Op};
use crate::revision::{Content, Revision};
use shadow_node::Made;
use std::alloc::{AllocError, Global};
use std::sync::Arc;
use tree_build::BuildRefusal;

/// Why a change leads to no revision.
#[derive(Clone, Copy, Debug, PartialEq, Eq)]
pub enum PrepareRefusal {
    /// The change is cancelled.
    Cancel(Cancel),
    /// There was no memory.
    Memory,
}

impl From<AllocError> for PrepareRefusal {
    ghost from_gives = { λ _ refusal. refusal ≡ Memory };

    fn from(_: AllocError) -> PrepareRefusal {
        PrepareRefusal::Memory
    }
}

impl From<BuildRefusal> for PrepareRefusal {
    ghost from_gives = { λ refusal result. result ≡ refusal_for refusal };

    fn from(refusal: BuildRefusal) -> PrepareRefusal {
        PrepareRefusal::Cancel(match refusal {
            BuildRefusal::Unkept { tag } => Cancel::Unkept { tag },
            BuildRefusal::ChildOfLeaf { tag } => Cancel::ChildOfLeaf { tag },
            BuildRefusal::TwiceTag { tag } => Cancel::TwiceTag { tag },
            BuildRefusal::TooDeep => Cancel::TooDeep,
            BuildRefusal::TooManyNodes => Cancel::TooManyNodes,
            BuildRefusal::Memory => return PrepareRefusal::Memory,
        })
    }
}

/// The content that mounting stands still at after a change of the front, where it does.
fn still_after(alloc: Global, op: &Op, front: &Revision) -> Result<Option<Arc<Content>>, AllocError>
    ensures mountable { IfOk result (λ still. (next : SettledRevision) → unwrap_or (option_map (λ content. content.value) still) next ≡ mountable_next (plain_op op.now) front.now next) }
    ensures older { IfOk result (λ still. IfSome still (λ content. content.value.number ≤ front.now.newest.number)) }
{
    match (op, &front.still) {
        (Op::Resume, _) => Ok(None),
        (Op::Suspend, None) => Ok(Some(Arc::new(alloc, front.content.share()?)?)),
        (_, None) => Ok(None),
        (_, Some(still)) => Ok(Some(Arc::try_clone(still)?)),
    }
}

/// The settled revision after a change of the front, by a caller that holds that revision.
///
/// The front stands for a list of records, and the held revision for the first of them. The next
/// one stands for that list and one more record, exactly where nothing cancels the change there;
/// else the cause is answered. On success `made` rises by the nodes that are made for the change
/// and by those that settling makes, and by at most 65 families for a change of state and for each
/// new family.
pub fn prepare(
    alloc: Global,
    made: &mut Made,
    op: &Op,
    front: &Revision,
    held: &Revision,
) -> Result<Revision, PrepareRefusal>
    requires op { IsOpInRange (plain_op op.now) }
    requires number { front.now.newest.number < 2 ^ 64 - 1 }
    ensures next { IfOk result (StandsForOneMore (plain_op op.now) front.now held.now) }
    ensures cancelled { IfErr result (IsCancelledFor (plain_op op.now) front.now held.now) }
    ensures made { IfOk result (λ next. IsMadeFor (plain_op op.now) front.now.newest held.now.newest next.newest made.old made.new) }
{
    let content = after(alloc, made, op, &front.content, &held.content)?;
    let still = still_after(alloc, op, front)?;
    Ok(Revision { content, still })
}
