//! What may go to other threads.

ghost use denote.Hole.{as_row};
ghost use denote.Param.Send.{IsSend};
ghost use Rattle.std.specs.contracts.sync.Arc as arc_type;
ghost use Rattle.std.specs.contracts.alloc.Global as global_type;
ghost use Rattle.std.specs.contracts.impls.GlobalAllocator.TheImpl as global_impl;
ghost use Rattle.tree_revision.specs.contracts.record.Op as op_type;
ghost use Rattle.tree_revision.specs.contracts.record.Record as record_type;
ghost use Rattle.tree_revision.specs.contracts.revision.Revision as revision_type;
ghost use Rattle.commit_core.specs.contracts.committer.Committer as commit_type;
ghost use Rattle.commit_core.specs.contracts.committer.HookedCommitter as hooked_type;
ghost use Rattle.commit_core.specs.contracts.committer.Phase as phase_type;
ghost use Rattle.commit_core.specs.contracts.committer.ReadyCommit as ready_type;

use crate::committer::{Committer, HookedCommitter, Phase, ReadyCommit};
use std::sync::Arc;
use tree_revision::{Op, Record, Revision};

/// A value of that type may go to another thread.
fn needs_send<T: Send>(_none: Option<&T>)
    ensures { IsSend T.row }
{}

/// A record may go to another thread.
fn records_are_sent()
    ensures { IsSend (as_row record_type.the_field) }
{
    needs_send::<Record>(None);
}

/// A revision may go to another thread.
fn revisions_are_sent()
    ensures { IsSend (as_row revision_type.the_field) }
{
    needs_send::<Revision>(None);
}

/// A shared change may go to another thread.
fn shared_changes_are_sent()
    ensures { IsSend (as_row (arc_type.the_field op_type.the_row global_type.the_row global_impl.ghosts)) }
{
    needs_send::<Arc<Op>>(None);
}

/// A commit that has looked may go to another thread.
fn ready_commits_are_sent()
    ensures { IsSend (as_row ready_type.the_field) }
{
    records_are_sent();
    shared_changes_are_sent();
    revisions_are_sent();
    needs_send::<ReadyCommit>(None);
}

/// A phase may go to another thread.
fn phases_are_sent()
    ensures { IsSend (as_row phase_type.the_field) }
{
    records_are_sent();
    ready_commits_are_sent();
    needs_send::<Phase>(None);
}

/// A commit under way that asks for what is wished may go to another thread.
pub fn hooked_commits_are_sent()
    ensures { IsSend (as_row hooked_type.the_field) }
{
    phases_are_sent();
    revisions_are_sent();
    needs_send::<HookedCommitter>(None);
}

/// A commit under way may go to another thread.
pub fn commits_are_sent()
    ensures { IsSend (as_row commit_type.the_field) }
{
    hooked_commits_are_sent();
    needs_send::<Committer>(None);
}
