//! What is handed to the threads of workers, and what they share.

ghost use denote.Hole.{as_row};
ghost use denote.Param.Send.{IsSend, IsSync};
ghost use denote.Ref.{NamedLft};
ghost use Rattle.mount_coordinator.specs.contracts.coordinator.Coordinator as coordinator_type;
ghost use Rattle.run_engine.specs.contracts.jobs.Job as job_type;

use commit_spine::passes_are_sent;
use mount_coordinator::Coordinator;
use run_actor::actors_are_sent;

/// A value of that type may go to another thread.
fn needs_send<T: Send>(_none: Option<&T>)
    ensures { IsSend T.row }
{}

/// Threads may share a value of that type.
pub(crate) fn needs_sync<T: Sync>(_none: Option<&T>)
    ensures { IsSync T.row }
{}

/// A coordinator may go to another thread.
fn coordinators_are_sent()
    ensures { IsSend (as_row coordinator_type.the_field) }
{
    needs_send::<Coordinator>(None);
}

/// A job may go to another thread.
pub(crate) fn jobs_are_sent()
    ensures { (steps : NamedLft) → IsSend (as_row (job_type.the_field steps)) }
{
    actors_are_sent();
    passes_are_sent();
    coordinators_are_sent();
}
