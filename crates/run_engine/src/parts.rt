//! What the journal tells of a mount.

ghost use Rattle.std.specs.Prelude.{◌≡◌};
ghost use Rattle.run_actor.specs.Event.{mount_by};

use mount_coordinator::Transaction;
use run_report::{MountPart, StepName};

/// The journal's part of a mount, by that step; the closing one is by none.
pub(crate) fn mount_part(transaction: Transaction, by: Option<StepName>) -> MountPart
    ensures { result ≡ mount_by by transaction }
{
    MountPart {
        base: transaction.base,
        to: transaction.to,
        by,
        mutations: transaction.mutations,
    }
}
