//! What threads share, and what is handed to them.

ghost use denote.Hole.{as_row};
ghost use denote.Param.Send.{IsSend, IsSync};
ghost use Rattle.std.specs.contracts.option.Option as option_type;
ghost use Rattle.atomic_table.specs.contracts.shared.Seat as seat_type;
ghost use Rattle.commit_spine.specs.contracts.pass.SpinePass as pass_type;
ghost use Rattle.commit_spine.specs.contracts.rule.Kept as kept_type;
ghost use Rattle.commit_spine.specs.contracts.spine_parts.Spine as spine_type;
ghost use Rattle.commit_spine.specs.contracts.store.Store as store_type;

use crate::pass::SpinePass;
use crate::rule::SpineSeat;
use crate::spine_parts::Spine;
use crate::store::Store;

/// A value of that type may go to another thread.
fn needs_send<T: Send>(_none: Option<&T>)
    ensures { IsSend T.row }
{}

/// Threads may share a value of that type.
fn needs_sync<T: Sync>(_none: Option<&T>)
    ensures { IsSync T.row }
{}

/// Threads share a spine, and stores are handed to them.
pub fn spines_are_shared()
    ensures { IsSync (as_row spine_type.the_field) }
{
    needs_send::<Store>(None);
    needs_send::<Spine>(None);
    needs_sync::<Spine>(None);
}

/// What a pass steps with may go to another thread.
fn seats_are_sent()
    ensures { IsSend (as_row (seat_type.the_field (option_type.the_row store_type.the_row) kept_type.the_row)) }
{
    needs_send::<SpineSeat>(None);
}

/// A pass may go to another thread.
pub fn passes_are_sent()
    ensures { IsSend (as_row pass_type.the_field) }
{
    seats_are_sent();
    needs_send::<SpinePass>(None);
}
