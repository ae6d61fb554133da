//! Host trees in step: where each view stands as it stood, they are compared view by view.

ghost use Rattle.std.specs.Prelude.{◌≡◌, [], IfOk, IsTrue, OnOk, map, nat_eq};
ghost use Rattle.std.specs.List.{All, IsDistinct};
ghost use Rattle.host_views.specs.Plain.{host_tags, plain_mutation};
ghost use Rattle.view_flatten.specs.Placed.{plain_place, plain_places};
ghost use Rattle.view_mutation.specs.InStep.{AreInStep, update_before, updates_in_step};
ghost use Rattle.view_mutation.specs.Lookups.{IsListed, place_at};
ghost use Rattle.view_mutation.specs.SameSkipped.{IsSameAsBefore, IsSameButOrigin};

use crate::tags::is_same;
use host_views::Mutation;
use sqlite_items::Items;
use std::alloc::{AllocError, Global};
use view_flatten::Placed;

/// Whether two lists of places have the same tags below the same host parents, place by place.
pub fn are_in_step(old: &[Placed<'_>], new: &[Placed<'_>]) -> bool
    ensures { IsTrue result → AreInStep (plain_places old.now) (plain_places new.now) }
{
    if old.len() != new.len() {
        return false;
    }
    for (at, was) in old.iter().enumerate() {
        let is = &new[at];
        if was.parent != is.parent || was.tag() != is.tag() {
            return false;
        }
    }
    true
}

/// Adds an update, where a view differs from the one that it was.
pub fn add_update(
    alloc: Global,
    list: &mut Items<Mutation>,
    was: &Placed<'_>,
    is: &Placed<'_>,
) -> Result<(), AllocError>
    requires { IsSameButOrigin was.now is.now }
    ensures { OnOk result (IsListed list.old (update_before (plain_place was.now) (plain_place is.now) []) list.new) }
{
    if is_same(was, is) {
        return Ok(());
    }
    let tag = is.tag();
    let view = is.view(alloc)?;
    list.push(Mutation::Update { tag, view })?;
    Ok(())
}

/// The updates between two lists of places in step.
pub fn updates_of(
    alloc: Global,
    old: &[Placed<'_>],
    new: &[Placed<'_>],
) -> Result<Items<Mutation>, AllocError>
    requires step { AreInStep (plain_places old.now) (plain_places new.now) }
    requires differ { IsDistinct nat_eq (host_tags (plain_places new.now)) }
    requires alike { All (λ is. IsSameAsBefore (place_at old.now (plain_place is).tag) is) new.now }
    ensures { IfOk result (λ list. map plain_mutation list ≡ updates_in_step (plain_places old.now) (plain_places new.now)) }
{
    let mut list = Items::new(alloc);
    for (at, is) in new.iter().enumerate() {
        add_update(alloc, &mut list, &old[at], is)?;
    }
    Ok(list)
}
