//! The mutations that lead from one host tree to another.
#![tactic(auto)]

ghost use Rattle.std.specs.Prelude.{◌≡◌, ◌≤◌, length, map, nat_eq, IfOk, OnOk};
ghost use Rattle.std.specs.List.{All, IsDistinct};
ghost use Rattle.counts.specs.Raised.{raised};
ghost use Rattle.tree_settle.specs.Limits.{IsForestInLimits};
ghost use Rattle.shadow_node.specs.Entered.{AreAlikeSince, count_outside, is_kept_since, is_unchanged_since};
ghost use Rattle.shadow_node.specs.Stamps.{stamp_in};
ghost use Rattle.host_views.specs.Plain.{host_tags, plain_mutation};
ghost use Rattle.view_flatten.specs.HostTree.{host_tree_of};
ghost use Rattle.view_flatten.specs.Placed.{plain_place, plain_places};
ghost use Rattle.view_mutation.specs.Lookups.{place_at};
ghost use Rattle.view_mutation.specs.Mutations.{mutations_between};
ghost use Rattle.view_mutation.specs.SameSkipped.{IsSameAsBefore};
ghost use Rattle.view_mutation.specs.Since.{AreTagged};

mod children;
mod in_step;
pub mod laws;
mod pairs;
mod tags;
#[cfg(test)]
mod tests;
mod together;

use children::{add_inserts, add_removes, children_of};
use host_views::Mutation;
use in_step::{are_in_step, updates_of};
use shadow_node::{Forest, Stamps};
use sqlite_items::Items;
use std::alloc::{AllocError, Global};
use tags::{add_creates, add_deletes, add_updates, index_of};
use together::updates_together;
use view_flatten::{Placed, Places, Skip, places};
pub use view_flatten::{Spot, Spots, Walk};

/// The mutations between the host trees of two lists of at most 2,000 places.
fn mutations_of(
    alloc: Global,
    old: &[Placed<'_>],
    new: &[Placed<'_>],
) -> Result<Items<Mutation>, AllocError>
    requires old_count { length old.now ≤ 2000 }
    requires new_count { length new.now ≤ 2000 }
    requires alike { All (λ is. IsSameAsBefore (place_at old.now (plain_place is).tag) is) new.now }
    ensures { IfOk result (λ list. map plain_mutation list ≡ mutations_between (plain_places old.now) (plain_places new.now)) }
{
    let old_children = children_of(alloc, old)?;
    let new_children = children_of(alloc, new)?;
    let old_index = index_of(alloc, old)?;
    let new_index = index_of(alloc, new)?;
    let mut list = Items::new(alloc);
    add_removes(&mut list, old, &old_children, &new_children)?;
    add_deletes(&mut list, old, new, &new_index)?;
    add_creates(alloc, &mut list, new, old, &old_index)?;
    add_updates(alloc, &mut list, new, old, &old_index)?;
    add_inserts(&mut list, new, &old_children, &new_children)?;
    Ok(list)
}

/// The same, where the tags of the new ones differ: lists in step are compared place by place.
fn mutations_in_step(
    alloc: Global,
    old: &[Placed<'_>],
    new: &[Placed<'_>],
) -> Result<Items<Mutation>, AllocError>
    requires old_count { length old.now ≤ 2000 }
    requires new_count { length new.now ≤ 2000 }
    requires differ { IsDistinct nat_eq (host_tags (plain_places new.now)) }
    requires alike { All (λ is. IsSameAsBefore (place_at old.now (plain_place is).tag) is) new.now }
    ensures { IfOk result (λ list. map plain_mutation list ≡ mutations_between (plain_places old.now) (plain_places new.now)) }
{
    if are_in_step(old, new) {
        updates_of(alloc, old, new)
    } else {
        mutations_of(alloc, old, new)
    }
}

/// The mutations that lead from the host tree of one forest to that of another.
pub fn mutations(alloc: Global, old: &Forest, new: &Forest) -> Result<Items<Mutation>, AllocError>
    requires old { IsForestInLimits old.now }
    requires new { IsForestInLimits new.now }
    ensures { IfOk result (λ list. map plain_mutation list ≡ mutations_between (host_tree_of old.now) (host_tree_of new.now)) }
{
    let stamps = Stamps::none();
    let old = places(alloc, &mut Walk::over(old, &stamps), &Skip::Nothing)?;
    let new = places(alloc, &mut Walk::over(new, &stamps), &Skip::Nothing)?;
    mutations_of(alloc, &old.list, &new.list)
}

/// The mutations between the host trees of two walks' forests, by the places of their views.
fn mutations_apart(
    alloc: Global,
    base: u64,
    old: &mut Walk<'_>,
    new: &mut Walk<'_>,
) -> Result<Items<Mutation>, AllocError>
    requires old { IsForestInLimits old.old.forest }
    requires old_tags { AreTagged old.old.forest }
    requires new { IsForestInLimits new.old.forest }
    requires new_tags { AreTagged new.old.forest }
    requires alike { AreAlikeSince (stamp_in new.old.stamps) base old.old.forest new.old.forest }
    ensures list { IfOk result (λ list. map plain_mutation list ≡ mutations_between (host_tree_of old.old.forest) (host_tree_of new.old.forest)) }
    ensures old_entered { OnOk result (old.new ≡ record old.old { entered = raised old.old.entered (count_outside (is_kept_since (stamp_in new.old.stamps) base new.old.forest) old.old.forest) }) }
    ensures new_entered { OnOk result (new.new ≡ record new.old { entered = raised new.old.entered (count_outside (is_unchanged_since (stamp_in new.old.stamps) base) new.old.forest) }) }
{
    let Places {
        list: new_places,
        mut skipped,
    } = places(alloc, new, &Skip::Since(base))?;
    skipped.sort()?;
    let old_places = places(alloc, old, &Skip::Tags(&skipped))?;
    mutations_in_step(alloc, &old_places.list, &new_places)
}

/// The mutations that lead from the host tree of one walk's forest to that of another's.
///
/// Contexts that are unchanged since the base are not entered, nor is what stands for them in the old
/// forest: the two must be alike below them, and they must be shown in both or in neither. The call
/// fails for want of memory alone.
pub fn mutations_since(
    alloc: Global,
    base: u64,
    old: &mut Walk<'_>,
    new: &mut Walk<'_>,
) -> Result<Items<Mutation>, AllocError>
    requires old { IsForestInLimits old.old.forest }
    requires old_tags { AreTagged old.old.forest }
    requires new { IsForestInLimits new.old.forest }
    requires new_tags { AreTagged new.old.forest }
    requires alike { AreAlikeSince (stamp_in new.old.stamps) base old.old.forest new.old.forest }
    ensures list { IfOk result (λ list. map plain_mutation list ≡ mutations_between (host_tree_of old.old.forest) (host_tree_of new.old.forest)) }
    ensures old_entered { OnOk result (old.new ≡ record old.old { entered = raised old.old.entered (count_outside (is_kept_since (stamp_in new.old.stamps) base new.old.forest) old.old.forest) }) }
    ensures new_entered { OnOk result (new.new ≡ record new.old { entered = raised new.old.entered (count_outside (is_unchanged_since (stamp_in new.old.stamps) base) new.old.forest) }) }
{
    match updates_together(alloc, base, old, new)? {
        Some(list) => Ok(list),
        None => mutations_apart(alloc, base, old, new),
    }
}
