//! Flattening: the host tree of a forest, whole or without what lies below some nodes.
#![tactic(auto)]

ghost use Rattle.std.specs.Prelude.{◌≡◌, ◌≤◌, length, IfOk, OnOk};
ghost use Rattle.tree_settle.specs.Limits.{IsForestInLimits};
ghost use Rattle.host_views.specs.Plain.{plain_tree};
ghost use Rattle.shadow_node.specs.Entered.{count_outside};
ghost use Rattle.shadow_node.specs.Pruned.{pruned, skipped_tags};
ghost use Rattle.view_flatten.specs.HostTree.{host_tree_of};
ghost use Rattle.view_flatten.specs.Placed.{AreMarked, IsSameWalk, plain_places};
ghost use Rattle.view_flatten.specs.Skips.{DoTagsRise, skips};
ghost use Rattle.view_flatten.specs.Walks.{entered_more};

pub mod laws;
mod placing;
mod sites;
mod skips;
#[cfg(test)]
mod tests;
mod walks;

use host_views::{HostTree, PlacedView};
use placing::{add_below, put_in_order};
pub use placing::{Placed, Places};
use shadow_node::{Forest, Stamps};
use sites::{Found, add_forest};
pub use sites::{Host, host_below, shown_host};
pub use skips::Skip;
use sqlite_items::Items;
use std::alloc::{AllocError, Global};
pub use walks::{Spot, Spots, Walk};

/// The places of the views that a walk finds, which leaves out what lies below some nodes.
///
/// A node that is not entered has its own place, where it is shown and forms a view. Nodes that are
/// hidden are entered and counted, as all others. The call fails for want of memory alone.
pub fn places<'a>(alloc: Global, walk: &mut Walk<'a>, skip: &Skip) -> Result<Places<'a>, AllocError>
    requires limits { IsForestInLimits walk.old.forest }
    requires rise { DoTagsRise skip.now }
    ensures tree { IfOk result (λ places. plain_places places.list.items ≡ host_tree_of (pruned (skips skip.now walk.old.stamps) walk.old.forest)) }
    ensures count { IfOk result (λ places. length places.list.items ≤ 2000) }
    ensures marked { IfOk result (λ places. AreMarked (skips skip.now walk.old.stamps) places.list.items) }
    ensures skipped { IfOk result (λ places. places.skipped.items ≡ skipped_tags (skips skip.now walk.old.stamps) walk.old.forest) }
    ensures entered { OnOk result (walk.new ≡ entered_more walk.old (count_outside (skips skip.now walk.old.stamps) walk.old.forest)) }
    ensures same { IsSameWalk walk.old walk.new }
{
    let mut found = Found {
        sites: Vec::new(alloc),
        skipped: Vec::new(alloc),
    };
    let top = walk.top();
    add_forest(walk, &mut found, top, Some(Host::root()), skip)?;
    let Found { mut sites, skipped } = found;
    put_in_order(&mut sites)?;
    let mut list = Vec::with_capacity(alloc, sites.len())?;
    add_below(&mut list, &sites, 0, sites.len())?;
    Ok(Places { list, skipped })
}

/// The views at some places, each made.
fn views_at(alloc: Global, places: &[Placed]) -> Result<HostTree, AllocError>
    ensures { IfOk result (λ tree. plain_tree tree ≡ plain_places places.now) }
{
    let mut views = Items::new(alloc);
    for placed in places {
        views.push(PlacedView {
            tag: placed.tag(),
            parent: placed.parent,
            index: placed.index,
            view: placed.view(alloc)?,
        })?;
    }
    Ok(HostTree { views })
}

/// The host tree of a revision's forest: each node that forms a view and is shown, below its
/// nearest ancestor that forms a context, in host preorder.
///
/// The children of a host parent stand by z, and where z is equal in preorder. Their frames are in
/// that parent. The call fails for want of memory alone, and takes time in n log n.
pub fn flatten(alloc: Global, forest: &Forest) -> Result<HostTree, AllocError>
    requires { IsForestInLimits forest.now }
    ensures tree { IfOk result (λ tree. plain_tree tree ≡ host_tree_of forest.now) }
    ensures count { IfOk result (λ tree. length tree.views ≤ 2000) }
{
    let stamps = Stamps::none();
    let mut walk = Walk::over(forest, &stamps);
    let found = places(alloc, &mut walk, &Skip::Nothing)?;
    views_at(alloc, &found.list)
}
