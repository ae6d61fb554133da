//! Settling: each node gets its family's state and its frame.
#![tactic(auto)]

ghost use Rattle.std.specs.Prelude.{◌≡◌, ◌≤◌, ◌++◌, IfOk, OnOk};
ghost use Rattle.native_state.specs.Families.{cell_in};
ghost use Rattle.native_state.specs.Made.{nodes_more};
ghost use Rattle.shadow_node.specs.Fields.{contents_of};
ghost use Rattle.shadow_node.specs.Forest.{depth_of};
ghost use Rattle.shadow_node.specs.Frames.{settled_forest};
ghost use Rattle.shadow_node.specs.Limits.{IsForestWithin};
ghost use Rattle.tree_settle.specs.Along.{IsSettledBut, changed_tags};
ghost use Rattle.tree_settle.specs.Changes.{changes_in};
ghost use Rattle.tree_settle.specs.Limits.{AreFramesInBounds, IsForestInLimits, IsSizeInRange};

mod along;
mod node;
#[cfg(test)]
mod tests;
mod walk;

use along::settle_along_in;
use native_state::FamilyTable;
use shadow_frame::Size;
use shadow_node::{Forest, Made};
use std::alloc::{AllocError, Global};
use walk::{forest_or_shared, settle_in};

/// The forest of a surface of that size: each node with its family's state, where its kind has one,
/// and with its frame.
///
/// The size is from 0 to 1,000,000 points each way, and the forest is at most 48 deep. `made` rises
/// by one for each node whose state or frame is another, or below which there is such a node; all
/// others are shared.
pub fn settle(
    alloc: Global,
    made: &mut Made,
    forest: &Forest,
    size: Size,
    families: &FamilyTable,
) -> Result<Forest, AllocError>
    requires size { IsSizeInRange size }
    requires depth { depth_of forest.now ≤ 48 }
    ensures forest { IfOk result (λ settled. settled ≡ settled_forest size (cell_in families.now) (contents_of forest.now)) }
    ensures frames { IfOk result AreFramesInBounds }
    ensures limits { IfOk result (λ settled. IsForestWithin (contents_of forest.now) → IsForestInLimits settled) }
    ensures made { OnOk result (made.new ≡ nodes_more made.old (changes_in size (cell_in families.now) forest.now)) }
{
    let new = settle_in(alloc, made, forest, size, families)?;
    forest_or_shared(new, forest)
}

/// A parent's size, before a change and after it, in whole points.
#[derive(Clone, Copy)]
pub struct SizeChange {
    pub before: Size,
    pub after: Size,
}

/// The forest of a surface, where it was settled for the size before, but for the nodes on a way:
/// the tags from a top node down.
///
/// The size after is from 0 to 1,000,000 points each way, and the forest is at most 48 deep, with
/// its frames in bounds. All is as `settle` has it, at less cost: nodes on the way are entered, and
/// else only what lies in a parent whose size changes. The tags of the nodes that change are added
/// to a list, each after those below it; where memory is missing, some of them may be there.
pub fn settle_along(
    alloc: Global,
    made: &mut Made,
    changed: &mut Vec<u32>,
    forest: &Forest,
    size: SizeChange,
    families: &FamilyTable,
    way: &[u32],
) -> Result<Forest, AllocError>
    requires size { IsSizeInRange size.after }
    requires depth { depth_of forest.now ≤ 48 }
    requires frames { AreFramesInBounds forest.now }
    requires but { IsSettledBut size.before (cell_in families.now) way.now forest.now }
    ensures forest { IfOk result (λ settled. settled ≡ settled_forest size.after (cell_in families.now) (contents_of forest.now)) }
    ensures frames { IfOk result AreFramesInBounds }
    ensures limits { IfOk result (λ settled. IsForestWithin (contents_of forest.now) → IsForestInLimits settled) }
    ensures made { OnOk result (made.new ≡ nodes_more made.old (changes_in size.after (cell_in families.now) forest.now)) }
    ensures changed { OnOk result (changed.new.items ≡ changed.old.items ++ changed_tags size.after (cell_in families.now) forest.now) }
{
    let new = settle_along_in(alloc, made, changed, forest, size, families, way)?;
    forest_or_shared(new, forest)
}
