//! Walks down a forest.

ghost use Rattle.std.specs.Prelude.{◌≡◌, ◌<◌, ◌^◌, IfOk};
ghost use Rattle.std.specs.Option.{option_map, option_copied};
ghost use Rattle.shadow_node.specs.Forest.{depth_of, node_count};
ghost use Rattle.shadow_node.specs.Find.{first_settled, way_to};
ghost use Rattle.shadow_node.specs.Walked.{Walked};

use crate::{Forest, NodeRef};
use std::alloc::{AllocError, Global};

/// The first node with that tag, in preorder.
pub fn find(forest: &Forest, tag: u32) -> Option<&NodeRef>
    ensures { option_map (λ node. node.value) (option_copied result) ≡ first_settled tag forest.now }
{
    for node in forest.nodes() {
        if node.tag() == tag {
            return Some(node);
        }
        let children = node.children();
        if children.nodes().is_empty() {
            continue;
        }
        if let Some(found) = find(children, tag) {
            return Some(found);
        }
    }
    None
}

/// Adds the tags on the way to the first node with that tag, where there is one.
fn walk_to(way: &mut Vec<u32>, forest: &Forest, tag: u32) -> Result<bool, AllocError>
    ensures { IfOk result (λ found. Walked found way.old.items way.new.items (way_to tag forest.now)) }
{
    for node in forest.nodes() {
        let is_wanted = node.tag() == tag;
        let children = node.children();
        if !is_wanted && children.nodes().is_empty() {
            continue;
        }
        way.push(node.tag())?;
        if is_wanted || walk_to(way, children, tag)? {
            return Ok(true);
        }
        way.pop();
    }
    Ok(false)
}

/// The tags from a top node down to the first node with that tag, in preorder.
pub fn path_to(alloc: Global, forest: &Forest, tag: u32) -> Result<Option<Vec<u32>>, AllocError>
    ensures { IfOk result (λ path. option_map (λ tags. tags.items) path ≡ way_to tag forest.now) }
{
    let mut way = Vec::new(alloc);
    if walk_to(&mut way, forest, tag)? {
        Ok(Some(way))
    } else {
        Ok(None)
    }
}

/// The number of nodes, which is below 2^64.
pub fn count(forest: &Forest) -> u64
    requires { node_count forest.now < 2 ^ 64 }
    ensures { result ≡ node_count forest.now }
{
    let mut all = 0;
    for node in forest.nodes() {
        all += count(node.children()) + 1;
    }
    all
}

/// The greatest depth of a node: 1 for a top node, and 0 where there is no node.
///
/// There are fewer than 2^64 nodes.
#[tactic(auto, using(crate::proofs::Depths::depth_le_count))]
pub fn depth(forest: &Forest) -> u64
    requires { node_count forest.now < 2 ^ 64 }
    ensures { result ≡ depth_of forest.now }
{
    let mut deepest = 0;
    for node in forest.nodes() {
        let below = depth(node.children()) + 1;
        if below > deepest {
            deepest = below;
        }
    }
    deepest
}
