//! A change of one node: the nodes on the way to it are made anew, and all others are shared.
#![tactic(auto)]

ghost use Rattle.std.specs.Prelude.{◌≡◌, ◌<◌, [], length, nat_eq, Some, is_some, unwrap_or, slice_set, IfOk, IfSome, OnOk};
ghost use Rattle.std.specs.List.{IsDistinct};
ghost use Rattle.std.specs.Option.{option_copied, option_map};
ghost use Rattle.native_state.specs.Made.{nodes_more, one_node_more};
ghost use Rattle.shadow_kinds.specs.Traits.{is_leaf_of};
ghost use Rattle.shadow_node.specs.Edit.{edited_settled};
ghost use Rattle.shadow_node.specs.Falls.{trees_of};
ghost use Rattle.shadow_node.specs.Fields.{contents_of, tags_of};
ghost use Rattle.shadow_node.specs.Find.{first_settled, way_to};
ghost use Rattle.shadow_node.specs.Forest.{forest_of};
ghost use Rattle.shadow_node.specs.InRange.{IsEditInRange};
ghost use Rattle.shadow_node.specs.Limits.{IsForestWithin};
ghost use Rattle.shadow_node.specs.Sound.{FitsLeaf};
ghost use Rattle.clone_path.specs.Changed.{forest_edited_at};

#[cfg(test)]
mod tests;

use prop_table::{Label, node_table};
use shadow_node::{Forest, Made, NodeEdit, NodeRef, Parts, ShadowNode, path_to};
use std::alloc::{AllocError, Global};
use std::sync::Arc;

/// The node's label after the change: the one that the change gives, or else the node's own.
fn label_after(node: &ShadowNode, change: &NodeEdit) -> Result<Label, AllocError>
    ensures { IfOk result (λ label. label ≡ unwrap_or change.now.label node.now.fields.fields.label) }
{
    match &change.label {
        Some(label) => label.share(),
        None => node.label().share(),
    }
}

/// The node with the change; its state, its frame and its children stay.
fn edited_node(
    alloc: Global,
    made: &mut Made,
    node: &ShadowNode,
    change: &NodeEdit,
) -> Result<NodeRef, AllocError>
    requires { IsEditInRange change.now }
    ensures node { IfOk result (λ new. new.value ≡ record { fields = edited_settled change.now node.now.fields; children = node.now.children }) }
    ensures made { OnOk result (made.new ≡ one_node_more made.old) }
{
    let parts = Parts {
        props: node_table().merge(node.props(), &change.rows),
        label: label_after(node, change)?,
        ..node.with_children(node.children().share()?)?
    };
    ShadowNode::make(alloc, made, parts)
}

/// The node with other children, of which a leaf has none.
fn node_above(
    alloc: Global,
    made: &mut Made,
    node: &ShadowNode,
    children: Forest,
) -> Result<NodeRef, AllocError>
    requires { FitsLeaf (is_leaf_of node.now.fields.fields.kind) children }
    ensures node { IfOk result (λ new. new.value ≡ record { fields = node.now.fields; children = children }) }
    ensures made { OnOk result (made.new ≡ one_node_more made.old) }
{
    ShadowNode::make(alloc, made, node.with_children(children)?)
}

/// The forest of these nodes with another one at that index; all others are shared.
fn forest_with(
    alloc: Global,
    nodes: &[NodeRef],
    at: usize,
    new: NodeRef,
) -> Result<Forest, AllocError>
    requires { at < length nodes.now }
    ensures { IfOk result (λ forest. forest ≡ forest_of (slice_set (trees_of nodes.now) at new.value)) }
{
    let mut all = Vec::with_capacity(alloc, nodes.len())?;
    for node in nodes {
        all.push(Arc::try_clone(node)?)?;
    }
    all[at] = new;
    Forest::of(alloc, all)
}

/// The node of a tag, by the way to it. Of each list of children that the way goes through, the nodes
/// before it are looked at once, and nothing below them.
///
/// The tags of the forest differ.
pub fn find_along<'a>(forest: &'a Forest, way: &[u32], tag: u32) -> Option<&'a NodeRef>
    requires tags { IsDistinct nat_eq (tags_of (contents_of forest.now)) }
    requires way { way_to tag forest.now ≡ Some way.now }
    ensures { option_map (λ node. node.value) (option_copied result) ≡ first_settled tag forest.now }
{
    let (first, below) = way.split_first()?;
    for node in forest.nodes() {
        if node.tag() == tag {
            return Some(node);
        }
        if node.tag() == *first {
            return find_along(node.children(), below, tag);
        }
    }
    None
}

/// The forest with a change of the node of that tag, by the way to it.
///
/// The tags of the forest differ, and the change is in range. `made` rises by the length of the way.
pub fn replace_along(
    alloc: Global,
    made: &mut Made,
    forest: &Forest,
    way: &[u32],
    tag: u32,
    change: &NodeEdit,
) -> Result<Forest, AllocError>
    requires tags { IsDistinct nat_eq (tags_of (contents_of forest.now)) }
    requires way { way_to tag forest.now ≡ Some way.now }
    requires change { IsEditInRange change.now }
    ensures forest { IfOk result (λ changed. changed ≡ forest_edited_at tag change.now forest.now) }
    ensures within { IfOk result (λ changed. IsForestWithin (contents_of forest.now) → IsForestWithin (contents_of changed)) }
    ensures made { OnOk result (made.new ≡ nodes_more made.old (length way.now)) }
{
    let Some((first, below)) = way.split_first() else {
        return forest.share();
    };
    let nodes = forest.nodes();
    for (at, node) in nodes.iter().enumerate() {
        if node.tag() == tag {
            let new = edited_node(alloc, made, node, change)?;
            return forest_with(alloc, nodes, at, new);
        }
        if node.tag() == *first {
            let children = replace_along(alloc, made, node.children(), below, tag, change)?;
            node.is_sound();
            let new = node_above(alloc, made, node, children)?;
            return forest_with(alloc, nodes, at, new);
        }
    }
    forest.share()
}

/// The forest with a change of the node of that tag, where there is one.
///
/// The tags of the forest differ, and the change is in range. `made` rises by the node's depth, and
/// stays where there is no such node.
pub fn replace_at(
    alloc: Global,
    made: &mut Made,
    forest: &Forest,
    tag: u32,
    change: &NodeEdit,
) -> Result<Option<Forest>, AllocError>
    requires tags { IsDistinct nat_eq (tags_of (contents_of forest.now)) }
    requires change { IsEditInRange change.now }
    ensures found { IfOk result (λ found. is_some found ≡ is_some (first_settled tag forest.now)) }
    ensures forest { IfOk result (λ found. IfSome found (λ changed. changed ≡ forest_edited_at tag change.now forest.now)) }
    ensures within { IfOk result (λ found. IfSome found (λ changed. IsForestWithin (contents_of forest.now) → IsForestWithin (contents_of changed))) }
    ensures made { OnOk result (made.new ≡ nodes_more made.old (length (unwrap_or (way_to tag forest.now) []))) }
{
    match path_to(alloc, forest, tag)? {
        Some(way) => {
            let changed = replace_along(alloc, made, forest, &way, tag, change)?;
            Ok(Some(changed))
        }
        None => Ok(None),
    }
}
