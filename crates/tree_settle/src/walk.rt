//! The walk down a forest: nodes that change are made anew, and all others are shared.

ghost use Rattle.std.specs.Prelude.{◌≡◌, ◌+◌, ◌++◌, ◌∷◌, [], List, length, is_some, ◌||◌, unwrap_or, nat_lt, IfOk, OnOk};
ghost use Rattle.native_state.specs.Families.{cell_in};
ghost use Rattle.native_state.specs.Made.{nodes_more};
ghost use Rattle.shadow_node.specs.Forest.{depth_of};
ghost use Rattle.shadow_node.specs.Fields.{contents_of};
ghost use Rattle.shadow_node.specs.Falls.{Shared, trees_of};
ghost use Rattle.tree_settle.specs.Changes.{changes_in};
ghost use Rattle.tree_settle.specs.Limits.{AreFramesInBounds};
ghost use Rattle.tree_settle.specs.Walk.{HasRoomInside, IsTreeInBounds, begun_or, changes_of, settled_in, settled_tree, tree_or};

use crate::node::{frame_in, remade, state_in, stays};
use native_state::FamilyTable;
use shadow_frame::Size;
use shadow_node::{Forest, Made, NodeRef, ShadowNode};
use std::alloc::{AllocError, Global};
use std::sync::Arc;

/// Shares each of the nodes, after those that are there.
fn share_nodes(all: &mut Vec<NodeRef>, nodes: &[NodeRef]) -> Result<(), AllocError>
    ensures { OnOk result (trees_of all.new.items ≡ trees_of all.old.items ++ trees_of nodes.now) }
{
    for node in nodes {
        all.push(Arc::try_clone(node)?)?;
    }
    Ok(())
}

/// Begins the list of new nodes with those before them, where it is not begun.
fn begin(all: &mut Vec<NodeRef>, before: &[NodeRef]) -> Result<(), AllocError>
    ensures { OnOk result (trees_of all.new.items ≡ trees_of (begun_or all.old.items before.now)) }
{
    if all.is_empty() {
        return share_nodes(all, before);
    }
    Ok(())
}

/// The new forest where there is one, and else the one that was, shared.
pub(crate) fn forest_or_shared(new: Option<Forest>, forest: &Forest) -> Result<Forest, AllocError>
    ensures { IfOk result (λ one. one ≡ unwrap_or new forest.now) }
{
    match new {
        Some(new) => Ok(new),
        None => forest.share(),
    }
}

/// Adds a node that does not change to the list of new nodes, where it is begun.
pub(crate) fn push_kept(all: &mut Vec<NodeRef>, node: &NodeRef) -> Result<(), AllocError>
    ensures nodes { OnOk result ((before : List Shared) → trees_of (begun_or all.new.items (before ++ node.now ∷ [])) ≡ trees_of (begun_or all.old.items before) ++ node.now.value ∷ []) }
    ensures begun { OnOk result (nat_lt 0 (length all.new.items) ≡ nat_lt 0 (length all.old.items)) }
{
    if all.is_empty() {
        return Ok(());
    }
    all.push(Arc::try_clone(node)?)?;
    Ok(())
}

/// Adds what a node became to the list of new nodes, which begins at the first change.
pub(crate) fn push_settled(
    all: &mut Vec<NodeRef>,
    before: &[NodeRef],
    node: &NodeRef,
    new: Option<NodeRef>,
) -> Result<(), AllocError>
    ensures nodes { OnOk result (trees_of (begun_or all.new.items (before.now ++ node.now ∷ [])) ≡ trees_of (begun_or all.old.items before.now) ++ tree_or new node.now.value ∷ []) }
    ensures begun { OnOk result (nat_lt 0 (length all.new.items) ≡ (nat_lt 0 (length all.old.items) || is_some new)) }
{
    match new {
        Some(new) => {
            begin(all, before)?;
            all.push(new)?;
            Ok(())
        }
        None => push_kept(all, node),
    }
}

/// A node settled in a parent of that size, or `None` where neither it nor one below it changes.
#[cycle(settle)]
fn settle_node(
    alloc: Global,
    made: &mut Made,
    node: &ShadowNode,
    parent: Size,
    families: &FamilyTable,
) -> Result<Option<NodeRef>, AllocError>
    requires room { HasRoomInside parent (depth_of node.now.children + 1) }
    ensures node { IfOk result (λ new. tree_or new node.now ≡ settled_tree parent (cell_in families.now) node.now) }
    ensures changed { IfOk result (λ new. is_some new ≡ nat_lt 0 (changes_of parent (cell_in families.now) node.now)) }
    ensures bounds { OnOk result (IsTreeInBounds (settled_tree parent (cell_in families.now) node.now)) }
    ensures made { OnOk result (made.new ≡ nodes_more made.old (changes_of parent (cell_in families.now) node.now)) }
{
    node.is_sound();
    let state = state_in(families, node);
    let frame = frame_in(node, parent);
    let children = settle_in(alloc, made, node.children(), frame.size, families)?;
    if stays(node, state, frame, &children) {
        return Ok(None);
    }
    let children = forest_or_shared(children, node.children())?;
    Ok(Some(remade(alloc, made, node, state, frame, children)?))
}

/// A forest settled in a parent of that size, or `None` where none of its nodes changes.
#[cycle(settle)]
pub(crate) fn settle_in(
    alloc: Global,
    made: &mut Made,
    forest: &Forest,
    parent: Size,
    families: &FamilyTable,
) -> Result<Option<Forest>, AllocError>
    requires room { HasRoomInside parent (depth_of forest.now) }
    ensures forest { IfOk result (λ new. unwrap_or new forest.now ≡ settled_in parent (cell_in families.now) (contents_of forest.now)) }
    ensures changed { IfOk result (λ new. is_some new ≡ nat_lt 0 (changes_in parent (cell_in families.now) forest.now)) }
    ensures bounds { OnOk result (AreFramesInBounds (settled_in parent (cell_in families.now) (contents_of forest.now))) }
    ensures made { OnOk result (made.new ≡ nodes_more made.old (changes_in parent (cell_in families.now) forest.now)) }
{
    let nodes = forest.nodes();
    let mut all = Vec::new(alloc);
    for (at, node) in nodes.iter().enumerate() {
        let new = settle_node(alloc, made, node, parent, families)?;
        push_settled(&mut all, &nodes[..at], node, new)?;
    }
    if all.is_empty() {
        Ok(None)
    } else {
        Ok(Some(Forest::of(alloc, all)?))
    }
}
