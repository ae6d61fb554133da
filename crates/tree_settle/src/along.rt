//! The walk along a way: what is settled in its parent already is left without a look below it.

ghost use Rattle.std.specs.Prelude.{◌≡◌, ◌+◌, ◌++◌, true, false, Decides, is_some, unwrap_or, nat_lt, IfOk, OnOk};
ghost use Rattle.native_state.specs.Families.{cell_in};
ghost use Rattle.native_state.specs.Made.{nodes_more};
ghost use Rattle.shadow_kinds.specs.Traits.{has_state_of};
ghost use Rattle.shadow_node.specs.Forest.{depth_of};
ghost use Rattle.shadow_node.specs.Fields.{contents_of};
ghost use Rattle.shadow_node.specs.Frames.{state_when};
ghost use Rattle.tree_settle.specs.Along.{IsSettledBut, IsTreeSettledBut, changed_tags, changed_tags_of, leads_to, way_at};
ghost use Rattle.tree_settle.specs.Changes.{changes_in};
ghost use Rattle.tree_settle.specs.Limits.{AreFramesInBounds};
ghost use Rattle.tree_settle.specs.Walk.{HasRoomInside, IsTreeInBounds, changes_of, settled_in, settled_tree, tree_or};

use crate::SizeChange;
use crate::node::{frame_in, remade, state_in, stays};
use crate::walk::{forest_or_shared, push_kept, push_settled};
use native_state::{FamilyTable, StateCell};
use shadow_node::{Forest, Made, NodeRef, ShadowNode};
use std::alloc::{AllocError, Global};

/// Whether a parent keeps its size.
fn is_kept(size: SizeChange) -> bool
    ensures { Decides result (size.before ≡ size.after) }
{
    size.before == size.after
}

/// Whether a way leads to a node, and the way below it.
pub(crate) fn way_under<'a>(way: &'a [u32], node: &ShadowNode) -> (bool, &'a [u32])
    ensures leads { result.0 ≡ leads_to way.now node.now.fields.fields.tag }
    ensures below { result.1.now ≡ way_at way.now node.now.fields.fields.tag }
{
    match way.split_first() {
        Some((first, below)) if *first == node.tag() => (true, below),
        _ => (false, &[]),
    }
}

/// Whether a node stays as it is: its parent keeps its size, and the way does not lead to it.
fn is_passed(size: SizeChange, way: &[u32], node: &ShadowNode) -> bool
    ensures { Decides result ((size.before ≡ size.after) × (leads_to way.now node.now.fields.fields.tag ≡ false)) }
{
    is_kept(size) && !way_under(way, node).0
}

/// The state of a node: its family's where it is on the way, and else the same, which it has.
fn state_along(families: &FamilyTable, node: &ShadowNode, is_on_way: bool) -> Option<StateCell>
    requires { is_on_way ≡ false → node.now.fields.state ≡ state_when (has_state_of node.now.fields.fields.kind) (cell_in families.now node.now.fields.fields.tag) }
    ensures { result ≡ state_when (has_state_of node.now.fields.fields.kind) (cell_in families.now node.now.fields.fields.tag) }
{
    if is_on_way {
        state_in(families, node)
    } else {
        node.state()
    }
}

/// A node settled in a parent whose size changes, or `None` where neither it nor one below it does.
#[cycle(settle_along)]
fn settle_along_node(
    alloc: Global,
    made: &mut Made,
    changed: &mut Vec<u32>,
    node: &ShadowNode,
    size: SizeChange,
    families: &FamilyTable,
    way: &[u32],
) -> Result<Option<NodeRef>, AllocError>
    requires room { HasRoomInside size.after (depth_of node.now.children + 1) }
    requires frames { IsTreeInBounds node.now }
    requires but { IsTreeSettledBut size.before (cell_in families.now) way.now node.now }
    ensures node { IfOk result (λ new. tree_or new node.now ≡ settled_tree size.after (cell_in families.now) node.now) }
    ensures changed { IfOk result (λ new. is_some new ≡ nat_lt 0 (changes_of size.after (cell_in families.now) node.now)) }
    ensures bounds { OnOk result (IsTreeInBounds (settled_tree size.after (cell_in families.now) node.now)) }
    ensures made { OnOk result (made.new ≡ nodes_more made.old (changes_of size.after (cell_in families.now) node.now)) }
    ensures tags { OnOk result (changed.new.items ≡ changed.old.items ++ changed_tags_of size.after (cell_in families.now) node.now) }
{
    node.is_sound();
    let (is_on_way, below) = way_under(way, node);
    let state = state_along(families, node, is_on_way);
    let frame = frame_in(node, size.after);
    let inside = SizeChange {
        before: node.frame().size,
        after: frame.size,
    };
    let children = settle_along_in(
        alloc,
        made,
        changed,
        node.children(),
        inside,
        families,
        below,
    )?;
    if stays(node, state, frame, &children) {
        return Ok(None);
    }
    changed.push(node.tag())?;
    let children = forest_or_shared(children, node.children())?;
    Ok(Some(remade(alloc, made, node, state, frame, children)?))
}

/// A forest settled in a parent whose size changes, or `None` where none of its nodes does.
#[cycle(settle_along)]
pub(crate) fn settle_along_in(
    alloc: Global,
    made: &mut Made,
    changed: &mut Vec<u32>,
    forest: &Forest,
    size: SizeChange,
    families: &FamilyTable,
    way: &[u32],
) -> Result<Option<Forest>, AllocError>
    requires room { HasRoomInside size.after (depth_of forest.now) }
    requires frames { AreFramesInBounds forest.now }
    requires but { IsSettledBut size.before (cell_in families.now) way.now forest.now }
    ensures forest { IfOk result (λ new. unwrap_or new forest.now ≡ settled_in size.after (cell_in families.now) (contents_of forest.now)) }
    ensures changed { IfOk result (λ new. is_some new ≡ nat_lt 0 (changes_in size.after (cell_in families.now) forest.now)) }
    ensures bounds { OnOk result (AreFramesInBounds (settled_in size.after (cell_in families.now) (contents_of forest.now))) }
    ensures made { OnOk result (made.new ≡ nodes_more made.old (changes_in size.after (cell_in families.now) forest.now)) }
    ensures tags { OnOk result (changed.new.items ≡ changed.old.items ++ changed_tags size.after (cell_in families.now) forest.now) }
{
    if way.is_empty() && is_kept(size) {
        return Ok(None);
    }
    let nodes = forest.nodes();
    let mut all = Vec::new(alloc);
    for (at, node) in nodes.iter().enumerate() {
        if is_passed(size, way, node) {
            push_kept(&mut all, node)?;
            continue;
        }
        let new = settle_along_node(alloc, made, changed, node, size, families, way)?;
        push_settled(&mut all, &nodes[..at], node, new)?;
    }
    if all.is_empty() {
        Ok(None)
    } else {
        Ok(Some(Forest::of(alloc, all)?))
    }
}
