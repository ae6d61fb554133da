//! What one node gets: its state and its frame.

ghost use Rattle.std.specs.Prelude.{◌≡◌, ◌+◌, ℕ, not, ◌&&◌, is_some, IfOk, OnOk};
ghost use Rattle.std.specs.Option.{option_eq};
ghost use Rattle.native_state.specs.Families.{cell_in};
ghost use Rattle.native_state.specs.Made.{one_node_more};
ghost use Rattle.native_state.specs.Same.{is_same_cell};
ghost use Rattle.shadow_frame.specs.Same.{is_same_frame};
ghost use Rattle.shadow_kinds.specs.Traits.{has_state_of, is_leaf_of};
ghost use Rattle.shadow_node.specs.Frames as frames;
ghost use Rattle.shadow_node.specs.Frames.{state_when};
ghost use Rattle.shadow_node.specs.Sound.{FitsLeaf};
ghost use Rattle.tree_settle.specs.Limits.{IsFrameInBounds};
ghost use Rattle.tree_settle.specs.Walk.{HasRoomInside};

use native_state::{FamilyTable, StateCell};
use shadow_frame::{Rect, Size, place};
use shadow_kinds::{axes_of, has_state};
use shadow_node::{Forest, Made, NodeRef, Parts, ShadowNode};
use std::alloc::{AllocError, Global};

/// The state that a node has: its family's, where its kind has one.
pub(crate) fn state_in(families: &FamilyTable, node: &ShadowNode) -> Option<StateCell>
    ensures { result ≡ state_when (has_state_of node.now.fields.fields.kind) (cell_in families.now node.now.fields.fields.tag) }
{
    if has_state(node.kind()) {
        Some(families.cell(node.tag()))
    } else {
        None
    }
}

/// The frame of a node in a parent of that size.
pub(crate) fn frame_in(node: &ShadowNode, parent: Size) -> Rect
    requires room { HasRoomInside parent 0 }
    ensures value { result ≡ frames.frame_in parent node.now.fields.fields }
    ensures bounds { IsFrameInBounds result }
    ensures room { (levels : ℕ) → HasRoomInside parent (levels + 1) → HasRoomInside result.size levels }
{
    let (x, y) = axes_of(node.props());
    place(x, y, parent)
}

/// Whether a node has that state and that frame already, and no child of it changes.
pub(crate) fn stays(
    node: &ShadowNode,
    state: Option<StateCell>,
    frame: Rect,
    children: &Option<Forest>,
) -> bool
    ensures { result ≡ (not (is_some children.now) && (option_eq is_same_cell state node.now.fields.state && is_same_frame frame node.now.fields.frame)) }
{
    children.is_none() && state == node.state() && frame == node.frame()
}

/// The node made anew, with that state, that frame and those children.
pub(crate) fn remade(
    alloc: Global,
    made: &mut Made,
    node: &ShadowNode,
    state: Option<StateCell>,
    frame: Rect,
    children: Forest,
) -> Result<NodeRef, AllocError>
    requires state { is_some state ≡ has_state_of node.now.fields.fields.kind }
    requires leaf { FitsLeaf (is_leaf_of node.now.fields.fields.kind) children }
    ensures node { IfOk result (λ new. new.value ≡ record { fields = record { fields = node.now.fields.fields; state = state; frame = frame }; children = children }) }
    ensures made { OnOk result (made.new ≡ one_node_more made.old) }
{
    let parts = Parts {
        state,
        frame,
        ..node.with_children(children)?
    };
    ShadowNode::make(alloc, made, parts)
}
