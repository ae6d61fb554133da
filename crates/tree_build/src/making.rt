//! Script nodes made into nodes.

ghost use Rattle.std.specs.Prelude.{◌≡◌, IfOk, IfSome, OnOk, if◌then◌else◌, is_some};
ghost use Rattle.native_state.specs.Made.{nodes_more, one_node_more};
ghost use Rattle.native_state.specs.State.{start_cell};
ghost use Rattle.prop_table.specs.Table.{AreNodeProps};
ghost use Rattle.shadow_kinds.specs.Traits.{has_state_of, is_leaf_of};
ghost use Rattle.shadow_node.specs.Forest.{node as plain_node};
ghost use Rattle.shadow_node.specs.Frames.{state_when};
ghost use Rattle.shadow_node.specs.InRange.{IsEditInRange};
ghost use Rattle.shadow_node.specs.Sound.{FitsLeaf};
ghost use Rattle.tree_build.specs.Script.{ScriptForest, in_front, no_more, script_forest};
ghost use Rattle.tree_build.specs.Buildable.{AreBuildable};
ghost use Rattle.tree_build.specs.Resolved.{edited_by};
ghost use Rattle.tree_build.specs.Built.{built, changed_by, made_for};

use crate::ScriptNode;
use crate::held::Held;
use native_state::StateCell;
use prop_table::{Label, NodeProps, node_table};
use shadow_frame::{Point, Rect, Size};
use shadow_kinds::{Kind, has_state};
use shadow_node::{Forest, Made, NodeEdit, NodeRef, Parts, ShadowNode};
use std::alloc::{AllocError, Global};
use std::sync::Arc;

/// The frame of a node that is not placed yet.
const NO_FRAME: Rect = Rect {
    origin: Point { x: 0, y: 0 },
    size: Size {
        width: 0,
        height: 0,
    },
};

/// The state that a node begins with, where its kind has one.
fn starting_state(kind: Kind) -> Option<StateCell>
    ensures { result ≡ state_when (has_state_of kind) start_cell }
{
    if has_state(kind) {
        Some(StateCell::start())
    } else {
        None
    }
}

/// A node's props and label, with a change where one is given.
fn changed(node: &ShadowNode, change: &Option<NodeEdit>) -> Result<(NodeProps, Label), AllocError>
    requires { IfSome change.now IsEditInRange }
    ensures fields { IfOk result (λ after. record { tag = node.now.fields.fields.tag; kind = node.now.fields.fields.kind; props = after.0; label = after.1 } ≡ edited_by change.now node.now.fields.fields) }
    ensures props { IfOk result (λ after. AreNodeProps after.0) }
{
    let Some(change) = change else {
        return Ok((*node.props(), node.label().share()?));
    };
    let props = node_table().merge(node.props(), &change.rows);
    match &change.label {
        Some(label) => Ok((props, label.share()?)),
        None => Ok((props, node.label().share()?)),
    }
}

/// A held node made anew, with a change where one is given and with these children. Its state and
/// its frame stay.
fn remake(
    alloc: Global,
    made: &mut Made,
    node: &ShadowNode,
    change: &Option<NodeEdit>,
    children: Forest,
) -> Result<NodeRef, AllocError>
    requires change { IfSome change.now IsEditInRange }
    requires leaf { FitsLeaf (is_leaf_of node.now.fields.fields.kind) children }
    ensures node { IfOk result (λ new. new.value ≡ record { fields = changed_by change.now node.now.fields; children = children }) }
    ensures made { OnOk result (made.new ≡ one_node_more made.old) }
{
    let (props, label) = changed(node, change)?;
    let parts = Parts {
        props,
        label,
        ..node.with_children(children)?
    };
    ShadowNode::make(alloc, made, parts)
}

/// A held node with its own children: shared, or made anew where a change is given.
fn keep(
    alloc: Global,
    made: &mut Made,
    node: &NodeRef,
    change: &Option<NodeEdit>,
) -> Result<NodeRef, AllocError>
    requires { IfSome change.now IsEditInRange }
    ensures node { IfOk result (λ kept. kept.value ≡ record { fields = changed_by change.now node.now.value.fields; children = node.now.value.children }) }
    ensures made { OnOk result (made.new ≡ nodes_more made.old (if is_some change.now then 1 else 0)) }
{
    if change.is_none() {
        return Arc::try_clone(node);
    }
    node.is_sound();
    let children = node.children().share()?;
    remake(alloc, made, node, change, children)
}

/// The node that a script node names.
#[cycle(making)]
fn make_node(
    alloc: Global,
    made: &mut Made,
    held: &Held,
    node: &ScriptNode,
) -> Result<NodeRef, AllocError>
    requires { AreBuildable held.now (in_front node.now no_more) }
    ensures node { IfOk result (λ new. (rest : ScriptForest) → built held.now (in_front node.now rest) ≡ plain_node new.value.fields new.value.children (built held.now rest)) }
    ensures made { OnOk result ((rest : ScriptForest) → nodes_more made.old (made_for (in_front node.now rest)) ≡ nodes_more made.new (made_for rest)) }
{
    match node {
        ScriptNode::Written {
            tag,
            kind,
            props,
            label,
            children,
        } => {
            let children = make_nodes(alloc, made, held, children.as_slice())?;
            ShadowNode::make(
                alloc,
                made,
                Parts {
                    tag: *tag,
                    kind: *kind,
                    props: *props,
                    label: label.share()?,
                    state: starting_state(*kind),
                    frame: NO_FRAME,
                    children,
                },
            )
        }
        ScriptNode::Kept {
            tag,
            change,
            children,
        } => {
            let Some(node) = held.find(*tag) else {
                unreachable!()
            };
            match children {
                Some(children) => {
                    let children = make_nodes(alloc, made, held, children.as_slice())?;
                    remake(alloc, made, node, change, children)
                }
                None => keep(alloc, made, node, change),
            }
        }
    }
}

/// The forest that script nodes name, in their order.
///
/// What is wrong with them is found before: each kept tag is in the held forest, and no leaf is
/// given a child.
#[cycle(making)]
pub(crate) fn make_nodes(
    alloc: Global,
    made: &mut Made,
    held: &Held,
    nodes: &[ScriptNode],
) -> Result<Forest, AllocError>
    requires { AreBuildable held.now (script_forest nodes.now) }
    ensures forest { IfOk result (λ forest. forest ≡ built held.now (script_forest nodes.now)) }
    ensures made { OnOk result (made.new ≡ nodes_more made.old (made_for (script_forest nodes.now))) }
{
    let mut all = Vec::with_capacity(alloc, nodes.len())?;
    for node in nodes {
        all.push(make_node(alloc, made, held, node)?)?;
    }
    Forest::of(alloc, all)
}
