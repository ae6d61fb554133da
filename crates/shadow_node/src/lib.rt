//! Immutable shared nodes.
//!
//! A node is made once and never changed: a change makes a new node and shares what stays.
#![tactic(auto)]

ghost use Rattle.std.specs.Prelude.{◌≡◌, ◌<◌, ◌≤◌, ◌^◌, IfOk, OnOk, OnErr, is_some};
ghost use Rattle.native_state.specs.Made.{one_node_more};
ghost use Rattle.prop_table.specs.Table.{AreNodeProps};
ghost use Rattle.shadow_kinds.specs.Traits.{has_state_of, is_leaf_of};
ghost use Rattle.shadow_node.specs.Forest.{none};
ghost use Rattle.shadow_node.specs.Parts.{node_of, parts_of};
ghost use Rattle.shadow_node.specs.Sound.{FitsLeaf, IsSoundNode};
ghost use Rattle.shadow_node.specs.Falls.{forest_at};

mod stamps;
#[cfg(test)]
mod tests;
mod walks;

pub use native_state::Made;
use native_state::StateCell;
use prop_table::{EditRows, Label, NodeProps};
use shadow_frame::Rect;
use shadow_kinds::Kind;
pub use stamps::Stamps;
use std::alloc::{AllocError, Global};
use std::marker::Model;
use std::sync::Arc;
pub use walks::{count, depth, find, path_to};

/// A node of a shadow tree.
#[cycle(node)]
#[derive(Drop)]
pub struct ShadowNode {
    tag: u32,
    kind: Kind,
    props: NodeProps,
    label: Label,
    state: Option<StateCell>,
    frame: Rect,
    children: Forest,
}

/// A shared node.
pub type NodeRef = Arc<ShadowNode>;

/// A shared list of nodes.
#[cycle(node)]
#[derive(Drop)]
pub struct Forest {
    nodes: Option<Arc<Vec<NodeRef>>>,
}

impl Model for ShadowNode {
    ghost use Rattle.shadow_node.specs.Forest.{PlainNode};
    ghost use Rattle.shadow_node.specs.Fields.{SettledFields};
    ghost use Rattle.shadow_node.specs.Code.{coded_node, coded_settled};
    ghost use Rattle.shadow_node.specs.Parts.{node_of, parts_of};
    ghost use Rattle.shadow_node.specs.Sound.{IsSoundNode};
    ghost use Rattle.shadow_node.specs.Falls.{node_size};
    ghost use Rattle.std.proofs.Common.{arith};

    ghost Value = { PlainNode SettledFields };

    ghost coded = { coded_node coded_settled };

    ghost view = { λ a. record { fields = record { fields = record { tag = a.tag; kind = a.kind; props = a.props; label = a.label }; state = a.state; frame = a.frame }; children = a.children } };

    ghost invariant = { λ a. IsSoundNode (record { fields = record { fields = record { tag = a.tag; kind = a.kind; props = a.props; label = a.label }; state = a.state; frame = a.frame }; children = a.children }) };

    ghost size = { node_size };

    ghost size_decreases = { λ a h. omega arith };
}

impl Model for Forest {
    ghost use Rattle.shadow_node.specs.Forest.{PlainForest};
    ghost use Rattle.shadow_node.specs.Fields.{SettledFields};
    ghost use Rattle.shadow_node.specs.Code.{coded_forest, coded_settled};
    ghost use Rattle.shadow_node.specs.Falls.{forest_size};

    ghost Value = { PlainForest SettledFields };

    ghost coded = { coded_forest coded_settled };

    ghost use Rattle.shadow_node.specs.View.{seen_forest};

    ghost view = { seen_forest };

    ghost size = { forest_size };

    ghost use Rattle.shadow_node.specs.ViewFalls.{deep_le-forest};

    ghost size_decreases = { λ a h. deep_le-forest a };
}

/// What a node is made of.
#[derive(Drop)]
pub struct Parts {
    /// From 1 to 2,147,483,647.
    pub tag: u32,
    pub kind: Kind,
    pub props: NodeProps,
    pub label: Label,
    /// There exactly where the kind has a state.
    pub state: Option<StateCell>,
    /// The frame in the parent.
    pub frame: Rect,
    /// A leaf has none.
    pub children: Forest,
}

/// A change of a node: some rows, and another label where one is given.
#[derive(Drop)]
pub struct NodeEdit {
    pub rows: EditRows,
    pub label: Option<Label>,
}

impl ShadowNode {
    /// Makes a node, and counts it. There is no other way to a node.
    pub fn make(alloc: Global, made: &mut Made, parts: Parts) -> Result<NodeRef, AllocError>
        requires tag_low { 1 ≤ parts.tag }
        requires tag_high { parts.tag < 2 ^ 31 }
        requires props { AreNodeProps parts.props }
        requires state { is_some parts.state ≡ has_state_of parts.kind }
        requires leaf { FitsLeaf (is_leaf_of parts.kind) parts.children }
        ensures node { IfOk result (λ node. node.value ≡ node_of parts) }
        ensures made { OnOk result (made.new ≡ one_node_more made.old) }
        ensures refused { OnErr result (made.new ≡ made.old) }
    {
        let Parts {
            tag,
            kind,
            props,
            label,
            state,
            frame,
            children,
        } = parts;
        let node = Arc::new(
            alloc,
            ShadowNode {
                tag,
                kind,
                props,
                label,
                state,
                frame,
                children,
            },
        )?;
        made.node_made();
        Ok(node)
    }

    pub fn tag(&self) -> u32
        ensures tag { result ≡ self.now.fields.fields.tag }
        ensures low { 1 ≤ result }
        ensures high { result < 2 ^ 31 }
    {
        self.tag
    }

    pub fn kind(&self) -> Kind
        ensures { result ≡ self.now.fields.fields.kind }
    {
        self.kind
    }

    pub fn props(&self) -> &NodeProps
        ensures props { result.now ≡ self.now.fields.fields.props }
        ensures in_range { AreNodeProps result.now }
    {
        &self.props
    }

    pub fn label(&self) -> &Label
        ensures { result.now ≡ self.now.fields.fields.label }
    {
        &self.label
    }

    pub fn state(&self) -> Option<StateCell>
        ensures { result ≡ self.now.fields.state }
    {
        self.state
    }

    pub fn frame(&self) -> Rect
        ensures { result ≡ self.now.fields.frame }
    {
        self.frame
    }

    pub fn children(&self) -> &Forest
        ensures { result.now ≡ self.now.children }
    {
        &self.children
    }

    /// What the node is made of, over other children: its label is shared, and all else is copied.
    ///
    /// A node with some other parts is made of these: `Parts { frame, ..node.with_children(children)? }`.
    pub fn with_children(&self, children: Forest) -> Result<Parts, AllocError>
        ensures parts { IfOk result (λ parts. parts ≡ parts_of self.now.fields children) }
        ensures sound { IsSoundNode self.now }
    {
        Ok(Parts {
            tag: self.tag,
            kind: self.kind,
            props: self.props,
            label: self.label.share()?,
            state: self.state,
            frame: self.frame,
            children,
        })
    }

    /// What holds of each node.
    pub fn is_sound(&self)
        ensures { IsSoundNode self.now }
    {
        let _tag = &self.tag;
    }
}

impl Forest {
    /// No node. It takes no memory.
    pub fn empty() -> Forest
        ensures { result ≡ none }
    {
        Forest { nodes: None }
    }

    /// The forest of these nodes, in their order.
    pub fn of(alloc: Global, nodes: Vec<NodeRef>) -> Result<Forest, AllocError>
        ensures { IfOk result (λ forest. forest ≡ forest_at nodes.items) }
    {
        Ok(Forest {
            nodes: Some(Arc::new(alloc, nodes)?),
        })
    }

    /// The top nodes in their order. It takes no memory.
    pub fn nodes(&self) -> &[NodeRef]
        ensures { forest_at result.now ≡ self.now }
    {
        match &self.nodes {
            Some(nodes) => nodes.as_slice(),
            None => &[],
        }
    }

    /// The same forest, shared.
    pub fn share(&self) -> Result<Forest, AllocError>
        ensures { IfOk result (λ forest. forest ≡ self.now) }
    {
        match &self.nodes {
            Some(nodes) => Ok(Forest {
                nodes: Some(Arc::try_clone(nodes)?),
            }),
            None => Ok(Forest { nodes: None }),
        }
    }
}

fn needs_send<T: Send + Sync>(_value: &T) {}

/// Nodes, forests and stamps are shared by threads.
pub fn is_shared_by_threads(node: &NodeRef, forest: &Forest, stamps: &Stamps) {
    needs_send(node);
    needs_send(forest);
    needs_send(stamps);
}
