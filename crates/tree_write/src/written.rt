//! A node that is written out.

ghost use Rattle.std.specs.Prelude.{◌≡◌, ◌≤◌, IfOk, IsOk, MatchResult, length, ◌↔◌};
ghost use Rattle.prop_table.specs.Refusal.{refuses};
ghost use Rattle.shadow_node.specs.InRange.{IsTagInRange};
ghost use Rattle.tree_build.specs.InRange.{AreNodesInRange};
ghost use Rattle.tree_build.specs.Script.{in_front, no_more};
ghost use Rattle.tree_write.specs.WrittenNodes.{HasProp, fresh_node, kept_node, script_node, with_child, with_label};

use crate::trees::Kept;
use prop_table::{Label, LabelRefusal, NodeProps, node_table};
use shadow_kinds::Kind;
use sqlite_items::Items;
use std::alloc::{AllocError, Global};
use std::marker::Model;
use tree_build::ScriptNode;

/// A tag is not from 1 to 2,147,483,647.
#[derive(Clone, Copy, Debug, PartialEq, Eq)]
pub struct TagOutOfRange;

/// Why a prop is not set.
#[derive(Clone, Copy, Debug, PartialEq, Eq)]
pub enum PropRefusal {
    /// No row of the table has that name.
    Unknown,
    /// The row has the name, and the number is not in its range.
    OutOfRange,
}

/// A node that is written out: its tag, kind, props, label and children. All values are in range.
#[derive(Drop)]
pub struct Written {
    tag: u32,
    kind: Kind,
    props: NodeProps,
    label: Label,
    children: Items<ScriptNode>,
}

impl Model for Written {
    ghost use Rattle.prop_table.specs.Table.{AreNodeProps};
    ghost use Rattle.shadow_node.specs.InRange.{IsTagInRange};
    ghost use Rattle.tree_build.specs.InRange.{AreNodesInRange};
    ghost use Rattle.tree_build.specs.Script.{script_forest};
    ghost use Rattle.std.specs.Coded.{codes};
    ghost use Rattle.tree_build.specs.contracts.ScriptNode as node_type;
    ghost use Rattle.tree_write.specs.PlainNodes.{WrittenNode};

    ghost Value = { WrittenNode };

    ghost coded = { Prim.hlevel (codes, node_type.the_row.coded) };

    ghost view = { λ w. record { tag = w.tag; kind = w.kind; props = w.props; label = w.label; children = w.children } };

    ghost invariant = { λ w. IsTagInRange w.tag × AreNodeProps w.props × AreNodesInRange (script_forest w.children) };
}

impl Written {
    /// A node of that tag and kind, with each prop's start, no label and no children. It is refused
    /// exactly where the tag is out of range.
    pub fn start(alloc: Global, tag: u32, kind: Kind) -> Result<Written, TagOutOfRange>
        ensures value { IfOk result (λ node. node ≡ fresh_node tag kind) }
        ensures tag { IsOk result ↔ IsTagInRange tag }
    {
        if tag == 0 || tag >= 0x8000_0000 {
            return Err(TagOutOfRange);
        }
        Ok(Written {
            tag,
            kind,
            props: node_table().start(),
            label: Label::none(),
            children: Items::new(alloc),
        })
    }

    /// The node with that number in the row of that name.
    pub fn prop(self, name: &str, value: i64) -> Result<Written, PropRefusal>
        ensures { HasProp self name.now value result }
    {
        let table = node_table();
        let Some(row) = table.find(name.as_bytes()) else {
            return Err(PropRefusal::Unknown);
        };
        let Ok(props) = table.set(&self.props, row, Some(value)) else {
            return Err(PropRefusal::OutOfRange);
        };
        let Written {
            tag,
            kind,
            label,
            children,
            ..
        } = self;
        Ok(Written {
            tag,
            kind,
            props,
            label,
            children,
        })
    }

    /// The node with that label, which has at most 256 bytes.
    pub fn label(self, alloc: Global, text: &str) -> Result<Written, LabelRefusal>
        ensures { MatchResult result (λ node. (node ≡ with_label text.now self) × (length text.now ≤ 256)) (refuses (length text.now)) }
    {
        let label = Label::make(alloc, text)?;
        let Written {
            tag,
            kind,
            props,
            children,
            ..
        } = self;
        Ok(Written {
            tag,
            kind,
            props,
            label,
            children,
        })
    }

    /// The node with one child more, at the end.
    pub fn child(self, child: Written) -> Result<Written, AllocError>
        ensures { IfOk result (λ node. node ≡ with_child (script_node child) self) }
    {
        self.script_child(child.into_node())
    }

    /// The node with one kept child more, at the end.
    pub fn kept(self, child: Kept) -> Result<Written, AllocError>
        ensures { IfOk result (λ node. node ≡ with_child (kept_node child) self) }
    {
        self.script_child(child.into_node())
    }

    /// The node with one child more, at the end.
    #[tactic(auto, using(tree_build::proofs::Pushed::in_range_pushed))]
    fn script_child(mut self, child: ScriptNode) -> Result<Written, AllocError>
        requires { AreNodesInRange (in_front child no_more) }
        ensures { IfOk result (λ node. node ≡ with_child child self) }
    {
        self.children.push(child)?;
        Ok(self)
    }

    /// The node as a commit names it.
    pub(crate) fn into_node(self) -> ScriptNode
        ensures node { result ≡ script_node self }
        ensures in_range { AreNodesInRange (in_front result no_more) }
    {
        let Written {
            tag,
            kind,
            props,
            label,
            children,
        } = self;
        ScriptNode::Written {
            tag,
            kind,
            props,
            label,
            children,
        }
    }
}
