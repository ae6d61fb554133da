//! A whole tree, and its kept nodes.

ghost use Rattle.std.specs.Prelude.{◌≡◌, ◌++◌, ◌∷◌, [], IfOk, IsOk, OnErr, OnOk, ◌↔◌};
ghost use Rattle.shadow_node.specs.InRange.{IsTagInRange};
ghost use Rattle.tree_build.specs.InRange.{AreNodesInRange};
ghost use Rattle.tree_build.specs.Script.{in_front, no_more};
ghost use Rattle.tree_revision.specs.declared.record.Op.TheVariants.{Complete};
ghost use Rattle.tree_revision.specs.InRange.{IsOpInRange};
ghost use Rattle.tree_revision.specs.Records.{plain_op};
ghost use Rattle.tree_write.specs.WrittenNodes.{kept_node, script_node};

use crate::written::{TagOutOfRange, Written};
use sqlite_items::Items;
use std::alloc::{AllocError, Global};
use std::marker::Model;
use tree_build::ScriptNode;
use tree_revision::Op;

/// A node that is kept as the held revision has it, with all below it. Its tag is in range.
#[derive(Drop)]
pub struct Kept {
    tag: u32,
}

impl Model for Kept {
    ghost use Rattle.std.specs.Prelude.{ℕ};
    ghost use Rattle.shadow_node.specs.InRange.{IsTagInRange};

    ghost Value = { ℕ };

    ghost view = { λ k. k.tag };

    ghost invariant = { λ k. IsTagInRange k.tag };
}

impl Kept {
    /// The node of that tag. It is refused exactly where the tag is out of range.
    pub fn start(tag: u32) -> Result<Kept, TagOutOfRange>
        ensures value { IfOk result (λ kept. kept ≡ tag) }
        ensures tag { IsOk result ↔ IsTagInRange tag }
    {
        if tag == 0 || tag >= 0x8000_0000 {
            return Err(TagOutOfRange);
        }
        Ok(Kept { tag })
    }

    /// The node as a commit names it.
    pub(crate) fn into_node(self) -> ScriptNode
        ensures node { result ≡ kept_node self }
        ensures in_range { AreNodesInRange (in_front result no_more) }
    {
        ScriptNode::Kept {
            tag: self.tag,
            change: None,
            children: None,
        }
    }
}

/// A tree: its top nodes, in their order. All values are in range.
#[derive(Drop)]
pub struct Tree {
    nodes: Items<ScriptNode>,
}

impl Model for Tree {
    ghost use Rattle.std.specs.Prelude.{List};
    ghost use Rattle.tree_build.specs.InRange.{AreNodesInRange};
    ghost use Rattle.tree_build.specs.Script.{script_forest};
    ghost use Rattle.std.specs.Coded.{codes};
    ghost use Rattle.tree_build.specs.contracts.ScriptNode as node_type;
    ghost use Rattle.tree_build.specs.declared.ScriptNode.{ScriptNode as NodeValue};

    ghost Value = { List NodeValue };

    ghost coded = { Prim.hlevel (codes, node_type.the_row.coded) };

    ghost view = { λ t. t.nodes };

    ghost invariant = { λ t. AreNodesInRange (script_forest t.nodes) };
}

impl Tree {
    /// A tree with no nodes.
    pub fn start(alloc: Global) -> Tree
        ensures { result ≡ [] }
    {
        Tree {
            nodes: Items::new(alloc),
        }
    }

    /// Adds a top node that is written out, behind the others.
    pub fn write(&mut self, node: Written) -> Result<(), AllocError>
        ensures ok { OnOk result (self.new ≡ self.old ++ script_node node ∷ []) }
        ensures err { OnErr result (self.new ≡ self.old) }
    {
        self.push(node.into_node())
    }

    /// Adds a kept top node, behind the others.
    pub fn keep(&mut self, node: Kept) -> Result<(), AllocError>
        ensures ok { OnOk result (self.new ≡ self.old ++ kept_node node ∷ []) }
        ensures err { OnErr result (self.new ≡ self.old) }
    {
        self.push(node.into_node())
    }

    /// Adds a top node.
    #[tactic(auto, using(tree_build::proofs::Pushed::in_range_pushed))]
    fn push(&mut self, node: ScriptNode) -> Result<(), AllocError>
        requires { AreNodesInRange (in_front node no_more) }
        ensures ok { OnOk result (self.new ≡ self.old ++ node ∷ []) }
        ensures err { OnErr result (self.new ≡ self.old) }
    {
        self.nodes.push(node)
    }

    /// The commit of the tree.
    pub fn into_op(self) -> Op
        ensures op { result ≡ Complete self }
        ensures in_range { IsOpInRange (plain_op result) }
    {
        let Tree { nodes } = self;
        Op::Complete { nodes }
    }
}
