//! Trees from JSON.

ghost use Rattle.std.specs.Prelude.{◌≡◌, IfOk, option_map};
ghost use Rattle.serde_json.specs.View.{view};
ghost use Rattle.std.specs.Prelude.{codes};
ghost use Rattle.script_read.specs.Members.{natural_at as natural_at_of};
ghost use Rattle.tree_build.specs.Script.{ScriptForest, written, in_front, script_forest};
ghost use Rattle.script_read.specs.Value.{kind_at as kind_at_of, kept_change, fields_of, kept_before, node_before, nodes_from, children_from};

use crate::members::{items_in, member_at, natural_at, text_at};
use crate::props::{named_label, read_edit, read_props};
use prop_table::Label;
use serde_json::Value;
use shadow_kinds::{Kind, from_word};
use shadow_node::NodeEdit;
use sqlite_items::Items;
use std::alloc::{AllocError, Global};
use tree_build::ScriptNode;

/// The kind of a written node.
fn kind_at(node: &Value) -> Kind
    ensures { result ≡ kind_at_of (view node.now) }
{
    from_word(text_at(node, "kind").as_bytes()).unwrap_or(Kind::View)
}

/// The change of a kept node, where it is given props.
fn read_change(alloc: Global, two: bool, node: &Value) -> Result<Option<NodeEdit>, AllocError>
    ensures { IfOk result (λ change. change ≡ kept_change two (view node.now)) }
{
    match node.get("props") {
        Some(props) => Ok(Some(read_edit(alloc, two, props)?)),
        None => Ok(None),
    }
}

/// A written node with those children.
#[tactic(auto, using(crate::proofs::Forests::front_written))]
fn read_written(
    alloc: Global,
    two: bool,
    node: &Value,
    children: Items<ScriptNode>,
) -> Result<ScriptNode, AllocError>
    ensures { IfOk result (λ made. (rest : ScriptForest) → in_front made rest ≡ written (fields_of two (view node.now)) (script_forest children) rest) }
{
    let none = Value::Null;
    let props = member_at(node, "props", &none);
    let label = match named_label(alloc, props)? {
        Some(label) => label,
        None => Label::none(),
    };
    Ok(ScriptNode::Written {
        tag: natural_at(node, "tag"),
        kind: kind_at(node),
        props: read_props(two, props),
        label,
        children,
    })
}

/// A kept node, with children of its own where it is given some.
#[tactic(auto, using(crate::proofs::Forests::front_kept))]
fn read_kept(
    alloc: Global,
    two: bool,
    node: &Value,
    children: Option<Items<ScriptNode>>,
) -> Result<ScriptNode, AllocError>
    ensures { IfOk result (λ made. (rest : ScriptForest) → in_front made rest ≡ kept_before (natural_at_of (codes "keep") (view node.now)) (kept_change two (view node.now)) (option_map script_forest children) rest) }
{
    let change = read_change(alloc, two, node)?;
    Ok(ScriptNode::Kept {
        tag: natural_at(node, "keep"),
        change,
        children,
    })
}

/// The children of a node, where it is given some.
#[cycle(nodes)]
#[tactic(auto, using(crate::proofs::Forests::children_are, crate::proofs::Trees::below))]
fn read_children(
    alloc: Global,
    two: bool,
    node: &Value,
) -> Result<Option<Items<ScriptNode>>, AllocError>
    ensures { IfOk result (λ children. option_map script_forest children ≡ children_from two (view node.now)) }
{
    match node.get("children") {
        Some(list) => Ok(Some(read_nodes(alloc, two, list)?)),
        None => Ok(None),
    }
}

/// A node with the nodes below it.
#[cycle(nodes)]
fn read_node(alloc: Global, two: bool, node: &Value) -> Result<ScriptNode, AllocError>
    ensures { IfOk result (λ made. (rest : ScriptForest) → in_front made rest ≡ node_before two (view node.now) (children_from two (view node.now)) rest) }
{
    let children = read_children(alloc, two, node)?;
    if node.get("tag").is_none() {
        return read_kept(alloc, two, node, children);
    }
    let children = match children {
        Some(children) => children,
        None => Items::new(alloc),
    };
    read_written(alloc, two, node, children)
}

/// The nodes of a tree.
#[cycle(nodes)]
#[tactic(auto, using(crate::proofs::Forests::nodes_are, crate::proofs::Forests::nodes_more, crate::proofs::Forests::nodes_end, crate::proofs::Trees::item_below))]
pub(crate) fn read_nodes(
    alloc: Global,
    two: bool,
    tree: &Value,
) -> Result<Items<ScriptNode>, AllocError>
    ensures { IfOk result (λ nodes. script_forest nodes ≡ nodes_from two (view tree.now)) }
{
    let list = items_in(tree);
    let mut nodes = Items::new(alloc);
    for node in list {
        nodes.push(read_node(alloc, two, node)?)?;
    }
    Ok(nodes)
}
