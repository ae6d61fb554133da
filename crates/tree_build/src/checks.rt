//! What is wrong with script nodes before anything is built.

ghost use Rattle.std.specs.Prelude.{◌≡◌, ◌||◌};
ghost use Rattle.std.specs.Option.{option_or};
ghost use Rattle.shadow_node.specs.Fields.{contents_of};
ghost use Rattle.shadow_node.specs.Find.{first_with};
ghost use Rattle.tree_build.specs.Script.{ScriptForest, in_front, script_forest};
ghost use Rattle.tree_build.specs.Refusals.{is_kept_leaf, leaf_with_child, tag_of_parent, unkept_in};
ghost use Rattle.tree_build.specs.KeptNodes.{has_kept as has_kept_in};

use crate::ScriptNode;
use crate::held::Held;
use shadow_kinds::is_leaf;

/// Whether a kept node is among script nodes or below them.
#[cycle(kept)]
pub(crate) fn has_kept(nodes: &[ScriptNode]) -> bool
    ensures { result ≡ has_kept_in (script_forest nodes.now) }
{
    for node in nodes {
        if has_kept_at(node) {
            return true;
        }
    }
    false
}

/// Whether a script node is kept, or one below it.
#[cycle(kept)]
fn has_kept_at(node: &ScriptNode) -> bool
    ensures { (rest : ScriptForest) → has_kept_in (in_front node.now rest) ≡ (result || has_kept_in rest) }
{
    match node {
        ScriptNode::Written { children, .. } => has_kept(children.as_slice()),
        ScriptNode::Kept { .. } => true,
    }
}

/// The first kept tag that the held forest has not, in preorder of the script nodes.
#[cycle(unkept)]
pub(crate) fn first_unkept(held: &Held, nodes: &[ScriptNode]) -> Option<u32>
    ensures { result ≡ unkept_in (contents_of held.now) (script_forest nodes.now) }
{
    for node in nodes {
        if let Some(tag) = first_unkept_at(held, node) {
            return Some(tag);
        }
    }
    None
}

/// The first such tag of a script node and those below it.
#[cycle(unkept)]
#[tactic(auto, using(crate::proofs::Fronts::front_written, crate::proofs::Fronts::front_kept, crate::proofs::Fronts::front_kept_with, crate::proofs::Finds::first_with_held))]
fn first_unkept_at(held: &Held, node: &ScriptNode) -> Option<u32>
    ensures { (rest : ScriptForest) → unkept_in (contents_of held.now) (in_front node.now rest) ≡ option_or result (unkept_in (contents_of held.now) rest) }
{
    match node {
        ScriptNode::Written { children, .. } => first_unkept(held, children.as_slice()),
        ScriptNode::Kept { tag, children, .. } => {
            if held.find(*tag).is_none() {
                return Some(*tag);
            }
            match children {
                Some(children) => first_unkept(held, children.as_slice()),
                None => None,
            }
        }
    }
}

/// A leaf's tag, where it is given a child.
#[tactic(auto, using(crate::proofs::Children::given_child))]
fn leaf_of_child(is_leaf: bool, tag: u32, children: &[ScriptNode]) -> Option<u32>
    ensures { result ≡ tag_of_parent is_leaf tag (script_forest children.now) }
{
    if is_leaf && !children.is_empty() {
        Some(tag)
    } else {
        None
    }
}

/// Whether the held node of a tag is a leaf.
#[tactic(auto, using(crate::proofs::Finds::first_with_held))]
fn is_held_leaf(held: &Held, tag: u32) -> bool
    ensures { result ≡ is_kept_leaf (first_with tag (contents_of held.now)) }
{
    match held.find(tag) {
        Some(node) => is_leaf(node.kind()),
        None => false,
    }
}

/// The first leaf that is given a child, in preorder of the script nodes.
#[cycle(leaves)]
pub(crate) fn first_leaf_with_child(held: &Held, nodes: &[ScriptNode]) -> Option<u32>
    ensures { result ≡ leaf_with_child (contents_of held.now) (script_forest nodes.now) }
{
    for node in nodes {
        if let Some(tag) = first_leaf_at(held, node) {
            return Some(tag);
        }
    }
    None
}

/// The first such leaf of a script node and those below it.
#[cycle(leaves)]
fn first_leaf_at(held: &Held, node: &ScriptNode) -> Option<u32>
    ensures { (rest : ScriptForest) → leaf_with_child (contents_of held.now) (in_front node.now rest) ≡ option_or result (leaf_with_child (contents_of held.now) rest) }
{
    let (leaf, tag, children) = match node {
        ScriptNode::Written {
            tag,
            kind,
            children,
            ..
        } => (is_leaf(*kind), *tag, children),
        ScriptNode::Kept {
            tag,
            children: Some(children),
            ..
        } => (is_held_leaf(held, *tag), *tag, children),
        ScriptNode::Kept { children: None, .. } => return None,
    };
    match leaf_of_child(leaf, tag, children.as_slice()) {
        Some(tag) => Some(tag),
        None => first_leaf_with_child(held, children.as_slice()),
    }
}
