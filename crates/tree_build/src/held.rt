//! The forest that kept nodes are taken from, with a list of its nodes in the order of their tags.

ghost use Rattle.std.specs.Prelude.{◌≡◌, ◌≤◌, ℕ, length, take, drop, Some, nat_eq, IfOk, IsTrue, OnOk, if◌then◌else◌, None};
ghost use Rattle.std.specs.List.Sorted.{IsNonDecreasingBy};
ghost use Rattle.std.specs.Option.{option_copied, option_map, option_or};
ghost use Rattle.page_map.specs.Rising.{AreBelow, AreFrom};
ghost use Rattle.shadow_node.specs.Find.{first_settled};
ghost use Rattle.tree_build.specs.Index.{found_in};

use shadow_node::{Forest, NodeRef};
use std::alloc::{AllocError, Global};
use std::marker::Model;

/// Nodes with their tags.
type Tagged<'a> = Vec<(u32, &'a NodeRef)>;

/// A held forest whose nodes are looked up by their tags.
#[derive(Drop)]
pub(crate) struct Held<'a> {
    /// What contracts see.
    forest: &'a Forest,
    /// All nodes in the order of their tags, and those of one tag in preorder.
    nodes: Tagged<'a>,
}

impl<'a> Model for Held<'a> {
    ghost use Rattle.shadow_node.specs.Forest.{PlainForest};
    ghost use Rattle.shadow_node.specs.Fields.{SettledFields};
    ghost use Rattle.shadow_node.specs.Code.{coded_forest, coded_settled};
    ghost use Rattle.tree_build.specs.Index.{IsIndexOf};

    ghost Value = { PlainForest SettledFields };

    ghost coded = { coded_forest coded_settled };

    ghost view = { λ held. held.forest.now };

    ghost invariant = { λ held. IsIndexOf held.nodes.items held.forest.now };
}

/// Adds a node with its tag.
#[tactic(auto, using(crate::proofs::Tagged::found_pushed))]
fn push<'a>(nodes: &mut Tagged<'a>, node: &'a NodeRef) -> Result<(), AllocError>
    ensures { OnOk result ((tag : ℕ) → found_in nodes.new.items tag ≡ option_or (found_in nodes.old.items tag) (if nat_eq node.now.value.fields.fields.tag tag then Some node.now.value else None)) }
{
    nodes.push((node.tag(), node))?;
    Ok(())
}

/// Adds the nodes of a forest in preorder, with their tags.
fn push_all<'a>(nodes: &mut Tagged<'a>, forest: &'a Forest) -> Result<(), AllocError>
    ensures { OnOk result ((tag : ℕ) → found_in nodes.new.items tag ≡ option_or (found_in nodes.old.items tag) (first_settled tag forest.now)) }
{
    for node in forest.nodes() {
        push(nodes, node)?;
        push_all(nodes, node.children())?;
    }
    Ok(())
}

/// Whether no tag is above the next one.
fn are_in_order(nodes: &[(u32, &NodeRef)]) -> bool
    ensures { IsTrue result → IsNonDecreasingBy (λ node. node.0) nodes.now }
{
    nodes.is_sorted_by_key(|node| node.0)
}

/// Puts nodes in the order of their tags, and those of one tag as they stand.
fn put_in_order<'a>(nodes: &mut Tagged<'a>) -> Result<(), AllocError>
    ensures in_order { OnOk result (IsNonDecreasingBy (λ node. node.0) nodes.new.items) }
    ensures found { OnOk result ((tag : ℕ) → found_in nodes.new.items tag ≡ found_in nodes.old.items tag) }
{
    if !are_in_order(nodes) {
        nodes.sort_by_key(|node| node.0)?;
    }
    Ok(())
}

/// How many of the nodes have tags below this one.
fn place_of(nodes: &[(u32, &NodeRef)], tag: u32) -> usize
    requires { IsNonDecreasingBy (λ node. node.0) nodes.now }
    ensures place { result ≤ length nodes.now }
    ensures below { AreBelow tag (take result nodes.now) }
    ensures rest { AreFrom tag (drop result nodes.now) }
{
    nodes.partition_point(|node| node.0 < tag)
}

/// The first node of a tag among nodes in the order of their tags.
fn first_of<'a>(nodes: &[(u32, &'a NodeRef)], tag: u32) -> Option<&'a NodeRef>
    requires { IsNonDecreasingBy (λ node. node.0) nodes.now }
    ensures { option_map (λ node. node.value) (option_copied result) ≡ found_in nodes.now tag }
{
    let (_, rest) = nodes.split_at(place_of(nodes, tag));
    match rest.split_first() {
        Some((first, _)) if first.0 == tag => Some(first.1),
        _ => None,
    }
}

impl<'a> Held<'a> {
    /// The forest, with each of its nodes looked at once. It takes no memory for an empty one.
    pub(crate) fn new(alloc: Global, forest: &'a Forest) -> Result<Held<'a>, AllocError>
        ensures { IfOk result (λ held. held ≡ forest.now) }
    {
        let mut nodes = Vec::new(alloc);
        push_all(&mut nodes, forest)?;
        put_in_order(&mut nodes)?;
        Ok(Held { forest, nodes })
    }

    /// The first node with that tag, in preorder.
    pub(crate) fn find(&self, tag: u32) -> Option<&'a NodeRef>
        ensures { option_map (λ node. node.value) (option_copied result) ≡ first_settled tag self.now }
    {
        first_of(&self.nodes, tag)
    }
}
