//! The limits that a forest keeps: its tags differ, and it is not too deep or too large.

ghost use Rattle.std.specs.Prelude.{◌≡◌, ◌+◌, ◌++◌, ℕ, List, None, IfOk, IsTrue, IsSome, IfSome, nat_eq};
ghost use Rattle.std.specs.Option.{option_or};
ghost use Rattle.std.specs.BTreeSet.{btree_set_len};
ghost use Rattle.std.specs.List.{IsDistinct};
ghost use Rattle.shadow_node.specs.Forest.{node_count};
ghost use Rattle.shadow_node.specs.Fields.{contents_of, tags_of};
ghost use Rattle.tree_build.specs.Refusals.{forest_refusal_of, repeated, repeated_after};

use crate::BuildRefusal;
use shadow_node::{Forest, depth};
use std::alloc::{AllocError, Global};
use std::collections::BTreeSet;

/// The greatest depth of a node; a top node has depth 1.
const MAX_DEPTH: u64 = 48;

/// The greatest number of nodes.
const MAX_NODES: usize = 2000;

/// Adds the tags of a forest in preorder, and answers whether these are all of them: it stops where
/// the list has more than a forest may have.
fn push_tags(tags: &mut Vec<u32>, forest: &Forest) -> Result<bool, AllocError>
    ensures { IfOk result (λ all. IsTrue all → tags.new.items ≡ tags.old.items ++ tags_of (contents_of forest.now)) }
{
    for node in forest.nodes() {
        if tags.len() > MAX_NODES {
            return Ok(false);
        }
        tags.push(node.tag())?;
        if !push_tags(tags, node.children())? {
            return Ok(false);
        }
    }
    Ok(true)
}

/// Whether each tag is below the next.
fn do_rise(tags: &[u32]) -> bool
    ensures { IsTrue result → IsDistinct nat_eq tags.now }
{
    tags.is_sorted_by(|tag, next| tag < next)
}

/// Whether no tag stands twice in a list. It is put in order where its tags do not rise.
fn do_differ(tags: &mut Vec<u32>) -> bool
    ensures { IsTrue result → IsDistinct nat_eq tags.old.items }
{
    if do_rise(tags) {
        return true;
    }
    tags.sort_unstable();
    do_rise(tags)
}

/// The number of nodes of a forest whose tags differ. None comes where some tag stands twice, or
/// where it has more nodes than it may have.
fn count_of_differing(alloc: Global, forest: &Forest) -> Result<Option<usize>, AllocError>
    ensures differ { IfOk result (λ count. IsSome count → repeated (tags_of (contents_of forest.now)) ≡ None) }
    ensures count { IfOk result (λ count. IfSome count (λ count. count ≡ node_count forest.now)) }
{
    let mut tags = Vec::new(alloc);
    if !push_tags(&mut tags, forest)? {
        return Ok(None);
    }
    let count = tags.len();
    if do_differ(&mut tags) {
        Ok(Some(count))
    } else {
        Ok(None)
    }
}

/// The first tag in preorder that is seen already or equal to an earlier one; the tags before it
/// are seen from now on.
fn first_repeated(seen: &mut BTreeSet<u32>, forest: &Forest) -> Result<Option<u32>, AllocError>
    ensures repeated { IfOk result (λ found. (rest : List ℕ) → repeated_after seen.old.keys (tags_of (contents_of forest.now) ++ rest) ≡ option_or found (repeated_after seen.new.keys rest)) }
    ensures counted { IfOk result (λ found. found ≡ None → btree_set_len seen.new ≡ btree_set_len seen.old + node_count forest.now) }
{
    for node in forest.nodes() {
        if !seen.insert(node.tag())? {
            return Ok(Some(node.tag()));
        }
        if let Some(tag) = first_repeated(seen, node.children())? {
            return Ok(Some(tag));
        }
    }
    Ok(None)
}

/// Why a forest whose tags differ is none that a revision may have: its depth, or its number of
/// nodes.
fn size_refusal(forest: &Forest, count: usize) -> Option<BuildRefusal>
    requires differ { repeated (tags_of (contents_of forest.now)) ≡ None }
    requires count { count ≡ node_count forest.now }
    ensures { result ≡ forest_refusal_of (contents_of forest.now) }
{
    if depth(forest) > MAX_DEPTH {
        return Some(BuildRefusal::TooDeep);
    }
    if count > MAX_NODES {
        return Some(BuildRefusal::TooManyNodes);
    }
    None
}

/// Why a forest is none that a revision may have: the first tag that stands twice, its depth, or
/// its number of nodes.
///
/// The first tag that stands twice is looked for only where some tag does, or where the forest has
/// more than 2,000 nodes; no node after it is looked at.
pub(crate) fn forest_refusal(
    alloc: Global,
    forest: &Forest,
) -> Result<Option<BuildRefusal>, AllocError>
    ensures { IfOk result (λ refusal. refusal ≡ forest_refusal_of (contents_of forest.now)) }
{
    if let Some(count) = count_of_differing(alloc, forest)? {
        return Ok(size_refusal(forest, count));
    }
    let mut seen = BTreeSet::new(alloc);
    if let Some(tag) = first_repeated(&mut seen, forest)? {
        return Ok(Some(BuildRefusal::TwiceTag { tag }));
    }
    Ok(size_refusal(forest, seen.len()))
}
