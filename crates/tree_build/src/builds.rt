//! A forest is built from what a script says of it.

ghost use Rattle.std.specs.Prelude.{◌≡◌, ◌≢◌, IfOk, IfErr, OnOk, Some, None};
ghost use Rattle.native_state.specs.Made.{nodes_more};
ghost use Rattle.shadow_node.specs.Fields.{contents_of};
ghost use Rattle.shadow_node.specs.Limits.{IsForestWithin};
ghost use Rattle.tree_build.specs.Script.{script_forest};
ghost use Rattle.tree_build.specs.InRange.{AreNodesInRange};
ghost use Rattle.tree_build.specs.Resolved.{resolved};
ghost use Rattle.tree_build.specs.Refusals.{build_refusal_of};
ghost use Rattle.tree_build.specs.Built.{built, made_for};
ghost use Rattle.tree_build.specs.declared.builds.BuildRefusal.TheVariants.{Memory};

use crate::ScriptNode;
use crate::checks::{first_leaf_with_child, first_unkept, has_kept};
use crate::held::Held;
use crate::limits::forest_refusal;
use crate::making::make_nodes;
use shadow_node::{Forest, Made};
use std::alloc::{AllocError, Global};

/// Why a forest is not built.
#[derive(Clone, Copy, Debug, PartialEq, Eq)]
pub enum BuildRefusal {
    /// The held forest has no node of that tag.
    Unkept { tag: u32 },
    /// The node of that tag is a leaf, and would have children.
    ChildOfLeaf { tag: u32 },
    /// Two nodes have that tag.
    TwiceTag { tag: u32 },
    TooDeep,
    TooManyNodes,
    Memory,
}

impl From<AllocError> for BuildRefusal {
    ghost from_gives = { λ _ refusal. refusal ≡ Memory };

    fn from(_error: AllocError) -> BuildRefusal {
        BuildRefusal::Memory
    }
}

/// The forest that kept nodes are looked up in: the held one, or an empty one where no node is kept.
#[tactic(auto, using(crate::proofs::Results::built_alone, crate::proofs::Results::refusal_alone))]
fn looked_up_in<'a>(nodes: &[ScriptNode], held: &'a Forest, empty: &'a Forest) -> &'a Forest
    ensures built { built result.now (script_forest nodes.now) ≡ built held.now (script_forest nodes.now) }
    ensures refusal { build_refusal_of (contents_of result.now) (script_forest nodes.now) ≡ build_refusal_of (contents_of held.now) (script_forest nodes.now) }
{
    if has_kept(nodes) { held } else { empty }
}

/// The forest that script nodes name over a held forest, before it is settled.
///
/// A written node gets a starting state, where its kind has one, and a frame of zeros; a kept one
/// has those that it had. Tags are from 1 to 2,147,483,647, and props and edits in their table. Of
/// the refusals that apply the first in their order is answered, at its first place in preorder.
/// `made` rises by one for each written node, and for each kept one that is given a change or
/// children; all other nodes are shared.
#[tactic(auto, using(crate::proofs::Results::buildable, crate::proofs::Results::contents_of_built, crate::proofs::Results::refusal_of_built, crate::proofs::Results::within_from_built))]
pub fn build(
    alloc: Global,
    made: &mut Made,
    nodes: &[ScriptNode],
    held: &Forest,
) -> Result<Forest, BuildRefusal>
    requires { AreNodesInRange (script_forest nodes.now) }
    ensures forest { IfOk result (λ forest. forest ≡ built held.now (script_forest nodes.now)) }
    ensures contents { IfOk result (λ forest. contents_of forest ≡ resolved (contents_of held.now) (script_forest nodes.now)) }
    ensures within { IfOk result (λ forest. IsForestWithin (contents_of forest)) }
    ensures unrefused { OnOk result (build_refusal_of (contents_of held.now) (script_forest nodes.now) ≡ None) }
    ensures refused { IfErr result (λ refusal. refusal ≢ Memory → build_refusal_of (contents_of held.now) (script_forest nodes.now) ≡ Some refusal) }
    ensures made { OnOk result (made.new ≡ nodes_more made.old (made_for (script_forest nodes.now))) }
{
    let empty = Forest::empty();
    let held = Held::new(alloc, looked_up_in(nodes, held, &empty))?;
    if let Some(tag) = first_unkept(&held, nodes) {
        return Err(BuildRefusal::Unkept { tag });
    }
    if let Some(tag) = first_leaf_with_child(&held, nodes) {
        return Err(BuildRefusal::ChildOfLeaf { tag });
    }
    let forest = make_nodes(alloc, made, &held, nodes)?;
    match forest_refusal(alloc, &forest)? {
        Some(refusal) => Err(refusal),
        None => Ok(forest),
    }
}
