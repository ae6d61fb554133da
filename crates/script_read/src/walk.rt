//! Faults in actors, steps and nodes.

ghost use Rattle.std.specs.Prelude.{◌≡◌, IfOk, map};
ghost use Rattle.serde_json.specs.View.{view};
ghost use Rattle.script_read.specs.Places.{in_member as in_member_of, in_nodes as in_nodes_of, in_node as in_node_of, in_step as in_step_of, in_actor as in_actor_of, in_actors as in_actors_of, first_after};
ghost use Rattle.std.specs.Prelude.{[], codes};
ghost use Rattle.script_read.specs.Members.{items_at as items_at_of};
ghost use Rattle.script_read.specs.Checks.{refusals_of};

use crate::faults::{bad_step, bad_tag_in, no_kind};
use crate::members::{items_at, items_in};
use crate::places::{Pointer, at_item, at_member};
use crate::props::bad_props_in;
use crate::shape::{misshapen_actor, misshapen_node, misshapen_step};
use crate::words::is_version_two;
use serde_json::Value;
use std::alloc::{AllocError, Global};

/// What is looked for in all actors, steps and nodes of a script.
#[derive(Clone, Copy, Debug, PartialEq, Eq)]
pub(crate) enum Check {
    /// The form of each.
    Form,
    /// The surface of each step, and the size that a step gives it.
    Surfaces,
    /// The kind of each node.
    Kinds,
    /// The props of each step and node.
    Props,
    /// The tag of each step and node.
    Tags,
}

impl Check {
    /// Where an actor is refused, its steps aside.
    fn of_actor(
        self,
        alloc: Global,
        script: &Value,
        actor: &Value,
    ) -> Result<Option<Pointer>, AllocError>
        ensures { IfOk result (λ place. place ≡ (refusals_of self (view script.now)).of_actor (view actor.now)) }
    {
        match self {
            Check::Form => misshapen_actor(alloc, actor),
            _ => Ok(None),
        }
    }

    /// Where a step is refused, the nodes of its tree aside.
    fn of_step(
        self,
        alloc: Global,
        script: &Value,
        step: &Value,
    ) -> Result<Option<Pointer>, AllocError>
        ensures { IfOk result (λ place. place ≡ (refusals_of self (view script.now)).of_step (view step.now)) }
    {
        match self {
            Check::Form => misshapen_step(alloc, is_version_two(script), step),
            Check::Surfaces => bad_step(alloc, script, step),
            Check::Kinds => Ok(None),
            Check::Props => bad_props_in(alloc, is_version_two(script), step),
            Check::Tags => bad_tag_in(alloc, step),
        }
    }

    /// Where a node is refused, those below it aside.
    fn of_node(
        self,
        alloc: Global,
        script: &Value,
        node: &Value,
    ) -> Result<Option<Pointer>, AllocError>
        ensures { IfOk result (λ place. place ≡ (refusals_of self (view script.now)).of_node (view node.now)) }
    {
        match self {
            Check::Form => misshapen_node(alloc, node),
            Check::Surfaces => Ok(None),
            Check::Kinds => no_kind(alloc, node),
            Check::Props => bad_props_in(alloc, is_version_two(script), node),
            Check::Tags => bad_tag_in(alloc, node),
        }
    }
}

/// Where the first node of a tree is refused, each before those below it.
#[cycle(nodes)]
#[tactic(auto, using(crate::proofs::Items::after_more, crate::proofs::Items::after_found, crate::proofs::Items::after_end, crate::proofs::Trees::nodes_first, crate::proofs::Trees::item_below))]
fn in_nodes(
    alloc: Global,
    check: Check,
    script: &Value,
    tree: &Value,
) -> Result<Option<Pointer>, AllocError>
    ensures { IfOk result (λ place. place ≡ in_nodes_of (refusals_of check (view script.now)).of_node (view tree.now)) }
{
    let nodes = items_in(tree);
    for (index, node) in nodes.iter().enumerate() {
        stop_at!(at_item(alloc, index, in_node(alloc, check, script, node)?)?);
    }
    Ok(None)
}

/// Where a node, or one below it, is refused.
#[cycle(nodes)]
#[tactic(auto, using(crate::proofs::Trees::node_first, crate::proofs::Trees::below, crate::proofs::Lists::first_two))]
fn in_node(
    alloc: Global,
    check: Check,
    script: &Value,
    node: &Value,
) -> Result<Option<Pointer>, AllocError>
    ensures { IfOk result (λ place. place ≡ in_node_of (refusals_of check (view script.now)).of_node (view node.now)) }
{
    stop_at!(check.of_node(alloc, script, node)?);
    match node.get("children") {
        Some(children) => at_member(alloc, "children", in_nodes(alloc, check, script, children)?),
        None => Ok(None),
    }
}

/// Where a step, or a node of its tree, is refused.
fn in_step(
    alloc: Global,
    check: Check,
    script: &Value,
    step: &Value,
) -> Result<Option<Pointer>, AllocError>
    ensures { IfOk result (λ place. place ≡ in_step_of (refusals_of check (view script.now)) (view step.now)) }
{
    stop_at!(check.of_step(alloc, script, step)?);
    match step.get("tree") {
        Some(tree) => at_member(alloc, "tree", in_nodes(alloc, check, script, tree)?),
        None => Ok(None),
    }
}

/// Where the first of some steps is refused.
#[tactic(auto, using(crate::proofs::Items::after_more, crate::proofs::Items::after_found, crate::proofs::Items::after_end))]
fn in_steps(
    alloc: Global,
    check: Check,
    script: &Value,
    steps: &[Value],
) -> Result<Option<Pointer>, AllocError>
    ensures { IfOk result (λ place. place ≡ first_after (λ before step. in_step_of (refusals_of check (view script.now)) step) [] (map view steps.now)) }
{
    for (index, step) in steps.iter().enumerate() {
        stop_at!(at_item(alloc, index, in_step(alloc, check, script, step)?)?);
    }
    Ok(None)
}

/// Where an actor, or one of its steps, is refused.
fn in_actor(
    alloc: Global,
    check: Check,
    script: &Value,
    actor: &Value,
) -> Result<Option<Pointer>, AllocError>
    ensures { IfOk result (λ place. place ≡ in_actor_of (refusals_of check (view script.now)) (view actor.now)) }
{
    stop_at!(check.of_actor(alloc, script, actor)?);
    stop_at!(at_member(
        alloc,
        "steps",
        in_steps(alloc, check, script, items_at(actor, "steps"))?
    )?);
    Ok(None)
}

/// Where the first of some actors is refused.
#[tactic(auto, using(crate::proofs::Items::after_more, crate::proofs::Items::after_found, crate::proofs::Items::after_end))]
fn in_list(
    alloc: Global,
    check: Check,
    script: &Value,
    actors: &[Value],
) -> Result<Option<Pointer>, AllocError>
    ensures { IfOk result (λ place. place ≡ first_after (λ before actor. in_actor_of (refusals_of check (view script.now)) actor) [] (map view actors.now)) }
{
    for (index, actor) in actors.iter().enumerate() {
        stop_at!(at_item(alloc, index, in_actor(alloc, check, script, actor)?)?);
    }
    Ok(None)
}

/// Where the first of a script's actors is refused.
pub(crate) fn in_actors(
    alloc: Global,
    check: Check,
    script: &Value,
) -> Result<Option<Pointer>, AllocError>
    ensures { IfOk result (λ place. place ≡ in_actors_of (refusals_of check (view script.now)) (view script.now)) }
{
    at_member(
        alloc,
        "actors",
        in_list(alloc, check, script, items_at(script, "actors"))?,
    )
}
