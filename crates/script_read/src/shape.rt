//! The form of actors, steps and nodes.

ghost use Rattle.std.specs.Prelude.{◌≡◌, IfOk, map};
ghost use Rattle.serde_json.specs.View.{view};
ghost use Rattle.script_read.specs.Members.{item_in};
ghost use Rattle.std.specs.Prelude.{[]};
ghost use Rattle.script_read.specs.Places.{in_member as in_member_of, first_after, unless as unless_of};
ghost use Rattle.script_read.specs.Shape.{has_items as has_items_of, is_integer, misshapen_point as misshapen_point_of, is_count, misshapen_set_if as misshapen_set_if_of, has_node_form as has_node_form_of, misshapen_node as misshapen_node_of, misshapen_change as misshapen_change_of, misshapen_step as misshapen_step_of, misshapen_actor as misshapen_actor_of, misshapen_surface as misshapen_surface_of};

use crate::members::{has_form, integer_in, items_in};
use crate::places::{Pointer, Test, at_item, at_member, first_refused, unless};
use crate::words::{has_step_form, word_in};
use serde_json::Value;
use std::alloc::{AllocError, Global};

/// Whether a value is an array of that many items.
fn has_items(value: &Value, count: usize) -> bool
    ensures { result ≡ has_items_of count (view value.now) }
{
    value.is_array() && items_in(value).len() == count
}

/// Where the first item is no integer.
#[tactic(auto, using(crate::proofs::Items::after_more, crate::proofs::Items::after_found, crate::proofs::Items::after_end))]
pub(crate) fn not_integers(alloc: Global, items: &[Value]) -> Result<Option<Pointer>, AllocError>
    ensures { IfOk result (λ place. place ≡ first_after (λ before item. unless_of (is_integer item)) [] (map view items.now)) }
{
    for (index, item) in items.iter().enumerate() {
        stop_at!(at_item(alloc, index, unless(alloc, item.as_i64().is_some()))?);
    }
    Ok(None)
}

/// Where a point is misshapen.
fn misshapen_point(alloc: Global, value: &Value) -> Result<Option<Pointer>, AllocError>
    ensures { IfOk result (λ place. place ≡ misshapen_point_of (view value.now)) }
{
    stop_at!(unless(alloc, has_items(value, 2)));
    stop_at!(not_integers(alloc, items_in(value))?);
    Ok(None)
}

/// Whether an array's first item is an integer that is not negative.
fn has_count(value: &Value) -> bool
    ensures { result ≡ is_count (item_in 0 (view value.now)) }
{
    match items_in(value).get(0) {
        Some(count) => count.as_i64().is_some() && 0 <= integer_in(count),
        None => false,
    }
}

/// Where a conditional change is misshapen.
fn misshapen_set_if(alloc: Global, value: &Value) -> Result<Option<Pointer>, AllocError>
    ensures { IfOk result (λ place. place ≡ misshapen_set_if_of (view value.now)) }
{
    stop_at!(unless(alloc, has_items(value, 3)));
    stop_at!(at_item(alloc, 0, unless(alloc, has_count(value)))?);
    stop_at!(not_integers(alloc, items_in(value))?);
    Ok(None)
}

/// Where the point of a member is misshapen.
fn misshapen_point_at(
    alloc: Global,
    value: &Value,
    name: &str,
) -> Result<Option<Pointer>, AllocError>
    ensures { IfOk result (λ place. place ≡ in_member_of name.now misshapen_point_of (view value.now)) }
{
    match value.get(name) {
        Some(found) => at_member(alloc, name, misshapen_point(alloc, found)?),
        None => Ok(None),
    }
}

/// Where the conditional change of a member is misshapen.
fn misshapen_set_if_at(
    alloc: Global,
    value: &Value,
    name: &str,
) -> Result<Option<Pointer>, AllocError>
    ensures { IfOk result (λ place. place ≡ in_member_of name.now misshapen_set_if_of (view value.now)) }
{
    match value.get(name) {
        Some(found) => at_member(alloc, name, misshapen_set_if(alloc, found)?),
        None => Ok(None),
    }
}

/// Whether an object has the members of a written node, or those of a kept one.
fn has_node_form(node: &Value) -> bool
    ensures { result ≡ has_node_form_of (view node.now) }
{
    has_form(node, &["tag", "kind"], &["props", "children"])
        || has_form(node, &["keep"], &["props", "children"])
}

/// Where a node is misshapen, those below it aside.
pub(crate) fn misshapen_node(alloc: Global, node: &Value) -> Result<Option<Pointer>, AllocError>
    ensures { IfOk result (λ place. place ≡ misshapen_node_of (view node.now)) }
{
    stop_at!(unless(alloc, has_node_form(node)));
    first_refused(
        alloc,
        node,
        &[
            ("tag", Test::Integer),
            ("keep", Test::Integer),
            ("kind", Test::Text),
            ("props", Test::Object),
            ("children", Test::Array),
        ],
    )
}

/// Where what a step changes is misshapen, whatever its word.
fn misshapen_change(alloc: Global, step: &Value) -> Result<Option<Pointer>, AllocError>
    ensures { IfOk result (λ place. place ≡ misshapen_change_of (view step.now)) }
{
    stop_at!(misshapen_point_at(alloc, step, "set")?);
    stop_at!(misshapen_point_at(alloc, step, "add")?);
    stop_at!(misshapen_set_if_at(alloc, step, "set_if")?);
    first_refused(
        alloc,
        step,
        &[
            ("tree", Test::Array),
            ("props", Test::Object),
            ("width", Test::Integer),
            ("height", Test::Integer),
        ],
    )
}

/// Where a step is misshapen, the nodes of its tree aside. Version 2 has two words of its own.
pub(crate) fn misshapen_step(
    alloc: Global,
    two: bool,
    step: &Value,
) -> Result<Option<Pointer>, AllocError>
    ensures { IfOk result (λ place. place ≡ misshapen_step_of two (view step.now)) }
{
    stop_at!(unless(alloc, step.get("do").is_some() && step.get("on").is_some()));
    let Some(word) = word_in(two, step) else {
        return at_member(alloc, "do", unless(alloc, false));
    };
    stop_at!(unless(alloc, has_step_form(word, step)));
    stop_at!(first_refused(
        alloc,
        step,
        &[("on", Test::Integer), ("tag", Test::Integer)],
    )?);
    stop_at!(misshapen_change(alloc, step)?);
    Ok(None)
}

/// Where an actor is misshapen, its steps aside.
pub(crate) fn misshapen_actor(alloc: Global, actor: &Value) -> Result<Option<Pointer>, AllocError>
    ensures { IfOk result (λ place. place ≡ misshapen_actor_of (view actor.now)) }
{
    stop_at!(unless(alloc, has_form(actor, &["name", "steps"], &[])));
    first_refused(
        alloc,
        actor,
        &[("name", Test::Text), ("steps", Test::Array)],
    )
}

/// Where a surface is misshapen.
pub(crate) fn misshapen_surface(
    alloc: Global,
    surface: &Value,
) -> Result<Option<Pointer>, AllocError>
    ensures { IfOk result (λ place. place ≡ misshapen_surface_of (view surface.now)) }
{
    stop_at!(unless(alloc, has_form(surface, &["id", "width", "height"], &[])));
    first_refused(
        alloc,
        surface,
        &[
            ("id", Test::Integer),
            ("width", Test::Integer),
            ("height", Test::Integer),
        ],
    )
}
