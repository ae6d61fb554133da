//! What is wrong in a step or a node of the right form.

ghost use Rattle.std.specs.Prelude.{◌≡◌, IfOk, map, codes};
ghost use Rattle.std.specs.Ordering.{int_eq};
ghost use Rattle.serde_json.specs.View.{view};
ghost use Rattle.script_read.specs.Members.{integer_at as integer_at_of};
ghost use Rattle.script_read.specs.Faults.{is_surface as is_surface_of, bad_size as bad_size_of, bad_step as bad_step_of, no_kind as no_kind_of, bad_tag_in as bad_tag_in_of};

use crate::members::{integer_at, items_at};
use crate::places::{Pointer, Test, at_member, first_refused, refused, unless};
use serde_json::Value;
use std::alloc::{AllocError, Global};

/// Whether a surface has that id.
fn has_id(surface: &Value, id: i64) -> bool
    ensures { result ≡ int_eq (integer_at_of (codes "id") (view surface.now)) id }
{
    integer_at(surface, "id") == id
}

/// Whether one of some surfaces has that id.
pub(crate) fn is_surface(surfaces: &[Value], id: i64) -> bool
    ensures { result ≡ is_surface_of (map view surfaces.now) id }
{
    surfaces.iter().any(|surface| has_id(surface, id))
}

/// Where a width or a height is out of range.
pub(crate) fn bad_size(alloc: Global, value: &Value) -> Result<Option<Pointer>, AllocError>
    ensures { IfOk result (λ place. place ≡ bad_size_of (view value.now)) }
{
    first_refused(
        alloc,
        value,
        &[("width", Test::Length), ("height", Test::Length)],
    )
}

/// Where a step is on no surface of the script, or its size is out of range.
pub(crate) fn bad_step(
    alloc: Global,
    script: &Value,
    step: &Value,
) -> Result<Option<Pointer>, AllocError>
    ensures { IfOk result (λ place. place ≡ bad_step_of (view script.now) (view step.now)) }
{
    let is_known = is_surface(items_at(script, "surfaces"), integer_at(step, "on"));
    stop_at!(at_member(alloc, "on", unless(alloc, is_known))?);
    stop_at!(bad_size(alloc, step)?);
    Ok(None)
}

/// Where the kind of a node is none of the five.
pub(crate) fn no_kind(alloc: Global, node: &Value) -> Result<Option<Pointer>, AllocError>
    ensures { IfOk result (λ place. place ≡ no_kind_of (view node.now)) }
{
    refused(alloc, node, "kind", Test::Kind)
}

/// Where the tag of a node or a step is out of range.
pub(crate) fn bad_tag_in(alloc: Global, value: &Value) -> Result<Option<Pointer>, AllocError>
    ensures { IfOk result (λ place. place ≡ bad_tag_in_of (view value.now)) }
{
    first_refused(alloc, value, &[("tag", Test::Tag), ("keep", Test::Tag)])
}
