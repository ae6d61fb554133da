//! The faults of a whole script.

ghost use Rattle.std.specs.Prelude.{◌≡◌, ◌≤◌, ◌++◌, ◌∷◌, [], ◌<◌, IfOk, IfSome, map, codes, length, position, not};
ghost use Rattle.std.specs.List.{list_any, list_all};
ghost use Rattle.serde_json.specs.View.{view};
ghost use Rattle.tree_revision.specs.Sound.{is_name as is_name_of, is_name_byte as is_name_byte_of};
ghost use Rattle.script_read.specs.Members.{items_at as items_at_of};
ghost use Rattle.script_read.specs.Places.{first_after, in_member};
ghost use Rattle.script_read.specs.Shape.{not_integers as not_integers_of, misshapen_surface as misshapen_surface_of, misshapen_script as misshapen_script_of};
ghost use Rattle.script_read.specs.Faults.{is_known_version as is_known_version_of, item_count as item_count_of, over_steps as over_steps_of, too_many as too_many_of, is_named as is_named_of, bad_name_in as bad_name_in_of, bad_name as bad_name_of, bad_plan as bad_plan_of, bad_surface as bad_surface_of, is_mount_on as is_mount_on_of, mounter_count as mounter_count_of, is_shared as is_shared_of, two_mounters as two_mounters_of, is_turn as is_turn_of, bad_turn as bad_turn_of};

use crate::faults::{bad_size, is_surface};
use crate::members::{has_form, integer_at, integer_in, items_at, items_in, natural_at, text_at};
use crate::places::{Pointer, Test, at_item, at_member, is_from, refused, unless};
use crate::shape::{misshapen_surface, not_integers};
use crate::walk::{Check, in_actors};
use serde_json::Value;
use std::alloc::{AllocError, Global};

/// Where the first of some surfaces is misshapen.
#[tactic(auto, using(crate::proofs::Items::after_more, crate::proofs::Items::after_found, crate::proofs::Items::after_end))]
fn misshapen_surfaces(alloc: Global, surfaces: &[Value]) -> Result<Option<Pointer>, AllocError>
    ensures { IfOk result (λ place. place ≡ first_after (λ before surface. misshapen_surface_of surface) [] (map view surfaces.now)) }
{
    for (index, surface) in surfaces.iter().enumerate() {
        stop_at!(at_item(alloc, index, misshapen_surface(alloc, surface)?)?);
    }
    Ok(None)
}

/// Where the turns of a script are no integers.
fn misshapen_turns(alloc: Global, script: &Value) -> Result<Option<Pointer>, AllocError>
    ensures { IfOk result (λ place. place ≡ in_member (codes "turns") not_integers_of (view script.now)) }
{
    match script.get("turns") {
        Some(turns) => at_member(alloc, "turns", not_integers(alloc, items_in(turns))?),
        None => Ok(None),
    }
}

/// Where a value first departs from the form of a script.
pub(crate) fn misshapen_script(alloc: Global, script: &Value) -> Result<Option<Pointer>, AllocError>
    ensures { IfOk result (λ place. place ≡ misshapen_script_of (view script.now)) }
{
    stop_at!(unless(
        alloc,
        has_form(script, &["version", "surfaces", "actors", "turns"], &[])
    ));
    stop_at!(refused(alloc, script, "version", Test::Integer)?);
    stop_at!(refused(alloc, script, "surfaces", Test::Array)?);
    let surfaces = items_at(script, "surfaces");
    stop_at!(at_member(alloc, "surfaces", misshapen_surfaces(alloc, surfaces)?)?);
    stop_at!(refused(alloc, script, "actors", Test::Array)?);
    stop_at!(in_actors(alloc, Check::Form, script)?);
    stop_at!(refused(alloc, script, "turns", Test::Array)?);
    stop_at!(misshapen_turns(alloc, script)?);
    Ok(None)
}

/// Whether a script is of version 1 or 2.
pub(crate) fn is_known_version(script: &Value) -> bool
    ensures { result ≡ is_known_version_of (view script.now) }
{
    let version = natural_at(script, "version");
    version == 1 || version == 2
}

/// How many items a member has.
fn item_count(value: &Value, name: &str) -> usize
    ensures { result ≡ item_count_of name.now (view value.now) }
{
    items_at(value, name).len()
}

/// Where the steps so far are first more than 2,048.
fn over_steps(alloc: Global, actors: &[Value]) -> Result<Option<Pointer>, AllocError>
    ensures { IfOk result (λ place. place ≡ first_after over_steps_of [] (map view actors.now)) }
{
    let mut left = 2048;
    for (index, actor) in actors.iter().enumerate() {
        let count = item_count(actor, "steps");
        stop_at!(at_item(
            alloc,
            index,
            at_member(alloc, "steps", unless(alloc, count <= left))?
        )?);
        left -= count;
    }
    Ok(None)
}

/// Where a script has too many surfaces, actors, steps or turns.
pub(crate) fn too_many(alloc: Global, script: &Value) -> Result<Option<Pointer>, AllocError>
    ensures { IfOk result (λ place. place ≡ too_many_of (view script.now)) }
{
    let are_few = item_count(script, "surfaces") <= 8;
    stop_at!(at_member(alloc, "surfaces", unless(alloc, are_few))?);
    let are_few = item_count(script, "actors") <= 16;
    stop_at!(at_member(alloc, "actors", unless(alloc, are_few))?);
    let actors = items_at(script, "actors");
    stop_at!(at_member(alloc, "actors", over_steps(alloc, actors)?)?);
    let are_few = item_count(script, "turns") <= 65_536;
    stop_at!(at_member(alloc, "turns", unless(alloc, are_few))?);
    Ok(None)
}

/// Whether a byte is a lower-case ASCII letter, a digit, `_` or `-`.
fn is_name_byte(byte: u8) -> bool
    ensures { result ≡ is_name_byte_of byte }
{
    byte.is_ascii_lowercase() || byte.is_ascii_digit() || byte == b'_' || byte == b'-'
}

/// Whether each byte is one of a name.
fn are_name_bytes(text: &[u8]) -> bool
    ensures { result ≡ list_all is_name_byte_of text.now }
{
    text.iter().all(|byte| is_name_byte(*byte))
}

/// Whether a text is a name.
fn is_name(text: &[u8]) -> bool
    ensures { result ≡ is_name_of text.now }
{
    1 <= text.len() && text.len() <= 32 && are_name_bytes(text)
}

/// Whether one of some actors has that name.
fn is_named(actors: &[Value], name: &str) -> bool
    ensures { result ≡ is_named_of (map view actors.now) name.now }
{
    actors.iter().any(|actor| text_at(actor, "name") == name)
}

/// Where an actor has no name, or that of an actor before it.
fn bad_name_in(
    alloc: Global,
    before: &[Value],
    actor: &Value,
) -> Result<Option<Pointer>, AllocError>
    ensures { IfOk result (λ place. place ≡ bad_name_in_of (map view before.now) (view actor.now)) }
{
    let name = text_at(actor, "name");
    let is_good = is_name(name.as_bytes()) && !is_named(before, name);
    at_member(alloc, "name", unless(alloc, is_good))
}

/// Where the first of some actors has no name of its own.
#[tactic(auto, using(crate::proofs::Items::after_more, crate::proofs::Items::after_found, crate::proofs::Items::after_end))]
fn bad_names(alloc: Global, actors: &[Value]) -> Result<Option<Pointer>, AllocError>
    ensures { IfOk result (λ place. place ≡ first_after bad_name_in_of [] (map view actors.now)) }
{
    for (index, actor) in actors.iter().enumerate() {
        stop_at!(at_item(alloc, index, bad_name_in(alloc, &actors[..index], actor)?)?);
    }
    Ok(None)
}

/// Where the first of a script's actors has no name of its own.
pub(crate) fn bad_name(alloc: Global, script: &Value) -> Result<Option<Pointer>, AllocError>
    ensures { IfOk result (λ place. place ≡ bad_name_of (view script.now)) }
{
    at_member(
        alloc,
        "actors",
        bad_names(alloc, items_at(script, "actors"))?,
    )
}

/// Where a surface is out of range, or has the id of one before it.
fn bad_plan(alloc: Global, before: &[Value], surface: &Value) -> Result<Option<Pointer>, AllocError>
    ensures { IfOk result (λ place. place ≡ bad_plan_of (map view before.now) (view surface.now)) }
{
    let id = integer_at(surface, "id");
    let is_good = is_from(1, 1_000_000, id) && !is_surface(before, id);
    stop_at!(at_member(alloc, "id", unless(alloc, is_good))?);
    stop_at!(bad_size(alloc, surface)?);
    Ok(None)
}

/// Where the first of some surfaces is out of range, or has the id of one before it.
#[tactic(auto, using(crate::proofs::Items::after_more, crate::proofs::Items::after_found, crate::proofs::Items::after_end))]
fn bad_plans(alloc: Global, surfaces: &[Value]) -> Result<Option<Pointer>, AllocError>
    ensures { IfOk result (λ place. place ≡ first_after bad_plan_of [] (map view surfaces.now)) }
{
    for (index, surface) in surfaces.iter().enumerate() {
        stop_at!(at_item(alloc, index, bad_plan(alloc, &surfaces[..index], surface)?)?);
    }
    Ok(None)
}

/// Where a surface, or the surface or size of a step, is out of range.
pub(crate) fn bad_surface(alloc: Global, script: &Value) -> Result<Option<Pointer>, AllocError>
    ensures { IfOk result (λ place. place ≡ bad_surface_of (view script.now)) }
{
    let surfaces = items_at(script, "surfaces");
    stop_at!(at_member(alloc, "surfaces", bad_plans(alloc, surfaces)?)?);
    stop_at!(in_actors(alloc, Check::Surfaces, script)?);
    Ok(None)
}

/// Whether a step mounts a surface.
fn is_mount_on(surface: &Value, step: &Value) -> bool
    ensures { result ≡ is_mount_on_of (view surface.now) (view step.now) }
{
    text_at(step, "do") == "mount" && integer_at(step, "on") == integer_at(surface, "id")
}

/// Whether one of some steps mounts a surface.
fn is_mounted_by(surface: &Value, steps: &[Value]) -> bool
    ensures { result ≡ list_any (is_mount_on_of (view surface.now)) (map view steps.now) }
{
    steps.iter().any(|step| is_mount_on(surface, step))
}

/// How many actors have steps that mount a surface.
fn mounter_count(script: &Value, surface: &Value) -> usize
    ensures { result ≡ mounter_count_of (view script.now) (view surface.now) }
{
    items_at(script, "actors")
        .iter()
        .filter(|actor| is_mounted_by(surface, items_at(actor, "steps")))
        .count()
}

/// Whether two actors mount a surface.
fn is_shared(script: &Value, surface: &Value) -> bool
    ensures { result ≡ is_shared_of (view script.now) (view surface.now) }
{
    mounter_count(script, surface) > 1
}

/// The id of the first surface that two actors mount.
pub(crate) fn two_mounters(script: &Value) -> Option<u32>
    ensures { result ≡ two_mounters_of (view script.now) }
{
    for surface in items_at(script, "surfaces") {
        if is_shared(script, surface) {
            return Some(natural_at(surface, "id"));
        }
    }
    None
}

/// Whether a turn is the number of an actor.
fn is_turn(script: &Value, turn: &Value) -> bool
    ensures { result ≡ is_turn_of (view script.now) (view turn.now) }
{
    let number = integer_in(turn);
    0 <= number && (number as u64) < item_count(script, "actors") as u64
}

/// The position of the first turn that is no actor's number.
fn first_wrong(script: &Value, turns: &[Value]) -> Option<usize>
    ensures value { result ≡ position (λ turn. not (is_turn_of (view script.now) turn)) (map view turns.now) }
    ensures within { IfSome result (λ at. at < length turns.now) }
{
    turns.iter().position(|turn| !is_turn(script, turn))
}

/// The position of the first turn that is no actor's number.
pub(crate) fn bad_turn(script: &Value) -> Option<u32>
    requires { item_count_of (codes "turns") (view script.now) ≤ 65536 }
    ensures { result ≡ bad_turn_of (view script.now) }
{
    match first_wrong(script, items_at(script, "turns")) {
        Some(at) => Some(at as u32),
        None => None,
    }
}
