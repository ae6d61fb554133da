//! The script of a JSON value without a fault.

ghost use Rattle.std.specs.Prelude.{◌≡◌, ◌<◌, IfOk, map};
ghost use Rattle.serde_json.specs.View.{view};
ghost use Rattle.script_read.specs.Plain.{plain_act, plain_step, plain_actor, plain_surface, plain_script};
ghost use Rattle.script_read.specs.Members.{natural_in as natural_in_of};
ghost use Rattle.tree_revision.specs.Records.{plain_op};
ghost use Rattle.tree_revision.specs.Script.{commit};
ghost use Rattle.script_read.specs.Value.{at_least_zero as at_least_zero_of, point_from as point_from_of, state_change_of, size_of as size_of_of, act_of, step_of, actor_of, surface_of, script_of};

use crate::members::{
    integer_at, item_integer, items_at, member_at, natural_at, natural_in, text_at,
};
use crate::nodes::read_nodes;
use crate::props::read_edit;
use crate::script::{Act, ActorPlan, Script, Step, SurfacePlan};
use crate::words::{Word, is_version_two, word_in};
use native_state::StateChange;
use serde_json::Value;
use shadow_frame::{Point, Size};
use sqlite_items::Items;
use std::alloc::{AllocError, Global};
use std::sync::Arc;
use tree_revision::Op;

/// A point from two items, the first at that number.
fn point_from(value: &Value, index: usize) -> Point
    requires { index < 2 }
    ensures { result ≡ point_from_of index (view value.now) }
{
    Point {
        x: item_integer(value, index),
        y: item_integer(value, index + 1),
    }
}

/// A count that is not negative.
fn at_least_zero(count: i64) -> u64
    ensures { result ≡ at_least_zero_of count }
{
    if count < 0 { 0 } else { count as u64 }
}

/// The change of a state step.
fn read_state_change(step: &Value) -> StateChange
    ensures { result ≡ state_change_of (view step.now) }
{
    if let Some(point) = step.get("set") {
        return StateChange::Set {
            point: point_from(point, 0),
        };
    }
    if let Some(by) = step.get("add") {
        return StateChange::Add {
            by: point_from(by, 0),
        };
    }
    let none = Value::Null;
    let numbers = member_at(step, "set_if", &none);
    StateChange::SetIf {
        count: at_least_zero(item_integer(numbers, 0)),
        point: point_from(numbers, 1),
    }
}

/// A width and a height.
fn size_of(value: &Value) -> Size
    ensures { result ≡ size_of_of (view value.now) }
{
    Size {
        width: integer_at(value, "width"),
        height: integer_at(value, "height"),
    }
}

/// A step that commits a change.
fn commit_of(alloc: Global, op: Op) -> Result<Act, AllocError>
    ensures { IfOk result (λ act. plain_act act ≡ commit (plain_op op)) }
{
    match Arc::new(alloc, op) {
        Ok(op) => Ok(Act::Commit(op)),
        Err(_) => Err(AllocError),
    }
}

/// What a step of that word does.
fn read_act(alloc: Global, two: bool, word: Word, step: &Value) -> Result<Act, AllocError>
    ensures { IfOk result (λ act. plain_act act ≡ act_of two word (view step.now)) }
{
    match word {
        Word::Complete => {
            let none = Value::Null;
            let nodes = read_nodes(alloc, two, member_at(step, "tree", &none))?;
            commit_of(alloc, Op::Complete { nodes })
        }
        Word::State => {
            let tag = natural_at(step, "tag");
            let change = read_state_change(step);
            commit_of(alloc, Op::State { tag, change })
        }
        Word::Props => {
            let tag = natural_at(step, "tag");
            let none = Value::Null;
            let change = read_edit(alloc, two, member_at(step, "props", &none))?;
            commit_of(alloc, Op::Props { tag, change })
        }
        Word::Size => commit_of(
            alloc,
            Op::Size {
                size: size_of(step),
            },
        ),
        Word::Stop => commit_of(alloc, Op::Stop),
        Word::Suspend => commit_of(alloc, Op::Suspend),
        Word::Resume => commit_of(alloc, Op::Resume),
        Word::Hold => Ok(Act::Hold),
        Word::Mount => Ok(Act::Mount),
    }
}

/// A step.
fn read_step(alloc: Global, two: bool, step: &Value) -> Result<Step, AllocError>
    ensures { IfOk result (λ made. plain_step made ≡ step_of two (view step.now)) }
{
    let word = word_in(two, step).unwrap_or(Word::Hold);
    let act = read_act(alloc, two, word, step)?;
    Ok(Step {
        surface: natural_at(step, "on"),
        act,
    })
}

/// Steps in order.
fn read_steps(alloc: Global, two: bool, list: &[Value]) -> Result<Items<Step>, AllocError>
    ensures { IfOk result (λ steps. map plain_step steps ≡ map (step_of two) (map view list.now)) }
{
    let mut steps = Items::new(alloc);
    for step in list {
        steps.push(read_step(alloc, two, step)?)?;
    }
    Ok(steps)
}

/// An actor.
fn read_actor(alloc: Global, two: bool, actor: &Value) -> Result<ActorPlan, AllocError>
    ensures { IfOk result (λ made. plain_actor made ≡ actor_of two (view actor.now)) }
{
    let name = Items::from_slice(alloc, text_at(actor, "name").as_bytes())?;
    let steps = read_steps(alloc, two, items_at(actor, "steps"))?;
    Ok(ActorPlan { name, steps })
}

/// Actors in order.
fn read_actors(alloc: Global, two: bool, list: &[Value]) -> Result<Items<ActorPlan>, AllocError>
    ensures { IfOk result (λ actors. map plain_actor actors ≡ map (actor_of two) (map view list.now)) }
{
    let mut actors = Items::new(alloc);
    for actor in list {
        actors.push(read_actor(alloc, two, actor)?)?;
    }
    Ok(actors)
}

/// A surface.
fn read_surface(surface: &Value) -> SurfacePlan
    ensures { plain_surface result ≡ surface_of (view surface.now) }
{
    SurfacePlan {
        id: natural_at(surface, "id"),
        size: size_of(surface),
    }
}

/// Surfaces in order.
fn read_surfaces(alloc: Global, list: &[Value]) -> Result<Items<SurfacePlan>, AllocError>
    ensures { IfOk result (λ surfaces. map plain_surface surfaces ≡ map surface_of (map view list.now)) }
{
    let mut surfaces = Items::new(alloc);
    for surface in list {
        surfaces.push(read_surface(surface))?;
    }
    Ok(surfaces)
}

/// Turns in order.
fn read_turns(alloc: Global, list: &[Value]) -> Result<Items<u32>, AllocError>
    ensures { IfOk result (λ turns. turns ≡ map natural_in_of (map view list.now)) }
{
    let mut turns = Items::new(alloc);
    for turn in list {
        turns.push(natural_in(turn))?;
    }
    Ok(turns)
}

/// The script of a value.
pub(crate) fn build_script(alloc: Global, script: &Value) -> Result<Script, AllocError>
    ensures { IfOk result (λ made. plain_script made ≡ script_of (view script.now)) }
{
    let two = is_version_two(script);
    Ok(Script {
        version: natural_at(script, "version"),
        surfaces: read_surfaces(alloc, items_at(script, "surfaces"))?,
        actors: read_actors(alloc, two, items_at(script, "actors"))?,
        turns: read_turns(alloc, items_at(script, "turns"))?,
    })
}
