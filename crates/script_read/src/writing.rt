//! Scripts as JSON texts.

ghost use Rattle.std.specs.Prelude.{◌≡◌, ◌<◌, ◌≤◌, [], ◌∷◌, codes, length, All, map, option_map, IfOk, OnOk, Ok, IfSome, IsTrue};
ghost use Rattle.std.specs.Option.{option_copied};
ghost use Rattle.std.specs.Str.{is_utf8};
ghost use Rattle.serde_json.specs.Data.{item, depth};
ghost use Rattle.serde_json.specs.View.{view, items_of, items_view, members_view};
ghost use Rattle.serde_json.specs.Written.{compact_text};
ghost use Rattle.prop_table.specs.Table.{v2_rules};
ghost use Rattle.prop_table.specs.Rules.{rule_of, rule_at};
ghost use Rattle.tree_build.specs.Script.{ScriptForest, in_front, script_forest};
ghost use Rattle.tree_revision.specs.Records.{plain_op, state};
ghost use Rattle.script_read.specs.Plain.{plain_step, plain_actor, plain_surface, plain_script};
ghost use Rattle.script_read.specs.Writing.{with_members, text_json, row_json, row_members, edit_members, edit_json, unless_start as unless_start_of, changed_rows, some_label as some_label_of, some_object, some_array as some_array_of, member_if, written_json, kept_json, nodes_json, step_object, op_json, step_json, actor_json, surface_json, natural, json_of};
ghost use Rattle.script_read.specs.Reads.{script_in};
ghost use Rattle.script_read.specs.Writable.{IsWritable};
ghost use Rattle.script_read.specs.Fits.{IsChangeFit, IsEditFit, AreLabelsText, IsOpFit, IsActFit};

use crate::script::{Act, ActorPlan, Script, Step, SurfacePlan};
use native_state::StateChange;
use prop_table::{EditRows, Label, NodeProps, Row, node_table};
use serde_json::{Map, Value, json, put};
use shadow_kinds::{Kind, word};
use shadow_node::NodeEdit;
use std::alloc::{AllocError, Global};
use tree_build::ScriptNode;
use tree_revision::Op;

/// A text; bytes that are no text are written as null.
fn text_value(alloc: Global, bytes: &[u8]) -> Result<Value, AllocError>
    ensures { IfOk result (λ value. view value ≡ text_json bytes.now) }
{
    match str::from_utf8(bytes) {
        Ok(text) => Value::try_from_str(alloc, text),
        Err(_) => Ok(Value::Null),
    }
}

/// Puts a row of that name, where it is named.
fn put_row(
    alloc: Global,
    name: &str,
    named: Option<Option<i64>>,
    members: &mut Map<String, Value>,
) -> Result<(), AllocError>
    ensures { OnOk result (members_view members.new.entries ≡ with_members (member_if name.now (option_map row_json named)) (members_view members.old.entries)) }
{
    match named {
        Some(value) => put(members, alloc, name, Value::from(value)),
        None => Ok(()),
    }
}

/// The number of a row, unless it is the one that the row begins with.
fn unless_start(start: Option<i64>, value: Option<i64>) -> Option<Option<i64>>
    ensures { result ≡ unless_start_of start value }
{
    if value == start { None } else { Some(value) }
}

/// The row of that number in the node's table.
fn node_row(index: usize) -> Row
    requires { index < 22 }
    ensures { rule_of result ≡ rule_at v2_rules index }
{
    node_table().rows[index]
}

/// Puts the rows that differ from their start.
fn put_changed(
    alloc: Global,
    props: &NodeProps,
    members: &mut Map<String, Value>,
) -> Result<(), AllocError>
    ensures { OnOk result (members_view members.new.entries ≡ with_members (row_members v2_rules (changed_rows v2_rules props.now)) (members_view members.old.entries)) }
{
    for index in 0..props.count() {
        let row = node_row(index);
        let named = unless_start(row.start, props.get(index));
        put_row(alloc, row.name, named, members)?;
    }
    Ok(())
}

/// Puts the rows that an edit names.
fn put_named(
    alloc: Global,
    rows: &EditRows,
    members: &mut Map<String, Value>,
) -> Result<(), AllocError>
    ensures { OnOk result (members_view members.new.entries ≡ with_members (row_members v2_rules rows.now) (members_view members.old.entries)) }
{
    for index in 0..rows.count() {
        let row = node_row(index);
        put_row(alloc, row.name, rows.get(index), members)?;
    }
    Ok(())
}

/// Puts a label, where there is one.
fn put_label(
    alloc: Global,
    label: Option<&Label>,
    members: &mut Map<String, Value>,
) -> Result<(), AllocError>
    ensures json { OnOk result (members_view members.new.entries ≡ with_members (member_if (codes "label") (option_map (λ label. text_json label.now) label.entry)) (members_view members.old.entries)) }
    ensures fits { OnOk result (IfSome label.entry (λ label. IsTrue (is_utf8 label.now))) }
{
    match label {
        Some(label) => put(members, alloc, "label", text_value(alloc, label.bytes())?),
        None => Ok(()),
    }
}

/// A change of a node.
#[tactic(auto, using(crate::proofs::RowMembers::with_both))]
fn edit_value(alloc: Global, edit: &NodeEdit) -> Result<Value, AllocError>
    ensures json { IfOk result (λ value. view value ≡ edit_json edit.now) }
    ensures fits { IfOk result (λ _. IsEditFit edit.now) }
{
    let mut members = Map::new(alloc);
    put_named(alloc, &edit.rows, &mut members)?;
    put_label(alloc, edit.label.as_ref(), &mut members)?;
    Ok(Value::Object(members))
}

/// A label, unless it is empty.
fn some_label(label: &Label) -> Option<&Label>
    ensures some { option_copied result ≡ some_label_of label.now }
    ensures fits { IsTrue (is_utf8 label.now) }
{
    if label.bytes().is_empty() {
        None
    } else {
        Some(label)
    }
}

/// The props of a written node, unless each row is at its start and the label is empty.
fn some_props(alloc: Global, props: &NodeProps, label: &Label) -> Result<Option<Value>, AllocError>
    ensures json { IfOk result (λ found. option_map view found ≡ some_object (edit_members (changed_rows v2_rules props.now) (some_label_of label.now))) }
    ensures fits { IfOk result (λ _. IsTrue (is_utf8 label.now)) }
{
    let mut members = Map::new(alloc);
    put_changed(alloc, props, &mut members)?;
    put_label(alloc, some_label(label), &mut members)?;
    if members.is_empty() {
        return Ok(None);
    }
    Ok(Some(Value::Object(members)))
}

/// Puts a member, where there is a value for it.
fn put_if(
    alloc: Global,
    name: &str,
    value: Option<Value>,
    members: &mut Map<String, Value>,
) -> Result<(), AllocError>
    ensures { OnOk result (members_view members.new.entries ≡ with_members (member_if name.now (option_map view value)) (members_view members.old.entries)) }
{
    match value {
        Some(value) => put(members, alloc, name, value),
        None => Ok(()),
    }
}

/// An array, unless it has no items.
fn some_array(values: Vec<Value>) -> Option<Value>
    ensures { option_map view result ≡ some_array_of (items_view values.items) }
{
    if values.is_empty() {
        None
    } else {
        Some(Value::Array(values))
    }
}

/// What a written node says of itself.
#[derive(Clone, Copy)]
struct Written<'a> {
    tag: u32,
    kind: Kind,
    props: &'a NodeProps,
    label: &'a Label,
}

/// A written node, with those values for its children.
#[tactic(auto, using(crate::proofs::RowMembers::with_both))]
fn written_value(alloc: Global, written: Written, children: Vec<Value>) -> Result<Value, AllocError>
    ensures json { IfOk result (λ value. view value ≡ written_json (record { tag = written.entry.tag; kind = written.entry.kind; props = written.entry.props.now; label = written.entry.label.now }) (items_view children.items)) }
    ensures fits { IfOk result (λ _. IsTrue (is_utf8 written.entry.label.now)) }
{
    let mut members = Map::new(alloc);
    put(&mut members, alloc, "tag", Value::from(written.tag))?;
    let kind = Value::try_from_str(alloc, word(written.kind))?;
    put(&mut members, alloc, "kind", kind)?;
    let props = some_props(alloc, written.props, written.label)?;
    put_if(alloc, "props", props, &mut members)?;
    put_if(alloc, "children", some_array(children), &mut members)?;
    Ok(Value::Object(members))
}

/// A change of a kept node, where there is one.
fn change_value(alloc: Global, change: &Option<NodeEdit>) -> Result<Option<Value>, AllocError>
    ensures json { IfOk result (λ found. option_map view found ≡ option_map edit_json change.now) }
    ensures fits { IfOk result (λ _. IfSome change.now IsEditFit) }
{
    match change {
        Some(edit) => Ok(Some(edit_value(alloc, edit)?)),
        None => Ok(None),
    }
}

/// A kept node, with that value for its children where they are given.
#[tactic(auto, using(crate::proofs::RowMembers::with_both))]
fn kept_value(
    alloc: Global,
    tag: u32,
    change: &Option<NodeEdit>,
    children: Option<Vec<Value>>,
) -> Result<Value, AllocError>
    ensures json { IfOk result (λ value. view value ≡ kept_json tag change.now (option_map (λ children. items_view children.items) children)) }
    ensures fits { IfOk result (λ _. IfSome change.now IsEditFit) }
{
    let mut members = Map::new(alloc);
    put(&mut members, alloc, "keep", Value::from(tag))?;
    put_if(alloc, "props", change_value(alloc, change)?, &mut members)?;
    put_if(alloc, "children", children.map(Value::Array), &mut members)?;
    Ok(Value::Object(members))
}

/// The nodes of a tree.
#[cycle(nodes)]
fn node_values(alloc: Global, nodes: &[ScriptNode]) -> Result<Vec<Value>, AllocError>
    ensures json { IfOk result (λ values. items_view values.items ≡ nodes_json (script_forest nodes.now)) }
    ensures fits { IfOk result (λ _. AreLabelsText (script_forest nodes.now)) }
{
    let mut values = Vec::with_capacity(alloc, nodes.len())?;
    for node in nodes {
        values.push(node_value(alloc, node)?)?;
    }
    Ok(values)
}

/// A node with those below it.
#[cycle(nodes)]
#[tactic(auto, using(tree_build::proofs::Fronts::front_written, tree_build::proofs::Fronts::front_kept, tree_build::proofs::Fronts::front_kept_with))]
fn node_value(alloc: Global, node: &ScriptNode) -> Result<Value, AllocError>
    ensures json { IfOk result (λ value. (rest : ScriptForest) → nodes_json (in_front node.now rest) ≡ item (view value) (nodes_json rest)) }
    ensures fits { IfOk result (λ _. (rest : ScriptForest) → AreLabelsText rest → AreLabelsText (in_front node.now rest)) }
{
    match node {
        ScriptNode::Written {
            tag,
            kind,
            props,
            label,
            children,
        } => {
            let children = node_values(alloc, children.as_slice())?;
            let written = Written {
                tag: *tag,
                kind: *kind,
                props,
                label,
            };
            written_value(alloc, written, children)
        }
        ScriptNode::Kept {
            tag,
            change,
            children: Some(children),
        } => {
            let children = node_values(alloc, children.as_slice())?;
            kept_value(alloc, *tag, change, Some(children))
        }
        ScriptNode::Kept {
            tag,
            change,
            children: None,
        } => kept_value(alloc, *tag, change, None),
    }
}

/// A step of that word on that surface, that has nothing more.
fn bare_step(alloc: Global, step: &str, on: u32) -> Result<Value, AllocError>
    ensures { IfOk result (λ value. view value ≡ step_object step.now on []) }
{
    json!(in alloc; {"do": step, "on": on})
}

/// A step that changes the state of a tag.
fn state_value(alloc: Global, on: u32, tag: u32, change: &StateChange) -> Result<Value, AllocError>
    ensures json { IfOk result (λ value. view value ≡ op_json on (state tag change.now)) }
    ensures fits { IfOk result (λ _. IsChangeFit change.now) }
{
    match change {
        StateChange::Set { point } => {
            json!(in alloc; {"do": "state", "on": on, "tag": tag, "set": [point.x, point.y]})
        }
        StateChange::Add { by } => {
            json!(in alloc; {"do": "state", "on": on, "tag": tag, "add": [by.x, by.y]})
        }
        StateChange::SetIf { count, point } => {
            json!(in alloc; {"do": "state", "on": on, "tag": tag, "set_if": [*count, point.x, point.y]})
        }
    }
}

/// A step that commits.
fn op_value(alloc: Global, on: u32, op: &Op) -> Result<Value, AllocError>
    ensures json { IfOk result (λ value. view value ≡ op_json on (plain_op op.now)) }
    ensures fits { IfOk result (λ _. IsOpFit (plain_op op.now)) }
{
    match op {
        Op::Complete { nodes } => {
            let tree = Value::Array(node_values(alloc, nodes.as_slice())?);
            json!(in alloc; {"do": "complete", "on": on, "tree": tree})
        }
        Op::State { tag, change } => state_value(alloc, on, *tag, change),
        Op::Props { tag, change } => {
            let props = edit_value(alloc, change)?;
            json!(in alloc; {"do": "props", "on": on, "tag": *tag, "props": props})
        }
        Op::Size { size } => {
            json!(in alloc; {"do": "size", "on": on, "width": size.width, "height": size.height})
        }
        Op::Stop => bare_step(alloc, "stop", on),
        Op::Suspend => bare_step(alloc, "suspend", on),
        Op::Resume => bare_step(alloc, "resume", on),
    }
}

fn step_value(alloc: Global, step: &Step) -> Result<Value, AllocError>
    ensures json { IfOk result (λ value. view value ≡ step_json (plain_step step.now)) }
    ensures fits { IfOk result (λ _. IsActFit (plain_step step.now).act) }
{
    match &step.act {
        Act::Commit(op) => op_value(alloc, step.surface, &**op),
        Act::Hold => bare_step(alloc, "hold", step.surface),
        Act::Mount => bare_step(alloc, "mount", step.surface),
    }
}

fn step_values(alloc: Global, steps: &[Step]) -> Result<Vec<Value>, AllocError>
    ensures json { IfOk result (λ values. items_view values.items ≡ items_of (map step_json (map plain_step steps.now))) }
    ensures fits { IfOk result (λ _. All (λ step. IsActFit step.act) (map plain_step steps.now)) }
{
    let mut values = Vec::with_capacity(alloc, steps.len())?;
    for step in steps {
        values.push(step_value(alloc, step)?)?;
    }
    Ok(values)
}

fn actor_value(alloc: Global, actor: &ActorPlan) -> Result<Value, AllocError>
    ensures json { IfOk result (λ value. view value ≡ actor_json (plain_actor actor.now)) }
    ensures fits { IfOk result (λ _. All (λ step. IsActFit step.act) (plain_actor actor.now).steps) }
{
    let name = text_value(alloc, actor.name.as_slice())?;
    let steps = Value::Array(step_values(alloc, actor.steps.as_slice())?);
    json!(in alloc; {"name": name, "steps": steps})
}

fn actor_values(alloc: Global, actors: &[ActorPlan]) -> Result<Vec<Value>, AllocError>
    ensures json { IfOk result (λ values. items_view values.items ≡ items_of (map actor_json (map plain_actor actors.now))) }
    ensures fits { IfOk result (λ _. All (λ actor. All (λ step. IsActFit step.act) actor.steps) (map plain_actor actors.now)) }
{
    let mut values = Vec::with_capacity(alloc, actors.len())?;
    for actor in actors {
        values.push(actor_value(alloc, actor)?)?;
    }
    Ok(values)
}

fn surface_value(alloc: Global, surface: &SurfacePlan) -> Result<Value, AllocError>
    ensures { IfOk result (λ value. view value ≡ surface_json (plain_surface surface.now)) }
{
    json!(in alloc; {"id": surface.id, "width": surface.size.width, "height": surface.size.height})
}

fn surface_values(alloc: Global, surfaces: &[SurfacePlan]) -> Result<Vec<Value>, AllocError>
    ensures { IfOk result (λ values. items_view values.items ≡ items_of (map surface_json (map plain_surface surfaces.now))) }
{
    let mut values = Vec::with_capacity(alloc, surfaces.len())?;
    for surface in surfaces {
        values.push(surface_value(alloc, surface)?)?;
    }
    Ok(values)
}

fn turn_values(alloc: Global, turns: &[u32]) -> Result<Vec<Value>, AllocError>
    ensures { IfOk result (λ values. items_view values.items ≡ items_of (map natural turns.now)) }
{
    let mut values = Vec::with_capacity(alloc, turns.len())?;
    for turn in turns {
        values.push(Value::from(*turn))?;
    }
    Ok(values)
}

/// A script as a JSON value.
pub(crate) fn script_value(alloc: Global, script: &Script) -> Result<Value, AllocError>
    ensures json { IfOk result (λ value. view value ≡ json_of (plain_script script.now)) }
    ensures fits { IfOk result (λ _. All (λ actor. All (λ step. IsActFit step.act) actor.steps) (plain_script script.now).actors) }
{
    let surfaces = Value::Array(surface_values(alloc, script.surfaces.as_slice())?);
    let actors = Value::Array(actor_values(alloc, script.actors.as_slice())?);
    let turns = Value::Array(turn_values(alloc, script.turns.as_slice())?);
    json!(in alloc; {"version": script.version, "surfaces": surfaces, "actors": actors, "turns": turns})
}

/// The compact JSON text of a script of version 1 or 2 whose values have no fault. It reads back to
/// the same script, where it has at most 4,194,304 bytes and nests at most 127 levels deep.
pub fn write_script(alloc: Global, script: &Script) -> Result<Vec<u8>, AllocError>
    requires { IsWritable (plain_script script.now) }
    ensures text { IfOk result (λ text. text.items ≡ compact_text (json_of (plain_script script.now))) }
    ensures reads_back { IfOk result (λ text. length text.items ≤ 4194304 → depth (json_of (plain_script script.now)) ≤ 127 → script_in text.items ≡ Ok (plain_script script.now)) }
{
    let value = script_value(alloc, script)?;
    value.to_vec(alloc)
}
