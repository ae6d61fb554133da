//! Objects of props: what is wrong in them, and what they say.

ghost use Rattle.std.specs.Prelude.{◌≡◌, ◌<◌, IfOk, map, codes, count_by, is_some, [], ◌∷◌};
ghost use Rattle.serde_json.specs.View.{view};
ghost use Rattle.serde_json.specs.Find.{get};
ghost use Rattle.prop_table.specs.Edits.{with_edit};
ghost use Rattle.prop_table.specs.Rules.{rule_at, rule_of, rules_of};
ghost use Rattle.script_read.specs.Members.{has_form};
ghost use Rattle.script_read.specs.Places.{refused};
ghost use Rattle.script_read.specs.Faults.{takes as takes_of, taken as taken_of, row_value as row_value_of, bad_row as bad_row_of, bad_props as bad_props_of, rules_for, bad_props_in as bad_props_in_of, label_of as label_of_of};
ghost use Rattle.script_read.specs.Value.{edit_with, named_row as named_row_of, rows_of, named_rows as named_rows_of, props_of as props_of_of, edits_of, named_label as named_label_of, edit_of as edit_of_of};

use crate::places::{Pointer, Test, at_member, is_from, refused, unless};
use prop_table::{
    EditRows, Label, NodeProps, PropEdit, PropTable, Props, Row, node_table, v1_table, widen,
    widen_edit,
};
use serde_json::Value;
use shadow_node::NodeEdit;
use std::alloc::{AllocError, Global};

/// Whether a row takes a number, or may be empty.
fn takes(row: &Row, value: Option<i64>) -> bool
    ensures { result ≡ takes_of (rule_of row.now) value }
{
    match value {
        Some(number) => is_from(row.low, row.high, number),
        None => row.start.is_none(),
    }
}

/// What a value says of a row: an integer, or null for an empty row; `None` where it says neither.
fn row_value(value: &Value) -> Option<Option<i64>>
    ensures { result ≡ row_value_of (view value.now) }
{
    if value.is_null() {
        return Some(None);
    }
    match value.as_i64() {
        Some(number) => Some(Some(number)),
        None => None,
    }
}

/// What a value says of a row, where the row takes it.
fn taken(row: &Row, value: &Value) -> Option<Option<i64>>
    ensures { result ≡ taken_of (rule_of row.now) (view value.now) }
{
    let number = row_value(value)?;
    if takes(row, number) {
        Some(number)
    } else {
        None
    }
}

/// Where a row does not take what an object says of it.
fn bad_value(alloc: Global, row: &Row, props: &Value) -> Result<Option<Pointer>, AllocError>
    ensures { IfOk result (λ place. place ≡ refused (rule_of row.now).name (λ value. is_some (taken_of (rule_of row.now) value)) (view props.now)) }
{
    match props.get(row.name) {
        Some(value) => at_member(alloc, row.name, unless(alloc, taken(row, value).is_some())),
        None => Ok(None),
    }
}

/// Where the first row, in the table's order, does not take what an object says of it.
fn bad_row(alloc: Global, rows: &[Row], props: &Value) -> Result<Option<Pointer>, AllocError>
    ensures { IfOk result (λ place. place ≡ bad_row_of (map rule_of rows.now) (view props.now)) }
{
    for row in rows {
        stop_at!(bad_value(alloc, row, props)?);
    }
    Ok(None)
}

/// How many of the rows an object names.
fn rows_found(rows: &[Row], props: &Value) -> usize
    ensures { result ≡ count_by (λ row. is_some (get (rule_of row).name (view props.now))) rows.now }
{
    rows.iter()
        .filter(|row| props.get(row.name).is_some())
        .count()
}

/// Whether an object names rows and `label` alone.
fn has_rows_form(rows: &[Row], props: &Value) -> bool
    ensures { result ≡ has_form [] (codes "label" ∷ map (λ rule. rule.name) (map rule_of rows.now)) (view props.now) }
{
    let Some(members) = props.as_object() else {
        return false;
    };
    let found = rows_found(rows, props);
    if props.get("label").is_some() {
        members.len() == found + 1
    } else {
        members.len() == found
    }
}

/// Where an object of props is refused.
fn bad_props(alloc: Global, rows: &[Row], props: &Value) -> Result<Option<Pointer>, AllocError>
    ensures { IfOk result (λ place. place ≡ bad_props_of (map rule_of rows.now) (view props.now)) }
{
    stop_at!(unless(alloc, has_rows_form(rows, props)));
    stop_at!(bad_row(alloc, rows, props)?);
    stop_at!(refused(alloc, props, "label", Test::Label)?);
    Ok(None)
}

/// The rows that a script of the version names.
fn rows_for(two: bool) -> &'static [Row]
    ensures { map rule_of result.now ≡ rules_for two }
{
    if two {
        node_table().rows
    } else {
        v1_table().rows
    }
}

/// Where the props of a node or a step are refused, where there are any.
pub(crate) fn bad_props_in(
    alloc: Global,
    two: bool,
    value: &Value,
) -> Result<Option<Pointer>, AllocError>
    ensures { IfOk result (λ place. place ≡ bad_props_in_of two (view value.now)) }
{
    match value.get("props") {
        Some(props) => at_member(alloc, "props", bad_props(alloc, rows_for(two), props)?),
        None => Ok(None),
    }
}

/// What an object says of a row; `None` where it does not name the row.
fn named_row(value: &Value, row: &Row) -> Option<Option<i64>>
    ensures { result ≡ named_row_of (view value.now) (rule_of row.now) }
{
    match value.get(row.name) {
        Some(found) => taken(row, found),
        None => None,
    }
}

/// Props with what an object says of a row.
fn with_row<const N: usize>(
    table: &PropTable<N>,
    props: &Props<N>,
    row: usize,
    value: &Value,
) -> Props<N>
    requires { row < N }
    ensures { result ≡ with_edit props.now row (named_row_of (view value.now) (rule_at (rules_of table.now) row)) }
{
    match named_row(value, &table.rows[row]) {
        Some(number) => match table.set(props, row, number) {
            Ok(after) => after,
            Err(_) => *props,
        },
        None => *props,
    }
}

/// The props that an object names, and each other row at its start.
fn read_rows<const N: usize>(table: &PropTable<N>, value: &Value) -> Props<N>
    ensures { result ≡ rows_of (rules_of table.now) (view value.now) }
{
    let mut props = table.start();
    for row in 0..N {
        props = with_row(table, &props, row, value);
    }
    props
}

/// An edit with what an object says of a row.
fn with_edit<const N: usize>(
    table: &PropTable<N>,
    edit: &PropEdit<N>,
    row: usize,
    value: &Value,
) -> PropEdit<N>
    requires { row < N }
    ensures { result ≡ edit_with edit.now row (named_row_of (view value.now) (rule_at (rules_of table.now) row)) }
{
    match named_row(value, &table.rows[row]) {
        Some(number) => match table.edit(edit, row, number) {
            Ok(after) => after,
            Err(_) => *edit,
        },
        None => *edit,
    }
}

/// The rows that an object names.
fn read_edit_rows<const N: usize>(table: &PropTable<N>, value: &Value) -> PropEdit<N>
    ensures { result ≡ named_rows_of (rules_of table.now) (view value.now) }
{
    let mut edit = PropEdit::empty();
    for row in 0..N {
        edit = with_edit(table, &edit, row, value);
    }
    edit
}

/// The props of a node that an object names.
pub(crate) fn read_props(two: bool, value: &Value) -> NodeProps
    ensures { result ≡ props_of_of two (view value.now) }
{
    if two {
        read_rows(&node_table(), value)
    } else {
        widen(&read_rows(&v1_table(), value))
    }
}

/// The rows of a node that an object names.
fn read_edits(two: bool, value: &Value) -> EditRows
    ensures { result ≡ edits_of two (view value.now) }
{
    if two {
        read_edit_rows(&node_table(), value)
    } else {
        widen_edit(&read_edit_rows(&v1_table(), value))
    }
}

/// A value that is a text of at most 256 bytes, as a label.
fn label_of(alloc: Global, value: &Value) -> Result<Option<Label>, AllocError>
    ensures { IfOk result (λ label. label ≡ label_of_of (view value.now)) }
{
    let Some(text) = value.as_str() else {
        return Ok(None);
    };
    if text.len() > 256 {
        return Ok(None);
    }
    match Label::make(alloc, text) {
        Ok(label) => Ok(Some(label)),
        Err(_) => Err(AllocError),
    }
}

/// The label that an object names.
pub(crate) fn named_label(alloc: Global, value: &Value) -> Result<Option<Label>, AllocError>
    ensures { IfOk result (λ label. label ≡ named_label_of (view value.now)) }
{
    match value.get("label") {
        Some(label) => label_of(alloc, label),
        None => Ok(None),
    }
}

/// The change that an object of props names.
pub(crate) fn read_edit(alloc: Global, two: bool, value: &Value) -> Result<NodeEdit, AllocError>
    ensures { IfOk result (λ edit. edit ≡ edit_of_of two (view value.now)) }
{
    let label = named_label(alloc, value)?;
    Ok(NodeEdit {
        rows: read_edits(two, value),
        label,
    })
}
