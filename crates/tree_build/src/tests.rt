//! Forests that are built, and those that are refused.

ghost use Rattle.std.specs.Prelude.{◌≡◌, ◌≤◌, ◌<◌, ◌^◌, IfOk, IfSome, OnOk, Some};
ghost use Rattle.shadow_node.specs.InRange.{IsEditInRange};
ghost use Rattle.tree_build.specs.Script.{in_front, no_more, script_forest};
ghost use Rattle.tree_build.specs.InRange.{AreNodesInRange};

use crate::{BuildRefusal, ScriptNode, build};
use native_state::StateCell;
use prop_table::{EditRows, Label, NODE_TABLE, node_table, rows};
use shadow_frame::{Point, Rect, Size};
use shadow_kinds::Kind;
use shadow_node::{Forest, Made, NodeEdit, Parts, ShadowNode};
use sqlite_items::Items;
use std::alloc::{AllocError, Global};
use std::process::Abort;
use std::test::Fail;

/// A node of a test's script.
#[derive(Clone, Copy)]
enum Row {
    /// Written out, without props.
    Written(u8, Kind, &'static [Row]),
    /// Kept as it is.
    Kept(u8),
    /// Kept with a change of its label.
    Changed(u8),
    /// Kept with other children.
    Given(u8, &'static [Row]),
}

/// A node that is written out, without props.
fn written(tag: u32, kind: Kind, children: Items<ScriptNode>) -> ScriptNode
    requires low { 1 ≤ tag }
    requires high { tag < 2 ^ 31 }
    requires children { AreNodesInRange (script_forest children) }
    ensures { AreNodesInRange (in_front result no_more) }
{
    ScriptNode::Written {
        tag,
        kind,
        props: node_table().start(),
        label: Label::none(),
        children,
    }
}

/// A node that is kept with other children.
#[tactic(auto, using(crate::proofs::Fronts::front_kept_with))]
fn given(tag: u32, children: Items<ScriptNode>) -> ScriptNode
    requires low { 1 ≤ tag }
    requires high { tag < 2 ^ 31 }
    requires children { AreNodesInRange (script_forest children) }
    ensures { AreNodesInRange (in_front result no_more) }
{
    ScriptNode::Kept {
        tag,
        change: None,
        children: Some(children),
    }
}

/// A change of a label alone.
fn relabelled() -> NodeEdit
    ensures { IsEditInRange result }
{
    NodeEdit {
        rows: EditRows::empty(),
        label: Some(Label::none()),
    }
}

/// The script node of a row. The least tag is 1.
#[cycle(rows)]
fn node_of(alloc: Global, row: &Row) -> Result<ScriptNode, AllocError>
    ensures { IfOk result (λ node. AreNodesInRange (in_front node no_more)) }
{
    match row {
        Row::Written(tag, kind, children) => {
            let children = nodes_of(alloc, children)?;
            Ok(written(u32::from(*tag).max(1), *kind, children))
        }
        Row::Kept(tag) => Ok(ScriptNode::Kept {
            tag: u32::from(*tag).max(1),
            change: None,
            children: None,
        }),
        Row::Changed(tag) => Ok(ScriptNode::Kept {
            tag: u32::from(*tag).max(1),
            change: Some(relabelled()),
            children: None,
        }),
        Row::Given(tag, children) => {
            let children = nodes_of(alloc, children)?;
            Ok(given(u32::from(*tag).max(1), children))
        }
    }
}

/// Adds a script node.
#[tactic(auto, using(crate::proofs::Pushed::in_range_pushed))]
fn push(nodes: &mut Items<ScriptNode>, node: ScriptNode) -> Result<(), AllocError>
    requires nodes { AreNodesInRange (script_forest nodes.old) }
    requires node { AreNodesInRange (in_front node no_more) }
    ensures { OnOk result (AreNodesInRange (script_forest nodes.new)) }
{
    nodes.push(node)
}

/// The script nodes of rows.
#[cycle(rows)]
fn nodes_of(alloc: Global, rows: &[Row]) -> Result<Items<ScriptNode>, AllocError>
    ensures { IfOk result (λ nodes. AreNodesInRange (script_forest nodes)) }
{
    let mut nodes = Items::new(alloc);
    for row in rows {
        push(&mut nodes, node_of(alloc, row)?)?;
    }
    Ok(nodes)
}

/// Adds the tags of a forest in preorder, with a 0 after the children of each node.
fn add_shape(shape: &mut Vec<u32>, forest: &Forest) -> Result<(), AllocError> {
    for node in forest.nodes() {
        shape.push(node.tag())?;
        add_shape(shape, node.children())?;
        shape.push(0)?;
    }
    Ok(())
}

/// The node of tag 1, a view with the scroll 2, which has the text 3 in it, and with the text 4.
const TREE: &[Row] = &[Row::Written(
    1,
    Kind::View,
    &[
        Row::Written(2, Kind::Scroll, &[Row::Written(3, Kind::Text, &[])]),
        Row::Written(4, Kind::Text, &[]),
    ],
)];

/// The forest of that tree.
fn tree(alloc: Global, made: &mut Made) -> Result<Forest, BuildRefusal> {
    let nodes = nodes_of(alloc, TREE)?;
    build(alloc, made, nodes.as_slice(), &Forest::empty())
}

/// Rows over that tree, the shape of what is built, and how many nodes are made.
const BUILT: &[(&[Row], &[u32], u64)] = &[
    (TREE, &[1, 2, 3, 0, 0, 4, 0, 0], 4),
    (&[Row::Kept(1)], &[1, 2, 3, 0, 0, 4, 0, 0], 0),
    (&[Row::Changed(1)], &[1, 2, 3, 0, 0, 4, 0, 0], 1),
    (&[Row::Kept(4), Row::Kept(3)], &[4, 0, 3, 0], 0),
    (
        &[Row::Given(1, &[Row::Kept(4), Row::Written(5, Kind::View, &[])])],
        &[1, 4, 0, 5, 0, 0],
        2,
    ),
    (&[Row::Given(2, &[])], &[2, 0], 1),
    (&[Row::Given(4, &[])], &[4, 0], 1),
    (
        &[Row::Written(9, Kind::Scroll, &[Row::Kept(2)])],
        &[9, 2, 3, 0, 0, 0],
        1,
    ),
    (&[], &[], 0),
];

#[test]
fn forests_are_built(rt: HostRuntime) -> Result<(), Fail> {
    let held = tree(rt.alloc(), &mut Made::start(&rt))?;
    for (rows, shape, count) in BUILT {
        let mut made = Made::start(&rt);
        let nodes = nodes_of(rt.alloc(), rows)?;
        let forest = build(rt.alloc(), &mut made, nodes.as_slice(), &held)?;
        let mut found = Vec::new(rt.alloc());
        add_shape(&mut found, &forest)?;
        assert!(rt; found.as_slice() == *shape);
        assert_eq!(rt; made.count(), *count);
    }
    Ok(())
}

/// A text that is given a child.
const FULL_TEXT: Row = Row::Written(5, Kind::Text, &[Row::Written(6, Kind::View, &[])]);

/// Rows over that tree that are refused, some for more than one reason.
const REFUSED: &[(&[Row], BuildRefusal)] = &[
    (&[Row::Kept(8)], BuildRefusal::Unkept { tag: 8 }),
    (
        &[Row::Given(9, &[Row::Kept(8)]), Row::Kept(7)],
        BuildRefusal::Unkept { tag: 9 },
    ),
    (&[FULL_TEXT, Row::Kept(8)], BuildRefusal::Unkept { tag: 8 }),
    (&[FULL_TEXT], BuildRefusal::ChildOfLeaf { tag: 5 }),
    (
        &[Row::Given(4, &[FULL_TEXT])],
        BuildRefusal::ChildOfLeaf { tag: 4 },
    ),
    (
        &[Row::Kept(1), Row::Kept(1), FULL_TEXT],
        BuildRefusal::ChildOfLeaf { tag: 5 },
    ),
    (
        &[Row::Kept(2), Row::Kept(3), Row::Kept(2)],
        BuildRefusal::TwiceTag { tag: 3 },
    ),
    (
        &[Row::Kept(1), Row::Kept(4)],
        BuildRefusal::TwiceTag { tag: 4 },
    ),
];

#[test]
fn the_first_refusal_is_answered(rt: HostRuntime) -> Result<(), Fail> {
    let mut made = Made::start(&rt);
    let held = tree(rt.alloc(), &mut made)?;
    for (rows, refusal) in REFUSED {
        let nodes = nodes_of(rt.alloc(), rows)?;
        let answer = build(rt.alloc(), &mut made, nodes.as_slice(), &held);
        assert_eq!(rt; answer.err(), Some(*refusal));
    }
    Ok(())
}

/// Views of the tags from 1 on, each in the one before it, and below the last one so many more.
fn chain(alloc: Global, depth: u32, wide: u32) -> Result<Items<ScriptNode>, AllocError>
    requires depth { depth < 1000 }
    requires wide { wide < 9000 }
    ensures { IfOk result (λ nodes. AreNodesInRange (script_forest nodes)) }
{
    let mut nodes = Items::new(alloc);
    for tag in 0..wide {
        push(
            &mut nodes,
            written(1001 + tag, Kind::View, Items::new(alloc)),
        )?;
    }
    for tag in (0..depth).rev() {
        let node = written(1 + tag, Kind::View, nodes);
        nodes = Items::new(alloc);
        push(&mut nodes, node)?;
    }
    Ok(nodes)
}

#[test]
fn limits_are_kept(rt: HostRuntime) -> Result<(), Fail> {
    let mut made = Made::start(&rt);
    for (depth, wide, refusal) in [
        (48, 0, None),
        (47, 1953, None),
        (49, 0, Some(BuildRefusal::TooDeep)),
        (48, 2000, Some(BuildRefusal::TooDeep)),
        (47, 1954, Some(BuildRefusal::TooManyNodes)),
        (0, 2001, Some(BuildRefusal::TooManyNodes)),
        (0, 2000, None),
    ] {
        let nodes = chain(rt.alloc(), depth, wide)?;
        let answer = build(rt.alloc(), &mut made, nodes.as_slice(), &Forest::empty());
        assert_eq!(rt; answer.err(), refusal);
    }
    Ok(())
}

/// A scroll that was moved and placed.
fn moved_scroll(alloc: Global, made: &mut Made) -> Result<Forest, AllocError> {
    let node = ShadowNode::make(
        alloc,
        made,
        Parts {
            tag: 2,
            kind: Kind::Scroll,
            props: node_table().start(),
            label: Label::none(),
            state: Some(StateCell {
                count: 7,
                point: Point { x: 3, y: 4 },
            }),
            frame: Rect {
                origin: Point { x: 5, y: 6 },
                size: Size {
                    width: 8,
                    height: 9,
                },
            },
            children: Forest::empty(),
        },
    )?;
    let mut nodes = Vec::new(alloc);
    nodes.push(node)?;
    Forest::of(alloc, nodes)
}

#[test]
fn a_kept_node_has_its_state_and_frame(rt: HostRuntime) -> Result<(), Fail> {
    let mut made = Made::start(&rt);
    let held = moved_scroll(rt.alloc(), &mut made)?;
    for row in [Row::Kept(2), Row::Changed(2), Row::Given(2, &[])] {
        let nodes = nodes_of(rt.alloc(), &[row])?;
        let forest = build(rt.alloc(), &mut made, nodes.as_slice(), &held)?;
        for node in forest.nodes() {
            assert_eq!(rt; node.state().map(|cell| cell.count), Some(7));
            assert_eq!(rt; node.frame().size.width, 8);
        }
    }
    Ok(())
}
