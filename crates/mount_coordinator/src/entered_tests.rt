//! How many nodes a mount enters, on a base that leaves out contexts.

ghost use Rattle.std.specs.Prelude.{◌≡◌, ◌≤◌, ◌<◌, IfOk, OnOk};
ghost use Rattle.prop_table.specs.Table.{AreNodeProps};
ghost use Rattle.shadow_node.specs.InRange.{IsTagInRange, IsEditInRange};
ghost use Rattle.tree_build.specs.Script.{in_front, no_more, script_forest};
ghost use Rattle.tree_build.specs.InRange.{AreNodesInRange};
ghost use Rattle.tree_revision.specs.InRange.{IsOpInRange};
ghost use Rattle.tree_revision.specs.Records.{plain_op};

use crate::Coordinator;
use crate::tests::{Led, commit, commit_and_finish, is_led};
use host_views::Mutation;
use native_state::StateChange;
use prop_table::{EditRows, Label, NodeProps, node_table, rows};
use shadow_frame::{Point, Size};
use shadow_kinds::Kind;
use shadow_node::{Made, NodeEdit};
use sqlite_items::Items;
use std::alloc::{AllocError, Global};
use tree_build::ScriptNode;
use tree_revision::{Op, Revision};

const SQUARE: Size = Size {
    width: 100,
    height: 100,
};

/// The props with another number in a row.
fn set(props: &NodeProps, row: usize, value: i64) -> NodeProps
    requires row { row < 22 }
    requires props { AreNodeProps props.now }
    ensures { AreNodeProps result }
{
    match node_table().set(props, row, Some(value)) {
        Ok(after) => after,
        Err(_) => *props,
    }
}

/// Props of a square at that distance from its parent's left side and top.
fn square(at: i64, side: i64) -> NodeProps
    ensures { AreNodeProps result }
{
    let props = set(&node_table().start(), rows::LEFT, at);
    let props = set(&props, rows::TOP, at);
    let props = set(&props, rows::WIDTH, side);
    set(&props, rows::HEIGHT, side)
}

/// A node that is written out.
fn written(tag: u32, kind: Kind, props: NodeProps, children: Items<ScriptNode>) -> ScriptNode
    requires tag { IsTagInRange tag }
    requires props { AreNodeProps props }
    requires children { AreNodesInRange (script_forest children) }
    ensures { AreNodesInRange (in_front result no_more) }
{
    ScriptNode::Written {
        tag,
        kind,
        props,
        label: Label::none(),
        children,
    }
}

/// Adds a script node.
#[tactic(auto, using(tree_build::proofs::Pushed::in_range_pushed))]
fn push(nodes: &mut Items<ScriptNode>, node: ScriptNode) -> Result<(), AllocError>
    requires nodes { AreNodesInRange (script_forest nodes.old) }
    requires node { AreNodesInRange (in_front node no_more) }
    ensures { OnOk result (AreNodesInRange (script_forest nodes.new)) }
{
    nodes.push(node)
}

/// So many texts of width 10, whose tags begin with that one.
fn texts(alloc: Global, first: u32, count: u32) -> Result<Items<ScriptNode>, AllocError>
    requires low { 1 ≤ first }
    requires high { first < 1000 }
    requires count { count < 2000 }
    ensures { IfOk result (λ nodes. AreNodesInRange (script_forest nodes)) }
{
    let props = set(&node_table().start(), rows::WIDTH, 10);
    let mut nodes = Items::new(alloc);
    for tag in first..first + count {
        push(
            &mut nodes,
            written(tag, Kind::Text, props, Items::new(alloc)),
        )?;
    }
    Ok(nodes)
}

/// A forest of two scrolls with fifty texts each.
fn two_lists(alloc: Global) -> Result<Op, AllocError>
    ensures { IfOk result (λ op. IsOpInRange (plain_op op)) }
{
    let props = node_table().start();
    let mut nodes = Items::new(alloc);
    push(
        &mut nodes,
        written(2, Kind::Scroll, props, texts(alloc, 100, 50)?),
    )?;
    push(
        &mut nodes,
        written(3, Kind::Scroll, props, texts(alloc, 200, 50)?),
    )?;
    Ok(Op::Complete { nodes })
}

/// A forest of 2,000 nodes: a scroll with 1,999 texts.
fn long_list(alloc: Global) -> Result<Op, AllocError>
    ensures { IfOk result (λ op. IsOpInRange (plain_op op)) }
{
    let props = node_table().start();
    let list = written(1, Kind::Scroll, props, texts(alloc, 2, 1999)?);
    let mut nodes = Items::new(alloc);
    push(&mut nodes, list)?;
    Ok(Op::Complete { nodes })
}

/// A forest of a hidden view with a text in it.
fn hidden_view(alloc: Global) -> Result<Op, AllocError>
    ensures { IfOk result (λ op. IsOpInRange (plain_op op)) }
{
    let mut below = Items::new(alloc);
    push(
        &mut below,
        written(3, Kind::Text, square(5, 10), Items::new(alloc)),
    )?;
    let props = set(&square(10, 50), rows::HIDDEN, 1);
    let mut nodes = Items::new(alloc);
    push(&mut nodes, written(2, Kind::View, props, below))?;
    Ok(Op::Complete { nodes })
}

/// A row: a view with an image and a text in it.
fn image_row(alloc: Global, at: u32) -> Result<ScriptNode, AllocError>
    requires { at < 40 }
    ensures { IfOk result (λ node. AreNodesInRange (in_front node no_more)) }
{
    let props = node_table().start();
    let mut below = Items::new(alloc);
    push(
        &mut below,
        written(200 + at, Kind::Image, props, Items::new(alloc)),
    )?;
    push(
        &mut below,
        written(300 + at, Kind::Text, props, Items::new(alloc)),
    )?;
    Ok(written(100 + at, Kind::View, props, below))
}

/// Forty rows.
fn image_rows(alloc: Global) -> Result<Items<ScriptNode>, AllocError>
    ensures { IfOk result (λ nodes. AreNodesInRange (script_forest nodes)) }
{
    let mut nodes = Items::new(alloc);
    for at in 0..40 {
        push(&mut nodes, image_row(alloc, at)?)?;
    }
    Ok(nodes)
}

/// One node.
fn one(alloc: Global, node: ScriptNode) -> Result<Items<ScriptNode>, AllocError>
    requires { AreNodesInRange (in_front node no_more) }
    ensures { IfOk result (λ nodes. AreNodesInRange (script_forest nodes)) }
{
    let mut nodes = Items::new(alloc);
    push(&mut nodes, node)?;
    Ok(nodes)
}

/// The first screen of a list: a bar with a title, and a scroll with forty rows.
fn first_screen(alloc: Global) -> Result<Op, AllocError>
    ensures { IfOk result (λ op. IsOpInRange (plain_op op)) }
{
    let props = node_table().start();
    let title = written(2, Kind::Text, props, Items::new(alloc));
    let list = written(4, Kind::View, props, image_rows(alloc)?);
    let mut nodes = Items::new(alloc);
    push(
        &mut nodes,
        written(1, Kind::View, props, one(alloc, title)?),
    )?;
    push(
        &mut nodes,
        written(3, Kind::Scroll, props, one(alloc, list)?),
    )?;
    Ok(Op::Complete { nodes })
}

/// The scroll 3 moves by so much.
fn scrolled(by: i64) -> Op
    ensures { IsOpInRange (plain_op result) }
{
    Op::State {
        tag: 3,
        change: StateChange::Add {
            by: Point { x: 0, y: by },
        },
    }
}

/// A change of one row of a node.
fn row_change(tag: u32, row: usize, value: i64) -> Op
    requires tag { IsTagInRange tag }
    requires row { row < 22 }
    ensures { IsOpInRange (plain_op result) }
{
    Op::Props {
        tag,
        change: NodeEdit {
            rows: node_table()
                .edit(&EditRows::empty(), row, Some(value))
                .unwrap_or(EditRows::empty()),
            label: None,
        },
    }
}

/// Whether a finish led on by one update alone.
fn is_one_update(led: &Led) -> bool {
    match &led.transaction {
        Some(given) => matches!(given.mutations.as_slice(), [Mutation::Update { .. }]),
        None => false,
    }
}

#[test]
fn a_mount_leaves_out_a_list_that_did_not_change(rt: HostRuntime) {
    let alloc = rt.alloc();
    let mut made = Made::start(&rt);
    let opening = Revision::opening(alloc, SQUARE).expect(&rt, "memory");
    let shared = opening.share().expect(&rt, "memory");
    let mut coordinator = Coordinator::start(alloc, shared).expect(&rt, "memory");
    let lists = two_lists(alloc).expect(&rt, "memory");
    let first = commit_and_finish(alloc, &mut made, &mut coordinator, &opening, &lists).expect(
        &rt, "first",
    );
    assert_eq!(rt; coordinator.entered(), 102);
    let wider = row_change(200, rows::WIDTH, 20);
    let second = commit_and_finish(alloc, &mut made, &mut coordinator, &first.front, &wider).expect(
        &rt, "second",
    );
    assert_eq!(rt; coordinator.entered(), 106);
    assert!(rt; is_one_update(&second));
}

#[test]
fn one_row_of_a_long_list_changes(rt: HostRuntime) {
    let alloc = rt.alloc();
    let mut made = Made::start(&rt);
    let opening = Revision::opening(alloc, SQUARE).expect(&rt, "memory");
    let shared = opening.share().expect(&rt, "memory");
    let mut coordinator = Coordinator::start(alloc, shared).expect(&rt, "memory");
    let list = long_list(alloc).expect(&rt, "memory");
    let first = commit_and_finish(alloc, &mut made, &mut coordinator, &opening, &list).expect(
        &rt, "first",
    );
    assert_eq!(rt; made.count(), 4000);
    assert_eq!(rt; coordinator.entered(), 2000);
    let wider = row_change(1000, rows::WIDTH, 20);
    let second = commit_and_finish(alloc, &mut made, &mut coordinator, &first.front, &wider).expect(
        &rt, "second",
    );
    assert_eq!(rt; made.count(), 4004);
    assert_eq!(rt; coordinator.entered(), 2004);
    assert!(rt; is_one_update(&second));
}

#[test]
fn a_mount_enters_what_is_hidden_or_shown(rt: HostRuntime) {
    let alloc = rt.alloc();
    let mut made = Made::start(&rt);
    let opening = Revision::opening(alloc, SQUARE).expect(&rt, "memory");
    let shared = opening.share().expect(&rt, "memory");
    let mut coordinator = Coordinator::start(alloc, shared).expect(&rt, "memory");
    let hidden = hidden_view(alloc).expect(&rt, "memory");
    let first = commit_and_finish(alloc, &mut made, &mut coordinator, &opening, &hidden).expect(
        &rt, "first",
    );
    assert!(rt; is_led(&first, 0, 1, 0));
    assert_eq!(rt; coordinator.entered(), 2);
    let show = row_change(2, rows::HIDDEN, 0);
    let second = commit_and_finish(alloc, &mut made, &mut coordinator, &first.front, &show).expect(
        &rt, "second",
    );
    assert!(rt; is_led(&second, 1, 2, 2));
    assert_eq!(rt; coordinator.entered(), 6);
    let hide = row_change(2, rows::HIDDEN, 1);
    let third = commit_and_finish(alloc, &mut made, &mut coordinator, &second.front, &hide).expect(
        &rt, "third",
    );
    assert!(rt; is_led(&third, 2, 3, 2));
    assert_eq!(rt; coordinator.entered(), 10);
}

#[test]
fn a_mount_of_three_commits_enters_what_they_changed(rt: HostRuntime) {
    let alloc = rt.alloc();
    let mut made = Made::start(&rt);
    let opening = Revision::opening(alloc, SQUARE).expect(&rt, "memory");
    let shared = opening.share().expect(&rt, "memory");
    let mut coordinator = Coordinator::start(alloc, shared).expect(&rt, "memory");
    let screen = first_screen(alloc).expect(&rt, "memory");
    let first = commit_and_finish(alloc, &mut made, &mut coordinator, &opening, &screen).expect(
        &rt, "first",
    );
    assert_eq!(rt; coordinator.entered(), 124);
    let second = commit(alloc, &mut made, &coordinator, &first.front, &scrolled(120)).expect(
        &rt, "second",
    );
    let third = commit(alloc, &mut made, &coordinator, &second, &scrolled(30)).expect(&rt, "third");
    let read = row_change(302, rows::HEIGHT, 20);
    let fourth = commit_and_finish(alloc, &mut made, &mut coordinator, &third, &read).expect(
        &rt, "fourth",
    );
    assert!(rt; is_led(&fourth, 1, 4, 2));
    assert_eq!(rt; coordinator.entered(), 212);
}
