//! Changes of a small surface, one after another.

ghost use Rattle.std.specs.Prelude.{◌≡◌, ◌≤◌, ◌<◌, ◌^◌, [], ◌∷◌, IfOk, OnOk};
ghost use Rattle.prop_table.specs.Table.{AreNodeProps};
ghost use Rattle.shadow_node.specs.InRange.{IsTagInRange, IsEditInRange};
ghost use Rattle.tree_build.specs.Script.{ScriptForest, no_more, in_front, script_forest};
ghost use Rattle.tree_build.specs.InRange.{AreNodesInRange};
ghost use Rattle.tree_settle.specs.Limits.{IsSizeInRange};
ghost use Rattle.tree_revision.specs.InRange.{IsOpInRange};
ghost use Rattle.tree_revision.specs.Records.{plain_op};

use crate::{Cancel, Op, PrepareRefusal, Revision, prepare};
use native_state::{StateCell, StateChange};
use prop_table::{EditRows, Label, NodeProps, node_table, rows};
use shadow_frame::{Point, Size};
use shadow_kinds::Kind;
use shadow_node::{Made, NodeEdit, find};
use sqlite_items::Items;
use std::alloc::{AllocError, Global};
use std::process::Abort;
use std::test::Fail;
use tree_build::ScriptNode;

/// A change to try.
#[derive(Clone, Copy)]
enum Try {
    /// The view 1, with the input 2 and the scroll 3 in it.
    Mount,
    /// The kept node of that tag, with all below it.
    Keep { tag: u32 },
    /// The kept view 1, with the kept scroll 3 and the view 5 in it.
    Exchange,
    /// The view of that tag, and nothing else.
    View { tag: u32 },
    /// The view 1 with the scroll 2 in it, both as wide as their parents, and 600 rows in that one.
    List,
    /// Two views of one tag.
    Twice,
    /// The state moves by (5, 6).
    Add { tag: u32 },
    /// The state is put to (7, 8), where it changed that often.
    SetIf { tag: u32, count: u64 },
    /// Half the opacity.
    Fade { tag: u32 },
    /// The node is 50 points wide.
    Widen { tag: u32 },
    /// The node is hidden.
    Hide { tag: u32 },
    /// The node is not hidden.
    Show { tag: u32 },
    Width { width: i64 },
    Stop,
    Suspend,
    Resume,
}

/// A tag in range.
fn in_range(tag: u32) -> u32
    ensures { IsTagInRange result }
{
    tag.clamp(1, 2_147_483_647)
}

/// A surface of that width, 480 points high.
fn size(width: i64) -> Size
    ensures { IsSizeInRange result }
{
    Size {
        width: width.clamp(0, 1_000_000),
        height: 480,
    }
}

/// The props with another number in a row.
fn set(props: &NodeProps, row: usize, value: i64) -> NodeProps
    requires row { row < 22 }
    requires props { AreNodeProps props.now }
    ensures { AreNodeProps result }
{
    match node_table().set(props, row, Some(value)) {
        Ok(after) => after,
        Err(_) => *props,
    }
}

/// Props of a node that is as wide as its parent, and 40 points high.
fn wide() -> NodeProps
    ensures { AreNodeProps result }
{
    let props = set(&node_table().start(), rows::LEFT, 0);
    let props = set(&props, rows::RIGHT, 0);
    set(&props, rows::HEIGHT, 40)
}

/// Another number in a row, and the label as it was.
fn edited(row: usize, value: i64) -> NodeEdit
    requires { row < 22 }
    ensures { IsEditInRange result }
{
    NodeEdit {
        rows: node_table()
            .edit(&EditRows::empty(), row, Some(value))
            .unwrap_or(EditRows::empty()),
        label: None,
    }
}

/// A change of a node.
fn props(tag: u32, change: NodeEdit) -> Op
    requires { IsEditInRange change }
    ensures { IsOpInRange (plain_op result) }
{
    Op::Props {
        tag: in_range(tag),
        change,
    }
}

/// A node that is written out.
#[tactic(auto, using(tree_build::proofs::Fronts::front_written))]
fn written(tag: u32, kind: Kind, props: NodeProps, children: Items<ScriptNode>) -> ScriptNode
    requires props { AreNodeProps props }
    requires children { AreNodesInRange (script_forest children) }
    ensures { (rest : ScriptForest) → AreNodesInRange rest → AreNodesInRange (in_front result rest) }
{
    ScriptNode::Written {
        tag: in_range(tag),
        kind,
        props,
        label: Label::none(),
        children,
    }
}

/// A node that is kept as it is.
#[tactic(auto, using(tree_build::proofs::Fronts::front_kept))]
fn kept(tag: u32) -> ScriptNode
    ensures { (rest : ScriptForest) → AreNodesInRange rest → AreNodesInRange (in_front result rest) }
{
    ScriptNode::Kept {
        tag: in_range(tag),
        change: None,
        children: None,
    }
}

/// A node that is kept with other children.
#[tactic(auto, using(tree_build::proofs::Fronts::front_kept_with))]
fn kept_with(tag: u32, children: Items<ScriptNode>) -> ScriptNode
    requires { AreNodesInRange (script_forest children) }
    ensures { (rest : ScriptForest) → AreNodesInRange rest → AreNodesInRange (in_front result rest) }
{
    ScriptNode::Kept {
        tag: in_range(tag),
        change: None,
        children: Some(children),
    }
}

/// One node.
fn one(alloc: Global, node: ScriptNode) -> Result<Items<ScriptNode>, AllocError>
    requires { (rest : ScriptForest) → AreNodesInRange rest → AreNodesInRange (in_front node rest) }
    ensures { IfOk result (λ nodes. AreNodesInRange (script_forest nodes)) }
{
    let mut nodes = Items::new(alloc);
    nodes.push(node)?;
    Ok(nodes)
}

/// Two nodes.
fn two(
    alloc: Global,
    first: ScriptNode,
    second: ScriptNode,
) -> Result<Items<ScriptNode>, AllocError>
    requires first { (rest : ScriptForest) → AreNodesInRange rest → AreNodesInRange (in_front first rest) }
    requires second { (rest : ScriptForest) → AreNodesInRange rest → AreNodesInRange (in_front second rest) }
    ensures { IfOk result (λ nodes. AreNodesInRange (script_forest nodes)) }
{
    let mut nodes = Items::new(alloc);
    nodes.push(first)?;
    nodes.push(second)?;
    Ok(nodes)
}

/// A node with nothing below it and no props of its own.
fn bare(alloc: Global, tag: u32, kind: Kind) -> ScriptNode
    ensures { (rest : ScriptForest) → AreNodesInRange rest → AreNodesInRange (in_front result rest) }
{
    written(tag, kind, node_table().start(), Items::new(alloc))
}

/// The view 1, with the input 2 and the scroll 3 in it.
fn mounted(alloc: Global) -> Result<Items<ScriptNode>, AllocError>
    ensures { IfOk result (λ nodes. AreNodesInRange (script_forest nodes)) }
{
    let below = two(
        alloc,
        bare(alloc, 2, Kind::Input),
        bare(alloc, 3, Kind::Scroll),
    )?;
    one(alloc, written(1, Kind::View, wide(), below))
}

/// The kept view 1, with the kept scroll 3 and the view 5 in it.
fn exchanged(alloc: Global) -> Result<Items<ScriptNode>, AllocError>
    ensures { IfOk result (λ nodes. AreNodesInRange (script_forest nodes)) }
{
    let below = two(alloc, kept(3), bare(alloc, 5, Kind::View))?;
    one(alloc, kept_with(1, below))
}

/// Adds a script node.
#[tactic(auto, using(tree_build::proofs::Pushed::in_range_pushed))]
fn push(nodes: &mut Items<ScriptNode>, node: ScriptNode) -> Result<(), AllocError>
    requires nodes { AreNodesInRange (script_forest nodes.old) }
    requires node { AreNodesInRange (in_front node no_more) }
    ensures { OnOk result (AreNodesInRange (script_forest nodes.new)) }
{
    nodes.push(node)
}

/// The view 1 with the scroll 2 in it, and 600 rows in that one, with the tags from 3 on.
fn list(alloc: Global) -> Result<Items<ScriptNode>, AllocError>
    ensures { IfOk result (λ nodes. AreNodesInRange (script_forest nodes)) }
{
    let mut rows = Items::new(alloc);
    for tag in 3..603 {
        push(&mut rows, bare(alloc, tag, Kind::View))?;
    }
    let scroll = one(alloc, written(2, Kind::Scroll, wide(), rows))?;
    one(alloc, written(1, Kind::View, wide(), scroll))
}

/// Another forest.
fn complete(nodes: Items<ScriptNode>) -> Op
    requires { AreNodesInRange (script_forest nodes) }
    ensures { IsOpInRange (plain_op result) }
{
    Op::Complete { nodes }
}

/// A change of that tag's state.
fn state(tag: u32, change: StateChange) -> Op
    ensures { IsOpInRange (plain_op result) }
{
    Op::State {
        tag: in_range(tag),
        change,
    }
}

/// The change that is tried.
fn op_of(alloc: Global, change: Try) -> Result<Op, AllocError>
    ensures { IfOk result (λ op. IsOpInRange (plain_op op)) }
{
    match change {
        Try::Mount => Ok(complete(mounted(alloc)?)),
        Try::Keep { tag } => Ok(complete(one(alloc, kept(tag))?)),
        Try::Exchange => Ok(complete(exchanged(alloc)?)),
        Try::View { tag } => Ok(complete(one(alloc, bare(alloc, tag, Kind::View))?)),
        Try::List => Ok(complete(list(alloc)?)),
        Try::Twice => Ok(complete(two(
            alloc,
            bare(alloc, 6, Kind::View),
            bare(alloc, 6, Kind::View),
        )?)),
        Try::Add { tag } => Ok(state(
            tag,
            StateChange::Add {
                by: Point { x: 5, y: 6 },
            },
        )),
        Try::SetIf { tag, count } => Ok(state(
            tag,
            StateChange::SetIf {
                count,
                point: Point { x: 7, y: 8 },
            },
        )),
        Try::Fade { tag } => Ok(props(tag, edited(rows::OPACITY, 50))),
        Try::Widen { tag } => Ok(props(tag, edited(rows::WIDTH, 50))),
        Try::Hide { tag } => Ok(props(tag, edited(rows::HIDDEN, 1))),
        Try::Show { tag } => Ok(props(tag, edited(rows::HIDDEN, 0))),
        Try::Width { width } => Ok(Op::Size { size: size(width) }),
        Try::Stop => Ok(Op::Stop),
        Try::Suspend => Ok(Op::Suspend),
        Try::Resume => Ok(Op::Resume),
    }
}

/// Takes a front to the revision after a change, by a caller that holds the front where it holds
/// none other. It answers how many nodes are made for the change.
fn step(
    alloc: Global,
    made: &mut Made,
    change: Try,
    front: &mut Revision,
    held: Option<&Revision>,
) -> Result<u64, PrepareRefusal> {
    if front.number() == u64::MAX {
        return Err(PrepareRefusal::Memory);
    }
    let before = made.count();
    let op = op_of(alloc, change)?;
    let next = match held {
        Some(held) => prepare(alloc, made, &op, front, held)?,
        None => prepare(alloc, made, &op, front, front)?,
    };
    *front = next;
    Ok(made.count().saturating_sub(before))
}

/// The state of the node of that tag.
fn state_in(revision: &Revision, tag: u32) -> Option<StateCell> {
    find(revision.forest(), tag).and_then(|node| node.state())
}

/// The width of the node of that tag.
fn width_in(revision: &Revision, tag: u32) -> Option<i64> {
    find(revision.forest(), tag).map(|node| node.frame().size.width)
}

fn cancel(cause: Cancel) -> Result<u64, PrepareRefusal> {
    Err(PrepareRefusal::Cancel(cause))
}

#[test]
fn a_surface_changes(rt: HostRuntime) -> Result<(), Fail> {
    let mut made = Made::start(&rt);
    let mut front = Revision::opening(rt.alloc(), size(320))?;
    let table = [
        (Try::Mount, Ok(4)),
        (Try::Add { tag: 2 }, Ok(2)),
        (
            Try::SetIf { tag: 2, count: 0 },
            cancel(Cancel::Stale { tag: 2, count: 1 }),
        ),
        (Try::SetIf { tag: 2, count: 1 }, Ok(2)),
        (Try::Add { tag: 1 }, cancel(Cancel::Stateless { tag: 1 })),
        (Try::Add { tag: 7 }, cancel(Cancel::NotMounted { tag: 7 })),
        (Try::Fade { tag: 3 }, Ok(2)),
        (Try::Fade { tag: 7 }, cancel(Cancel::NotMounted { tag: 7 })),
        (Try::Width { width: 400 }, Ok(1)),
        (Try::Keep { tag: 7 }, cancel(Cancel::Unkept { tag: 7 })),
        (Try::Twice, cancel(Cancel::TwiceTag { tag: 6 })),
        (Try::View { tag: 2 }, cancel(Cancel::KindChanged { tag: 2 })),
        (Try::Exchange, Ok(2)),
        (Try::Suspend, Ok(0)),
    ];
    for (turn, (change, want)) in table.into_iter().enumerate() {
        let got = step(rt.alloc(), &mut made, change, &mut front, None);
        assert_eq!(rt; got, want, "at {turn}");
    }
    assert_eq!(rt; front.number(), 7);
    assert_eq!(rt; front.families().len(), 4);
    assert_eq!(rt; width_in(&front, 1), Some(400));
    assert!(rt; find(front.forest(), 2).is_none());
    assert!(rt; find(front.forest(), 5).is_some());
    Ok(())
}

#[test]
fn mounting_stands_still_and_goes_on(rt: HostRuntime) -> Result<(), Fail> {
    let mut made = Made::start(&rt);
    let mut front = Revision::opening(rt.alloc(), size(320))?;
    for (change, number, mountable) in [
        (Try::Resume, 1, 1),
        (Try::Mount, 2, 2),
        (Try::Suspend, 3, 2),
        (Try::Width { width: 400 }, 4, 2),
        (Try::Suspend, 5, 2),
        (Try::Resume, 6, 6),
        (Try::Stop, 7, 7),
    ] {
        let got = step(rt.alloc(), &mut made, change, &mut front, None);
        assert!(rt; got.is_ok(), "to {number}");
        assert_eq!(rt; front.number(), number);
        let still = front.mountable()?;
        assert_eq!(rt; still.number(), mountable, "at {number}");
        assert_eq!(rt;
            still.size() == front.size(),
            number == mountable || number == 3
        );
    }
    assert_eq!(rt; front.forest().nodes().len(), 0);
    assert_eq!(rt; front.families().len(), 3);
    Ok(())
}

#[test]
fn a_kept_node_has_its_newest_state(rt: HostRuntime) -> Result<(), Fail> {
    let mut made = Made::start(&rt);
    let mut front = Revision::opening(rt.alloc(), size(320))?;
    assert!(rt; step(rt.alloc(), &mut made, Try::Mount, &mut front, None) == Ok(4));
    let held = front.share()?;
    for change in [Try::Add { tag: 2 }, Try::Width { width: 400 }, Try::Stop] {
        assert!(rt; step(rt.alloc(), &mut made, change, &mut front, None).is_ok());
    }
    let keep = Try::Keep { tag: 1 };
    let got = step(rt.alloc(), &mut made, keep, &mut front, Some(&held));
    assert_eq!(rt; got, Ok(2), "the view is wider, and the input moved");
    assert_eq!(rt; width_in(&front, 1), Some(400));
    let moved = StateCell {
        count: 1,
        point: Point { x: 5, y: 6 },
    };
    assert!(rt; state_in(&front, 2) == Some(moved));
    assert!(rt; state_in(&held, 2) == Some(StateCell::start()));
    Ok(())
}

/// The stamps of the tags 1, 2, 3 and 5; a tag that is not mounted has 0.
fn stamps_in(revision: &Revision) -> [u64; 4] {
    [1, 2, 3, 5].map(|tag| revision.stamps().get(tag).unwrap_or(0))
}

#[test]
fn stamps_are_renewed_where_something_is_seen(rt: HostRuntime) -> Result<(), Fail> {
    let mut made = Made::start(&rt);
    let mut front = Revision::opening(rt.alloc(), size(320))?;
    assert!(rt; stamps_in(&front) == [0, 0, 0, 0]);
    let table = [
        (Try::Mount, [1, 1, 1, 0]),
        (Try::Mount, [1, 1, 1, 0]),
        (Try::Add { tag: 2 }, [3, 3, 1, 0]),
        (Try::Suspend, [3, 3, 1, 0]),
        (Try::Resume, [3, 3, 1, 0]),
        (Try::Hide { tag: 3 }, [6, 3, 6, 0]),
        (Try::Hide { tag: 3 }, [6, 3, 6, 0]),
        (Try::Hide { tag: 1 }, [8, 8, 6, 0]),
        (Try::Show { tag: 1 }, [9, 9, 6, 0]),
        (Try::Exchange, [10, 0, 6, 10]),
        (Try::Stop, [0, 0, 0, 0]),
        (Try::Mount, [12, 12, 12, 0]),
    ];
    for (turn, (change, want)) in table.into_iter().enumerate() {
        assert!(rt;
            step(rt.alloc(), &mut made, change, &mut front, None).is_ok(),
            "at {turn}"
        );
        assert!(rt; stamps_in(&front) == want, "at {turn}");
    }
    Ok(())
}

#[test]
fn a_change_over_an_older_revision_is_seen(rt: HostRuntime) -> Result<(), Fail> {
    let mut made = Made::start(&rt);
    let mut front = Revision::opening(rt.alloc(), size(320))?;
    assert!(rt; step(rt.alloc(), &mut made, Try::Mount, &mut front, None).is_ok());
    let held = front.share()?;
    let fade = Try::Fade { tag: 3 };
    assert!(rt; step(rt.alloc(), &mut made, fade, &mut front, None).is_ok());
    assert!(rt; stamps_in(&front) == [2, 1, 2, 0]);
    let keep = Try::Keep { tag: 1 };
    assert!(rt; step(rt.alloc(), &mut made, keep, &mut front, Some(&held)).is_ok());
    assert!(rt; stamps_in(&front) == [3, 1, 3, 0]);
    assert!(rt; stamps_in(&held) == [1, 1, 1, 0]);
    Ok(())
}

#[test]
fn a_change_in_a_list_costs_its_way(rt: HostRuntime) -> Result<(), Fail> {
    let mut made = Made::start(&rt);
    let mut front = Revision::opening(rt.alloc(), size(320))?;
    let mounted = step(rt.alloc(), &mut made, Try::List, &mut front, None);
    assert_eq!(rt; mounted, Ok(604), "the view and the scroll are placed");
    let table = [
        (Try::Add { tag: 2 }, 2, [1, 2, 0]),
        (Try::Fade { tag: 300 }, 3, [1, 2, 300]),
        (Try::Widen { tag: 300 }, 6, [1, 2, 300]),
        (Try::Width { width: 400 }, 2, [1, 2, 0]),
        (Try::Suspend, 0, [0, 0, 0]),
    ];
    for (change, want, renewed) in table {
        let got = step(rt.alloc(), &mut made, change, &mut front, None);
        let number = front.number();
        assert_eq!(rt; got, Ok(want), "to {number}");
        for tag in 1..603 {
            let is_renewed = front.stamps().get(tag) == Some(number);
            assert_eq!(rt; is_renewed, renewed.contains(&tag), "{tag} at {number}");
        }
    }
    Ok(())
}
