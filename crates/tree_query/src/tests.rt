//! What is asked of small surfaces, whose histories are built up record by record.

ghost use Rattle.std.specs.Prelude.{◌<◌, IfOk};
ghost use Rattle.prop_table.specs.Table.{AreNodeProps};
ghost use Rattle.tree_build.specs.InRange.{AreNodesInRange};
ghost use Rattle.tree_build.specs.Script.{ScriptForest, in_front, script_forest};
ghost use Rattle.tree_revision.specs.InRange.{IsOpInRange};
ghost use Rattle.tree_revision.specs.Records.{plain_op};
ghost use Rattle.tree_query.specs.Flattening.{IsPointInRange};

use crate::{Rebuild, hit, measure};
use prop_table::{EditRows, Label, NodeProps, node_table, rows};
use shadow_frame::{Point, Rect, Size};
use shadow_kinds::Kind;
use shadow_node::{Made, NodeEdit};
use sqlite_items::Items;
use std::alloc::{AllocError, Global};
use std::process::Abort;
use std::sync::Arc;
use std::test::Fail;
use tree_build::ScriptNode;
use tree_revision::{Cancel, Op, Record};
use view_flatten::flatten;

const SIZE: Size = Size {
    width: 100,
    height: 100,
};

/// The props with another number in a row.
fn set(props: &NodeProps, row: usize, value: i64) -> NodeProps
    requires row { row < 22 }
    requires props { AreNodeProps props.now }
    ensures { AreNodeProps result }
{
    match node_table().set(props, row, Some(value)) {
        Ok(after) => after,
        Err(_) => *props,
    }
}

/// Props of a node at that place and of that size.
fn placed(left: i64, top: i64, width: i64, height: i64) -> NodeProps
    ensures { AreNodeProps result }
{
    let props = set(&node_table().start(), rows::LEFT, left);
    let props = set(&props, rows::TOP, top);
    let props = set(&props, rows::WIDTH, width);
    set(&props, rows::HEIGHT, height)
}

/// A node that is written out.
#[tactic(auto, using(tree_build::proofs::Fronts::front_written))]
fn written(tag: u32, kind: Kind, props: NodeProps, children: Items<ScriptNode>) -> ScriptNode
    requires props { AreNodeProps props }
    requires children { AreNodesInRange (script_forest children) }
    ensures { (rest : ScriptForest) → AreNodesInRange rest → AreNodesInRange (in_front result rest) }
{
    ScriptNode::Written {
        tag: tag.clamp(1, 2_147_483_647),
        kind,
        props,
        label: Label::none(),
        children,
    }
}

/// A node that is kept as it is.
#[tactic(auto, using(tree_build::proofs::Fronts::front_kept))]
fn kept(tag: u32) -> ScriptNode
    ensures { (rest : ScriptForest) → AreNodesInRange rest → AreNodesInRange (in_front result rest) }
{
    ScriptNode::Kept {
        tag: tag.clamp(1, 2_147_483_647),
        change: None,
        children: None,
    }
}

/// One node.
fn one(alloc: Global, node: ScriptNode) -> Result<Items<ScriptNode>, AllocError>
    requires { (rest : ScriptForest) → AreNodesInRange rest → AreNodesInRange (in_front node rest) }
    ensures { IfOk result (λ nodes. AreNodesInRange (script_forest nodes)) }
{
    let mut nodes = Items::new(alloc);
    nodes.push(node)?;
    Ok(nodes)
}

/// Another forest of one node.
fn complete(alloc: Global, node: ScriptNode) -> Result<Op, AllocError>
    requires { (rest : ScriptForest) → AreNodesInRange rest → AreNodesInRange (in_front node rest) }
    ensures { IfOk result (λ op. IsOpInRange (plain_op op)) }
{
    Ok(Op::Complete {
        nodes: one(alloc, node)?,
    })
}

/// The view 2, which has no view of its own, with the dark view 3 in it.
fn dark(alloc: Global) -> Result<Op, AllocError>
    ensures { IfOk result (λ op. IsOpInRange (plain_op op)) }
{
    let props = set(&placed(5, 5, 10, 10), rows::BACKGROUND, 4_278_190_080);
    let inner = one(alloc, written(3, Kind::View, props, Items::new(alloc)))?;
    complete(alloc, written(2, Kind::View, placed(10, 10, 50, 50), inner))
}

/// The view 2, which clips, with the text 3 in it, half of which lies outside.
fn clipped(alloc: Global) -> Result<Op, AllocError>
    ensures { IfOk result (λ op. IsOpInRange (plain_op op)) }
{
    let text = written(3, Kind::Text, placed(40, 0, 40, 20), Items::new(alloc));
    let inner = one(alloc, text)?;
    let props = set(&placed(0, 0, 50, 50), rows::CLIP, 1);
    complete(alloc, written(2, Kind::View, props, inner))
}

/// A change of whether the view 2 clips.
fn clip(value: i64) -> Op
    ensures { IsOpInRange (plain_op result) }
{
    Op::Props {
        tag: 2,
        change: NodeEdit {
            rows: node_table()
                .edit(&EditRows::empty(), rows::CLIP, Some(value))
                .unwrap_or(EditRows::empty()),
            label: None,
        },
    }
}

/// The kept node of that tag, and nothing else.
fn keep(alloc: Global, tag: u32) -> Result<Op, AllocError>
    ensures { IfOk result (λ op. IsOpInRange (plain_op op)) }
{
    complete(alloc, kept(tag))
}

/// Adds a commit by a holder of the newest revision.
fn commit(
    alloc: Global,
    rebuild: &mut Rebuild,
    made: &mut Made,
    op: Op,
) -> Result<Option<Cancel>, AllocError>
    requires { IsOpInRange (plain_op op) }
{
    let entry = Record {
        actor: 0,
        call: 0,
        held: rebuild.len(),
        op: Arc::new(alloc, op)?,
    };
    rebuild.push(made, &entry)
}

/// The cause of a change there, as far as there are numbers.
fn cause(
    rebuild: &Rebuild,
    made: &mut Made,
    op: &Op,
    at: u64,
    held: u64,
) -> Result<Option<Cancel>, AllocError>
    requires { IsOpInRange (plain_op op.now) }
{
    let at = at.min(rebuild.len());
    rebuild.cause(made, op, at, held.min(at))
}

/// Where a node of the newest revision lies: its left, its top, its width and its height.
fn measured(rebuild: &Rebuild, tag: u32, against: u32) -> Option<[i64; 4]> {
    let revision = rebuild.at(rebuild.len())?;
    let Rect { origin, size } = measure(revision.forest(), tag, against)?;
    Some([origin.x, origin.y, size.width, size.height])
}

/// A point that may be asked for.
fn point(x: i64, y: i64) -> Point
    ensures { IsPointInRange result }
{
    Point {
        x: x.clamp(-1_000_000, 1_000_000),
        y: y.clamp(-1_000_000, 1_000_000),
    }
}

/// The topmost view of the newest revision at a point.
fn hit_at(alloc: Global, rebuild: &Rebuild, x: i64, y: i64) -> Result<Option<u32>, AllocError> {
    match rebuild.at(rebuild.len()) {
        Some(revision) => {
            let tree = flatten(alloc, revision.forest())?;
            hit(alloc, &tree, point(x, y))
        }
        None => Ok(None),
    }
}

#[test]
fn a_view_below_one_that_has_none_is_measured_and_hit(rt: HostRuntime) -> Result<(), Fail> {
    let alloc = rt.alloc();
    let mut made = Made::start(&rt);
    let mut rebuild = Rebuild::start(alloc, SIZE)?;
    assert!(rt; commit(alloc, &mut rebuild, &mut made, dark(alloc)?)?.is_none());
    for (tag, against, want) in [
        (3, 0, Some([15, 15, 10, 10])),
        (3, 2, Some([5, 5, 10, 10])),
        (2, 0, Some([10, 10, 50, 50])),
        (2, 3, None),
        (3, 3, None),
        (9, 0, None),
    ] {
        let got = measured(&rebuild, tag, against);
        assert!(rt; got == want, "{tag} in {against}");
    }
    for (x, y, want) in [
        (20, 20, Some(3)),
        (15, 15, Some(3)),
        (24, 24, Some(3)),
        (25, 20, None),
        (35, 35, None),
    ] {
        assert_eq!(rt; hit_at(alloc, &rebuild, x, y)?, want, "{x} {y}");
    }
    Ok(())
}

#[test]
fn a_text_is_hit_where_it_is_not_clipped(rt: HostRuntime) -> Result<(), Fail> {
    let alloc = rt.alloc();
    let mut made = Made::start(&rt);
    let mut rebuild = Rebuild::start(alloc, SIZE)?;
    assert!(rt; commit(alloc, &mut rebuild, &mut made, clipped(alloc)?)?.is_none());
    assert!(rt; measured(&rebuild, 3, 0) == Some([40, 0, 40, 20]));
    for (x, y, want) in [(60, 10, None), (45, 10, Some(3)), (10, 10, Some(2))] {
        assert_eq!(rt; hit_at(alloc, &rebuild, x, y)?, want, "{x} {y}");
    }
    assert!(rt; commit(alloc, &mut rebuild, &mut made, clip(0))?.is_none());
    for (x, y, want) in [(60, 10, Some(3)), (45, 10, Some(3)), (10, 10, None)] {
        assert_eq!(rt;
            hit_at(alloc, &rebuild, x, y)?,
            want,
            "{x} {y}, not clipped"
        );
    }
    Ok(())
}

#[test]
fn a_cancelled_commit_leaves_the_history(rt: HostRuntime) -> Result<(), Fail> {
    let alloc = rt.alloc();
    let mut made = Made::start(&rt);
    let mut rebuild = Rebuild::start(alloc, SIZE)?;
    assert!(rt; commit(alloc, &mut rebuild, &mut made, dark(alloc)?)?.is_none());
    let unkept = commit(alloc, &mut rebuild, &mut made, keep(alloc, 7)?)?;
    assert!(rt; unkept == Some(Cancel::Unkept { tag: 7 }));
    assert_eq!(rt; rebuild.len(), 1);
    for (number, is_there) in [(0, true), (1, true), (2, false), (u64::MAX, false)] {
        assert_eq!(rt; rebuild.at(number).is_some(), is_there, "{number}");
    }
    let change = clip(1);
    let early = cause(&rebuild, &mut made, &change, 0, 0)?;
    assert!(rt; early == Some(Cancel::NotMounted { tag: 2 }));
    assert!(rt; cause(&rebuild, &mut made, &change, 1, 0)?.is_none());
    let keep_dark = keep(alloc, 3)?;
    let unheld = cause(&rebuild, &mut made, &keep_dark, 1, 0)?;
    assert!(rt; unheld == Some(Cancel::Unkept { tag: 3 }));
    assert!(rt; cause(&rebuild, &mut made, &keep_dark, 1, 1)?.is_none());
    assert_eq!(rt; rebuild.len(), 1);
    Ok(())
}
