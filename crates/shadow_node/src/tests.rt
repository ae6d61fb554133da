//! Walks down a small forest.

ghost use Rattle.std.specs.Prelude.{◌≡◌, ◌≤◌, ◌<◌, ◌^◌, IfOk};
ghost use Rattle.prop_table.specs.Table.{AreNodeProps};
ghost use Rattle.shadow_node.specs.Forest.{node_count};
ghost use Rattle.shadow_node.specs.Falls.{forest_at};

use crate::{Forest, Made, NodeRef, Parts, ShadowNode, Stamps, count, depth, find, path_to};
use native_state::StateCell;
use prop_table::{Label, NodeProps, node_table};
use shadow_frame::{Point, Rect, Size};
use shadow_kinds::Kind;
use std::alloc::{AllocError, Global};
use std::process::Abort;
use std::test::Fail;

fn plain() -> NodeProps
    ensures { AreNodeProps result }
{
    node_table().start()
}

/// A view with these children.
fn view(
    alloc: Global,
    made: &mut Made,
    tag: u32,
    children: Vec<NodeRef>,
) -> Result<NodeRef, AllocError>
    requires low { 1 ≤ tag }
    requires high { tag < 2 ^ 31 }
    ensures { IfOk result (λ node. node_count node.value.children ≡ node_count (forest_at children.items)) }
{
    let children = Forest::of(alloc, children)?;
    ShadowNode::make(
        alloc,
        made,
        Parts {
            tag,
            kind: Kind::View,
            props: plain(),
            label: Label::none(),
            state: None,
            frame: Rect {
                origin: Point { x: 0, y: 0 },
                size: Size {
                    width: 0,
                    height: 0,
                },
            },
            children,
        },
    )
}

/// The view 1 with 2 and 4 in it, and 3 in 2.
fn four_views(alloc: Global, made: &mut Made) -> Result<Forest, AllocError>
    ensures { IfOk result (λ forest. node_count forest ≡ 4) }
{
    let mut below_two = Vec::new(alloc);
    below_two.push(view(alloc, made, 3, Vec::new(alloc))?)?;
    let mut below_one = Vec::new(alloc);
    below_one.push(view(alloc, made, 2, below_two)?)?;
    below_one.push(view(alloc, made, 4, Vec::new(alloc))?)?;
    let mut top = Vec::new(alloc);
    top.push(view(alloc, made, 1, below_one)?)?;
    Forest::of(alloc, top)
}

#[test]
fn a_forest_is_walked(rt: HostRuntime) -> Result<(), Fail> {
    let mut made = Made::start(&rt);
    let forest = four_views(rt.alloc(), &mut made)?;
    assert_eq!(rt; made.count(), 4);
    assert_eq!(rt; count(&forest), 4);
    assert_eq!(rt; depth(&forest), 3);
    for (tag, way) in [
        (1, &[1][..]),
        (2, &[1, 2][..]),
        (3, &[1, 2, 3][..]),
        (4, &[1, 4][..]),
        (5, &[][..]),
    ] {
        let path = path_to(rt.alloc(), &forest, tag)?;
        assert_eq!(rt; path.is_some(), !way.is_empty(), "{tag}");
        if let Some(path) = path {
            assert!(rt; path.as_slice() == way, "{tag}");
        }
        let found = find(&forest, tag).map(|node| node.tag());
        assert_eq!(rt; found, way.last().copied(), "{tag}");
    }
    Ok(())
}

#[test]
fn a_node_has_other_parts(rt: HostRuntime) -> Result<(), Fail> {
    let mut made = Made::start(&rt);
    let leaf = view(rt.alloc(), &mut made, 2, Vec::new(rt.alloc()))?;
    let mut below = Vec::new(rt.alloc());
    below.push(leaf)?;
    let node = view(rt.alloc(), &mut made, 1, Vec::new(rt.alloc()))?;
    let frame = Rect {
        origin: Point { x: 3, y: 4 },
        size: Size {
            width: 5,
            height: 6,
        },
    };
    let children = Forest::of(rt.alloc(), below)?;
    let parts = Parts {
        kind: Kind::Scroll,
        state: Some(StateCell::start()),
        frame,
        ..node.with_children(children)?
    };
    let other = ShadowNode::make(rt.alloc(), &mut made, parts)?;
    assert_eq!(rt; made.count(), 3);
    assert_eq!(rt; other.tag(), 1);
    assert!(rt; other.kind() == Kind::Scroll);
    assert!(rt; other.state() == Some(StateCell::start()));
    assert!(rt; other.frame() == frame);
    assert!(rt; node.frame() != frame);
    assert_eq!(rt; count(other.children()), 1);
    assert_eq!(rt; count(node.children()), 0);
    Ok(())
}

#[test]
fn stamps_are_found_by_their_tags(rt: HostRuntime) -> Result<(), Fail> {
    let list = [(7, 70), (2, 20), (9, 90), (4, 40)];
    let stamps = Stamps::of(rt.alloc(), &list)?;
    let shared = stamps.share()?;
    for (tag, stamp) in list {
        assert_eq!(rt; stamps.get(tag), Some(stamp), "{tag}");
        assert_eq!(rt; shared.get(tag), Some(stamp), "{tag}");
    }
    for tag in [0, 1, 3, 5, 8, 10, u32::MAX] {
        assert!(rt; stamps.get(tag).is_none(), "{tag}");
    }
    let none = Stamps::of(rt.alloc(), &[])?;
    assert!(rt; none.get(7).is_none());
    assert!(rt; Stamps::none().get(7).is_none());
    Ok(())
}
