//! The host trees of a small forest whose nodes look this way or that, and the walks over it.

ghost use Rattle.std.specs.Prelude.{◌≡◌, ◌≤◌, ◌<◌, ◌^◌, [], ◌∷◌, IfOk};
ghost use Rattle.prop_table.specs.Table.{AreNodeProps};
ghost use Rattle.shadow_node.specs.Falls.{forest_at};
ghost use Rattle.tree_settle.specs.Limits.{IsForestInLimits, IsFrameInBounds};

use self::Look::{At, Clips, Drawn, Hidden, Plain};
use crate::{Placed, Skip, Walk, flatten, places};
use host_views::HostTree;
use prop_table::{Label, NodeProps, node_table, rows};
use shadow_frame::{Point, Rect, Size};
use shadow_kinds::Kind;
use shadow_node::{Forest, Made, NodeRef, Parts, ShadowNode, Stamps};
use std::alloc::{AllocError, Global};
use std::test::Fail;

/// How a view looks.
#[derive(Clone, Copy)]
enum Look {
    /// It has no host view.
    Plain,
    /// It has a host view, and is the host parent of none.
    Drawn,
    /// It has a host view, and is the host parent of what lies below it.
    Clips,
    /// The same, at that z.
    At(i64),
    /// It is not shown.
    Hidden,
}

/// The props of a view that looks so.
fn props_of(look: Look) -> NodeProps
    ensures { AreNodeProps result }
{
    let table = node_table();
    let start = table.start();
    let (row, value) = match look {
        Plain => (rows::OPACITY, 100),
        Drawn => (rows::BORDER, 1),
        Clips => (rows::CLIP, 1),
        At(z) => (rows::Z, z),
        Hidden => (rows::HIDDEN, 1),
    };
    match table.set(&start, row, Some(value)) {
        Ok(props) => props,
        Err(_) => start,
    }
}

/// A view that begins that far right of its parent's corner, and as far above it.
fn view(
    alloc: Global,
    made: &mut Made,
    tag: u32,
    left: u8,
    look: Look,
    children: Forest,
) -> Result<NodeRef, AllocError>
    requires low { 1 ≤ tag }
    requires high { tag < 2 ^ 31 }
    ensures tag { IfOk result (λ node. node.value.fields.fields.tag ≡ tag) }
    ensures frame { IfOk result (λ node. IsFrameInBounds node.value.fields.frame) }
    ensures children { IfOk result (λ node. node.value.children ≡ children) }
{
    ShadowNode::make(
        alloc,
        made,
        Parts {
            tag,
            kind: Kind::View,
            props: props_of(look),
            label: Label::none(),
            state: None,
            frame: Rect {
                origin: Point {
                    x: i64::from(left),
                    y: -i64::from(left),
                },
                size: Size {
                    width: 1,
                    height: 1,
                },
            },
            children,
        },
    )
}

/// The forest of two trees.
fn pair(alloc: Global, first: NodeRef, second: NodeRef) -> Result<Forest, AllocError>
    ensures { IfOk result (λ forest. forest ≡ forest_at (first ∷ second ∷ [])) }
{
    let mut nodes = Vec::new(alloc);
    nodes.push(first)?;
    nodes.push(second)?;
    Forest::of(alloc, nodes)
}

/// The forest of one tree.
fn alone(alloc: Global, tree: NodeRef) -> Result<Forest, AllocError>
    ensures { IfOk result (λ forest. forest ≡ forest_at (tree ∷ [])) }
{
    let mut nodes = Vec::new(alloc);
    nodes.push(tree)?;
    Forest::of(alloc, nodes)
}

/// The view 1 with 2 and 5 in it, and 3 and 4 in 2; view n begins 2^n right of its parent's corner.
fn five_views(alloc: Global, made: &mut Made, looks: [Look; 5]) -> Result<Forest, AllocError>
    ensures { IfOk result IsForestInLimits }
{
    let [one, two, three, four, five] = looks;
    let three = view(alloc, made, 3, 8, three, Forest::empty())?;
    let four = view(alloc, made, 4, 16, four, Forest::empty())?;
    let two = view(alloc, made, 2, 4, two, pair(alloc, three, four)?)?;
    let five = view(alloc, made, 5, 32, five, Forest::empty())?;
    let one = view(alloc, made, 1, 2, one, pair(alloc, two, five)?)?;
    let forest = alone(alloc, one)?;
    Ok(forest)
}

/// Whether these are the views of a tree: the tag, the host parent, the index, and how far right
/// of that parent's corner it begins.
fn has_views(tree: &HostTree, wanted: &[(u32, u32, u32, i64)]) -> bool {
    let views = tree.views.as_slice();
    if views.len() != wanted.len() {
        return false;
    }
    for (placed, wanted) in views.iter().zip(wanted) {
        let origin = placed.view.frame.origin;
        let is_there = (placed.tag, placed.parent, placed.index, origin.x) == *wanted;
        if !is_there || origin.x.checked_neg() != Some(origin.y) {
            return false;
        }
    }
    true
}

#[test]
fn forests_have_host_trees(rt: HostRuntime) -> Result<(), Fail> {
    let alloc = rt.alloc();
    let mut made = Made::start(&rt);
    for (name, looks, wanted) in [
        (
            "contexts in contexts",
            [Clips, Clips, Clips, Drawn, Clips],
            &[
                (1, 0, 0, 2),
                (2, 1, 0, 4),
                (3, 2, 0, 8),
                (4, 2, 1, 16),
                (5, 1, 1, 32),
            ][..],
        ),
        (
            "what has no view passes its offset on",
            [Clips, Plain, Drawn, Plain, Drawn],
            &[(1, 0, 0, 2), (3, 1, 0, 12), (5, 1, 1, 32)][..],
        ),
        (
            "what has a view is the host parent of none",
            [Drawn, Drawn, Drawn, Plain, Drawn],
            &[(1, 0, 0, 2), (2, 0, 1, 6), (3, 0, 2, 14), (5, 0, 3, 34)][..],
        ),
        (
            "by z, with what lies below",
            [Clips, At(1), At(2), At(-1), Drawn],
            &[
                (1, 0, 0, 2),
                (5, 1, 0, 32),
                (2, 1, 1, 4),
                (4, 2, 0, 16),
                (3, 2, 1, 8),
            ][..],
        ),
        (
            "by z below another host parent",
            [Plain, Plain, At(1), At(-1), At(0)],
            &[(4, 0, 0, 22), (5, 0, 1, 34), (3, 0, 2, 14)][..],
        ),
        (
            "in preorder where z is equal",
            [Clips, Plain, At(0), Drawn, At(0)],
            &[(1, 0, 0, 2), (3, 1, 0, 12), (4, 1, 1, 20), (5, 1, 2, 32)][..],
        ),
        (
            "what is hidden hides what lies below",
            [Clips, Hidden, Clips, Drawn, Drawn],
            &[(1, 0, 0, 2), (5, 1, 0, 32)][..],
        ),
        ("all hidden", [Hidden, Clips, Clips, Drawn, Drawn], &[][..]),
    ] {
        let forest = five_views(alloc, &mut made, looks)?;
        let tree = flatten(alloc, &forest)?;
        assert!(rt; has_views(&tree, wanted), "{name}");
    }
    Ok(())
}

/// Whether these are the places of a walk: the tag, the host parent, the index, how far right of
/// that parent's corner the view begins, and whether the node was skipped.
fn has_places(places: &[Placed], wanted: &[(u32, u32, u32, i64, bool)]) -> bool {
    if places.len() != wanted.len() {
        return false;
    }
    for (placed, wanted) in places.iter().zip(wanted) {
        let begin = placed.frame().origin.x;
        let place = (
            placed.tag(),
            placed.parent,
            placed.index,
            begin,
            placed.is_skipped,
        );
        if place != *wanted {
            return false;
        }
    }
    true
}

#[test]
fn walks_leave_out_what_is_skipped(rt: HostRuntime) -> Result<(), Fail> {
    let alloc = rt.alloc();
    let mut made = Made::start(&rt);
    let stamps = Stamps::of(alloc, &[(1, 5)])?;
    for (name, base, looks, wanted, skipped, entered) in [
        (
            "a skipped context keeps its own place",
            3,
            [Clips, Clips, Drawn, Drawn, Drawn],
            &[
                (1, 0, 0, 2, false),
                (2, 1, 0, 4, true),
                (5, 1, 1, 32, false),
            ][..],
            &[2][..],
            2,
        ),
        (
            "contexts with equal z stay in preorder",
            3,
            [Clips, At(0), Drawn, Drawn, At(0)],
            &[(1, 0, 0, 2, false), (2, 1, 0, 4, true), (5, 1, 1, 32, true)][..],
            &[2, 5][..],
            1,
        ),
        (
            "hidden nodes are entered and have no place",
            3,
            [Clips, Hidden, Clips, Drawn, Drawn],
            &[(1, 0, 0, 2, false), (5, 1, 0, 32, false)][..],
            &[3][..],
            4,
        ),
        (
            "the whole surface is unchanged",
            5,
            [Clips, Clips, Drawn, Drawn, Clips],
            &[(1, 0, 0, 2, true)][..],
            &[1][..],
            0,
        ),
    ] {
        let forest = five_views(alloc, &mut made, looks)?;
        let mut walk = Walk::over(&forest, &stamps);
        let found = places(alloc, &mut walk, &Skip::Since(base))?;
        assert!(rt; has_places(&found.list, wanted), "{name}");
        assert_eq!(rt; found.skipped.as_slice(), skipped, "{name}");
        assert_eq!(rt; walk.entered(), entered, "{name}");
    }
    Ok(())
}

#[test]
fn walks_leave_out_tags(rt: HostRuntime) -> Result<(), Fail> {
    let alloc = rt.alloc();
    let mut made = Made::start(&rt);
    let forest = five_views(alloc, &mut made, [Clips, Plain, Drawn, At(-1), Drawn])?;
    let stamps = Stamps::none();
    let mut walk = Walk::over(&forest, &stamps);
    let found = places(alloc, &mut walk, &Skip::Tags(&[2]))?;
    let wanted = [(1, 0, 0, 2, false), (5, 1, 0, 32, false)];
    assert!(rt; has_places(&found.list, &wanted));
    assert_eq!(rt; found.skipped.as_slice(), [2].as_slice());
    assert_eq!(rt; walk.entered(), 2);
    let stamped: Vec<u64> = walk.top().map(|spot| spot.stamp()).collect(alloc)?;
    assert_eq!(rt; stamped.as_slice(), [0].as_slice());
    Ok(())
}
