//! A forest that is settled again and again.

ghost use Rattle.std.specs.Prelude.{◌≡◌, true, false, Decides, pos, ◌≤ℤ◌, ◌≤◌, ◌<◌, ◌^◌, is_some, IfOk};
ghost use Rattle.prop_table.specs.Table.{AreNodeProps};
ghost use Rattle.native_state.specs.Families.{cell_in};
ghost use Rattle.shadow_kinds.specs.Traits.{has_state_of, is_leaf_of};
ghost use Rattle.shadow_node.specs.Fields.{contents_of};
ghost use Rattle.shadow_node.specs.Falls.{forest_at};
ghost use Rattle.shadow_node.specs.Forest.{depth_of};
ghost use Rattle.shadow_node.specs.Limits.{IsForestWithin};
ghost use Rattle.shadow_node.specs.Sound.{FitsLeaf};
ghost use Rattle.tree_settle.specs.Along.{IsSettledBut, IsTreeSettledBut};
ghost use Rattle.tree_settle.specs.Limits.{AreFramesInBounds, IsForestInLimits, IsSizeInRange};
ghost use Rattle.tree_settle.specs.Walk.{fields_in};

use crate::along::way_under;
use crate::{SizeChange, node, settle, settle_along};
use native_state::{Family, FamilyTable, StateCell};
use prop_table::{Label, NodeProps, node_table, rows};
use shadow_frame::{Point, Rect, Size};
use shadow_kinds::{Kind, has_state};
use shadow_node::{Forest, Made, NodeRef, Parts, ShadowNode, find};
use std::alloc::{AllocError, Global};
use std::process::Abort;
use std::test::Fail;

/// The props with another number in a row.
fn set(props: &NodeProps, row: usize, value: i64) -> NodeProps
    requires row { row < 22 }
    requires props { AreNodeProps props.now }
    ensures { AreNodeProps result }
{
    match node_table().set(props, row, Some(value)) {
        Ok(after) => after,
        Err(_) => *props,
    }
}

/// Props of a node that is as wide as its parent, and 40 points high.
fn wide() -> NodeProps
    ensures { AreNodeProps result }
{
    let props = set(&node_table().start(), rows::LEFT, 0);
    let props = set(&props, rows::RIGHT, 0);
    set(&props, rows::HEIGHT, 40)
}

/// Props of a node that is 30 points each way, at the left and the top.
fn small() -> NodeProps
    ensures { AreNodeProps result }
{
    let props = set(&node_table().start(), rows::WIDTH, 30);
    set(&props, rows::HEIGHT, 30)
}

/// The state that a node of that kind begins with.
fn state_of(kind: Kind) -> Option<StateCell>
    ensures { is_some result ≡ has_state_of kind }
{
    if has_state(kind) {
        Some(StateCell::start())
    } else {
        None
    }
}

/// A node without a frame.
fn node(
    alloc: Global,
    made: &mut Made,
    tag: u32,
    kind: Kind,
    props: NodeProps,
    children: Vec<NodeRef>,
) -> Result<NodeRef, AllocError>
    requires low { 1 ≤ tag }
    requires high { tag < 2 ^ 31 }
    requires props { AreNodeProps props }
    requires leaf { FitsLeaf (is_leaf_of kind) (forest_at children.items) }
    ensures tag { IfOk result (λ node. node.value.fields.fields.tag ≡ tag) }
    ensures children { IfOk result (λ node. node.value.children ≡ forest_at children.items) }
{
    let children = Forest::of(alloc, children)?;
    ShadowNode::make(
        alloc,
        made,
        Parts {
            tag,
            kind,
            props,
            label: Label::none(),
            state: state_of(kind),
            frame: Rect {
                origin: Point { x: 0, y: 0 },
                size: Size {
                    width: 0,
                    height: 0,
                },
            },
            children,
        },
    )
}

/// The wide view 1 with the small view 2 and the wide scroll 4 in it, and the small input 3 in 2.
fn four_nodes(alloc: Global, made: &mut Made) -> Result<Forest, AllocError>
    ensures { IfOk result (λ forest. IsForestWithin (contents_of forest)) }
{
    let mut below_two = Vec::new(alloc);
    below_two.push(node(alloc, made, 3, Kind::Input, small(), Vec::new(alloc))?)?;
    let mut below_one = Vec::new(alloc);
    below_one.push(node(alloc, made, 2, Kind::View, small(), below_two)?)?;
    below_one.push(node(alloc, made, 4, Kind::Scroll, wide(), Vec::new(alloc))?)?;
    let mut top = Vec::new(alloc);
    top.push(node(alloc, made, 1, Kind::View, wide(), below_one)?)?;
    Forest::of(alloc, top)
}

/// A surface of that width, 480 points high.
fn surface(width: i64) -> Size
    requires low { pos 0 ≤ℤ width }
    requires high { width ≤ℤ pos 1000000 }
    ensures { IsSizeInRange result }
{
    Size { width, height: 480 }
}

/// The forest settled in a surface of that width.
fn settled(
    alloc: Global,
    made: &mut Made,
    forest: &Forest,
    width: i64,
    families: &FamilyTable,
) -> Result<Forest, AllocError>
    requires low { pos 0 ≤ℤ width }
    requires high { width ≤ℤ pos 1000000 }
    requires within { IsForestWithin (contents_of forest.now) }
    ensures { IfOk result (λ settled. IsForestWithin (contents_of settled)) }
{
    settle(alloc, made, forest, surface(width), families)
}

/// The settled forest with another top node: of that width, and with all else as it was.
fn with_width(
    alloc: Global,
    made: &mut Made,
    forest: &Forest,
    width: i64,
) -> Result<Forest, AllocError>
    requires depth { depth_of forest.now ≤ 48 }
    requires frames { AreFramesInBounds forest.now }
    ensures depth { IfOk result (λ changed. depth_of changed ≤ 48) }
    ensures frames { IfOk result AreFramesInBounds }
{
    let [top] = forest.nodes() else {
        return forest.share();
    };
    let parts = Parts {
        props: set(top.props(), rows::WIDTH, width),
        ..top.with_children(top.children().share()?)?
    };
    let mut all = Vec::new(alloc);
    all.push(ShadowNode::make(alloc, made, parts)?)?;
    Forest::of(alloc, all)
}

/// Whether a size is one of a surface.
fn is_in_range(size: Size) -> bool
    ensures { result ≡ true → IsSizeInRange size }
{
    (0..=1_000_000).contains(&size.width) && (0..=1_000_000).contains(&size.height)
}

/// Whether a node has its state and its frame, in a parent of that size.
fn has_own(node: &ShadowNode, parent: Size, families: &FamilyTable) -> bool
    requires { IsSizeInRange parent }
    ensures { Decides result (node.now.fields ≡ fields_in parent (cell_in families.now) node.now.fields.fields) }
{
    let state = node::state_in(families, node);
    let frame = node::frame_in(node, parent);
    node::stays(node, state, frame, &None)
}

/// Whether a node is on the way, or else has its state and its frame.
fn is_right(is_on_way: bool, node: &ShadowNode, parent: Size, families: &FamilyTable) -> bool
    ensures { result ≡ true → is_on_way ≡ false → node.now.fields ≡ fields_in parent (cell_in families.now) node.now.fields.fields }
{
    is_on_way || (is_in_range(parent) && has_own(node, parent, families))
}

/// Whether a node is settled with all below it, but for the nodes on a way.
#[cycle(settled_but)]
fn is_tree_settled_but(node: &ShadowNode, parent: Size, families: &FamilyTable, way: &[u32]) -> bool
    ensures { result ≡ true → IsTreeSettledBut parent (cell_in families.now) way.now node.now }
{
    let (is_on_way, below) = way_under(way, node);
    if !is_right(is_on_way, node, parent, families) {
        return false;
    }
    is_settled_but(node.children(), node.frame().size, families, below)
}

/// Whether each node of a forest is settled, but for the nodes on a way.
#[cycle(settled_but)]
fn is_settled_but(forest: &Forest, parent: Size, families: &FamilyTable, way: &[u32]) -> bool
    ensures { result ≡ true → IsSettledBut parent (cell_in families.now) way.now forest.now }
{
    for node in forest.nodes() {
        if !is_tree_settled_but(node, parent, families, way) {
            return false;
        }
    }
    true
}

/// Whether the four nodes have the same states and frames in both.
fn are_alike(a: &Forest, b: &Forest) -> bool {
    for tag in [1, 2, 3, 4] {
        if state_in(a, tag) != state_in(b, tag) || frame_of(a, tag) != frame_of(b, tag) {
            return false;
        }
    }
    true
}

/// The tags that settling along a way gives, where it leaves and counts what settling all does.
fn tags_along(
    alloc: Global,
    made: &mut Made,
    forest: &Forest,
    size: SizeChange,
    families: &FamilyTable,
    way: &[u32],
) -> Result<Option<Vec<u32>>, AllocError>
    requires size { IsSizeInRange size.after }
    requires depth { depth_of forest.now ≤ 48 }
    requires frames { AreFramesInBounds forest.now }
{
    if !is_settled_but(forest, size.before, families, way) {
        return Ok(None);
    }
    let start = made.count();
    let whole = settle(alloc, made, forest, size.after, families)?;
    let all = made.count().saturating_sub(start);
    let start = made.count();
    let mut tags = Vec::new(alloc);
    let settled = settle_along(alloc, made, &mut tags, forest, size, families, way)?;
    let along = made.count().saturating_sub(start);
    if along == all && are_alike(&settled, &whole) {
        Ok(Some(tags))
    } else {
        Ok(None)
    }
}

/// Whether the tags are there, and these.
fn are_these(tags: &Option<Vec<u32>>, wanted: &[u32]) -> bool {
    match tags {
        Some(tags) => tags.as_slice() == wanted,
        None => false,
    }
}

/// The frame of the node of that tag.
fn frame_of(forest: &Forest, tag: u32) -> Option<Rect> {
    find(forest, tag).map(|node| node.frame())
}

/// The width of the node of that tag.
fn width_of(forest: &Forest, tag: u32) -> Option<i64> {
    find(forest, tag).map(|node| node.frame().size.width)
}

/// The state of the node of that tag.
fn state_in(forest: &Forest, tag: u32) -> Option<StateCell> {
    find(forest, tag).and_then(|node| node.state())
}

/// Whether the four nodes have these widths, in the order of their tags.
fn have_widths(forest: &Forest, widths: [i64; 4]) -> bool {
    let mut tag = 1;
    for width in widths {
        if width_of(forest, tag) != Some(width) {
            return false;
        }
        tag = tag.saturating_add(1);
    }
    true
}

/// The family of the input, which is tag 3, once its state changed.
fn moved() -> Family {
    Family {
        kind: 4,
        cell: StateCell {
            count: 1,
            point: Point { x: 5, y: 6 },
        },
    }
}

/// Whether the input has its new state, and the scroll the one that it began with.
fn have_states(forest: &Forest) -> bool {
    state_in(forest, 3) == Some(moved().cell) && state_in(forest, 4) == Some(StateCell::start())
}

#[test]
fn each_node_gets_its_frame_once(rt: HostRuntime) -> Result<(), Fail> {
    let mut made = Made::start(&rt);
    let forest = four_nodes(rt.alloc(), &mut made)?;
    let none = FamilyTable::empty(rt.alloc())?;
    let first = settled(rt.alloc(), &mut made, &forest, 320, &none)?;
    assert!(rt; made.count() == 8 && have_widths(&first, [320, 30, 30, 320]));
    let again = settled(rt.alloc(), &mut made, &first, 320, &none)?;
    assert!(rt; made.count() == 8 && have_widths(&again, [320, 30, 30, 320]));
    Ok(())
}

#[test]
fn what_changes_is_made_anew_and_all_else_is_shared(rt: HostRuntime) -> Result<(), Fail> {
    let mut made = Made::start(&rt);
    let first = settled_four(rt.alloc(), &mut made)?;
    let families = FamilyTable::empty(rt.alloc())?.with(rt.alloc(), &mut made, 3, moved())?;
    let deep = settle(rt.alloc(), &mut made, &first, surface(320), &families)?;
    assert!(rt;
        made.count() == 11 && have_states(&deep),
        "the way down to the input"
    );
    let wider = settle(rt.alloc(), &mut made, &first, surface(400), &families)?;
    assert!(rt;
        made.count() == 15 && have_states(&wider) && have_widths(&wider, [400, 30, 30, 400])
    );
    Ok(())
}

/// A forest settled in a surface that is 320 points wide, without native state.
fn settled_anew(alloc: Global, made: &mut Made, forest: &Forest) -> Result<Forest, AllocError>
    requires within { IsForestWithin (contents_of forest.now) }
    ensures limits { IfOk result IsForestInLimits }
    ensures depth { IfOk result (λ settled. depth_of settled ≤ 48) }
{
    let none = FamilyTable::empty(alloc)?;
    settle(alloc, made, forest, surface(320), &none)
}

/// The four nodes, settled in a surface that is 320 points wide.
fn settled_four(alloc: Global, made: &mut Made) -> Result<Forest, AllocError>
    ensures frames { IfOk result AreFramesInBounds }
    ensures depth { IfOk result (λ settled. depth_of settled ≤ 48) }
{
    let forest = four_nodes(alloc, made)?;
    settled_anew(alloc, made, &forest)
}

/// A surface that was 320 points wide, and has that width.
fn resized(width: i64) -> SizeChange
    requires low { pos 0 ≤ℤ width }
    requires high { width ≤ℤ pos 1000000 }
    ensures { IsSizeInRange result.after }
{
    SizeChange {
        before: surface(320),
        after: surface(width),
    }
}

#[test]
fn the_way_to_a_leaf_of_another_state(rt: HostRuntime) -> Result<(), Fail> {
    let mut made = Made::start(&rt);
    let was = settled_four(rt.alloc(), &mut made)?;
    let none = FamilyTable::empty(rt.alloc())?;
    let families = none.with(rt.alloc(), &mut made, 3, moved())?;
    let size = resized(320);
    let tags = tags_along(rt.alloc(), &mut made, &was, size, &families, &[1, 2, 3])?;
    assert!(rt; are_these(&tags, &[3, 2, 1]));
    Ok(())
}

#[test]
fn a_node_of_another_size(rt: HostRuntime) -> Result<(), Fail> {
    let mut made = Made::start(&rt);
    let was = settled_four(rt.alloc(), &mut made)?;
    let narrow = with_width(rt.alloc(), &mut made, &was, 200)?;
    let none = FamilyTable::empty(rt.alloc())?;
    let tags = tags_along(rt.alloc(), &mut made, &narrow, resized(320), &none, &[1])?;
    assert!(rt;
        are_these(&tags, &[4, 1]),
        "2 keeps its size, and 3 in it is not entered"
    );
    Ok(())
}

#[test]
fn a_surface_of_another_size(rt: HostRuntime) -> Result<(), Fail> {
    let mut made = Made::start(&rt);
    let was = settled_four(rt.alloc(), &mut made)?;
    let none = FamilyTable::empty(rt.alloc())?;
    let tags = tags_along(rt.alloc(), &mut made, &was, resized(400), &none, &[])?;
    assert!(rt;
        are_these(&tags, &[4, 1]),
        "2 keeps its size, and 3 in it is not entered"
    );
    Ok(())
}
