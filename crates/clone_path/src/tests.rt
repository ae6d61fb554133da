//! A change of one of four views.

ghost use Rattle.std.specs.Prelude.{◌≡◌, ◌≤◌, ◌<◌, ◌^◌, ◌∷◌, [], nat_eq, length, IfOk, IfSome};
ghost use Rattle.std.specs.List.{IsDistinct};
ghost use Rattle.prop_table.specs.Table.{AreNodeProps};
ghost use Rattle.shadow_node.specs.Falls.{forest_at};
ghost use Rattle.shadow_node.specs.Fields.{contents_of, tags_of};
ghost use Rattle.shadow_node.specs.InRange.{IsEditInRange};

use crate::replace_at;
use prop_table::{EditRows, Label, NodeProps, node_table, rows};
use shadow_frame::{Point, Rect, Size};
use shadow_kinds::Kind;
use shadow_node::{Forest, Made, NodeEdit, NodeRef, Parts, ShadowNode, find};
use std::alloc::{AllocError, Global};
use std::process::Abort;
use std::test::Fail;

fn plain() -> NodeProps
    ensures { AreNodeProps result }
{
    node_table().start()
}

/// A view with these children, named "old".
fn view(
    alloc: Global,
    made: &mut Made,
    tag: u32,
    children: Vec<NodeRef>,
) -> Result<NodeRef, AllocError>
    requires low { 1 ≤ tag }
    requires high { tag < 2 ^ 31 }
    ensures tag { IfOk result (λ node. node.value.fields.fields.tag ≡ tag) }
    ensures children { IfOk result (λ node. node.value.children ≡ forest_at children.items) }
{
    let parts = Parts {
        tag,
        kind: Kind::View,
        props: plain(),
        label: Label::make(alloc, "old").unwrap_or(Label::none()),
        state: None,
        frame: Rect {
            origin: Point { x: 5, y: 6 },
            size: Size {
                width: 7,
                height: 8,
            },
        },
        children: Forest::of(alloc, children)?,
    };
    ShadowNode::make(alloc, made, parts)
}

/// The view 1 with 2 and 4 in it, and 3 in 2.
fn four_views(alloc: Global, made: &mut Made) -> Result<Forest, AllocError>
    ensures { IfOk result (λ forest. tags_of (contents_of forest) ≡ 1 ∷ 2 ∷ 3 ∷ 4 ∷ []) }
{
    let mut below_two = Vec::new(alloc);
    below_two.push(view(alloc, made, 3, Vec::new(alloc))?)?;
    let mut below_one = Vec::new(alloc);
    below_one.push(view(alloc, made, 2, below_two)?)?;
    below_one.push(view(alloc, made, 4, Vec::new(alloc))?)?;
    let mut top = Vec::new(alloc);
    top.push(view(alloc, made, 1, below_one)?)?;
    Forest::of(alloc, top)
}

/// Four views, whose tags differ.
#[tactic(auto, using(crate::proofs::FourTags::four_differ))]
fn four_apart(alloc: Global, made: &mut Made) -> Result<Forest, AllocError>
    ensures { IfOk result (λ forest. IsDistinct nat_eq (tags_of (contents_of forest))) }
{
    four_views(alloc, made)
}

/// A change to half the opacity, with another label where one is given.
fn faded(label: Option<Label>) -> NodeEdit
    requires { IfSome label (λ label. length label ≤ 256) }
    ensures { IsEditInRange result }
{
    NodeEdit {
        rows: node_table()
            .edit(&EditRows::empty(), rows::OPACITY, Some(50))
            .unwrap_or(EditRows::empty()),
        label,
    }
}

#[test]
fn one_view_is_changed(rt: HostRuntime) -> Result<(), Fail> {
    let mut made = Made::start(&rt);
    let forest = four_apart(rt.alloc(), &mut made)?;
    let change = faded(None);
    for (tag, copies) in [(1, 1), (2, 2), (3, 3), (4, 2), (5, 0)] {
        let before = made.count();
        let changed = replace_at(rt.alloc(), &mut made, &forest, tag, &change)?;
        assert_eq!(rt; made.count(), before.saturating_add(copies), "{tag}");
        assert_eq!(rt; changed.is_some(), copies > 0, "{tag}");
        let Some(changed) = changed else { continue };
        for other in [1, 2, 3, 4] {
            let node = find(&changed, other).expect(&rt, "each view stays");
            let opacity = node.props().get(rows::OPACITY);
            assert_eq!(rt; opacity == Some(50), other == tag, "{tag} {other}");
        }
    }
    Ok(())
}

#[test]
fn a_label_is_changed_where_one_is_given(rt: HostRuntime) -> Result<(), Fail> {
    let mut made = Made::start(&rt);
    let forest = four_apart(rt.alloc(), &mut made)?;
    for (label, after) in [(None, "old"), (Some(Label::none()), "")] {
        let changed = replace_at(rt.alloc(), &mut made, &forest, 2, &faded(label))?;
        let changed = changed.expect(&rt, "the view 2 is there");
        let node = find(&changed, 2).expect(&rt, "the view 2 stays");
        assert!(rt; node.label().bytes() == after.as_bytes());
        assert_eq!(rt; node.frame().origin, Point { x: 5, y: 6 });
        assert_eq!(rt; node.children().nodes().len(), 1);
    }
    Ok(())
}
