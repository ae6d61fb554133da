//! The mutations between small forests whose nodes look this way or that.

ghost use Rattle.std.specs.Prelude.{◌≡◌, ◌≤◌, ◌<◌, ◌^◌, [], ◌∷◌, IfOk};
ghost use Rattle.prop_table.specs.Table.{AreNodeProps};
ghost use Rattle.shadow_node.specs.Falls.{forest_at};
ghost use Rattle.tree_settle.specs.Limits.{IsForestInLimits, IsFrameInBounds};
ghost use Rattle.view_mutation.specs.Since.{AreTagged};

use self::Look::{At, Clips, Drawn, Hidden};
use crate::{Walk, mutations, mutations_since};
use host_views::Mutation;
use prop_table::{Label, NodeProps, node_table, rows};
use shadow_frame::{Point, Rect, Size};
use shadow_kinds::Kind;
use shadow_node::{Forest, Made, NodeRef, Parts, ShadowNode, Stamps};
use sqlite_items::Items;
use std::alloc::{AllocError, Global};
use std::test::Fail;

/// How a view looks.
#[derive(Clone, Copy)]
enum Look {
    /// It has a host view, and is the host parent of none.
    Drawn,
    /// It has a host view, and is the host parent of what lies below it.
    Clips,
    /// The same, at that z.
    At(i64),
    /// It is not shown.
    Hidden,
}

/// The props of a view that looks so.
fn props_of(look: Look) -> NodeProps
    ensures { AreNodeProps result }
{
    let table = node_table();
    let start = table.start();
    let (row, value) = match look {
        Drawn => (rows::BORDER, 1),
        Clips => (rows::CLIP, 1),
        At(z) => (rows::Z, z),
        Hidden => (rows::HIDDEN, 1),
    };
    match table.set(&start, row, Some(value)) {
        Ok(props) => props,
        Err(_) => start,
    }
}

/// A view that begins that far right of its parent's corner, and as far above it.
fn view(
    alloc: Global,
    made: &mut Made,
    tag: u32,
    left: u8,
    look: Look,
    children: Forest,
) -> Result<NodeRef, AllocError>
    requires low { 1 ≤ tag }
    requires high { tag < 2 ^ 31 }
    ensures tag { IfOk result (λ node. node.value.fields.fields.tag ≡ tag) }
    ensures frame { IfOk result (λ node. IsFrameInBounds node.value.fields.frame) }
    ensures children { IfOk result (λ node. node.value.children ≡ children) }
{
    ShadowNode::make(
        alloc,
        made,
        Parts {
            tag,
            kind: Kind::View,
            props: props_of(look),
            label: Label::none(),
            state: None,
            frame: Rect {
                origin: Point {
                    x: i64::from(left),
                    y: -i64::from(left),
                },
                size: Size {
                    width: 1,
                    height: 1,
                },
            },
            children,
        },
    )
}

/// The forest of two trees.
fn pair(alloc: Global, first: NodeRef, second: NodeRef) -> Result<Forest, AllocError>
    ensures { IfOk result (λ forest. forest ≡ forest_at (first ∷ second ∷ [])) }
{
    let mut nodes = Vec::new(alloc);
    nodes.push(first)?;
    nodes.push(second)?;
    Forest::of(alloc, nodes)
}

/// The forest of one tree.
fn alone(alloc: Global, tree: NodeRef) -> Result<Forest, AllocError>
    ensures { IfOk result (λ forest. forest ≡ forest_at (tree ∷ [])) }
{
    let mut nodes = Vec::new(alloc);
    nodes.push(tree)?;
    Forest::of(alloc, nodes)
}

/// The view 1 with 2 and 5 in it, and 3 and 4 in 2, which begins that far right of the corner of 1.
fn five_views(
    alloc: Global,
    made: &mut Made,
    looks: [Look; 5],
    left: u8,
) -> Result<Forest, AllocError>
    ensures limits { IfOk result IsForestInLimits }
    ensures tags { IfOk result AreTagged }
{
    let [one, two, three, four, five] = looks;
    let three = view(alloc, made, 3, 8, three, Forest::empty())?;
    let four = view(alloc, made, 4, 16, four, Forest::empty())?;
    let two = view(alloc, made, 2, left, two, pair(alloc, three, four)?)?;
    let five = view(alloc, made, 5, 32, five, Forest::empty())?;
    let one = view(alloc, made, 1, 2, one, pair(alloc, two, five)?)?;
    let forest = alone(alloc, one)?;
    Ok(forest)
}

/// A mutation in short: what it does, its parent where it has one, its tag, and its index or its view's width.
fn short(mutation: &Mutation) -> (char, u32, u32, i64) {
    match mutation {
        Mutation::Create { tag, view } => ('c', 0, *tag, view.frame.size.width),
        Mutation::Delete { tag } => ('d', 0, *tag, 0),
        Mutation::Insert { parent, tag, index } => ('i', *parent, *tag, i64::from(*index)),
        Mutation::Remove { parent, tag, index } => ('r', *parent, *tag, i64::from(*index)),
        Mutation::Update { tag, view } => ('u', 0, *tag, view.frame.size.width),
    }
}

/// Whether these are the mutations.
fn is_list(list: &Items<Mutation>, wanted: &[(char, u32, u32, i64)]) -> bool {
    if list.len() != wanted.len() {
        return false;
    }
    for (mutation, wanted) in list.as_slice().iter().zip(wanted) {
        if short(mutation) != *wanted {
            return false;
        }
    }
    true
}

#[test]
fn forests_lead_to_each_other(rt: HostRuntime) -> Result<(), Fail> {
    let alloc = rt.alloc();
    let mut made = Made::start(&rt);
    let shown = ([Clips, Clips, Drawn, Drawn, Drawn], 4);
    let hidden = ([Clips, Clips, Hidden, Drawn, Drawn], 4);
    let moved = ([Clips, Clips, Drawn, Drawn, Drawn], 7);
    let first = ([Clips, At(1), Drawn, Drawn, At(2)], 4);
    let last = ([Clips, At(2), Drawn, Drawn, At(1)], 4);
    for (name, (old, old_left), (new, new_left), wanted) in [
        ("the same", shown, shown, &[][..]),
        (
            "a view is hidden",
            shown,
            hidden,
            &[
                ('r', 2, 4, 1),
                ('r', 2, 3, 0),
                ('d', 0, 3, 0),
                ('i', 2, 4, 0),
            ][..],
        ),
        (
            "a view is shown again",
            hidden,
            shown,
            &[
                ('r', 2, 4, 0),
                ('c', 0, 3, 1),
                ('i', 2, 3, 0),
                ('i', 2, 4, 1),
            ][..],
        ),
        ("a context is moved", shown, moved, &[('u', 0, 2, 1)][..]),
        (
            "z in another order",
            first,
            last,
            &[
                ('r', 1, 5, 1),
                ('r', 1, 2, 0),
                ('u', 0, 5, 1),
                ('u', 0, 2, 1),
                ('i', 1, 5, 0),
                ('i', 1, 2, 1),
            ][..],
        ),
    ] {
        let old = five_views(alloc, &mut made, old, old_left)?;
        let new = five_views(alloc, &mut made, new, new_left)?;
        assert!(rt; is_list(&mutations(alloc, &old, &new)?, wanted), "{name}");
    }
    Ok(())
}

/// How many nodes of each are entered between a forest and itself, where all its contexts are
/// unchanged; and whether there are no mutations.
fn entered_for_nothing(alloc: Global, forest: &Forest) -> Result<(u64, u64, bool), AllocError>
    requires limits { IsForestInLimits forest.now }
    requires tags { AreTagged forest.now }
{
    let stamps = Stamps::none();
    let mut old = Walk::over(forest, &stamps);
    let mut new = Walk::over(forest, &stamps);
    let list = mutations_since(alloc, 0, &mut old, &mut new)?;
    Ok((old.entered(), new.entered(), list.is_empty()))
}

#[test]
fn unchanged_contexts_are_not_entered(rt: HostRuntime) -> Result<(), Fail> {
    let alloc = rt.alloc();
    let mut made = Made::start(&rt);
    for (looks, wanted) in [
        ([Clips, Clips, Drawn, Drawn, Drawn], 0),
        ([Drawn, Clips, Clips, Drawn, Drawn], 2),
        ([Drawn, Hidden, Clips, Drawn, Drawn], 4),
    ] {
        let forest = five_views(alloc, &mut made, looks, 4)?;
        assert!(rt; entered_for_nothing(alloc, &forest)? == (wanted, wanted, true));
    }
    Ok(())
}
