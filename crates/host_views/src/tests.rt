//! A registry after mutations in turn, and what does not fit.

use crate::{HostView, Mutation, Registry, ViewRef};
use prop_table::{Label, NODE_TABLE};
use shadow_frame::{Point, Rect, Size};
use shadow_kinds::Kind;
use std::alloc::{AllocError, Global};
use std::sync::Arc;

/// A view of that kind and width.
fn view(alloc: Global, kind: Kind, width: i64) -> Result<ViewRef, AllocError> {
    let view = HostView {
        kind,
        props: NODE_TABLE.start(),
        label: Label::none(),
        state: None,
        frame: Rect {
            origin: Point { x: 0, y: 0 },
            size: Size { width, height: 1 },
        },
    };
    Ok(Arc::new(alloc, view)?)
}

/// A create of a view of that kind, as wide as its tag.
fn create(alloc: Global, tag: u32) -> Result<Mutation, AllocError> {
    Ok(Mutation::Create {
        tag,
        view: view(alloc, Kind::View, i64::from(tag))?,
    })
}

/// An update to a view of that kind, of width 9.
fn update(alloc: Global, tag: u32, kind: Kind) -> Result<Mutation, AllocError> {
    Ok(Mutation::Update {
        tag,
        view: view(alloc, kind, 9)?,
    })
}

fn insert(parent: u32, tag: u32, index: u32) -> Mutation {
    Mutation::Insert { parent, tag, index }
}

fn remove(parent: u32, tag: u32, index: u32) -> Mutation {
    Mutation::Remove { parent, tag, index }
}

/// Applies each mutation in its turn; false at the first one that does not fit.
fn apply_all(registry: &mut Registry, mutations: &[Mutation]) -> Result<bool, AllocError> {
    for mutation in mutations {
        if !registry.fits(mutation) {
            return Ok(false);
        }
        registry.apply(mutation)?;
    }
    Ok(true)
}

/// Whether the tag has these children.
fn has_children(registry: &Registry, tag: u32, wanted: &[u32]) -> bool {
    match registry.children_of(tag) {
        Some(children) => children == wanted,
        None => false,
    }
}

/// Whether the tag has a view of that width.
fn has_width(registry: &Registry, tag: u32, width: i64) -> bool {
    match registry.view(tag) {
        Some(view) => view.frame.size.width == width,
        None => false,
    }
}

/// View 2 at the root with child 3, and view 4 that stands nowhere with child 5.
fn four_views(alloc: Global) -> Result<Registry, AllocError> {
    let mut registry = Registry::start(alloc)?;
    let steps = [
        create(alloc, 2)?,
        create(alloc, 3)?,
        create(alloc, 4)?,
        create(alloc, 5)?,
        insert(0, 2, 0),
        insert(2, 3, 0),
        insert(4, 5, 0),
    ];
    apply_all(&mut registry, &steps)?;
    Ok(registry)
}

#[test]
fn mutations_are_applied_in_turn(rt: HostRuntime) {
    let alloc = rt.alloc();
    let mut registry = four_views(alloc).expect(&rt, "memory");
    assert_eq!(rt; registry.len(), 4);
    let steps = [
        remove(4, 5, 0),
        insert(2, 5, 0),
        insert(2, 4, 1),
        remove(2, 5, 0),
        Mutation::Delete { tag: 5 },
        update(alloc, 3, Kind::View).expect(&rt, "memory"),
    ];
    assert!(rt; apply_all(&mut registry, &steps).expect(&rt, "memory"));
    assert_eq!(rt; registry.len(), 3);
    assert!(rt; has_children(&registry, 0, &[2]));
    assert!(rt; has_children(&registry, 2, &[4, 3]));
    assert!(rt; has_children(&registry, 4, &[]));
    assert!(rt; registry.children_of(5).is_none());
    assert!(rt; has_width(&registry, 2, 2));
    assert!(rt; has_width(&registry, 3, 9));
    assert!(rt; registry.view(0).is_none());
    assert!(rt; registry.view(5).is_none());
}

#[test]
fn what_does_not_fit_is_told(rt: HostRuntime) {
    let alloc = rt.alloc();
    let registry = four_views(alloc).expect(&rt, "memory");
    let refused = [
        create(alloc, 0).expect(&rt, "memory"),
        create(alloc, 2).expect(&rt, "memory"),
        Mutation::Delete { tag: 9 },
        Mutation::Delete { tag: 3 },
        Mutation::Delete { tag: 4 },
        insert(9, 4, 0),
        insert(0, 9, 0),
        insert(4, 4, 0),
        insert(0, 3, 0),
        insert(0, 4, 2),
        remove(9, 3, 0),
        remove(2, 3, 1),
        remove(0, 3, 0),
        update(alloc, 9, Kind::View).expect(&rt, "memory"),
        update(alloc, 2, Kind::Text).expect(&rt, "memory"),
    ];
    for mutation in &refused {
        assert!(rt; !registry.fits(mutation));
    }
    assert!(rt; registry.fits(&insert(0, 4, 1)));
}

#[test]
fn a_copy_stays_as_it_is(rt: HostRuntime) {
    let alloc = rt.alloc();
    let mut registry = four_views(alloc).expect(&rt, "memory");
    let copy = registry.copy(alloc).expect(&rt, "memory");
    assert!(rt; apply_all(&mut registry, &[remove(2, 3, 0)]).expect(&rt, "memory"));
    assert!(rt; has_children(&registry, 2, &[]));
    assert!(rt; has_children(&copy, 2, &[3]));
    assert_eq!(rt; copy.len(), 4);
}
