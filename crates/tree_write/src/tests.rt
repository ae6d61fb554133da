//! What the calls refuse, and a small tree.

use crate::{Kept, PropRefusal, TagOutOfRange, Tree, Written};
use shadow_kinds::Kind;
use std::alloc::Global;
use std::process::Abort;
use tree_revision::Op;

/// Why that prop of a text is not set; `None` where it is.
fn refusal_of(alloc: Global, name: &str, value: i64) -> Option<PropRefusal> {
    let Ok(text) = Written::start(alloc, 1, Kind::Text) else {
        return None;
    };
    match text.prop(name, value) {
        Ok(_) => None,
        Err(refusal) => Some(refusal),
    }
}

#[test]
fn a_prop_needs_a_row_and_a_number_in_its_range(rt: HostRuntime) {
    for (name, value, want) in [
        ("width", 80, None),
        ("opacity", 100, None),
        ("opacity", 101, Some(PropRefusal::OutOfRange)),
        ("left", -1_000_001, Some(PropRefusal::OutOfRange)),
        ("widht", 80, Some(PropRefusal::Unknown)),
        ("", 0, Some(PropRefusal::Unknown)),
    ] {
        assert_eq!(rt; refusal_of(rt.alloc(), name, value), want);
    }
}

/// A list with a title and a row that is kept, and a label.
fn small_tree(rt: &impl Abort, alloc: Global) -> Tree {
    let title = Written::start(alloc, 2, Kind::Text).expect(rt, "a tag");
    let title = title.label(alloc, "Inbox").expect(rt, "a label");
    let row = Kept::start(3).expect(rt, "a tag");
    let list = Written::start(alloc, 1, Kind::Scroll).expect(rt, "a tag");
    let list = list.child(title).expect(rt, "memory");
    let list = list.kept(row).expect(rt, "memory");
    let mut tree = Tree::start(alloc);
    tree.write(list).expect(rt, "memory");
    tree
}

#[test]
fn a_tree_is_a_commit(rt: HostRuntime) {
    let alloc = rt.alloc();
    let Op::Complete { nodes } = small_tree(&rt, alloc).into_op() else {
        panic!(rt; "a complete");
    };
    assert_eq!(rt; nodes.as_slice().len(), 1);
    assert!(rt; matches!(Written::start(alloc, 0, Kind::View), Err(TagOutOfRange)));
    assert!(rt; matches!(Kept::start(0x8000_0000), Err(TagOutOfRange)));
}
