//! Frames that two mounts change or leave, and two watchers that are told of them.

ghost use Rattle.std.specs.Prelude.{◌≡◌, IfOk};
ghost use Rattle.shadow_kinds.specs.declared.Kind.TheVariants.{View};
ghost use Rattle.host_views.specs.declared.Mutation.TheVariants.{Create, Insert, Remove, Update};

use crate::{Follow, FrameChange, Heard, MemoryWatcher, Watcher, changes, tell};
use host_views::{HostView, Mutation, Registry, ViewRef};
use native_state::StateCell;
use prop_table::{Label, NODE_TABLE};
use shadow_frame::{Point, Rect, Size};
use shadow_kinds::Kind;
use std::alloc::{AllocError, Global};
use std::cell::RefCell;
use std::rc::Rc;
use std::sync::Arc;
use std::test::Fail;

/// A frame that begins there and is as large.
fn frame(x: i64, y: i64, width: i64, height: i64) -> Rect {
    Rect {
        origin: Point { x, y },
        size: Size { width, height },
    }
}

/// A view with that frame and state.
fn view(alloc: Global, frame: Rect, state: Option<StateCell>) -> Result<ViewRef, AllocError>
    ensures { IfOk result (λ view. view.value.kind ≡ View) }
{
    let view = HostView {
        kind: Kind::View,
        props: NODE_TABLE.start(),
        label: Label::none(),
        state,
        frame,
    };
    Ok(Arc::new(alloc, view)?)
}

/// Whether these are the changes.
fn are_changes(changes: &[FrameChange], wanted: &[(u32, Rect)]) -> bool {
    if changes.len() != wanted.len() {
        return false;
    }
    for (change, wanted) in changes.iter().zip(wanted) {
        if (change.tag, change.frame) != *wanted {
            return false;
        }
    }
    true
}

/// Whether these are the frames of views 3 and 4 at the root.
fn are_outer(changes: &[FrameChange]) -> bool {
    are_changes(
        changes,
        &[(3, frame(15, 15, 10, 10)), (4, frame(10, 30, 50, 10))],
    )
}

/// Whether these are the frame of view 2, and those of 3 and 4 in it.
fn are_inner(changes: &[FrameChange]) -> bool {
    are_changes(
        changes,
        &[
            (2, frame(10, 10, 50, 50)),
            (3, frame(5, 5, 10, 10)),
            (4, frame(0, 20, 50, 10)),
        ],
    )
}

/// Whether view 3 has the frame that it has in view 2.
fn has_inner_frame(registry: &Registry) -> bool {
    match registry.view(3) {
        Some(view) => view.frame == frame(5, 5, 10, 10),
        None => false,
    }
}

fn create(tag: u32, view: ViewRef) -> Mutation
    ensures { result ≡ Create tag view }
{
    Mutation::Create { tag, view }
}

fn update(tag: u32, view: ViewRef) -> Mutation
    ensures { result ≡ Update tag view }
{
    Mutation::Update { tag, view }
}

fn insert(parent: u32, tag: u32, index: u32) -> Mutation
    ensures { result ≡ Insert parent tag index }
{
    Mutation::Insert { parent, tag, index }
}

fn remove(parent: u32, tag: u32, index: u32) -> Mutation
    ensures { result ≡ Remove parent tag index }
{
    Mutation::Remove { parent, tag, index }
}

/// Views 3 and 4 are mounted, and then view 2 comes, which is their host parent.
///
/// Whether the frames that change are those of 3 and 4, and then those of 2, 3 and 4.
fn follows_moved_views(alloc: Global) -> Result<bool, AllocError> {
    let three = view(alloc, frame(15, 15, 10, 10), None)?;
    let four = view(alloc, frame(10, 30, 50, 10), None)?;
    let two = view(alloc, frame(10, 10, 50, 50), None)?;
    let inner_three = view(alloc, frame(5, 5, 10, 10), None)?;
    let inner_four = view(alloc, frame(0, 20, 50, 10), None)?;
    if three.is_same(&inner_three) || four.is_same(&inner_four) {
        return Ok(false);
    }
    let mut follow = Follow::start(alloc)?;
    let created = follow.mount(&[
        create(3, three),
        create(4, four),
        insert(0, 3, 0),
        insert(0, 4, 1),
    ])?;
    let moved = follow.mount(&[
        remove(0, 4, 1),
        remove(0, 3, 0),
        create(2, two),
        update(3, inner_three),
        update(4, inner_four),
        insert(0, 2, 0),
        insert(2, 3, 0),
        insert(2, 4, 1),
    ])?;
    Ok(are_outer(&created) && are_inner(&moved) && has_inner_frame(follow.registry()))
}

/// View 7 is mounted, and then its state changes.
///
/// Whether no frame changes then.
fn keeps_frame_of_scrolled_view(alloc: Global) -> Result<bool, AllocError> {
    let scrolled = StateCell {
        count: 1,
        point: Point { x: 0, y: 40 },
    };
    let still = view(alloc, frame(0, 0, 100, 100), Some(StateCell::start()))?;
    let moved = view(alloc, frame(0, 0, 100, 100), Some(scrolled))?;
    if still.is_same(&moved) {
        return Ok(false);
    }
    let mut follow = Follow::start(alloc)?;
    let created = follow.mount(&[create(7, still), insert(0, 7, 0)])?;
    let changed = changes(alloc, follow.registry(), &[update(7, moved)])?;
    Ok(created.len() == 1 && changed.is_empty())
}

#[test]
fn frames_that_change_are_told(rt: HostRuntime) -> Result<(), Fail> {
    let alloc = rt.alloc();
    assert!(rt; follows_moved_views(alloc)?);
    assert!(rt; keeps_frame_of_scrolled_view(alloc)?);
    Ok(())
}

/// A watcher whose entries are read by whoever has the list.
#[derive(Drop)]
struct Noting {
    notes: Rc<RefCell<Vec<Heard>>>,
    refusals: u64,
}

impl Watcher for Noting {
    ghost use Rattle.std.specs.Prelude.{None};

    ghost watcher_view = { λ noting. record { heard = None; refusals = noting.refusals } };

    fn changed(&mut self, surface: u32, to: u64, change: &FrameChange) -> Result<(), AllocError> {
        let entry = Heard {
            surface,
            to,
            change: *change,
        };
        let is_noted = match self.notes.try_borrow_mut() {
            Ok(mut notes) => notes.push(entry).is_ok(),
            Err(_) => false,
        };
        if !is_noted {
            self.refusals = self.refusals.saturating_add(1);
            return Err(AllocError);
        }
        Ok(())
    }
}

/// Whether the notes are these changes, of surface 1 with the mount to 2.
fn has_noted(notes: &RefCell<Vec<Heard>>, list: &[FrameChange]) -> bool {
    let Ok(heard) = notes.try_borrow() else {
        return false;
    };
    if heard.len() != list.len() {
        return false;
    }
    for (entry, change) in heard.iter().zip(list) {
        if (entry.surface, entry.to, entry.change) != (1, 2, *change) {
            return false;
        }
    }
    true
}

#[test]
fn two_watchers_are_told(rt: HostRuntime) -> Result<(), Fail> {
    let alloc = rt.alloc();
    let notes = Rc::new(alloc, RefCell::new(Vec::new(alloc)))?;
    let noting = Noting {
        notes: notes.clone()?,
        refusals: 0,
    };
    let mut watchers: Vec<Box<dyn Watcher>> = Vec::new(alloc);
    watchers.push(Box::new(alloc, MemoryWatcher::start(alloc)?)?)?;
    watchers.push(Box::new(alloc, noting)?)?;
    let list = [
        FrameChange {
            tag: 3,
            frame: frame(15, 15, 10, 10),
        },
        FrameChange {
            tag: 4,
            frame: frame(10, 30, 50, 10),
        },
    ];
    tell(&mut watchers, 1, 2, &list)?;
    assert!(rt; has_noted(&notes, &list));
    Ok(())
}

#[test]
fn a_memory_watcher_keeps_what_it_hears(rt: HostRuntime) -> Result<(), Fail> {
    let mut watcher = MemoryWatcher::start(rt.alloc())?;
    for tag in [5, 3] {
        let change = FrameChange {
            tag,
            frame: frame(0, 0, 1, 1),
        };
        watcher.changed(1, 4, &change)?;
    }
    assert_eq!(rt; watcher.refusals(), 0);
    assert!(rt; watcher.heard().len() == 2 && watcher.heard()[1].change.tag == 3);
    Ok(())
}
