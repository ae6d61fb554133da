//! Two small runs and their texts, and sinks that fail.
ghost use Rattle.std.specs.Prelude.{◌≡◌, ◌<◌, [], ◌∷◌, None, IfOk};
ghost use Rattle.run_report.specs.Journal.{plain_journal, plain_surface_part};
ghost use Rattle.run_report.specs.Named.{NamesActors, NamesItsActors};

use super::*;
use byte_ports::MemorySink;
use host_views::{HostView, Mutation, PlacedView, ViewRef};
use native_state::StateCell;
use prop_table::{Label, LabelRefusal, NodeProps, node_table, rows};
use shadow_frame::{Point, Rect, Size};
use shadow_kinds::Kind;
use sqlite_items::Items;
use std::alloc::{AllocError, Global};
use std::process::Abort;
use std::sync::Arc;
use std::test::Fail;
use tree_revision::{Answer, Cancel, Op, Record};

/// The list of one item.
fn one<T: Drop>(alloc: Global, item: T) -> Result<Items<T>, AllocError>
    ensures { IfOk result (λ items. items ≡ item ∷ []) }
{
    let mut items = Vec::new(alloc);
    items.push(item)?;
    Ok(Items::from_vec(items))
}

/// Props with some numbers in the rows of the node's table.
fn props_of(numbers: &[(usize, i64)]) -> NodeProps {
    let table = node_table();
    let mut props = table.start();
    for (row, number) in numbers {
        if *row < 22 {
            if let Ok(after) = table.set(&props, *row, Some(*number)) {
                props = after;
            }
        }
    }
    props
}

/// A frame.
fn frame(x: i64, y: i64, width: i64, height: i64) -> Rect {
    Rect {
        origin: Point { x, y },
        size: Size { width, height },
    }
}

/// A box with a background.
fn filled_box(alloc: Global) -> Result<ViewRef, AllocError> {
    let numbers = [
        (rows::LEFT, 5),
        (rows::TOP, 5),
        (rows::WIDTH, 10),
        (rows::HEIGHT, 10),
        (rows::BACKGROUND, 4_278_190_080),
    ];
    Ok(Arc::new(
        alloc,
        HostView {
            kind: Kind::View,
            props: props_of(&numbers),
            label: Label::none(),
            state: None,
            frame: frame(15, 15, 10, 10),
        },
    )?)
}

/// A list that was scrolled.
fn scrolled_list(alloc: Global) -> Result<ViewRef, AllocError> {
    let numbers = [
        (rows::LEFT, 0),
        (rows::TOP, 44),
        (rows::RIGHT, 0),
        (rows::BOTTOM, 0),
        (rows::OPACITY, 100),
        (rows::Z, -3),
    ];
    Ok(Arc::new(
        alloc,
        HostView {
            kind: Kind::Scroll,
            props: props_of(&numbers),
            label: Label::none(),
            state: Some(StateCell {
                count: 2,
                point: Point { x: -1, y: 150 },
            }),
            frame: frame(-2, 44, 320, 436),
        },
    )?)
}

/// A text with a label.
fn labelled_text(alloc: Global) -> Result<ViewRef, LabelRefusal> {
    let view = HostView {
        kind: Kind::Text,
        props: props_of(&[(rows::HIDDEN, 1)]),
        label: Label::make(alloc, "Re\u{f1}/")?,
        state: None,
        frame: frame(60, 140, 252, 20),
    };
    Arc::new(alloc, view).map_err(|_| LabelRefusal::Memory)
}

/// A surface with one record and one mount, by the first actor.
fn first_surface(alloc: Global) -> Result<SurfacePart, AllocError>
    ensures { IfOk result (λ part. NamesActors 1 (plain_surface_part part)) }
{
    let nodes = Items::new(alloc);
    let record = Record {
        actor: 0,
        call: 0,
        held: 0,
        op: Arc::new(alloc, Op::Complete { nodes })?,
    };
    let mut mutations = one(
        alloc,
        Mutation::Create {
            tag: 3,
            view: filled_box(alloc)?,
        },
    )?;
    mutations.push(Mutation::Insert {
        parent: 0,
        tag: 3,
        index: 0,
    })?;
    let mount = MountPart {
        base: 0,
        to: 1,
        by: Some(StepName { actor: 0, call: 1 }),
        mutations,
    };
    let placed = PlacedView {
        tag: 3,
        parent: 0,
        index: 0,
        view: filled_box(alloc)?,
    };
    Ok(SurfacePart {
        id: 1,
        records: one(alloc, record)?,
        mounts: one(alloc, mount)?,
        last: one(alloc, placed)?,
    })
}

/// A journal of one surface and one actor.
fn journal_of(
    alloc: Global,
    surface: SurfacePart,
    name: &[u8],
    steps: &[StepPart],
) -> Result<Journal, AllocError>
    requires { NamesActors 1 (plain_surface_part surface) }
    ensures { IfOk result (λ journal. NamesItsActors (plain_journal journal)) }
{
    let actor = ActorPart {
        name: Items::from_slice(alloc, name)?,
        steps: Items::from_slice(alloc, steps)?,
    };
    Ok(Journal {
        surfaces: one(alloc, surface)?,
        actors: one(alloc, actor)?,
    })
}

/// A run of one actor that completes a tree and mounts it.
fn first_run(alloc: Global) -> Result<Journal, AllocError>
    ensures { IfOk result (λ journal. NamesItsActors (plain_journal journal)) }
{
    let steps = [
        StepPart {
            surface: 1,
            answer: Answer::Admitted {
                number: 1,
                tries: 1,
            },
        },
        StepPart {
            surface: 1,
            answer: Answer::Mounted { base: 0, to: 1 },
        },
    ];
    journal_of(alloc, first_surface(alloc)?, b"js", &steps)
}

const FIRST_REPORT: &[u8] = b"report 1
surface 1
commit 1 js 0 complete held 0
actor js
step 0 on 1 admitted 1 tries 1
step 1 on 1 mounted 0 1
mounts 1
transaction 0 1 by js 1
create 3 view frame 15 15 10 10 left=5 top=5 width=10 height=10 background=4278190080
insert 0 3 0
views 1
view 3 in 0 at 0 view frame 15 15 10 10 left=5 top=5 width=10 height=10 background=4278190080
end
";

#[test]
fn a_small_run_has_its_report(rt: HostRuntime) -> Result<(), Fail> {
    let journal = first_run(rt.alloc())?;
    let mut sink = MemorySink::start(rt.alloc(), 1000, Vec::new(rt.alloc()))?;
    assert!(rt; write_report(&journal, &mut sink).is_ok());
    assert_eq!(rt; sink.bytes(), FIRST_REPORT);
    Ok(())
}

/// A surface whose closing mount takes a view away and changes two.
fn changed_surface(alloc: Global) -> Result<SurfacePart, LabelRefusal>
    ensures { IfOk result (λ part. NamesActors 1 (plain_surface_part part)) }
{
    let list = scrolled_list(alloc).map_err(|_| LabelRefusal::Memory)?;
    let text = labelled_text(alloc)?;
    let mutations = changes(alloc, list, text).map_err(|_| LabelRefusal::Memory)?;
    let mount = MountPart {
        base: 1,
        to: 4,
        by: None,
        mutations,
    };
    Ok(SurfacePart {
        id: 2,
        records: Items::new(alloc),
        mounts: one(alloc, mount).map_err(|_| LabelRefusal::Memory)?,
        last: Items::new(alloc),
    })
}

/// A view that is taken away, and two that are changed.
fn changes(alloc: Global, list: ViewRef, text: ViewRef) -> Result<Items<Mutation>, AllocError> {
    let mut mutations = one(
        alloc,
        Mutation::Remove {
            parent: 3,
            tag: 5,
            index: 1,
        },
    )?;
    mutations.push(Mutation::Delete { tag: 5 })?;
    mutations.push(Mutation::Update { tag: 3, view: list })?;
    mutations.push(Mutation::Update {
        tag: 302,
        view: text,
    })?;
    Ok(mutations)
}

/// A step's answer on surface 2.
fn answered(answer: Answer) -> StepPart {
    StepPart { surface: 2, answer }
}

/// A step that was cancelled at revision 2 at its first try.
fn cancelled(cause: Cancel) -> StepPart {
    answered(Answer::Cancelled {
        at: 2,
        tries: 1,
        cause,
    })
}

const CHANGED_REPORT: &[u8] = b"report 1
surface 2
actor a-1_
step 0 on 2 held 18446744073709551615
step 1 on 2 empty 3
step 2 on 2 cancelled 2 tries 1 cause 1 Unkept 9
step 3 on 2 cancelled 2 tries 1 cause 2 ChildOfLeaf 9
step 4 on 2 cancelled 2 tries 1 cause 3 TwiceTag 9
step 5 on 2 cancelled 2 tries 1 cause 4 TooDeep
step 6 on 2 cancelled 2 tries 1 cause 5 TooManyNodes
step 7 on 2 cancelled 2 tries 1 cause 6 KindChanged 9
step 8 on 2 cancelled 2 tries 1 cause 7 FamiliesFull
step 9 on 2 cancelled 2 tries 1 cause 8 NotMounted 9
step 10 on 2 cancelled 2 tries 1 cause 9 Stateless 2
step 11 on 2 cancelled 2 tries 1 cause 10 Stale 7 1
mounts 2
transaction 1 4 closing
remove 3 5 1
delete 5
update 3 scroll frame -2 44 320 436 state 2 -1 150 left=0 top=44 right=0 bottom=0 z=-3
update 302 text frame 60 140 252 20 hidden=1 label=5265c3b12f
views 2
end
";

#[test]
fn a_changed_surface_has_its_report(rt: HostRuntime) -> Result<(), Fail> {
    let steps = [
        answered(Answer::Held { at: u64::MAX }),
        answered(Answer::Empty { at: 3 }),
        cancelled(Cancel::Unkept { tag: 9 }),
        cancelled(Cancel::ChildOfLeaf { tag: 9 }),
        cancelled(Cancel::TwiceTag { tag: 9 }),
        cancelled(Cancel::TooDeep),
        cancelled(Cancel::TooManyNodes),
        cancelled(Cancel::KindChanged { tag: 9 }),
        cancelled(Cancel::FamiliesFull),
        cancelled(Cancel::NotMounted { tag: 9 }),
        cancelled(Cancel::Stateless { tag: 2 }),
        cancelled(Cancel::Stale { tag: 7, count: 1 }),
    ];
    let Ok(surface) = changed_surface(rt.alloc()) else {
        assert!(rt; false, "a surface");
        return Ok(());
    };
    let journal = journal_of(rt.alloc(), surface, b"a-1_", &steps)?;
    let mut sink = MemorySink::start(rt.alloc(), 2000, Vec::new(rt.alloc()))?;
    assert!(rt; write_report(&journal, &mut sink).is_ok());
    assert_eq!(rt; sink.bytes(), CHANGED_REPORT);
    Ok(())
}

#[test]
fn a_failed_write_leaves_a_part(rt: HostRuntime) -> Result<(), Fail> {
    let journal = first_run(rt.alloc())?;
    for (room, failing, held) in [(0, 99, 0), (40, 99, 40), (1000, 0, 0), (1000, 2, 19)] {
        let mut fails = Vec::new(rt.alloc());
        fails.push(failing)?;
        let mut sink = MemorySink::start(rt.alloc(), room, fails)?;
        assert!(rt;
            write_report(&journal, &mut sink).is_err(),
            "{room} {failing}"
        );
        assert_eq!(rt; sink.bytes().len(), held, "{room} {failing}");
        assert!(rt; FIRST_REPORT.starts_with(sink.bytes()), "{room} {failing}");
    }
    Ok(())
}
