//! A base that is led on and that stands still while mounting is suspended.

ghost use Rattle.std.specs.Prelude.{IfOk};
ghost use Rattle.tree_revision.specs.InRange.{IsOpInRange};
ghost use Rattle.tree_revision.specs.Records.{plain_op};
ghost use Rattle.mount_coordinator.specs.Answers.{MayFinish};

use crate::{Coordinator, Transaction};
use prop_table::{Label, NODE_TABLE};
use shadow_frame::Size;
use shadow_kinds::Kind;
use shadow_node::Made;
use sqlite_items::Items;
use std::alloc::{AllocError, Global};
use tree_build::ScriptNode;
use tree_revision::{Op, PrepareRefusal, Revision, prepare};

const SIZE: Size = Size {
    width: 100,
    height: 50,
};

/// A forest of one text, whose tag is 2.
fn one_text(alloc: Global) -> Result<Op, AllocError>
    ensures { IfOk result (λ op. IsOpInRange (plain_op op)) }
{
    let mut nodes = Items::new(alloc);
    nodes.push(ScriptNode::Written {
        tag: 2,
        kind: Kind::Text,
        props: NODE_TABLE.start(),
        label: Label::none(),
        children: Items::new(alloc),
    })?;
    Ok(Op::Complete { nodes })
}

/// What a commit by a holder of the front leads to, and the transaction of a finish then.
#[derive(Drop)]
pub(crate) struct Led {
    pub(crate) front: Revision,
    pub(crate) transaction: Option<Transaction>,
}

/// Commits a change by a holder of the front; nothing is mounted.
pub(crate) fn commit(
    alloc: Global,
    made: &mut Made,
    _coordinator: &Coordinator,
    front: &Revision,
    op: &Op,
) -> Result<Revision, PrepareRefusal>
    requires op { IsOpInRange (plain_op op.now) }
    requires front { MayFinish _coordinator.now front.now }
    ensures { IfOk result (MayFinish _coordinator.now) }
{
    if front.number() == u64::MAX {
        return Err(PrepareRefusal::Memory);
    }
    let next = prepare(alloc, made, op, front, front)?;
    Ok(next)
}

/// Commits a change and finishes.
pub(crate) fn commit_and_finish(
    alloc: Global,
    made: &mut Made,
    coordinator: &mut Coordinator,
    front: &Revision,
    op: &Op,
) -> Result<Led, PrepareRefusal>
    requires op { IsOpInRange (plain_op op.now) }
    requires front { MayFinish coordinator.old front.now }
    ensures { IfOk result (λ led. MayFinish coordinator.new led.front) }
{
    let front = commit(alloc, made, coordinator, front, op)?;
    let shared = front.share()?;
    let transaction = coordinator.finish(alloc, shared)?;
    Ok(Led { front, transaction })
}

/// Whether a finish led from one revision to another by that many mutations.
pub(crate) fn is_led(led: &Led, base: u64, to: u64, count: usize) -> bool {
    match &led.transaction {
        Some(given) => given.base == base && given.to == to && given.mutations.len() == count,
        None => false,
    }
}

#[test]
fn a_base_stands_still_while_mounting_is_suspended(rt: HostRuntime) {
    let alloc = rt.alloc();
    let mut made = Made::start(&rt);
    let opening = Revision::opening(alloc, SIZE).expect(&rt, "memory");
    let shared = opening.share().expect(&rt, "memory");
    let mut coordinator = Coordinator::start(alloc, shared).expect(&rt, "memory");
    let text = one_text(alloc).expect(&rt, "memory");
    let first = commit_and_finish(alloc, &mut made, &mut coordinator, &opening, &text).expect(
        &rt, "first",
    );
    assert!(rt; is_led(&first, 0, 1, 2));
    assert!(rt; coordinator.registry().view(2).is_some());
    let second = commit_and_finish(
        alloc,
        &mut made,
        &mut coordinator,
        &first.front,
        &Op::Suspend,
    )
    .expect(&rt, "second");
    assert!(rt; second.transaction.is_none());
    let third = commit_and_finish(
        alloc,
        &mut made,
        &mut coordinator,
        &second.front,
        &Op::Stop,
    ).expect(&rt, "third");
    assert!(rt; third.transaction.is_none());
    assert_eq!(rt; coordinator.base(), 1);
    assert_eq!(rt; coordinator.registry().len(), 1);
    let fourth = commit_and_finish(
        alloc,
        &mut made,
        &mut coordinator,
        &third.front,
        &Op::Resume,
    )
    .expect(&rt, "fourth");
    assert!(rt; is_led(&fourth, 1, 4, 2));
    assert_eq!(rt; coordinator.base(), 4);
    assert_eq!(rt; coordinator.registry().len(), 0);
}
