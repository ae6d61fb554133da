//! A surface from its opening to its close, on one thread.

ghost use Rattle.std.specs.Prelude.{◌≤◌};
ghost use Rattle.tree_revision.specs.InRange.{IsOpInRange};
ghost use Rattle.tree_revision.specs.Records.{plain_op};
ghost use Rattle.surface.specs.Passing.{PassGoesOn};

use crate::{CommitRefusal, Committed, Handle, Mounter, Surface};
use shadow_frame::Size;
use std::alloc::Global;
use std::process::Abort;
use std::sync::{Arc, Wait};
use std::thread::Threads;
use tree_revision::Op;

const SIZE: Size = Size {
    width: 100,
    height: 50,
};

/// Commits that change by that handle, and answers how it ended.
fn commit(
    rt: &(impl Abort + Threads + Wait),
    alloc: Global,
    handle: &mut Handle,
    op: Op,
) -> Committed
    requires permit { 1 ≤ handle.old.surface.pass.kept.permits }
    requires op { IsOpInRange (plain_op op) }
    ensures goes_on { PassGoesOn handle.old.surface.pass handle.new.surface.pass }
{
    let op = Arc::new(alloc, op).expect(rt, "memory");
    handle.commit(rt, alloc, op).expect(rt, "memory")
}

#[test]
fn two_handles_commit_and_one_thread_mounts(rt: HostRuntime) {
    let alloc = rt.alloc();
    let (mut owner, first) = Surface::open(alloc, SIZE, 4, 4).expect(&rt, "memory");
    let one = owner.split(2).expect(&rt, "memory");
    let other = owner.split(2).expect(&rt, "memory");
    let way = owner.split(0).expect(&rt, "memory");
    let mut one = Handle::start(one, 0, first.share().expect(&rt, "memory"));
    let mut other = Handle::start(other, 1, first.share().expect(&rt, "memory"));
    let mut mounter = Mounter::start(alloc, way, first).expect(&rt, "memory");
    assert_eq!(rt;
        commit(&rt, alloc, &mut one, Op::Stop),
        Committed::Admitted {
            number: 1,
            tries: 1
        }
    );
    assert_eq!(rt;
        commit(&rt, alloc, &mut other, Op::Stop),
        Committed::Admitted {
            number: 2,
            tries: 1
        }
    );
    assert_eq!(rt; one.try_hold(), Ok(2));
    let Ok(Some(transaction)) = mounter.mount(&rt, alloc) else {
        panic!(rt; "a transaction");
    };
    assert_eq!(rt; (transaction.base, transaction.to), (0, 2));
    assert!(rt; matches!(mounter.mount(&rt, alloc), Ok(None)));
    assert_eq!(rt; mounter.base(), 2);
    let (way, _) = mounter.into_parts();
    owner.join(one.into_surface());
    owner.join(other.into_surface());
    owner.join(way);
    assert!(rt; owner.has_reached(2));
    assert!(rt; !owner.has_reached(3));
    let Ok(store) = owner.close() else {
        panic!(rt; "the last owner");
    };
    assert_eq!(rt; store.records.len(), 2);
}

#[test]
fn a_third_handle_holds_and_tries(rt: HostRuntime) {
    let alloc = rt.alloc();
    let (mut owner, first) = Surface::open(alloc, SIZE, 4, 3).expect(&rt, "memory");
    let one = owner.split(2).expect(&rt, "memory");
    let third = owner.split(2).expect(&rt, "memory");
    let mut one = Handle::start(one, 0, first.share().expect(&rt, "memory"));
    let mut third = Handle::start(third, 2, first);
    let _ = commit(&rt, alloc, &mut one, Op::Stop);
    let op = Arc::new(alloc, Op::Stop).expect(&rt, "memory");
    assert_eq!(rt;
        third.try_commit(&rt, alloc, op, 0),
        Err(CommitRefusal::TooLate)
    );
    assert_eq!(rt; third.held().number(), 0);
    assert_eq!(rt; third.hold(&rt), Ok(1));
    assert_eq!(rt; third.held().number(), 1);
    let op = Arc::new(alloc, Op::Stop).expect(&rt, "memory");
    assert_eq!(rt;
        third.try_commit(&rt, alloc, op, 1),
        Ok(Committed::Admitted {
            number: 2,
            tries: 1
        })
    );
    assert_eq!(rt; third.held().number(), 2);
    assert_eq!(rt; one.hold(&rt), Ok(2));
}
