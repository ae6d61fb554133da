//! A commit on a history in one hand, from its start to the end of the history.

ghost use Rattle.std.specs.Prelude.{◌≡◌, ◌-◌, ◌≤◌, [], IfOk};
ghost use Rattle.tree_revision.specs.Stands.{StandsFor};
ghost use Rattle.commit_core.specs.PlainPorts.{records_of, told_of};

use crate::{Committer, PlainPort, PlainSpine, Progress};
use shadow_frame::Size;
use shadow_node::Made;
use std::alloc::{AllocError, Global};
use std::process::Abort;
use std::sync::Arc;
use std::thread::Threads;
use tree_revision::{Answer, Op, Port, Record, Revision, prepare};

/// A history with that room for records, and its first revision.
fn opened(alloc: Global, room: u64) -> Result<(PlainSpine, Revision), AllocError>
    ensures room { IfOk result (λ opened. opened.0.room ≡ room) }
    ensures records { IfOk result (λ opened. records_of opened.0 ≡ []) }
    ensures held { IfOk result (λ opened. StandsFor opened.0.first opened.1 []) }
{
    let first = Revision::opening(
        alloc,
        Size {
            width: 100,
            height: 50,
        },
    )?;
    let held = first.share()?;
    Ok((PlainSpine::start(alloc, room, first)?, held))
}

/// A record of that change, by a caller that holds the first revision.
fn record_of(alloc: Global, actor: u32, op: Op) -> Result<Record, AllocError>
    ensures held { IfOk result (λ entry. entry.held ≡ 0) }
    ensures op { IfOk result (λ entry. entry.op.value ≡ op) }
{
    Ok(Record {
        actor,
        call: 0,
        held: 0,
        op: Arc::new(alloc, op)?,
    })
}

#[test]
fn one_commit_is_admitted(rt: HostRuntime) {
    let alloc = rt.alloc();
    let mut made = Made::start(&rt);
    let (spine, held) = opened(alloc, 4).expect(&rt, "memory");
    let (pass, mut other_pass) = (spine.pass(), spine.pass());
    let mut port = spine.port(pass);
    let entry = record_of(alloc, 0, Op::Stop).expect(&rt, "memory");
    let mut committer = Committer::start(entry, held);
    let Progress::Looked { at } = committer.turn(alloc, &mut made, &mut port) else {
        panic!(&rt; "a look");
    };
    assert_eq!(rt; at, 0);
    let Progress::Done { answer, now: _ } = committer.turn(alloc, &mut made, &mut port) else {
        panic!(&rt; "an admitted offer");
    };
    assert_eq!(rt;
        answer,
        Answer::Admitted {
            number: 1,
            tries: 1
        }
    );
    assert!(rt; committer.is_done());
    port.exchange(&mut other_pass);
    let (spine, _) = port.parts();
    assert_eq!(rt; spine.front().number(), 1);
    assert_eq!(rt; spine.records().len(), 1);
    let (records, front) = spine.into_parts();
    assert_eq!(rt; records.len(), 1);
    assert_eq!(rt; front.number(), 1);
}

/// Looks and offers a stop, for which there is a permit, by a caller that holds the first revision.
/// It answers the number of the record.
fn commit(rt: &(impl Abort + Threads), alloc: Global, port: &mut PlainPort, held: &Revision) -> u64
    requires permit { 1 ≤ (told_of port.old).permits }
    requires held { StandsFor (told_of port.old).first held.now [] }
    ensures first { (told_of port.new).first ≡ (told_of port.old).first }
    ensures permits { (told_of port.new).permits ≡ (told_of port.old).permits - 1 }
{
    let Ok(front) = port.try_look() else {
        panic!(rt; "a look");
    };
    assert!(rt; front.number() < 100);
    let mut made = Made::start(rt);
    let Ok(next) = prepare(alloc, &mut made, &Op::Stop, &front, held) else {
        panic!(rt; "the next revision");
    };
    let entry = record_of(alloc, 0, Op::Stop).expect(rt, "memory");
    match port.try_offer(entry, next) {
        Ok(number) => number,
        Err(_) => panic!(rt; "an admitted offer"),
    }
}

/// A port that has no permit.
fn is_full(_port: &PlainPort)
    requires { (told_of _port.now).permits ≡ 0 }
{}

#[test]
fn a_room_of_three_has_three_permits(rt: HostRuntime) {
    let alloc = rt.alloc();
    let (spine, held) = opened(alloc, 3).expect(&rt, "memory");
    let pass = spine.pass();
    let mut port = spine.port(pass);
    assert_eq!(rt; commit(&rt, alloc, &mut port, &held), 1);
    assert_eq!(rt; commit(&rt, alloc, &mut port, &held), 2);
    assert_eq!(rt; commit(&rt, alloc, &mut port, &held), 3);
    is_full(&port);
    let (spine, _) = port.parts();
    assert_eq!(rt; spine.records().len(), 3);
}
