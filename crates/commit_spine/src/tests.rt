//! Commits on one spine, by one pass and by two, on one thread.

ghost use Rattle.std.specs.Prelude.{◌≡◌, ◌≤◌, ◌<◌, ◌^◌, [], IfErr};
ghost use Rattle.std.specs.Coded.{codes};
ghost use Rattle.atomic_table.specs.Seated.{table_id_coded};
ghost use Rattle.tree_revision.specs.Records.{plain_op};
ghost use Rattle.tree_revision.specs.InRange.{IsOpInRange};
ghost use Rattle.tree_revision.specs.Stands.{StandsFor};
ghost use Rattle.tree_revision.proofs.OneProof.{StandsFor-prop};
ghost use Rattle.commit_spine.specs.Passes.{fresh_pass};
ghost use Rattle.commit_spine.specs.Calls.{spine_id, IsPassOf};

use self::Call::{Look, Number, Offer};
use self::Move::{A, B};
use crate::{Spine, SpinePass};
use shadow_frame::Size;
use shadow_node::Made;
use std::alloc::Global;
use std::process::Abort;
use std::sync::Arc;
use std::thread::Threads;
use tree_revision::{OfferRefusal, Op, Record, Revision, prepare};

/// A small surface's history with that room and so many shares, its one pass, and its first
/// revision.
fn opened(rt: &impl Abort, alloc: Global, room: u64, seats: u32) -> (Spine, SpinePass, Revision)
    requires room { room < 2 ^ 62 }
    requires seats { 1 ≤ seats }
    ensures spine { IsPassOf result.0 result.1 }
    ensures fresh { result.1.kept ≡ fresh_pass (record { first = result.2.newest.size; room = room; seats = seats }) seats room }
    ensures held { StandsFor result.2.newest.size result.2 [] }
{
    let size = Size {
        width: 100,
        height: 50,
    };
    let held = Revision::opening(alloc, size).expect(rt, "memory");
    let first = held.share().expect(rt, "memory");
    let (spine, pass) = Spine::start(alloc, room, seats, first).expect(rt, "memory");
    (spine, pass, held)
}

/// Looks, and is answered.
fn look(rt: &impl Abort, spine: &Spine, pass: &mut SpinePass) -> Revision
    requires spine { IsPassOf spine.now pass.old }
    ensures spine { pass.new.spine ≡ pass.old.spine }
    ensures mark { pass.new.kept.mark ≡ pass.old.kept.mark }
    ensures stands { StandsFor pass.new.kept.mark.first result pass.new.kept.seen }
{
    match spine.try_look(pass) {
        Ok(front) => front,
        Err(_) => panic!(rt; "a look"),
    }
}

/// Offers that change of what was looked at, by a caller that holds the first revision. It answers
/// the number of the record, or the number that it was behind.
fn offer(
    rt: &(impl Abort + Threads),
    alloc: Global,
    spine: &Spine,
    pass: &mut SpinePass,
    front: &Revision,
    held: &Revision,
    op: Op,
) -> Result<u64, u64>
    requires spine { IsPassOf spine.now pass.old }
    requires front { StandsFor pass.old.kept.mark.first front.now pass.old.kept.seen }
    requires held { StandsFor pass.old.kept.mark.first held.now [] }
    requires op { IsOpInRange (plain_op op) }
    ensures spine { pass.new.spine ≡ pass.old.spine }
    ensures mark { pass.new.kept.mark ≡ pass.old.kept.mark }
    ensures behind { IfErr result (λ _. pass.new.kept.seen ≡ pass.old.kept.seen) }
{
    assert!(rt; pass.permits() > 0);
    assert!(rt; front.number() < 100);
    let mut made = Made::start(rt);
    let Ok(next) = prepare(alloc, &mut made, &op, front, held) else {
        panic!(rt; "the next revision");
    };
    let entry = Record {
        actor: 0,
        call: 0,
        held: 0,
        op: Arc::new(alloc, op).expect(rt, "memory"),
    };
    match spine.try_offer(pass, entry, next) {
        Ok(number) => Ok(number),
        Err(OfferRefusal::Behind { found, .. }) => Err(found),
        Err(OfferRefusal::Busy { .. }) => panic!(rt; "no other pass has the turn"),
    }
}

/// A holder of a pass, beside the revision that stands for what the pass has seen. It holds the
/// first revision.
#[derive(Drop)]
struct Holder<'a> {
    spine: &'a Spine,
    held: &'a Revision,
    pass: SpinePass,
    front: Revision,
    ghost one_spine: { pass.spine ≡ spine_id spine.now } by { Prim.hlevel (table_id_coded, codes) },
    ghost opening: { StandsFor pass.kept.mark.first held.now [] } by { StandsFor-prop pass.kept.mark.first held.now [] },
    ghost stands: { StandsFor pass.kept.mark.first front pass.kept.seen } by { StandsFor-prop pass.kept.mark.first front pass.kept.seen },
}

impl<'a> Holder<'a> {
    /// The holder of that pass, which looks.
    fn start(
        rt: &impl Abort,
        spine: &'a Spine,
        held: &'a Revision,
        mut pass: SpinePass,
    ) -> Holder<'a>
        requires spine { IsPassOf spine.now pass }
        requires held { StandsFor pass.kept.mark.first held.now [] }
        ensures spine { result.pass.spine ≡ pass.spine }
        ensures mark { result.pass.kept.mark ≡ pass.kept.mark }
    {
        let front = look(rt, spine, &mut pass);
        Holder {
            spine,
            held,
            pass,
            front,
        }
    }

    /// Looks again.
    fn look(&mut self, rt: &impl Abort)
        ensures spine { self.new.pass.spine ≡ self.old.pass.spine }
        ensures mark { self.new.pass.kept.mark ≡ self.old.pass.kept.mark }
    {
        self.front = look(rt, self.spine, &mut self.pass);
    }

    /// Offers that change, and looks again behind an admitted one.
    fn offer(&mut self, rt: &(impl Abort + Threads), alloc: Global, op: Op) -> Result<u64, u64>
        requires op { IsOpInRange (plain_op op) }
        ensures spine { self.new.pass.spine ≡ self.old.pass.spine }
        ensures mark { self.new.pass.kept.mark ≡ self.old.pass.kept.mark }
    {
        let number = offer(
            rt,
            alloc,
            self.spine,
            &mut self.pass,
            &self.front,
            self.held,
            op,
        )?;
        self.front = look(rt, self.spine, &mut self.pass);
        Ok(number)
    }

    /// Makes that call. Its offers are of one change.
    fn call(&mut self, rt: &(impl Abort + Threads), alloc: Global, call: &Call) {
        match call {
            Call::Look => self.look(rt),
            Call::Offer => {
                let _ = self.offer(rt, alloc, Op::Stop);
            }
            Call::Number => {
                let _ = self.number();
            }
        }
    }

    /// The number of records.
    fn number(&mut self) -> u64
        ensures spine { self.new.pass.spine ≡ self.old.pass.spine }
        ensures mark { self.new.pass.kept.mark ≡ self.old.pass.kept.mark }
    {
        self.spine.number(&mut self.pass)
    }
}

/// Splits the pass of a new history, commits once by each half, the second one behind the first,
/// and joins them.
fn two_commits(
    rt: &(impl Abort + Threads),
    alloc: Global,
    spine: &Spine,
    held: &Revision,
    mut pass: SpinePass,
) -> SpinePass
    requires spine { IsPassOf spine.now pass }
    requires held { StandsFor pass.kept.mark.first held.now [] }
    requires shares { 2 ≤ pass.kept.shares }
    requires permits { 1 ≤ pass.kept.permits }
    ensures spine { IsPassOf spine.now result }
    ensures mark { result.kept.mark ≡ pass.kept.mark }
{
    let other = spine.split(&mut pass, 1);
    let mut a = Holder::start(rt, spine, held, pass);
    let mut b = Holder::start(rt, spine, held, other);
    assert_eq!(rt; (a.front.number(), b.front.number()), (0, 0));
    assert_eq!(rt; a.offer(rt, alloc, Op::Stop), Ok(1));
    assert_eq!(rt; b.number(), 1);
    assert_eq!(rt; b.offer(rt, alloc, Op::Suspend), Err(1));
    b.look(rt);
    assert_eq!(rt; b.front.number(), 1);
    assert_eq!(rt; b.offer(rt, alloc, Op::Suspend), Ok(2));
    let Holder { mut pass, .. } = a;
    let Holder { pass: other, .. } = b;
    spine.join(&mut pass, other);
    pass
}

#[test]
fn two_passes_have_one_history(rt: HostRuntime) {
    let alloc = rt.alloc();
    let (spine, pass, held) = opened(&rt, alloc, 2, 2);
    let pass = two_commits(&rt, alloc, &spine, &held, pass);
    assert_eq!(rt; (pass.permits(), pass.busy(), pass.shares()), (0, 0, 2));
    let records = spine.close(pass).records;
    assert_eq!(rt; records.len(), 2);
    assert!(rt; matches!(*records[0].op, Op::Stop));
    assert!(rt; matches!(*records[1].op, Op::Suspend));
}

/// A call of a holder.
enum Call {
    Look,
    Offer,
    Number,
}

/// Which of two holders has the next call.
enum Move {
    A(Call),
    B(Call),
}

/// A list of calls of two holders, and how many records there are at its end.
struct Case {
    moves: &'static [Move],
    admitted: u64,
}

const CASES: [Case; 10] = [
    Case {
        moves: &[],
        admitted: 0,
    },
    Case {
        moves: &[A(Look), B(Look), A(Number), B(Number)],
        admitted: 0,
    },
    Case {
        moves: &[A(Offer), A(Offer), A(Offer)],
        admitted: 3,
    },
    Case {
        moves: &[A(Offer), B(Offer)],
        admitted: 1,
    },
    Case {
        moves: &[A(Offer), B(Number), B(Offer)],
        admitted: 1,
    },
    Case {
        moves: &[A(Offer), B(Look), B(Offer)],
        admitted: 2,
    },
    Case {
        moves: &[B(Offer), A(Offer), A(Offer), A(Look), A(Offer)],
        admitted: 2,
    },
    Case {
        moves: &[A(Offer), B(Offer), B(Look), B(Offer), A(Offer), A(Look)],
        admitted: 2,
    },
    Case {
        moves: &[
            A(Offer),
            B(Look),
            B(Offer),
            A(Look),
            A(Offer),
            B(Look),
            B(Offer),
            A(Number),
        ],
        admitted: 4,
    },
    Case {
        moves: &[
            B(Offer),
            B(Offer),
            A(Offer),
            A(Number),
            A(Look),
            A(Offer),
            B(Offer),
            A(Offer),
        ],
        admitted: 4,
    },
];

/// Makes these calls on one thread, and answers how many records there are at their end. No call
/// is busy.
fn number_after(rt: &(impl Abort + Threads), alloc: Global, moves: &[Move]) -> u64 {
    let (spine, mut pass, held) = opened(rt, alloc, 8, 2);
    let other = spine.split(&mut pass, 4);
    let mut a = Holder::start(rt, &spine, &held, pass);
    let mut b = Holder::start(rt, &spine, &held, other);
    for next in moves {
        match next {
            A(call) => a.call(rt, alloc, call),
            B(call) => b.call(rt, alloc, call),
        }
    }
    assert_eq!(rt; (a.pass.busy(), b.pass.busy()), (0, 0));
    a.number()
}

#[test]
fn no_list_of_calls_on_one_thread_is_busy(rt: HostRuntime) {
    for case in &CASES {
        assert_eq!(rt; number_after(&rt, rt.alloc(), case.moves), case.admitted);
    }
}

#[test]
fn a_room_of_three_has_three_permits(rt: HostRuntime) {
    let alloc = rt.alloc();
    let (spine, pass, held) = opened(&rt, alloc, 3, 1);
    let mut holder = Holder::start(&rt, &spine, &held, pass);
    for number in 1..4 {
        assert_eq!(rt; holder.offer(&rt, alloc, Op::Stop), Ok(number));
    }
    assert_eq!(rt; holder.pass.permits(), 0);
}
