//! A commit, one event at a time.

ghost use Rattle.std.specs.Prelude.{◌≡◌, ℕ, ◌+◌, ◌-◌, ◌≤◌, ◌<◌, ◌^◌, List, [], ◌∷◌, ◌++◌, length, take, Some, is_none, IfOk, IfErr};
ghost use Rattle.shadow_frame.specs.declared.Size.{Size};
ghost use Rattle.tree_revision.specs.Records.{PlainRecord, plain_op, plain_record};
ghost use Rattle.tree_revision.specs.Wishes.{as_written};
ghost use Rattle.tree_revision.specs.OneMore.{StandsForOneMore};
ghost use Rattle.tree_revision.specs.InRange.{IsOpInRange};
ghost use Rattle.tree_revision.specs.Cancels.{cancel_of};
ghost use Rattle.tree_revision.specs.Stands.{StandsFor};
ghost use Rattle.tree_revision.specs.Ports.{Told, Lasts};
ghost use Rattle.tree_revision.specs.declared.record.Cancel.{Cancel as CancelValue};
ghost use Rattle.tree_revision.specs.declared.next.PrepareRefusal.TheVariants.{Cancel as CancelRefusal};
ghost use Rattle.commit_core.specs.declared.committer.Progress.TheVariants.{Again};
ghost use Rattle.commit_core.specs.Commit.{fresh, ready, over, begun_commit, commit_in, entry_under_way};
ghost use Rattle.commit_core.specs.Phases.{written_entry};
ghost use Rattle.commit_core.specs.Hooks.{IsWishedOf, StandForSome};
ghost use Rattle.commit_core.specs.Events.{MayLook, MayOffer, IsReadyFor, IsFoundBehind, IsEvent};

use crate::hook::{AsWritten, Hook};
use shadow_node::Made;
use std::alloc::{AllocError, Global};
use std::marker::Model;
use std::mem;
use std::sync::Arc;
use tree_revision::{
    Answer, LookRefusal, OfferRefusal, Op, Port, PrepareRefusal, Record, Revision, prepare,
};

/// A commit that has looked: its record with the change that was wished, the change that it was
/// written with, and the revision after the record, in two shares. The second one is for the answer.
#[derive(Drop)]
pub(crate) struct ReadyCommit {
    pub(crate) entry: Record,
    pub(crate) written: Arc<Op>,
    pub(crate) next: Revision,
    pub(crate) now: Revision,
}

/// Where a commit stands.
#[derive(Drop)]
pub(crate) enum Phase {
    /// It is to look.
    Fresh(Record),
    /// It is to be offered.
    Ready(ReadyCommit),
    /// It was admitted or cancelled.
    Ended,
}

/// What one event of a commit came to.
#[derive(Drop)]
pub enum Progress {
    /// It looked at the revision of that number, and is to be offered next.
    Looked {
        at: u64,
    },
    /// It was offered too late, since the number `found` was reached: it is to look again.
    Again {
        found: u64,
    },
    /// Another holder had the turn.
    Busy,
    /// It has ended with that answer. Where it was admitted, `now` is the revision after it.
    Done {
        answer: Answer,
        now: Option<Revision>,
    },
    /// There was no memory.
    Memory,
}

/// A commit on its way, which asks at each look for what a hook wishes of its change: the record that
/// it was written with, and the revision that its caller holds.
#[derive(Drop)]
pub struct HookedCommitter {
    phase: Phase,
    held: Revision,
    /// The number of looks, but for those that ended in `Busy` or `Memory`.
    tries: u64,
}

impl Model for HookedCommitter {
    ghost use Rattle.commit_core.specs.Commit.{PlainCommit, coded_commit};
    ghost use Rattle.commit_core.specs.Phases.{plain_phase, HasTwoShares};

    ghost Value = { PlainCommit };

    ghost coded = { coded_commit };

    ghost view = { λ c. record { phase = plain_phase c.phase; held = c.held; tries = c.tries } };

    ghost invariant = { λ c. HasTwoShares c.phase };
}

impl HookedCommitter {
    /// A commit of that record, by a caller that holds that revision.
    pub fn start(entry: Record, held: Revision) -> HookedCommitter
        requires held { entry.held ≡ held.newest.number }
        requires op { IsOpInRange (plain_op entry.op.value) }
        ensures begun { result ≡ begun_commit (plain_record entry) held }
    {
        HookedCommitter {
            phase: Phase::Fresh(entry),
            held,
            tries: 0,
        }
    }

    /// Whether it has ended.
    pub fn is_done(&self) -> bool
        ensures { result ≡ is_none (entry_under_way self.now) }
    {
        matches!(self.phase, Phase::Ended)
    }

    /// One event: a look, or an offer where it has looked. It has not ended, and the port has a
    /// permit and has seen what the held revision stands for, and since a look nothing more. What
    /// its last look left is what this hook wishes there.
    ///
    /// After `Busy` and `Memory` it is as before. An offer never answers `Memory`.
    pub fn turn<P: Port, H: Hook>(
        &mut self,
        alloc: Global,
        made: &mut Made,
        port: &mut P,
        hook: &H,
    ) -> Progress
        requires ready { IsReadyFor (H.wish hook.now) (P.told port.old) self.old }
        requires permit { 1 ≤ (P.told port.old).permits }
        ensures lasts { Lasts (P.told port.old) (P.told port.new) }
        ensures late { (found : ℕ) → result ≡ Again found → IsFoundBehind (P.told port.old) (P.told port.new) found }
        ensures event { IsEvent (H.wish hook.now) (P.told port.old) (P.told port.new) self.old self.new result }
    {
        match mem::replace(&mut self.phase, Phase::Ended) {
            Phase::Fresh(entry) => self.look(alloc, made, port, hook, entry),
            Phase::Ready(commit) => self.offer(port, hook, commit),
            Phase::Ended => unreachable!(),
        }
    }

    /// A look, and the revision after the change that is wished there.
    fn look<P: Port, H: Hook>(
        &mut self,
        alloc: Global,
        made: &mut Made,
        port: &mut P,
        hook: &H,
        entry: Record,
    ) -> Progress
        requires ended { self.old.phase ≡ over }
        requires ready { MayLook (P.told port.old) self.old.held self.old.tries (plain_record entry) }
        requires permit { 1 ≤ (P.told port.old).permits }
        ensures lasts { Lasts (P.told port.old) (P.told port.new) }
        ensures event { IsEvent (H.wish hook.now) (P.told port.old) (P.told port.new) (commit_in (fresh (plain_record entry)) self.old) self.new result }
    {
        let front = match port.try_look() {
            Ok(front) => front,
            Err(refusal) => {
                self.phase = Phase::Fresh(entry);
                return match refusal {
                    LookRefusal::Busy => Progress::Busy,
                    LookRefusal::Memory => Progress::Memory,
                };
            }
        };
        let at = front.number();
        let tries = self.tries + 1;
        match prepare_wished(alloc, made, hook, &entry.op, &front, &self.held) {
            Ok((op, next, now)) => {
                self.phase = Phase::Ready(ready_commit(entry, op, next, now));
                self.tries = tries;
                Progress::Looked { at }
            }
            Err(PrepareRefusal::Cancel(cause)) => Progress::Done {
                answer: Answer::Cancelled { at, tries, cause },
                now: None,
            },
            Err(PrepareRefusal::Memory) => {
                self.phase = Phase::Fresh(entry);
                Progress::Memory
            }
        }
    }

    /// An offer of the revision after the change that was wished.
    fn offer<P: Port, H: Hook>(&mut self, port: &mut P, _hook: &H, commit: ReadyCommit) -> Progress
        requires ended { self.old.phase ≡ over }
        requires shares { commit.now ≡ commit.next }
        requires ready { MayOffer (H.wish _hook.now) (P.told port.old) self.old.held self.old.tries (written_entry commit) (plain_op commit.entry.op.value) commit.next }
        requires permit { 1 ≤ (P.told port.old).permits }
        ensures lasts { Lasts (P.told port.old) (P.told port.new) }
        ensures event { IsEvent (H.wish _hook.now) (P.told port.old) (P.told port.new) (commit_in (ready (written_entry commit) (plain_op commit.entry.op.value) commit.next) self.old) self.new result }
    {
        let ReadyCommit {
            entry,
            written,
            next,
            now,
        } = commit;
        match port.try_offer(entry, next) {
            Ok(number) => Progress::Done {
                answer: Answer::Admitted {
                    number,
                    tries: self.tries,
                },
                now: Some(now),
            },
            Err(OfferRefusal::Busy { entry, next }) => {
                self.phase = Phase::Ready(ReadyCommit {
                    entry,
                    written,
                    next,
                    now,
                });
                Progress::Busy
            }
            Err(OfferRefusal::Behind { found, entry, .. }) => {
                self.phase = Phase::Fresh(Record {
                    op: written,
                    ..entry
                });
                Progress::Again { found }
            }
        }
    }
}

/// A commit on its way, which asks for the change that its record has: that record, and the revision
/// that its caller holds.
#[derive(Drop)]
pub struct Committer {
    commit: HookedCommitter,
}

impl Model for Committer {
    ghost use Rattle.commit_core.specs.Commit.{PlainCommit, coded_commit};

    ghost Value = { PlainCommit };

    ghost coded = { coded_commit };

    ghost view = { λ c. c.commit };
}

impl Committer {
    /// A commit of that record, by a caller that holds that revision.
    pub fn start(entry: Record, held: Revision) -> Committer
        requires held { entry.held ≡ held.newest.number }
        requires op { IsOpInRange (plain_op entry.op.value) }
        ensures begun { result ≡ begun_commit (plain_record entry) held }
        ensures ready { (told : Told) → entry.held ≤ length told.seen → StandsFor told.first held (take entry.held told.seen) → IsReadyFor as_written told result }
    {
        Committer {
            commit: HookedCommitter::start(entry, held),
        }
    }

    /// Whether it has ended.
    pub fn is_done(&self) -> bool
        ensures { result ≡ is_none (entry_under_way self.now) }
    {
        self.commit.is_done()
    }

    /// One event: a look, or an offer where it has looked. It has not ended, and the port has a
    /// permit and has seen what the held revision stands for, and since a look nothing more.
    ///
    /// After `Busy` and `Memory` it is as before. An offer never answers `Memory`.
    pub fn turn<P: Port>(&mut self, alloc: Global, made: &mut Made, port: &mut P) -> Progress
        requires ready { IsReadyFor as_written (P.told port.old) self.old }
        requires permit { 1 ≤ (P.told port.old).permits }
        ensures lasts { Lasts (P.told port.old) (P.told port.new) }
        ensures late { (found : ℕ) → result ≡ Again found → IsFoundBehind (P.told port.old) (P.told port.new) found }
        ensures event { IsEvent as_written (P.told port.old) (P.told port.new) self.old self.new result }
    {
        self.commit.turn(alloc, made, port, &AsWritten)
    }
}

/// A commit that has looked, whose record has the change that was wished in place of its own.
fn ready_commit(entry: Record, op: Arc<Op>, next: Revision, now: Revision) -> ReadyCommit
    ensures written { written_entry result ≡ plain_record entry }
    ensures wished { result.entry.op ≡ op }
    ensures next { result.next ≡ next }
    ensures now { result.now ≡ now }
{
    let Record {
        actor,
        call,
        held,
        op: written,
    } = entry;
    let entry = Record {
        actor,
        call,
        held,
        op,
    };
    ReadyCommit {
        entry,
        written,
        next,
        now,
    }
}

/// What a hook wishes in place of a change, at a look that found that front, by a caller that holds
/// that revision.
fn wished_op<H: Hook>(
    alloc: Global,
    hook: &H,
    op: &Arc<Op>,
    front: &Revision,
    held: &Revision,
) -> Result<Arc<Op>, AllocError>
    requires in_range { IsOpInRange (plain_op op.now.value) }
    ensures { IfOk result (λ wished. IsWishedOf (H.wish hook.now) front.now held.now (plain_op op.now.value) (plain_op wished.value)) }
{
    match hook.adjust(alloc, front, held, op)? {
        Some(changed) => Ok(Arc::new(alloc, changed)?),
        None => Arc::try_clone(op),
    }
}

/// What a hook wishes in place of a change of the front, by a caller that holds that revision, and
/// the revision after it, in two shares.
fn prepare_wished<H: Hook>(
    alloc: Global,
    made: &mut Made,
    hook: &H,
    op: &Arc<Op>,
    front: &Revision,
    held: &Revision,
) -> Result<(Arc<Op>, Revision, Revision), PrepareRefusal>
    requires op { IsOpInRange (plain_op op.now.value) }
    requires number { front.now.newest.number < 2 ^ 64 - 1 }
    requires stand { StandForSome front.now held.now }
    ensures wished { IfOk result (λ ready. IsWishedOf (H.wish hook.now) front.now held.now (plain_op op.now.value) (plain_op ready.0.value)) }
    ensures next { IfOk result (λ ready. StandsForOneMore (plain_op ready.0.value) front.now held.now ready.1) }
    ensures same { IfOk result (λ ready. ready.2 ≡ ready.1) }
    ensures cancelled { IfErr result (λ refusal. (cause : CancelValue) → refusal ≡ CancelRefusal cause → (first : Size) (entries : List PlainRecord) (number : ℕ) → StandsFor first front.now entries → StandsFor first held.now (take number entries) → cancel_of first (H.wish hook.now entries number (plain_op op.now.value)) entries number ≡ Some cause) }
{
    let wished = wished_op(alloc, hook, op, front, held)?;
    let next = prepare(alloc, made, &wished, front, held)?;
    let now = next.share()?;
    Ok((wished, next, now))
}
