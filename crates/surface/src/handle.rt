//! Commits and holds, by a thread's handle.

ghost use Rattle.std.specs.Prelude.{◌≡◌, ◌≤◌, IfOk, IfSome, IsSome, Some, length, take, unwrap_or};
ghost use Rattle.shadow_node.specs.InRange.{IsTagInRange};
ghost use Rattle.tree_revision.specs.InRange.{IsOpInRange};
ghost use Rattle.tree_revision.specs.Records.{PlainRecord, plain_op, state as state_of};
ghost use Rattle.tree_revision.specs.Stands.{StandsFor};
ghost use Rattle.tree_revision.specs.Wishes.{as_written};
ghost use Rattle.commit_core.specs.Commit.{entry_under_way};
ghost use Rattle.commit_core.specs.Events.{IsReadyFor};
ghost use Rattle.commit_spine.specs.SpinePorts.{spine_told};
ghost use Rattle.surface.specs.declared.parts.Handle.{Handle as HandleValue};
ghost use Rattle.surface.specs.Passing.{PassGoesOn};
ghost use Rattle.surface.specs.Committing.{IsAfterEvents, IsAtNextCall, IsCommitAnswer, IsCommittedOrOn, IsCommitting, IsHoldAnswer, IsStep, IsTryAnswer, IsWaitedHoldAnswer, committed_of, record_by};

use crate::parts::{Handle, Surface};
use commit_core::{Committer, Progress};
use native_state::StateChange;
use shadow_node::Made;
use std::alloc::{AllocError, Global};
use std::sync::{Arc, Wait};
use std::thread;
use std::thread::Threads;
use tree_revision::{Answer, Cancel, LookRefusal, Op, Port, Record, Revision};

/// How many events a try has: a look, and an offer.
const EVENTS_A_TRY: u64 = 2;

/// How a commit ended, after so many tries. A try is a look that was answered.
#[derive(Clone, Copy, Debug, PartialEq, Eq)]
pub enum Committed {
    /// It is the record of that number.
    Admitted { number: u64, tries: u64 },
    /// There was that cause at the revision of that number.
    Cancelled { at: u64, tries: u64, cause: Cancel },
}

/// Why a commit that waits for nobody did not come about.
#[derive(Clone, Copy, Debug, PartialEq, Eq)]
pub enum CommitRefusal {
    /// After each look another thread committed first, and it may look no more.
    TooLate,
    /// Another holder has the turn.
    Busy,
    /// There is no memory.
    Memory,
}

impl Handle {
    /// The handle of that actor, at call 0, with that revision held.
    pub fn start(surface: Surface, actor: u32, held: Revision) -> Handle
        requires within { held.newest.number ≤ length surface.pass.kept.seen }
        requires stands { StandsFor surface.pass.kept.mark.first held (take held.newest.number surface.pass.kept.seen) }
        ensures surface { result.surface.pass ≡ surface.pass }
        ensures held { result.held ≡ held }
        ensures actor { (result.actor ≡ actor) × (result.call ≡ 0) }
    {
        Handle {
            surface,
            held,
            actor,
            call: 0,
        }
    }

    /// Commits a change: looks and offers until it is admitted or cancelled. It lets other threads
    /// run where it came too late or found the turn taken.
    ///
    /// Once it is admitted, the handle holds the revision after it. Without memory no record is
    /// added, and the handle is at the same call.
    pub fn commit<R: Threads + Wait>(
        &mut self,
        rt: &R,
        alloc: Global,
        op: Arc<Op>,
    ) -> Result<Committed, AllocError>
        requires op { IsOpInRange (plain_op op.value) }
        requires permit { 1 ≤ self.old.surface.pass.kept.permits }
        ensures goes_on { PassGoesOn self.old.surface.pass self.new.surface.pass }
        ensures answer { IsCommitAnswer self.old self.new (record_by self.old (plain_op op.value)) result }
    {
        let mut made = Made::start(rt);
        let mut commit = self.begin(op)?;
        self.finish(rt, alloc, &mut made, &mut commit)
    }

    /// Commits a change as `commit` does, with at most so many looks, and waits for nobody.
    ///
    /// It is refused where another holder has the turn, where another thread committed after each of
    /// these looks, and without memory. No record is added then, and the handle holds what it held
    /// and is at the same call.
    pub fn try_commit<R: Threads>(
        &mut self,
        rt: &R,
        alloc: Global,
        op: Arc<Op>,
        tries: u32,
    ) -> Result<Committed, CommitRefusal>
        requires op { IsOpInRange (plain_op op.value) }
        requires permit { 1 ≤ self.old.surface.pass.kept.permits }
        ensures goes_on { PassGoesOn self.old.surface.pass self.new.surface.pass }
        ensures answer { IsTryAnswer tries self.old self.new (record_by self.old (plain_op op.value)) result }
    {
        let mut made = Made::start(rt);
        let Ok(mut commit) = self.begin(op) else {
            return Err(CommitRefusal::Memory);
        };
        self.go_on(alloc, &mut made, &mut commit, tries)
    }

    /// Takes a commit that has not looked yet on, with at most so many looks.
    fn go_on(
        &mut self,
        alloc: Global,
        made: &mut Made,
        commit: &mut Committer,
        tries: u32,
    ) -> Result<Committed, CommitRefusal>
        requires under { (entry : PlainRecord) × IsAfterEvents self.old self.old entry commit.old 0 }
        requires permit { 1 ≤ self.old.surface.pass.kept.permits }
        ensures goes_on { PassGoesOn self.old.surface.pass self.new.surface.pass }
        ensures answer { (entry : PlainRecord) → entry_under_way commit.old ≡ Some entry → IsTryAnswer tries self.old self.new entry result }
    {
        for event in 0..EVENTS_A_TRY * u64::from(tries) {
            match self.step(alloc, made, commit) {
                Ok(Some(committed)) => return Ok(committed),
                Ok(None) => {}
                Err(CommitRefusal::TooLate) => {}
                Err(CommitRefusal::Busy) => return Err(CommitRefusal::Busy),
                Err(CommitRefusal::Memory) => return Err(CommitRefusal::Memory),
            }
        }
        Err(CommitRefusal::TooLate)
    }

    /// Takes a commit under way to its end.
    fn finish<R: Wait>(
        &mut self,
        rt: &R,
        alloc: Global,
        made: &mut Made,
        commit: &mut Committer,
    ) -> Result<Committed, AllocError>
        requires under { (entry : PlainRecord) × IsCommitting self.old self.old entry commit.old }
        requires permit { 1 ≤ self.old.surface.pass.kept.permits }
        ensures goes_on { PassGoesOn self.old.surface.pass self.new.surface.pass }
        ensures answer { (entry : PlainRecord) → entry_under_way commit.old ≡ Some entry → IsCommitAnswer self.old self.new entry result }
    {
        for _ in rt.forever() {
            let Ok(ended) = self.event(alloc, made, commit) else {
                return Err(AllocError);
            };
            if let Some(committed) = ended {
                return Ok(committed);
            }
        }
        unreachable!()
    }

    /// Commits a change of a family's native state, as `commit` does.
    pub fn set_state<R: Threads + Wait>(
        &mut self,
        rt: &R,
        alloc: Global,
        tag: u32,
        change: StateChange,
    ) -> Result<Committed, AllocError>
        requires tag { IsTagInRange tag }
        requires permit { 1 ≤ self.old.surface.pass.kept.permits }
        ensures goes_on { PassGoesOn self.old.surface.pass self.new.surface.pass }
        ensures answer { IsCommitAnswer self.old self.new (record_by self.old (state_of tag change)) result }
    {
        let Ok(op) = Arc::new(alloc, Op::State { tag, change }) else {
            return Err(AllocError);
        };
        self.commit(rt, alloc, op)
    }

    /// Looks once, and holds the newest revision; it answers its number. It waits for nobody.
    pub fn try_hold(&mut self) -> Result<u64, LookRefusal>
        ensures goes_on { PassGoesOn self.old.surface.pass self.new.surface.pass }
        ensures answer { IsHoldAnswer self.old self.new result }
    {
        let front = self.surface.try_look()?;
        let at = front.number();
        self.held = front;
        Ok(at)
    }

    /// Holds the newest revision, once no other holder has the turn; it answers its number.
    pub fn hold<R: Wait>(&mut self, rt: &R) -> Result<u64, AllocError>
        ensures goes_on { PassGoesOn self.old.surface.pass self.new.surface.pass }
        ensures answer { IsWaitedHoldAnswer self.old self.new result }
    {
        for _ in rt.forever() {
            match self.try_hold() {
                Ok(at) => return Ok(at),
                Err(LookRefusal::Busy) => thread::yield_now(),
                Err(LookRefusal::Memory) => return Err(AllocError),
            }
        }
        unreachable!()
    }

    /// The revision that it holds.
    pub fn held(&self) -> &Revision
        ensures { result.now ≡ self.now.held }
    {
        &self.held
    }

    /// How many commits of it may still be admitted.
    pub fn permits(&self) -> u64
        ensures { result ≡ self.now.surface.pass.kept.permits }
    {
        self.surface.permits()
    }

    /// Its way to the surface, which may be joined with another.
    pub fn into_surface(self) -> Surface
        ensures { result.pass ≡ self.surface.pass }
    {
        let Handle { surface, .. } = self;
        surface
    }

    /// The commit of its next call, before the first look.
    fn begin(&self, op: Arc<Op>) -> Result<Committer, AllocError>
        requires { IsOpInRange (plain_op op.value) }
        ensures under { IfOk result (IsCommitting self.now self.now (record_by self.now (plain_op op.value))) }
        ensures begun { IfOk result (λ commit. IsAfterEvents self.now self.now (record_by self.now (plain_op op.value)) commit 0) }
    {
        let entry = Record {
            actor: self.actor,
            call: self.call,
            held: self.held.number(),
            op,
        };
        Ok(Committer::start(entry, self.held.share()?))
    }

    /// One event of a commit under way: how it ended, or `None` where it goes on. Where it came too
    /// late or found the turn taken, other threads run before it returns.
    fn event(
        &mut self,
        alloc: Global,
        made: &mut Made,
        commit: &mut Committer,
    ) -> Result<Option<Committed>, AllocError>
        requires ready { IsReadyFor as_written (spine_told self.old.surface.pass) commit.old }
        requires permit { 1 ≤ self.old.surface.pass.kept.permits }
        ensures { (start : HandleValue) (entry : PlainRecord) → IsCommitting start self.old entry commit.old
            → IsCommittedOrOn start self.new entry commit.new result }
    {
        match self.step(alloc, made, commit) {
            Ok(ended) => Ok(ended),
            Err(CommitRefusal::TooLate) => {
                thread::yield_now();
                Ok(None)
            }
            Err(CommitRefusal::Busy) => {
                thread::yield_now();
                Ok(None)
            }
            Err(CommitRefusal::Memory) => Err(AllocError),
        }
    }

    /// One event of a commit under way: how it ended, or `None` where it has looked. Where it came
    /// too late, it is to look again.
    fn step(
        &mut self,
        alloc: Global,
        made: &mut Made,
        commit: &mut Committer,
    ) -> Result<Option<Committed>, CommitRefusal>
        requires ready { IsReadyFor as_written (spine_told self.old.surface.pass) commit.old }
        requires permit { 1 ≤ self.old.surface.pass.kept.permits }
        ensures { (start : HandleValue) (entry : PlainRecord) → IsCommitting start self.old entry commit.old
            → IsStep start self.new entry commit.old commit.new result }
    {
        match commit.turn(alloc, made, &mut self.surface) {
            Progress::Looked { .. } => Ok(None),
            Progress::Again { .. } => Err(CommitRefusal::TooLate),
            Progress::Busy => Err(CommitRefusal::Busy),
            Progress::Memory => Err(CommitRefusal::Memory),
            Progress::Done { answer, now } => {
                self.end_call(now);
                Ok(Some(ended_by(answer)))
            }
        }
    }

    /// Ends its call; it holds that revision from now on, where one is given.
    fn end_call(&mut self, now: Option<Revision>)
        requires { IfSome now (λ now. StandsFor self.old.surface.pass.kept.mark.first now self.old.surface.pass.kept.seen) }
        ensures pass { self.new.surface.pass ≡ self.old.surface.pass }
        ensures held { self.new.held ≡ unwrap_or now self.old.held }
        ensures call { IsAtNextCall self.old self.new }
    {
        self.call = self.call.saturating_add(1);
        if let Some(now) = now {
            self.held = now;
        }
    }
}

/// How a commit ended that was answered so.
fn ended_by(answer: Answer) -> Committed
    requires { IsSome (committed_of answer) }
    ensures { committed_of answer ≡ Some result }
{
    match answer {
        Answer::Admitted { number, tries } => Committed::Admitted { number, tries },
        Answer::Cancelled { at, tries, cause } => Committed::Cancelled { at, tries, cause },
        Answer::Held { .. } => unreachable!(),
        Answer::Mounted { .. } => unreachable!(),
        Answer::Empty { .. } => unreachable!(),
    }
}
