//! A history that is built up again, with the revision of each number.

ghost use Rattle.std.specs.Prelude.{◌≡◌, ◌≤◌, [], slice_get, IfOk};
ghost use Rattle.std.specs.Option.{option_copied};
ghost use Rattle.tree_settle.specs.Limits.{IsSizeInRange};
ghost use Rattle.tree_revision.specs.InRange.{IsOpInRange};
ghost use Rattle.tree_revision.specs.Records.{plain_op, plain_record};
ghost use Rattle.tree_query.specs.LedTo.{IsNextAfter};
ghost use Rattle.tree_query.specs.Rebuilt.{IsCauseAt, IsCountOf, IsPushAnswer, IsRebuildOf, IsRevisionAt, last_number};

use shadow_frame::Size;
use shadow_node::Made;
use std::alloc::{AllocError, Global};
use std::marker::Model;
use tree_revision::{Cancel, Op, PrepareRefusal, Record, Revision, prepare};

/// A history that is built up again record by record. It keeps the revision of each number, which
/// shares with the one before it what stays.
#[derive(Drop)]
pub struct Rebuild {
    alloc: Global,
    revisions: Vec<Revision>,
}

impl Model for Rebuild {
    ghost use Rattle.tree_query.specs.Rebuilt.{IsRebuild, PlainRebuild, coded_rebuild};

    ghost Value = { PlainRebuild };

    ghost coded = { coded_rebuild };

    ghost view = { λ r. r.revisions.items };

    ghost invariant = { λ r. IsRebuild r.revisions.items };
}

impl Rebuild {
    /// The history with no records, on a surface of that size.
    pub fn start(alloc: Global, size: Size) -> Result<Rebuild, AllocError>
        requires { IsSizeInRange size }
        ensures { IfOk result (λ rebuild. IsRebuildOf size rebuild []) }
    {
        let first = Revision::opening(alloc, size)?;
        let mut revisions = Vec::new(alloc);
        revisions.push(first)?;
        Ok(Rebuild { alloc, revisions })
    }

    /// How many records there are.
    pub fn len(&self) -> u64
        ensures len { result ≡ last_number self.now }
        ensures records { IsCountOf self.now result }
    {
        (self.revisions.len() - 1) as u64
    }

    /// The revision that stands for so many of the first records. It is `None` above `len`.
    pub fn at(&self, number: u64) -> Option<&Revision>
        ensures revision { option_copied result ≡ slice_get self.now number }
        ensures stands { IsRevisionAt self.now number (option_copied result) }
    {
        self.revisions.get(number as usize)
    }

    /// What a change leads to at the revision of a number, by a caller that holds another: the
    /// next revision, or the cause for which it is cancelled.
    fn next_after(
        &self,
        made: &mut Made,
        op: &Op,
        at: u64,
        held: u64,
    ) -> Result<Result<Revision, Cancel>, AllocError>
        requires op { IsOpInRange (plain_op op.now) }
        requires held { held ≤ at }
        requires at { at ≤ last_number self.now }
        ensures { IfOk result (IsNextAfter self.now (plain_op op.now) at held) }
    {
        let front = &self.revisions[at as usize];
        let held = &self.revisions[held as usize];
        match prepare(self.alloc, made, op, front, held) {
            Ok(next) => Ok(Ok(next)),
            Err(PrepareRefusal::Cancel(cause)) => Ok(Err(cause)),
            Err(PrepareRefusal::Memory) => Err(AllocError),
        }
    }

    /// Adds a record, where nothing cancels its change; else the cause is answered.
    ///
    /// The record holds a revision of the history, and its change is in range. Where it is
    /// cancelled, or there is no memory, the history is as before. It costs what preparing the
    /// change costs.
    pub fn push(&mut self, made: &mut Made, entry: &Record) -> Result<Option<Cancel>, AllocError>
        requires op { IsOpInRange (plain_op entry.now.op.value) }
        requires held { entry.now.held ≤ last_number self.old }
        ensures { IsPushAnswer self.old self.new (plain_record entry.now) result }
    {
        match self.next_after(made, &entry.op, self.len(), entry.held)? {
            Ok(next) => {
                self.revisions.push(next)?;
                Ok(None)
            }
            Err(cause) => Ok(Some(cause)),
        }
    }

    /// Why a change is cancelled after so many of the first records, by a caller that holds the
    /// revision of an earlier number, or of that one; `None` where it is not.
    ///
    /// The change is in range. It costs what preparing the change costs, and fails for want of
    /// memory alone.
    pub fn cause(
        &self,
        made: &mut Made,
        op: &Op,
        at: u64,
        held: u64,
    ) -> Result<Option<Cancel>, AllocError>
        requires op { IsOpInRange (plain_op op.now) }
        requires held { held ≤ at }
        requires at { at ≤ last_number self.now }
        ensures { IfOk result (IsCauseAt self.now (plain_op op.now) at held) }
    {
        Ok(self.next_after(made, op, at, held)?.err())
    }
}
