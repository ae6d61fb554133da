//! A surface's history in one hand.

ghost use Rattle.std.specs.Prelude.{◌≡◌, ◌≤◌, ◌<◌, [], ◌∷◌, ◌++◌, length, IfOk};
ghost use Rattle.tree_revision.specs.Records.{plain_record};
ghost use Rattle.tree_revision.specs.Stands.{StandsFor};
ghost use Rattle.commit_core.specs.Plain.{plain_records};
ghost use Rattle.commit_core.specs.PlainPorts.{records_of, told_of, IsToldOf};

use crate::plain_parts::{PlainPass, PlainPort, PlainSpine};
use sqlite_items::Items;
use std::alloc::{AllocError, Global};
use std::mem;
use tree_revision::{LookRefusal, OfferRefusal, Port, Record, Revision};

/// No memory holds as many records as this.
const TOO_MANY_RECORDS: u64 = 1 << 62;

impl PlainSpine {
    /// A history with no records, on a surface before its first commit, with memory for `room`
    /// records. No memory holds 2^62 of them.
    pub fn start(alloc: Global, room: u64, first: Revision) -> Result<PlainSpine, AllocError>
        requires opening { first.newest.number ≡ 0 }
        ensures first { IfOk result (λ spine. spine.first ≡ first.newest.size) }
        ensures room { IfOk result (λ spine. spine.room ≡ room) }
        ensures records { IfOk result (λ spine. records_of spine ≡ []) }
    {
        first.stands_for_none();
        if room >= TOO_MANY_RECORDS {
            return Err(AllocError);
        }
        Ok(PlainSpine {
            first: first.size(),
            room,
            records: Vec::with_capacity(alloc, room as usize)?,
            front: first,
        })
    }

    /// A pass that has seen nothing.
    pub fn pass(&self) -> PlainPass
        ensures seen { result.seen ≡ 0 }
        ensures floor { result.floor ≡ 0 }
        ensures looks { result.looks ≡ 0 }
    {
        PlainPass {
            seen: 0,
            floor: 0,
            looks: 0,
        }
    }

    /// The history as the holder of this pass sees it, which has reached no more than there are
    /// records.
    pub fn port(self, pass: PlainPass) -> PlainPort
        requires reached { pass.floor ≤ length (records_of self) }
        ensures told { IsToldOf self pass (told_of result) }
        ensures own { (told_of result).own ≡ [] }
    {
        let begun = self.front.number();
        PlainPort {
            spine: self,
            pass,
            begun,
        }
    }

    /// The records, in order.
    pub fn records(&self) -> &[Record]
        ensures { plain_records result.now ≡ records_of self.now }
    {
        &self.records
    }

    /// The revision that stands for all records.
    pub fn front(&self) -> &Revision
        ensures { StandsFor self.now.first result.now (records_of self.now) }
    {
        &self.front
    }

    /// The records, in order, and the revision that stands for them all. Nothing is copied.
    pub fn into_parts(self) -> (Items<Record>, Revision)
        ensures records { plain_records result.0 ≡ records_of self }
        ensures front { StandsFor self.first result.1 (records_of self) }
    {
        (Items::from_vec(self.records), self.front)
    }

    /// Adds a record, for which there is room, and the revision after it.
    fn add(&mut self, entry: Record, next: Revision)
        requires room { length (records_of self.old) < self.old.room }
        requires next { StandsFor self.old.first next (records_of self.old ++ plain_record entry ∷ []) }
        ensures records { records_of self.new ≡ records_of self.old ++ plain_record entry ∷ [] }
        ensures first { self.new.first ≡ self.old.first }
        ensures room { self.new.room ≡ self.old.room }
    {
        let Ok(()) = self.records.push(entry) else {
            unreachable!()
        };
        self.front = next;
    }
}

impl PlainPort {
    /// The spine and the pass, as the port's calls left them.
    pub fn parts(self) -> (PlainSpine, PlainPass)
        ensures told { IsToldOf result.0 result.1 (told_of self) }
        ensures reached { result.1.floor ≤ length (records_of result.0) }
        ensures within { length (records_of result.0) ≤ result.0.room }
    {
        (self.spine, self.pass)
    }

    /// Exchanges the port's pass for that one. No record is moved, and the spine is as before.
    pub fn exchange(&mut self, pass: &mut PlainPass)
        requires reached { pass.old.floor ≤ length (records_of self.old.spine) }
        ensures spine { self.new.spine ≡ self.old.spine }
        ensures told { IsToldOf self.new.spine pass.old (told_of self.new) }
        ensures own { (told_of self.new).own ≡ (told_of self.old).own }
        ensures back { pass.new ≡ self.old.pass }
        ensures back_reached { pass.new.floor ≤ length (records_of self.new.spine) }
    {
        mem::swap(&mut self.pass, pass);
    }
}

impl Port for PlainPort {
    ghost told = { λ port. told_of port };

    fn try_look(&mut self) -> Result<Revision, LookRefusal> {
        let Ok(front) = self.spine.front.share() else {
            return Err(LookRefusal::Memory);
        };
        self.pass = PlainPass {
            seen: front.number(),
            floor: front.number(),
            looks: self.pass.looks.saturating_add(1),
        };
        Ok(front)
    }

    fn try_offer(&mut self, entry: Record, next: Revision) -> Result<u64, OfferRefusal> {
        let newest = self.spine.front.number();
        if self.pass.seen < newest {
            self.pass = PlainPass {
                seen: self.pass.seen,
                floor: newest,
                looks: self.pass.looks,
            };
            return Err(OfferRefusal::Behind {
                found: newest,
                entry,
                next,
            });
        }
        let number = next.number();
        self.spine.add(entry, next);
        self.pass = PlainPass {
            seen: number,
            floor: number,
            looks: self.pass.looks,
        };
        Ok(number)
    }
}
