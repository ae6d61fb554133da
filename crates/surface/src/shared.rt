//! A surface, from its opening to its close.

ghost use Rattle.std.specs.Prelude.{◌≡◌, ◌^◌, ◌<◌, ◌≤◌, [], Some, IfErr, IfOk, OnErr, OnOk, leb};
ghost use Rattle.tree_settle.specs.Limits.{IsSizeInRange};
ghost use Rattle.tree_revision.specs.Lawful.{IsLawful};
ghost use Rattle.tree_revision.specs.Ports.{BeginsWith};
ghost use Rattle.tree_revision.specs.Stands.{StandsFor};
ghost use Rattle.commit_spine.specs.Calls.{IsNumberFound};
ghost use Rattle.commit_spine.specs.Passes.{fresh_pass};
ghost use Rattle.commit_spine.specs.SpinePorts.{spine_told};
ghost use Rattle.commit_spine.specs.StepKinds.{after_join, after_split, split_off};
ghost use Rattle.commit_spine.specs.StepTells.{IsEndOf};

use crate::parts::Surface;
use commit_spine::{Spine, Store};
use shadow_frame::Size;
use std::alloc::{AllocError, Global};
use std::sync::Arc;
use tree_revision::{LookRefusal, OfferRefusal, Port, Record, Revision};

impl Surface {
    /// A surface of that size with no records, and its first revision. It has memory for `room`
    /// records, all permits for them, and so many shares.
    pub fn open(
        alloc: Global,
        size: Size,
        room: u64,
        seats: u32,
    ) -> Result<(Surface, Revision), AllocError>
        requires size { IsSizeInRange size }
        requires room { room < 2 ^ 62 }
        requires seats { 1 ≤ seats }
        ensures fresh { IfOk result (λ start. start.0.pass.kept ≡ fresh_pass (record { first = size; room = room; seats = seats }) seats room) }
        ensures number { IfOk result (λ start. start.1.newest.number ≡ 0) }
        ensures stands { IfOk result (λ start. StandsFor size start.1 []) }
    {
        let first = Revision::opening(alloc, size)?;
        let held = first.share()?;
        let (spine, pass) = Spine::start(alloc, room, seats, first)?;
        let Ok(spine) = Arc::new(alloc, spine) else {
            return Err(AllocError);
        };
        Ok((Surface { spine, pass }, held))
    }

    /// Another way to the surface for another thread, with one share and these permits. It has seen
    /// as much.
    ///
    /// Where there is no memory, all is as before.
    pub fn split(&mut self, permits: u64) -> Result<Surface, AllocError>
        requires shares { 2 ≤ self.old.pass.kept.shares }
        requires permits { permits ≤ self.old.pass.kept.permits }
        ensures spine { self.new.pass.spine ≡ self.old.pass.spine }
        ensures kept { OnOk result (self.new.pass.kept ≡ after_split permits self.old.pass.kept) }
        ensures off { IfOk result (λ other. other.pass ≡ record { spine = self.old.pass.spine; kept = split_off permits self.old.pass.kept }) }
        ensures stays { OnErr result (self.new.pass ≡ self.old.pass) }
    {
        let spine = Arc::try_clone(&self.spine)?;
        let pass = self.spine.split(&mut self.pass, permits);
        Ok(Surface { spine, pass })
    }

    /// Takes another way to the same surface back, with its shares and permits. What is seen is then
    /// the longer of what the two have seen.
    pub fn join(&mut self, gone: Surface)
        requires one { gone.pass.spine ≡ self.old.pass.spine }
        ensures spine { self.new.pass.spine ≡ self.old.pass.spine }
        ensures kept { self.new.pass.kept ≡ after_join self.old.pass.kept gone.pass.kept }
        ensures seen { BeginsWith self.new.pass.kept.seen self.old.pass.kept.seen }
        ensures gone_seen { BeginsWith self.new.pass.kept.seen gone.pass.kept.seen }
        ensures lawful { IsLawful self.new.pass.kept.mark.first self.new.pass.kept.seen }
    {
        let Surface { spine: _, pass } = gone;
        self.spine.join(&mut self.pass, pass);
    }

    /// Ends the surface, by the holder of all shares: its records and its newest revision.
    ///
    /// Where the memory of the history has another owner still, the surface is handed back as it
    /// was.
    pub fn close(self) -> Result<Store, Surface>
        requires shares { self.pass.kept.shares ≡ self.pass.kept.mark.seats }
        ensures end { IfOk result (λ store. IsEndOf self.pass.kept (Some store)) }
        ensures back { IfErr result (λ surface. surface.pass ≡ self.pass) }
    {
        let Surface { spine, pass } = self;
        match Arc::try_unwrap(spine) {
            Ok(spine) => Ok(spine.close(pass)),
            Err(spine) => Err(Surface { spine, pass }),
        }
    }

    /// The number of records, by one load.
    pub fn number(&mut self) -> u64
        ensures spine { self.new.pass.spine ≡ self.old.pass.spine }
        ensures found { IsNumberFound self.old.pass.kept self.new.pass.kept result }
    {
        self.spine.number(&mut self.pass)
    }

    /// Whether there are so many records, by one load.
    pub fn has_reached(&mut self, number: u64) -> bool
        ensures spine { self.new.pass.spine ≡ self.old.pass.spine }
        ensures found { IsNumberFound self.old.pass.kept self.new.pass.kept self.new.pass.kept.floor }
        ensures reached { result ≡ leb number self.new.pass.kept.floor }
    {
        number <= self.number()
    }

    /// Its shares.
    pub fn shares(&self) -> u32
        ensures { result ≡ self.now.pass.kept.shares }
    {
        self.pass.shares()
    }

    /// How many records may still be admitted by it.
    pub fn permits(&self) -> u64
        ensures { result ≡ self.now.pass.kept.permits }
    {
        self.pass.permits()
    }
}

impl Port for Surface {
    ghost told = { λ surface. spine_told surface.pass };

    fn try_look(&mut self) -> Result<Revision, LookRefusal> {
        self.spine.try_look(&mut self.pass)
    }

    fn try_offer(&mut self, entry: Record, next: Revision) -> Result<u64, OfferRefusal> {
        self.spine.try_offer(&mut self.pass, entry, next)
    }
}
