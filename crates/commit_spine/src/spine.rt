//! The history that threads share, and its calls.

ghost use Rattle.std.specs.Prelude.{◌≡◌, ◌^◌, ◌<◌, ◌≤◌, ◌∷◌, ◌++◌, [], length, IfOk, Some};
ghost use Rattle.tree_revision.specs.Records.{plain_record};
ghost use Rattle.tree_revision.specs.Stands.{StandsFor};
ghost use Rattle.tree_revision.specs.Lawful.{IsLawful};
ghost use Rattle.tree_revision.specs.Ports.{BeginsWith};
ghost use Rattle.commit_spine.specs.Passes.{no_turn, fresh_pass};
ghost use Rattle.commit_spine.specs.StepKinds.{after_split, split_off, after_join};
ghost use Rattle.commit_spine.specs.StepTells.{IsEndOf};
ghost use Rattle.commit_spine.specs.Calls.{spine_id, IsPassOf, IsNumberFound, IsTurnOf, IsLookOf, IsOfferOf};

use crate::mark::SpineMark;
use crate::pass::SpinePass;
use crate::rule::{Portion, SpineSeat};
use crate::spine_parts::Spine;
use crate::store::Store;
use atomic_table::{Refused, Table};
use counts::raise;
use std::alloc::{AllocError, Global};
use std::marker::Brand;
use tree_revision::{LookRefusal, OfferRefusal, Record, Revision};

impl Spine {
    /// A history with no records, on a surface before its first commit, with memory for `room`
    /// records, and a pass that has all shares and permits.
    pub fn start(
        alloc: Global,
        room: u64,
        seats: u32,
        first: Revision,
    ) -> Result<(Spine, SpinePass), AllocError>
        requires room { room < 2 ^ 62 }
        requires seats { 1 ≤ seats }
        requires opening { first.newest.number ≡ 0 }
        ensures spine { IfOk result (λ started. IsPassOf started.0 started.1) }
        ensures fresh { IfOk result (λ started. started.1.kept ≡ fresh_pass (record { first = first.newest.size; room = room; seats = seats }) seats room) }
    {
        first.stands_for_none();
        let mark = SpineMark {
            first: first.size(),
            room,
            seats,
        };
        let records = Vec::with_capacity(alloc, room as usize)?;
        let store = Store {
            records,
            front: first,
        };
        let mut slots = Vec::with_capacity(alloc, 1)?;
        let Ok(()) = slots.push(Some(store)) else {
            return Err(AllocError);
        };
        match Table::new(alloc, &[0], slots, &mark) {
            Ok((table, seat)) => Ok((
                Spine { table },
                SpinePass {
                    seat,
                    number: 0,
                    permits: room,
                    busy: 0,
                    shares: seats,
                },
            )),
            Err(Refused { slots }) => {
                drop(slots);
                Err(AllocError)
            }
        }
    }

    /// The number of records, by one load.
    pub fn number(&self, pass: &mut SpinePass) -> u64
        requires spine { IsPassOf self.now pass.old }
        ensures spine { pass.new.spine ≡ pass.old.spine }
        ensures found { IsNumberFound pass.old.kept pass.new.kept result }
    {
        self.load(&mut pass.seat) / 2
    }

    /// Takes the turn for a look, at the number that it answers, or finds that the turn is out.
    fn take_turn(&self, seat: &mut SpineSeat) -> Option<u64>
        requires spine { seat.old.table_id ≡ spine_id self.now }
        requires hand { seat.old.me.1 ≡ [] }
        requires share { 0 < seat.old.me.0.shares }
        ensures seat { (seat.new.table_id ≡ seat.old.table_id) × (seat.new.id ≡ seat.old.id) }
        ensures turn { IsTurnOf seat.old.me seat.new.me result }
    {
        let mut word = self.load_for_look(seat);
        while word % 2 == 0 {
            let Err(found) = self.take_for_look(seat, word) else {
                return Some(word / 2);
            };
            word = found;
        }
        None
    }

    /// The newest revision, which stands for all that is seen from now on.
    pub fn try_look(&self, pass: &mut SpinePass) -> Result<Revision, LookRefusal>
        requires spine { IsPassOf self.now pass.old }
        ensures spine { pass.new.spine ≡ pass.old.spine }
        ensures reached { length pass.new.kept.seen ≤ pass.new.kept.floor }
        ensures answer { IsLookOf pass.old.kept pass.new.kept result }
    {
        let Some(number) = self.take_turn(&mut pass.seat) else {
            pass.busy = raise(pass.busy, 1);
            return Err(LookRefusal::Busy);
        };
        match self.share_front(&mut pass.seat) {
            Ok(front) => {
                self.give_back_answered(&mut pass.seat, number);
                pass.number = number;
                Ok(front)
            }
            Err(AllocError) => {
                self.give_back_in_vain(&mut pass.seat, number);
                Err(LookRefusal::Memory)
            }
        }
    }

    /// Offers a record and the revision after it, directly after what the pass has seen. It is
    /// answered the record's number. It takes no memory.
    pub fn try_offer(
        &self,
        pass: &mut SpinePass,
        entry: Record,
        next: Revision,
    ) -> Result<u64, OfferRefusal>
        requires spine { IsPassOf self.now pass.old }
        requires permit { 1 ≤ pass.old.kept.permits }
        requires stands { StandsFor pass.old.kept.mark.first next (pass.old.kept.seen ++ plain_record entry ∷ []) }
        ensures spine { pass.new.spine ≡ pass.old.spine }
        ensures reached { length pass.new.kept.seen ≤ pass.new.kept.floor }
        ensures answer { IsOfferOf pass.old.kept pass.new.kept entry next result }
    {
        if let Err(word) = self.take_for_offer(&mut pass.seat, pass.number) {
            if word == 2 * pass.number + 1 {
                pass.busy = raise(pass.busy, 1);
                return Err(OfferRefusal::Busy { entry, next });
            }
            return Err(OfferRefusal::Behind {
                found: word / 2,
                entry,
                next,
            });
        }
        self.give_back_admitted(&mut pass.seat, pass.number, entry, next);
        pass.number += 1;
        pass.permits -= 1;
        Ok(pass.number)
    }

    /// A pass with one share and these permits, which has seen as much.
    pub fn split(&self, pass: &mut SpinePass, permits: u64) -> SpinePass
        requires spine { IsPassOf self.now pass.old }
        requires shares { 2 ≤ pass.old.kept.shares }
        requires permits { permits ≤ pass.old.kept.permits }
        ensures spine { pass.new.spine ≡ pass.old.spine }
        ensures kept { pass.new.kept ≡ after_split permits pass.old.kept }
        ensures off { result ≡ record { spine = pass.old.spine; kept = split_off permits pass.old.kept } }
    {
        self.split_by::<Brand>(pass, permits)
    }

    /// The same, with the number of permits in a type parameter.
    fn split_by<N: Portion>(&self, pass: &mut SpinePass, permits: u64) -> SpinePass
        requires spine { IsPassOf self.now pass.old }
        requires shares { 2 ≤ pass.old.kept.shares }
        requires permits { permits ≤ pass.old.kept.permits }
        requires portion { permits ≡ N.permits }
        ensures spine { pass.new.spine ≡ pass.old.spine }
        ensures kept { pass.new.kept ≡ after_split permits pass.old.kept }
        ensures off { result ≡ record { spine = pass.old.spine; kept = split_off permits pass.old.kept } }
    {
        let seat = self.split_seat::<N>(&mut pass.seat);
        pass.permits -= permits;
        pass.shares -= 1;
        SpinePass {
            seat,
            number: pass.number,
            permits,
            busy: 0,
            shares: 1,
        }
    }

    /// Joins a pass with another: it has seen the longer of their lists, with which both begin.
    pub fn join(&self, keep: &mut SpinePass, gone: SpinePass)
        requires spine { IsPassOf self.now keep.old }
        requires gone { IsPassOf self.now gone }
        ensures spine { keep.new.spine ≡ keep.old.spine }
        ensures kept { keep.new.kept ≡ after_join keep.old.kept gone.kept }
        ensures seen { BeginsWith keep.new.kept.seen keep.old.kept.seen }
        ensures gone_seen { BeginsWith keep.new.kept.seen gone.kept.seen }
        ensures lawful { IsLawful keep.new.kept.mark.first keep.new.kept.seen }
    {
        let SpinePass {
            seat,
            number,
            permits,
            busy,
            shares,
        } = gone;
        self.join_seats(&mut keep.seat, seat);
        keep.number = keep.number.max(number);
        keep.permits += permits;
        keep.busy = raise(keep.busy, busy);
        keep.shares += shares;
    }

    /// Ends the history, by the holder of all shares.
    pub fn close(self, pass: SpinePass) -> Store
        requires spine { IsPassOf self pass }
        requires shares { pass.kept.shares ≡ pass.kept.mark.seats }
        ensures { IsEndOf pass.kept (Some result) }
    {
        let Spine { table } = self;
        let SpinePass { seat, .. } = pass;
        let mut closed = table.close_with(seat);
        let slot = closed.take(0);
        closed.free();
        match slot {
            Some(store) => store,
            None => unreachable!(),
        }
    }
}
