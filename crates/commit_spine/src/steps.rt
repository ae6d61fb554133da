//! The kinds of step on a spine's word, one function each. Nothing else touches the word, and each
//! function says what its kind leaves of what the pass keeps.

ghost use Rattle.std.specs.Prelude.{◌≡◌, ℕ, ◌%◌, ◌^◌, ◌<◌, ◌≤◌, [], ◌∷◌, ◌++◌, length, Some, None, IfOk};
ghost use Rattle.tree_revision.specs.Records.{plain_record};
ghost use Rattle.tree_revision.specs.Stands.{StandsFor};
ghost use Rattle.commit_spine.specs.Passes.{no_turn, history_kept};
ghost use Rattle.commit_spine.specs.Stores.{Slot};
ghost use Rattle.commit_spine.specs.StepKinds.{after_load, after_load_for_look, after_answered_look, after_look_in_vain, after_admitted_offer, after_split, split_off, after_join};
ghost use Rattle.commit_spine.specs.StepTells.{FindsWord, IsWithinMark};
ghost use Rattle.commit_spine.specs.Calls.{spine_id, IsTakeForLook, IsTakeForOffer, HasLookInHand, HasOfferInHand};

use crate::rule::{
    AdmittedOffer, AnsweredLook, Compare, JoinPasses, Load, LoadForLook, LookInVain, Portion,
    SpineSeat, SplitBy, TakeForLook, TakeForOffer,
};
use crate::spine_parts::Spine;
use crate::store::Store;
use std::alloc::AllocError;
use tree_revision::{Record, Revision};

/// Which word of the table, and which slot.
const ONLY: usize = 0;

impl Spine {
    /// Loads the word, for its number.
    pub(crate) fn load(&self, seat: &mut SpineSeat) -> u64
        requires spine { seat.old.table_id ≡ spine_id self.now }
        ensures seat { (seat.new.table_id ≡ seat.old.table_id) × (seat.new.id ≡ seat.old.id) }
        ensures kept { FindsWord (after_load seat.old.me.0 result) result seat.old.me seat.new.me }
    {
        self.table.shared.load::<Load>(seat, ONLY)
    }

    /// Loads the word, for a look.
    pub(crate) fn load_for_look(&self, seat: &mut SpineSeat) -> u64
        requires spine { seat.old.table_id ≡ spine_id self.now }
        ensures seat { (seat.new.table_id ≡ seat.old.table_id) × (seat.new.id ≡ seat.old.id) }
        ensures kept { FindsWord (after_load_for_look seat.old.me.0 result) result seat.old.me seat.new.me }
    {
        self.table.shared.load::<LoadForLook>(seat, ONLY)
    }

    /// Takes the turn for a look at an even word, or finds another one.
    pub(crate) fn take_for_look(&self, seat: &mut SpineSeat, word: u64) -> Result<(), u64>
        requires spine { seat.old.table_id ≡ spine_id self.now }
        requires share { 0 < seat.old.me.0.shares }
        requires even { word % 2 ≡ 0 }
        ensures seat { (seat.new.table_id ≡ seat.old.table_id) × (seat.new.id ≡ seat.old.id) }
        ensures kept { IsTakeForLook seat.old.me word seat.new.me result }
    {
        let words = &self.table.shared;
        let found = words.compare_exchange::<TakeForLook>(seat, ONLY, word, word + 1);
        if found == word { Ok(()) } else { Err(found) }
    }

    /// Takes the turn for an offer at the number that was seen, or finds another word.
    pub(crate) fn take_for_offer(&self, seat: &mut SpineSeat, number: u64) -> Result<(), u64>
        requires spine { seat.old.table_id ≡ spine_id self.now }
        requires share { 0 < seat.old.me.0.shares }
        requires number { (number ≡ length seat.old.me.0.seen) × (number < 2 ^ 62) }
        ensures seat { (seat.new.table_id ≡ seat.old.table_id) × (seat.new.id ≡ seat.old.id) }
        ensures kept { IsTakeForOffer seat.old.me seat.new.me result }
    {
        let words = &self.table.shared;
        let free = 2 * number;
        let found = words.compare_exchange::<TakeForOffer>(seat, ONLY, free, free + 1);
        if found == free { Ok(()) } else { Err(found) }
    }

    /// Gives the turn back behind a look that is answered.
    pub(crate) fn give_back_answered(&self, seat: &mut SpineSeat, number: u64)
        requires spine { seat.old.table_id ≡ spine_id self.now }
        requires look { HasLookInHand seat.old.me number }
        requires small { number < 2 ^ 62 }
        ensures seat { (seat.new.table_id ≡ seat.old.table_id) × (seat.new.id ≡ seat.old.id) }
        ensures kept { seat.new.me ≡ (after_answered_look seat.old.me.0 (history_kept seat.old.me.0.turn), []) }
    {
        self.table
            .shared
            .store::<AnsweredLook>(seat, ONLY, 2 * number);
    }

    /// Gives the turn back behind a look that found no memory.
    pub(crate) fn give_back_in_vain(&self, seat: &mut SpineSeat, number: u64)
        requires spine { seat.old.table_id ≡ spine_id self.now }
        requires look { HasLookInHand seat.old.me number }
        requires small { number < 2 ^ 62 }
        ensures seat { (seat.new.table_id ≡ seat.old.table_id) × (seat.new.id ≡ seat.old.id) }
        ensures kept { seat.new.me ≡ (after_look_in_vain seat.old.me.0, []) }
    {
        self.table
            .shared
            .store::<LookInVain>(seat, ONLY, 2 * number);
    }

    /// Puts the record and the revision after it into the store in hand, and gives the turn back
    /// behind the offer.
    pub(crate) fn give_back_admitted(
        &self,
        seat: &mut SpineSeat,
        number: u64,
        entry: Record,
        next: Revision,
    )
        requires spine { seat.old.table_id ≡ spine_id self.now }
        requires offer { HasOfferInHand seat.old.me number }
        requires small { number < 2 ^ 62 }
        requires next { StandsFor seat.old.me.0.mark.first next (seat.old.me.0.seen ++ plain_record entry ∷ []) }
        ensures seat { (seat.new.table_id ≡ seat.old.table_id) × (seat.new.id ≡ seat.old.id) }
        ensures kept { seat.new.me ≡ (after_admitted_offer seat.old.me.0 seat.old.me.0.seen (plain_record entry), []) }
    {
        let mut taken = self.lift(seat);
        let Ok(()) = taken.records.push(entry) else {
            unreachable!()
        };
        taken.front = next;
        self.lay(seat, taken);
        self.table
            .shared
            .store::<AdmittedOffer>(seat, ONLY, 2 * number + 2);
    }

    /// Splits a seat in two.
    pub(crate) fn split_seat<N: Portion>(&self, seat: &mut SpineSeat) -> SpineSeat
        requires spine { seat.old.table_id ≡ spine_id self.now }
        requires turn { seat.old.me.0.turn ≡ no_turn }
        requires shares { 2 ≤ seat.old.me.0.shares }
        requires permits { N.permits ≤ seat.old.me.0.permits }
        ensures seat { (seat.new.table_id ≡ seat.old.table_id) × (seat.new.id ≡ seat.old.id) }
        ensures kept { seat.new.me ≡ (after_split N.permits seat.old.me.0, seat.old.me.1) }
        ensures spine { result.table_id ≡ seat.old.table_id }
        ensures off { result.me ≡ (split_off N.permits seat.old.me.0, []) }
    {
        self.table.shared.split_seat::<SplitBy<N>>(seat)
    }

    /// Joins a seat with another, and compares what the two have seen.
    pub(crate) fn join_seats(&self, seat: &mut SpineSeat, gone: SpineSeat)
        requires spine { seat.old.table_id ≡ spine_id self.now }
        requires gone_spine { gone.table_id ≡ spine_id self.now }
        requires turn { seat.old.me.0.turn ≡ no_turn }
        requires gone_turn { gone.me.0.turn ≡ no_turn }
        requires gone_hand { gone.me.1 ≡ [] }
        requires share { 0 < seat.old.me.0.shares }
        ensures seat { (seat.new.table_id ≡ seat.old.table_id) × (seat.new.id ≡ seat.old.id) }
        ensures kept { seat.new.me ≡ (after_join seat.old.me.0 gone.me.0, seat.old.me.1) }
        ensures within { IsWithinMark seat.new.me.0 }
    {
        self.table.shared.join_seat::<JoinPasses>(seat, gone);
        self.table.shared.load::<Compare>(seat, ONLY);
    }

    /// Shares the front of the store in hand.
    pub(crate) fn share_front(&self, seat: &mut SpineSeat) -> Result<Revision, AllocError>
        requires spine { seat.old.table_id ≡ spine_id self.now }
        requires look { (number : ℕ) × HasLookInHand seat.old.me number }
        ensures seat { (seat.new.table_id ≡ seat.old.table_id) × (seat.new.id ≡ seat.old.id) }
        ensures kept { seat.new.me ≡ seat.old.me }
        ensures front { IfOk result (λ front. StandsFor seat.old.me.0.mark.first front (history_kept seat.old.me.0.turn)) }
    {
        let store = self.lift(seat);
        let front = store.front.share();
        self.lay(seat, store);
        front
    }

    /// Lifts the store out of the slot in hand.
    fn lift(&self, seat: &mut SpineSeat) -> Store
        requires spine { seat.old.table_id ≡ spine_id self.now }
        requires hand { (store : _) × (seat.old.me.1 ≡ (0, Some store) ∷ []) }
        ensures seat { (seat.new.table_id ≡ seat.old.table_id) × (seat.new.id ≡ seat.old.id) }
        ensures lifted { seat.old.me.1 ≡ (0, Some result) ∷ [] }
        ensures empty { seat.new.me ≡ (seat.old.me.0, (0, None) ∷ []) }
    {
        match self.table.shared.exchange(seat, ONLY, None) {
            Some(store) => store,
            None => unreachable!(),
        }
    }

    /// Lays a store into the empty slot in hand.
    fn lay(&self, seat: &mut SpineSeat, store: Store)
        requires spine { seat.old.table_id ≡ spine_id self.now }
        requires hand { seat.old.me.1 ≡ (0, None) ∷ [] }
        ensures seat { (seat.new.table_id ≡ seat.old.table_id) × (seat.new.id ≡ seat.old.id) }
        ensures laid { seat.new.me ≡ (seat.old.me.0, (0, Some store) ∷ []) }
    {
        match self.table.shared.exchange(seat, ONLY, Some(store)) {
            None => {}
            Some(_) => unreachable!(),
        }
    }
}
