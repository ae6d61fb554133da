//! The rule of a spine, and a type for each kind of step that says what it tells. These types are
//! for the proofs alone: no value of them is made.

ghost use Rattle.std.specs.Prelude.{ℕ};
ghost use Rattle.commit_spine.specs.Passes.{fresh_pass, joined_away};
ghost use Rattle.commit_spine.specs.StepKinds.{after_split, split_off, after_join};
ghost use Rattle.commit_spine.specs.SpineRule.{SpineHolds};
ghost use Rattle.commit_spine.specs.StepTells.{load_tells, load_for_look_tells, compare_tells, take_for_look_tells, take_for_offer_tells, answered_look_tells, look_in_vain_tells, admitted_offer_tells};

use crate::mark::SpineMark;
use crate::store::Store;
use atomic_table::{Join, Play, Seat, Split, TableRule};
use std::marker::{Brand, Model, PhantomData};

/// What a pass keeps.
pub struct Kept {
    nothing: PhantomData<()>,
}

impl Model for Kept {
    ghost use Rattle.commit_spine.specs.Passes.{KeptByPass, joined_away};
    ghost use Rattle.commit_spine.specs.Codes.{coded_kept_by_pass};

    ghost Value = { KeptByPass };

    ghost coded = { coded_kept_by_pass };

    ghost view = { λ _. joined_away };
}

/// With what a pass steps on the word.
pub type SpineSeat = Seat<Option<Store>, Kept>;

/// All passes have one history.
pub struct OneHistory;

impl TableRule<Option<Store>, Kept, SpineMark> for OneHistory {
    ghost holds = { λ mark. SpineHolds mark };

    ghost first = { λ mark. fresh_pass mark mark.seats mark.room };
}

pub struct Load;

impl Play<Option<Store>, Kept> for Load {
    ghost then = { load_tells };
}

pub struct LoadForLook;

impl Play<Option<Store>, Kept> for LoadForLook {
    ghost then = { load_for_look_tells };
}

pub struct Compare;

impl Play<Option<Store>, Kept> for Compare {
    ghost then = { compare_tells };
}

pub struct TakeForLook;

impl Play<Option<Store>, Kept> for TakeForLook {
    ghost then = { take_for_look_tells };
}

pub struct TakeForOffer;

impl Play<Option<Store>, Kept> for TakeForOffer {
    ghost then = { take_for_offer_tells };
}

pub struct AnsweredLook;

impl Play<Option<Store>, Kept> for AnsweredLook {
    ghost then = { answered_look_tells };
}

pub struct LookInVain;

impl Play<Option<Store>, Kept> for LookInVain {
    ghost then = { look_in_vain_tells };
}

pub struct AdmittedOffer;

impl Play<Option<Store>, Kept> for AdmittedOffer {
    ghost then = { admitted_offer_tells };
}

/// How many permits a split gives away, which each split says for itself.
pub trait Portion {
    ghost permits: { ℕ };
}

impl Portion for Brand {
    ghost permits = { 0 };
}

pub struct SplitBy<N> {
    portion: PhantomData<N>,
}

impl<N: Portion> Split<Kept> for SplitBy<N> {
    ghost left = { after_split N.permits };

    ghost right = { split_off N.permits };
}

pub struct JoinPasses;

impl Join<Kept> for JoinPasses {
    ghost both = { after_join };

    ghost spent = { joined_away };
}
