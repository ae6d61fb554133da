//! What one holder of a spine has.

ghost use Rattle.std.specs.Prelude.{◌≡◌};

use crate::rule::SpineSeat;
use std::marker::Model;

/// A holder of a spine: what it has seen, and how much it may still do. It has no turn between two
/// calls.
#[derive(Drop)]
pub struct SpinePass {
    pub(crate) seat: SpineSeat,
    pub(crate) number: u64,
    pub(crate) permits: u64,
    pub(crate) busy: u64,
    pub(crate) shares: u32,
}

impl Model for SpinePass {
    ghost use Rattle.commit_spine.specs.SpinePasses.{PassValue, coded_pass, IsAtRest};

    ghost Value = { PassValue };

    ghost coded = { coded_pass };

    ghost view = { λ p. record { spine = p.seat.table_id; kept = p.seat.me.0 } };

    ghost invariant = { λ p. IsAtRest p.seat.me p.number p.permits p.busy p.shares };
}

impl SpinePass {
    /// Its shares of the spine.
    pub fn shares(&self) -> u32
        ensures { result ≡ self.now.kept.shares }
    {
        self.shares
    }

    /// How many of its offers may still be admitted.
    pub fn permits(&self) -> u64
        ensures { result ≡ self.now.kept.permits }
    {
        self.permits
    }

    /// How often a call of it found that another pass had the turn.
    pub fn busy(&self) -> u64
        ensures { result ≡ self.now.kept.busy }
    {
        self.busy
    }
}
