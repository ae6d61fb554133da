//! A surface's history as the holder of a pass sees it.

ghost use Rattle.std.specs.Prelude.{◌≡◌};
ghost use Rattle.std.specs.Coded.{codes};
ghost use Rattle.atomic_table.specs.Seated.{table_id_coded};
ghost use Rattle.commit_spine.specs.SpinePorts.{spine_told};

use crate::pass::SpinePass;
use crate::spine_parts::Spine;
use tree_revision::{LookRefusal, OfferRefusal, Port, Record, Revision};

/// A pass, with the spine that it is of.
#[derive(Drop)]
pub struct SpinePort<'a> {
    spine: &'a Spine,
    pass: SpinePass,
    ghost one_spine: { pass.spine ≡ spine.now.table.shared.table_id } by { Prim.hlevel (table_id_coded, codes) },
}

impl Spine {
    /// The history as the holder of this pass sees it.
    pub fn port<'a>(&'a self, pass: SpinePass) -> SpinePort<'a>
        requires spine { pass.spine ≡ self.now.table.shared.table_id }
        ensures pass { result.pass ≡ pass }
    {
        SpinePort { spine: self, pass }
    }
}

impl<'a> SpinePort<'a> {
    /// The pass, as the port's calls left it.
    pub fn into_pass(self) -> SpinePass
        ensures pass { result ≡ self.entry.pass }
    {
        let SpinePort { spine: _, pass } = self;
        pass
    }
}

impl<'a> Port for SpinePort<'a> {
    ghost told = { λ port. spine_told port.pass };

    fn try_look(&mut self) -> Result<Revision, LookRefusal> {
        self.spine.try_look(&mut self.pass)
    }

    fn try_offer(&mut self, entry: Record, next: Revision) -> Result<u64, OfferRefusal> {
        self.spine.try_offer(&mut self.pass, entry, next)
    }
}
